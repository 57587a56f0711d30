// A reader's score, an f32 from 0 to 1, and the coverage that it gives: the surer the reader, the fainter the tint.
#![tactic(auto)]

pub mod bits;

ghost use Rattle.std.specs.Prelude.{◌≡◌};
ghost use Rattle.score.specs.Coverage.{is_score, coverage_of, greatest_to};

// Whether a number is a score. Both comparisons are false of NaN, and -0.0 passes them.
pub fn is_score(score: f32) -> bool
    ensures { result ≡ is_score score }
{
    (score >= 0.0) & (score <= 1.0)
}

// The greatest whole number to 255 that isn't above a product; 0 if none is. The search is by halves: `end` and what follows it are above.
// Kept (promise): docs/PROMISES.md and `not_above` compare the product with whole numbers as f32; std's casts compare none.
fn greatest(product: f32) -> u8
    ensures { result ≡ greatest_to 255 product }
{
    let mut found: u16 = 0;
    let mut end: u16 = 256;
    while 1 < end - found {
        let middle = (found + end) / 2;
        if (middle as f32) <= product {
            found = middle;
        } else {
            end = middle;
        }
    }
    found as u8
}

// The coverage of a score. What is no score has one too, which nobody asks for: 0 above 1, else 255.
pub fn coverage_of(score: f32) -> u8
    ensures { result ≡ coverage_of score }
{
    255 - greatest(score * 255.0)
}
