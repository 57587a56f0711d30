// A score as a replay file of edition 2 carries it: the bits of an f32.
ghost use Rattle.std.specs.Prelude.{◌≡◌};
ghost use Rattle.std.specs.Float.{binary32};
ghost use Rattle.std.specs.Float.Ieee.{nan_bits};
ghost use Rattle.score.specs.ScoreWord.{is_score_word};

// Whether a word has a NaN's bits: the exponent is all ones, and the fraction isn't zero.
fn is_nan(word: u32) -> bool
    ensures { result ≡ nan_bits binary32 word }
{
    (word % 2147483648 / 8388608 == 255) & !(word % 8388608 == 0)
}

// Whether a word is the bits of a score.
pub fn is_score_word(word: u32) -> bool
    ensures { result ≡ is_score_word word }
{
    // No float is made of a NaN's bits.
    if is_nan(word) {
        return false;
    }
    crate::is_score(f32::from_bits(word))
}
