// The parts of a blended row: eight lanes, and what is left of a row byte by byte. Each of the functions over eight lanes has one caller, so that it is
// compiled in place.
ghost use Rattle.std.specs.Prelude.{◌≡◌, ℕ, ◌%◌, ◌≤◌, ◌<◌, length, get_or};
ghost use Rattle.pixel.specs.Rules.{blend_mode_factors};
ghost use Rattle.pixel.specs.declared.blend.BlendMode.TheVariants.{SrcOver};
ghost use Rattle.lanes.specs.Lanes.{Done};
ghost use Rattle.plan.specs.Blend.{blend_at, lane_at};

use lanes::top;
use plan::Plan;
use plan::channels::{blend_one, blend_two, over_two};

// The eight lanes of four pixels under any rule, and under SRC_OVER, which goes by the complement of the source.
pub fn blend8(s: &[u16; 8], d: &[u16; 8], p: Plan) -> [u16; 8]
    ensures { (k : ℕ) → k < 8 → get_or result k 0 ≡ lane_at p.rule s.now d.now k }
{
    let mut r = [0u16; 8];
    for i in 0..8 {
        r[i] = blend_two(p, s[i], d[i], top(s[i / 2 * 2 + 1]), top(d[i / 2 * 2 + 1]));
    }
    r
}

pub fn over8(s: &[u16; 8], d: &[u16; 8]) -> [u16; 8]
    ensures { (k : ℕ) → k < 8 → get_or result k 0 ≡ lane_at (blend_mode_factors SrcOver) s.now d.now k }
{
    let mut r = [0u16; 8];
    for i in 0..8 {
        r[i] = over_two(65535 - s[i], d[i], top(65535 - s[i / 2 * 2 + 1]));
    }
    r
}

// The bytes of a row from a to n. A pixel's alpha is changed last, so that its other channels see it as it was.
pub fn blend_bytes(d: &mut [u8], s: &[u8], a: usize, n: usize, p: Plan)
    requires { ((a ≤ n) × ((n ≤ length d.old) × (n ≤ length s.now))) × (n % 4 ≡ 0) }
    ensures { Done (blend_at p.rule s.now d.old) d.old d.new a n }
{
    for j in a..n {
        let k = j / 4 * 4 + 3;
        d[j] = blend_one(p, s[j], d[j], s[k], d[k]);
    }
}
