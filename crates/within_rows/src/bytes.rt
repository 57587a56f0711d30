// Rows of ARGB8888 bytes blended byte by byte inside one slice: the source's row lies in it too, and no byte lies in both rows.
ghost use Rattle.std.specs.Prelude.{◌≡◌, true, ◌+◌, ◌%◌, ◌≤◌, length};
ghost use Rattle.pixel.specs.Rules.{blend_mode_factors};
ghost use Rattle.pixel.specs.declared.blend.BlendMode.TheVariants.{Add};
ghost use Rattle.lanes.specs.Lanes.{Done};
ghost use Rattle.lanes.specs.Apart.{Apart};
ghost use Rattle.within_rows.specs.Within.{blend_within};

use lanes::bytes::{clear, copy_within};
use plan::Plan;
use plan::channels::{blend_one, held_sum};

// A row under ADD.
pub fn add_bytes(m: &mut [u8], to: usize, from: usize, n: usize)
    requires { Apart (length m.old) to from n × (n % 4 ≡ 0) }
    ensures { Done (blend_within (blend_mode_factors Add) m.old to from) m.old m.new to (to + n) }
{
    for j in 0..n {
        m[to + j] = held_sum(m[from + j], m[to + j]);
    }
}

// The bytes of a row from the a-th on. A pixel's alpha is changed last, so that its other channels see it as it was.
pub fn blend_bytes(m: &mut [u8], to: usize, from: usize, a: usize, n: usize, p: Plan)
    requires { Apart (length m.old) to from n × ((a ≤ n) × (n % 4 ≡ 0)) }
    ensures { Done (blend_within p.rule m.old to from) m.old m.new (to + a) (to + n) }
{
    for j in a..n {
        let k = j / 4 * 4 + 3;
        m[to + j] = blend_one(p, m[from + j], m[to + j], m[from + k], m[to + k]);
    }
}

// A row under a rule whose factors do not go by alpha: added up, copied, left as it is, or cleared.
pub fn constant_within(m: &mut [u8], to: usize, from: usize, n: usize, p: Plan)
    requires { (Apart (length m.old) to from n × (n % 4 ≡ 0)) × (p.constant ≡ true) }
    ensures { Done (blend_within p.rule m.old to from) m.old m.new to (to + n) }
{
    let fs = p.source;
    let fd = p.destination;
    if fs.flip == 255 {
        if fd.flip == 255 {
            add_bytes(m, to, from, n);
            return;
        }
        copy_within(m, to, from, n);
        return;
    }
    if fd.flip == 255 {
        return;
    }
    clear(m, to, to + n);
}
