// Rows of ARGB8888 pixels blended inside one slice of bytes: the source's row lies in it too, and no byte lies in both rows. Under SRC_OVER, and where the
// factors do not go by alpha, such rows have loops of their own; under the other rules the slice is split, and they are rows of crate combine.
ghost use Rattle.std.specs.Prelude.{◌≡◌, ◌+◌, ◌%◌, ◌≤◌, length};
ghost use Rattle.pixel.specs.Rules.{blend_mode_factors};
ghost use Rattle.pixel.specs.declared.blend.BlendMode.TheVariants.{SrcOver};
ghost use Rattle.lanes.specs.Lanes.{Done};
ghost use Rattle.lanes.specs.Apart.{Apart};
ghost use Rattle.within_rows.specs.Within.{blend_within};

use crate::bytes::{add_bytes, blend_bytes, constant_within};
use combine::blend_row;
use lanes::bytes::copy_block;
use lanes::opacity::{alphas, is_opaque, words};
use lanes::{load8, store8, top};
use plan::Plan;
use plan::channels::over_two;

// Four pixels under SRC_OVER, by the source's complement.
fn over_four(m: &mut [u8], to: usize, from: usize)
    requires { (to + 16 ≤ length m.old) × (from + 16 ≤ length m.old) }
    ensures { Done (blend_within (blend_mode_factors SrcOver) m.old to from) m.old m.new to (to + 16) }
{
    let s = load8(m, from);
    let d = load8(m, to);
    let mut r = [0u16; 8];
    for i in 0..8 {
        r[i] = over_two(65535 - s[i], d[i], top(65535 - s[i / 2 * 2 + 1]));
    }
    store8(m, to, &r);
}

// Without alpha, SRC_OVER is ADD.
fn over_turn(m: &mut [u8], to: usize, from: usize)
    requires { Apart (length m.old) to from 16 }
    ensures { Done (blend_within (blend_mode_factors SrcOver) m.old to from) m.old m.new to (to + 16) }
{
    let t = alphas(m, from);
    if is_opaque(t) {
        copy_block(m, to, from);
        return;
    }
    if t == 0 {
        if words(m, from) == 0 {
            return;
        }
        add_bytes(m, to, from, 16);
        return;
    }
    over_four(m, to, from);
}

// Kept (speed): a row's loop is compiled in place only where it has one caller and this form, so such a row has loops of its own beside those of combine.
fn over_turns(m: &mut [u8], to: usize, from: usize, n: usize)
    requires { Apart (length m.old) to from n × (n % 16 ≡ 0) }
    ensures { Done (blend_within (blend_mode_factors SrcOver) m.old to from) m.old m.new to (to + n) }
{
    let mut o = 0;
    while o < n {
        over_turn(m, to + o, from + o);
        o += 16;
    }
}

// Under the rules that have no loop of their own here: the two parts of the slice are two rows.
fn blend_parts(m: &mut [u8], to: usize, from: usize, n: usize, p: Plan)
    requires { Apart (length m.old) to from n × (n % 4 ≡ 0) }
    ensures { Done (blend_within p.rule m.old to from) m.old m.new to (to + n) }
{
    if from < to {
        let (low, high) = m.split_at_mut(to);
        blend_row(&mut high[..n], &low[from..], p);
    } else {
        let (low, high) = m.split_at_mut(from);
        blend_row(&mut low[to..to + n], high, p);
    }
}

// The row of n bytes at `to`, of whole pixels, blended with the row at `from`.
pub fn blend_within(m: &mut [u8], to: usize, from: usize, n: usize, p: Plan)
    requires { Apart (length m.old) to from n × (n % 4 ≡ 0) }
    ensures { Done (blend_within p.rule m.old to from) m.old m.new to (to + n) }
{
    if p.over {
        let e = n / 16 * 16;
        over_turns(m, to, from, e);
        blend_bytes(m, to, from, e, n, p);
    } else if p.constant {
        constant_within(m, to, from, n, p);
    } else {
        blend_parts(m, to, from, n, p);
    }
}
