// One colour over a row of ARGB8888 pixels: what is needed of the colour is found once, and no row of it is laid out.
ghost use Rattle.std.specs.Prelude.{◌≡◌, ℕ, ◌+◌, ◌*◌, ◌%◌, ◌-◌, ◌≤◌, ◌<◌, length, get_or};
ghost use Rattle.pixel.specs.Blending.{blended};
ghost use Rattle.pixel.specs.Rules.{blend_mode_factors};
ghost use Rattle.pixel.specs.declared.blend.BlendMode.TheVariants.{SrcOver};
ghost use Rattle.pixel.specs.declared.format.Format.TheVariants.{Argb8888};
ghost use Rattle.lanes.specs.Lanes.{Done};
ghost use Rattle.plan.specs.Blend.{duo};
ghost use Rattle.row_pixels.specs.Row.{colour_in, row_stored, RowIsWide};
ghost use Rattle.solid_rows.specs.Solid.{half_of};
ghost use Rattle.solid_rows.specs.Over.{over_at};

use crate::colour::Solid;
use lanes::{get2, load8, put2, step, store8};
use plan::channels::over_two;

// The word with which word k of a row is blended.
fn half(s: Solid, k: usize) -> u16
    ensures { result ≡ half_of s k }
{
    if k % 2 == 0 { s.low } else { s.high }
}

fn solid8(d: &[u16; 8], s: Solid) -> [u16; 8]
    ensures { (k : ℕ) → k < 8 → get_or result k 0 ≡ duo (65535 - half_of s k) 255 (get_or d.now k 0) s.rest }
{
    let mut r = [0u16; 8];
    for i in 0..8 {
        r[i] = over_two(half(s, i), d[i], s.rest);
    }
    r
}

// Four pixels, at o.
fn solid_four(d: &mut [u8], o: usize, s: Solid)
    requires { (o + 16 ≤ length d.old) × (o % 4 ≡ 0) }
    ensures { Done (over_at s.colour d.old) d.old d.new o (o + 16) }
{
    let b = load8(d, o);
    let r = solid8(&b, s);
    store8(d, o, &r);
}

// Kept (speed): 0.62 ns a pixel for a tint; by a `for` over the blocks, 1.36, since the compiler then takes the loop as a whole.
fn solid_fours(d: &mut [u8], n: usize, s: Solid)
    requires { (n ≤ length d.old) × (n % 16 ≡ 0) }
    ensures { Done (over_at s.colour d.old) d.old d.new 0 n }
{
    let mut o = 0;
    while o < n {
        solid_four(d, o, s);
        o = step(o, n);
    }
}

// Two channels, at o.
fn solid_word(d: &mut [u8], o: usize, s: Solid)
    requires { (o + 2 ≤ length d.old) × (o % 2 ≡ 0) }
    ensures { Done (over_at s.colour d.old) d.old d.new o (o + 2) }
{
    put2(d, o, over_two(half(s, o / 2), get2(d, o), s.rest));
}

// The words from the a-th to the n-th.
fn solid_words(d: &mut [u8], a: usize, n: usize, s: Solid)
    requires { (a ≤ n) × (n * 2 ≤ length d.old) }
    ensures { Done (over_at s.colour d.old) d.old d.new (a * 2) (n * 2) }
{
    for k in a..n {
        solid_word(d, k * 2, s);
    }
}

// The row d of whole pixels with the colour over it, four pixels at a time, and what is left of it two channels at a time.
pub fn solid_row(d: &mut [u8], width: usize, s: Solid)
    requires { RowIsWide d.old width Argb8888 }
    ensures { d.new ≡ row_stored Argb8888 (λ x. blended (blend_mode_factors SrcOver) s.colour (colour_in d.old x)) d.old }
{
    let count = width / 4;
    solid_fours(d, count * 16, s);
    solid_words(d, count * 8, width * 2, s);
}
