// Rows of ARGB8888 pixels blended in place, under any rule: four pixels at a time, and what is left of a row byte by byte.
#![tactic(auto)]

pub mod constant;
pub mod parts;

ghost use Rattle.std.specs.Prelude.{◌≡◌, ◌+◌, ◌*◌, ◌%◌, ◌≤◌, length};
ghost use Rattle.pixel.specs.Rules.{blend_mode_factors};
ghost use Rattle.pixel.specs.declared.blend.BlendMode.TheVariants.{SrcOver};
ghost use Rattle.lanes.specs.Lanes.{Done};
ghost use Rattle.plan.specs.Blend.{blend_at};

use crate::constant::{add_bytes, constant_row};
use crate::parts::{blend_bytes, blend8, over8};
use lanes::opacity::{alphas, is_opaque, words};
use lanes::{copy, load8, store8};
use plan::Plan;

// Four pixels, at o.
fn blend_four(d: &mut [u8], s: &[u8], o: usize, p: Plan)
    requires { ((o + 16 ≤ length d.old) × (o + 16 ≤ length s.now)) × (o % 4 ≡ 0) }
    ensures { Done (blend_at p.rule s.now d.old) d.old d.new o (o + 16) }
{
    let a = load8(s, o);
    let b = load8(d, o);
    let r = blend8(&a, &b, p);
    store8(d, o, &r);
}

fn over_four(d: &mut [u8], s: &[u8], o: usize)
    requires { ((o + 16 ≤ length d.old) × (o + 16 ≤ length s.now)) × (o % 4 ≡ 0) }
    ensures { Done (blend_at (blend_mode_factors SrcOver) s.now d.old) d.old d.new o (o + 16) }
{
    let a = load8(s, o);
    let b = load8(d, o);
    let r = over8(&a, &b);
    store8(d, o, &r);
}

// Four pixels: copied or left where the rule does so for their alphas.
fn turn(d: &mut [u8], s: &[u8], o: usize, p: Plan)
    requires { ((o + 16 ≤ length d.old) × (o + 16 ≤ length s.now)) × (o % 4 ≡ 0) }
    ensures { Done (blend_at p.rule s.now d.old) d.old d.new o (o + 16) }
{
    let t = alphas(s, o);
    if is_opaque(t) & p.copies {
        copy(d, s, o);
        return;
    }
    if (t == 0) & p.leaves {
        return;
    }
    blend_four(d, s, o, p);
}

fn turns(d: &mut [u8], s: &[u8], count: usize, p: Plan)
    requires { (count * 16 ≤ length d.old) × (count * 16 ≤ length s.now) }
    ensures { Done (blend_at p.rule s.now d.old) d.old d.new 0 (count * 16) }
{
    for k in 0..count {
        turn(d, s, k * 16, p);
    }
}

// Without alpha, SRC_OVER is ADD.
fn over_turn(d: &mut [u8], s: &[u8], o: usize)
    requires { ((o + 16 ≤ length d.old) × (o + 16 ≤ length s.now)) × (o % 4 ≡ 0) }
    ensures { Done (blend_at (blend_mode_factors SrcOver) s.now d.old) d.old d.new o (o + 16) }
{
    let t = alphas(s, o);
    if is_opaque(t) {
        copy(d, s, o);
        return;
    }
    if t == 0 {
        if words(s, o) == 0 {
            return;
        }
        add_bytes(d, s, o, o + 16);
        return;
    }
    over_four(d, s, o);
}

fn over_turns(d: &mut [u8], s: &[u8], count: usize)
    requires { (count * 16 ≤ length d.old) × (count * 16 ≤ length s.now) }
    ensures { Done (blend_at (blend_mode_factors SrcOver) s.now d.old) d.old d.new 0 (count * 16) }
{
    for k in 0..count {
        over_turn(d, s, k * 16);
    }
}

// The row d of whole pixels, blended with the row s.
pub fn blend_row(d: &mut [u8], s: &[u8], p: Plan)
    requires { (length d.old ≤ length s.now) × (length d.old % 4 ≡ 0) }
    ensures { Done (blend_at p.rule s.now d.old) d.old d.new 0 (length d.old) }
{
    let count = d.len() / 16;
    let n = count * 16;
    let e = d.len();
    if p.over {
        over_turns(d, s, count);
        blend_bytes(d, s, n, e, p);
        return;
    }
    if p.constant {
        constant_row(d, s, p);
        return;
    }
    turns(d, s, count, p);
    blend_bytes(d, s, n, e, p);
}
