// One channel, and the two channels of a lane, blended: numbers alone.
ghost use Rattle.std.specs.Prelude.{◌≡◌, ◌+◌, ◌*◌, ◌/◌, ◌-◌, ◌≤◌, min};
ghost use Rattle.pixel.specs.Blending.{factor_value, blended_channel};
ghost use Rattle.plan.specs.Blend.{duo};

use crate::{Plan, factor};

fn prod(a: u16, b: u16) -> u16
    requires { (a ≤ 255) × (b ≤ 255) }
    ensures { (result ≡ a * b) × (result ≤ 65025) }
{
    a * b
}

// The nearest of p / 255, by shifts and adds. In 32 bits the compiler makes one multiplication of them, of which it keeps the upper half.
fn div_255_u16(p: u16) -> u16
    requires { p ≤ 65025 }
    ensures { (result ≡ (p + 127) / 255) × (result ≤ 255) }
{
    let t = (p + 128) as u32;
    ((t + (t << 8)) >> 16) as u16
}

fn less(c: u16, n: u16) -> u16
    ensures { (result ≡ c - n) × (result ≤ c) }
{
    if n < c { c - n } else { 0 }
}

// What is left of c, the complement of a channel, after the nearest of d * f / 255.
fn left(c: u16, d: u16, f: u16) -> u16
    requires { ((c ≤ 255) × (d ≤ 255)) × (f ≤ 255) }
    ensures { (result ≡ c - (d * f + 127) / 255) × (result ≤ 255) }
{
    less(c, div_255_u16(prod(d, f)))
}

fn held_word(p: u16, q: u16) -> u16
    ensures { result ≡ min 65535 (p + q) }
{
    if 65535 - p < q { 65535 } else { p + q }
}

// The whole part of (t - 1) / 255, held at 255.
fn last(t: u16) -> u16
    requires { 128 ≤ t }
    ensures { (result ≡ min 255 ((t - 1) / 255)) × (result ≤ 255) }
{
    held_word(t, t >> 8) >> 8
}

// The nearest of (p + q) / 255, held at 255.
fn div_255_sum_u16(p: u16, q: u16) -> u16
    requires { (p ≤ 65025) × (q ≤ 65025) }
    ensures { (result ≡ min 255 ((p + q + 127) / 255)) × (result ≤ 255) }
{
    last(held_word(p + 128, q))
}

fn two_products(s: u16, fs: u16, d: u16, fd: u16) -> u16
    requires { ((s ≤ 255) × (fs ≤ 255)) × ((d ≤ 255) × (fd ≤ 255)) }
    ensures { (result ≡ min 255 ((s * fs + d * fd + 127) / 255)) × (result ≤ 255) }
{
    div_255_sum_u16(prod(s, fs), prod(d, fd))
}

fn two_by_factors(s: u16, fs: u16, d: u16, fd: u16) -> u16
    requires { (fs ≤ 255) × (fd ≤ 255) }
    ensures { result ≡ duo s fs d fd }
{
    two_products(s % 256, fs, d % 256, fd) + two_products(s / 256, fs, d / 256, fd) * 256
}

// SRC_OVER, of the complement of the source.
pub fn over_two(c: u16, d: u16, f: u8) -> u16
    ensures { result ≡ duo (65535 - c) 255 d f }
{
    let g = f as u16;
    65535 - (left(c % 256, d % 256, g) + left(c / 256, d / 256, g) * 256)
}

// Two channels under any rule; x and y are the alphas of the two pixels.
pub fn blend_two(p: Plan, s: u16, d: u16, x: u8, y: u8) -> u16
    ensures { result ≡ duo s (factor_value p.rule.source x y) d (factor_value p.rule.destination x y) }
{
    let fs = p.source;
    let fd = p.destination;
    let u = x as u16;
    let v = y as u16;
    two_by_factors(s, factor(fs, u, v), d, factor(fd, u, v))
}

// One channel by two factors.
pub fn mix_one(s: u8, fs: u16, d: u8, fd: u16) -> u8
    requires { (fs ≤ 255) × (fd ≤ 255) }
    ensures { result ≡ blended_channel s fs d fd }
{
    two_products(s as u16, fs, d as u16, fd) as u8
}

// One channel under any rule; x and y are the alphas of the two pixels.
pub fn blend_one(p: Plan, s: u8, d: u8, x: u8, y: u8) -> u8
    ensures { result ≡ blended_channel s (factor_value p.rule.source x y) d (factor_value p.rule.destination x y) }
{
    let fs = p.source;
    let fd = p.destination;
    let u = x as u16;
    let v = y as u16;
    mix_one(s, factor(fs, u, v), d, factor(fd, u, v))
}

// The sum of two bytes, held at 255: one channel where both factors are 255.
pub fn held_sum(a: u8, b: u8) -> u8
    ensures { result ≡ blended_channel a 255 b 255 }
{
    if 255 - a < b { 255 } else { a + b }
}
