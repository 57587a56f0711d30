// A colour that changes by even steps along a line of pixels (02, request 3: shaded margins).
ghost use Rattle.std.specs.Prelude.{◌≡◌};
ghost use Rattle.pixel.specs.Gradient.{signed_step, rounded_down, held, gradient_channel, gradient_colour};

use crate::Colour;

// What each channel changes by from one place to the next, as register words: 25 bits in two's complement, the low 16 a fraction.
#[derive(Clone, Copy, Debug, PartialEq, Eq)]
pub struct Steps {
    pub alpha: u32,
    pub red: u32,
    pub green: u32,
    pub blue: u32,
}

impl Steps {
    // No step: the colour is the same all along.
    pub const RESET: Steps = Steps {
        alpha: 0,
        red: 0,
        green: 0,
        blue: 0,
    };
}

// The number that a step's word stands for, in parts of 65,536.
fn signed(word: u32) -> i64
    ensures { result ≡ signed_step word }
{
    if word < 0x1000000 {
        word as i64
    } else {
        (word as i64) - 0x2000000
    }
}

// The whole part of v / 65,536: the shift rounds downward also below zero.
fn floor(v: i64) -> i64
    ensures { result ≡ rounded_down v }
{
    v >> 16
}

// A number held to a byte.
fn clamp(v: i64) -> u8
    ensures { result ≡ held v }
{
    v.clamp(0, 255) as u8
}

// A channel i places along. The sum is exact; it is rounded once and held once.
fn channel(start: u8, step: u32, i: u16) -> u8
    ensures { result ≡ gradient_channel start step i }
{
    let s = signed(step);
    let n = i as i64;
    let v = (start as i64) * 65536 + s * n;
    clamp(floor(v))
}

// The colour i places along.
#[tactic(auto, unfolding(crate::specs::Gradient::gradient_colour))]
pub fn colour_at(start: Colour, steps: Steps, i: u16) -> Colour
    ensures { result ≡ gradient_colour start steps i }
{
    Colour {
        alpha: channel(start.alpha, steps.alpha, i),
        red: channel(start.red, steps.red, i),
        green: channel(start.green, steps.green, i),
        blue: channel(start.blue, steps.blue, i),
    }
}
