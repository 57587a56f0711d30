// Two settings of flips and quarter turns as one, and the setting that undoes one (02, request 8).
#![tactic(auto)]

ghost use Rattle.std.specs.Prelude.{◌≡◌};
ghost use Rattle.orientation.specs.Bits.{weight, setting_of, bits_of};
ghost use Rattle.orientation.specs.Compose.{quarter, added, turned_back, is_odd, flipped_twice, exchanged, compose, inverse};

use transform::{Flip, Rotation, Transform};

// One quarter turn more.
fn quarter(r: Rotation) -> Rotation
    ensures { result ≡ quarter r }
{
    match r {
        Rotation::Rotate0 => Rotation::Rotate90,
        Rotation::Rotate90 => Rotation::Rotate180,
        Rotation::Rotate180 => Rotation::Rotate270,
        Rotation::Rotate270 => Rotation::Rotate0,
    }
}

// A turn and then another.
fn added(first: Rotation, second: Rotation) -> Rotation
    ensures { result ≡ added first second }
{
    match first {
        Rotation::Rotate0 => second,
        Rotation::Rotate90 => quarter(second),
        Rotation::Rotate180 => quarter(quarter(second)),
        Rotation::Rotate270 => quarter(quarter(quarter(second))),
    }
}

// As many quarter turns the other way.
fn turned_back(r: Rotation) -> Rotation
    ensures { result ≡ turned_back r }
{
    match r {
        Rotation::Rotate0 => Rotation::Rotate0,
        Rotation::Rotate90 => Rotation::Rotate270,
        Rotation::Rotate180 => Rotation::Rotate180,
        Rotation::Rotate270 => Rotation::Rotate90,
    }
}

// Whether width and height change places.
fn is_odd(r: Rotation) -> bool
    ensures { result ≡ is_odd r }
{
    matches!(r, Rotation::Rotate90 | Rotation::Rotate270)
}

// A flip and then another.
fn flipped_twice(first: Flip, second: Flip) -> Flip
    ensures { result ≡ flipped_twice first second }
{
    Flip {
        horizontal: first.horizontal ^ second.horizontal,
        vertical: first.vertical ^ second.vertical,
    }
}

// The flip before a turn that is as good as this one after it.
fn exchanged(odd: bool, flip: Flip) -> Flip
    ensures { result ≡ exchanged odd flip }
{
    if odd {
        Flip {
            horizontal: flip.vertical,
            vertical: flip.horizontal,
        }
    } else {
        flip
    }
}

// The one setting that draws what the first and then the second draw.
#[tactic(auto, unfolding(orientation::specs::Compose::compose))]
pub fn compose(first: Transform, second: Transform) -> Transform
    ensures { result ≡ compose first second }
{
    let before = first.flip;
    let rotation = first.rotation;
    let after = second.flip;
    let turn = second.rotation;
    Transform {
        flip: flipped_twice(before, exchanged(is_odd(rotation), after)),
        rotation: added(rotation, turn),
    }
}

// The setting that undoes one.
#[tactic(auto, unfolding(orientation::specs::Compose::inverse))]
pub fn inverse(setting: Transform) -> Transform
    ensures { result ≡ inverse setting }
{
    let flip = setting.flip;
    let rotation = setting.rotation;
    Transform {
        flip: exchanged(is_odd(rotation), flip),
        rotation: turned_back(rotation),
    }
}

// ---- settings as bits of a source control word: 7 V flip, 6 H flip, 5:4 quarter turns

// What a bit counts for.
fn weight(on: bool, n: u32) -> u32
    ensures { result ≡ weight on n }
{
    if on { n } else { 0 }
}

// The setting in any word. Its other bits are not looked at.
#[tactic(auto, unfolding(orientation::specs::Bits::setting_of))]
pub fn setting_of(word: u32) -> Transform
    ensures { result ≡ setting_of word }
{
    Transform {
        flip: Flip {
            horizontal: word / 64 % 2 == 1,
            vertical: word / 128 % 2 == 1,
        },
        rotation: Rotation::from(word / 16 % 4),
    }
}

// The bits of a setting, with zeros in all other places.
#[tactic(auto, using(crate::proofs::Bits::weight_most, crate::proofs::Bits::turns_most), unfolding(orientation::specs::Bits::bits_of))]
pub fn bits_of(setting: Transform) -> u32
    ensures { result ≡ bits_of setting }
{
    let flip = setting.flip;
    let rotation = setting.rotation;
    weight(flip.vertical, 128) + weight(flip.horizontal, 64) + u32::from(rotation) * 16
}

// The setting in two words, one drawn after the other, as one.
pub fn compose_bits(first: u32, second: u32) -> u32
    ensures { result ≡ bits_of (compose (setting_of first) (setting_of second)) }
{
    bits_of(compose(setting_of(first), setting_of(second)))
}

// The setting that undoes the one in a word.
pub fn inverse_bits(word: u32) -> u32
    ensures { result ≡ bits_of (inverse (setting_of word)) }
{
    bits_of(inverse(setting_of(word)))
}
