// Pixels of a colour that changes by even steps.
ghost use Rattle.std.specs.Prelude.{◌*◌, ◌≤◌, length};
ghost use Rattle.transform.specs.Transform.{mirrored};
ghost use Rattle.pixel.specs.Gradient.{gradient_colour};
ghost use Rattle.row_pixels.specs.Row.{HoldsColours};

use crate::words::{store_word, word_of};
use pixel::Colour;
use pixel::gradient::{Steps, colour_at};
use transform::mirror;

// Puts the first pixels of a row of n in a buffer. Places are counted before the flip.
pub fn fetch_gradient(
    buffer: &mut [u8],
    width: usize,
    start: Colour,
    steps: Steps,
    flipped: bool,
    n: u16,
)
    requires { (width * 4 ≤ length buffer.old) × (width ≤ n) }
    ensures { HoldsColours buffer.new width (λ x. gradient_colour start steps (mirrored flipped n x)) }
{
    for x in 0..width {
        let i = mirror(flipped, n as usize, x);
        store_word(buffer, x * 4, word_of(colour_at(start, steps, i as u16)));
    }
}
