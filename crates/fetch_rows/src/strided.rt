// Pixels fetched in steps: rows of a picture that is turned or flipped.
ghost use Rattle.std.specs.Prelude.{◌≡◌, ◌+◌, ◌≤◌, length};
ghost use Rattle.pixel.specs.Formats.{bytes_per_pixel};
ghost use Rattle.surface.specs.Drawn.{load_pixel};
ghost use Rattle.row_pixels.specs.Row.{word_colour, HoldsColours};
ghost use Rattle.row_pixels.specs.Strided.{strided_address, StridedFetchInBounds};

use crate::words::{load_word, store_word, word_of};
use pixel::Format;
use row_pixels::strided_address;
use surface::load;

// The word of the pixel at an address.
fn load_as_word(memory: &[u8], at: usize, format: Format) -> u32
    requires { at + bytes_per_pixel format ≤ length memory.now }
    ensures { word_colour result ≡ load_pixel format memory.now at }
{
    match format {
        Format::Argb8888 => load_word(memory, at),
        Format::Rgb888 => word_of(load(memory, at, Format::Rgb888)),
        Format::Rgb565 => word_of(load(memory, at, Format::Rgb565)),
    }
}

// Fetches pixels that lie one step apart, the first of them at an address.
fn fetch_strided_pixels(
    buffer: &mut [u8],
    width: usize,
    memory: &[u8],
    start: usize,
    step: usize,
    back: bool,
    format: Format,
)
    requires { StridedFetchInBounds memory.now buffer.old start step back width format }
    ensures { HoldsColours buffer.new width (λ x. load_pixel format memory.now (strided_address start step back x)) }
{
    for x in 0..width {
        store_word(
            buffer,
            x * 4,
            load_as_word(memory, strided_address(start, step, back, x), format),
        );
    }
}

// The same, with a loop for each format.
pub fn fetch_strided(
    buffer: &mut [u8],
    width: usize,
    memory: &[u8],
    start: usize,
    step: usize,
    back: bool,
    format: Format,
)
    requires { StridedFetchInBounds memory.now buffer.old start step back width format }
    ensures { HoldsColours buffer.new width (λ x. load_pixel format memory.now (strided_address start step back x)) }
{
    match format {
        Format::Argb8888 => {
            fetch_strided_pixels(buffer, width, memory, start, step, back, Format::Argb8888);
        }
        Format::Rgb888 => {
            fetch_strided_pixels(buffer, width, memory, start, step, back, Format::Rgb888);
        }
        Format::Rgb565 => {
            fetch_strided_pixels(buffer, width, memory, start, step, back, Format::Rgb565);
        }
    }
}
