// Rows of colours, fetched into a buffer.
#![tactic(auto)]

pub mod gradients;
pub mod strided;
pub mod words;

ghost use Rattle.std.specs.Prelude.{◌≡◌, false, ◌+◌, ◌*◌, ◌≤◌, length};
ghost use Rattle.pixel.specs.Formats.{bytes_per_pixel};
ghost use Rattle.surface.specs.Drawn.{load_pixel};
ghost use Rattle.row_pixels.specs.Row.{HoldsColours, colour_at, source_pixel_of, FetchInBounds, row_stored, RowIsWide};

use crate::strided::fetch_strided;
use crate::words::{fill_words, word_of};
use convert::rgb565::from_565;
use convert::rgb888::from_888;
use lanes::bytes::copy;
use pixel::{Colour, Format};
use row_pixels::{is_identity_row, is_reversed, origin, pixel_stride};
use surface::Surface;
use transform::{Rotation, Transform};

// Puts a colour in the first pixels of a buffer.
pub fn fill_buffer(buffer: &mut [u8], width: usize, c: Colour)
    requires { width * 4 ≤ length buffer.old }
    ensures { HoldsColours buffer.new width (λ x. c) }
{
    let n = width * 4;
    fill_words(&mut buffer[0..n], width, word_of(c));
}

// Makes all of a buffer of a row of any format.
fn widen(buffer: &mut [u8], row: &[u8], width: usize, format: Format)
    requires { (RowIsWide buffer.old width Format.Argb8888) × (width * bytes_per_pixel format ≤ length row.now) }
    ensures { buffer.new ≡ row_stored Format.Argb8888 (λ x. load_pixel format row.now (x * bytes_per_pixel format)) buffer.old }
{
    match format {
        Format::Argb8888 => copy(buffer, row),
        Format::Rgb888 => from_888(buffer, row, width),
        Format::Rgb565 => from_565(buffer, row, width),
    }
}

// Fetches pixels that lie side by side, the first of them at an address.
pub fn fetch_row(buffer: &mut [u8], width: usize, memory: &[u8], start: usize, format: Format)
    requires { (start + width * bytes_per_pixel format ≤ length memory.now) × (width * 4 ≤ length buffer.old) }
    ensures { HoldsColours buffer.new width (λ x. load_pixel format memory.now (start + x * bytes_per_pixel format)) }
{
    let n = width * 4;
    let end = start + width * format.bytes();
    widen(&mut buffer[0..n], &memory[start..end], width, format);
}

// Fetches the pixels of a surface that are the first of output row y: they lie side by side.
fn fetch_contiguous_row(
    buffer: &mut [u8],
    width: usize,
    memory: &[u8],
    s: Surface,
    transform: Transform,
    y: usize,
)
    requires { (FetchInBounds memory.now buffer.old s transform.rotation y width) × (transform.rotation ≡ Rotation.Rotate0) × (transform.flip.horizontal ≡ false) }
    ensures { HoldsColours buffer.new width (λ x. colour_at s memory.now (source_pixel_of s transform x y)) }
{
    // a row of no pixels has no first one
    if width == 0 {
        return;
    }
    let format = s.format;
    fetch_row(buffer, width, memory, origin(s, transform, 0, y), format);
}

// Fetches the pixels of a surface that are the first of output row y: they lie one step apart.
fn fetch_strided_row(
    buffer: &mut [u8],
    width: usize,
    memory: &[u8],
    s: Surface,
    transform: Transform,
    y: usize,
)
    requires { FetchInBounds memory.now buffer.old s transform.rotation y width }
    ensures { HoldsColours buffer.new width (λ x. colour_at s memory.now (source_pixel_of s transform x y)) }
{
    if width == 0 {
        return;
    }
    let format = s.format;
    let rotation = transform.rotation;
    let start = origin(s, transform, 0, y);
    let step = pixel_stride(s, rotation);
    let back = is_reversed(transform);
    fetch_strided(buffer, width, memory, start, step, back, format);
}

// Fetches the pixels of a surface that are the first of output row y.
pub fn fetch_transformed(
    buffer: &mut [u8],
    width: usize,
    memory: &[u8],
    s: Surface,
    transform: Transform,
    y: usize,
)
    requires { FetchInBounds memory.now buffer.old s transform.rotation y width }
    ensures { HoldsColours buffer.new width (λ x. colour_at s memory.now (source_pixel_of s transform x y)) }
{
    if is_identity_row(transform) {
        fetch_contiguous_row(buffer, width, memory, s, transform, y);
        return;
    }
    fetch_strided_row(buffer, width, memory, s, transform, y);
}
