// Rows moved as they are, between surfaces of one format (02, request 13): a pixel's bytes are those of its colour.
ghost use Rattle.std.specs.Prelude.{◌≡◌, false, ◌+◌, ◌*◌, ◌≤◌, length};
ghost use Rattle.pixel.specs.Formats.{bytes_per_pixel};
ghost use Rattle.surface.specs.Drawn.{load_pixel};
ghost use Rattle.row_pixels.specs.Row.{colour_at, source_pixel_of, FetchInBounds};
ghost use Rattle.unblended_rows.specs.Held.{HoldsPixels};

use lanes::bytes::copy;
use pixel::Format;
use row_pixels::origin;
use surface::Surface;
use transform::{Rotation, Transform};

// Fetches the bytes of pixels that lie side by side, the first of them at an address.
fn load_row(buffer: &mut [u8], width: usize, memory: &[u8], start: usize, format: Format)
    requires { (start + width * bytes_per_pixel format ≤ length memory.now) × (width * bytes_per_pixel format ≤ length buffer.old) }
    ensures { HoldsPixels format buffer.new width (λ x. load_pixel format memory.now (start + x * bytes_per_pixel format)) }
{
    let n = width * format.bytes();
    let end = start + n;
    copy(&mut buffer[0..n], &memory[start..end]);
}

// Fetches the bytes of the pixels of a surface that are the first of output row y: they lie side by side.
pub fn fetch_bytes(
    buffer: &mut [u8],
    width: usize,
    memory: &[u8],
    s: Surface,
    transform: Transform,
    y: usize,
)
    requires { (FetchInBounds memory.now buffer.old s transform.rotation y width) × (transform.rotation ≡ Rotation.Rotate0) × (transform.flip.horizontal ≡ false) }
    ensures { HoldsPixels s.format buffer.new width (λ x. colour_at s memory.now (source_pixel_of s transform x y)) }
{
    // a row of no pixels has no first one
    if width == 0 {
        return;
    }
    let format = s.format;
    load_row(buffer, width, memory, origin(s, transform, 0, y), format);
}
