// The bytes of a picture.
ghost use Rattle.std.specs.Prelude.{◌≡◌, ℕ, ◌+◌, ◌*◌, ◌≤◌, length, set, unwrap_or};
ghost use Rattle.text.specs.Line.{line_of, appended};
ghost use Rattle.pixel.specs.Formats.{bytes_per_pixel};
ghost use Rattle.surface.specs.Drawn.{load_pixel};
ghost use Rattle.ppm.specs.Picture.{header_of, row_colour, shown_size, row_shown};

use pixel::{Colour, Format};
use surface::Surface;
use text::line;

// Writes the header at the start of a line, and answers its length. What does not fit is dropped: 64 bytes are enough.
pub fn header(line: &mut [u8], width: u32, height: u32) -> usize
    ensures { line_of line.new result ≡ appended (line_of line.old 0) (header_of width height) }
{
    let a = line::copy(line, b"P6\n");
    let b = line::decimal(line, a, width as u64);
    let c = line::push(line, b, b' ');
    let d = line::decimal(line, c, height as u64);
    line::append(line, d, b"\n255\n")
}

// Puts a colour at an offset: three bytes.
fn put(out: &mut [u8], at: usize, c: Colour)
    requires { at + 3 ≤ length out.old }
    ensures { out.new ≡ set (set (set out.old at c.red) (at + 1) c.green) (at + 2) c.blue }
{
    out[at] = c.red;
    out[at + 1] = c.green;
    out[at + 2] = c.blue;
}

// Puts the colours of pixels that lie side by side, the first of them at an address, at the start of a buffer.
fn put_row(memory: &[u8], start: usize, format: Format, width: usize, out: &mut [u8])
    requires { (start + width * bytes_per_pixel format ≤ length memory.now) × (3 * width ≤ length out.old) }
    ensures { out.new ≡ row_shown (λ (x : ℕ). load_pixel format memory.now (start + x * bytes_per_pixel format)) (3 * width) out.old }
{
    let bytes = format.bytes();
    for x in 0..width {
        let c = surface::load(memory, start + x * bytes, format);
        put(out, 3 * x, c);
    }
}

// Writes row y of a rectangle at the start of a buffer, and answers its length. There is none if the row does not lie in memory or
// has no room; then the buffer stays as it was.
#[tactic(auto, using(crate::proofs::Shown::shown_none))]
pub fn row(memory: &[u8], s: Surface, y: u16, out: &mut [u8]) -> Option<usize>
    ensures { (result ≡ shown_size s memory.now y out.old)
        × (out.new ≡ row_shown (row_colour s memory.now y) (unwrap_or result 0) out.old) }
{
    let width = s.width as usize;
    let start = s.row_start(y);
    let has_room = (start + s.row_length() <= memory.len()) & (3 * width <= out.len());
    if !has_room {
        return None;
    }
    put_row(memory, start, s.format, width, out);
    Some(3 * width)
}
