// Rectangles of pixels in bytes, and one pixel loaded or stored.
#![tactic(auto)]

pub mod overlap;

ghost use Rattle.std.specs.Prelude.{◌≡◌, ◌+◌, ◌≤◌, length};
ghost use Rattle.word.specs.Word.{byte_of};
ghost use Rattle.pixel.specs.Formats.{bytes_per_pixel};
ghost use Rattle.range.specs.Range.{contained_in, overlaps};
ghost use Rattle.surface.specs.Surface.{row_length, row_start, pixel_start, span};
ghost use Rattle.surface.specs.Memory.{mapi, little_endian, pixel_at};
ghost use Rattle.surface.specs.Drawn.{load_pixel, store_pixel};

use pixel::{Colour, Format};
use range::Range;

// A rectangle of pixels in memory. The fields are as wide as their registers, so that no sum below wraps in 64 bits.
#[derive(Clone, Copy, Debug, PartialEq, Eq)]
pub struct Surface {
    pub address: u32,
    pub stride: u16,
    pub width: u16,
    pub height: u16,
    pub format: Format,
}

impl Surface {
    // Bytes of a row, without what the stride leaves between rows.
    pub fn row_length(self) -> usize
        ensures { result ≡ row_length self }
    {
        let format = self.format;
        (self.width as usize) * format.bytes()
    }

    // The first byte of row y.
    pub fn row_start(self, y: u16) -> usize
        ensures { result ≡ row_start self y }
    {
        (self.address as usize) + (y as usize) * (self.stride as usize)
    }

    // The first byte of pixel (x, y).
    pub fn pixel_start(self, x: u16, y: u16) -> usize
        ensures { result ≡ pixel_start self x y }
    {
        let format = self.format;
        self.row_start(y) + (x as usize) * format.bytes()
    }

    // All bytes from the first row's first to the last row's last.
    #[tactic(auto, unfolding(crate::specs::Surface::span))]
    pub fn span(self) -> Range
        ensures { result ≡ span self }
    {
        let start = self.address as usize;
        let last = self.height.saturating_sub(1);
        Range {
            start,
            end: self.row_start(last) + self.row_length(),
        }
    }

    // Whether the span lies wholly in a range of bytes.
    pub fn is_inside(self, run: Range) -> bool
        ensures { result ≡ contained_in (span self) run }
    {
        self.span().is_inside(run)
    }

    // Whether the spans of two surfaces share a byte.
    pub fn overlaps(self, other: Surface) -> bool
        ensures { result ≡ overlaps (span self) (span other) }
    {
        self.span().overlaps(other.span())
    }
}

// The number that bytes hold, low byte first.
fn number_of(bytes: &[u8]) -> u32
    requires { length bytes.now ≤ 4 }
    ensures { result ≡ little_endian bytes.now }
{
    let mut sum: u32 = 0;
    for k in (0..bytes.len()).rev() {
        sum = sum * 256 + u32::from(bytes[k]);
    }
    sum
}

// Puts the low bytes of a number in the place of some others, low byte first.
fn write_le_number(bytes: &mut [u8], number: u32)
    ensures { bytes.new ≡ mapi (λ k old. byte_of number k) bytes.old }
{
    let mut rest = number;
    for byte in bytes {
        *byte = (rest % 256) as u8;
        rest = rest / 256;
    }
}

// The stored pixel at an address.
pub fn fetch(memory: &[u8], at: usize, format: Format) -> u32
    requires { at + bytes_per_pixel format ≤ length memory.now }
    ensures { result ≡ pixel_at (bytes_per_pixel format) memory.now at }
{
    let end = at + format.bytes();
    number_of(&memory[at..end])
}

// The colour of the pixel at an address.
#[tactic(auto, unfolding(crate::specs::Drawn::load_pixel))]
pub fn load(memory: &[u8], at: usize, format: Format) -> Colour
    requires { at + bytes_per_pixel format ≤ length memory.now }
    ensures { result ≡ load_pixel format memory.now at }
{
    format.unpack(fetch(memory, at, format))
}

// Stores a colour as the pixel at an address.
pub fn store(memory: &mut [u8], at: usize, format: Format, c: Colour)
    requires { at + bytes_per_pixel format ≤ length memory.old }
    ensures { memory.new ≡ store_pixel format memory.old at c }
{
    let end = at + format.bytes();
    write_le_number(&mut memory[at..end], format.pack(c));
}
