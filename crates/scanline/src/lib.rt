// Rows of bytes drawn from colours, and buffers blended.
#![tactic(auto)]

ghost use Rattle.std.specs.Prelude.{◌≡◌, ◌*◌, ◌≤◌, length};
ghost use Rattle.row_pixels.specs.Row.{colour_in, HoldsColours, row_stored, RowIsWide};
ghost use Rattle.row_pixels.specs.Composite.{composite};

use composite::mix_row;
use convert::rgb565::to_565;
use convert::rgb888::to_888;
use fetch_rows::words::{fill_words, word_of};
use lanes::bytes::copy;
use pixel::{Colour, Format};
use plan::Plan;
use register::{Alpha, Blending};
use surface::store;

// Stores one colour in all of a row.
fn fill_pixels(row: &mut [u8], width: usize, format: Format, c: Colour)
    requires { RowIsWide row.old width format }
    ensures { row.new ≡ row_stored format (λ x. c) row.old }
{
    let bytes = format.bytes();
    for x in 0..width {
        store(row, x * bytes, format, c);
    }
}

// The same, with a loop for each format: in each of them the format is a constant.
pub fn fill_row(row: &mut [u8], width: usize, format: Format, c: Colour)
    requires { RowIsWide row.old width format }
    ensures { row.new ≡ row_stored format (λ x. c) row.old }
{
    match format {
        Format::Argb8888 => fill_words(row, width, word_of(c)),
        Format::Rgb888 => fill_pixels(row, width, Format::Rgb888, c),
        Format::Rgb565 => fill_pixels(row, width, Format::Rgb565, c),
    }
}

// Stores the colours of a buffer in all of a row.
pub fn blit_row(row: &mut [u8], width: usize, format: Format, source: &[u8])
    requires { (RowIsWide row.old width format) × (width * 4 ≤ length source.now) }
    ensures { row.new ≡ row_stored format (λ x. colour_in source.now x) row.old }
{
    match format {
        Format::Argb8888 => copy(row, source),
        Format::Rgb888 => to_888(row, source, width),
        Format::Rgb565 => to_565(row, source, width),
    }
}

// Blends the colours of one buffer into those of another. What the first holds afterwards is free.
pub fn blend_row(
    destination: &mut [u8],
    source: &mut [u8],
    width: usize,
    blending: Blending,
    plan: Plan,
    source_alpha: Alpha,
    destination_alpha: Alpha,
)
    requires { (width * 4 ≤ length source.old) × (width * 4 ≤ length destination.old) × (plan.rule ≡ blending.rule) }
    ensures { HoldsColours destination.new width (λ x. composite blending source_alpha destination_alpha (colour_in source.old x) (colour_in destination.old x)) }
{
    let n = width * 4;
    mix_row(
        &mut destination[0..n],
        source,
        width,
        blending,
        plan,
        source_alpha,
        destination_alpha,
    );
}
