// Rows of RGB565 made of a buffer, and a buffer made of them. Each loop makes one of vectors.
ghost use Rattle.std.specs.Prelude.{◌≡◌, ◌+◌, ◌*◌, ◌/◌, ◌%◌, ◌≤◌, length};
ghost use Rattle.pixel.specs.declared.format.Format.TheVariants.{Argb8888, Rgb565};
ghost use Rattle.surface.specs.Drawn.{load_pixel};
ghost use Rattle.row_pixels.specs.Row.{colour_in, row_stored, RowIsWide};

use lanes::{get2, put2};
use word::read_le32;

fn narrow(w: u32) -> u32
    ensures { (result ≡ w / 8 % 32 + w / 1024 % 64 * 32 + w / 524288 % 32 * 2048) × (result ≤ 65535) }
{
    w / 8 % 32 + w / 1024 % 64 * 32 + w / 524288 % 32 * 2048
}

// A buffer stored as a row of RGB565.
pub fn to_565(d: &mut [u8], s: &[u8], width: usize)
    requires { RowIsWide d.old width Rgb565 × (width * 4 ≤ length s.now) }
    ensures { d.new ≡ row_stored Rgb565 (λ x. colour_in s.now x) d.old }
{
    for x in 0..width {
        put2(d, x * 2, narrow(read_le32(s, x * 4)) as u16);
    }
}

// Blue and green, made eight bits wide.
fn low(v: u16) -> u16
    ensures { result ≡ v % 32 * 8 + v / 4 % 8 + (v / 32 % 64 * 4 + v / 512 % 4) * 256 }
{
    v % 32 * 8 + v / 4 % 8 + (v / 32 % 64 * 4 + v / 512 % 4) * 256
}

// Red, and an alpha of 255.
fn high(v: u16) -> u16
    ensures { result ≡ v / 2048 * 8 + v / 8192 + 65280 }
{
    v / 2048 * 8 + v / 8192 + 65280
}

// A row of RGB565 made a buffer.
pub fn from_565(d: &mut [u8], s: &[u8], width: usize)
    requires { RowIsWide d.old width Argb8888 × (width * 2 ≤ length s.now) }
    ensures { d.new ≡ row_stored Argb8888 (λ x. load_pixel Rgb565 s.now (x * 2)) d.old }
{
    for x in 0..width {
        let v = get2(s, x * 2);
        put2(d, x * 4, low(v));
        put2(d, x * 4 + 2, high(v));
    }
}
