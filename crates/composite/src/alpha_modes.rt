// The alphas of a row by an alpha mode.
ghost use Rattle.std.specs.Prelude.{◌≡◌, ℕ, ◌+◌, ◌*◌, ◌/◌, ◌%◌, ◌≤◌, ◌<◌, length, get_or, set};
ghost use Rattle.division.specs.Division.{div255};
ghost use Rattle.pixel.specs.declared.blend.AlphaMode.TheVariants.{Global, Mixed};
ghost use Rattle.lanes.specs.Lanes.{Done};
ghost use Rattle.composite.specs.Mode.{mode_at};

use pixel::AlphaMode;
use word::{read_le32, write_le32};

fn prod(a: u32, b: u32) -> u32
    requires { (a ≤ 255) × (b ≤ 255) }
    ensures { (result ≡ a * b) × (result ≤ 65025) }
{
    a * b
}

// By shifts: this form makes vectors in a loop.
fn nearest(p: u32) -> u32
    requires { p ≤ 65025 }
    ensures { (result ≡ div255 p) × (result ≤ 255) }
{
    let t = p + 128;
    (t + t / 256) / 256
}

// The alpha of the pixel at o, set or mixed. A pixel is loaded and stored as one word: this form makes vectors in a loop over pixels.
fn set_alpha(row: &mut [u8], o: usize, a: u8)
    requires { o + 4 ≤ length row.old }
    ensures { row.new ≡ set row.old (o + 3) a }
{
    let w = read_le32(row, o);
    write_le32(row, o, w % 16777216 + a as u32 * 16777216);
}

fn mix_alpha(row: &mut [u8], o: usize, a: u8)
    requires { o + 4 ≤ length row.old }
    ensures { row.new ≡ set row.old (o + 3) (div255 (get_or row.old (o + 3) 0 * a)) }
{
    let w = read_le32(row, o);
    write_le32(
        row,
        o,
        w % 16777216 + nearest(prod(w / 16777216, a as u32)) * 16777216,
    );
}

fn set_alphas(row: &mut [u8], width: usize, a: u8)
    requires { width * 4 ≤ length row.old }
    ensures { Done (mode_at Global a row.old) row.old row.new 0 (width * 4) }
{
    for x in 0..width {
        set_alpha(row, x * 4, a);
    }
}

fn mix_alphas(row: &mut [u8], width: usize, a: u8)
    requires { width * 4 ≤ length row.old }
    ensures { Done (mode_at Mixed a row.old) row.old row.new 0 (width * 4) }
{
    for x in 0..width {
        mix_alpha(row, x * 4, a);
    }
}

pub fn alpha_row(row: &mut [u8], width: usize, mode: AlphaMode, global: u8)
    requires { width * 4 ≤ length row.old }
    ensures { Done (mode_at mode global row.old) row.old row.new 0 (width * 4) }
{
    match mode {
        AlphaMode::Pixel => {}
        AlphaMode::Global => set_alphas(row, width, global),
        AlphaMode::Mixed => mix_alphas(row, width, global),
    }
}
