// Premultiplied colours divided by their alpha: one colour, and a row of ARGB8888 bytes.
#![tactic(auto)]

ghost use Rattle.std.specs.Prelude.{◌≡◌, ◌+◌, ◌*◌, ◌/◌, ◌%◌, ◌≤◌, min, length};
ghost use Rattle.lanes.specs.Lanes.{Done};
ghost use Rattle.unpremultiply.specs.Unpremultiply.{unpremultiplied};
ghost use Rattle.unpremultiply.specs.Prepared.{divided_at, prepared_at};

pub mod reciprocals;

use pixel::Colour;
use reciprocals::Table;

// A colour times a reciprocal, rounded. The product is below 2 to the 32nd, but not below 2 to the 31st.
fn scaled(c: u8, t: u32) -> u8
    requires { t ≤ 16711680 }
    ensures { result ≡ min 255 ((c * t + 32768) / 65536) }
{
    let n = ((c as u32) * t + 32768) / 65536;
    n.min(255) as u8
}

// A colour divided by its alpha.
pub fn unpremultiply(c: Colour) -> Colour
    ensures { result ≡ unpremultiplied c }
{
    let t = Table::new().reciprocal(c.alpha);
    Colour {
        alpha: c.alpha,
        red: scaled(c.red, t),
        green: scaled(c.green, t),
        blue: scaled(c.blue, t),
    }
}

// The pixel at a byte offset.
fn divide_pixel(row: &mut [u8], at: usize, table: &Table)
    requires { (at % 4 ≡ 0) × (at + 4 ≤ length row.old) }
    ensures { Done (divided_at row.old) row.old row.new at (at + 4) }
{
    let t = table.reciprocal(row[at + 3]);
    let blue = scaled(row[at], t);
    let green = scaled(row[at + 1], t);
    let red = scaled(row[at + 2], t);
    row[at] = blue;
    row[at + 1] = green;
    row[at + 2] = red;
}

fn divide_row(row: &mut [u8], width: usize)
    requires { width * 4 ≤ length row.old }
    ensures { Done (divided_at row.old) row.old row.new 0 (width * 4) }
{
    let table = Table::new();
    for x in 0..width {
        divide_pixel(row, x * 4, &table);
    }
}

// The colours of a row as they go into blending: divided if they are premultiplied.
pub fn prepare_row(row: &mut [u8], width: usize, premultiplied: bool)
    requires { width * 4 ≤ length row.old }
    ensures { Done (prepared_at premultiplied row.old) row.old row.new 0 (width * 4) }
{
    if premultiplied {
        divide_row(row, width);
    }
}
