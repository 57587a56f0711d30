// Rows of RGB888 made of a buffer, and a buffer made of them.
ghost use Rattle.std.specs.Prelude.{◌≡◌, ◌+◌, ◌*◌, ◌≤◌, length};
ghost use Rattle.pixel.specs.declared.format.Format.TheVariants.{Argb8888, Rgb888};
ghost use Rattle.surface.specs.Drawn.{load_pixel};
ghost use Rattle.row_pixels.specs.Row.{colour_in, row_stored, RowIsWide};
ghost use Rattle.convert.specs.Three.{Three};

// Three bytes stored: blue, green and red.
fn put_three(d: &mut [u8], o: usize, b: u8, g: u8, r: u8)
    requires { o + 3 ≤ length d.old }
    ensures { Three d.old d.new o b g r }
{
    d[o] = b;
    d[o + 1] = g;
    d[o + 2] = r;
}

// A buffer stored as a row of RGB888.
pub fn to_888(d: &mut [u8], s: &[u8], width: usize)
    requires { RowIsWide d.old width Rgb888 × (width * 4 ≤ length s.now) }
    ensures { d.new ≡ row_stored Rgb888 (λ x. colour_in s.now x) d.old }
{
    for x in 0..width {
        put_three(d, x * 3, s[x * 4], s[x * 4 + 1], s[x * 4 + 2]);
    }
}

// A row of RGB888 made a buffer.
pub fn from_888(d: &mut [u8], s: &[u8], width: usize)
    requires { RowIsWide d.old width Argb8888 × (width * 3 ≤ length s.now) }
    ensures { d.new ≡ row_stored Argb8888 (λ x. load_pixel Rgb888 s.now (x * 3)) d.old }
{
    for x in 0..width {
        put_three(d, x * 4, s[x * 3], s[x * 3 + 1], s[x * 3 + 2]);
        d[x * 4 + 3] = 255;
    }
}
