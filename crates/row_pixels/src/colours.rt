// A source colour blended with a destination colour.
ghost use Rattle.std.specs.Prelude.{◌≡◌};
ghost use Rattle.row_pixels.specs.Composite.{source_for_blending, with_surface_alpha, composite};

use pixel::Colour;
use register::{Alpha, Blending};
use unpremultiply::unpremultiply;

// The colour with which a source pixel goes into blending: divided by its alpha where it is premultiplied.
fn source_for_blending(blending: Blending, c: Colour) -> Colour
    ensures { result ≡ source_for_blending blending c }
{
    if blending.premultiplied {
        unpremultiply(c)
    } else {
        c
    }
}

// A colour with its alpha by a surface's alpha mode.
fn with_alpha(a: Alpha, c: Colour) -> Colour
    ensures { result ≡ with_surface_alpha a c }
{
    let mode = a.mode;
    mode.apply(a.global, c)
}

// The same with its alpha by the source's alpha mode: what is blended.
pub fn blending_colour(blending: Blending, source: Alpha, s: Colour) -> Colour
    ensures { result ≡ with_surface_alpha source (source_for_blending blending s) }
{
    with_alpha(source, source_for_blending(blending, s))
}

// A source colour blended with a destination colour.
pub fn composite(
    blending: Blending,
    source: Alpha,
    destination: Alpha,
    s: Colour,
    d: Colour,
) -> Colour
    ensures { result ≡ composite blending source destination s d }
{
    let rule = blending.rule;
    rule.blend(
        blending_colour(blending, source, s),
        with_alpha(destination, d),
    )
}
