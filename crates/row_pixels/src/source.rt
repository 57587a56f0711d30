// Where the source pixel of an output pixel lies.
ghost use Rattle.std.specs.Prelude.{◌≡◌, true, false, ◌+◌, ◌*◌, ◌≤◌, ◌<◌};
ghost use Rattle.transform.specs.Transform.{InPicture, rotated_size};
ghost use Rattle.surface.specs.Surface.{pixel_start};
ghost use Rattle.register.specs.Size.{size_of};
ghost use Rattle.row_pixels.specs.Row.{source_pixel_of};
ghost use Rattle.row_pixels.specs.Strided.{strided_address, pixel_stride, is_reversed, is_identity_row};

use surface::Surface;
use transform::{Point, Rotation, Size, Transform, mirror};

// The pixel of a surface that is output pixel (x, y).
pub fn source_point(s: Surface, transform: Transform, x: usize, y: usize) -> Point
    requires { InPicture (rotated_size transform.rotation (size_of s)) (record { x = x; y = y }) }
    ensures { result ≡ source_pixel_of s transform x y }
{
    let size = Size {
        width: s.width as usize,
        height: s.height as usize,
    };
    transform.source_of(size, Point { x, y })
}

// Where the pixel of a surface lies that is output pixel (x, y).
pub fn origin(s: Surface, transform: Transform, x: usize, y: usize) -> usize
    requires { InPicture (rotated_size transform.rotation (size_of s)) (record { x = x; y = y }) }
    ensures { result ≡ pixel_start s (source_pixel_of s transform x y).x (source_pixel_of s transform x y).y }
{
    let p = source_point(s, transform, x, y);
    s.pixel_start(p.x as u16, p.y as u16)
}

// Whether output rows are rows of the source, in the same order of pixels.
pub fn is_identity_row(transform: Transform) -> bool
    ensures { result ≡ is_identity_row transform.rotation transform.flip }
{
    matches!(transform.rotation, Rotation::Rotate0) && !transform.flip.horizontal
}

// Where the first pixel of output row y lies, where output rows are rows of the source: what `origin` answers, without a choice by rotation in each row.
pub fn identity_row_start(s: Surface, transform: Transform, y: u16) -> usize
    requires { (transform.rotation ≡ Rotation.Rotate0) × (transform.flip.horizontal ≡ false) × (y < s.height) }
    ensures { result ≡ pixel_start s (source_pixel_of s transform 0 y).x (source_pixel_of s transform 0 y).y }
{
    let flip = transform.flip;
    let i = mirror(flip.vertical, s.height as usize, y as usize);
    s.row_start(i as u16)
}

// Whether the source pixels of an output row go back from its first one.
pub fn is_reversed(transform: Transform) -> bool
    ensures { result ≡ is_reversed transform.rotation transform.flip }
{
    let flip = transform.flip;
    match transform.rotation {
        Rotation::Rotate0 => flip.horizontal,
        Rotation::Rotate90 => !flip.vertical,
        Rotation::Rotate180 => !flip.horizontal,
        Rotation::Rotate270 => flip.vertical,
    }
}

// Bytes from one of them to the next.
pub fn pixel_stride(s: Surface, rotation: Rotation) -> usize
    ensures { result ≡ pixel_stride rotation s }
{
    match rotation {
        Rotation::Rotate0 | Rotation::Rotate180 => s.format.bytes(),
        Rotation::Rotate90 | Rotation::Rotate270 => s.stride as usize,
    }
}

// The address that lies x steps on from another, or back.
pub fn strided_address(start: usize, step: usize, back: bool, x: usize) -> usize
    requires { (back ≡ true → x * step ≤ start) × (back ≡ false → start + x * step ≤ 18446744073709551615) }
    ensures { result ≡ strided_address start step back x }
{
    if back {
        start - x * step
    } else {
        start + x * step
    }
}
