// The rectangles of a replay's memory that can be shown.
ghost use Rattle.std.specs.Prelude.{◌≡◌};
ghost use Rattle.ppm.specs.Rectangle.{is_side, rectangle_of, pixel_of};

use pixel::Format;
use range::Range;
use surface::Surface;

fn is_side(side: u32) -> bool
    ensures { result ≡ is_side side }
{
    (1 <= side) & (side <= 4096)
}

// The surface of these numbers, if it lies in the memory of a replay.
#[tactic(auto, unfolding(crate::specs::Rectangle::rectangle_of))]
pub fn rectangle_of(
    address: u32,
    stride: u32,
    width: u32,
    height: u32,
    format: Format,
) -> Option<Surface>
    ensures { result ≡ rectangle_of address stride width height format }
{
    let sized = is_side(width) & is_side(height) & (stride < 65536);
    if !sized {
        return None;
    }
    let s = Surface {
        address,
        stride: stride as u16,
        width: width as u16,
        height: height as u16,
        format,
    };
    if s.is_inside(Range::new(0, 65536)) {
        return Some(s);
    }
    None
}

// The first byte of pixel (x, y) of a page with this address, stride and format. It may lie outside memory; none is so far away.
#[tactic(auto, unfolding(crate::specs::Rectangle::pixel_of))]
pub fn pixel_of(address: u32, stride: u32, format: Format, x: u32, y: u32) -> Option<usize>
    ensures { result ≡ pixel_of address stride format x y }
{
    let near = (stride < 65536) & (x < 4096) & (y < 4096);
    if !near {
        return None;
    }
    // The sides do not matter to where a pixel lies.
    let s = Surface {
        address,
        stride: stride as u16,
        width: 4096,
        height: 4096,
        format,
    };
    Some(s.pixel_start(x as u16, y as u16))
}
