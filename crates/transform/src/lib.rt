// Flips and rotation by quarter turns: where each output pixel comes from.
#![tactic(auto)]

ghost use Rattle.std.specs.Prelude.{◌≡◌, ◌<◌};
ghost use Rattle.transform.specs.Transform.{rotation_of, turns, InPicture, rotated_size, unrotated, mirrored, unflipped, source_pixel};

// A rotation clockwise by 0 to 3 quarter turns.
#[derive(Clone, Copy, Debug, PartialEq, Eq)]
pub enum Rotation {
    Rotate0,
    Rotate90,
    Rotate180,
    Rotate270,
}

#[derive(Clone, Copy, Debug, PartialEq, Eq)]
pub struct Flip {
    pub horizontal: bool,
    pub vertical: bool,
}

// A flip, then a rotation.
#[derive(Clone, Copy, Debug, PartialEq, Eq)]
pub struct Transform {
    pub flip: Flip,
    pub rotation: Rotation,
}

#[derive(Clone, Copy, Debug, PartialEq, Eq)]
pub struct Size {
    pub width: usize,
    pub height: usize,
}

#[derive(Clone, Copy, Debug, PartialEq, Eq)]
pub struct Point {
    pub x: usize,
    pub y: usize,
}

impl Size {
    // The size of a picture of this size, rotated.
    pub fn rotated(self, rotation: Rotation) -> Size
        ensures { result ≡ rotated_size rotation self }
    {
        match rotation {
            Rotation::Rotate0 | Rotation::Rotate180 => self,
            Rotation::Rotate90 | Rotation::Rotate270 => Size {
                width: self.height,
                height: self.width,
            },
        }
    }
}

// Place i of n, counted from the other end if flipped.
pub fn mirror(on: bool, n: usize, i: usize) -> usize
    requires { i < n }
    ensures { result ≡ mirrored on n i }
{
    if on { n - 1 - i } else { i }
}

// The rotation of a number of quarter turns. Any number above 2 counts as 3.
impl From<u32> for Rotation {
    ghost from_gives = { λ code rotation. rotation ≡ rotation_of code };

    fn from(code: u32) -> Self {
        match code {
            0 => Rotation::Rotate0,
            1 => Rotation::Rotate90,
            2 => Rotation::Rotate180,
            _ => Rotation::Rotate270,
        }
    }
}

impl From<Rotation> for u32 {
    ghost from_gives = { λ rotation code. code ≡ turns rotation };

    fn from(rotation: Rotation) -> u32 {
        rotation as u32
    }
}

impl Rotation {
    // The pixel of the unrotated picture, of this size, that is pixel `at` of the rotated one.
    fn origin(self, size: Size, at: Point) -> Point
        requires { InPicture (rotated_size self size) at }
        ensures { result ≡ unrotated self size at }
    {
        let w = size.width;
        let h = size.height;
        let x = at.x;
        let y = at.y;
        match self {
            Rotation::Rotate0 => at,
            Rotation::Rotate90 => Point { x: y, y: h - 1 - x },
            Rotation::Rotate180 => Point {
                x: w - 1 - x,
                y: h - 1 - y,
            },
            Rotation::Rotate270 => Point { x: w - 1 - y, y: x },
        }
    }
}

impl Flip {
    // The pixel of the unflipped picture, of this size, that is pixel `at` of the flipped one.
    fn origin(self, size: Size, at: Point) -> Point
        requires { InPicture size at }
        ensures { result ≡ unflipped self size at }
    {
        Point {
            x: mirror(self.horizontal, size.width, at.x),
            y: mirror(self.vertical, size.height, at.y),
        }
    }
}

impl Transform {
    // The source pixel, of a source of this size, that is output pixel `at`. The flip comes first, so it is undone last.
    pub fn source_of(self, size: Size, at: Point) -> Point
        requires { InPicture (rotated_size self.rotation size) at }
        ensures { result ≡ source_pixel self size at }
    {
        let flip = self.flip;
        let rotation = self.rotation;
        flip.origin(size, rotation.origin(size, at))
    }
}
