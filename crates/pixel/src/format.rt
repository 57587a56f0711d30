// The pixel formats: each carries its own constants, and makes its pixels out of colours.
ghost use Rattle.std.specs.Prelude.{◌≡◌, ◌<◌, ◌≤◌, ◌^◌, ℕ};
ghost use Rattle.pixel.specs.Formats.{layout_of, bytes_per_pixel, format_of, is_format};
ghost use Rattle.pixel.specs.Colours.{widened, packed, unpacked};

use crate::colour::Colour;

#[derive(Clone, Copy, Debug, PartialEq, Eq)]
pub enum Format {
    Argb8888,
    Rgb888,
    Rgb565,
}

// A format's constants: its code, its bytes a pixel, and the width in bits of each channel, 0 where it is absent.
#[derive(Clone, Copy, Debug, PartialEq, Eq)]
pub struct Layout {
    pub code: u32,
    pub bytes: usize,
    pub alpha: u32,
    pub red: u32,
    pub green: u32,
    pub blue: u32,
}

// A pixel as a format stores it. The type carries the format's constants, makes a pixel of a colour and reads it.
pub trait StoredPixel: Copy {
    ghost use Rattle.pixel.specs.declared.format.Layout.{Layout};

    // The format's constants, as `LAYOUT` below has them.
    ghost LAYOUT: { Layout };

    // The number that a pixel is stored as.
    ghost word_of: { Self → ℕ };

    const LAYOUT: Layout;

    fn new(c: Colour) -> Self
        ensures { word_of result ≡ packed LAYOUT c };

    fn colour(self) -> Colour
        ensures { result ≡ unpacked LAYOUT (word_of self) };
}

// A stored pixel of eight bits a channel.
#[derive(Clone, Copy, Debug, PartialEq, Eq)]
pub struct Argb8888 {
    pub word: u32,
}

// A stored pixel of eight bits a channel, without alpha.
#[derive(Clone, Copy, Debug, PartialEq, Eq)]
pub struct Rgb888 {
    pub word: u32,
}

// A stored pixel of 16 bits, without alpha.
#[derive(Clone, Copy, Debug, PartialEq, Eq)]
pub struct Rgb565 {
    pub word: u32,
}

impl StoredPixel for Argb8888 {
    ghost use Rattle.pixel.specs.declared.format.Format.{Format};

    ghost LAYOUT = { layout_of Format.Argb8888 };

    ghost word_of = { λ pixel. pixel.word };

    const LAYOUT: Layout = Layout {
        code: 0x00,
        bytes: 4,
        alpha: 8,
        red: 8,
        green: 8,
        blue: 8,
    };

    #[tactic(auto, unfolding(crate::specs::Colours::packed, crate::specs::Colours::narrowed))]
    fn new(c: Colour) -> Self {
        Argb8888 {
            word: u32::from_be_bytes([c.alpha, c.red, c.green, c.blue]),
        }
    }

    #[tactic(auto, unfolding(crate::specs::Colours::unpacked, crate::specs::Colours::widened))]
    fn colour(self) -> Colour {
        let [alpha, red, green, blue] = self.word.to_be_bytes();
        Colour {
            alpha,
            red,
            green,
            blue,
        }
    }
}

impl StoredPixel for Rgb888 {
    ghost use Rattle.pixel.specs.declared.format.Format.{Format};

    ghost LAYOUT = { layout_of Format.Rgb888 };

    ghost word_of = { λ pixel. pixel.word };

    const LAYOUT: Layout = Layout {
        code: 0x08,
        bytes: 3,
        alpha: 0,
        red: 8,
        green: 8,
        blue: 8,
    };

    #[tactic(auto, unfolding(crate::specs::Colours::packed, crate::specs::Colours::narrowed))]
    fn new(c: Colour) -> Self {
        Rgb888 {
            word: u32::from_be_bytes([0, c.red, c.green, c.blue]),
        }
    }

    #[tactic(auto, unfolding(crate::specs::Colours::unpacked, crate::specs::Colours::widened))]
    fn colour(self) -> Colour {
        let [_, red, green, blue] = self.word.to_be_bytes();
        Colour {
            alpha: 255,
            red,
            green,
            blue,
        }
    }
}

impl StoredPixel for Rgb565 {
    ghost use Rattle.pixel.specs.declared.format.Format.{Format};

    ghost LAYOUT = { layout_of Format.Rgb565 };

    ghost word_of = { λ pixel. pixel.word };

    const LAYOUT: Layout = Layout {
        code: 0x0E,
        bytes: 2,
        alpha: 0,
        red: 5,
        green: 6,
        blue: 5,
    };

    #[tactic(auto, unfolding(crate::specs::Colours::packed, crate::specs::Colours::narrowed))]
    fn new(c: Colour) -> Self {
        Rgb565 {
            word: u32::from(c.red) / 8 * 2048 + u32::from(c.green) / 4 * 32 + u32::from(c.blue) / 8,
        }
    }

    #[tactic(auto, unfolding(crate::specs::Colours::unpacked))]
    fn colour(self) -> Colour {
        let w = self.word;
        Colour {
            alpha: 255,
            red: widen::<5>(w / 2048 % 32),
            green: widen::<6>(w / 32 % 64),
            blue: widen::<5>(w % 32),
        }
    }
}

// A channel of WIDTH bits made eight.
fn widen<const WIDTH: u32>(c: u32) -> u8
    requires { (4 ≤ WIDTH) × (WIDTH ≤ 8) × (c < 2 ^ WIDTH) }
    ensures { result ≡ widened WIDTH c }
{
    ((c << (8 - WIDTH)) + (c >> (2 * WIDTH - 8))) as u8
}

impl Format {
    // Whether a number is the code of a format.
    pub fn is_code(code: u32) -> bool
        ensures { result ≡ is_format code }
    {
        (code == Argb8888::LAYOUT.code)
            | (code == Rgb888::LAYOUT.code)
            | (code == Rgb565::LAYOUT.code)
    }

    pub fn bytes(self) -> usize
        ensures { result ≡ bytes_per_pixel self }
    {
        self.layout().bytes
    }

    pub fn layout(self) -> Layout
        ensures { result ≡ layout_of self }
    {
        match self {
            Format::Argb8888 => Argb8888::LAYOUT,
            Format::Rgb888 => Rgb888::LAYOUT,
            Format::Rgb565 => Rgb565::LAYOUT,
        }
    }

    // The colour of a stored pixel.
    pub fn unpack(self, pixel: u32) -> Colour
        ensures { result ≡ unpacked (layout_of self) pixel }
    {
        match self {
            Format::Argb8888 => Argb8888 { word: pixel }.colour(),
            Format::Rgb888 => Rgb888 { word: pixel }.colour(),
            Format::Rgb565 => Rgb565 { word: pixel }.colour(),
        }
    }

    // A colour as a stored pixel.
    pub fn pack(self, c: Colour) -> u32
        ensures { result ≡ packed (layout_of self) c }
    {
        match self {
            Format::Argb8888 => Argb8888::new(c).word,
            Format::Rgb888 => Rgb888::new(c).word,
            Format::Rgb565 => Rgb565::new(c).word,
        }
    }
}

// The format of a code. Any other number counts as ARGB8888's.
impl From<u32> for Format {
    ghost from_gives = { λ code format. format ≡ format_of code };

    fn from(code: u32) -> Self {
        if code == Rgb888::LAYOUT.code {
            Format::Rgb888
        } else if code == Rgb565::LAYOUT.code {
            Format::Rgb565
        } else {
            Format::Argb8888
        }
    }
}
