// Blending of two colours: alpha modes, factors, rules.
ghost use Rattle.std.specs.Prelude.{◌≡◌, ◌*◌, ◌≤◌};
ghost use Rattle.pixel.specs.Alpha.{is_alpha_mode, alpha_mode_of, effective_alpha, with_alpha};
ghost use Rattle.pixel.specs.Blending.{is_factor, factor_of, factor_value, blended_channel, blended};
ghost use Rattle.pixel.specs.Rules.{blend_mode_factors};

use crate::colour::Colour;

// Which alpha a pixel has: its own, its surface's global one, or the product of the two.
#[derive(Clone, Copy, Debug, PartialEq, Eq)]
pub enum AlphaMode {
    Pixel,
    Global,
    Mixed,
}

#[derive(Clone, Copy, Debug, PartialEq, Eq)]
pub enum Factor {
    Zero,
    One,
    SourceAlpha,
    InverseSourceAlpha,
    DestinationAlpha,
    InverseDestinationAlpha,
}

// The factor of the source and that of the destination.
#[derive(Clone, Copy, Debug, PartialEq, Eq)]
pub struct BlendFactors {
    pub source: Factor,
    pub destination: Factor,
}

#[derive(Clone, Copy, Debug, PartialEq, Eq)]
pub enum BlendMode {
    None,
    Clear,
    Src,
    Dst,
    SrcOver,
    DstOver,
    SrcIn,
    DstIn,
    SrcOut,
    DstOut,
    SrcAtop,
    DstAtop,
    Xor,
    Add,
}

// The product of two bytes.
fn product(a: u8, b: u8) -> u32
    ensures { (result ≡ a * b) × (result ≤ 65025) }
{
    u32::from(a) * u32::from(b)
}

impl AlphaMode {
    // Whether a number is the code of a mode.
    pub fn is_code(code: u32) -> bool
        ensures { result ≡ is_alpha_mode code }
    {
        code <= 2
    }

    // The alpha of a pixel under this mode.
    fn alpha(self, global: u8, pixel: u8) -> u8
        ensures { result ≡ effective_alpha self global pixel }
    {
        match self {
            AlphaMode::Pixel => pixel,
            AlphaMode::Global => global,
            AlphaMode::Mixed => division::div_255(product(pixel, global)) as u8,
        }
    }

    // A colour with its alpha under this mode.
    pub fn apply(self, global: u8, c: Colour) -> Colour
        ensures { result ≡ with_alpha self global c }
    {
        Colour {
            alpha: self.alpha(global, c.alpha),
            red: c.red,
            green: c.green,
            blue: c.blue,
        }
    }
}

// The mode of a code. Any number above 2 counts as 2.
impl From<u32> for AlphaMode {
    ghost from_gives = { λ code mode. mode ≡ alpha_mode_of code };

    fn from(code: u32) -> Self {
        match code {
            0 => AlphaMode::Pixel,
            1 => AlphaMode::Global,
            _ => AlphaMode::Mixed,
        }
    }
}

impl Factor {
    // Whether a number is the code of a factor.
    pub fn is_code(code: u32) -> bool
        ensures { result ≡ is_factor code }
    {
        code <= 5
    }

    // The factor for a source alpha and a destination alpha.
    pub fn value(self, source: u8, destination: u8) -> u8
        ensures { result ≡ factor_value self source destination }
    {
        match self {
            Factor::Zero => 0,
            Factor::One => 255,
            Factor::SourceAlpha => source,
            Factor::InverseSourceAlpha => 255 - source,
            Factor::DestinationAlpha => destination,
            Factor::InverseDestinationAlpha => 255 - destination,
        }
    }
}

// The factor of a code. Any number above 5 counts as 5.
impl From<u32> for Factor {
    ghost from_gives = { λ code factor. factor ≡ factor_of code };

    fn from(code: u32) -> Self {
        match code {
            0 => Factor::Zero,
            1 => Factor::One,
            2 => Factor::SourceAlpha,
            3 => Factor::InverseSourceAlpha,
            4 => Factor::DestinationAlpha,
            _ => Factor::InverseDestinationAlpha,
        }
    }
}

impl BlendFactors {
    pub const NONE: BlendFactors = BlendFactors {
        source: Factor::SourceAlpha,
        destination: Factor::InverseSourceAlpha,
    };

    pub const CLEAR: BlendFactors = BlendFactors {
        source: Factor::Zero,
        destination: Factor::Zero,
    };

    pub const SRC: BlendFactors = BlendFactors {
        source: Factor::One,
        destination: Factor::Zero,
    };

    pub const DST: BlendFactors = BlendFactors {
        source: Factor::Zero,
        destination: Factor::One,
    };

    pub const SRC_OVER: BlendFactors = BlendFactors {
        source: Factor::One,
        destination: Factor::InverseSourceAlpha,
    };

    pub const DST_OVER: BlendFactors = BlendFactors {
        source: Factor::InverseDestinationAlpha,
        destination: Factor::One,
    };

    pub const SRC_IN: BlendFactors = BlendFactors {
        source: Factor::DestinationAlpha,
        destination: Factor::Zero,
    };

    pub const DST_IN: BlendFactors = BlendFactors {
        source: Factor::Zero,
        destination: Factor::SourceAlpha,
    };

    pub const SRC_OUT: BlendFactors = BlendFactors {
        source: Factor::InverseDestinationAlpha,
        destination: Factor::Zero,
    };

    pub const DST_OUT: BlendFactors = BlendFactors {
        source: Factor::Zero,
        destination: Factor::InverseSourceAlpha,
    };

    pub const SRC_ATOP: BlendFactors = BlendFactors {
        source: Factor::DestinationAlpha,
        destination: Factor::InverseSourceAlpha,
    };

    pub const DST_ATOP: BlendFactors = BlendFactors {
        source: Factor::InverseDestinationAlpha,
        destination: Factor::SourceAlpha,
    };

    pub const XOR: BlendFactors = BlendFactors {
        source: Factor::InverseDestinationAlpha,
        destination: Factor::InverseSourceAlpha,
    };

    pub const ADD: BlendFactors = BlendFactors {
        source: Factor::One,
        destination: Factor::One,
    };

    pub fn for_mode(name: BlendMode) -> BlendFactors
        ensures { result ≡ blend_mode_factors name }
    {
        match name {
            BlendMode::None => BlendFactors::NONE,
            BlendMode::Clear => BlendFactors::CLEAR,
            BlendMode::Src => BlendFactors::SRC,
            BlendMode::Dst => BlendFactors::DST,
            BlendMode::SrcOver => BlendFactors::SRC_OVER,
            BlendMode::DstOver => BlendFactors::DST_OVER,
            BlendMode::SrcIn => BlendFactors::SRC_IN,
            BlendMode::DstIn => BlendFactors::DST_IN,
            BlendMode::SrcOut => BlendFactors::SRC_OUT,
            BlendMode::DstOut => BlendFactors::DST_OUT,
            BlendMode::SrcAtop => BlendFactors::SRC_ATOP,
            BlendMode::DstAtop => BlendFactors::DST_ATOP,
            BlendMode::Xor => BlendFactors::XOR,
            BlendMode::Add => BlendFactors::ADD,
        }
    }

    // The colour of a source pixel blended with a destination pixel.
    #[tactic(auto, unfolding(crate::specs::Blending::blended))]
    pub fn blend(self, s: Colour, d: Colour) -> Colour
        ensures { result ≡ blended self s d }
    {
        let source = self.source;
        let destination = self.destination;
        let fs = source.value(s.alpha, d.alpha);
        let fd = destination.value(s.alpha, d.alpha);
        Colour {
            alpha: blend_channel(s.alpha, fs, d.alpha, fd),
            red: blend_channel(s.red, fs, d.red, fd),
            green: blend_channel(s.green, fs, d.green, fd),
            blue: blend_channel(s.blue, fs, d.blue, fd),
        }
    }
}

// One channel. The sum is held at 255 after it was divided, so it must not wrap in eight bits before.
#[tactic(auto, unfolding(crate::specs::Blending::blended_channel, division::specs::Division::div255))]
pub fn blend_channel(s: u8, fs: u8, d: u8, fd: u8) -> u8
    ensures { result ≡ blended_channel s fs d fd }
{
    let sum = division::div_255(product(s, fs) + product(d, fd));
    sum.min(255) as u8
}
