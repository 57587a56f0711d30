// The task that a bank describes.
ghost use Rattle.std.specs.Prelude.{◌≡◌};
ghost use Rattle.register.specs.Task.{surface_of, source_mode_of, is_buffer, transform_of, alpha_of, is_enabled, source_of_bank, destination_of, blending_of, task_of};

use crate::bank::{Bank, SurfaceRegisters};
use pixel::gradient::Steps;
use pixel::{AlphaMode, BlendFactors, Colour, Factor, Format};
use surface::Surface;
use transform::{Flip, Rotation, Transform};
use word::bits;

// Where the source's pixels come from: a rectangle in memory, one colour, or a colour that changes along x or along y.
#[derive(Clone, Copy, Debug, PartialEq, Eq)]
pub enum SourceMode {
    Buffer,
    Colour,
    GradientX,
    GradientY,
}

// An alpha mode, with the surface's global alpha.
#[derive(Clone, Copy)]
pub struct Alpha {
    pub mode: AlphaMode,
    pub global: u8,
}

#[derive(Clone, Copy)]
pub struct Source {
    pub surface: Surface,
    pub mode: SourceMode,
    pub colour: Colour,
    pub steps: Steps,
    pub transform: Transform,
    pub alpha: Alpha,
    pub enabled: bool,
}

#[derive(Clone, Copy)]
pub struct Destination {
    pub surface: Surface,
    pub alpha: Alpha,
    pub enabled: bool,
}

#[derive(Clone, Copy)]
pub struct Blending {
    pub on: bool,
    pub rule: BlendFactors,
    // whether the source's colours were multiplied by their alphas
    pub premultiplied: bool,
}

#[derive(Clone, Copy)]
pub struct Task {
    pub source: Source,
    pub destination: Destination,
    pub output: Surface,
    pub blending: Blending,
}

impl SourceMode {
    fn from_code(code: u32) -> SourceMode
        ensures { result ≡ source_mode_of code }
    {
        match code {
            0 => SourceMode::Buffer,
            1 => SourceMode::Colour,
            2 => SourceMode::GradientX,
            _ => SourceMode::GradientY,
        }
    }

    // Whether the source is read from memory, and so has a stride, a format and a span.
    pub fn is_buffer(self) -> bool
        ensures { result ≡ is_buffer self }
    {
        self == SourceMode::Buffer
    }
}

impl SurfaceRegisters {
    #[tactic(auto, unfolding(crate::specs::Task::surface_of))]
    fn surface(self) -> Surface
        ensures { result ≡ surface_of self }
    {
        Surface {
            address: self.address,
            stride: bits(self.stride, 15, 0) as u16,
            width: bits(self.size, 12, 0) as u16,
            height: bits(self.size, 28, 16) as u16,
            format: Format::from(bits(self.control, 14, 8)),
        }
    }

    #[tactic(auto, unfolding(crate::specs::Task::transform_of))]
    fn transform(self) -> Transform
        ensures { result ≡ transform_of self.control }
    {
        Transform {
            flip: Flip {
                horizontal: bits(self.control, 6, 6) == 1,
                vertical: bits(self.control, 7, 7) == 1,
            },
            rotation: Rotation::from(bits(self.control, 5, 4)),
        }
    }

    #[tactic(auto, unfolding(crate::specs::Task::alpha_of))]
    fn alpha(self) -> Alpha
        ensures { result ≡ alpha_of self.control }
    {
        Alpha {
            mode: AlphaMode::from(bits(self.control, 23, 22)),
            global: bits(self.control, 31, 24) as u8,
        }
    }

    fn is_enabled(self) -> bool
        ensures { result ≡ is_enabled self.control }
    {
        bits(self.control, 0, 0) == 1
    }
}

impl Bank {
    #[tactic(auto, unfolding(crate::specs::Task::source_of_bank))]
    fn source(self) -> Source
        ensures { result ≡ source_of_bank self }
    {
        let registers = self.source;
        Source {
            surface: registers.surface(),
            mode: SourceMode::from_code(bits(registers.control, 3, 2)),
            colour: Format::Argb8888.unpack(self.colour),
            steps: self.steps,
            transform: registers.transform(),
            alpha: registers.alpha(),
            enabled: registers.is_enabled(),
        }
    }

    #[tactic(auto, unfolding(crate::specs::Task::destination_of))]
    fn destination(self) -> Destination
        ensures { result ≡ destination_of self }
    {
        let registers = self.destination;
        Destination {
            surface: registers.surface(),
            alpha: registers.alpha(),
            enabled: registers.is_enabled(),
        }
    }

    #[tactic(auto, unfolding(crate::specs::Task::blending_of))]
    fn blending(self) -> Blending
        ensures { result ≡ blending_of self }
    {
        Blending {
            on: bits(self.blending, 0, 0) == 1,
            rule: BlendFactors {
                source: Factor::from(bits(self.blending, 13, 11)),
                destination: Factor::from(bits(self.blending, 10, 8)),
            },
            premultiplied: bits(self.blending, 17, 17) == 1,
        }
    }

    // The task that the registers describe.
    #[tactic(auto, unfolding(crate::specs::Task::task_of))]
    pub fn task(self) -> Task
        ensures { result ≡ task_of self }
    {
        Task {
            source: self.source(),
            destination: self.destination(),
            output: self.output.surface(),
            blending: self.blending(),
        }
    }
}
