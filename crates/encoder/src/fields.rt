// A task's fields, each a plain number of any value: which of them the registers' rules allow, and the registers that they give.
// Kept (C interface): these structs are the header's, field by field, so numbers stand for codes, kinds and flags.
ghost use Rattle.std.specs.Prelude.{◌≡◌, true, cond, ◌&&◌, Ok, Err};
ghost use Rattle.encoder.specs.declared.EncodeError.TheVariants.{Forbidden};
ghost use Rattle.encoder.specs.Fields.{surface_allowed, alpha_allowed, transform_allowed, source_allowed, destination_allowed, blending_allowed, steps_allowed, allowed};
ghost use Rattle.encoder.specs.Registers.{surface_registers, alpha_bits, transform_bits, source_control, destination_control, blending_word, bank_of};
ghost use Rattle.encoder.specs.Solid.{reset_blending, solid_source, solid_fields};

use crate::EncodeError;
use pixel::gradient::Steps;
use pixel::{AlphaMode, Factor, Format};
use register::{Bank, SurfaceRegisters};
use reset::ResetRule;

#[repr(C)]
#[derive(Clone, Copy)]
pub struct SurfaceFields {
    pub width: u32,
    pub height: u32,
    pub stride: u32,
    pub address: u32,
    pub format: u32,
}

#[repr(C)]
#[derive(Clone, Copy)]
pub struct AlphaFields {
    pub mode: u32,
    pub global: u32,
}

#[repr(C)]
#[derive(Clone, Copy)]
pub struct TransformFields {
    // 1 for a flip
    pub horizontal: u32,
    pub vertical: u32,
    // in quarter turns, clockwise
    pub rotation: u32,
}

#[repr(C)]
#[derive(Clone, Copy)]
pub struct SourceFields {
    pub surface: SurfaceFields,
    pub alpha: AlphaFields,
    pub transform: TransformFields,
    pub mode: u32,
    pub enable: u32,
}

#[repr(C)]
#[derive(Clone, Copy)]
pub struct DestinationFields {
    pub surface: SurfaceFields,
    pub alpha: AlphaFields,
    pub enable: u32,
}

#[repr(C)]
#[derive(Clone, Copy)]
pub struct BlendingFields {
    // the factors
    pub source: u32,
    pub destination: u32,
    pub on: u32,
    // 1 where the source's colours were multiplied by their alphas
    pub premultiplied: u32,
}

#[repr(C)]
#[derive(Clone, Copy)]
pub struct Fields {
    pub source: SourceFields,
    pub destination: DestinationFields,
    pub output: SurfaceFields,
    pub colour: u32,
    pub blending: BlendingFields,
}

impl SurfaceFields {
    pub const RESET: SurfaceFields = SurfaceFields {
        width: 0,
        height: 0,
        stride: 0,
        address: 0,
        format: 0,
    };

    fn is_allowed(self) -> bool
        ensures { result ≡ surface_allowed self }
    {
        (self.width < 0x2000)
            & (self.height < 0x2000)
            & (self.stride < 0x10000)
            & Format::is_code(self.format)
    }

    fn registers(self, control: u32) -> SurfaceRegisters
        requires { surface_allowed self ≡ true }
        ensures { result ≡ surface_registers control self }
    {
        SurfaceRegisters {
            control,
            size: self.height * 0x10000 + self.width,
            stride: self.stride,
            address: self.address,
        }
    }
}

impl AlphaFields {
    pub const RESET: AlphaFields = AlphaFields { mode: 0, global: 0 };

    fn is_allowed(self) -> bool
        ensures { result ≡ alpha_allowed self }
    {
        AlphaMode::is_code(self.mode) & (self.global < 0x100)
    }

    // Its bits of a control word.
    fn bits(self) -> u32
        requires { alpha_allowed self ≡ true }
        ensures { result ≡ alpha_bits self }
    {
        self.global * 0x1000000 + self.mode * 0x400000
    }
}

impl TransformFields {
    pub const RESET: TransformFields = TransformFields {
        horizontal: 0,
        vertical: 0,
        rotation: 0,
    };

    fn is_allowed(self) -> bool
        ensures { result ≡ transform_allowed self }
    {
        (self.horizontal < 2) & (self.vertical < 2) & (self.rotation < 4)
    }

    // Its bits of a control word.
    fn bits(self) -> u32
        requires { transform_allowed self ≡ true }
        ensures { result ≡ transform_bits self }
    {
        self.vertical * 0x80 + self.horizontal * 0x40 + self.rotation * 0x10
    }
}

impl SourceFields {
    // One colour, of this size.
    pub(crate) fn solid(width: u32, height: u32) -> SourceFields
        ensures { result ≡ solid_source width height }
    {
        SourceFields {
            surface: SurfaceFields {
                width,
                height,
                ..SurfaceFields::RESET
            },
            alpha: AlphaFields::RESET,
            transform: TransformFields::RESET,
            mode: 1,
            enable: 1,
        }
    }

    fn is_allowed(self) -> bool
        ensures { result ≡ source_allowed self }
    {
        self.surface.is_allowed()
            & self.alpha.is_allowed()
            & self.transform.is_allowed()
            & (self.mode < 4)
            & (self.enable < 2)
    }

    fn control(self) -> u32
        requires { source_allowed self ≡ true }
        ensures { result ≡ source_control self }
    {
        self.alpha.bits()
            + self.surface.format * 0x100
            + self.transform.bits()
            + self.mode * 0x4
            + self.enable
    }
}

impl DestinationFields {
    pub const RESET: DestinationFields = DestinationFields {
        surface: SurfaceFields::RESET,
        alpha: AlphaFields::RESET,
        enable: 0,
    };

    fn is_allowed(self) -> bool
        ensures { result ≡ destination_allowed self }
    {
        self.surface.is_allowed() & self.alpha.is_allowed() & (self.enable < 2)
    }

    fn control(self) -> u32
        requires { destination_allowed self ≡ true }
        ensures { result ≡ destination_control self }
    {
        self.alpha.bits() + self.surface.format * 0x100 + self.enable
    }
}

impl BlendingFields {
    // The factors of the rule NONE.
    pub const UNBLENDED: BlendingFields = BlendingFields {
        source: 2,
        destination: 3,
        on: 0,
        premultiplied: 0,
    };

    pub const SRC_OVER: BlendingFields = BlendingFields {
        source: 1,
        destination: 3,
        on: 1,
        premultiplied: 0,
    };

    fn reset(rule: ResetRule) -> BlendingFields
        ensures { result ≡ reset_blending rule }
    {
        match rule {
            ResetRule::Unblended => BlendingFields::UNBLENDED,
            ResetRule::SrcOver => BlendingFields::SRC_OVER,
        }
    }

    fn is_allowed(self) -> bool
        ensures { result ≡ blending_allowed self }
    {
        Factor::is_code(self.source)
            & Factor::is_code(self.destination)
            & (self.on < 2)
            & (self.premultiplied < 2)
    }

    fn word(self) -> u32
        requires { blending_allowed self ≡ true }
        ensures { result ≡ blending_word self }
    {
        self.premultiplied * 0x20000 + self.source * 0x800 + self.destination * 0x100 + self.on
    }
}

// Whether each step fits its 25 bits.
#[tactic(auto, unfolding(crate::specs::Fields::steps_allowed))]
fn steps_allowed(steps: Steps) -> bool
    ensures { result ≡ steps_allowed steps }
{
    (steps.alpha < 0x2000000)
        & (steps.red < 0x2000000)
        & (steps.green < 0x2000000)
        & (steps.blue < 0x2000000)
}

impl Fields {
    // A rectangle of one colour in ARGB8888, all else at reset.
    pub fn solid(
        rule: ResetRule,
        colour: u32,
        width: u32,
        height: u32,
        stride: u32,
        address: u32,
    ) -> Fields
        ensures { result ≡ solid_fields rule colour width height stride address }
    {
        Fields {
            source: SourceFields::solid(width, height),
            destination: DestinationFields::RESET,
            output: SurfaceFields {
                width,
                height,
                stride,
                address,
                format: 0,
            },
            colour,
            blending: BlendingFields::reset(rule),
        }
    }

    // Whether each field fits its bits, and each code is one.
    #[tactic(auto, unfolding(crate::specs::Fields::allowed))]
    pub fn is_allowed(self) -> bool
        ensures { result ≡ allowed self }
    {
        self.source.is_allowed()
            & self.destination.is_allowed()
            & self.output.is_allowed()
            & self.blending.is_allowed()
    }

    // The registers with these fields and steps, if each fits its bits, and each code is one. In place: a call would copy the fields, 120 bytes.
    #[inline(always)]
    pub(crate) fn bank(self, steps: Steps) -> Result<Bank, EncodeError>
        ensures { result ≡ cond (allowed self && steps_allowed steps) (Ok (bank_of steps self)) (Err Forbidden) }
    {
        if self.is_allowed() & steps_allowed(steps) {
            Ok(self.registers(steps))
        } else {
            Err(EncodeError::Forbidden)
        }
    }

    // The registers with these fields and steps.
    #[tactic(auto, unfolding(crate::specs::Fields::allowed, crate::specs::Registers::bank_of))]
    fn registers(self, steps: Steps) -> Bank
        requires { allowed self ≡ true }
        ensures { result ≡ bank_of steps self }
    {
        let read = self.source;
        let under = self.destination;
        Bank {
            source: read.surface.registers(read.control()),
            destination: under.surface.registers(under.control()),
            output: self.output.registers(self.output.format * 0x100),
            colour: self.colour,
            steps,
            blending: self.blending.word(),
        }
    }
}
