// The table of writable registers: at which offsets they stand, and which words each of them takes.
ghost use Rattle.std.specs.Prelude.{◌≡◌, ◌&&◌, eqb};
ghost use Rattle.word.specs.Field.{field};
ghost use Rattle.pixel.specs.Formats.{is_format};
ghost use Rattle.pixel.specs.Alpha.{is_alpha_mode};
ghost use Rattle.register.specs.Table.{register_kind_of, source_control_accepts, destination_control_accepts, output_control_accepts, size_accepts, stride_accepts, step_accepts, blending_accepts, accepts_word as takesWord};

use pixel::{AlphaMode, Factor, Format};
use word::bits;

// Which row of the table a register's words are held to.
#[derive(Clone, Copy, PartialEq, Eq)]
pub enum RegisterKind {
    SourceControl,
    DestinationControl,
    OutputControl,
    Size,
    Stride,
    Step,
    Blending,
    FullWord,
}

// What the control words of the source and the destination have alike: 23:22 alpha mode, 21:15 zero, 14:8 format.
fn control_accepts(word: u32) -> bool
    ensures { result ≡ (is_alpha_mode (field 23 22 word) && eqb (field 21 15 word) 0 && is_format (field 14 8 word)) }
{
    AlphaMode::is_code(bits(word, 23, 22))
        & (bits(word, 21, 15) == 0)
        & Format::is_code(bits(word, 14, 8))
}

fn source_control_accepts(word: u32) -> bool
    ensures { result ≡ source_control_accepts word }
{
    control_accepts(word) & (bits(word, 1, 1) == 0)
}

fn destination_takes(word: u32) -> bool
    ensures { result ≡ destination_control_accepts word }
{
    control_accepts(word) & (bits(word, 7, 1) == 0)
}

// Kept (no plainer): of a control word it shares the field of the format alone.
fn output_takes(word: u32) -> bool
    ensures { result ≡ output_control_accepts word }
{
    (bits(word, 31, 15) == 0) & Format::is_code(bits(word, 14, 8)) & (bits(word, 7, 0) == 0)
}

fn size_takes(word: u32) -> bool
    ensures { result ≡ size_accepts word }
{
    (bits(word, 31, 29) == 0) & (bits(word, 15, 13) == 0)
}

fn stride_takes(word: u32) -> bool
    ensures { result ≡ stride_accepts word }
{
    bits(word, 31, 16) == 0
}

fn step_takes(word: u32) -> bool
    ensures { result ≡ step_accepts word }
{
    bits(word, 31, 25) == 0
}

fn blending_takes(word: u32) -> bool
    ensures { result ≡ blending_accepts word }
{
    (bits(word, 31, 18) == 0)
        & (bits(word, 16, 14) == 0)
        & Factor::is_code(bits(word, 13, 11))
        & Factor::is_code(bits(word, 10, 8))
        & (bits(word, 7, 1) == 0)
}

impl RegisterKind {
    // The row of the register at an offset, if a writable one stands there. Names as in document 002.
    #[tactic(auto, unfolding(crate::specs::Table::register_kind_of))]
    pub fn at(offset: u32) -> Option<RegisterKind>
        ensures { result ≡ register_kind_of offset }
    {
        let kind = match offset {
            0x010 => RegisterKind::SourceControl, // SRC_SURFACE_CTRL
            0x014 => RegisterKind::Size, // SRC_SURFACE_INPUT_SIZE
            0x018 => RegisterKind::Stride, // SRC_SURFACE_STRIDE
            0x01C => RegisterKind::FullWord, // SRC_SURFACE_FILL_COLOR
            0x020 => RegisterKind::FullWord, // SRC_SURFACE_ADDR0
            0x030 => RegisterKind::Step, // the step of A
            0x034 => RegisterKind::Step, // of R
            0x038 => RegisterKind::Step, // of G
            0x03C => RegisterKind::Step, // of B
            0x050 => RegisterKind::DestinationControl, // DST_SURFACE_CTRL
            0x054 => RegisterKind::Size, // DST_SURFACE_INPUT_SIZE
            0x058 => RegisterKind::Stride, // DST_SURFACE_STRIDE
            0x060 => RegisterKind::FullWord, // DST_SURFACE_ADDR0
            0x090 => RegisterKind::Blending, // BLENDING_CTRL
            0x100 => RegisterKind::OutputControl, // OUTPUT_CTRL
            0x104 => RegisterKind::Size, // OUTPUT_SIZE
            0x108 => RegisterKind::Stride, // OUTPUT_STRIDE
            0x110 => RegisterKind::FullWord, // OUTPUT_ADDR0
            _ => return None,
        };
        Some(kind)
    }

    // Whether a register of this row takes a word: its bits and codes, and nothing else.
    pub fn accepts(self, word: u32) -> bool
        ensures { result ≡ takesWord self word }
    {
        match self {
            RegisterKind::SourceControl => source_control_accepts(word),
            RegisterKind::DestinationControl => destination_takes(word),
            RegisterKind::OutputControl => output_takes(word),
            RegisterKind::Size => size_takes(word),
            RegisterKind::Stride => stride_takes(word),
            RegisterKind::Step => step_takes(word),
            RegisterKind::Blending => blending_takes(word),
            RegisterKind::FullWord => true,
        }
    }
}
