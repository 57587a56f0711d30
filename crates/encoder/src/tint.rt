// A tint (02, request 1): a colour laid over a rectangle, the fainter the surer the reader of handwriting is. Score, colour and rectangle in, the 80
// bytes of a batch of that one task out.
ghost use Rattle.std.specs.Prelude.{◌≡◌, ◌*◌, length};
ghost use Rattle.division.specs.Division.{div255};
ghost use Rattle.encoder.specs.declared.tint.TintError.TheVariants.{Refused};
ghost use Rattle.encoder.specs.Tint.{tint_colour, tint_fields, tint_refusal_of, answer_of, buffer_after};

use crate::{
    AlphaFields, BlendingFields, DestinationFields, EncodeError, Fields, SourceFields,
    SurfaceFields,
};
use pixel::{Argb8888, Colour, StoredPixel};

// The colour of a tint. It has no alpha: that is the coverage.
#[derive(Clone, Copy)]
pub struct Tint {
    pub red: u8,
    pub green: u8,
    pub blue: u8,
}

// Why a tint is not written: no score was given, or the encoder refuses the task.
#[derive(Clone, Copy, Debug, PartialEq, Eq)]
pub enum TintError {
    // NaN, or outside 0 to 1
    BadScore,
    Refused(EncodeError),
}

impl From<EncodeError> for TintError {
    ghost from_gives = { λ e r. r ≡ Refused e };

    fn from(error: EncodeError) -> TintError {
        TintError::Refused(error)
    }
}

// The papers' number of a refusal, 0 without one.
pub fn refusal_number(answer: Result<(), TintError>) -> u32
    ensures { result ≡ tint_refusal_of answer }
{
    match answer {
        Ok(()) => 0,
        Err(TintError::BadScore) => 15,
        Err(TintError::Refused(error)) => crate::refusal_number(Err(error)),
    }
}

// A channel of a tint at a coverage.
fn channel_of(channel: u8, coverage: u8) -> u8
    ensures { result ≡ div255 (channel * coverage) }
{
    division::div_255((channel as u32) * (coverage as u32)) as u8
}

// The colour that is laid over the rectangle.
fn colour_of(tint: Tint, coverage: u8) -> Colour
    ensures { result ≡ tint_colour tint coverage }
{
    Colour {
        alpha: coverage,
        red: channel_of(tint.red, coverage),
        green: channel_of(tint.green, coverage),
        blue: channel_of(tint.blue, coverage),
    }
}

// The task's fields: the colour by SRC_OVER over what the output holds.
#[tactic(auto, unfolding(crate::specs::Tint::tint_fields))]
fn fields_of(tint: Tint, coverage: u8, output: SurfaceFields) -> Fields
    ensures { result ≡ tint_fields tint coverage output }
{
    let stored = Argb8888::new(colour_of(tint, coverage));
    Fields {
        source: SourceFields::solid(output.width, output.height),
        destination: DestinationFields {
            surface: output,
            alpha: AlphaFields::RESET,
            enable: 1,
        },
        output,
        colour: stored.word,
        blending: BlendingFields::SRC_OVER,
    }
}

// Writes the batch of the one task that tints a rectangle to the first 80 bytes of a buffer, or refuses and writes nothing.
pub fn encode_tint(
    score: f32,
    tint: Tint,
    output: SurfaceFields,
    buffer: &mut [u8],
) -> Result<(), TintError>
    ensures { (result ≡ answer_of score tint output (length buffer.old))
        × (buffer.new ≡ buffer_after score tint output buffer.old) }
{
    if !score::is_score(score) {
        return Err(TintError::BadScore);
    }
    let fields = fields_of(tint, score::coverage_of(score), output);
    crate::encode(fields, buffer)?;
    Ok(())
}
