// The encoder (the papers' writer): a task's fields in, the bytes of a batch of that one task out. The first form has 80 bytes and no steps, the second 100.
#![tactic(auto)]

pub mod tint;

ghost use Rattle.std.specs.Prelude.{◌≡◌, length};
ghost use Rattle.word.specs.Word.{words_bytes};
ghost use Rattle.encoder.specs.Words.{task_words};
ghost use Rattle.encoder.specs.Forms.{first_form};
ghost use Rattle.encoder.specs.Encoder.{encode_refusal_of, answer_of, fitting_answer, buffer_on_answer, buffer_after};

pub mod fields;
pub mod shaded;

pub use fields::{
    AlphaFields, BlendingFields, DestinationFields, Fields, SourceFields, SurfaceFields,
    TransformFields,
};
use pixel::gradient::Steps;
use register::Bank;
pub use shaded::encode_shaded;

// Why a task is not written.
#[derive(Clone, Copy, Debug, PartialEq, Eq)]
pub enum EncodeError {
    // a field that its register's rule forbids
    Forbidden,
    // a buffer of under 80 bytes, or 100 for the second form
    ShortBuffer,
}

// The papers' number of a refusal, 0 without one.
pub fn refusal_number(answer: Result<(), EncodeError>) -> u32
    ensures { result ≡ encode_refusal_of answer }
{
    match answer {
        Ok(()) => 0,
        Err(EncodeError::Forbidden) => 24,
        Err(EncodeError::ShortBuffer) => 12,
    }
}

// Kept (no plainer): the words of the two forms differ by a group in the middle, and arrays are not joined at a length that is computed.
// The words of a batch that writes every register of a bank but the steps: six groups, the last of which ends the task.
#[tactic(auto, unfolding(crate::specs::Words::task_words))]
fn words_of(bank: Bank) -> [u32; 20]
    ensures { result ≡ task_words bank }
{
    [
        0x00100014,
        bank.source.control,
        bank.source.size,
        bank.source.stride,
        bank.colour,
        bank.source.address,
        0x0050000C,
        bank.destination.control,
        bank.destination.size,
        bank.destination.stride,
        0x00600004,
        bank.destination.address,
        0x00900004,
        bank.blending,
        0x0100000C,
        bank.output.control,
        bank.output.size,
        bank.output.stride,
        0x01100005,
        bank.output.address,
    ]
}

// Writes words to the first bytes of a buffer, or refuses where they do not fit, and writes nothing.
pub(crate) fn write_words(words: &[u32], buffer: &mut [u8]) -> Result<(), EncodeError>
    ensures { (result ≡ fitting_answer (length words.now) (length buffer.old))
        × (buffer.new ≡ buffer_on_answer result (words_bytes words.now) buffer.old) }
{
    if buffer.len() / 4 < words.len() {
        return Err(EncodeError::ShortBuffer);
    }
    word::write_le_words(buffer, 0, words);
    Ok(())
}

// Writes the batch of the one task with these fields to the first 80 bytes of a buffer, or refuses and writes nothing.
pub fn encode(fields: Fields, buffer: &mut [u8]) -> Result<(), EncodeError>
    ensures { (result ≡ answer_of (first_form fields) (length buffer.old))
        × (buffer.new ≡ buffer_after (first_form fields) buffer.old) }
{
    let bank = fields.bank(Steps::RESET)?;
    write_words(&words_of(bank), buffer)
}
