// The second form (02, request 3): a task's fields and its steps in, 100 bytes out.
ghost use Rattle.std.specs.Prelude.{◌≡◌, length};
ghost use Rattle.encoder.specs.Words.{shaded_words};
ghost use Rattle.encoder.specs.Forms.{second_form};
ghost use Rattle.encoder.specs.Encoder.{answer_of, buffer_after};

use crate::fields::Fields;
use crate::{EncodeError, write_words};
use pixel::gradient::Steps;
use register::Bank;

// The words of a batch that writes every register of a bank: as in the first form, and the group of the steps right after the first.
#[tactic(auto, unfolding(crate::specs::Words::shaded_words))]
fn shaded_words_of(bank: Bank) -> [u32; 25]
    ensures { result ≡ shaded_words bank }
{
    [
        0x00100014,
        bank.source.control,
        bank.source.size,
        bank.source.stride,
        bank.colour,
        bank.source.address,
        0x00300010,
        bank.steps.alpha,
        bank.steps.red,
        bank.steps.green,
        bank.steps.blue,
        0x0050000C,
        bank.destination.control,
        bank.destination.size,
        bank.destination.stride,
        0x00600004,
        bank.destination.address,
        0x00900004,
        bank.blending,
        0x0100000C,
        bank.output.control,
        bank.output.size,
        bank.output.stride,
        0x01100005,
        bank.output.address,
    ]
}

// Writes the batch of the one task with these fields and steps to the first 100 bytes of a buffer, or refuses and writes nothing.
pub fn encode_shaded(fields: Fields, steps: Steps, buffer: &mut [u8]) -> Result<(), EncodeError>
    ensures { (result ≡ answer_of (second_form fields steps) (length buffer.old))
        × (buffer.new ≡ buffer_after (second_form fields steps) buffer.old) }
{
    let bank = fields.bank(steps)?;
    write_words(&shaded_words_of(bank), buffer)
}
