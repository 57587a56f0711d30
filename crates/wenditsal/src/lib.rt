// The calls for other languages, which crate wenditsal_c exports as C symbols. The header for C is include/wenditsal.h.
#![tactic(auto)]

ghost use Rattle.std.specs.Prelude.{◌≡◌, length};
ghost use Rattle.encoder.specs.Forms.{first_form, second_form};
ghost use Rattle.reset.specs.Reset.{rule_of};
ghost use Rattle.orientation.specs.Compose.{compose, inverse};
ghost use Rattle.orientation.specs.Bits.{setting_of, bits_of};
ghost use Rattle.encoder.specs.Encoder.{encode_refusal_of, answer_of, buffer_after};
ghost use Rattle.script_player.specs.Played.{ScriptResult};
ghost use Rattle.calls.specs.Calls.{SetsUp, Opens, Submits, Begins, HandsOver, Cancels, Closes, Pends, Runs};
ghost use Rattle.encoder.specs.Tint.{tint_refusal_of, answer_of as tintAnswer, buffer_after as tintBuffer};

use encoder::tint::Tint;
use encoder::{Fields, SurfaceFields};
use engine::answers::{answer_words, piece_words, run_words};
use pixel::gradient::Steps;
use reset::ResetRule;

// Sets up an engine and plays a script on the lent ring and memory. Returns how many bytes of answers it wrote. A `reset` of 0 is the old reset
// rule, any other number the new one, so that nobody can ask for a third.
pub fn wenditsal_play(
    ring_length: usize,
    memory_length: usize,
    common_length: usize,
    reset: u32,
    ring: &mut [u8],
    memory: &mut [u8],
    script: &[u8],
    answers: &mut [u8],
) -> usize
    ensures { ScriptResult (record { ring = ring_length; memory = memory_length; common = common_length; reset = rule_of reset })
        ring.entry.now memory.old script.now answers.old
        result ring.exit.now memory.new answers.new }
{
    script_player::play(
        ring_length,
        memory_length,
        common_length,
        ResetRule::from(reset),
        ring,
        memory,
        script,
        answers,
    )
}

// The engine's calls, one at a time, on a record that is lent as bytes. Each returns the refusal's number, 0 without one. Any bytes may be
// handed in: no call has a `requires`.

// Sets up an engine and writes its record; `reset` as above.
pub fn wenditsal_set_up(
    engine: &mut [u8],
    ring: usize,
    memory: usize,
    common: usize,
    reset: u32,
) -> u32
    ensures { SetsUp engine.old ring memory common (rule_of reset) result engine.new }
{
    if engine.len() != 272 {
        // Kept (C interface): the header's number for a buffer of another length, for which no call is made.
        return 11;
    }
    let reply = queue::clients::set_up(ring, memory, common, ResetRule::from(reset));
    calls::writing::write_answer(engine, answer_words(reply.answer), reply.engine, &mut [])
}

// Opens a client with a window; answers its id.
pub fn wenditsal_open(engine: &mut [u8], start: u32, size: u32, client: &mut u32) -> u32
    ensures { Opens engine.old (record { start = start; length = size }) result client.new engine.new }
{
    let record = record_bytes::reading::decode(engine);
    let reply = queue::clients::open(record, start, size);
    let words = answer_words(reply.answer);
    let mut one = [0];
    let number = calls::writing::write_answer(engine, words, reply.engine, &mut one);
    *client = one[0];
    number
}

// Puts a client's batch into the ring and the queue; answers its ticket.
pub fn wenditsal_submit(
    engine: &mut [u8],
    ring: &mut [u8],
    client: u32,
    batch: &[u8],
    ticket: &mut u32,
) -> u32
    ensures { Submits engine.old ring.old client batch.now
        result ticket.new engine.new ring.new }
{
    let record = record_bytes::reading::decode(engine);
    let reply = submission::submit(record, ring, client, batch);
    let words = answer_words(reply.answer);
    let mut one = [0];
    let number = calls::writing::write_answer(engine, words, reply.engine, &mut one);
    *ticket = one[0];
    number
}

// Begins a batch of a total length that a client hands over by pieces.
pub fn wenditsal_begin(engine: &mut [u8], ring: &[u8], client: u32, total: usize) -> u32
    ensures { Begins engine.old ring.now client total result engine.new }
{
    let record = record_bytes::reading::decode(engine);
    let reply = submission::begin(record, ring, client, total);
    calls::writing::write_answer(engine, answer_words(reply.answer), reply.engine, &mut [])
}

// Hands over a piece of it; answers 0 and the bytes still to come, or, of the last, 1 and the ticket. The header has these two as a structure.
pub fn wenditsal_piece(
    engine: &mut [u8],
    ring: &mut [u8],
    client: u32,
    piece: &[u8],
    progress: &mut [u32; 2],
) -> u32
    ensures { HandsOver engine.old ring.old client piece.now
        result progress.new engine.new ring.new }
{
    let record = record_bytes::reading::decode(engine);
    let reply = submission::piece(record, ring, client, piece);
    calls::writing::write_answer(engine, piece_words(reply.answer), reply.engine, progress)
}

// Drops it.
pub fn wenditsal_cancel(engine: &mut [u8], client: u32) -> u32
    ensures { Cancels engine.old client result engine.new }
{
    let record = record_bytes::reading::decode(engine);
    let reply = submission::cancel(record, client);
    calls::writing::write_answer(engine, answer_words(reply.answer), reply.engine, &mut [])
}

// Closes a client: its window is filled with zeros, and its id and window are free.
pub fn wenditsal_close(engine: &mut [u8], memory: &mut [u8], client: u32) -> u32
    ensures { Closes engine.old memory.old client result engine.new memory.new }
{
    let record = record_bytes::reading::decode(engine);
    let reply = dequeue::closing::close(record, memory, client);
    calls::writing::write_answer(engine, answer_words(reply.answer), reply.engine, &mut [])
}

// Takes the oldest batch; answers client, ticket, status, fault and place. The header has these five as a structure.
pub fn wenditsal_run(
    engine: &mut [u8],
    ring: &[u8],
    memory: &mut [u8],
    completion: &mut [u32; 5],
) -> u32
    ensures { Runs engine.old ring.now memory.old
        result completion.new engine.new memory.new }
{
    let record = record_bytes::reading::decode(engine);
    let ran = run::run(record, ring, memory);
    calls::writing::write_answer(engine, run_words(ran.outcome), ran.engine, completion)
}

// Answers how many batches of a client are ready.
pub fn wenditsal_pending(engine: &[u8], client: u32, count: &mut u32) -> u32
    ensures { Pends engine.now client result count.new }
{
    let record = record_bytes::reading::decode(engine);
    let words = answer_words(queue::clients::pending(record, client));
    *count = words[1];
    words[0]
}

// Writes the 80 bytes of the batch of the one task with these fields to a buffer.
pub fn wenditsal_encode(fields: Fields, buffer: &mut [u8]) -> u32
    ensures { (result ≡ encode_refusal_of (answer_of (first_form fields) (length buffer.old)))
        × (buffer.new ≡ buffer_after (first_form fields) buffer.old) }
{
    encoder::refusal_number(encoder::encode(fields, buffer))
}

// Writes the 100 bytes of the batch of the one task with these fields and steps to a buffer. The steps of the four channels are register words.
pub fn wenditsal_encode_shaded(
    fields: Fields,
    alpha: u32,
    red: u32,
    green: u32,
    blue: u32,
    buffer: &mut [u8],
) -> u32
    ensures { (result ≡ encode_refusal_of (answer_of (second_form fields (record { alpha = alpha; red = red; green = green; blue = blue })) (length buffer.old)))
        × (buffer.new ≡ buffer_after (second_form fields (record { alpha = alpha; red = red; green = green; blue = blue })) buffer.old) }
{
    let steps = Steps {
        alpha,
        red,
        green,
        blue,
    };
    encoder::refusal_number(encoder::encode_shaded(fields, steps, buffer))
}

// Writes the 80 bytes of the batch of the one task that tints a rectangle by a score to a buffer.
pub fn wenditsal_encode_tint(
    score: f32,
    red: u8,
    green: u8,
    blue: u8,
    output: SurfaceFields,
    buffer: &mut [u8],
) -> u32
    ensures { (result ≡ tint_refusal_of (tintAnswer score (record { red = red; green = green; blue = blue }) output (length buffer.old)))
        × (buffer.new ≡ tintBuffer score (record { red = red; green = green; blue = blue }) output buffer.old) }
{
    encoder::tint::refusal_number(encoder::tint::encode_tint(
        score,
        Tint { red, green, blue },
        output,
        buffer,
    ))
}

// The one setting for two, drawn one after the other. A setting is bits 7:4 of a source control word.
pub fn wenditsal_compose(first: u32, second: u32) -> u32
    ensures { result ≡ bits_of (compose (setting_of first) (setting_of second)) }
{
    compose::compose_bits(first, second)
}

// The setting that undoes one.
pub fn wenditsal_inverse(setting: u32) -> u32
    ensures { result ≡ bits_of (inverse (setting_of setting)) }
{
    compose::inverse_bits(setting)
}
