// What other languages link: each function of crate wenditsal under its own name as a C symbol, with the same clauses. The header is
// crates/wenditsal/include/wenditsal.h.
#![tactic(auto)]

ghost use Rattle.std.specs.Prelude.{◌≡◌, length};
ghost use Rattle.encoder.specs.Forms.{first_form, second_form};
ghost use Rattle.reset.specs.Reset.{rule_of};
ghost use Rattle.orientation.specs.Compose.{compose, inverse};
ghost use Rattle.orientation.specs.Bits.{setting_of, bits_of};
ghost use Rattle.encoder.specs.Encoder.{encode_refusal_of, answer_of, buffer_after};
ghost use Rattle.script_player.specs.Played.{ScriptResult};
ghost use Rattle.calls.specs.Calls.{SetsUp, Opens, Submits, Begins, HandsOver, Cancels, Closes, Pends, Runs};
ghost use Rattle.encoder.specs.Tint.{tint_refusal_of, answer_of as tintAnswer, buffer_after as tintBuffer};

use encoder::{Fields, SurfaceFields};

#[unsafe(no_mangle)]
pub extern "C" fn wenditsal_play(
    ring_length: usize,
    memory_length: usize,
    common_length: usize,
    reset: u32,
    ring: &mut [u8],
    memory: &mut [u8],
    script: &[u8],
    answers: &mut [u8],
) -> usize
    ensures { ScriptResult (record { ring = ring_length; memory = memory_length; common = common_length; reset = rule_of reset })
        ring.entry.now memory.old script.now answers.old
        result ring.exit.now memory.new answers.new }
{
    wenditsal::wenditsal_play(
        ring_length,
        memory_length,
        common_length,
        reset,
        ring,
        memory,
        script,
        answers,
    )
}

#[unsafe(no_mangle)]
pub extern "C" fn wenditsal_set_up(
    engine: &mut [u8],
    ring: usize,
    memory: usize,
    common: usize,
    reset: u32,
) -> u32
    ensures { SetsUp engine.old ring memory common (rule_of reset) result engine.new }
{
    wenditsal::wenditsal_set_up(engine, ring, memory, common, reset)
}

#[unsafe(no_mangle)]
pub extern "C" fn wenditsal_open(engine: &mut [u8], start: u32, size: u32, client: &mut u32) -> u32
    ensures { Opens engine.old (record { start = start; length = size }) result client.new engine.new }
{
    wenditsal::wenditsal_open(engine, start, size, client)
}

#[unsafe(no_mangle)]
pub extern "C" fn wenditsal_submit(
    engine: &mut [u8],
    ring: &mut [u8],
    client: u32,
    batch: &[u8],
    ticket: &mut u32,
) -> u32
    ensures { Submits engine.old ring.old client batch.now
        result ticket.new engine.new ring.new }
{
    wenditsal::wenditsal_submit(engine, ring, client, batch, ticket)
}

#[unsafe(no_mangle)]
pub extern "C" fn wenditsal_begin(engine: &mut [u8], ring: &[u8], client: u32, total: usize) -> u32
    ensures { Begins engine.old ring.now client total result engine.new }
{
    wenditsal::wenditsal_begin(engine, ring, client, total)
}

#[unsafe(no_mangle)]
pub extern "C" fn wenditsal_piece(
    engine: &mut [u8],
    ring: &mut [u8],
    client: u32,
    piece: &[u8],
    progress: &mut [u32; 2],
) -> u32
    ensures { HandsOver engine.old ring.old client piece.now
        result progress.new engine.new ring.new }
{
    wenditsal::wenditsal_piece(engine, ring, client, piece, progress)
}

#[unsafe(no_mangle)]
pub extern "C" fn wenditsal_cancel(engine: &mut [u8], client: u32) -> u32
    ensures { Cancels engine.old client result engine.new }
{
    wenditsal::wenditsal_cancel(engine, client)
}

#[unsafe(no_mangle)]
pub extern "C" fn wenditsal_close(engine: &mut [u8], memory: &mut [u8], client: u32) -> u32
    ensures { Closes engine.old memory.old client result engine.new memory.new }
{
    wenditsal::wenditsal_close(engine, memory, client)
}

#[unsafe(no_mangle)]
pub extern "C" fn wenditsal_run(
    engine: &mut [u8],
    ring: &[u8],
    memory: &mut [u8],
    completion: &mut [u32; 5],
) -> u32
    ensures { Runs engine.old ring.now memory.old
        result completion.new engine.new memory.new }
{
    wenditsal::wenditsal_run(engine, ring, memory, completion)
}

#[unsafe(no_mangle)]
pub extern "C" fn wenditsal_pending(engine: &[u8], client: u32, count: &mut u32) -> u32
    ensures { Pends engine.now client result count.new }
{
    wenditsal::wenditsal_pending(engine, client, count)
}

#[unsafe(no_mangle)]
pub extern "C" fn wenditsal_encode(fields: Fields, buffer: &mut [u8]) -> u32
    ensures { (result ≡ encode_refusal_of (answer_of (first_form fields) (length buffer.old)))
        × (buffer.new ≡ buffer_after (first_form fields) buffer.old) }
{
    wenditsal::wenditsal_encode(fields, buffer)
}

#[unsafe(no_mangle)]
pub extern "C" fn wenditsal_encode_shaded(
    fields: Fields,
    alpha: u32,
    red: u32,
    green: u32,
    blue: u32,
    buffer: &mut [u8],
) -> u32
    ensures { (result ≡ encode_refusal_of (answer_of (second_form fields (record { alpha = alpha; red = red; green = green; blue = blue })) (length buffer.old)))
        × (buffer.new ≡ buffer_after (second_form fields (record { alpha = alpha; red = red; green = green; blue = blue })) buffer.old) }
{
    wenditsal::wenditsal_encode_shaded(fields, alpha, red, green, blue, buffer)
}

#[unsafe(no_mangle)]
pub extern "C" fn wenditsal_encode_tint(
    score: f32,
    red: u8,
    green: u8,
    blue: u8,
    output: SurfaceFields,
    buffer: &mut [u8],
) -> u32
    ensures { (result ≡ tint_refusal_of (tintAnswer score (record { red = red; green = green; blue = blue }) output (length buffer.old)))
        × (buffer.new ≡ tintBuffer score (record { red = red; green = green; blue = blue }) output buffer.old) }
{
    wenditsal::wenditsal_encode_tint(score, red, green, blue, output, buffer)
}

#[unsafe(no_mangle)]
pub extern "C" fn wenditsal_compose(first: u32, second: u32) -> u32
    ensures { result ≡ bits_of (compose (setting_of first) (setting_of second)) }
{
    wenditsal::wenditsal_compose(first, second)
}

#[unsafe(no_mangle)]
pub extern "C" fn wenditsal_inverse(setting: u32) -> u32
    ensures { result ≡ bits_of (inverse (setting_of setting)) }
{
    wenditsal::wenditsal_inverse(setting)
}
