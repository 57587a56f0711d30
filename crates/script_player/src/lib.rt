// A list of calls, given as bytes, played on the engine; the answers are written as bytes.
#![tactic(auto)]

ghost use Rattle.std.specs.Prelude.{◌≡◌, ◌/◌, length};
ghost use Rattle.claims.specs.Engine.{mk_state};
ghost use Rattle.script.specs.Script.{decode};
ghost use Rattle.script.specs.Parsing.{call_of};
ghost use Rattle.script_player.specs.CallsMatch.{CallMatches, CallsMatch};
ghost use Rattle.script_player.specs.Played.{ScriptResult};

use engine::answers::{answer_words, piece_words};
use engine_record::EngineRecord;
use queue::{Answer, Refusal, Reply};
use reset::ResetRule;
use script::Request;

// An answer's words, and the record after the call.
#[derive(Clone, Copy)]
struct CallOutput {
    words: [u32; 6],
    engine: EngineRecord,
}

// What a call other than run answered, in words that are made of its answer.
fn step_of<F: FnOnce(Result<Answer, Refusal>) -> [u32; 6]>(reply: Reply, words_of: F) -> CallOutput
    requires { F.IsAlwaysCallable words_of }
    ensures { (F.post words_of reply.answer result.words) × (result.engine ≡ reply.engine) }
{
    CallOutput {
        words: words_of(reply.answer),
        engine: reply.engine,
    }
}

// One call.
fn play_call(
    engine: EngineRecord,
    ring: &mut [u8],
    memory: &mut [u8],
    request: Request<'_>,
) -> CallOutput
    ensures { CallMatches (call_of request.entry) (mk_state engine ring.old memory.old)
        (mk_state result.engine ring.new memory.new) result.words }
{
    match request {
        Request::Open(start, size) => {
            step_of(queue::clients::open(engine, start, size), answer_words)
        }
        Request::Submit(client, batch) => {
            step_of(
                submission::submit(engine, ring, client, batch),
                answer_words,
            )
        }
        Request::Run => {
            let ran = run::run(engine, ring, memory);
            CallOutput {
                words: engine::answers::run_words(ran.outcome),
                engine: ran.engine,
            }
        }
        Request::Pending(client) => CallOutput {
            words: answer_words(queue::clients::pending(engine, client)),
            engine: engine,
        },
        Request::Begin(client, total) => {
            step_of(submission::begin(engine, ring, client, total), answer_words)
        }
        Request::Piece(client, piece) => {
            step_of(submission::piece(engine, ring, client, piece), piece_words)
        }
        Request::Cancel(client) => step_of(submission::cancel(engine, client), answer_words),
        Request::Close(client) => {
            step_of(
                dequeue::closing::close(engine, memory, client),
                answer_words,
            )
        }
    }
}

// The calls of a script, as many as there is room for their answers.
fn play_calls(
    start: EngineRecord,
    ring: &mut [u8],
    memory: &mut [u8],
    script: &[u8],
    answers: &mut [u8],
) -> usize
    ensures { CallsMatch (decode (length answers.old / 24) script.now) (mk_state start ring.old memory.old)
        answers.old result ring.new memory.new answers.new }
{
    let mut engine = start;
    let mut rest = script;
    let room = answers.len() / 24;
    for k in 0..room {
        let count = 24 * k;
        match script::next_call(rest) {
            None => return count,
            Some(found) => {
                let step = play_call(engine, ring, memory, found.request);
                word::write_le_words(answers, count, &step.words);
                engine = step.engine;
                rest = found.rest;
            }
        }
    }
    24 * room
}

// Sets up an engine and plays a script on the lent ring and memory. Returns how many bytes of answers it wrote.
pub fn play(
    ring_length: usize,
    memory_length: usize,
    common_length: usize,
    reset: ResetRule,
    ring: &mut [u8],
    memory: &mut [u8],
    script: &[u8],
    answers: &mut [u8],
) -> usize
    ensures { ScriptResult (record { ring = ring_length; memory = memory_length; common = common_length; reset = reset })
        ring.entry.now memory.old script.now answers.old
        result ring.exit.now memory.new answers.new }
{
    if answers.len() < 24 {
        return 0;
    }
    let reply = queue::clients::set_up(ring_length, memory_length, common_length, reset);
    let words = answer_words(reply.answer);
    word::write_le_words(answers, 0, &words);
    if words[0] != 0 {
        return 24;
    }
    24 + play_calls(reply.engine, ring, memory, script, &mut answers[24..])
}
