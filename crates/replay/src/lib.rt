// A replay file of either edition read, run and printed, a piece at a time and in constant memory. The caller lends every buffer: `held` for
// the bytes of an unfinished record, the engine's ring and memory, and `line` for the one line that a call may print.
#![tactic(auto)]

mod serving;

ghost use Rattle.std.specs.Prelude.{◌≡◌, ◌≤◌, length};
ghost use Rattle.claims.specs.Engine.{mk_state};
ghost use Rattle.records.specs.Reading.{Lies};
ghost use Rattle.replay.specs.Calls.{at_start, found_text, found_state, FeedContract, finished_text};
ghost use Rattle.lines.specs.Prints.{Prints};
ghost use Rattle.replay.specs.SubmitRunContract.{SubmitRunContract};

use crate::serving::SubmitRunResult;
use engine_record::EngineRecord;
use records::{Edition, Found, Reader, Stage};
use renderer::Renderer;
use text::line;

// Where a replay stands: the edition of the file, the engine, and the reading of the file.
#[derive(Clone, Copy)]
pub struct Replay {
    pub edition: Edition,
    pub engine: EngineRecord,
    pub reader: Reader,
}

// What feed used of its input, and how many bytes it printed into `line`.
#[derive(Clone, Copy)]
pub struct FeedResult {
    pub replay: Replay,
    pub used: usize,
    pub written: usize,
}

// The start of a replay: the engine set up by the edition's reset rule, with four windows behind common. Ring and memory are to be
// 32,768 and 65,536 bytes, all zero.
pub fn start(edition: Edition) -> Replay
    ensures { result ≡ at_start edition }
{
    let mut engine = queue::clients::set_up(
        32768,
        65536,
        16384,
        records::editions::reset_rule_of(edition),
    )
    .engine;
    for client in 0..4 {
        engine = queue::clients::open(engine, 16384 + client * 12288, 12288).engine;
    }
    Replay {
        edition,
        engine,
        reader: records::start(),
    }
}

// What comes of what the reading found in `held`.
// Kept (no plainer): a struct of the lent slices needs a clause for each of them in each contract, that it stays the same slice.
fn after_found(
    edition: Edition,
    engine: EngineRecord,
    found: Found,
    held: &[u8],
    ring: &mut [u8],
    memory: &mut [u8],
    line: &mut [u8],
    renderer: Renderer,
) -> SubmitRunResult
    requires { Lies edition found (length held.now) × (128 ≤ length line.old) }
    ensures { SubmitRunContract (found_text edition found held.now (mk_state engine ring.old memory.old))
        (found_state edition found held.now (mk_state engine ring.old memory.old))
        line.old result ring.new memory.new line.new }
{
    match found {
        Found::Record(end) => {
            crate::serving::serve_record(edition, engine, held, end, ring, memory, line, renderer)
        }
        Found::Nothing => SubmitRunResult { engine, written: 0 },
        Found::BadVersion => SubmitRunResult {
            engine,
            written: lines::record_lines::bad_version(line),
        },
        Found::BadRecord => SubmitRunResult {
            engine,
            written: line::copy(line, b"bad record\n"),
        },
    }
}

// Takes from the input at most as many bytes as are missing to the next thing to decide, and so prints one line at most.
// Where the buffers do not suffice, nothing is used.
pub fn feed(
    replay: Replay,
    held: &mut [u8],
    ring: &mut [u8],
    memory: &mut [u8],
    input: &[u8],
    line: &mut [u8],
    renderer: Renderer,
) -> FeedResult
    ensures { FeedContract replay held.old ring.old memory.old input.now line.old
        result held.new ring.new memory.new line.new }
{
    if line.len() < 128 {
        return FeedResult {
            replay,
            used: 0,
            written: 0,
        };
    }
    let taken = records::take(replay.edition, replay.reader, held, input);
    let served = after_found(
        replay.edition,
        replay.engine,
        taken.found,
        held,
        ring,
        memory,
        line,
        renderer,
    );
    FeedResult {
        replay: Replay {
            engine: served.engine,
            reader: taken.reader,
            ..replay
        },
        used: taken.used,
        written: served.written,
    }
}

// The end of the file: `bad version` if it was empty, `cut record` if a record is not whole. A line is printed only into a
// buffer that suffices.
pub fn finish(replay: Replay, line: &mut [u8]) -> usize
    ensures { Prints (finished_text replay line.old) line.old result line.new }
{
    if line.len() < 128 {
        return 0;
    }
    let have = replay.reader.buffered;
    match replay.reader.stage {
        Stage::Version => lines::record_lines::bad_version(line),
        Stage::Records => {
            if have == 0 {
                return 0;
            }
            line::copy(line, b"cut record\n")
        }
        Stage::Ended => 0,
    }
}
