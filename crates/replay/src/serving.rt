// A record of a replay file submitted and run, and its line printed.
ghost use Rattle.std.specs.Prelude.{◌≡◌, ◌≤◌, length};
ghost use Rattle.claims.specs.Engine.{mk_state};
ghost use Rattle.records.specs.declared.Found.TheVariants.{Record as OneRecord};
ghost use Rattle.records.specs.Reading.{entry_in, Lies};
ghost use Rattle.lines.specs.Lines.{entry_line, submit_and_run, record_line, record_after};
ghost use Rattle.replay.specs.SubmitRunContract.{SubmitRunContract};

use engine_record::EngineRecord;
use records::Edition;
use renderer::Renderer;
use text::line;

// The engine after what was found, and how many bytes were printed.
#[derive(Clone, Copy)]
pub struct SubmitRunResult {
    pub engine: EngineRecord,
    pub written: usize,
}

// Submits a record and, if it is accepted, runs it: by the slow engine, or by the fast one.
fn submit_and_run(
    engine: EngineRecord,
    ring: &mut [u8],
    memory: &mut [u8],
    client: u32,
    batch: &[u8],
    line: &mut [u8],
    renderer: Renderer,
) -> SubmitRunResult
    requires { 128 ≤ length line.old }
    ensures { SubmitRunContract (entry_line (record { client = client; batch = batch.now }) (mk_state engine ring.old memory.old))
        (submit_and_run (record { client = client; batch = batch.now }) (mk_state engine ring.old memory.old)).after
        line.old result ring.new memory.new line.new }
{
    let submitted = submission::submit(engine, ring, client, batch);
    if let Err(refusal) = submitted.answer {
        return SubmitRunResult {
            engine: submitted.engine,
            written: lines::record_lines::refusal_line(line, client, refusal.number()),
        };
    }
    let ran = run::run_by(submitted.engine, ring, memory, renderer);
    SubmitRunResult {
        engine: ran.engine,
        written: lines::record_lines::outcome_line(line, client, ran.outcome),
    }
}

// The record that lies in `held` up to an end, if its score holds.
pub fn serve_record(
    edition: Edition,
    engine: EngineRecord,
    held: &[u8],
    end: usize,
    ring: &mut [u8],
    memory: &mut [u8],
    line: &mut [u8],
    renderer: Renderer,
) -> SubmitRunResult
    requires { Lies edition (OneRecord end) (length held.now) × (128 ≤ length line.old) }
    ensures { SubmitRunContract (record_line edition (entry_in held.now end) (mk_state engine ring.old memory.old))
        (record_after edition (entry_in held.now end) (mk_state engine ring.old memory.old))
        line.old result ring.new memory.new line.new }
{
    if !records::editions::score_in(edition, held, end) {
        return SubmitRunResult {
            engine: engine,
            written: line::copy(line, b"bad score\n"),
        };
    }
    let start = edition.batch_start();
    submit_and_run(
        engine,
        ring,
        memory,
        held[4] as u32,
        &held[start..end],
        line,
        renderer,
    )
}
