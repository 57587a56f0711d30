// Run: the oldest batch judged and drawn by either engine, and taken out of the queue. It has no `requires`: any record, ring and memory may be handed in.
#![tactic(auto)]

pub mod both;

ghost use Rattle.std.specs.Prelude.{◌≡◌};
ghost use Rattle.engine.specs.Run.{run_result, run_memory, RunBy};

use engine::{Completion, RunResult};
use engine_record::EngineRecord;
use renderer::Renderer;
use ring::Reader;

// Takes the oldest batch: it is judged and drawn, the tasks before a fault too, and its slot and ring bytes are free again. The slow engine (02, request
// 13), which is there to check the fast one by, draws each pixel by itself; what it promises is the same.
pub fn run_by(engine: EngineRecord, ring: &[u8], memory: &mut [u8], renderer: Renderer) -> RunResult
    ensures { RunBy renderer engine ring.now memory.old result memory.new }
{
    let found = engine_record::validity::check(&engine);
    if let Err(refusal) = dequeue::run_refusal(&engine, found, ring.len(), memory.len()) {
        return RunResult {
            outcome: Err(refusal),
            engine: engine,
        };
    }
    let at = dequeue::oldest_slot(engine, found.unwrap().ready).unwrap();
    let batch = engine_record::batch_of(engine.slots[at]);
    let bounds = dequeue::bounds_for(engine, batch.client);
    let verdict = walk::run_batch(
        memory,
        Reader::new(ring, batch.offset, batch.length),
        bounds,
        dequeue::bank_for(engine),
        renderer,
    );
    let completion = Completion {
        client: batch.client,
        ticket: batch.ticket,
        verdict: verdict,
    };
    RunResult {
        outcome: Ok(completion),
        engine: dequeue::without_oldest(engine, at, batch),
    }
}

// Takes the oldest batch by the fast engine.
// Kept (C interface): ring and memory are lent apart, the ring only to be read, as `wenditsal_run` is lent them.
pub fn run(engine: EngineRecord, ring: &[u8], memory: &mut [u8]) -> RunResult
    ensures { (result ≡ run_result engine ring.now memory.old)
        × (memory.new ≡ run_memory engine ring.now memory.old) }
{
    run_by(engine, ring, memory, Renderer::Fast)
}
