// The fast engine and the slow one side by side (02, request 13): they give the same memory and answers.
ghost use Rattle.std.specs.Prelude.{◌≡◌};
ghost use Rattle.run.specs.Same.{SameRun};

use engine::RunResult;
use engine_record::EngineRecord;
use renderer::Renderer;

// What either engine answered.
#[derive(Clone, Copy)]
pub struct Both {
    pub fast: RunResult,
    pub slow: RunResult,
}

// Runs the oldest batch by both, each in a memory of its own.
pub fn run_both(engine: EngineRecord, ring: &[u8], memory: &mut [u8], copy: &mut [u8]) -> Both
    ensures { memory.old ≡ copy.old → SameRun result memory.new copy.new }
{
    let fast = crate::run_by(engine, ring, memory, Renderer::Fast);
    let slow = crate::run_by(engine, ring, copy, Renderer::Slow);
    Both { fast, slow }
}
