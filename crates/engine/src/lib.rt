// What run answers. What run and close do is said here, by definitions and laws; their code stands above, in `dequeue` and `run`. `answers` gives what the
// calls answer as words.
#![tactic(auto)]

pub mod answers;

use batch::Verdict;
use engine_record::EngineRecord;
use queue::Refusal;

// What run answers of the batch that it took. The verdict holds the fault, if there is one.
#[derive(Clone, Copy)]
pub struct Completion {
    pub client: u32,
    pub ticket: u32,
    pub verdict: Verdict,
}

// What run answers, and the record after it. The paper's numbers are those of `run_refusal_of` and `values_of` in specs.
#[derive(Clone, Copy)]
pub struct RunResult {
    pub outcome: Result<Completion, Refusal>,
    pub engine: EngineRecord,
}
