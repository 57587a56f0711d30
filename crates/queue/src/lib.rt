// What the calls of the queue share: what a call answers, why it is refused, and a row of a table of refusals. Definitions and laws of the calls that don't draw stand here;
// their code stands in `clients` and `enqueue`, and in crate `submission`.
#![tactic(auto)]

pub mod clients;
pub mod enqueue;

ghost use Rattle.std.specs.Prelude.{◌≡◌, if◌then◌else◌};
ghost use Rattle.engine_record.specs.Staged.{staged_by};
ghost use Rattle.queue.specs.Answers.{number_of};

use engine_record::{EngineRecord, Staged};

// What a call answers. The paper's numbers are those of `refusal_number_of` and `value_of` in specs.
#[derive(Clone, Copy)]
pub enum Answer {
    Done,
    Opened(u32),
    Accepted(u32),
    Ready(u32),
    Missing(u32),
}

#[derive(Clone, Copy)]
pub struct Reply {
    pub answer: Result<Answer, Refusal>,
    pub engine: EngineRecord,
}

// Why a call is refused.
#[derive(Clone, Copy, Debug, PartialEq, Eq)]
pub enum Refusal {
    BadRing,
    BadMemory,
    NoPlace,
    BadWindow,
    NotOpen,
    BadLength,
    NoSlot,
    NoRoom,
    NothingToRun,
    OtherLength,
    BadRecord,
    OneStaged,
    NotStaged,
    NotIdle,
}

impl Refusal {
    // The paper's number.
    pub fn number(self) -> u32
        ensures { result ≡ number_of self }
    {
        match self {
            Refusal::BadRing => 1,
            Refusal::BadMemory => 2,
            Refusal::NoPlace => 3,
            Refusal::BadWindow => 4,
            Refusal::NotOpen => 5,
            Refusal::BadLength => 6,
            Refusal::NoSlot => 7,
            Refusal::NoRoom => 8,
            Refusal::NothingToRun => 9,
            Refusal::OtherLength => 10,
            Refusal::BadRecord => 11,
            Refusal::OneStaged => 13,
            Refusal::NotStaged => 14,
            Refusal::NotIdle => 18,
        }
    }
}

// A row of the table: refused where its condition holds.
pub fn refuse(holds: bool, refusal: Refusal) -> Result<(), Refusal>
    ensures { result ≡ (if holds then Err refusal else Ok tt) }
{
    if holds { Err(refusal) } else { Ok(()) }
}

// Whether a submission is staged, and by this client.
pub fn staged_by(staged: Staged, client: u32) -> bool
    ensures { result ≡ staged_by staged client }
{
    if staged.total == 0 {
        false
    } else {
        staged.client == client
    }
}
