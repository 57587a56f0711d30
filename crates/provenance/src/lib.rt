// Who drew a byte of a replay's memory last, and why a batch faulted: the answers and their refusals. What a task, a fault and an
// answer are is defined in specs/, and the theorem stands there too; crate inquiry reads a file for the answers.
#![tactic(auto)]

pub mod explain;
pub mod last_touch;

ghost use Rattle.std.specs.Prelude.{◌≡◌};
ghost use Rattle.provenance.specs.Touched.{mode_number};
ghost use Rattle.provenance.specs.Answers.{refusal_number, answer_touched, answer_fault};

use register::SourceMode;
use task_check::Fault;

// The task that drew a byte: the ticket of its batch, its number there (from 0), and its source mode.
#[derive(Clone, Copy)]
pub struct Touch {
    pub ticket: u32,
    pub number: usize,
    pub mode: SourceMode,
}

impl Touch {
    // The papers' number of the source mode.
    pub fn mode_number(self) -> u32
        ensures { result ≡ mode_number self.mode }
    {
        match self.mode {
            SourceMode::Buffer => 0,
            SourceMode::Colour => 1,
            SourceMode::GradientX => 2,
            SourceMode::GradientY => 3,
        }
    }
}

// The register of a word that it does not take (24): its offset, and what it held.
#[derive(Clone, Copy, PartialEq, Eq)]
pub struct HeldRegister {
    pub offset: u32,
    pub held: u32,
}

// A fault of a batch: which, its place, and the word there; for 24 the register that the word was for.
#[derive(Clone, Copy)]
pub struct Explanation {
    pub fault: Fault,
    pub place: usize,
    pub word: u32,
    pub detail: Option<HeldRegister>,
}

// How many words of a group are to come, and the offset of the register that the next of them is for.
#[derive(Clone, Copy, PartialEq, Eq)]
pub struct Group {
    pub left: u32,
    pub register: u32,
}

// Why a question is not answered: the address lies outside memory, there are more than 1,024 records, no faulted batch has the
// ticket.
#[derive(Clone, Copy, PartialEq, Eq)]
pub enum Refusal {
    OutsideMemory,
    TooManyRecords,
    NotFaulted,
}

impl Refusal {
    // The papers' number.
    pub fn number(self) -> u32
        ensures { result ≡ refusal_number self }
    {
        match self {
            Refusal::OutsideMemory => 16,
            Refusal::TooManyRecords => 17,
            Refusal::NotFaulted => 29,
        }
    }
}

// Who drew the byte at an address last, of so many records; none if no task drew it.
pub fn answer_touched(
    records: u32,
    address: usize,
    touched: Option<Touch>,
) -> Result<Option<Touch>, Refusal>
    ensures { result ≡ answer_touched records address touched }
{
    if 65536 <= address {
        return Err(Refusal::OutsideMemory);
    }
    if 1024 < records {
        return Err(Refusal::TooManyRecords);
    }
    Ok(touched)
}

// Why a batch faulted, of so many records; `why` is none where no batch with its ticket did.
pub fn answer_fault(records: u32, why: Option<Explanation>) -> Result<Explanation, Refusal>
    ensures { result ≡ answer_fault records why }
{
    if records > 1024 {
        return Err(Refusal::TooManyRecords);
    }
    why.ok_or(Refusal::NotFaulted)
}
