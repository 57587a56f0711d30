// What is answered of a whole batch.
ghost use Rattle.std.specs.Prelude.{◌≡◌, ◌%◌};
ghost use Rattle.batch.specs.Batch.{status_word_of, fault_number_of, fault_offset_of};

use register::Bank;
use task_check::Fault;

// A fault, and its offset in the batch.
#[derive(Clone, Copy, Debug, PartialEq, Eq)]
pub struct FaultAt {
    pub fault: Fault,
    pub offset: usize,
}

// How many tasks a batch has, or how many stand before its first fault, and that fault.
#[derive(Clone, Copy, Debug, PartialEq, Eq)]
pub struct Verdict {
    pub tasks: usize,
    pub fault: Option<FaultAt>,
}

impl Verdict {
    // The status word, modulo 2 to the 32nd: 65,535 tasks fit, and no ring of the engine holds more than 4,096.
    pub fn status(self) -> u32
        ensures { result ≡ status_word_of self % 4294967296 }
    {
        let tasks = ((self.tasks % 65536) as u32) * 65536;
        match self.fault {
            None => tasks + 1,
            Some(found) => tasks + found.fault.status(),
        }
    }

    // The fault's number, 0 without a fault.
    pub fn number(self) -> u32
        ensures { result ≡ fault_number_of self }
    {
        self.fault.map_or(0, |found| found.fault.number())
    }

    // The fault's offset, 0 without a fault.
    pub fn offset(self) -> usize
        ensures { result ≡ fault_offset_of self }
    {
        self.fault.map_or(0, |found| found.offset)
    }
}

// A verdict, and the bank as it stands where judging ended: a word that is refused is not in it.
#[derive(Clone, Copy)]
pub struct Validation {
    pub verdict: Verdict,
    pub bank: Bank,
}
