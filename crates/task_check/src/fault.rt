// The faults of a batch.
ghost use Rattle.std.specs.Prelude.{◌≡◌};
ghost use Rattle.task_check.specs.Faults.{fault_number, fault_status, write_fault};

use register::WriteFault;

#[derive(Clone, Copy, Debug, PartialEq, Eq)]
pub enum Fault {
    ReservedBits,
    GroupLength,
    OpenTask,
    NotWritable,
    Forbidden,
    BadSurface,
    SizeMismatch,
    OutOfBounds,
    Overlap,
}

impl Fault {
    // The papers' number.
    pub fn number(self) -> u32
        ensures { result ≡ fault_number self }
    {
        match self {
            Fault::ReservedBits => 20,
            Fault::GroupLength => 21,
            Fault::OpenTask => 22,
            Fault::NotWritable => 23,
            Fault::Forbidden => 24,
            Fault::BadSurface => 25,
            Fault::SizeMismatch => 26,
            Fault::OutOfBounds => 27,
            Fault::Overlap => 28,
        }
    }

    // The status of a batch with this fault: the lower half of its status word.
    pub fn status(self) -> u32
        ensures { result ≡ fault_status self }
    {
        match self {
            Fault::ReservedBits => 0x00000002,
            Fault::GroupLength => 0x00000100,
            Fault::OpenTask => 0x00000100,
            Fault::NotWritable => 0x00000002,
            Fault::Forbidden => 0x00000002,
            Fault::BadSurface => 0x00000002,
            Fault::SizeMismatch => 0x00000002,
            Fault::OutOfBounds => 0x00000002,
            Fault::Overlap => 0x00000002,
        }
    }
}

// The fault of a word that is not written.
impl From<WriteFault> for Fault {
    ghost from_gives = { λ f r. r ≡ write_fault f };

    fn from(f: WriteFault) -> Fault {
        match f {
            WriteFault::NotWritable => Fault::NotWritable,
            WriteFault::Forbidden => Fault::Forbidden,
        }
    }
}
