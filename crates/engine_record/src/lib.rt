// The engine record: set-up numbers, clients, slots, read offset and next ticket.
#![tactic(auto)]

pub mod client_table;
pub mod slot_table;
pub mod validity;

ghost use Rattle.std.specs.Prelude.{◌≡◌};
ghost use Rattle.ring.specs.Segment.{wrap_offset};
ghost use Rattle.engine_record.specs.Setup.{bad_ring, bad_memory, bad_length};
ghost use Rattle.engine_record.specs.Staged.{no_staged};
ghost use Rattle.engine_record.specs.Tickets.{batch_in_state};

use reset::ResetRule;

// The numbers of set up, in bytes, and the reset rule. No call changes them.
#[derive(Clone, Copy)]
pub struct Setup {
    pub ring: usize,
    pub memory: usize,
    pub common: usize,
    pub reset: ResetRule,
}

// A range of bytes of memory.
#[derive(Clone, Copy)]
pub struct Window {
    pub start: u32,
    pub length: u32,
}

// The place of a client (01: desk): its window, how many of its batches are ready, and whether it is open. What a closed place holds is free.
// Kept (C interface): a flag and no Option of window and pending: `encode` gives back what the bytes of a closed place said.
#[derive(Clone, Copy)]
pub struct Client {
    pub window: Window,
    pub pending: u32,
    pub opened: bool,
}

// A ready batch: whose it is, and where it lies in the ring.
#[derive(Clone, Copy)]
pub struct Batch {
    pub client: u32,
    pub ticket: u32,
    pub offset: usize,
    pub length: usize,
}

// A slot: free, or ready with a batch.
pub type Slot = Option<Batch>;

// The staged submission (02, 6: hand-over): whose it is, the slot that it holds, its total length, and how many of its bytes have come. With none
// all four are 0.
// Kept (C interface): no Option: bytes with total 0 and another field not 0 are a record, refused with 11, and `encode` gives them back.
#[derive(Clone, Copy)]
pub struct Staged {
    pub client: u32,
    pub slot: usize,
    pub total: usize,
    pub received: usize,
}

// The engine record (01: record), handed in and out by value. A client's id is its place; any of the four may be open.
#[derive(Clone, Copy)]
pub struct EngineRecord {
    pub setup: Setup,
    pub clients: [Client; 4],
    pub slots: [Option<Batch>; 8],
    pub read_offset: usize,
    pub next_ticket: u32,
    pub staged: Staged,
}

// What the check of a record that keeps every rule finds: how many slots are ready, and how many ring bytes their batches have.
#[derive(Clone, Copy)]
pub struct Counted {
    pub ready: usize,
    pub bytes: usize,
}

pub fn bad_ring(setup: Setup) -> bool
    ensures { result ≡ bad_ring setup }
{
    (setup.ring == 0) | (32768 < setup.ring) | !(setup.ring % 128 == 0)
}

pub fn bad_memory(setup: Setup) -> bool
    ensures { result ≡ bad_memory setup }
{
    (16777216 < setup.memory) | (setup.memory < setup.common)
}

pub fn bad_length(ring: usize, size: usize) -> bool
    ensures { result ≡ bad_length ring size }
{
    (size == 0) | !(size % 4 == 0) | (ring < size)
}

// The batch of a slot; of a free one all its numbers are 0.
pub fn batch_of(slot: Slot) -> Batch
    ensures { result ≡ batch_in_state slot }
{
    slot.unwrap_or(Batch {
        client: 0,
        ticket: 0,
        offset: 0,
        length: 0,
    })
}

// An offset that may have run over the ring's end goes on at byte 0.
pub fn wrap_offset(ring: usize, offset: usize) -> usize
    ensures { result ≡ wrap_offset ring offset }
{
    if offset < ring { offset } else { offset - ring }
}

// No staged submission.
pub fn no_staged() -> Staged
    ensures { result ≡ no_staged }
{
    Staged {
        client: 0,
        slot: 0,
        total: 0,
        received: 0,
    }
}
