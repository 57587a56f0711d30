// A batch more in the record: what submit and begin are refused with, where the batch goes, and the record with it.
ghost use Rattle.std.specs.Prelude.{◌≡◌, ◌<◌, ◌≤◌, true, slice_index_or, slice_set};
ghost use Rattle.engine_record.specs.Slots.{ready_with};
ghost use Rattle.engine_record.specs.Tickets.{ticket_after};
ghost use Rattle.engine_record.specs.Clients.{no_client, client_at};
ghost use Rattle.engine_record.specs.Queue.{ready_slots, ready_bytes, taken_slots, free_bytes, write_offset};
ghost use Rattle.engine_record.specs.Staged.{staged_slots};
ghost use Rattle.engine_record.specs.Rules.{valid};
ghost use Rattle.engine_record.specs.Checking.{checked_of};
ghost use Rattle.queue.specs.Answers.{refusal_number_of};
ghost use Rattle.queue.specs.Refusals.{first_refusal, submit_table};
ghost use Rattle.queue.specs.Calls.{pending_raised, with_batch};

use crate::Refusal;
use engine_record::{Batch, Client, Counted, EngineRecord, Slot, Staged};

// The ring bytes that are free; `ready` is how many the ready batches have.
fn free_bytes(engine: EngineRecord, ready: usize) -> usize
    requires { (valid engine ≡ true) × (ready_slots engine ≤ 8) × (ready ≡ ready_bytes engine) }
    ensures { result ≡ free_bytes engine }
{
    let setup = engine.setup;
    let staged = engine.staged;
    let ring = setup.ring;
    ring - (ready + staged.total)
}

// The slot that a staged submission holds.
fn staged_slots(staged: Staged) -> usize
    ensures { (result ≡ staged_slots staged) × (result ≤ 1) }
{
    if staged.total == 0 { 0 } else { 1 }
}

// The slots that are taken: each of the ready batches has one, and so has a staged submission.
fn taken_slots(engine: EngineRecord, ready: usize) -> usize
    requires { (ready_slots engine ≤ 8) × (ready ≡ ready_slots engine) }
    ensures { result ≡ taken_slots engine }
{
    let staged = engine.staged;
    let held = staged_slots(staged);
    ready + held
}

// Where the next batch goes, and where the staged one lies: after the newest ready one, at the read offset if none is ready; `ready` is how many ring bytes the ready
// batches have.
pub fn write_offset(engine: EngineRecord, ready: usize) -> usize
    requires { (valid engine ≡ true) × (ready_slots engine ≤ 8) × (ready ≡ ready_bytes engine) }
    ensures { result ≡ write_offset engine }
{
    let setup = engine.setup;
    engine_record::wrap_offset(setup.ring, engine.read_offset + ready)
}

// Whether submit and begin are refused; `found` is what the check of the record found.
pub fn submit_refusal(
    engine: EngineRecord,
    found: Option<Counted>,
    given: usize,
    client: u32,
    size: usize,
) -> Result<(), Refusal>
    requires { found ≡ checked_of engine }
    ensures { refusal_number_of result ≡ first_refusal (submit_table engine given client size) }
{
    let Some(counted) = found else {
        return Err(Refusal::BadRecord);
    };
    let setup = engine.setup;
    let ring = setup.ring;
    let staged = engine.staged;
    crate::refuse(!(given == ring), Refusal::OtherLength)?;
    crate::refuse(
        !engine_record::client_table::is_open(&engine, client),
        Refusal::NotOpen,
    )?;
    crate::refuse(!(staged.total == 0), Refusal::OneStaged)?;
    crate::refuse(engine_record::bad_length(ring, size), Refusal::BadLength)?;
    crate::refuse(8 <= taken_slots(engine, counted.ready), Refusal::NoSlot)?;
    crate::refuse(free_bytes(engine, counted.bytes) < size, Refusal::NoRoom)
}

// One batch more pending for a client.
fn raise_pending(clients: [Client; 4], client: u32) -> [Client; 4]
    requires { (client < 4) × ((slice_index_or clients client no_client).pending ≤ 8) }
    ensures { result ≡ pending_raised clients client }
{
    let at = client as usize;
    let old = clients[at];
    let window = old.window;
    let mut after = clients;
    after[at] = Client {
        window: window,
        pending: old.pending + 1,
        opened: old.opened,
    };
    after
}

// The batch in a slot.
fn with_slot_ready(slots: [Slot; 8], at: usize, batch: Batch) -> [Slot; 8]
    requires { at < 8 }
    ensures { result ≡ slice_set slots at (ready_with batch) }
{
    let mut after = slots;
    after[at] = Some(batch);
    after
}

// The ticket after another; after 4,294,967,295 it is 0.
fn next_ticket(ticket: u32) -> u32
    ensures { result ≡ ticket_after ticket }
{
    std::num::wrapping_add_u32(ticket, 1)
}

// The record with a batch more, in the slot `at`.
pub fn with_batch(engine: EngineRecord, at: usize, batch: Batch) -> EngineRecord
    requires { (batch.client < 4) × ((client_at engine batch.client).pending ≤ 8) × (at < 8) }
    ensures { result ≡ with_batch engine at batch }
{
    let clients = engine.clients;
    let slots = engine.slots;
    let raised = raise_pending(clients, batch.client);
    let filled = with_slot_ready(slots, at, batch);
    let mut after = engine;
    after.clients = raised;
    after.slots = filled;
    after.next_ticket = next_ticket(engine.next_ticket);
    after.staged = engine_record::no_staged();
    after
}
