// A batch put into the queue, whole or by pieces: submit, begin, piece and cancel.
#![tactic(auto)]

ghost use Rattle.std.specs.Prelude.{◌≡◌, ◌≤◌, ◌<◌, length};
ghost use Rattle.engine_record.specs.Clients.{client_at};
ghost use Rattle.engine_record.specs.Queue.{write_offset};
ghost use Rattle.engine_record.specs.Staged.{missing_bytes};
ghost use Rattle.engine_record.specs.Checking.{checked_of};
ghost use Rattle.queue.specs.Answers.{refusal_number_of};
ghost use Rattle.queue.specs.Refusals.{first_refusal, piece_table, cancel_table};
ghost use Rattle.queue.specs.Calls.{new_batch, with_batch, submit_result, submit_ring, with_staged, with_received, begin_result, piece_result, piece_ring, cancel_result};

use engine_record::{Batch, Counted, EngineRecord, Staged};
use queue::{Answer, Refusal, Reply};

// Puts a batch into the ring and the queue. What it says is not looked at.
pub fn submit(engine: EngineRecord, ring: &mut [u8], client: u32, batch: &[u8]) -> Reply
    ensures { (result ≡ submit_result engine ring.old client batch.now)
        × (ring.new ≡ submit_ring engine ring.old client batch.now) }
{
    let size = batch.len();
    let found = engine_record::validity::check(&engine);
    if let Err(refused) = queue::enqueue::submit_refusal(engine, found, ring.len(), client, size) {
        return Reply {
            answer: Err(refused),
            engine: engine,
        };
    }
    let next = engine.next_ticket;
    let offset = queue::enqueue::write_offset(engine, found.unwrap().bytes);
    ring::copy_in(ring, offset, batch);
    let added = Batch {
        client: client,
        ticket: next,
        offset: offset,
        length: size,
    };
    let at = engine_record::slot_table::lowest_free(&engine.slots).unwrap();
    Reply {
        answer: Ok(Answer::Accepted(next)),
        engine: queue::enqueue::with_batch(engine, at, added),
    }
}

// The record with another staged submission, or none.
fn with_staged(engine: EngineRecord, staged: Staged) -> EngineRecord
    ensures { result ≡ with_staged engine staged }
{
    let mut after = engine;
    after.staged = staged;
    after
}

// Begins a batch of a total length that is handed over by pieces. The ring is lent to be looked at: its length is checked.
pub fn begin(engine: EngineRecord, ring: &[u8], client: u32, total: usize) -> Reply
    ensures { result ≡ begin_result engine (length ring.now) client total }
{
    let found = engine_record::validity::check(&engine);
    if let Err(refusal) = queue::enqueue::submit_refusal(engine, found, ring.len(), client, total) {
        return Reply {
            answer: Err(refusal),
            engine: engine,
        };
    }
    let at = engine_record::slot_table::lowest_free(&engine.slots).unwrap();
    let staged = Staged {
        client: client,
        slot: at,
        total: total,
        received: 0,
    };
    Reply {
        answer: Ok(Answer::Done),
        engine: with_staged(engine, staged),
    }
}

// The bytes still to come.
fn missing_bytes(staged: Staged) -> usize
    ensures { result ≡ missing_bytes staged }
{
    staged.total.saturating_sub(staged.received)
}

#[tactic(auto, using(engine_record::proofs::Checking::checked_none), unfolding(queue::specs::Refusals::first_refusal))]
fn piece_refusal(
    engine: &EngineRecord,
    found: Option<Counted>,
    given: usize,
    client: u32,
    size: usize,
) -> Result<(), Refusal>
    requires { found ≡ checked_of engine.now }
    ensures { refusal_number_of result ≡ first_refusal (piece_table engine.now given client size) }
{
    let setup = engine.setup;
    let staged = engine.staged;
    queue::refuse(found.is_none(), Refusal::BadRecord)?;
    queue::refuse(!(given == setup.ring), Refusal::OtherLength)?;
    queue::refuse(
        !engine_record::client_table::is_open(engine, client),
        Refusal::NotOpen,
    )?;
    let own = queue::staged_by(staged, client);
    queue::refuse(!own | (missing_bytes(staged) < size), Refusal::NotStaged)
}

// The record with the staged batch ready at its offset.
fn finished(engine: EngineRecord, offset: usize) -> EngineRecord
    requires { (offset ≡ write_offset engine) × (engine.staged.client < 4) × ((client_at engine engine.staged.client).pending ≤ 8) × (engine.staged.slot < 8) }
    ensures { result ≡ with_batch engine engine.staged.slot (new_batch engine engine.staged.client engine.staged.total) }
{
    let staged = engine.staged;
    let added = Batch {
        client: staged.client,
        ticket: engine.next_ticket,
        offset: offset,
        length: staged.total,
    };
    queue::enqueue::with_batch(engine, staged.slot, added)
}

// The record with so many bytes of the staged batch.
fn continued(engine: EngineRecord, received: usize) -> EngineRecord
    ensures { result ≡ with_staged engine (with_received engine.staged received) }
{
    let mut staged = engine.staged;
    staged.received = received;
    with_staged(engine, staged)
}

// Hands over a piece of the staged batch: it is copied behind the bytes that have come.
pub fn piece(engine: EngineRecord, ring: &mut [u8], client: u32, piece: &[u8]) -> Reply
    ensures { (result ≡ piece_result engine ring.old client piece.now)
        × (ring.new ≡ piece_ring engine ring.old client piece.now) }
{
    let size = piece.len();
    let found = engine_record::validity::check(&engine);
    if let Err(refusal) = piece_refusal(&engine, found, ring.len(), client, size) {
        return Reply {
            answer: Err(refusal),
            engine: engine,
        };
    }
    let setup = engine.setup;
    let staged = engine.staged;
    let offset = queue::enqueue::write_offset(engine, found.unwrap().bytes);
    let at = engine_record::wrap_offset(setup.ring, offset + staged.received);
    ring::copy_in(ring, at, piece);
    let received = staged.received + size;
    let total = staged.total;
    if received == total {
        return Reply {
            answer: Ok(Answer::Accepted(engine.next_ticket)),
            engine: finished(engine, offset),
        };
    }
    let missing = (total - received) as u32;
    Reply {
        answer: Ok(Answer::Missing(missing)),
        engine: continued(engine, received),
    }
}

#[tactic(auto, unfolding(queue::specs::Refusals::first_refusal))]
fn cancel_refusal(engine: &EngineRecord, client: u32) -> Result<(), Refusal>
    ensures { refusal_number_of result ≡ first_refusal (cancel_table engine.now client) }
{
    queue::refuse(
        !engine_record::validity::is_valid(engine),
        Refusal::BadRecord,
    )?;
    queue::refuse(
        !engine_record::client_table::is_open(engine, client),
        Refusal::NotOpen,
    )?;
    let staged = engine.staged;
    queue::refuse(!queue::staged_by(staged, client), Refusal::NotStaged)
}

// Drops the staged batch. Bytes that were copied stay in the ring.
pub fn cancel(engine: EngineRecord, client: u32) -> Reply
    ensures { result ≡ cancel_result engine client }
{
    if let Err(refusal) = cancel_refusal(&engine, client) {
        return Reply {
            answer: Err(refusal),
            engine: engine,
        };
    }
    Reply {
        answer: Ok(Answer::Done),
        engine: with_staged(engine, engine_record::no_staged()),
    }
}
