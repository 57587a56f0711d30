// The clients of a record: set up, open and pending, and what close does to the record.
ghost use Rattle.std.specs.Prelude.{◌≡◌, ◌<◌, length, slice_index_or};
ghost use Rattle.engine_record.specs.Clients.{no_client, window_range, lowest_closed};
ghost use Rattle.queue.specs.Answers.{refusal_number_of};
ghost use Rattle.queue.specs.Refusals.{first_refusal, set_up_table, open_table, close_table, pending_table};
ghost use Rattle.queue.specs.Calls.{initial_record, set_up_result, with_client, open_result, without_client, pending_answer};

use crate::{Answer, Refusal, Reply};
use engine_record::{Client, EngineRecord, Setup, Window};
use range::Range;
use reset::ResetRule;

// A place that is not open.
fn no_client() -> Client
    ensures { result ≡ no_client }
{
    let window = Window {
        start: 0,
        length: 0,
    };
    Client {
        window: window,
        pending: 0,
        opened: false,
    }
}

// A record of no client and no batch.
fn fresh_record(setup: Setup) -> EngineRecord
    ensures { result ≡ initial_record setup }
{
    let clients = [no_client(); 4];
    EngineRecord {
        setup: setup,
        clients: clients,
        slots: [None; 8],
        read_offset: 0,
        next_ticket: 0,
        staged: engine_record::no_staged(),
    }
}

#[tactic(auto, unfolding(crate::specs::Refusals::first_refusal))]
fn set_up_refusal(setup: Setup) -> Result<(), Refusal>
    ensures { refusal_number_of result ≡ first_refusal (set_up_table setup) }
{
    crate::refuse(engine_record::bad_ring(setup), Refusal::BadRing)?;
    crate::refuse(engine_record::bad_memory(setup), Refusal::BadMemory)
}

// Set up with the lengths of ring, memory and common, and the reset rule.
pub fn set_up(ring: usize, memory: usize, common: usize, reset: ResetRule) -> Reply
    ensures { result ≡ set_up_result ring memory common reset }
{
    let setup = Setup {
        ring: ring,
        memory: memory,
        common: common,
        reset: reset,
    };
    if let Err(refusal) = set_up_refusal(setup) {
        let none = Setup {
            ring: 0,
            memory: 0,
            common: 0,
            reset: ResetRule::Unblended,
        };
        return Reply {
            answer: Err(refusal),
            engine: fresh_record(none),
        };
    }
    Reply {
        answer: Ok(Answer::Done),
        engine: fresh_record(setup),
    }
}

#[tactic(auto, unfolding(crate::specs::Refusals::first_refusal))]
fn open_refusal(engine: &EngineRecord, w: Window) -> Result<(), Refusal>
    ensures { refusal_number_of result ≡ first_refusal (open_table engine.now w) }
{
    crate::refuse(
        !engine_record::validity::is_valid(engine),
        Refusal::BadRecord,
    )?;
    let id = engine_record::client_table::lowest_closed(&engine.clients);
    let bad = engine_record::client_table::bad_window(engine.setup, &engine.clients, w);
    crate::refuse(id.is_none(), Refusal::NoPlace)?;
    crate::refuse(bad, Refusal::BadWindow)
}

// The record with a client more, whose id is the lowest that is free.
fn with_client(engine: EngineRecord, id: usize, w: Window) -> EngineRecord
    requires { (id ≡ lowest_closed engine.clients) × (id < 4) }
    ensures { result ≡ with_client engine w }
{
    let mut clients = engine.clients;
    clients[id] = Client {
        window: w,
        pending: 0,
        opened: true,
    };
    let mut after = engine;
    after.clients = clients;
    after
}

// Opens a client with a window.
pub fn open(engine: EngineRecord, start: u32, size: u32) -> Reply
    ensures { result ≡ open_result engine (record { start = start; length = size }) }
{
    let w = Window {
        start: start,
        length: size,
    };
    if let Err(refusal) = open_refusal(&engine, w) {
        return Reply {
            answer: Err(refusal),
            engine: engine,
        };
    }
    let id = engine_record::client_table::lowest_closed(&engine.clients).unwrap();
    Reply {
        answer: Ok(Answer::Opened(id as u32)),
        engine: with_client(engine, id, w),
    }
}

// Whether close is refused; `given` is the length of the memory that is lent.
#[tactic(auto, unfolding(crate::specs::Refusals::first_refusal))]
pub fn close_refusal(engine: &EngineRecord, given: usize, client: u32) -> Result<(), Refusal>
    ensures { refusal_number_of result ≡ first_refusal (close_table engine.now given client) }
{
    let setup = engine.setup;
    let staged = engine.staged;
    crate::refuse(
        !engine_record::validity::is_valid(engine),
        Refusal::BadRecord,
    )?;
    crate::refuse(!(given == setup.memory), Refusal::OtherLength)?;
    crate::refuse(
        !engine_record::client_table::is_open(engine, client),
        Refusal::NotOpen,
    )?;
    let ready = engine_record::slot_table::count_of(&engine.slots, client);
    let own = crate::staged_by(staged, client);
    crate::refuse((0 < ready) | own, Refusal::NotIdle)
}

// The record without a client: its id and its window are free.
pub fn without_client(engine: EngineRecord, client: u32) -> EngineRecord
    requires { client < 4 }
    ensures { result ≡ without_client engine client }
{
    let at = client as usize;
    let mut clients = engine.clients;
    clients[at] = no_client();
    let mut after = engine;
    after.clients = clients;
    after
}

// The bytes of a client's window.
pub fn window_of(clients: [Client; 4], client: u32) -> Range
    requires { client < 4 }
    ensures { (result ≡ window_range (slice_index_or clients client no_client).window) × (length clients ≡ 4) }
{
    let own = clients[client as usize];
    let window = own.window;
    Range::new(window.start, window.length)
}

// The count at a client's place.
fn pending_at(clients: [Client; 4], client: u32) -> u32
    requires { client < 4 }
    ensures { (result ≡ (slice_index_or clients client no_client).pending) × (length clients ≡ 4) }
{
    let at = client as usize;
    let own = clients[at];
    own.pending
}

#[tactic(auto, unfolding(crate::specs::Refusals::first_refusal))]
fn pending_refusal(engine: &EngineRecord, client: u32) -> Result<(), Refusal>
    ensures { refusal_number_of result ≡ first_refusal (pending_table engine.now client) }
{
    crate::refuse(
        !engine_record::validity::is_valid(engine),
        Refusal::BadRecord,
    )?;
    crate::refuse(
        !engine_record::client_table::is_open(engine, client),
        Refusal::NotOpen,
    )
}

// How many batches of a client are ready.
pub fn pending(engine: EngineRecord, client: u32) -> Result<Answer, Refusal>
    ensures { result ≡ pending_answer engine client }
{
    pending_refusal(&engine, client)?;
    let clients = engine.clients;
    Ok(Answer::Ready(pending_at(clients, client)))
}
