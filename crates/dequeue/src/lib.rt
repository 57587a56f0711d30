// The oldest batch of a record: when run is refused, where that batch is, what it may touch and begins with, and the record without it.
// `closing` is close, which takes a client out of the record and zeroes its window.
#![tactic(auto)]

pub mod closing;

ghost use Rattle.std.specs.Prelude.{◌≡◌, true, ◌≤◌, ◌<◌, length, get_or, set, MatchOption};
ghost use Rattle.engine_record.specs.Slots.{free};
ghost use Rattle.engine_record.specs.Tickets.{slot_of_ticket};
ghost use Rattle.engine_record.specs.Clients.{no_client};
ghost use Rattle.engine_record.specs.Queue.{ready_slots};
ghost use Rattle.engine_record.specs.Rules.{valid};
ghost use Rattle.engine_record.specs.Checking.{checked_of};
ghost use Rattle.queue.specs.Answers.{refusal_number_of};
ghost use Rattle.queue.specs.Refusals.{first_refusal};
ghost use Rattle.engine.specs.Run.{run_table, oldest_ticket, oldest, bounds_of_client, reset_of, pending_lowered, without_oldest};

use engine_record::{Batch, Client, Counted, EngineRecord, Slot};
use queue::Refusal;
use register::Bank;
use task_check::Bounds;

// Whether run is refused; `found` is what the check of the record found, `ring` and `memory` are the lengths of what is lent.
pub fn run_refusal(
    engine: &EngineRecord,
    found: Option<Counted>,
    ring: usize,
    memory: usize,
) -> Result<(), Refusal>
    requires { found ≡ checked_of engine.now }
    ensures { refusal_number_of result ≡ first_refusal (run_table engine.now ring memory) }
{
    let Some(counted) = found else {
        return Err(Refusal::BadRecord);
    };
    let setup = engine.setup;
    let lent = !(ring == setup.ring) | !(memory == setup.memory);
    queue::refuse(lent, Refusal::OtherLength)?;
    queue::refuse(counted.ready == 0, Refusal::NothingToRun)
}

// What a client may touch: its window, and common.
pub fn bounds_for(engine: EngineRecord, client: u32) -> Bounds
    requires { client < 4 }
    ensures { (result ≡ bounds_of_client engine client) × (length engine.clients ≡ 4) }
{
    let setup = engine.setup;
    let clients = engine.clients;
    Bounds {
        window: queue::clients::window_of(clients, client),
        common_length: setup.common,
    }
}

// The registers at the start of every batch.
pub fn bank_for(engine: EngineRecord) -> Bank
    ensures { result ≡ reset_of engine }
{
    let setup = engine.setup;
    let rule = setup.reset;
    Bank::reset(rule)
}

// One batch fewer pending for a client.
fn lower_pending(clients: [Client; 4], client: u32) -> [Client; 4]
    requires { (client < 4) × (1 ≤ (get_or clients client no_client).pending) }
    ensures { result ≡ pending_lowered clients client }
{
    let at = client as usize;
    let old = clients[at];
    let window = old.window;
    let mut after = clients;
    after[at] = Client {
        window: window,
        pending: old.pending - 1,
        opened: old.opened,
    };
    after
}

// The slot of the oldest of so many ready batches.
pub fn oldest_slot(engine: EngineRecord, ready: usize) -> Option<usize>
    requires { (ready_slots engine ≤ 8) × (ready ≡ ready_slots engine) }
    ensures { MatchOption result (slot_of_ticket (oldest_ticket engine) engine.slots ≡ 8) (λ at. (at ≡ slot_of_ticket (oldest_ticket engine) engine.slots) × (at < 8)) }
{
    engine_record::slot_table::slot_of_age(&engine.slots, engine.next_ticket, ready)
}

// The slots with one of them free.
fn with_slot_free(slots: [Slot; 8], at: usize) -> [Slot; 8]
    requires { at < 8 }
    ensures { result ≡ set slots at free }
{
    let mut after = slots;
    after[at] = None;
    after
}

// The record without the oldest batch, which is in the slot `at`: the slot and its ring bytes are free again.
pub fn without_oldest(engine: EngineRecord, at: usize, batch: Batch) -> EngineRecord
    requires { (valid engine ≡ true) × (0 < ready_slots engine) × (length engine.clients ≡ 4) × (length engine.slots ≡ 8)
        × (at ≡ slot_of_ticket (oldest_ticket engine) engine.slots) × (batch ≡ oldest engine) }
    ensures { result ≡ without_oldest engine }
{
    let setup = engine.setup;
    let clients = engine.clients;
    let slots = engine.slots;
    let fewer = lower_pending(clients, batch.client);
    let left = with_slot_free(slots, at);
    let mut after = engine;
    after.clients = fewer;
    after.slots = left;
    after.read_offset = engine_record::wrap_offset(setup.ring, engine.read_offset + batch.length);
    after
}
