// The check of the engine record: whether it keeps every rule.
ghost use Rattle.std.specs.Prelude.{◌≡◌, ◌<◌, ◌≤◌, true, not, ◌&&◌, ◌==◌, nat_le};
ghost use Rattle.engine_record.specs.Setup.{bad_length};
ghost use Rattle.engine_record.specs.Slots.{ready_batches};
ghost use Rattle.engine_record.specs.Staged.{slot_held};
ghost use Rattle.engine_record.specs.Clients.{pending_counts_match};
ghost use Rattle.engine_record.specs.Queue.{ready_slots};
ghost use Rattle.engine_record.specs.Rules.{number_rules, batch_rules, staged_rule, valid};
ghost use Rattle.engine_record.specs.Checking.{checked_of};

use crate::client_table::{is_open, windows_valid};
use crate::slot_table::{count_of, ready_bytes, ready_slots, slot_of_age};
use crate::{
    Batch, Client, Counted, EngineRecord, Slot, bad_length, bad_memory, bad_ring, batch_of,
    wrap_offset,
};

// Whether each open client's count is that of its ready batches. Nothing is counted for a closed one: that is a pass over the slots.
fn pending_counts_match(clients: &[Client; 4], slots: &[Slot; 8]) -> bool
    ensures { result ≡ pending_counts_match 0 clients.now (ready_batches slots.now) }
{
    for (id, client) in clients.iter().enumerate() {
        if client.opened && client.pending as usize != count_of(slots, id as u32) {
            return false;
        }
    }
    true
}

// Whether a batch keeps its rules at `offset`, in the room that is left; `owned` says whether its client is open.
fn fits_in(ring: usize, offset: usize, room: usize, owned: bool, b: Batch) -> bool
    ensures { result ≡ (b.offset == offset && not (bad_length ring b.length) && nat_le b.length room && owned) }
{
    (b.offset == offset) & !bad_length(ring, b.length) & (b.length <= room) & owned
}

// Whether the ready batches, so many, from the oldest on lie end to end from the read offset and keep their other rules.
fn batches_valid(engine: &EngineRecord, ready: usize) -> bool
    requires { (engine.now.setup.ring ≤ 32768) × (engine.now.read_offset < engine.now.setup.ring) × (ready ≡ ready_slots engine.now) }
    ensures { result ≡ batch_rules engine.now }
{
    let ring = engine.setup.ring;
    let mut offset = engine.read_offset;
    let mut room = ring;
    for k in (1..=ready).rev() {
        let Some(i) = slot_of_age(&engine.slots, engine.next_ticket, k) else {
            return false;
        };
        let b = batch_of(engine.slots[i]);
        let owned = is_open(engine, b.client);
        if !fits_in(ring, offset, room, owned, b) {
            return false;
        }
        offset = wrap_offset(ring, offset + b.length);
        room -= b.length;
    }
    true
}

fn numbers_valid(engine: &EngineRecord) -> bool
    ensures { result ≡ number_rules engine.now }
{
    let read = engine.read_offset;
    !bad_ring(engine.setup)
        & !bad_memory(engine.setup)
        & ((read % 4 == 0) & (read < engine.setup.ring))
}

// Whether there is such a slot, with no ready batch in it.
fn slot_held(slots: &[Slot; 8], at: usize) -> bool
    ensures { result ≡ slot_held slots.now at }
{
    at < 8 && slots[at].is_none()
}

// Whether the unfinished batch keeps its rules, or there is none.
fn staged_valid(engine: &EngineRecord) -> bool
    requires { (number_rules engine.now ≡ true) × (batch_rules engine.now ≡ true) }
    ensures { result ≡ staged_rule engine.now }
{
    let staged = engine.staged;
    let total = staged.total;
    if total == 0 {
        return (staged.client == 0) & (staged.slot == 0) & (staged.received == 0);
    }
    let ring = engine.setup.ring;
    let held = slot_held(&engine.slots, staged.slot);
    let owned = is_open(engine, staged.client);
    let room = ring - ready_bytes(&engine.slots);
    owned & !bad_length(ring, total) & (total <= room) & (staged.received < total) & held
}

// Whether the record, with so many ready slots, keeps every rule.
fn rules_kept(engine: &EngineRecord, ready: usize) -> bool
    requires { ready ≡ ready_slots engine.now }
    ensures { result ≡ valid engine.now }
{
    if !numbers_valid(engine) {
        return false;
    }
    let windows = windows_valid(engine.setup, &engine.clients);
    let batches = batches_valid(engine, ready);
    let counts = pending_counts_match(&engine.clients, &engine.slots);
    if !(windows & batches & counts) {
        return false;
    }
    staged_valid(engine)
}

// Checks a record. A call does so once and hands on what was found: a pass over the slots costs more than the rest of the call. The record is lent,
// and not copied for each function that looks at it.
pub fn check(engine: &EngineRecord) -> Option<Counted>
    ensures found { result ≡ checked_of engine.now }
    ensures few { ready_slots engine.now ≤ 8 }
{
    let ready = ready_slots(&engine.slots);
    if !rules_kept(engine, ready) {
        return None;
    }
    Some(Counted {
        ready: ready,
        bytes: ready_bytes(&engine.slots),
    })
}

// Whether the record keeps every rule.
pub fn is_valid(engine: &EngineRecord) -> bool
    ensures { result ≡ valid engine.now }
{
    check(engine).is_some()
}
