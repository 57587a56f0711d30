// The slots of the engine record: how many are ready and how many bytes they have, the lowest free one, and the one of a ticket.
ghost use Rattle.std.specs.Prelude.{◌≡◌, ◌<◌, ◌≤◌, length, MatchOption};
ghost use Rattle.engine_record.specs.Slots.{ready_batches, total_length, count_of, lowest_free};
ghost use Rattle.engine_record.specs.Tickets.{ticket_before, has_ticket, slot_of_ticket};

use crate::Slot;

// Whether the slot's batch has the ticket that was given k before the next one.
fn has_age(slot: Slot, next: u32, k: usize) -> bool
    requires { k ≤ 8 }
    ensures { result ≡ has_ticket (ticket_before next k) slot }
{
    match slot {
        None => false,
        Some(batch) => next.wrapping_sub(batch.ticket) as usize == k,
    }
}

// How many slots are ready.
pub fn ready_slots(slots: &[Slot; 8]) -> usize
    ensures { (result ≡ length (ready_batches slots.now)) × (result ≤ 8) }
{
    slots.iter().filter(|slot| slot.is_some()).count()
}

// How many ring bytes the ready batches have.
pub fn ready_bytes(slots: &[Slot; 8]) -> usize
    requires { total_length (ready_batches slots.now) ≤ 32768 }
    ensures { result ≡ total_length (ready_batches slots.now) }
{
    let mut bytes = 0;
    for slot in slots {
        if let Some(batch) = slot {
            bytes += batch.length;
        }
    }
    bytes
}

// How many ready batches are the client's.
pub fn count_of(slots: &[Slot; 8], client: u32) -> usize
    ensures { result ≡ count_of client (ready_batches slots.now) }
{
    slots
        .iter()
        .filter(|slot| slot.is_some_and(|batch| batch.client == client))
        .count()
}

// The lowest free slot.
pub fn lowest_free(slots: &[Slot; 8]) -> Option<usize>
    ensures { MatchOption result (lowest_free slots.now ≡ 8) (λ at. (at ≡ lowest_free slots.now) × (at < 8)) }
{
    for at in 0..8 {
        if slots[at].is_none() {
            return Some(at);
        }
    }
    None
}

// The slot of the batch whose ticket was given k before the next one.
pub fn slot_of_age(slots: &[Slot; 8], next: u32, k: usize) -> Option<usize>
    requires { k ≤ 8 }
    ensures { MatchOption result (slot_of_ticket (ticket_before next k) slots.now ≡ 8) (λ at. (at ≡ slot_of_ticket (ticket_before next k) slots.now) × (at < 8)) }
{
    slots.iter().position(|slot| has_age(*slot, next, k))
}
