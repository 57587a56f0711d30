// A record written as bytes.
ghost use Rattle.std.specs.Prelude.{◌≡◌, flat_map};
ghost use Rattle.record_bytes.specs.Written.{head_words, row_of, row_words, client_words, clients_words, slots_words, staged_words, written};

use crate::Row;
use engine_record::{Batch, Client, EngineRecord, Staged};

fn row_of(slot: Option<Batch>) -> Row
    ensures { result ≡ row_of slot }
{
    let batch = engine_record::batch_of(slot);
    Row {
        tag: u32::from(slot.is_some()),
        client: batch.client,
        ticket: batch.ticket,
        offset: (batch.offset % 4294967296) as u32,
        length: (batch.length % 4294967296) as u32,
    }
}

fn slot_words(slot: Option<Batch>) -> [u32; 5]
    ensures { result ≡ row_words (row_of slot) }
{
    let row = row_of(slot);
    [row.tag, row.client, row.ticket, row.offset, row.length]
}

fn client_words(client: Client) -> [u32; 4]
    ensures { result ≡ client_words client }
{
    [
        client.window.start,
        client.window.length,
        client.pending,
        u32::from(client.opened),
    ]
}

// The set-up numbers, the read offset and the next ticket.
fn head_words(engine: EngineRecord) -> [u32; 8]
    ensures { result ≡ head_words engine }
{
    let setup = engine.setup;
    [
        (setup.ring % 4294967296) as u32,
        (setup.memory % 4294967296) as u32,
        (setup.common % 4294967296) as u32,
        u32::from(setup.reset),
        0,
        (engine.read_offset % 4294967296) as u32,
        engine.next_ticket,
        0,
    ]
}

fn staged_words(staged: Staged) -> [u32; 4]
    ensures { result ≡ staged_words staged }
{
    [
        staged.client,
        (staged.slot % 4294967296) as u32,
        (staged.total % 4294967296) as u32,
        (staged.received % 4294967296) as u32,
    ]
}

// The words of the clients, place by place.
fn clients_words(clients: &[Client; 4]) -> [[u32; 4]; 4]
    ensures { flat_map (λ row. row) result ≡ clients_words clients.now }
{
    [
        client_words(clients[0]),
        client_words(clients[1]),
        client_words(clients[2]),
        client_words(clients[3]),
    ]
}

// The words of the slots, slot by slot.
fn slots_words(slots: &[Option<Batch>; 8]) -> [[u32; 5]; 8]
    ensures { flat_map (λ row. row) result ≡ slots_words slots.now }
{
    [
        slot_words(slots[0]),
        slot_words(slots[1]),
        slot_words(slots[2]),
        slot_words(slots[3]),
        slot_words(slots[4]),
        slot_words(slots[5]),
        slot_words(slots[6]),
        slot_words(slots[7]),
    ]
}

// Writes the record to a buffer of 272 bytes; one of another length stays as it was.
pub fn encode(engine: EngineRecord, bytes: &mut [u8])
    ensures { bytes.new ≡ written engine bytes.old }
{
    if let Some(bytes) = bytes.as_mut_array::<272>() {
        word::write_le_words(bytes, 0, &head_words(engine));
        word::write_le_words(bytes, 32, clients_words(&engine.clients).as_flattened());
        word::write_le_words(bytes, 96, slots_words(&engine.slots).as_flattened());
        word::write_le_words(bytes, 256, &staged_words(engine.staged));
    }
}
