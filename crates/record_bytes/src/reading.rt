// A record from bytes. Any bytes may be handed in: what is no record is answered with one that breaks the first rule.
ghost use Rattle.std.specs.Prelude.{◌≡◌, ◌+◌, ◌<◌};
ghost use Rattle.word.specs.Word.{words};
ghost use Rattle.record_bytes.specs.Layout.{word_at};
ghost use Rattle.record_bytes.specs.Read.{slot_right, slots_right, fixed_right, is_record, setup_in, client_in, batch_in, slot_in, clients_in, slots_in, staged_in, record_in, no_record, record_of};

use engine_record::{Batch, Client, EngineRecord, Setup, Staged, Window};
use reset::ResetRule;

fn word_at(bytes: &[u8; 272], k: usize) -> u32
    requires { k < 68 }
    ensures { result ≡ word_at (words bytes.now) k }
{
    word::read_le32(bytes, 4 * k)
}

fn size_at(bytes: &[u8; 272], k: usize) -> usize
    requires { k < 68 }
    ensures { result ≡ word_at (words bytes.now) k }
{
    word_at(bytes, k) as usize
}

fn setup_in(bytes: &[u8; 272]) -> Setup
    ensures { result ≡ setup_in (words bytes.now) }
{
    Setup {
        ring: size_at(bytes, 0),
        memory: size_at(bytes, 1),
        common: size_at(bytes, 2),
        reset: ResetRule::from(word_at(bytes, 3)),
    }
}

fn client_in(bytes: &[u8; 272], k: usize) -> Client
    requires { k + 3 < 68 }
    ensures { result ≡ client_in (words bytes.now) k }
{
    let window = Window {
        start: word_at(bytes, k),
        length: word_at(bytes, k + 1),
    };
    Client {
        window: window,
        pending: word_at(bytes, k + 2),
        opened: word_at(bytes, k + 3) == 1,
    }
}

fn clients_in(bytes: &[u8; 272]) -> [Client; 4]
    ensures { result ≡ clients_in (words bytes.now) }
{
    [
        client_in(bytes, 8),
        client_in(bytes, 12),
        client_in(bytes, 16),
        client_in(bytes, 20),
    ]
}

fn batch_in(bytes: &[u8; 272], k: usize) -> Batch
    requires { k + 4 < 68 }
    ensures { result ≡ batch_in (words bytes.now) k }
{
    Batch {
        client: word_at(bytes, k + 1),
        ticket: word_at(bytes, k + 2),
        offset: size_at(bytes, k + 3),
        length: size_at(bytes, k + 4),
    }
}

fn slot_in(bytes: &[u8; 272], k: usize) -> Option<Batch>
    requires { k + 4 < 68 }
    ensures { result ≡ slot_in (words bytes.now) k }
{
    if word_at(bytes, k) == 0 {
        return None;
    }
    Some(batch_in(bytes, k))
}

fn slots_in(bytes: &[u8; 272]) -> [Option<Batch>; 8]
    ensures { result ≡ slots_in (words bytes.now) }
{
    [
        slot_in(bytes, 24),
        slot_in(bytes, 29),
        slot_in(bytes, 34),
        slot_in(bytes, 39),
        slot_in(bytes, 44),
        slot_in(bytes, 49),
        slot_in(bytes, 54),
        slot_in(bytes, 59),
    ]
}

fn staged_in(bytes: &[u8; 272]) -> Staged
    ensures { result ≡ staged_in (words bytes.now) }
{
    Staged {
        client: word_at(bytes, 64),
        slot: size_at(bytes, 65),
        total: size_at(bytes, 66),
        received: size_at(bytes, 67),
    }
}

fn record_in(bytes: &[u8; 272]) -> EngineRecord
    ensures { result ≡ record_in (words bytes.now) }
{
    EngineRecord {
        setup: setup_in(bytes),
        clients: clients_in(bytes),
        slots: slots_in(bytes),
        read_offset: size_at(bytes, 5),
        next_ticket: word_at(bytes, 6),
        staged: staged_in(bytes),
    }
}

fn slot_right(bytes: &[u8; 272], k: usize) -> bool
    requires { k + 4 < 68 }
    ensures { result ≡ slot_right (words bytes.now) k }
{
    let tag = word_at(bytes, k);
    let zeros = (tag == 0)
        & (word_at(bytes, k + 1) == 0)
        & (word_at(bytes, k + 2) == 0)
        & (word_at(bytes, k + 3) == 0)
        & (word_at(bytes, k + 4) == 0);
    (tag == 1) | zeros
}

fn slots_right(bytes: &[u8; 272]) -> bool
    ensures { result ≡ slots_right (words bytes.now) }
{
    slot_right(bytes, 24)
        & slot_right(bytes, 29)
        & slot_right(bytes, 34)
        & slot_right(bytes, 39)
        & slot_right(bytes, 44)
        & slot_right(bytes, 49)
        & slot_right(bytes, 54)
        & slot_right(bytes, 59)
}

// The words that are kept for later are zero, and each client is open or not.
fn fixed_right(bytes: &[u8; 272]) -> bool
    ensures { result ≡ fixed_right (words bytes.now) }
{
    (word_at(bytes, 4) == 0)
        & (word_at(bytes, 7) == 0)
        & (word_at(bytes, 11) <= 1)
        & (word_at(bytes, 15) <= 1)
        & (word_at(bytes, 19) <= 1)
        & (word_at(bytes, 23) <= 1)
}

fn no_record() -> EngineRecord
    ensures { result ≡ no_record }
{
    let clients = [Client {
        window: Window {
            start: 0,
            length: 0,
        },
        pending: 0,
        opened: false,
    }; 4];
    EngineRecord {
        setup: Setup {
            ring: 0,
            memory: 0,
            common: 0,
            reset: ResetRule::Unblended,
        },
        clients: clients,
        slots: [None; 8],
        read_offset: 0,
        next_ticket: 0,
        staged: engine_record::no_staged(),
    }
}

// The record that bytes stand for.
#[tactic(auto, using(crate::proofs::Cases::none_short))]
pub fn decode(bytes: &[u8]) -> EngineRecord
    ensures { result ≡ record_of bytes.now }
{
    let Some(bytes) = bytes.as_array::<272>() else {
        return no_record();
    };
    let rule = ResetRule::is_number(word_at(bytes, 3));
    if !(rule & fixed_right(bytes) & slots_right(bytes)) {
        return no_record();
    }
    record_in(bytes)
}
