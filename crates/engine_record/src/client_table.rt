// The clients of the engine record: who is open, the lowest free id, and whether windows are bad beside those of the open clients.
ghost use Rattle.std.specs.Prelude.{◌≡◌, ◌<◌, length, nat_le, is_none, MatchOption};
ghost use Rattle.engine_record.specs.Clients.{is_open, windows_of, lowest_closed, overlaps_any, bad_window, windows_valid};

use crate::{Client, EngineRecord, Setup, Window};
use range::Range;

// Whether some of the bytes are in the window of an open client.
fn overlaps_any(clients: &[Client], bytes: Range) -> bool
    ensures { result ≡ overlaps_any bytes (windows_of clients.now) }
{
    for client in clients {
        let window = Range::new(client.window.start, client.window.length);
        if client.opened & bytes.overlaps(window) {
            return true;
        }
    }
    false
}

// Whether a window is bad beside those of the open ones of some clients.
pub fn bad_window(setup: Setup, others: &[Client], w: Window) -> bool
    ensures { result ≡ bad_window setup (windows_of others.now) w }
{
    let mine = Range::new(w.start, w.length);
    let memory = Range {
        start: 0,
        end: setup.memory,
    };
    let common = Range {
        start: 0,
        end: setup.common,
    };
    let crowded = overlaps_any(others, mine);
    (w.length == 0) | !mine.is_inside(memory) | mine.overlaps(common) | crowded
}

// Each open client's window is compared with those of the later ones. A closed one's window is not looked at.
pub fn windows_valid(setup: Setup, clients: &[Client]) -> bool
    ensures { result ≡ windows_valid setup (windows_of clients.now) }
{
    let mut rest = clients;
    while let Some((client, later)) = rest.split_first() {
        if client.opened && bad_window(setup, later, client.window) {
            return false;
        }
        rest = later;
    }
    true
}

// The lowest id that is free.
pub fn lowest_closed(clients: &[Client; 4]) -> Option<usize>
    ensures lowest { MatchOption result (lowest_closed clients.now ≡ 4) (λ id. (id ≡ lowest_closed clients.now) × (id < 4)) }
    ensures full { is_none result ≡ nat_le 4 (length (windows_of clients.now)) }
{
    for id in 0..4 {
        if !clients[id].opened {
            return Some(id);
        }
    }
    None
}

// Whether a client is open.
pub fn is_open(engine: &EngineRecord, client: u32) -> bool
    ensures { result ≡ is_open engine.now client }
{
    client < 4 && engine.clients[client as usize].opened
}
