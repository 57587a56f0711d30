// A record of a replay file, before it is run: whether submit takes it, and what its client may touch. No engine is asked.
ghost use Rattle.std.specs.Prelude.{◌≡◌, ◌≤◌, eqb};
ghost use Rattle.claims.specs.BatchSemantics.{bounds_of};
ghost use Rattle.lines.specs.Answered.{record_refusal, replay_window};
ghost use Rattle.lines.specs.Submitted.{submitted_as};

use range::Range;
use task_check::Bounds;

// Whether submit takes a record of this client with this batch.
fn is_accepted(client: u32, batch: &[u8]) -> bool
    ensures { result ≡ eqb (record_refusal (record { client = client; batch = batch.now })) 0 }
{
    let size = batch.len();
    client <= 3 && (1..=32768).contains(&size) && size % 4 == 0
}

// What a client may touch.
fn bounds_of(client: u32) -> Bounds
    requires { client ≤ 3 }
    ensures { result ≡ bounds_of (replay_window client) 16384 }
{
    Bounds {
        window: Range::new(16384 + client * 12288, 12288),
        common_length: 16384,
    }
}

// The bounds within which the batch of a record of this client is run, none where submit refuses it.
pub fn accept(client: u32, batch: &[u8]) -> Option<Bounds>
    ensures { result ≡ submitted_as (record { client = client; batch = batch.now }) }
{
    if is_accepted(client, batch) {
        Some(bounds_of(client))
    } else {
        None
    }
}
