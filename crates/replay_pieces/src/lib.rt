// A piece of a replay file fed whole, and its lines handed over to be written: as many bytes as the lines have.
#![tactic(auto)]

pub mod gather;

ghost use Rattle.std.specs.Prelude.{◌≡◌, ℕ, List, length, if◌then◌else◌, nat_le};
ghost use Rattle.claims.specs.Engine.{State};
ghost use Rattle.replay.specs.Chunking.{Stands};
ghost use Rattle.replay_pieces.specs.Reached.{handed_of, PieceFed, Finishes};

use command::{Failed, Printed};
use renderer::Renderer;
use replay::Replay;

// A replay under way: how many bytes were handed to the system to write (modulo 2 to the 64th), and whether nothing has failed so far.
#[derive(Clone, Copy)]
pub struct Progress {
    pub replay: Replay,
    pub handed: u64,
    pub outcome: Result<(), Failed>,
}

// Prints the first n bytes of `out`, if lines are to be shown.
// Kept (no plainer): whether lines are shown is a yes or no; an enum would say it in other words.
fn show(rt: &(impl Print + Eprint), shows: bool, out: &[u8], n: usize) -> Printed
    ensures { result.size ≡ (if shows then (if nat_le n (length out.now) then n else 0) else 0) }
{
    if shows {
        return command::print(rt, out, n);
    }
    Printed {
        size: 0,
        outcome: Ok(()),
    }
}

// Feeds a piece of the file, whole. It fails where nothing is used, which happens only where a buffer is too short.
// Kept (no plainer): a turn takes as many bytes as it used, so neither a range nor chunks of one size fit.
pub fn feed_piece(
    rt: &(impl Print + Eprint),
    replay: Replay,
    held: &mut [u8],
    ring: &mut [u8],
    memory: &mut [u8],
    piece: &[u8],
    handed: u64,
    shows: bool,
    renderer: Renderer,
) -> Progress
    ensures { (engine : State) (seen text : List ℕ) → Stands engine seen text replay held.old ring.old memory.old
        → handed ≡ handed_of shows text → PieceFed replay.edition engine seen text piece.now shows result.replay result.handed result.outcome held.new ring.new memory.new }
{
    let mut out = command::large_buffer();
    let mut now = replay;
    let mut used = 0;
    let mut sum = handed;
    while used < piece.len() {
        let fed = crate::gather::feed_lines(
            now,
            held,
            ring,
            memory,
            &piece[used..],
            &mut out,
            renderer,
        );
        now = fed.replay;
        used += fed.used;
        let printed = show(rt, shows, &out, fed.written);
        sum = sum.wrapping_add(printed.size as u64);
        if fed.used == 0 || printed.outcome.is_err() {
            return Progress {
                replay: now,
                handed: sum,
                outcome: Err(Failed),
            };
        }
    }
    Progress {
        replay: now,
        handed: sum,
        outcome: Ok(()),
    }
}

// The end of the file: its last line, if it has one, printed into a lent line and shown or not.
pub fn finish(rt: &(impl Print + Eprint), replay: Replay, line: &mut [u8], shows: bool) -> Printed
    ensures { Finishes replay shows line.old result.size line.new }
{
    let n = replay::finish(replay, line);
    show(rt, shows, line, n)
}
