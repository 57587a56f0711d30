// The month's tally: fourteen counts over many replay files of both editions, definitions and laws; a file begun and ended. Nothing of a file is kept but the
// counts. Its pieces are read in crate tally_pieces.
#![tactic(auto)]

ghost use Rattle.std.specs.Prelude.{◌≡◌, List, [], ℕ, ◌≤◌, length};
ghost use Rattle.totals.specs.declared.Totals.{Totals};
ghost use Rattle.tally.specs.Tally.{Adds, tally_start, tally_answer, Stands};

use records::{Edition, Reader};
use totals::{Answer, Totals};

// The counts while a file is added, and whether none has grown too large.
#[derive(Clone, Copy)]
pub struct Running {
    pub fits: bool,
    pub counts: [u64; 14],
}

// A file that is being added: the totals before it, its edition, once the version byte has come, the reading of it, and the counts.
#[derive(Clone, Copy)]
pub struct Tally {
    pub before: Totals,
    pub edition: Edition,
    pub begun: bool,
    pub reader: Reader,
    pub running: Running,
}

// A tally after some input, and how many bytes of it were used.
#[derive(Clone, Copy)]
pub struct FeedResult {
    pub tally: Tally,
    pub used: usize,
}

// Before the version byte, with these counts, which are those of the totals.
fn start_with(before: Totals, counts: [u64; 14]) -> Tally
    ensures { before.counts ≡ counts → (result ≡ tally_start before) × ((held : List ℕ) → 32777 ≤ length held → Stands before [] result held) }
{
    Tally {
        before: before,
        edition: Edition::First,
        begun: false,
        reader: records::start(),
        running: Running {
            fits: true,
            counts: counts,
        },
    }
}

// Before the version byte of a file that is to be added to these totals.
pub fn start(totals: Totals) -> Tally
    ensures { (result ≡ tally_start totals) × ((held : List ℕ) → 32777 ≤ length held → Stands totals [] result held) }
{
    let counts = totals.counts;
    start_with(totals, counts)
}

// What is answered at the end of a file: the new totals; or refusal 19, that a count would grow too large, and the totals as before that file.
pub fn finish(tally: Tally) -> Answer
    ensures { (result ≡ tally_answer tally) × ((totals : Totals) (seen held : List ℕ) → Stands totals seen tally held → Adds totals seen result) }
{
    let before = tally.before;
    let running = tally.running;
    let counts = running.counts;
    if !running.fits {
        return Answer {
            refusal: 19,
            totals: before,
        };
    }
    Answer {
        refusal: 0,
        totals: Totals { counts: counts },
    }
}
