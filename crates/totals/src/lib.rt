// Totals of the month's tally, and totals added to totals.
#![tactic(auto)]

pub mod lines;

ghost use Rattle.std.specs.Prelude.{◌≡◌, false, ◌+◌, leb};
ghost use Rattle.totals.specs.Totals.{largest, unchanged, AddsTotals};
ghost use Rattle.totals.specs.Sums.{Sum};

// The counts: batches, tasks, output pixels, blended pixels, batches with fault 20 to 28, records without a score.
#[derive(Clone, Copy)]
pub struct Totals {
    pub counts: [u64; 14],
}

// What is answered where counts are added to totals: the new totals; or refusal 19, that a count would grow too large, and the totals as before.
#[derive(Clone, Copy)]
pub struct Answer {
    pub refusal: u32,
    pub totals: Totals,
}

// What came of a file that was to be added: whether the system could read it, and what is answered.
#[derive(Clone, Copy)]
pub struct Outcome {
    pub read: bool,
    pub answer: Answer,
}

// What came of many files, one after another: what is answered in the end, and how many of them the system could not read.
#[derive(Clone, Copy)]
pub struct FilesOutcome {
    pub answer: Answer,
    pub unread: usize,
}

// Whether a count may grow so.
pub fn has_room(have: u64, n: u64) -> bool
    ensures { result ≡ leb (have + n) largest }
{
    n <= 18446744073709551615 - have
}

// The sums of counts, if none is too large.
fn add_counts(counts: [u64; 14], more: [u64; 14]) -> Option<[u64; 14]>
    ensures { Sum counts more result }
{
    let mut sum = counts;
    for k in 0..14 {
        sum[k] = counts[k].checked_add(more[k])?;
    }
    Some(sum)
}

// Adds other totals, each count to its own: totals of lots of files make the totals of all of them.
pub fn add(totals: Totals, other: Totals) -> Answer
    ensures { AddsTotals totals other result }
{
    let Some(counts) = add_counts(totals.counts, other.counts) else {
        return Answer {
            refusal: 19,
            totals: totals,
        };
    };
    Answer {
        refusal: 0,
        totals: Totals { counts },
    }
}

// Of a file that the system could not read nothing is added.
pub fn unread(totals: Totals) -> Outcome
    ensures { result ≡ record { read = false; answer = unchanged totals } }
{
    Outcome {
        read: false,
        answer: Answer { refusal: 0, totals },
    }
}
