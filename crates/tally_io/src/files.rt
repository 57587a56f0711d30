// The files that the arguments of a program name, added to totals one after another, up to one that is refused.
ghost use Rattle.std.specs.Prelude.{◌≡◌, ℕ, ◌+◌, ◌-◌, ◌<◌};
ghost use Rattle.totals.specs.declared.Totals.{Totals};
ghost use Rattle.totals.specs.Files.{AddsFile, AddsFiles};
ghost use Rattle.tally_io.specs.Kinds.{AddsOf};

use std::fs::OpenOptions;
use std::io::IsTerminal;
use std::rt::{Env, Files};
use totals::{Answer, FilesOutcome, Outcome, Totals};

// Where the progress is shown, if it is a terminal: descriptor 4, by its name.
const PROGRESS: &str = "/proc/self/fd/4";

// Shows how many files of how many are done. It is opened for reading too, since a pipe that nobody reads would else hold the program up.
fn show_progress<R: Files>(rt: &R, files: usize, of: usize)
where
    R::File: IsTerminal,
{
    if let Ok(mut screen) = OpenOptions::new().read(true).write(true).open(rt, PROGRESS) {
        totals_io::show_progress(&mut screen, files, of);
    }
}

// Adds the file of an argument: the totals of a lot, or a replay file.
fn add_argument(
    rt: &(impl Files + Env + Eprint),
    lots: bool,
    index: usize,
    totals: Totals,
) -> Outcome
    ensures { AddsFile (AddsOf lots) totals result }
{
    if lots {
        return totals_io::add_argument(rt, index, totals);
    }
    crate::add_argument(rt, index, totals)
}

// Adds the file of one more argument, where none was refused before.
fn add_next(
    rt: &(impl Files + Env + Eprint),
    lots: bool,
    index: usize,
    sum: FilesOutcome,
) -> FilesOutcome
    requires { sum.unread < 18446744073709551615 }
    ensures { (totals : Totals) (number : ℕ) → sum.answer.refusal ≡ 0 → AddsFiles (AddsOf lots) totals number sum → AddsFiles (AddsOf lots) totals (number + 1) result }
{
    let answer = sum.answer;
    let totals = answer.totals;
    let outcome = add_argument(rt, lots, index, totals);
    let next = outcome.answer;
    if outcome.read {
        return FilesOutcome {
            answer: next,
            unread: sum.unread,
        };
    }
    FilesOutcome {
        answer: next,
        unread: sum.unread + 1,
    }
}

// Adds the files of the arguments from one to the last, and shows how many of them are done. After one that is refused none is read.
pub fn add_arguments<R: Files + Env + Eprint>(
    rt: &R,
    lots: bool,
    first: usize,
    count: usize,
    totals: Totals,
) -> FilesOutcome
where
    R::File: IsTerminal,
    ensures { AddsFiles (AddsOf lots) totals (count - first) result }
{
    let mut sum = FilesOutcome {
        answer: Answer {
            refusal: 0,
            totals: totals,
        },
        unread: 0,
    };
    for index in first..count {
        sum = add_next(rt, lots, index, sum);
        // a file that was too much is not done
        if sum.answer.refusal != 0 {
            return sum;
        }
        show_progress(rt, index + 1 - first, count - first);
    }
    sum
}
