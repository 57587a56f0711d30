// Replay files read and added to a tally. No contract can say which bytes are read; that the counts grow by what some bytes add to them is
// proved, and that nothing is added where a file can't be read.
#![tactic(auto)]

pub mod files;

ghost use Rattle.totals.specs.Files.{AddsFile};
ghost use Rattle.tally.specs.Tally.{Adds};
ghost use Rattle.tally_io.specs.Reached.{Leads, stays, goes_on};

use command::{Failed, Feed, Opened};
use std::io::Read;
use std::rt::{Env, Files};
use tally::Tally;
use totals::{Outcome, Totals};

// A file that is added to a tally. The longest record of either edition has room in `held`.
#[derive(Drop)]
struct Reading {
    tally: Tally,
    held: [u8; 32777],
}

impl<R> Feed<R> for Reading {
    ghost Reaches = { Leads };

    ghost reflexive = { stays };

    ghost transitive = { goes_on };

    fn feed(&mut self, _rt: &R, piece: &[u8]) -> Result<(), Failed> {
        self.tally = tally_pieces::feed_piece(self.tally, &mut self.held, piece);
        Ok(())
    }
}

// Adds what a file holds, to its end. A file that can't be read to its end is reported on standard error, and adds nothing.
pub fn add_from(rt: &impl Eprint, file: &mut impl Read, name: &[u8], totals: Totals) -> Outcome
    ensures { AddsFile Adds totals result }
{
    let begun = tally::start(totals);
    let mut reading = Reading {
        tally: begun,
        held: [0u8; 32777],
    };
    if command::read_all(rt, file, name, &mut reading).is_err() {
        return totals::unread(totals);
    }
    Outcome {
        read: true,
        answer: tally::finish(reading.tally),
    }
}

// The same, of the file that an argument of the program names. One that can't be opened is reported and adds nothing.
pub fn add_argument(rt: &(impl Files + Env + Eprint), index: usize, totals: Totals) -> Outcome
    ensures { AddsFile Adds totals result }
{
    let mut path = command::buffer();
    let Ok(Opened { mut file, path }) = command::open_argument(rt, index, &mut path) else {
        return totals::unread(totals);
    };
    add_from(rt, &mut file, path, totals)
}
