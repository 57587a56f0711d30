// The month's tally. `tally FILE..` counts over replay files of both editions and prints fourteen counts, a line each; `tally --from TOTALS FILE..` goes on
// from counts that were printed before; `tally --add FILE..` adds such lines, of lots that were tallied apart, and prints the sums in the same form. Where
// a count would pass the largest 64-bit number the last line is `refused 19`: then the counts are those before the file that was too much, and no file
// after it is read. How many files are done is shown on descriptor 4 if that is a terminal.
#![tactic(auto)]

use std::rt::{Env, Files};
use totals::Totals;
use totals::lines::Reading;

// The totals to start with: zeros, or those of the file that the second argument names. That it holds none is reported.
fn start(rt: &(impl Files + Env + Eprint), from: bool) -> Reading {
    if from {
        let file = totals_io::read_argument(rt, 2);
        let reading = file.reading;
        return reading;
    }
    Reading {
        ok: true,
        totals: Totals { counts: [0u64; 14] },
    }
}

// Whether the first argument is this word. One that is missing or too long for the buffer counts as empty.
fn asks(rt: &impl Env, word: &[u8]) -> bool {
    let mut text = command::buffer();
    check::same(command::argument(rt, 1, &mut text), word)
}

// The first argument that names a file to be added.
fn first_file(lots: bool, from: bool) -> usize {
    if lots {
        return 2;
    }
    if from { 3 } else { 1 }
}

fn main(rt: HostRuntime) {
    let count = command::argument_count(&rt);
    let lots = asks(&rt, b"--add");
    let from = asks(&rt, b"--from");
    let first = first_file(lots, from);
    if count <= first {
        command::complain(
            &rt,
            b"usage: tally FILE.. or tally --from TOTALS FILE.. or tally --add TOTALS..\n",
            b"",
        );
        return;
    }
    let reading = start(&rt, from);
    if !reading.ok {
        return;
    }
    let totals = reading.totals;
    let sum = tally_io::files::add_arguments(&rt, lots, first, count, totals);
    let answer = sum.answer;
    totals_io::print_answer(&rt, answer);
}
