// Totals printed on standard output, and printed totals read from files, and added. No contract can say which bytes the system reads, or what
// it does with those that it is to write; what is added, and how many bytes are handed over to be written, is proved.
#![tactic(auto)]

ghost use Rattle.std.specs.Prelude.{◌≡◌, ◌≤◌, true, false, cond, length, IfOk};
ghost use Rattle.totals.specs.Lines.{answer_text, progress_text};
ghost use Rattle.totals.specs.Totals.{unchanged, AddsTotals};
ghost use Rattle.totals.specs.Files.{AddsFile};
ghost use Rattle.totals_io.specs.Lots.{AddsText, ReadsFile};

use command::{Failed, Opened, Printed};
use std::io::{IsTerminal, Read, Write};
use std::rt::{Env, Files};
use totals::lines::Reading;
use totals::{Answer, Outcome, Totals};

// ---- printed

// Prints the fourteen counts, and `refused 19` after them if so.
pub fn print_answer(rt: &(impl Print + Eprint), answer: Answer) -> Printed
    ensures { result.size ≡ length (answer_text answer) }
{
    let mut line = [0u8; 704];
    let n = totals::lines::write_answer(&mut line, answer);
    command::print(rt, &line, n)
}

// What was shown: whether there is a terminal to show it on, and how many bytes were handed to the system to write.
#[derive(Clone, Copy)]
pub struct Shown {
    pub terminal: bool,
    pub size: usize,
}

// Shows how many files of how many are done, on what is a terminal, and else nothing.
pub fn show_progress(screen: &mut (impl Write + IsTerminal), files: usize, of: usize) -> Shown
    ensures { result.size ≡ cond result.terminal (length (progress_text files of)) 0 }
{
    if !screen.is_terminal() {
        return Shown {
            terminal: false,
            size: 0,
        };
    }
    let mut line = [0u8; 64];
    let n = totals::lines::write_progress(&mut line, files, of);
    let _written = screen.write_all(&line[..n]);
    Shown {
        terminal: true,
        size: n,
    }
}

// ---- read

// A file that is to hold printed totals: whether the system could read it, and what its text is.
#[derive(Clone, Copy)]
pub struct TotalsFile {
    pub read: bool,
    pub reading: Reading,
}

// A file that could not be read has no totals.
fn no_file() -> TotalsFile
    ensures { ReadsFile result }
{
    TotalsFile {
        read: false,
        reading: Reading {
            ok: false,
            totals: Totals { counts: [0u64; 14] },
        },
    }
}

// Reads a file into a buffer, to its end or until the buffer is full: how many bytes came.
// Kept (no plainer): a turn takes as many bytes as came, so neither a range nor chunks of one size fit.
fn read_text(
    rt: &impl Eprint,
    file: &mut impl Read,
    name: &[u8],
    text: &mut [u8],
) -> Result<usize, Failed>
    ensures { IfOk result (λ count. count ≤ length text.new) }
{
    let mut end = 0;
    while end < text.len() {
        let count = command::read_piece(rt, file, name, &mut text[end..])?.len();
        if count == 0 {
            break;
        }
        end += count;
    }
    Ok(end)
}

// Reads totals from a file, of which a longer text than that of totals is not read to its end. That it holds none is reported on standard error.
fn read_from(rt: &impl Eprint, file: &mut impl Read, name: &[u8]) -> TotalsFile
    ensures { ReadsFile result }
{
    let mut text = [0u8; 1024];
    let Ok(count) = read_text(rt, file, name, &mut text) else {
        return no_file();
    };
    let reading = totals::lines::read(&text[..count]);
    if !reading.ok {
        command::complain(rt, name, b" does not hold printed totals\n");
    }
    TotalsFile {
        read: true,
        reading: reading,
    }
}

// The same, of the file that an argument of the program names. One that can't be opened is reported too.
pub fn read_argument(rt: &(impl Files + Env + Eprint), index: usize) -> TotalsFile
    ensures { ReadsFile result }
{
    let mut path = command::buffer();
    let Ok(Opened { mut file, path }) = command::open_argument(rt, index, &mut path) else {
        return no_file();
    };
    read_from(rt, &mut file, path)
}

// ---- added

// Adds the totals that were read of a text. Of a text that is not that of totals nothing is added.
pub fn add_reading(totals: Totals, reading: Reading) -> Answer
    ensures { (reading.ok ≡ true → AddsTotals totals reading.totals result) × (reading.ok ≡ false → result ≡ unchanged totals) }
{
    if !reading.ok {
        return Answer {
            refusal: 0,
            totals: totals,
        };
    }
    let other = reading.totals;
    totals::add(totals, other)
}

// Adds the totals of a lot, from the file that an argument names. One without totals is reported, and adds nothing.
pub fn add_argument(rt: &(impl Files + Env + Eprint), index: usize, totals: Totals) -> Outcome
    ensures { AddsFile AddsText totals result }
{
    let file = read_argument(rt, index);
    let reading = file.reading;
    Outcome {
        read: file.read,
        answer: add_reading(totals, reading),
    }
}
