// The lines of totals, as text: printed, and read back. 672 bytes have room for them; what does not fit is dropped.
ghost use Rattle.std.specs.Prelude.{◌≡◌, cond, ◌∷◌, [], ◌++◌, ◌<◌, ◌≤◌, length};
ghost use Rattle.text.specs.Line.{line_of, appended};
ghost use Rattle.text.specs.Decimal.{decimal};
ghost use Rattle.totals.specs.Lines.{label_of, count_lines, totals_text, answer_text, progress_text};
ghost use Rattle.totals.specs.Reading.{FourteenCounts, Reads, Finds};

use crate::{Answer, Totals};
use text::line;

// ---- printed

// The name of the count at a position, and a space.
fn label(line: &mut [u8], n: usize, k: usize) -> usize
    requires { k < 14 }
    ensures { line_of line.new result ≡ appended (line_of line.old n) (label_of k) }
{
    if k == 0 {
        return line::append(line, n, b"batches ");
    }
    if k == 1 {
        return line::append(line, n, b"tasks ");
    }
    if k == 2 {
        return line::append(line, n, b"output_pixels ");
    }
    if k == 3 {
        return line::append(line, n, b"blended_pixels ");
    }
    if k == 13 {
        return line::append(line, n, b"records_without_score ");
    }
    let a = line::append(line, n, b"fault_");
    let b = line::decimal(line, a, (k as u64) + 16);
    line::push(line, b, b' ')
}

// A line: the count's name and its number.
fn count_line(line: &mut [u8], n: usize, k: usize, count: u64) -> usize
    requires { k < 14 }
    ensures { line_of line.new result ≡ appended (line_of line.old n) (label_of k ++ (decimal count ++ (10 ∷ []))) }
{
    let a = label(line, n, k);
    let b = line::decimal(line, a, count);
    line::push(line, b, b'\n')
}

fn count_lines(line: &mut [u8], counts: [u64; 14]) -> usize
    ensures { (line_of line.new result ≡ appended (line_of line.old 0) (count_lines 0 counts)) × (length (count_lines 0 counts) ≤ 672) × FourteenCounts counts }
{
    let mut end = 0;
    for k in 0..14 {
        end = count_line(line, end, k, counts[k]);
    }
    end
}

// The lines of totals, at the start of a buffer; their length. That the counts are fourteen numbers of 64 bits is so by their type, and said for the reader below.
pub fn write(line: &mut [u8], totals: Totals) -> usize
    ensures { (line_of line.new result ≡ appended (line_of line.old 0) (totals_text totals)) × (length (totals_text totals) ≤ 672) × FourteenCounts totals.counts }
{
    let counts = totals.counts;
    count_lines(line, counts)
}

// The lines of an answer: those of the totals, and `refused 19` after them if so; their length.
pub fn write_answer(line: &mut [u8], answer: Answer) -> usize
    ensures { (line_of line.new result ≡ appended (line_of line.old 0) (answer_text answer)) × (length (answer_text answer) ≤ 704) }
{
    let totals = answer.totals;
    let n = write(line, totals);
    if answer.refusal == 0 {
        return n;
    }
    let a = line::append(line, n, b"refused ");
    let b = line::decimal(line, a, answer.refusal as u64);
    line::push(line, b, b'\n')
}

// What ends what is shown: the cursor goes back for the next, or the line is done.
fn last_byte(last: bool) -> u8
    ensures { result ≡ cond last 10 13 }
{
    if last { b'\n' } else { b'\r' }
}

// How many files of how many are done; the length of the text.
pub fn write_progress(line: &mut [u8], files: usize, of: usize) -> usize
    ensures { (line_of line.new result ≡ appended (line_of line.old 0) (progress_text files of)) × (length (progress_text files of) ≤ 64) }
{
    let a = line::decimal(line, 0, files as u64);
    let b = line::append(line, a, b" of ");
    let c = line::decimal(line, b, of as u64);
    let d = line::append(line, c, b" files");
    line::push(line, d, last_byte(files == of))
}

// ---- read

// Whether a text is the lines of totals, and these.
#[derive(Clone, Copy)]
pub struct Reading {
    pub ok: bool,
    pub totals: Totals,
}

fn label_size(k: usize) -> usize
    requires { k < 14 }
    ensures { (result ≡ length (label_of k)) × (result ≤ 27) }
{
    let mut line = [0u8; 27];
    label(&mut line, 0, k)
}

// The numbers that stand where a text of totals has its counts. No name is looked at.
fn find_totals(text: &[u8]) -> Totals
    requires { length text.now ≤ 672 }
    ensures { Finds text.now result.counts }
{
    let mut counts = [0u64; 14];
    let mut at = 0;
    for k in 0..14 {
        let start = at + label_size(k);
        let numeral = text::numerals::read(text, start, 18446744073709551615);
        counts[k] = numeral.value;
        at = numeral.end + 1;
    }
    Totals { counts }
}

// Reads the lines of totals. A text is that of totals if what is found in it prints it again, byte for byte.
pub fn read(text: &[u8]) -> Reading
    ensures { Reads text.now result }
{
    if 672 < text.len() {
        return Reading {
            ok: false,
            totals: Totals { counts: [0u64; 14] },
        };
    }
    let totals = find_totals(text);
    let mut line = [0u8; 672];
    let n = write(&mut line, totals);
    let ok = check::same(&line[..n], text);
    Reading { ok, totals }
}
