// The lines of a replay file's records, printed into a lent buffer of at least 128 bytes.
// Kept (promise): `refusal_line`, `outcome_line` and `bad_version` take any slice of so many bytes, and say of each what stands behind the text.
ghost use Rattle.std.specs.Prelude.{◌≡◌, ◌≤◌, length};
ghost use Rattle.batch.specs.Batch.{status_word_of, fault_number_of as faultOf, fault_offset_of};
ghost use Rattle.engine.specs.Outcome.{run_refusal_of as refusalOf, values_of};
ghost use Rattle.claims.specs.Engine.{answer_or_refusal, completion};
ghost use Rattle.records.specs.Records.{bad_version};
ghost use Rattle.lines.specs.Lines.{completion_line, refusal_line, answer_line, ending_line};
ghost use Rattle.lines.specs.Prints.{Prints};

use batch::Verdict;
use engine::Completion;
use queue::Refusal;
use text::line::{self, Line};

// What run completed.
fn completion_line(line: &mut [u8], client: u32, ticket: u32, verdict: Verdict) -> usize
    requires { 128 ≤ length line.old }
    ensures { Prints (completion_line client ticket (record { status = status_word_of verdict; fault = faultOf verdict; offset = fault_offset_of verdict }))
        line.old result line.new }
{
    let mut text = Line::new(line);
    text.decimal(client as u64);
    text.field(ticket as u64);
    text.push(b' ');
    text.hex(verdict.status(), 8);
    text.field(verdict.number() as u64);
    text.field(verdict.offset() as u64);
    text.push(b'\n');
    text.length
}

// A record that was refused.
pub fn refusal_line(line: &mut [u8], client: u32, number: u32) -> usize
    requires { 128 ≤ length line.old }
    ensures { Prints (refusal_line client number) line.old result line.new }
{
    let mut text = Line::new(line);
    text.decimal(client as u64);
    text.append(b" - - ");
    text.decimal(number as u64);
    text.append(b" 0\n");
    text.length
}

// What run answered of a client's record, or that it was refused.
pub fn outcome_line(line: &mut [u8], client: u32, outcome: Result<Completion, Refusal>) -> usize
    requires { 128 ≤ length line.old }
    ensures { Prints (answer_line client (answer_or_refusal (refusalOf outcome) (completion (values_of outcome)))) line.old result line.new }
{
    match outcome {
        Err(refusal) => refusal_line(line, client, refusal.number()),
        Ok(done) => completion_line(line, done.client, done.ticket, done.verdict),
    }
}

// The line of a file that is empty or of another version.
pub fn bad_version(line: &mut [u8]) -> usize
    requires { 128 ≤ length line.old }
    ensures { Prints (ending_line bad_version) line.old result line.new }
{
    line::copy(line, b"bad version\n")
}
