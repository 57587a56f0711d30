// A replay file read for its answers, and the answers written to standard output. No contract can say which bytes the system reads,
// or what it does with those that it is to write; that the inquiry stands for some bytes is proved, that the lent line holds the text of the
// answer, and that as many bytes are handed over to be written.
#![tactic(auto)]

ghost use Rattle.answer_lines.specs.Lines.{touched_line, fault_line, Types};
ghost use Rattle.std.specs.Prelude.{IfOk};
ghost use Rattle.inquiry_io.specs.Reached.{ReachedSome};
ghost use Rattle.inquiry_io.specs.Reading.{Leads, stays, goes_on};

use command::{Failed, Feed, Opened, Printed};
use inquiry::{Inquiry, Question};
use provenance::{Explanation, Refusal, Touch};
use std::rt::{Env, Files};

// A file that is read for an inquiry.
#[derive(Drop)]
struct Reading {
    question: Question,
    inquiry: Inquiry,
    held: [u8; 32773],
}

impl<R> Feed<R> for Reading {
    ghost Reaches = { Leads };

    ghost reflexive = { stays };

    ghost transitive = { goes_on };

    fn feed(&mut self, _rt: &R, piece: &[u8]) -> Result<(), Failed> {
        self.inquiry = inquiry::feed_piece(self.question, self.inquiry, &mut self.held, piece);
        Ok(())
    }
}

// What the file that the first argument names says.
pub fn ask(rt: &(impl Files + Env + Eprint), question: Question) -> Result<Inquiry, Failed>
    ensures { IfOk result (λ inquiry. ReachedSome question inquiry) }
{
    let mut path = command::buffer();
    let Opened { mut file, path } = command::open_argument(rt, 1, &mut path)?;
    let mut reading = Reading {
        question,
        inquiry: inquiry::start(),
        held: [0u8; 32773],
    };
    command::read_all(rt, &mut file, path, &mut reading)?;
    Ok(reading.inquiry)
}

// ---- lines

// Prints the line of an answer to who drew a byte last: what is handed to the system is the first `size` bytes of `line`, which is to
// be 128 bytes long.
pub fn print_touched(
    rt: &(impl Print + Eprint),
    line: &mut [u8],
    answer: Result<Option<Touch>, Refusal>,
) -> Printed
    ensures { Types (touched_line answer) line.old result.size line.new }
{
    let n = answer_lines::touched_line(line, answer);
    command::print(rt, line, n)
}

// The same of an answer to why a batch faulted.
pub fn print_fault(
    rt: &(impl Print + Eprint),
    line: &mut [u8],
    answer: Result<Explanation, Refusal>,
) -> Printed
    ensures { Types (fault_line answer) line.old result.size line.new }
{
    let size = answer_lines::fault_line(line, answer);
    command::print(rt, line, size)
}
