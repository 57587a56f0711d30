// The lines of the answers: who drew a byte last, and why a batch faulted, each as text in a lent buffer. 128 bytes have room for
// any of them; what does not fit is dropped.
#![tactic(auto)]

ghost use Rattle.std.specs.Prelude.{◌≡◌, ◌≤◌, length};
ghost use Rattle.text.specs.Line.{appended};
ghost use Rattle.text.specs.Written.{text_in};
ghost use Rattle.answer_lines.specs.Lines.{refused_line, touch_line, touched_line, detail_text, explanation_line, fault_line, Types};

use provenance::{Explanation, HeldRegister, Refusal, Touch};
use text::line::{self, Line};

fn refused_line(line: &mut [u8], refusal: Refusal) -> usize
    ensures { Types (refused_line refusal) line.old result line.new }
{
    let mut text = Line::new(line);
    text.append(b"refused ");
    text.decimal(refusal.number() as u64);
    text.push(b'\n');
    text.length
}

// ---- who drew a byte last

fn touch_line(line: &mut [u8], touch: Touch) -> usize
    ensures { Types (touch_line touch) line.old result line.new }
{
    let mut text = Line::new(line);
    text.decimal(touch.ticket as u64);
    text.field(touch.number as u64);
    text.field(touch.mode_number() as u64);
    text.push(b'\n');
    text.length
}

// The line of an answer to who drew a byte last; its length.
#[tactic(auto, unfolding(crate::specs::Lines::touched_line))]
pub fn touched_line(line: &mut [u8], answer: Result<Option<Touch>, Refusal>) -> usize
    ensures { Types (touched_line answer) line.old result line.new }
{
    match answer {
        Err(refusal) => refused_line(line, refusal),
        Ok(None) => line::copy(line, b"not drawn\n"),
        Ok(Some(touch)) => touch_line(line, touch),
    }
}

// ---- why a batch faulted

// For 24 the register's offset and what it held.
#[tactic(auto, using(crate::proofs::Typed::detail_typed, crate::proofs::Typed::detail_size), unfolding(crate::specs::Lines::detail_text, text::specs::Line::appended))]
fn detail_text(line: &mut Line, detail: Option<HeldRegister>)
    ensures same_buffer { line.new.bytes.ghost_name ≡ line.old.bytes.ghost_name }
    ensures text { text_in line.new ≡ appended (text_in line.old) (detail_text detail) }
    ensures short { length (detail_text detail) ≤ 13 }
{
    if let Some(register) = detail {
        line.push(b' ');
        line.hex(register.offset, 3);
        line.push(b' ');
        line.hex(register.held, 8);
    }
}

fn explanation_line(line: &mut [u8], explanation: Explanation) -> usize
    ensures { Types (explanation_line explanation) line.old result line.new }
{
    let mut text = Line::new(line);
    text.decimal(explanation.fault.number() as u64);
    text.field(explanation.place as u64);
    text.push(b' ');
    text.hex(explanation.word, 8);
    detail_text(&mut text, explanation.detail);
    text.push(b'\n');
    text.length
}

// The line of an answer to why a batch faulted; its length.
#[tactic(auto, unfolding(crate::specs::Lines::fault_line))]
pub fn fault_line(line: &mut [u8], answer: Result<Explanation, Refusal>) -> usize
    ensures { Types (fault_line answer) line.old result line.new }
{
    match answer {
        Err(refusal) => refused_line(line, refusal),
        Ok(explanation) => explanation_line(line, explanation),
    }
}
