// Who drew a byte last, and why a batch faulted, of the records of a replay file. The file is handed over in pieces and read in
// constant memory: no engine is run, and nothing of it is kept but the answers so far.
#![tactic(auto)]

pub mod answers;

ghost use Rattle.std.specs.Prelude.{◌≡◌, cond, List, [], ◌++◌, ℕ, ◌≤◌, length, eqb};
ghost use Rattle.records.specs.declared.Edition.TheVariants.{First};
ghost use Rattle.ring.specs.Segment.{batch_words};
ghost use Rattle.lines.specs.Lines.{file_reset};
ghost use Rattle.batch.specs.Batch.{decode_batch};
ghost use Rattle.records.specs.Reading.{Lies};
ghost use Rattle.provenance.specs.Faulted.{explained};
ghost use Rattle.inquiry.specs.declared.Question.{Question};
ghost use Rattle.inquiry.specs.Inquiry.{finding_next, finding_on, Stands, InquiryFeedContract};

use provenance::{Explanation, Touch};
use records::{Edition, Found, Reader};
use task_check::Bounds;

// What is asked: who drew the byte at this address, and why the batch with this ticket faulted.
#[derive(Clone, Copy, PartialEq, Eq)]
pub struct Question {
    pub address: usize,
    pub ticket: u32,
}

// What the records so far say: how many they are, how many of them were accepted, and both answers.
#[derive(Clone, Copy)]
pub struct Finding {
    pub records: u32,
    pub accepted: u32,
    pub touched: Option<Touch>,
    pub why: Option<Explanation>,
}

// A file that is being read for the answers.
#[derive(Clone, Copy)]
pub struct Inquiry {
    pub reader: Reader,
    pub finding: Finding,
}

// An inquiry after some input, and how many bytes of it were used.
#[derive(Clone, Copy)]
pub struct FeedResult {
    pub inquiry: Inquiry,
    pub used: usize,
}

// ---- a record

// Why the batch with the asked ticket faulted, if this is it.
fn after_why(
    asked: u32,
    ticket: u32,
    batch: &[u8],
    bounds: Bounds,
    why: Option<Explanation>,
) -> Option<Explanation>
    ensures { result ≡ cond (eqb ticket asked) (explained (batch_words batch.now 0 (length batch.now)) (decode_batch bounds (file_reset First) (batch_words batch.now 0 (length batch.now)))) why }
{
    if ticket == asked {
        provenance::explain::explain(ring::Reader::new(batch, 0, batch.len()), bounds)
    } else {
        why
    }
}

// The finding after one more record. Over 1,024 of them nothing is looked at: both questions are refused.
fn after_record(question: Question, finding: Finding, client: u32, batch: &[u8]) -> Finding
    ensures { result ≡ finding_next question finding (record { client = client; batch = batch.now }) }
{
    if (1024 < finding.records) | (1024 < finding.accepted) {
        return finding;
    }
    let records = finding.records + 1;
    let ticket = finding.accepted;
    match lines::acceptance::accept(client, batch) {
        None => Finding { records, ..finding },
        Some(bounds) => {
            let whole = ring::Reader::new(batch, 0, batch.len());
            let last = provenance::last_touch::after_batch(
                whole,
                bounds,
                ticket,
                question.address,
                finding.touched,
            );
            let reason = after_why(question.ticket, ticket, batch, bounds, finding.why);
            Finding {
                records,
                accepted: ticket + 1,
                touched: last,
                why: reason,
            }
        }
    }
}

// The finding after what a step of the reading found in `held`.
fn after_found(question: Question, finding: Finding, found: Found, held: &[u8]) -> Finding
    requires { Lies First found (length held.now) }
    ensures { result ≡ finding_on question finding found held.now }
{
    match found {
        Found::Record(end) => after_record(question, finding, held[4] as u32, &held[5..end]),
        Found::Nothing | Found::BadVersion | Found::BadRecord => finding,
    }
}

// ---- the file

// Before the version byte.
pub fn start() -> Inquiry
    ensures { (question : Question) (held : List ℕ) → 32773 ≤ length held → Stands question [] result held }
{
    Inquiry {
        reader: records::start(),
        finding: Finding {
            records: 0,
            accepted: 0,
            touched: None,
            why: None,
        },
    }
}

// Takes some bytes of the input, at most those of one record. `held` is to be 32,773 bytes long.
pub fn feed(question: Question, inquiry: Inquiry, held: &mut [u8], input: &[u8]) -> FeedResult
    ensures { (result.used ≤ length input.now)
        × ((seen : List ℕ) → Stands question seen inquiry held.old → InquiryFeedContract question seen input.now result held.new) }
{
    let taken = records::take(Edition::First, inquiry.reader, held, input);
    FeedResult {
        inquiry: Inquiry {
            reader: taken.reader,
            finding: after_found(question, inquiry.finding, taken.found, held),
        },
        used: taken.used,
    }
}

// Takes a piece of the file, whole.
// Kept (no plainer): a turn takes as many bytes as it used, so neither a range nor chunks of one size fit.
pub fn feed_piece(question: Question, inquiry: Inquiry, held: &mut [u8], piece: &[u8]) -> Inquiry
    ensures { (seen : List ℕ) → Stands question seen inquiry held.old → Stands question (seen ++ piece.now) result held.new }
{
    let mut current = inquiry;
    let mut used = 0;
    while used < piece.len() {
        let fed = feed(question, current, held, &piece[used..]);
        current = fed.inquiry;
        used += fed.used;
        // It happens only where `held` is too short.
        if fed.used == 0 {
            return current;
        }
    }
    current
}
