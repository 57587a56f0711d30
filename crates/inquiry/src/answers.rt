// Both answers of a replay file that was read to its end, with their refusals.
ghost use Rattle.std.specs.Prelude.{◌≡◌, List, ℕ};
ghost use Rattle.records.specs.declared.Edition.TheVariants.{First};
ghost use Rattle.records.specs.Records.{records};
ghost use Rattle.provenance.specs.Answers.{touched_answer, fault_answer};
ghost use Rattle.inquiry.specs.Inquiry.{Stands};

use crate::{Inquiry, Question};
use provenance::{Explanation, Refusal, Touch};

// Who drew the byte last, at the end of the file.
pub fn who_touched(question: Question, inquiry: Inquiry) -> Result<Option<Touch>, Refusal>
    ensures { (seen held : List ℕ) → Stands question seen inquiry held → result ≡ touched_answer (records First seen) question.address }
{
    let finding = inquiry.finding;
    provenance::answer_touched(finding.records, question.address, finding.touched)
}

// Why the batch with the ticket faulted, at the end of the file.
pub fn why_faulted(question: Question, inquiry: Inquiry) -> Result<Explanation, Refusal>
    ensures { (seen held : List ℕ) → Stands question seen inquiry held → result ≡ fault_answer (records First seen) question.ticket }
{
    let finding = inquiry.finding;
    provenance::answer_fault(finding.records, finding.why)
}
