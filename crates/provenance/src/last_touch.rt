// Who drew a byte: the tasks of a batch, one after another.
ghost use Rattle.std.specs.Prelude.{◌≡◌, cond, Some};
ghost use Rattle.records.specs.declared.Edition.TheVariants.{First};
ghost use Rattle.lines.specs.Lines.{file_reset};
ghost use Rattle.batch.specs.Batch.{decode_batch, tasks_drawn};
ghost use Rattle.batch.specs.Walk.{words_in};
ghost use Rattle.provenance.specs.Drawn.{numbered};
ghost use Rattle.provenance.specs.Touched.{holds, touch_of, last_from};

use crate::Touch;
use batch::BatchTasks;
use register::{Bank, Task};
use reset::ResetRule;
use ring::Reader;
use surface::Surface;
use task_check::Bounds;

// Whether a row of the surface holds a byte.
fn holds_byte(s: Surface, i: usize) -> bool
    ensures { result ≡ holds s i }
{
    let start = s.address as usize;
    let stride = s.stride as usize;
    if (stride == 0) | (i < start) {
        return false;
    }
    let from = i - start;
    (from / stride < (s.height as usize)) & (from % stride < s.row_length())
}

// The answer after one more task.
fn after_task(
    found: Option<Touch>,
    i: usize,
    ticket: u32,
    number: usize,
    task: Task,
) -> Option<Touch>
    ensures { result ≡ cond (holds task.output i) (Some (touch_of (record { ticket = ticket; number = number; task = task }))) found }
{
    if holds_byte(task.output, i) {
        Some(Touch {
            ticket,
            number,
            mode: task.source.mode,
        })
    } else {
        found
    }
}

// The answer after a batch, which has this ticket.
#[tactic(auto, using(crate::proofs::last_touch::Batch::one_given, crate::proofs::last_touch::Batch::none_given))]
pub fn after_batch(
    batch: Reader,
    bounds: Bounds,
    ticket: u32,
    i: usize,
    found: Option<Touch>,
) -> Option<Touch>
    ensures { result ≡ last_from found i (numbered ticket 0 (tasks_drawn (decode_batch bounds (file_reset First) (words_in batch.entry)))) }
{
    let mut tasks = BatchTasks::new(batch, bounds, Bank::reset(ResetRule::Unblended));
    let mut number: usize = 0;
    let mut last = found;
    // the tasks before a fault are drawn
    while let Some(task) = tasks.next() {
        last = after_task(last, i, ticket, number, task);
        number = tasks.count;
    }
    last
}
