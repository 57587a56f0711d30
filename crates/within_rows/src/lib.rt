// Tasks whose rows are blended inside the window: the output is its own destination, and the source's rows lie in the window as they are blended. Neither
// row is fetched into a buffer.
#![tactic(auto)]

pub mod blend;
pub mod bytes;

ghost use Rattle.std.specs.Prelude.{◌≡◌, length};
ghost use Rattle.kinds.specs.Kinds.{kind_of};
ghost use Rattle.raster.specs.Task.{draw_task};
ghost use Rattle.raster.specs.Preconditions.{Drawable};
ghost use Rattle.raster.specs.Row.{draw_row, RowDrawable};

use crate::blend::blend_within;
use kinds::Kind;
use plan::{Plan, plan_of};
use range::Range;
use raster::draw_rows;
use register::Task;
use row_pixels::identity_row_start;

// Draws row y of such a task. No output row meets a row of the source.
fn within_row(memory: &mut [u8], window: Range, task: Task, plan: Plan, y: u16)
    requires { RowDrawable window memory.old task y × (kind_of window task ≡ Kind.Within) × (plan.rule ≡ task.blending.rule) }
    ensures { memory.new ≡ draw_row task y memory.old }
{
    let start = window.start;
    let end = window.end;
    let output = task.output;
    let s = task.source;
    let from = identity_row_start(s.surface, s.transform, y) - start;
    let to = output.row_start(y) - start;
    let n = output.row_length();
    blend_within(&mut memory[start..end], to, from, n, plan);
}

// Draws such a task.
pub fn draw_within(memory: &mut [u8], window: Range, task: Task)
    requires { Drawable window (length memory.old) task × (kind_of window task ≡ Kind.Within) }
    ensures { memory.new ≡ draw_task task memory.old }
{
    let blending = task.blending;
    let plan = plan_of(blending.rule);
    draw_rows(
        memory,
        task,
        move |m: &mut [u8], y| within_row(m, window, task, plan, y),
    );
}
