// A batch: walked once, each task judged and then drawn before the next is read, by the fast engine or by the slow one (02, request 13).
#![tactic(auto)]

ghost use Rattle.std.specs.Prelude.{◌≡◌, length};
ghost use Rattle.batch.specs.Batch.{decode_batch, verdict_of};
ghost use Rattle.batch.specs.Walk.{words_in};
ghost use Rattle.raster.specs.Task.{draw_task};
ghost use Rattle.raster.specs.Batch.{draw_batch};
ghost use Rattle.raster.specs.Preconditions.{Drawable, BoundsInMemory};

use batch::{BatchTasks, Verdict};
use range::Range;
use register::{Bank, Task};
use renderer::Renderer;
use ring::Reader;
use task_check::Bounds;

// Draws a task: row by row, or by the slow engine each pixel by itself.
fn draw_task(memory: &mut [u8], window: Range, task: Task, renderer: Renderer)
    requires { Drawable window (length memory.old) task }
    ensures { memory.new ≡ draw_task task memory.old }
{
    match renderer {
        Renderer::Slow => plain::draw_task(memory, task),
        Renderer::Fast => tasks::draw_task(memory, window, task),
    }
}

// Judges and draws a batch, read from a bank on. The tasks before a fault stand (02, request 5). Judging reads no memory, so that a task may be drawn
// before the next one is judged.
pub fn run_batch(
    memory: &mut [u8],
    batch: Reader,
    bounds: Bounds,
    bank: Bank,
    renderer: Renderer,
) -> Verdict
    requires { BoundsInMemory bounds (length memory.old) }
    ensures { (result ≡ verdict_of (decode_batch bounds bank (words_in batch.entry))) × (memory.new ≡ draw_batch bounds bank (words_in batch.entry) memory.old) }
{
    let mut tasks = BatchTasks::new(batch, bounds, bank);
    while let Some(task) = tasks.next() {
        draw_task(memory, bounds.window, task, renderer);
    }
    Verdict {
        tasks: tasks.count,
        fault: tasks.fault,
    }
}
