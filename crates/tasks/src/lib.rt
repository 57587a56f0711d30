// A task drawn a row at a time in the client's window, out of the memory before it. What kind its rows are is decided once.
#![tactic(auto)]

ghost use Rattle.std.specs.Prelude.{◌≡◌, ◌*◌, ◌≤◌, length};
ghost use Rattle.kinds.specs.Kinds.{kind_of};
ghost use Rattle.raster.specs.Task.{draw_task};
ghost use Rattle.raster.specs.Preconditions.{Drawable};

use buffered_rows::draw_buffered;
use kinds::{Kind, kind_of};
use range::Range;
use register::Task;
use solid_rows::draw_solid;
use unblended_rows::{draw_carried, draw_filled, draw_moved};
use within_rows::draw_within;

// Draws a task by way of two buffers of N bytes: large ones take longer to clear than most small tasks to draw.
fn buffered<const N: usize>(memory: &mut [u8], window: Range, task: Task)
    requires { Drawable window (length memory.old) task × (task.output.width * 4 ≤ N) × (N ≤ 16384) }
    ensures { memory.new ≡ draw_task task memory.old }
{
    let mut source = [0u8; N];
    let mut destination = [0u8; N];
    draw_buffered(memory, window, task, &mut source, &mut destination);
}

// The same for rows that one buffer carries.
fn carried<const N: usize>(memory: &mut [u8], window: Range, task: Task)
    requires { Drawable window (length memory.old) task × (task.output.width * 4 ≤ N) × (N ≤ 16384) × (kind_of window task ≡ Kind.Carried) }
    ensures { memory.new ≡ draw_task task memory.old }
{
    let mut source = [0u8; N];
    draw_carried(memory, window, task, &mut source);
}

// Draws a task in the window. A row of 256 pixels has 1,024 bytes in a buffer, one of 4,096 pixels, the widest, 16,384.
// Kept (no plainer): memory, window and task in one struct would hold a `&mut` that is lent on at each row; without memory it could not say `Drawable`.
pub fn draw_task(memory: &mut [u8], window: Range, task: Task)
    requires { Drawable window (length memory.old) task }
    ensures { memory.new ≡ draw_task task memory.old }
{
    let narrow = task.output.width <= 256;
    match kind_of(window, task) {
        Kind::Filled => draw_filled(memory, window, task),
        Kind::Moved => draw_moved(memory, window, task),
        Kind::Carried if narrow => carried::<1024>(memory, window, task),
        Kind::Carried => carried::<16384>(memory, window, task),
        Kind::Solid => draw_solid(memory, window, task),
        Kind::Within => draw_within(memory, window, task),
        Kind::Buffered if narrow => buffered::<1024>(memory, window, task),
        Kind::Buffered => buffered::<16384>(memory, window, task),
    }
}
