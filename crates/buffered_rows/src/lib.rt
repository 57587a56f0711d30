// Tasks of any kind, by way of buffers: a row of the source's colours is fetched into one, and stored from there, blended or not.
#![tactic(auto)]

ghost use Rattle.std.specs.Prelude.{◌≡◌, ◌+◌, ◌*◌, ◌≤◌, length};
ghost use Rattle.surface.specs.Surface.{row_length};
ghost use Rattle.surface.specs.Drawn.{load_pixel};
ghost use Rattle.row_pixels.specs.Row.{colour_in, HoldsColours};
ghost use Rattle.row_pixels.specs.Composite.{composite};
ghost use Rattle.kinds.specs.Kinds.{finish_of};
ghost use Rattle.raster.specs.Task.{source_colour, draw_task};
ghost use Rattle.raster.specs.Preconditions.{Drawable};
ghost use Rattle.raster.specs.Row.{row_drawn, draw_row, SourceRowInBounds, RowFits, RowDrawable, HoldsRow};
ghost use Rattle.buffered_rows.specs.Row.{RowMixes, finished_colour, RowReadable, RowRead, RowBuffers};

use composite::mix_row;
use fetch_rows::gradients::fetch_gradient;
use fetch_rows::{fetch_row, fetch_transformed, fill_buffer};
use kinds::{Finish, finish_of};
use pixel::Format;
use plan::{Plan, plan_of};
use range::Range;
use raster::draw_rows;
use register::{Source, SourceMode, Task};
use scanline::{blend_row, blit_row};
use surface::Surface;
use unblended_rows::shaded_colour;

// Fetches the source colours of output row y, by source mode.
fn fetch_source(buffer: &mut [u8], width: usize, memory: &[u8], source: Source, y: usize)
    requires { SourceRowInBounds memory.now buffer.old source y width }
    ensures { HoldsColours buffer.new width (λ x. source_colour source memory.now x y) }
{
    match source.mode {
        SourceMode::Buffer => {
            fetch_transformed(buffer, width, memory, source.surface, source.transform, y)
        }
        SourceMode::Colour => fill_buffer(buffer, width, source.colour),
        SourceMode::GradientX => {
            let across = source.transform.flip.horizontal;
            let n = source.surface.width;
            fetch_gradient(buffer, width, source.colour, source.steps, across, n)
        }
        SourceMode::GradientY => fill_buffer(buffer, width, shaded_colour(source, y)),
    }
}

// Draws a row of the source's colours in the window, from byte `at` of it on.
// Kept (promise): docs/PROMISES.md names the functions that are lent the window's bytes alone, so window, place and surface go in by themselves (`blit_at`, `mix_at`).
fn blit_at(window: &mut [u8], at: usize, output: Surface, source: &[u8])
    requires { RowFits output at window.old source.now }
    ensures { window.new ≡ row_drawn output at (λ x. colour_in source.now x) window.old }
{
    let format = output.format;
    let end = at + output.row_length();
    blit_row(&mut window[at..end], output.width as usize, format, source);
}

// A task, with what is found out of it once: the plan of its rule, and how its rows become its output's.
#[derive(Clone, Copy)]
struct Planned {
    task: Task,
    plan: Plan,
    finish: Finish,
    ghost of_rule: { plan.rule ≡ task.blending.rule },
    ghost of_task: { finish ≡ finish_of task },
}

impl Planned {
    fn new(task: Task) -> Planned
        ensures { result.task ≡ task }
    {
        Planned {
            task,
            plan: plan_of(task.blending.rule),
            finish: finish_of(task),
        }
    }

    // Blends a row of the source's colours with the output's own, in the window from byte `at` on. What the buffer holds afterwards is free.
    fn mix_at(&self, window: &mut [u8], at: usize, source: &mut [u8])
        requires { RowMixes self.now.task at window.old source.old }
        ensures { window.new ≡ row_drawn self.now.task.output at (λ x. composite self.now.task.blending self.now.task.source.alpha self.now.task.destination.alpha (colour_in source.old x) (load_pixel Format.Argb8888 window.old (at + x * 4))) window.old }
    {
        let task = self.task;
        let output = task.output;
        let end = at + output.row_length();
        mix_row(
            &mut window[at..end],
            source,
            output.width as usize,
            task.blending,
            self.plan,
            task.source.alpha,
            task.destination.alpha,
        );
    }

    // Reads what row y of the task needs into the buffers: its source's colours, and where these are blended with those of a destination elsewhere, the row blended.
    fn read_row(&self, memory: &[u8], y: u16, source: &mut [u8], destination: &mut [u8])
        requires { RowReadable memory.now source.old self.now.task y × RowBuffers self.now.task source.old destination.old }
        ensures { RowRead self.now.finish self.now.task memory.now source.new destination.new y }
    {
        let task = self.task;
        let s = task.source;
        let width = task.output.width as usize;
        fetch_source(source, width, memory, s, y as usize);
        match self.finish {
            Finish::Copied | Finish::InPlace => (),
            Finish::Blended => {
                let d = task.destination;
                let surface = d.surface;
                let from = surface.row_start(y);
                fetch_row(destination, width, memory, from, surface.format);
                blend_row(
                    destination,
                    source,
                    width,
                    task.blending,
                    self.plan,
                    s.alpha,
                    d.alpha,
                )
            }
        }
    }

    // Draws what was read in the window, from byte `at` of it on.
    fn finish_at(&self, window: &mut [u8], at: usize, source: &mut [u8], destination: &[u8])
        requires { (at + row_length self.now.task.output ≤ length window.old) × RowBuffers self.now.task source.old destination.now }
        ensures { window.new ≡ row_drawn self.now.task.output at (λ x. finished_colour self.now.finish self.now.task source.old destination.now window.old at x) window.old }
    {
        match self.finish {
            Finish::Copied => blit_at(window, at, self.task.output, source),
            Finish::InPlace => self.mix_at(window, at, source),
            Finish::Blended => blit_at(window, at, self.task.output, destination),
        }
    }

    // Draws row y of the task. What it reads is read first; then the window alone is lent.
    fn buffered_row(
        &self,
        memory: &mut [u8],
        window: Range,
        y: u16,
        source: &mut [u8],
        destination: &mut [u8],
    )
        requires { RowDrawable window memory.old self.now.task y × RowBuffers self.now.task source.old destination.old }
        ensures { memory.new ≡ draw_row self.now.task y memory.old }
    {
        let start = window.start;
        let end = window.end;
        let at = self.task.output.row_start(y) - start;
        self.read_row(memory, y, source, destination);
        self.finish_at(&mut memory[start..end], at, source, destination);
    }
}

// Draws any task. The buffers hold a row while that is drawn. Rows are fetched at one place and finished at one place, so that both are compiled into the loop
// and no record is handed on in it.
pub fn draw_buffered(
    memory: &mut [u8],
    window: Range,
    task: Task,
    source: &mut [u8],
    destination: &mut [u8],
)
    requires { Drawable window (length memory.old) task × HoldsRow task.output.width source.old × HoldsRow task.output.width destination.old }
    ensures { memory.new ≡ draw_task task memory.old }
{
    let planned = Planned::new(task);
    draw_rows(memory, task, |m: &mut [u8], y| {
        planned.buffered_row(m, window, y, source, destination)
    });
}
