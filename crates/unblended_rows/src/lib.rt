// Tasks without blending whose rows need no buffer, or only one to carry bytes: filled with one colour a row, or moved as they are.
#![tactic(auto)]

pub mod row_copy;

ghost use Rattle.std.specs.Prelude.{◌≡◌, ◌+◌, ◌*◌, ◌≤◌, ◌<◌, length};
ghost use Rattle.pixel.specs.Formats.{bytes_per_pixel};
ghost use Rattle.surface.specs.Surface.{row_length};
ghost use Rattle.surface.specs.Drawn.{load_pixel};
ghost use Rattle.kinds.specs.Kinds.{kind_of};
ghost use Rattle.raster.specs.Task.{draw_task};
ghost use Rattle.raster.specs.Preconditions.{Drawable};
ghost use Rattle.raster.specs.Row.{row_drawn, draw_row, uniform_colour, RowFits, RowDrawable, HoldsRow};

use crate::row_copy::fetch_bytes;
use kinds::Kind;
use lanes::bytes::{copy, copy_within};
use pixel::Colour;
use pixel::gradient::colour_at;
use range::Range;
use raster::draw_rows;
use register::{Source, SourceMode, Task};
use row_pixels::identity_row_start;
use scanline::fill_row;
use surface::Surface;
use transform::mirror;

// The colour of output row y, where that changes along y and the source is not turned.
pub fn shaded_colour(source: Source, y: usize) -> Colour
    requires { y < source.surface.height }
    ensures { result ≡ uniform_colour SourceMode.GradientY source y }
{
    let transform = source.transform;
    let surface = source.surface;
    let i = mirror(transform.flip.vertical, surface.height as usize, y);
    colour_at(source.colour, source.steps, i as u16)
}

// The colour of output row y, where it has one and the source is not turned.
fn uniform_colour(source: Source, y: usize) -> Colour
    requires { y < source.surface.height }
    ensures { result ≡ uniform_colour source.mode source y }
{
    match source.mode {
        SourceMode::Buffer | SourceMode::Colour | SourceMode::GradientX => source.colour,
        SourceMode::GradientY => shaded_colour(source, y),
    }
}

// Draws a row of one colour in the window, from byte `at` of it on.
// Kept (promise): docs/PROMISES.md names the functions that are lent the window's bytes alone, so window, place and surface go in by themselves (`fill_at`, `store_at`).
fn fill_at(window: &mut [u8], at: usize, output: Surface, c: Colour)
    requires { at + row_length output ≤ length window.old }
    ensures { window.new ≡ row_drawn output at (λ x. c) window.old }
{
    let format = output.format;
    let end = at + output.row_length();
    fill_row(&mut window[at..end], output.width as usize, format, c);
}

// Draws row y of a task, where the row has one colour.
fn filled_row(memory: &mut [u8], window: Range, task: Task, y: u16)
    requires { RowDrawable window memory.old task y × (kind_of window task ≡ Kind.Filled) }
    ensures { memory.new ≡ draw_row task y memory.old }
{
    let start = window.start;
    let end = window.end;
    let output = task.output;
    let s = task.source;
    let at = output.row_start(y) - start;
    let c = uniform_colour(s, y as usize);
    fill_at(&mut memory[start..end], at, output, c);
}

// Draws row y of a task whose source lies in the window: the source row as it is, which no output row meets.
fn moved_row(memory: &mut [u8], window: Range, task: Task, y: u16)
    requires { RowDrawable window memory.old task y × (kind_of window task ≡ Kind.Moved) }
    ensures { memory.new ≡ draw_row task y memory.old }
{
    let start = window.start;
    let end = window.end;
    let output = task.output;
    let s = task.source;
    let from = identity_row_start(s.surface, s.transform, y) - start;
    let to = output.row_start(y) - start;
    let n = output.row_length();
    copy_within(&mut memory[start..end], to, from, n);
}

// Draws a row of pixels in the output's own bytes in the window, from byte `at` of it on.
fn store_at(window: &mut [u8], at: usize, output: Surface, source: &[u8])
    requires { RowFits output at window.old source.now }
    ensures { window.new ≡ row_drawn output at (λ x. load_pixel output.format source.now (x * bytes_per_pixel output.format)) window.old }
{
    let end = at + output.row_length();
    copy(&mut window[at..end], source);
}

// Draws row y of a task: the source row as it is, fetched before the window is lent.
fn carried_row(memory: &mut [u8], window: Range, task: Task, y: u16, source: &mut [u8])
    requires { RowDrawable window memory.old task y × HoldsRow task.output.width source.old × (kind_of window task ≡ Kind.Carried) }
    ensures { memory.new ≡ draw_row task y memory.old }
{
    let start = window.start;
    let end = window.end;
    let output = task.output;
    let s = task.source;
    let width = output.width as usize;
    let at = output.row_start(y) - start;
    fetch_bytes(source, width, memory, s.surface, s.transform, y as usize);
    store_at(&mut memory[start..end], at, output, source);
}

// Draws a task whose rows have one colour each.
pub fn draw_filled(memory: &mut [u8], window: Range, task: Task)
    requires { Drawable window (length memory.old) task × (kind_of window task ≡ Kind.Filled) }
    ensures { memory.new ≡ draw_task task memory.old }
{
    draw_rows(
        memory,
        task,
        |m: &mut [u8], y| filled_row(m, window, task, y),
    );
}

// Draws a task whose rows are rows of its source, in the window.
pub fn draw_moved(memory: &mut [u8], window: Range, task: Task)
    requires { Drawable window (length memory.old) task × (kind_of window task ≡ Kind.Moved) }
    ensures { memory.new ≡ draw_task task memory.old }
{
    draw_rows(
        memory,
        task,
        |m: &mut [u8], y| moved_row(m, window, task, y),
    );
}

// Draws a task whose rows are rows of its source, wherever that lies. The buffer holds a row while that is drawn.
pub fn draw_carried(memory: &mut [u8], window: Range, task: Task, source: &mut [u8])
    requires { Drawable window (length memory.old) task × HoldsRow task.output.width source.old × (kind_of window task ≡ Kind.Carried) }
    ensures { memory.new ≡ draw_task task memory.old }
{
    draw_rows(
        memory,
        task,
        |m: &mut [u8], y| carried_row(m, window, task, y, source),
    );
}
