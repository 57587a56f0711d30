// Tasks that lay one colour over their output by SRC_OVER: what is needed of the colour is found once a task, and no buffer is used.
#![tactic(auto)]

pub mod colour;
pub mod solid;

ghost use Rattle.std.specs.Prelude.{◌≡◌, ◌+◌, ◌*◌, length};
ghost use Rattle.pixel.specs.Blending.{blended};
ghost use Rattle.pixel.specs.Rules.{blend_mode_factors};
ghost use Rattle.pixel.specs.declared.blend.BlendMode.TheVariants.{SrcOver};
ghost use Rattle.surface.specs.Drawn.{load_pixel};
ghost use Rattle.kinds.specs.Kinds.{kind_of};
ghost use Rattle.raster.specs.Task.{draw_task};
ghost use Rattle.raster.specs.Preconditions.{Drawable};
ghost use Rattle.raster.specs.Row.{row_drawn, draw_row, RowDrawable};
ghost use Rattle.solid_rows.specs.Row.{solid_colour, SolidFits};

use crate::colour::{Solid, solid_of};
use crate::solid::solid_row;
use kinds::Kind;
use pixel::Format;
use range::Range;
use raster::draw_rows;
use register::Task;
use row_pixels::blending_colour;
use surface::Surface;

// The colour that such a task lays over its output.
fn colour_of(task: Task) -> Solid
    ensures { result.colour ≡ solid_colour task }
{
    let s = task.source;
    solid_of(blending_colour(task.blending, s.alpha, s.colour))
}

// Lays a colour over a row in the window, from byte `at` of it on.
// Kept (promise): docs/PROMISES.md names the functions that are lent the window's bytes alone, so window, place and surface go in by themselves (`solid_at`).
fn solid_at(window: &mut [u8], at: usize, output: Surface, solid: Solid)
    requires { SolidFits output at window.old }
    ensures { window.new ≡ row_drawn output at (λ x. blended (blend_mode_factors SrcOver) solid.colour (load_pixel Format.Argb8888 window.old (at + x * 4))) window.old }
{
    let end = at + output.row_length();
    solid_row(&mut window[at..end], output.width as usize, solid);
}

// Draws row y of such a task.
fn covered_row(memory: &mut [u8], window: Range, task: Task, solid: Solid, y: u16)
    requires { RowDrawable window memory.old task y × (kind_of window task ≡ Kind.Solid) × (solid.colour ≡ solid_colour task) }
    ensures { memory.new ≡ draw_row task y memory.old }
{
    let start = window.start;
    let end = window.end;
    let output = task.output;
    let at = output.row_start(y) - start;
    solid_at(&mut memory[start..end], at, output, solid);
}

// Draws such a task. A function of its own, so that its loop has the registers to itself.
#[inline(never)]
pub fn draw_solid(memory: &mut [u8], window: Range, task: Task)
    requires { Drawable window (length memory.old) task × (kind_of window task ≡ Kind.Solid) }
    ensures { memory.new ≡ draw_task task memory.old }
{
    let solid = colour_of(task);
    draw_rows(
        memory,
        task,
        |m: &mut [u8], y| covered_row(m, window, task, solid, y),
    );
}
