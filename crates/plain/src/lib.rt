// The slow engine (02, request 13): each output pixel worked out by itself, in plain order, from the memory before the task. What
// is drawn of a task changes nothing that a later pixel of it reads, so that it may be drawn in place.
#![tactic(auto)]

ghost use Rattle.std.specs.Prelude.{◌≡◌, length};
ghost use Rattle.transform.specs.Transform.{InPicture, rotated_size};
ghost use Rattle.surface.specs.Surface.{pixel_start};
ghost use Rattle.surface.specs.Drawn.{store_pixel};
ghost use Rattle.register.specs.Size.{size_of};
ghost use Rattle.raster.specs.Task.{source_colour, destination_colour, pixel_colour, draw_task};
ghost use Rattle.raster.specs.Row.{draw_row};
ghost use Rattle.plain.specs.Pixel.{SourcePixel, DestinationPixel, Pixel, Row, Whole};

use pixel::Colour;
use pixel::gradient::colour_at;
use raster::draw_rows;
use register::{Destination, Source, SourceMode, Task};
use row_pixels::{composite, origin, source_point};
use surface::{Surface, load, store};

// The source colour of output pixel (x, y), by source mode.
fn source_colour(memory: &[u8], source: Source, x: usize, y: usize) -> Colour
    requires { SourcePixel memory.now source x y }
    ensures { result ≡ source_colour source memory.now x y }
{
    match source.mode {
        SourceMode::Buffer => {
            let surface = source.surface;
            let at = origin(surface, source.transform, x, y);
            load(memory, at, surface.format)
        }
        SourceMode::Colour => source.colour,
        SourceMode::GradientX => {
            let p = source_point(source.surface, source.transform, x, y);
            colour_at(source.colour, source.steps, p.x as u16)
        }
        SourceMode::GradientY => {
            let p = source_point(source.surface, source.transform, x, y);
            colour_at(source.colour, source.steps, p.y as u16)
        }
    }
}

// The destination colour of output pixel (x, y).
fn destination_colour(memory: &[u8], destination: Destination, x: u16, y: u16) -> Colour
    requires { DestinationPixel memory.now destination x y }
    ensures { result ≡ destination_colour destination memory.now x y }
{
    let surface = destination.surface;
    load(memory, surface.pixel_start(x, y), surface.format)
}

// The colour of output pixel (x, y).
#[tactic(auto, using(raster::proofs::Pixel::pixel_plain))]
fn pixel_colour(memory: &[u8], task: Task, x: u16, y: u16) -> Colour
    requires { Pixel memory.now task x y }
    ensures { result ≡ pixel_colour task memory.now x y }
{
    let source = task.source;
    let destination = task.destination;
    let s = source_colour(memory, source, x as usize, y as usize);
    if task.blending.on {
        let d = destination_colour(memory, destination, x, y);
        return composite(task.blending, source.alpha, destination.alpha, s, d);
    }
    s
}

// Draws output pixel (x, y).
fn draw_pixel(memory: &mut [u8], task: Task, x: u16, y: u16)
    requires { Pixel memory.old task x y }
    ensures { memory.new ≡ store_pixel task.output.format memory.old (pixel_start task.output x y) (pixel_colour task memory.old x y) }
{
    let output = task.output;
    let c = pixel_colour(memory, task, x, y);
    store(memory, output.pixel_start(x, y), output.format, c);
}

// Draws row y, pixel by pixel.
fn draw_row(memory: &mut [u8], task: Task, y: u16)
    requires { Row memory.old task y }
    ensures { memory.new ≡ draw_row task y memory.old }
{
    for x in 0..task.output.width {
        draw_pixel(memory, task, x, y);
    }
}

// Draws a task, row by row.
pub fn draw_task(memory: &mut [u8], task: Task)
    requires { Whole memory.old task }
    ensures { memory.new ≡ draw_task task memory.old }
{
    draw_rows(memory, task, |m: &mut [u8], y| draw_row(m, task, y));
}
