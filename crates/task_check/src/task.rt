// The rules of a task. Each test is true where the task breaks the rule.
ghost use Rattle.std.specs.Prelude.{◌≡◌};
ghost use Rattle.task_check.specs.Rules.{bad_side, bad_sides, bad_stride, bad_source, bad_output, bad_destination, bad_surface, rotated_fill, rotated_source_size, size_mismatch, is_writable_span, is_readable, out_of_bounds, aliases, output_overlaps, check_task};
ghost use Rattle.register.specs.Size.{size_of};

use crate::fault::Fault;
use range::Range;
use register::{Destination, Source, Task};
use surface::Surface;
use surface::overlap::surfaces_overlap;
use transform::{Rotation, Size};

// What a batch may touch: it draws in its client's window, and may read that and common, the first part of memory.
#[derive(Clone, Copy)]
pub struct Bounds {
    pub window: Range,
    pub common_length: usize,
}

fn bad_side(side: u16) -> bool
    ensures { result ≡ bad_side side }
{
    (side == 0) | (4096 < side)
}

#[tactic(auto, unfolding(crate::specs::Rules::bad_sides))]
fn bad_sides(s: Surface) -> bool
    ensures { result ≡ bad_sides s }
{
    bad_side(s.width) | bad_side(s.height)
}

#[tactic(auto, unfolding(crate::specs::Rules::bad_stride))]
fn bad_stride(s: Surface) -> bool
    ensures { result ≡ bad_stride s }
{
    (0 < s.stride % 8) | ((s.stride as usize) < s.row_length())
}

#[tactic(auto, unfolding(crate::specs::Rules::bad_source))]
fn bad_source(s: Source) -> bool
    ensures { result ≡ bad_source s }
{
    bad_sides(s.surface) | (s.mode.is_buffer() & bad_stride(s.surface)) | !s.enabled
}

#[tactic(auto, unfolding(crate::specs::Rules::bad_output))]
fn bad_output(s: Surface) -> bool
    ensures { result ≡ bad_output s }
{
    bad_sides(s) | bad_stride(s)
}

#[tactic(auto, unfolding(crate::specs::Rules::bad_destination))]
fn bad_destination(d: Destination) -> bool
    ensures { result ≡ bad_destination d }
{
    bad_sides(d.surface) | bad_stride(d.surface) | !d.enabled
}

#[tactic(auto, unfolding(crate::specs::Rules::bad_surface))]
fn bad_surface(t: Task) -> bool
    ensures { result ≡ bad_surface t }
{
    bad_source(t.source) | bad_output(t.output) | (t.blending.on & bad_destination(t.destination))
}

// Only a picture in memory is turned.
fn rotated_fill(s: Source) -> bool
    ensures { result ≡ rotated_fill s }
{
    !s.mode.is_buffer() & (s.transform.rotation != Rotation::Rotate0)
}

fn size_of(s: Surface) -> Size
    ensures { result ≡ size_of s }
{
    Size {
        width: s.width as usize,
        height: s.height as usize,
    }
}

fn rotated_source_size(s: Source) -> Size
    ensures { result ≡ rotated_source_size s }
{
    size_of(s.surface).rotated(s.transform.rotation)
}

#[tactic(auto, unfolding(crate::specs::Rules::size_mismatch))]
fn size_mismatch(t: Task) -> bool
    ensures { result ≡ size_mismatch t }
{
    rotated_fill(t.source)
        | (size_of(t.output) != rotated_source_size(t.source))
        | (t.blending.on & (size_of(t.destination.surface) != size_of(t.output)))
}

fn is_writable_span(bounds: Bounds, s: Surface) -> bool
    ensures { result ≡ is_writable_span bounds s }
{
    s.is_inside(bounds.window)
}

fn is_readable(bounds: Bounds, s: Surface) -> bool
    ensures { result ≡ is_readable bounds s }
{
    is_writable_span(bounds, s)
        | s.is_inside(Range {
            start: 0,
            end: bounds.common_length,
        })
}

#[tactic(auto, unfolding(crate::specs::Rules::out_of_bounds))]
fn out_of_bounds(bounds: Bounds, t: Task) -> bool
    ensures { result ≡ out_of_bounds bounds t }
{
    (t.source.mode.is_buffer() & !is_readable(bounds, t.source.surface))
        | !is_writable_span(bounds, t.output)
        | (t.blending.on & !is_readable(bounds, t.destination.surface))
}

#[tactic(auto, unfolding(crate::specs::Rules::aliases))]
fn is_alias(a: Surface, b: Surface) -> bool
    ensures { result ≡ aliases a b }
{
    (a.address == b.address) & (a.stride == b.stride) & (a.format == b.format)
}

#[tactic(auto, unfolding(crate::specs::Rules::output_overlaps))]
fn overlaps(t: Task) -> bool
    ensures { result ≡ output_overlaps t }
{
    let d = t.destination.surface;
    (t.source.mode.is_buffer() & surfaces_overlap(t.source.surface, t.output))
        | (t.blending.on & surfaces_overlap(d, t.output) & !is_alias(d, t.output))
}

// The first rule, in the order of their numbers, that a task breaks.
#[tactic(auto, unfolding(crate::specs::Rules::check_task))]
pub fn check_task(bounds: Bounds, t: Task) -> Result<(), Fault>
    ensures { result ≡ check_task bounds t }
{
    if bad_surface(t) {
        return Err(Fault::BadSurface);
    }
    if size_mismatch(t) {
        return Err(Fault::SizeMismatch);
    }
    if out_of_bounds(bounds, t) {
        return Err(Fault::OutOfBounds);
    }
    if overlaps(t) {
        return Err(Fault::Overlap);
    }
    Ok(())
}
