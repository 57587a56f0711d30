// What kind the rows of a task are, and how rows that go by way of buffers become its output's. Both are decided once a task.
#![tactic(auto)]

pub mod predicates;

ghost use Rattle.std.specs.Prelude.{◌≡◌};
ghost use Rattle.kinds.specs.Kinds.{is_solid, is_blended_within, blended_kind, unblended_kind, kind_of, finish_of};

use crate::predicates::{
    is_colour, is_in_place, is_moved, is_pixel_alpha, is_src_over, is_uniform,
};
use range::Range;
use register::Task;

#[derive(Clone, Copy)]
pub enum Kind {
    // one colour a row, without blending
    Filled,
    // rows of the source as they are, inside the window
    Moved,
    // rows of the source as they are, by way of a buffer
    Carried,
    // one colour over the output, by SRC_OVER
    Solid,
    // the output's rows blended with rows of the source, inside the window
    Within,
    // any, by way of buffers
    Buffered,
}

// How a row of the source's colours in a buffer becomes the output's.
#[derive(Clone, Copy)]
pub enum Finish {
    // stored as it is
    Copied,
    // blended with the output's own row, where that lies
    InPlace,
    // blended with a row of the destination in a buffer, and stored from there
    Blended,
}

// Whether a task is SRC_OVER of one colour on its own output, with the output's own alphas.
#[tactic(auto, unfolding(crate::specs::Kinds::is_solid))]
fn is_solid(task: Task) -> bool
    ensures { result ≡ is_solid task }
{
    is_src_over(task.blending.rule)
        && is_colour(task.source)
        && is_pixel_alpha(task.destination.alpha)
        && is_in_place(task.destination.surface, task.output)
}

// Whether the output rows of a task are blended with rows of its source as both lie in the window.
#[tactic(auto, unfolding(crate::specs::Kinds::is_blended_within))]
fn is_blended_within(window: Range, task: Task) -> bool
    ensures { result ≡ is_blended_within window task }
{
    let destination = task.destination;
    is_moved(task.source, task.output)
        && task.source.surface.is_inside(window)
        && is_in_place(destination.surface, task.output)
        && !task.blending.premultiplied
        && is_pixel_alpha(task.source.alpha)
        && is_pixel_alpha(destination.alpha)
}

fn blended_kind(window: Range, task: Task) -> Kind
    ensures { result ≡ blended_kind window task }
{
    if is_solid(task) {
        Kind::Solid
    } else if is_blended_within(window, task) {
        Kind::Within
    } else {
        Kind::Buffered
    }
}

fn unblended_kind(window: Range, task: Task) -> Kind
    ensures { result ≡ unblended_kind window task }
{
    if is_moved(task.source, task.output) {
        if task.source.surface.is_inside(window) {
            Kind::Moved
        } else {
            Kind::Carried
        }
    } else if is_uniform(task.source) {
        Kind::Filled
    } else {
        Kind::Buffered
    }
}

// The kind of a task's rows.
#[tactic(auto, unfolding(crate::specs::Kinds::kind_of))]
pub fn kind_of(window: Range, task: Task) -> Kind
    ensures { result ≡ kind_of window task }
{
    if task.blending.on {
        blended_kind(window, task)
    } else {
        unblended_kind(window, task)
    }
}

// How the rows of a task become its output's, where they go by way of buffers.
#[tactic(auto, unfolding(crate::specs::Kinds::finish_of))]
pub fn finish_of(task: Task) -> Finish
    ensures { result ≡ finish_of task }
{
    if !task.blending.on {
        Finish::Copied
    } else if is_in_place(task.destination.surface, task.output) {
        Finish::InPlace
    } else {
        Finish::Blended
    }
}
