// One pixel of a task: where its source pixel lies, and how two colours are mixed. What a row of pixels is stands in specs.
#![tactic(auto)]

pub mod colours;
pub mod source;

pub use colours::{blending_colour, composite};
pub use source::{
    identity_row_start, is_identity_row, is_reversed, origin, pixel_stride, source_point,
    strided_address,
};
