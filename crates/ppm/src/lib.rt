// A rectangle of memory as a picture (PPM): the words that name it, its header and its rows.
#![tactic(auto)]

pub mod picture;
pub mod rectangle;
pub mod words;

pub use picture::{header, row};
pub use rectangle::{pixel_of, rectangle_of};
pub use words::{format_named, number_of};
