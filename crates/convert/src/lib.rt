// Rows of pixels of two or three bytes, as rows of ARGB8888 bytes and back.
#![tactic(auto)]

pub mod rgb565;
pub mod rgb888;
