// Pixels: what the formats store, and how two colours are blended.
#![tactic(auto)]

pub mod blend;
pub mod colour;
pub mod format;
pub mod gradient;

pub use blend::{AlphaMode, BlendFactors, BlendMode, Factor};
pub use colour::Colour;
pub use format::{Argb8888, Format, Layout, Rgb565, Rgb888, StoredPixel};
