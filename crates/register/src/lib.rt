// The register bank of a batch: which words it takes, and the task that it describes.
#![tactic(auto)]

pub mod bank;
pub mod table;
pub mod task;

pub use bank::{Bank, SurfaceRegisters, WriteFault};
pub use table::RegisterKind;
pub use task::{Alpha, Blending, Destination, Source, SourceMode, Task};
