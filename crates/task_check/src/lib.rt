// The faults of a batch, and the rules that a task must keep.
#![tactic(auto)]

pub mod fault;
pub mod task;

pub use fault::Fault;
pub use task::{Bounds, check_task};
