// What a batch says, whole and a task at a time: the types. `decode` reads one.
#![tactic(auto)]

pub mod decode;
pub mod verdict;
pub mod walk;

pub use verdict::{FaultAt, Validation, Verdict};
pub use walk::{BatchTasks, Stop, TaskRead};
