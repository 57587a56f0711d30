// Which of the two engines draws a task. They leave the same memory; the slow one is there to check the fast one by.
#![tactic(auto)]

#[derive(Clone, Copy, Debug, PartialEq, Eq)]
pub enum Renderer {
    // row by row
    Fast,
    // each output pixel by itself
    Slow,
}
