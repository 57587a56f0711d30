// Text in a lent buffer: numbers as digits, and texts one after another.
#![tactic(auto)]

pub mod line;
pub mod numerals;
