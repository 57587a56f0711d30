// The lines that a replay file prints, and what is answered of each of its records: definitions and laws. `acceptance` finds whether submit takes a record,
// `record_lines` prints the lines of one.
#![tactic(auto)]

pub mod acceptance;
pub mod record_lines;
