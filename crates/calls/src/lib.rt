// What the engine's calls answer and leave on a record that is lent as bytes: definitions and laws, also of a server's loop over them. `writing` writes
// what is answered; the calls themselves are what `wenditsal` exports.
#![tactic(auto)]

pub mod writing;
