// An engine record as 272 bytes, for callers that are not Rattle: definitions and laws; `reading` and `writing` have the code. The layout is that of specs/Layout.
#![tactic(auto)]

pub mod reading;
pub mod writing;

// The words of a slot.
#[derive(Clone, Copy)]
pub struct Row {
    pub tag: u32,
    pub client: u32,
    pub ticket: u32,
    pub offset: u32,
    pub length: u32,
}
