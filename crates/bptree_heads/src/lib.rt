//! Keys that carry their first bytes as a number, so that most comparisons read no other memory.
#![tactic(auto)]

pub mod head;
pub mod headed;
