//! Ranges of the pairs of a tree: their ends, their lengths and their summaries.
#![tactic(auto)]

pub mod bounds;
pub mod counting;
pub mod groups;
mod indexes;
pub mod ranges;
pub mod summaries;
