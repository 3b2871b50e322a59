//! The invariant of a tree of nodes in a store, descents to a key and to both ends, and reads of
//! the leaf that a descent ends at.
#![tactic(auto)]

pub mod descent;
pub mod nodes;
pub mod reading;
