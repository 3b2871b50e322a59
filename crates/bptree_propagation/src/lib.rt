//! Propagates a change of a leaf up its path, and undoes each step if a later one fails.
#![tactic(auto)]

pub mod ascent;
pub mod node_changes;
