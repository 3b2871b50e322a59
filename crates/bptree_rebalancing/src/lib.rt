//! Rebalances nodes that underflow: siblings rotate or merge, and each step can be undone.
#![tactic(auto)]

pub mod rotate_merge;
pub mod siblings;
pub mod statistics;
pub mod underflow;
