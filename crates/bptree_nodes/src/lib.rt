//! The leaves and the inner nodes of a B+ tree.
#![tactic(auto)]

pub mod inner_node;
pub mod leaf_node;
pub mod leaf_pairs;
mod moves;
