//! Iteration over the pairs in the leaves of a store, from both ends, along the links between the
//! leaves.
#![tactic(auto)]

pub mod iterator;
pub mod part;
