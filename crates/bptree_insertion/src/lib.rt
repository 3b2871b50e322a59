//! Insertion into a tree of nodes in a store.
#![tactic(auto)]

pub mod insertion;
