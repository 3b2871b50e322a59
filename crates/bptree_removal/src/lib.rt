//! Removal from a tree of nodes in a store.
#![tactic(auto)]

pub mod ends;
pub mod removal;
pub mod replacement;
