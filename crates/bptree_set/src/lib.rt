//! An ordered set over a B+ tree of its own.
#![tactic(auto)]

mod comparing;
pub mod set;
