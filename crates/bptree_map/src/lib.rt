//! An ordered map over a B+ tree of its own, and code that maps and sets share.
#![tactic(auto)]

mod comparing;
pub mod failures;
pub mod gathering;
pub mod map;
