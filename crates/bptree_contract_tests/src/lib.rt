//! Proved callers of trees, maps, sets and visits.
#![tactic(auto)]

mod callers;
mod firsts;
