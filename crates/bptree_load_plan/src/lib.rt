//! Pairs in the order of their keys: the last pair of each run of equal keys, and the number of
//! pairs that each node gets.
#![tactic(auto)]

pub mod cuts;
pub mod dedup;
pub mod loading;
