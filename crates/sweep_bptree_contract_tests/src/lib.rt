//! Proved callers of lists of commands, of the line server and of one map over shards.
#![tactic(auto)]

mod callers;
mod paths;
mod sharded;
