//! Proved callers. What each of them ensures follows from the contracts of the functions that it
//! calls.

mod arguments;
mod contents;
mod counts;
pub mod dedup;
mod group_results;
mod groups;
mod inner;
mod leaf;
mod loading;
mod merging;
mod numbers;
mod pairs;
mod paths;
mod requests;
mod searches;
mod shards;
pub mod stores;
