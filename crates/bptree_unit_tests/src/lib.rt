//! Tests and proved callers of the parts below the tree: heads, node ids, nodes, stores, summaries,
//! loading, merging, requests and shards.
#![tactic(auto)]

#[cfg(test)]
mod callers;
#[cfg(test)]
mod count_tests;
#[cfg(test)]
mod group_result_tests;
#[cfg(test)]
mod group_tests;
#[cfg(test)]
mod head_tests;
#[cfg(test)]
mod inner_tests;
#[cfg(test)]
mod leaf_tests;
#[cfg(test)]
mod loading_tests;
#[cfg(test)]
mod merge_tests;
#[cfg(test)]
mod number_tests;
#[cfg(test)]
mod samples;
#[cfg(test)]
mod search_tests;
#[cfg(test)]
mod shard_tests;
#[cfg(test)]
mod store_tests;
