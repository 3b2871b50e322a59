//! One ordered map over shards, as one ascending list.
#![tactic(auto)]

pub mod map_shard;
pub mod shard;
pub mod whole;
