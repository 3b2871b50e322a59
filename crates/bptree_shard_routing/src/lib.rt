//! One ordered list over shards: which shard serves a call, and how the results of the shards make
//! the result of the whole.
#![tactic(auto)]

pub mod combining;
pub mod laws;
pub mod moves;
pub mod routing;
pub mod whole;
