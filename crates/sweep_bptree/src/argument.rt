//! Summaries of keys, and the queries and ranks that are computed from them.

pub use bptree_arguments::argument::{Argument, CloneArgument, RankArgument, SearchArgument};

/// The number of keys as a summary: selects by an index, and ranks.
pub mod count {
    pub use bptree_arguments::count::Count;
}

/// Groups of keys as a summary: selects and ranks in a group.
pub mod group {
    pub use bptree_arguments::group::{FromRef, GroupCount, Tuple2};
    pub use bptree_arguments::group_size::ExtractGroupSize;
}
