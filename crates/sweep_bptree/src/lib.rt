//! An ordered map and an ordered set in memory, stored in a B+ tree, with lists of commands and
//! lines of text over it.
#![tactic(auto)]

pub mod argument;
pub mod map;
pub mod script;
pub mod set;
pub mod tree;

pub use argument::count::Count;
pub use argument::group::{ExtractGroupSize, FromRef, GroupCount, Tuple2};
pub use argument::{Argument, RankArgument, SearchArgument};
pub use bptree_heads::head::HasHead;
pub use bptree_heads::headed::Headed;
pub use bptree_merge_iter::merge_iter;
pub use bptree_stores::node_stores::CloneStore;
pub use bptree_tree::{InsertError, ReplaceError, SelectError};
pub use map::BPlusTreeMap;
pub use set::BPlusTreeSet;
pub use tree::visit::{DescendError, DescendVisit, DescendVisitResult};
pub use tree::{BPlusTree, Cursor, Key, NodeStore, NodeStoreVec, Statistic};

/// The version of the library. README.md, CHANGELOG.md and the packages have it too.
pub const VERSION: &str = "0.10.4";
