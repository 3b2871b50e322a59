//! An ordered map in memory: one strictly ascending list of pairs, stored as a B+ tree over a store
//! of nodes.
#![tactic(auto)]

mod building;
mod chain;
pub mod cursor;
mod keeping;
pub mod tree;
mod weaving;

pub use bptree_iter::iterator;
pub use bptree_rebalancing::statistics::Statistic;
pub use cursor::Cursor;
pub use tree::BPlusTree;

/// Why a pair was not stored. The error returns key and value.
#[derive(Debug, Drop)]
pub enum InsertError<K, V> {
    /// An allocation failed.
    OutOfMemory(K, V),
    /// The tree has `usize::MAX` pairs, and no key equals this one.
    Full(K, V),
}

/// Why no key was replaced. The error returns the key that was to be stored.
#[derive(Debug, Drop)]
pub enum ReplaceError<K> {
    /// No key equals that key.
    Absent(K),
    /// A key equals that key, and an allocation failed.
    OutOfMemory(K),
}

/// Why the pairs of one tree did not move to another. Neither has changed.
#[derive(Clone, Copy, Debug, PartialEq, Drop)]
pub enum AppendError {
    /// An allocation failed.
    OutOfMemory,
    /// Both together have more than `usize::MAX` pairs.
    Full,
}

/// Why no value was borrowed.
#[derive(Debug, PartialEq, Drop)]
pub enum SelectError {
    /// No index is allowed for the query.
    NotFound,
    /// An allocation failed.
    OutOfMemory,
}
