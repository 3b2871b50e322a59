//! Keys and node ids of a B+ tree, searches of a node's keys, and the contents of a tree as a list
//! of pairs.
#![tactic(auto)]

pub mod compares;
pub mod contents;
pub mod end;
pub mod entry_ref;
pub mod key;
pub mod node_id;
pub mod pieces;
