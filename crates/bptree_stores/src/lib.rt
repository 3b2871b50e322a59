//! The trait of stores, which contain the nodes of a tree, and a store over slabs.
#![tactic(auto)]

mod id_state;
mod inline_node;
pub mod node_store_vec;
pub mod node_stores;
mod vacant_box;
