//! The tree, its nodes, its stores and its iterators.

/// Iterators that keep the last item of each run of equal items. `BPlusTree::bulk_load` loads a
/// tree.
pub mod bulk_load {
    pub use bptree_load_plan::dedup::{DeDupKeepLast, DedupByExt};
}

pub use crate::argument::{Argument, RankArgument, SearchArgument};
pub use bptree_arguments::visit;
pub use bptree_keys::compares::{Compares, SearchHint};
pub use bptree_keys::key::Key;
pub use bptree_keys::node_id::{InnerNodeId, LeafNodeId, NodeId};
pub use bptree_load_plan::loading::in_load_order;
pub use bptree_nodes::inner_node::InnerNode;
pub use bptree_nodes::leaf_node::LeafNode;
pub use bptree_stores::node_store_vec::NodeStoreVec;
pub use bptree_stores::node_stores::{NodeStore, add_inner, inner_n, leaf_n, new_empty_leaf};
pub use bptree_tree::iterator::Iter;
pub use bptree_tree::tree::IntoIter;
pub use bptree_tree::{BPlusTree, Cursor, Statistic};
