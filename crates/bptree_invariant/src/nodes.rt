//! The nodes of one tree, with the store that holds them.
use bptree_keys::node_id::NodeId;
use bptree_stores::node_stores::NodeStore;
use std::marker::Model;

/// The nodes of one tree: those in the store, and no others.
///
/// Each value of this type is a valid tree, so no call that takes one requires that.
#[derive(Drop)]
pub struct Nodes<S: NodeStore> {
    /// The store that holds the nodes.
    pub store: S,
    /// The node id of the root.
    pub root: NodeId,
    /// The number of levels of inner nodes.
    pub height: usize,
    /// The number of pairs.
    pub len: usize,
    /// A summary of all keys.
    pub summary: S::Argument,
}

impl<S: NodeStore> Model for Nodes<S> {
    ghost use Rattle.std.specs.Prelude.{◌≡◌, length};
    ghost use Rattle.std.specs.Map.{keys_of};
    ghost use Rattle.bptree_invariant.specs.NodeTree.{NodeTree};
    ghost use Rattle.bptree_invariant.specs.Shape.{pairs_at, IsWellShaped};

    ghost Value = { NodeTree S S.K S.V S.Argument };

    ghost view = { λ tree. record { contents = pairs_at (S.slots tree.store) tree.height tree.root; store = tree.store; root = tree.root; height = tree.height; root_argument = tree.summary } };

    ghost invariant = { λ tree. IsWellShaped S.K.cmp S.Argument.is_summary (S.slots tree.store) tree.height tree.root
        × (tree.len ≡ length (pairs_at (S.slots tree.store) tree.height tree.root))
        × S.Argument.is_summary tree.summary (keys_of (pairs_at (S.slots tree.store) tree.height tree.root)) };
}
