//! The leaves of a tree, by their ids.
ghost use Rattle.std.specs.Prelude.{◌≡◌, ◌+◌, ◌≤◌, ◌++◌, ℕ, length, map, vec_capacity, vec_len, IfOk};
ghost use Rattle.std.specs.List.{AllByRecursion};
ghost use Rattle.bptree_bulk_load.specs.Rooms.{id_count, pairs_under, parts_of, IsPresentAt, KeepsLeaves};
ghost use Rattle.bptree_invariant.specs.Shape.{leaves_at};

use bptree_invariant::nodes::Nodes;
use bptree_keys::node_id::LeafNodeId;
use bptree_nodes::leaf_node::LeafNode;
use bptree_stores::node_stores::NodeStore;
use std::alloc::AllocError;

/// Returns the ids of the leaves of a tree, in the order of their keys.
///
/// O(n / 32) for n pairs. It allocates the room for the ids, once if leaves have 32 pairs or more on
/// average. It fails if an allocation fails.
pub fn leaf_ids<S: NodeStore>(tree: &Nodes<S>) -> Result<Vec<LeafNodeId>, AllocError>
    ensures { IfOk result (λ ids. ids.items ≡ leaves_at (S.slots tree.now.store) tree.now.height tree.now.root) }
{
    tree.recall();
    let mut ids = Vec::with_capacity(tree.store.allocator(), tree.len() / 32 + 1)?;
    let mut at = Some(tree.first_leaf());
    'leaves: while let Some(id) = at {
        ids.push(id)?;
        at = tree.store.get_leaf(id).next();
    }
    Ok(ids)
}

/// Moves leaves out of a store, in the order of `ids`, to the end of `leaves`. Their ids stay
/// reserved.
///
/// O(1) for a leaf. It allocates nothing and cannot fail.
pub fn take_leaves<S: NodeStore>(
    store: &mut S,
    ids: &[LeafNodeId],
    leaves: &mut Vec<Box<LeafNode<S::K, S::V>>>,
)
    requires present { AllByRecursion (IsPresentAt (S.slots store.old)) ids.now }
    requires once { (n : ℕ) → id_count ids.now n ≤ 1 }
    requires room { vec_len leaves.old + length ids.now ≤ vec_capacity leaves.old }
    ensures leaves { parts_of leaves.new.items ≡ parts_of leaves.old.items ++ map (pairs_under (S.slots store.old)) ids.now }
    ensures len { vec_len leaves.new ≡ vec_len leaves.old + length ids.now }
    ensures capacity { vec_capacity leaves.new ≡ vec_capacity leaves.old }
    ensures others { KeepsLeaves (S.slots store.old) (S.slots store.new) ids.now }
{
    let mut i = 0;
    'ids: while i < ids.len() {
        let id = ids[i];
        leaves.push_reserved(store.take_leaf(id));
        i += 1;
    }
}
