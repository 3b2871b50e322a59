//! Ids that are reserved for leaves, below a tree that is complete except for these.
ghost use Rattle.std.specs.Prelude.{IfOk};
ghost use Rattle.bptree_bulk_load.specs.Rooms.{AddsRoom};

use crate::subtree::{Subtree, append};
use bptree_keys::node_id::{LeafNodeId, NodeId};
use bptree_stores::node_stores::NodeStore;
use std::alloc::AllocError;

/// Reserves an id for a leaf after the others. `first` equals the leaf's first key, and `summary`
/// is a summary of its keys.
///
/// If an allocation fails, the id may stay reserved.
pub fn add_room<S: NodeStore>(
    store: &mut S,
    ids: &mut Vec<LeafNodeId>,
    trees: &mut Vec<Subtree<S::K, S::Argument>>,
    first: S::K,
    summary: S::Argument,
) -> Result<(), AllocError>
    ensures { IfOk result (λ _. AddsRoom (S.slots store.old) (S.slots store.new) ids.old.items ids.new.items trees.old.items trees.new.items first summary) }
{
    let id = store.reserve_leaf()?;
    ids.push(id)?;
    let tree = Subtree {
        root: NodeId::Leaf(id),
        first,
        summary,
    };
    append(trees, tree)
}
