//! Leaves that are stored below a tree that is complete except for them.
ghost use Rattle.std.specs.Prelude.{◌≡◌, length, slice_get};
ghost use Rattle.bptree_bulk_load.specs.Layer.{Builds};
ghost use Rattle.bptree_bulk_load.specs.Plans.{Frames};
ghost use Rattle.bptree_bulk_load.specs.Rooms.{joined, parts_of, IsFrame, IsPlanted};
ghost use Rattle.bptree_keys.specs.Contents.{IsAscending};
ghost use Rattle.bptree_nodes.specs.Slot.{Held};
ghost use Rattle.bptree_invariant.specs.NodeTree.{IsWhole};

use crate::building::Built;
use bptree_invariant::nodes::Nodes;
use bptree_keys::node_id::LeafNodeId;
use bptree_nodes::leaf_node::LeafNode;
use bptree_stores::node_stores::NodeStore;

/// A store with ids that are reserved for leaves, below a tree that is complete except for these
/// leaves.
#[derive(Drop)]
pub struct Frame<S: NodeStore> {
    pub store: S,
    /// The reserved ids, in the order of the leaves.
    pub ids: Vec<LeafNodeId>,
    /// The root, the height and the summary of the tree.
    pub built: Built<S::Argument>,
}

// Stores a leaf at a reserved id, with its links.
fn plant_leaf<S: NodeStore>(
    store: &mut S,
    id: LeafNodeId,
    leaf: Box<LeafNode<S::K, S::V>>,
    prev: Option<LeafNodeId>,
    next: Option<LeafNodeId>,
)
    requires { (S.slots store.old).leaf id.0 ≡ Held }
    ensures { IsPlanted (S.slots store.old) (S.slots store.new) id leaf.value.pairs prev next }
{
    let mut leaf = leaf;
    leaf.set_prev(prev);
    leaf.set_next(next);
    store.assign_leaf(id, leaf);
}

// Returns the id at an index, if there is one.
fn id_at(ids: &[LeafNodeId], i: usize) -> Option<LeafNodeId>
    ensures { result ≡ slice_get ids.now i }
{
    ids.get(i).copied()
}

// Stores the leaves at the ids of a frame, in their order.
fn plant_leaves<S: NodeStore>(
    store: &mut S,
    ids: &[LeafNodeId],
    leaves: Vec<Box<LeafNode<S::K, S::V>>>,
    _built: &Built<S::Argument>,
)
    requires framed { IsFrame S.K.cmp S.Argument.is_summary (S.slots store.old) ids.now _built.now (parts_of leaves.items) }
    requires ascending { IsAscending S.K.cmp (joined (parts_of leaves.items)) }
    ensures { Builds S.K.cmp S.Argument.is_summary (S.slots store.new) (joined (parts_of leaves.items)) _built.now }
{
    let mut boxes = leaves.into_iter();
    let mut prev = None;
    let mut i = 0;
    'leaves: while i < ids.len() {
        let id = ids[i];
        let next = id_at(ids, i + 1);
        let leaf = boxes.next().unwrap();
        plant_leaf(store, id, leaf, prev, next);
        prev = Some(id);
        i += 1;
    }
}

/// Returns the tree of a frame with its leaves: one for each id, in the order of their keys. `len`
/// must be the number of all pairs.
///
/// O(1) for a leaf: no pair is moved. It allocates nothing and cannot fail.
pub fn plant<S: NodeStore>(
    frame: Frame<S>,
    leaves: Vec<Box<LeafNode<S::K, S::V>>>,
    len: usize,
) -> Nodes<S>
    requires framed { Frames S.K.cmp S.Argument.is_summary S.slots frame (parts_of leaves.items) }
    requires ascending { IsAscending S.K.cmp (joined (parts_of leaves.items)) }
    requires len { len ≡ length (joined (parts_of leaves.items)) }
    ensures contents { result.contents ≡ joined (parts_of leaves.items) }
    ensures whole { IsWhole S.K.cmp S.Argument.is_summary S.slots result }
{
    let Frame {
        mut store,
        ids,
        built,
    } = frame;
    plant_leaves(&mut store, &ids, leaves, &built);
    let Built {
        root,
        height,
        summary,
    } = built;
    Nodes {
        store,
        root,
        height,
        len,
        summary,
    }
}
