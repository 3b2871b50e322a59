//! Building the leaves of a tree, each with an id of its own and the ids of the leaves beside it.
ghost use Rattle.std.specs.Prelude.{◌≡◌, ◌+◌, ◌<◌, ◌≤◌, ◌++◌, ◌∷◌, [], length, IfOk};
ghost use Rattle.std.specs.Vec.Iter.{into_iter_items, into_iter_len};
ghost use Rattle.bptree_keys.specs.Contents.{IsAscending};
ghost use Rattle.bptree_nodes.specs.Slot.{Held, IsEmpty, Present, UpdatesLeaf};
ghost use Rattle.bptree_propagation.specs.Change.{StartsAt};
ghost use Rattle.bptree_bulk_load.specs.Layer.{IsLayer};
ghost use Rattle.bptree_bulk_load.specs.Steps.{leaf_tree, SpreadsOn, TakesPairs};

use crate::subtree::{Subtree, append};
use bptree_arguments::argument::Argument;
use bptree_keys::key::Key;
use bptree_keys::node_id::{LeafNodeId, NodeId};
use bptree_load_plan::cuts::first_of_layer;
use bptree_nodes::leaf_node::{LEAF_CAPACITY, LEAF_MINIMUM, LeafNode};
use bptree_stores::node_stores::NodeStore;
use std::alloc::{AllocError, Global};
use std::vec::IntoIter;

// The number of pairs of a loaded leaf. The rest of its room is for insertions, so that the first ones
// after a load split no leaf.
const LOADED: usize = LEAF_CAPACITY - LEAF_CAPACITY / 16;

// A leaf that is in no store yet, with a clone of its first key and a summary of its keys.
#[derive(Drop)]
struct Filled<K, V, A> {
    leaf: Box<LeafNode<K, V>>,
    first: K,
    summary: A,
}

// Returns a clone of a leaf's first key.
fn first_key<K: Key, V: Drop>(leaf: &LeafNode<K, V>) -> Result<K, AllocError>
    requires { 0 < length leaf.now.pairs }
    ensures { IfOk result (λ first. StartsAt K.cmp first leaf.now.pairs) }
{
    leaf.data_at(0).0.clone()
}

// Builds a leaf of the first `count` of the items, after the leaf `prev`.
fn fill<K: Key, V: Drop, A: Argument<K>>(
    alloc: Global,
    items: &mut IntoIter<(K, V)>,
    count: usize,
    prev: Option<LeafNodeId>,
) -> Result<Filled<K, V, A>, AllocError>
    requires count { (0 < count) × (count ≤ 64) }
    requires some { count ≤ length (into_iter_items items.old) }
    requires counted { into_iter_len items.old ≡ length (into_iter_items items.old) }
    ensures { IfOk result (λ filled. TakesPairs K.cmp A.is_summary items.old count prev filled.leaf.value filled.first filled.summary items.new) }
{
    let mut leaf = LeafNode::new(alloc)?;
    leaf.as_mut().fill_from(items, count);
    leaf.set_prev(prev);
    let summary = A::from_leaf(leaf.keys())?;
    let first = first_key(leaf.as_ref())?;
    Ok(Filled {
        leaf,
        first,
        summary,
    })
}

// Stores a leaf at the reserved id `id`, and appends its tree to those of a layer.
fn store_leaf<S: NodeStore>(
    store: &mut S,
    layer: &mut Vec<Subtree<S::K, S::Argument>>,
    filled: Filled<S::K, S::V, S::Argument>,
    id: LeafNodeId,
) -> Result<(), AllocError>
    requires { (S.slots store.old).leaf id.0 ≡ Held }
    ensures stored { UpdatesLeaf (S.slots store.old) (S.slots store.new) id.0 (Present filled.leaf.value) }
    ensures appended { IfOk result (λ _. layer.new.items ≡ layer.old.items ++ leaf_tree id filled.first filled.summary ∷ []) }
{
    store.assign_leaf(id, filled.leaf);
    let tree = Subtree {
        root: NodeId::Leaf(id),
        first: filled.first,
        summary: filled.summary,
    };
    append(layer, tree)
}

// Stores a leaf of the first `count` of the items at the reserved id `id`, and reserves an id for
// the leaf after it, which it returns.
fn add_leaf<S: NodeStore>(
    store: &mut S,
    layer: &mut Vec<Subtree<S::K, S::Argument>>,
    items: &mut IntoIter<(S::K, S::V)>,
    count: usize,
    id: LeafNodeId,
    prev: Option<LeafNodeId>,
) -> Result<LeafNodeId, AllocError>
    requires count { (16 ≤ count) × (count ≤ 64) }
    requires some { count ≤ length (into_iter_items items.old) }
    requires counted { into_iter_len items.old ≡ length (into_iter_items items.old) }
    requires held { (S.slots store.old).leaf id.0 ≡ Held }
    ensures { IfOk result (SpreadsOn S.K.cmp S.Argument.is_summary (S.slots store.old) (S.slots store.new) layer.old.items layer.new.items items.old items.new count id prev) }
{
    let mut filled = fill(store.allocator(), items, count, prev)?;
    let next = store.reserve_leaf()?;
    filled.leaf.set_next(Some(next));
    store_leaf(store, layer, filled, id)?;
    Ok(next)
}

/// Builds the leaves of ascending pairs in an empty store, with the links between them. It moves
/// each pair once, and stores each leaf once. Up to 64 pairs are one leaf. Otherwise each leaf gets
/// 60 pairs, but for the last one or two.
pub fn build_leaves<S: NodeStore>(
    store: &mut S,
    pairs: Vec<(S::K, S::V)>,
) -> Result<Vec<Subtree<S::K, S::Argument>>, AllocError>
    requires empty { IsEmpty (S.slots store.old) }
    requires ascending { IsAscending S.K.cmp pairs.items }
    requires some { 0 < length pairs.items }
    ensures { IfOk result (λ layer. (0 < length layer.items) × IsLayer S.K.cmp S.Argument.is_summary (S.slots store.new) 0 layer.items pairs.items) }
{
    let mut layer = Vec::new(store.allocator());
    let mut left = pairs.len();
    let mut items = pairs.into_iter();
    let mut prev = None;
    let mut id = store.reserve_leaf()?;
    'leaves: while left > LEAF_CAPACITY {
        let count = first_of_layer(left, LOADED, LEAF_MINIMUM);
        let next = add_leaf(store, &mut layer, &mut items, count, id, prev)?;
        prev = Some(id);
        id = next;
        left -= count;
    }
    let filled = fill(store.allocator(), &mut items, left, prev)?;
    store_leaf(store, &mut layer, filled, id)?;
    Ok(layer)
}
