//! Underflow in a tree that is in a store: chooses the sibling that a node rotates or merges with,
//! and rebalances inner nodes up the path.
ghost use Rattle.std.specs.Prelude.{◌≡◌, ◌<◌, ◌≤◌, ◌+◌, IsOk, OnErr, IsTrue};
ghost use Rattle.bptree_keys.specs.declared.node_id.NodeId.TheVariants as kind;
ghost use Rattle.bptree_propagation.specs.Failing.{NeverFails};
ghost use Rattle.bptree_nodes.specs.Slot.{IsPresent};
ghost use Rattle.bptree_rebalancing.specs.ChooseSibling.{CanSparePairs, ChosenSibling, ChoosesSibling, HasChild, HasOneChildMore, HasIndexBelow, HasSparePairs, InnersBelow, LeavesBelow, NodesBelow, size_below};
ghost use Rattle.bptree_rebalancing.specs.Transfer.{CanSpare};
ghost use Rattle.bptree_rebalancing.specs.declared.rotate_merge.Sibling.TheVariants.{Left};
ghost use Rattle.bptree_rebalancing.specs.Trim.{UnderflowBelowFrom, LeafUnderflowFrom, PropagatesUnderflowFrom, PropagatesToRootFrom};

use crate::rotate_merge::Sibling;
use crate::siblings::{
    merge_inners_at, merge_leaves_at, rotate_inners_at, rotate_leaves_at, undo_merge_inners_at,
    undo_merge_leaves_at, undo_rotate_inners_at, undo_rotate_leaves_at,
};
use crate::statistics::{Rebalanced, Statistic};
use bptree_keys::entry_ref::VisitStack;
use bptree_keys::node_id::{InnerNodeId, LeafNodeId, NodeId};
use bptree_nodes::inner_node::INNER_MINIMUM;
use bptree_nodes::leaf_node::LEAF_MINIMUM;
use bptree_propagation::ascent::{ascend, relink_next};
use bptree_stores::node_stores::NodeStore;
use std::alloc::AllocError;

/// The level of a node.
#[derive(Clone, Copy, PartialEq, Eq)]
pub(crate) enum Level {
    Leaf,
    Inner,
}

/// Determines when a leaf that underflows merges with its sibling.
///
/// If pairs are removed one after another at an end of a tree, early merges save most rotations.
#[derive(Clone, Copy, PartialEq, Eq)]
pub enum Merging {
    /// Merge if the sibling has at most 16 pairs. Otherwise the sibling gives one of its pairs.
    Late,
    /// Merge if the sibling has at most 48 pairs. The pairs of both then fit in one leaf, with room
    /// for one more. Otherwise the sibling gives so many of its pairs that both have as many.
    Early,
}

// The greatest number of pairs of a sibling in an early merge. They fit in one leaf with the 15
// pairs of the leaf that underflows.
const EARLY_MERGE_MOST: usize = 48;

impl Merging {
    // Returns the greatest number of pairs of a sibling to merge with.
    fn most(self) -> usize
        ensures least { 16 ≤ result }
        ensures most { result ≤ 48 }
    {
        match self {
            Merging::Late => LEAF_MINIMUM,
            Merging::Early => EARLY_MERGE_MOST,
        }
    }
}

// Returns which sibling the child at index `index` merged with, by the slot of the separator
// between the two.
fn merged(slot: usize, index: usize) -> Rebalanced {
    if slot < index {
        Rebalanced::Merged(Sibling::Left)
    } else {
        Rebalanced::Merged(Sibling::Right)
    }
}

// The slot of the separator between a child that underflows and its sibling, and which of the two
// gives. If it is `None`, they merge.
type Rebalance = (usize, Option<Sibling>);

// Chooses the sibling of the child at index `index`. `gives` is whether the sibling before it
// gives, `after` is the number of pairs or keys of the sibling after it, or 0 if there is none, and
// `most` is the greatest number of these in a sibling to merge with.
fn choose_sibling(index: usize, gives: bool, after: usize, most: usize) -> Rebalance
    requires { IsTrue gives → 0 < index }
    ensures { ChosenSibling index gives after most result.0 result.1 }
{
    if gives {
        return (index - 1, Some(Sibling::Left));
    }
    if after > most {
        return (index, Some(Sibling::Right));
    }
    if index > 0 {
        return (index - 1, None);
    }
    (0, None)
}

// Returns the number of pairs or keys of the child at index `index`, or 0 past the last child.
fn child_len<S: NodeStore>(store: &S, id: InnerNodeId, index: usize) -> usize
    requires present { IsPresent ((S.slots store.now).inner id.0) }
    requires children { NodesBelow (S.slots store.now) id }
    requires long { HasOneChildMore (S.slots store.now) id }
    ensures { result ≡ size_below (S.slots store.now) id index }
{
    let node = store.get_inner(id);
    if index > node.len() {
        return 0;
    }
    match node.child_id(index) {
        NodeId::Leaf(leaf) => store.get_leaf(leaf).len(),
        NodeId::Inner(inner) => store.get_inner(inner).len(),
    }
}

// Chooses the sibling that the child at index `index` of a node rotates or merges with. A sibling
// of more than `most` pairs or keys can give one. If neither sibling can, the child merges. The
// sibling before the child gives if it can; if it is a leaf, it must also have more pairs than the
// one behind the child.
fn sibling<S: NodeStore>(
    store: &S,
    id: InnerNodeId,
    index: usize,
    level: Level,
    most: usize,
) -> Rebalance
    requires children { NodesBelow (S.slots store.now) id }
    requires long { HasOneChildMore (S.slots store.now) id }
    requires index { HasIndexBelow (S.slots store.now) id index }
    requires least { 16 ≤ most }
    requires most { most ≤ 48 }
    ensures { ChoosesSibling (size_below (S.slots store.now) id) index result.0 result.1 }
{
    let after = child_len(store, id, index + 1);
    if index == 0 {
        return choose_sibling(index, false, after, most);
    }
    let before = child_len(store, id, index - 1);
    let gives = before > most && (level == Level::Inner || before > after);
    choose_sibling(index, gives, after, most)
}

// Chooses the sibling that the leaf at index `index` of a node rotates or merges with. The leaf
// merges with a sibling of at most `most` pairs.
fn leaf_sibling<S: NodeStore>(store: &S, id: InnerNodeId, index: usize, most: usize) -> Rebalance
    requires children { LeavesBelow (S.slots store.now) id }
    requires long { HasOneChildMore (S.slots store.now) id }
    requires index { HasIndexBelow (S.slots store.now) id index }
    requires least { 16 ≤ most }
    requires most { most ≤ 48 }
    ensures { ChoosesSibling (size_below (S.slots store.now) id) index result.0 result.1 }
{
    sibling(store, id, index, Level::Leaf, most)
}

// Returns how many of its pairs a leaf of `len` pairs gives to a sibling that has 15.
fn spare_of(len: usize, merging: Merging) -> usize
    requires { 17 ≤ len }
    ensures { CanSpare Left result len 15 }
{
    match merging {
        Merging::Late => 1,
        Merging::Early => (len - (LEAF_MINIMUM - 1)) / 2,
    }
}

// Returns how many pairs the giver of two leaves gives to its sibling.
fn spare_pairs<S: NodeStore>(
    store: &S,
    giver: Sibling,
    left: LeafNodeId,
    right: LeafNodeId,
    merging: Merging,
) -> usize
    requires left { IsPresent ((S.slots store.now).leaf left.0) }
    requires right { IsPresent ((S.slots store.now).leaf right.0) }
    requires spares { HasSparePairs (S.slots store.now) giver left right }
    ensures { CanSparePairs (S.slots store.now) giver result left right }
{
    match giver {
        Sibling::Left => spare_of(store.get_leaf(left).len(), merging),
        Sibling::Right => spare_of(store.get_leaf(right).len(), merging),
    }
}

// Propagates an inner node's new summary up the path above it. If the node underflowed, it rotates
// or merges with a sibling, and after a merge the parent may underflow in turn. Returns a summary
// of all keys.
fn ascend_underflow<S: NodeStore>(
    store: &mut S,
    path: &mut VisitStack,
    whole: &S::Argument,
    id: InnerNodeId,
    summary: S::Argument,
    statistic: &mut Statistic,
) -> Result<S::Argument, AllocError>
    requires { UnderflowBelowFrom S.K.cmp S.Argument.is_summary (S.slots store.old) path.old whole.now id summary }
    ensures rises { PropagatesUnderflowFrom S.K.cmp S.Argument.is_summary (S.slots store.old) (S.slots store.new) path.old whole.now id summary result }
    ensures unchanged { OnErr result (S.slots store.new ≡ S.slots store.old) }
    ensures infallible { S.Argument.needs_no_memory → IsOk result }
{
    if store.get_inner(id).len() >= INNER_MINIMUM {
        return ascend(store, path, whole, summary);
    }
    let Some((parent, index, _)) = path.pop() else {
        return Ok(summary);
    };
    let (slot, giver) = sibling(store, parent, index, Level::Inner, INNER_MINIMUM);
    let (left, right) = inners_at(store, parent, slot);
    match giver {
        Some(giver) => {
            let (above, sides) = rotate_inners_at(store, parent, slot, giver, left, right)?;
            match ascend(store, path, whole, above) {
                Ok(top) => {
                    statistic.count(Level::Inner, Rebalanced::Rotated(giver));
                    Ok(top)
                }
                Err(refusal) => {
                    undo_rotate_inners_at(store, parent, slot, giver, sides, left, right);
                    Err(refusal)
                }
            }
        }
        None => {
            let kept = store.get_inner(left).len();
            let (above, sides, emptied) = merge_inners_at(store, parent, slot, left, right)?;
            match ascend_underflow(store, path, whole, parent, above, statistic) {
                Ok(top) => {
                    store.release_inner(right);
                    statistic.count(Level::Inner, merged(slot, index));
                    Ok(top)
                }
                Err(refusal) => {
                    undo_merge_inners_at(store, parent, slot, sides, left, kept, right, emptied);
                    Err(refusal)
                }
            }
        }
    }
}

/// Rebalances a leaf that underflowed, the child at index `index` of the node `id`: it rotates
/// pairs or merges with its sibling.
///
/// `merging` determines up to how many pairs of the sibling the two merge, and how many pairs the
/// sibling gives otherwise. Nodes on the path above
/// that underflow by a merge are rebalanced in turn. `whole` is the summary that the whole tree had
/// before. Returns a summary of all keys.
///
/// O(log n) steps. It allocates only a clone of a separator and the summaries. If one of these
/// fails, it returns `Err(AllocError)` and the store is unchanged.
pub fn rebalance_leaf<S: NodeStore>(
    store: &mut S,
    path: &mut VisitStack,
    whole: &S::Argument,
    id: InnerNodeId,
    index: usize,
    merging: Merging,
    statistic: &mut Statistic,
) -> Result<S::Argument, AllocError>
    requires { LeafUnderflowFrom S.K.cmp S.Argument.is_summary (S.slots store.old) path.old whole.now id index }
    ensures trims { PropagatesToRootFrom S.K.cmp S.Argument.is_summary (S.slots store.old) (S.slots store.new) path.old whole.now id index result }
    ensures unchanged { OnErr result (S.slots store.new ≡ S.slots store.old) }
    ensures infallible { NeverFails S.Argument.needs_no_memory S.K.is_infallible result }
{
    let (slot, giver) = leaf_sibling(store, id, index, merging.most());
    let (left, right) = leaves_at(store, id, slot);
    match giver {
        Some(giver) => {
            let count = spare_pairs(store, giver, left, right, merging);
            let (above, joint) = rotate_leaves_at(store, id, slot, giver, count, left, right)?;
            match ascend(store, path, whole, above) {
                Ok(top) => {
                    statistic.count(Level::Leaf, Rebalanced::Rotated(giver));
                    Ok(top)
                }
                Err(refusal) => {
                    undo_rotate_leaves_at(store, id, slot, giver, count, joint, left, right);
                    Err(refusal)
                }
            }
        }
        None => {
            let kept = store.get_leaf(left).len();
            let next = store.get_leaf(right).next();
            let (above, joint, emptied) = merge_leaves_at(store, id, slot, left, right)?;
            match ascend_underflow(store, path, whole, id, above, statistic) {
                Ok(top) => {
                    store.release_leaf(right);
                    relink_next(store, left, next);
                    statistic.count(Level::Leaf, merged(slot, index));
                    Ok(top)
                }
                Err(refusal) => {
                    undo_merge_leaves_at(store, id, slot, joint, left, kept, right, emptied);
                    Err(refusal)
                }
            }
        }
    }
}

// Returns the inner node at a child index of a node.
fn inner_at<S: NodeStore>(store: &S, id: InnerNodeId, index: usize) -> InnerNodeId
    requires children { InnersBelow (S.slots store.now) id }
    requires index { HasIndexBelow (S.slots store.now) id index }
    ensures { HasChild (S.slots store.now) id index (kind.Inner result) }
{
    store.get_inner(id).child_id(index).inner_id_unchecked()
}

// Returns the two inner nodes on both sides of a separator.
fn inners_at<S: NodeStore>(store: &S, id: InnerNodeId, slot: usize) -> (InnerNodeId, InnerNodeId)
    requires children { InnersBelow (S.slots store.now) id }
    requires slot { HasIndexBelow (S.slots store.now) id (slot + 1) }
    ensures left { HasChild (S.slots store.now) id slot (kind.Inner result.0) }
    ensures right { HasChild (S.slots store.now) id (slot + 1) (kind.Inner result.1) }
{
    (inner_at(store, id, slot), inner_at(store, id, slot + 1))
}

// Returns the leaf at a child index of a node.
fn leaf_at<S: NodeStore>(store: &S, id: InnerNodeId, index: usize) -> LeafNodeId
    requires children { LeavesBelow (S.slots store.now) id }
    requires index { HasIndexBelow (S.slots store.now) id index }
    ensures { HasChild (S.slots store.now) id index (kind.Leaf result) }
{
    store.get_inner(id).child_id(index).leaf_id_unchecked()
}

// Returns the two leaves on both sides of a separator.
fn leaves_at<S: NodeStore>(store: &S, id: InnerNodeId, slot: usize) -> (LeafNodeId, LeafNodeId)
    requires children { LeavesBelow (S.slots store.now) id }
    requires slot { HasIndexBelow (S.slots store.now) id (slot + 1) }
    ensures left { HasChild (S.slots store.now) id slot (kind.Leaf result.0) }
    ensures right { HasChild (S.slots store.now) id (slot + 1) (kind.Leaf result.1) }
{
    (leaf_at(store, id, slot), leaf_at(store, id, slot + 1))
}
