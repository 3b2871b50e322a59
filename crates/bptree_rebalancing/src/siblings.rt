//! Rotations and merges of two siblings in a store, under their parent. Each change can be undone.
//! If a change fails, every slot is as it was.
ghost use Rattle.std.specs.Prelude.{◌≡◌, ◌<◌, ◌≤◌, ◌+◌, length, IfOk, IsOk, OnErr};
ghost use Rattle.bptree_propagation.specs.Failing.{NeverFails};
ghost use Rattle.bptree_nodes.specs.Slot.{IsPresent};
ghost use Rattle.bptree_invariant.specs.Shape.{leaf_pairs, inner_keys};
ghost use Rattle.bptree_keys.specs.declared.node_id.NodeId.TheVariants as kind;
ghost use Rattle.bptree_rebalancing.specs.RotateMerge.{AreInnersBeside, RotatesLeavesAt, MergesLeavesAt, RotatesInnersAt, MergesInnersAt, HaveMergedInners, HaveMergedLeaves, HaveRotatedInners, HaveRotatedLeaves, MovesPairsAt, ResummarizesLeavesAt, UndoesMergeInnersAt, UndoesMergeLeavesAt, UndoesRotateInnersAt, UndoesRotateLeavesAt};
ghost use Rattle.bptree_propagation.specs.Sums.{IndexAt, SumsUpAt, SumsUpFirst};
ghost use Rattle.bptree_rebalancing.specs.ChooseSibling.{CanGiveChild, CanGivePairs, CanSparePairs, FitInOneLeaf, FitInOneNode};

use crate::rotate_merge::{
    ChildSummaries, ParentEntry, Sibling, exchange_joint, merge_inners, merge_leaves, move_pairs,
    parent_entry, rotate_inners, take_joint, undo_merge_inners, undo_merge_leaves,
    undo_rotate_inners,
};
use bptree_keys::node_id::{InnerNodeId, LeafNodeId, NodeId};
use bptree_nodes::inner_node::InnerNode;
use bptree_nodes::leaf_node::LeafNode;
use bptree_stores::node_stores::NodeStore;
use std::alloc::AllocError;

// Moves one pair of the giver to its sibling.
fn move_pair_at<S: NodeStore>(store: &mut S, giver: Sibling, left: LeafNodeId, right: LeafNodeId)
    requires left { IsPresent ((S.slots store.old).leaf left.0) }
    requires right { IsPresent ((S.slots store.old).leaf right.0) }
    requires can { CanGivePairs (S.slots store.old) giver 1 left right }
    requires apart { left.0 ≡ right.0 → ⊥ }
    ensures { MovesPairsAt (S.slots store.old) (S.slots store.new) giver 1 left right }
{
    match giver {
        Sibling::Left => {
            let (key, value) = store.get_mut_leaf(left).pop();
            store.get_mut_leaf(right).insert_at(0, key, value);
        }
        Sibling::Right => {
            let (key, value) = store.get_mut_leaf(right).pop_front();
            store.get_mut_leaf(left).push(key, value);
        }
    }
}

// Moves `count` pairs of the giver to its sibling. One pair moves with both leaves in the store,
// which is faster than to take them out.
fn move_pairs_at<S: NodeStore>(
    store: &mut S,
    giver: Sibling,
    count: usize,
    left: LeafNodeId,
    right: LeafNodeId,
)
    requires left { IsPresent ((S.slots store.old).leaf left.0) }
    requires right { IsPresent ((S.slots store.old).leaf right.0) }
    requires can { CanGivePairs (S.slots store.old) giver count left right }
    requires apart { left.0 ≡ right.0 → ⊥ }
    ensures { MovesPairsAt (S.slots store.old) (S.slots store.new) giver count left right }
{
    if count == 1 {
        move_pair_at(store, giver, left, right);
        return;
    }
    let mut one = store.take_leaf(left);
    let mut other = store.take_leaf(right);
    move_pairs(giver, count, &mut one, &mut other);
    store.assign_leaf(left, one);
    store.assign_leaf(right, other);
}

// Computes the summaries of two leaves and a separator between them, and stores these in the
// parent. Returns the parent's summary and what it had before.
fn resummarize_leaves_at<S: NodeStore>(
    store: &mut S,
    id: InnerNodeId,
    slot: usize,
    left: LeafNodeId,
    right: LeafNodeId,
) -> Result<(S::Argument, ParentEntry<S::K, S::Argument>), AllocError>
    requires index { IndexAt ((S.slots store.old).inner id.0) (slot + 1) }
    requires most { length (inner_keys ((S.slots store.old).inner id.0)) ≤ 64 }
    requires left { IsPresent ((S.slots store.old).leaf left.0) }
    requires right { IsPresent ((S.slots store.old).leaf right.0) }
    requires some { 0 < length (leaf_pairs ((S.slots store.old).leaf right.0)) }
    ensures resummarizes { IfOk result (λ done. ResummarizesLeavesAt S.K.cmp S.Argument.is_summary slot (S.slots store.old) (S.slots store.new) id left right done.1) }
    ensures sums { IfOk result (SumsUpFirst S.K.cmp S.Argument.is_summary (S.slots store.new) id) }
    ensures unchanged { OnErr result (S.slots store.new ≡ S.slots store.old) }
    ensures infallible { NeverFails S.Argument.needs_no_memory S.K.is_infallible result }
{
    let joint = parent_entry(store.get_leaf(left), store.get_leaf(right))?;
    take_joint(store.get_mut_inner(id), slot, joint)
}

/// Rotates `count` pairs from one leaf to its sibling. Returns the parent's summary, and the
/// separator and the summaries that the parent had.
pub(crate) fn rotate_leaves_at<S: NodeStore>(
    store: &mut S,
    id: InnerNodeId,
    slot: usize,
    giver: Sibling,
    count: usize,
    left: LeafNodeId,
    right: LeafNodeId,
) -> Result<(S::Argument, ParentEntry<S::K, S::Argument>), AllocError>
    requires index { IndexAt ((S.slots store.old).inner id.0) (slot + 1) }
    requires most { length (inner_keys ((S.slots store.old).inner id.0)) ≤ 64 }
    requires left { IsPresent ((S.slots store.old).leaf left.0) }
    requires right { IsPresent ((S.slots store.old).leaf right.0) }
    requires rotates { CanGivePairs (S.slots store.old) giver count left right }
    requires spares { CanSparePairs (S.slots store.old) giver count left right }
    requires apart { left.0 ≡ right.0 → ⊥ }
    ensures rotates { IfOk result (λ done. RotatesLeavesAt S.K.cmp S.Argument.is_summary slot (S.slots store.old) (S.slots store.new) id giver count left right done.1) }
    ensures sums { IfOk result (SumsUpFirst S.K.cmp S.Argument.is_summary (S.slots store.new) id) }
    ensures unchanged { OnErr result (S.slots store.new ≡ S.slots store.old) }
    ensures infallible { NeverFails S.Argument.needs_no_memory S.K.is_infallible result }
{
    move_pairs_at(store, giver, count, left, right);
    match resummarize_leaves_at(store, id, slot, left, right) {
        Ok(reported) => Ok(reported),
        Err(refusal) => {
            move_pairs_at(store, giver.other(), count, left, right);
            Err(refusal)
        }
    }
}

/// Undoes `rotate_leaves_at`.
pub(crate) fn undo_rotate_leaves_at<S: NodeStore>(
    store: &mut S,
    id: InnerNodeId,
    slot: usize,
    giver: Sibling,
    count: usize,
    joint: ParentEntry<S::K, S::Argument>,
    left: LeafNodeId,
    right: LeafNodeId,
)
    requires { HaveRotatedLeaves S.K.cmp S.Argument.is_summary slot (S.slots store.old) id giver count left right joint }
    ensures { UndoesRotateLeavesAt S.K.cmp S.Argument.is_summary slot (S.slots store.old) (S.slots store.new) id giver count left right joint }
{
    exchange_joint(store.get_mut_inner(id), slot, joint);
    move_pairs_at(store, giver.other(), count, left, right);
}

/// Merges two leaves into the left one, which keeps its id. Returns the parent's summary, the
/// separator and the summaries that the parent had, and the emptied right leaf, whose id stays
/// reserved.
pub(crate) fn merge_leaves_at<S: NodeStore>(
    store: &mut S,
    id: InnerNodeId,
    slot: usize,
    left: LeafNodeId,
    right: LeafNodeId,
) -> Result<
    (
        S::Argument,
        ParentEntry<S::K, S::Argument>,
        Box<LeafNode<S::K, S::V>>,
    ),
    AllocError,
>
    requires index { IndexAt ((S.slots store.old).inner id.0) (slot + 1) }
    requires most { length (inner_keys ((S.slots store.old).inner id.0)) ≤ 64 }
    requires left { IsPresent ((S.slots store.old).leaf left.0) }
    requires right { IsPresent ((S.slots store.old).leaf right.0) }
    requires fits { FitInOneLeaf (S.slots store.old) left right }
    requires apart { left.0 ≡ right.0 → ⊥ }
    ensures merges { IfOk result (λ done. MergesLeavesAt S.K.cmp S.Argument.is_summary slot (S.slots store.old) (S.slots store.new) id left right done.1 done.2.value) }
    ensures sums { IfOk result (λ done. SumsUpAt S.K.cmp S.Argument.is_summary ((S.slots store.new).inner id.0) done.0) }
    ensures unchanged { OnErr result (S.slots store.new ≡ S.slots store.old) }
    ensures infallible { S.Argument.needs_no_memory → IsOk result }
{
    let mut node = store.take_inner(id);
    let mut one = store.take_leaf(left);
    let mut other = store.take_leaf(right);
    let asked = merge_leaves(&mut node, slot, &mut one, &mut other);
    store.put_back_inner(id, node);
    store.assign_leaf(left, one);
    match asked {
        Ok((above, joint)) => Ok((above, joint, other)),
        Err(refusal) => {
            store.assign_leaf(right, other);
            Err(refusal)
        }
    }
}

/// Undoes `merge_leaves_at`, before which the left leaf had `kept` pairs.
pub(crate) fn undo_merge_leaves_at<S: NodeStore>(
    store: &mut S,
    id: InnerNodeId,
    slot: usize,
    joint: ParentEntry<S::K, S::Argument>,
    left: LeafNodeId,
    kept: usize,
    right: LeafNodeId,
    mut emptied: Box<LeafNode<S::K, S::V>>,
)
    requires { HaveMergedLeaves S.K.cmp S.Argument.is_summary slot (S.slots store.old) id left right joint emptied.value kept }
    ensures { UndoesMergeLeavesAt S.K.cmp S.Argument.is_summary slot (S.slots store.old) (S.slots store.new) id left right joint emptied.value kept }
{
    let mut node = store.take_inner(id);
    let mut one = store.take_leaf(left);
    undo_merge_leaves(
        &mut node,
        slot,
        joint,
        NodeId::Leaf(right),
        &mut one,
        kept,
        Some(right),
        &mut emptied,
    );
    store.put_back_inner(id, node);
    store.assign_leaf(left, one);
    store.assign_leaf(right, emptied);
}

/// Rotates a child from one inner node to its sibling, through the parent.
pub(crate) fn rotate_inners_at<S: NodeStore>(
    store: &mut S,
    id: InnerNodeId,
    slot: usize,
    giver: Sibling,
    left: InnerNodeId,
    right: InnerNodeId,
) -> Result<(S::Argument, ChildSummaries<S::Argument>), AllocError>
    requires siblings { AreInnersBeside (S.slots store.old) slot id left right }
    requires rotates { CanGiveChild (S.slots store.old) giver left right }
    ensures rotates { IfOk result (λ done. RotatesInnersAt S.K.cmp S.Argument.is_summary slot (S.slots store.old) (S.slots store.new) id giver left right done.1) }
    ensures sums { IfOk result (SumsUpFirst S.K.cmp S.Argument.is_summary (S.slots store.new) id) }
    ensures unchanged { OnErr result (S.slots store.new ≡ S.slots store.old) }
    ensures infallible { S.Argument.needs_no_memory → IsOk result }
{
    let mut node = store.take_inner(id);
    let mut one = store.take_inner(left);
    let mut other = store.take_inner(right);
    let asked = rotate_inners(&mut node, slot, giver, &mut one, &mut other);
    store.put_back_inner(id, node);
    store.put_back_inner(left, one);
    store.put_back_inner(right, other);
    asked
}

/// Undoes `rotate_inners_at`.
pub(crate) fn undo_rotate_inners_at<S: NodeStore>(
    store: &mut S,
    id: InnerNodeId,
    slot: usize,
    giver: Sibling,
    sides: ChildSummaries<S::Argument>,
    left: InnerNodeId,
    right: InnerNodeId,
)
    requires { HaveRotatedInners S.K.cmp S.Argument.is_summary slot (S.slots store.old) id giver left right sides }
    ensures { UndoesRotateInnersAt S.K.cmp S.Argument.is_summary slot (S.slots store.old) (S.slots store.new) id giver left right sides }
{
    let mut node = store.take_inner(id);
    let mut one = store.take_inner(left);
    let mut other = store.take_inner(right);
    undo_rotate_inners(&mut node, slot, giver, sides, &mut one, &mut other);
    store.put_back_inner(id, node);
    store.put_back_inner(left, one);
    store.put_back_inner(right, other);
}

/// Merges two inner nodes into the left one, which keeps its id; the id of the emptied right one
/// stays reserved.
pub(crate) fn merge_inners_at<S: NodeStore>(
    store: &mut S,
    id: InnerNodeId,
    slot: usize,
    left: InnerNodeId,
    right: InnerNodeId,
) -> Result<
    (
        S::Argument,
        ChildSummaries<S::Argument>,
        Box<InnerNode<S::K, S::Argument>>,
    ),
    AllocError,
>
    requires siblings { AreInnersBeside (S.slots store.old) slot id left right }
    requires fits { FitInOneNode (S.slots store.old) left right }
    ensures merges { IfOk result (λ done. MergesInnersAt S.K.cmp S.Argument.is_summary slot (S.slots store.old) (S.slots store.new) id left right done.1 done.2.value) }
    ensures sums { IfOk result (λ done. SumsUpAt S.K.cmp S.Argument.is_summary ((S.slots store.new).inner id.0) done.0) }
    ensures unchanged { OnErr result (S.slots store.new ≡ S.slots store.old) }
    ensures infallible { S.Argument.needs_no_memory → IsOk result }
{
    let mut node = store.take_inner(id);
    let mut one = store.take_inner(left);
    let mut other = store.take_inner(right);
    let asked = merge_inners(&mut node, slot, &mut one, &mut other);
    store.put_back_inner(id, node);
    store.put_back_inner(left, one);
    match asked {
        Ok((above, sides)) => Ok((above, sides, other)),
        Err(refusal) => {
            store.put_back_inner(right, other);
            Err(refusal)
        }
    }
}

/// Undoes `merge_inners_at`, before which the left node had `kept` keys.
pub(crate) fn undo_merge_inners_at<S: NodeStore>(
    store: &mut S,
    id: InnerNodeId,
    slot: usize,
    sides: ChildSummaries<S::Argument>,
    left: InnerNodeId,
    kept: usize,
    right: InnerNodeId,
    mut emptied: Box<InnerNode<S::K, S::Argument>>,
)
    requires { HaveMergedInners S.K.cmp S.Argument.is_summary slot (S.slots store.old) id left right sides emptied.value kept }
    ensures { UndoesMergeInnersAt S.K.cmp S.Argument.is_summary slot (S.slots store.old) (S.slots store.new) id left right sides emptied.value kept }
{
    let mut node = store.take_inner(id);
    let mut one = store.take_inner(left);
    undo_merge_inners(
        &mut node,
        slot,
        sides,
        NodeId::Inner(right),
        &mut one,
        kept,
        &mut emptied,
    );
    store.put_back_inner(id, node);
    store.put_back_inner(left, one);
    store.put_back_inner(right, emptied);
}
