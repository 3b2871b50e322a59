//! Propagates a changed child's summary, or the node that it was split into, up a path to the root.
//! If an allocation fails on the way, every node of the path is again what it was.
ghost use Rattle.std.specs.Prelude.{◌≡◌, ◌+◌, ◌<◌, ◌≤◌, length, IfOk, IfErr, IfSome, IsOk, OnErr};
ghost use Rattle.bptree_nodes.specs.Slot.{Free, IsPresent};
ghost use Rattle.bptree_keys.specs.declared.node_id.NodeId.{NodeId};
ghost use Rattle.bptree_keys.specs.declared.node_id.NodeId.TheVariants as kind;
ghost use Rattle.bptree_propagation.specs.Change.{Links, GrowsRoot, RelinksNext, TakesSummary};
ghost use Rattle.bptree_propagation.specs.Climb.{EditBelowFrom, SplitBelowFrom, ReachesTopFrom, PropagatesFrom};
ghost use Rattle.bptree_propagation.specs.Sums.{IndexAt, HasKeysAt, LinksChild, SplitsNode, SumsUpAbove, SumsUpLeft, SumsUpRight, SumsUpRoot};
ghost use Rattle.bptree_propagation.specs.Sums.{HasIndexAbove, IsKept, SumsUpChanged};
ghost use Rattle.bptree_invariant.specs.Shape.{inner_keys, inner_arguments};
ghost use Rattle.bptree_propagation.specs.Undoing.{UndoesLink, UndoesSplitInner};

use crate::node_changes::{
    NodeSplit, SplitNode, SummaryUpdate, insert_child_entry, restore_summary, take_and_split,
    undo_insert_child_entry, undo_take_and_split,
};
use bptree_arguments::argument::Argument;
use bptree_keys::entry_ref::VisitStack;
use bptree_keys::node_id::{InnerNodeId, LeafNodeId, NodeId};
use bptree_nodes::inner_node::InnerNode;
use bptree_stores::node_stores::NodeStore;
use std::alloc::AllocError;

// Replaces a child's summary in its node, and returns the old one. A second call with the old
// summary undoes the first.
fn set_at<S: NodeStore>(
    store: &mut S,
    id: InnerNodeId,
    index: usize,
    summary: S::Argument,
) -> S::Argument
    requires present { IsPresent ((S.slots store.old).inner id.0) }
    requires index { index < length (inner_arguments ((S.slots store.old).inner id.0)) }
    ensures keeps { TakesSummary (S.slots store.old) (S.slots store.new) id index summary result }
{
    store.get_mut_inner(id).set_argument(index, summary)
}

// Returns the summary of the child that the path goes on to, as the last node of the path stores
// it. If the path is empty, it returns `whole`, the summary of the whole tree.
fn stored_summary<'a, S: NodeStore>(
    store: &'a S,
    path: &VisitStack,
    whole: &'a S::Argument,
) -> &'a S::Argument
    requires { HasIndexAbove (S.slots store.now) path.now }
    ensures { IsKept (S.slots store.now) path.now whole.now result.now }
{
    match path.last() {
        Some((id, index, _)) => &store.get_inner(id).arguments()[index],
        None => whole,
    }
}

// Computes a node's summary after the summary of one child was replaced. If the argument can, it is
// computed from the node's old summary, which the node above stores or which is that of the whole
// tree, and from the child's old and new summaries. Otherwise it is computed from all children.
fn sum_of_changed<S: NodeStore>(
    store: &S,
    path: &VisitStack,
    whole: &S::Argument,
    id: InnerNodeId,
    index: usize,
    old: &S::Argument,
) -> Result<S::Argument, AllocError>
    requires present { IsPresent ((S.slots store.now).inner id.0) }
    requires index { index < length (inner_arguments ((S.slots store.now).inner id.0)) }
    requires above { HasIndexAbove (S.slots store.now) path.now }
    ensures sums { IfOk result (SumsUpChanged (S.slots store.now) S.K.cmp S.Argument.is_summary path.now whole.now id index old.now) }
    ensures infallible { S.Argument.needs_no_memory → IsOk result }
{
    let node = store.get_inner(id);
    let kept = stored_summary(store, path, whole);
    if let Some(above) = S::Argument::from_replaced(kept, old, &node.arguments()[index]) {
        return Ok(above);
    }
    S::Argument::from_inner(node.keys(), node.arguments())
}

/// Propagates a node's new summary up the path above it, and returns the root's.
///
/// Each node on the path stores the new summary of its child. Its own summary is computed from the
/// change (`from_replaced`) if the argument can, and otherwise from all its children. `whole` is
/// the summary that the whole tree had before. If every value is a summary of every list, no node
/// is changed.
///
/// O(log n) steps. It allocates only what the summaries allocate. If a summary fails, it returns
/// `Err(AllocError)` and the store is unchanged.
pub fn ascend<S: NodeStore>(
    store: &mut S,
    path: &mut VisitStack,
    whole: &S::Argument,
    summary: S::Argument,
) -> Result<S::Argument, AllocError>
    requires { EditBelowFrom S.K.cmp S.Argument.is_summary (S.slots store.old) path.old whole.now summary }
    ensures rises { PropagatesFrom S.K.cmp S.Argument.is_summary (S.slots store.old) (S.slots store.new) path.old whole.now summary result }
    ensures unchanged { OnErr result (S.slots store.new ≡ S.slots store.old) }
    ensures infallible { S.Argument.needs_no_memory → IsOk result }
{
    if S::Argument::is_zst() {
        return Ok(summary);
    }
    let Some((id, index, _)) = path.pop() else {
        return Ok(summary);
    };
    let old = set_at(store, id, index, summary);
    let Ok(above) = sum_of_changed(store, path, whole, id, index, &old) else {
        set_at(store, id, index, old);
        return Err(AllocError);
    };
    match ascend(store, path, whole, above) {
        Ok(top) => Ok(top),
        Err(refusal) => {
            set_at(store, id, index, old);
            Err(refusal)
        }
    }
}

// Inserts the node to the right of a split child into their parent, which has room.
fn link_at<S: NodeStore>(
    store: &mut S,
    id: InnerNodeId,
    index: usize,
    division: NodeSplit<S::K, S::Argument>,
) -> Result<SummaryUpdate<S::Argument>, NodeSplit<S::K, S::Argument>>
    requires index { IndexAt ((S.slots store.old).inner id.0) index }
    requires room { length (inner_keys ((S.slots store.old).inner id.0)) < 64 }
    ensures links { LinksChild (S.slots store.old) (S.slots store.new) id index division result }
    ensures sums { IfOk result (SumsUpAbove S.K.cmp S.Argument.is_summary (S.slots store.new) id) }
    ensures unchanged { OnErr result (S.slots store.new ≡ S.slots store.old) }
    ensures returned { IfErr result (λ back. back ≡ division) }
{
    insert_child_entry(store.get_mut_inner(id), index, division)
}

// Undoes `link_at`.
fn unlink_at<S: NodeStore>(
    store: &mut S,
    id: InnerNodeId,
    index: usize,
    old: S::Argument,
) -> NodeSplit<S::K, S::Argument>
    requires index { IndexAt ((S.slots store.old).inner id.0) (index + 1) }
    ensures undoes { UndoesLink (S.slots store.old) (S.slots store.new) id index old result }
{
    undo_insert_child_entry(store.get_mut_inner(id), index, old)
}

// Inserts the node to the right of a split child into their parent, which is full and is split in
// turn. It returns what the node above has to take, and the child's old summary.
fn split_inner_at<S: NodeStore>(
    store: &mut S,
    id: InnerNodeId,
    index: usize,
    division: NodeSplit<S::K, S::Argument>,
) -> Result<SplitNode<S::K, S::Argument, InnerNodeId>, NodeSplit<S::K, S::Argument>>
    requires index { IndexAt ((S.slots store.old).inner id.0) index }
    requires full { length (inner_keys ((S.slots store.old).inner id.0)) ≡ 64 }
    ensures splits { SplitsNode (S.slots store.old) (S.slots store.new) id index division result }
    ensures left { IfOk result (SumsUpLeft S.K.cmp S.Argument.is_summary (S.slots store.new) id) }
    ensures right { IfOk result (SumsUpRight S.K.cmp S.Argument.is_summary (S.slots store.new)) }
    ensures unchanged { OnErr result (S.slots store.new ≡ S.slots store.old) }
    ensures returned { IfErr result (λ back. back ≡ division) }
{
    let Ok(room) = InnerNode::empty(store.allocator()) else {
        return Err(division);
    };
    let Ok(fresh) = store.reserve_inner() else {
        return Err(division);
    };
    let mut node = store.take_inner(id);
    let asked = take_and_split(&mut node, index, division, room);
    store.put_back_inner(id, node);
    match asked {
        Ok(parts) => {
            let SplitNode {
                left,
                up,
                node: half,
                right,
                old,
            } = parts;
            store.put_back_inner(fresh, half);
            Ok(SplitNode {
                left,
                up,
                node: fresh,
                right,
                old,
            })
        }
        Err(division) => {
            store.release_inner(fresh);
            Err(division)
        }
    }
}

// Undoes `split_inner_at`.
fn undo_split_inner_at<S: NodeStore>(
    store: &mut S,
    id: InnerNodeId,
    index: usize,
    up: S::K,
    fresh: InnerNodeId,
    old: S::Argument,
) -> NodeSplit<S::K, S::Argument>
    requires left { HasKeysAt 32 ((S.slots store.old).inner id.0) }
    requires right { HasKeysAt 32 ((S.slots store.old).inner fresh.0) }
    requires apart { id.0 ≡ fresh.0 → ⊥ }
    requires index { index ≤ 64 }
    ensures undoes { UndoesSplitInner (S.slots store.old) (S.slots store.new) id index up fresh old result }
{
    let mut node = store.take_inner(id);
    let half = store.take_inner(fresh);
    let division = undo_take_and_split(&mut node, index, up, half, old);
    store.put_back_inner(id, node);
    store.release_inner(fresh);
    division
}

// Adds a new root above the old one and the node to its right.
fn grow_root<S: NodeStore>(
    store: &mut S,
    root: NodeId,
    division: NodeSplit<S::K, S::Argument>,
) -> Result<(InnerNodeId, S::Argument), NodeSplit<S::K, S::Argument>>
    ensures roots { IfOk result (GrowsRoot (S.slots store.old) (S.slots store.new) root division) }
    ensures free { IfOk result (λ done. (S.slots store.old).inner done.0.0 ≡ Free) }
    ensures sums { IfOk result (SumsUpRoot S.K.cmp S.Argument.is_summary (S.slots store.new)) }
    ensures unchanged { OnErr result (S.slots store.new ≡ S.slots store.old) }
    ensures returned { IfErr result (λ back. back ≡ division) }
{
    let Ok(mut node) = InnerNode::empty(store.allocator()) else {
        return Err(division);
    };
    let Ok(id) = store.reserve_inner() else {
        return Err(division);
    };
    node.adopt(root, division.left);
    node.push(division.separator, division.node, division.right);
    match S::Argument::from_inner(node.keys(), node.arguments()) {
        Ok(above) => {
            store.put_back_inner(id, node);
            Ok((id, above))
        }
        Err(_) => {
            store.release_inner(id);
            let entry = node.pop();
            Err(restore_summary(&mut node, 0, S::Argument::default(), entry))
        }
    }
}

/// Links the node that a node was split into on the path above it, and returns the id of a new
/// root, if the root was split too, and the root's summary.
///
/// `whole` is the summary that the whole tree had before. O(log n) steps. It allocates one node on
/// each level that is split, and what the summaries allocate. If an allocation fails, it returns
/// the division that it was given, and the store is unchanged.
pub fn ascend_split<S: NodeStore>(
    store: &mut S,
    path: &mut VisitStack,
    whole: &S::Argument,
    root: NodeId,
    division: NodeSplit<S::K, S::Argument>,
) -> Result<(Option<InnerNodeId>, S::Argument), NodeSplit<S::K, S::Argument>>
    requires climbs { SplitBelowFrom S.K.cmp S.Argument.is_summary (S.slots store.old) path.old whole.now division }
    ensures rises { ReachesTopFrom S.K.cmp S.Argument.is_summary (S.slots store.old) (S.slots store.new) path.old whole.now root division result }
    ensures unchanged { OnErr result (S.slots store.new ≡ S.slots store.old) }
    ensures returned { IfErr result (λ back. back ≡ division) }
{
    let Some((id, index, _)) = path.pop() else {
        let (top, above) = grow_root(store, root, division)?;
        return Ok((Some(top), above));
    };
    if !store.get_inner(id).is_full() {
        let SummaryUpdate { above, old } = link_at(store, id, index, division)?;
        return match ascend(store, path, whole, above) {
            Ok(top) => Ok((None, top)),
            Err(_) => Err(unlink_at(store, id, index, old)),
        };
    }
    let SplitNode {
        left,
        up,
        node: fresh,
        right,
        old,
    } = split_inner_at(store, id, index, division)?;
    let above = NodeSplit {
        left,
        separator: up,
        node: NodeId::Inner(fresh),
        right,
    };
    match ascend_split(store, path, whole, root, above) {
        Ok(top) => Ok(top),
        Err(above) => Err(undo_split_inner_at(store, id, index, above.separator, fresh, old)),
    }
}

/// Sets the link of the leaf `next`, if there is one, to `left`, which is now the leaf before it.
///
/// O(1). It allocates nothing and cannot fail.
pub fn relink_next<S: NodeStore>(store: &mut S, left: LeafNodeId, next: Option<LeafNodeId>)
    requires next { IfSome next (λ next. IsPresent ((S.slots store.old).leaf next.0)) }
    ensures { RelinksNext (S.slots store.old) (S.slots store.new) next left }
{
    if let Some(next) = next {
        store.get_mut_leaf(next).set_prev(Some(left));
    }
}
