//! Rotations and merges of two siblings under their parent, with all three nodes borrowed. If an
//! allocation fails on the way, all three nodes are again what they were.
ghost use Rattle.std.specs.Prelude.{◌≡◌, ◌<◌, ◌≤◌, ◌+◌, [], length, IfOk, IsOk, OnErr, IfErr};
ghost use Rattle.bptree_keys.specs.Keys.{AllInfallible};
ghost use Rattle.bptree_rebalancing.specs.Transfer.{other_of, CanGive, CanGiveMany, MovesChild, MovesPairs, ExchangesJoint};
ghost use Rattle.bptree_rebalancing.specs.RotateMerge.{MergesLeaves, RotatesInners, MergesInners, TakesInner, TakesInners, TakesLeaf, ReportsLeaves, UndoesMergeInners, UndoesMergeLeaves, UndoesRotateInners};
ghost use Rattle.bptree_propagation.specs.Sums.{HasChildAt, SumsUp};

use bptree_arguments::argument::Argument;
use bptree_keys::key::Key;
use bptree_keys::node_id::{LeafNodeId, NodeId};
use bptree_nodes::inner_node::InnerNode;
use bptree_nodes::leaf_node::LeafNode;
use bptree_propagation::node_changes::{NodeSplit, SummaryUpdate, insert_child_entry, resum};
use std::alloc::AllocError;

/// The sibling that gives to the other in a rotation.
#[derive(Clone, Copy)]
pub enum Sibling {
    Left,
    Right,
}

impl Sibling {
    pub(crate) fn other(self) -> Sibling
        ensures { result ≡ other_of self }
    {
        match self {
            Sibling::Left => Sibling::Right,
            Sibling::Right => Sibling::Left,
        }
    }
}

/// The summaries that a node had of the children on both sides of a separator.
#[derive(Drop)]
pub struct ChildSummaries<A> {
    pub left: A,
    pub right: A,
}

/// A separator, and the summaries that a node had of the children on both sides of it.
#[derive(Drop)]
pub struct ParentEntry<K, A> {
    pub left: A,
    pub separator: K,
    pub right: A,
}

// Moves one child of the giver to its sibling, and returns the new separator between the two.
fn move_child<K: Drop, A: Drop>(
    giver: Sibling,
    left: &mut InnerNode<K, A>,
    separator: K,
    right: &mut InnerNode<K, A>,
) -> K
    requires sizes { CanGive giver (length left.old.keys) (length right.old.keys) }
    requires left { 0 < length left.old.children }
    requires right { 0 < length right.old.children }
    ensures { MovesChild giver left.old separator right.old left.new result right.new }
{
    match giver {
        Sibling::Left => left.rotate_right(separator, right),
        Sibling::Right => left.rotate_left(separator, right),
    }
}

/// Moves `count` pairs of the giver to its sibling.
pub(crate) fn move_pairs<K: Key, V: Drop>(
    giver: Sibling,
    count: usize,
    left: &mut LeafNode<K, V>,
    right: &mut LeafNode<K, V>,
)
    requires { CanGiveMany giver count (length left.old.pairs) (length right.old.pairs) }
    ensures { MovesPairs giver count left.old right.old left.new right.new }
{
    match giver {
        Sibling::Left => left.move_last_to(count, right),
        Sibling::Right => right.move_first_to(count, left),
    }
}

/// Returns the summaries of two leaves, and a separator between them.
pub(crate) fn parent_entry<K: Key, V: Drop, A: Argument<K>>(
    left: &LeafNode<K, V>,
    right: &LeafNode<K, V>,
) -> Result<ParentEntry<K, A>, AllocError>
    requires { 0 < length right.now.pairs }
    ensures sums { IfOk result (ReportsLeaves K.cmp A.is_summary left.now right.now) }
    ensures infallible { A.needs_no_memory → AllInfallible K.is_infallible → IsOk result }
{
    let separator = right.data_at(0).0.clone()?;
    let left = A::from_leaf(left.keys())?;
    let right = A::from_leaf(right.keys())?;
    Ok(ParentEntry {
        left,
        separator,
        right,
    })
}

/// Replaces a separator in a node, and the summaries of the children on both sides of it. Returns
/// the old ones.
pub(crate) fn exchange_joint<K: Key, A: Argument<K>>(
    node: &mut InnerNode<K, A>,
    slot: usize,
    joint: ParentEntry<K, A>,
) -> ParentEntry<K, A>
    requires index { HasChildAt node.old (slot + 1) }
    requires most { length node.old.keys ≤ 64 }
    ensures { ExchangesJoint slot node.old joint result node.new }
{
    let separator = node.set_key(slot, joint.separator);
    let left = node.set_argument(slot, joint.left);
    let right = node.set_argument(slot + 1, joint.right);
    ParentEntry {
        left,
        separator,
        right,
    }
}

/// Replaces a separator in a node, and the summaries of the children on both sides of it, and
/// computes the node's summary. Returns that summary and the old ones. If the node's summary fails,
/// the node is unchanged.
pub(crate) fn take_joint<K: Key, A: Argument<K>>(
    node: &mut InnerNode<K, A>,
    slot: usize,
    joint: ParentEntry<K, A>,
) -> Result<(A, ParentEntry<K, A>), AllocError>
    requires index { HasChildAt node.old (slot + 1) }
    requires most { length node.old.keys ≤ 64 }
    ensures exchanges { IfOk result (λ done. ExchangesJoint slot node.old joint done.1 node.new) }
    ensures sums { IfOk result (λ done. SumsUp K.cmp A.is_summary node.new done.0) }
    ensures unchanged { OnErr result (node.new ≡ node.old) }
    ensures infallible { A.needs_no_memory → IsOk result }
{
    let before = exchange_joint(node, slot, joint);
    match A::from_inner(node.keys(), node.arguments()) {
        Ok(above) => Ok((above, before)),
        Err(refusal) => {
            exchange_joint(node, slot, before);
            Err(refusal)
        }
    }
}

// Computes the summaries of two inner nodes, and inserts them, with the separator between the two
// and the id of the right one, into a parent without that entry. Returns the parent's summary and
// the left node's old one. If a summary fails, it returns the separator, and the parent is
// unchanged.
fn resummarize_inners<K: Key, A: Argument<K>>(
    node: &mut InnerNode<K, A>,
    slot: usize,
    child: NodeId,
    left: &InnerNode<K, A>,
    separator: K,
    right: &InnerNode<K, A>,
) -> Result<SummaryUpdate<A>, K>
    requires index { HasChildAt node.old slot }
    requires room { length node.old.keys < 64 }
    ensures rotates { IfOk result (TakesInners K.cmp A.is_summary node.old slot child left.now separator right.now node.new) }
    ensures sums { IfOk result (λ sums. SumsUp K.cmp A.is_summary node.new sums.above) }
    ensures unchanged { OnErr result (node.new ≡ node.old) }
    ensures returned { IfErr result (λ back. back ≡ separator) }
    ensures infallible { A.needs_no_memory → IsOk result }
{
    let Ok(left) = A::from_inner(left.keys(), left.arguments()) else {
        return Err(separator);
    };
    let Ok(right) = A::from_inner(right.keys(), right.arguments()) else {
        return Err(separator);
    };
    let division = NodeSplit {
        left,
        separator,
        node: child,
        right,
    };
    match insert_child_entry(node, slot, division) {
        Ok(sums) => Ok(sums),
        Err(division) => Err(division.separator),
    }
}

// Computes the summary of a leaf, and stores it in the parent. Returns the parent's summary and the
// leaf's old one. If a summary fails, the parent is unchanged.
fn resummarize_leaf<K: Key, V: Drop, A: Argument<K>>(
    node: &mut InnerNode<K, A>,
    slot: usize,
    leaf: &LeafNode<K, V>,
) -> Result<SummaryUpdate<A>, AllocError>
    requires index { slot < length node.old.arguments }
    ensures merges { IfOk result (TakesLeaf K.cmp A.is_summary node.old slot leaf.now node.new) }
    ensures sums { IfOk result (λ sums. SumsUp K.cmp A.is_summary node.new sums.above) }
    ensures unchanged { OnErr result (node.new ≡ node.old) }
    ensures infallible { A.needs_no_memory → IsOk result }
{
    let both = A::from_leaf(leaf.keys())?;
    match resum(node, slot, both) {
        Ok(sums) => Ok(sums),
        Err(_) => Err(AllocError),
    }
}

// Computes the summary of an inner node, and stores it in the parent. Returns the parent's summary
// and the inner node's old one. If a summary fails, the parent is unchanged.
fn ask_inner<K: Key, A: Argument<K>>(
    node: &mut InnerNode<K, A>,
    slot: usize,
    child: &InnerNode<K, A>,
) -> Result<SummaryUpdate<A>, AllocError>
    requires index { slot < length node.old.arguments }
    ensures merges { IfOk result (TakesInner K.cmp A.is_summary node.old slot child.now node.new) }
    ensures sums { IfOk result (λ sums. SumsUp K.cmp A.is_summary node.new sums.above) }
    ensures unchanged { OnErr result (node.new ≡ node.old) }
    ensures infallible { A.needs_no_memory → IsOk result }
{
    let both = A::from_inner(child.keys(), child.arguments())?;
    match resum(node, slot, both) {
        Ok(sums) => Ok(sums),
        Err(_) => Err(AllocError),
    }
}

/// Merges two leaves into the left one; the right one stays empty. Returns the parent's summary,
/// and the separator and the summaries that the parent had. If a summary fails, all three nodes are
/// unchanged.
pub(crate) fn merge_leaves<K: Key, V: Drop, A: Argument<K>>(
    node: &mut InnerNode<K, A>,
    slot: usize,
    left: &mut LeafNode<K, V>,
    right: &mut LeafNode<K, V>,
) -> Result<(A, ParentEntry<K, A>), AllocError>
    requires index { HasChildAt node.old (slot + 1) }
    requires most { length node.old.keys ≤ 64 }
    requires fits { length left.old.pairs + length right.old.pairs ≤ 64 }
    ensures merges { IfOk result (λ done. MergesLeaves K.cmp A.is_summary slot node.old left.old right.old node.new left.new right.new done.1) }
    ensures sums { IfOk result (λ done. SumsUp K.cmp A.is_summary node.new done.0) }
    ensures node { OnErr result (node.new ≡ node.old) }
    ensures left { OnErr result (left.new ≡ left.old) }
    ensures right { OnErr result (right.new ≡ right.old) }
    ensures infallible { A.needs_no_memory → IsOk result }
{
    let kept = left.len();
    let next = left.next();
    left.append_node(right);
    let (separator, child, old) = node.remove_at(slot);
    match resummarize_leaf(node, slot, left) {
        Ok(SummaryUpdate { above, old: before }) => {
            let joint = ParentEntry {
                left: before,
                separator,
                right: old,
            };
            Ok((above, joint))
        }
        Err(refusal) => {
            node.insert_at(slot, separator, child, old);
            left.move_tail_to(kept, right);
            left.set_next(next);
            Err(refusal)
        }
    }
}

/// Undoes `merge_leaves`, before which the left leaf had `kept` pairs.
pub(crate) fn undo_merge_leaves<K: Key, V: Drop, A: Argument<K>>(
    node: &mut InnerNode<K, A>,
    slot: usize,
    joint: ParentEntry<K, A>,
    child: NodeId,
    left: &mut LeafNode<K, V>,
    kept: usize,
    next: Option<LeafNodeId>,
    right: &mut LeafNode<K, V>,
)
    requires index { HasChildAt node.old slot }
    requires room { length node.old.keys < 64 }
    requires kept { kept ≤ length left.old.pairs }
    requires empty { right.old.pairs ≡ [] }
    ensures undoes { UndoesMergeLeaves K.cmp A.is_summary slot joint node.old left.old right.old node.new left.new right.new child kept next }
{
    node.set_argument(slot, joint.left);
    node.insert_at(slot, joint.separator, child, joint.right);
    left.move_tail_to(kept, right);
    left.set_next(next);
}

/// Rotates a child from one inner node to its sibling. The separator moves down to the sibling, and
/// a key of the giver moves up. Returns the parent's summary, and the summaries that the parent
/// had. If a summary fails, all three nodes are unchanged.
pub(crate) fn rotate_inners<K: Key, A: Argument<K>>(
    node: &mut InnerNode<K, A>,
    slot: usize,
    giver: Sibling,
    left: &mut InnerNode<K, A>,
    right: &mut InnerNode<K, A>,
) -> Result<(A, ChildSummaries<A>), AllocError>
    requires index { HasChildAt node.old (slot + 1) }
    requires most { length node.old.keys ≤ 64 }
    requires rotates { CanGive giver (length left.old.keys) (length right.old.keys) }
    requires left { 0 < length left.old.children }
    requires right { 0 < length right.old.children }
    ensures rotates { IfOk result (λ done. RotatesInners K.cmp A.is_summary giver slot node.old left.old right.old node.new left.new right.new done.1) }
    ensures sums { IfOk result (λ done. SumsUp K.cmp A.is_summary node.new done.0) }
    ensures node { OnErr result (node.new ≡ node.old) }
    ensures left { OnErr result (left.new ≡ left.old) }
    ensures right { OnErr result (right.new ≡ right.old) }
    ensures infallible { A.needs_no_memory → IsOk result }
{
    let (separator, child, old) = node.remove_at(slot);
    let up = move_child(giver, left, separator, right);
    match resummarize_inners(node, slot, child, left, up, right) {
        Ok(SummaryUpdate { above, old: before }) => {
            let sides = ChildSummaries {
                left: before,
                right: old,
            };
            Ok((above, sides))
        }
        Err(up) => {
            let separator = move_child(giver.other(), left, up, right);
            node.insert_at(slot, separator, child, old);
            Err(AllocError)
        }
    }
}

/// Undoes `rotate_inners`.
pub(crate) fn undo_rotate_inners<K: Key, A: Argument<K>>(
    node: &mut InnerNode<K, A>,
    slot: usize,
    giver: Sibling,
    sides: ChildSummaries<A>,
    left: &mut InnerNode<K, A>,
    right: &mut InnerNode<K, A>,
)
    requires index { HasChildAt node.old (slot + 1) }
    requires most { length node.old.keys ≤ 64 }
    requires rotates { CanGive (other_of giver) (length left.old.keys) (length right.old.keys) }
    requires left { 0 < length left.old.children }
    requires right { 0 < length right.old.children }
    ensures undoes { UndoesRotateInners K.cmp A.is_summary slot sides node.old left.old right.old node.new left.new right.new giver }
{
    let (up, child, _) = node.remove_at(slot);
    let separator = move_child(giver.other(), left, up, right);
    node.set_argument(slot, sides.left);
    node.insert_at(slot, separator, child, sides.right);
}

/// Merges two inner nodes into the left one, with the separator between; the right one stays as an
/// empty shell. Returns the parent's summary, and the summaries that the parent had. If a summary
/// fails, all three nodes are unchanged.
pub(crate) fn merge_inners<K: Key, A: Argument<K>>(
    node: &mut InnerNode<K, A>,
    slot: usize,
    left: &mut InnerNode<K, A>,
    right: &mut InnerNode<K, A>,
) -> Result<(A, ChildSummaries<A>), AllocError>
    requires index { HasChildAt node.old (slot + 1) }
    requires most { length node.old.keys ≤ 64 }
    requires left { 0 < length left.old.children }
    requires right { 0 < length right.old.children }
    requires fits { length left.old.keys + length right.old.keys < 64 }
    ensures merges { IfOk result (λ done. MergesInners K.cmp A.is_summary slot node.old left.old right.old node.new left.new right.new done.1) }
    ensures sums { IfOk result (λ done. SumsUp K.cmp A.is_summary node.new done.0) }
    ensures node { OnErr result (node.new ≡ node.old) }
    ensures left { OnErr result (left.new ≡ left.old) }
    ensures right { OnErr result (right.new ≡ right.old) }
    ensures infallible { A.needs_no_memory → IsOk result }
{
    let kept = left.len();
    right.recall();
    let (separator, child, old) = node.remove_at(slot);
    left.append_node(separator, right);
    match ask_inner(node, slot, left) {
        Ok(SummaryUpdate { above, old: before }) => {
            let sides = ChildSummaries {
                left: before,
                right: old,
            };
            Ok((above, sides))
        }
        Err(refusal) => {
            let separator = left.move_tail_to(kept + 1, right);
            node.insert_at(slot, separator, child, old);
            Err(refusal)
        }
    }
}

/// Undoes `merge_inners`, before which the left node had `kept` keys.
pub(crate) fn undo_merge_inners<K: Key, A: Argument<K>>(
    node: &mut InnerNode<K, A>,
    slot: usize,
    sides: ChildSummaries<A>,
    child: NodeId,
    left: &mut InnerNode<K, A>,
    kept: usize,
    right: &mut InnerNode<K, A>,
)
    requires index { HasChildAt node.old slot }
    requires room { length node.old.keys < 64 }
    requires kept { kept < length left.old.keys }
    requires most { kept ≤ 64 }
    requires shell { right.old.children ≡ [] }
    ensures undoes { UndoesMergeInners K.cmp A.is_summary slot sides node.old left.old right.old node.new left.new right.new child kept }
{
    let separator = left.move_tail_to(kept + 1, right);
    node.set_argument(slot, sides.left);
    node.insert_at(slot, separator, child, sides.right);
}
