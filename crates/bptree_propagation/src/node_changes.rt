//! Changes of an inner node's entries and of its children's summaries, with the node's own new
//! summary. Each change can be undone.
ghost use Rattle.std.specs.Prelude.{◌≡◌, ◌<◌, ◌≤◌, ◌+◌, List, [], length, slice_get, Some, IfOk, IfErr, IsOk, OnErr};
ghost use Rattle.bptree_nodes.specs.Inner.{HasKeys};
ghost use Rattle.bptree_propagation.specs.Sums.{SumsUp, with_summary, HasChildAt, IsNodeCut, with_division};
ghost use Rattle.bptree_propagation.specs.Undoing.{GivesEntry, UndoesCut, UndoesDivision};

use bptree_arguments::argument::Argument;
use bptree_keys::key::Key;
use bptree_keys::node_id::NodeId;
use bptree_nodes::inner_node::InnerNode;

/// A node that was split: the summary of what it has left, the key before the node to its right,
/// that node's id and its summary.
#[derive(Drop)]
pub struct NodeSplit<K, A> {
    pub left: A,
    pub separator: K,
    pub node: NodeId,
    pub right: A,
}

/// A node's summary after one of its children changed, and that child's old summary.
#[derive(Drop)]
pub struct SummaryUpdate<A> {
    pub above: A,
    pub old: A,
}

/// An inner node that was split: the summaries of both halves, the key between them, the right half
/// or its id, and the child's old summary.
#[derive(Drop)]
pub struct SplitNode<K, A, N> {
    pub left: A,
    pub up: K,
    pub node: N,
    pub right: A,
    pub old: A,
}

/// Replaces a child's summary, and returns the node's new summary and the child's old one. If the
/// node's summary fails, it returns the child's new one, and the node is unchanged.
pub fn resum<K: Key, A: Argument<K>>(
    node: &mut InnerNode<K, A>,
    index: usize,
    summary: A,
) -> Result<SummaryUpdate<A>, A>
    requires index { index < length node.old.arguments }
    ensures after { IfOk result (λ sums. node.new ≡ with_summary node.old index summary) }
    ensures old { IfOk result (λ sums. slice_get node.old.arguments index ≡ Some sums.old) }
    ensures sums { IfOk result (λ sums. SumsUp K.cmp A.is_summary node.new sums.above) }
    ensures unchanged { OnErr result (node.new ≡ node.old) }
    ensures returned { IfErr result (λ back. back ≡ summary) }
    ensures infallible { A.needs_no_memory → IsOk result }
{
    let old = node.set_argument(index, summary);
    match A::from_inner(node.keys(), node.arguments()) {
        Ok(above) => Ok(SummaryUpdate { above, old }),
        Err(_) => Err(node.set_argument(index, old)),
    }
}

/// Inserts the node to the right of a split child into a node that has room, and returns the node's
/// new summary and the child's old one. If the node's summary fails, it returns the division, and
/// the node is unchanged.
pub fn insert_child_entry<K: Key, A: Argument<K>>(
    node: &mut InnerNode<K, A>,
    index: usize,
    division: NodeSplit<K, A>,
) -> Result<SummaryUpdate<A>, NodeSplit<K, A>>
    requires index { HasChildAt node.old index }
    requires room { length node.old.keys < 64 }
    ensures after { IfOk result (λ sums. node.new ≡ with_division node.old index division) }
    ensures old { IfOk result (λ sums. slice_get node.old.arguments index ≡ Some sums.old) }
    ensures sums { IfOk result (λ sums. SumsUp K.cmp A.is_summary node.new sums.above) }
    ensures unchanged { OnErr result (node.new ≡ node.old) }
    ensures returned { IfErr result (λ back. back ≡ division) }
    ensures infallible { A.needs_no_memory → IsOk result }
{
    let old = node.set_argument(index, division.left);
    node.insert_at(index, division.separator, division.node, division.right);
    match A::from_inner(node.keys(), node.arguments()) {
        Ok(above) => Ok(SummaryUpdate { above, old }),
        Err(_) => Err(undo_insert_child_entry(node, index, old)),
    }
}

/// Undoes `insert_child_entry`, and returns the division that the node had taken.
pub fn undo_insert_child_entry<K: Key, A: Argument<K>>(
    node: &mut InnerNode<K, A>,
    index: usize,
    old: A,
) -> NodeSplit<K, A>
    requires index { index < length node.old.keys }
    requires children { length node.old.children ≡ length node.old.keys + 1 }
    requires arguments { length node.old.arguments ≡ length node.old.children }
    ensures undoes { UndoesDivision index old node.old node.new result }
{
    let entry = node.remove_at(index);
    restore_summary(node, index, old, entry)
}

// Restores a child's old summary. It returns the division that the node had taken: the summary that
// is replaced, and the entry that the node gave up.
pub(crate) fn restore_summary<K: Key, A: Argument<K>>(
    node: &mut InnerNode<K, A>,
    index: usize,
    old: A,
    entry: (K, NodeId, A),
) -> NodeSplit<K, A>
    requires index { index < length node.old.arguments }
    ensures after { node.new ≡ with_summary node.old index old }
    ensures left { slice_get node.old.arguments index ≡ Some result.left }
    ensures entry { GivesEntry entry result }
{
    let left = node.set_argument(index, old);
    let (separator, child, right) = entry;
    NodeSplit {
        left,
        separator,
        node: child,
        right,
    }
}

/// Inserts the node to the right of a split child into a full node, which is split in turn. If a
/// summary fails, it returns the division, and the node is unchanged.
pub fn take_and_split<K: Key, A: Argument<K>>(
    node: &mut InnerNode<K, A>,
    index: usize,
    division: NodeSplit<K, A>,
    room: Box<InnerNode<K, A>>,
) -> Result<SplitNode<K, A, Box<InnerNode<K, A>>>, NodeSplit<K, A>>
    requires index { HasChildAt node.old index }
    requires full { length node.old.keys ≡ 64 }
    requires shell { room.value.children ≡ [] }
    ensures after { IfOk result (λ parts. IsNodeCut (with_division node.old index division) node.new parts.up parts.node.value) }
    ensures old { IfOk result (λ parts. slice_get node.old.arguments index ≡ Some parts.old) }
    ensures left { IfOk result (λ parts. SumsUp K.cmp A.is_summary node.new parts.left) }
    ensures right { IfOk result (λ parts. SumsUp K.cmp A.is_summary parts.node.value parts.right) }
    ensures unchanged { OnErr result (node.new ≡ node.old) }
    ensures returned { IfErr result (λ back. back ≡ division) }
{
    let old = node.set_argument(index, division.left);
    let (up, half) = node.split(
        index,
        division.separator,
        division.node,
        division.right,
        room,
    );
    let Ok(left) = A::from_inner(node.keys(), node.arguments()) else {
        return Err(undo_take_and_split(node, index, up, half, old));
    };
    let Ok(right) = A::from_inner(half.keys(), half.arguments()) else {
        return Err(undo_take_and_split(node, index, up, half, old));
    };
    Ok(SplitNode {
        left,
        up,
        node: half,
        right,
        old,
    })
}

/// Undoes `take_and_split`, and returns the division that the node had taken.
pub fn undo_take_and_split<K: Key, A: Argument<K>>(
    node: &mut InnerNode<K, A>,
    index: usize,
    up: K,
    half: Box<InnerNode<K, A>>,
    old: A,
) -> NodeSplit<K, A>
    requires left { HasKeys 32 node.old }
    requires right { HasKeys 32 half.value }
    requires index { index ≤ 64 }
    ensures undoes { UndoesCut index old node.old up half.value node.new result }
{
    let entry = node.undo_split(index, up, half);
    restore_summary(node, index, old, entry)
}
