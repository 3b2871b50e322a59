//! Summaries of the keys between two ends.
ghost use Rattle.std.specs.Prelude.{◌≡◌, ◌≤◌, None, Some, IfOk, length};
ghost use Rattle.std.specs.Map.{keys_of};
ghost use Rattle.std.specs.declared.cmp.Ordering.TheVariants.{Less};
ghost use Rattle.bptree_keys.specs.Ranges.{between};
ghost use Rattle.bptree_ranges.specs.Summaries.{SumsUpBeside, SumsUpBoth, SumsUpRange, SumsUpSome, SumsUpBetween, SumsUpSomeBetween, SumsUpSomeIn};
ghost use Rattle.bptree_invariant.specs.Shape.{pairs_at};
ghost use Rattle.bptree_search.specs.ByArgument.{IsSubtree};
ghost use Rattle.bptree_ranges.specs.Counting.{CountsBelowIn, CountsShortIn, CountsSmallerIn};

use bptree_arguments::argument::Argument;
use bptree_invariant::nodes::Nodes;
use bptree_keys::end::Side;
use bptree_keys::key::Key;
use bptree_keys::node_id::NodeId;
use bptree_nodes::leaf_node::LeafNode;
use bptree_search::neighbours::slot_beside;
use bptree_stores::node_stores::NodeStore;
use std::alloc::{AllocError, Global};
use std::cmp::Ordering;

/// Returns a summary of the keys that are not below `lo` and are below `hi`, if they are given.
///
/// It makes one descent to the node at which the paths to both ends part, and from there one for
/// each end. On each level it sums up the summaries of the children between the two paths, and in
/// the last step the keys of one leaf for each end. It fails only if the argument does, or if an
/// allocation of room for two summaries fails.
pub fn summary_between<S: NodeStore>(
    tree: &Nodes<S>,
    lo: Option<&S::K>,
    hi: Option<&S::K>,
) -> Result<S::Argument, AllocError>
    ensures { IfOk result (SumsUpBetween S.K.cmp S.Argument.is_summary tree.now.contents lo.entry hi.entry) }
{
    tree.recall();
    match some_between(&tree.store, tree.root, tree.height, lo, hi)? {
        Some(summary) => Ok(summary),
        None => Ok(Default::default()),
    }
}

// Returns a summary of the keys that are not below `lo` and are below `hi`, if they are given, or
// `None` if there is no such key.
fn some_between<S: NodeStore>(
    store: &S,
    root: NodeId,
    height: usize,
    lo: Option<&S::K>,
    hi: Option<&S::K>,
) -> Result<Option<S::Argument>, AllocError>
    requires { IsSubtree S.K.cmp S.Argument.is_summary (S.slots store.now) height root }
    ensures { IfOk result (SumsUpSomeBetween S.K.cmp S.Argument.is_summary (S.slots store.now) height root lo.entry hi.entry) }
{
    match (lo, hi) {
        (None, None) => summary_of_all(store, root, height),
        (Some(lo), None) => summary_beside(store, root, height, lo, Side::After),
        (None, Some(hi)) => summary_beside(store, root, height, hi, Side::Before),
        (Some(lo), Some(hi)) => match lo.cmp(hi) {
            Ordering::Less => summary_within(store, root, height, lo, hi),
            Ordering::Equal | Ordering::Greater => Ok(None),
        },
    }
}

// Returns a summary of the keys below a node, or `None` if there are no keys.
fn summary_of_all<S: NodeStore>(
    store: &S,
    id: NodeId,
    height: usize,
) -> Result<Option<S::Argument>, AllocError>
    requires { IsSubtree S.K.cmp S.Argument.is_summary (S.slots store.now) height id }
    ensures { IfOk result (SumsUpSome S.Argument.is_summary (keys_of (between S.K.cmp (pairs_at (S.slots store.now) height id) None None))) }
{
    match id {
        NodeId::Leaf(leaf) => summary_in_leaf(store.get_leaf(leaf), None, None),
        NodeId::Inner(inner) => {
            let arguments = store.get_inner(inner).arguments();
            sum_of_some(arguments, 0, arguments.len())
        }
    }
}

// Returns a summary of the keys below a node on one side of a key, or `None` if there are no such
// keys. An equal key is on the side `After`.
fn summary_beside<S: NodeStore>(
    store: &S,
    id: NodeId,
    height: usize,
    key: &S::K,
    side: Side,
) -> Result<Option<S::Argument>, AllocError>
    requires { IsSubtree S.K.cmp S.Argument.is_summary (S.slots store.now) height id }
    ensures { IfOk result (SumsUpBeside S.K.cmp S.Argument.is_summary (S.slots store.now) height id key.now side) }
{
    match id {
        NodeId::Leaf(leaf) => {
            let node = store.get_leaf(leaf);
            match side {
                Side::Before => summary_in_leaf(node, None, Some(key)),
                Side::After => summary_in_leaf(node, Some(key), None),
            }
        }
        NodeId::Inner(inner) => {
            let node = store.get_inner(inner);
            let (index, child) = node.locate_child(key);
            let part = summary_beside(store, child, height - 1, key, side)?;
            let arguments = node.arguments();
            match side {
                Side::Before => {
                    let front = sum_of_some(arguments, 0, index)?;
                    sum_of_both(store.allocator(), front, part)
                }
                Side::After => {
                    let back = sum_of_some(arguments, index + 1, arguments.len())?;
                    sum_of_both(store.allocator(), part, back)
                }
            }
        }
    }
}

// Returns a summary of the keys below a node that are not below `lo` and are below `hi`, or `None`
// if there are no such keys.
fn summary_within<S: NodeStore>(
    store: &S,
    id: NodeId,
    height: usize,
    lo: &S::K,
    hi: &S::K,
) -> Result<Option<S::Argument>, AllocError>
    requires subtree { IsSubtree S.K.cmp S.Argument.is_summary (S.slots store.now) height id }
    requires apart { S.K.cmp lo.now hi.now ≡ Less }
    ensures { IfOk result (SumsUpSome S.Argument.is_summary (keys_of (between S.K.cmp (pairs_at (S.slots store.now) height id) (Some lo.now) (Some hi.now)))) }
{
    match id {
        NodeId::Leaf(leaf) => summary_in_leaf(store.get_leaf(leaf), Some(lo), Some(hi)),
        NodeId::Inner(inner) => {
            let node = store.get_inner(inner);
            let (from, first) = node.locate_child(lo);
            let (to, last) = node.locate_child(hi);
            if from == to {
                return summary_within(store, first, height - 1, lo, hi);
            }
            let front = summary_beside(store, first, height - 1, lo, Side::After)?;
            let middle = sum_of_some(node.arguments(), from + 1, to)?;
            let back = summary_beside(store, last, height - 1, hi, Side::Before)?;
            let rest = sum_of_both(store.allocator(), middle, back)?;
            sum_of_both(store.allocator(), front, rest)
        }
    }
}

// Returns a summary of the keys of a leaf that are not below `lo` and are below `hi`, if they are
// given, or `None` if there are no such keys.
fn summary_in_leaf<'a, K: Key, V: Drop, A: Argument<K>>(
    leaf: &'a LeafNode<K, V>,
    lo: Option<&'a K>,
    hi: Option<&'a K>,
) -> Result<Option<A>, AllocError>
    ensures { IfOk result (SumsUpSomeIn K.cmp A.is_summary leaf.now lo.entry hi.entry) }
{
    let from = start_in(leaf, lo);
    let to = end_in(leaf, hi);
    if to <= from {
        return Ok(None);
    }
    Ok(Some(A::from_leaf(&leaf.keys()[from..to])?))
}

// Returns how many keys of a leaf are below `lo`, or 0 if it is not given.
fn start_in<K: Key, V: Drop>(leaf: &LeafNode<K, V>, lo: Option<&K>) -> usize
    ensures within { result ≤ length leaf.now.pairs }
    ensures short { CountsShortIn K.cmp leaf.now lo.entry result }
{
    match lo {
        Some(lo) => slot_of(leaf, lo),
        None => 0,
    }
}

// Returns how many keys of a leaf are below `hi`, or all if it is not given.
fn end_in<K: Key, V: Drop>(leaf: &LeafNode<K, V>, hi: Option<&K>) -> usize
    ensures within { result ≤ length leaf.now.pairs }
    ensures below { CountsBelowIn K.cmp leaf.now hi.entry result }
{
    match hi {
        Some(hi) => slot_of(leaf, hi),
        None => leaf.len(),
    }
}

// Returns how many keys of a leaf are smaller than `key`.
pub(crate) fn slot_of<K: Key, V: Drop>(leaf: &LeafNode<K, V>, key: &K) -> usize
    ensures within { result ≤ length leaf.now.pairs }
    ensures smaller { CountsSmallerIn K.cmp leaf.now key.now result }
{
    slot_beside(leaf.locate_slot(key), Side::Before)
}

// Returns a summary of all keys below the children of a node from index `from` up to `to`, computed
// from the children's summaries, or `None` if there are no such children.
//
// The law of summaries holds whatever the separators are, so the call passes no separators.
fn sum_of_some<K: Key, A: Argument<K>>(
    arguments: &[A],
    from: usize,
    to: usize,
) -> Result<Option<A>, AllocError>
    requires { to ≤ length arguments.now }
    ensures { IfOk result (SumsUpRange A.is_summary K.cmp arguments.now from to) }
{
    if to <= from {
        return Ok(None);
    }
    Ok(Some(A::from_inner(&[], &arguments[from..to])?))
}

// Returns a summary of two lists of keys, one before the other, or `None` if both are empty. If
// both have a key, it allocates room for two summaries.
fn sum_of_both<K: Key, A: Argument<K>>(
    alloc: Global,
    first: Option<A>,
    second: Option<A>,
) -> Result<Option<A>, AllocError>
    ensures { IfOk result (SumsUpBoth A.is_summary K.cmp first second) }
{
    match (first, second) {
        (Some(one), Some(other)) => {
            let mut both = Vec::with_capacity(alloc, 2)?;
            both.push(one)?;
            both.push(other)?;
            Ok(Some(A::from_inner(&[], &both)?))
        }
        (Some(one), None) => Ok(Some(one)),
        (None, other) => Ok(other),
    }
}
