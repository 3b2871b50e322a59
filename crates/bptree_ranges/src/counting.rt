//! The number of keys between two ends, in a tree of counts.
ghost use Rattle.std.specs.Prelude.{◌≡◌, length};
ghost use Rattle.bptree_arguments.specs.CountLaws.{CountsKeys};
ghost use Rattle.bptree_invariant.specs.Shape.{pairs_at};
ghost use Rattle.bptree_search.specs.ByArgument.{IsSubtree};
ghost use Rattle.bptree_ranges.specs.Counting.{CountsBelow, CountsShort, CountsSmaller};
ghost use Rattle.bptree_ranges.specs.InTree.{HasAsManyBetween, HasCounts};

use crate::summaries::slot_of;
use bptree_arguments::count::{Count, total_of};
use bptree_invariant::nodes::Nodes;
use bptree_keys::node_id::NodeId;
use bptree_stores::node_stores::NodeStore;

/// Returns how many keys are not below `lo` and are below `hi`, if they are given.
///
/// It makes one descent of O(height) steps for each end that is given. On each level it adds up the
/// counts of the children before the one that the end leads to. It allocates nothing and cannot
/// fail.
pub fn len_between<S: NodeStore<Argument = Count>>(
    tree: &Nodes<S>,
    lo: Option<&S::K>,
    hi: Option<&S::K>,
) -> usize
    requires { HasCounts S.slots tree.now S.K.cmp }
    ensures { HasAsManyBetween S.slots tree.now S.K.cmp lo.entry hi.entry result }
{
    let len = tree.len();
    let from = count_before(&tree.store, tree.root, tree.height, lo);
    let to = count_upto(&tree.store, tree.root, tree.height, len, hi);
    to.saturating_sub(from)
}

// Returns how many keys are below `lo`, or 0 if it is not given.
fn count_before<S: NodeStore<Argument = Count>>(
    store: &S,
    root: NodeId,
    height: usize,
    lo: Option<&S::K>,
) -> usize
    requires { IsSubtree S.K.cmp CountsKeys (S.slots store.now) height root }
    ensures { CountsShort S.K.cmp (S.slots store.now) height root lo.entry result }
{
    match lo {
        Some(lo) => count_smaller(store, root, height, lo),
        None => 0,
    }
}

// Returns how many keys are below `hi`, or all `len` if it is not given.
fn count_upto<S: NodeStore<Argument = Count>>(
    store: &S,
    root: NodeId,
    height: usize,
    len: usize,
    hi: Option<&S::K>,
) -> usize
    requires subtree { IsSubtree S.K.cmp CountsKeys (S.slots store.now) height root }
    requires all { len ≡ length (pairs_at (S.slots store.now) height root) }
    ensures { CountsBelow S.K.cmp (S.slots store.now) height root hi.entry result }
{
    match hi {
        Some(hi) => count_smaller(store, root, height, hi),
        None => len,
    }
}

// Returns how many keys below a node are smaller than `key`.
fn count_smaller<S: NodeStore<Argument = Count>>(
    store: &S,
    id: NodeId,
    height: usize,
    key: &S::K,
) -> usize
    requires { IsSubtree S.K.cmp CountsKeys (S.slots store.now) height id }
    ensures { CountsSmaller S.K.cmp (S.slots store.now) height id key.now result }
{
    match id {
        NodeId::Leaf(leaf) => slot_of(store.get_leaf(leaf), key),
        NodeId::Inner(inner) => {
            let node = store.get_inner(inner);
            let (index, child) = node.locate_child(key);
            let smaller = count_smaller(store, child, height - 1, key);
            total_of(smaller, &node.arguments()[..index])
        }
    }
}
