//! The leaves of a tree whose pairs a closure keeps, each pair in its own leaf or in a neighbour.
ghost use Rattle.std.specs.Prelude.{◌≡◌, ◌+◌, ◌*◌, ◌<◌, ◌≤◌, ◌++◌, [], length, vec_capacity, vec_len, IfOk};
ghost use Rattle.bptree_bulk_load.specs.Rooms.{joined, parts_of};
ghost use Rattle.bptree_nodes.specs.Retaining.{IsRetained};
ghost use Rattle.bptree_tree.specs.Keeping.{pairs_to_last, AreNoneOrAll, AreOpen};

use crate::chain::Chain;
use bptree_invariant::nodes::Nodes;
use bptree_keys::end::End;
use bptree_keys::key::Key;
use bptree_nodes::leaf_node::{LEAF_CAPACITY, LEAF_MINIMUM, LeafNode};
use bptree_stores::node_stores::NodeStore;
use std::alloc::{AllocError, Global};

/// What is allocated before a closure is called for the pairs of a tree. Dropping it changes no
/// tree.
#[derive(Drop)]
pub(crate) struct Keeping<K, V> {
    /// The room for the list of leaves.
    pub(crate) leaves: Vec<Box<LeafNode<K, V>>>,
    /// An empty leaf.
    pub(crate) last: Box<LeafNode<K, V>>,
    /// The room for all pairs, which is used if an allocation fails later.
    pub(crate) spare: Vec<(K, V)>,
}

impl<K: Key, V: Drop> Keeping<K, V> {
    /// What is allocated for a tree of `count` pairs.
    ///
    /// O(1). It makes five allocations at most, and fails only if one of these fails.
    pub(crate) fn new(alloc: Global, count: usize) -> Result<Self, AllocError>
        ensures none { IfOk result (λ keeping. keeping.leaves.items ≡ []) }
        ensures room { IfOk result (λ keeping. count < 16 * vec_capacity keeping.leaves) }
        ensures empty { IfOk result (λ keeping. keeping.last.value.pairs ≡ []) }
        ensures no_pair { IfOk result (λ keeping. keeping.spare.items ≡ []) }
        ensures spare { IfOk result (λ keeping. vec_len keeping.spare + count ≤ vec_capacity keeping.spare) }
    {
        let leaves = Vec::with_capacity(alloc, count / LEAF_MINIMUM + 1)?;
        let last = LeafNode::new(alloc)?;
        let spare = Vec::with_capacity(alloc, count)?;
        Ok(Keeping {
            leaves,
            last,
            spare,
        })
    }
}

// Moves pairs between two neighbours with more than 64 pairs together, so that each has at least
// 16.
fn share<K: Key, V: Drop>(left: &mut LeafNode<K, V>, right: &mut LeafNode<K, V>)
    requires { 64 < length left.old.pairs + length right.old.pairs }
    ensures pairs { left.new.pairs ++ right.new.pairs ≡ left.old.pairs ++ right.old.pairs }
    ensures left { 16 ≤ length left.new.pairs }
    ensures right { 16 ≤ length right.new.pairs }
{
    left.recall();
    right.recall();
    if left.len() < LEAF_MINIMUM {
        right.move_first_to(LEAF_MINIMUM, left);
    } else if right.len() < LEAF_MINIMUM {
        left.move_last_to(LEAF_MINIMUM, right);
    }
}

// Puts a leaf behind others, of which the last is open. Returns the open leaf: the last one with
// the pairs of both if these fit in one leaf, and else the new one.
fn put_leaf<K: Key, V: Drop>(
    leaves: &mut Vec<Box<LeafNode<K, V>>>,
    last: Box<LeafNode<K, V>>,
    leaf: Box<LeafNode<K, V>>,
) -> Box<LeafNode<K, V>>
    requires opened { AreOpen leaves.old.items last }
    requires room { 16 * vec_len leaves.old + (length last.value.pairs + length leaf.value.pairs) ≤ 16 * vec_capacity leaves.old }
    ensures pairs { pairs_to_last leaves.new.items result ≡ pairs_to_last leaves.old.items last ++ leaf.value.pairs }
    ensures opened { AreOpen leaves.new.items result }
    ensures count { 16 * vec_len leaves.new + length result.value.pairs ≤ 16 * vec_len leaves.old + (length last.value.pairs + length leaf.value.pairs) }
    ensures capacity { vec_capacity leaves.new ≡ vec_capacity leaves.old }
{
    let mut last = last;
    let mut leaf = leaf;
    if last.len() + leaf.len() <= LEAF_CAPACITY {
        last.as_mut().merge_right(leaf);
        return last;
    }
    share(last.as_mut(), leaf.as_mut());
    leaves.push_reserved(last);
    leaf
}

// Calls a closure for each pair of some leaves, and puts these leaves, with the pairs for which it
// returns true, into the list `leaves`. Returns the last leaf, which is not in the list. `last` is
// an empty leaf.
fn keep_in<S: NodeStore, F: FnMut(&S::K, &mut S::V) -> bool>(
    chain: &mut Chain<S>,
    leaves: &mut Vec<Box<LeafNode<S::K, S::V>>>,
    last: Box<LeafNode<S::K, S::V>>,
    f: F,
) -> Box<LeafNode<S::K, S::V>>
    requires callable { F.IsAlwaysCallable f }
    requires none { leaves.old.items ≡ [] }
    requires empty { last.value.pairs ≡ [] }
    requires room { length chain.old ≤ 16 * vec_capacity leaves.old }
    ensures retained { IsRetained F.FnMut f chain.old (pairs_to_last leaves.new.items result) }
    ensures opened { AreOpen leaves.new.items result }
    ensures count { 16 * vec_len leaves.new + length result.value.pairs ≤ length chain.old }
    ensures capacity { vec_capacity leaves.new ≡ vec_capacity leaves.old }
{
    let mut f = f;
    let mut last = last;
    'leaves: while let Some(leaf) = chain.take_end(End::Front) {
        let mut leaf = leaf;
        f = leaf.as_mut().retain(f);
        last = put_leaf(leaves, last, leaf);
    }
    last
}

/// Calls a closure for each pair of a tree, in the order of the keys. Returns the leaves of the
/// pairs for which it returns true: no leaf if there is no such pair. `leaves` is an empty list with
/// room for them, and `last` an empty leaf.
///
/// O(n) for n pairs, plus the calls of the closure. It allocates nothing and cannot fail.
pub(crate) fn kept_leaves<S: NodeStore, F: FnMut(&S::K, &mut S::V) -> bool>(
    tree: Nodes<S>,
    leaves: Vec<Box<LeafNode<S::K, S::V>>>,
    last: Box<LeafNode<S::K, S::V>>,
    f: F,
) -> Vec<Box<LeafNode<S::K, S::V>>>
    requires callable { F.IsAlwaysCallable f }
    requires none { leaves.items ≡ [] }
    requires empty { last.value.pairs ≡ [] }
    requires room { length tree.contents < 16 * vec_capacity leaves }
    ensures retained { IsRetained F.FnMut f tree.contents (joined (parts_of result.items)) }
    ensures leaves { AreNoneOrAll S.K.cmp result.items }
    ensures fewer { length (joined (parts_of result.items)) ≤ length tree.contents }
{
    let mut leaves = leaves;
    let mut chain = Chain::of(tree);
    let last = keep_in(&mut chain, &mut leaves, last, f);
    if last.len() == 0 {
        return leaves;
    }
    leaves.push_reserved(last);
    leaves
}
