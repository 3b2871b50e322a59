//! The pairs of an owned tree, one by one from both ends.
ghost use Rattle.std.specs.Prelude.{◌≡◌, ◌≤◌, ◌++◌, Some, length, IfSome};
ghost use Rattle.std.specs.Iterator.{at_most, item_count, UpTo};
ghost use Rattle.std.specs.Iterator.SizeHint.{IsWithinCount};
ghost use Rattle.std.specs.Map.Iter.{TakesFirst, TakesLast, GivesInOrder, GivesInReverse};
ghost use Rattle.bptree_keys.specs.Contents.{IsAscending};
ghost use Rattle.bptree_tree.specs.Chain.{TakesEnd, TakesEndOfAll};

use crate::chain::Chain;
use crate::tree::BPlusTree;
use bptree_keys::end::End;
use bptree_nodes::leaf_node::LeafNode;
use bptree_nodes::leaf_pairs::LeafPairs;
use bptree_stores::node_stores::NodeStore;
use std::iter::{ExactSizeIterator, FusedIterator};
use std::marker::Model;

/// An iterator that owns the pairs of a tree, in the order of their keys. It drops the pairs that
/// are left when it is dropped.
///
/// O(1) a step. A step moves one pair, and the first step into a leaf takes that leaf out of its
/// store. No step allocates or fails.
#[derive(Drop)]
pub struct IntoIter<S: NodeStore> {
    leaves: Chain<S>,
    // The leaves that are open at both ends.
    front: LeafPairs<S::K, S::V>,
    back: LeafPairs<S::K, S::V>,
    len: usize,
}

impl<S: NodeStore> Model for IntoIter<S> {
    ghost use Rattle.std.specs.Prelude.{◌≡◌, ◌++◌, List, length};

    ghost Value = { List (S.K × S.V) };

    ghost view = { λ it. it.front ++ (it.leaves ++ it.back) };

    ghost invariant = { λ it. it.len ≡ length (it.front ++ (it.leaves ++ it.back)) };
}

impl<S: NodeStore> IntoIter<S> {
    /// All pairs of the tree. It allocates nothing.
    ///
    /// O(log n) to begin, and O(1) a step. It cannot fail.
    pub fn new(tree: BPlusTree<S>) -> Self
        ensures rest { result ≡ tree.contents }
        ensures ascending { IsAscending S.K.cmp tree.contents }
        ensures runs { GivesInOrder (S.K × S.V) }
        ensures runs_back { GivesInReverse (S.K × S.V) }
    {
        let BPlusTree {
            nodes,
            statistic: _,
            path: _,
        } = tree;
        let alloc = nodes.store.allocator();
        let len = nodes.len();
        IntoIter {
            leaves: Chain::of(nodes),
            front: LeafPairs::new(alloc),
            back: LeafPairs::new(alloc),
            len,
        }
    }
}

impl<S: NodeStore> BPlusTree<S> {
    /// An iterator that moves the pairs out, in the order of their keys.
    ///
    /// O(log n) to begin, and O(1) a step. Neither it nor a step allocates or fails.
    pub fn into_iter(self) -> IntoIter<S>
        ensures rest { result ≡ self.contents }
        ensures ascending { IsAscending S.K.cmp self.contents }
        ensures runs { GivesInOrder (S.K × S.V) }
        ensures runs_back { GivesInReverse (S.K × S.V) }
    {
        IntoIter::new(self)
    }
}

impl<S: NodeStore> IntoIterator for BPlusTree<S> {
    type Item = (S::K, S::V);

    type IntoIter = IntoIter<S>;

    ghost into_iter_gives = { λ tree pairs. (pairs ≡ tree.contents) × IsAscending S.K.cmp tree.contents × GivesInOrder (S.K × S.V) × GivesInReverse (S.K × S.V) };

    fn into_iter(self) -> IntoIter<S> {
        IntoIter::new(self)
    }
}

// The first pair of an open leaf, or the last one.
#[inline(always)]
fn pair_at_end<K: Drop, V: Drop>(pairs: &mut LeafPairs<K, V>, end: End) -> Option<(K, V)>
    ensures { TakesEnd end pairs.old result pairs.new }
{
    match end {
        End::Front => pairs.next(),
        End::Back => pairs.next_back(),
    }
}

// Takes the pair at an end of all leaves that are left: the open leaf near that end, the leaves
// between, and the open leaf far from it.
#[inline(always)]
fn pair_left<S: NodeStore>(
    near: &mut LeafPairs<S::K, S::V>,
    leaves: &mut Chain<S>,
    far: &mut LeafPairs<S::K, S::V>,
    end: End,
) -> Option<(S::K, S::V)>
    ensures { TakesEndOfAll end near.old leaves.old far.old result near.new leaves.new far.new }
{
    match pair_at_end(near, end) {
        Some(pair) => return Some(pair),
        None => {}
    }
    match leaves.take_end(end) {
        Some(leaf) => {
            *near = LeafNode::into_pairs(leaf);
            pair_at_end(near, end)
        }
        None => pair_at_end(far, end),
    }
}

impl<S: NodeStore> IntoIter<S> {
    // The keys of the next leaf that a step from the front opens. The slice is empty if no further
    // leaf is left.
    pub(crate) fn next_keys(&self) -> &[S::K]
        ensures { length result.now ≤ 64 }
    {
        self.leaves.next_keys()
    }

    // The first pair that is left, or the last one.
    #[inline(always)]
    fn pair_at(&mut self, end: End) -> Option<(S::K, S::V)>
        ensures { TakesEnd end self.old result self.new }
    {
        if self.len == 0 {
            return None;
        }
        self.len -= 1;
        match end {
            End::Front => pair_left(&mut self.front, &mut self.leaves, &mut self.back, end),
            End::Back => pair_left(&mut self.back, &mut self.leaves, &mut self.front, end),
        }
    }
}

impl<S: NodeStore> Iterator for IntoIter<S> {
    type Item = (S::K, S::V);

    ghost next_gives = { TakesFirst (λ pair. pair) };

    ghost remaining = { item_count (λ left. left) };

    // A call would return the pair in memory, written as two words and read as one, and the
    // processor waits for such a read.
    #[inline(always)]
    fn next(&mut self) -> Option<(S::K, S::V)> {
        self.pair_at(End::Front)
    }

    fn size_hint(&self) -> (usize, Option<usize>)
        ensures lower { IsWithinCount result.0 (at_most (length self.now)) }
        ensures upper { IfSome result.1 (UpTo (at_most (length self.now))) }
        ensures exact { result ≡ (length self.now, Some (length self.now)) }
    {
        (self.len, Some(self.len))
    }
}

impl<S: NodeStore> DoubleEndedIterator for IntoIter<S> {
    ghost next_back_gives = { TakesLast (λ pair. pair) };

    fn next_back(&mut self) -> Option<(S::K, S::V)> {
        self.pair_at(End::Back)
    }
}

impl<S: NodeStore> ExactSizeIterator for IntoIter<S> {
    fn len(&self) -> usize {
        self.len
    }
}

impl<S: NodeStore> FusedIterator for IntoIter<S> {}
