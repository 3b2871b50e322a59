//! The pairs of a tree from one pair on, for a merge.
ghost use Rattle.std.specs.Prelude.{◌≡◌, ◌+◌, ◌<◌, ◌≤◌, drop, length, take};
ghost use Rattle.std.specs.Map.{keys_of};
ghost use Rattle.std.specs.Option.{option_copied};
ghost use Rattle.bptree_bulk.specs.Cut.{first_key};
ghost use Rattle.bptree_bulk.specs.Positions.{index_of_position, rest_of, IsAtPair, IsLeafOfPosition};
ghost use Rattle.bptree_bulk.specs.Weave.{AreFirstKeys};

use crate::tail::start_of;
use bptree_invariant::nodes::Nodes;
use bptree_keys::node_id::Position;
use bptree_nodes::leaf_node::LeafNode;
use bptree_ranges::ranges::settled;
use bptree_stores::node_stores::NodeStore;
use std::marker::Model;

/// The pairs of a tree from one pair on. No step allocates, and a step within a leaf does not
/// access the store.
#[derive(Drop)]
pub(crate) struct Ahead<'a, S: NodeStore> {
    tree: &'a Nodes<S>,
    // The position of the first of the pairs, or the end of all.
    at: Position,
    // The leaf of that position.
    leaf: &'a LeafNode<S::K, S::V>,
}

impl<'a, S: NodeStore> Model for Ahead<'a, S> {
    ghost use Rattle.std.specs.Prelude.{List};
    ghost use Rattle.bptree_bulk.specs.Positions.{rest_of, IsAtPair, IsLeafOfPosition};

    ghost Value = { List (S.K × S.V) };

    ghost view = { λ a. rest_of S.slots a.tree.now a.at };

    ghost invariant = { λ a. IsAtPair S.slots a.tree.now a.at × IsLeafOfPosition S.slots a.tree.now a.at a.leaf.now };
}

// The key of the pair at a position, if one is there.
#[inline(always)]
pub(crate) fn key_in<'a, S: NodeStore>(
    tree: &'a Nodes<S>,
    leaf: &'a LeafNode<S::K, S::V>,
    at: Position,
) -> Option<&'a S::K>
    requires at { IsAtPair S.slots tree.now at }
    requires leaf { IsLeafOfPosition S.slots tree.now at leaf.now }
    ensures { option_copied result ≡ first_key (rest_of S.slots tree.now at) }
{
    tree.recall();
    if at.slot < leaf.len() {
        Some(leaf.data_at(at.slot).0)
    } else {
        None
    }
}

// The key of the pair at a position, as a slice of one key.
#[inline(always)]
fn key_slice_in<'a, S: NodeStore>(
    tree: &'a Nodes<S>,
    leaf: &'a LeafNode<S::K, S::V>,
    at: Position,
) -> &'a [S::K]
    requires at { IsAtPair S.slots tree.now at }
    requires leaf { IsLeafOfPosition S.slots tree.now at leaf.now }
    requires some { index_of_position S.slots tree.now at < length tree.now.contents }
    ensures { result.now ≡ keys_of (take 1 (rest_of S.slots tree.now at)) }
{
    tree.recall();
    &leaf.keys()[at.slot..at.slot + 1]
}

// The keys of the pairs from a position on, up to the end of its leaf.
#[inline(always)]
fn keys_in<'a, S: NodeStore>(
    tree: &'a Nodes<S>,
    leaf: &'a LeafNode<S::K, S::V>,
    at: Position,
) -> &'a [S::K]
    requires at { IsAtPair S.slots tree.now at }
    requires leaf { IsLeafOfPosition S.slots tree.now at leaf.now }
    ensures keys { AreFirstKeys result.now (rest_of S.slots tree.now at) }
    ensures few { length result.now ≤ 64 }
{
    tree.recall();
    &leaf.keys()[at.slot..]
}

// The position behind the pair at a position, with its leaf.
#[inline(always)]
fn after<'a, S: NodeStore>(
    tree: &'a Nodes<S>,
    leaf: &'a LeafNode<S::K, S::V>,
    at: Position,
) -> (Position, &'a LeafNode<S::K, S::V>)
    requires at { IsAtPair S.slots tree.now at }
    requires leaf { IsLeafOfPosition S.slots tree.now at leaf.now }
    requires some { index_of_position S.slots tree.now at < length tree.now.contents }
    ensures at { IsAtPair S.slots tree.now result.0 }
    ensures leaf { IsLeafOfPosition S.slots tree.now result.0 result.1.now }
    ensures rest { rest_of S.slots tree.now result.0 ≡ drop 1 (rest_of S.slots tree.now at) }
{
    tree.recall();
    let behind = Position {
        leaf: at.leaf,
        slot: at.slot + 1,
    };
    if behind.slot < leaf.len() {
        return (behind, leaf);
    }
    let next = settled(tree, behind);
    (next, tree.store.get_leaf(next.leaf))
}

// The position `most` pairs behind a position, or the start of the next leaf if that comes first;
// its leaf; and how many pairs behind it is.
fn behind<'a, S: NodeStore>(
    tree: &'a Nodes<S>,
    leaf: &'a LeafNode<S::K, S::V>,
    at: Position,
    most: usize,
) -> (Position, &'a LeafNode<S::K, S::V>, usize)
    requires at { IsAtPair S.slots tree.now at }
    requires leaf { IsLeafOfPosition S.slots tree.now at leaf.now }
    requires some { 0 < most }
    requires within { index_of_position S.slots tree.now at + most ≤ length tree.now.contents }
    ensures at { IsAtPair S.slots tree.now result.0 }
    ensures leaf { IsLeafOfPosition S.slots tree.now result.0 result.1.now }
    ensures some { (0 < result.2) × (result.2 ≤ most) }
    ensures rest { rest_of S.slots tree.now result.0 ≡ drop result.2 (rest_of S.slots tree.now at) }
{
    tree.recall();
    let count = most.min(leaf.len() - at.slot);
    let next = Position {
        leaf: at.leaf,
        slot: at.slot + count,
    };
    if next.slot < leaf.len() {
        return (next, leaf, count);
    }
    let start = settled(tree, next);
    (start, tree.store.get_leaf(start.leaf), count)
}

impl<'a, S: NodeStore> Ahead<'a, S> {
    /// All pairs of a tree.
    ///
    /// O(log n). It allocates nothing and cannot fail.
    pub(crate) fn all(tree: &'a Nodes<S>) -> Self
        ensures { result ≡ tree.now.contents }
    {
        tree.recall();
        let at = start_of(tree);
        let leaf = tree.store.get_leaf(at.leaf);
        Ahead { tree, at, leaf }
    }

    /// The key of the first of the pairs.
    ///
    /// O(1). It allocates nothing and cannot fail.
    #[inline(always)]
    pub(crate) fn key(&self) -> Option<&'a S::K>
        ensures { option_copied result ≡ first_key self.now }
    {
        key_in(self.tree, self.leaf, self.at)
    }

    /// The key of the first of the pairs, as a slice of one key.
    ///
    /// O(1). It allocates nothing and cannot fail.
    #[inline(always)]
    pub(crate) fn key_slice(&self) -> &'a [S::K]
        requires { 0 < length self.now }
        ensures { result.now ≡ keys_of (take 1 self.now) }
    {
        key_slice_in(self.tree, self.leaf, self.at)
    }

    /// The keys of the first of the pairs, up to the end of its leaf. The slice is empty if no pair
    /// is left.
    ///
    /// O(1). It allocates nothing and cannot fail.
    #[inline(always)]
    pub(crate) fn keys(&self) -> &'a [S::K]
        ensures keys { AreFirstKeys result.now self.now }
        ensures few { length result.now ≤ 64 }
    {
        keys_in(self.tree, self.leaf, self.at)
    }

    /// Leaves out the first of the pairs.
    ///
    /// O(1). It allocates nothing and cannot fail.
    #[inline(always)]
    pub(crate) fn step(&mut self)
        requires { 0 < length self.old }
        ensures { self.new ≡ drop 1 self.old }
    {
        let (at, leaf) = after(self.tree, self.leaf, self.at);
        self.at = at;
        self.leaf = leaf;
    }

    // Leaves out the first `most` of the pairs, or those of the first leaf if they are fewer.
    // Returns how many.
    fn skip_some(&mut self, most: usize) -> usize
        requires some { 0 < most }
        requires within { most ≤ length self.old }
        ensures some { (0 < result) × (result ≤ most) }
        ensures rest { self.new ≡ drop result self.old }
    {
        let (at, leaf, count) = behind(self.tree, self.leaf, self.at, most);
        self.at = at;
        self.leaf = leaf;
        count
    }

    /// Leaves out the first `count` of the pairs.
    ///
    /// O(1) for each leaf that is left behind. It allocates nothing and cannot fail.
    pub(crate) fn skip(&mut self, count: usize)
        requires { count ≤ length self.old }
        ensures { self.new ≡ drop count self.old }
    {
        let mut left = count;
        'leaves: while left > 0 {
            left -= self.skip_some(left);
        }
    }
}
