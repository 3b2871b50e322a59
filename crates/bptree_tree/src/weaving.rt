//! The pairs of two trees that move, leaf by leaf, to the leaves of one tree. They move to leaves
//! that the pairs before them left empty, so that no leaf is allocated.
ghost use Rattle.std.specs.Prelude.{◌≡◌, ◌+◌, ◌<◌, ◌≤◌, ◌∷◌, [], Some, length, min, vec_capacity, vec_len};
ghost use Rattle.std.specs.List.{AllByRecursion};
ghost use Rattle.bptree_bulk.specs.Filling.{IsEmptyLeaf, TakeParts};
ghost use Rattle.bptree_bulk.specs.Weave.{first_rest, second_rest, step_pair, woven, AreRooms, Weaves};
ghost use Rattle.bptree_tree.specs.Weaving.{left_of, next_of, open_pairs, woven_of, AddsWovenLeaf, FeedsEnd, FeedsGo, FeedsLeadOn, HasRoomForParts, KeepsOtherRoom, KeepsRoom, KeepsRoomBeside};

use crate::chain::Chain;
use bptree_bulk::filling::size_of;
use bptree_bulk::weaving::{Rooms, SPARE_LEAVES, Source};
use bptree_invariant::nodes::Nodes;
use bptree_keys::end::End;
use bptree_nodes::leaf_node::LeafNode;
use bptree_stores::node_stores::NodeStore;
use std::mem;

// The pairs of a tree that have not moved.
#[derive(Drop)]
struct Feed<S: NodeStore> {
    leaves: Chain<S>,
    // The leaf before those, with its pairs in the reverse order, so that the next one is the last.
    front: Box<LeafNode<S::K, S::V>>,
}

// Opens the next leaf in place of the open one, which is empty. This one is kept as a spare leaf,
// unless there are enough.
#[inline(never)]
fn open_next<S: NodeStore>(feed: &mut Feed<S>, spare: &mut Vec<Box<LeafNode<S::K, S::V>>>)
    requires none { feed.old.front.value.pairs ≡ [] }
    requires some { 0 < length feed.old.leaves }
    requires empty { AllByRecursion IsEmptyLeaf spare.old.items }
    requires capacity { 4 ≤ vec_capacity spare.old }
    ensures left { left_of feed.new ≡ feed.old.leaves }
    ensures some_left { 0 < length feed.new.front.value.pairs }
    ensures empty { AllByRecursion IsEmptyLeaf spare.new.items }
    ensures capacity { vec_capacity spare.new ≡ vec_capacity spare.old }
    ensures kept { vec_len spare.old ≤ vec_len spare.new }
    ensures more { min (vec_len spare.old + 1) 4 ≤ vec_len spare.new }
{
    let mut leaf = feed.leaves.take_end(End::Front).unwrap();
    leaf.as_mut().reverse();
    let emptied = mem::replace(&mut feed.front, leaf);
    if spare.len() < SPARE_LEAVES {
        spare.push_reserved(emptied);
    }
}

// Removes and returns the next pair.
#[inline(always)]
fn take<S: NodeStore>(
    feed: &mut Feed<S>,
    spare: &mut Vec<Box<LeafNode<S::K, S::V>>>,
) -> (S::K, S::V)
    requires some { 0 < length (left_of feed.old) }
    requires empty { AllByRecursion IsEmptyLeaf spare.old.items }
    requires capacity { 4 ≤ vec_capacity spare.old }
    ensures pair { left_of feed.old ≡ result ∷ left_of feed.new }
    ensures empty { AllByRecursion IsEmptyLeaf spare.new.items }
    ensures capacity { vec_capacity spare.new ≡ vec_capacity spare.old }
    ensures room { KeepsRoomBeside spare.old feed.old spare.new feed.new }
{
    feed.front.recall();
    if feed.front.len() == 0 {
        open_next(feed, spare);
        feed.front.recall();
    }
    feed.front.as_mut().pop()
}

// Removes and returns the next pair of two trees.
#[inline(always)]
fn next_pair<S: NodeStore>(
    source: Source,
    first: &mut Feed<S>,
    second: &mut Feed<S>,
    spare: &mut Vec<Box<LeafNode<S::K, S::V>>>,
) -> (S::K, S::V)
    requires next { next_of S.K.cmp first.old second.old ≡ Some source }
    requires empty { AllByRecursion IsEmptyLeaf spare.old.items }
    requires capacity { 4 ≤ vec_capacity spare.old }
    ensures pair { result ∷ [] ≡ step_pair source (left_of first.old) (left_of second.old) }
    ensures first { left_of first.new ≡ first_rest source (left_of first.old) }
    ensures second { left_of second.new ≡ second_rest source (left_of second.old) }
    ensures empty { AllByRecursion IsEmptyLeaf spare.new.items }
    ensures capacity { vec_capacity spare.new ≡ vec_capacity spare.old }
    ensures room { KeepsRoom spare.old first.old second.old spare.new first.new second.new 1 }
{
    first.front.recall();
    second.front.recall();
    match source {
        Source::First => take(first, spare),
        Source::Second => take(second, spare),
        Source::Both => {
            let (k, _) = take(first, spare);
            first.front.recall();
            let (_, v) = take(second, spare);
            (k, v)
        }
    }
}

// Moves the pairs of some steps into an empty leaf.
fn weave_leaf<S: NodeStore>(
    steps: &[Source],
    first: &mut Feed<S>,
    second: &mut Feed<S>,
    spare: &mut Vec<Box<LeafNode<S::K, S::V>>>,
    leaf: &mut LeafNode<S::K, S::V>,
)
    requires leads { FeedsLeadOn S.K.cmp steps.now first.old second.old }
    requires most { length steps.now ≤ 64 }
    requires none { leaf.old.pairs ≡ [] }
    requires empty { AllByRecursion IsEmptyLeaf spare.old.items }
    requires capacity { 4 ≤ vec_capacity spare.old }
    ensures goes { FeedsGo S.K.cmp steps.now first.old second.old first.new second.new }
    ensures moved { leaf.new.pairs ≡ woven_of steps.now first.old second.old }
    ensures empty { AllByRecursion IsEmptyLeaf spare.new.items }
    ensures capacity { vec_capacity spare.new ≡ vec_capacity spare.old }
    ensures room { KeepsRoom spare.old first.old second.old spare.new first.new second.new (length steps.now) }
{
    let mut i = 0;
    'steps: while i < steps.len() {
        let (key, value) = next_pair(steps[i], first, second, spare);
        leaf.push(key, value);
        i += 1;
    }
}

// Moves the pairs of some steps into a spare leaf, and puts it behind others.
fn weave_piece<S: NodeStore>(
    steps: &[Source],
    first: &mut Feed<S>,
    second: &mut Feed<S>,
    spare: &mut Vec<Box<LeafNode<S::K, S::V>>>,
    leaves: &mut Vec<Box<LeafNode<S::K, S::V>>>,
)
    requires leads { FeedsLeadOn S.K.cmp steps.now first.old second.old }
    requires most { length steps.now ≤ 64 }
    requires some { 0 < vec_len spare.old }
    requires empty { AllByRecursion IsEmptyLeaf spare.old.items }
    requires capacity { 4 ≤ vec_capacity spare.old }
    requires list { vec_len leaves.old < vec_capacity leaves.old }
    ensures goes { FeedsGo S.K.cmp steps.now first.old second.old first.new second.new }
    ensures leaves { AddsWovenLeaf leaves.old.items (woven_of steps.now first.old second.old) leaves.new.items }
    ensures len { vec_len leaves.new ≡ vec_len leaves.old + 1 }
    ensures list { vec_capacity leaves.new ≡ vec_capacity leaves.old }
    ensures empty { AllByRecursion IsEmptyLeaf spare.new.items }
    ensures capacity { vec_capacity spare.new ≡ vec_capacity spare.old }
    ensures room { KeepsOtherRoom spare.old first.old second.old spare.new first.new second.new (length steps.now) }
{
    let mut leaf = spare.take_last();
    weave_leaf(steps, first, second, spare, leaf.as_mut());
    leaves.push_reserved(leaf);
}

// Moves all pairs of two trees to leaves, in the order of the steps, and puts these leaves into the
// list `leaves`.
fn weave_leaves<S: NodeStore>(
    steps: &[Source],
    first: &mut Feed<S>,
    second: &mut Feed<S>,
    spare: &mut Vec<Box<LeafNode<S::K, S::V>>>,
    leaves: &mut Vec<Box<LeafNode<S::K, S::V>>>,
)
    requires weaves { FeedsEnd S.K.cmp steps.now first.old second.old }
    requires two { vec_len spare.old ≡ 2 }
    requires closed { open_pairs first.old second.old ≡ 0 }
    requires empty { AllByRecursion IsEmptyLeaf spare.old.items }
    requires capacity { 4 ≤ vec_capacity spare.old }
    requires none { leaves.old.items ≡ [] }
    requires list { HasRoomForParts (woven_of steps.now first.old second.old) (vec_capacity leaves.old) }
    ensures { TakeParts (woven_of steps.now first.old second.old) leaves.old.items leaves.new.items }
{
    let mut done = 0;
    'leaves: while done < steps.len() {
        let size = size_of(steps.len() - done);
        let part = &steps[done..done + size];
        weave_piece(part, first, second, spare, leaves);
        done += size;
    }
}

/// Moves all pairs of two trees to leaves, in the order of the steps, and puts these leaves into the
/// empty list `leaves`, which has room for them.
///
/// O(1) a pair. It allocates nothing and cannot fail.
pub(crate) fn weave_all<S: NodeStore>(
    first: Nodes<S>,
    second: Nodes<S>,
    steps: &[Source],
    rooms: Rooms<S::K, S::V>,
    leaves: &mut Vec<Box<LeafNode<S::K, S::V>>>,
)
    requires weaves { Weaves S.K.cmp steps.now first.contents second.contents }
    requires rooms { AreRooms rooms }
    requires none { leaves.old.items ≡ [] }
    requires list { HasRoomForParts (woven steps.now first.contents second.contents) (vec_capacity leaves.old) }
    ensures { TakeParts (woven steps.now first.contents second.contents) leaves.old.items leaves.new.items }
{
    let mut spare = rooms.spare;
    let mut one = Feed {
        leaves: Chain::of(first),
        front: rooms.first,
    };
    let mut other = Feed {
        leaves: Chain::of(second),
        front: rooms.second,
    };
    weave_leaves(steps, &mut one, &mut other, &mut spare, leaves);
}
