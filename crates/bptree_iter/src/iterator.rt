//! An iterator over the pairs of a tree, from both ends, along the links of its leaves.
ghost use Rattle.std.specs.Prelude.{◌≡◌, ◌<◌, ◌≤◌, ◌≢◌, IsSome, Some, length, IfSome, true, false, ⊤};
ghost use Rattle.std.specs.Iterator.{at_most, item_count, UpTo};
ghost use Rattle.std.specs.Iterator.SizeHint.{IsWithinCount};
ghost use Rattle.std.specs.Map.Iter.{TakesFirst, TakesLast, deref_pair};
ghost use Rattle.bptree_iter.specs.Span.{leaves_of, IsEndIn, CanGoOn, IsFrontIndex, CanGoBack, IsBackPosition, AreSame, IsPartIn, pairs_of_part};
ghost use Rattle.bptree_iter.specs.declared.part.PartLen.TheVariants as extents;

pub use crate::part::{Part, PartLen};
use bptree_keys::node_id::{LeafNodeId, Position};
use bptree_nodes::leaf_node::LeafNode;
use bptree_stores::node_stores::NodeStore;
use std::alloc::AllocError;
use std::iter::{ExactSizeIterator, FusedIterator};
use std::marker::{Model, PhantomData};

/// An iterator over the pairs that are left of a part, in the order of their keys. No step
/// allocates.
#[derive(Drop)]
pub struct Iter<'a, S: NodeStore> {
    store: &'a S,
    // The part that is left. If its extent is `Cut`, its end may be after the last pair.
    part: Part,
    // The slot up to which the pairs of the part's first leaf are between the two ends.
    end: usize,
    // The part's first leaf, cached so that a step within it does not access the store.
    leaf: &'a LeafNode<S::K, S::V>,
    // The items are borrowed for 'a.
    marker: PhantomData<&'a (S::K, S::V)>,
}

impl<'a, S: NodeStore> Model for Iter<'a, S> {
    ghost use Rattle.std.specs.Prelude.{◌≡◌, List, Some};
    ghost use Rattle.bptree_iter.specs.Span.{leaves_of, pairs_of_part, IsPartIn, IsEndIn};

    ghost Value = { List (S.K × S.V) };

    ghost view = { λ it. pairs_of_part (S.slots it.store.now) it.part };

    ghost invariant = { λ it. IsPartIn (S.slots it.store.now) it.part × (leaves_of (S.slots it.store.now) it.part.front.leaf ≡ Some it.leaf.now) × IsEndIn it.part.front.leaf it.part.back.leaf it.part.back.slot it.leaf.now it.end };
}

impl<'a, S: NodeStore> Iter<'a, S> {
    /// Creates an iterator over the pairs of a part. It does not walk along the leaves.
    ///
    /// O(1). It allocates nothing and cannot fail.
    pub fn new(store: &'a S, part: Part) -> Self
        requires { IsPartIn (S.slots store.now) part }
        ensures { result ≡ pairs_of_part (S.slots store.now) part }
    {
        let leaf = leaf_at(store, part.front.leaf);
        Iter {
            store,
            part,
            end: end_in(part.front.leaf, leaf, part.back),
            leaf,
            marker: PhantomData,
        }
    }
}

fn leaf_at<S: NodeStore>(store: &S, id: LeafNodeId) -> &LeafNode<S::K, S::V>
    requires { IsSome (leaves_of (S.slots store.now) id) }
    ensures { leaves_of (S.slots store.now) id ≡ Some result.now }
{
    store.get_leaf(id)
}

// Returns the slot up to which the pairs of the first leaf are between the two ends: the slot of
// the back if the first leaf is also the last one, and the end of the leaf otherwise.
fn end_in<K: Drop, V: Drop>(front: LeafNodeId, leaf: &LeafNode<K, V>, back: Position) -> usize
    ensures { IsEndIn front back.leaf back.slot leaf.now result }
{
    if front.as_usize() == back.leaf.as_usize() {
        back.slot
    } else {
        leaf.len()
    }
}

// Returns the position of the next pair, as the id of its leaf, the leaf and a slot, with the slot
// at which the leaf's pairs end. If the given slot is the end of a leaf before the last one, the
// next pair is at the start of the next leaf.
fn front_index<'a, S: NodeStore>(
    store: &'a S,
    id: LeafNodeId,
    leaf: &'a LeafNode<S::K, S::V>,
    offset: usize,
    end: usize,
    back: Position,
) -> (LeafNodeId, &'a LeafNode<S::K, S::V>, usize, usize)
    requires goes_on { CanGoOn (leaves_of (S.slots store.now)) id offset back.leaf }
    requires at { leaves_of (S.slots store.now) id ≡ Some leaf.now }
    requires end { IsEndIn id back.leaf back.slot leaf.now end }
    ensures index { IsFrontIndex (leaves_of (S.slots store.now)) id offset back.leaf result.0 result.2 }
    ensures leaf { leaves_of (S.slots store.now) result.0 ≡ Some result.1.now }
    ensures end { IsEndIn result.0 back.leaf back.slot result.1.now result.3 }
{
    if offset != end || id.as_usize() == back.leaf.as_usize() {
        return (id, leaf, offset, end);
    }
    let next = leaf.next().unwrap();
    let after = leaf_at(store, next);
    (next, after, 0, end_in(next, after, back))
}

// Returns the position after the last pair. If the given position is the start of a leaf after the
// first one, the result is the end of the leaf before it.
fn back_index<S: NodeStore>(store: &S, at: Position, front: LeafNodeId) -> Position
    requires { CanGoBack (leaves_of (S.slots store.now)) at.leaf at.slot front }
    ensures { IsBackPosition (leaves_of (S.slots store.now)) at front result }
{
    if at.slot != 0 || at.leaf.as_usize() == front.as_usize() {
        return at;
    }
    let leaf = leaf_at(store, at.leaf).prev().unwrap();
    let slot = leaf_at(store, leaf).len();
    Position { leaf, slot }
}

// Returns whether there is a pair between two positions. If their leaves differ, there is one
// before the back, which is then not the start of its leaf.
fn are_apart(front: Position, back: Position) -> bool
    ensures some { result ≡ true → front.leaf ≡ back.leaf → front.slot < back.slot }
    ensures none { result ≡ false → (front.leaf ≡ back.leaf) × (back.slot ≤ front.slot) }
{
    front.leaf.as_usize() != back.leaf.as_usize() || front.slot < back.slot
}

// Returns a part of the same pairs that ends at their end, with their exact number as its limit.
//
// It takes a step for each leaf up to that end.
fn end_of_first<S: NodeStore>(store: &S, part: Part) -> Part
    requires { IsPartIn (S.slots store.now) part }
    ensures part { IsPartIn (S.slots store.now) result }
    ensures same { AreSame (S.slots store.now) part result }
    ensures known { result.extent ≡ extents.Exact }
{
    let mut at = part.front.leaf;
    let mut passed = part.front.slot;
    let mut left = part.limit;
    'leaves: while at.as_usize() != part.back.leaf.as_usize() {
        let leaf = leaf_at(store, at);
        let here = leaf.len() - passed;
        if left <= here {
            return Part {
                back: Position {
                    leaf: at,
                    slot: passed + left,
                },
                extent: PartLen::Exact,
                ..part
            };
        }
        left -= here;
        at = leaf.next().unwrap();
        passed = 0;
    }
    let here = part.back.slot - passed;
    if left <= here {
        Part {
            back: Position {
                leaf: part.back.leaf,
                slot: passed + left,
            },
            extent: PartLen::Exact,
            ..part
        }
    } else {
        Part {
            limit: part.limit - left + here,
            extent: PartLen::Exact,
            ..part
        }
    }
}

// Returns how many pairs are left. If the limit is not exact, it takes a step for each leaf between
// the two positions.
fn count_left<S: NodeStore>(store: &S, part: Part) -> usize
    requires { IsPartIn (S.slots store.now) part }
    ensures { result ≡ length (pairs_of_part (S.slots store.now) part) }
{
    match part.extent {
        PartLen::Exact => part.limit,
        PartLen::Open | PartLen::Cut => end_of_first(store, part).limit,
    }
}

// Returns a part of the same pairs that ends at their end. If that end is not known (`Cut`), it
// takes a step for each of their leaves.
#[inline]
fn known_end<S: NodeStore>(store: &S, part: Part) -> Part
    requires { IsPartIn (S.slots store.now) part }
    ensures part { IsPartIn (S.slots store.now) result }
    ensures same { AreSame (S.slots store.now) part result }
    ensures known { result.extent ≢ extents.Cut }
{
    match part.extent {
        PartLen::Cut => end_of_first(store, part),
        PartLen::Exact | PartLen::Open => part,
    }
}

impl<'a, S: NodeStore> Iterator for Iter<'a, S> {
    type Item = (&'a S::K, &'a S::V);

    ghost next_gives = { TakesFirst deref_pair };

    ghost remaining = { item_count (λ left. left) };

    #[inline]
    fn next(&mut self) -> Option<(&'a S::K, &'a S::V)> {
        if self.part.limit == 0 {
            return None;
        }
        let (front, leaf, from, end) = front_index(
            self.store,
            self.part.front.leaf,
            self.leaf,
            self.part.front.slot,
            self.end,
            self.part.back,
        );
        if from == end {
            return None;
        }
        let pair = leaf.data_at(from);
        self.part.front = Position {
            leaf: front,
            slot: from + 1,
        };
        self.leaf = leaf;
        self.end = end;
        self.part.limit -= 1;
        Some(pair)
    }

    /// Returns the exact number of pairs that are left, as both bounds. If that number is not
    /// known, it takes a step for each leaf that is left.
    fn size_hint(&self) -> (usize, Option<usize>)
        ensures lower { IsWithinCount result.0 (at_most (length self.now)) }
        ensures upper { IfSome result.1 (UpTo (at_most (length self.now))) }
        ensures exact { result ≡ (length self.now, Some (length self.now)) }
    {
        let len = count_left(self.store, self.part);
        (len, Some(len))
    }
}

impl<'a, S: NodeStore> DoubleEndedIterator for Iter<'a, S> {
    ghost next_back_gives = { TakesLast deref_pair };

    #[inline]
    fn next_back(&mut self) -> Option<(&'a S::K, &'a S::V)> {
        if self.part.limit == 0 {
            return None;
        }
        let part = known_end(self.store, self.part);
        let back = back_index(self.store, part.back, self.part.front.leaf);
        if !are_apart(self.part.front, back) {
            return None;
        }
        let last = Position {
            leaf: back.leaf,
            slot: back.slot - 1,
        };
        let pair = leaf_at(self.store, last.leaf).data_at(last.slot);
        self.part.back = last;
        self.part.limit = part.limit - 1;
        self.part.extent = part.extent;
        self.end = end_in(self.part.front.leaf, self.leaf, last);
        Some(pair)
    }
}

impl<'a, S: NodeStore> ExactSizeIterator for Iter<'a, S> {
    /// Returns how many pairs are left. If that is not known, it takes a step for each leaf that is
    /// left.
    fn len(&self) -> usize {
        count_left(self.store, self.part)
    }
}

impl<'a, S: NodeStore> FusedIterator for Iter<'a, S> {}

impl<'a, S: NodeStore> Clone for Iter<'a, S> {
    ghost is_clone = { λ it copy. copy ≡ it };

    ghost is_infallible = { λ _. ⊤ };

    fn clone(&self) -> Result<Self, AllocError> {
        Ok(Iter {
            store: self.store,
            part: self.part,
            end: self.end,
            leaf: self.leaf,
            marker: PhantomData,
        })
    }
}
