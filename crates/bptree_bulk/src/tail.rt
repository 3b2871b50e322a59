//! The last pairs of a tree, which move one by one to a tree of their own.
ghost use Rattle.std.specs.Prelude.{◌≡◌, ◌+◌, ◌<◌, ◌≤◌, length, reverse, IfOk, IfSome, IsTrue};
ghost use Rattle.std.specs.Option.{option_copied};
ghost use Rattle.bptree_bulk_load.specs.Plans.{AddsPlan};
ghost use Rattle.bptree_bulk.specs.Cut.{first_key};
ghost use Rattle.bptree_bulk.specs.Filling.{FillsAll, FillsFrom, IsFilling};
ghost use Rattle.bptree_bulk.specs.Positions.{part_to, index_of_position, rest_of, IsAtPair, IsBehind, IsRest};
ghost use Rattle.bptree_bulk.specs.Split.{HasLeavesFor};
ghost use Rattle.bptree_keys.specs.Keys.{AllInfallible};
ghost use Rattle.bptree_invariant.specs.NodeTree.{IsWhole};

use crate::ahead::key_in;
use crate::filling::{Filling, filling_of, plant_filling, size_of};
use bptree_arguments::argument::Argument;
use bptree_bulk_load::plan::{Plan, empty_plan, plan_part};
use bptree_invariant::nodes::Nodes;
use bptree_keys::key::Key;
use bptree_keys::node_id::Position;
use bptree_nodes::leaf_node::LeafNode;
use bptree_ranges::ranges::settled;
use bptree_ranges::summaries::summary_between;
use bptree_stores::node_stores::NodeStore;
use std::alloc::AllocError;
use std::cmp::Ordering;

// The position of the first pair.
pub(crate) fn start_of<S: NodeStore>(tree: &Nodes<S>) -> Position
    ensures at { IsAtPair S.slots tree.now result }
    ensures all { rest_of S.slots tree.now result ≡ tree.now.contents }
{
    tree.recall();
    let first = Position {
        leaf: tree.first_leaf(),
        slot: 0,
    };
    settled(tree, first)
}

// The position `count` pairs behind another, and how many of the `count` are missing at the end.
fn advance<S: NodeStore>(tree: &Nodes<S>, at: Position, count: usize) -> (Position, usize)
    requires { IsAtPair S.slots tree.now at }
    ensures { IsBehind S.slots tree.now at count result.0 result.1 }
{
    tree.recall();
    let mut at = at;
    let mut left = count;
    'leaves: while left > 0 {
        let here = tree.store.get_leaf(at.leaf).len() - at.slot;
        if left < here {
            let there = Position {
                leaf: at.leaf,
                slot: at.slot + left,
            };
            return (there, 0);
        }
        if here == 0 {
            return (at, left);
        }
        let end = Position {
            leaf: at.leaf,
            slot: at.slot + here,
        };
        at = settled(tree, end);
        left -= here;
    }
    (at, left)
}

// The key of the pair at a position, if one is there.
pub(crate) fn key_from<'a, S: NodeStore>(tree: &'a Nodes<S>, at: Position) -> Option<&'a S::K>
    requires { IsAtPair S.slots tree.now at }
    ensures { option_copied result ≡ first_key (rest_of S.slots tree.now at) }
{
    tree.recall();
    key_in(tree, tree.store.get_leaf(at.leaf), at)
}

// Plans a leaf behind others, for the pairs from one position up to another.
fn plan_between<S: NodeStore>(
    plan: &mut Plan<S>,
    tree: &Nodes<S>,
    from: Position,
    to: Position,
) -> Result<(), AllocError>
    requires from { IsAtPair S.slots tree.now from }
    requires to { IsAtPair S.slots tree.now to }
    requires some { index_of_position S.slots tree.now from < index_of_position S.slots tree.now to }
    requires most { index_of_position S.slots tree.now to ≤ index_of_position S.slots tree.now from + 64 }
    ensures { AddsPlan S.K.cmp S.Argument.is_summary S.slots plan.old plan.new (part_to S.slots tree.now from to) result }
{
    tree.recall();
    let first = key_from(tree, from).unwrap();
    let after = key_from(tree, to);
    let summary = summary_between(tree, Some(first), after)?;
    let start = first.clone()?;
    plan_part(plan, start, summary)
}

/// The number of pairs from a position on, if they are so few that they move one by one: less than
/// a thirty-second of all pairs, and no removal can fail. Otherwise `None`.
///
/// O(n / 1024) for n pairs. It allocates nothing and cannot fail.
pub(crate) fn few_from<S: NodeStore>(tree: &Nodes<S>, at: Position) -> Option<usize>
    requires { IsAtPair S.slots tree.now at }
    ensures count { IfSome result (IsRest S.slots tree.now at) }
    ensures infallible { IfSome result (λ _. S.Argument.needs_no_memory × AllInfallible S.K.is_infallible) }
{
    tree.recall();
    if !(S::K::clones_never_fail() && S::Argument::never_fails()) {
        return None;
    }
    let most = tree.len() / 32;
    let (_, short) = advance(tree, at, most);
    if short == 0 {
        return None;
    }
    Some(most - short)
}

/// Whether so few pairs are from a position up to a key that they are removed one by one: at most a
/// thirty-second of all pairs, and no removal can fail. If no key is given, the pairs up to the
/// end.
///
/// O(n / 1024) for n pairs. It allocates nothing and cannot fail.
pub fn removes_few<S: NodeStore>(tree: &Nodes<S>, from: Position, hi: Option<&S::K>) -> bool
    requires { IsAtPair S.slots tree.now from }
    ensures { IsTrue result → S.Argument.needs_no_memory × AllInfallible S.K.is_infallible }
{
    if !(S::K::clones_never_fail() && S::Argument::never_fails()) {
        return false;
    }
    let (at, short) = advance(tree, from, tree.len() / 32);
    if short > 0 {
        return true;
    }
    match (key_from(tree, at), hi) {
        (None, _) => true,
        (Some(_), None) => false,
        (Some(k), Some(hi)) => !matches!(k.cmp(hi), Ordering::Less),
    }
}

/// Prepares all that is needed to move the last `count` pairs of a tree, which begin at a position.
///
/// O(`count` / 32 · log n) for n pairs. For each new leaf it clones a key and computes a summary of
/// its keys. It fails if one of these or an allocation fails.
pub(crate) fn plan_tail<S: NodeStore>(
    tree: &Nodes<S>,
    at: Position,
    count: usize,
) -> Result<Filling<S>, AllocError>
    requires at { IsAtPair S.slots tree.now at }
    requires some { 0 < count }
    requires count { IsRest S.slots tree.now at count }
    ensures tail { IfOk result (FillsFrom S.K.cmp S.Argument.is_summary S.slots tree.now at) }
    ensures room { IfOk result (λ tail. HasLeavesFor tail.count tail.pairs) }
{
    tree.recall();
    let alloc = tree.store.allocator();
    let mut plan = empty_plan(S::empty(alloc));
    let mut rooms = Vec::new(alloc);
    let mut from = at;
    let mut left = count;
    'parts: while left > 0 {
        let size = size_of(left);
        let (to, _) = advance(tree, from, size);
        plan_between(&mut plan, tree, from, to)?;
        let room = LeafNode::new(alloc)?;
        rooms.push(room)?;
        from = to;
        left -= size;
    }
    filling_of(plan, rooms, count)
}

/// Prepares all that is needed to move all pairs of a tree.
///
/// It costs and fails as `plan_tail` does.
pub fn plan_all<S: NodeStore>(tree: &Nodes<S>) -> Result<Filling<S>, AllocError>
    requires { 0 < length tree.now.contents }
    ensures filling { IfOk result (FillsAll S.K.cmp S.Argument.is_summary S.slots tree.now) }
    ensures room { IfOk result (λ filling. HasLeavesFor (length tree.now.contents) filling.pairs) }
{
    let filling = plan_tail(tree, start_of(tree), tree.len())?;
    Ok(filling)
}

/// The tree of the pairs that moved, the greatest of which moved first.
///
/// O(1) a pair. It allocates nothing and cannot fail.
pub fn plant_tail<S: NodeStore>(tail: Filling<S>) -> Nodes<S>
    requires { IsFilling S.K.cmp S.Argument.is_summary S.slots tail (reverse tail.pairs.items) }
    ensures contents { result.contents ≡ reverse tail.pairs.items }
    ensures whole { IsWhole S.K.cmp S.Argument.is_summary S.slots result }
{
    let mut tail = tail;
    tail.pairs.reverse();
    plant_filling(tail)
}
