//! Two trees whose pairs are merged into one tree.
ghost use Rattle.std.specs.Prelude.{◌≡◌, ◌+◌, ◌<◌, ◌≤◌, ◌^◌, ◌∷◌, [], length, vec_capacity, vec_len, IfOk, List, OnOk, Some};
ghost use Rattle.std.specs.Map.{keys_of};
ghost use Rattle.bptree_bulk_load.specs.Plans.{AddsParts};
ghost use Rattle.bptree_bulk.specs.Weave.{first_rest, first_count, next_source, second_rest, second_count, source_by, step_pair, takes_first, takes_second, woven, AddsSteps, AreRooms, Goes, IsWeave, WeaveLeadsOn, WeavesAll};
ghost use Rattle.bptree_keys.specs.Contents.{IsAscending};

use crate::ahead::Ahead;
use crate::filling::size_of;
use bptree_arguments::argument::Argument;
use bptree_bulk_load::plan::{Plan, empty_plan, frame, plan_part};
use bptree_bulk_load::planting::Frame;
use bptree_invariant::nodes::Nodes;
use bptree_keys::key::Key;
use bptree_nodes::leaf_node::{LEAF_CAPACITY, LeafNode};
use bptree_stores::node_stores::NodeStore;
use std::alloc::{AllocError, Global};
use std::cmp::Ordering;

/// The tree, of two, that the next pair of both comes from.
#[derive(Clone, Copy, Drop)]
pub enum Source {
    /// The first tree: it has the smaller next key.
    First,
    /// The second tree.
    Second,
    /// Both have an equal next key. The pair has the first tree's key and the second tree's value.
    Both,
}

/// The empty leaves that pairs move to first. Later ones move to the leaves that they empty.
#[derive(Drop)]
pub struct Rooms<K, V> {
    /// Two leaves, and room for as many more in the list.
    pub spare: Vec<Box<LeafNode<K, V>>>,
    /// A leaf in place of one of the first tree.
    pub first: Box<LeafNode<K, V>>,
    /// A leaf in place of one of the second tree.
    pub second: Box<LeafNode<K, V>>,
}

/// Everything that is prepared before two trees become one. Dropping it leaves both as they were.
#[derive(Drop)]
pub struct Weave<S: NodeStore> {
    /// The source of each pair, in the order of their keys.
    pub steps: Vec<Source>,
    /// The nodes above the leaves of the new tree.
    pub frame: Frame<S>,
    /// The room for the list of these leaves.
    pub leaves: Vec<Box<LeafNode<S::K, S::V>>>,
    /// The empty leaves.
    pub rooms: Rooms<S::K, S::V>,
}

/// The number of empty leaves that are kept for later pairs.
pub const SPARE_LEAVES: usize = 4;

impl<K: Key, V: Drop> Rooms<K, V> {
    // Allocates the leaves. O(1). It fails only if an allocation fails.
    fn new(alloc: Global) -> Result<Self, AllocError>
        ensures { IfOk result AreRooms }
    {
        let mut spare = Vec::with_capacity(alloc, SPARE_LEAVES)?;
        spare.push_reserved(LeafNode::new(alloc)?);
        spare.push_reserved(LeafNode::new(alloc)?);
        let first = LeafNode::new(alloc)?;
        let second = LeafNode::new(alloc)?;
        Ok(Rooms {
            spare,
            first,
            second,
        })
    }
}

// The source of the next pair, by the order of both next keys.
#[inline(always)]
fn source_of<K: Key>(first: &K, second: &K) -> Source
    ensures { result ≡ source_by (K.cmp first.now second.now) }
{
    match first.cmp(second) {
        Ordering::Less => Source::First,
        Ordering::Equal => Source::Both,
        Ordering::Greater => Source::Second,
    }
}

// The source of the next pair, if there is one.
#[inline(always)]
fn source_at<S: NodeStore>(first: &Ahead<'_, S>, second: &Ahead<'_, S>) -> Option<Source>
    ensures { result ≡ next_source S.K.cmp first.now second.now }
{
    match (first.key(), second.key()) {
        (None, None) => None,
        (None, Some(_)) => Some(Source::Second),
        (Some(_), None) => Some(Source::First),
        (Some(one), Some(other)) => Some(source_of(one, other)),
    }
}

// Leaves out the next pair.
#[inline(always)]
fn step_over<S: NodeStore>(first: &mut Ahead<'_, S>, second: &mut Ahead<'_, S>, source: Source)
    requires { next_source S.K.cmp first.old second.old ≡ Some source }
    ensures first { first.new ≡ first_rest source first.old }
    ensures second { second.new ≡ second_rest source second.old }
{
    match source {
        Source::First => first.step(),
        Source::Second => second.step(),
        Source::Both => {
            first.step();
            second.step();
        }
    }
}

// The key of the next pair, as a slice of one key.
#[inline(always)]
fn next_key<'a, S: NodeStore>(
    first: &Ahead<'a, S>,
    second: &Ahead<'a, S>,
    source: Source,
) -> &'a [S::K]
    requires { next_source S.K.cmp first.now second.now ≡ Some source }
    ensures { result.now ≡ keys_of (step_pair source first.now second.now) }
{
    match source {
        Source::First => first.key_slice(),
        Source::Second => second.key_slice(),
        Source::Both => first.key_slice(),
    }
}

// Adds the source of each next pair, up to the end of the first leaf of either tree, and leaves
// these pairs out. Between two pairs it looks up no leaf.
fn take_steps<S: NodeStore>(
    first: &mut Ahead<'_, S>,
    second: &mut Ahead<'_, S>,
    steps: &mut Vec<Source>,
)
    requires first { 0 < length first.old }
    requires second { 0 < length second.old }
    requires room { vec_len steps.old + (length first.old + length second.old) ≤ vec_capacity steps.old }
    ensures room { vec_len steps.new + (length first.new + length second.new) ≤ vec_capacity steps.new }
    ensures added { AddsSteps S.K.cmp steps.old.items steps.new.items first.old second.old first.new second.new }
    ensures fewer { length first.new + length second.new < length first.old + length second.old }
{
    let one = first.keys();
    let other = second.keys();
    let mut i = 0;
    let mut j = 0;
    'steps: while i < one.len() && j < other.len() {
        let source = source_of(&one[i], &other[j]);
        steps.push_reserved(source);
        i += usize::from(takes_first(source));
        j += usize::from(takes_second(source));
    }
    first.skip(i);
    second.skip(j);
}

// The source of each pair of two trees, in the order of their keys.
fn steps_of<S: NodeStore>(first: &Nodes<S>, second: &Nodes<S>) -> Result<Vec<Source>, AllocError>
    requires { length first.now.contents + length second.now.contents < 2 ^ 64 }
    ensures { IfOk result (WeavesAll first.now second.now S.K.cmp) }
{
    let alloc = first.store.allocator();
    let mut steps = Vec::with_capacity(alloc, first.len() + second.len())?;
    let mut ones = Ahead::all(first);
    let mut others = Ahead::all(second);
    'leaves: while !ones.keys().is_empty() && !others.keys().is_empty() {
        take_steps(&mut ones, &mut others, &mut steps);
    }
    'steps: while let Some(source) = source_at(&ones, &others) {
        steps.push_reserved(source);
        step_over(&mut ones, &mut others, source);
    }
    Ok(steps)
}

// How many pairs of the first tree a step takes.
#[inline(always)]
fn takes_first(source: Source) -> u8
    ensures value { result ≡ takes_first source }
    ensures most { result ≤ 1 }
{
    match source {
        Source::Second => 0,
        _ => 1,
    }
}

// How many pairs of the second tree a step takes.
#[inline(always)]
fn takes_second(source: Source) -> u8
    ensures value { result ≡ takes_second source }
    ensures most { result ≤ 1 }
{
    match source {
        Source::First => 0,
        _ => 1,
    }
}

// How many pairs of the first tree the steps take, and of the second. The counts are bytes, so that
// the compiled code adds many steps at once.
fn takes_of(steps: &[Source]) -> (usize, usize)
    requires { length steps.now ≤ 64 }
    ensures first { result.0 ≡ first_count steps.now }
    ensures second { result.1 ≡ second_count steps.now }
{
    let mut ones = 0u8;
    let mut others = 0u8;
    let mut i = 0;
    'steps: while i < steps.len() {
        ones += takes_first(steps[i]);
        others += takes_second(steps[i]);
        i += 1;
    }
    (usize::from(ones), usize::from(others))
}

// Does what `plan_steps` does, if every value is a summary of every list. It only counts the steps.
fn plan_counted<S: NodeStore>(
    plan: &mut Plan<S>,
    first: &mut Ahead<'_, S>,
    second: &mut Ahead<'_, S>,
    steps: &[Source],
) -> Result<(), AllocError>
    requires lead { WeaveLeadsOn S.K.cmp steps.now first.old second.old }
    requires count { (0 < length steps.now) × (length steps.now ≤ 64) }
    requires any { (a : S.Argument) → (keys : List S.K) → S.Argument.is_summary a keys }
    ensures leads { OnOk result (Goes S.K.cmp steps.now first.old second.old first.new second.new) }
    ensures planned { OnOk result (AddsParts S.K.cmp S.Argument.is_summary S.slots plan.old plan.new (woven steps.now first.old second.old ∷ [])) }
{
    let start = next_key(first, second, steps[0])[0].clone()?;
    let (ones, others) = takes_of(steps);
    first.skip(ones);
    second.skip(others);
    plan_part(plan, start, S::Argument::default())?;
    Ok(())
}

// Plans a leaf behind others, for the pairs of some steps, and leaves them out. `sums` is scratch
// space with room for a summary of each step; its contents are overwritten.
fn plan_steps<S: NodeStore>(
    plan: &mut Plan<S>,
    first: &mut Ahead<'_, S>,
    second: &mut Ahead<'_, S>,
    steps: &[Source],
    sums: &mut Vec<S::Argument>,
) -> Result<(), AllocError>
    requires lead { WeaveLeadsOn S.K.cmp steps.now first.old second.old }
    requires count { (0 < length steps.now) × (length steps.now ≤ 64) }
    requires ascending { IsAscending S.K.cmp (woven steps.now first.old second.old) }
    requires room { 64 ≤ vec_capacity sums.old }
    ensures room { 64 ≤ vec_capacity sums.new }
    ensures leads { OnOk result (Goes S.K.cmp steps.now first.old second.old first.new second.new) }
    ensures planned { OnOk result (AddsParts S.K.cmp S.Argument.is_summary S.slots plan.old plan.new (woven steps.now first.old second.old ∷ [])) }
{
    if S::Argument::is_zst() {
        return plan_counted(plan, first, second, steps);
    }
    sums.clear();
    let start = next_key(first, second, steps[0])[0].clone()?;
    let mut i = 0;
    'steps: while i < steps.len() {
        let source = steps[i];
        let sum = S::Argument::from_leaf(next_key(first, second, source))?;
        sums.push_reserved(sum);
        step_over(first, second, source);
        i += 1;
    }
    let summary = S::Argument::from_inner(&[], sums)?;
    plan_part(plan, start, summary)?;
    Ok(())
}

/// Prepares all that is needed to make one tree of two.
///
/// O(n) comparisons for n pairs of both. For each new leaf it clones a key, and, if there are
/// summaries, it computes one of each key and one of the keys of each leaf. It allocates the nodes
/// above the leaves, four leaves, and lists. It fails if one of these fails.
pub fn plan_weave<S: NodeStore>(first: &Nodes<S>, second: &Nodes<S>) -> Result<Weave<S>, AllocError>
    requires some { 0 < length first.now.contents }
    requires few { length first.now.contents + length second.now.contents < 2 ^ 64 }
    ensures { IfOk result (IsWeave S.slots first.now second.now S.K.cmp S.Argument.is_summary) }
{
    first.recall();
    second.recall();
    let alloc = first.store.allocator();
    let steps = steps_of(first, second)?;
    let mut plan = empty_plan(S::empty(alloc));
    let mut sums = Vec::with_capacity(alloc, LEAF_CAPACITY)?;
    let mut ones = Ahead::all(first);
    let mut others = Ahead::all(second);
    let mut done = 0;
    let mut count = 0;
    'parts: while done < steps.len() {
        let size = size_of(steps.len() - done);
        let part = &steps[done..done + size];
        plan_steps(&mut plan, &mut ones, &mut others, part, &mut sums)?;
        count += 1;
        done += size;
    }
    let leaves = Vec::with_capacity(alloc, count)?;
    let rooms = Rooms::new(alloc)?;
    let frame = frame(plan)?;
    Ok(Weave {
        steps,
        frame,
        leaves,
        rooms,
    })
}
