//! Two trees, a cursor and a list of commands.

use crate::calls::{
    report_if_ok, report_inserted, report_rank_of, report_replaced, write, write_found,
};
use crate::commands::{self, Held};
use crate::record::Record;
use crate::samples::{Sample, SampleSummary};
use crate::says::{Say, Says};
use crate::subject::{Subject, no_call};
use crate::walk::{Steps, bounds, pairs_of, report_step, take_items, walk};
use crate::words::{Report, Words};
use crate::{cursors, nodes};
use bptree_arguments::argument::CloneArgument;
use bptree_arguments::visit::DescendError;
use bptree_load_plan::loading::in_load_order;
use bptree_stores::node_stores::{CloneStore, NodeStore};
use bptree_tree::BPlusTree;
use bptree_tree::cursor::Cursor;
use bptree_tree::iterator::Iter;
use bptree_tree::tree::IntoIter;
use std::alloc::{AllocError, Global};
use std::mem;
use std::ops::Bound;

// Inserts a key into the tree, or replaces an equal one if the record asks for that.
fn put<S: NodeStore<V = u64>>(
    alloc: Global,
    tree: &mut BPlusTree<S>,
    record: &Record,
    words: &mut Words,
) -> bool
where
    S::K: Sample,
{
    let Ok(key) = S::K::sample(alloc, record.a) else {
        return false;
    };
    if record.member() == 0 {
        report_inserted(tree.insert(key, record.b), words)
    } else {
        report_replaced(tree.replace_key(key), words)
    }
}

// Makes the other changes that name a key.
fn change_at<S: NodeStore<V = u64>>(
    alloc: Global,
    tree: &mut BPlusTree<S>,
    record: &Record,
    words: &mut Words,
) -> bool
where
    S::K: Sample,
{
    let Ok(key) = S::K::sample(alloc, record.a) else {
        return false;
    };
    match record.member() {
        1 => report_if_ok(tree.remove(&key), words),
        2 => report_if_ok(tree.remove_entry(&key), words),
        _ => write(tree.get_mut(&key), record.b, words),
    }
}

// Makes the changes that need a query.
fn change_found<S: NodeStore<V = u64>>(
    alloc: Global,
    tree: &mut BPlusTree<S>,
    record: &Record,
    words: &mut Words,
) -> bool
where
    S::K: Sample,
    S::Argument: SampleSummary<S::K>,
{
    let index = if record.member() == 6 {
        record.b
    } else {
        record.c
    };
    let Ok(query) = S::Argument::query(alloc, record.a, index) else {
        return false;
    };
    if record.member() == 6 {
        report_if_ok(tree.remove_by_argument(query), words)
    } else {
        write_found(tree.get_mut_by_argument(query), record.b, words)
    }
}

// Makes the changes that need no query.
fn change<S: NodeStore<V = u64>>(
    alloc: Global,
    tree: &mut BPlusTree<S>,
    record: &Record,
    words: &mut Words,
) -> bool
where
    S::K: Sample,
{
    match record.member() {
        0 | 9 => put(alloc, tree, record, words),
        1 | 2 | 7 => change_at(alloc, tree, record, words),
        3 => report_if_ok(tree.pop_first(), words),
        4 => report_if_ok(tree.pop_last(), words),
        5 => report_if_ok(tree.clear(), words),
        _ => no_call(words),
    }
}

// Makes all changes.
fn change_queried<S: NodeStore<V = u64>>(
    alloc: Global,
    tree: &mut BPlusTree<S>,
    record: &Record,
    words: &mut Words,
) -> bool
where
    S::K: Sample,
    S::Argument: SampleSummary<S::K>,
{
    match record.member() {
        6 | 8 => change_found(alloc, tree, record, words),
        _ => change(alloc, tree, record, words),
    }
}

// Makes the reads that name a key.
fn read_at<S: NodeStore<V = u64>>(
    alloc: Global,
    tree: &BPlusTree<S>,
    record: &Record,
    words: &mut Words,
) -> bool
where
    S::K: Sample,
{
    let Ok(key) = S::K::sample(alloc, record.a) else {
        return false;
    };
    match record.member() {
        0 => tree.get(&key).report(words),
        1 => tree.get_counted(&key).report(words),
        2 => tree.get_key_value(&key).report(words),
        _ => tree.contains_key(&key).report(words),
    }
    true
}

fn found<S: NodeStore<V = u64>>(
    alloc: Global,
    tree: &BPlusTree<S>,
    record: &Record,
    words: &mut Words,
) -> bool
where
    S::K: Sample,
    S::Argument: SampleSummary<S::K>,
{
    let Ok(query) = S::Argument::query(alloc, record.a, record.b) else {
        return false;
    };
    report_if_ok(tree.get_by_argument(query), words)
}

fn rank<S: NodeStore<V = u64>>(
    alloc: Global,
    tree: &BPlusTree<S>,
    record: &Record,
    words: &mut Words,
) -> bool
where
    S::K: Sample,
    S::Argument: SampleSummary<S::K>,
{
    let Ok(key) = S::K::sample(alloc, record.a) else {
        return false;
    };
    report_rank_of::<S::K, S::Argument>(tree.rank_by_argument(&key), words)
}

// Makes the reads that need no query.
fn read<S: NodeStore<V = u64>>(
    alloc: Global,
    tree: &BPlusTree<S>,
    record: &Record,
    words: &mut Words,
) -> bool
where
    S::K: Sample,
{
    match record.member() {
        0..=3 => return read_at(alloc, tree, record, words),
        4 => (tree.first(), tree.last()).report(words),
        5 => (tree.len(), (tree.is_empty(), tree.height())).report(words),
        _ => return no_call(words),
    }
    true
}

// Makes all reads.
fn read_queried<S: NodeStore<V = u64>>(
    alloc: Global,
    tree: &BPlusTree<S>,
    record: &Record,
    words: &mut Words,
) -> bool
where
    S::K: Sample,
    S::Argument: SampleSummary<S::K>,
{
    match record.member() {
        6 => found(alloc, tree, record, words),
        7 => rank(alloc, tree, record, words),
        8 => {
            tree.root_argument().report(words);
            true
        }
        _ => read(alloc, tree, record, words),
    }
}

impl<'a, S: NodeStore> Steps for Iter<'a, S>
where
    S::K: Report,
    S::V: Report,
{
    fn step(&mut self, is_back: bool, is_reported: bool, words: &mut Words) -> bool {
        if is_back {
            report_step(self.next_back(), is_reported, words)
        } else {
            report_step(self.next(), is_reported, words)
        }
    }

    fn left(&self) -> (usize, (usize, Option<usize>)) {
        (self.len(), self.size_hint())
    }
}

/// Walks over pairs of a tree. One function makes all calls that return such an iterator, since
/// each function that uses its contract is expensive to prove.
pub fn walk_pairs<S: NodeStore>(pairs: Iter<'_, S>, record: &Record, words: &mut Words) -> bool
where
    S::K: Report,
    S::V: Report,
{
    walk(pairs, record, words)
}

fn range<S: NodeStore<V = u64>>(
    alloc: Global,
    tree: &BPlusTree<S>,
    record: &Record,
    words: &mut Words,
) -> bool
where
    S::K: Sample,
{
    let Ok((lo, hi)) = bounds::<S::K>(alloc, record) else {
        return false;
    };
    walk_pairs(tree.range(lo.as_ref(), hi.as_ref()), record, words)
}

/// Returns a bound of a range. If there is a key, the range includes or excludes it. If there is no
/// key, the bound is open.
pub fn bound_of<K: Sample>(key: &Option<K>, is_included: bool) -> Bound<&K> {
    match key {
        Some(key) if is_included => Bound::Included(key),
        Some(key) => Bound::Excluded(key),
        None => Bound::Unbounded,
    }
}

fn range_bounds<S: NodeStore<V = u64>>(
    alloc: Global,
    tree: &BPlusTree<S>,
    record: &Record,
    words: &mut Words,
) -> bool
where
    S::K: Sample,
{
    let Ok((lo, hi)) = bounds::<S::K>(alloc, record) else {
        return false;
    };
    let lo = bound_of(&lo, record.d & 4 == 0);
    let hi = bound_of(&hi, record.d & 8 == 8);
    walk_pairs(tree.range_bounds(lo, hi), record, words)
}

fn range_found<S: NodeStore<V = u64>>(
    alloc: Global,
    tree: &BPlusTree<S>,
    record: &Record,
    words: &mut Words,
) -> bool
where
    S::K: Sample,
    S::Argument: SampleSummary<S::K>,
{
    let Ok(query) = S::Argument::query(alloc, record.a, record.b) else {
        return false;
    };
    let many = (record.d >> 16) as usize;
    match tree.range_by_argument(query, many) {
        Ok(pairs) => walk_pairs(pairs, record, words),
        Err(_) => false,
    }
}

fn summary_between<S: NodeStore<V = u64>>(
    alloc: Global,
    tree: &BPlusTree<S>,
    record: &Record,
    words: &mut Words,
) -> bool
where
    S::K: Sample,
    S::Argument: Report,
{
    let Ok((lo, hi)) = bounds::<S::K>(alloc, record) else {
        return false;
    };
    report_if_ok(tree.range_argument(lo.as_ref(), hi.as_ref()), words)
}

fn summary_of_part<S: NodeStore<V = u64>>(
    alloc: Global,
    tree: &BPlusTree<S>,
    record: &Record,
    words: &mut Words,
) -> bool
where
    S::K: Sample,
    S::Argument: SampleSummary<S::K>,
{
    let Ok(from) = S::Argument::query(alloc, record.a, record.b) else {
        return false;
    };
    let Ok(to) = S::Argument::query(alloc, record.c, record.d) else {
        return false;
    };
    report_if_ok(tree.part_argument(from, to), words)
}

// Makes the calls for parts of a tree that need no query.
fn part<S: NodeStore<V = u64>>(
    alloc: Global,
    tree: &BPlusTree<S>,
    record: &Record,
    words: &mut Words,
) -> bool
where
    S::K: Sample,
    S::Argument: Report,
{
    match record.member() {
        0 => walk_pairs(tree.iter(), record, words),
        1 => range(alloc, tree, record, words),
        2 => range_bounds(alloc, tree, record, words),
        4 => summary_between(alloc, tree, record, words),
        _ => no_call(words),
    }
}

// Makes all calls for parts of a tree.
fn part_queried<S: NodeStore<V = u64>>(
    alloc: Global,
    tree: &BPlusTree<S>,
    record: &Record,
    words: &mut Words,
) -> bool
where
    S::K: Sample,
    S::Argument: SampleSummary<S::K>,
{
    match record.member() {
        3 => range_found(alloc, tree, record, words),
        5 => summary_of_part(alloc, tree, record, words),
        _ => part(alloc, tree, record, words),
    }
}

/// Returns a tree that is bulk loaded from pairs. Pairs that are not in order are not loaded.
pub fn tree_of<S: NodeStore>(pairs: Vec<(S::K, S::V)>) -> Result<BPlusTree<S>, AllocError> {
    if in_load_order(&pairs) {
        BPlusTree::bulk_load(pairs)
    } else {
        Err(AllocError)
    }
}

fn loaded<S: NodeStore<V = u64>>(alloc: Global, record: &Record) -> Result<BPlusTree<S>, AllocError>
where
    S::K: Sample,
{
    tree_of(pairs_of(alloc, 0, record.a, record.b)?)
}

/// Replaces a value by the one that was made. Returns false if none of them was made.
pub fn replace<T: Drop>(target: &mut T, made: Result<T, AllocError>) -> bool {
    match made {
        Ok(it) => {
            *target = it;
            true
        }
        Err(_) => false,
    }
}

/// Two trees.
#[derive(Drop)]
pub struct Both<S: NodeStore> {
    pub here: BPlusTree<S>,
    pub there: BPlusTree<S>,
}

/// Makes a tree without pairs.
pub fn new_tree<S: NodeStore>(alloc: Global) -> Result<BPlusTree<S>, AllocError> {
    BPlusTree::new(S::empty(alloc))
}

/// Makes two trees without pairs.
pub fn two_trees<S: NodeStore>(alloc: Global) -> Result<Both<S>, AllocError> {
    let here = new_tree(alloc)?;
    let there = new_tree(alloc)?;
    Ok(Both { here, there })
}

/// Takes pairs of a tree that is taken apart, in one of two orders.
pub fn take_pairs<S: NodeStore>(
    pairs: &mut IntoIter<S>,
    is_in_turn: bool,
    record: &Record,
    words: &mut Words,
)
where
    S::K: Report,
    S::V: Report,
{
    take_items(pairs, is_in_turn, record, words);
}

fn drain_there<S: NodeStore<V = u64>>(
    alloc: Global,
    both: &mut Both<S>,
    record: &Record,
    words: &mut Words,
) -> bool
where
    S::K: Sample,
{
    match new_tree(alloc) {
        Ok(empty) => {
            let mut pairs = mem::replace(&mut both.there, empty).into_iter();
            take_pairs(&mut pairs, false, record, words);
            true
        }
        Err(_) => false,
    }
}

/// Makes the calls that copy, exchange or replace whole trees.
pub fn exchange<S: CloneStore>(
    alloc: Global,
    both: &mut Both<S>,
    record: &Record,
    words: &mut Words,
) -> bool
where
    S::V: Clone,
    S::Argument: CloneArgument<S::K>,
{
    match record.member() {
        0 => replace(&mut both.there, both.here.clone()),
        1 => {
            mem::swap(&mut both.here, &mut both.there);
            true
        }
        4 => replace(&mut both.here, new_tree(alloc)),
        _ => no_call(words),
    }
}

// Makes the calls that make or exchange whole trees.
fn whole<S: CloneStore<V = u64>>(
    alloc: Global,
    both: &mut Both<S>,
    record: &Record,
    words: &mut Words,
) -> bool
where
    S::K: Sample,
    S::Argument: CloneArgument<S::K>,
{
    match record.member() {
        2 => replace(&mut both.here, loaded(alloc, record)),
        3 => drain_there(alloc, both, record, words),
        _ => exchange(alloc, both, record, words),
    }
}

/// Returns a visitor that has the same result at each inner node.
pub fn says_of(record: &Record) -> Says {
    Says::new(match record.a {
        0 => Say::Child(record.b as usize),
        1 => Say::Nothing,
        _ => Say::Number(record.b as usize),
    })
}

/// Reports the result of a visit.
pub fn report_visit(
    outcome: Result<Option<(usize, usize)>, DescendError>,
    words: &mut Words,
) -> bool {
    match outcome {
        Ok(outcome) => {
            words.add(0);
            outcome.report(words);
            true
        }
        Err(DescendError::InvalidChild) => {
            words.add(1);
            true
        }
        Err(DescendError::OutOfMemory) => {
            words.add(2);
            false
        }
    }
}

/// Two trees with summaries that find and rank keys, a cursor, and commands that are to be run.
#[derive(Drop)]
pub struct Trees<S: NodeStore<V = u64>>
where
    S::K: Sample,
    S::Argument: SampleSummary<S::K>,
{
    both: Both<S>,
    cursor: Option<Cursor<S::K>>,
    commands: Held<S>,
}

impl<S: CloneStore<V = u64>> Subject for Trees<S>
where
    S::K: Sample,
    S::Argument: SampleSummary<S::K>,
{
    fn begin(alloc: Global) -> Result<Self, AllocError> {
        Ok(Trees {
            both: two_trees(alloc)?,
            cursor: None,
            commands: Vec::new(alloc),
        })
    }

    fn call(&mut self, alloc: Global, record: &Record, words: &mut Words) -> bool {
        let tree = &mut self.both.here;
        match record.family() {
            0 => change_queried(alloc, tree, record, words),
            1 => read_queried(alloc, tree, record, words),
            2 => part_queried(alloc, tree, record, words),
            3 => whole(alloc, &mut self.both, record, words),
            4 => cursors::call_queried(alloc, tree, &mut self.cursor, record, words),
            5 => nodes::call(tree, record.member(), record.a, words),
            6 => commands::call(alloc, tree, &mut self.commands, record, words),
            7 => report_visit(tree.descend_visit(says_of(record)), words),
            _ => no_call(words),
        }
    }
}

/// Two trees without summaries, and a cursor.
#[derive(Drop)]
pub struct Plain<S: NodeStore> {
    both: Both<S>,
    cursor: Option<Cursor<S::K>>,
}

impl<S: CloneStore<V = u64>> Subject for Plain<S>
where
    S::K: Sample,
    S::Argument: CloneArgument<S::K> + Report,
{
    fn begin(alloc: Global) -> Result<Self, AllocError> {
        Ok(Plain {
            both: two_trees(alloc)?,
            cursor: None,
        })
    }

    fn call(&mut self, alloc: Global, record: &Record, words: &mut Words) -> bool {
        let tree = &mut self.both.here;
        match record.family() {
            0 => change(alloc, tree, record, words),
            1 => read(alloc, tree, record, words),
            2 => part(alloc, tree, record, words),
            3 => whole(alloc, &mut self.both, record, words),
            4 => cursors::call(alloc, tree, &mut self.cursor, record, words),
            5 => nodes::call(tree, record.member(), record.a, words),
            _ => no_call(words),
        }
    }
}
