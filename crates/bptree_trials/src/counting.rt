//! Two trees whose keys count their comparisons and whose values count their drops, and a map and a
//! set of one key.

use crate::calls::{report_if_ok, report_inserted, write};
use crate::counted::{Counted, Counts, counted_pair, no_counts, report_counts, report_left};
use crate::nodes;
use crate::record::Record;
use crate::subject::{Subject, no_call};
use crate::trees::{Both, exchange, new_tree, replace, take_pairs, tree_of, two_trees, walk_pairs};
use crate::words::{Report, Words};
use bptree_arguments::argument::CloneArgument;
use bptree_keys::key::Key;
use bptree_map::map::BPlusTreeMap;
use bptree_set::set::BPlusTreeSet;
use bptree_stores::node_stores::{CloneStore, NodeStore};
use bptree_tree::BPlusTree;
use std::alloc::{AllocError, Global};
use std::mem;
use std::rc::Rc;

/// Two trees, and the counts of their keys and values.
#[derive(Drop)]
pub struct Counting<S: NodeStore> {
    counts: Rc<Counts>,
    both: Both<S>,
}

fn insert<S: NodeStore>(trees: &mut Counting<S>, record: &Record, words: &mut Words) -> bool
where
    S::K: Counted,
    S::V: Counted,
{
    let Ok((key, value)) = counted_pair(&trees.counts, record.a, record.b) else {
        return false;
    };
    report_inserted(trees.both.here.insert(key, value), words)
}

fn remove<S: NodeStore>(trees: &mut Counting<S>, record: &Record, words: &mut Words) -> bool
where
    S::K: Counted,
    S::V: Counted,
{
    match S::K::counted(&trees.counts, record.a) {
        Ok(key) => report_if_ok(trees.both.here.remove(&key), words),
        Err(_) => false,
    }
}

// Writes the value of a key, and reports the old one.
fn set<S: NodeStore>(trees: &mut Counting<S>, record: &Record, words: &mut Words) -> bool
where
    S::K: Counted,
    S::V: Counted,
{
    let Ok((key, value)) = counted_pair::<S::K, S::V>(&trees.counts, record.a, record.b) else {
        return false;
    };
    write(trees.both.here.get_mut(&key), value, words)
}

fn change<S: NodeStore>(trees: &mut Counting<S>, record: &Record, words: &mut Words) -> bool
where
    S::K: Counted,
    S::V: Counted,
{
    match record.member() {
        0 => insert(trees, record, words),
        1 => remove(trees, record, words),
        5 => report_if_ok(trees.both.here.clear(), words),
        7 => set(trees, record, words),
        _ => no_call(words),
    }
}

fn read<S: NodeStore>(trees: &Counting<S>, record: &Record, words: &mut Words) -> bool
where
    S::K: Counted,
    S::V: Counted,
{
    let tree = &trees.both.here;
    let Ok(key) = S::K::counted(&trees.counts, record.a) else {
        return false;
    };
    match record.member() {
        0 => tree.get(&key).report(words),
        1 => tree.get_counted(&key).report(words),
        5 => (tree.len(), (tree.is_empty(), tree.height())).report(words),
        _ => return no_call(words),
    }
    true
}

// Returns pairs in runs of equal keys, whose values are ten times the key, and one more with each
// pair of a run.
fn pairs_in_runs<K: Counted, V: Counted>(
    alloc: Global,
    counts: &Rc<Counts>,
    many: u64,
    run: u64,
) -> Result<Vec<(K, V)>, AllocError> {
    let run = run.max(1);
    let mut pairs = Vec::new(alloc);
    for turn in 0..many {
        let number = turn / run;
        let value = number.wrapping_mul(10).wrapping_add(turn % run);
        pairs.push(counted_pair(counts, number, value)?)?;
    }
    Ok(pairs)
}

// Returns a tree that is bulk loaded from runs of equal keys.
fn loaded<S: NodeStore>(
    alloc: Global,
    counts: &Rc<Counts>,
    record: &Record,
) -> Result<BPlusTree<S>, AllocError>
where
    S::K: Counted,
    S::V: Counted,
{
    let run = record.b.saturating_add(1);
    tree_of(pairs_in_runs(alloc, counts, record.a, run)?)
}

// Takes pairs of the other tree from both ends, and reports the number of values that were dropped
// meanwhile.
fn drain_there<S: NodeStore>(
    alloc: Global,
    trees: &mut Counting<S>,
    record: &Record,
    words: &mut Words,
) -> bool
where
    S::K: Counted,
    S::V: Counted,
{
    let Ok(empty) = new_tree(alloc) else {
        return false;
    };
    let before = trees.counts.dropped.get();
    let mut pairs = mem::replace(&mut trees.both.there, empty).into_iter();
    take_pairs(&mut pairs, true, record, words);
    words.add(trees.counts.dropped.get().wrapping_sub(before));
    true
}

fn whole<S: CloneStore>(
    alloc: Global,
    trees: &mut Counting<S>,
    record: &Record,
    words: &mut Words,
) -> bool
where
    S::K: Counted,
    S::V: Counted + Clone,
    S::Argument: CloneArgument<S::K>,
{
    match record.member() {
        2 => replace(&mut trees.both.here, loaded(alloc, &trees.counts, record)),
        3 => drain_there(alloc, trees, record, words),
        _ => exchange(alloc, &mut trees.both, record, words),
    }
}

// Inserts pairs of one key into a map. After each insertion it reports the old value, the length,
// and the counts of what is left.
fn put_in_map<K: Key + Counted, V: Counted>(
    map: &mut BPlusTreeMap<K, V>,
    counts: &Rc<Counts>,
    many: u64,
    words: &mut Words,
) -> bool {
    for turn in 0..many {
        let Ok((key, value)) = counted_pair(counts, 7, turn) else {
            return false;
        };
        if !report_inserted(map.insert(key, value), words) {
            return false;
        }
        map.len().report(words);
        report_left(counts, words);
    }
    true
}

fn map_of_one<K: Key + Counted, V: Counted>(
    alloc: Global,
    counts: &Rc<Counts>,
    many: u64,
    words: &mut Words,
) -> bool {
    match BPlusTreeMap::<K, V>::new(alloc) {
        Ok(mut map) => put_in_map(&mut map, counts, many, words),
        Err(_) => false,
    }
}

// Inserts a key into a set again and again. After each insertion it reports whether the key is new,
// the length, and the counts of what is left.
fn put_in_set<K: Key + Counted>(
    set: &mut BPlusTreeSet<K>,
    counts: &Rc<Counts>,
    many: u64,
    words: &mut Words,
) -> bool {
    for _ in 0..many {
        let Ok(key) = K::counted(counts, 7) else {
            return false;
        };
        if !report_inserted(set.insert(key), words) {
            return false;
        }
        set.len().report(words);
        report_left(counts, words);
    }
    true
}

fn set_of_one<K: Key + Counted>(
    alloc: Global,
    counts: &Rc<Counts>,
    many: u64,
    words: &mut Words,
) -> bool {
    match BPlusTreeSet::<K>::new(alloc) {
        Ok(mut set) => put_in_set(&mut set, counts, many, words),
        Err(_) => false,
    }
}

// Reports the counts, or what a map or a set of one key counts.
fn count<K: Key + Counted, V: Counted>(
    alloc: Global,
    counts: &Rc<Counts>,
    record: &Record,
    words: &mut Words,
) -> bool {
    match record.member() {
        0 => {
            report_counts(counts, words);
            true
        }
        1 => map_of_one::<K, V>(alloc, counts, record.a, words),
        2 => set_of_one::<K>(alloc, counts, record.a, words),
        _ => no_call(words),
    }
}

impl<S: CloneStore> Subject for Counting<S>
where
    S::K: Counted,
    S::V: Counted + Clone,
    S::Argument: CloneArgument<S::K> + Report,
{
    fn begin(alloc: Global) -> Result<Self, AllocError> {
        let counts = no_counts(alloc)?;
        let both = two_trees(alloc)?;
        Ok(Counting { counts, both })
    }

    fn call(&mut self, alloc: Global, record: &Record, words: &mut Words) -> bool {
        match record.family() {
            0 => change(self, record, words),
            1 => read(self, record, words),
            2 => walk_pairs(self.both.here.iter(), record, words),
            3 => whole(alloc, self, record, words),
            5 => nodes::call(&self.both.here, record.member(), record.a, words),
            12 => count::<S::K, S::V>(alloc, &self.counts, record, words),
            _ => no_call(words),
        }
    }
}
