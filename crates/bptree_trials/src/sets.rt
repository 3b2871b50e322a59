//! Two sets.
ghost use Rattle.std.specs.Iterator.{IsFinite};

use crate::calls::{report_if_ok, report_inserted};
use crate::maps::report_order;
use crate::moving::{keep_split, report_retained};
use crate::record::Record;
use crate::samples::Sample;
use crate::sides::{drain_side, walk_side};
use crate::subject::{Subject, no_call};
use crate::trees::{bound_of, replace};
use crate::walk::{bounds, keys_of};
use crate::words::{Report, Words};
use crate::{batches, nodes};
use bptree_set::set::BPlusTreeSet;
use std::alloc::{AllocError, Global};
use std::mem;

type Set<K> = BPlusTreeSet<K>;

/// Two sets.
#[derive(Drop)]
pub struct Sets<K: Sample> {
    here: Set<K>,
    there: Set<K>,
}

// Makes the changes that name a key.
fn change_at<K: Sample>(
    alloc: Global,
    set: &mut Set<K>,
    record: &Record,
    words: &mut Words,
) -> bool {
    let Ok(key) = K::sample(alloc, record.a) else {
        return false;
    };
    match record.member() {
        0 => report_inserted(set.insert(key), words),
        1 => report_if_ok(set.remove(&key), words),
        2 => report_if_ok(set.take(&key), words),
        _ => report_inserted(set.replace(key), words),
    }
}

fn change<K: Sample>(alloc: Global, set: &mut Set<K>, record: &Record, words: &mut Words) -> bool {
    match record.member() {
        0..=2 | 6 => change_at(alloc, set, record, words),
        3 => report_if_ok(set.pop_first(), words),
        4 => report_if_ok(set.pop_last(), words),
        5 => report_if_ok(set.clear(), words),
        _ => no_call(words),
    }
}

// Makes the reads that name a key.
fn read_at<K: Sample>(alloc: Global, set: &Set<K>, record: &Record, words: &mut Words) -> bool {
    let Ok(key) = K::sample(alloc, record.a) else {
        return false;
    };
    match record.member() {
        0 => set.contains(&key).report(words),
        1 => set.contains_counted(&key).report(words),
        _ => set.get(&key).report(words),
    }
    true
}

fn read<K: Sample>(alloc: Global, set: &Set<K>, record: &Record, words: &mut Words) -> bool {
    match record.member() {
        0..=2 => return read_at(alloc, set, record, words),
        4 => (set.first(), set.last()).report(words),
        5 => (set.len(), set.is_empty()).report(words),
        _ => return no_call(words),
    }
    true
}

// Walks over the keys in a range of keys that is given as a range.
fn part_within<K: Sample>(alloc: Global, set: &Set<K>, record: &Record, words: &mut Words) -> bool {
    let Ok((lo, hi)) = bounds::<K>(alloc, record) else {
        return false;
    };
    let (Some(lo), Some(hi)) = (lo, hi) else {
        return false;
    };
    if record.d & 8 == 8 {
        walk_side(set.range_within(lo..=hi), record, words)
    } else {
        walk_side(set.range_within(lo..hi), record, words)
    }
}

// Makes the calls for the part between the bounds of a record. If there are two bounds and the
// lower is included, half of the records use a range of keys, and the others two bounds.
fn part_between<K: Sample>(
    alloc: Global,
    set: &Set<K>,
    record: &Record,
    words: &mut Words,
) -> bool {
    if record.member() != 1 && record.d & 7 == 3 && record.a & 1 == 0 {
        return part_within(alloc, set, record, words);
    }
    let Ok((lo, hi)) = bounds::<K>(alloc, record) else {
        return false;
    };
    if record.member() == 1 {
        return walk_side(set.range(lo.as_ref(), hi.as_ref()), record, words);
    }
    let from = bound_of(&lo, record.d & 4 == 0);
    let to = bound_of(&hi, record.d & 8 == 8);
    walk_side(set.range_bounds(from, to), record, words)
}

fn part<K: Sample>(alloc: Global, set: &Set<K>, record: &Record, words: &mut Words) -> bool {
    match record.member() {
        0 => walk_side(set.iter(), record, words),
        1 | 2 => part_between(alloc, set, record, words),
        _ => no_call(words),
    }
}

fn gathered<K: Sample>(alloc: Global, record: &Record) -> Result<Set<K>, AllocError> {
    BPlusTreeSet::from_iter(alloc, keys_of(alloc, 0, record.a, record.b)?)
}

// Takes a set apart by its owned iterator, and leaves an empty set.
fn drain_set<K: Sample>(
    alloc: Global,
    set: &mut Set<K>,
    record: &Record,
    words: &mut Words,
) -> bool {
    match BPlusTreeSet::new(alloc) {
        Ok(empty) => drain_side(mem::replace(set, empty).into_iter(), record, words),
        Err(_) => false,
    }
}

fn compare<K: Sample>(sets: &Sets<K>, words: &mut Words) -> bool {
    (sets.here == sets.there).report(words);
    report_order(sets.here.cmp(&sets.there), words);
    true
}

fn whole<K: Sample>(alloc: Global, sets: &mut Sets<K>, record: &Record, words: &mut Words) -> bool {
    match record.member() {
        1 => {
            mem::swap(&mut sets.here, &mut sets.there);
            true
        }
        2 => replace(&mut sets.here, gathered(alloc, record)),
        3 => drain_set(alloc, &mut sets.there, record, words),
        4 => replace(&mut sets.here, BPlusTreeSet::new(alloc)),
        7 => compare(sets, words),
        8 => replace(&mut sets.here, BPlusTreeSet::default(alloc)),
        _ => no_call(words),
    }
}

fn extend<K: Sample>(alloc: Global, set: &mut Set<K>, record: &Record, words: &mut Words) -> bool {
    let Ok(keys) = keys_of::<K>(alloc, record.a, record.b, record.c) else {
        return false;
    };
    report_inserted(set.extend(keys), words)
}

// Inserts all keys of a vector or a slice, or none of them.
fn extend_by_all<K: Sample>(alloc: Global, set: &mut Set<K>, record: &Record) -> bool {
    let Ok(keys) = keys_of::<K>(alloc, record.a, record.b, record.c) else {
        return false;
    };
    if record.member() == 9 {
        set.extend_from_vec(keys).is_ok()
    } else {
        set.extend_from_slice(&keys).is_ok()
    }
}

fn append<K: Sample>(sets: &mut Sets<K>) -> bool {
    sets.here.append(&mut sets.there).is_ok()
}

fn split_off<K: Sample>(alloc: Global, sets: &mut Sets<K>, record: &Record) -> bool {
    let Ok(key) = K::sample(alloc, record.a) else {
        return false;
    };
    let outcome = sets.here.split_off(&key);
    keep_split(&mut sets.there, outcome)
}

// Returns the first word of a key.
fn number_of<K: Report>(key: &K) -> u64 {
    let mut words = Words::new();
    key.report(&mut words);
    words.sent().first().copied().unwrap_or(0)
}

fn retain<K: Sample>(set: &mut Set<K>, record: &Record, words: &mut Words) -> bool {
    let (modulus, residue) = (record.a, record.b);
    let outcome = set.retain(|key: &K| modulus == 0 || number_of(key) % modulus != residue);
    report_retained(outcome, words)
}

fn remove_range<K: Sample>(
    alloc: Global,
    set: &mut Set<K>,
    record: &Record,
    words: &mut Words,
) -> bool {
    let Ok((lo, hi)) = bounds::<K>(alloc, record) else {
        return false;
    };
    let (lo, hi) = (lo.as_ref(), hi.as_ref());
    if record.c == 1 && K::clones_never_fail() {
        set.remove_range_infallible(lo, hi).report(words);
        return true;
    }
    report_if_ok(set.remove_range(lo, hi), words)
}

// Makes the calls that move or remove many keys.
fn move_keys<K: Sample>(
    alloc: Global,
    sets: &mut Sets<K>,
    record: &Record,
    words: &mut Words,
) -> bool {
    match record.member() {
        0 => extend(alloc, &mut sets.here, record, words),
        1 => append(sets),
        2 => split_off(alloc, sets, record),
        3 => retain(&mut sets.here, record, words),
        4 => remove_range(alloc, &mut sets.here, record, words),
        9 | 10 => extend_by_all(alloc, &mut sets.here, record),
        _ => no_call(words),
    }
}

// Reports the keys that an iterator yields. Returns their number.
fn report_keys<'a, K: Report + 'a, I: Iterator<Item = &'a K> + Drop>(
    keys: I,
    words: &mut Words,
) -> u64
    requires can { I.can_next keys }
    requires ends { IsFinite (I.remaining keys) }
{
    let mut count: u64 = 0;
    for key in keys {
        key.report(words);
        count = count.wrapping_add(1);
    }
    count
}

// Takes up to `many` keys, and reports their number. Then reports the size hint, and whether there
// is one more key.
fn report_end<'a, K: Report + 'a, I: Iterator<Item = &'a K> + Drop>(
    keys: I,
    many: u64,
    words: &mut Words,
)
    requires can { (x : I) → I.can_next x }
    requires ends { (x : I) → IsFinite (I.remaining x) }
{
    let mut keys = keys;
    let mut count: u64 = 0;
    for _ in 0..many {
        count = count.wrapping_add(keys.next().is_some() as u64);
    }
    words.add(count);
    keys.size_hint().report(words);
    keys.next().is_some().report(words);
}

// Reports the size hint of an iterator and its keys. A clone, made after the first key, must have
// as many keys left.
fn report_joined<'a, K: Report + 'a, I: Iterator<Item = &'a K> + Clone + Drop>(
    keys: I,
    words: &mut Words,
) -> bool
    requires can { (x : I) → I.can_next x }
    requires ends { (x : I) → IsFinite (I.remaining x) }
{
    let mut keys = keys;
    keys.size_hint().report(words);
    if let Some(key) = keys.next() {
        key.report(words);
    }
    let Ok(copy) = keys.clone() else {
        return false;
    };
    let many = report_keys(keys, words);
    report_end(copy, many, words);
    true
}

fn relate<K: Sample>(sets: &Sets<K>, words: &mut Words) -> bool {
    sets.here.is_subset(&sets.there).report(words);
    sets.here.is_superset(&sets.there).report(words);
    sets.here.is_disjoint(&sets.there).report(words);
    true
}

// Makes the calls on both sets.
fn join<K: Sample>(sets: &Sets<K>, member: u64, words: &mut Words) -> bool {
    let (here, there) = (&sets.here, &sets.there);
    match member {
        0 => report_joined(here.union(there), words),
        1 => report_joined(here.difference(there), words),
        2 => report_joined(here.intersection(there), words),
        3 => report_joined(here.symmetric_difference(there), words),
        4 => relate(sets, words),
        _ => no_call(words),
    }
}

impl<K: Sample> Subject for Sets<K> {
    fn begin(alloc: Global) -> Result<Self, AllocError> {
        Ok(Sets {
            here: BPlusTreeSet::new(alloc)?,
            there: BPlusTreeSet::new(alloc)?,
        })
    }

    fn call(&mut self, alloc: Global, record: &Record, words: &mut Words) -> bool {
        match record.family() {
            0 => change(alloc, &mut self.here, record, words),
            1 => read(alloc, &self.here, record, words),
            2 => part(alloc, &self.here, record, words),
            3 => whole(alloc, self, record, words),
            5 => nodes::call(self.here.tree(), record.member(), record.a, words),
            8 => move_keys(alloc, self, record, words),
            11 => join(self, record.member(), words),
            13 => batches::call_set(alloc, &mut self.here, record, words),
            _ => no_call(words),
        }
    }
}
