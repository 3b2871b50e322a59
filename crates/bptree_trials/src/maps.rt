//! Two maps.

use crate::calls::{
    report_if_ok, report_inserted, report_rank_of, report_replaced, write, write_found,
};
use crate::cursors::report_found;
use crate::record::Record;
use crate::samples::{Group, Sample, SampleSummary};
use crate::sides::{drain_side, walk_side};
use crate::subject::{Subject, no_call};
use crate::trees::{bound_of, replace, report_visit, says_of};
use crate::walk::{Steps, bounds, drain, pairs_of, report_step, walk};
use crate::words::{Report, Words};
use crate::{batches, moving, nodes};
use bptree_arguments::count::Count;
use bptree_arguments::group::GroupCount;
use bptree_arguments::group_size::ExtractGroupSize;
use bptree_map::map::{BPlusTreeMap, Iter};
use std::alloc::{AllocError, Global};
use std::cmp::Ordering;
use std::mem;

// Reads the tree of a map. One function makes all such calls, since each function that names the
// store of a map is expensive to prove.
fn look<K: Sample, A: SampleSummary<K>>(
    map: &BPlusTreeMap<K, u64, A>,
    member: u64,
    number: u64,
    words: &mut Words,
) -> bool {
    nodes::call(map.tree(), member, number, words)
}

// Inserts a key into the map, or replaces an equal one if the record asks for that.
fn put<K: Sample, A: SampleSummary<K>>(
    alloc: Global,
    map: &mut BPlusTreeMap<K, u64, A>,
    record: &Record,
    words: &mut Words,
) -> bool {
    let Ok(key) = K::sample(alloc, record.a) else {
        return false;
    };
    if record.member() == 0 {
        report_inserted(map.insert(key, record.b), words)
    } else {
        report_replaced(map.replace_key(key), words)
    }
}

// Makes the other changes that name a key.
fn change_at<K: Sample, A: SampleSummary<K>>(
    alloc: Global,
    map: &mut BPlusTreeMap<K, u64, A>,
    record: &Record,
    words: &mut Words,
) -> bool {
    let Ok(key) = K::sample(alloc, record.a) else {
        return false;
    };
    match record.member() {
        1 => report_if_ok(map.remove(&key), words),
        2 => report_if_ok(map.remove_entry(&key), words),
        _ => write(map.get_mut(&key), record.b, words),
    }
}

// Makes the changes that need a query.
fn change_found<K: Sample, A: SampleSummary<K>>(
    alloc: Global,
    map: &mut BPlusTreeMap<K, u64, A>,
    record: &Record,
    words: &mut Words,
) -> bool {
    let index = if record.member() == 6 {
        record.b
    } else {
        record.c
    };
    let Ok(query) = A::query(alloc, record.a, index) else {
        return false;
    };
    if record.member() == 6 {
        report_if_ok(map.remove_by_argument(query), words)
    } else {
        write_found(map.get_mut_by_argument(query), record.b, words)
    }
}

fn change<K: Sample, A: SampleSummary<K>>(
    alloc: Global,
    map: &mut BPlusTreeMap<K, u64, A>,
    record: &Record,
    words: &mut Words,
) -> bool {
    match record.member() {
        0 | 9 => put(alloc, map, record, words),
        1 | 2 | 7 => change_at(alloc, map, record, words),
        3 => report_if_ok(map.pop_first(), words),
        4 => report_if_ok(map.pop_last(), words),
        5 => report_if_ok(map.clear(), words),
        6 | 8 => change_found(alloc, map, record, words),
        _ => no_call(words),
    }
}

// Makes the reads that name a key.
fn read_at<K: Sample, A: SampleSummary<K>>(
    alloc: Global,
    map: &BPlusTreeMap<K, u64, A>,
    record: &Record,
    words: &mut Words,
) -> bool {
    let Ok(key) = K::sample(alloc, record.a) else {
        return false;
    };
    match record.member() {
        0 => map.get(&key).report(words),
        1 => map.get_counted(&key).report(words),
        2 => map.get_key_value(&key).report(words),
        _ => map.contains_key(&key).report(words),
    }
    true
}

fn found<K: Sample, A: SampleSummary<K>>(
    alloc: Global,
    map: &BPlusTreeMap<K, u64, A>,
    record: &Record,
    words: &mut Words,
) -> bool {
    let Ok(query) = A::query(alloc, record.a, record.b) else {
        return false;
    };
    report_if_ok(map.get_by_argument(query), words)
}

fn rank<K: Sample, A: SampleSummary<K>>(
    alloc: Global,
    map: &BPlusTreeMap<K, u64, A>,
    record: &Record,
    words: &mut Words,
) -> bool {
    let Ok(key) = K::sample(alloc, record.a) else {
        return false;
    };
    report_rank_of::<K, A>(map.rank_by_argument(&key), words)
}

fn read<K: Sample, A: SampleSummary<K>>(
    alloc: Global,
    map: &BPlusTreeMap<K, u64, A>,
    record: &Record,
    words: &mut Words,
) -> bool {
    match record.member() {
        0..=3 => return read_at(alloc, map, record, words),
        4 => (map.first_key_value(), map.last_key_value()).report(words),
        5 => {
            (map.len(), map.is_empty()).report(words);
            return look(map, nodes::HEIGHT, 0, words);
        }
        6 => return found(alloc, map, record, words),
        7 => return rank(alloc, map, record, words),
        8 => map.root_argument().report(words),
        _ => return no_call(words),
    }
    true
}

impl<'a, K: Sample, A: SampleSummary<K>> Steps for Iter<'a, K, u64, A> {
    fn step(&mut self, is_back: bool, is_reported: bool, words: &mut Words) -> bool {
        if is_back {
            report_step(self.next_back(), is_reported, words)
        } else {
            report_step(self.next(), is_reported, words)
        }
    }

    fn left(&self) -> (usize, (usize, Option<usize>)) {
        (self.len(), self.size_hint())
    }
}

// Walks over pairs of a map. One function makes all calls that return such an iterator, since each
// function that uses its contract is expensive to prove.
fn walk_pairs<K: Sample, A: SampleSummary<K>>(
    pairs: Iter<'_, K, u64, A>,
    record: &Record,
    words: &mut Words,
) -> bool {
    walk(pairs, record, words)
}

// Walks over pairs if there is an iterator.
fn walk_if<K: Sample, A: SampleSummary<K>>(
    pairs: Result<Iter<'_, K, u64, A>, AllocError>,
    record: &Record,
    words: &mut Words,
) -> bool {
    match pairs {
        Ok(pairs) => walk_pairs(pairs, record, words),
        Err(_) => false,
    }
}

// Returns the pairs from a key on, by the range type that has such ends.
fn range_from<K: Sample, A: SampleSummary<K>>(
    map: &BPlusTreeMap<K, u64, A>,
    lo: K,
    hi: Option<K>,
    is_inclusive: bool,
) -> Iter<'_, K, u64, A> {
    match hi {
        Some(hi) => {
            if is_inclusive {
                map.range_within(lo..=hi)
            } else {
                map.range_within(lo..hi)
            }
        }
        None => map.range_within(lo..),
    }
}

// Returns the pairs up to a key, by the range type that has such an end.
fn range_upto<K: Sample, A: SampleSummary<K>>(
    map: &BPlusTreeMap<K, u64, A>,
    hi: Option<K>,
    is_inclusive: bool,
) -> Iter<'_, K, u64, A> {
    match hi {
        Some(hi) => {
            if is_inclusive {
                map.range_within(..=hi)
            } else {
                map.range_within(..hi)
            }
        }
        None => map.range_within(..),
    }
}

// Returns the pairs in a range of keys, by the range type that has such ends.
fn range_of<K: Sample, A: SampleSummary<K>>(
    map: &BPlusTreeMap<K, u64, A>,
    lo: Option<K>,
    hi: Option<K>,
    is_inclusive: bool,
) -> Iter<'_, K, u64, A> {
    match lo {
        Some(lo) => range_from(map, lo, hi, is_inclusive),
        None => range_upto(map, hi, is_inclusive),
    }
}

// Walks over the pairs in a range of keys that is given as a range.
fn part_within<K: Sample, A: SampleSummary<K>>(
    alloc: Global,
    map: &BPlusTreeMap<K, u64, A>,
    record: &Record,
    words: &mut Words,
) -> bool {
    match bounds::<K>(alloc, record) {
        Ok((lo, hi)) => walk_pairs(range_of(map, lo, hi, record.d & 8 == 8), record, words),
        Err(_) => false,
    }
}

// Makes the calls for the part between the bounds of a record. If the lower bound is included, half
// of the records use a range of keys, and the others two bounds.
fn part_between<K: Sample, A: SampleSummary<K>>(
    alloc: Global,
    map: &BPlusTreeMap<K, u64, A>,
    record: &Record,
    words: &mut Words,
) -> bool {
    if record.member() == 2 && (record.d & 4) | (record.a & 1) == 0 {
        return part_within(alloc, map, record, words);
    }
    let Ok((lo, hi)) = bounds::<K>(alloc, record) else {
        return false;
    };
    match record.member() {
        1 => walk_pairs(map.range(lo.as_ref(), hi.as_ref()), record, words),
        2 => {
            let from = bound_of(&lo, record.d & 4 == 0);
            let to = bound_of(&hi, record.d & 8 == 8);
            walk_pairs(map.range_bounds(from, to), record, words)
        }
        _ => report_if_ok(map.range_argument(lo.as_ref(), hi.as_ref()), words),
    }
}

fn range_found<K: Sample, A: SampleSummary<K>>(
    alloc: Global,
    map: &BPlusTreeMap<K, u64, A>,
    record: &Record,
    words: &mut Words,
) -> bool {
    let Ok(query) = A::query(alloc, record.a, record.b) else {
        return false;
    };
    let many = (record.d >> 16) as usize;
    walk_if(map.range_by_argument(query, many), record, words)
}

fn summary_of_part<K: Sample, A: SampleSummary<K>>(
    alloc: Global,
    map: &BPlusTreeMap<K, u64, A>,
    record: &Record,
    words: &mut Words,
) -> bool {
    let Ok(from) = A::query(alloc, record.a, record.b) else {
        return false;
    };
    let Ok(to) = A::query(alloc, record.c, record.d) else {
        return false;
    };
    report_if_ok(map.part_argument(from, to), words)
}

fn part<K: Sample, A: SampleSummary<K>>(
    alloc: Global,
    map: &BPlusTreeMap<K, u64, A>,
    record: &Record,
    words: &mut Words,
) -> bool {
    match record.member() {
        0 => walk_pairs(map.iter(), record, words),
        1 | 2 | 4 => part_between(alloc, map, record, words),
        3 => range_found(alloc, map, record, words),
        5 => summary_of_part(alloc, map, record, words),
        6 => walk_side(map.keys(), record, words),
        7 => walk_side(map.values(), record, words),
        _ => no_call(words),
    }
}

/// Two maps.
#[derive(Drop)]
pub struct Maps<K: Sample, A: SampleSummary<K>> {
    pub here: BPlusTreeMap<K, u64, A>,
    pub there: BPlusTreeMap<K, u64, A>,
}

fn gathered<K: Sample, A: SampleSummary<K>>(
    alloc: Global,
    record: &Record,
) -> Result<BPlusTreeMap<K, u64, A>, AllocError> {
    BPlusTreeMap::from_iter(alloc, pairs_of(alloc, 0, record.a, record.b)?)
}

// Takes a map apart by one of its owned iterators.
fn drain_map<K: Sample, A: SampleSummary<K>>(
    map: BPlusTreeMap<K, u64, A>,
    record: &Record,
    words: &mut Words,
) -> bool {
    match record.member() {
        3 => drain(map.into_iter(), record, words),
        5 => drain_side(map.into_keys(), record, words),
        _ => drain_side(map.into_values(), record, words),
    }
}

fn drain_there<K: Sample, A: SampleSummary<K>>(
    alloc: Global,
    maps: &mut Maps<K, A>,
    record: &Record,
    words: &mut Words,
) -> bool {
    match BPlusTreeMap::new(alloc) {
        Ok(empty) => drain_map(mem::replace(&mut maps.there, empty), record, words),
        Err(_) => false,
    }
}

/// Reports the order of two things: 0 for less, 1 for equal and 2 for greater.
pub fn report_order(order: Ordering, words: &mut Words) {
    words.add(match order {
        Ordering::Less => 0,
        Ordering::Equal => 1,
        Ordering::Greater => 2,
    });
}

fn compare<K: Sample, A: SampleSummary<K>>(maps: &Maps<K, A>, words: &mut Words) -> bool {
    (maps.here == maps.there).report(words);
    report_order(maps.here.cmp(&maps.there), words);
    true
}

fn whole<K: Sample, A: SampleSummary<K>>(
    alloc: Global,
    maps: &mut Maps<K, A>,
    record: &Record,
    words: &mut Words,
) -> bool {
    match record.member() {
        0 => replace(&mut maps.there, maps.here.clone()),
        1 => {
            mem::swap(&mut maps.here, &mut maps.there);
            true
        }
        2 => replace(&mut maps.here, gathered(alloc, record)),
        3 | 5 | 6 => drain_there(alloc, maps, record, words),
        4 => replace(&mut maps.here, BPlusTreeMap::new(alloc)),
        7 => compare(maps, words),
        _ => no_call(words),
    }
}

// Makes the calls of cursors that need a key.
fn cursor_at_key<K: Sample, A: SampleSummary<K>>(
    alloc: Global,
    map: &BPlusTreeMap<K, u64, A>,
    record: &Record,
    words: &mut Words,
) -> bool {
    let Ok(key) = K::sample(alloc, record.a) else {
        return false;
    };
    if record.member() == 3 {
        report_found(map.lower_bound(&key), words).is_some()
    } else {
        report_found(map.upper_bound(&key), words).is_some()
    }
}

fn cursor<K: Sample, A: SampleSummary<K>>(
    alloc: Global,
    map: &BPlusTreeMap<K, u64, A>,
    record: &Record,
    words: &mut Words,
) -> bool {
    match record.member() {
        3 | 4 => cursor_at_key(alloc, map, record, words),
        9 => match A::query(alloc, record.a, record.b) {
            Ok(query) => report_found(map.cursor_by_argument(query), words).is_some(),
            Err(_) => false,
        },
        _ => no_call(words),
    }
}

/// The calls of maps with summaries of one kind alone.
pub trait Special<K: Sample>: SampleSummary<K> {
    fn call(
        alloc: Global,
        map: &mut BPlusTreeMap<K, u64, Self>,
        record: &Record,
        words: &mut Words,
    ) -> bool;
}

impl<K: Sample, A: Special<K>> Subject for Maps<K, A> {
    fn begin(alloc: Global) -> Result<Self, AllocError> {
        Ok(Maps {
            here: BPlusTreeMap::new(alloc)?,
            there: BPlusTreeMap::default(alloc)?,
        })
    }

    fn call(&mut self, alloc: Global, record: &Record, words: &mut Words) -> bool {
        let map = &mut self.here;
        match record.family() {
            0 => change(alloc, map, record, words),
            1 => read(alloc, map, record, words),
            2 => part(alloc, map, record, words),
            3 => whole(alloc, self, record, words),
            4 => cursor(alloc, map, record, words),
            5 => look(map, record.member(), record.a, words),
            7 => report_visit(map.descend_visit(says_of(record)), words),
            8 => moving::call(alloc, self, record, words),
            9 | 10 => A::call(alloc, map, record, words),
            13 => batches::call(alloc, map, record, words),
            _ => no_call(words),
        }
    }
}

// Makes the calls by a key, of a map with counts.
fn index_of<K: Sample>(
    alloc: Global,
    map: &BPlusTreeMap<K, u64, Count>,
    record: &Record,
    words: &mut Words,
) -> bool {
    let Ok(key) = K::sample(alloc, record.a) else {
        return false;
    };
    if record.member() == 1 {
        map.get_index_of(&key).report(words);
        return true;
    }
    match map.page_of(&key, (record.b as usize).max(1)) {
        Ok(Ok(page)) => (1u64, page).report(words),
        Ok(Err(page)) => (0u64, page).report(words),
        Err(_) => return false,
    }
    true
}

fn range_len<K: Sample>(
    alloc: Global,
    map: &BPlusTreeMap<K, u64, Count>,
    record: &Record,
    words: &mut Words,
) -> bool {
    let Ok((lo, hi)) = bounds::<K>(alloc, record) else {
        return false;
    };
    map.range_len(lo.as_ref(), hi.as_ref()).report(words);
    true
}

fn set_at<K: Sample>(
    map: &mut BPlusTreeMap<K, u64, Count>,
    record: &Record,
    words: &mut Words,
) -> bool {
    write_found(map.get_index_mut(record.a as usize), record.b, words)
}

fn get_index<K: Sample>(
    map: &BPlusTreeMap<K, u64, Count>,
    record: &Record,
    words: &mut Words,
) -> bool {
    map.get_index(record.a as usize).report(words);
    true
}

fn report_page<K: Sample>(
    map: &BPlusTreeMap<K, u64, Count>,
    record: &Record,
    words: &mut Words,
) -> bool {
    let size = (record.b as usize).max(1);
    walk_if(map.page(record.a as usize, size), record, words)
}

impl<K: Sample> Special<K> for Count {
    fn call(
        alloc: Global,
        map: &mut BPlusTreeMap<K, u64, Count>,
        record: &Record,
        words: &mut Words,
    ) -> bool {
        match record.member() {
            0 => range_len(alloc, map, record, words),
            1 | 7 => index_of(alloc, map, record, words),
            2 => get_index(map, record, words),
            3 => set_at(map, record, words),
            4 => report_if_ok(map.remove_index(record.a as usize), words),
            5 => report_page(map, record, words),
            6 => {
                map.pages((record.a as usize).max(1)).report(words);
                true
            }
            8 => report_found(map.cursor_at(record.a as usize), words).is_some(),
            9 | 10 => batches::call_counted(alloc, map, record, words).unwrap_or(false),
            _ => no_call(words),
        }
    }
}

// Reports the size of a group, as a visitor finds it.
fn group_size<K: Sample, G: Group<K>>(
    map: &BPlusTreeMap<K, u64, GroupCount<G>>,
    group: G,
    words: &mut Words,
) -> bool {
    match map.descend_visit(ExtractGroupSize::new(group)) {
        Ok(size) => {
            size.report(words);
            true
        }
        Err(_) => false,
    }
}

// Walks over the pairs of a group, or over a part or a page of them.
fn group_part<K: Sample, G: Group<K>>(
    map: &BPlusTreeMap<K, u64, GroupCount<G>>,
    group: &G,
    record: &Record,
    words: &mut Words,
) -> bool {
    let from = record.b as usize;
    let many = (record.d >> 16) as usize;
    let pairs = match record.member() {
        0 => map.group_range(group),
        1 => map.group_part(group, from, many),
        _ => map.group_page(group, from, many.max(1)),
    };
    walk_if(pairs, record, words)
}

impl<K: Sample, G: Group<K>> Special<K> for GroupCount<G> {
    fn call(
        alloc: Global,
        map: &mut BPlusTreeMap<K, u64, GroupCount<G>>,
        record: &Record,
        words: &mut Words,
    ) -> bool {
        let Ok(group) = G::group(alloc, record.a) else {
            return false;
        };
        match record.member() {
            0..=2 => group_part(map, &group, record, words),
            3 => group_size(map, group, words),
            _ => no_call(words),
        }
    }
}
