//! Calls for many keys at once.
ghost use Rattle.std.specs.Prelude.{◌≡◌, IfOk, vec_len};

use crate::record::Record;
use crate::samples::{Sample, SampleSummary};
use crate::subject::no_call;
use crate::words::{Report, Words};
use bptree_arguments::count::Count;
use bptree_map::map::BPlusTreeMap;
use bptree_set::set::BPlusTreeSet;
use std::alloc::{AllocError, Global};

// The value in a slice if the call does not write it.
const UNTOUCHED: u64 = u64::MAX - 8;

// The number at an index of a batch: from `b` on, in steps of `c`. The steps stay within a span,
// the lower half of `d`, or within all numbers if that is 0.
fn number_at(record: &Record, index: u64) -> u64 {
    let offset = index.wrapping_mul(record.c);
    let span = record.d & 0xffff_ffff;
    let offset = if span == 0 { offset } else { offset % span };
    record.b.wrapping_add(offset)
}

// The keys of a batch, `many` of them.
fn batch_of<T: Sample>(alloc: Global, record: &Record, many: usize) -> Result<Vec<T>, AllocError>
    ensures { IfOk result (λ keys. vec_len keys ≡ many) }
{
    let mut keys = Vec::with_capacity(alloc, many)?;
    'keys: while keys.len() < many {
        keys.push(T::sample(alloc, number_at(record, keys.len() as u64))?)?;
    }
    Ok(keys)
}

// The values of a batch, from the upper half of `d` on.
fn values_of(alloc: Global, record: &Record, many: usize) -> Result<Vec<u64>, AllocError>
    ensures { IfOk result (λ values. vec_len values ≡ many) }
{
    let record = Record {
        b: record.d >> 32,
        c: 1,
        d: 0,
        ..*record
    };
    batch_of(alloc, &record, many)
}

fn report_each<T: Report>(members: &[T], words: &mut Words) {
    for member in members {
        member.report(words);
    }
}

fn get<K: Sample, A: SampleSummary<K>>(
    alloc: Global,
    map: &BPlusTreeMap<K, u64, A>,
    keys: &[K],
    words: &mut Words,
) -> Result<bool, AllocError> {
    let mut found = vec![in alloc; None; keys.len()]?;
    map.get_many(keys, &mut found);
    report_each(&found, words);
    Ok(true)
}

fn contains<K: Sample, A: SampleSummary<K>>(
    alloc: Global,
    map: &BPlusTreeMap<K, u64, A>,
    keys: &[K],
    words: &mut Words,
) -> Result<bool, AllocError> {
    let mut found = vec![in alloc; true; keys.len()]?;
    map.contains_many(keys, &mut found);
    report_each(&found, words);
    Ok(true)
}

// Reports the number of keys that were removed, and what was written.
fn remove<K: Sample, A: SampleSummary<K>>(
    alloc: Global,
    map: &mut BPlusTreeMap<K, u64, A>,
    keys: &[K],
    words: &mut Words,
) -> Result<bool, AllocError> {
    let mut removed = vec![in alloc; Some(UNTOUCHED); keys.len()]?;
    let many = map.remove_many(keys, &mut removed);
    many.report(words);
    report_each(&removed, words);
    Ok(many == keys.len())
}

fn extend<K: Sample, A: SampleSummary<K>>(
    alloc: Global,
    map: &mut BPlusTreeMap<K, u64, A>,
    keys: &[K],
    record: &Record,
) -> Result<bool, AllocError> {
    let values = values_of(alloc, record, keys.len())?;
    Ok(map.extend_from_columns(keys, &values).is_ok())
}

// Reports the old values, also if the call inserts nothing.
fn insert<K: Sample, A: SampleSummary<K>>(
    alloc: Global,
    map: &mut BPlusTreeMap<K, u64, A>,
    keys: &[K],
    record: &Record,
    words: &mut Words,
) -> Result<bool, AllocError> {
    let values = values_of(alloc, record, keys.len())?;
    let mut old = vec![in alloc; UNTOUCHED; keys.len()]?;
    let mut found = vec![in alloc; true; keys.len()]?;
    let is_done = map.insert_many(keys, &values, &mut old, &mut found).is_ok();
    report_each(&found, words);
    report_each(&old, words);
    Ok(is_done)
}

/// Makes the calls of a map for the keys of a batch.
pub fn call<K: Sample, A: SampleSummary<K>>(
    alloc: Global,
    map: &mut BPlusTreeMap<K, u64, A>,
    record: &Record,
    words: &mut Words,
) -> bool {
    let Ok(keys) = batch_of::<K>(alloc, record, record.a as usize) else {
        return false;
    };
    let is_done = match record.member() {
        0 => get(alloc, map, &keys, words),
        1 => contains(alloc, map, &keys, words),
        2 => remove(alloc, map, &keys, words),
        3 => extend(alloc, map, &keys, record),
        4 => insert(alloc, map, &keys, record, words),
        _ => Ok(no_call(words)),
    };
    is_done.unwrap_or(false)
}

/// Makes the calls of a set for the keys of a batch.
pub fn call_set<K: Sample>(
    alloc: Global,
    set: &mut BPlusTreeSet<K>,
    record: &Record,
    words: &mut Words,
) -> bool {
    let Ok(keys) = batch_of::<K>(alloc, record, record.a as usize) else {
        return false;
    };
    let Ok(mut marks) = vec![in alloc; true; keys.len()] else {
        return false;
    };
    let mut many = keys.len();
    match record.member() {
        1 => set.contains_many(&keys, &mut marks),
        2 => {
            many = set.remove_many(&keys, &mut marks);
            many.report(words);
        }
        _ => return no_call(words),
    }
    report_each(&marks, words);
    many == keys.len()
}

/// Makes the calls of a map with counts for many keys or indices.
pub fn call_counted<K: Sample>(
    alloc: Global,
    map: &BPlusTreeMap<K, u64, Count>,
    record: &Record,
    words: &mut Words,
) -> Result<bool, AllocError> {
    let many = record.a as usize;
    if record.member() == 9 {
        let keys: Vec<K> = batch_of(alloc, record, many)?;
        let mut ranks = vec![in alloc; 0; many]?;
        map.rank_many(&keys, &mut ranks);
        report_each(&ranks, words);
    } else {
        let indexes: Vec<usize> = batch_of(alloc, record, many)?;
        let mut found = vec![in alloc; None; many]?;
        map.get_index_many(&indexes, &mut found);
        report_each(&found, words);
    }
    Ok(true)
}
