//! Calls that change many pairs of maps at once.

use crate::calls::{report_back, report_if_ok, report_inserted};
use crate::maps::Maps;
use crate::record::Record;
use crate::samples::{Sample, SampleSummary};
use crate::subject::no_call;
use crate::walk::{bounds, pairs_of};
use crate::words::{Report, Words};
use bptree_map::map::{BPlusTreeMap, RetainError};
use std::alloc::{AllocError, Global};

fn extend<K: Sample, A: SampleSummary<K>>(
    alloc: Global,
    map: &mut BPlusTreeMap<K, u64, A>,
    record: &Record,
    words: &mut Words,
) -> bool {
    let Ok(pairs) = pairs_of::<K>(alloc, record.a, record.b, record.c) else {
        return false;
    };
    report_inserted(map.extend(pairs), words)
}

// Inserts all pairs of a vector or a slice, or none of them.
fn extend_by_all<K: Sample, A: SampleSummary<K>>(
    alloc: Global,
    map: &mut BPlusTreeMap<K, u64, A>,
    record: &Record,
) -> bool {
    let Ok(pairs) = pairs_of::<K>(alloc, record.a, record.b, record.c) else {
        return false;
    };
    if record.member() == 9 {
        map.extend_from_vec(pairs).is_ok()
    } else {
        map.extend_from_slice(&pairs).is_ok()
    }
}

fn append<K: Sample, A: SampleSummary<K>>(maps: &mut Maps<K, A>) -> bool {
    maps.here.append(&mut maps.there).is_ok()
}

/// Stores the pairs or keys that were split off.
pub fn keep_split<M: Drop>(there: &mut M, outcome: Result<M, AllocError>) -> bool {
    match outcome {
        Ok(gone) => {
            *there = gone;
            true
        }
        Err(_) => false,
    }
}

fn split_off<K: Sample, A: SampleSummary<K>>(
    alloc: Global,
    maps: &mut Maps<K, A>,
    record: &Record,
) -> bool {
    let Ok(key) = K::sample(alloc, record.a) else {
        return false;
    };
    let outcome = maps.here.split_off(&key);
    keep_split(&mut maps.there, outcome)
}

/// Reports why the pairs or keys that stay were not stored, and these if they are in the error.
pub fn report_retained<X: Report + Drop>(
    outcome: Result<(), RetainError<Vec<X>>>,
    words: &mut Words,
) -> bool {
    match outcome {
        Ok(()) => true,
        Err(RetainError::NotMade) => {
            words.add(0);
            false
        }
        Err(RetainError::NotStored(kept)) => {
            words.add(1);
            for x in kept {
                x.report(words);
            }
            false
        }
    }
}

// Keeps some pairs, by the call that never fails if it is wanted and allowed.
fn retain<K: Sample, A: SampleSummary<K>>(
    map: &mut BPlusTreeMap<K, u64, A>,
    record: &Record,
    words: &mut Words,
) -> bool {
    let (modulus, residue) = (record.a, record.b);
    let stays = |_key: &K, value: &mut u64| {
        let value = *value;
        modulus == 0 || value % modulus != residue
    };
    if record.c == 1 && K::clones_never_fail() && A::never_fails() {
        map.retain_infallible(stays);
        return true;
    }
    report_retained(map.retain(stays), words)
}

fn add_to_each<K: Sample, A: SampleSummary<K>>(
    map: &mut BPlusTreeMap<K, u64, A>,
    more: u64,
) -> bool {
    map.update_each(|_key: &K, value: &mut u64| {
        *value = value.wrapping_add(more);
    });
    true
}

// Removes the pairs between two keys, by the call that never fails if it is wanted and allowed.
fn remove_range<K: Sample, A: SampleSummary<K>>(
    map: &mut BPlusTreeMap<K, u64, A>,
    ends: (Option<&K>, Option<&K>),
    record: &Record,
    words: &mut Words,
) -> bool {
    let (lo, hi) = ends;
    if record.c == 1 && K::clones_never_fail() && A::never_fails() {
        map.remove_range_infallible(lo, hi).report(words);
        return true;
    }
    report_if_ok(map.remove_range(lo, hi), words)
}

// Makes the calls on the pairs between two keys.
fn between<K: Sample, A: SampleSummary<K>>(
    alloc: Global,
    map: &mut BPlusTreeMap<K, u64, A>,
    record: &Record,
    words: &mut Words,
) -> bool {
    let Ok((lo, hi)) = bounds::<K>(alloc, record) else {
        return false;
    };
    if record.member() == 4 {
        return remove_range(map, (lo.as_ref(), hi.as_ref()), record, words);
    }
    let more = record.c;
    map.update_range(lo.as_ref(), hi.as_ref(), |_key: &K, value: &mut u64| {
        *value = value.wrapping_add(more);
    });
    true
}

fn upsert<K: Sample, A: SampleSummary<K>>(
    map: &mut BPlusTreeMap<K, u64, A>,
    key: K,
    record: &Record,
    words: &mut Words,
) -> bool {
    let more = record.c;
    let outcome = map.upsert_with(
        key,
        record.b,
        |value: &mut u64| *value = value.wrapping_add(more),
    );
    report_inserted(outcome, words)
}

fn get_or_insert<K: Sample, A: SampleSummary<K>>(
    map: &mut BPlusTreeMap<K, u64, A>,
    key: K,
    record: &Record,
    words: &mut Words,
) -> bool {
    let made = record.b;
    match map.get_or_insert_with(key, || made) {
        Ok(at) => {
            at.report(words);
            *at = record.c;
            true
        }
        Err(error) => report_back(error, words),
    }
}

// Makes the changes of one pair that depend on whether its key is present.
fn entry<K: Sample, A: SampleSummary<K>>(
    alloc: Global,
    map: &mut BPlusTreeMap<K, u64, A>,
    record: &Record,
    words: &mut Words,
) -> bool {
    let Ok(key) = K::sample(alloc, record.a) else {
        return false;
    };
    if record.member() == 7 {
        upsert(map, key, record, words)
    } else {
        get_or_insert(map, key, record, words)
    }
}

/// Makes the calls that change many pairs, or a pair that may be absent.
pub fn call<K: Sample, A: SampleSummary<K>>(
    alloc: Global,
    maps: &mut Maps<K, A>,
    record: &Record,
    words: &mut Words,
) -> bool {
    match record.member() {
        0 => extend(alloc, &mut maps.here, record, words),
        1 => append(maps),
        2 => split_off(alloc, maps, record),
        3 => retain(&mut maps.here, record, words),
        4 | 6 => between(alloc, &mut maps.here, record, words),
        5 => add_to_each(&mut maps.here, record.a),
        7 | 8 => entry(alloc, &mut maps.here, record, words),
        9 | 10 => extend_by_all(alloc, &mut maps.here, record),
        _ => no_call(words),
    }
}
