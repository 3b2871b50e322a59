//! Calls of a map for a thousand keys at once.
ghost use Rattle.std.specs.Prelude.{◌≤◌, length};

use crate::benchmark::loaded::pairs_of;
use crate::benchmark::numbers::Numbers;
use crate::benchmark::timing::Report;
use std::alloc::{AllocError, Global};
use sweep_bptree::{BPlusTreeMap, Count};

type Counted = BPlusTreeMap<u64, u64, Count>;

// The number of keys of a batch.
const BATCH: usize = 1000;

// A read of at most `BATCH` keys.
trait ReadsMany {
    // Makes the call with the keys. Returns what the call adds to the sum of a line.
    fn call(&self, map: &Counted, keys: &[u64]) -> u64
        requires { length keys.now ≤ 1000 };
}

// Reads the values at the keys.
struct GetMany;

// Tests whether the keys are present.
struct ContainsMany;

// Reads the ranks of the keys.
struct RankMany;

impl ReadsMany for GetMany {
    fn call(&self, map: &Counted, keys: &[u64]) -> u64 {
        let mut room = [None; BATCH];
        let found = &mut room[..keys.len()];
        map.get_many(keys, found);
        let mut sum = 0u64;
        for value in found.iter() {
            if let Some(value) = value {
                sum = sum.wrapping_add(**value);
            }
        }
        sum
    }
}

impl ReadsMany for ContainsMany {
    fn call(&self, map: &Counted, keys: &[u64]) -> u64 {
        let mut room = [false; BATCH];
        let found = &mut room[..keys.len()];
        map.contains_many(keys, found);
        let mut sum = 0u64;
        for is_there in found.iter() {
            sum = sum.wrapping_add(*is_there as u64);
        }
        sum
    }
}

impl ReadsMany for RankMany {
    fn call(&self, map: &Counted, keys: &[u64]) -> u64 {
        let mut room = [0; BATCH];
        let ranks = &mut room[..keys.len()];
        map.rank_many(keys, ranks);
        let mut sum = 0u64;
        for rank in ranks.iter() {
            sum = sum.wrapping_add(*rank as u64);
        }
        sum
    }
}

// Reads all keys in batches, and prints the time for each key.
#[inline(never)]
fn read_batches<C: ReadsMany>(
    report: Report<'_>,
    name: &str,
    call: &C,
    map: &Counted,
    keys: &[u64],
) {
    let clock = report.start(name);
    let mut sum = 0u64;
    let mut at = 0;
    'batches: while at < keys.len() {
        let end = at + BATCH.min(keys.len() - at);
        sum = sum.wrapping_add(call.call(map, &keys[at..end]));
        at = end;
    }
    clock.stop(keys.len(), sum);
}

// Returns the even number below each of the first keys.
fn new_keys(alloc: Global, keys: &[u64], many: usize) -> Result<Vec<u64>, AllocError> {
    let mut numbers = Vec::with_capacity(alloc, many)?;
    for key in keys.iter().take(many) {
        numbers.push(*key & (u64::MAX - 1))?;
    }
    Ok(numbers)
}

// Inserts the new pairs in one call and removes them in one call, and prints the time for each
// pair. The names are those of the two calls.
fn insert_many(report: Report<'_>, names: (&str, &str), map: &mut Counted, keys: &[u64]) -> bool {
    let alloc = report.rt.alloc();
    let many = keys.len();
    let Ok(mut removed) = Vec::with_capacity(alloc, many) else {
        return false;
    };
    for _ in keys {
        if removed.push(None).is_err() {
            return false;
        }
    }
    let clock = report.start(names.0);
    if map.extend_from_columns(keys, keys).is_err() {
        return false;
    }
    clock.stop(many, map.len() as u64);
    if removed.len() != many {
        return false;
    }
    let clock = report.start(names.1);
    let gone = map.remove_many(keys, &mut removed);
    clock.stop(many, gone as u64);
    true
}

// Times changes with the new keys in random order, and then in the order of the keys.
fn change_batches(report: Report<'_>, map: &mut Counted, keys: Vec<u64>) -> bool {
    let mut keys = keys;
    insert_many(report, ("insertmany", "removemany"), map, &keys)
        && keys.sort().is_ok()
        && insert_many(report, ("insertsorted", "removesorted"), map, &keys)
}

/// Times calls for many keys at once. Returns whether no call failed.
pub fn take(report: Report<'_>, numbers: Numbers<'_>) -> bool {
    let alloc = report.rt.alloc();
    let Ok(pairs) = pairs_of(alloc, numbers.keys) else {
        return false;
    };
    let Ok(mut map) = Counted::from_iter(alloc, pairs) else {
        return false;
    };
    read_batches(report, "getmany", &GetMany, &map, numbers.others);
    read_batches(report, "containsmany", &ContainsMany, &map, numbers.others);
    read_batches(report, "rankmany", &RankMany, &map, numbers.others);
    match new_keys(alloc, numbers.others, numbers.keys.len() / 100) {
        Ok(keys) => change_batches(report, &mut map, keys),
        Err(_) => false,
    }
}
