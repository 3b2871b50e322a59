//! Many pairs that are inserted at once: those of another map and those of a vector.

use crate::benchmark::numbers::Numbers;
use crate::benchmark::timing::Report;
use std::alloc::{AllocError, Global};
use sweep_bptree::BPlusTreeMap;

type Plain = BPlusTreeMap<u64, u64>;

// Returns a map of every second key with itself as its value: the keys at even indices, or at odd
// ones.
fn every_second(alloc: Global, sorted: &[u64], odd: bool) -> Result<Plain, AllocError> {
    let mut pairs = Vec::with_capacity(alloc, sorted.len())?;
    let mut is_next = !odd;
    for key in sorted {
        if is_next {
            pairs.push((*key, *key))?;
        }
        is_next = !is_next;
    }
    BPlusTreeMap::from_iter(alloc, pairs)
}

// Appends a map to another whose pairs alternate with its own. Prints the time for each pair of
// both.
fn weave(report: Report<'_>, sorted: &[u64]) -> bool {
    let alloc = report.rt.alloc();
    let Ok(mut first) = every_second(alloc, sorted, false) else {
        return false;
    };
    let Ok(mut second) = every_second(alloc, sorted, true) else {
        return false;
    };
    let clock = report.start("weave");
    if first.append(&mut second).is_err() {
        return false;
    }
    clock.stop(sorted.len(), first.len() as u64);
    true
}

// Returns new pairs, with the even number below each of some odd keys.
fn new_pairs(alloc: Global, keys: &[u64], many: usize) -> Result<Vec<(u64, u64)>, AllocError> {
    let mut pairs = Vec::with_capacity(alloc, many)?;
    for key in keys.iter().take(many) {
        pairs.push((*key & (u64::MAX - 1), *key))?;
    }
    Ok(pairs)
}

// Inserts new pairs one by one, and prints the time for each of them.
fn insert_each(report: Report<'_>, call: &str, map: &mut Plain, pairs: Vec<(u64, u64)>) -> bool {
    let many = pairs.len();
    let clock = report.start(call);
    for (key, value) in pairs {
        if map.insert(key, value).is_err() {
            return false;
        }
    }
    clock.stop(many, map.len() as u64);
    true
}

// Inserts new pairs in one call, and prints the time for each of them.
fn extend(report: Report<'_>, call: &str, map: &mut Plain, pairs: Vec<(u64, u64)>) -> bool {
    let many = pairs.len();
    let clock = report.start(call);
    if map.extend_from_vec(pairs).is_err() {
        return false;
    }
    clock.stop(many, map.len() as u64);
    true
}

/// A way to insert new pairs, and its name in a line.
#[derive(Clone, Copy)]
struct Coming<'a> {
    call: &'a str,
    at_once: bool,
    in_order: bool,
}

const COMINGS: [Coming<'static>; 4] = [
    Coming {
        call: "insertfew",
        at_once: false,
        in_order: false,
    },
    Coming {
        call: "extendfew",
        at_once: true,
        in_order: false,
    },
    Coming {
        call: "insertsorted",
        at_once: false,
        in_order: true,
    },
    Coming {
        call: "extendsorted",
        at_once: true,
        in_order: true,
    },
];

// Inserts one pair for every hundred pairs of the map.
fn grow(report: Report<'_>, numbers: Numbers<'_>, coming: Coming<'_>) -> bool {
    let alloc = report.rt.alloc();
    let Ok(mut map) = every_second(alloc, numbers.sorted, false) else {
        return false;
    };
    let Ok(mut pairs) = new_pairs(alloc, numbers.others, numbers.keys.len() / 200) else {
        return false;
    };
    if coming.in_order {
        pairs.sort_unstable();
    }
    if coming.at_once {
        extend(report, coming.call, &mut map, pairs)
    } else {
        insert_each(report, coming.call, &mut map, pairs)
    }
}

/// Times insertions of many pairs. Returns whether no call failed.
pub fn take(report: Report<'_>, numbers: Numbers<'_>) -> bool {
    for coming in COMINGS {
        if !grow(report, numbers, coming) {
            return false;
        }
    }
    weave(report, numbers.sorted)
}
