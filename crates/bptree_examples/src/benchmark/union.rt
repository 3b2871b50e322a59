//! The union of two sets.

use crate::benchmark::numbers::Numbers;
use crate::benchmark::timing::Report;
use std::alloc::{AllocError, Global};
use sweep_bptree::BPlusTreeSet;

// Returns the set of every second key, from an index on, and of every fourth key.
fn every_second(
    alloc: Global,
    sorted: &[u64],
    first: usize,
) -> Result<BPlusTreeSet<u64>, AllocError> {
    let mut keys = Vec::with_capacity(alloc, sorted.len())?;
    for (index, key) in sorted.iter().enumerate() {
        if index % 2 == first || index % 4 == 0 {
            keys.push(*key)?;
        }
    }
    BPlusTreeSet::from_iter(alloc, keys)
}

// Returns the sum of the keys of the union of two sets, and their number.
#[inline(never)]
fn sum_of_union(first: &BPlusTreeSet<u64>, second: &BPlusTreeSet<u64>) -> (u64, usize) {
    let mut sum = 0u64;
    let mut many = 0usize;
    for key in first.union(second) {
        sum = sum.wrapping_add(*key);
        many = many.wrapping_add(1);
    }
    (sum, many)
}

fn print_union(report: Report<'_>, first: &BPlusTreeSet<u64>, second: &BPlusTreeSet<u64>) {
    let clock = report.start("union");
    let (sum, many) = sum_of_union(first, second);
    clock.stop(many, sum);
}

// Times the union of a set with every second key.
fn union_with(report: Report<'_>, sorted: &[u64], first: &BPlusTreeSet<u64>) -> bool {
    match every_second(report.rt.alloc(), sorted, 1) {
        Ok(second) => {
            print_union(report, first, &second);
            true
        }
        Err(_) => false,
    }
}

/// Times the union of two sets that have a quarter of all keys in common, for each key of the
/// union. Returns whether no call failed.
pub fn take(report: Report<'_>, numbers: Numbers<'_>) -> bool {
    match every_second(report.rt.alloc(), numbers.sorted, 0) {
        Ok(first) => union_with(report, numbers.sorted, &first),
        Err(_) => false,
    }
}
