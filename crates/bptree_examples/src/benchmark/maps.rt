//! Calls of a map: membership, its ends, and moves and removals of many pairs at once.

use crate::benchmark::loaded::pairs_of;
use crate::benchmark::numbers::Numbers;
use crate::benchmark::timing::{Changes, Reads, Report, change_each, read_each};
use std::alloc::AllocError;
use sweep_bptree::BPlusTreeMap;

type Plain = BPlusTreeMap<u64, u64>;

/// Tests whether a key is present.
struct Contains;

/// Removes the pair with the least key.
struct PopFirst;

/// Removes the pair with the greatest key.
struct PopLast;

impl Reads<Plain, u64> for Contains {
    #[inline(always)]
    fn call(&self, map: &Plain, key: &u64) -> Option<u64> {
        Some(map.contains_key(key) as u64)
    }
}

impl Changes<Plain, u64> for PopFirst {
    #[inline(always)]
    fn call(&self, map: &mut Plain, _key: &u64) -> Option<u64> {
        match map.pop_first() {
            Ok(Some((key, _))) => Some(key),
            Ok(None) => Some(0),
            Err(_) => None,
        }
    }
}

impl Changes<Plain, u64> for PopLast {
    #[inline(always)]
    fn call(&self, map: &mut Plain, _key: &u64) -> Option<u64> {
        match map.pop_last() {
            Ok(Some((key, _))) => Some(key),
            Ok(None) => Some(0),
            Err(_) => None,
        }
    }
}

fn made(report: Report<'_>, keys: &[u64]) -> Result<Plain, AllocError> {
    let alloc = report.rt.alloc();
    BPlusTreeMap::from_iter(alloc, pairs_of(alloc, keys)?)
}

#[inline(never)]
fn step_over_keys(report: Report<'_>, map: &Plain) {
    let clock = report.start("keys");
    let mut sum = 0u64;
    for key in map.keys() {
        sum = sum.wrapping_add(*key);
    }
    clock.stop(map.len(), sum);
}

#[inline(never)]
fn step_over_values(report: Report<'_>, map: &Plain) {
    let clock = report.start("values");
    let mut sum = 0u64;
    for value in map.values() {
        sum = sum.wrapping_add(*value);
    }
    clock.stop(map.len(), sum);
}

// Splits off the upper half of the pairs, and prints the time for each pair that moves.
fn split_off(report: Report<'_>, map: &mut Plain, middle: u64) -> Option<Plain> {
    let clock = report.start("splitoff");
    let Ok(half) = map.split_off(&middle) else {
        return None;
    };
    clock.stop(half.len(), map.len() as u64);
    Some(half)
}

// Appends the half again, and prints the time for each pair that moves.
fn append(report: Report<'_>, map: &mut Plain, half: &mut Plain) -> bool {
    let moved = half.len();
    let clock = report.start("append");
    if map.append(half).is_err() {
        return false;
    }
    clock.stop(moved, map.len() as u64);
    true
}

// Removes every second pair, and prints the time for each pair.
fn retain(report: Report<'_>, map: &mut Plain) -> bool {
    let many = map.len();
    let clock = report.start("retain");
    if map.retain(|key: &u64, _: &mut u64| *key % 4 == 1).is_err() {
        return false;
    }
    clock.stop(many, map.len() as u64);
    true
}

// Removes the pairs between two keys, and prints the time for each pair removed.
fn remove_range(report: Report<'_>, map: &mut Plain, lo: u64, hi: u64) -> bool {
    let clock = report.start("removerange");
    let Ok(gone) = map.remove_range(Some(&lo), Some(&hi)) else {
        return false;
    };
    clock.stop(gone, map.len() as u64);
    true
}

fn key_at(sorted: &[u64], index: usize) -> u64 {
    match sorted.get(index) {
        Some(key) => *key,
        None => 0,
    }
}

// Splits off the upper half of a map's pairs and appends it again. It then removes every second
// pair, and of the others the half in the middle.
fn move_pairs(report: Report<'_>, map: &mut Plain, sorted: &[u64]) -> bool {
    let many = sorted.len();
    let Some(mut half) = split_off(report, map, key_at(sorted, many / 2)) else {
        return false;
    };
    let lo = key_at(sorted, many / 4);
    let hi = key_at(sorted, many - many / 4);
    append(report, map, &mut half) && retain(report, map) && remove_range(report, map, lo, hi)
}

fn move_and_leave(report: Report<'_>, numbers: Numbers<'_>) -> bool {
    match made(report, numbers.keys) {
        Ok(mut map) => move_pairs(report, &mut map, numbers.sorted),
        Err(_) => false,
    }
}

// Reads a map and empties it from the front.
fn read_and_pop(report: Report<'_>, map: &mut Plain, numbers: Numbers<'_>) -> bool {
    read_each(report, "contains", &Contains, map, numbers.others);
    step_over_keys(report, map);
    step_over_values(report, map);
    change_each(report, "popfirst", &PopFirst, map, numbers.keys)
}

// Makes two maps of the keys, reads one and empties both.
fn read_and_empty(report: Report<'_>, numbers: Numbers<'_>) -> bool {
    let Ok(mut map) = made(report, numbers.keys) else {
        return false;
    };
    let Ok(mut other) = made(report, numbers.keys) else {
        return false;
    };
    read_and_pop(report, &mut map, numbers)
        && change_each(report, "poplast", &PopLast, &mut other, numbers.keys)
}

/// Times the calls of maps that have the keys. Returns whether no call failed.
pub fn take(report: Report<'_>, numbers: Numbers<'_>) -> bool {
    move_and_leave(report, numbers) && read_and_empty(report, numbers)
}
