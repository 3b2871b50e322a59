//! The calls that a tree and the toolchain's own `BTreeMap` have in common.

use crate::benchmark::numbers::Numbers;
use crate::benchmark::timing::{Changes, Reads, Report, change_each, read_each};
use std::alloc::{AllocError, Global};
use std::collections::BTreeMap;
use sweep_bptree::tree::Iter;
use sweep_bptree::{BPlusTree, Key, NodeStore};

/// A map from keys to numbers.
pub trait Mapped<K>: Drop + Sized {
    /// Makes a map without pairs.
    fn made(alloc: Global) -> Result<Self, AllocError>;

    /// Returns the value at a key, or 0.
    fn read(&self, key: &K) -> u64;

    /// Inserts a pair. Returns 1 if the key was present and 0 if not, or `None` if the call failed.
    fn put(&mut self, key: K, value: u64) -> Option<u64>;

    fn number_of_pairs(&self) -> usize;
}

/// A map whose keys are numbers in an order.
pub trait Ordered: Mapped<u64> {
    /// Returns the first key that is not below `key`, or 0.
    fn first_from(&self, key: u64) -> u64;

    /// Removes a key. Returns its value, or 0 if the key was absent, or `None` if the call failed.
    fn take(&mut self, key: &u64) -> Option<u64>;

    fn sum_of_keys(&self) -> u64;
}

impl<S: NodeStore<V = u64>> Mapped<S::K> for BPlusTree<S> {
    fn made(alloc: Global) -> Result<BPlusTree<S>, AllocError> {
        BPlusTree::new(S::empty(alloc))
    }

    #[inline(always)]
    fn read(&self, key: &S::K) -> u64 {
        match self.get(key) {
            Some(value) => *value,
            None => 0,
        }
    }

    #[inline(always)]
    fn put(&mut self, key: S::K, value: u64) -> Option<u64> {
        match self.insert(key, value) {
            Ok(None) => Some(0),
            Ok(Some(_)) => Some(1),
            Err(_) => None,
        }
    }

    #[inline(always)]
    fn number_of_pairs(&self) -> usize {
        self.len()
    }
}

/// Adds the keys of pairs to a sum.
#[inline(always)]
pub fn add_keys<S: NodeStore<K = u64, V = u64>>(before: u64, pairs: Iter<'_, S>) -> u64 {
    let mut sum = before;
    let mut left = pairs;
    'keys: while let Some((key, _)) = left.next() {
        sum = sum.wrapping_add(*key);
    }
    sum
}

impl<S: NodeStore<K = u64, V = u64>> Ordered for BPlusTree<S> {
    #[inline(always)]
    fn first_from(&self, key: u64) -> u64 {
        match self.range(Some(&key), None).next() {
            Some((next, _)) => *next,
            None => 0,
        }
    }

    #[inline(always)]
    fn take(&mut self, key: &u64) -> Option<u64> {
        match self.remove(key) {
            Ok(Some(value)) => Some(value),
            Ok(None) => Some(0),
            Err(_) => None,
        }
    }

    #[inline(always)]
    fn sum_of_keys(&self) -> u64 {
        add_keys(0, self.iter())
    }
}

impl<K: Ord + Drop> Mapped<K> for BTreeMap<K, u64> {
    fn made(alloc: Global) -> Result<BTreeMap<K, u64>, AllocError> {
        Ok(BTreeMap::new(alloc))
    }

    #[inline(always)]
    fn read(&self, key: &K) -> u64 {
        match self.get(key) {
            Some(value) => *value,
            None => 0,
        }
    }

    #[inline(always)]
    fn put(&mut self, key: K, value: u64) -> Option<u64> {
        match self.insert(key, value) {
            Ok(None) => Some(0),
            Ok(Some(_)) => Some(1),
            Err(_) => None,
        }
    }

    #[inline(always)]
    fn number_of_pairs(&self) -> usize {
        self.len()
    }
}

impl Ordered for BTreeMap<u64, u64> {
    #[inline(always)]
    fn first_from(&self, key: u64) -> u64 {
        match self.range(key..).next() {
            Some((next, _)) => *next,
            None => 0,
        }
    }

    #[inline(always)]
    fn take(&mut self, key: &u64) -> Option<u64> {
        match self.remove(key) {
            Some(value) => Some(value),
            None => Some(0),
        }
    }

    #[inline(always)]
    fn sum_of_keys(&self) -> u64 {
        let mut sum = 0u64;
        for (key, _) in self.iter() {
            sum = sum.wrapping_add(*key);
        }
        sum
    }
}

/// Looks up a key that is present.
pub struct Get;

/// Looks up the even number below an odd key.
pub struct Absent;

/// Reads the first pair that is not below the even number below an odd key.
pub struct Lower;

/// Inserts a key with itself as its value.
pub struct Insert;

/// Removes a key.
pub struct Remove;

impl<K, T: Mapped<K>> Reads<T, K> for Get {
    #[inline(always)]
    fn call(&self, map: &T, key: &K) -> Option<u64> {
        Some(map.read(key))
    }
}

impl<T: Mapped<u64>> Reads<T, u64> for Absent {
    #[inline(always)]
    fn call(&self, map: &T, key: &u64) -> Option<u64> {
        Some(map.read(&(*key & (u64::MAX - 1))))
    }
}

impl<T: Ordered> Reads<T, u64> for Lower {
    #[inline(always)]
    fn call(&self, map: &T, key: &u64) -> Option<u64> {
        Some(map.first_from(*key & (u64::MAX - 1)))
    }
}

impl<T: Mapped<u64>> Changes<T, u64> for Insert {
    #[inline(always)]
    fn call(&self, map: &mut T, key: &u64) -> Option<u64> {
        map.put(*key, *key)
    }
}

impl<T: Ordered> Changes<T, u64> for Remove {
    #[inline(always)]
    fn call(&self, map: &mut T, key: &u64) -> Option<u64> {
        map.take(key)
    }
}

/// Steps over all pairs.
#[inline(never)]
pub fn step_through<T: Ordered>(report: Report<'_>, name: &str, map: &T) {
    let clock = report.start(name);
    let sum = map.sum_of_keys();
    clock.stop(map.number_of_pairs(), sum);
}

/// Fills a map with the keys and reads it. Returns whether no call failed.
pub fn fill_and_read<T: Ordered>(report: Report<'_>, map: &mut T, numbers: Numbers<'_>) -> bool {
    if !change_each(report, "insert", &Insert, map, numbers.keys) {
        return false;
    }
    read_each(report, "get", &Get, map, numbers.others);
    read_each(report, "absent", &Absent, map, numbers.others);
    read_each(report, "inorder", &Get, map, numbers.sorted);
    step_through(report, "step", map);
    read_each(report, "lower", &Lower, map, numbers.others)
}

/// Removes all keys. Returns whether no call failed.
pub fn empty<T: Ordered>(report: Report<'_>, map: &mut T, numbers: Numbers<'_>) -> bool {
    change_each(report, "remove", &Remove, map, numbers.others)
}

/// Fills another map in the order of the keys. Returns whether no call failed.
pub fn fill_upward<T: Ordered>(report: Report<'_>, numbers: Numbers<'_>) -> bool {
    match T::made(report.rt.alloc()) {
        Ok(mut map) => change_each(report, "upward", &Insert, &mut map, numbers.sorted),
        Err(_) => false,
    }
}

// Fills a map, reads it and empties it.
fn fill_read_and_empty<T: Ordered>(report: Report<'_>, numbers: Numbers<'_>) -> bool {
    match T::made(report.rt.alloc()) {
        Ok(mut map) => {
            fill_and_read(report, &mut map, numbers) && empty(report, &mut map, numbers)
        }
        Err(_) => false,
    }
}

/// Fills a map, reads it and empties it, and fills another map in the order of the keys. Returns
/// whether no call failed. It is one function for both, since each call that names a type of map is
/// expensive to prove.
pub fn take<T: Ordered>(report: Report<'_>, numbers: Numbers<'_>) -> bool {
    fill_read_and_empty::<T>(report, numbers) && fill_upward::<T>(report, numbers)
}
