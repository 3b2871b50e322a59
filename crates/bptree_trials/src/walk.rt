//! Generated pairs and keys, optional bounds, and steps of iterators from both ends.

use crate::record::Record;
use crate::samples::Sample;
use crate::words::{Report, Words};
use std::alloc::{AllocError, Global};

// Returns the number of the key in a turn, and its value.
fn pair_in(turn: u64, order: u64) -> (u64, u64) {
    match order {
        0 => (turn, turn),
        1 => (turn.wrapping_mul(37) % 100, turn),
        2 => (turn.wrapping_mul(2), turn.wrapping_mul(2)),
        3 => (turn.wrapping_mul(4), turn),
        _ => (((turn / 500) << 32) | (turn % 500), turn % 500),
    }
}

/// Returns the pairs of the turns from `first` up to `end`.
pub fn pairs_of<K: Sample>(
    alloc: Global,
    first: u64,
    end: u64,
    order: u64,
) -> Result<Vec<(K, u64)>, AllocError> {
    let mut pairs = Vec::new(alloc);
    for turn in first..end {
        let (number, value) = pair_in(turn, order);
        pairs.push((K::sample(alloc, number)?, value))?;
    }
    Ok(pairs)
}

/// Returns the keys of the turns from `first` up to `end`.
pub fn keys_of<K: Sample>(
    alloc: Global,
    first: u64,
    end: u64,
    order: u64,
) -> Result<Vec<K>, AllocError> {
    let mut keys = Vec::new(alloc);
    for turn in first..end {
        let (number, _) = pair_in(turn, order);
        keys.push(K::sample(alloc, number)?)?;
    }
    Ok(keys)
}

/// Returns the key of a number if there is a bound, and `None` otherwise.
pub fn bound<K: Sample>(alloc: Global, has: bool, number: u64) -> Result<Option<K>, AllocError> {
    if has {
        Ok(Some(K::sample(alloc, number)?))
    } else {
        Ok(None)
    }
}

/// Returns the lower and the upper key of a record, each if the record has it.
pub fn bounds<K: Sample>(
    alloc: Global,
    record: &Record,
) -> Result<(Option<K>, Option<K>), AllocError> {
    let lo = bound(alloc, record.d & 1 == 1, record.a)?;
    let hi = bound(alloc, record.d & 2 == 2, record.b)?;
    Ok((lo, hi))
}

// Takes items from both ends as the record says, and reports them and the number of items left.
fn report_steps<I: DoubleEndedIterator + ExactSizeIterator>(
    items: &mut I,
    record: &Record,
    words: &mut Words,
)
where
    I::Item: Report + Drop,
    requires { (x : I) → I.can_next x × I.can_next_back x }
{
    items.len().report(words);
    for step in 0..(record.d >> 8) & 255 {
        let item = if (record.c >> (step & 63)) & 1 == 1 {
            items.next_back()
        } else {
            items.next()
        };
        item.report(words);
    }
    let (lower, upper) = items.size_hint();
    items.len().report(words);
    lower.report(words);
    upper.report(words);
}

// Takes `many` items from each end in turn, and reports them and the number left before and after.
fn report_both_ends<I: DoubleEndedIterator + ExactSizeIterator>(
    items: &mut I,
    many: u64,
    words: &mut Words,
)
where
    I::Item: Report + Drop,
    requires { (x : I) → I.can_next x × I.can_next_back x }
{
    for _ in 0..many {
        items.len().report(words);
        items.next().report(words);
        items.next_back().report(words);
    }
    items.len().report(words);
}

/// Takes all items, and reports them.
pub fn report_all<I: DoubleEndedIterator + ExactSizeIterator>(items: &mut I, words: &mut Words)
where
    I::Item: Report + Drop,
    requires { (x : I) → I.can_next x × I.can_next_back x }
{
    for _ in 0..items.len() {
        if let Some(item) = items.next() {
            item.report(words);
        }
    }
}

/// An iterator over references that reports its items itself. The functions below are not generic
/// in `Iterator`: if the items are references, each call of such a function needs a proof about
/// their lifetimes.
pub trait Steps: Clone + Drop {
    /// Takes an item from an end. If `is_reported`, it reports a 1 and the item, or a 0 if there is
    /// no item. Returns whether there was an item.
    fn step(&mut self, is_back: bool, is_reported: bool, words: &mut Words) -> bool;

    /// Returns the number of items left, and the bounds of this number.
    fn left(&self) -> (usize, (usize, Option<usize>));
}

/// Reports an item, as a step does.
pub fn report_step<T: Report + Drop>(
    item: Option<T>,
    is_reported: bool,
    words: &mut Words,
) -> bool {
    let is_there = item.is_some();
    if is_reported {
        words.add(is_there as u64);
    }
    if let Some(item) = item {
        item.report(words);
    }
    is_there
}

// Takes items from both ends as the record says, and reports them and the number of items left.
fn take_steps<I: Steps>(items: &mut I, record: &Record, words: &mut Words) {
    items.left().0.report(words);
    for step in 0..(record.d >> 8) & 255 {
        items.step((record.c >> (step & 63)) & 1 == 1, true, words);
    }
    items.left().report(words);
}

// Takes all items from the front, and reports them.
fn take_rest<I: Steps>(items: &mut I, words: &mut Words) {
    for _ in 0..u64::MAX {
        if !items.step(false, false, words) {
            return;
        }
    }
}

/// Takes items from both ends and reports them. It then takes the rest of a clone from the front,
/// and reports that the clone has no item left at the back.
pub fn walk<I: Steps>(items: I, record: &Record, words: &mut Words) -> bool {
    let mut items = items;
    take_steps(&mut items, record, words);
    let Ok(mut rest) = items.clone() else {
        return false;
    };
    take_rest(&mut rest, words);
    rest.step(true, true, words);
    items.left().0.report(words);
    true
}

/// Takes items and reports them: as many from each end as the record says, in turn, or by the steps
/// of the record and then the others. It is one function, since a caller that passes an iterator to
/// two functions is proved twice as long.
pub fn take_items<I: DoubleEndedIterator + ExactSizeIterator>(
    items: &mut I,
    is_in_turn: bool,
    record: &Record,
    words: &mut Words,
)
where
    I::Item: Report + Drop,
    requires { (x : I) → I.can_next x × I.can_next_back x }
{
    if is_in_turn {
        report_both_ends(items, record.a, words);
    } else {
        report_steps(items, record, words);
        report_all(items, words);
    }
}

/// Takes items from both ends and then the others, and reports them.
pub fn drain<I: DoubleEndedIterator + ExactSizeIterator + Drop>(
    items: I,
    record: &Record,
    words: &mut Words,
) -> bool
where
    I::Item: Report + Drop,
    requires { (x : I) → I.can_next x × I.can_next_back x }
{
    let mut items = items;
    take_items(&mut items, false, record, words);
    true
}
