//! Iterators over the keys or the values of maps, and over the keys of sets.

use crate::record::Record;
use crate::walk::{Steps, drain, report_step, walk};
use crate::words::{Report, Words};
use bptree_arguments::argument::Argument;
use bptree_keys::key::Key;
use bptree_map::map::{BorrowedSide, IntoSideIter, Side, SideIter};

impl<'a, K: Key, V: Drop, A: Argument<K>, Z: BorrowedSide<K, V>> Steps for SideIter<'a, K, V, A, Z>
where
    Z::Part: Report,
{
    fn step(&mut self, is_back: bool, is_reported: bool, words: &mut Words) -> bool {
        if is_back {
            report_step(self.next_back(), is_reported, words)
        } else {
            report_step(self.next(), is_reported, words)
        }
    }

    fn left(&self) -> (usize, (usize, Option<usize>)) {
        (self.len(), self.size_hint())
    }
}

/// Walks over borrowed keys or values. One function serves maps and sets, since each function that
/// uses the contract of such an iterator is expensive to prove.
pub fn walk_side<K: Key, V: Drop, A: Argument<K>, Z: BorrowedSide<K, V>>(
    items: SideIter<'_, K, V, A, Z>,
    record: &Record,
    words: &mut Words,
) -> bool
where
    Z::Part: Report,
{
    walk(items, record, words)
}

/// Takes owned keys or values from both ends and then the others, and reports them.
pub fn drain_side<K: Key, V: Drop, A: Argument<K>, Z: Side<K, V>>(
    items: IntoSideIter<K, V, A, Z>,
    record: &Record,
    words: &mut Words,
) -> bool
where
    Z::Part: Report + Drop,
{
    drain(items, record, words)
}
