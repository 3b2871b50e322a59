//! Indices and ranks, and parts of a tree with counts.

use crate::benchmark::numbers::Numbers;
use crate::benchmark::ordered::{Mapped, add_keys, empty, fill_and_read};
use crate::benchmark::timing::{Reads, Report, read_each};
use sweep_bptree::{BPlusTree, Count, NodeStore, RankArgument, SearchArgument};

/// A summary that is a number.
pub trait Numbered {
    fn number(&self) -> u64;
}

impl Numbered for Count {
    fn number(&self) -> u64 {
        self.count() as u64
    }
}

/// Looks up the pair at an index. The index is the key modulo `many`.
#[derive(Clone, Copy)]
struct At {
    many: u64,
}

/// Reads the rank of a key.
struct Rank;

/// Reads ten pairs from an index on, by the keys at the two ends of the range.
#[derive(Clone, Copy)]
struct Range<'a> {
    sorted: &'a [u64],
}

/// Reads twenty pairs from an index on.
struct Page;

/// Reads the summary of half of the keys, from an index in the first half on.
#[derive(Clone, Copy)]
struct Sum<'a> {
    sorted: &'a [u64],
}

impl<S: NodeStore<K = u64, V = u64>> Reads<BPlusTree<S>, u64> for At
where
    S::Argument: SearchArgument<u64, Query = usize>,
{
    #[inline(always)]
    fn call(&self, tree: &BPlusTree<S>, key: &u64) -> Option<u64> {
        if self.many == 0 {
            return None;
        }
        match tree.get_by_argument((*key % self.many) as usize) {
            Ok(Some((found, _))) => Some(*found),
            Ok(None) => Some(0),
            Err(_) => None,
        }
    }
}

impl<S: NodeStore<K = u64, V = u64>> Reads<BPlusTree<S>, u64> for Rank
where
    S::Argument: RankArgument<u64, Rank = usize>,
{
    #[inline(always)]
    fn call(&self, tree: &BPlusTree<S>, key: &u64) -> Option<u64> {
        match tree.rank_by_argument(key) {
            Ok(Ok(rank)) => Some(rank as u64),
            Ok(Err(_)) => Some(0),
            Err(_) => None,
        }
    }
}

impl<S: NodeStore<K = u64, V = u64>> Reads<BPlusTree<S>, u64> for Range<'_> {
    #[inline(always)]
    fn call(&self, tree: &BPlusTree<S>, index: &u64) -> Option<u64> {
        let index = *index as usize;
        let lo = self.sorted.get(index);
        let hi = self.sorted.get(index.saturating_add(10));
        if lo.is_some() && hi.is_some() {
            Some(add_keys(0, tree.range(lo, hi)))
        } else {
            Some(0)
        }
    }
}

impl<S: NodeStore<K = u64, V = u64>> Reads<BPlusTree<S>, u64> for Page
where
    S::Argument: SearchArgument<u64, Query = usize>,
{
    #[inline(always)]
    fn call(&self, tree: &BPlusTree<S>, index: &u64) -> Option<u64> {
        match tree.range_by_argument(*index as usize, 20) {
            Ok(page) => Some(add_keys(0, page)),
            Err(_) => None,
        }
    }
}

impl<S: NodeStore<K = u64, V = u64>> Reads<BPlusTree<S>, u64> for Sum<'_>
where
    S::Argument: Numbered,
{
    #[inline(always)]
    fn call(&self, tree: &BPlusTree<S>, index: &u64) -> Option<u64> {
        let from = *index as usize / 2;
        let lo = self.sorted.get(from);
        let hi = self.sorted.get(from.saturating_add(self.sorted.len() / 2));
        match tree.range_argument(lo, hi) {
            Ok(summary) => Some(summary.number()),
            Err(_) => None,
        }
    }
}

// Reads indices, ranks and parts of a tree. Returns whether no call failed.
fn read_parts<S: NodeStore<K = u64, V = u64>>(
    report: Report<'_>,
    tree: &BPlusTree<S>,
    numbers: Numbers<'_>,
) -> bool
where
    S::Argument: SearchArgument<u64, Query = usize> + RankArgument<u64, Rank = usize> + Numbered,
{
    let many = numbers.others.len() as u64 + 1;
    let sorted = numbers.sorted;
    read_each(report, "at", &At { many }, tree, numbers.others)
        && read_each(report, "rank", &Rank, tree, numbers.others)
        && read_each(report, "range", &Range { sorted }, tree, numbers.indexes)
        && read_each(report, "page", &Page, tree, numbers.indexes)
        && read_each(report, "sum", &Sum { sorted }, tree, numbers.indexes)
}

/// Fills a tree with counts, reads it and empties it. Returns whether no call failed.
pub fn take<S: NodeStore<K = u64, V = u64>>(report: Report<'_>, numbers: Numbers<'_>) -> bool
where
    S::Argument: SearchArgument<u64, Query = usize> + RankArgument<u64, Rank = usize> + Numbered,
{
    match BPlusTree::<S>::made(report.rt.alloc()) {
        Ok(mut tree) => {
            fill_and_read(report, &mut tree, numbers)
                && read_parts(report, &tree, numbers)
                && empty(report, &mut tree, numbers)
        }
        Err(_) => false,
    }
}
