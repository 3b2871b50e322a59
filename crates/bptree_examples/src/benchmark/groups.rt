//! Keys in groups of 500, in a tree that counts each group.

use crate::benchmark::numbers::Numbers;
use crate::benchmark::ordered::Mapped;
use crate::benchmark::timing::{Reads, Report, read_each};
use sweep_bptree::{BPlusTree, NodeStore, RankArgument, SearchArgument, Tuple2};

pub type Pair = (u64, u64);

const GROUP: u64 = 500;

/// Looks up the key of a number.
struct Get;

/// Looks up the pair at an index in a group.
struct At;

/// Reads the rank of a key in its group.
struct Rank;

/// Reads the first pair of a page of twenty, from an index in a group on.
struct Page;

impl<T: Mapped<Pair>> Reads<T, u64> for Get {
    #[inline(always)]
    fn call(&self, tree: &T, number: &u64) -> Option<u64> {
        Some(tree.read(&(*number / GROUP, *number % GROUP)))
    }
}

impl<S: NodeStore<K = Pair, V = u64>> Reads<BPlusTree<S>, u64> for At
where
    S::Argument: SearchArgument<Pair, Query = (Tuple2<u64>, usize)>,
{
    #[inline(always)]
    fn call(&self, tree: &BPlusTree<S>, number: &u64) -> Option<u64> {
        let index = (*number % GROUP) as usize;
        match tree.get_by_argument((Tuple2(*number / GROUP), index)) {
            Ok(Some((_, value))) => Some(*value),
            Ok(None) => Some(0),
            Err(_) => None,
        }
    }
}

impl<S: NodeStore<K = Pair, V = u64>> Reads<BPlusTree<S>, u64> for Rank
where
    S::Argument: RankArgument<Pair, Rank = Option<(Tuple2<u64>, usize)>>,
{
    #[inline(always)]
    fn call(&self, tree: &BPlusTree<S>, number: &u64) -> Option<u64> {
        match tree.rank_by_argument(&(*number / GROUP, *number % GROUP)) {
            Ok(Ok(Some((_, rank)))) => Some(rank as u64),
            Ok(_) => Some(0),
            Err(_) => None,
        }
    }
}

impl<S: NodeStore<K = Pair, V = u64>> Reads<BPlusTree<S>, u64> for Page {
    #[inline(always)]
    fn call(&self, tree: &BPlusTree<S>, number: &u64) -> Option<u64> {
        let group = Tuple2(*number / GROUP);
        let Ok(mut page) = tree.group_part(&group, (*number % GROUP) as usize, 20) else {
            return None;
        };
        match page.next() {
            Some((_, value)) => Some(*value),
            None => Some(0),
        }
    }
}

// Inserts the key of each number. Returns whether no call failed.
fn fill<T: Mapped<Pair>>(tree: &mut T, numbers: &[u64]) -> bool {
    for number in numbers {
        let key = (*number / GROUP, *number % GROUP);
        if tree.put(key, *number).is_none() {
            return false;
        }
    }
    true
}

fn read_groups<S: NodeStore<K = Pair, V = u64>>(
    report: Report<'_>,
    tree: &BPlusTree<S>,
    numbers: &[u64],
) -> bool
where
    S::Argument: SearchArgument<Pair, Query = (Tuple2<u64>, usize)>,
    S::Argument: RankArgument<Pair, Rank = Option<(Tuple2<u64>, usize)>>,
{
    read_each(report, "pairget", &Get, tree, numbers)
        && read_each(report, "at", &At, tree, numbers)
        && read_each(report, "rank", &Rank, tree, numbers)
        && read_each(report, "page", &Page, tree, numbers)
}

/// Fills a tree with groups, and reads it in another order. Returns whether no call failed.
pub fn take<S: NodeStore<K = Pair, V = u64>>(report: Report<'_>, numbers: Numbers<'_>) -> bool
where
    S::Argument: SearchArgument<Pair, Query = (Tuple2<u64>, usize)>,
    S::Argument: RankArgument<Pair, Rank = Option<(Tuple2<u64>, usize)>>,
{
    match BPlusTree::<S>::made(report.rt.alloc()) {
        Ok(mut tree) => {
            fill(&mut tree, numbers.indexes) && read_groups(report, &tree, numbers.again)
        }
        Err(_) => false,
    }
}
