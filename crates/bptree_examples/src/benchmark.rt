//! Times of the calls of a tree. A line for each call and round has the number of pairs, the tree's
//! kind, the call, the time of one call in hundredths of a nanosecond, and a sum of the results.
//! Steps of a nanosecond or two are timed in functions that are not inlined, so that the times
//! depend less on the addresses of their loops.

mod batches;
mod counted;
mod groups;
mod loaded;
mod maps;
mod moves;
mod numbers;
mod ordered;
mod strings;
mod timing;
mod union;

use groups::Pair;
use numbers::{Numbers, next_number, numbers_below, odd_numbers, shuffle, shuffled};
use ordered::Mapped;
use std::collections::BTreeMap;
use sweep_bptree::argument::CloneArgument;
use sweep_bptree::{
    BPlusTree, CloneStore, Count, GroupCount, Headed, NodeStoreVec, RankArgument, SearchArgument,
    Tuple2,
};
use timing::Report;

type PlainStore = NodeStoreVec<u64, u64>;

// Times all calls on trees without summaries.
fn take_plain<S: CloneStore<K = u64, V = u64>>(report: Report<'_>, numbers: Numbers<'_>) -> bool
where
    S::Argument: CloneArgument<u64>,
{
    ordered::take::<BPlusTree<S>>(report, numbers) && loaded::take::<S>(report, numbers)
}

// Times all calls on trees with counts.
fn take_counted<S: CloneStore<K = u64, V = u64>>(report: Report<'_>, numbers: Numbers<'_>) -> bool
where
    S::Argument: SearchArgument<u64, Query = usize> + RankArgument<u64, Rank = usize>,
    S::Argument: CloneArgument<u64> + counted::Numbered,
{
    counted::take::<S>(report, numbers)
        && ordered::fill_upward::<BPlusTree<S>>(report, numbers)
        && loaded::take::<S>(report, numbers)
}

type Headeds = NodeStoreVec<Headed<String>, u64>;

// Times strings with and without heads.
fn take_strings(plain: Report<'_>, kit: Report<'_>, numbers: Numbers<'_>) -> bool {
    let head = Report {
        rt: plain.rt,
        kind: "head",
    };
    strings::take_tree::<NodeStoreVec<String, u64>>(plain, numbers)
        && strings::take_tree::<Headeds>(head, numbers)
        && strings::take::<String, BTreeMap<String, u64>>(kit, numbers)
}

// Times all calls on each of the trees, on maps and on sets.
fn round(rt: &HostRuntime, numbers: Numbers<'_>) -> bool {
    let groups = Report { rt, kind: "groups" };
    let plain = Report { rt, kind: "plain" };
    let count = Report { rt, kind: "count" };
    let kit = Report { rt, kind: "kit" };
    groups::take::<NodeStoreVec<Pair, u64, GroupCount<Tuple2<u64>>>>(groups, numbers)
        && take_plain::<PlainStore>(plain, numbers)
        && take_counted::<NodeStoreVec<u64, u64, Count>>(count, numbers)
        && ordered::take::<BTreeMap<u64, u64>>(kit, numbers)
        && take_strings(plain, kit, numbers)
        && maps::take(plain, numbers)
        && moves::take(plain, numbers)
        && batches::take(count, numbers)
        && union::take(plain, numbers)
}

fn all_rounds(rt: &HostRuntime, numbers: Numbers<'_>, rounds: usize) -> bool {
    for _ in 0..rounds {
        if !round(rt, numbers) {
            return false;
        }
    }
    true
}

// Times rounds over keys in two orders, and over the indices below their number in random order.
fn rounds_over(
    rt: &HostRuntime,
    keys: &[u64],
    sorted: &[u64],
    indexes: &[u64],
    rounds: usize,
) -> bool {
    let Ok(others) = shuffled(rt.alloc(), keys) else {
        return false;
    };
    let Ok(again) = shuffled(rt.alloc(), indexes) else {
        return false;
    };
    let numbers = Numbers {
        keys,
        others: &others,
        sorted,
        indexes,
        again: &again,
    };
    all_rounds(rt, numbers, rounds)
}

fn rounds_of(rt: &HostRuntime, keys: &[u64], rounds: usize) -> bool {
    let Ok(mut sorted) = keys.to_vec(rt.alloc()) else {
        return false;
    };
    sorted.sort_unstable();
    let Ok(mut indexes) = numbers_below(rt.alloc(), keys.len()) else {
        return false;
    };
    shuffle(&mut indexes);
    rounds_over(rt, keys, &sorted, &indexes, rounds)
}

fn rounds(rt: &HostRuntime, pairs: usize, rounds: usize) -> bool {
    match odd_numbers(rt.alloc(), pairs) {
        Ok(keys) => rounds_of(rt, &keys, rounds),
        Err(_) => false,
    }
}

fn put_numbers<T: Mapped<u64>>(tree: &mut T, many: usize) -> bool {
    let mut state = 0x9e37_79b9_7f4a_7c15;
    for _ in 0..many {
        state = next_number(state);
        if tree.put(state | 1, state | 1).is_none() {
            return false;
        }
    }
    true
}

// Fills a tree with this number of pairs in random order, and does nothing else.
fn fill<T: Mapped<u64>>(rt: &HostRuntime, many: usize) -> bool {
    let Ok(mut tree) = T::made(rt.alloc()) else {
        return false;
    };
    if !put_numbers(&mut tree, many) {
        return false;
    }
    let _ = println!(rt; "{many} plain fill 0 {}", tree.number_of_pairs());
    true
}

/// Times the number of pairs and the number of rounds that a line has. If the line has a single
/// number, this fills a tree without summaries with as many pairs. Returns whether no call failed.
pub fn run(rt: &HostRuntime, line: &str) -> bool {
    let Some((pairs, times)) = line.split_once(' ') else {
        return match line.parse::<usize>() {
            Ok(pairs) => fill::<BPlusTree<PlainStore>>(rt, pairs),
            Err(_) => false,
        };
    };
    let (Ok(pairs), Ok(times)) = (pairs.parse::<usize>(), times.parse::<usize>()) else {
        return false;
    };
    rounds(rt, pairs, times)
}
