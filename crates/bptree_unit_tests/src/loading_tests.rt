//! Lists of pairs and numbers, and the items of them that loading keeps.

use crate::callers::dedup::collects_the_last_numbers;
use bptree_load_plan::loading::{in_load_order, keep_last_of_each_run};
use std::alloc::Global;

const NONE: [(u64, u64); 0] = [];

// The last pair of each run, and whether the pairs are in load order before and after.
fn keeps_the_last(alloc: Global) -> bool {
    let twice = [
        (0u64, 0u64),
        (0, 1),
        (1, 10),
        (1, 11),
        (2, 20),
        (2, 21),
        (3, 30),
        (3, 31),
    ];
    let last = [(0, 1), (1, 11), (2, 21), (3, 31)];
    let Ok(mut pairs) = twice.to_vec(alloc) else {
        return false;
    };
    if !in_load_order(&pairs) {
        return false;
    }
    keep_last_of_each_run(&mut pairs);
    pairs.as_slice() == last.as_slice() && in_load_order(&last)
}

fn reports_load_order() -> bool {
    in_load_order(&NONE)
        && in_load_order(&[(7u64, 1u64)])
        && in_load_order(&[(7u64, 1u64), (7, 0)])
        && !in_load_order(&[(2u64, 1u64), (1, 5)])
}

// The last number of each run.
fn keeps_the_last_numbers(alloc: Global) -> bool {
    let Ok(numbers) = [1, 1, 2, 3, 3].to_vec(alloc) else {
        return false;
    };
    let Ok(last) = collects_the_last_numbers(alloc, numbers) else {
        return false;
    };
    last.as_slice() == [1, 2, 3].as_slice()
}

#[test]
fn keeps_the_last_of_each_run(rt: HostRuntime) {
    assert!(rt; reports_load_order() && keeps_the_last(rt.alloc()));
    assert!(rt; keeps_the_last_numbers(rt.alloc()));
}
