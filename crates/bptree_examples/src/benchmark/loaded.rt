//! A tree that is bulk loaded: it is walked, cloned and drained.

use crate::benchmark::numbers::Numbers;
use crate::benchmark::ordered::step_through;
use crate::benchmark::timing::Report;
use std::alloc::{AllocError, Global};
use sweep_bptree::argument::CloneArgument;
use sweep_bptree::tree::in_load_order;
use sweep_bptree::{BPlusTree, CloneStore, Cursor, NodeStore};

/// Returns pairs of keys, each with itself as its value.
pub fn pairs_of(alloc: Global, keys: &[u64]) -> Result<Vec<(u64, u64)>, AllocError> {
    let mut pairs = Vec::with_capacity(alloc, keys.len())?;
    for key in keys {
        pairs.push((*key, *key))?;
    }
    Ok(pairs)
}

// Loads a tree.
fn load_all<S: NodeStore<K = u64, V = u64>>(
    report: Report<'_>,
    sorted: &[u64],
) -> Result<BPlusTree<S>, AllocError> {
    let pairs = pairs_of(report.rt.alloc(), sorted)?;
    if !in_load_order(&pairs) {
        return Err(AllocError);
    }
    let clock = report.start("load");
    let tree: BPlusTree<S> = BPlusTree::bulk_load(pairs)?;
    clock.stop(sorted.len(), tree.len() as u64);
    Ok(tree)
}

// Moves a cursor from the first key to the last. Returns whether no call failed.
#[inline(never)]
fn walk_through<S: NodeStore<K = u64, V = u64>>(report: Report<'_>, tree: &BPlusTree<S>) -> bool {
    let clock = report.start("cursor");
    let mut sum = 0u64;
    let Ok(mut at) = tree.cursor_first() else {
        return false;
    };
    for _ in 0..tree.len() {
        let Some(cursor) = at else {
            break;
        };
        sum = sum.wrapping_add(*cursor.key());
        let Ok(next) = cursor.next(tree) else {
            return false;
        };
        at = next;
    }
    clock.stop(tree.len(), sum);
    true
}

// Clones a tree. Returns whether no call failed.
fn clone_all<S: CloneStore<K = u64, V = u64>>(report: Report<'_>, tree: &BPlusTree<S>) -> bool
where
    S::Argument: CloneArgument<u64>,
{
    let clock = report.start("clone");
    let Ok(other) = tree.clone() else {
        return false;
    };
    clock.stop(tree.len(), other.len() as u64);
    true
}

// Takes all pairs out of a tree.
#[inline(never)]
fn drain<S: NodeStore<K = u64, V = u64>>(report: Report<'_>, tree: BPlusTree<S>) {
    let many = tree.len();
    let clock = report.start("drain");
    let mut sum = 0u64;
    for (key, _) in tree.into_iter() {
        sum = sum.wrapping_add(key);
    }
    clock.stop(many, sum);
}

// Walks and clones a tree. Returns whether no call failed.
fn read_loaded<S: CloneStore<K = u64, V = u64>>(report: Report<'_>, tree: &BPlusTree<S>) -> bool
where
    S::Argument: CloneArgument<u64>,
{
    let walked = walk_through(report, tree);
    step_through(report, "full", tree);
    walked && clone_all(report, tree)
}

/// Loads a tree, reads it and drains it. Returns whether no call failed.
pub fn take<S: CloneStore<K = u64, V = u64>>(report: Report<'_>, numbers: Numbers<'_>) -> bool
where
    S::Argument: CloneArgument<u64>,
{
    match load_all::<S>(report, numbers.sorted) {
        Ok(tree) => {
            let good = read_loaded(report, &tree);
            drain(report, tree);
            good
        }
        Err(_) => false,
    }
}
