//! Keys and values that allocate, so that a leak or a second drop is seen from outside.

use crate::calls::{report_if_ok, report_inserted};
use crate::levels;
use crate::printed::{report_orders, report_text};
use crate::record::Record;
use crate::samples::Sample;
use crate::subject::{Subject, no_call};
use crate::walk::keys_of;
use crate::words::{Report, Words};
use bptree_load_plan::loading::in_load_order;
use bptree_map::map::BPlusTreeMap;
use bptree_set::set::BPlusTreeSet;
use bptree_stores::node_store_vec::NodeStoreVec;
use bptree_stores::node_stores::NodeStore;
use bptree_tree::BPlusTree;
use std::alloc::{AllocError, Global};

/// Nothing. Each call makes and drops its own subject.
#[derive(Drop)]
pub struct Owned;

// Returns pairs with the keys of the turns, divided by three or modulo 100.
fn pairs_of(
    alloc: Global,
    many: u64,
    is_ordered: bool,
) -> Result<Vec<(String, String)>, AllocError> {
    let mut pairs = Vec::new(alloc);
    for turn in 0..many {
        let number = if is_ordered { turn / 3 } else { turn % 100 };
        let key = String::sample(alloc, number)?;
        pairs.push((key, String::sample(alloc, turn)?))?;
    }
    Ok(pairs)
}

// Loads a tree and returns its number of pairs. Pairs that are not in order are not loaded.
fn load<S: NodeStore>(pairs: Vec<(S::K, S::V)>) -> Result<usize, AllocError> {
    if !in_load_order(&pairs) {
        return Ok(0);
    }
    let tree: BPlusTree<S> = BPlusTree::bulk_load(pairs)?;
    Ok(tree.len())
}

fn load_tree(alloc: Global, many: u64) -> Result<usize, AllocError> {
    load::<NodeStoreVec<String, String>>(pairs_of(alloc, many, true)?)
}

fn gather_map(alloc: Global, many: u64) -> Result<usize, AllocError> {
    let pairs = pairs_of(alloc, many, false)?;
    let map: BPlusTreeMap<String, String> = BPlusTreeMap::from_iter(alloc, pairs)?;
    Ok(map.len())
}

fn gather_set(alloc: Global, many: u64) -> Result<BPlusTreeSet<String>, AllocError> {
    BPlusTreeSet::from_iter(alloc, keys_of(alloc, 0, many, 1)?)
}

// Reports the number of keys, and inserts the first key again.
fn insert_again(alloc: Global, set: &mut BPlusTreeSet<String>, words: &mut Words) -> bool {
    set.len().report(words);
    match String::sample(alloc, 0) {
        Ok(key) => report_inserted(set.insert(key), words),
        Err(_) => false,
    }
}

impl Subject for Owned {
    fn begin(_alloc: Global) -> Result<Owned, AllocError> {
        Ok(Owned)
    }

    fn call(&mut self, alloc: Global, record: &Record, words: &mut Words) -> bool {
        match (record.family(), record.member()) {
            (1, 0) => report_orders(alloc, words),
            (3, 2) => report_if_ok(load_tree(alloc, record.a), words),
            (3, 5) => report_if_ok(gather_map(alloc, record.a), words),
            (3, 6) => match gather_set(alloc, record.a) {
                Ok(mut set) => insert_again(alloc, &mut set, words),
                Err(_) => false,
            },
            (4, 0) => levels::query_map(alloc, record, words),
            (6, 0) => report_text(alloc, record, words),
            _ => no_call(words),
        }
    }
}
