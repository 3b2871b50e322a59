//! Ids of a store that are reused.

use crate::callers::stores::{holds_two_inner_nodes, holds_two_leaves};
use bptree_keys::node_id::LeafNodeId;
use bptree_stores::node_store_vec::NodeStoreVec;
use bptree_stores::node_stores::{CloneStore, NodeStore};
use std::alloc::Global;

// Whether the next two ids for leaves are these.
fn gives_leaves<S: NodeStore>(store: &mut S, first: LeafNodeId, second: LeafNodeId) -> bool {
    holds_two_leaves(store) == Some((first, second))
}

// Of two reserved leaf ids the first is released and is given out again. Then both are released,
// the second one last. They come back in reverse order, and before any other id, in a clone too.
fn leaf_numbers_come_back<S: CloneStore>(store: &mut S) -> bool
where
    S::V: Clone,
{
    let Some((first, second)) = holds_two_leaves(store) else {
        return false;
    };
    store.release_leaf(first);
    let Ok(again) = store.reserve_leaf() else {
        return false;
    };
    store.release_leaf(again);
    store.release_leaf(second);
    let Ok(mut copy) = store.clone() else {
        return false;
    };
    again == first && gives_leaves(store, second, first) && gives_leaves(&mut copy, second, first)
}

fn inner_numbers_come_back<S: NodeStore>(store: &mut S) -> bool {
    let Some((first, second)) = holds_two_inner_nodes(store) else {
        return false;
    };
    store.release_inner(first);
    let Ok(again) = store.reserve_inner() else {
        return false;
    };
    store.release_inner(again);
    store.release_inner(second);
    again == first && holds_two_inner_nodes(store) == Some((second, first))
}

fn numbers_come_back<S: CloneStore>(mut store: S) -> bool
where
    S::V: Clone,
{
    leaf_numbers_come_back(&mut store) && inner_numbers_come_back(&mut store)
}

fn numbers_of_a_vector_come_back(alloc: Global) -> bool {
    numbers_come_back(NodeStoreVec::<u64, u64>::new(alloc))
}

#[test]
fn released_numbers_come_back_the_last_first(rt: HostRuntime) {
    assert!(rt; numbers_of_a_vector_come_back(rt.alloc()));
}
