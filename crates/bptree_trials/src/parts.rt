//! Calls on a store, and on nodes in no store.
ghost use Rattle.std.specs.Prelude.{◌≡◌, ◌≤◌, ◌<◌, ◌+◌, length, vec_len, IfOk};

use crate::calls::report_if_ok;
use crate::nodes;
use crate::record::Record;
use crate::samples::Sample;
use crate::subject::{Subject, no_call};
use crate::trees::replace;
use crate::words::{Report, Words};
use bptree_arguments::argument::Argument;
use bptree_keys::node_id::{LeafNodeId, NodeId};
use bptree_nodes::inner_node::InnerNode;
use bptree_nodes::leaf_node::LeafNode;
use bptree_stores::node_store_vec::NodeStoreVec;
use bptree_stores::node_stores::{CloneStore, NodeStore, add_inner, new_empty_leaf};
use std::alloc::{AllocError, Global};

/// The two constructors of a store.
pub trait Made: Drop + Sized {
    fn made(alloc: Global) -> Self;

    /// Makes a store with capacity for this number of nodes of each kind.
    fn with_room(alloc: Global, many: usize) -> Result<Self, AllocError>;
}

impl<K: Sample, A: Argument<K>> Made for NodeStoreVec<K, u64, A> {
    fn made(alloc: Global) -> Self {
        NodeStoreVec::new(alloc)
    }

    fn with_room(alloc: Global, many: usize) -> Result<Self, AllocError> {
        NodeStoreVec::with_capacity(alloc, many)
    }
}

/// A store.
#[derive(Drop)]
pub struct Parts<S: NodeStore> {
    store: S,
}

// Reserves a leaf id and reports whether no leaf has it. Then releases the id.
fn reserve_leaf<S: NodeStore>(store: &mut S, words: &mut Words) -> bool {
    let Ok(id) = store.reserve_leaf() else {
        return false;
    };
    store.try_get_leaf(id).is_none().report(words);
    store.release_leaf(id);
    true
}

// Reserves an inner node's id and reports whether no node has it. Then releases the id.
fn reserve_inner<S: NodeStore>(store: &mut S, words: &mut Words) -> bool {
    let Ok(id) = store.reserve_inner() else {
        return false;
    };
    store.try_get_inner(id).is_none().report(words);
    store.release_inner(id);
    true
}

// Reserves an id of each kind. Reports whether no node has either id.
fn reserve_both<S: NodeStore>(store: &mut S, words: &mut Words) -> bool {
    let Ok(leaf) = store.reserve_leaf() else {
        return false;
    };
    let Ok(inner) = store.reserve_inner() else {
        return false;
    };
    (store.try_get_leaf(leaf).is_none() && store.try_get_inner(inner).is_none()).report(words);
    true
}

fn add_leaf<S: NodeStore>(store: &mut S, words: &mut Words) -> bool {
    let Ok(id) = new_empty_leaf(store) else {
        return false;
    };
    store.try_get_leaf(id).is_some().report(words);
    true
}

// Adds an empty inner node. If this fails, it reports the length of the node that the error
// returned.
fn add_empty_inner<S: NodeStore>(alloc: Global, store: &mut S, words: &mut Words) -> bool {
    let Ok(node) = InnerNode::empty(alloc) else {
        return false;
    };
    match add_inner(store, node) {
        Ok(id) => store.try_get_inner(id).is_some().report(words),
        Err(node) => {
            node.len().report(words);
            return false;
        }
    }
    true
}

fn change<S: NodeStore + Made>(
    alloc: Global,
    store: &mut S,
    record: &Record,
    words: &mut Words,
) -> bool {
    match record.member() {
        0 => reserve_leaf(store, words),
        1 => reserve_inner(store, words),
        2 => add_leaf(store, words),
        3 => add_empty_inner(alloc, store, words),
        4 => replace(store, S::with_room(alloc, record.a as usize)),
        5 => reserve_both(store, words),
        6 => replace(store, Ok(S::made(alloc))),
        _ => no_call(words),
    }
}

impl<T: Report> Report for Box<T> {
    fn report(&self, words: &mut Words) {
        (**self).report(words);
    }
}

impl<K: Report + Drop, A: Report + Drop> Report for InnerNode<K, A> {
    fn report(&self, words: &mut Words) {
        nodes::report_inner(self, words);
    }
}

impl<K: Report + Ord + Drop, V: Report + Drop> Report for LeafNode<K, V> {
    fn report(&self, words: &mut Words) {
        nodes::report_leaf(self, words);
    }
}

// Returns a leaf with two keys and both links.
fn leaf_of<K: Sample>(alloc: Global) -> Result<Box<LeafNode<K, u64>>, AllocError>
    ensures { IfOk result (λ leaf. 0 < length leaf.value.pairs) }
{
    let (first, second) = (K::sample(alloc, 1)?, K::sample(alloc, 2)?);
    let mut leaf = LeafNode::new(alloc)?;
    leaf.insert_at(0, first, 10);
    leaf.insert_at(1, second, 20);
    leaf.set_prev(Some(LeafNodeId::from_usize(3)));
    leaf.set_next(Some(LeafNodeId::from_usize(4)));
    Ok(leaf)
}

// Reports a clone of a leaf, and clones of its first and its last key.
fn copy_leaf<K: Sample>(leaf: &LeafNode<K, u64>, words: &mut Words) -> bool
    requires { 0 < length leaf.now.pairs }
{
    report_if_ok(leaf.clone(), words) && report_if_ok(leaf.key_range(), words)
}

// Returns an inner node of the items that three vectors yield.
fn inner_of_given<K: Sample>(
    alloc: Global,
    keys: Vec<K>,
    children: Vec<NodeId>,
    arguments: Vec<u64>,
) -> Result<Box<InnerNode<K, u64>>, AllocError>
    requires keys { vec_len keys ≤ 64 }
    requires children { vec_len children ≡ vec_len keys + 1 }
    requires arguments { vec_len arguments ≡ vec_len keys + 1 }
{
    InnerNode::new_from_iter(alloc, keys, children, arguments)
}

// Returns an inner node with one key, of vectors or of the items that they yield.
fn inner_of<K: Sample>(
    alloc: Global,
    is_given: bool,
) -> Result<Box<InnerNode<K, u64>>, AllocError> {
    let child = NodeId::Leaf(LeafNodeId::from_usize(3));
    let mut keys = Vec::new(alloc);
    keys.push(K::sample(alloc, 1)?)?;
    let children = vec![in alloc; child, child]?;
    let arguments = vec![in alloc; 7u64, 8]?;
    if is_given {
        inner_of_given(alloc, keys, children, arguments)
    } else {
        InnerNode::new(alloc, keys, children, arguments)
    }
}

fn report_node<K: Sample>(alloc: Global, member: u64, words: &mut Words) -> bool {
    match member {
        0 => match leaf_of::<K>(alloc) {
            Ok(leaf) => copy_leaf(&leaf, words),
            Err(_) => false,
        },
        1 => match inner_of::<K>(alloc, false) {
            Ok(node) => report_if_ok(node.clone(), words)
                && report_if_ok(InnerNode::<K, u64>::empty(alloc), words),
            Err(_) => false,
        },
        2 => report_if_ok(inner_of::<K>(alloc, true), words),
        _ => no_call(words),
    }
}

fn report_store<S: CloneStore>(store: &S, member: u64, words: &mut Words) -> bool
where
    S::K: Report,
    S::V: Report + Clone,
    S::Argument: Report,
{
    match member {
        0 => nodes::report_store(store, words),
        2 => nodes::is_tidy(store).report(words),
        7 => return nodes::is_cloned(store, words),
        _ => return no_call(words),
    }
    true
}

impl<S: CloneStore + Made> Subject for Parts<S>
where
    S::K: Sample,
    S::V: Report + Clone,
    S::Argument: Report,
{
    fn begin(alloc: Global) -> Result<Self, AllocError> {
        Ok(Parts {
            store: S::made(alloc),
        })
    }

    fn call(&mut self, alloc: Global, record: &Record, words: &mut Words) -> bool {
        match (record.family(), record.member()) {
            (0, _) => change(alloc, &mut self.store, record, words),
            (1, 3) => {
                self.store.is_empty().report(words);
                true
            }
            (1, member) => report_node::<S::K>(alloc, member, words),
            (5, member) => report_store(&self.store, member, words),
            _ => no_call(words),
        }
    }
}
