//! The nodes of a tree, and the state of its store.

use crate::subject::no_call;
use crate::words::{Report, Words};
use bptree_keys::node_id::{InnerNodeId, LeafNodeId, NodeId};
use bptree_nodes::inner_node::InnerNode;
use bptree_nodes::leaf_node::LeafNode;
use bptree_stores::node_stores::{CloneStore, NodeStore};
use bptree_tree::{BPlusTree, Statistic};

/// The number of node ids of each kind that are read.
pub const NUMBERS: usize = 4_400;

fn report_number(id: NodeId, words: &mut Words) {
    match id {
        NodeId::Inner(id) => (1u64, id.as_usize()).report(words),
        NodeId::Leaf(id) => (2u64, id.as_usize()).report(words),
    }
}

impl Report for LeafNodeId {
    fn report(&self, words: &mut Words) {
        self.as_usize().report(words);
    }
}

/// Reports an inner node: its keys, its summaries and the ids of its children.
pub fn report_inner<K: Report + Drop, A: Report + Drop>(node: &InnerNode<K, A>, words: &mut Words) {
    node.len().report(words);
    for key in node.keys() {
        key.report(words);
    }
    for argument in node.arguments() {
        argument.report(words);
    }
    if node.len() == 0 {
        return;
    }
    for index in 0..node.len() {
        report_number(node.child_id(index), words);
    }
    report_number(node.child_id(node.len()), words);
}

/// Reports a leaf: its keys, its values and its links.
pub fn report_leaf<K: Report + Ord + Drop, V: Report + Drop>(
    leaf: &LeafNode<K, V>,
    words: &mut Words,
) {
    leaf.len().report(words);
    for key in leaf.keys() {
        key.report(words);
    }
    for value in leaf.values() {
        value.report(words);
    }
    leaf.prev().report(words);
    leaf.next().report(words);
}

/// Reports the nodes of a store with the first `NUMBERS` ids.
pub fn report_store<S: NodeStore>(store: &S, words: &mut Words)
where
    S::K: Report,
    S::V: Report,
    S::Argument: Report,
{
    for number in 0..NUMBERS {
        if let Some(node) = store.try_get_inner(InnerNodeId::from_usize(number)) {
            number.report(words);
            report_inner(node, words);
        }
        if let Some(leaf) = store.try_get_leaf(LeafNodeId::from_usize(number)) {
            number.report(words);
            report_leaf(leaf, words);
        }
    }
}

// Returns the digest of the nodes of a store.
fn digest_of<S: NodeStore>(store: &S) -> u64
where
    S::K: Report,
    S::V: Report,
    S::Argument: Report,
{
    let mut words = Words::new();
    report_store(store, &mut words);
    words.digest()
}

fn report_statistic(by: &Statistic, words: &mut Words) {
    words.add(by.rotate_right_inner);
    words.add(by.rotate_left_inner);
    words.add(by.merge_with_left_inner);
    words.add(by.merge_with_right_inner);
    words.add(by.rotate_right_leaf);
    words.add(by.rotate_left_leaf);
    words.add(by.merge_with_left_leaf);
    words.add(by.merge_with_right_leaf);
}

/// Reports a tree: its length, height, root, statistic and summary, and its nodes.
pub fn report_state<S: NodeStore>(tree: &BPlusTree<S>, words: &mut Words)
where
    S::K: Report,
    S::V: Report,
    S::Argument: Report,
{
    tree.len().report(words);
    tree.height().report(words);
    report_number(tree.root_id(), words);
    report_statistic(tree.statistic(), words);
    tree.root_argument().report(words);
    report_store(tree.node_store(), words);
}

/// Reports the height of a tree, the number of its nodes and its statistic.
pub fn report_shape<S: NodeStore>(tree: &BPlusTree<S>, words: &mut Words) {
    let store = tree.node_store();
    let mut leaves: u64 = 0;
    let mut inners: u64 = 0;
    for number in 0..NUMBERS {
        let leaf = store.try_get_leaf(LeafNodeId::from_usize(number));
        let inner = store.try_get_inner(InnerNodeId::from_usize(number));
        leaves = leaves.wrapping_add(leaf.is_some() as u64);
        inners = inners.wrapping_add(inner.is_some() as u64);
    }
    tree.height().report(words);
    words.add(leaves);
    words.add(inners);
    report_statistic(tree.statistic(), words);
}

// Whether a store is empty after its nodes are taken out.
fn holds_none<S: NodeStore>(mut store: S) -> bool {
    for number in 0..NUMBERS {
        let id = InnerNodeId::from_usize(number);
        if store.try_get_inner(id).is_some() {
            store.take_inner(id);
            store.release_inner(id);
        }
        let id = LeafNodeId::from_usize(number);
        if store.try_get_leaf(id).is_some() {
            store.take_leaf(id);
            store.release_leaf(id);
        }
    }
    store.is_empty()
}

/// Whether a store reserves no id without a node, as a clone shows.
pub fn is_tidy<S: CloneStore>(store: &S) -> bool
where
    S::V: Clone,
{
    match store.clone() {
        Ok(store) => holds_none(store),
        Err(_) => false,
    }
}

/// Reports whether a clone of a store has the same nodes.
pub fn is_cloned<S: CloneStore>(store: &S, words: &mut Words) -> bool
where
    S::K: Report,
    S::V: Report + Clone,
    S::Argument: Report,
{
    let Ok(copy) = store.clone() else {
        return false;
    };
    let is_same = digest_of(&copy) == digest_of(store);
    (is_same && holds_none(copy)).report(words);
    true
}

fn report_one_leaf<S: NodeStore>(store: &S, number: u64, words: &mut Words) -> bool
where
    S::K: Report,
    S::V: Report,
{
    let leaf = store.try_get_leaf(LeafNodeId::from_usize(number as usize));
    leaf.is_some().report(words);
    if let Some(leaf) = leaf {
        report_leaf(leaf, words);
    }
    true
}

fn report_one_inner<S: NodeStore>(store: &S, number: u64, words: &mut Words) -> bool
where
    S::K: Report,
    S::Argument: Report,
{
    let node = store.try_get_inner(InnerNodeId::from_usize(number as usize));
    node.is_some().report(words);
    if let Some(node) = node {
        report_inner(node, words);
    }
    true
}

/// The call that reports the height alone.
pub const HEIGHT: u64 = 6;

/// Makes the calls that read nodes, and the node with an id.
pub fn call<S: CloneStore>(tree: &BPlusTree<S>, member: u64, number: u64, words: &mut Words) -> bool
where
    S::K: Report,
    S::V: Report + Clone,
    S::Argument: Report,
{
    let store = tree.node_store();
    match member {
        0 => report_state(tree, words),
        1 => report_shape(tree, words),
        2 => is_tidy(store).report(words),
        3 => store.cache_leaf(LeafNodeId::from_usize(number as usize)),
        4 => return report_one_leaf(store, number, words),
        5 => return report_one_inner(store, number, words),
        HEIGHT => tree.height().report(words),
        7 => return is_cloned(store, words),
        _ => return no_call(words),
    }
    true
}
