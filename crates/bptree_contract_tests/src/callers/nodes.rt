//! Callers of the borrowed nodes. Whatever changed the list before, the nodes have the list, and
//! the store has no idle node.
ghost use Rattle.std.specs.Prelude.{◌≡◌, IsTrue, OnOk, Some, false};
ghost use Rattle.bptree_propagation.specs.Borrowing.{written};
ghost use Rattle.bptree_keys.specs.Contents.{put, del};
ghost use Rattle.bptree_stores.specs.StoreSlabs.{slots};
ghost use Rattle.bptree_invariant.specs.Shape.{IsWellShaped};
ghost use Rattle.bptree_tree.specs.Whole.{IsUntouched};
ghost use Rattle.bptree_contract_tests.specs.Words.{EachInnerOccursOnce, EachLeafOccursOnce, NodesHave, borrowed_keys, borrowed_pairs, shown_pairs};

use crate::callers::changes::writes;
use bptree_arguments::argument::Argument;
use bptree_keys::key::Key;
use bptree_keys::node_id::{LeafNodeId, NodeId};
use bptree_map::map::BPlusTreeMap;
use bptree_set::set::BPlusTreeSet;
use bptree_stores::node_store_vec::NodeStoreVec;
use bptree_stores::node_stores::NodeStore;
use bptree_tree::{BPlusTree, InsertError};
use std::alloc::AllocError;

// The nodes of the root and the height are a whole tree, and have the pairs of the list.
fn returns_the_list<S: NodeStore>(tree: &BPlusTree<S>) -> (&S, NodeId, usize)
    ensures pairs { borrowed_pairs S.slots result ≡ tree.now.contents }
    ensures whole { IsWellShaped S.K.cmp S.Argument.is_summary (S.slots result.0.now) result.2 result.1 }
{
    (tree.node_store(), tree.root_id(), tree.height())
}

// After a value is written at a key, the nodes have it at the key.
fn returns_what_was_written<S: NodeStore>(tree: &mut BPlusTree<S>, k: &S::K, v: S::V) -> bool
    ensures { IsTrue result → NodesHave S.slots tree.new (written S.K.cmp k.now tree.old.contents v) }
{
    let there = writes(tree, k, v);
    tree.node_store();
    there
}

// The nodes of a map's tree have the pairs of the map.
fn returns_the_pairs_of_a_map<K: Key, V: Drop, A: Argument<K>>(
    map: &BPlusTreeMap<K, V, A>,
) -> (&NodeStoreVec<K, V, A>, NodeId, usize)
    ensures { borrowed_pairs slots result ≡ map.now }
{
    returns_the_list(map.tree())
}

// Each node in the store is reached from the root, and only once: the store has no idle node.
fn has_no_idle_node<S: NodeStore>(tree: &BPlusTree<S>) -> (&S, NodeId, usize)
    ensures leaves { EachLeafOccursOnce (S.slots result.0.now) result.2 result.1 }
    ensures inners { EachInnerOccursOnce (S.slots result.0.now) result.2 result.1 }
{
    returns_the_list(tree)
}

// After an insertion, also one that fails, the store has no idle node. The nodes have the list.
fn leaves_no_node_idle<S: NodeStore>(
    tree: &mut BPlusTree<S>,
    k: S::K,
    v: S::V,
) -> Result<Option<S::V>, InsertError<S::K, S::V>>
    ensures leaves { EachLeafOccursOnce (S.slots tree.new.store) tree.new.height tree.new.root }
    ensures inners { EachInnerOccursOnce (S.slots tree.new.store) tree.new.height tree.new.root }
    ensures list { OnOk result (NodesHave S.slots tree.new (put S.K.cmp tree.old.contents k v)) }
{
    tree.insert(k, v)
}

// After a removal, also one that fails, the store has no idle node: a leaf that was merged into
// another is removed, and so is a root that has no key left.
fn leaves_no_node_behind<S: NodeStore>(
    tree: &mut BPlusTree<S>,
    k: &S::K,
) -> Result<Option<S::V>, AllocError>
    ensures leaves { EachLeafOccursOnce (S.slots tree.new.store) tree.new.height tree.new.root }
    ensures inners { EachInnerOccursOnce (S.slots tree.new.store) tree.new.height tree.new.root }
    ensures list { OnOk result (NodesHave S.slots tree.new (del S.K.cmp tree.old.contents k.now)) }
{
    tree.remove(k)
}

// What a tree shows of its nodes: the root, the height, and the number of pairs in the leaf with an
// id. The number is 0 if there is no such leaf.
type Shown = (NodeId, usize, usize);

fn shows<S: NodeStore>(tree: &BPlusTree<S>, leaf: LeafNodeId) -> Shown
    ensures { result ≡ shown_pairs S.slots tree.now leaf.0 }
{
    let held = match tree.node_store().try_get_leaf(leaf) {
        Some(node) => node.len(),
        None => 0,
    };
    (tree.root_id(), tree.height(), held)
}

fn is_put<S: NodeStore>(tree: &mut BPlusTree<S>, k: S::K, v: S::V) -> bool
    ensures { result ≡ false → IsUntouched S.slots tree.new tree.old }
{
    tree.insert(k, v).is_ok()
}

// An insertion that fails leaves the nodes: whatever leaf is read, the tree shows the same before
// and after.
fn shows_the_same_unless_put<S: NodeStore>(
    tree: &mut BPlusTree<S>,
    k: S::K,
    v: S::V,
    leaf: LeafNodeId,
) -> (bool, Shown, Shown)
    ensures { result.0 ≡ false → result.1 ≡ result.2 }
{
    let before = shows(tree, leaf);
    let done = is_put(tree, k, v);
    (done, before, shows(tree, leaf))
}

fn is_taken<S: NodeStore>(tree: &mut BPlusTree<S>, k: &S::K) -> bool
    ensures { result ≡ false → IsUntouched S.slots tree.new tree.old }
{
    tree.remove(k).is_ok()
}

// A removal that fails leaves the nodes.
fn shows_the_same_unless_taken<S: NodeStore>(
    tree: &mut BPlusTree<S>,
    k: &S::K,
    leaf: LeafNodeId,
) -> (bool, Shown, Shown)
    ensures { result.0 ≡ false → result.1 ≡ result.2 }
{
    let before = shows(tree, leaf);
    let done = is_taken(tree, k);
    (done, before, shows(tree, leaf))
}

// The nodes of a set's tree have the keys of the set.
fn returns_the_keys_of_a_set<K: Key>(set: &BPlusTreeSet<K>) -> (&NodeStoreVec<K, ()>, NodeId, usize)
    ensures { borrowed_keys slots result ≡ set.now }
{
    returns_the_list(set.tree())
}
