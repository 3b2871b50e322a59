//! Insertion into a tree that is in a store.
ghost use Rattle.std.specs.Prelude.{◌≡◌, ◌≤◌, ◌<◌, ◌≢◌, IfOk, IfErr, OnErr, IfSome, false, true, length};
ghost use Rattle.std.specs.List.Sorted.{IsSearchInRange};
ghost use Rattle.bptree_keys.specs.Contents.{has, put};
ghost use Rattle.bptree_keys.specs.declared.node_id.NodeId.TheVariants as kind;
ghost use Rattle.bptree_nodes.specs.LeafResults.{HasEqualAt, IsIndexInLeaf};
ghost use Rattle.bptree_nodes.specs.Slot.{IsPresent};
ghost use Rattle.bptree_propagation.specs.LeafChange.{SumsUpLeaf, HasSlotAt, AreHalves, SumsUpLeafAt};
ghost use Rattle.bptree_insertion.specs.Puts.{PutsPair, IsCached, BelongsAt, IsDueIn, root_after, AddsPair, Divides, HasRoomFor, HasValueAt, IsDueBelow, LeftSumsUp, IndexesOfAbsent, IndexesOfAbsentUpTo, Rejoins, RightSumsUp, SeparatesHalves, SetsValue, SumsUpDue, UndoesAdd};
ghost use Rattle.bptree_invariant.specs.NodeTree.{IsUntouched, IsWhole};
ghost use Rattle.bptree_invariant.specs.Shape.{leaf_pairs};

use bptree_arguments::argument::Argument;
use bptree_invariant::descent::find_path;
use bptree_invariant::nodes::Nodes;
use bptree_keys::compares::{Compares, SearchHint};
use bptree_keys::entry_ref::VisitStack;
use bptree_keys::key::Key;
use bptree_keys::node_id::{InnerNodeId, LeafNodeId, NodeId, Position};
use bptree_nodes::leaf_node::LeafNode;
use bptree_propagation::ascent::{ascend, ascend_split, relink_next};
use bptree_propagation::node_changes::NodeSplit;
use bptree_stores::node_stores::NodeStore;
use std::alloc::AllocError;

// Returns a clone of the key that will be the first of the right half, if a full leaf is split with
// a new key at the slot.
fn separator<S: NodeStore>(
    store: &S,
    id: LeafNodeId,
    slot: usize,
    key: &S::K,
) -> Result<S::K, AllocError>
    requires present { IsPresent ((S.slots store.now).leaf id.0) }
    requires full { length (leaf_pairs ((S.slots store.now).leaf id.0)) ≡ 64 }
    requires slot { slot ≤ 64 }
    ensures { IfOk result (SeparatesHalves S.K.cmp (leaf_pairs ((S.slots store.now).leaf id.0)) slot key.now) }
{
    if slot == 32 {
        return key.clone();
    }
    store.get_leaf(id).data_at(32).0.clone()
}

// Puts a pair into a leaf that has room, and returns a summary of the leaf's keys. If the summary
// fails, it returns the pair, and the store is unchanged.
fn add_at<S: NodeStore>(
    store: &mut S,
    id: LeafNodeId,
    slot: usize,
    key: S::K,
    value: S::V,
) -> Result<S::Argument, (S::K, S::V)>
    requires slot { HasSlotAt ((S.slots store.old).leaf id.0) slot }
    requires room { length (leaf_pairs ((S.slots store.old).leaf id.0)) < 64 }
    ensures adds { AddsPair (S.slots store.old) (S.slots store.new) id slot (key, value) result }
    ensures sums { IfOk result (SumsUpLeafAt S.K.cmp S.Argument.is_summary (S.slots store.new) id) }
    ensures unchanged { OnErr result (S.slots store.new ≡ S.slots store.old) }
    ensures returned { IfErr result (λ pair. pair ≡ (key, value)) }
{
    let leaf = store.get_mut_leaf(id);
    leaf.insert_at(slot, key, value);
    match S::Argument::from_leaf(leaf.keys()) {
        Ok(summary) => Ok(summary),
        Err(_) => Err(leaf.delete_at(slot)),
    }
}

// Undoes `add_at`, and returns the pair.
fn take_back<S: NodeStore>(store: &mut S, id: LeafNodeId, slot: usize) -> (S::K, S::V)
    requires present { IsPresent ((S.slots store.old).leaf id.0) }
    requires slot { slot < length (leaf_pairs ((S.slots store.old).leaf id.0)) }
    ensures undoes { UndoesAdd (S.slots store.old) (S.slots store.new) id slot result }
{
    let mut leaf = store.take_leaf(id);
    let pair = leaf.delete_at(slot);
    store.assign_leaf(id, leaf);
    pair
}

// Puts a pair with a new key into the leaf at the end of a path, which has room, and returns a
// summary of all keys. If a summary fails, it returns the pair, and the store is unchanged.
fn put_in_room<S: NodeStore>(
    store: &mut S,
    path: &mut VisitStack,
    whole: &S::Argument,
    id: LeafNodeId,
    slot: usize,
    key: S::K,
    value: S::V,
) -> Result<S::Argument, (S::K, S::V)>
    requires due { BelongsAt S.K.cmp S.Argument.is_summary (S.slots store.old) path.old id slot key }
    requires reported { SumsUpDue S.K.cmp S.Argument.is_summary (S.slots store.old) path.old id slot key whole.now }
    requires room { length (leaf_pairs ((S.slots store.old).leaf id.0)) < 64 }
    ensures placed { IndexesOfAbsent S.K.cmp S.Argument.is_summary (S.slots store.old) (S.slots store.new) path.old id slot key value result }
    ensures unchanged { OnErr result (S.slots store.new ≡ S.slots store.old) }
    ensures returned { IfErr result (λ pair. pair ≡ (key, value)) }
{
    let summary = add_at(store, id, slot, key, value)?;
    match ascend(store, path, whole, summary) {
        Ok(top) => Ok(top),
        Err(_) => Err(take_back(store, id, slot)),
    }
}

// Splits a full leaf, and puts the pair into one of the halves. Returns what the node above has to
// take, and the id of the new leaf. If an allocation fails, it returns the pair, and the store is
// unchanged.
fn split_at<S: NodeStore>(
    store: &mut S,
    id: LeafNodeId,
    slot: usize,
    key: S::K,
    value: S::V,
) -> Result<(NodeSplit<S::K, S::Argument>, LeafNodeId), (S::K, S::V)>
    requires present { IsPresent ((S.slots store.old).leaf id.0) }
    requires full { length (leaf_pairs ((S.slots store.old).leaf id.0)) ≡ 64 }
    requires slot { slot ≤ 64 }
    ensures divides { Divides S.K.cmp (S.slots store.old) (S.slots store.new) id slot (key, value) result }
    ensures left { IfOk result (LeftSumsUp S.K.cmp S.Argument.is_summary (S.slots store.new) id) }
    ensures right { IfOk result (RightSumsUp S.K.cmp S.Argument.is_summary (S.slots store.new)) }
    ensures unchanged { OnErr result (S.slots store.new ≡ S.slots store.old) }
    ensures returned { IfErr result (λ pair. pair ≡ (key, value)) }
{
    let Ok(separator) = separator(store, id, slot, &key) else {
        return Err((key, value));
    };
    let Ok(room) = LeafNode::new(store.allocator()) else {
        return Err((key, value));
    };
    let Ok(fresh) = store.reserve_leaf() else {
        return Err((key, value));
    };
    let mut leaf = store.take_leaf(id);
    let half = leaf.split_new_leaf(slot, (key, value), fresh, id, room);
    match divided(&leaf, separator, fresh, &half) {
        Ok(division) => {
            store.assign_leaf(id, leaf);
            store.assign_leaf(fresh, half);
            Ok((division, fresh))
        }
        Err(_) => {
            let pair = leaf.undo_split(slot, half);
            store.assign_leaf(id, leaf);
            store.release_leaf(fresh);
            Err(pair)
        }
    }
}

// Returns what the node above has to take of two leaves: the summaries of their keys, and the
// separator before the right one.
fn divided<K: Key, V: Drop, A: Argument<K>>(
    left: &LeafNode<K, V>,
    separator: K,
    fresh: LeafNodeId,
    right: &LeafNode<K, V>,
) -> Result<NodeSplit<K, A>, AllocError>
    ensures left { IfOk result (λ done. SumsUpLeaf K.cmp A.is_summary left.now.pairs done.left) }
    ensures right { IfOk result (λ done. SumsUpLeaf K.cmp A.is_summary right.now.pairs done.right) }
    ensures separator { IfOk result (λ division. division.separator ≡ separator) }
    ensures node { IfOk result (λ division. division.node ≡ kind.Leaf fresh) }
{
    let left = A::from_leaf(left.keys())?;
    let right = A::from_leaf(right.keys())?;
    Ok(NodeSplit {
        left,
        separator,
        node: NodeId::Leaf(fresh),
        right,
    })
}

// Undoes `split_at`, and returns the pair.
fn undo_split_at<S: NodeStore>(
    store: &mut S,
    id: LeafNodeId,
    fresh: LeafNodeId,
    slot: usize,
) -> (S::K, S::V)
    requires halves { AreHalves ((S.slots store.old).leaf id.0) ((S.slots store.old).leaf fresh.0) }
    requires apart { id.0 ≡ fresh.0 → ⊥ }
    requires slot { slot ≤ 64 }
    ensures undoes { Rejoins S.K.cmp (S.slots store.old) (S.slots store.new) id slot fresh result }
{
    let mut leaf = store.take_leaf(id);
    let half = store.take_leaf(fresh);
    let pair = leaf.undo_split(slot, half);
    store.assign_leaf(id, leaf);
    store.release_leaf(fresh);
    pair
}

// Makes the store cache the right half of a split leaf at once, if the new pair went into that half
// and no summaries are kept. The store caches a leaf that it is given twice in a row.
fn remember_right<S: NodeStore>(store: &S, right: LeafNodeId, slot: usize) {
    if slot >= 32 && S::Argument::is_zst() {
        store.cache_leaf(right);
        store.cache_leaf(right);
    }
}

// Puts a pair with a new key into the leaf at the end of a path, which is split if it is full.
// Returns the id of a new root, if the root was split too, and a summary of all keys. If an
// allocation fails, it returns the pair, and the store is unchanged.
fn put_new<S: NodeStore>(
    store: &mut S,
    path: &mut VisitStack,
    whole: &S::Argument,
    root: NodeId,
    at: Position,
    pair: (S::K, S::V),
) -> Result<(Option<InnerNodeId>, S::Argument), (S::K, S::V)>
    requires due { IsDueBelow S.K.cmp S.Argument.is_summary (S.slots store.old) root path.old at.leaf at.slot pair.0 }
    requires reported { SumsUpDue S.K.cmp S.Argument.is_summary (S.slots store.old) path.old at.leaf at.slot pair.0 whole.now }
    ensures placed { IndexesOfAbsentUpTo S.K.cmp S.Argument.is_summary (S.slots store.old) (S.slots store.new) path.old at.leaf at.slot pair.0 pair.1 root result }
    ensures unchanged { OnErr result (S.slots store.new ≡ S.slots store.old) }
    ensures returned { IfErr result (λ back. back ≡ pair) }
{
    let Position { leaf: id, slot } = at;
    let (key, value) = pair;
    let leaf = store.get_leaf(id);
    if !leaf.is_full() {
        let summary = put_in_room(store, path, whole, id, slot, key, value)?;
        return Ok((None, summary));
    }
    let next = leaf.next();
    let (division, fresh) = split_at(store, id, slot, key, value)?;
    match ascend_split(store, path, whole, root, division) {
        Ok(top) => {
            relink_next(store, fresh, next);
            remember_right(store, fresh, slot);
            Ok(top)
        }
        Err(_) => Err(undo_split_at(store, id, fresh, slot)),
    }
}

// Replaces the value at a slot of a leaf, and returns the old one.
fn replace_at<S: NodeStore>(store: &mut S, id: LeafNodeId, slot: usize, v: S::V) -> S::V
    requires present { IsPresent ((S.slots store.old).leaf id.0) }
    requires slot { slot < length (leaf_pairs ((S.slots store.old).leaf id.0)) }
    ensures sets { SetsValue (S.slots store.old) (S.slots store.new) id slot v }
    ensures old { HasValueAt (S.slots store.old) id slot result }
{
    store.get_mut_leaf(id).replace_value(slot, v)
}

// Returns the root and the height of a tree, with a new root if there is one.
fn top_of(root: NodeId, height: usize, top: Option<InnerNodeId>) -> (NodeId, usize)
    requires { height ≤ 15 }
    ensures { result ≡ root_after root height top }
{
    match top {
        Some(id) => (NodeId::Inner(id), height + 1),
        None => (root, height),
    }
}

/// Returns whether a tree of `len` pairs takes no pair with a new key, because its length could not
/// count one more.
///
/// O(1). It allocates nothing and cannot fail.
pub fn is_full(len: usize) -> bool
    ensures full { result ≡ true → len ≡ usize.MAX }
    ensures room { result ≡ false → len ≢ usize.MAX }
{
    len == usize::MAX
}

// Finds the slot of a key in a leaf, or the number of smaller keys. The hint determines how it
// searches, but in the last of several leaves it compares the last key first, since ascending keys
// are inserted behind it.
#[inline(always)]
fn slot_for<K: Key, V: Drop>(
    leaf: &LeafNode<K, V>,
    hint: SearchHint,
    key: &K,
) -> Result<usize, usize>
    ensures in_range { IsSearchInRange result (length leaf.now.pairs) }
    ensures found { IfOk result (HasEqualAt K.cmp leaf.now.pairs key.now) }
    ensures index { IsIndexInLeaf K.cmp leaf.now key.now result }
{
    let hint = if leaf.next().is_none() && leaf.prev().is_some() {
        SearchHint::Last
    } else {
        hint
    };
    leaf.locate_slot_counted(key, hint, &mut Compares::new())
}

// Returns the cached leaf, if it holds the key and has room, and if every value is a summary of
// every list: then no node above the leaf needs a new summary.
#[inline(always)]
fn cached_leaf_with_room<S: NodeStore>(store: &S, k: &S::K) -> Option<LeafNodeId>
    ensures { IfSome result (IsCached S.K.cmp S.Argument.is_summary (S.slots store.now) k.now) }
{
    if !S::Argument::is_zst() {
        return None;
    }
    let leaf = store.try_cache(k, &mut Compares::new())?;
    if store.get_leaf(leaf).is_full() {
        return None;
    }
    Some(leaf)
}

// Puts a pair into the cached leaf, which holds the key and has room. No other node is changed.
fn put_cached<S: NodeStore>(
    tree: &mut Nodes<S>,
    leaf: LeafNodeId,
    k: S::K,
    v: S::V,
) -> Result<Option<S::V>, (S::K, S::V)>
    requires cached { IsCached S.K.cmp S.Argument.is_summary (S.slots tree.old.store) k leaf }
    requires room { HasRoomFor S.K.cmp tree.old.contents k }
    ensures put { IfOk result (PutsPair S.K.cmp k v tree.old.contents tree.new.contents) }
    ensures whole { IsWhole S.K.cmp S.Argument.is_summary S.slots tree.new }
    ensures unchanged { OnErr result (IsUntouched S.slots tree.new tree.old) }
    ensures returned { IfErr result (λ pair. pair ≡ (k, v)) }
    ensures absent { OnErr result (has S.K.cmp tree.old.contents k ≡ false) }
{
    let found = slot_for(tree.store.get_leaf(leaf), SearchHint::Near, &k);
    match found {
        Ok(slot) => Ok(Some(replace_at(&mut tree.store, leaf, slot, v))),
        Err(slot) => match add_at(&mut tree.store, leaf, slot, k, v) {
            Ok(summary) => {
                tree.len += 1;
                tree.summary = summary;
                Ok(None)
            }
            Err(pair) => Err(pair),
        },
    }
}

// Inserts a pair with a new key at a position that a path leads to, and splits the leaf, and each
// node above it, if it is full. If an allocation fails, it returns the pair, and the tree is
// unchanged.
fn insert_new<S: NodeStore>(
    tree: &mut Nodes<S>,
    path: &mut VisitStack,
    at: Position,
    k: S::K,
    v: S::V,
) -> Result<(), (S::K, S::V)>
    requires due { IsDueIn S.slots S.K.cmp S.Argument.is_summary tree.old path.old at k }
    requires absent { has S.K.cmp tree.old.contents k ≡ false }
    ensures put { IfOk result (λ _. tree.new.contents ≡ put S.K.cmp tree.old.contents k v) }
    ensures whole { IsWhole S.K.cmp S.Argument.is_summary S.slots tree.new }
    ensures unchanged { OnErr result (IsUntouched S.slots tree.new tree.old) }
    ensures returned { IfErr result (λ pair. pair ≡ (k, v)) }
{
    let (top, summary) = put_new(&mut tree.store, path, &tree.summary, tree.root, at, (k, v))?;
    let (root, height) = top_of(tree.root, tree.height, top);
    tree.root = root;
    tree.height = height;
    tree.len += 1;
    tree.summary = summary;
    Ok(())
}

/// Puts a pair into a tree, and returns the value that was there.
///
/// An equal key stays, and only its value is replaced. A new key's leaf, and each node above it,
/// takes a new summary; each of them that is full is split. `path` is scratch space, reused to
/// avoid an allocation; what it held before is discarded. If no summaries are kept, the leaf is
/// given to the store to cache (`cache_leaf`), and a pair that belongs in the cached leaf needs no
/// descent while that leaf has room.
///
/// O(log n) comparisons. It allocates only the nodes of a split, a clone of the separator and the
/// summaries. If an allocation fails, it returns the pair, and the tree is unchanged.
pub fn upsert<S: NodeStore>(
    tree: &mut Nodes<S>,
    path: &mut VisitStack,
    k: S::K,
    v: S::V,
) -> Result<Option<S::V>, (S::K, S::V)>
    requires { HasRoomFor S.K.cmp tree.old.contents k }
    ensures put { IfOk result (PutsPair S.K.cmp k v tree.old.contents tree.new.contents) }
    ensures whole { IsWhole S.K.cmp S.Argument.is_summary S.slots tree.new }
    ensures unchanged { OnErr result (IsUntouched S.slots tree.new tree.old) }
    ensures returned { IfErr result (λ pair. pair ≡ (k, v)) }
    ensures absent { OnErr result (has S.K.cmp tree.old.contents k ≡ false) }
{
    if let Some(leaf) = cached_leaf_with_room(&tree.store, &k) {
        return put_cached(tree, leaf, k, v);
    }
    path.clear();
    let leaf = find_path(&tree.store, tree.root, tree.height, &k, path);
    if S::Argument::is_zst() {
        tree.store.cache_leaf(leaf);
    }
    // The insertion's memory moves depend on the slot, so the search branches one level earlier
    // than that of a look-up.
    let hint = SearchHint::below(tree.height.saturating_add(1));
    let found = slot_for(tree.store.get_leaf(leaf), hint, &k);
    match found {
        Ok(slot) => Ok(Some(replace_at(&mut tree.store, leaf, slot, v))),
        Err(slot) => match insert_new(tree, path, Position { leaf, slot }, k, v) {
            Ok(()) => Ok(None),
            Err(pair) => Err(pair),
        },
    }
}
