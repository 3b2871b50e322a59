//! Removal from a tree that is in a store.
ghost use Rattle.std.specs.Prelude.{◌≡◌, false, ◌<◌, ◌≤◌, IfOk, IsOk, OnErr, IfSome, Some, length, slice_get, [], Ok, None};
ghost use Rattle.std.specs.Option.{is_some};
ghost use Rattle.bptree_keys.specs.Contents.{has};
ghost use Rattle.bptree_keys.specs.Ends.{is_back};
ghost use Rattle.bptree_propagation.specs.Failing.{NeverFails};
ghost use Rattle.bptree_nodes.specs.Slot.{IsPresent};
ghost use Rattle.bptree_propagation.specs.LeafChange.{SumsUpLeafAt};
ghost use Rattle.bptree_invariant.specs.NodeTree.{IsUntouched, IsWhole};
ghost use Rattle.bptree_invariant.specs.Shape.{leaf_pairs, IsWellShaped};
ghost use Rattle.bptree_rebalancing.specs.Trim.{IsLoose};
ghost use Rattle.bptree_removal.specs.Removal.{IsEntryIn, NoPairIn, HasPair, HasSpare, IsSpareEnd, KeepsPairs, PutsPairBack, RemovesEnd, RemovesKeyFrom, RemovesSelected, TakesAt, TakesOut, TakesPair};

use crate::ends::end_path;
use bptree_arguments::argument::{Argument, SearchArgument};
use bptree_invariant::descent::{end_index, find_path};
use bptree_invariant::nodes::Nodes;
use bptree_keys::compares::{Compares, SearchHint};
use bptree_keys::end::End;
use bptree_keys::entry_ref::VisitStack;
use bptree_keys::node_id::{LeafNodeId, NodeId, Position};
use bptree_propagation::ascent::ascend;
use bptree_rebalancing::statistics::Statistic;
use bptree_rebalancing::underflow::{Merging, rebalance_leaf};
use bptree_search::by_argument::find_path_by_argument;
use bptree_stores::node_stores::NodeStore;
use std::alloc::AllocError;

// Removes the pair at a slot from a leaf. No summary is changed.
fn take_pair<S: NodeStore>(store: &mut S, id: LeafNodeId, slot: usize) -> (S::K, S::V)
    requires present { IsPresent ((S.slots store.old).leaf id.0) }
    requires slot { slot < length (leaf_pairs ((S.slots store.old).leaf id.0)) }
    ensures takes { TakesPair (S.slots store.old) (S.slots store.new) id slot }
    ensures pair { slice_get (leaf_pairs ((S.slots store.old).leaf id.0)) slot ≡ Some result }
{
    store.get_mut_leaf(id).delete_at(slot)
}

// Undoes `take_pair`.
fn put_pair<S: NodeStore>(store: &mut S, id: LeafNodeId, slot: usize, pair: (S::K, S::V))
    requires present { IsPresent ((S.slots store.old).leaf id.0) }
    requires slot { slot ≤ length (leaf_pairs ((S.slots store.old).leaf id.0)) }
    requires room { length (leaf_pairs ((S.slots store.old).leaf id.0)) < 64 }
    ensures { PutsPairBack (S.slots store.old) (S.slots store.new) id slot pair }
{
    let (key, value) = pair;
    store.get_mut_leaf(id).insert_at(slot, key, value);
}

/// Returns a summary of a leaf's keys, or the default summary if the leaf has no keys.
pub(crate) fn sum_of<S: NodeStore>(store: &S, id: LeafNodeId) -> Result<S::Argument, AllocError>
    requires { IsPresent ((S.slots store.now).leaf id.0) }
    ensures some { IfOk result (SumsUpLeafAt S.K.cmp S.Argument.is_summary (S.slots store.now) id) }
    ensures none { NoPairIn (S.slots store.now) id → IfOk result (λ a. S.Argument.is_summary a []) }
    ensures infallible { S.Argument.needs_no_memory → IsOk result }
{
    let leaf = store.get_leaf(id);
    if leaf.len() == 0 {
        return Ok(S::Argument::default());
    }
    S::Argument::from_leaf(leaf.keys())
}

// Removes the pair at a slot from the leaf at the end of a path, without rebalancing the leaf.
// Returns the pair and a summary of all keys.
fn take_in_place<S: NodeStore>(
    store: &mut S,
    path: &mut VisitStack,
    whole: &S::Argument,
    leaf: LeafNodeId,
    slot: usize,
) -> Result<((S::K, S::V), S::Argument), AllocError>
    requires there { HasPair S.K.cmp S.Argument.is_summary (S.slots store.old) path.old whole.now leaf slot }
    requires spare { 0 < length path.old → HasSpare (S.slots store.old) leaf }
    ensures leaves { TakesOut S.K.cmp S.Argument.is_summary (S.slots store.old) (S.slots store.new) path.old whole.now leaf slot result }
    ensures unchanged { OnErr result (S.slots store.new ≡ S.slots store.old) }
    ensures infallible { S.Argument.needs_no_memory → IsOk result }
{
    let pair = take_pair(store, leaf, slot);
    let Ok(summary) = sum_of(store, leaf) else {
        put_pair(store, leaf, slot, pair);
        return Err(AllocError);
    };
    match ascend(store, path, whole, summary) {
        Ok(top) => Ok((pair, top)),
        Err(refusal) => {
            put_pair(store, leaf, slot, pair);
            Err(refusal)
        }
    }
}

// Removes the pair at a slot from the leaf at the end of a path. If the leaf underflows, `merging`
// determines when it merges with its sibling. Returns the pair and a summary of all keys.
fn take_out<S: NodeStore>(
    store: &mut S,
    path: &mut VisitStack,
    whole: &S::Argument,
    leaf: LeafNodeId,
    slot: usize,
    merging: Merging,
    statistic: &mut Statistic,
) -> Result<((S::K, S::V), S::Argument), AllocError>
    requires { HasPair S.K.cmp S.Argument.is_summary (S.slots store.old) path.old whole.now leaf slot }
    ensures leaves { TakesOut S.K.cmp S.Argument.is_summary (S.slots store.old) (S.slots store.new) path.old whole.now leaf slot result }
    ensures unchanged { OnErr result (S.slots store.new ≡ S.slots store.old) }
    ensures infallible { NeverFails S.Argument.needs_no_memory S.K.is_infallible result }
{
    if store.get_leaf(leaf).can_spare() {
        return take_in_place(store, path, whole, leaf, slot);
    }
    let Some((id, index, _)) = path.pop() else {
        return take_in_place(store, path, whole, leaf, slot);
    };
    let pair = take_pair(store, leaf, slot);
    match rebalance_leaf(store, path, whole, id, index, merging, statistic) {
        Ok(top) => Ok((pair, top)),
        Err(refusal) => {
            put_pair(store, leaf, slot, pair);
            Err(refusal)
        }
    }
}

// Replaces a root that has no key by its only child. Returns the root and its height. It allocates
// nothing.
fn shrink_root<S: NodeStore>(store: &mut S, root: NodeId, height: usize) -> (NodeId, usize)
    requires { IsLoose S.K.cmp S.Argument.is_summary (S.slots store.old) height root }
    ensures shape { IsWellShaped S.K.cmp S.Argument.is_summary (S.slots store.new) result.1 result.0 }
    ensures pairs { KeepsPairs (S.slots store.old) (S.slots store.new) height root result }
{
    let NodeId::Inner(id) = root else {
        return (root, height);
    };
    let node = store.get_inner(id);
    if node.len() > 0 {
        return (root, height);
    }
    let child = node.child_id(0);
    store.take_inner(id);
    store.release_inner(id);
    (child, height - 1)
}

/// Returns the position of the key of a tree that equals `k`, if there is one.
///
/// `path` then holds the inner nodes on the way there; what it held before is discarded. O(log n)
/// comparisons. It allocates nothing and cannot fail.
pub fn find_entry<S: NodeStore>(
    tree: &Nodes<S>,
    path: &mut VisitStack,
    k: &S::K,
) -> Option<Position>
    ensures way { IfSome result (IsEntryIn S.slots S.K.cmp S.Argument.is_summary tree.now path.new k.now) }
    ensures there { is_some result ≡ has S.K.cmp tree.now.contents k.now }
{
    tree.recall();
    path.clear();
    let leaf = find_path(&tree.store, tree.root, tree.height, k, path);
    // The removal's memory moves depend on the slot, so the search branches one level earlier than
    // that of a look-up.
    let hint = SearchHint::below(tree.height.saturating_add(1));
    let found = tree
        .store
        .get_leaf(leaf)
        .locate_slot_counted(k, hint, &mut Compares::new());
    match found {
        Ok(slot) => Some(Position { leaf, slot }),
        Err(_) => None,
    }
}

// Removes the pair at a position from a tree, as `take_entry` does. If its leaf underflows,
// `merging` determines when it merges with its sibling.
fn take_entry_by<S: NodeStore>(
    tree: &mut Nodes<S>,
    path: &mut VisitStack,
    at: Position,
    merging: Merging,
    statistic: &mut Statistic,
) -> Result<(S::K, S::V), AllocError>
    requires { (k : S.K) × IsEntryIn S.slots S.K.cmp S.Argument.is_summary tree.old path.old k at }
    ensures taken { TakesAt S.slots S.K.cmp S.Argument.is_summary tree.old tree.new path.old at result }
    ensures whole { IsWhole S.K.cmp S.Argument.is_summary S.slots tree.new }
    ensures unchanged { OnErr result (IsUntouched S.slots tree.new tree.old) }
    ensures infallible { NeverFails S.Argument.needs_no_memory S.K.is_infallible result }
{
    let (pair, summary) = take_out(
        &mut tree.store,
        path,
        &tree.summary,
        at.leaf,
        at.slot,
        merging,
        statistic,
    )?;
    let (root, height) = shrink_root(&mut tree.store, tree.root, tree.height);
    tree.root = root;
    tree.height = height;
    tree.len -= 1;
    tree.summary = summary;
    Ok(pair)
}

/// Removes the pair at a position from a tree, and returns it.
///
/// `find_entry` returns the position, and leaves in `path` the inner nodes on the way there. A leaf
/// that underflows merges with its sibling only if neither sibling has more than 16 pairs.
///
/// O(log n) steps. It allocates only a clone of a separator and the summaries. If one of these
/// fails, it returns `Err(AllocError)` and the tree is unchanged.
pub fn take_entry<S: NodeStore>(
    tree: &mut Nodes<S>,
    path: &mut VisitStack,
    at: Position,
    statistic: &mut Statistic,
) -> Result<(S::K, S::V), AllocError>
    requires { (k : S.K) × IsEntryIn S.slots S.K.cmp S.Argument.is_summary tree.old path.old k at }
    ensures taken { TakesAt S.slots S.K.cmp S.Argument.is_summary tree.old tree.new path.old at result }
    ensures whole { IsWhole S.K.cmp S.Argument.is_summary S.slots tree.new }
    ensures unchanged { OnErr result (IsUntouched S.slots tree.new tree.old) }
    ensures infallible { NeverFails S.Argument.needs_no_memory S.K.is_infallible result }
{
    take_entry_by(tree, path, at, Merging::Late, statistic)
}

/// Removes the pair whose key equals `k` from a tree, if there is one, and returns it with the key
/// that was stored.
///
/// `path` is scratch space, reused to avoid an allocation; what it held before is discarded.
///
/// O(log n) steps. It allocates what `take_entry` does, and nothing if there is no such pair. If an
/// allocation fails, it returns `Err(AllocError)` and the tree is unchanged.
pub fn remove_entry<S: NodeStore>(
    tree: &mut Nodes<S>,
    path: &mut VisitStack,
    k: &S::K,
    statistic: &mut Statistic,
) -> Result<Option<(S::K, S::V)>, AllocError>
    ensures removed { IfOk result (RemovesKeyFrom tree.old.contents tree.new.contents S.K.cmp k.now) }
    ensures absent { has S.K.cmp tree.old.contents k.now ≡ false → result ≡ Ok None }
    ensures whole { IsWhole S.K.cmp S.Argument.is_summary S.slots tree.new }
    ensures untouched { has S.K.cmp tree.old.contents k.now ≡ false → IsUntouched S.slots tree.new tree.old }
    ensures unchanged { OnErr result (IsUntouched S.slots tree.new tree.old) }
    ensures infallible { NeverFails S.Argument.needs_no_memory S.K.is_infallible result }
{
    tree.recall();
    match find_entry(tree, path, k) {
        Some(at) => Ok(Some(take_entry(tree, path, at, statistic)?)),
        None => Ok(None),
    }
}

// Returns the leaf that a path ends at, if that is the first leaf of the tree, or the last one, if
// the leaf has more pairs than it needs, and if every value is a summary of every list. The path
// need not be one of this tree: the leaf is tested.
#[inline(always)]
fn spare_end<S: NodeStore>(store: &S, path: &VisitStack, end: End) -> Option<LeafNodeId>
    ensures { IfSome result (IsSpareEnd S.Argument.is_summary (S.slots store.now) (is_back end)) }
{
    if !S::Argument::is_zst() {
        return None;
    }
    let (_, _, NodeId::Leaf(id)) = path.last()? else {
        return None;
    };
    let leaf = store.try_get_leaf(id)?;
    let beside = match end {
        End::Front => leaf.prev(),
        End::Back => leaf.next(),
    };
    if beside.is_some() || !leaf.can_spare() {
        return None;
    }
    Some(id)
}

// Removes the pair at an end of the first leaf, or of the last one, as `spare_end` found it. No
// other node is changed.
fn take_spare<S: NodeStore>(tree: &mut Nodes<S>, leaf: LeafNodeId, end: End) -> (S::K, S::V)
    requires { IsSpareEnd S.Argument.is_summary (S.slots tree.old.store) (is_back end) leaf }
    ensures removed { RemovesEnd tree.old.contents tree.new.contents (is_back end) (Some result) }
    ensures whole { IsWhole S.K.cmp S.Argument.is_summary S.slots tree.new }
{
    let len = tree.store.get_leaf(leaf).len();
    let pair = take_pair(&mut tree.store, leaf, end_index(len, end));
    tree.len -= 1;
    pair
}

/// Removes the pair at an end of a tree, if there is one, and returns it.
///
/// The descent compares and clones no key. A leaf that underflows merges with its sibling if the
/// sibling has at most 48 pairs, so a loop over this call seldom rotates. `path` is scratch space,
/// as for `remove_entry`. If no summaries are kept and it still has the path of the last call,
/// there is no descent, while the leaf has more than 16 pairs.
///
/// O(log n) steps. It allocates what `take_entry` does, and nothing if there is no pair. If an
/// allocation fails, it returns `Err(AllocError)` and the tree is unchanged.
pub fn remove_end<S: NodeStore>(
    tree: &mut Nodes<S>,
    path: &mut VisitStack,
    end: End,
    statistic: &mut Statistic,
) -> Result<Option<(S::K, S::V)>, AllocError>
    ensures removed { IfOk result (RemovesEnd tree.old.contents tree.new.contents (is_back end)) }
    ensures empty { tree.old.contents ≡ [] → result ≡ Ok None }
    ensures whole { IsWhole S.K.cmp S.Argument.is_summary S.slots tree.new }
    ensures untouched { tree.old.contents ≡ [] → IsUntouched S.slots tree.new tree.old }
    ensures unchanged { OnErr result (IsUntouched S.slots tree.new tree.old) }
    ensures infallible { NeverFails S.Argument.needs_no_memory S.K.is_infallible result }
{
    if let Some(leaf) = spare_end(&tree.store, path, end) {
        return Ok(Some(take_spare(tree, leaf, end)));
    }
    path.clear();
    let leaf = end_path(&tree.store, tree.root, tree.height, end, path);
    let len = tree.store.get_leaf(leaf).len();
    if len == 0 {
        return Ok(None);
    }
    let slot = end_index(len, end);
    let at = Position { leaf, slot };
    Ok(Some(take_entry_by(tree, path, at, Merging::Early, statistic)?))
}

/// Removes from a tree a pair that the argument may find for the query, if it finds one, and
/// returns it. `path` is scratch space, as for `remove_entry`. If an allocation fails, it returns
/// `Err(AllocError)` and the tree is unchanged.
pub fn remove_by_argument<S: NodeStore>(
    tree: &mut Nodes<S>,
    path: &mut VisitStack,
    query: <S::Argument as SearchArgument<S::K>>::Query,
    statistic: &mut Statistic,
) -> Result<Option<(S::K, S::V)>, AllocError>
where
    S::Argument: SearchArgument<S::K>,
    ensures removed { IfOk result (RemovesSelected tree.old.contents tree.new.contents S.Argument.selects query) }
    ensures whole { IsWhole S.K.cmp S.Argument.is_summary S.slots tree.new }
    ensures untouched { result ≡ Ok None → IsUntouched S.slots tree.new tree.old }
    ensures unchanged { OnErr result (IsUntouched S.slots tree.new tree.old) }
    ensures infallible { NeverFails S.Argument.needs_no_memory S.K.is_infallible result }
{
    tree.recall();
    match find_path_by_argument(tree, query, path)? {
        None => Ok(None),
        Some(at) => Ok(Some(take_entry(tree, path, at, statistic)?)),
    }
}
