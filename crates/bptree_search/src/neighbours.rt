//! Positions of keys in a tree, and the pairs beside them.
ghost use Rattle.std.specs.Prelude.{◌≡◌, ◌≤◌, true, length, slice_get};
ghost use Rattle.std.specs.Option.{option_copied, option_map};
ghost use Rattle.bptree_keys.specs.Contents.{last_member, next, previous, value};
ghost use Rattle.bptree_keys.specs.Ends.{is_after};
ghost use Rattle.bptree_search.specs.Neighbours.{beside, leaf_pairs_of, LocatesKey, first_from, last_upto, pair_read};
ghost use Rattle.bptree_search.specs.Neighbours.{in_leaf, leaf_of_result, pair_on, position_beside, slot_of_result, IsLeafAtPosition};
ghost use Rattle.bptree_nodes.specs.LeafResults.{index_of_result, HasEqualAt};

use bptree_invariant::nodes::Nodes;
use bptree_keys::compares::Compares;
use bptree_keys::end::Side;
use bptree_keys::node_id::{LeafNodeId, Position};
use bptree_nodes::leaf_node::LeafNode;
use bptree_stores::node_stores::NodeStore;

/// A pair and its position, if there is one.
pub type Found<'a, K, V> = Option<(Position, (&'a K, &'a V))>;

// A leaf, and the position of a key that was searched for in it: `Ok` with the key's position, or
// `Err` with the position at which the key would be inserted.
type Located<'a, K, V> = (&'a LeafNode<K, V>, Result<Position, Position>);

// Finds a key and its leaf, as `search` does. If `hint` is the key's position, that takes one
// comparison. If it is in the key's leaf, only that leaf is searched. Otherwise the search begins
// at the root.
fn index_of<'a, S: NodeStore>(
    tree: &'a Nodes<S>,
    hint: Position,
    key: &S::K,
) -> Located<'a, S::K, S::V>
    ensures index { LocatesKey S.slots tree.now S.K.cmp key.now result.1 }
    ensures leaf { IsLeafAtPosition (S.slots tree.now.store) (leaf_of_result result.1) result.0.now }
{
    if let Some(leaf) = tree.store.try_get_leaf(hint.leaf) {
        if is_key_at(leaf, hint.slot, key) {
            return (leaf, Ok(hint));
        }
        if leaf.in_range(key) {
            return (leaf, in_leaf(hint.leaf, leaf.locate_slot(key)));
        }
    }
    search(tree, key)
}

// Finds a key and its leaf, from the root.
#[inline(always)]
fn search<'a, S: NodeStore>(tree: &'a Nodes<S>, key: &S::K) -> Located<'a, S::K, S::V>
    ensures index { LocatesKey S.slots tree.now S.K.cmp key.now result.1 }
    ensures leaf { IsLeafAtPosition (S.slots tree.now.store) (leaf_of_result result.1) result.0.now }
{
    let mut compares = Compares::new();
    let (id, hint) = tree.leaf_for(key, &mut compares);
    let leaf = tree.store.get_leaf(id);
    let index = leaf.locate_slot_counted(key, hint, &mut compares);
    (leaf, in_leaf(id, index))
}

/// Returns the position of a key: `Ok` with that position, or `Err` with the position at which the
/// key would be inserted.
///
/// O(log n) comparisons: one search for the leaf, as `Nodes::leaf_for` does, and one in that leaf.
/// It allocates nothing and cannot fail.
#[inline(always)]
pub fn locate<S: NodeStore>(tree: &Nodes<S>, key: &S::K) -> Result<Position, Position>
    ensures { LocatesKey S.slots tree.now S.K.cmp key.now result }
{
    search(tree, key).1
}

// Returns the result of a search of a leaf as a position.
#[inline(always)]
fn in_leaf(leaf: LeafNodeId, index: Result<usize, usize>) -> Result<Position, Position>
    ensures { result ≡ in_leaf leaf index }
{
    match index {
        Ok(slot) => Ok(Position { leaf, slot }),
        Err(slot) => Err(Position { leaf, slot }),
    }
}

// Returns `true` only if a slot of a leaf has an equal key.
fn is_key_at<K: Ord + Drop, V: Drop>(leaf: &LeafNode<K, V>, offset: usize, key: &K) -> bool
    ensures equal { result ≡ true → HasEqualAt K.cmp leaf.now.pairs key.now offset }
    ensures fits { length leaf.now.pairs ≤ 64 }
{
    match leaf.try_data_at(offset) {
        Some((there, _)) => there.cmp(key).is_eq(),
        None => false,
    }
}

/// Returns the slot on one side of a key that was searched for in a leaf: the first slot whose key
/// is not smaller or, on the side `After`, the first one whose key is greater.
///
/// O(1). It allocates nothing and cannot fail.
#[inline]
pub fn slot_beside(index: Result<usize, usize>, side: Side) -> usize
    requires { index_of_result index ≤ 64 }
    ensures { result ≡ beside index (is_after side) }
{
    match (index, side) {
        (Ok(slot), Side::After) => slot + 1,
        (Ok(slot), Side::Before) => slot,
        (Err(slot), _) => slot,
    }
}

/// Returns the position on one side of a key that was searched for in a tree: the first position
/// whose key is not smaller or, on the side `After`, the first one whose key is greater.
///
/// O(1). It allocates nothing and cannot fail.
#[inline]
pub fn position_beside(found: Result<Position, Position>, side: Side) -> Position
    requires { index_of_result (slot_of_result found) ≤ 64 }
    ensures { result ≡ position_beside found (is_after side) }
{
    match (found, side) {
        (Ok(at), Side::After) => Position {
            leaf: at.leaf,
            slot: at.slot + 1,
        },
        (Ok(at), Side::Before) => at,
        (Err(at), _) => at,
    }
}

// Returns the pair in a slot of a leaf, or `None` if there is no pair.
fn read_at<K: Drop, V: Drop>(id: LeafNodeId, leaf: &LeafNode<K, V>, slot: usize) -> Found<'_, K, V>
    ensures { option_map pair_read result ≡ slice_get leaf.now.pairs slot }
{
    match leaf.try_data_at(slot) {
        Some(pair) => Some((Position { leaf: id, slot }, pair)),
        None => None,
    }
}

// Returns the pair at a position, or the first pair of the next leaf if the position is past its
// leaf.
fn pair_from<'a, S: NodeStore>(
    store: &'a S,
    leaf: &'a LeafNode<S::K, S::V>,
    at: Position,
) -> Found<'a, S::K, S::V>
    requires { IsLeafAtPosition (S.slots store.now) at.leaf leaf.now }
    ensures { option_map pair_read result ≡ first_from (S.slots store.now) at }
{
    match leaf.try_data_at(at.slot) {
        Some(pair) => Some((at, pair)),
        None => first_of(store, leaf.next()),
    }
}

// Returns the first pair of a leaf, or `None` if there is no pair.
fn first_of<S: NodeStore>(store: &S, id: Option<LeafNodeId>) -> Found<'_, S::K, S::V>
    ensures { option_map pair_read result ≡ slice_get (leaf_pairs_of (S.slots store.now) id) 0 }
{
    let id = id?;
    read_at(id, store.try_get_leaf(id)?, 0)
}

// Returns the pair before a position, or the last pair of the previous leaf if the position is the
// first of its leaf.
fn pair_upto<'a, S: NodeStore>(
    store: &'a S,
    leaf: &'a LeafNode<S::K, S::V>,
    at: Position,
) -> Found<'a, S::K, S::V>
    requires leaf { IsLeafAtPosition (S.slots store.now) at.leaf leaf.now }
    requires within { at.slot ≤ length leaf.now.pairs }
    ensures { option_map pair_read result ≡ last_upto (S.slots store.now) at }
{
    match at.slot {
        0 => last_of(store, leaf.prev()),
        _ => Some((
            Position {
                leaf: at.leaf,
                slot: at.slot - 1,
            },
            leaf.data_at(at.slot - 1),
        )),
    }
}

// Returns the last pair of a leaf, or `None` if there is no pair.
fn last_of<S: NodeStore>(store: &S, id: Option<LeafNodeId>) -> Found<'_, S::K, S::V>
    ensures { option_map pair_read result ≡ last_member (leaf_pairs_of (S.slots store.now) id) }
{
    let id = id?;
    let leaf = store.try_get_leaf(id)?;
    read_at(id, leaf, leaf.len().saturating_sub(1))
}

// Returns the pair beside a key that was searched for: the one with the least key that is not
// smaller or, on the side `After`, with the least greater key.
fn pair_past<'a, S: NodeStore>(
    tree: &'a Nodes<S>,
    found: Located<'a, S::K, S::V>,
    _key: &S::K,
    side: Side,
) -> Found<'a, S::K, S::V>
    requires index { LocatesKey S.slots tree.now S.K.cmp _key.now found.1 }
    requires leaf { IsLeafAtPosition (S.slots tree.now.store) (leaf_of_result found.1) found.0.now }
    ensures { option_map pair_read result ≡ pair_on S.K.cmp tree.now.contents _key.now side }
{
    let (leaf, index) = found;
    pair_from(&tree.store, leaf, position_beside(index, side))
}

/// Returns the pair with the least greater key, and its position. The key need not be present.
/// `hint` may be any position.
///
/// O(log n) comparisons. If `hint` is the key's position, the search takes one comparison. If it is
/// in the key's leaf, only that leaf is searched. It allocates nothing and cannot fail.
pub fn pair_after<'a, S: NodeStore>(
    tree: &'a Nodes<S>,
    hint: Position,
    key: &S::K,
) -> Found<'a, S::K, S::V>
    ensures { option_map pair_read result ≡ next S.K.cmp tree.now.contents key.now }
{
    let found = index_of(tree, hint, key);
    pair_past(tree, found, key, Side::After)
}

/// Returns the pair with the least key that is not smaller than `key` or, on the side `After`, with
/// the least greater key, and its position.
///
/// O(log n) comparisons: it searches as `locate` does, and makes no other comparison. It allocates
/// nothing and cannot fail.
pub fn bound<'a, S: NodeStore>(tree: &'a Nodes<S>, key: &S::K, side: Side) -> Found<'a, S::K, S::V>
    ensures { option_map pair_read result ≡ pair_on S.K.cmp tree.now.contents key.now side }
{
    let found = search(tree, key);
    pair_past(tree, found, key, side)
}

/// Returns the pair with the greatest smaller key, and its position. The key need not be present.
///
/// `hint`, the cost, allocation and failure are as for `pair_after`.
pub fn pair_before<'a, S: NodeStore>(
    tree: &'a Nodes<S>,
    hint: Position,
    key: &S::K,
) -> Found<'a, S::K, S::V>
    ensures { option_map pair_read result ≡ previous S.K.cmp tree.now.contents key.now }
{
    let (leaf, index) = index_of(tree, hint, key);
    pair_upto(&tree.store, leaf, position_beside(index, Side::Before))
}

/// Returns the value of a key, or `None` if the key is absent.
///
/// `hint`, the cost, allocation and failure are as for `pair_after`.
pub fn value_at<'a, S: NodeStore>(
    tree: &'a Nodes<S>,
    hint: Position,
    key: &S::K,
) -> Option<&'a S::V>
    ensures { option_copied result ≡ value S.K.cmp tree.now.contents key.now }
{
    tree.recall();
    let (leaf, index) = index_of(tree, hint, key);
    match index {
        Ok(at) => Some(leaf.data_at(at.slot).1),
        Err(_) => None,
    }
}

/// Returns the pair with the least key, and its position, or `None` if the tree is empty.
///
/// O(height). It allocates nothing and cannot fail.
pub fn first_pair<S: NodeStore>(tree: &Nodes<S>) -> Found<'_, S::K, S::V>
    ensures { option_map pair_read result ≡ slice_get tree.now.contents 0 }
{
    let id = tree.first_leaf();
    read_at(id, tree.store.get_leaf(id), 0)
}

/// Returns the pair with the greatest key, and its position, or `None` if the tree is empty.
///
/// O(height). It allocates nothing and cannot fail.
pub fn last_pair<S: NodeStore>(tree: &Nodes<S>) -> Found<'_, S::K, S::V>
    ensures { option_map pair_read result ≡ last_member tree.now.contents }
{
    let id = tree.last_leaf();
    let leaf = tree.store.get_leaf(id);
    read_at(id, leaf, leaf.len().saturating_sub(1))
}
