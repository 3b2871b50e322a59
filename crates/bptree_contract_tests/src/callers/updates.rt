//! Callers that change a value in place or insert one, and callers that read by bounds and indices.
ghost use Rattle.std.specs.Prelude.{◌≡◌, ◌<◌, ◌-◌, ◌^◌, [], true, false, length, None, Ok, Some, IfErr, IsOk, OnOk, map as each, slice_get};
ghost use Rattle.std.specs.Map.{keys_of};
ghost use Rattle.std.specs.Option.{option_map};
ghost use Rattle.bptree_keys.specs.Contents.{has};
ghost use Rattle.bptree_keys.specs.Ranges.{between};
ghost use Rattle.bptree_contract_tests.specs.Numbers.{counted_on};
ghost use Rattle.bptree_tree.specs.Returning.{ReturnsPair};
ghost use Rattle.bptree_contract_tests.specs.Words.{HasValue, between_keys, held_between};

use bptree_arguments::argument::Argument;
use bptree_arguments::count::Count;
use bptree_keys::key::Key;
use bptree_map::map::BPlusTreeMap;
use bptree_set::set::BPlusTreeSet;
use bptree_stores::node_stores::NodeStore;
use bptree_tree::{BPlusTree, Cursor, InsertError};
use std::alloc::AllocError;
use std::ops::Bound;

// If no key equals k, the value at k is the given one. If one does, no pair is added.
fn begins_at<K: Key, A: Argument<K>>(
    map: &mut BPlusTreeMap<K, u64, A>,
    k: K,
) -> Result<bool, InsertError<K, u64>>
    ensures begins { has K.cmp map.old k ≡ false → OnOk result (HasValue K.cmp map.new k 1) }
    ensures goes_on { has K.cmp map.old k ≡ true → result ≡ Ok false }
{
    map.upsert_with(k, 1, |count: &mut u64| *count = count.wrapping_add(1))
}

// The count at a key goes up by one, from 0 if the key is new. If the call fails, nothing has
// changed.
fn counts_at<K: Key, A: Argument<K>>(
    map: &mut BPlusTreeMap<K, u64, A>,
    k: K,
) -> Result<(), InsertError<K, u64>>
    ensures sum { OnOk result (map.new ≡ counted_on K.cmp map.old k) }
    ensures failed { IfErr result (ReturnsPair (k, 0) map.old map.new) }
{
    let count = map.get_or_insert_with(k, || 0)?;
    *count = count.wrapping_add(1);
    Ok(())
}

// The count at a present key goes up. The call never fails, and makes no value.
fn counts_on<K: Key, A: Argument<K>>(map: &mut BPlusTreeMap<K, u64, A>, k: K)
    requires { has K.cmp map.old k ≡ true }
    ensures { map.new ≡ counted_on K.cmp map.old k }
{
    match map.get_or_insert_with(k, || unreachable!()) {
        Ok(count) => *count = count.wrapping_add(1),
        Err(_) => unreachable!(),
    }
}

// A new key does not fit into a map with the greatest number of pairs. The error is always `Full`.
fn counts_where_full<K: Key, A: Argument<K>>(map: &mut BPlusTreeMap<K, u64, A>, k: K) -> K
    requires full { length map.old ≡ 2 ^ 64 - 1 }
    requires new { has K.cmp map.old k ≡ false }
    ensures { result ≡ k }
{
    match map.get_or_insert_with(k, || 0) {
        Err(InsertError::Full(k, _)) => k,
        _ => unreachable!(),
    }
}

// A map with fewer pairs has room: the call fails only if an allocation fails.
fn counts_where_room<K: Key, A: Argument<K>>(
    map: &mut BPlusTreeMap<K, u64, A>,
    k: K,
) -> Result<u64, AllocError>
    requires { length map.old < 2 ^ 64 - 1 }
    ensures { has K.cmp map.old k ≡ true → IsOk result }
{
    match map.get_or_insert_with(k, || 0) {
        Ok(count) => Ok(*count),
        Err(InsertError::OutOfMemory(_key, _value)) => Err(AllocError),
        Err(InsertError::Full(_key, _value)) => unreachable!(),
    }
}

// All values become 0, and the keys stay.
fn clears_all_values<K: Key, A: Argument<K>>(map: &mut BPlusTreeMap<K, u64, A>)
    ensures { map.new ≡ each (λ pair. (pair.0, 0)) map.old }
{
    map.update_each(|_: &K, value: &mut u64| *value = 0);
}

// Updating a range without pairs changes nothing.
fn changes_nothing_between<K: Key, V: Drop, A: Argument<K>, F: FnMut(&K, &mut V)>(
    map: &mut BPlusTreeMap<K, V, A>,
    lo: &K,
    hi: &K,
    f: F,
)
    requires { F.IsAlwaysCallable f }
    ensures { between_keys K.cmp map.old lo.now hi.now ≡ [] → map.new ≡ map.old }
{
    map.update_range(Some(lo), Some(hi), f);
}

// The keys of a tree stay, whatever a closure makes of the values.
fn keeps_all_keys<S: NodeStore, F: FnMut(&S::K, &mut S::V)>(tree: &mut BPlusTree<S>, f: F)
    requires { F.IsAlwaysCallable f }
    ensures { keys_of tree.new.contents ≡ keys_of tree.old.contents }
{
    tree.update_each(f);
}

// The keys of a tree stay if the values from a key on are changed.
fn keeps_all_keys_from<S: NodeStore, F: FnMut(&S::K, &mut S::V)>(
    tree: &mut BPlusTree<S>,
    lo: &S::K,
    f: F,
)
    requires { F.IsAlwaysCallable f }
    ensures { keys_of tree.new.contents ≡ keys_of tree.old.contents }
{
    tree.update_range(Some(lo), None, f);
}

// The range from a key up to the key, with both ends included, has the pair of the key if there is
// one.
fn finds_itself<S: NodeStore>(tree: &BPlusTree<S>, k: &S::K) -> bool
    ensures { result ≡ has S.K.cmp tree.now.contents k.now }
{
    let mut pairs = tree.range_bounds(Bound::Included(k), Bound::Included(k));
    pairs.next().is_some()
}

// A range with a key as both excluded ends has no pair of a map.
fn has_no_pair_beside_itself<K: Key, V: Drop, A: Argument<K>>(
    map: &BPlusTreeMap<K, V, A>,
    k: &K,
) -> bool
    ensures { result ≡ true }
{
    let mut pairs = map.range_bounds(Bound::Excluded(k), Bound::Excluded(k));
    pairs.next().is_none()
}

// A range with a key as both excluded ends has no key of a set.
fn has_no_key_beside_itself<K: Key>(set: &BPlusTreeSet<K>, k: &K) -> bool
    ensures { result ≡ true }
{
    let mut keys = set.range_bounds(Bound::Excluded(k), Bound::Excluded(k));
    keys.next().is_none()
}

// A half-open range has as many pairs as are between its ends.
fn counts_the_pairs_in_a_range<K: Key, V: Drop, A: Argument<K>>(
    map: &BPlusTreeMap<K, V, A>,
    lo: K,
    hi: K,
) -> usize
    ensures { result ≡ length (between_keys K.cmp map.now lo hi) }
{
    map.range_within(lo..hi).len()
}

// A half-open range has as many keys of a set as are between its ends.
fn counts_the_keys_in_a_range<K: Key>(set: &BPlusTreeSet<K>, lo: K, hi: K) -> usize
    ensures { result ≡ length (held_between K.cmp set.now lo hi) }
{
    set.range_within(lo..hi).len()
}

// There is no cursor at the index past the end.
fn has_no_index_at_the_end<K: Key, V: Drop>(
    map: &BPlusTreeMap<K, V, Count>,
) -> Result<Option<(Cursor<K>, &V)>, AllocError>
    ensures { result ≡ Ok None }
{
    map.cursor_at(map.len())
}

// The value at an index, by a cursor. A clone of a number never fails.
fn reads_at_an_index(map: &BPlusTreeMap<u64, u64, Count>, i: usize) -> Option<u64>
    ensures { result ≡ option_map (λ pair. pair.1) (slice_get map.now i) }
{
    match map.cursor_at(i) {
        Ok(Some((_, value))) => Some(*value),
        Ok(None) => None,
        Err(_) => unreachable!(),
    }
}
