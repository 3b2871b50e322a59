//! Pairs whose keys do not descend, and the last pair of each run of pairs with equal keys.
ghost use Rattle.std.specs.Prelude.{◌≡◌, ◌+◌, ◌<◌, ◌≤◌, ◌++◌, List, ◌↔◌, IsTrue, false, length, take, drop, OnOk, OnErr};
ghost use Rattle.bptree_keys.specs.Contents.{IsAscending, load, gather};
ghost use Rattle.bptree_load_plan.specs.Loading.{IsInLoadOrder, LoadGivesLast, LoadKeepsLast, StayBefore, ReportsIfLast};

use bptree_keys::key::Key;
use std::alloc::AllocError;
use std::cmp::Ordering;

/// Returns whether no key is greater than the next one. Each key is compared with the next one, up
/// to the first key that is greater than the next.
///
/// O(n) for n pairs. It allocates nothing and cannot fail.
pub fn in_load_order<K: Key, V>(pairs: &[(K, V)]) -> bool
    ensures { IsTrue result ↔ IsInLoadOrder K.cmp pairs.now }
{
    let Some((first, mut rest)) = pairs.split_first() else {
        return true;
    };
    let mut last = first;
    while let Some((pair, tail)) = rest.split_first() {
        if last.0.cmp(&pair.0).is_gt() {
            return false;
        }
        last = pair;
        rest = tail;
    }
    true
}

// Returns whether no pair with an equal key directly follows the pair at the index `at`.
fn is_last_of_run<K: Key, V>(pairs: &[(K, V)], at: usize) -> bool
    requires { at < length pairs.now }
    ensures { ReportsIfLast K.cmp pairs.now at result }
{
    if at + 1 == pairs.len() {
        return true;
    }
    !pairs[at + 1].0.cmp(&pairs[at].0).is_eq()
}

// Returns how many pairs are before the first pair that a pair with an equal key directly follows.
fn kept_at_start<K: Key, V>(pairs: &[(K, V)]) -> usize
    ensures within { result ≤ length pairs.now }
    ensures stay { StayBefore K.cmp pairs.now result }
    ensures stops { result < length pairs.now → ReportsIfLast K.cmp pairs.now result false }
{
    let mut at = 0;
    while at < pairs.len() && is_last_of_run(pairs, at) {
        at += 1;
    }
    at
}

// Moves the item at the index `at` to the index `kept`, if the two differ.
fn move_down<T>(items: &mut Vec<T>, kept: usize, at: usize)
    requires { (kept ≤ at) × (at < length items.old.items) }
    ensures kept { take (kept + 1) items.new.items ≡ take kept items.old.items ++ take 1 (drop at items.old.items) }
    ensures rest { drop (at + 1) items.new.items ≡ drop (at + 1) items.old.items }
    ensures len { length items.new.items ≡ length items.old.items }
{
    if kept < at {
        items.swap(kept, at);
    }
}

/// Keeps the last pair of each run of pairs with equal keys, and drops the others. Each key is
/// compared with the next one, and the vector keeps its capacity.
///
/// O(n) for n pairs. It allocates nothing and cannot fail.
pub fn keep_last_of_each_run<K: Key, V: Drop>(pairs: &mut Vec<(K, V)>)
    requires { IsInLoadOrder K.cmp pairs.old.items }
    ensures items { pairs.new.items ≡ load K.cmp pairs.old.items }
    ensures order { IsAscending K.cmp pairs.new.items }
{
    let mut kept = kept_at_start(pairs.as_slice());
    let mut at = kept;
    while at < pairs.len() {
        if is_last_of_run(pairs.as_slice(), at) {
            move_down(pairs, kept, at);
            kept += 1;
        }
        at += 1;
    }
    pairs.truncate(kept);
}

// Compares two pairs by their keys.
fn by_key<K: Key, V>(pair: &(K, V), other: &(K, V)) -> Ordering
    ensures { result ≡ K.cmp pair.now.0 other.now.0 }
{
    pair.0.cmp(&other.0)
}

/// Sorts pairs by their keys with the standard library's stable sort, so that they are in load
/// order. Pairs with equal keys keep their relative order, so the last of them is the last of their
/// run.
///
/// The sort of more than 20 pairs allocates. If the allocation fails, the pairs are unchanged.
pub fn sort_for_load<K: Key, V: Drop>(pairs: &mut Vec<(K, V)>) -> Result<(), AllocError>
    ensures order { OnOk result (IsInLoadOrder K.cmp pairs.new.items) }
    ensures gather { OnOk result (load K.cmp pairs.new.items ≡ gather K.cmp pairs.old.items) }
    ensures err { OnErr result (pairs.new.items ≡ pairs.old.items) }
{
    pairs.sort_by(by_key)
}

/// Laws of `load`, which keeps the last pair of each run of pairs in load order. The kept pairs
/// ascend, and they equal `gather` of all pairs. The value at each key is the one of the last pair
/// with an equal key. Pairs that ascend are in load order, and all of them are kept.
pub fn laws_of_load<K: Key, V>()
    ensures order { (l : List (K × V)) → IsInLoadOrder K.cmp l → IsAscending K.cmp (load K.cmp l) }
    ensures gather { (l : List (K × V)) → IsInLoadOrder K.cmp l → load K.cmp l ≡ gather K.cmp l }
    ensures value { LoadGivesLast K V K.cmp }
    ensures ascending { (l : List (K × V)) → IsAscending K.cmp l → IsInLoadOrder K.cmp l }
    ensures same { (l : List (K × V)) → IsAscending K.cmp l → load K.cmp l ≡ l }
    ensures runs { LoadKeepsLast K V K.cmp }
{}
