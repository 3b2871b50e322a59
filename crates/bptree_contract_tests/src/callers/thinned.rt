//! Callers that keep some pairs or keys, or remove those between two keys, and those that load
//! ascending pairs.
ghost use Rattle.std.specs.Prelude.{◌≡◌, [], length, Ok, Some, IfErr, MatchResult, OnErr, OnOk};
ghost use Rattle.std.specs.Ordering.{nat_cmp};
ghost use Rattle.bptree_contract_tests.specs.Thinned.{halves_left, without_zero, FailsWith, LosesNone};
ghost use Rattle.bptree_keys.specs.Contents.{has, IsAscending};
ghost use Rattle.bptree_keys.specs.Keys.{AllInfallible};
ghost use Rattle.bptree_keys.specs.Ranges.{between};
ghost use Rattle.bptree_map.specs.Keys.{holds, keys_between};
ghost use Rattle.bptree_contract_tests.specs.Words.{AgreesOn, between_keys};

use bptree_arguments::argument::Argument;
use bptree_keys::key::Key;
use bptree_map::map::{BPlusTreeMap, RetainError};
use bptree_set::set::BPlusTreeSet;
use bptree_stores::node_stores::NodeStore;
use bptree_tree::BPlusTree;
use std::alloc::AllocError;

// Removing a range leaves no pair between its two keys, and does not change the second key. If the
// range is empty, the call never fails. A failure changes nothing.
fn empties_a_part_of_a_tree<S: NodeStore>(
    tree: &mut BPlusTree<S>,
    lo: &S::K,
    hi: &S::K,
) -> Result<usize, AllocError>
    ensures between { OnOk result (between_keys S.K.cmp tree.new.contents lo.now hi.now ≡ []) }
    ensures end { OnOk result (AgreesOn S.K.cmp tree.old.contents tree.new.contents hi.now) }
    ensures none { between_keys S.K.cmp tree.old.contents lo.now hi.now ≡ [] → (result ≡ Ok 0) × (tree.new.contents ≡ tree.old.contents) }
    ensures unchanged { OnErr result (tree.new.contents ≡ tree.old.contents) }
{
    tree.remove_range(Some(lo), Some(hi))
}

// Removing a range of a map leaves no pair in it. The other statements are those for a tree.
fn empties_a_part<K: Key, V: Drop, A: Argument<K>>(
    map: &mut BPlusTreeMap<K, V, A>,
    lo: &K,
    hi: &K,
) -> Result<usize, AllocError>
    ensures between { OnOk result (between_keys K.cmp map.new lo.now hi.now ≡ []) }
    ensures end { OnOk result (has K.cmp map.new hi.now ≡ has K.cmp map.old hi.now) }
    ensures none { between_keys K.cmp map.old lo.now hi.now ≡ [] → (result ≡ Ok 0) × (map.new ≡ map.old) }
    ensures unchanged { OnErr result (map.new ≡ map.old) }
{
    map.remove_range(Some(lo), Some(hi))
}

// Removing a range of a set leaves no key in it. The other statements are those for a tree.
fn empties_a_part_of_a_set<K: Key>(
    set: &mut BPlusTreeSet<K>,
    lo: &K,
    hi: &K,
) -> Result<usize, AllocError>
    ensures between { OnOk result (keys_between K.cmp set.new (Some lo.now) (Some hi.now) ≡ []) }
    ensures end { OnOk result (holds K.cmp set.new hi.now ≡ holds K.cmp set.old hi.now) }
    ensures none { keys_between K.cmp set.old (Some lo.now) (Some hi.now) ≡ [] → (result ≡ Ok 0) × (set.new ≡ set.old) }
    ensures unchanged { OnErr result (set.new ≡ set.old) }
{
    set.remove_range(Some(lo), Some(hi))
}

// A tree whose removals need no memory always loses the pairs of a range, all of them, and no others.
fn always_empties_a_part_of_a_tree<S: NodeStore>(
    tree: &mut BPlusTree<S>,
    lo: &S::K,
    hi: &S::K,
) -> usize
    requires { S.Argument.needs_no_memory × AllInfallible S.K.is_infallible }
    ensures between { between_keys S.K.cmp tree.new.contents lo.now hi.now ≡ [] }
    ensures end { AgreesOn S.K.cmp tree.old.contents tree.new.contents hi.now }
    ensures count { result ≡ length (between_keys S.K.cmp tree.old.contents lo.now hi.now) }
{
    tree.remove_range_infallible(Some(lo), Some(hi))
}

// So does a map whose keys are numbers and that keeps no summaries.
fn always_empties_a_part(map: &mut BPlusTreeMap<u64, u64, ()>, lo: &u64, hi: &u64) -> usize
    ensures between { between_keys nat_cmp map.new lo.now hi.now ≡ [] }
    ensures end { has nat_cmp map.new hi.now ≡ has nat_cmp map.old hi.now }
    ensures count { result ≡ length (between_keys nat_cmp map.old lo.now hi.now) }
{
    map.remove_range_infallible(Some(lo), Some(hi))
}

// So does a set of numbers.
fn always_empties_a_part_of_a_set(set: &mut BPlusTreeSet<u64>, lo: &u64, hi: &u64) -> usize
    ensures between { keys_between nat_cmp set.new (Some lo.now) (Some hi.now) ≡ [] }
    ensures end { holds nat_cmp set.new hi.now ≡ holds nat_cmp set.old hi.now }
    ensures count { result ≡ length (keys_between nat_cmp set.old (Some lo.now) (Some hi.now)) }
{
    set.remove_range_infallible(Some(lo), Some(hi))
}

// Ascending pairs become a tree or come back.
fn loads_a_tree_or_returns<S: NodeStore>(
    pairs: Vec<(S::K, S::V)>,
) -> Result<BPlusTree<S>, Vec<(S::K, S::V)>>
    requires { IsAscending S.K.cmp pairs.items }
    ensures { MatchResult result (λ tree. tree.contents ≡ pairs.items) (λ back. back.items ≡ pairs.items) }
{
    BPlusTree::from_ascending(pairs)
}

// So it is with a map.
fn loads_or_returns<K: Key, V: Drop, A: Argument<K>>(
    pairs: Vec<(K, V)>,
) -> Result<BPlusTreeMap<K, V, A>, Vec<(K, V)>>
    requires { IsAscending K.cmp pairs.items }
    ensures { MatchResult result (λ map. map ≡ pairs.items) (λ back. back.items ≡ pairs.items) }
{
    BPlusTreeMap::from_ascending(pairs)
}

// All values are halved, and the pairs whose values become 0 are removed. If that fails, no pair is
// lost: all are still in the map, or the halved ones are in the error.
fn halves<K: Key, A: Argument<K>>(
    map: &mut BPlusTreeMap<K, u64, A>,
) -> Result<(), RetainError<Vec<(K, u64)>>>
    ensures ok { OnOk result (map.new ≡ halves_left map.old) }
    ensures err { IfErr result (FailsWith (halves_left map.old) map.old map.new) }
{
    map.retain(|_: &K, value: &mut u64| {
        *value /= 2;
        *value != 0
    })
}

// So it is with a tree.
fn halves_in_a_tree<S: NodeStore<V = u64>>(
    tree: &mut BPlusTree<S>,
) -> Result<(), Option<Vec<(S::K, u64)>>>
    ensures ok { OnOk result (tree.new.contents ≡ halves_left tree.old.contents) }
    ensures err { IfErr result (LosesNone (halves_left tree.old.contents) tree.old.contents tree.new.contents) }
{
    tree.retain(|_: &S::K, value: &mut u64| {
        *value /= 2;
        *value != 0
    })
}

// A tree whose removals need no memory always keeps these pairs, and no others.
fn always_halves_in_a_tree<S: NodeStore<V = u64>>(tree: &mut BPlusTree<S>)
    requires { S.Argument.needs_no_memory × AllInfallible S.K.is_infallible }
    ensures { tree.new.contents ≡ halves_left tree.old.contents }
{
    tree.retain_infallible(|_: &S::K, value: &mut u64| {
        *value /= 2;
        *value != 0
    });
}

// So does a map whose keys are numbers and that keeps no summaries.
fn always_halves(map: &mut BPlusTreeMap<u64, u64, ()>)
    ensures { map.new ≡ halves_left map.old }
{
    map.retain_infallible(|_: &u64, value: &mut u64| {
        *value /= 2;
        *value != 0
    });
}

// All keys but 0 stay. If that fails, no other key is lost.
fn loses_zero(set: &mut BPlusTreeSet<u64>) -> Result<(), RetainError<Vec<u64>>>
    ensures ok { OnOk result (set.new ≡ without_zero set.old) }
    ensures err { IfErr result (FailsWith (without_zero set.old) set.old set.new) }
{
    set.retain(|key: &u64| *key != 0)
}
