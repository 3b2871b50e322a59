//! Callers of calls for many keys at once.
ghost use Rattle.std.specs.Prelude.{◌≡◌, ◌∷◌, ◌<◌, ℕ, [], Some, true, false, OnErr, OnOk, length, slice_get, zip};
ghost use Rattle.std.specs.Map.{keys_of};
ghost use Rattle.std.specs.Map.Iter.{deref_pair};
ghost use Rattle.std.specs.Option.{option_copied, option_map};
ghost use Rattle.bptree_arguments.specs.CountLaws.{count_below};
ghost use Rattle.bptree_contract_tests.specs.Words.{KeepsOthers, PutsCloneOfLast};
ghost use Rattle.bptree_keys.specs.Contents.{del, has, value};
ghost use Rattle.bptree_map.specs.Keys.{holds};

use bptree_arguments::argument::Argument;
use bptree_arguments::count::Count;
use bptree_batches::many::copy_many;
use bptree_keys::key::Key;
use bptree_map::map::BPlusTreeMap;
use bptree_set::set::BPlusTreeSet;
use bptree_stores::node_stores::NodeStore;
use bptree_tree::{AppendError, BPlusTree};

// A key among others has the result of its own look-up, whichever keys are before and after it.
fn gets_among<'a, K: Key, V: Drop, A: Argument<K>>(
    map: &'a BPlusTreeMap<K, V, A>,
    keys: &[K],
    found: &mut [Option<&'a V>],
    at: usize,
) -> Option<&'a V>
    requires at { at < length keys.now }
    requires found { length found.old ≡ length keys.now }
    ensures { (k : K) → slice_get keys.now at ≡ Some k → option_copied result ≡ value K.cmp map.now k }
{
    map.get_many(keys, found);
    found[at]
}

// A key among others has a copy of its own value, in a tree over any store.
fn copies_among<S: NodeStore>(
    tree: &BPlusTree<S>,
    keys: &[S::K],
    values: &mut [S::V],
    found: &mut [bool],
    at: usize,
) -> Option<S::V>
where
    S::V: Copy,
    requires at { at < length keys.now }
    requires values { length values.old ≡ length keys.now }
    requires found { length found.old ≡ length keys.now }
    ensures { (k : S.K) → slice_get keys.now at ≡ Some k → result ≡ value S.K.cmp tree.now.contents k }
{
    copy_many(tree.nodes(), keys, values, found, true, false);
    if found[at] { Some(values[at]) } else { None }
}

// A key that is absent leaves its value as before.
fn keeps_value<S: NodeStore>(
    tree: &BPlusTree<S>,
    keys: &[S::K],
    values: &mut [S::V],
    found: &mut [bool],
    at: usize,
) -> bool
where
    S::V: Copy,
    requires at { at < length keys.now }
    requires values { length values.old ≡ length keys.now }
    requires found { length found.old ≡ length keys.now }
    ensures kept { (k : S.K) → slice_get keys.now at ≡ Some k → has S.K.cmp tree.now.contents k ≡ false → slice_get values.new at ≡ slice_get values.old at }
    ensures absent { (k : S.K) → slice_get keys.now at ≡ Some k → has S.K.cmp tree.now.contents k ≡ false → result ≡ false }
{
    copy_many(tree.nodes(), keys, values, found, true, false);
    found[at]
}

// Without keys nothing is written.
fn copies_none<S: NodeStore>(
    tree: &BPlusTree<S>,
    keys: &[S::K],
    values: &mut [S::V],
    found: &mut [bool],
)
where
    S::V: Copy,
    requires none { keys.now ≡ [] }
    requires values { values.old ≡ [] }
    requires found { found.old ≡ [] }
    ensures values { values.new ≡ [] }
    ensures found { found.new ≡ [] }
{
    copy_many(tree.nodes(), keys, values, found, true, false);
}

// A key is found among many if and only if `contains_key` finds it.
fn finds_where_it_is<K: Key, V: Drop, A: Argument<K>>(
    map: &BPlusTreeMap<K, V, A>,
    keys: &[K],
    found: &mut [bool],
    at: usize,
) -> bool
    requires at { at < length keys.now }
    requires found { length found.old ≡ length keys.now }
    ensures { result ≡ true }
{
    map.contains_many(keys, found);
    found[at] == map.contains_key(&keys[at])
}

// A key of a set is found among many if and only if `contains` finds it.
fn finds_key_where_it_is<K: Key>(
    set: &BPlusTreeSet<K>,
    keys: &[K],
    found: &mut [bool],
    at: usize,
) -> bool
    requires at { at < length keys.now }
    requires found { length found.old ≡ length keys.now }
    ensures { result ≡ true }
{
    set.contains_many(keys, found);
    found[at] == set.contains(&keys[at])
}

// The rank of a key among others is its own rank, whichever keys are before and after it.
fn ranks_among<K: Key, V: Drop>(
    map: &BPlusTreeMap<K, V, Count>,
    keys: &[K],
    ranks: &mut [usize],
    at: usize,
) -> usize
    requires at { at < length keys.now }
    requires ranks { length ranks.old ≡ length keys.now }
    ensures { (k : K) → slice_get keys.now at ≡ Some k → result ≡ count_below K.cmp k (keys_of map.now) }
{
    map.rank_many(keys, ranks);
    ranks[at]
}

// The pair at an index among others is the result of its own look-up.
fn selects_among<'a, K: Key, V: Drop>(
    map: &'a BPlusTreeMap<K, V, Count>,
    indexes: &[usize],
    found: &mut [Option<(&'a K, &'a V)>],
    at: usize,
) -> Option<(&'a K, &'a V)>
    requires at { at < length indexes.now }
    requires found { length found.old ≡ length indexes.now }
    ensures { (i : ℕ) → slice_get indexes.now at ≡ Some i → option_map deref_pair result ≡ slice_get map.now i }
{
    map.get_index_many(indexes, found);
    found[at]
}

// After the call the map has a clone of each key with the last value of that key, and other keys
// keep their values. If the call fails, the map is unchanged.
fn inserts_columns<K: Key, V: Copy + Drop, A: Argument<K>>(
    map: &mut BPlusTreeMap<K, V, A>,
    keys: &[K],
    values: &[V],
    old: &mut [V],
    found: &mut [bool],
) -> Result<(), AppendError>
    requires values { length values.now ≡ length keys.now }
    requires old { length old.old ≡ length keys.now }
    requires found { length found.old ≡ length keys.now }
    ensures last { OnOk result (PutsCloneOfLast K.cmp (λ v w. w ≡ v) (zip keys.now values.now) map.new) }
    ensures others { OnOk result (KeepsOthers K.cmp (zip keys.now values.now) map.old map.new) }
    ensures failed { OnErr result (map.new ≡ map.old) }
{
    map.recall();
    map.insert_many(keys, values, old, found)
}

// A batch of one key removes the key and returns its value. Otherwise nothing has changed, and the
// result says that the call stopped before the key, which is there.
fn removes_one<K: Key, V: Drop, A: Argument<K>>(
    map: &mut BPlusTreeMap<K, V, A>,
    keys: &[K],
    removed: &mut [Option<V>],
) -> bool
    ghost k: { K }
    requires keys { keys.now ≡ k ∷ [] }
    requires removed { length removed.old ≡ 1 }
    ensures gone { result ≡ true → map.new ≡ del K.cmp map.old k }
    ensures value { result ≡ true → removed.new ≡ value K.cmp map.old k ∷ [] }
    ensures stays { result ≡ false → map.new ≡ map.old }
    ensures there { result ≡ false → has K.cmp map.new k ≡ true }
{
    map.remove_many(keys, removed) == 1
}

// A batch of one key removes the key from a set, or stops before the key, which is then there.
fn removes_one_of_set<K: Key>(set: &mut BPlusTreeSet<K>, keys: &[K], removed: &mut [bool]) -> bool
    ghost k: { K }
    requires keys { keys.now ≡ k ∷ [] }
    requires removed { length removed.old ≡ 1 }
    ensures there { result ≡ false → holds K.cmp set.new k ≡ true }
{
    set.remove_many(keys, removed) == 1
}
