//! Callers that compare maps and sets.
ghost use Rattle.std.specs.Prelude.{◌≡◌, ◌≢◌, true, false, length, Some};
ghost use Rattle.std.specs.declared.cmp.Ordering.TheVariants.{Equal};

use bptree_arguments::argument::Argument;
use bptree_keys::key::Key;
use bptree_map::map::BPlusTreeMap;
use bptree_set::set::BPlusTreeSet;
use std::cmp::Ordering;

// A map equals itself.
fn equals_itself<K: Key, V: Eq + Drop, A: Argument<K>>(map: &BPlusTreeMap<K, V, A>) -> bool
    ensures { result ≡ true }
{
    *map == *map
}

// A set equals no set with more keys or fewer.
fn equals_one_as_long<K: Key>(set: &BPlusTreeSet<K>, other: &BPlusTreeSet<K>) -> bool
    ensures { result ≡ true → length set.now ≡ length other.now }
{
    *set == *other
}

// A map compares as equal with itself.
fn compares_with_itself<K: Key, V: Ord + Drop, A: Argument<K>>(
    map: &BPlusTreeMap<K, V, A>,
) -> Ordering
    ensures { result ≡ Equal }
{
    map.cmp(map)
}

// A set compares as equal with itself.
fn compares_with_its_keys<K: Key>(set: &BPlusTreeSet<K>) -> Ordering
    ensures { result ≡ Equal }
{
    set.cmp(set)
}
