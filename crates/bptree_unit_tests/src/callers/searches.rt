//! Callers of keys and of the searches among them.
ghost use Rattle.std.specs.Prelude.{◌≡◌, ◌≤◌, ◌∷◌, [], length, IfOk, IfErr};
ghost use Rattle.std.specs.declared.cmp.Ordering.TheVariants.{Less, Equal, Greater};
ghost use Rattle.std.specs.List.Sorted.{IsStrictlySortedBy};

use bptree_keys::compares::{
    Compares, SearchHint, count_upto_counted, locate_counted, locate_hinted_counted,
};
use bptree_keys::key::Key;
use std::alloc::AllocError;
use std::cmp::Ordering;

// A clone of a key is equal to the key.
fn compares_with_its_clone<K: Key>(key: &K) -> Result<Ordering, AllocError>
    ensures { IfOk result (λ order. order ≡ Equal) }
{
    let copy = key.clone()?;
    Ok(key.cmp(&copy))
}

// Two comparisons are counted as two, and each returns the order of the keys.
fn counts_two<K: Ord>(a: &K, b: &K) -> (Ordering, Ordering, usize)
    ensures order { (result.0 ≡ K.cmp a.now b.now) × (result.1 ≡ K.cmp b.now a.now) }
    ensures count { result.2 ≡ 2 }
{
    let mut compares = Compares::new();
    let first = compares.compare(a, b);
    let second = compares.compare(b, a);
    (first, second, compares.count())
}

// A search of ascending keys, in a leaf below any number of levels: the slot of the key or the
// number of smaller keys, after at most seven comparisons.
fn finds_in_seven<K: Ord>(keys: &[K], key: &K, levels: usize) -> (Result<usize, usize>, usize)
    requires few { length keys.now ≤ 64 }
    requires ascending { IsStrictlySortedBy K.cmp keys.now }
    ensures no_key { keys.now ≡ [] → result.0 ≡ Err 0 }
    ensures first { (x y : K) → keys.now ≡ x ∷ y ∷ [] → K.cmp x key.now ≡ Equal → result.0 ≡ Ok 0 }
    ensures second { (x y : K) → keys.now ≡ x ∷ y ∷ [] → K.cmp x key.now ≡ Less → K.cmp y key.now ≡ Equal → result.0 ≡ Ok 1 }
    ensures between { (x y : K) → keys.now ≡ x ∷ y ∷ [] → K.cmp x key.now ≡ Less → K.cmp y key.now ≡ Greater → result.0 ≡ Err 1 }
    ensures past { (x y : K) → keys.now ≡ x ∷ y ∷ [] → K.cmp x key.now ≡ Less → K.cmp y key.now ≡ Less → result.0 ≡ Err 2 }
    ensures count { result.1 ≤ 7 }
{
    let mut compares = Compares::new();
    let index = locate_hinted_counted(keys, key, SearchHint::below(levels), &mut compares);
    (index, compares.count())
}

// A search that expects the key behind all others returns the same slot if the key is there, and if
// it is not.
fn finds_from_the_end<K: Ord>(keys: &[K], key: &K) -> (Result<usize, usize>, usize)
    requires few { length keys.now ≤ 64 }
    requires ascending { IsStrictlySortedBy K.cmp keys.now }
    ensures past { (x y : K) → keys.now ≡ x ∷ y ∷ [] → K.cmp x key.now ≡ Less → K.cmp y key.now ≡ Less → result.0 ≡ Err 2 }
    ensures first { (x y : K) → keys.now ≡ x ∷ y ∷ [] → K.cmp x key.now ≡ Equal → result.0 ≡ Ok 0 }
    ensures count { result.1 ≤ 7 }
{
    let mut compares = Compares::new();
    let index = locate_hinted_counted(keys, key, SearchHint::Last, &mut compares);
    (index, compares.count())
}

// In whatever order the keys are, the result is a slot among them or the end.
fn stays_among_the_keys<K: Key>(keys: &[K], key: &K) -> (usize, Result<usize, usize>)
    requires { length keys.now ≤ 64 }
    ensures child { result.0 ≤ length keys.now }
    ensures there { IfOk result.1 (λ index. index ≤ length keys.now) }
    ensures absent { IfErr result.1 (λ index. index ≤ length keys.now) }
{
    let mut compares = Compares::new();
    let child = count_upto_counted(keys, key, &mut compares);
    (child, locate_counted(keys, key, &mut compares))
}

// The child for a key is behind an equal separator, or else behind the smaller separators.
fn goes_behind_an_equal_key<K: Key>(keys: &[K], key: &K) -> (usize, usize)
    requires few { length keys.now ≤ 64 }
    requires ascending { IsStrictlySortedBy K.cmp keys.now }
    ensures first { (x y : K) → keys.now ≡ x ∷ y ∷ [] → K.cmp x key.now ≡ Greater → K.cmp y key.now ≡ Greater → result.0 ≡ 0 }
    ensures equal { (x y : K) → keys.now ≡ x ∷ y ∷ [] → K.cmp x key.now ≡ Equal → K.cmp y key.now ≡ Greater → result.0 ≡ 1 }
    ensures last { (x y : K) → keys.now ≡ x ∷ y ∷ [] → K.cmp x key.now ≡ Less → K.cmp y key.now ≡ Equal → result.0 ≡ 2 }
    ensures count { result.1 ≤ 7 }
{
    let mut compares = Compares::new();
    let child = count_upto_counted(keys, key, &mut compares);
    (child, compares.count())
}
