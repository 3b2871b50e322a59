//! Callers of sets, of their iterators and of unions.
ghost use Rattle.std.specs.Prelude.{◌≡◌, ◌∷◌, ◌≤◌, ◌-◌, min, [], ◌||◌, ◌&&◌, length, not, true, false, slice_get, is_some, Contains, IfOk, IfSome, IsOkUnless, IsTrue, OnErr, OnOk, Ok, Some, None};
ghost use Rattle.std.specs.declared.cmp.Ordering.TheVariants.{Equal};
ghost use Rattle.std.specs.Map.Iter.{TakesFirst, TakesLast, deref};
ghost use Rattle.std.specs.Option.{option_copied};
ghost use Rattle.std.specs.Ordering.{is_eq};
ghost use Rattle.bptree_map.specs.Keys.{holds, gathered, keys_within, keys_without};
ghost use Rattle.bptree_set.specs.Symmetric.{symmetric};
ghost use Rattle.bptree_set.specs.TwoSets.{IsDifference, IsIntersection, IsSymmetricDifference};
ghost use Rattle.bptree_set.specs.Union.{union};
ghost use Rattle.bptree_propagation.specs.Failing.{OkIs};
ghost use Rattle.bptree_contract_tests.specs.Words.{AreEndsOfTwo, HoldsEither, BorrowsKeyAt, PopsFirstOfTwo, PopsLastOfTwo, held_between, left_within, left_without, union_of};

use bptree_keys::key::Key;
use bptree_set::set::{
    BPlusTreeSet, Difference, Intersection, IntoIter, Iter, SymmetricDifference, Union,
    laws_of_keys, laws_of_two_sets, laws_of_union,
};
use bptree_tree::InsertError;
use std::alloc::{AllocError, Global};

type Set<K> = BPlusTreeSet<K>;

// A clone, or an allocation failure.
type Cloned<T> = Result<T, AllocError>;

// A new set has no keys, whichever constructor makes it.
fn starts_empty<K: Key>(alloc: Global) -> Result<Set<K>, AllocError>
    ensures { IfOk result (λ set. set ≡ []) }
{
    BPlusTreeSet::new(alloc)
}

fn starts_empty_by_default<K: Key>(alloc: Global) -> Result<Set<K>, AllocError>
    ensures { IfOk result (λ set. set ≡ []) }
{
    BPlusTreeSet::default(alloc)
}

// A set reports its number of keys. An empty set reports that it is empty, and holds no key.
fn says_that_it_is_empty<K: Key>(set: &Set<K>, k: &K) -> (bool, usize, bool)
    ensures len { result.1 ≡ length set.now }
    ensures none { set.now ≡ [] → result ≡ (true, 0, false) }
{
    (set.is_empty(), set.len(), set.contains(k))
}

// A set of a vector's keys, and a set of no keys.
fn gathers<K: Key>(alloc: Global, keys: Vec<K>) -> Result<Set<K>, AllocError>
    ensures { IfOk result (λ set. set ≡ gathered K.cmp keys.items) }
{
    BPlusTreeSet::from_iter(alloc, keys)
}

// An insertion returns whether the key is new, and never fails for a present key. In a set with
// room it fails only if an allocation fails, and returns the key.
fn puts_in<K: Key>(set: &mut Set<K>, k: K) -> Result<bool, InsertError<K, ()>>
    ensures fresh { holds K.cmp set.old k ≡ false → IfOk result (λ is_new. is_new ≡ true) }
    ensures there { holds K.cmp set.old k ≡ true → result ≡ Ok false }
    ensures same { holds K.cmp set.old k ≡ true → set.new ≡ set.old }
    ensures back { length set.old ≡ 2 → IsOkUnless result (InsertError.OutOfMemory k tt) }
    ensures stays { OnErr result (set.new ≡ set.old) }
{
    set.insert(k)
}

// After an insertion the set holds the keys that equal the new one, and the keys that it held
// before.
fn holds_what_was_put_in<K: Key>(
    set: &mut Set<K>,
    k: K,
    other: &K,
) -> Result<bool, InsertError<K, ()>>
    ensures { OkIs result (is_eq (K.cmp k other.now) || holds K.cmp set.old other.now) }
{
    laws_of_keys::<K>();
    set.recall();
    set.insert(k)?;
    Ok(set.contains(other))
}

// A removal returns whether the key was present, and never fails for an absent key.
fn takes_out<K: Key>(set: &mut Set<K>, k: &K) -> Result<bool, AllocError>
    ensures there { holds K.cmp set.old k.now ≡ true → IfOk result (λ was. was ≡ true) }
    ensures absent { holds K.cmp set.old k.now ≡ false → result ≡ Ok false }
{
    set.remove(k)
}

fn lacks_what_was_taken_out<K: Key>(set: &mut Set<K>, k: &K, other: &K) -> Result<bool, AllocError>
    ensures { OkIs result (not (is_eq (K.cmp k.now other.now)) && holds K.cmp set.old other.now) }
{
    laws_of_keys::<K>();
    set.recall();
    set.remove(k)?;
    Ok(set.contains(other))
}

// A set that was cleared has no keys.
fn clears<K: Key>(set: &mut Set<K>) -> Result<(), AllocError>
    ensures { OnOk result (set.new ≡ []) }
{
    set.clear()
}

// The least and the greatest of two keys.
fn gives_both_ends<K: Key>(set: &Set<K>) -> (Option<&K>, Option<&K>)
    ensures { AreEndsOfTwo set.now (option_copied result.0) (option_copied result.1) }
{
    (set.first(), set.last())
}

// An iterator has the keys of the set in order, and reports their number.
fn starts_with_all<K: Key>(set: &Set<K>) -> (Iter<'_, K>, usize)
    ensures keys { result.0 ≡ set.now }
    ensures len { result.1 ≡ length set.now }
{
    let keys = set.iter();
    let len = keys.len();
    (keys, len)
}

// A range reports the number of keys between two keys, and begins with the first of them.
fn gives_the_first_between<'a, K: Key>(set: &'a Set<K>, lo: &K, hi: &K) -> (usize, Option<&'a K>)
    ensures len { result.0 ≡ length (held_between K.cmp set.now lo.now hi.now) }
    ensures first { BorrowsKeyAt result.1 (held_between K.cmp set.now lo.now hi.now) 0 }
{
    let mut keys = set.range(Some(lo), Some(hi));
    let len = keys.len();
    (len, keys.next())
}

// Each of two keys comes once, one from the front and the other from the back, and then `None`.
fn gives_two_from_both_ends<'a, K: Key>(keys: &mut Iter<'a, K>) -> (&'a K, &'a K, bool)
    requires { length keys.old ≡ 2 }
    ensures { (keys.old ≡ result.0.now ∷ result.1.now ∷ []) × (result.2 ≡ true) }
{
    match (keys.next(), keys.next_back(), keys.next()) {
        (Some(first), Some(last), None) => (first, last, keys.next_back().is_none()),
        _ => unreachable!(),
    }
}

// A step leaves one key fewer, and the size hint is exact.
fn counts_what_is_left<K: Key>(keys: &mut Iter<'_, K>) -> (usize, Option<usize>)
    requires { length keys.old ≡ 2 }
    ensures { result ≡ (1, Some 1) }
{
    keys.next();
    (*keys).size_hint()
}

// A clone has the same keys left, and never fails.
fn clones_what_is_left<'a, K: Key>(keys: &Iter<'a, K>) -> Cloned<Iter<'a, K>>
    ensures { result ≡ Ok keys.now }
{
    keys.clone()
}

// The keys of an owned set come from both ends.
fn moves_two<K: Key>(set: Set<K>) -> (K, K, usize)
    requires { length set ≡ 2 }
    ensures { (set ≡ result.0 ∷ result.1 ∷ []) × (result.2 ≡ 0) }
{
    let mut keys: IntoIter<K> = set.into_iter();
    match (keys.next(), keys.next_back()) {
        (Some(first), Some(last)) => (first, last, keys.len()),
        _ => unreachable!(),
    }
}

// A union has the keys of both sets in order, and each key of either set.
fn joins<'a, K: Key>(first: &'a Set<K>, second: &'a Set<K>) -> Union<'a, K>
    ensures keys { union K.cmp result.0 result.1 ≡ union K.cmp first.now second.now }
    ensures holds { HoldsEither K.cmp first.now second.now (union K.cmp result.0 result.1) }
{
    laws_of_union::<K>();
    first.union(second)
}

// A step returns the first key of the union.
fn gives_the_first_of_both<'a, K: Key>(keys: &mut Union<'a, K>) -> Option<&'a K>
    ensures { TakesFirst deref (union_of K.cmp keys.old) result (union_of K.cmp keys.new) }
{
    keys.next()
}

// The size hint of a union is the greater length and the sum of both.
fn counts_both<K: Key>(keys: &Union<'_, K>) -> (usize, Option<usize>)
    requires { (length keys.now.0 ≡ 2) × (length keys.now.1 ≡ 3) }
    ensures { result ≡ (3, Some 5) }
{
    keys.size_hint()
}

// A clone of a union has the same keys left, and never fails.
fn clones_a_union<'a, K: Key>(keys: &Union<'a, K>) -> Cloned<Union<'a, K>>
    ensures { result ≡ Ok keys.now }
{
    keys.clone()
}

// A difference begins with the first key that the first set alone holds.
fn gives_the_first_left<'a, K: Key>(first: &'a Set<K>, second: &'a Set<K>) -> Option<&'a K>
    ensures first { option_copied result ≡ slice_get (keys_without K.cmp first.now second.now) 0 }
    ensures alone { IfSome result (λ key. holds K.cmp second.now key.now ≡ false) }
{
    first.difference(second).next()
}

// The first key of an intersection is one of the first set's own.
fn gives_the_first_shared<'a, K: Key>(first: &'a Set<K>, second: &'a Set<K>) -> Option<&'a K>
    ensures first { option_copied result ≡ slice_get (keys_within K.cmp first.now second.now) 0 }
    ensures shared { IfSome result (λ key. IsTrue (holds K.cmp second.now key.now)) }
    ensures own { IfSome result (λ key. Contains first.now key.now) }
{
    first.intersection(second).next()
}

// Each key of the first set is in the intersection or in the difference.
fn parts<'a, K: Key>(
    first: &'a Set<K>,
    second: &'a Set<K>,
) -> (Difference<'a, K>, Intersection<'a, K>)
    ensures difference { IsDifference K.cmp first.now second.now (left_without K.cmp result.0) }
    ensures intersection { IsIntersection K.cmp first.now second.now (left_within K.cmp result.1) }
{
    laws_of_two_sets::<K>();
    (first.difference(second), first.intersection(second))
}

// A symmetric difference has the keys that only one of the two sets holds.
fn sets_apart<'a, K: Key>(first: &'a Set<K>, second: &'a Set<K>) -> SymmetricDifference<'a, K>
    ensures { IsSymmetricDifference K.cmp first.now second.now (symmetric K.cmp result.0 result.1) }
{
    laws_of_two_sets::<K>();
    first.recall();
    second.recall();
    first.symmetric_difference(second)
}

// The number of keys left is between the two bounds of the size hint, and there is an upper bound.
fn bounds_a_difference<K: Key>(keys: &Difference<'_, K>) -> (usize, usize)
    ensures lower { result.0 ≤ length (left_without K.cmp keys.now) }
    ensures upper { length (left_without K.cmp keys.now) ≤ result.1 }
{
    let (low, high) = keys.size_hint();
    (low, high.unwrap_or(0))
}

fn bounds_an_intersection<K: Key>(keys: &Intersection<'_, K>) -> usize
    ensures { length (left_within K.cmp keys.now) ≤ result }
{
    keys.size_hint().1.unwrap_or(0)
}

// The size hint of a difference: at least what the first side has more, and at most all that it
// has.
fn counts_a_difference<K: Key>(keys: &Difference<'_, K>) -> (usize, Option<usize>)
    requires { (length keys.now.0 ≡ 3) × (length keys.now.1 ≡ 2) }
    ensures { result ≡ (1, Some 3) }
{
    keys.size_hint()
}

// The size hint of a difference that has just begun.
fn counts_a_whole_difference<K: Key>(first: &Set<K>, second: &Set<K>) -> (usize, Option<usize>)
    ensures { result ≡ (length first.now - length second.now, Some (length first.now)) }
{
    first.difference(second).size_hint()
}

// The size hint of an intersection: at least 0, and at most the length of the shorter side.
fn counts_an_intersection<K: Key>(first: &Set<K>, second: &Set<K>) -> (usize, Option<usize>)
    ensures { result ≡ (0, Some (min (length first.now) (length second.now))) }
{
    first.intersection(second).size_hint()
}

// The size hint of a symmetric difference: what one side has more, and the sum of both.
fn counts_either<K: Key>(keys: &SymmetricDifference<'_, K>) -> (usize, Option<usize>)
    requires { (length keys.now.0 ≡ 2) × (length keys.now.1 ≡ 3) }
    ensures { result ≡ (1, Some 5) }
{
    keys.size_hint()
}

// A step returns the first key that only one side has.
fn gives_the_first_of_either<'a, K: Key>(keys: &mut SymmetricDifference<'a, K>) -> Option<&'a K>
    ensures { option_copied result ≡ slice_get (symmetric K.cmp keys.old.0 keys.old.1) 0 }
{
    keys.next()
}

// Clones have the same keys left, and never fail.
fn clones_a_difference<'a, K: Key>(keys: &Difference<'a, K>) -> Cloned<Difference<'a, K>>
    ensures { result ≡ Ok keys.now }
{
    keys.clone()
}

fn clones_an_intersection<'a, K: Key>(keys: &Intersection<'a, K>) -> Cloned<Intersection<'a, K>>
    ensures { result ≡ Ok keys.now }
{
    keys.clone()
}

fn clones_a_symmetric_difference<'a, K: Key>(
    keys: &SymmetricDifference<'a, K>,
) -> Cloned<SymmetricDifference<'a, K>>
    ensures { result ≡ Ok keys.now }
{
    keys.clone()
}

// A key is found if and only if the set holds an equal key, and the result is the set's own key.
fn finds_the_stored_key<'a, K: Key>(set: &'a Set<K>, k: &K) -> Option<&'a K>
    ensures there { is_some result ≡ holds K.cmp set.now k.now }
    ensures own { IfSome result (λ key. Contains set.now key.now) }
    ensures equal { IfSome result (λ key. K.cmp key.now k.now ≡ Equal) }
{
    set.get(k)
}

// A set with a key that another lacks is no subset of the other. Each set is a subset of itself.
fn reports_what_is_lacking<K: Key>(few: &Set<K>, many: &Set<K>, k: &K) -> (bool, bool, bool)
    ensures lacking { result.1 ≡ true → result.2 ≡ false → result.0 ≡ false }
    ensures none { many.now ≡ few.now → result.0 ≡ true }
{
    (few.is_subset(many), few.contains(k), many.contains(k))
}

// Every set is a superset of a set without keys.
fn has_all_of_none<K: Key>(set: &Set<K>, none: &Set<K>) -> bool
    requires { none.now ≡ [] }
    ensures { result ≡ true }
{
    set.is_superset(none)
}

// Two sets that share a key are not disjoint. Every set is disjoint from a set without keys.
fn reports_what_is_shared<K: Key>(first: &Set<K>, second: &Set<K>, k: &K) -> (bool, bool, bool)
    ensures shared { result.1 ≡ true → result.2 ≡ true → result.0 ≡ false }
    ensures none { second.now ≡ [] → result.0 ≡ true }
{
    (
        first.is_disjoint(second),
        first.contains(k),
        second.contains(k),
    )
}

// A test of whether a set holds a key compares at most seven keys on each of 16 levels, and two for
// the cached leaf.
fn counts_a_search<K: Key>(set: &Set<K>, k: &K) -> (bool, usize)
    ensures value { result.0 ≡ holds K.cmp set.now k.now }
    ensures most { result.1 ≤ 114 }
{
    set.contains_counted(k)
}

// The first of two keys is returned as it was put in, and so is the last.
fn pops_the_first_key_of_two<K: Key>(set: &mut Set<K>) -> Result<Option<K>, AllocError>
    ensures popped { IfOk result (PopsFirstOfTwo set.old set.new) }
    ensures ends { IfOk result (λ gone. TakesFirst (λ key. key) set.old gone set.new) }
    ensures failed { OnErr result (set.new ≡ set.old) }
{
    set.pop_first()
}

fn pops_the_last_key_of_two<K: Key>(set: &mut Set<K>) -> Result<Option<K>, AllocError>
    ensures popped { IfOk result (PopsLastOfTwo set.old set.new) }
    ensures ends { IfOk result (λ gone. TakesLast (λ key. key) set.old gone set.new) }
    ensures failed { OnErr result (set.new ≡ set.old) }
{
    set.pop_last()
}
