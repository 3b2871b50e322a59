//! Callers of maps.
ghost use Rattle.std.specs.Prelude.{◌≡◌, ◌<◌, ◌≤◌, ◌-◌, ◌^◌, ◌∷◌, ◌↔◌, [], length, min, true, false, slice_get, remove, IfOk, IfErr, OnErr, OnOk, IfSome, IsOk, IsTrue, MatchOption, MatchResult, Some, None, Ok};
ghost use Rattle.std.specs.declared.cmp.Ordering.TheVariants.{Equal, Greater};
ghost use Rattle.std.specs.Map.{keys_of, values_of};
ghost use Rattle.std.specs.Map.Iter.{deref_pair};
ghost use Rattle.std.specs.Option.{option_copied, option_map};
ghost use Rattle.std.specs.Ordering.{is_lt};
ghost use Rattle.bptree_arguments.specs.CountLaws.{count_below};
ghost use Rattle.bptree_arguments.specs.Visits.{returned};
ghost use Rattle.bptree_propagation.specs.Borrowing.{written};
ghost use Rattle.bptree_keys.specs.Contents.{IsAscending, has, value as value_of, put, del, gather, below, last_member};
ghost use Rattle.bptree_keys.specs.Ranges.{between};
ghost use Rattle.bptree_keys.specs.Keys.{AllInfallible};
ghost use Rattle.bptree_nodes.specs.Leaf.{set_value_at};
ghost use Rattle.bptree_tree.specs.Changes.{PopsFirst, PopsLast, RemovesEntry};
ghost use Rattle.bptree_tree.specs.Cursor.{cursor_key};
ghost use Rattle.bptree_tree.specs.Entries.{entry};
ghost use Rattle.bptree_map.specs.Gathering.{AreFewFor};
ghost use Rattle.bptree_tree.specs.Selected.{SelectsNone};
ghost use Rattle.bptree_contract_tests.specs.Words.{FindsOne, IfFound, IsOneOf, BorrowsAt, BorrowsEnds, PopsFirstOfTwo, PopsLastOfTwo, ShowsEndsOfTwo, IsOn, TakesMiddleOfThree, WritesSome, reported_value, between_keys, pairs_upto_key};

use bptree_arguments::argument::{Argument, CloneArgument, RankArgument, SearchArgument};
use bptree_arguments::count::Count;
use bptree_arguments::visit::{DescendError, DescendVisit};
use bptree_keys::key::Key;
use bptree_map::map::{BPlusTreeMap, IntoIter, law_of_from_iter};
use bptree_stores::node_store_vec::NodeStoreVec;
use bptree_tree::{BPlusTree, Cursor, InsertError, SelectError};
use std::alloc::{AllocError, Global};

// A new map has no pairs, whichever constructor makes it.
fn starts_empty<K: Key, V: Drop, A: Argument<K>>(
    alloc: Global,
) -> Result<BPlusTreeMap<K, V, A>, AllocError>
    ensures { IfOk result (λ map. length map ≡ 0) }
{
    BPlusTreeMap::new(alloc)
}

fn starts_empty_by_default<K: Key, V: Drop, A: Argument<K>>(
    alloc: Global,
) -> Result<BPlusTreeMap<K, V, A>, AllocError>
    ensures { IfOk result (λ map. length map ≡ 0) }
{
    BPlusTreeMap::default(alloc)
}

// A map reports its number of pairs, whose keys ascend. An empty map reports that it is empty, and
// finds no key.
fn says_that_it_is_empty<K: Key, V: Drop, A: Argument<K>>(
    map: &BPlusTreeMap<K, V, A>,
    k: &K,
) -> (bool, usize, bool)
    ensures len { IsAscending K.cmp map.now × (length map.now ≡ result.1) }
    ensures none { length map.now ≡ 0 → result ≡ (true, 0, false) }
{
    (map.is_empty(), map.len(), map.get(k).is_some())
}

// A look-up makes at most seven comparisons on each of at most 16 levels, and two for the cached
// leaf.
fn counts_a_look_up<'a, K: Key, V: Drop, A: Argument<K>>(
    map: &'a BPlusTreeMap<K, V, A>,
    k: &K,
) -> (Option<&'a V>, usize)
    ensures value { option_copied result.0 ≡ value_of K.cmp map.now k.now }
    ensures count { AreFewFor (length map.now) result.1 }
    ensures most { result.1 ≤ 114 }
    ensures some { 0 < length map.now → 0 < result.1 }
{
    map.get_counted(k)
}

// A map of pairs in any order has the last pair of each key.
fn gathers<K: Key, V: Drop, A: Argument<K>>(
    alloc: Global,
    pairs: Vec<(K, V)>,
) -> Result<BPlusTreeMap<K, V, A>, AllocError>
    ensures { IfOk result (λ map. map ≡ gather K.cmp pairs.items) }
{
    BPlusTreeMap::from_iter(alloc, pairs)
}

// A map that is made of another map's pairs is equal to it.
fn is_the_same_again<K: Key, V: Drop, A: Argument<K>>(
    alloc: Global,
    map: BPlusTreeMap<K, V, A>,
) -> Result<BPlusTreeMap<K, V, A>, AllocError>
    ensures { IfOk result (λ again. again ≡ map) }
{
    law_of_from_iter::<K, V>();
    BPlusTreeMap::from_iter(alloc, map)
}

// Inserting a present key never fails: the value is replaced, and the old one is returned.
fn replaces<K: Key, V: Drop, A: Argument<K>>(map: &mut BPlusTreeMap<K, V, A>, k: K, v: V) -> V
    requires { has K.cmp map.old k ≡ true }
    ensures old { value_of K.cmp map.old k ≡ Some result }
    ensures new { map.new ≡ written K.cmp k map.old v }
{
    match map.insert(k, v) {
        Ok(Some(old)) => old,
        Ok(None) => unreachable!(),
        Err(_) => unreachable!(),
    }
}

// A map with fewer pairs than the greatest number is never full, and returns the pair only if an
// allocation fails. The map is then unchanged.
fn adds<K: Key, V: Drop, A: Argument<K>>(
    map: &mut BPlusTreeMap<K, V, A>,
    k: K,
    v: V,
) -> Option<(K, V)>
    requires { length map.old < 2 ^ 64 - 1 }
    ensures { MatchOption result (map.new ≡ put K.cmp map.old k v) (λ pair. (pair ≡ (k, v)) × (map.new ≡ map.old)) }
{
    match map.insert(k, v) {
        Ok(_) => None,
        Err(InsertError::OutOfMemory(k, v)) => Some((k, v)),
        Err(InsertError::Full(_, _)) => unreachable!(),
    }
}

// A map with the greatest number of pairs is full for a new key.
fn is_full<K: Key, V: Drop, A: Argument<K>>(map: &mut BPlusTreeMap<K, V, A>, k: K, v: V) -> (K, V)
    requires full { length map.old ≡ 2 ^ 64 - 1 }
    requires new { has K.cmp map.old k ≡ false }
    ensures pair { result ≡ (k, v) }
    ensures pairs { map.new ≡ map.old }
{
    match map.insert(k, v) {
        Err(InsertError::Full(k, v)) => (k, v),
        _ => unreachable!(),
    }
}

// A value is written if and only if the key is present, and nothing else changes.
fn writes<K: Key, V: Drop, A: Argument<K>>(map: &mut BPlusTreeMap<K, V, A>, k: &K, v: V) -> bool
    ensures there { result ≡ has K.cmp map.old k.now }
    ensures written { IsTrue result → map.new ≡ written K.cmp k.now map.old v }
    ensures absent { result ≡ false → map.new ≡ map.old }
{
    match map.get_mut(k) {
        Some(there) => {
            *there = v;
            true
        }
        None => false,
    }
}

// Removing a present key returns its value, or fails and changes nothing. Removing an absent key
// changes nothing and never fails. No removal fails if neither summaries nor clones of keys
// allocate.
fn removes<K: Key, V: Drop, A: Argument<K>>(
    map: &mut BPlusTreeMap<K, V, A>,
    k: &K,
) -> Result<Option<V>, AllocError>
    ensures removed { IfOk result (λ gone. (gone ≡ value_of K.cmp map.old k.now) × (map.new ≡ del K.cmp map.old k.now)) }
    ensures absent { has K.cmp map.old k.now ≡ false → result ≡ Ok None }
    ensures less { has K.cmp map.old k.now ≡ false → map.new ≡ del K.cmp map.old k.now }
    ensures failed { OnErr result (map.new ≡ map.old) }
    ensures infallible { A.needs_no_memory → AllInfallible K.is_infallible → IsOk result }
{
    map.remove(k)
}

// A map that was cleared has no pairs. A failure changes nothing.
fn clears<K: Key, V: Drop, A: Argument<K>>(
    map: &mut BPlusTreeMap<K, V, A>,
) -> Result<(), AllocError>
    ensures empty { OnOk result (length map.new ≡ 0) }
    ensures failed { OnErr result (map.new ≡ map.old) }
{
    map.clear()
}

// A clone has the keys of the original, and as many pairs.
fn has_the_same_keys<K: Key, V: Clone + Drop, A: CloneArgument<K>>(
    map: &BPlusTreeMap<K, V, A>,
) -> Result<BPlusTreeMap<K, V, A>, AllocError>
    ensures keys { IfOk result (λ copy. (k : K) → has K.cmp copy k ≡ has K.cmp map.now k) }
    ensures len { IfOk result (λ copy. length copy ≡ length map.now) }
{
    let copy = map.clone()?;
    Ok(copy)
}

// The pairs of an owned map come from both ends.
fn moves_two<K: Key, V: Drop, A: Argument<K>>(map: BPlusTreeMap<K, V, A>) -> ((K, V), (K, V), usize)
    requires { length map ≡ 2 }
    ensures { (map ≡ result.0 ∷ result.1 ∷ []) × (result.2 ≡ 0) }
{
    let mut pairs: IntoIter<K, V, A> = map.into_iter();
    match (pairs.next(), pairs.next_back()) {
        (Some(first), Some(last)) => (first, last, pairs.len()),
        _ => unreachable!(),
    }
}

// The first pair comes from the front, and the last from the back.
fn begins_with_the_first<K: Key, V: Drop, A: Argument<K>>(
    map: &BPlusTreeMap<K, V, A>,
) -> (Option<(&K, &V)>, Option<(&K, &V)>, usize)
    requires { 1 < length map.now }
    ensures front { option_map deref_pair result.0 ≡ slice_get map.now 0 }
    ensures back { option_map deref_pair result.1 ≡ last_member map.now }
    ensures left { result.2 ≡ length map.now - 2 }
{
    let mut pairs = map.iter();
    let first = pairs.next();
    let last = pairs.next_back();
    (first, last, pairs.len())
}

// The size hint of an iterator is exact.
fn says_how_many_are_left<K: Key, V: Drop, A: Argument<K>>(
    map: &BPlusTreeMap<K, V, A>,
) -> (usize, Option<usize>)
    ensures { result ≡ (length map.now, Some (length map.now)) }
{
    map.iter().size_hint()
}

// An iterator reports the number of pairs below a key, and returns the last of them from the back.
fn gives_the_last_below<'a, K: Key, V: Drop, A: Argument<K>>(
    map: &'a BPlusTreeMap<K, V, A>,
    hi: &K,
) -> (usize, Option<(&'a K, &'a V)>)
    ensures len { result.0 ≡ length (pairs_upto_key K.cmp map.now hi.now) }
    ensures last { BorrowsAt result.1 (pairs_upto_key K.cmp map.now hi.now) (result.0 - 1) }
{
    let mut pairs = map.range(None, Some(hi));
    let len = pairs.len();
    (len, pairs.next_back())
}

// The summary of all keys is their number if the argument is a count.
fn counts_all_keys(map: &BPlusTreeMap<u64, u64, Count>) -> usize
    ensures { result ≡ length map.now }
{
    map.root_argument().count()
}

// With a count the pair at an index is found, or `None` past the end. The call never fails.
fn finds_the_pair_at_an_index<K: Key, V: Drop>(
    map: &BPlusTreeMap<K, V, Count>,
    index: usize,
) -> Option<(&K, &V)>
    ensures { option_map deref_pair result ≡ slice_get map.now index }
{
    match map.get_by_argument(index) {
        Ok(found) => found,
        Err(_) => unreachable!(),
    }
}

// With a count a range has at most n pairs from an index on, or those that are left there. The call
// never fails.
fn counts_the_pairs_from_an_index<K: Key, V: Drop>(
    map: &BPlusTreeMap<K, V, Count>,
    index: usize,
    n: usize,
) -> usize
    ensures { result ≡ min n (length map.now - index) }
{
    match map.range_by_argument(index, n) {
        Ok(pairs) => pairs.len(),
        Err(_) => unreachable!(),
    }
}

// With a count the rank of a key is the number of smaller keys, and reports whether the key is
// present. The call never fails.
fn ranks_by_the_smaller_keys<K: Key, V: Drop>(
    map: &BPlusTreeMap<K, V, Count>,
    k: &K,
) -> (bool, usize)
    ensures { result ≡ (has K.cmp map.now k.now, count_below K.cmp k.now (keys_of map.now)) }
{
    match map.rank_by_argument(k) {
        Ok(Ok(rank)) => (true, rank),
        Ok(Err(rank)) => (false, rank),
        Err(_) => unreachable!(),
    }
}

// Removing the pair at an index of the map moves the pairs behind it up by one.
fn takes_the_pair_at_an_index(
    map: &mut BPlusTreeMap<u64, u64, Count>,
    index: usize,
) -> Result<(u64, u64), AllocError>
    requires { index < length map.old }
    ensures { MatchResult result (λ pair. (slice_get map.old index ≡ Some pair) × (map.new ≡ remove map.old index)) (λ _. map.new ≡ map.old) }
{
    match map.remove_by_argument(index)? {
        Some(pair) => Ok(pair),
        None => unreachable!(),
    }
}

// A value is written at an index that the query selects, and no key changes. If the call fails,
// nothing changes. It fails only with `NotFound` if the argument allocates nothing.
fn writes_by_a_query<K: Key, V: Drop, A: SearchArgument<K>>(
    map: &mut BPlusTreeMap<K, V, A>,
    query: A::Query,
    v: V,
) -> Result<(), SelectError>
    ensures written { OnOk result (WritesSome A.selects query v map.old map.new) }
    ensures failed { OnErr result (map.new ≡ map.old) }
    ensures absent { IfErr result (SelectsNone A.selects query map.old) }
    ensures infallible { A.needs_no_memory → IfErr result (λ error. error ≡ SelectError.NotFound) }
{
    match map.get_mut_by_argument(query) {
        Ok(there) => {
            *there = v;
            Ok(())
        }
        Err(error) => Err(error),
    }
}

// A visit returns a result that the visitor allows.
fn is_visited<K: Key, V: Drop, A: Argument<K>, W: DescendVisit<K, V, A>>(
    map: &BPlusTreeMap<K, V, A>,
    visitor: W,
) -> Result<Option<W::Result>, DescendError>
    ensures { IfOk result (λ outcome. W.outcomes visitor map.now (returned outcome)) }
{
    map.descend_visit(visitor)
}

fn change<K: Key, V: Drop, A: Argument<K>>(
    tree: &mut BPlusTree<NodeStoreVec<K, V, A>>,
    k: K,
    v: V,
) -> bool
    ensures put { IsTrue result → tree.new.contents ≡ put K.cmp tree.old.contents k v }
    ensures failed { result ≡ false → tree.new.contents ≡ tree.old.contents }
{
    tree.insert(k, v).is_ok()
}

// A pair that is put into the tree of a map is in the map.
fn puts_into_its_tree<K: Key, V: Drop, A: Argument<K>>(
    map: &mut BPlusTreeMap<K, V, A>,
    k: K,
    v: V,
) -> bool
    ensures { IsTrue result → map.new ≡ put K.cmp map.old k v }
{
    change(map.tree_mut(), k, v)
}

// The first and the last of two pairs, by both names of the calls.
fn gives_both_ends<K: Key, V: Drop, A: Argument<K>>(
    map: &BPlusTreeMap<K, V, A>,
) -> (
    (Option<(&K, &V)>, Option<(&K, &V)>),
    (Option<(&K, &V)>, Option<(&K, &V)>),
)
    ensures ends { ShowsEndsOfTwo map.now result.0 }
    ensures named { ShowsEndsOfTwo map.now result.1 }
{
    (
        (map.first(), map.last()),
        (map.first_key_value(), map.last_key_value()),
    )
}

// With a count the summary of a range of keys is the number of pairs in the range.
fn counts_the_pairs_between<K: Key, V: Drop>(
    map: &BPlusTreeMap<K, V, Count>,
    lo: &K,
    hi: &K,
) -> Result<usize, AllocError>
    ensures { IfOk result (λ n. n ≡ length (between_keys K.cmp map.now lo.now hi.now)) }
{
    Ok(map.range_argument(Some(lo), Some(hi))?.count())
}

// With a count the summary of a range of indices is the number of pairs in the range.
fn counts_the_pairs_of_a_part<K: Key, V: Drop>(
    map: &BPlusTreeMap<K, V, Count>,
    from: usize,
    to: usize,
) -> Result<usize, AllocError>
    ensures { IfOk result (λ n. n ≡ min to (length map.now) - from) }
{
    Ok(map.part_argument(from, to)?.count())
}

// The summary of a part of an empty map is a summary of no keys, for every query.
fn summarizes_a_part_of_nothing<K: Key, V: Drop, A: SearchArgument<K>>(
    map: &BPlusTreeMap<K, V, A>,
    from: <A as SearchArgument<K>>::Query,
    to: <A as SearchArgument<K>>::Query,
) -> Result<A, AllocError>
    requires { map.now ≡ [] }
    ensures { IfOk result (λ a. A.is_summary a []) }
{
    map.part_argument(from, to)
}

// The length of a range of keys is the number of pairs in it, and the call never fails.
fn reports_how_many_are_between<K: Key, V: Drop>(
    map: &BPlusTreeMap<K, V, Count>,
    lo: &K,
    hi: &K,
) -> usize
    ensures { result ≡ length (between_keys K.cmp map.now lo.now hi.now) }
{
    map.range_len(Some(lo), Some(hi))
}

// A key is contained if and only if an equal key is present. Its value is found, or `None`.
fn finds_just_what_is_there<'a, K: Key, V: Drop, A: Argument<K>>(
    map: &'a BPlusTreeMap<K, V, A>,
    k: &K,
) -> (bool, Option<&'a V>)
    ensures contained { result.0 ≡ has K.cmp map.now k.now }
    ensures found { option_copied result.1 ≡ value_of K.cmp map.now k.now }
{
    (map.contains_key(k), map.get(k))
}

// A pair that is found has a key that equals the given one, and is one of the pairs. Its value is
// the one at the key.
#[tactic(auto, using(crate::proofs::EntryLemmas::found_value))]
fn finds_the_pair_of_a_key<'a, K: Key, V: Drop, A: Argument<K>>(
    map: &'a BPlusTreeMap<K, V, A>,
    k: &K,
) -> Option<(&'a K, &'a V)>
    ensures key { IfSome result (λ pair. K.cmp pair.0.now k.now ≡ Equal) }
    ensures value { option_map (λ pair. pair.1.now) result ≡ value_of K.cmp map.now k.now }
    ensures stored { IfSome result (λ pair. IsOneOf map.now (deref_pair pair)) }
{
    map.get_key_value(k)
}

// A lower bound is not below its key, and is at an equal key if there is one.
fn begins_at_its_key<'a, K: Key, V: Drop, A: Argument<K>>(
    map: &'a BPlusTreeMap<K, V, A>,
    k: &K,
) -> Result<Option<(Cursor<K>, &'a V)>, AllocError>
    ensures least { IfFound result (λ it. is_lt (K.cmp (cursor_key it.0) k.now) ≡ false) }
    ensures there { has K.cmp map.now k.now ≡ true → FindsOne result (IsOn K.cmp k.now) }
{
    map.recall();
    map.lower_bound(k)
}

// An upper bound is above its key.
fn finds_a_greater_key<K: Key, V: Drop, A: Argument<K>>(
    map: &BPlusTreeMap<K, V, A>,
    k: &K,
) -> Result<Option<Cursor<K>>, AllocError>
    ensures { IfOk result (λ found. IfSome found (λ c. K.cmp (cursor_key c) k.now ≡ Greater)) }
{
    match map.upper_bound(k)? {
        Some((cursor, _)) => Ok(Some(cursor)),
        None => Ok(None),
    }
}

// The first and the last item that were borrowed, and the number of items left.
type Ends<X> = (Option<X>, Option<X>, usize);

// The keys come in order from both ends, and so do the values.
fn gives_keys_and_values_at_both_ends<K: Key, V: Drop, A: Argument<K>>(
    map: &BPlusTreeMap<K, V, A>,
) -> (Ends<&K>, Ends<&V>)
    requires { 1 < length map.now }
    ensures keys { BorrowsEnds (keys_of map.now) result.0 }
    ensures values { BorrowsEnds (values_of map.now) result.1 }
{
    let (mut keys, mut values) = (map.keys(), map.values());
    (
        (keys.next(), keys.next_back(), keys.len()),
        (values.next(), values.next_back(), values.len()),
    )
}

// The keys of an owned map come in order from both ends.
fn moves_two_keys<K: Key, V: Drop, A: Argument<K>>(map: BPlusTreeMap<K, V, A>) -> (K, K, usize)
    requires { length (keys_of map) ≡ 2 }
    ensures { (keys_of map ≡ result.0 ∷ result.1 ∷ []) × (result.2 ≡ 0) }
{
    let mut keys = map.into_keys();
    match (keys.next(), keys.next_back()) {
        (Some(first), Some(last)) => (first, last, keys.len()),
        _ => unreachable!(),
    }
}

// The values of an owned map come in the order of their keys from both ends.
fn moves_two_values<K: Key, V: Drop, A: Argument<K>>(map: BPlusTreeMap<K, V, A>) -> (V, V, usize)
    requires { length (values_of map) ≡ 2 }
    ensures { (values_of map ≡ result.0 ∷ result.1 ∷ []) × (result.2 ≡ 0) }
{
    let mut values = map.into_values();
    match (values.next(), values.next_back()) {
        (Some(first), Some(last)) => (first, last, values.len()),
        _ => unreachable!(),
    }
}

// The pair at the index of a key is the pair of the key.
fn finds_a_key_at_its_index<'a, K: Key, V: Drop>(
    map: &'a BPlusTreeMap<K, V, Count>,
    k: &K,
) -> Option<(&'a K, &'a V)>
    ensures { option_map deref_pair result ≡ entry K.cmp map.now k.now }
{
    map.recall();
    match map.get_index_of(k) {
        Some(index) => map.get_index(index),
        None => None,
    }
}

// A value is written at each index of the map, and nothing else changes.
fn writes_at_its_index<K: Key, V: Drop>(
    map: &mut BPlusTreeMap<K, V, Count>,
    index: usize,
    v: V,
) -> bool
    ensures there { IsTrue result ↔ (index < length map.old) }
    ensures written { IsTrue result → map.new ≡ set_value_at map.old index v }
    ensures past { result ≡ false → map.new ≡ map.old }
{
    match map.get_index_mut(index) {
        Ok(there) => {
            *there = v;
            true
        }
        Err(_) => false,
    }
}

// Removing the second of three pairs leaves the other two. An index past the end changes nothing
// and never fails.
fn takes_the_pair_at<K: Key, V: Drop>(
    map: &mut BPlusTreeMap<K, V, Count>,
    index: usize,
) -> Result<Option<(K, V)>, AllocError>
    ensures taken { index ≡ 1 → IfOk result (TakesMiddleOfThree map.old map.new) }
    ensures past { length map.old ≤ index → result ≡ Ok None }
    ensures stays { length map.old ≤ index → map.new ≡ map.old }
    ensures failed { OnErr result (map.new ≡ map.old) }
{
    map.remove_index(index)
}

// Removing a pair by its key returns the stored key, which equals the given one. The removal never
// fails if nothing allocates.
fn takes_the_pair_of_a_key<K: Key, V: Drop, A: Argument<K>>(
    map: &mut BPlusTreeMap<K, V, A>,
    k: &K,
) -> Result<Option<(K, V)>, AllocError>
    ensures key { IfOk result (λ gone. IfSome gone (λ pair. K.cmp pair.0 k.now ≡ Equal)) }
    ensures value { IfOk result (λ gone. reported_value gone ≡ value_of K.cmp map.old k.now) }
    ensures stored { IfOk result (λ gone. IfSome gone (IsOneOf map.old)) }
    ensures others { IfOk result (RemovesEntry K.cmp k.now map.old map.new) }
    ensures failed { OnErr result (map.new ≡ map.old) }
    ensures infallible { A.needs_no_memory → AllInfallible K.is_infallible → IsOk result }
{
    map.remove_entry(k)
}

// The first of two pairs is returned as it was stored, and so is the last.
fn pops_the_first_of_two<K: Key, V: Drop, A: Argument<K>>(
    map: &mut BPlusTreeMap<K, V, A>,
) -> Result<Option<(K, V)>, AllocError>
    ensures popped { IfOk result (PopsFirstOfTwo map.old map.new) }
    ensures ends { IfOk result (PopsFirst map.old map.new) }
    ensures others { 0 < length map.old → FindsOne result (λ it. map.old ≡ it ∷ map.new) }
    ensures failed { OnErr result (map.new ≡ map.old) }
{
    map.pop_first()
}

fn pops_the_last_of_two<K: Key, V: Drop, A: Argument<K>>(
    map: &mut BPlusTreeMap<K, V, A>,
) -> Result<Option<(K, V)>, AllocError>
    ensures popped { IfOk result (PopsLastOfTwo map.old map.new) }
    ensures ends { IfOk result (PopsLast map.old map.new) }
    ensures failed { OnErr result (map.new ≡ map.old) }
{
    map.pop_last()
}

// Removing at either end of an empty map returns `None`, and never fails.
fn pops_none_at_either_end<K: Key, V: Drop, A: Argument<K>>(
    map: &mut BPlusTreeMap<K, V, A>,
) -> (
    Result<Option<(K, V)>, AllocError>,
    Result<Option<(K, V)>, AllocError>,
)
    requires { map.old ≡ [] }
    ensures none { result ≡ (Ok None, Ok None) }
    ensures pairs { map.new ≡ [] }
{
    let first = map.pop_first();
    (first, map.pop_last())
}
