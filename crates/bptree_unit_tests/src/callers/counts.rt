//! Callers of the count of keys.
ghost use Rattle.std.specs.Prelude.{◌≡◌, ◌<◌, ◌≤◌, ◌+◌, ◌-◌, ◌^◌, ◌∷◌, [], Some, None, true, length, IfOk, IfErr, IfSome};
ghost use Rattle.std.specs.List.{AllZip};
ghost use Rattle.std.specs.List.Sorted.{IsStrictlySortedBy};
ghost use Rattle.bptree_arguments.specs.Ranks.{IsSlotIn};
ghost use Rattle.bptree_keys.specs.Pieces.{ArePieces};

use bptree_arguments::argument::{Argument, RankArgument, SearchArgument};
use bptree_arguments::count::Count;
use bptree_keys::key::Key;
use std::alloc::AllocError;

// The summary of a leaf is its number of keys, and 0 if the leaf is empty.
fn counts_a_leaf<K: Key>(keys: &[K]) -> Result<usize, AllocError>
    ensures { IfOk result (λ n. (n ≡ length keys.now) × (keys.now ≡ [] → n ≡ 0)) }
{
    let count = <Count as Argument<K>>::from_leaf(keys)?;
    Ok(count.count())
}

// No call of a count fails.
fn counts_exactly<K: Key>(
    k: &K,
    keys: &[K],
    query: usize,
    counts: &[Count],
) -> (bool, bool, bool, bool)
    requires few { length keys.now ≤ 64 }
    requires ascending { IsStrictlySortedBy K.cmp keys.now }
    ensures { result ≡ (true, true, true, true) }
{
    (
        <Count as Argument<K>>::from_leaf(keys).is_ok(),
        <Count as Argument<K>>::from_inner(keys, counts).is_ok(),
        <Count as SearchArgument<K>>::locate_in_leaf(query, keys).is_ok(),
        <Count as RankArgument<K>>::fold_inner(k, 0, counts).is_ok(),
    )
}

fn counts_nothing() -> usize
    ensures { result ≡ 0 }
{
    Count::default().count()
}

// The counts of two children are added, saturating at the greatest number. The separators are not
// counted.
fn adds_two_counts<K: Key>(
    separators: &[K],
    left: Count,
    right: Count,
) -> Result<(usize, usize, usize), AllocError>
    ensures { IfOk result (λ counts. (counts.0 + counts.1 ≤ 2 ^ 64 - 1 → counts.2 ≡ counts.0 + counts.1) × (2 ^ 64 ≤ counts.0 + counts.1 → counts.2 ≡ 2 ^ 64 - 1)) }
{
    let both = <Count as Argument<K>>::from_inner(separators, &[left, right])?;
    Ok((left.count(), right.count(), both.count()))
}

// The index that a count finds is one of the keys, in whatever order the keys are.
fn finds_an_index_of_any_keys(keys: &[u64], query: usize) -> Option<usize>
    requires few { length keys.now ≤ 64 }
    ensures { IfSome result (λ i. i < length keys.now) }
{
    match <Count as SearchArgument<u64>>::locate_in_leaf(query, keys) {
        Ok(found) => found,
        Err(_) => unreachable!(),
    }
}

// An index of a leaf selects the slot with that number, including the last one. An index past the
// end selects `None`.
fn finds_the_index<K: Key>(query: usize, keys: &[K]) -> Result<Option<usize>, AllocError>
    requires few { length keys.now ≤ 64 }
    requires ascending { IsStrictlySortedBy K.cmp keys.now }
    ensures { IfOk result (λ index. (query < length keys.now → index ≡ Some query) × (length keys.now ≤ query → index ≡ None)) }
{
    <Count as SearchArgument<K>>::locate_in_leaf(query, keys)
}

// An index below a node of two leaves selects the child that has it, and the index in that child.
fn goes_to_the_child<K: Key>(
    query: usize,
    left: &[K],
    separators: &[K],
    right: &[K],
    counts: &[Count],
) -> Result<Option<(usize, usize)>, AllocError>
    requires pieces { ArePieces K.cmp (left.now ∷ right.now ∷ []) }
    requires counts { AllZip (λ b keys. b.0 ≡ length keys) counts.now (left.now ∷ right.now ∷ []) }
    requires inside { query < length left.now + length right.now }
    ensures first { query < length left.now → IfOk result (λ child. child ≡ Some (0, query)) }
    ensures second { length left.now ≤ query → IfOk result (λ child. child ≡ Some (1, query - length left.now)) }
{
    match <Count as SearchArgument<K>>::locate_in_inner(query, separators, counts)? {
        None => Ok(None),
        Some((child, rest)) => Ok(Some((child, rest))),
    }
}

// The rank begins at 0, and adds the counts of the children before, saturating at the greatest
// number.
fn takes_in_two_counts<K: Key>(
    k: &K,
    left: Count,
    right: Count,
) -> Result<(usize, usize, usize), AllocError>
    ensures { IfOk result (λ ranks. (ranks.0 + ranks.1 ≤ 2 ^ 64 - 1 → ranks.2 ≡ ranks.0 + ranks.1) × (2 ^ 64 ≤ ranks.0 + ranks.1 → ranks.2 ≡ 2 ^ 64 - 1)) }
{
    let start = <Count as RankArgument<K>>::initial_value();
    let rank = <Count as RankArgument<K>>::fold_inner(k, start, &[left, right])?;
    Ok((left.count(), right.count(), rank))
}

// The slot in the leaf is added to the rank, whether or not the key is there: `Ok` stays `Ok`, and
// `Err` stays `Err`.
fn adds_the_index<K: Key>(
    k: &K,
    rank: usize,
    slot: Result<usize, usize>,
    keys: &[K],
) -> Result<Result<usize, usize>, AllocError>
    requires few { length keys.now ≤ 64 }
    requires slot { IsSlotIn keys.now slot }
    requires fits { rank + 64 < 2 ^ 64 }
    ensures present { IfOk slot (λ i. IfOk result (λ outcome. outcome ≡ Ok (rank + i))) }
    ensures absent { IfErr slot (λ i. IfOk result (λ outcome. outcome ≡ Err (rank + i))) }
{
    <Count as RankArgument<K>>::fold_leaf(k, rank, slot, keys)
}
