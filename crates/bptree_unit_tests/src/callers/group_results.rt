//! Callers of the indices and of the ranks of keys in their groups.
ghost use Rattle.std.specs.Prelude.{◌≡◌, ◌<◌, ◌≤◌, ◌+◌, ◌-◌, ◌^◌, min, ◌∷◌, ◌++◌, [], Ok, Some, None, length, map, slice_get, take, IfOk, IfErr, IfSome, MatchOption, MatchResult, ◌&&◌};
ghost use Rattle.std.specs.declared.cmp.Ordering.TheVariants.{Equal};
ghost use Rattle.std.specs.Ordering.{is_eq, is_lt};
ghost use Rattle.std.specs.List.{AllZip, HoldsAt, filter};
ghost use Rattle.std.specs.List.Sorted.{IsStrictlySortedBy};
ghost use Rattle.bptree_arguments.specs.GroupResults.{IsInGroup};
ghost use Rattle.bptree_arguments.specs.Groups.{IsGroupSummary};
ghost use Rattle.bptree_arguments.specs.Ranks.{AllBelow, IsSlotOf};
ghost use Rattle.bptree_keys.specs.Pieces.{ArePieces};

use bptree_arguments::argument::{RankArgument, SearchArgument};
use bptree_arguments::group::{FromRef, GroupCount};
use bptree_keys::key::Key;
use std::alloc::AllocError;

// The key that is found is of the group, and the number of keys of the group before it is the index
// in the group. It is thus the item of the group's keys. Past the last key of the group the result
// is `None`.
fn finds_a_key_of_the_group<K: Key, G: FromRef<K> + Key>(
    group: G,
    index: usize,
    keys: &[K],
) -> Result<Option<usize>, AllocError>
    requires few { length keys.now ≤ 64 }
    requires ascending { IsStrictlySortedBy K.cmp keys.now }
    ensures within { IfOk result (λ found. IfSome found (λ i. i < length keys.now)) }
    ensures of_group { IfOk result (λ found. IfSome found (HoldsAt (λ x. G.cmp (G.group_of x) group ≡ Equal) keys.now)) }
    ensures before { IfOk result (λ found. IfSome found (λ i. length (filter (λ x. is_eq (G.cmp (G.group_of x) group)) (take i keys.now)) ≡ index)) }
    ensures past { length (filter (λ x. is_eq (G.cmp (G.group_of x) group)) keys.now) ≤ index → IfOk result (λ found. found ≡ None) }
    ensures item { IfOk result (λ found. MatchOption found (slice_get (filter (λ x. is_eq (G.cmp (G.group_of x) group)) keys.now) index ≡ None) (λ i. slice_get keys.now i ≡ slice_get (filter (λ x. is_eq (G.cmp (G.group_of x) group)) keys.now) index)) }
{
    let found = <GroupCount<G> as SearchArgument<K>>::locate_in_leaf((group, index), keys)?;
    Ok(found)
}

// Below a node of two leaves, the leaf to which the node leads has the item of the group's keys in
// both.
fn finds_the_item_below_a_node<K: Key, G: FromRef<K> + Key>(
    group: G,
    index: usize,
    left: &[K],
    separators: &[K],
    right: &[K],
    arguments: &[GroupCount<G>],
) -> Result<Option<usize>, AllocError>
    requires few { length left.now ≤ 64 }
    requires few_too { length right.now ≤ 64 }
    requires pieces { ArePieces K.cmp (left.now ∷ right.now ∷ []) }
    requires summaries { AllZip (λ a keys. IsGroupSummary G.cmp a (map G.group_of keys)) arguments.now (left.now ∷ right.now ∷ []) }
    ensures { IfOk result (λ found. MatchOption found (slice_get (filter (λ x. is_eq (G.cmp (G.group_of x) group)) (left.now ++ right.now)) index ≡ None) (λ i. slice_get (left.now ++ right.now) i ≡ slice_get (filter (λ x. is_eq (G.cmp (G.group_of x) group)) (left.now ++ right.now)) index)) }
{
    let query = (group, index);
    match <GroupCount<G> as SearchArgument<K>>::locate_in_inner(query, separators, arguments)? {
        None => Ok(None),
        Some((child, rest)) => {
            if child == 0 {
                let found = <GroupCount<G> as SearchArgument<K>>::locate_in_leaf(rest, left)?;
                return Ok(found);
            }
            match <GroupCount<G> as SearchArgument<K>>::locate_in_leaf(rest, right)? {
                None => Ok(None),
                Some(i) => Ok(Some(left.len() + i)),
            }
        }
    }
}

// Before any key there is no rank. A rank that is carried over no child stays as it is.
fn ranks_nothing<K: Key, G: FromRef<K> + Key>() -> Option<(G, usize)>
    ensures { result ≡ None }
{
    <GroupCount<G> as RankArgument<K>>::initial_value()
}

fn carries_the_rank_over_no_child<K: Key, G: FromRef<K> + Key>(
    k: &K,
    rank: Option<(G, usize)>,
    arguments: &[GroupCount<G>],
) -> Result<Option<(G, usize)>, AllocError>
    requires { arguments.now ≡ [] }
    ensures { result ≡ Ok rank }
{
    <GroupCount<G> as RankArgument<K>>::fold_inner(k, rank, arguments)
}

// A rank that is carried over a child with the key's group alone grows by the child's size,
// saturating at the greatest number.
fn carries_the_rank_over_the_group<K: Key, G: FromRef<K> + Key>(
    k: &K,
    carried: usize,
    group: G,
    child: &G,
    size: usize,
    arguments: &[GroupCount<G>],
) -> Result<Option<(G, usize)>, AllocError>
    requires carries { G.cmp group (G.group_of k.now) ≡ Equal }
    requires same { G.cmp child.now (G.group_of k.now) ≡ Equal }
    requires child { arguments.now ≡ GroupCount.One child.now size ∷ [] }
    ensures { IfOk result (IsInGroup G.cmp (G.group_of k.now) (min (carried + size) (2 ^ 64 - 1))) }
{
    <GroupCount<G> as RankArgument<K>>::fold_inner(k, Some((group, carried)), arguments)
}

// The rank in one leaf is the key's group, and the number of smaller keys in it: `Ok` if the key is
// present, and `Err` if it is absent.
fn ranks_in_a_leaf<K: Key, G: FromRef<K> + Key>(
    k: &K,
    slot: Result<usize, usize>,
    keys: &[K],
) -> Result<Result<Option<(G, usize)>, Option<(G, usize)>>, AllocError>
    requires few { length keys.now ≤ 64 }
    requires ascending { IsStrictlySortedBy K.cmp keys.now }
    requires placed { IsSlotOf K.cmp k.now keys.now slot }
    ensures present { IfOk slot (λ _. IfOk result (λ outcome. MatchResult outcome (IsInGroup G.cmp (G.group_of k.now) (length (filter (λ x. is_lt (K.cmp x k.now) && is_eq (G.cmp (G.group_of x) (G.group_of k.now))) keys.now))) (λ _. ⊥))) }
    ensures absent { IfErr slot (λ _. IfOk result (λ outcome. MatchResult outcome (λ _. ⊥) (IsInGroup G.cmp (G.group_of k.now) (length (filter (λ x. is_lt (K.cmp x k.now) && is_eq (G.cmp (G.group_of x) (G.group_of k.now))) keys.now))))) }
{
    let start = <GroupCount<G> as RankArgument<K>>::initial_value();
    let outcome = <GroupCount<G> as RankArgument<K>>::fold_leaf(k, start, slot, keys)?;
    Ok(outcome)
}

// The rank in an empty leaf is the key's group, with no key before it.
fn ranks_in_an_empty_leaf<K: Key, G: FromRef<K> + Key>(
    k: &K,
) -> Result<Result<Option<(G, usize)>, Option<(G, usize)>>, AllocError>
    ensures { IfOk result (λ outcome. MatchResult outcome (λ _. ⊥) (IsInGroup G.cmp (G.group_of k.now) 0)) }
{
    let start = <GroupCount<G> as RankArgument<K>>::initial_value();
    <GroupCount<G> as RankArgument<K>>::fold_leaf(k, start, Err(0), &[])
}

// The rank behind a leaf, whose summary is carried over, counts the smaller keys of the group in
// both.
fn ranks_behind_a_leaf<K: Key, G: FromRef<K> + Key>(
    k: &K,
    before: &[K],
    arguments: &[GroupCount<G>],
    slot: Result<usize, usize>,
    keys: &[K],
) -> Result<Result<Option<(G, usize)>, Option<(G, usize)>>, AllocError>
    requires few { length keys.now ≤ 64 }
    requires placed { IsSlotOf K.cmp k.now keys.now slot }
    requires nonempty { 0 < length before.now }
    requires summaries { AllZip (λ a keys. IsGroupSummary G.cmp a (map G.group_of keys)) arguments.now (before.now ∷ []) }
    requires below { AllBelow K.cmp k.now before.now }
    requires ascending { IsStrictlySortedBy K.cmp (before.now ++ keys.now) }
    requires fits { length (before.now ++ keys.now) < 2 ^ 64 }
    ensures { IfOk result (λ outcome. MatchResult outcome (IsInGroup G.cmp (G.group_of k.now) (length (filter (λ x. is_lt (K.cmp x k.now) && is_eq (G.cmp (G.group_of x) (G.group_of k.now))) (before.now ++ keys.now)))) (IsInGroup G.cmp (G.group_of k.now) (length (filter (λ x. is_lt (K.cmp x k.now) && is_eq (G.cmp (G.group_of x) (G.group_of k.now))) (before.now ++ keys.now))))) }
{
    let start = <GroupCount<G> as RankArgument<K>>::initial_value();
    let rank = <GroupCount<G> as RankArgument<K>>::fold_inner(k, start, arguments)?;
    let outcome = <GroupCount<G> as RankArgument<K>>::fold_leaf(k, rank, slot, keys)?;
    Ok(outcome)
}
