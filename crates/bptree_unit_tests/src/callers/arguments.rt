//! Callers of an arbitrary argument.
ghost use Rattle.std.specs.Prelude.{◌≡◌, ◌<◌, ◌≤◌, ◌^◌, ◌∷◌, ◌++◌, [], List, true, is_ok, length, IfOk, IfSome, IsTrue, MatchResult};
ghost use Rattle.std.specs.List.{AllZip};
ghost use Rattle.std.specs.List.Sorted.{IsStrictlySortedBy};
ghost use Rattle.bptree_arguments.specs.Ranks.{AllBelow, IsSlotOf};
ghost use Rattle.bptree_arguments.specs.Selection.{LeadsTo};
ghost use Rattle.bptree_keys.specs.Pieces.{ArePieces};

use bptree_arguments::argument::{Argument, RankArgument, SearchArgument};
use bptree_keys::key::Key;
use std::alloc::AllocError;

// The summary of a leaf is a summary of the leaf's keys.
fn summarizes_a_leaf<K: Key, A: Argument<K>>(keys: &[K]) -> Result<A, AllocError>
    requires some { 0 < length keys.now }
    requires ascending { IsStrictlySortedBy K.cmp keys.now }
    ensures { IfOk result (λ a. A.is_summary a keys.now) }
{
    A::from_leaf(keys)
}

// An argument that allocates nothing does not fail.
fn summarizes_without_memory<K: Key, A: Argument<K>>(keys: &[K]) -> A
    requires memory { A.needs_no_memory }
    requires some { 0 < length keys.now }
    requires ascending { IsStrictlySortedBy K.cmp keys.now }
    ensures { A.is_summary result keys.now }
{
    match A::from_leaf(keys) {
        Ok(summary) => summary,
        Err(_) => unreachable!(),
    }
}

// The summary of a node over two leaves is a summary of the keys of both, whatever the separators
// are.
fn summarizes_two_leaves<K: Key, A: Argument<K>>(
    left: &[K],
    separators: &[K],
    right: &[K],
    arguments: &[A],
) -> Result<A, AllocError>
    requires pieces { ArePieces K.cmp (left.now ∷ right.now ∷ []) }
    requires summaries { AllZip A.is_summary arguments.now (left.now ∷ right.now ∷ []) }
    ensures { IfOk result (λ a. A.is_summary a (left.now ++ right.now)) }
{
    let both = A::from_inner(separators, arguments)?;
    Ok(both)
}

// If the keys of a node's first child were replaced, and the node's new summary can be computed
// from the summaries, it is a summary of the keys that the node has then.
fn replaces_the_first<K: Key, A: Argument<K>>(
    node: &A,
    old: &A,
    new: &A,
    first: &[K],
    rest: &[K],
) -> Option<A>
    requires new { A.is_summary new.now first.now }
    requires ascending { IsStrictlySortedBy K.cmp (first.now ++ rest.now) }
    requires fits { length (first.now ++ rest.now) < 2 ^ 64 }
    ensures { (was : List K) → A.is_summary old.now was → A.is_summary node.now (was ++ rest.now) → IfSome result (λ a. A.is_summary a (first.now ++ rest.now)) }
{
    A::from_replaced(node, old, new)
}

// The default is a summary of no keys. If every summary is a summary of every list, so is the
// default.
fn summarizes_no_keys<K: Key, A: Argument<K>>() -> (bool, A)
    ensures none { A.is_summary result.1 [] }
    ensures all { IsTrue result.0 → (keys : List K) → A.is_summary result.1 keys }
{
    (A::is_zst(), A::default())
}

// The trivial summary reports that it is trivial.
fn knows_that_nothing_is_kept<K: Key>() -> bool
    ensures { result ≡ true }
{
    <() as Argument<K>>::is_zst()
}

// Below a node of one leaf a query leads to the leaf, or to `None` if it selects nothing there.
fn leads_to_one_leaf<K: Key, A: SearchArgument<K>>(
    query: A::Query,
    keys: &[K],
    arguments: &[A],
) -> Result<Option<(usize, A::Query)>, AllocError>
    requires pieces { ArePieces K.cmp (keys.now ∷ []) }
    requires summaries { AllZip A.is_summary arguments.now (keys.now ∷ []) }
    ensures { IfOk result (λ outcome. LeadsTo A.selects query (keys.now ∷ []) outcome) }
{
    A::locate_in_inner(query, &[], arguments)
}

// The slot that a query selects in a leaf is a slot of the leaf, and one that the query allows.
fn selects_in_a_leaf<K: Key, A: SearchArgument<K>>(
    query: A::Query,
    keys: &[K],
) -> Result<Option<usize>, AllocError>
    requires few { length keys.now ≤ 64 }
    requires ascending { IsStrictlySortedBy K.cmp keys.now }
    ensures { IfOk result (λ index. IfSome index (λ i. i < length keys.now) × A.selects query keys.now index) }
{
    A::locate_in_leaf(query, keys)
}

// The rank of a key behind one leaf is a rank among the keys of both leaves. It is `Ok` if the key
// is present, and `Err` if it is not.
fn ranks_behind_one_leaf<K: Key, A: RankArgument<K>>(
    k: &K,
    before: &[K],
    arguments: &[A],
    slot: Result<usize, usize>,
    keys: &[K],
) -> Result<Result<A::Rank, A::Rank>, AllocError>
    requires few { length keys.now ≤ 64 }
    requires placed { IsSlotOf K.cmp k.now keys.now slot }
    requires nonempty { 0 < length before.now }
    requires summaries { AllZip A.is_summary arguments.now (before.now ∷ []) }
    requires below { AllBelow K.cmp k.now before.now }
    requires before { IsStrictlySortedBy K.cmp before.now }
    requires ascending { IsStrictlySortedBy K.cmp (before.now ++ keys.now) }
    requires before_fits { length before.now < 2 ^ 64 }
    requires fits { length (before.now ++ keys.now) < 2 ^ 64 }
    ensures variant { IfOk result (λ outcome. is_ok outcome ≡ is_ok slot) }
    ensures ranked { IfOk result (λ outcome. MatchResult outcome (A.ranks k.now (before.now ++ keys.now)) (A.ranks k.now (before.now ++ keys.now))) }
{
    let rank = A::fold_inner(k, A::initial_value(), arguments)?;
    let outcome = A::fold_leaf(k, rank, slot, keys)?;
    Ok(outcome)
}
