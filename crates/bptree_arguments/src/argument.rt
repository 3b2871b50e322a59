//! Summaries of keys.
ghost use Rattle.std.specs.Prelude.{◌≡◌, ◌<◌, ◌≤◌, ℕ, List, [], length, true, is_ok, Option, IfOk, IfSome, IsOk, IsTrue, ⊤};
ghost use Rattle.std.specs.declared.cmp.Ordering.TheVariants.{Equal};
ghost use Rattle.std.specs.List.{AllZip};
ghost use Rattle.bptree_arguments.specs.Ranks.{IsSlotIn, Carries, RanksAtSlot};
ghost use Rattle.bptree_arguments.specs.Replaced.{SumsUpReplaced};
ghost use Rattle.bptree_arguments.specs.Selection.{IsIndexBelow, LeadsOver};
ghost use Rattle.bptree_keys.specs.Locate.{IfAscending};
ghost use Rattle.bptree_arguments.specs.Sums.{SumsUpKeys, SumsUpPieces, ReportsLength};

use bptree_keys::key::Key;
use std::alloc::AllocError;

/// What an inner node stores for each child: a summary of the keys below it. The default is a
/// summary of no keys.
pub trait Argument<K: Key>: Clone + Default + Drop {
    /// The value is a summary of the keys.
    ghost is_summary: { Self → List K → Type 0 };

    /// No call of the argument allocates, so no call fails.
    ghost needs_no_memory: { Type 0 } = { ⊥ };

    /// Returns `true` only if no call of the argument allocates. The default returns `false`, which
    /// is always allowed.
    ///
    /// O(1). It allocates nothing and cannot fail.
    fn never_fails() -> bool
        ensures free { IsTrue result → needs_no_memory }
    {
        false
    }

    /// Returns `true` only if every value is a summary of every list, so that a tree need not
    /// maintain summaries.
    ///
    /// O(1). It allocates nothing and cannot fail.
    fn is_zst() -> bool
        ensures any { IsTrue result → (a : Self) (keys : List K) → is_summary a keys }
    {
        false
    }

    /// Returns a summary of the keys of a leaf, which ascend.
    ///
    /// O(k) for k keys, in the impls of this library. It fails only if an allocation fails.
    fn from_leaf(keys: &[K]) -> Result<Self, AllocError>
        ensures summary { IfOk result (SumsUpKeys is_summary K.cmp keys.now) }
        ensures infallible { needs_no_memory → IsOk result };

    /// Returns a summary of all keys below an inner node, computed from its separators and one
    /// summary for each child. A separator need not be a key.
    ///
    /// O(c) for c children, in the impls of this library. It fails only if an allocation fails.
    fn from_inner(keys: &[K], arguments: &[Self]) -> Result<Self, AllocError>
        ensures summary { IfOk result (SumsUpPieces is_summary K.cmp arguments.now) }
        ensures infallible { needs_no_memory → IsOk result };

    /// Returns the summary of a node after the summary of one child changed, if the node's old
    /// summary and the child's old and new ones determine it without the other children. The
    /// default returns `None`, and the node's summary is then recomputed by `from_inner`.
    ///
    /// O(1) in the impls of this library. It cannot fail.
    fn from_replaced(_node: &Self, _old: &Self, _new: &Self) -> Option<Self>
        ensures replaced { IfSome result (SumsUpReplaced is_summary K.cmp _node.now _old.now _new.now) }
    {
        None
    }

    /// Returns the number of keys that the summary stands for, if the summary determines it. The
    /// default returns `None`.
    ///
    /// O(1) in the impls of this library. It cannot fail.
    fn key_count(&self) -> Option<usize>
        ensures reported { ReportsLength (is_summary self.now) result }
    {
        None
    }

    ghost default_is_summary: { (a : Self) → Self.is_default a → is_summary a [] };
}

/// An argument that finds an index among keys by a query.
pub trait SearchArgument<K: Key>: Argument<K> {
    /// The type of a query.
    type Query: Drop;

    /// The index, or `None`, is allowed for the query on the keys.
    ghost selects: { Self.Query → List K → Option ℕ → Type 0 };

    /// Returns an index among the keys of a leaf, which ascend, or `None`.
    ///
    /// O(k) for k keys, in the impls of this library. It fails only if an allocation fails.
    fn locate_in_leaf(query: Self::Query, keys: &[K]) -> Result<Option<usize>, AllocError>
        requires { length keys.now ≤ 64 }
        ensures in_range { IfOk result (IfAscending K.cmp keys.now (IsIndexBelow keys.now)) }
        ensures selected { IfOk result (IfAscending K.cmp keys.now (selects query keys.now)) }
        ensures infallible { Self.needs_no_memory → IsOk result };

    /// Returns the index of the child to continue in, with the query for that child, or `None` if
    /// the query selects no index. The arguments are the separators of an inner node and one
    /// summary for each child.
    ///
    /// O(c) for c children, in the impls of this library. It fails only if an allocation fails.
    fn locate_in_inner(
        query: Self::Query,
        keys: &[K],
        arguments: &[Self],
    ) -> Result<Option<(usize, Self::Query)>, AllocError>
        ensures leads { IfOk result (LeadsOver Self.is_summary K.cmp arguments.now selects query) }
        ensures infallible { Self.needs_no_memory → IsOk result };
}

/// An argument that ranks a key among others.
pub trait RankArgument<K: Key>: Argument<K> {
    /// The type of a rank.
    type Rank: Drop;

    /// The rank stands for a list of keys that are smaller than the key.
    ghost represents: { Self.Rank → K → List K → Type 0 };

    /// The rank is allowed for the key on the keys.
    ghost ranks: { K → List K → Self.Rank → Type 0 };

    /// Returns the rank before any key was seen.
    ///
    /// O(1). It allocates nothing and cannot fail.
    fn initial_value() -> Self::Rank
        ensures stored { (k : K) → represents result k [] };

    /// Returns the rank carried on over the children of an inner node before the one for the key;
    /// there may be no such child. `arguments` has one summary for each of them.
    ///
    /// O(c) for c children, in the impls of this library. It fails only if an allocation fails.
    fn fold_inner(k: &K, rank: Self::Rank, arguments: &[Self]) -> Result<Self::Rank, AllocError>
        ensures carries { IfOk result (Carries Self.is_summary K.cmp arguments.now represents rank k.now) }
        ensures infallible { Self.needs_no_memory → IsOk result };

    /// Returns the rank of a key, computed from a slot of its leaf: `Ok` exactly if the slot is
    /// `Ok`. If the slot is that of the key, the result is a rank for the key.
    ///
    /// O(k) for k keys, in the impls of this library. It fails only if an allocation fails.
    fn fold_leaf(
        k: &K,
        rank: Self::Rank,
        slot: Result<usize, usize>,
        keys: &[K],
    ) -> Result<Result<Self::Rank, Self::Rank>, AllocError>
        requires few { length keys.now ≤ 64 }
        requires slot { IsSlotIn keys.now slot }
        ensures variant { IfOk result (λ outcome. is_ok outcome ≡ is_ok slot) }
        ensures ranked { IfOk result (RanksAtSlot K.cmp represents ranks k.now rank keys.now slot) }
        ensures infallible { Self.needs_no_memory → IsOk result };
}

/// An argument whose summaries depend on keys only up to equality: a clone of a summary is a
/// summary of each list of keys that are equal to the original's, one by one. So a tree's clone,
/// with clones of the keys and of the summaries, has summaries of its own keys.
pub trait CloneArgument<K: Key>: Argument<K> {
    ghost clone_is_summary: { (a b : Self) (keys copies : List K) → Self.is_clone a b → AllZip (λ k c. K.cmp k c ≡ Equal) keys copies → Self.is_summary a keys → Self.is_summary b copies };
}

/// The unit type is an empty summary: it determines nothing about the keys, and takes no memory.
impl<K: Key> Argument<K> for () {
    ghost is_summary = { λ _ _. ⊤ };

    ghost needs_no_memory = { ⊤ };

    fn never_fails() -> bool {
        true
    }

    fn is_zst() -> bool
        ensures { result ≡ true }
    {
        true
    }

    fn from_leaf(_keys: &[K]) -> Result<(), AllocError> {
        Ok(())
    }

    fn from_inner(_keys: &[K], _arguments: &[()]) -> Result<(), AllocError> {
        Ok(())
    }

    ghost default_is_summary = { λ _ _. tt };
}

impl<K: Key> CloneArgument<K> for () {
    ghost clone_is_summary = { λ _ _ _ _ _ _ _. tt };
}
