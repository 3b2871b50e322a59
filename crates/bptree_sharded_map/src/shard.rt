//! The operations of a shard.
ghost use Rattle.std.specs.Prelude.{◌≡◌, ⊤, List, Ok, None, false, length, slice_get, IfOk, IfErr, OnErr, IsOk, IsTrue};
ghost use Rattle.std.specs.Option.{option_copied, option_map};
ghost use Rattle.bptree_keys.specs.Contents.{has, value, put, del, next, previous, pairs_below};
ghost use Rattle.bptree_keys.specs.Ranges.{part};
ghost use Rattle.bptree_sharded_map.specs.Shown.{PushesAll, PushesBetween, PushesBack, SplitsShard, AppendsAll};
ghost use Rattle.bptree_sharded_map.specs.Failures.{NoMemoryOnlyIf};
ghost use Rattle.bptree_tree.specs.Changes.{FailsIfFull};
ghost use Rattle.bptree_tree.specs.Returning.{pair_of};
ghost use Rattle.std.specs.Map.Iter.{deref_pair};

use bptree_keys::key::Key;
use bptree_tree::{AppendError, InsertError};
use std::alloc::AllocError;

/// Ascending pairs that are one part of a larger list: a map in memory, or one that is stored
/// elsewhere. The cost of each operation is that of the implementation.
pub trait Shard: Drop {
    /// The keys.
    type K: Key;

    /// The values.
    type V: Drop;

    // The pairs of the shard.
    ghost pairs: { Self → List (Self.K × Self.V) };

    // Whether an allocation may fail while a shard with these pairs inserts or removes a key.
    ghost can_fail: { List (Self.K × Self.V) → Self.K → Type 0 } = { λ _ _. ⊤ };

    /// The number of pairs.
    fn len(&self) -> usize
        ensures { result ≡ length (pairs self.now) };

    /// The value at a key.
    fn get(&self, k: &Self::K) -> Option<&Self::V>
        ensures { option_copied result ≡ value Self.K.cmp (pairs self.now) k.now };

    /// Puts a value at a key, and returns the value that was there.
    ///
    /// If the key is present, its value is replaced, and the call never fails. A new key fails with
    /// `Full` exactly if the shard has `usize::MAX` pairs, and with `OutOfMemory` only if an
    /// allocation fails. On an error nothing changes, and the error contains the pair.
    fn put(
        &mut self,
        k: Self::K,
        v: Self::V,
    ) -> Result<Option<Self::V>, InsertError<Self::K, Self::V>>
        ensures old { IfOk result (λ old. old ≡ value Self.K.cmp (pairs self.old) k) }
        ensures ok { IfOk result (λ _. pairs self.new ≡ put Self.K.cmp (pairs self.old) k v) }
        ensures present { IsTrue (has Self.K.cmp (pairs self.old) k) → IsOk result }
        ensures full { FailsIfFull Self.K.cmp usize.MAX (pairs self.old) k v result }
        ensures memory { IfErr result (NoMemoryOnlyIf (can_fail (pairs self.old) k)) }
        ensures returned { IfErr result (λ error. pair_of error ≡ (k, v)) }
        ensures unchanged { OnErr result (pairs self.new ≡ pairs self.old) };

    /// Removes the pair at a key, and returns its value. If the key is absent, nothing changes, and
    /// the call never fails. If an allocation fails, nothing changes.
    fn del(&mut self, k: &Self::K) -> Result<Option<Self::V>, AllocError>
        ensures old { IfOk result (λ old. old ≡ value Self.K.cmp (pairs self.old) k.now) }
        ensures ok { IfOk result (λ _. pairs self.new ≡ del Self.K.cmp (pairs self.old) k.now) }
        ensures absent { has Self.K.cmp (pairs self.old) k.now ≡ false → result ≡ Ok None }
        ensures memory { OnErr result (can_fail (pairs self.old) k.now) }
        ensures unchanged { OnErr result (pairs self.new ≡ pairs self.old) };

    /// The number of smaller keys.
    fn rank(&self, k: &Self::K) -> usize
        ensures { result ≡ length (pairs_below Self.K.cmp (pairs self.now) k.now) };

    /// The pair at an index, counted from 0, or `None`.
    fn at(&self, index: usize) -> Option<(&Self::K, &Self::V)>
        ensures { option_map deref_pair result ≡ slice_get (pairs self.now) index };

    /// The pair with the least greater key, or `None`.
    fn next(&self, k: &Self::K) -> Option<(&Self::K, &Self::V)>
        ensures { option_map deref_pair result ≡ next Self.K.cmp (pairs self.now) k.now };

    /// The pair with the greatest smaller key, or `None`.
    fn prev(&self, k: &Self::K) -> Option<(&Self::K, &Self::V)>
        ensures { option_map deref_pair result ≡ previous Self.K.cmp (pairs self.now) k.now };

    /// Pushes at most `count` pairs from an index on to a vector.
    fn page<'a>(
        &'a self,
        from: usize,
        count: usize,
        found: &mut Vec<(&'a Self::K, &'a Self::V)>,
    ) -> Result<(), AllocError>
        ensures { PushesAll (part (pairs self.now) from count) found.old found.new result };

    /// Pushes at most `n` of the pairs whose keys are not below `lo` and are below `hi`, if they
    /// are given, to a vector, the least first.
    fn range<'a, 'b>(
        &'a self,
        lo: Option<&'b Self::K>,
        hi: Option<&'b Self::K>,
        n: usize,
        found: &mut Vec<(&'a Self::K, &'a Self::V)>,
    ) -> Result<(), AllocError>
        ensures { PushesBetween Self.K.cmp (pairs self.now) lo.entry hi.entry n found.old found.new result };

    /// Pushes at most `n` of the pairs whose keys are not above `k` to a vector, the greatest
    /// first.
    fn back<'a>(
        &'a self,
        k: &Self::K,
        n: usize,
        found: &mut Vec<(&'a Self::K, &'a Self::V)>,
    ) -> Result<(), AllocError>
        ensures { PushesBack Self.K.cmp (pairs self.now) k.now n found.old found.new result };

    /// Moves the pairs whose keys are not below `k` to a shard of their own. If an allocation
    /// fails, nothing changes.
    fn split_off(&mut self, k: &Self::K) -> Result<Self, AllocError>
        ensures ok { IfOk result (SplitsShard pairs Self.K.cmp k.now self.old self.new) }
        ensures unchanged { OnErr result (pairs self.new ≡ pairs self.old) };

    /// Moves all pairs of another shard here. Of two equal keys this shard's key stays, and it
    /// takes the other's value. On an error neither shard changes.
    fn append(&mut self, other: &mut Self) -> Result<(), AppendError>
        ensures ok { AppendsAll pairs Self.K.cmp self.old other.old self.new other.new result }
        ensures unchanged { OnErr result ((pairs self.new ≡ pairs self.old) × (pairs other.new ≡ pairs other.old)) };
}
