//! The pairs of a map that a closure keeps, and those outside a range.
ghost use Rattle.std.specs.Prelude.{◌≡◌, length, IfErr, IfOk, OnErr, OnOk};
ghost use Rattle.bptree_propagation.specs.Failing.{OkIs};
ghost use Rattle.bptree_keys.specs.Keys.{AllInfallible};
ghost use Rattle.bptree_map.specs.Retaining.{FailsRetain};
ghost use Rattle.bptree_nodes.specs.Retaining.{IsRetained};
ghost use Rattle.bptree_tree.specs.RangeRemoval.{outside, KeepsAllIfNone, KeepsOutside};
ghost use Rattle.bptree_tree.specs.Entries.{pairs_between};

use super::BPlusTreeMap;
use crate::failures::RetainError;
use bptree_arguments::argument::Argument;
use bptree_keys::key::Key;
use std::alloc::AllocError;

impl<K: Key, V: Drop, A: Argument<K>> BPlusTreeMap<K, V, A> {
    /// Keeps the pairs for which a closure returns true, in the order of their keys, with the
    /// values that it leaves, and drops the others.
    ///
    /// O(n) for n pairs: a pair that stays moves only within its leaf, or to a neighbour, if both
    /// fit in one leaf or if one of them has fewer than 16 pairs. Before the first call of the
    /// closure it allocates two leaves, room for a list of leaves, and room for all pairs, which it
    /// uses only if it fails later. If one of these fails, nothing changes. Then it calls the
    /// closure for every pair. It fails too if an allocation for the nodes above the leaves, a
    /// clone of a key or a summary fails: the error then has the pairs that stay, and the map is
    /// empty.
    pub fn retain<F: FnMut(&K, &mut V) -> bool>(
        &mut self,
        f: F,
    ) -> Result<(), RetainError<Vec<(K, V)>>>
        requires { F.IsAlwaysCallable f }
        ensures ok { OnOk result (IsRetained F.FnMut f self.old self.new) }
        ensures err { IfErr result (FailsRetain F.FnMut f self.old self.new) }
    {
        match self.inner.retain(f) {
            Ok(()) => Ok(()),
            Err(None) => Err(RetainError::NotMade),
            Err(Some(kept)) => Err(RetainError::NotStored(kept)),
        }
    }

    /// Keeps the pairs as `retain` does, for a map that needs no memory to remove a pair: no clone
    /// of a key fails, and no summary allocates.
    ///
    /// O(n log n) for n pairs: it looks up each pair, and removes those that do not stay one by
    /// one. It allocates nothing but what clones of keys and summaries allocate, and cannot fail.
    pub fn retain_infallible<F: FnMut(&K, &mut V) -> bool>(&mut self, f: F)
        requires infallible { A.needs_no_memory × AllInfallible K.is_infallible }
        requires callable { F.IsAlwaysCallable f }
        ensures { IsRetained F.FnMut f self.old self.new }
    {
        self.inner.retain_infallible(f);
    }

    /// Removes the pairs whose key is not below `lo` and is below `hi`, if they are given, and
    /// returns their number. If it fails, nothing changes.
    ///
    /// O(log n) comparisons to find both ends, O(n / 32) for n pairs, and O(1) for each pair that
    /// is removed: each leaf on either side stays as it is, except for a few at the gap. Before
    /// that it allocates the nodes above the leaves, clones the first key of each leaf and computes
    /// a summary of its keys, and it fails if one of these does. If no removal can fail, as
    /// `clones_never_fail` and `never_fails` say, it does not fail: it removes the pairs one by one
    /// if at most n / 32 are removed or if an allocation fails. If there is no such pair, it
    /// allocates nothing and cannot fail. If all pairs are removed, it allocates one leaf.
    pub fn remove_range<'b>(
        &mut self,
        lo: Option<&'b K>,
        hi: Option<&'b K>,
    ) -> Result<usize, AllocError>
        ensures rest { IfOk result (λ _. KeepsOutside K.cmp lo.entry hi.entry self.old self.new) }
        ensures count { OkIs result (length (pairs_between K.cmp self.old lo.entry hi.entry)) }
        ensures empty { KeepsAllIfNone K.cmp lo.entry hi.entry self.old self.new result }
        ensures unchanged { OnErr result (self.new ≡ self.old) }
    {
        self.inner.remove_range(lo, hi)
    }

    /// Removes the pairs as `remove_range` does, and returns their number, for a map that needs no
    /// memory to remove a pair: no clone of a key fails, and no summary allocates.
    ///
    /// As `remove_range`, and O(log n) for each pair that is removed if an allocation fails. It
    /// cannot fail.
    pub fn remove_range_infallible<'b>(&mut self, lo: Option<&'b K>, hi: Option<&'b K>) -> usize
        requires infallible { A.needs_no_memory × AllInfallible K.is_infallible }
        ensures rest { KeepsOutside K.cmp lo.entry hi.entry self.old self.new }
        ensures count { result ≡ length (pairs_between K.cmp self.old lo.entry hi.entry) }
    {
        self.inner.remove_range_infallible(lo, hi)
    }
}
