//! An ordered map.
ghost use Rattle.std.specs.Prelude.{◌≡◌, ◌^◌, ◌<◌, ◌≤◌, List, [], None, Some, Ok, length, slice_get, false, IfOk, IfErr, OnErr, IsOk, IsOkUnless, IsTrue, ◌↔◌, is_ok};
ghost use Rattle.std.specs.Borrow.{Lends, LendsIf, LendsSoOk, sem};
ghost use Rattle.std.specs.Map.{keys_of, values_of};
ghost use Rattle.std.specs.Iterator.{IsFiniteIterable as AreFinite};
ghost use Rattle.std.specs.Iterator.Runs.{WholeRun};
ghost use Rattle.std.specs.List.{remove};
ghost use Rattle.std.specs.List.Sorted.{IsStrictlySortedBy};
ghost use Rattle.std.specs.Map.Iter.{ShowsInOrder, GivesInOrder, GivesInReverse, deref, deref_pair};
ghost use Rattle.std.specs.Option.{option_map, option_copied, option_copied_mut};
ghost use Rattle.bptree_propagation.specs.Failing.{OkIs};
ghost use Rattle.bptree_arguments.specs.Groups.{of_group};
ghost use Rattle.bptree_arguments.specs.Visits.{returned, IsAllowedError};
ghost use Rattle.bptree_propagation.specs.Borrowing.{written};
ghost use Rattle.bptree_search.specs.ByArgument.{IsPartSelected, IsTaken};
ghost use Rattle.bptree_keys.specs.Contents.{IsAscending, has, value, gather, next, last_member};
ghost use Rattle.bptree_keys.specs.Keys.{AllInfallible};
ghost use Rattle.bptree_keys.specs.Ranges.{part};
ghost use Rattle.bptree_map.specs.Gathering.{AreFewFor, IsMapOf};
ghost use Rattle.bptree_map.specs.Indexes.{index};
ghost use Rattle.bptree_map.specs.Popping.{IsPopped};
ghost use Rattle.bptree_map.specs.Rows.{map_row, inner_row, count_map_row};
ghost use Rattle.bptree_map.specs.Writing.{WritesBorrowed};
ghost use Rattle.bptree_nodes.specs.Leaf.{set_value_at};
ghost use Rattle.bptree_ranges.specs.Summaries.{IsPartSummary};
ghost use Rattle.bptree_tree.specs.Changes.{EitherWay, FailsIfFull, PopsFirst, PopsLast, Puts, Removes, RemovesEntry, RemovesReported};
ghost use Rattle.bptree_tree.specs.Changes.{IsReplaceFailure, ReplacesKeyOf};
ghost use Rattle.bptree_tree.specs.Cursor.{PointsAt, ShowsValueOf};
ghost use Rattle.bptree_tree.specs.Entries.{entry, at_least, EntriesSumUpBetween, pairs_between};
ghost use Rattle.bptree_tree.specs.Returning.{ReturnsPair, ReturnsKey};
ghost use Rattle.bptree_tree.specs.Selected.{BorrowsSelected, SelectsNone, ShowsSelected};
ghost use Rattle.bptree_tree.specs.Whole.{ArePairsCloned};

mod borrowed;
mod bounds;
mod extending;
mod indexes;
mod iter;
mod many;
mod moving;
mod owned;
mod pages;
mod retaining;
mod sides;
mod updates;

pub use crate::failures::RetainError;
use crate::gathering::gather_tree;
pub use crate::gathering::law_of_from_iter;
use bptree_arguments::argument::{Argument, CloneArgument, RankArgument, SearchArgument};
use bptree_arguments::count::Count;
use bptree_arguments::group::FromRef;
use bptree_arguments::visit::{DescendError, DescendVisit};
use bptree_keys::key::Key;
use bptree_stores::node_store_vec::NodeStoreVec;
pub use bptree_tree::AppendError;
use bptree_tree::{BPlusTree, Cursor, InsertError, ReplaceError, SelectError};
pub use iter::Iter;
pub use owned::IntoIter;
pub use pages::laws_of_pages;
pub use sides::{
    BorrowedSide, IntoKeys, IntoSideIter, IntoValues, KeySide, Keys, Side, SideIter, ValueSide,
    Values,
};
use std::alloc::{AllocError, Global};
use std::marker::Model;

/// Pairs of a key and a value, in the strictly ascending order of their keys, with summaries of the
/// keys.
#[derive(Drop)]
pub struct BPlusTreeMap<K: Key, V: Drop, A: Argument<K> = ()> {
    inner: BPlusTree<NodeStoreVec<K, V, A>>,
}

impl<K: Key, V: Drop, A: Argument<K>> Model for BPlusTreeMap<K, V, A> {
    ghost use Rattle.std.specs.Prelude.{List};

    ghost Value = { List (K × V) };

    ghost view = { λ map. map.inner.contents };
}

impl<K: Key, V: Drop, A: Argument<K>> BPlusTreeMap<K, V, A> {
    /// A map with no pairs.
    ///
    /// O(1). It allocates one leaf, and fails only if an allocation fails.
    pub fn new(alloc: Global) -> Result<Self, AllocError>
        ensures { IfOk result (λ map. map ≡ []) }
    {
        Ok(BPlusTreeMap {
            inner: BPlusTree::new(NodeStoreVec::new(alloc))?,
        })
    }

    /// A map with no pairs, as `new` makes.
    ///
    /// O(1). It fails only if an allocation fails.
    pub fn default(alloc: Global) -> Result<Self, AllocError>
        ensures { IfOk result (λ map. map ≡ []) }
    {
        BPlusTreeMap::new(alloc)
    }

    /// A map of the pairs of an iterator, in any order. Of pairs with equal keys the last one is
    /// kept, with its key.
    ///
    /// O(n log n) for n pairs: they are collected in a vector, sorted by the standard library's
    /// stable sort, and loaded. It fails only if an allocation, a clone of a key or a summary
    /// fails; then the pairs are dropped.
    pub fn from_iter<I: IntoIterator<Item = (K, V)>>(
        alloc: Global,
        pairs: I,
    ) -> Result<Self, AllocError>
        requires { AreFinite I.into_iter_gives I.IntoIter.can_next I.IntoIter.remaining pairs }
        ensures given { IfOk result (IsMapOf I.into_iter_gives K.cmp I.IntoIter.next_gives pairs) }
        ensures runs { IfOk result (λ map. (it : I.IntoIter) × I.into_iter_gives pairs it × WholeRun I.IntoIter.next_gives it (λ run. map ≡ gather K.cmp run.items)) }
    {
        let given: Vec<(K, V)> = pairs.into_iter().collect(alloc)?;
        Ok(BPlusTreeMap {
            inner: gather_tree(given)?,
        })
    }

    /// A map of pairs whose keys ascend, or these pairs if the map cannot be made.
    ///
    /// O(n) for n pairs: each moves once into a leaf. It fails only if an allocation, a clone of a
    /// key or a summary fails.
    pub fn from_ascending(pairs: Vec<(K, V)>) -> Result<Self, Vec<(K, V)>>
        requires { IsAscending K.cmp pairs.items }
        ensures contents { IfOk result (λ map. map ≡ pairs.items) }
        ensures returned { IfErr result (λ back. back.items ≡ pairs.items) }
    {
        match BPlusTree::from_ascending(pairs) {
            Ok(inner) => Ok(BPlusTreeMap { inner }),
            Err(back) => Err(back),
        }
    }

    // The map of a tree.
    pub(crate) fn of_tree(inner: BPlusTree<NodeStoreVec<K, V, A>>) -> Self
        ensures { result ≡ inner.contents }
    {
        BPlusTreeMap { inner }
    }

    /// The number of pairs.
    ///
    /// O(1). It allocates nothing and cannot fail.
    pub fn len(&self) -> usize
        ensures value { result ≡ length self.now }
        ensures ascending { IsAscending K.cmp self.now }
    {
        self.inner.len()
    }

    /// Recalls what holds of every map, for the proofs of callers: the length fits in 64 bits, and
    /// the keys ascend. It does nothing, in constant time, and never fails.
    ///
    /// O(1).
    #[inline(always)]
    pub fn recall(&self)
        ensures fits { length self.now < 2 ^ 64 }
        ensures ascending { IsAscending K.cmp self.now }
    {
        self.inner.recall();
    }

    /// Whether there are no pairs.
    ///
    /// O(1). It allocates nothing and cannot fail.
    pub fn is_empty(&self) -> bool
        ensures { IsTrue result ↔ (self.now ≡ []) }
    {
        self.len() == 0
    }

    /// The value at the key that equals `k`, or `None`.
    ///
    /// O(log n). It allocates nothing and cannot fail.
    pub fn get(&self, k: &K) -> Option<&V>
        ensures { option_copied result ≡ value K.cmp self.now k.now }
    {
        self.inner.get(k)
    }

    /// Whether a key equals `k`.
    ///
    /// O(log n). It allocates nothing and cannot fail.
    pub fn contains_key(&self, k: &K) -> bool
        ensures { result ≡ has K.cmp self.now k.now }
    {
        self.get(k).is_some()
    }

    /// The pair whose key equals `k`, with the stored key, or `None`.
    ///
    /// O(log n). It allocates nothing and cannot fail.
    pub fn get_key_value(&self, k: &K) -> Option<(&K, &V)>
        ensures { option_map deref_pair result ≡ entry K.cmp self.now k.now }
    {
        self.inner.get_key_value(k)
    }

    /// The value at a key equal to `k`, and the number of comparisons of keys: at least 1 unless
    /// the map is empty. Tests check that the search makes no comparison that it does not count.
    ///
    /// O(log n), or O(1) if the store has cached the leaf of `k`. It allocates nothing and cannot
    /// fail.
    pub fn get_counted(&self, k: &K) -> (Option<&V>, usize)
        ensures value { option_copied result.0 ≡ value K.cmp self.now k.now }
        ensures count { AreFewFor (length self.now) result.1 }
        ensures some { 0 < length self.now → 0 < result.1 }
    {
        // The bound of the count needs that the height is low.
        let _height = self.inner.height();
        self.inner.get_counted(k)
    }

    /// The value at the key that equals `k`, for writing, or `None`.
    ///
    /// O(log n). It allocates nothing and cannot fail.
    pub fn get_mut(&mut self, k: &K) -> Option<&mut V>
        ensures* writes_back { sem 𝓛 (LendsIf (map_row K.row V.row A.row K.Key A.Argument) V.row self.entry result (written K.cmp k.now self.old) self.old) }
        ensures value { option_copied_mut result ≡ value K.cmp self.old k.now }
    {
        self.inner.get_mut(k)
    }

    /// Inserts `v` at `k`, and returns the value that was at `k` before. If a key equals `k`, that
    /// key is kept and only its value is replaced.
    ///
    /// O(log n), amortized over the growth of the store. It allocates if a leaf is full, and fails
    /// with `OutOfMemory` if an allocation, a clone of a key or a summary fails. It fails with
    /// `Full` if the map has `usize::MAX` pairs and `k` is new. Then the map is unchanged, and the
    /// error returns `k` and `v`. If a key equals `k`, it allocates nothing and cannot fail.
    pub fn insert(&mut self, k: K, v: V) -> Result<Option<V>, InsertError<K, V>>
        ensures ok { IfOk result (Puts K.cmp k v self.old self.new) }
        ensures err { IfErr result (ReturnsPair (k, v) self.old self.new) }
        ensures present { IsTrue (has K.cmp self.old k) → IsOk result }
        ensures full { FailsIfFull K.cmp usize.MAX self.old k v result }
    {
        self.inner.insert(k, v)
    }

    /// Removes the pair whose key equals `k`, and returns its value, or `None` if there is no such
    /// key.
    ///
    /// O(log n). It fails only if a clone of a key or a summary fails; then the map is unchanged.
    /// If there is no such key, it cannot fail.
    pub fn remove(&mut self, k: &K) -> Result<Option<V>, AllocError>
        ensures ok { IfOk result (Removes K.cmp k.now self.old self.new) }
        ensures absent { has K.cmp self.old k.now ≡ false → result ≡ Ok None }
        ensures unchanged { OnErr result (self.new ≡ self.old) }
        ensures infallible { A.needs_no_memory → AllInfallible K.is_infallible → IsOk result }
    {
        self.inner.remove(k)
    }

    /// The pair with the least key.
    ///
    /// O(log n). It allocates nothing and cannot fail.
    pub fn first(&self) -> Option<(&K, &V)>
        ensures { option_map deref_pair result ≡ slice_get self.now 0 }
    {
        self.inner.first()
    }

    /// The pair with the greatest key.
    ///
    /// O(log n). It allocates nothing and cannot fail.
    pub fn last(&self) -> Option<(&K, &V)>
        ensures { option_map deref_pair result ≡ last_member self.now }
    {
        self.inner.last()
    }

    /// The pair with the least key, or `None`. It is `first` under the name that `BTreeMap` has.
    ///
    /// O(log n). It allocates nothing and cannot fail.
    pub fn first_key_value(&self) -> Option<(&K, &V)>
        ensures { option_map deref_pair result ≡ slice_get self.now 0 }
    {
        self.first()
    }

    /// The pair with the greatest key, or `None`. It is `last` under the name that `BTreeMap` has.
    ///
    /// O(log n). It allocates nothing and cannot fail.
    pub fn last_key_value(&self) -> Option<(&K, &V)>
        ensures { option_map deref_pair result ≡ last_member self.now }
    {
        self.last()
    }

    /// A cursor on the least key that is not below `k`, with its value, or `None`.
    ///
    /// O(log n). It clones that key, and fails only if the clone fails. If there is no such key, it
    /// cannot fail.
    pub fn lower_bound(&self, k: &K) -> Result<Option<(Cursor<K>, &V)>, AllocError>
        ensures cursor { IfOk result (PointsAt K.cmp (at_least K.cmp self.now k.now)) }
        ensures value { IfOk result (ShowsValueOf (at_least K.cmp self.now k.now)) }
        ensures end { at_least K.cmp self.now k.now ≡ None → result ≡ Ok None }
        ensures infallible { ((key : K) → K.is_infallible key) → IsOk result }
    {
        self.inner.lower_bound(k)
    }

    /// A cursor on the least key above `k`, with its value, or `None`.
    ///
    /// O(log n). It clones that key, and fails only if the clone fails. If there is no such key, it
    /// cannot fail.
    pub fn upper_bound(&self, k: &K) -> Result<Option<(Cursor<K>, &V)>, AllocError>
        ensures cursor { IfOk result (PointsAt K.cmp (next K.cmp self.now k.now)) }
        ensures value { IfOk result (ShowsValueOf (next K.cmp self.now k.now)) }
        ensures end { next K.cmp self.now k.now ≡ None → result ≡ Ok None }
        ensures infallible { ((key : K) → K.is_infallible key) → IsOk result }
    {
        self.inner.upper_bound(k)
    }

    /// Removes the pair whose key equals `k`, and returns it with the stored key, or `None` if
    /// there is no such key.
    ///
    /// O(log n). It fails only if a clone of a key or a summary fails; then the map is unchanged.
    /// If there is no such key, it cannot fail.
    pub fn remove_entry(&mut self, k: &K) -> Result<Option<(K, V)>, AllocError>
        ensures ok { IfOk result (RemovesEntry K.cmp k.now self.old self.new) }
        ensures absent { has K.cmp self.old k.now ≡ false → result ≡ Ok None }
        ensures unchanged { OnErr result (self.new ≡ self.old) }
        ensures infallible { A.needs_no_memory → AllInfallible K.is_infallible → IsOk result }
    {
        self.inner.remove_entry(k)
    }

    /// Replaces the key that equals `k` by `k`, and returns it. Its value stays.
    ///
    /// O(log n): one descent. The summaries above the key are computed again. Only they can
    /// allocate, so without summaries the call never fails for a key that is present. If no key
    /// equals `k`, or if an allocation fails, the error returns `k`, and the map is unchanged.
    pub fn replace_key(&mut self, k: K) -> Result<K, ReplaceError<K>>
        ensures ok { IfOk result (ReplacesKeyOf K.cmp k self.old self.new) }
        ensures err { IfErr result (ReturnsKey k self.old self.new) }
        ensures kind { IfErr result (IsReplaceFailure K.cmp self.old) }
        ensures infallible { A.needs_no_memory → IsTrue (has K.cmp self.old k) → IsOk result }
    {
        self.inner.replace_key(k)
    }

    /// Removes the pair with the least key, and returns it, or `None` if the map is empty.
    ///
    /// O(log n): at most one descent, which compares no key. It fails only if a clone of a key or a
    /// summary fails; then the map is unchanged. If the map is empty, it cannot fail.
    pub fn pop_first(&mut self) -> Result<Option<(K, V)>, AllocError>
        ensures ok { IfOk result (IsPopped K.cmp self.old self.new) }
        ensures stored { IfOk result (PopsFirst self.old self.new) }
        ensures empty { self.old ≡ [] → result ≡ Ok None }
        ensures unchanged { OnErr result (self.new ≡ self.old) }
        ensures infallible { A.needs_no_memory → AllInfallible K.is_infallible → IsOk result }
    {
        self.inner.pop_first()
    }

    /// Removes the pair with the greatest key, and returns it, or `None` if the map is empty.
    ///
    /// O(log n): at most one descent, which compares no key. It fails only if a clone of a key or a
    /// summary fails; then the map is unchanged. If the map is empty, it cannot fail.
    pub fn pop_last(&mut self) -> Result<Option<(K, V)>, AllocError>
        ensures stored { IfOk result (PopsLast self.old self.new) }
        ensures empty { self.old ≡ [] → result ≡ Ok None }
        ensures unchanged { OnErr result (self.new ≡ self.old) }
        ensures infallible { A.needs_no_memory → AllInfallible K.is_infallible → IsOk result }
    {
        self.inner.pop_last()
    }

    /// Removes all pairs.
    ///
    /// O(n) to drop them. It allocates one leaf, and fails only if that fails; then the map is
    /// unchanged.
    pub fn clear(&mut self) -> Result<(), AllocError>
        ensures ok { IfOk result (λ _. self.new ≡ []) }
        ensures unchanged { OnErr result (self.new ≡ self.old) }
    {
        self.inner.clear()
    }

    /// A summary of all keys; the `Default` if there are no keys.
    ///
    /// O(1). It allocates nothing and cannot fail.
    pub fn root_argument(&self) -> &A
        ensures { A.is_summary result.now (keys_of self.now) }
    {
        self.inner.root_argument()
    }

    /// The pair at an index that is allowed for the query, or `None`.
    ///
    /// O(log n): one descent, which calls the argument once a level. It allocates only what the
    /// argument allocates, and fails only if the argument does.
    pub fn get_by_argument(
        &self,
        query: <A as SearchArgument<K>>::Query,
    ) -> Result<Option<(&K, &V)>, AllocError>
    where
        A: SearchArgument<K>,
        ensures selected { IfOk result (ShowsSelected A.selects query self.now) }
        ensures infallible { A.needs_no_memory → IsOk result }
    {
        self.inner.get_by_argument(query)
    }

    /// The value at an index that is allowed for the query, for writing.
    ///
    /// O(log n). It fails with `NotFound` if no index is allowed, and with `OutOfMemory` if the
    /// argument fails to allocate. Only that value is written: keys and summaries are unchanged.
    pub fn get_mut_by_argument(
        &mut self,
        query: <A as SearchArgument<K>>::Query,
    ) -> Result<&mut V, SelectError>
    where
        A: SearchArgument<K>,
        ensures* writes_back { sem 𝓛 (LendsSoOk (map_row K.row V.row A.row K.Key A.Argument) V.row self.entry result (WritesBorrowed A.selects query self.old result) (λ n. n ≡ self.old)) }
        ensures value { IfOk result (BorrowsSelected A.selects query self.old) }
        ensures absent { IfErr result (SelectsNone A.selects query self.old) }
        ensures infallible { A.needs_no_memory → IsOkUnless result SelectError.NotFound }
    {
        self.inner.get_mut_by_argument(query)
    }

    /// Removes the pair at an index that is allowed for the query, and returns it, or `None`.
    ///
    /// O(log n). It fails only if a clone of a key or the argument fails; then the map is
    /// unchanged.
    pub fn remove_by_argument(
        &mut self,
        query: <A as SearchArgument<K>>::Query,
    ) -> Result<Option<(K, V)>, AllocError>
    where
        A: SearchArgument<K>,
        ensures ok { IfOk result (IsTaken A.selects query self.old self.new) }
        ensures by_key { IfOk result (RemovesReported K.cmp self.old self.new) }
        ensures unchanged { OnErr result (self.new ≡ self.old) }
        ensures infallible { A.needs_no_memory → AllInfallible K.is_infallible → IsOk result }
    {
        self.inner.remove_by_argument(query)
    }

    /// The rank of a key: `Ok` if the key is present, and else `Err`, within a `Result`.
    ///
    /// O(log n): one descent, which calls the argument once a level. It allocates only what the
    /// argument allocates, and fails only if the argument does.
    pub fn rank_by_argument(
        &self,
        k: &K,
    ) -> Result<Result<<A as RankArgument<K>>::Rank, <A as RankArgument<K>>::Rank>, AllocError>
    where
        A: RankArgument<K>,
        ensures ranked { IfOk result (EitherWay (A.ranks k.now (keys_of self.now))) }
        ensures present { IfOk result (λ a. is_ok a ≡ has K.cmp self.now k.now) }
        ensures infallible { A.needs_no_memory → IsOk result }
    {
        self.inner.rank_by_argument(k)
    }

    /// The result of a visitor on one descent, or `None` if it ends without one.
    ///
    /// O(log n). It allocates only what the visitor allocates, and fails only if the visitor does,
    /// or names a child that does not exist.
    pub fn descend_visit<W: DescendVisit<K, V, A>>(
        &self,
        visitor: W,
    ) -> Result<Option<W::Result>, DescendError>
        ensures outcome { IfOk result (λ outcome. W.outcomes visitor self.now (returned outcome)) }
        ensures error { IfErr result (IsAllowedError W.outcomes visitor self.now) }
    {
        self.inner.descend_visit(visitor)
    }

    /// An iterator over the pairs in the order of their keys, from both ends.
    ///
    /// O(log n) to begin, and O(1) a step. Neither it nor a step allocates or fails.
    pub fn iter(&self) -> Iter<'_, K, V, A>
        ensures rest { result ≡ self.now }
        ensures ascending { IsAscending K.cmp self.now }
        ensures runs { ShowsInOrder (deref_pair {K = K} {X = V}) }
    {
        Iter::new(self.inner.iter())
    }

    /// An iterator over the keys in their order, from both ends.
    ///
    /// O(log n) to begin, and O(1) a step. Neither it nor a step allocates or fails.
    pub fn keys(&self) -> Keys<'_, K, V, A>
        ensures rest { result ≡ keys_of self.now }
        ensures ascending { IsStrictlySortedBy K.cmp result }
        ensures runs { ShowsInOrder (deref {X = K}) }
    {
        Keys::new(self.iter())
    }

    /// An iterator over the values in the order of their keys, from both ends.
    ///
    /// O(log n) to begin, and O(1) a step. Neither it nor a step allocates or fails.
    pub fn values(&self) -> Values<'_, K, V, A>
        ensures rest { result ≡ values_of self.now }
        ensures runs { ShowsInOrder (deref {X = V}) }
    {
        Values::new(self.iter())
    }

    /// An iterator that moves the keys out, in their order. Each value is dropped at its step.
    ///
    /// O(log n) to begin, and O(1) a step. Neither it nor a step allocates or fails.
    pub fn into_keys(self) -> IntoKeys<K, V, A>
        ensures rest { result ≡ keys_of self }
        ensures ascending { IsStrictlySortedBy K.cmp result }
        ensures runs { GivesInOrder K }
        ensures runs_back { GivesInReverse K }
    {
        IntoKeys::new(self.into_iter())
    }

    /// An iterator that moves the values out, in the order of their keys. Each key is dropped at
    /// its step.
    ///
    /// O(log n) to begin, and O(1) a step. Neither it nor a step allocates or fails.
    pub fn into_values(self) -> IntoValues<K, V, A>
        ensures rest { result ≡ values_of self }
        ensures runs { GivesInOrder V }
        ensures runs_back { GivesInReverse V }
    {
        IntoValues::new(self.into_iter())
    }

    /// An iterator that moves the pairs out, in the order of their keys.
    ///
    /// O(log n) to begin, and O(1) a step. Neither it nor a step allocates or fails.
    pub fn into_iter(self) -> IntoIter<K, V, A>
        ensures rest { result ≡ self }
        ensures ascending { IsAscending K.cmp self }
        ensures runs { GivesInOrder (K × V) }
        ensures runs_back { GivesInReverse (K × V) }
    {
        IntoIter::new(self.inner.into_iter())
    }

    /// The pairs whose keys are at least `lo` and below `hi`, in the order of their keys. `None`
    /// means no bound.
    ///
    /// O(log n) to begin: one descent for each bound, whatever the number of pairs. O(1) a step.
    /// `len` takes O(1) for each leaf of the range. Neither it nor a step allocates or fails.
    pub fn range<'b>(&self, lo: Option<&'b K>, hi: Option<&'b K>) -> Iter<'_, K, V, A>
        ensures rest { result ≡ pairs_between K.cmp self.now lo.entry hi.entry }
        ensures ascending { IsAscending K.cmp result }
        ensures runs { ShowsInOrder (deref_pair {K = K} {X = V}) }
    {
        Iter::new(self.inner.range(lo, hi))
    }

    /// A summary of the keys that are at least `lo` and below `hi`, or `Default` if there are none.
    /// `None` means no bound.
    ///
    /// O(log n): one descent for each bound, whatever the number of pairs. The summaries of the
    /// children between both descents are combined. It fails only if the argument does, or if the
    /// allocation of room for two summaries fails.
    pub fn range_argument<'b>(&self, lo: Option<&'b K>, hi: Option<&'b K>) -> Result<A, AllocError>
        ensures { IfOk result (EntriesSumUpBetween A.is_summary K.cmp self.now lo.entry hi.entry) }
    {
        self.inner.range_argument(lo, hi)
    }

    /// A summary of the keys from an index that is allowed for one query on, up to an index that is
    /// allowed for another. If no index is allowed for the second query, it is a summary of all
    /// keys from the first index on. If no index is allowed for the first query, it is a summary of
    /// no keys.
    ///
    /// O(log n). It fails only if the argument does, or if the allocation of room for two summaries
    /// fails.
    pub fn part_argument(
        &self,
        from: <A as SearchArgument<K>>::Query,
        to: <A as SearchArgument<K>>::Query,
    ) -> Result<A, AllocError>
    where
        A: SearchArgument<K>,
        ensures { IfOk result (IsPartSummary A.is_summary A.selects from to (keys_of self.now)) }
    {
        self.inner.part_argument(from, to)
    }

    /// At most `n` pairs from an index on that is allowed for the query, in the order of their
    /// keys. If no index is allowed, there are no pairs.
    ///
    /// O(log n) to begin, and O(1) a step. `len` and the first step from the back take O(1) for
    /// each leaf of the range. It fails only if the argument does. A step allocates nothing and
    /// cannot fail.
    pub fn range_by_argument(
        &self,
        query: <A as SearchArgument<K>>::Query,
        n: usize,
    ) -> Result<Iter<'_, K, V, A>, AllocError>
    where
        A: SearchArgument<K>,
        ensures rest { IfOk result (λ pairs. IsPartSelected A.selects query self.now n pairs) }
        ensures ascending { IfOk result (λ pairs. IsAscending K.cmp pairs) }
        ensures infallible { A.needs_no_memory → IsOk result }
        ensures runs { ShowsInOrder (deref_pair {K = K} {X = V}) }
    {
        Ok(Iter::new(self.inner.range_by_argument(query, n)?))
    }

    /// The pairs whose keys are in a group, in the order of their keys.
    ///
    /// O(log n) to begin: two descents, which compute the groups of at most 7 keys or separators a
    /// node, and use no summary. O(1) a step. `len` takes O(1) for each leaf of the range. It
    /// allocates only what the groups of keys allocate, and fails only if one of these fails. A
    /// step allocates nothing and cannot fail.
    pub fn group_range<G: FromRef<K> + Key>(
        &self,
        group: &G,
    ) -> Result<Iter<'_, K, V, A>, AllocError>
        ensures rest { IfOk result (λ it. it ≡ of_group G.cmp G.group_of group.now self.now) }
        ensures ascending { IfOk result (λ pairs. IsAscending K.cmp pairs) }
        ensures runs { ShowsInOrder (deref_pair {K = K} {X = V}) }
    {
        Ok(Iter::new(self.inner.group_range(group)?))
    }

    /// At most `n` pairs of a group, from its pair with the index `i` on, counted from 0.
    ///
    /// O(log n) to begin if summaries determine how many keys they are of, as those of `Count` and
    /// `GroupCount` do, and else O(log n + i / 16). O(1) a step, but for the first one from the
    /// back. It allocates only what the groups of keys allocate, and fails only if one of these
    /// fails. A step allocates nothing and cannot fail.
    pub fn group_part<G: FromRef<K> + Key>(
        &self,
        group: &G,
        i: usize,
        n: usize,
    ) -> Result<Iter<'_, K, V, A>, AllocError>
        ensures rest { OkIs result (part (of_group G.cmp G.group_of group.now self.now) i n) }
        ensures ascending { IfOk result (λ pairs. IsAscending K.cmp pairs) }
        ensures runs { ShowsInOrder (deref_pair {K = K} {X = V}) }
    {
        Ok(Iter::new(self.inner.group_part(group, i, n)?))
    }

    /// The tree inside, whose contents are the map's.
    ///
    /// O(1). It allocates nothing and cannot fail.
    pub fn tree(&self) -> &BPlusTree<NodeStoreVec<K, V, A>>
        ensures { result.now.contents ≡ self.now }
    {
        &self.inner
    }

    /// The tree of the map, for writing. After the borrow the map has the pairs that the tree then
    /// has.
    ///
    /// O(1). It allocates nothing and cannot fail.
    pub fn tree_mut(&mut self) -> &mut BPlusTree<NodeStoreVec<K, V, A>>
        ensures* writes_back { sem 𝓛 (Lends (map_row K.row V.row A.row K.Key A.Argument) (inner_row K.row V.row A.row K.Key A.Argument) self.entry result (λ tree. tree.contents)) }
        ensures value { result.now.contents ≡ self.old }
    {
        &mut self.inner
    }
}

impl<K: Key, V: Drop> BPlusTreeMap<K, V, Count> {
    /// The number of keys that are at least `lo` and below `hi`. `None` means no bound.
    ///
    /// O(log n): one descent for each bound, whatever the number of keys. It allocates nothing and
    /// cannot fail.
    pub fn range_len<'b>(&self, lo: Option<&'b K>, hi: Option<&'b K>) -> usize
        ensures { result ≡ length (pairs_between K.cmp self.now lo.entry hi.entry) }
    {
        self.inner.range_len(lo, hi)
    }

    /// The index of the key that equals `k`, or `None`. It is the number of smaller keys, so it
    /// counts from 0.
    ///
    /// O(log n). It allocates nothing and cannot fail.
    pub fn get_index_of(&self, k: &K) -> Option<usize>
        ensures { result ≡ index K.cmp self.now k.now }
    {
        match self.rank_by_argument(k) {
            Ok(Ok(rank)) => Some(rank),
            Ok(Err(_)) => None,
            Err(_) => unreachable!(),
        }
    }

    /// The pair at an index in the order of the keys, counted from 0, or `None` past the last one.
    ///
    /// O(log n). It allocates nothing and cannot fail.
    pub fn get_index(&self, i: usize) -> Option<(&K, &V)>
        ensures { option_map deref_pair result ≡ slice_get self.now i }
    {
        match self.get_by_argument(i) {
            Ok(found) => found,
            Err(_) => unreachable!(),
        }
    }

    /// The value at an index in the order of the keys, counted from 0, for writing.
    ///
    /// O(log n). It allocates nothing, and fails only with `NotFound`, past the last pair.
    pub fn get_index_mut(&mut self, i: usize) -> Result<&mut V, SelectError>
        ensures* writes_back { sem 𝓛 (LendsSoOk (count_map_row K.row V.row K.Key) V.row self.entry result (λ n w. n ≡ set_value_at self.old i w) (λ n. n ≡ self.old)) }
        ensures value { IfOk result (λ borrowed. slice_get (values_of self.old) i ≡ Some borrowed.now) }
        ensures past { IfErr result (λ e. (e ≡ SelectError.NotFound) × (length self.old ≤ i)) }
    {
        self.inner.get_mut_by_argument(i)
    }

    /// Removes the pair at an index in the order of the keys, counted from 0, and returns it, or
    /// `None` past the last one. The indexes of the pairs behind it become smaller by one.
    ///
    /// O(log n). It fails only if a clone of a key fails; then the map is unchanged. Past the last
    /// pair it cannot fail.
    pub fn remove_index(&mut self, i: usize) -> Result<Option<(K, V)>, AllocError>
        ensures ok { IfOk result (λ gone. (gone ≡ slice_get self.old i) × (self.new ≡ remove self.old i)) }
        ensures past { length self.old ≤ i → result ≡ Ok None }
        ensures unchanged { OnErr result (self.new ≡ self.old) }
        ensures infallible { AllInfallible K.is_infallible → IsOk result }
    {
        if i >= self.len() {
            return Ok(None);
        }
        self.remove_by_argument(i)
    }
}

impl<K: Key, V: Clone + Drop, A: CloneArgument<K>> BPlusTreeMap<K, V, A> {
    /// A map of equal keys in the same order, whose values are clones.
    ///
    /// O(n): each key, value and summary is cloned once. It fails only if an allocation or a clone
    /// fails; then what was cloned is dropped.
    pub fn clone(&self) -> Result<Self, AllocError>
        ensures { IfOk result (ArePairsCloned K.cmp V.is_clone self.now) }
    {
        Ok(BPlusTreeMap {
            inner: self.inner.clone()?,
        })
    }
}

impl<K: Key, V: Drop, A: Argument<K>> IntoIterator for BPlusTreeMap<K, V, A> {
    type Item = (K, V);

    type IntoIter = IntoIter<K, V, A>;

    ghost into_iter_gives = { λ map pairs. (pairs ≡ map) × IsAscending K.cmp map × GivesInOrder (K × V) × GivesInReverse (K × V) };

    fn into_iter(self) -> IntoIter<K, V, A> {
        BPlusTreeMap::into_iter(self)
    }
}
