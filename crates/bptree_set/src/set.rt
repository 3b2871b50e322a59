//! An ordered set.
ghost use Rattle.std.specs.Prelude.{◌≡◌, ◌^◌, ◌*◌, ◌<◌, [], false, not, length, slice_get, IfOk, IfErr, OnErr, Ok, Err, None, IsOk, IsTrue, ◌↔◌, List};
ghost use Rattle.std.specs.Borrow.{Lends, sem};
ghost use Rattle.std.specs.Iterator.{IsFiniteIterable as AreFinite};
ghost use Rattle.std.specs.List.Sorted.{IsStrictlySortedBy};
ghost use Rattle.std.specs.Map.{keys_of};
ghost use Rattle.std.specs.Map.Iter.{ShowsInOrder, GivesInOrder, GivesInReverse, TakesFirst, TakesLast, deref};
ghost use Rattle.std.specs.Option.{option_copied, option_copied as given};
ghost use Rattle.bptree_tree.specs.Returning.{pair_of};
ghost use Rattle.bptree_map.specs.Keys.{holds, key_found, keys_between, keys_within, keys_without, IsDisjoint, IsSubset};
ghost use Rattle.bptree_map.specs.Rows.{inner_row_of_set};
ghost use Rattle.bptree_set.specs.Beside.{ShowsSifted};
ghost use Rattle.bptree_set.specs.Rows.{set_row};
ghost use Rattle.bptree_map.specs.Gathering.{AreFewFor, IsSetOf};
ghost use Rattle.bptree_map.specs.KeyChanges.{IsFullForKey, PutsKey, RemovesKey};
ghost use Rattle.bptree_keys.specs.Contents.{last_member};
ghost use Rattle.bptree_keys.specs.Keys.{AllInfallible};

mod borrowed;
mod bounds;
mod difference;
mod extending;
mod intersection;
mod joined;
mod laws;
mod many;
mod moving;
mod retaining;
mod sifted;
mod symmetric;
mod union;

use bptree_keys::key::Key;
pub use bptree_map::failures::RetainError;
use bptree_map::gathering::gather_map;
use bptree_map::map::{BPlusTreeMap, IntoKeys, Keys};
use bptree_stores::node_store_vec::NodeStoreVec;
pub use bptree_tree::AppendError;
use bptree_tree::{BPlusTree, InsertError};
pub use difference::DifferenceOp;
pub use intersection::IntersectionOp;
pub use joined::{Joined, Joining, SymmetricDifference, Union};
pub use laws::{laws_of_keys, laws_of_two_sets};
pub use sifted::{Difference, Intersection, SetOp, Sifted};
use std::alloc::{AllocError, Global};
use std::marker::Model;
pub use symmetric::InOneAlone;
pub use union::{UnionOp, laws_of_union};

// Each key of a set is looked up in another if the other has at least this many times as many keys.
const SEEK_RATIO: usize = 16;

/// Keys in their strictly ascending order.
#[derive(Drop)]
pub struct BPlusTreeSet<K: Key> {
    pub(crate) map: BPlusTreeMap<K, ()>,
}

impl<K: Key> Model for BPlusTreeSet<K> {
    ghost use Rattle.std.specs.Prelude.{List};
    ghost use Rattle.std.specs.Map.{keys_of};

    ghost Value = { List K };

    ghost view = { λ set. keys_of set.map };
}

impl<K: Key> BPlusTreeSet<K> {
    /// A set with no keys.
    ///
    /// O(1). It allocates one leaf, and fails only if an allocation fails.
    pub fn new(alloc: Global) -> Result<Self, AllocError>
        ensures { IfOk result (λ set. set ≡ []) }
    {
        Ok(BPlusTreeSet {
            map: BPlusTreeMap::new(alloc)?,
        })
    }

    /// A set with no keys, as `new` makes.
    ///
    /// O(1). It fails only if an allocation fails.
    pub fn default(alloc: Global) -> Result<Self, AllocError>
        ensures { IfOk result (λ set. set ≡ []) }
    {
        BPlusTreeSet::new(alloc)
    }

    /// A set of the keys of an iterator, in any order. Of equal keys the last one is kept.
    ///
    /// O(n log n) for n keys: they are collected in a vector, sorted and loaded. It fails only if
    /// an allocation or a clone of a key fails; then the keys are dropped.
    pub fn from_iter<I: IntoIterator<Item = K>>(alloc: Global, iter: I) -> Result<Self, AllocError>
        requires { AreFinite I.into_iter_gives I.IntoIter.can_next I.IntoIter.remaining iter }
        ensures { IfOk result (IsSetOf I.into_iter_gives K.cmp I.IntoIter.next_gives iter) }
    {
        let keys = iter.into_iter();
        let mut pairs = Vec::with_capacity(alloc, keys.size_hint().0)?;
        for k in keys {
            pairs.push((k, ()))?;
        }
        Ok(BPlusTreeSet {
            map: gather_map(pairs)?,
        })
    }

    /// The number of keys.
    ///
    /// O(1). It allocates nothing and cannot fail.
    pub fn len(&self) -> usize
        ensures value { result ≡ length self.now }
        ensures ascending { IsStrictlySortedBy K.cmp self.now }
    {
        self.map.len()
    }

    /// Recalls what holds of every set, for the proofs of callers: the length fits in 64 bits, and
    /// the keys ascend. It does nothing, in constant time, and never fails.
    ///
    /// O(1).
    #[inline(always)]
    pub fn recall(&self)
        ensures fits { length self.now < 2 ^ 64 }
        ensures ascending { IsStrictlySortedBy K.cmp self.now }
    {
        self.map.recall();
    }

    /// Whether there are no keys.
    ///
    /// O(1). It allocates nothing and cannot fail.
    pub fn is_empty(&self) -> bool
        ensures { IsTrue result ↔ (self.now ≡ []) }
    {
        self.map.is_empty()
    }

    /// Inserts `k`, and returns whether no key equals it. If a key equals `k`, that key is kept,
    /// and `k` is dropped.
    ///
    /// O(log n), amortized over the growth of the store. It allocates if a leaf is full, and fails
    /// with `OutOfMemory` if an allocation or a clone of a key fails. It fails with `Full` if the
    /// set has `usize::MAX` keys and `k` is new. Then the set is unchanged, and the error returns
    /// `k`. If a key equals `k`, it allocates nothing and cannot fail.
    pub fn insert(&mut self, k: K) -> Result<bool, InsertError<K, ()>>
        ensures ok { IfOk result (PutsKey K.cmp k self.old self.new) }
        ensures err { IfErr result (λ r. (pair_of r ≡ (k, tt)) × (self.new ≡ self.old)) }
        ensures present { IsTrue (holds K.cmp self.old k) → IsOk result }
        ensures full { (result ≡ Err (InsertError.Full k tt)) ↔ IsFullForKey K.cmp usize.MAX self.old k }
    {
        Ok(self.map.insert(k, ())?.is_none())
    }

    /// Removes the key that equals `k`, and returns whether there was one.
    ///
    /// O(log n). It fails only if a clone of a key fails; then the set is unchanged. If there is no
    /// such key, it cannot fail.
    pub fn remove(&mut self, k: &K) -> Result<bool, AllocError>
        ensures ok { IfOk result (RemovesKey K.cmp k.now self.old self.new) }
        ensures absent { holds K.cmp self.old k.now ≡ false → result ≡ Ok false }
        ensures unchanged { OnErr result (self.new ≡ self.old) }
        ensures infallible { AllInfallible K.is_infallible → IsOk result }
    {
        Ok(self.map.remove(k)?.is_some())
    }

    /// Whether a key equals `k`.
    ///
    /// O(log n). It allocates nothing and cannot fail.
    pub fn contains(&self, k: &K) -> bool
        ensures { result ≡ holds K.cmp self.now k.now }
    {
        self.map.get(k).is_some()
    }

    /// Whether a key equals `k`, and the number of comparisons of keys: at least 1 unless the set
    /// is empty. Tests check that the search makes no comparison that it does not count.
    ///
    /// O(log n), or O(1) if the store has cached the leaf of `k`. It allocates nothing and cannot
    /// fail.
    pub fn contains_counted(&self, k: &K) -> (bool, usize)
        ensures value { result.0 ≡ holds K.cmp self.now k.now }
        ensures count { AreFewFor (length self.now) result.1 }
        ensures some { 0 < length self.now → 0 < result.1 }
    {
        let (value, compares) = self.map.get_counted(k);
        (value.is_some(), compares)
    }

    /// The stored key that equals `k`, or `None`.
    ///
    /// O(log n). It allocates nothing and cannot fail.
    pub fn get(&self, k: &K) -> Option<&K>
        ensures { option_copied result ≡ key_found K.cmp self.now k.now }
    {
        match self.map.get_key_value(k) {
            Some((key, _)) => Some(key),
            None => None,
        }
    }

    /// Removes the least key, and returns it, or `None` if the set is empty.
    ///
    /// O(log n): at most one descent, which compares no key. It fails only if a clone of a key
    /// fails; then the set is unchanged. If the set is empty, it cannot fail.
    pub fn pop_first(&mut self) -> Result<Option<K>, AllocError>
        ensures ok { IfOk result (λ gone. TakesFirst (λ key. key) self.old gone self.new) }
        ensures empty { self.old ≡ [] → result ≡ Ok None }
        ensures unchanged { OnErr result (self.new ≡ self.old) }
        ensures infallible { AllInfallible K.is_infallible → IsOk result }
    {
        match self.map.pop_first()? {
            Some((key, ())) => Ok(Some(key)),
            None => Ok(None),
        }
    }

    /// Removes the greatest key, and returns it, or `None` if the set is empty.
    ///
    /// O(log n): at most one descent, which compares no key. It fails only if a clone of a key
    /// fails; then the set is unchanged. If the set is empty, it cannot fail.
    pub fn pop_last(&mut self) -> Result<Option<K>, AllocError>
        ensures ok { IfOk result (λ gone. TakesLast (λ key. key) self.old gone self.new) }
        ensures empty { self.old ≡ [] → result ≡ Ok None }
        ensures unchanged { OnErr result (self.new ≡ self.old) }
        ensures infallible { AllInfallible K.is_infallible → IsOk result }
    {
        match self.map.pop_last()? {
            Some((key, ())) => Ok(Some(key)),
            None => Ok(None),
        }
    }

    /// Removes all keys.
    ///
    /// O(n) to drop them. It allocates one leaf, and fails only if that fails; then the set is
    /// unchanged.
    pub fn clear(&mut self) -> Result<(), AllocError>
        ensures ok { IfOk result (λ _. self.new ≡ []) }
        ensures unchanged { OnErr result (self.new ≡ self.old) }
    {
        self.map.clear()
    }

    /// The least key.
    ///
    /// O(log n). It allocates nothing and cannot fail.
    pub fn first(&self) -> Option<&K>
        ensures { option_copied result ≡ slice_get self.now 0 }
    {
        let (key, _) = self.map.first()?;
        Some(key)
    }

    /// The greatest key.
    ///
    /// O(log n). It allocates nothing and cannot fail.
    pub fn last(&self) -> Option<&K>
        ensures { option_copied result ≡ last_member self.now }
    {
        let (key, _) = self.map.last()?;
        Some(key)
    }

    /// An iterator over the keys in their order, from both ends.
    ///
    /// O(log n) to begin, and O(1) a step. Neither it nor a step allocates or fails.
    pub fn iter(&self) -> Iter<'_, K>
        ensures rest { result ≡ self.now }
        ensures ascending { IsStrictlySortedBy K.cmp self.now }
        ensures runs { ShowsInOrder (deref {X = K}) }
    {
        self.map.keys()
    }

    /// The keys that are at least `lo` and below `hi`, in their order. `None` means no bound.
    ///
    /// O(log n) to begin: one descent for each bound, whatever the number of keys. O(1) a step.
    /// `len` takes O(1) for each leaf of the range. Neither it nor a step allocates or fails.
    pub fn range<'b>(&self, lo: Option<&'b K>, hi: Option<&'b K>) -> Iter<'_, K>
        ensures rest { result ≡ keys_between K.cmp self.now (given lo.entry) (given hi.entry) }
        ensures ascending { IsStrictlySortedBy K.cmp result }
        ensures runs { ShowsInOrder (deref {X = K}) }
    {
        Keys::new(self.map.range(lo, hi))
    }

    /// An iterator that moves the keys out, in their order.
    ///
    /// O(log n) to begin, and O(1) a step. Neither it nor a step allocates or fails.
    pub fn into_iter(self) -> IntoIter<K>
        ensures rest { result ≡ self }
        ensures ascending { IsStrictlySortedBy K.cmp self }
        ensures runs { GivesInOrder K }
        ensures runs_back { GivesInReverse K }
    {
        self.map.into_keys()
    }

    /// An iterator over the keys of both sets in their order. Of two equal keys it returns that of
    /// this set.
    ///
    /// All steps take O(n + m) for n and m keys. Neither it nor a step allocates or fails.
    pub fn union<'a>(&'a self, other: &'a Self) -> Union<'a, K>
        ensures { result ≡ (self.now, other.now) }
    {
        self.recall();
        other.recall();
        Union::new(self.iter(), other.iter())
    }

    /// An iterator over the keys of this set that no key of the other set equals, in their order.
    ///
    /// All steps take O(n + m) for n keys here and m in the other set. If n is at most m / 16, each
    /// key is looked up in the other set, in O(n log m). Neither it nor a step allocates or fails.
    pub fn difference<'a>(&'a self, other: &'a Self) -> Difference<'a, K>
        ensures rest { result ≡ (self.now, other.now) }
        ensures ascending { IsStrictlySortedBy K.cmp (keys_without K.cmp self.now other.now) }
        ensures runs { ShowsSifted K.cmp not }
    {
        Sifted::new(self, other)
    }

    /// An iterator over the keys of this set that a key of the other set equals, in their order.
    ///
    /// All steps take O(n + m) for n and m keys. If one set has at most a sixteenth of the other's
    /// keys, each of its keys is looked up in the other, in O(n log m). Neither it nor a step
    /// allocates or fails.
    pub fn intersection<'a>(&'a self, other: &'a Self) -> Intersection<'a, K>
        ensures rest { result ≡ (self.now, other.now) }
        ensures ascending { IsStrictlySortedBy K.cmp (keys_within K.cmp self.now other.now) }
        ensures runs { ShowsSifted K.cmp (λ held. held) }
    {
        if other.len() <= self.len() / SEEK_RATIO {
            return Sifted::fetching(self, other);
        }
        Sifted::new(self, other)
    }

    /// An iterator over the keys of both sets in their order, without those that both sets hold.
    ///
    /// All steps take O(n + m) for n and m keys. Neither it nor a step allocates or fails.
    pub fn symmetric_difference<'a>(&'a self, other: &'a Self) -> SymmetricDifference<'a, K>
        ensures { result ≡ (self.now, other.now) }
    {
        self.recall();
        other.recall();
        SymmetricDifference::new(self.iter(), other.iter())
    }

    /// Whether each key of this set equals one of the other set.
    ///
    /// O(1) if this set has more keys, and else at most what all steps of `difference` take. It
    /// allocates nothing and cannot fail.
    pub fn is_subset(&self, other: &Self) -> bool
        ensures { IsTrue result ↔ IsSubset K.cmp self.now other.now }
    {
        if other.len() < self.len() {
            return false;
        }
        self.difference(other).next().is_none()
    }

    /// Whether each key of the other set equals one of this set.
    ///
    /// O(n + m) at most for n and m keys, as `is_subset`. It allocates nothing and cannot fail.
    pub fn is_superset(&self, other: &Self) -> bool
        ensures { IsTrue result ↔ IsSubset K.cmp other.now self.now }
    {
        other.is_subset(self)
    }

    /// Whether no key of this set equals one of the other set.
    ///
    /// O(n + m) at most for n and m keys: it costs what `intersection` costs up to the first key
    /// that both have. It allocates nothing and cannot fail.
    pub fn is_disjoint(&self, other: &Self) -> bool
        ensures { IsTrue result ↔ IsDisjoint K.cmp self.now other.now }
    {
        self.intersection(other).next().is_none()
    }

    /// The tree inside, whose keys are the set's.
    ///
    /// O(1). It allocates nothing and cannot fail.
    pub fn tree(&self) -> &BPlusTree<NodeStoreVec<K, ()>>
        ensures { keys_of result.now.contents ≡ self.now }
    {
        self.map.tree()
    }

    /// The tree of the set, for writing. After the borrow the set has the keys that the tree then
    /// has.
    ///
    /// O(1). It allocates nothing and cannot fail.
    pub fn tree_mut(&mut self) -> &mut BPlusTree<NodeStoreVec<K, ()>>
        ensures* writes_back { sem 𝓛 (Lends (set_row K.row K.Key) (inner_row_of_set K.row K.Key) self.entry result (λ tree. keys_of tree.contents)) }
        ensures value { keys_of result.now.contents ≡ self.old }
    {
        self.map.tree_mut()
    }
}

impl<K: Key> IntoIterator for BPlusTreeSet<K> {
    type Item = K;

    type IntoIter = IntoIter<K>;

    ghost into_iter_gives = { λ set keys. (keys ≡ set) × IsStrictlySortedBy K.cmp set × GivesInOrder K × GivesInReverse K };

    fn into_iter(self) -> IntoIter<K> {
        self.into_iter()
    }
}

/// The keys of a set that are left, in their order. A step allocates nothing.
pub type Iter<'a, K> = Keys<'a, K, (), ()>;

/// The keys of an owned set that are left, in their order. A step allocates nothing and cannot
/// fail. The keys that are left are dropped with the iterator.
pub type IntoIter<K> = IntoKeys<K, (), ()>;
