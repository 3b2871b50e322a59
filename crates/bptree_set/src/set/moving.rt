//! Removal and replacement of one key, and insertion of many keys at once.
ghost use Rattle.std.specs.Prelude.{◌≡◌, ◌↔◌, ◌⊎◌, ◌+◌, ◌<◌, [], false, length, Err, IsOk, IsTrue, IfOk, IfErr, OnErr, OnOk, Ok, Some, None};
ghost use Rattle.std.specs.Iterator.{IsFiniteIterable as AreFinite};
ghost use Rattle.std.specs.Option.{option_map};
ghost use Rattle.bptree_tree.specs.Returning.{pair_of};
ghost use Rattle.bptree_tree.specs.declared.AppendError.TheVariants.{Full};
ghost use Rattle.bptree_keys.specs.Keys.{AllInfallible};
ghost use Rattle.bptree_map.specs.Keys.{holds, with_key};
ghost use Rattle.bptree_map.specs.Moving.{AllMove, ExtendsMap, ExtendsUpTo};
ghost use Rattle.bptree_map.specs.Splitting.{SplitsKeysOff};
ghost use Rattle.bptree_map.specs.KeyChanges.{IsKeyFailureOf, ReplacesKey, TakesKey};

use crate::set::BPlusTreeSet;
use bptree_keys::key::Key;
use bptree_tree::{AppendError, InsertError, ReplaceError};
use std::alloc::AllocError;

// The key of a pair, if there is one.
fn key_alone<K: Drop>(pair: Option<(K, ())>) -> Option<K>
    ensures { result ≡ option_map (λ pair. pair.0) pair }
{
    match pair {
        Some((key, ())) => Some(key),
        None => None,
    }
}

impl<K: Key> BPlusTreeSet<K> {
    /// Removes the key that equals `k`, and returns the stored key, or `None` if there is no such
    /// key.
    ///
    /// O(log n). It fails only if a clone of a key fails; then the set is unchanged. If there is no
    /// such key, it cannot fail.
    pub fn take(&mut self, k: &K) -> Result<Option<K>, AllocError>
        ensures ok { IfOk result (TakesKey K.cmp k.now self.old self.new) }
        ensures absent { holds K.cmp self.old k.now ≡ false → result ≡ Ok None }
        ensures unchanged { OnErr result (self.new ≡ self.old) }
        ensures infallible { AllInfallible K.is_infallible → IsOk result }
    {
        let gone = self.map.remove_entry(k)?;
        Ok(key_alone(gone))
    }

    /// Replaces the key that equals `k` by `k`, and returns it. If no key equals `k`, inserts `k`,
    /// and returns `None`.
    ///
    /// O(log n): one descent, and a second one if `k` is inserted. If a key equals `k`, it
    /// allocates nothing and cannot fail. Otherwise it fails if `insert` does; then the error
    /// returns `k`, and the set is unchanged.
    pub fn replace(&mut self, k: K) -> Result<Option<K>, InsertError<K, ()>>
        ensures ok { IfOk result (ReplacesKey K.cmp k self.old self.new) }
        ensures err { IfErr result (λ r. (pair_of r ≡ (k, tt)) × (self.new ≡ self.old)) }
        ensures kind { IfErr result (IsKeyFailureOf K.cmp usize.MAX self.old) }
        ensures present { IsTrue (holds K.cmp self.old k) → IsOk result }
    {
        match self.map.replace_key(k) {
            Ok(old) => Ok(Some(old)),
            Err(ReplaceError::Absent(k)) => match self.insert(k) {
                Ok(_) => Ok(None),
                Err(refusal) => Err(refusal),
            },
            Err(ReplaceError::OutOfMemory(k)) => Err(InsertError::OutOfMemory(k, ())),
        }
    }

    /// Inserts the keys that an iterator yields, one after another, as `insert` does: a key that
    /// was stored stays.
    ///
    /// O(m log(n + m)) for m keys: it costs an insertion a key. If one fails, the keys before it
    /// are stored, the error returns that key, and the rest of the iterator is dropped. A key that
    /// is present never fails. The error is `Full` if the set as it is left has `usize::MAX` keys.
    pub fn extend<I: IntoIterator<Item = K>>(&mut self, keys: I) -> Result<(), InsertError<K, ()>>
        requires { AreFinite I.into_iter_gives I.IntoIter.can_next I.IntoIter.remaining keys }
        ensures ok { OnOk result (ExtendsMap (with_key K.cmp) I.IntoIter.next_gives I.into_iter_gives keys self.old self.new) }
        ensures err { IfErr result (λ r. ExtendsUpTo (with_key K.cmp) I.IntoIter.next_gives I.into_iter_gives keys self.old self.new (pair_of r).0) }
        ensures kind { IfErr result (IsKeyFailureOf K.cmp usize.MAX self.new) }
    {
        for k in keys {
            match self.insert(k) {
                Ok(_) => {}
                Err(refusal) => return Err(refusal),
            }
        }
        Ok(())
    }

    /// Moves all keys of another set here. Of two equal keys this set's stays, and the other's is
    /// dropped.
    ///
    /// O(n) comparisons for n keys of both. Before a key moves it allocates four leaves, the nodes
    /// above the leaves and a byte for each key, and clones a key of each leaf. If one of these
    /// fails, neither set changes. If each key of one set is below each key of the other and both
    /// have at least 16 keys, each leaf moves as it is, in O(n / 32): it compares only the keys at
    /// the ends, and allocates only the nodes above the leaves. If the other set has less than a
    /// sixth of this one's keys and no clone of a key can fail, as `clones_never_fail` says, it
    /// inserts these one by one instead; if one fails, it takes back those before it. If either set
    /// is empty, it allocates nothing and cannot fail. It returns `Full` exactly if both together
    /// have more than `usize::MAX` keys.
    pub fn append(&mut self, other: &mut Self) -> Result<(), AppendError>
        ensures ok { OnOk result (AllMove (with_key K.cmp) self.old other.old self.new other.new) }
        ensures full { (result ≡ Err Full) ↔ (usize.MAX < length self.old + length other.old) }
        ensures infallible { (self.old ≡ []) ⊎ (other.old ≡ []) → IsOk result }
        ensures unchanged { OnErr result ((self.new ≡ self.old) × (other.new ≡ other.old)) }
    {
        self.map.append(&mut other.map)
    }

    /// Moves the keys that are not below `k` to a set of their own.
    ///
    /// O(log n) comparisons to find the cut, and O(n / 32) for n keys: each leaf moves as it is,
    /// except for the three at the cut. Before that it allocates the nodes above the leaves and
    /// clones the first key of each leaf. If one of these fails, nothing changes. If fewer than n /
    /// 32 keys move and no clone of a key can fail, as `clones_never_fail` says, it removes these
    /// one by one. If all keys stay or all move, it allocates one leaf, and moves no leaf.
    pub fn split_off(&mut self, k: &K) -> Result<Self, AllocError>
        ensures ok { IfOk result (SplitsKeysOff K.cmp k.now self.old self.new) }
        ensures unchanged { OnErr result (self.new ≡ self.old) }
    {
        let map = self.map.split_off(k)?;
        Ok(BPlusTreeSet { map })
    }
}
