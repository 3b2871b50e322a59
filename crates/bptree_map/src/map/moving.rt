//! Insertion of many pairs at once: those of an iterator, and those of another map.
ghost use Rattle.std.specs.Prelude.{◌≡◌, ◌↔◌, ◌⊎◌, ◌+◌, ◌<◌, [], Err, length, IsOk, IfOk, IfErr, OnErr, OnOk};
ghost use Rattle.std.specs.Iterator.{IsFiniteIterable as AreFinite};
ghost use Rattle.bptree_tree.specs.Changes.{IsFailureOf};
ghost use Rattle.bptree_tree.specs.Returning.{pair_of};
ghost use Rattle.bptree_tree.specs.declared.AppendError.TheVariants.{Full};
ghost use Rattle.bptree_bulk.specs.Weave.{put_pair};
ghost use Rattle.bptree_map.specs.Moving.{AllMove, ExtendsMap, ExtendsUpTo};
ghost use Rattle.bptree_map.specs.Splitting.{SplitsOff};

use crate::map::BPlusTreeMap;
use bptree_arguments::argument::Argument;
use bptree_keys::key::Key;
use bptree_tree::{AppendError, InsertError};
use std::alloc::AllocError;

impl<K: Key, V: Drop, A: Argument<K>> BPlusTreeMap<K, V, A> {
    /// Puts the pairs that an iterator yields, one after another, as `insert` does: of pairs with
    /// equal keys the last value stays, and the key that was stored first.
    ///
    /// O(m log(n + m)) for m pairs: it costs an insertion a pair. If one fails, the pairs before it
    /// are stored, the error returns that pair, and the rest of the iterator is dropped. A pair
    /// whose key is present never fails. The error is `Full` if the map as it is left has
    /// `usize::MAX` pairs.
    pub fn extend<I: IntoIterator<Item = (K, V)>>(
        &mut self,
        pairs: I,
    ) -> Result<(), InsertError<K, V>>
        requires { AreFinite I.into_iter_gives I.IntoIter.can_next I.IntoIter.remaining pairs }
        ensures ok { OnOk result (ExtendsMap (put_pair K.cmp) I.IntoIter.next_gives I.into_iter_gives pairs self.old self.new) }
        ensures err { IfErr result (λ r. ExtendsUpTo (put_pair K.cmp) I.IntoIter.next_gives I.into_iter_gives pairs self.old self.new (pair_of r)) }
        ensures kind { IfErr result (IsFailureOf K.cmp usize.MAX self.new) }
    {
        for (k, v) in pairs {
            match self.insert(k, v) {
                Ok(_) => {}
                Err(refusal) => return Err(refusal),
            }
        }
        Ok(())
    }

    /// Moves all pairs of another map here. Of two equal keys this map's key stays, and it takes
    /// the other's value.
    ///
    /// O(n) comparisons for n pairs of both. Before a pair moves it allocates four leaves, the
    /// nodes above the leaves and a byte for each pair, clones a key of each leaf and computes
    /// summaries of the keys. If one of these fails, neither map changes. If each key of one map is
    /// below each key of the other and both have at least 16 pairs, each leaf moves as it is, in
    /// O(n / 32): it compares only the keys at the ends, and allocates only the nodes above the
    /// leaves. If the other map has less than a sixth of this one's pairs and no removal can fail,
    /// as `clones_never_fail` and `never_fails` say, it inserts these one by one instead; if one
    /// fails, it takes back those before it. If either map is empty, it allocates nothing and
    /// cannot fail. It returns `Full` exactly if both together have more than `usize::MAX` pairs.
    pub fn append(&mut self, other: &mut Self) -> Result<(), AppendError>
        ensures ok { OnOk result (AllMove (put_pair K.cmp) self.old other.old self.new other.new) }
        ensures full { (result ≡ Err Full) ↔ (usize.MAX < length self.old + length other.old) }
        ensures infallible { (self.old ≡ []) ⊎ (other.old ≡ []) → IsOk result }
        ensures unchanged { OnErr result ((self.new ≡ self.old) × (other.new ≡ other.old)) }
    {
        self.inner.append(&mut other.inner)
    }

    /// Moves the pairs whose key is not below `k` to a map of their own.
    ///
    /// O(log n) comparisons to find the cut, and O(n / 32) for n pairs: each leaf moves as it is,
    /// except for the three at the cut. Before that it allocates the nodes above the leaves, clones
    /// the first key of each leaf and computes a summary of its keys. If one of these fails,
    /// nothing changes. If fewer than n / 32 pairs move and no removal can fail, as
    /// `clones_never_fail` and `never_fails` say, it removes these one by one. If all pairs stay or
    /// all move, it allocates one leaf, and moves no leaf.
    pub fn split_off(&mut self, k: &K) -> Result<Self, AllocError>
        ensures ok { IfOk result (SplitsOff K.cmp k.now self.old self.new) }
        ensures unchanged { OnErr result (self.new ≡ self.old) }
    {
        let inner = self.inner.split_off(k)?;
        Ok(BPlusTreeMap { inner })
    }
}
