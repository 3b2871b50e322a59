//! Values of a map that a closure changes in place, or makes.
ghost use Rattle.std.specs.Prelude.{◌≡◌, false, true, IfErr, IfOk, IsOk, Ok, OnErr, OnOk, Some};
ghost use Rattle.std.specs.Borrow.{Lends, LendsIfOk, sem};
ghost use Rattle.std.specs.declared.cmp.Ordering.TheVariants.{Equal};
ghost use Rattle.bptree_propagation.specs.Borrowing.{written};
ghost use Rattle.bptree_keys.specs.Contents.{has, put, value};
ghost use Rattle.bptree_map.specs.Rows.{map_row};
ghost use Rattle.bptree_map.specs.Updates.{IsFullExactly, IsPutIfAbsent, FailsAt, IsThereOrMade, IsUpdatedAt};
ghost use Rattle.bptree_nodes.specs.Updating.{ChangesInTurn};
ghost use Rattle.bptree_tree.specs.Returning.{ReturnsPair};
ghost use Rattle.bptree_tree.specs.Updating.{UpdatesBetween};
ghost use Rattle.bptree_tree.specs.Changes.{FailsIfFull};

use super::BPlusTreeMap;
use bptree_arguments::argument::Argument;
use bptree_keys::key::Key;
use bptree_tree::InsertError;

impl<K: Key, V: Drop, A: Argument<K>> BPlusTreeMap<K, V, A> {
    /// Changes the value at `k` by a closure, or inserts `v` if no key equals `k`. It returns
    /// whether a pair was inserted.
    ///
    /// O(log n). If a key equals `k`, that key is kept, `k` and `v` are dropped, and the call
    /// allocates nothing and cannot fail. Otherwise it fails if `insert` does; then the error
    /// returns `k` and `v`, and the map is unchanged.
    pub fn upsert_with<F: FnOnce(&mut V)>(
        &mut self,
        k: K,
        v: V,
        f: F,
    ) -> Result<bool, InsertError<K, V>>
        requires { F.IsAlwaysCallable f }
        ensures present { has K.cmp self.old k ≡ true → result ≡ Ok false }
        ensures changed { has K.cmp self.old k ≡ true → IsUpdatedAt F.FnOnce f K.cmp self.old k self.new }
        ensures absent { has K.cmp self.old k ≡ false → IfOk result (λ added. (added ≡ true) × (self.new ≡ put K.cmp self.old k v)) }
        ensures err { IfErr result (ReturnsPair (k, v) self.old self.new) }
        ensures full { FailsIfFull K.cmp usize.MAX self.old k v result }
    {
        match self.get_mut(&k) {
            Some(value) => {
                f(value);
                Ok(false)
            }
            None => match self.insert(k, v) {
                Ok(_) => Ok(true),
                Err(refusal) => Err(refusal),
            },
        }
    }

    /// The value at `k`, for writing. If no key equals `k`, a closure makes a value, and the pair
    /// is inserted first.
    ///
    /// O(log n): two descents if a key equals `k`, and else three. If a key equals `k`, it is kept,
    /// `k` is dropped, the closure is not called, and the call allocates nothing and cannot fail.
    /// Otherwise it clones `k`, and fails if the clone or the insertion fails; then the error
    /// returns the pair, and the map is unchanged. The error is `Full` if the map has `usize::MAX`
    /// pairs.
    pub fn get_or_insert_with<F: FnOnce() -> V>(
        &mut self,
        k: K,
        f: F,
    ) -> Result<&mut V, InsertError<K, V>>
        requires { has K.cmp self.old k ≡ false → F.pre f }
        ensures* writes_back { sem 𝓛 (LendsIfOk (map_row K.row V.row A.row K.Key A.Argument) V.row self.entry result (put K.cmp self.old k) self.old) }
        ensures value { IfOk result (λ borrowed. IsThereOrMade (F.post f) K.cmp self.old k borrowed.now) }
        ensures present { has K.cmp self.old k ≡ true → IsOk result }
        ensures err { IfErr result (FailsAt (F.post f) k) }
        ensures full { IsFullExactly K.cmp usize.MAX k self.old result }
    {
        let key = self.put_absent(k, f)?;
        Ok(self.value_at_mut(&key))
    }

    // Inserts a value that the closure makes if no key equals `k`. It returns a key that equals
    // `k`.
    fn put_absent<F: FnOnce() -> V>(&mut self, k: K, f: F) -> Result<K, InsertError<K, V>>
        requires { has K.cmp self.old k ≡ false → F.pre f }
        ensures equal { IfOk result (λ key. K.cmp k key ≡ Equal) }
        ensures ok { OnOk result (IsPutIfAbsent (F.post f) K.cmp self.old k self.new) }
        ensures present { has K.cmp self.old k ≡ true → IsOk result }
        ensures err { IfErr result (FailsAt (F.post f) k) }
        ensures unchanged { OnErr result (self.new ≡ self.old) }
        ensures full { IsFullExactly K.cmp usize.MAX k self.old result }
    {
        if self.contains_key(&k) {
            return Ok(k);
        }
        if self.len() == usize::MAX {
            return Err(InsertError::Full(k, f()));
        }
        let Ok(key) = k.clone() else {
            return Err(InsertError::OutOfMemory(k, f()));
        };
        self.insert(k, f())?;
        Ok(key)
    }

    // The value at a key that is present, for writing.
    fn value_at_mut(&mut self, k: &K) -> &mut V
        requires { has K.cmp self.old k.now ≡ true }
        ensures* writes_back { sem 𝓛 (Lends (map_row K.row V.row A.row K.Key A.Argument) V.row self.entry result (written K.cmp k.now self.old)) }
        ensures value { value K.cmp self.old k.now ≡ Some result.now }
    {
        self.get_mut(k).unwrap()
    }

    /// Changes each value by a closure, in the order of the keys. Keys and summaries are unchanged.
    ///
    /// O(n). It allocates nothing and cannot fail.
    pub fn update_each<F: FnMut(&K, &mut V)>(&mut self, f: F)
        requires { F.IsAlwaysCallable f }
        ensures { (after : F) × ChangesInTurn F.FnMut f self.old after self.new }
    {
        self.inner.update_each(f);
    }

    /// Changes the value of each pair whose key is at least `lo` and below `hi` by a closure, in
    /// the order of the keys. `None` means no bound. Keys and summaries are unchanged.
    ///
    /// O(log n + m) for m pairs. It allocates nothing and cannot fail.
    pub fn update_range<'b, F: FnMut(&K, &mut V)>(
        &mut self,
        lo: Option<&'b K>,
        hi: Option<&'b K>,
        f: F,
    )
        requires { F.IsAlwaysCallable f }
        ensures { UpdatesBetween F.FnMut f K.cmp lo.entry hi.entry self.old self.new }
    {
        self.inner.update_range(lo, hi, f);
    }
}
