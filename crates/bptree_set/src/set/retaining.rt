//! The keys of a set that a closure keeps, and those outside a range.
ghost use Rattle.std.specs.Prelude.{◌≡◌, ◌+◌, ◌<◌, ◌≤◌, ◌++◌, ◌∷◌, [], false, length, true, vec_capacity, vec_len, IfErr, IfOk, OnErr, OnOk};
ghost use Rattle.std.specs.Fn.{CalledAt};
ghost use Rattle.std.specs.List.Retain.{IsFiltered};
ghost use Rattle.std.specs.Map.{keys_of};
ghost use Rattle.std.specs.Option.{option_copied as given};
ghost use Rattle.bptree_keys.specs.Keys.{AllInfallible};
ghost use Rattle.bptree_map.specs.Keys.{keys_between};
ghost use Rattle.bptree_map.specs.RetainedKeys.{keys_outside, FailsKeyRetain, KeepsAllIfNoKey};

use super::BPlusTreeSet;
use bptree_keys::key::Key;
use bptree_map::failures::RetainError;
use bptree_map::map::BPlusTreeMap;
use bptree_stores::node_stores::NodeStore;
use std::alloc::AllocError;
use std::mem;

// Appends an item to a vector that has room for it if the item stays, and drops it otherwise.
//
// Which items stay is hard to predict. If a drop of an item does nothing, the compiled code has no
// branch on `stays`.
#[inline(always)]
fn push_if<T: Drop>(items: &mut Vec<T>, item: T, stays: bool)
    requires { vec_len items.old < vec_capacity items.old }
    ensures stays { stays ≡ true → items.new.items ≡ items.old.items ++ item ∷ [] }
    ensures leaves { stays ≡ false → items.new.items ≡ items.old.items }
    ensures len { vec_len items.new ≤ vec_len items.old + 1 }
    ensures capacity { vec_capacity items.new ≡ vec_capacity items.old }
{
    let len = items.len();
    items.push_reserved(item);
    items.truncate(if stays { len + 1 } else { len });
}

// Moves the keys of some pairs to an empty vector.
fn move_keys<K: Drop>(pairs: Vec<(K, ())>, keys: &mut Vec<K>)
    requires none { keys.old.items ≡ [] }
    requires room { vec_len keys.old + length pairs.items ≤ vec_capacity keys.old }
    ensures { keys.new.items ≡ keys_of pairs.items }
{
    let mut rest = pairs.into_iter();
    'pairs: while let Some((k, ())) = rest.next() {
        keys.push_reserved(k);
    }
}

impl<K: Key> BPlusTreeSet<K> {
    /// Keeps the keys for which a closure returns true, in their order, and drops the others.
    ///
    /// O(n). The keys that stay move to a vector, and from there to the leaves of a new set. Before
    /// the first call of the closure it allocates one leaf, and two vectors with room for all keys;
    /// if that fails, nothing changes. Then it calls the closure for every key. It fails too if an
    /// allocation for the new set or a clone of a key fails: the error then has the keys that stay,
    /// and the set is empty.
    pub fn retain<F: FnMut(&K) -> bool>(&mut self, mut f: F) -> Result<(), RetainError<Vec<K>>>
        requires { F.IsAlwaysCallable f }
        ensures ok { OnOk result (IsFiltered (CalledAt F.FnMut) f self.old self.new) }
        ensures err { IfErr result (FailsKeyRetain F.FnMut f self.old self.new) }
    {
        let alloc = self.tree().node_store().allocator();
        let Ok(fresh) = BPlusTreeMap::new(alloc) else {
            return Err(RetainError::NotMade);
        };
        let Ok(mut kept) = Vec::with_capacity(alloc, self.len()) else {
            return Err(RetainError::NotMade);
        };
        let Ok(mut spare) = Vec::with_capacity(alloc, self.len()) else {
            return Err(RetainError::NotMade);
        };
        let mut keys = mem::replace(&mut self.map, fresh).into_keys();
        'keys: while let Some(k) = keys.next() {
            let stays = f(&k);
            push_if(&mut kept, (k, ()), stays);
        }
        match BPlusTreeMap::from_ascending(kept) {
            Ok(map) => {
                self.map = map;
                Ok(())
            }
            Err(back) => {
                move_keys(back, &mut spare);
                Err(RetainError::NotStored(spare))
            }
        }
    }

    /// Removes the keys that are not below `lo` and are below `hi`, if they are given, and returns
    /// their number. If it fails, nothing changes.
    ///
    /// O(log n) comparisons to find both ends, O(n / 32) for n keys, and O(1) for each key that is
    /// removed: each leaf on either side stays as it is, except for a few at the gap. Before that
    /// it allocates the nodes above the leaves, clones the first key of each leaf and computes a
    /// summary of its keys, and it fails if one of these does. If no removal can fail, as
    /// `clones_never_fail` and `never_fails` say, it does not fail: it removes the keys one by one
    /// if at most n / 32 are removed or if an allocation fails. If there is no such key, it
    /// allocates nothing and cannot fail. If all keys are removed, it allocates one leaf.
    pub fn remove_range<'b>(
        &mut self,
        lo: Option<&'b K>,
        hi: Option<&'b K>,
    ) -> Result<usize, AllocError>
        ensures rest { IfOk result (λ _. self.new ≡ keys_outside K.cmp self.old (given lo.entry) (given hi.entry)) }
        ensures count { IfOk result (λ n. n ≡ length (keys_between K.cmp self.old (given lo.entry) (given hi.entry))) }
        ensures empty { KeepsAllIfNoKey K.cmp (given lo.entry) (given hi.entry) self.old self.new result }
        ensures unchanged { OnErr result (self.new ≡ self.old) }
    {
        self.map.remove_range(lo, hi)
    }

    /// Removes the keys as `remove_range` does, and returns their number, for a set of keys whose
    /// clones never fail.
    ///
    /// As `remove_range`, and O(log n) for each key that is removed if an allocation fails. It
    /// cannot fail.
    pub fn remove_range_infallible<'b>(&mut self, lo: Option<&'b K>, hi: Option<&'b K>) -> usize
        requires infallible { AllInfallible K.is_infallible }
        ensures rest { self.new ≡ keys_outside K.cmp self.old (given lo.entry) (given hi.entry) }
        ensures count { result ≡ length (keys_between K.cmp self.old (given lo.entry) (given hi.entry)) }
    {
        self.map.remove_range_infallible(lo, hi)
    }
}
