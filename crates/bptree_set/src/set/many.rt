//! Calls for many keys at once.
ghost use Rattle.std.specs.Prelude.{◌≡◌, ◌≤◌, Some, length, map, slice_get, take, true};
ghost use Rattle.bptree_keys.specs.Keys.{AllInfallible};
ghost use Rattle.bptree_map.specs.Keys.{holds};
ghost use Rattle.bptree_map.specs.ManyKeys.{gone_each, keys_without_each};

use crate::set::BPlusTreeSet;
use bptree_keys::key::Key;

impl<K: Key> BPlusTreeSet<K> {
    /// Writes for each key whether the set holds it to `found`, at the key's index. `found` has the
    /// length of `keys`. The keys come in any order, and a key may come more than once.
    ///
    /// O(k log n) for k keys. The descents of 16 keys go side by side, so that the processor waits
    /// for the nodes of all of them at once: in a large set this costs about half of `contains` for
    /// each key. It leaves the store's cache alone. It allocates nothing and cannot fail.
    pub fn contains_many(&self, keys: &[K], found: &mut [bool])
        requires { length found.old ≡ length keys.now }
        ensures { found.new ≡ map (holds K.cmp self.now) keys.now }
    {
        self.map.contains_many(keys, found);
    }

    /// Removes the keys one after another, and writes for each whether there was one to `removed`,
    /// at the key's index. It returns the number of keys that it handled: all of them, or those
    /// before the first key whose removal failed. `removed` has the length of `keys`.
    ///
    /// O(k log n) for k keys. It allocates what the removals allocate, and fails if one of them
    /// does: never, if clones of the keys never fail.
    pub fn remove_many(&mut self, keys: &[K], removed: &mut [bool]) -> usize
        requires removed { length removed.old ≡ length keys.now }
        ensures within { result ≤ length keys.now }
        ensures left { self.new ≡ keys_without_each K.cmp self.old (take result keys.now) }
        ensures removed { removed.new ≡ gone_each K.cmp self.old (take result keys.now) removed.old }
        ensures infallible { AllInfallible K.is_infallible → result ≡ length keys.now }
        ensures stops { (k : K) → slice_get keys.now result ≡ Some k → holds K.cmp self.new k ≡ true }
    {
        let mut at = 0;
        'keys: while at < keys.len() {
            match self.remove(&keys[at]) {
                Ok(was) => removed[at] = was,
                Err(_) => return at,
            }
            at += 1;
        }
        at
    }
}
