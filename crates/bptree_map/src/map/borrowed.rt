//! A map that is borrowed: its pairs in a `for`, and the value at a key.
ghost use Rattle.std.specs.Prelude.{◌≡◌, Some, IsTrue};
ghost use Rattle.std.specs.Map.Iter.{ShowsInOrder, deref_pair};
ghost use Rattle.bptree_keys.specs.Contents.{IsAscending, has, value};

use crate::map::{BPlusTreeMap, Iter};
use bptree_arguments::argument::Argument;
use bptree_keys::key::Key;
use std::ops::Index;

/// The pairs in the order of their keys: those of `iter`.
impl<'a, K: Key, V: Drop, A: Argument<K>> IntoIterator for &'a BPlusTreeMap<K, V, A> {
    type Item = (&'a K, &'a V);

    type IntoIter = Iter<'a, K, V, A>;

    ghost into_iter_gives = { λ map pairs. (pairs ≡ map.now) × IsAscending K.cmp map.now × ShowsInOrder (deref_pair {K = K} {X = V}) };

    fn into_iter(self) -> Iter<'a, K, V, A> {
        self.iter()
    }
}

/// The value at a key that is present. It costs what `get` does.
impl<'k, K: Key, V: Drop, A: Argument<K>> Index<&'k K> for BPlusTreeMap<K, V, A> {
    type Output = V;

    ghost can_index = { λ map k. IsTrue (has K.cmp map k.now) };

    ghost index_gives = { λ map k v. value K.cmp map k.now ≡ Some v };

    fn index(&self, k: &'k K) -> &V {
        match self.get(k) {
            Some(v) => v,
            None => unreachable!(),
        }
    }
}
