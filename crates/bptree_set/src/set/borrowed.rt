//! A set that is borrowed: its keys in a `for`.
ghost use Rattle.std.specs.Prelude.{◌≡◌};
ghost use Rattle.std.specs.List.Sorted.{IsStrictlySortedBy};
ghost use Rattle.std.specs.Map.Iter.{ShowsInOrder, deref};

use crate::set::{BPlusTreeSet, Iter};
use bptree_keys::key::Key;

/// The keys in their order: those of `iter`.
impl<'a, K: Key> IntoIterator for &'a BPlusTreeSet<K> {
    type Item = &'a K;

    type IntoIter = Iter<'a, K>;

    ghost into_iter_gives = { λ set keys. (keys ≡ set.now) × IsStrictlySortedBy K.cmp set.now × ShowsInOrder (deref {X = K}) };

    fn into_iter(self) -> Iter<'a, K> {
        self.iter()
    }
}
