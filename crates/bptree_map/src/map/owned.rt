//! The pairs of an owned map, one by one from both ends.
ghost use Rattle.std.specs.Prelude.{◌≡◌, length};
ghost use Rattle.std.specs.Iterator.{item_count};
ghost use Rattle.std.specs.Map.Iter.{TakesFirst, TakesLast};
ghost use Rattle.bptree_map.specs.Hints.{IsExactHint};

use bptree_arguments::argument::Argument;
use bptree_keys::key::Key;
use bptree_stores::node_store_vec::NodeStoreVec;
use bptree_tree::tree;
use std::iter::{ExactSizeIterator, FusedIterator};
use std::marker::Model;

/// The pairs of an owned map that are left, in the order of their keys. A step allocates nothing
/// and cannot fail. The pairs that are left are dropped with the iterator.
#[derive(Drop)]
pub struct IntoIter<K: Key, V: Drop, A: Argument<K>> {
    inner: tree::IntoIter<NodeStoreVec<K, V, A>>,
}

impl<K: Key, V: Drop, A: Argument<K>> Model for IntoIter<K, V, A> {
    ghost use Rattle.std.specs.Prelude.{List};

    ghost Value = { List (K × V) };

    ghost view = { λ it. it.inner };
}

impl<K: Key, V: Drop, A: Argument<K>> IntoIter<K, V, A> {
    pub(crate) fn new(inner: tree::IntoIter<NodeStoreVec<K, V, A>>) -> Self
        ensures { result ≡ inner }
    {
        IntoIter { inner }
    }
}

impl<K: Key, V: Drop, A: Argument<K>> Iterator for IntoIter<K, V, A> {
    type Item = (K, V);

    ghost next_gives = { TakesFirst (λ pair. pair) };

    ghost remaining = { item_count (λ left. left) };

    #[inline]
    fn next(&mut self) -> Option<(K, V)> {
        self.inner.next()
    }

    fn size_hint(&self) -> (usize, Option<usize>)
        ensures { IsExactHint (length self.now) result }
    {
        self.inner.size_hint()
    }
}

impl<K: Key, V: Drop, A: Argument<K>> DoubleEndedIterator for IntoIter<K, V, A> {
    ghost next_back_gives = { TakesLast (λ pair. pair) };

    #[inline]
    fn next_back(&mut self) -> Option<(K, V)> {
        self.inner.next_back()
    }
}

impl<K: Key, V: Drop, A: Argument<K>> ExactSizeIterator for IntoIter<K, V, A> {
    fn len(&self) -> usize {
        self.size_hint().0
    }
}

impl<K: Key, V: Drop, A: Argument<K>> FusedIterator for IntoIter<K, V, A> {}
