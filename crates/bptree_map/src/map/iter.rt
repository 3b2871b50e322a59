//! The pairs of a map, one by one from both ends.
ghost use Rattle.std.specs.Prelude.{◌≡◌, length, ⊤};
ghost use Rattle.std.specs.Iterator.{item_count};
ghost use Rattle.std.specs.Map.Iter.{TakesFirst, TakesLast, deref_pair};
ghost use Rattle.bptree_map.specs.Hints.{IsExactHint};

use bptree_arguments::argument::Argument;
use bptree_keys::key::Key;
use bptree_stores::node_store_vec::NodeStoreVec;
use bptree_tree::iterator;
use std::alloc::AllocError;
use std::iter::{ExactSizeIterator, FusedIterator};
use std::marker::Model;

/// The pairs of a map that are left, in the order of their keys. No step allocates.
#[derive(Drop)]
pub struct Iter<'a, K: Key, V: Drop, A: Argument<K>> {
    inner: iterator::Iter<'a, NodeStoreVec<K, V, A>>,
}

impl<'a, K: Key, V: Drop, A: Argument<K>> Model for Iter<'a, K, V, A> {
    ghost use Rattle.std.specs.Prelude.{List};

    ghost Value = { List (K × V) };

    ghost view = { λ it. it.inner };
}

impl<'a, K: Key, V: Drop, A: Argument<K>> Iter<'a, K, V, A> {
    pub(crate) fn new(inner: iterator::Iter<'a, NodeStoreVec<K, V, A>>) -> Self
        ensures { result ≡ inner.entry }
    {
        Iter { inner }
    }
}

impl<'a, K: Key, V: Drop, A: Argument<K>> Iterator for Iter<'a, K, V, A> {
    type Item = (&'a K, &'a V);

    ghost next_gives = { TakesFirst deref_pair };

    ghost remaining = { item_count (λ left. left) };

    #[inline]
    fn next(&mut self) -> Option<(&'a K, &'a V)> {
        self.inner.next()
    }

    fn size_hint(&self) -> (usize, Option<usize>)
        ensures { IsExactHint (length self.now) result }
    {
        self.inner.size_hint()
    }
}

impl<'a, K: Key, V: Drop, A: Argument<K>> DoubleEndedIterator for Iter<'a, K, V, A> {
    ghost next_back_gives = { TakesLast deref_pair };

    #[inline]
    fn next_back(&mut self) -> Option<(&'a K, &'a V)> {
        self.inner.next_back()
    }
}

impl<'a, K: Key, V: Drop, A: Argument<K>> ExactSizeIterator for Iter<'a, K, V, A> {
    fn len(&self) -> usize {
        self.size_hint().0
    }
}

impl<'a, K: Key, V: Drop, A: Argument<K>> FusedIterator for Iter<'a, K, V, A> {}

impl<'a, K: Key, V: Drop, A: Argument<K>> Clone for Iter<'a, K, V, A> {
    ghost is_clone = { λ it copy. copy ≡ it };

    ghost is_infallible = { λ _. ⊤ };

    fn clone(&self) -> Result<Self, AllocError> {
        Ok(Iter::new(self.inner.clone()?))
    }
}
