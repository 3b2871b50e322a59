//! The keys or the values of a map, one by one from both ends.
ghost use Rattle.std.specs.Prelude.{◌≡◌, length, map, refl, ⊤};
ghost use Rattle.std.specs.Iterator.{item_count};
ghost use Rattle.std.specs.Map.Iter.{TakesFirst, TakesLast, deref};
ghost use Rattle.bptree_map.specs.Hints.{IsExactHint};

use super::{IntoIter, Iter};
use bptree_arguments::argument::Argument;
use bptree_keys::key::Key;
use bptree_merge_iter::merge_iter::Listed;
use std::alloc::AllocError;
use std::iter::{ExactSizeIterator, FusedIterator};
use std::marker::{Model, PhantomData};

/// The side of the keys.
pub struct KeySide;

/// The side of the values.
pub struct ValueSide;

/// One side of a pair: its key, or its value.
pub trait Side<K, V> {
    /// The type of this side.
    type Part;

    ghost part: { K × V → Self.Part };

    /// This side of a pair that is moved in. The other side is dropped.
    fn take(key: K, value: V) -> Self::Part
        ensures { result ≡ part (key, value) };
}

impl<K: Drop, V: Drop> Side<K, V> for KeySide {
    type Part = K;

    ghost part = { λ pair. pair.0 };

    fn take(key: K, _: V) -> K {
        key
    }
}

impl<K: Drop, V: Drop> Side<K, V> for ValueSide {
    type Part = V;

    ghost part = { λ pair. pair.1 };

    fn take(_: K, value: V) -> V {
        value
    }
}

/// One side of a pair that is borrowed.
pub trait BorrowedSide<K, V>: Side<K, V> {
    /// This side. The other side is not read.
    fn show<'a>(key: &'a K, value: &'a V) -> &'a Self::Part
        ensures { result.now ≡ Self.part (key.now, value.now) };
}

impl<K: Drop, V: Drop> BorrowedSide<K, V> for KeySide {
    fn show<'a>(key: &'a K, _: &'a V) -> &'a K {
        key
    }
}

impl<K: Drop, V: Drop> BorrowedSide<K, V> for ValueSide {
    fn show<'a>(_: &'a K, value: &'a V) -> &'a V {
        value
    }
}

/// The keys of a map that are left, in their order. No step allocates.
pub type Keys<'a, K, V, A> = SideIter<'a, K, V, A, KeySide>;

/// The values of a map that are left, in the order of their keys. No step allocates.
pub type Values<'a, K, V, A> = SideIter<'a, K, V, A, ValueSide>;

/// The keys of an owned map that are left, in their order. A step drops the value of its key. It
/// allocates nothing and cannot fail. The pairs that are left are dropped with the iterator.
pub type IntoKeys<K, V, A> = IntoSideIter<K, V, A, KeySide>;

/// The values of an owned map that are left, in the order of their keys. A step drops the key of
/// its value. It allocates nothing and cannot fail. The pairs that are left are dropped with the
/// iterator.
pub type IntoValues<K, V, A> = IntoSideIter<K, V, A, ValueSide>;

/// One side of the pairs that are left, in the order of their keys. A step allocates nothing, and
/// does not read the other side.
#[derive(Drop)]
pub struct SideIter<'a, K: Key, V: Drop, A: Argument<K>, S: BorrowedSide<K, V>> {
    pairs: Iter<'a, K, V, A>,
    // The items are borrowed for 'a.
    side: PhantomData<&'a S::Part>,
}

impl<'a, K: Key, V: Drop, A: Argument<K>, S: BorrowedSide<K, V>> Model
    for SideIter<'a, K, V, A, S> {
    ghost use Rattle.std.specs.Prelude.{List, map};

    ghost Value = { List S.Part };

    ghost view = { λ it. map S.part it.pairs };
}

impl<'a, K: Key, V: Drop, A: Argument<K>, S: BorrowedSide<K, V>> SideIter<'a, K, V, A, S> {
    /// The keys, or the values, of the pairs that an iterator has left.
    ///
    /// O(1). It allocates nothing and cannot fail.
    pub fn new(pairs: Iter<'a, K, V, A>) -> Self
        ensures { result ≡ map S.part pairs.entry }
    {
        SideIter {
            pairs,
            side: PhantomData,
        }
    }
}

impl<'a, K: Key, V: Drop, A: Argument<K>, S: BorrowedSide<K, V>> Iterator
    for SideIter<'a, K, V, A, S> {
    type Item = &'a S::Part;

    ghost next_gives = { TakesFirst deref };

    ghost remaining = { item_count (λ left. left) };

    #[inline]
    fn next(&mut self) -> Option<&'a S::Part> {
        let (key, value) = self.pairs.next()?;
        Some(S::show(key, value))
    }

    fn size_hint(&self) -> (usize, Option<usize>)
        ensures { IsExactHint (length self.now) result }
    {
        self.pairs.size_hint()
    }
}

impl<'a, K: Key, V: Drop, A: Argument<K>, S: BorrowedSide<K, V>> DoubleEndedIterator
    for SideIter<'a, K, V, A, S> {
    ghost next_back_gives = { TakesLast deref };

    #[inline]
    fn next_back(&mut self) -> Option<&'a S::Part> {
        let (key, value) = self.pairs.next_back()?;
        Some(S::show(key, value))
    }
}

impl<'a, K: Key, V: Drop, A: Argument<K>, S: BorrowedSide<K, V>> ExactSizeIterator
    for SideIter<'a, K, V, A, S> {
    fn len(&self) -> usize {
        self.pairs.len()
    }
}

impl<'a, K: Key, V: Drop, A: Argument<K>, S: BorrowedSide<K, V>> FusedIterator
    for SideIter<'a, K, V, A, S> {}

impl<'a, K: Key, V: Drop, A: Argument<K>, S: BorrowedSide<K, V>> Clone
    for SideIter<'a, K, V, A, S> {
    ghost is_clone = { λ it copy. copy ≡ it };

    ghost is_infallible = { λ _. ⊤ };

    fn clone(&self) -> Result<Self, AllocError> {
        Ok(SideIter::new(self.pairs.clone()?))
    }
}

impl<'a, K: Key, V: Drop, A: Argument<K>, S: BorrowedSide<K, V>> Listed
    for SideIter<'a, K, V, A, S> {
    type Element = S::Part;

    ghost shows = { deref };

    ghost left = { λ left. left };

    ghost can = { λ _. tt };

    ghost gives_first = { λ s r t given. given };

    ghost counted = { λ _. refl };
}

/// One side of the pairs of an owned map that are left, in the order of their keys. A step drops
/// the other side of its pair. It allocates nothing and cannot fail. The pairs that are left are
/// dropped with the iterator.
#[derive(Drop)]
pub struct IntoSideIter<K: Key, V: Drop, A: Argument<K>, S: Side<K, V>> {
    pairs: IntoIter<K, V, A>,
    side: PhantomData<S>,
}

impl<K: Key, V: Drop, A: Argument<K>, S: Side<K, V>> Model for IntoSideIter<K, V, A, S> {
    ghost use Rattle.std.specs.Prelude.{List, map};

    ghost Value = { List S.Part };

    ghost view = { λ it. map S.part it.pairs };
}

impl<K: Key, V: Drop, A: Argument<K>, S: Side<K, V>> IntoSideIter<K, V, A, S> {
    pub(crate) fn new(pairs: IntoIter<K, V, A>) -> Self
        ensures { result ≡ map S.part pairs }
    {
        IntoSideIter {
            pairs,
            side: PhantomData,
        }
    }
}

impl<K: Key, V: Drop, A: Argument<K>, S: Side<K, V>> Iterator for IntoSideIter<K, V, A, S> {
    type Item = S::Part;

    ghost next_gives = { TakesFirst (λ part. part) };

    ghost remaining = { item_count (λ left. left) };

    #[inline]
    fn next(&mut self) -> Option<S::Part> {
        let (key, value) = self.pairs.next()?;
        Some(S::take(key, value))
    }

    fn size_hint(&self) -> (usize, Option<usize>)
        ensures { IsExactHint (length self.now) result }
    {
        self.pairs.size_hint()
    }
}

impl<K: Key, V: Drop, A: Argument<K>, S: Side<K, V>> DoubleEndedIterator
    for IntoSideIter<K, V, A, S> {
    ghost next_back_gives = { TakesLast (λ part. part) };

    #[inline]
    fn next_back(&mut self) -> Option<S::Part> {
        let (key, value) = self.pairs.next_back()?;
        Some(S::take(key, value))
    }
}

impl<K: Key, V: Drop, A: Argument<K>, S: Side<K, V>> ExactSizeIterator
    for IntoSideIter<K, V, A, S> {
    fn len(&self) -> usize {
        self.size_hint().0
    }
}

impl<K: Key, V: Drop, A: Argument<K>, S: Side<K, V>> FusedIterator for IntoSideIter<K, V, A, S> {}
