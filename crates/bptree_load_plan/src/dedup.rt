//! An iterator that skips each item that is the same as the item after it.
ghost use Rattle.std.specs.Prelude.{◌≡◌};
ghost use Rattle.std.specs.Iterator.{IsFinite};
ghost use Rattle.bptree_load_plan.specs.declared.dedup.Ahead.TheVariants.{Unasked};
ghost use Rattle.bptree_load_plan.specs.Dedup.{dedup_source, dedup_ahead, dedup_same, dedup_steps, dedup_left, IfNotEnded, GivesLastOfEachRun};

use std::iter::FusedIterator;
use std::mem;

// The state of the source: not read yet, ended, or read up to the first item of the next run, which
// is held.
#[derive(Drop)]
enum Ahead<T> {
    Unasked,
    Held(T),
    Ended,
}

/// An iterator over the last item of each run of items that are the same as the item before.
#[derive(Drop)]
pub struct DeDupKeepLast<I: Iterator, F>
where
    I::Item: Drop,
{
    source: I,
    ahead: Ahead<I::Item>,
    same: F,
}

impl<I: Iterator, F: FnMut(&I::Item, &I::Item) -> bool> Iterator for DeDupKeepLast<I, F>
where
    I::Item: Drop,
{
    type Item = I::Item;

    ghost can_next = { λ s. IfNotEnded (dedup_ahead s) (I.can_next (dedup_source s) × IsFinite (I.remaining (dedup_source s))) × F.IsAlwaysCallable (dedup_same s) };

    ghost next_gives = { dedup_steps I.next_gives F.FnMut };

    ghost remaining = { dedup_left I.remaining };

    fn next(&mut self) -> Option<I::Item> {
        let mut last = match mem::replace(&mut self.ahead, Ahead::Ended) {
            Ahead::Unasked => self.source.next()?,
            Ahead::Held(item) => item,
            Ahead::Ended => return None,
        };
        while let Some(item) = self.source.next() {
            if !(self.same)(&last, &item) {
                self.ahead = Ahead::Held(item);
                return Some(last);
            }
            last = item;
        }
        Some(last)
    }
}

impl<I: Iterator, F: Drop> FusedIterator for DeDupKeepLast<I, F>
where
    I::Item: Drop,
    DeDupKeepLast<I, F>: Iterator,
{}

/// Adds `dedup_keep_last` to every iterator.
pub trait DedupByExt: Iterator {
    /// Returns an iterator over the items for which `same` of the item and the next one is `false`,
    /// and over the last item. A call of its `next` reads the source up to the first item of the
    /// next run, and stores this item for the next call. After the source has ended, it is not read
    /// again.
    ///
    /// O(1). It allocates nothing and cannot fail.
    final fn dedup_keep_last<F: FnMut(&Self::Item, &Self::Item) -> bool>(
        self,
        same: F,
    ) -> DeDupKeepLast<Self, F>
    where
        Self: Sized,
        Self::Item: Drop,
        ensures source { dedup_source result ≡ self }
        ensures ahead { dedup_ahead result ≡ Unasked }
        ensures same { dedup_same result ≡ same }
        ensures items { GivesLastOfEachRun Self.next_gives F.FnMut self same result }
    {
        DeDupKeepLast {
            source: self,
            ahead: Ahead::Unasked,
            same,
        }
    }
}

impl<I: Iterator> DedupByExt for I {}
