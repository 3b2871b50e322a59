//! The keys of two sets, as a merge of both yields them.
ghost use Rattle.std.specs.Prelude.{◌≡◌, ◌<◌, ◌^◌, ℕ, List, Option, IfSome, ⊤, length};
ghost use Rattle.std.specs.Borrow.{Bor};
ghost use Rattle.std.specs.Iterator.{at_most, item_count, UpTo};
ghost use Rattle.std.specs.Iterator.SizeHint.{IsWithinCount};
ghost use Rattle.bptree_set.specs.Joined.{AreNoLonger, BoundsJoined, JoinGoesOn, ReportsOf};

use crate::set::Iter;
use crate::set::symmetric::InOneAlone;
use crate::set::union::UnionOp;
use bptree_keys::key::Key;
use bptree_merge_iter::merge_iter::MergeIterInner;
use std::alloc::AllocError;
use std::iter::FusedIterator;
use std::marker::{Model, PhantomData};

/// The keys of two sets that an iterator yields.
pub trait Joining<K: Key> {
    // Those of the keys that are left of both.
    ghost joined: { List K × List K → List K };

    ghost gives: { List K × List K → Option (Bor K) → List K × List K → Type 0 };

    ghost reports: { List K × List K → ℕ × Option ℕ → Type 0 };

    /// The next of these keys.
    fn step<'a>(merge: &mut MergeIterInner<Iter<'a, K>>) -> Option<&'a K>
        ensures gives { gives merge.old result merge.new }
        ensures goes { JoinGoesOn joined merge.old result merge.new }
        ensures shorter { AreNoLonger merge.old merge.new };

    /// Bounds of the number of these keys, by the numbers of keys that are left of each set.
    fn hint(first: usize, second: usize) -> (usize, Option<usize>)
        ensures reports { ReportsOf reports first second result }
        ensures bounds { BoundsJoined joined first second result };
}

/// The keys of two sets in their order; its model is the keys that are left of each. Of two equal
/// keys it yields the first set's. A step allocates nothing, and takes one comparison.
pub type Union<'a, K> = Joined<'a, K, UnionOp>;

/// The keys of two sets in their order, without those that both sets hold; its model is the keys
/// that are left of each. A step allocates nothing, and takes a comparison for each key that it
/// yields or skips.
///
/// `size_hint` returns the sum of the numbers of keys that are left of both sets as the greatest
/// number, if it fits, and their difference as the least.
pub type SymmetricDifference<'a, K> = Joined<'a, K, InOneAlone>;

/// Keys of two sets in their order; its model is the keys that are left of each. A step allocates
/// nothing.
#[derive(Drop)]
pub struct Joined<'a, K: Key, J: Joining<K>> {
    merge: MergeIterInner<Iter<'a, K>>,
    by: PhantomData<J>,
}

impl<'a, K: Key, J: Joining<K>> Model for Joined<'a, K, J> {
    ghost use Rattle.std.specs.Prelude.{List, length, ◌<◌, ◌^◌};

    ghost Value = { List K × List K };

    ghost view = { λ both. both.merge };

    ghost invariant = { λ both. (length both.merge.0 < 2 ^ 64) × (length both.merge.1 < 2 ^ 64) };
}

impl<'a, K: Key, J: Joining<K>> Joined<'a, K, J> {
    pub(crate) fn new(first: Iter<'a, K>, second: Iter<'a, K>) -> Self
        requires first { length first < 2 ^ 64 }
        requires second { length second < 2 ^ 64 }
        ensures { result ≡ (first.entry, second.entry) }
    {
        Joined {
            merge: MergeIterInner::new(first, second),
            by: PhantomData,
        }
    }
}

impl<'a, K: Key, J: Joining<K>> Iterator for Joined<'a, K, J> {
    type Item = &'a K;

    ghost next_gives = { J.gives };

    ghost remaining = { item_count J.joined };

    fn next(&mut self) -> Option<&'a K> {
        J::step(&mut self.merge)
    }

    fn size_hint(&self) -> (usize, Option<usize>)
        ensures lower { IsWithinCount result.0 (at_most (length (J.joined self.now))) }
        ensures upper { IfSome result.1 (UpTo (at_most (length (J.joined self.now)))) }
        ensures exact { J.reports self.now result }
    {
        let (first, second) = self.merge.lens();
        J::hint(first, second)
    }
}

impl<'a, K: Key, J: Joining<K>> FusedIterator for Joined<'a, K, J> {}

impl<'a, K: Key, J: Joining<K>> Clone for Joined<'a, K, J> {
    ghost is_clone = { λ both copy. copy ≡ both };

    ghost is_infallible = { λ _. ⊤ };

    fn clone(&self) -> Result<Self, AllocError> {
        let merge = self.merge.clone()?;
        Ok(Joined {
            merge,
            by: PhantomData,
        })
    }
}
