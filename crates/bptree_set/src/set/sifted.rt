//! The keys of a set that another set holds, or those that it does not hold.
ghost use Rattle.std.specs.Prelude.{◌≡◌, ℕ, Bool, List, Option, length, IfSome, IsSome, ⊤};
ghost use Rattle.std.specs.Iterator.{at_most, item_count, UpTo};
ghost use Rattle.std.specs.Iterator.SizeHint.{IsWithinCount};
ghost use Rattle.std.specs.List.Sorted.{IsStrictlySortedBy};
ghost use Rattle.bptree_map.specs.Keys.{keys_within};
ghost use Rattle.bptree_set.specs.Beside.{AreSides, BoundsKept, TakesFetched, TakesSifted, keys_sifted, sifted_of};

use crate::set::difference::DifferenceOp;
use crate::set::intersection::IntersectionOp;
use crate::set::{BPlusTreeSet, Iter, SEEK_RATIO};
use bptree_keys::key::Key;
use bptree_merge_iter::merge_iter::MergeIterInner;
use std::alloc::AllocError;
use std::iter::FusedIterator;
use std::marker::{Model, PhantomData};

/// The keys of a set that an iterator yields, by whether another set holds them.
pub trait SetOp {
    ghost keeps: { Bool → Bool };

    // The property of the hint, by the lengths of both sets.
    ghost reports: { ℕ → ℕ → ℕ × Option ℕ → Type 0 };

    /// Whether a key that the other set holds, or does not hold, is yielded.
    fn is_kept(held: bool) -> bool
        ensures { result ≡ keeps held };

    /// Bounds of the number of the first set's keys that are yielded, by the lengths of both sets.
    fn hint(lens: (usize, usize)) -> (usize, Option<usize>)
        ensures exact { reports lens.0 lens.1 result }
        ensures bounds { BoundsKept keeps lens.0 lens.1 result }
        ensures bounded { IsSome result.1 };
}

/// The keys of a set that no key of another set equals, in their order; its model is the keys that
/// are left of both sets. A step allocates nothing.
pub type Difference<'a, K> = Sifted<'a, K, DifferenceOp>;

/// The keys of a set that a key of another set equals, in their order; its model is the keys that
/// are left of both sets. A step allocates nothing.
pub type Intersection<'a, K> = Sifted<'a, K, IntersectionOp>;

/// Keys of a set that are yielded by whether another set holds them, in their order; its model is
/// the keys that are left of both sets. A step allocates nothing.
#[derive(Drop)]
pub struct Sifted<'a, K: Key, W: SetOp> {
    by: By<'a, K>,
    other: &'a BPlusTreeSet<K>,
    sieve: PhantomData<W>,
}

/// How an iterator determines whether the other set has a key.
#[derive(Drop)]
enum By<'a, K: Key> {
    // It looks up each key of the first set in the other set, which is the second.
    Seek(Iter<'a, K>),
    // It looks up each key of the second set in the other set, which is the first, and yields the
    // key that it finds there.
    Fetch(Iter<'a, K>),
    // It walks both sets side by side.
    Walk(MergeIterInner<Iter<'a, K>>),
}

impl<'a, K: Key, W: SetOp> Model for Sifted<'a, K, W> {
    ghost use Rattle.std.specs.Prelude.{List};
    ghost use Rattle.bptree_set.specs.Beside.{left_of_both, IsSound};

    ghost Value = { List K × List K };

    ghost view = { λ it. left_of_both it.other.now it.by };

    ghost invariant = { λ it. IsSound K.cmp W.keeps it.other.now it.by };
}

impl<'a, K: Key, W: SetOp> Sifted<'a, K, W> {
    // If the first set has far fewer keys than the other, each of them is looked up there.
    pub(crate) fn new(first: &'a BPlusTreeSet<K>, other: &'a BPlusTreeSet<K>) -> Self
        ensures rest { result ≡ (first.now, other.now) }
        ensures ascending { IsStrictlySortedBy K.cmp (keys_sifted K.cmp W.keeps first.now other.now) }
    {
        if first.len() <= other.len() / SEEK_RATIO {
            return Sifted {
                by: By::Seek(first.iter()),
                other,
                sieve: PhantomData,
            };
        }
        Sifted {
            by: By::Walk(MergeIterInner::new(first.iter(), other.iter())),
            other,
            sieve: PhantomData,
        }
    }
}

impl<'a, K: Key> Sifted<'a, K, IntersectionOp> {
    // An iterator that looks up each key of the second set in the first.
    pub(crate) fn fetching(first: &'a BPlusTreeSet<K>, second: &'a BPlusTreeSet<K>) -> Self
        ensures rest { result ≡ (first.now, second.now) }
        ensures ascending { IsStrictlySortedBy K.cmp (keys_within K.cmp first.now second.now) }
    {
        first.recall();
        Sifted {
            by: By::Fetch(second.iter()),
            other: first,
            sieve: PhantomData,
        }
    }
}

impl<'a, K: Key, W: SetOp> Iterator for Sifted<'a, K, W> {
    type Item = &'a K;

    ghost next_gives = { TakesSifted K.cmp W.keeps };

    ghost remaining = { item_count (sifted_of K.cmp W.keeps) };

    fn next(&mut self) -> Option<&'a K> {
        let other = self.other;
        match &mut self.by {
            By::Seek(keys) => seek::<K, W>(keys, other),
            By::Fetch(keys) => fetch(keys, other),
            By::Walk(sides) => walk::<K, W>(sides),
        }
    }

    fn size_hint(&self) -> (usize, Option<usize>)
        ensures lower { IsWithinCount result.0 (at_most (length (sifted_of K.cmp W.keeps self.now))) }
        ensures upper { IfSome result.1 (UpTo (at_most (length (sifted_of K.cmp W.keeps self.now)))) }
        ensures exact { W.reports (length self.now.0) (length self.now.1) result }
        ensures bounded { IsSome result.1 }
    {
        match &self.by {
            By::Seek(keys) => W::hint((keys.len(), self.other.len())),
            By::Fetch(keys) => W::hint((self.other.len(), keys.len())),
            By::Walk(sides) => W::hint(sides.lens()),
        }
    }
}

impl<'a, K: Key, W: SetOp> FusedIterator for Sifted<'a, K, W> {}

impl<'a, K: Key, W: SetOp> Clone for Sifted<'a, K, W> {
    ghost is_clone = { λ it copy. copy ≡ it };

    ghost is_infallible = { λ _. ⊤ };

    fn clone(&self) -> Result<Self, AllocError> {
        let by = match &self.by {
            By::Seek(keys) => By::Seek(keys.clone()?),
            By::Fetch(keys) => By::Fetch(keys.clone()?),
            By::Walk(sides) => By::Walk(sides.clone()?),
        };
        Ok(Sifted {
            by,
            other: self.other,
            sieve: PhantomData,
        })
    }
}

fn seek<'a, K: Key, W: SetOp>(keys: &mut Iter<'a, K>, other: &'a BPlusTreeSet<K>) -> Option<&'a K>
    requires { IsStrictlySortedBy K.cmp keys.old }
    ensures ascending { IsStrictlySortedBy K.cmp keys.new }
    ensures takes { TakesSifted K.cmp W.keeps (keys.old, other.now) result (keys.new, other.now) }
{
    while let Some(key) = keys.next() {
        if W::is_kept(other.contains(key)) {
            return Some(key);
        }
    }
    None
}

fn fetch<'a, K: Key>(keys: &mut Iter<'a, K>, other: &'a BPlusTreeSet<K>) -> Option<&'a K>
    requires { IsStrictlySortedBy K.cmp keys.old }
    ensures ascending { IsStrictlySortedBy K.cmp keys.new }
    ensures takes { TakesFetched K.cmp (other.now, keys.old) result (other.now, keys.new) }
{
    while let Some(key) = keys.next() {
        if let Some(found) = other.get(key) {
            return Some(found);
        }
    }
    None
}

fn walk<'a, K: Key, W: SetOp>(sides: &mut MergeIterInner<Iter<'a, K>>) -> Option<&'a K>
    requires { AreSides K.cmp sides.old }
    ensures sides { AreSides K.cmp sides.new }
    ensures takes { TakesSifted K.cmp W.keeps sides.old result sides.new }
{
    loop {
        match sides.nexts(|a, b| a.cmp(b)) {
            (Some(key), second) => {
                if W::is_kept(second.is_some()) {
                    return Some(key);
                }
            }
            (None, Some(_)) => {}
            (None, None) => return None,
        }
    }
}
