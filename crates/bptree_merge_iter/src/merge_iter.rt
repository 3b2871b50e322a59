//! The merge of two ascending sources, step by step, and the laws of the merge.
ghost use Rattle.std.specs.Prelude.{◌≡◌, ◌-◌, ◌^◌, List, [], Option, length, min};
ghost use Rattle.std.specs.declared.cmp.Ordering.{Ordering};
ghost use Rattle.std.specs.Iterator.{YieldsFirstBy, item_count};
ghost use Rattle.std.specs.Map.Iter.{deref};
ghost use Rattle.bptree_merge_iter.specs.Merge.{merged, MergedAscends, MergedCountsBoth, MergedGivesFirsts, MergedGivesSeconds, MergedHasBoth, MergedIsStepwise, MergedPairsEqual, StepsAlone, StepsByOrder};
ghost use Rattle.bptree_merge_iter.specs.Sides.{first_side, second_side, TakesFirstSide, TakesSecondSide};

use std::alloc::AllocError;
use std::cmp::Ordering;
use std::iter::FusedIterator;
use std::marker::Model;
use std::slice;

/// An iterator whose items show the elements of a list, one after another, and whose `next` can
/// always be called.
pub trait Listed: FusedIterator {
    type Element;

    ghost shows: { Self.Item → Self.Element };

    ghost left: { Self → List Self.Element };

    ghost can: { (s : Self) → Self.can_next s };

    ghost gives_first: { (s : Self) (r : Option Self.Item) (t : Self) → Self.next_gives s r t → YieldsFirstBy shows left s r t };

    ghost counted: { (s : Self) → Self.remaining s ≡ item_count left s };
}

impl<'a, T> Listed for slice::Iter<'a, T> {
    type Element = T;

    ghost use Rattle.std.specs.Slice.Iter.{iter_rest};
    ghost use Rattle.std.specs.Prelude.{refl};
    ghost use Rattle.bptree_merge_iter.specs.Sources.{slice_gives_first};

    ghost shows = { deref };

    ghost left = { iter_rest };

    ghost can = { λ _. tt };

    ghost gives_first = { slice_gives_first };

    ghost counted = { λ _. refl };
}

// An item that was read from a source and not yet returned, and the side that it came from.
#[derive(Drop)]
enum Peeked<T> {
    A(T),
    B(T),
}

/// The merge of two sources. Its model is the elements that are left of each source. The merge
/// stores at most one item that it has not returned.
#[derive(Drop)]
pub struct MergeIterInner<I: Listed>
where
    I::Item: Drop,
{
    a: I,
    b: I,
    peeked: Option<Peeked<I::Item>>,
}

impl<I: Listed> Model for MergeIterInner<I>
where
    I::Item: Drop,
{
    ghost use Rattle.std.specs.Prelude.{List};

    ghost Value = { List I.Element × List I.Element };

    ghost use Rattle.bptree_merge_iter.specs.Sides.{first_side, second_side};

    ghost view = { λ merge. (first_side I.shows merge.peeked (I.left merge.a), second_side I.shows merge.peeked (I.left merge.b)) };
}

impl<I: Listed> MergeIterInner<I>
where
    I::Item: Drop,
{
    /// Creates the merge of two sources, without reading an item of either.
    ///
    /// O(1). It allocates nothing and cannot fail.
    pub fn new(a: I, b: I) -> Self
        ensures { result ≡ (I.left a, I.left b) }
    {
        MergeIterInner { a, b, peeked: None }
    }

    /// Performs one step of the merge in the order of `cmp`: returns the smaller head alone, or
    /// both heads if they are equal. If one side has ended, the items of the other side are
    /// returned alone, whatever `cmp` returns. After the end of both sides, every call returns
    /// `(None, None)`. One item is read from each side that has no stored item, and `cmp` is called
    /// at most once.
    ///
    /// O(1) plus the steps of the sources and the call of `cmp`. It cannot fail.
    pub fn nexts<Cmp: Fn(&I::Item, &I::Item) -> Ordering>(
        &mut self,
        cmp: Cmp,
    ) -> (Option<I::Item>, Option<I::Item>)
        requires { Cmp.IsAlwaysCallable cmp }
        ensures order { StepsByOrder Cmp.Fn cmp I.shows self.old result self.new }
        ensures alone { StepsAlone I.shows self.old result self.new }
    {
        let peeked = self.peeked.take();
        let (a_next, b_next) = heads(&mut self.a, &mut self.b, peeked);
        match (a_next, b_next) {
            (Some(a), Some(b)) => match cmp(&a, &b) {
                Ordering::Less => {
                    self.peeked = Some(Peeked::B(b));
                    (Some(a), None)
                }
                Ordering::Greater => {
                    self.peeked = Some(Peeked::A(a));
                    (None, Some(b))
                }
                Ordering::Equal => (Some(a), Some(b)),
            },
            (a_next, b_next) => (a_next, b_next),
        }
    }
}

impl<T: Clone> Clone for Peeked<T> {
    ghost use Rattle.bptree_merge_iter.specs.Sides.{IsPeekedClone};

    ghost is_clone = { IsPeekedClone T.is_clone };

    ghost is_infallible = { λ _. (x : T) → T.is_infallible x };

    fn clone(&self) -> Result<Self, AllocError> {
        match self {
            Peeked::A(item) => Ok(Peeked::A(item.clone()?)),
            Peeked::B(item) => Ok(Peeked::B(item.clone()?)),
        }
    }
}

// A clone has the same elements left of each side, if a clone of a source has the same elements
// left and a clone of an item shows the same element. `clone` fails only if the clone of a source
// or of an item fails.
impl<I: Listed + Clone> Clone for MergeIterInner<I>
where
    I::Item: Clone + Drop,
{
    ghost is_clone = { λ merge copy. ((s t : I) → I.Clone.is_clone s t → I.left t ≡ I.left s)
        → ((x y : I.Item) → I.Item.is_clone x y → I.shows y ≡ I.shows x)
        → copy ≡ merge };

    ghost is_infallible = { λ _. ((s : I) → I.Clone.is_infallible s) × ((x : I.Item) → I.Item.is_infallible x) };

    fn clone(&self) -> Result<Self, AllocError> {
        let peeked = match &self.peeked {
            None => None,
            Some(item) => Some(item.clone()?),
        };
        Ok(MergeIterInner {
            a: self.a.clone()?,
            b: self.b.clone()?,
            peeked,
        })
    }
}

impl<I: Listed + ExactSizeIterator> MergeIterInner<I>
where
    I::Item: Drop,
{
    /// Returns how many items are left of each side, including the stored item. Each count
    /// saturates at `usize::MAX`.
    ///
    /// O(1) plus the `len` of each source. It cannot fail.
    pub fn lens(&self) -> (usize, usize)
        ensures first { result.0 ≡ min (length self.now.0) (2 ^ 64 - 1) }
        ensures second { result.1 ≡ min (length self.now.1) (2 ^ 64 - 1) }
    {
        let (a_len, b_len) = (self.a.len(), self.b.len());
        match &self.peeked {
            Some(Peeked::A(_)) => (a_len.saturating_add(1), b_len),
            Some(Peeked::B(_)) => (a_len, b_len.saturating_add(1)),
            None => (a_len, b_len),
        }
    }
}

// Returns the next item of each side: the stored item, or else the next item of the source.
fn heads<I: Listed>(
    a: &mut I,
    b: &mut I,
    peeked: Option<Peeked<I::Item>>,
) -> (Option<I::Item>, Option<I::Item>)
where
    I::Item: Drop,
    ensures first { TakesFirstSide I.shows peeked (I.left a.old) result.0 (I.left a.new) }
    ensures second { TakesSecondSide I.shows peeked (I.left b.old) result.1 (I.left b.new) }
{
    match peeked {
        Some(Peeked::A(next)) => (Some(next), b.next()),
        Some(Peeked::B(next)) => (a.next(), Some(next)),
        None => (a.next(), b.next()),
    }
}

/// Laws of all steps of a merge. The steps yield each list whole and in its order, and yield two
/// keys at once only if they are equal. Together they yield the keys of both lists in order,
/// without a key of the second list that equals one of the first. The function does nothing.
///
/// O(1). It cannot fail.
pub fn laws_of_merge<K>()
    ensures steps { MergedIsStepwise K }
    ensures end { (order : K → K → Ordering) → merged order [] [] ≡ [] }
    ensures firsts { MergedGivesFirsts K }
    ensures seconds { MergedGivesSeconds K }
    ensures equal { MergedPairsEqual K }
    ensures order { MergedAscends K }
    ensures present { MergedHasBoth K }
    ensures len { MergedCountsBoth K }
{}
