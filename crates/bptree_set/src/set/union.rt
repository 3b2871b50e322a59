//! The keys of two sets, one by one.
ghost use Rattle.std.specs.Prelude.{◌≡◌};
ghost use Rattle.bptree_set.specs.Union.{IsUnionStep, union, IsBetweenLengths};
ghost use Rattle.bptree_set.specs.KeyLaws.{UnionHoldsBoth, UnionPrefersFirst};
ghost use Rattle.bptree_set.specs.TwoSets.{KeepsOrder};

use crate::set::Iter;
use crate::set::joined::Joining;
use bptree_keys::key::Key;
use bptree_merge_iter::merge_iter::MergeIterInner;

/// The keys of either set; of two equal ones, the first set's.
pub struct UnionOp;

impl<K: Key> Joining<K> for UnionOp {
    ghost joined = { λ both. union K.cmp both.0 both.1 };

    ghost gives = { IsUnionStep K.cmp };

    ghost reports = { λ both. IsBetweenLengths both.0 both.1 };

    fn step<'a>(merge: &mut MergeIterInner<Iter<'a, K>>) -> Option<&'a K> {
        let (first, second) = merge.nexts(|a, b| a.cmp(b));
        first.or(second)
    }

    fn hint(first: usize, second: usize) -> (usize, Option<usize>) {
        (first.max(second), first.checked_add(second))
    }
}

/// The union of two ascending lists of keys ascends. A key equals one of it if and only if it
/// equals one of either list. The key that is found in it is the first list's if that has one, and
/// else the second's. The function does nothing.
///
/// O(1). It cannot fail.
pub fn laws_of_union<K: Key>()
    ensures order { KeepsOrder K.cmp (union K.cmp) }
    ensures holds { UnionHoldsBoth K.cmp }
    ensures found { UnionPrefersFirst K.cmp }
{}
