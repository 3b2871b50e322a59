//! The keys that exactly one of two sets holds.
ghost use Rattle.std.specs.Prelude.{length};
ghost use Rattle.bptree_set.specs.Symmetric.{IsHintOfBoth, IsSymmetricStep, symmetric};

use crate::set::Iter;
use crate::set::joined::Joining;
use bptree_keys::key::Key;
use bptree_merge_iter::merge_iter::MergeIterInner;

/// The keys that one of both sets holds and the other does not.
pub struct InOneAlone;

impl<K: Key> Joining<K> for InOneAlone {
    ghost joined = { λ both. symmetric K.cmp both.0 both.1 };

    ghost gives = { IsSymmetricStep K.cmp };

    ghost reports = { λ both. IsHintOfBoth (length both.0) (length both.1) };

    fn step<'a>(merge: &mut MergeIterInner<Iter<'a, K>>) -> Option<&'a K> {
        loop {
            match merge.nexts(|a, b| a.cmp(b)) {
                (Some(_), Some(_)) => {}
                (None, second) => return second,
                (first, None) => return first,
            }
        }
    }

    fn hint(first: usize, second: usize) -> (usize, Option<usize>) {
        (first.abs_diff(second), first.checked_add(second))
    }
}
