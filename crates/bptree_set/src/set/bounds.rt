//! The keys of a set between two bounds, and in a range.
ghost use Rattle.std.specs.Prelude.{◌≡◌};
ghost use Rattle.std.specs.List.Sorted.{IsStrictlySortedBy};
ghost use Rattle.std.specs.Map.Iter.{ShowsInOrder, deref};
ghost use Rattle.bptree_map.specs.KeyBounds.{keys_between_bounds};
ghost use Rattle.bptree_ranges.specs.Bounds.{bound_copied as given};

use super::{BPlusTreeSet, Iter};
use bptree_keys::key::Key;
use bptree_map::map::Keys;
use std::ops::{Bound, RangeBounds};

impl<K: Key> BPlusTreeSet<K> {
    /// The keys between two bounds, in their order. Each bound includes its key, excludes it, or is
    /// open. If the start is above the end, there are no keys.
    ///
    /// O(log n) to begin: one descent for each bound that is not open. O(1) a step. `len` takes
    /// O(1) for each leaf of the range. Neither it nor a step allocates or fails.
    pub fn range_bounds<'b>(&self, lo: Bound<&'b K>, hi: Bound<&'b K>) -> Iter<'_, K>
        ensures rest { result ≡ keys_between_bounds K.cmp self.now (given lo.entry) (given hi.entry) }
        ensures ascending { IsStrictlySortedBy K.cmp result }
        ensures runs { ShowsInOrder (deref {X = K}) }
    {
        Keys::new(self.map.range_bounds(lo, hi))
    }

    /// The keys in a range, in their order: any `RangeBounds` of keys, as `a..b`, `a..=b`, `a..`,
    /// `..b` and `..`. If the range runs backwards, there are no keys. For an inclusive range that
    /// an iteration has exhausted, the contract specifies only the order.
    ///
    /// O(log n) to begin: one descent for each end that the range has. Neither it nor a step
    /// allocates or fails.
    pub fn range_within<R: RangeBounds<K>>(&self, range: R) -> Iter<'_, K>
        ensures rest { R.has_bounds range
            → result ≡ keys_between_bounds K.cmp self.now (R.start_bound range)
            (R.end_bound range) }
        ensures ascending { IsStrictlySortedBy K.cmp result }
        ensures runs { ShowsInOrder (deref {X = K}) }
    {
        self.range_bounds(range.start_bound(), range.end_bound())
    }
}
