//! The pairs of a map between two bounds, and in a range.
ghost use Rattle.std.specs.Prelude.{◌≡◌};
ghost use Rattle.std.specs.Map.Iter.{ShowsInOrder, deref_pair};
ghost use Rattle.bptree_keys.specs.Contents.{IsAscending};
ghost use Rattle.bptree_ranges.specs.Bounds.{between_bounds};
ghost use Rattle.bptree_tree.specs.Entries.{entries_within};

use super::{BPlusTreeMap, Iter};
use bptree_arguments::argument::Argument;
use bptree_keys::key::Key;
use std::ops::{Bound, RangeBounds};

impl<K: Key, V: Drop, A: Argument<K>> BPlusTreeMap<K, V, A> {
    /// The pairs between two bounds, in the order of their keys. Each bound includes its key,
    /// excludes it, or is open. If the start is above the end, there are no pairs.
    ///
    /// O(log n) to begin: one descent for each bound that is not open. O(1) a step. `len` takes
    /// O(1) for each leaf of the range. Neither it nor a step allocates or fails.
    pub fn range_bounds<'b>(&self, lo: Bound<&'b K>, hi: Bound<&'b K>) -> Iter<'_, K, V, A>
        ensures rest { result ≡ entries_within K.cmp self.now lo.entry hi.entry }
        ensures ascending { IsAscending K.cmp result }
        ensures runs { ShowsInOrder (deref_pair {K = K} {X = V}) }
    {
        Iter::new(self.inner.range_bounds(lo, hi))
    }

    /// The pairs whose keys are in a range, in the order of their keys: any `RangeBounds` of keys,
    /// as `a..b`, `a..=b`, `a..`, `..b` and `..`. If the range runs backwards, there are no pairs.
    /// For an inclusive range that an iteration has exhausted, the contract specifies only the
    /// order.
    ///
    /// O(log n) to begin: one descent for each end that the range has. Neither it nor a step
    /// allocates or fails.
    pub fn range_within<R: RangeBounds<K>>(&self, range: R) -> Iter<'_, K, V, A>
        ensures rest { R.has_bounds range
            → result ≡ between_bounds K.cmp self.now (R.start_bound range) (R.end_bound range) }
        ensures ascending { IsAscending K.cmp result }
        ensures runs { ShowsInOrder (deref_pair {K = K} {X = V}) }
    {
        self.range_bounds(range.start_bound(), range.end_bound())
    }
}
