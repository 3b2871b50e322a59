//! The part of a tree between two bounds.
ghost use Rattle.std.specs.Prelude.{◌≡◌};
ghost use Rattle.std.specs.Map.Iter.{ShowsInOrder, deref_pair};
ghost use Rattle.bptree_keys.specs.Contents.{IsAscending};
ghost use Rattle.bptree_tree.specs.Entries.{entries_within};

use crate::tree::BPlusTree;
use crate::tree::ranges::pairs_from;
use bptree_iter::iterator::Iter;
use bptree_ranges::bounds::part_between_bounds;
use bptree_stores::node_stores::NodeStore;
use std::ops::Bound;

impl<S: NodeStore> BPlusTree<S> {
    /// The pairs between two bounds, in the order of their keys. Each bound includes its key,
    /// excludes it, or is open. If the start is above the end, there are no pairs.
    ///
    /// O(log n) to begin: one descent for each bound that is not open. O(1) a step. `len` takes
    /// O(1) for each leaf of the range. Neither it nor a step allocates or fails.
    pub fn range_bounds<'b>(&self, lo: Bound<&'b S::K>, hi: Bound<&'b S::K>) -> Iter<'_, S>
        ensures rest { result ≡ entries_within S.K.cmp self.now.contents lo.entry hi.entry }
        ensures ascending { IsAscending S.K.cmp result }
        ensures runs { ShowsInOrder (deref_pair {K = S.K} {X = S.V}) }
    {
        let part = part_between_bounds(&self.nodes, lo, hi);
        pairs_from(&self.nodes, part)
    }
}
