//! The part of a tree's contents between two bounds.
ghost use Rattle.std.specs.Prelude.{◌≡◌};
ghost use Rattle.std.specs.Option.{option_copied};
ghost use Rattle.bptree_ranges.specs.Bounds.{bound_copied, end_bound, may_hold, start_bound, ReportsKey};
ghost use Rattle.bptree_ranges.specs.InTree.{HasBound, HasPartInBounds, HasPosition};

use crate::ranges::{end_of_all, no_part, part_of_indexes, start_of_all};
use bptree_invariant::nodes::Nodes;
use bptree_iter::part::{Part, PartLen};
use bptree_keys::end::{End, Side};
use bptree_keys::node_id::Position;
use bptree_search::neighbours::{locate, position_beside};
use bptree_stores::node_stores::NodeStore;
use std::ops::Bound;

/// Returns the pairs whose key is neither before the start nor after the end.
///
/// It makes one descent for each bound, and takes no step from the one to the other. If no key can
/// be between them, one comparison shows that, and it makes no descent for the end.
pub fn part_between_bounds<S: NodeStore>(
    tree: &Nodes<S>,
    lo: Bound<&S::K>,
    hi: Bound<&S::K>,
) -> Part
    ensures { HasPartInBounds S.slots tree.now S.K.cmp lo.entry hi.entry result }
{
    let len = tree.len();
    let front = index_of_bound(tree, lo, End::Front);
    if !can_hold(lo, hi) {
        return no_part(front);
    }
    let back = index_of_bound(tree, hi, End::Back);
    part_of_indexes(tree, front, back, len, PartLen::Open)
}

/// Returns the bounds of the keys that are not below `lo` and are below `hi`, if they are given.
pub(crate) fn bounds_of<'a, K>(lo: Option<&'a K>, hi: Option<&'a K>) -> (Bound<&'a K>, Bound<&'a K>)
    ensures start { bound_copied result.0 ≡ start_bound (option_copied lo.entry) }
    ensures end { bound_copied result.1 ≡ end_bound (option_copied hi.entry) }
{
    match (lo, hi) {
        (Some(lo), Some(hi)) => (Bound::Included(lo), Bound::Excluded(hi)),
        (Some(lo), None) => (Bound::Included(lo), Bound::Unbounded),
        (None, Some(hi)) => (Bound::Unbounded, Bound::Excluded(hi)),
        (None, None) => (Bound::Unbounded, Bound::Unbounded),
    }
}

/// Returns whether some key can be between two bounds.
pub(crate) fn can_hold<K: Ord>(lo: Bound<&K>, hi: Bound<&K>) -> bool
    ensures { result ≡ may_hold K.cmp (bound_copied lo.entry) (bound_copied hi.entry) }
{
    match (lo, hi) {
        (Bound::Included(lo), Bound::Included(hi)) => !lo.cmp(hi).is_gt(),
        (Bound::Included(lo), Bound::Excluded(hi)) => lo.cmp(hi).is_lt(),
        (Bound::Excluded(lo), Bound::Included(hi)) => lo.cmp(hi).is_lt(),
        (Bound::Excluded(lo), Bound::Excluded(hi)) => lo.cmp(hi).is_lt(),
        _ => true,
    }
}

/// Returns the position at which a range with a bound begins or ends, as `end` says. If the bound
/// has no key, that is the position of the first of all pairs, or the one after the last pair.
#[inline(always)]
pub fn index_of_bound<S: NodeStore>(tree: &Nodes<S>, bound: Bound<&S::K>, end: End) -> Position
    ensures index { HasPosition S.slots tree.now result }
    ensures before { HasBound S.slots tree.now S.K.cmp end bound.entry result }
{
    tree.recall();
    match key_of_bound(bound, end) {
        Some((key, side)) => position_beside(locate(tree, key), side),
        None if end.is_back() => end_of_all(tree),
        None => start_of_all(tree),
    }
}

// Returns the key of a bound, and the side of that key on which a range begins or ends, or `None`
// if the bound has no key.
fn key_of_bound<K>(bound: Bound<&K>, end: End) -> Option<(&K, Side)>
    ensures { ReportsKey end bound.entry result }
{
    match (bound, end) {
        (Bound::Included(key), End::Front) => Some((key, Side::Before)),
        (Bound::Included(key), End::Back) => Some((key, Side::After)),
        (Bound::Excluded(key), End::Front) => Some((key, Side::After)),
        (Bound::Excluded(key), End::Back) => Some((key, Side::Before)),
        (Bound::Unbounded, _) => None,
    }
}
