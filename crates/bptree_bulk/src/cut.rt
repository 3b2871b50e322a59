//! Cuts between the leaves of a tree.
ghost use Rattle.std.specs.Prelude.{◌≡◌, ◌+◌, ◌<◌, ◌≤◌, length, drop};
ghost use Rattle.std.specs.List.{AllByRecursion};
ghost use Rattle.std.specs.Option.{option_copied};
ghost use Rattle.bptree_bulk_load.specs.Rooms.{IsPresentAt};
ghost use Rattle.bptree_bulk.specs.Cut.{cut_at, first_key, BeginsBorder, EndsBorder, IsCut, IsHalf};
ghost use Rattle.bptree_bulk.specs.Positions.{index_of_position, IsInside};
ghost use Rattle.bptree_ranges.specs.InTree.{HasPosition};
ghost use Rattle.bptree_ranges.specs.Ranges.{ahead};
ghost use Rattle.bptree_invariant.specs.Leaves.{pairs_of, IsLeafOf};
ghost use Rattle.bptree_invariant.specs.Shape.{leaves_at};

use bptree_invariant::nodes::Nodes;
use bptree_keys::node_id::{LeafNodeId, Position};
use bptree_nodes::leaf_node::LEAF_CAPACITY;
use bptree_stores::node_stores::NodeStore;

/// A cut between two pairs. The leaves before `from` and from `to` on move as they are. The pairs
/// of the leaves between them, the border, move to other leaves.
#[derive(Clone, Copy, Drop)]
pub struct Cut {
    pub from: usize,
    pub to: usize,
    /// The number of the border's pairs before the cut, and how many of them the first of two
    /// leaves takes; 0 if one leaf takes all.
    pub below: usize,
    pub below_half: usize,
    /// The number of the border's pairs behind the cut, and how many of them the first leaf takes.
    pub above: usize,
    pub above_half: usize,
}

// The number of pairs that the first of two leaves takes; 0 if one leaf takes all.
fn half_of(count: usize) -> usize
    requires { count ≤ 128 }
    ensures { IsHalf count result }
{
    if count <= LEAF_CAPACITY { 0 } else { count / 2 }
}

/// The index of a leaf in a list of leaves.
pub(crate) fn index_of(ids: &[LeafNodeId], id: LeafNodeId) -> usize
    ensures { result ≡ length (ahead id.0 ids.now) }
{
    let mut i = 0;
    'ids: while i < ids.len() {
        if ids[i] == id {
            return i;
        }
        i += 1;
    }
    i
}

/// The key of the pair with an index among the pairs of some leaves.
///
/// It passes over the leaves before that pair's.
pub(crate) fn key_at<'a, S: NodeStore>(
    store: &'a S,
    ids: &[LeafNodeId],
    n: usize,
) -> Option<&'a S::K>
    requires { AllByRecursion (IsPresentAt (S.slots store.now)) ids.now }
    ensures { option_copied result ≡ first_key (drop n (pairs_of (S.slots store.now) ids.now)) }
{
    let mut left = n;
    let mut i = 0;
    'ids: while i < ids.len() {
        let leaf = store.get_leaf(ids[i]);
        if left < leaf.len() {
            return Some(leaf.data_at(left).0);
        }
        left -= leaf.len();
        i += 1;
    }
    None
}

/// The index of the leaf before `i`, at which the border begins, and the number of pairs it adds;
/// `i` and 0 if there is no leaf before `i`.
pub(crate) fn leaf_before<S: NodeStore>(store: &S, ids: &[LeafNodeId], i: usize) -> (usize, usize)
    requires present { AllByRecursion (IsPresentAt (S.slots store.now)) ids.now }
    requires within { i ≤ length ids.now }
    ensures { BeginsBorder (S.slots store.now) ids.now i result.0 result.1 }
{
    if i == 0 {
        return (0, 0);
    }
    (i - 1, store.get_leaf(ids[i - 1]).len())
}

/// The index behind the leaf that follows `i`, at which the border ends, and the number of pairs
/// that leaf adds; the end and 0 if no leaf follows.
pub(crate) fn leaf_behind<S: NodeStore>(store: &S, ids: &[LeafNodeId], i: usize) -> (usize, usize)
    requires present { AllByRecursion (IsPresentAt (S.slots store.now)) ids.now }
    requires within { i < length ids.now }
    ensures { EndsBorder (S.slots store.now) ids.now (i + 1) result.0 result.1 }
{
    let count = ids.len();
    if count - i == 1 {
        return (count, 0);
    }
    (i + 2, store.get_leaf(ids[i + 1]).len())
}

/// The cut before the pair at a position.
///
/// O(n / 32) for n pairs. It allocates nothing and cannot fail.
pub(crate) fn cut_before<S: NodeStore>(tree: &Nodes<S>, ids: &[LeafNodeId], at: Position) -> Cut
    requires ids { ids.now ≡ leaves_at (S.slots tree.now.store) tree.now.height tree.now.root }
    requires index { HasPosition S.slots tree.now at }
    requires inside { IsInside S.slots tree.now at }
    ensures cut { IsCut (S.slots tree.now.store) ids.now result }
    ensures index { cut_at (S.slots tree.now.store) ids.now result ≡ index_of_position S.slots tree.now at }
{
    tree.recall();
    let here = tree.store.get_leaf(at.leaf).len();
    let i = index_of(ids, at.leaf);
    let (from, before) = leaf_before(&tree.store, ids, i);
    let (to, after) = leaf_behind(&tree.store, ids, i);
    let below = before + at.slot;
    let above = here - at.slot + after;
    Cut {
        from,
        to,
        below,
        below_half: half_of(below),
        above,
        above_half: half_of(above),
    }
}
