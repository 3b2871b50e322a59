//! Which leaves of a tree stay as they are when the pairs between two positions go.
ghost use Rattle.std.specs.Prelude.{◌≡◌, ◌+◌, ◌<◌, ◌^◌, length};
ghost use Rattle.std.specs.List.{AllByRecursion};
ghost use Rattle.bptree_bulk_load.specs.Rooms.{IsPresentAt};
ghost use Rattle.bptree_bulk.specs.Gap.{gap_begins, gap_ends, IsGap};
ghost use Rattle.bptree_bulk.specs.Positions.{index_of_position, IsAtPair};
ghost use Rattle.bptree_invariant.specs.Leaves.{pairs_of};
ghost use Rattle.bptree_invariant.specs.Shape.{leaves_at};

use crate::cut::{index_of, leaf_before, leaf_behind};
use bptree_invariant::nodes::Nodes;
use bptree_keys::node_id::{LeafNodeId, Position};
use bptree_stores::node_stores::NodeStore;

/// The pairs that go, and the leaves around them. The leaves before `from` and from `to` on stay as
/// they are. Of the pairs of the leaves between them, the border, the first `before` stay, and
/// those from the index `behind` on. They move to other leaves.
#[derive(Clone, Copy, Drop)]
pub struct Gap {
    pub from: usize,
    pub to: usize,
    pub before: usize,
    pub behind: usize,
    /// How many pairs of the border stay.
    pub count: usize,
}

// The number of pairs of some leaves.
fn count_pairs<S: NodeStore>(store: &S, ids: &[LeafNodeId]) -> usize
    requires present { AllByRecursion (IsPresentAt (S.slots store.now)) ids.now }
    requires few { length (pairs_of (S.slots store.now) ids.now) < 2 ^ 64 }
    ensures { result ≡ length (pairs_of (S.slots store.now) ids.now) }
{
    let mut count = 0;
    let mut i = 0;
    'ids: while i < ids.len() {
        count += store.get_leaf(ids[i]).len();
        i += 1;
    }
    count
}

/// The gap that is left when the pairs from one position up to another go.
///
/// O(n / 32) for n pairs. It allocates nothing and cannot fail.
pub(crate) fn gap_between<S: NodeStore>(
    tree: &Nodes<S>,
    ids: &[LeafNodeId],
    lo: Position,
    hi: Position,
) -> Gap
    requires ids { ids.now ≡ leaves_at (S.slots tree.now.store) tree.now.height tree.now.root }
    requires lo { IsAtPair S.slots tree.now lo }
    requires hi { IsAtPair S.slots tree.now hi }
    requires order { index_of_position S.slots tree.now lo < index_of_position S.slots tree.now hi }
    requires some { index_of_position S.slots tree.now hi < index_of_position S.slots tree.now lo + length tree.now.contents }
    ensures gap { IsGap (S.slots tree.now.store) ids.now result }
    ensures begins { gap_begins (S.slots tree.now.store) ids.now result ≡ index_of_position S.slots tree.now lo }
    ensures ends { gap_ends (S.slots tree.now.store) ids.now result ≡ index_of_position S.slots tree.now hi }
{
    tree.recall();
    let i = index_of(ids, lo.leaf);
    let j = index_of(ids, hi.leaf);
    let (from, first) = leaf_before(&tree.store, ids, i);
    let (to, last) = leaf_behind(&tree.store, ids, j);
    let before = first + lo.slot;
    let behind = count_pairs(&tree.store, &ids[from..j]) + hi.slot;
    let here = tree.store.get_leaf(hi.leaf).len();
    Gap {
        from,
        to,
        before,
        behind,
        count: before + (here - hi.slot) + last,
    }
}
