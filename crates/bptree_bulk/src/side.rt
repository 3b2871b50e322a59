//! What is prepared for one side of a cut while the tree is only read.
ghost use Rattle.std.specs.Prelude.{◌≡◌, ◌+◌, ◌<◌, ◌≤◌, length, IfOk, OnOk};
ghost use Rattle.std.specs.List.{AllByRecursion};
ghost use Rattle.bptree_bulk_load.specs.Plans.{AddsPlan, AddsParts};
ghost use Rattle.bptree_bulk_load.specs.Rooms.{IsPresentAt};
ghost use Rattle.bptree_bulk.specs.Cut.{pieces, IsCut, IsHalf};
ghost use Rattle.bptree_bulk.specs.Positions.{AreLast};
ghost use Rattle.bptree_bulk.specs.Split.{FramesLower, FramesUpper};
ghost use Rattle.bptree_keys.specs.Ranges.{part};
ghost use Rattle.bptree_invariant.specs.Leaves.{pairs_of};
ghost use Rattle.bptree_invariant.specs.Shape.{leaves_at};

use crate::cut::{Cut, key_at};
use bptree_bulk_load::plan::{Plan, empty_plan, frame, plan_leaves, plan_part};
use bptree_bulk_load::planting::Frame;
use bptree_invariant::nodes::Nodes;
use bptree_keys::node_id::LeafNodeId;
use bptree_ranges::summaries::summary_between;
use bptree_stores::node_stores::NodeStore;
use std::alloc::AllocError;

/// Plans a leaf behind others, for `count` pairs of some of the tree's last leaves.
pub(crate) fn plan_piece<S: NodeStore>(
    plan: &mut Plan<S>,
    tree: &Nodes<S>,
    ids: &[LeafNodeId],
    from: usize,
    count: usize,
) -> Result<(), AllocError>
    requires present { AllByRecursion (IsPresentAt (S.slots tree.now.store)) ids.now }
    requires last { AreLast S.slots tree.now ids.now }
    requires count { (0 < count) × (count ≤ 64) }
    requires within { from + count ≤ length (pairs_of (S.slots tree.now.store) ids.now) }
    ensures { AddsPlan S.K.cmp S.Argument.is_summary S.slots plan.old plan.new (part (pairs_of (S.slots tree.now.store) ids.now) from count) result }
{
    tree.recall();
    let first = key_at(&tree.store, ids, from).unwrap();
    let after = key_at(&tree.store, ids, from + count);
    let summary = summary_between(tree, Some(first), after)?;
    let start = first.clone()?;
    plan_part(plan, start, summary)
}

// Plans one leaf or two behind others, for `count` pairs of some of the tree's last leaves.
fn plan_pieces<S: NodeStore>(
    plan: &mut Plan<S>,
    tree: &Nodes<S>,
    ids: &[LeafNodeId],
    from: usize,
    count: usize,
    half: usize,
) -> Result<(), AllocError>
    requires present { AllByRecursion (IsPresentAt (S.slots tree.now.store)) ids.now }
    requires last { AreLast S.slots tree.now ids.now }
    requires count { 0 < count }
    requires within { from + count ≤ length (pairs_of (S.slots tree.now.store) ids.now) }
    requires half { IsHalf count half }
    ensures { OnOk result (AddsParts S.K.cmp S.Argument.is_summary S.slots plan.old plan.new (pieces half (part (pairs_of (S.slots tree.now.store) ids.now) from count))) }
{
    tree.recall();
    if half == 0 {
        return plan_piece(plan, tree, ids, from, count);
    }
    plan_piece(plan, tree, ids, from, half)?;
    plan_piece(plan, tree, ids, from + half, count - half)
}

/// A frame for the pairs before a cut.
///
/// O(n / 32) for n pairs. It clones the first key of each leaf and computes a summary of its keys.
/// It fails if one of these or an allocation fails.
pub(crate) fn lower_frame<S: NodeStore>(
    tree: &Nodes<S>,
    ids: &[LeafNodeId],
    cut: Cut,
) -> Result<Frame<S>, AllocError>
    requires ids { ids.now ≡ leaves_at (S.slots tree.now.store) tree.now.height tree.now.root }
    requires cut { IsCut (S.slots tree.now.store) ids.now cut }
    ensures { IfOk result (FramesLower S.K.cmp S.Argument.is_summary S.slots tree.now ids.now cut) }
{
    tree.recall();
    let mut plan = empty_plan(S::empty(tree.store.allocator()));
    plan_leaves(&mut plan, &tree.store, &ids[..cut.from])?;
    plan_pieces(
        &mut plan,
        tree,
        &ids[cut.from..],
        0,
        cut.below,
        cut.below_half,
    )?;
    frame(plan)
}

/// A frame for the pairs behind a cut. It costs and fails as `lower_frame` does.
pub(crate) fn upper_frame<S: NodeStore>(
    tree: &Nodes<S>,
    ids: &[LeafNodeId],
    cut: Cut,
) -> Result<Frame<S>, AllocError>
    requires ids { ids.now ≡ leaves_at (S.slots tree.now.store) tree.now.height tree.now.root }
    requires cut { IsCut (S.slots tree.now.store) ids.now cut }
    ensures { IfOk result (FramesUpper S.K.cmp S.Argument.is_summary S.slots tree.now ids.now cut) }
{
    tree.recall();
    let mut plan = empty_plan(S::empty(tree.store.allocator()));
    plan_pieces(
        &mut plan,
        tree,
        &ids[cut.from..],
        cut.below,
        cut.above,
        cut.above_half,
    )?;
    plan_leaves(&mut plan, &tree.store, &ids[cut.to..])?;
    frame(plan)
}
