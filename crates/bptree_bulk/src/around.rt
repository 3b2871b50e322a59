//! New leaves for the pairs on both sides of a gap.
ghost use Rattle.std.specs.Prelude.{◌+◌, ◌<◌, ◌≤◌, length, IfOk};
ghost use Rattle.std.specs.List.{AllByRecursion};
ghost use Rattle.bptree_bulk_load.specs.Rooms.{IsPresentAt};
ghost use Rattle.bptree_bulk.specs.Around.{pairs_around, AddsAcross, AddsAround, PlansBorder, SumsUpPart};
ghost use Rattle.bptree_bulk.specs.Gap.{kept_of};
ghost use Rattle.bptree_bulk.specs.Positions.{AreLast};
ghost use Rattle.bptree_invariant.specs.Leaves.{pairs_of};

use crate::cut::key_at;
use crate::filling::size_of;
use crate::gap::Gap;
use crate::side::plan_piece;
use bptree_arguments::argument::Argument;
use bptree_bulk_load::plan::{Plan, plan_part};
use bptree_invariant::nodes::Nodes;
use bptree_keys::key::Key;
use bptree_keys::node_id::LeafNodeId;
use bptree_nodes::leaf_node::LeafNode;
use bptree_ranges::summaries::summary_between;
use bptree_stores::node_stores::NodeStore;
use std::alloc::AllocError;

// A summary of the keys of `count` pairs of some of the tree's last leaves.
fn sum_piece<S: NodeStore>(
    tree: &Nodes<S>,
    ids: &[LeafNodeId],
    from: usize,
    count: usize,
) -> Result<S::Argument, AllocError>
    requires present { AllByRecursion (IsPresentAt (S.slots tree.now.store)) ids.now }
    requires last { AreLast S.slots tree.now ids.now }
    requires some { 0 < count }
    requires within { from + count ≤ length (pairs_of (S.slots tree.now.store) ids.now) }
    ensures { IfOk result (SumsUpPart S.Argument.is_summary S.slots tree.now ids.now from count) }
{
    tree.recall();
    let first = key_at(&tree.store, ids, from);
    let after = key_at(&tree.store, ids, from + count);
    summary_between(tree, first, after)
}

// Plans a leaf behind others, for the `one` pairs before an index, and the `other` pairs from a
// greater one on.
fn plan_across<S: NodeStore>(
    plan: &mut Plan<S>,
    tree: &Nodes<S>,
    ids: &[LeafNodeId],
    before: usize,
    behind: usize,
    one: usize,
    other: usize,
) -> Result<(), AllocError>
    requires present { AllByRecursion (IsPresentAt (S.slots tree.now.store)) ids.now }
    requires last { AreLast S.slots tree.now ids.now }
    requires one { (0 < one) × (one ≤ before) }
    requires other { 0 < other }
    requires most { one + other ≤ 64 }
    requires order { before ≤ behind }
    requires within { behind + other ≤ length (pairs_of (S.slots tree.now.store) ids.now) }
    ensures { AddsAcross S.K.cmp S.Argument.is_summary S.slots tree.now ids.now before behind one other plan.old plan.new result }
{
    tree.recall();
    let from = before - one;
    let mut sums = Vec::with_capacity(tree.store.allocator(), 2)?;
    let first = sum_piece(tree, ids, from, one)?;
    sums.push_reserved(first);
    let second = sum_piece(tree, ids, behind, other)?;
    sums.push_reserved(second);
    let summary = S::Argument::from_inner(&[], &sums)?;
    let start = key_at(&tree.store, ids, from).unwrap().clone()?;
    plan_part(plan, start, summary)
}

// Plans a leaf behind others, for the `count` pairs that stay of some of the tree's last leaves:
// those before the index `before`, and those from the index `behind` on.
fn plan_around<S: NodeStore>(
    plan: &mut Plan<S>,
    tree: &Nodes<S>,
    ids: &[LeafNodeId],
    before: usize,
    behind: usize,
    from: usize,
    count: usize,
) -> Result<(), AllocError>
    requires present { AllByRecursion (IsPresentAt (S.slots tree.now.store)) ids.now }
    requires last { AreLast S.slots tree.now ids.now }
    requires count { (0 < count) × (count ≤ 64) }
    requires order { before ≤ behind }
    requires behind { behind ≤ length (pairs_of (S.slots tree.now.store) ids.now) }
    requires within { from + count ≤ length (pairs_around S.slots tree.now ids.now before behind) }
    ensures { AddsAround S.K.cmp S.Argument.is_summary S.slots tree.now ids.now before behind from count plan.old plan.new result }
{
    tree.recall();
    if from >= before {
        return plan_piece(plan, tree, ids, from - before + behind, count);
    }
    let one = before - from;
    if count <= one {
        return plan_piece(plan, tree, ids, from, count);
    }
    plan_across(plan, tree, ids, before, behind, one, count - one)
}

/// Plans leaves behind others, for the pairs of a border that stay, and allocates an empty leaf for
/// each. `ids` are the leaves from the border on.
///
/// For each new leaf it clones a key and computes a summary of its keys. It fails if one of these
/// or an allocation fails.
pub(crate) fn plan_border<S: NodeStore>(
    plan: &mut Plan<S>,
    tree: &Nodes<S>,
    ids: &[LeafNodeId],
    gap: Gap,
) -> Result<Vec<Box<LeafNode<S::K, S::V>>>, AllocError>
    requires present { AllByRecursion (IsPresentAt (S.slots tree.now.store)) ids.now }
    requires last { AreLast S.slots tree.now ids.now }
    requires order { gap.before ≤ gap.behind }
    requires behind { gap.behind ≤ length (pairs_of (S.slots tree.now.store) ids.now) }
    requires within { gap.count ≤ length (pairs_around S.slots tree.now ids.now gap.before gap.behind) }
    ensures { IfOk result (PlansBorder S.K.cmp S.Argument.is_summary S.slots (kept_of gap (pairs_of (S.slots tree.now.store) ids.now)) plan.old plan.new) }
{
    let alloc = tree.store.allocator();
    let mut rooms = Vec::new(alloc);
    let mut done = 0;
    'parts: while done < gap.count {
        let size = size_of(gap.count - done);
        plan_around(plan, tree, ids, gap.before, gap.behind, done, size)?;
        let room = LeafNode::new(alloc)?;
        rooms.push(room)?;
        done += size;
    }
    Ok(rooms)
}
