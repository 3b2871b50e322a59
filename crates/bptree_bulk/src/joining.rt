//! Two trees that become one, when all keys of one are below those of the other.
ghost use Rattle.std.specs.Prelude.{◌≡◌, ◌+◌, ◌<◌, ◌≤◌, ◌^◌, ◌++◌, length, IfOk};
ghost use Rattle.bptree_bulk.specs.Joining.{IsJoinPlan};
ghost use Rattle.bptree_keys.specs.Contents.{IsAscending};
ghost use Rattle.bptree_invariant.specs.NodeTree.{IsWhole};

use bptree_bulk_load::leaves::{leaf_ids, take_leaves};
use bptree_bulk_load::plan::{empty_plan, frame, plan_leaves};
use bptree_bulk_load::planting::{Frame, plant};
use bptree_invariant::nodes::Nodes;
use bptree_keys::node_id::LeafNodeId;
use bptree_nodes::leaf_node::LeafNode;
use bptree_stores::node_stores::NodeStore;
use std::alloc::AllocError;

/// Everything that is prepared before two trees become one. Dropping it leaves both as they were.
#[derive(Drop)]
pub struct JoinPlan<S: NodeStore> {
    first: Vec<LeafNodeId>,
    second: Vec<LeafNodeId>,
    frame: Frame<S>,
    /// Room for the list of all leaves.
    leaves: Vec<Box<LeafNode<S::K, S::V>>>,
}

/// Prepares all that is needed to make one tree of two, each of which has at least 16 pairs. Each
/// key of the first is below each key of the second.
///
/// O(n / 32) for n pairs of both. It clones the first key of each leaf and computes a summary of
/// its keys. It fails if one of these or an allocation fails.
pub fn plan_join<S: NodeStore>(
    first: &Nodes<S>,
    second: &Nodes<S>,
) -> Result<JoinPlan<S>, AllocError>
    requires below { IsAscending S.K.cmp (first.now.contents ++ second.now.contents) }
    requires first { 16 ≤ length first.now.contents }
    requires second { 16 ≤ length second.now.contents }
    requires few { length first.now.contents + length second.now.contents < 2 ^ 64 }
    ensures { IfOk result (IsJoinPlan S.K.cmp S.Argument.is_summary S.slots first.now second.now) }
{
    first.recall();
    second.recall();
    let alloc = first.store.allocator();
    let ids = leaf_ids(first)?;
    let others = leaf_ids(second)?;
    let mut plan = empty_plan(S::empty(alloc));
    plan_leaves(&mut plan, &first.store, &ids)?;
    plan_leaves(&mut plan, &second.store, &others)?;
    let frame = frame(plan)?;
    let leaves = Vec::with_capacity(alloc, ids.len() + others.len())?;
    Ok(JoinPlan {
        first: ids,
        second: others,
        frame,
        leaves,
    })
}

/// Makes one tree of the pairs of both.
///
/// O(n / 32) for n pairs: no pair moves to another leaf. It allocates nothing and cannot fail.
pub fn join<S: NodeStore>(first: Nodes<S>, second: Nodes<S>, joint: JoinPlan<S>) -> Nodes<S>
    requires joint { IsJoinPlan S.K.cmp S.Argument.is_summary S.slots first second joint }
    requires below { IsAscending S.K.cmp (first.contents ++ second.contents) }
    requires few { length first.contents + length second.contents < 2 ^ 64 }
    ensures contents { result.contents ≡ first.contents ++ second.contents }
    ensures whole { IsWhole S.K.cmp S.Argument.is_summary S.slots result }
{
    first.recall();
    second.recall();
    let JoinPlan {
        first: ids,
        second: others,
        frame,
        mut leaves,
    } = joint;
    let Nodes {
        store: mut one,
        len,
        ..
    } = first;
    let Nodes {
        store: mut other,
        len: more,
        ..
    } = second;
    take_leaves(&mut one, &ids, &mut leaves);
    take_leaves(&mut other, &others, &mut leaves);
    plant(frame, leaves, len + more)
}
