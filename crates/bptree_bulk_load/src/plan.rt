//! Plans for a tree: the ids that are reserved and what is computed before any leaf moves to it.
ghost use Rattle.std.specs.Prelude.{◌<◌, [], length, map, OnOk};
ghost use Rattle.std.specs.List.{AllByRecursion};
ghost use Rattle.bptree_bulk_load.specs.Plans.{AddsPlan, AddsAny, AddsParts, FramesPlan, Plans, PlansSome};
ghost use Rattle.bptree_bulk_load.specs.Rooms.{pairs_under, IsFilledAt};
ghost use Rattle.bptree_keys.specs.Contents.{IsAscending};
ghost use Rattle.bptree_nodes.specs.Slot.{IsEmpty};

use crate::building::raise_all;
use crate::planting::Frame;
use crate::rooms::add_room;
use crate::subtree::Subtree;
use bptree_arguments::argument::Argument;
use bptree_keys::node_id::LeafNodeId;
use bptree_nodes::leaf_node::LeafNode;
use bptree_stores::node_stores::NodeStore;
use std::alloc::AllocError;

/// Ids that are reserved for leaves in a store of their own, and what is known of each leaf.
#[derive(Drop)]
pub struct Plan<S: NodeStore> {
    pub store: S,
    pub ids: Vec<LeafNodeId>,
    pub trees: Vec<Subtree<S::K, S::Argument>>,
}

/// Returns a plan without leaves, in an empty store. It allocates nothing.
pub fn empty_plan<S: NodeStore>(store: S) -> Plan<S>
    requires { IsEmpty (S.slots store) }
    ensures { Plans S.K.cmp S.Argument.is_summary S.slots result [] }
{
    let alloc = store.allocator();
    Plan {
        store,
        ids: Vec::new(alloc),
        trees: Vec::new(alloc),
    }
}

/// Plans a leaf after the others, for pairs the first of which has a key that equals `first`, and
/// of whose keys `summary` is a summary.
///
/// O(1). It allocates the room for what it keeps. If that fails, the plan is to be dropped.
pub fn plan_part<S: NodeStore>(
    plan: &mut Plan<S>,
    first: S::K,
    summary: S::Argument,
) -> Result<(), AllocError>
    ensures { AddsAny S.K.cmp S.Argument.is_summary S.slots first summary plan.old plan.new result }
{
    add_room(
        &mut plan.store,
        &mut plan.ids,
        &mut plan.trees,
        first,
        summary,
    )
}

/// Plans a leaf after the others, for the pairs of a leaf of another store.
///
/// It clones the leaf's first key and computes a summary of its keys. It fails if one of these
/// does, or if `plan_part` does.
pub fn plan_leaf<S: NodeStore>(
    plan: &mut Plan<S>,
    leaf: &LeafNode<S::K, S::V>,
) -> Result<(), AllocError>
    requires some { 0 < length leaf.now.pairs }
    requires ascending { IsAscending S.K.cmp leaf.now.pairs }
    ensures { AddsPlan S.K.cmp S.Argument.is_summary S.slots plan.old plan.new leaf.now.pairs result }
{
    leaf.recall();
    let summary = S::Argument::from_leaf(leaf.keys())?;
    let first = leaf.data_at(0).0.clone()?;
    plan_part(plan, first, summary)
}

/// Plans leaves after the others, for the pairs of leaves of another store, in the order of `ids`.
///
/// It allocates the room for all leaves first. Then it costs what `plan_leaf` does for each, and
/// fails if that does.
pub fn plan_leaves<S: NodeStore>(
    plan: &mut Plan<S>,
    store: &S,
    ids: &[LeafNodeId],
) -> Result<(), AllocError>
    requires { AllByRecursion (IsFilledAt S.K.cmp (S.slots store.now)) ids.now }
    ensures { OnOk result (AddsParts S.K.cmp S.Argument.is_summary S.slots plan.old plan.new (map (pairs_under (S.slots store.now)) ids.now)) }
{
    plan.ids.reserve(ids.len())?;
    plan.trees.reserve(ids.len())?;
    let mut i = 0;
    'ids: while i < ids.len() {
        let id = ids[i];
        plan_leaf(plan, store.get_leaf(id))?;
        i += 1;
    }
    Ok(())
}

/// Returns a frame for the leaves of a plan, which are all the leaves of a tree.
///
/// It costs what `raise_all` does, and fails if that does.
pub fn frame<S: NodeStore>(plan: Plan<S>) -> Result<Frame<S>, AllocError>
    requires { PlansSome S.K.cmp S.Argument.is_summary S.slots plan }
    ensures { FramesPlan S.K.cmp S.Argument.is_summary S.slots plan result }
{
    let Plan {
        mut store,
        ids,
        trees,
    } = plan;
    let built = raise_all(&mut store, trees)?;
    Ok(Frame { store, ids, built })
}
