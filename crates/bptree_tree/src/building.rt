//! Trees of the pairs of a vector, which are returned if an allocation fails.
ghost use Rattle.std.specs.Prelude.{◌≡◌, ◌+◌, ◌<◌, ◌≤◌, [], length, vec_capacity, vec_len, IfErr, IfOk, OnOk};
ghost use Rattle.std.specs.List.{AllByRecursion};
ghost use Rattle.bptree_bulk.specs.Filling.{IsEmptyLeaf};
ghost use Rattle.bptree_tree.specs.Building.{AreAllLeaves, HaveRoomsFor, IsFilledLeaf};
ghost use Rattle.bptree_bulk_load.specs.Plans.{AddsParts, Frames};
ghost use Rattle.bptree_bulk_load.specs.Rooms.{joined, parts_of};
ghost use Rattle.bptree_invariant.specs.NodeTree.{IsWhole};
ghost use Rattle.bptree_keys.specs.Contents.{IsAscending};

use bptree_bulk::filling::{fill_all, size_of};
use bptree_bulk::moving::{pairs_in, pour};
use bptree_bulk_load::plan::{Plan, empty_plan, frame, plan_leaf};
use bptree_bulk_load::planting::{Frame, plant};
use bptree_invariant::nodes::Nodes;
use bptree_keys::key::Key;
use bptree_nodes::leaf_node::LeafNode;
use bptree_stores::node_stores::NodeStore;
use std::alloc::{AllocError, Global};

// Allocates an empty leaf for each part of `count` pairs.
fn rooms_for<K: Key, V: Drop>(
    alloc: Global,
    count: usize,
) -> Result<Vec<Box<LeafNode<K, V>>>, AllocError>
    ensures empty { IfOk result (λ rooms. AllByRecursion IsEmptyLeaf rooms.items) }
    ensures rooms { IfOk result (λ rooms. HaveRoomsFor count rooms.items) }
{
    let mut rooms = Vec::new(alloc);
    let mut left = count;
    'parts: while left > 0 {
        let room = LeafNode::new(alloc)?;
        rooms.push(room)?;
        left -= size_of(left);
    }
    Ok(rooms)
}

// Plans a leaf after the others for each of these leaves.
fn plan_filled<S: NodeStore>(
    plan: &mut Plan<S>,
    leaves: &[Box<LeafNode<S::K, S::V>>],
) -> Result<(), AllocError>
    requires { AllByRecursion (IsFilledLeaf S.K.cmp) leaves.now }
    ensures { OnOk result (AddsParts S.K.cmp S.Argument.is_summary S.slots plan.old plan.new (parts_of leaves.now)) }
{
    let mut i = 0;
    'leaves: while i < leaves.len() {
        plan_leaf(plan, &leaves[i])?;
        i += 1;
    }
    Ok(())
}

// Makes the nodes above some leaves, which are all the leaves of a tree.
fn frame_of<S: NodeStore>(
    alloc: Global,
    leaves: &[Box<LeafNode<S::K, S::V>>],
) -> Result<Frame<S>, AllocError>
    requires { AreAllLeaves S.K.cmp leaves.now }
    ensures { IfOk result (λ frame. Frames S.K.cmp S.Argument.is_summary S.slots frame (parts_of leaves.now)) }
{
    let mut plan = empty_plan(S::empty(alloc));
    plan_filled(&mut plan, leaves)?;
    frame(plan)
}

/// Returns the tree of some leaves, or their pairs if an allocation, a clone of a key or a summary
/// fails. `spare` has room for these pairs.
///
/// O(n / 32) for n pairs: no pair moves, unless it fails. It clones one key of each leaf, and
/// allocates the nodes above the leaves.
pub(crate) fn plant_or_return<S: NodeStore>(
    leaves: Vec<Box<LeafNode<S::K, S::V>>>,
    spare: Vec<(S::K, S::V)>,
) -> Result<Nodes<S>, Vec<(S::K, S::V)>>
    requires leaves { AreAllLeaves S.K.cmp leaves.items }
    requires none { spare.items ≡ [] }
    requires room { vec_len spare + length (joined (parts_of leaves.items)) ≤ vec_capacity spare }
    ensures contents { IfOk result (λ tree. tree.contents ≡ joined (parts_of leaves.items)) }
    ensures whole { IfOk result (IsWhole S.K.cmp S.Argument.is_summary S.slots) }
    ensures returned { IfErr result (λ back. back.items ≡ joined (parts_of leaves.items)) }
{
    let alloc = *leaves.allocator();
    let count = pairs_in(&leaves);
    let Ok(frame) = frame_of(alloc, &leaves) else {
        let filled = leaves.len();
        let mut spare = spare;
        pour(&mut leaves.into_iter(), filled, &mut spare);
        return Err(spare);
    };
    Ok(plant(frame, leaves, count))
}

/// Returns the tree of some pairs, whose keys ascend, or these pairs if an allocation, a clone of a
/// key or a summary fails.
///
/// O(n) for n pairs. It moves each pair once into a leaf, and clones one key of each leaf. It
/// allocates the leaves and the nodes above them, and room for the pairs that it uses if it fails.
pub fn build_or_return<S: NodeStore>(
    pairs: Vec<(S::K, S::V)>,
) -> Result<Nodes<S>, Vec<(S::K, S::V)>>
    requires some { 0 < length pairs.items }
    requires ascending { IsAscending S.K.cmp pairs.items }
    ensures contents { IfOk result (λ tree. tree.contents ≡ pairs.items) }
    ensures whole { IfOk result (IsWhole S.K.cmp S.Argument.is_summary S.slots) }
    ensures returned { IfErr result (λ back. back.items ≡ pairs.items) }
{
    let (alloc, count) = (*pairs.allocator(), pairs.len());
    let Ok(rooms) = rooms_for(alloc, count) else {
        return Err(pairs);
    };
    let Ok(mut leaves) = Vec::with_capacity(alloc, rooms.len()) else {
        return Err(pairs);
    };
    let Ok(spare) = Vec::with_capacity(alloc, count) else {
        return Err(pairs);
    };
    fill_all(pairs.into_iter(), rooms.into_iter(), &mut leaves);
    plant_or_return(leaves, spare)
}
