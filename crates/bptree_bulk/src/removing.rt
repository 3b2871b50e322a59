//! Removal of the pairs between two positions of a tree.
ghost use Rattle.std.specs.Prelude.{◌+◌, ◌<◌, length, IfOk};
ghost use Rattle.bptree_bulk.specs.Positions.{index_of_position, IsAtPair};
ghost use Rattle.bptree_bulk.specs.Removing.{AreKept, IsRemovalBetween, IsRemovalSomewhere, ReadiesAround};
ghost use Rattle.bptree_invariant.specs.NodeTree.{IsWhole};

use crate::around::plan_border;
use crate::filling::fill_all;
use crate::gap::{Gap, gap_between};
use crate::moving::{pass, pour_around};
use crate::splitting::{Ready, assemble};
use bptree_bulk_load::leaves::{leaf_ids, take_leaves};
use bptree_bulk_load::plan::{empty_plan, frame, plan_leaves};
use bptree_bulk_load::planting::Frame;
use bptree_invariant::nodes::Nodes;
use bptree_keys::node_id::{LeafNodeId, Position};
use bptree_nodes::leaf_node::LeafNode;
use bptree_stores::node_stores::NodeStore;
use std::alloc::AllocError;

/// Everything that is prepared before pairs of a tree are removed. Dropping it leaves the tree as
/// it was.
#[derive(Drop)]
pub struct Removal<S: NodeStore> {
    ids: Vec<LeafNodeId>,
    gap: Gap,
    frame: Frame<S>,
    /// The empty leaves for the border's pairs that stay, and the room for the lists of the new
    /// tree's leaves, of the old one's, and of these pairs.
    rooms: Vec<Box<LeafNode<S::K, S::V>>>,
    leaves: Vec<Box<LeafNode<S::K, S::V>>>,
    old: Vec<Box<LeafNode<S::K, S::V>>>,
    pairs: Vec<(S::K, S::V)>,
}

/// Prepares all that is needed to drop the pairs of a tree from one position up to another. Some
/// pair is dropped, and some pair stays.
///
/// O(n / 32) for n pairs. It clones the first key of each leaf that stays or is new and computes a
/// summary of its keys. It fails if one of these or an allocation fails.
pub fn plan_removal<S: NodeStore>(
    tree: &Nodes<S>,
    lo: Position,
    hi: Position,
) -> Result<Removal<S>, AllocError>
    requires lo { IsAtPair S.slots tree.now lo }
    requires hi { IsAtPair S.slots tree.now hi }
    requires order { index_of_position S.slots tree.now lo < index_of_position S.slots tree.now hi }
    requires some { index_of_position S.slots tree.now hi < index_of_position S.slots tree.now lo + length tree.now.contents }
    ensures { IfOk result (IsRemovalBetween S.K.cmp S.Argument.is_summary S.slots tree.now lo hi) }
{
    tree.recall();
    let alloc = tree.store.allocator();
    let ids = leaf_ids(tree)?;
    let gap = gap_between(tree, &ids, lo, hi);
    let mut plan = empty_plan(S::empty(alloc));
    plan_leaves(&mut plan, &tree.store, &ids[..gap.from])?;
    let rooms = plan_border(&mut plan, tree, &ids[gap.from..], gap)?;
    plan_leaves(&mut plan, &tree.store, &ids[gap.to..])?;
    let frame = frame(plan)?;
    let leaves = Vec::with_capacity(alloc, gap.from + rooms.len() + (ids.len() - gap.to))?;
    let old = Vec::with_capacity(alloc, ids.len())?;
    let pairs = Vec::with_capacity(alloc, gap.count)?;
    Ok(Removal {
        ids,
        gap,
        frame,
        rooms,
        leaves,
        old,
        pairs,
    })
}

// Moves all leaves out of a tree, drops the pairs that are removed, and moves the others into the
// leaves of the new tree.
fn deal_around<S: NodeStore>(tree: Nodes<S>, removal: Removal<S>) -> Ready<S>
    requires { IsRemovalSomewhere S.K.cmp S.Argument.is_summary S.slots tree removal }
    ensures { ReadiesAround S.K.cmp S.Argument.is_summary S.slots tree removal result }
{
    tree.recall();
    let Removal {
        ids,
        gap,
        frame,
        rooms,
        mut leaves,
        mut old,
        mut pairs,
    } = removal;
    let Nodes { mut store, .. } = tree;
    let behind = ids.len() - gap.to;
    take_leaves(&mut store, &ids, &mut old);
    let mut boxes = old.into_iter();
    pass(&mut boxes, gap.from, &mut leaves);
    pour_around(
        &mut boxes,
        gap.to - gap.from,
        gap.before,
        gap.behind,
        &mut pairs,
    );
    fill_all(pairs.into_iter(), rooms.into_iter(), &mut leaves);
    pass(&mut boxes, behind, &mut leaves);
    Ready { frame, leaves }
}

/// The tree without the pairs that are removed.
///
/// O(n / 32 + k) for n pairs of which k go: only the pairs of a few leaves at the gap move to other
/// leaves. It allocates nothing and cannot fail.
pub fn cut_out<S: NodeStore>(tree: Nodes<S>, removal: Removal<S>) -> Nodes<S>
    requires { IsRemovalSomewhere S.K.cmp S.Argument.is_summary S.slots tree removal }
    ensures contents { AreKept S.K.cmp S.Argument.is_summary S.slots tree removal result.contents }
    ensures whole { IsWhole S.K.cmp S.Argument.is_summary S.slots result }
{
    tree.recall();
    assemble(deal_around(tree, removal))
}
