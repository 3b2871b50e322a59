//! A tree that is cut in two.
ghost use Rattle.std.specs.Prelude.{IsTrue, ◌↔◌, ◌≡◌, ◌<◌, ◌+◌, ◌^◌, length, IfOk};
ghost use Rattle.bptree_bulk.specs.Cutting.{IsCutting};
ghost use Rattle.bptree_bulk.specs.Positions.{index_of_position, IsAtPair};
ghost use Rattle.bptree_bulk.specs.Split.{AreLower, AreUpper, CanBeStored, HasPairs, HasRoom, IsSplitAt, IsSplitSomewhere, ReadiesLower, ReadiesUpper};
ghost use Rattle.bptree_ranges.specs.InTree.{HasPosition, PartStartsAt};
ghost use Rattle.bptree_invariant.specs.NodeTree.{IsWhole};

use crate::cut::{Cut, cut_before};
use crate::filling::Filling;
use crate::moving::{fill_pieces, pairs_in, pass, pour};
use crate::side::{lower_frame, upper_frame};
use crate::tail::{few_from, plan_tail};
use bptree_bulk_load::leaves::{leaf_ids, take_leaves};
use bptree_bulk_load::planting::{Frame, plant};
use bptree_invariant::nodes::Nodes;
use bptree_keys::end::End;
use bptree_keys::node_id::{LeafNodeId, Position};
use bptree_nodes::leaf_node::LeafNode;
use bptree_ranges::bounds::index_of_bound;
use bptree_ranges::ranges::settled;
use bptree_stores::node_stores::NodeStore;
use std::alloc::AllocError;
use std::ops::Bound;

/// What is prepared for one side of a cut: the nodes above the leaves, the empty leaves for the
/// pairs at the cut, and the room for the list of all leaves.
#[derive(Drop)]
pub struct Side<S: NodeStore> {
    frame: Frame<S>,
    rooms: (Box<LeafNode<S::K, S::V>>, Box<LeafNode<S::K, S::V>>),
    leaves: Vec<Box<LeafNode<S::K, S::V>>>,
}

/// Everything that is prepared before a tree is cut in two. Dropping it leaves the tree as it was.
#[derive(Drop)]
pub struct Split<S: NodeStore> {
    ids: Vec<LeafNodeId>,
    cut: Cut,
    lower: Side<S>,
    upper: Side<S>,
    leaves: Vec<Box<LeafNode<S::K, S::V>>>,
    pairs: Vec<(S::K, S::V)>,
}

// A side with room for some leaves that move as they are.
fn side_of<S: NodeStore>(frame: Frame<S>, count: usize) -> Result<Side<S>, AllocError>
    requires few { count + 2 < 2 ^ 64 }
    ensures frame { IfOk result (λ side. side.frame ≡ frame) }
    ensures room { IfOk result (λ side. HasRoom side count) }
{
    let alloc = frame.store.allocator();
    let one = LeafNode::new(alloc)?;
    let other = LeafNode::new(alloc)?;
    let leaves = Vec::with_capacity(alloc, count + 2)?;
    Ok(Side {
        frame,
        rooms: (one, other),
        leaves,
    })
}

/// Prepares all that is needed to cut a tree in two before the pair at a position.
///
/// O(n / 32) for n pairs. It clones the first key of each leaf and computes a summary of its keys.
/// It fails if one of these or an allocation fails.
pub fn plan_split<S: NodeStore>(tree: &Nodes<S>, at: Position) -> Result<Split<S>, AllocError>
    requires index { HasPosition S.slots tree.now at }
    requires first { 0 < index_of_position S.slots tree.now at }
    requires last { index_of_position S.slots tree.now at < length tree.now.contents }
    ensures { IfOk result (IsSplitAt S.K.cmp S.Argument.is_summary S.slots tree.now at) }
{
    let ids = leaf_ids(tree)?;
    let cut = cut_before(tree, &ids, at);
    let lower = side_of(lower_frame(tree, &ids, cut)?, cut.from)?;
    let upper = side_of(upper_frame(tree, &ids, cut)?, ids.len() - cut.to)?;
    let alloc = tree.store.allocator();
    let leaves = Vec::with_capacity(alloc, ids.len())?;
    let pairs = Vec::with_capacity(alloc, cut.below + cut.above)?;
    Ok(Split {
        ids,
        cut,
        lower,
        upper,
        leaves,
        pairs,
    })
}

/// The nodes above the leaves of a tree, and these leaves.
#[derive(Drop)]
pub(crate) struct Ready<S: NodeStore> {
    pub(crate) frame: Frame<S>,
    pub(crate) leaves: Vec<Box<LeafNode<S::K, S::V>>>,
}

// Moves all leaves out of a tree, and gives each side its own leaves.
fn deal<S: NodeStore>(tree: Nodes<S>, split: Split<S>) -> (Ready<S>, Ready<S>)
    requires { IsSplitSomewhere S.K.cmp S.Argument.is_summary S.slots tree split }
    ensures lower { ReadiesLower S.K.cmp S.Argument.is_summary S.slots tree split result.0 }
    ensures upper { ReadiesUpper S.K.cmp S.Argument.is_summary S.slots tree split result.1 }
{
    tree.recall();
    let Split {
        ids,
        cut,
        lower,
        upper,
        mut leaves,
        mut pairs,
    } = split;
    let Nodes { mut store, .. } = tree;
    let behind = ids.len() - cut.to;
    take_leaves(&mut store, &ids, &mut leaves);
    let mut boxes = leaves.into_iter();
    let mut low = lower.leaves;
    let mut high = upper.leaves;
    pass(&mut boxes, cut.from, &mut low);
    pour(&mut boxes, cut.to - cut.from, &mut pairs);
    let mut items = pairs.into_iter();
    fill_pieces(&mut items, cut.below, cut.below_half, lower.rooms, &mut low);
    fill_pieces(
        &mut items,
        cut.above,
        cut.above_half,
        upper.rooms,
        &mut high,
    );
    pass(&mut boxes, behind, &mut high);
    let lower = Ready {
        frame: lower.frame,
        leaves: low,
    };
    let upper = Ready {
        frame: upper.frame,
        leaves: high,
    };
    (lower, upper)
}

/// The tree of a frame with its leaves.
pub(crate) fn assemble<S: NodeStore>(ready: Ready<S>) -> Nodes<S>
    requires { CanBeStored S.K.cmp S.Argument.is_summary S.slots ready }
    ensures contents { HasPairs S.K.cmp S.Argument.is_summary S.slots ready result.contents }
    ensures whole { IsWhole S.K.cmp S.Argument.is_summary S.slots result }
{
    let len = pairs_in(&ready.leaves);
    plant(ready.frame, ready.leaves, len)
}

/// Cuts a tree in two.
///
/// O(n / 32) for n pairs: only the pairs of three leaves move to other leaves. It allocates nothing
/// and cannot fail.
pub fn cut_in_two<S: NodeStore>(tree: Nodes<S>, split: Split<S>) -> (Nodes<S>, Nodes<S>)
    requires { IsSplitSomewhere S.K.cmp S.Argument.is_summary S.slots tree split }
    ensures lower { AreLower S.K.cmp S.Argument.is_summary S.slots tree split result.0.contents }
    ensures upper { AreUpper S.K.cmp S.Argument.is_summary S.slots tree split result.1.contents }
    ensures lower_whole { IsWhole S.K.cmp S.Argument.is_summary S.slots result.0 }
    ensures upper_whole { IsWhole S.K.cmp S.Argument.is_summary S.slots result.1 }
{
    tree.recall();
    let (lower, upper) = deal(tree, split);
    (assemble(lower), assemble(upper))
}

/// How a tree is cut in two before the first pair whose key is not below a given key.
#[derive(Drop)]
pub enum Cutting<S: NodeStore> {
    /// No key is that great, so that all pairs stay.
    Stays,
    /// No key is below the given key, so that all pairs move.
    Moves,
    /// Some pairs stay, and some move.
    Parts(Split<S>),
    /// Some pairs stay, and those that move are so few that they move one by one.
    Last(Filling<S>),
}

/// Whether a position is before all pairs.
///
/// O(log n). It allocates nothing and cannot fail.
pub fn is_start<S: NodeStore>(tree: &Nodes<S>, at: Position) -> bool
    requires { HasPosition S.slots tree.now at }
    ensures { IsTrue result ↔ PartStartsAt S.slots tree.now at }
{
    tree.recall();
    if at.slot > 0 {
        return false;
    }
    tree.first_leaf() == at.leaf
}

/// Whether a position is behind all pairs.
///
/// O(1). It allocates nothing and cannot fail.
pub fn is_end<S: NodeStore>(tree: &Nodes<S>, at: Position) -> bool
    requires { IsAtPair S.slots tree.now at }
    ensures { IsTrue result ↔ (index_of_position S.slots tree.now at ≡ length tree.now.contents) }
{
    tree.recall();
    at.slot == tree.store.get_leaf(at.leaf).len()
}

/// Prepares all that is needed to cut a tree in two before the first pair whose key is not below
/// `k`.
///
/// It searches for that key in O(log n) comparisons, and costs and fails as `plan_split` does. If
/// all pairs stay or all move, it allocates nothing and cannot fail.
pub fn plan_at_key<S: NodeStore>(tree: &Nodes<S>, k: &S::K) -> Result<Cutting<S>, AllocError>
    ensures { IfOk result (IsCutting S.K.cmp S.Argument.is_summary S.K.is_infallible S.Argument.needs_no_memory S.slots tree.now k.now) }
{
    tree.recall();
    let at = settled(tree, index_of_bound(tree, Bound::Included(k), End::Front));
    if at.slot == tree.store.get_leaf(at.leaf).len() {
        return Ok(Cutting::Stays);
    }
    if is_start(tree, at) {
        return Ok(Cutting::Moves);
    }
    if let Some(count) = few_from(tree, at) {
        let tail = plan_tail(tree, at, count)?;
        return Ok(Cutting::Last(tail));
    }
    let split = plan_split(tree, at)?;
    Ok(Cutting::Parts(split))
}
