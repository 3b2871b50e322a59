//! Pairs that move one by one to the leaves of a new tree.
ghost use Rattle.std.specs.Prelude.{◌≡◌, ◌+◌, ◌≤◌, length, vec_capacity, vec_len, IfOk};
ghost use Rattle.std.specs.List.{AllByRecursion};
ghost use Rattle.std.specs.Vec.Iter.{into_iter_items, into_iter_len};
ghost use Rattle.bptree_bulk.specs.Filling.{AreLaidOut, Fills, HaveRooms, IsEmptyLeaf, IsFilling, IsSize, TakeParts};
ghost use Rattle.bptree_bulk.specs.Split.{HasLeavesFor};
ghost use Rattle.bptree_invariant.specs.NodeTree.{IsWhole};

use crate::moving::fill_piece;
use bptree_bulk_load::plan::{Plan, frame};
use bptree_bulk_load::planting::{Frame, plant};
use bptree_invariant::nodes::Nodes;
use bptree_keys::key::Key;
use bptree_nodes::leaf_node::{LEAF_CAPACITY, LeafNode};
use bptree_stores::node_stores::NodeStore;
use std::alloc::AllocError;
use std::vec::IntoIter;

/// What is prepared before pairs move to the leaves of a new tree: the nodes above the leaves, the
/// empty leaves, and the room for the list of the filled ones and for the pairs. Dropping it
/// changes no tree.
#[derive(Drop)]
pub struct Filling<S: NodeStore> {
    pub(crate) frame: Frame<S>,
    pub(crate) rooms: Vec<Box<LeafNode<S::K, S::V>>>,
    pub(crate) leaves: Vec<Box<LeafNode<S::K, S::V>>>,
    /// The number of pairs that move, and the room for them.
    pub count: usize,
    pub pairs: Vec<(S::K, S::V)>,
}

/// Returns the number of pairs, of `left`, that the next leaf takes. A leaf gets at least 32 pairs,
/// or all that are left.
///
/// O(1). It allocates nothing and cannot fail.
pub fn size_of(left: usize) -> usize
    ensures { IsSize left result }
{
    if left <= LEAF_CAPACITY {
        return left;
    }
    if left <= 2 * LEAF_CAPACITY {
        return LEAF_CAPACITY / 2;
    }
    LEAF_CAPACITY
}

/// All that is needed to fill the leaves of a plan: it has a leaf for each part of `count` pairs.
///
/// It allocates the nodes above the leaves, and the room for the list of leaves and for the pairs.
/// It fails if an allocation fails.
pub(crate) fn filling_of<S: NodeStore>(
    plan: Plan<S>,
    rooms: Vec<Box<LeafNode<S::K, S::V>>>,
    count: usize,
) -> Result<Filling<S>, AllocError>
    requires { AreLaidOut S.K.cmp S.Argument.is_summary S.slots plan rooms.items count }
    ensures filling { Fills S.K.cmp S.Argument.is_summary S.slots plan rooms.items count result }
    ensures room { IfOk result (λ filling. HasLeavesFor filling.count filling.pairs) }
{
    let alloc = plan.store.allocator();
    let leaves = Vec::with_capacity(alloc, rooms.len())?;
    let pairs = Vec::with_capacity(alloc, count)?;
    let frame = frame(plan)?;
    Ok(Filling {
        frame,
        rooms,
        leaves,
        count,
        pairs,
    })
}

/// Fills empty leaves with pairs, and appends them to others.
///
/// O(1) a pair. It allocates nothing and cannot fail.
pub fn fill_all<K: Key, V: Drop>(
    pairs: IntoIter<(K, V)>,
    rooms: IntoIter<Box<LeafNode<K, V>>>,
    leaves: &mut Vec<Box<LeafNode<K, V>>>,
)
    requires counted { into_iter_len pairs ≡ length (into_iter_items pairs) }
    requires empty { AllByRecursion IsEmptyLeaf (into_iter_items rooms) }
    requires parts { HaveRooms (into_iter_items pairs) (into_iter_items rooms) }
    requires room { vec_len leaves.old + length (into_iter_items rooms) ≤ vec_capacity leaves.old }
    ensures leaves { TakeParts (into_iter_items pairs) leaves.old.items leaves.new.items }
    ensures len { vec_len leaves.new ≡ vec_len leaves.old + length (into_iter_items rooms) }
    ensures capacity { vec_capacity leaves.new ≡ vec_capacity leaves.old }
{
    let mut pairs = pairs;
    let mut rooms = rooms;
    'rooms: while pairs.len() > 0 {
        let size = size_of(pairs.len());
        fill_piece(&mut pairs, size, rooms.next().unwrap(), leaves);
    }
}

/// The tree of the pairs that moved, the least of which moved first.
///
/// O(1) a pair. It allocates nothing and cannot fail.
pub fn plant_filling<S: NodeStore>(filling: Filling<S>) -> Nodes<S>
    requires { IsFilling S.K.cmp S.Argument.is_summary S.slots filling filling.pairs.items }
    ensures contents { result.contents ≡ filling.pairs.items }
    ensures whole { IsWhole S.K.cmp S.Argument.is_summary S.slots result }
{
    let Filling {
        frame,
        rooms,
        mut leaves,
        count,
        pairs,
    } = filling;
    fill_all(pairs.into_iter(), rooms.into_iter(), &mut leaves);
    plant(frame, leaves, count)
}
