//! Descents of a tree that is in a store.
ghost use Rattle.std.specs.Prelude.{◌≡◌, ◌+◌, ◌-◌, ◌*◌, ◌≤◌, cond, length};
ghost use Rattle.bptree_keys.specs.declared.node_id.LeafNodeId.{LeafNodeId};
ghost use Rattle.bptree_keys.specs.Ends.{is_back};
ghost use Rattle.bptree_invariant.specs.Leaves.{IsStored, IsEndLeaf, IsLeafFor};
ghost use Rattle.bptree_keys.specs.declared.node_id.NodeId.TheVariants as kind;
ghost use Rattle.bptree_invariant.specs.Path.{GoesOnTo};

use bptree_keys::compares::Compares;
use bptree_keys::end::End;
use bptree_keys::entry_ref::VisitStack;
use bptree_keys::node_id::{LeafNodeId, NodeId};
use bptree_stores::node_stores::NodeStore;

/// Returns the leaf that a key belongs to, in the tree of a height below a node. Counts its
/// comparisons: at most 7 per level.
///
/// O(h) for the height h. It allocates nothing and cannot fail.
#[inline(always)]
pub fn find_leaf<S: NodeStore>(
    store: &S,
    id: NodeId,
    height: usize,
    key: &S::K,
    compares: &mut Compares,
) -> LeafNodeId
    requires { IsStored S.K.cmp (S.slots store.now) height id }
    ensures leaf { IsLeafFor S.K.cmp (S.slots store.now) height id key.now result }
    ensures counts_on { compares.old ≤ compares.new }
    ensures count { compares.new ≤ compares.old + 7 * height }
{
    match id {
        NodeId::Leaf(leaf) => leaf,
        NodeId::Inner(inner) => {
            let (_, child) = store.get_inner(inner).locate_child_counted(key, compares);
            find_leaf(store, child, height - 1, key, compares)
        }
    }
}

/// Returns the leaf that a key belongs to, and appends the inner nodes of the descent to a path.
///
/// O(h) for the height h. It cannot fail.
pub fn find_path<S: NodeStore>(
    store: &S,
    id: NodeId,
    height: usize,
    key: &S::K,
    path: &mut VisitStack,
) -> LeafNodeId
    requires stored { IsStored S.K.cmp (S.slots store.now) height id }
    requires room { length path.old + height ≤ 15 }
    ensures leaf { IsLeafFor S.K.cmp (S.slots store.now) height id key.now result }
    ensures way { GoesOnTo S.K.cmp (S.slots store.now) key.now path.old height id path.new result }
{
    match id {
        NodeId::Leaf(leaf) => leaf,
        NodeId::Inner(inner) => {
            let (index, child) = store.get_inner(inner).locate_child(key);
            path.push(inner, index, child);
            find_path(store, child, height - 1, key, path)
        }
    }
}

/// Returns the index of the first or the last of `count` items: 0, or `count - 1`.
///
/// O(1). It allocates nothing and cannot fail.
pub fn end_index(count: usize, end: End) -> usize
    ensures { result ≡ cond (is_back end) (count - 1) 0 }
{
    match end {
        End::Front => 0,
        End::Back => count.saturating_sub(1),
    }
}

/// Returns the first or the last leaf of the tree of a height below a node.
pub(crate) fn end_leaf<S: NodeStore>(store: &S, id: NodeId, height: usize, end: End) -> LeafNodeId
    requires { IsStored S.K.cmp (S.slots store.now) height id }
    ensures { IsEndLeaf (S.slots store.now) (is_back end) height id result }
{
    match id {
        NodeId::Leaf(leaf) => leaf,
        NodeId::Inner(inner) => {
            let node = store.get_inner(inner);
            let child = node.child_id(end_index(node.len() + 1, end));
            end_leaf(store, child, height - 1, end)
        }
    }
}
