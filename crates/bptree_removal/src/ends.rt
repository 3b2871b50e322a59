//! Descents to both ends of a tree that is in a store.
ghost use Rattle.std.specs.Prelude.{◌+◌, ◌≤◌, length};
ghost use Rattle.bptree_keys.specs.Ends.{is_back};
ghost use Rattle.bptree_invariant.specs.Leaves.{IsEndLeaf};
ghost use Rattle.bptree_search.specs.ByArgument.{IsSubtree};
ghost use Rattle.bptree_removal.specs.Removal.{LeadsOn};

use bptree_invariant::descent::end_index;
use bptree_keys::end::End;
use bptree_keys::entry_ref::VisitStack;
use bptree_keys::node_id::{LeafNodeId, NodeId};
use bptree_stores::node_stores::NodeStore;

/// Returns the leaf at an end of the tree of the given height below a node. It appends the inner
/// nodes on the way to the leaf to `path`, and compares no key.
pub(crate) fn end_path<S: NodeStore>(
    store: &S,
    id: NodeId,
    height: usize,
    end: End,
    path: &mut VisitStack,
) -> LeafNodeId
    requires subtree { IsSubtree S.K.cmp S.Argument.is_summary (S.slots store.now) height id }
    requires room { length path.old + height ≤ 15 }
    ensures leaf { IsEndLeaf (S.slots store.now) (is_back end) height id result }
    ensures way { LeadsOn S.K.cmp (S.slots store.now) height id path.old path.new result }
{
    match id {
        NodeId::Leaf(leaf) => leaf,
        NodeId::Inner(inner) => {
            let node = store.get_inner(inner);
            let index = end_index(node.len() + 1, end);
            let child = node.child_id(index);
            path.push(inner, index, child);
            end_path(store, child, height - 1, end, path)
        }
    }
}
