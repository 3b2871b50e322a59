//! Visits of a tree.
ghost use Rattle.bptree_search.specs.ByArgument.{IsSubtree};
ghost use Rattle.bptree_invariant.specs.Shape.{pairs_at};
ghost use Rattle.bptree_search.specs.Visiting.{IsAllowedResult};

use bptree_arguments::visit::{DescendError, DescendVisit, DescendVisitResult};
use bptree_invariant::nodes::Nodes;
use bptree_keys::node_id::NodeId;
use bptree_stores::node_stores::NodeStore;

/// Returns the result of a visitor on a tree.
///
/// O(height) steps. The visitor sees one inner node per level, with that node's own separators and
/// summaries, until it ends or has seen one leaf. The visit fails only if the visitor does or if it
/// returns the index of a child that its node does not have.
pub fn descend_visit<S: NodeStore, W: DescendVisit<S::K, S::V, S::Argument>>(
    tree: &Nodes<S>,
    visitor: W,
) -> Result<Option<W::Result>, DescendError>
    ensures { IsAllowedResult W.outcomes visitor tree.now.contents result }
{
    tree.recall();
    visit_below(&tree.store, tree.root, tree.height, visitor)
}

// `descend_visit` for the tree of a height at a node id.
fn visit_below<S: NodeStore, W: DescendVisit<S::K, S::V, S::Argument>>(
    store: &S,
    id: NodeId,
    height: usize,
    mut visitor: W,
) -> Result<Option<W::Result>, DescendError>
    requires { IsSubtree S.K.cmp S.Argument.is_summary (S.slots store.now) height id }
    ensures { IsAllowedResult W.outcomes visitor (pairs_at (S.slots store.now) height id) result }
{
    match id {
        NodeId::Leaf(leaf) => {
            let node = store.get_leaf(leaf);
            match visitor.visit_leaf(node.keys(), node.values()) {
                Err(_) => Err(DescendError::OutOfMemory),
                Ok(outcome) => Ok(outcome),
            }
        }
        NodeId::Inner(inner) => {
            let node = store.get_inner(inner);
            match visitor.visit_inner(node.keys(), node.arguments()) {
                Err(_) => Err(DescendError::OutOfMemory),
                Ok(DescendVisitResult::Cancel) => Ok(None),
                Ok(DescendVisitResult::Complete(outcome)) => Ok(Some(outcome)),
                Ok(DescendVisitResult::GoDown(index)) => {
                    if index > node.len() {
                        return Err(DescendError::InvalidChild);
                    }
                    let child = node.child_id(index);
                    visit_below(store, child, height - 1, visitor)
                }
            }
        }
    }
}
