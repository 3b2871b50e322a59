//! Clones of a tree.
ghost use Rattle.std.specs.Prelude.{IfOk};
ghost use Rattle.bptree_tree.specs.Whole.{IsWhole, AreNodesCloned, HasSameRoot, HasClonedPairs};

use crate::tree::BPlusTree;
use bptree_arguments::argument::CloneArgument;
use bptree_invariant::nodes::Nodes;
use bptree_stores::node_stores::CloneStore;
use std::alloc::AllocError;

impl<S: CloneStore> BPlusTree<S>
where
    S::V: Clone,
    S::Argument: CloneArgument<S::K>,
{
    /// A tree of equal keys in the same order, whose values are clones.
    ///
    /// O(n): each key, value and summary is cloned once. It fails only if an allocation or a clone
    /// fails; then what was cloned is dropped.
    pub fn clone(&self) -> Result<Self, AllocError>
        ensures contents { IfOk result (HasClonedPairs S.K.cmp S.V.is_clone self.now) }
        ensures whole { IfOk result (IsWhole S.K.cmp S.Argument.is_summary S.slots) }
        ensures nodes { IfOk result (AreNodesCloned S.slots S.K.is_clone S.V.is_clone S.Argument.is_clone self.now) }
        ensures shape { IfOk result (HasSameRoot self.now) }
    {
        let nodes = &self.nodes;
        let store = nodes.store.clone()?;
        let summary = nodes.summary.clone()?;
        let copy = Nodes {
            store,
            root: nodes.root,
            height: nodes.height,
            len: nodes.len,
            summary,
        };
        Ok(BPlusTree::of_nodes(copy))
    }
}
