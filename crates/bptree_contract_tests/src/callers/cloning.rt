//! Callers of a clone.
ghost use Rattle.std.specs.Prelude.{◌≡◌, length, IfOk};
ghost use Rattle.bptree_contract_tests.specs.Words.{HasLeavesAsLong, HasSameKeys, IsStoredWhole};

use bptree_arguments::argument::CloneArgument;
use bptree_keys::node_id::NodeId;
use bptree_stores::node_stores::CloneStore;
use bptree_tree::BPlusTree;
use std::alloc::AllocError;

// A clone has the keys of the original, and as many pairs. Its leaf with an id has as many pairs as
// the original's. Its nodes are a whole tree with the original's root and height.
fn has_the_same_keys<S: CloneStore>(
    tree: &BPlusTree<S>,
) -> Result<(BPlusTree<S>, NodeId, usize), AllocError>
where
    S::V: Clone,
    S::Argument: CloneArgument<S::K>,
    ensures keys { IfOk result (λ it. HasSameKeys S.K.cmp tree.now.contents it.0.contents) }
    ensures len { IfOk result (λ it. length it.0.contents ≡ length tree.now.contents) }
    ensures leaves { IfOk result (λ it. HasLeavesAsLong S.slots tree.now it.0) }
    ensures whole { IfOk result (IsStoredWhole S.slots S.K.cmp S.Argument.is_summary) }
{
    let copy = tree.clone()?;
    Ok((copy, tree.root_id(), tree.height()))
}
