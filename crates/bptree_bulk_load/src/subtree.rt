//! A tree of a layer.
ghost use Rattle.std.specs.Prelude.{◌≡◌, ◌++◌, ◌∷◌, [], IfOk};

use bptree_keys::node_id::NodeId;
use std::alloc::AllocError;

/// The node id of a tree's root, with a key that equals the tree's least key, and a summary of its
/// keys.
#[derive(Drop)]
pub struct Subtree<K, A> {
    pub root: NodeId,
    pub first: K,
    pub summary: A,
}

/// Appends a tree to those of a layer.
pub(crate) fn append<K: Drop, A: Drop>(
    layer: &mut Vec<Subtree<K, A>>,
    tree: Subtree<K, A>,
) -> Result<(), AllocError>
    ensures { IfOk result (λ _. layer.new.items ≡ layer.old.items ++ tree ∷ []) }
{
    layer.push(tree)?;
    Ok(())
}
