//! Building a tree of ascending pairs.
ghost use Rattle.std.specs.Prelude.{◌≡◌, ◌<◌, length, IfOk};
ghost use Rattle.bptree_keys.specs.Contents.{IsAscending};
ghost use Rattle.bptree_nodes.specs.Slot.{IsEmpty};
ghost use Rattle.bptree_bulk_load.specs.Layer.{RaisesAll};
ghost use Rattle.bptree_invariant.specs.NodeTree.{IsWhole};

use crate::inner_layer::raise_layer;
use crate::leaf_layer::build_leaves;
use crate::subtree::Subtree;
use bptree_invariant::nodes::Nodes;
use bptree_keys::node_id::NodeId;
use bptree_stores::node_stores::NodeStore;
use std::alloc::AllocError;

/// The top of a tree that was built.
#[derive(Drop)]
pub struct Built<A> {
    pub root: NodeId,
    /// The number of levels of inner nodes.
    pub height: usize,
    /// A summary of all keys.
    pub summary: A,
}

/// Builds the layers above at least one tree of height 0, up to a single node.
///
/// It takes O(n) steps for n trees, and clones no key. It reads no leaf, so the leaves may take
/// their pairs later. If an allocation fails, what was built so far stays in the store.
pub fn raise_all<S: NodeStore>(
    store: &mut S,
    trees: Vec<Subtree<S::K, S::Argument>>,
) -> Result<Built<S::Argument>, AllocError>
    requires { 0 < length trees.items }
    ensures { IfOk result (RaisesAll S.K.cmp S.Argument.is_summary (S.slots store.old) (S.slots store.new) trees.items) }
{
    let mut layer = trees;
    let mut height = 0;
    'layers: while layer.len() > 1 {
        layer = raise_layer(store, layer, height)?;
        height += 1;
    }
    let Subtree {
        root,
        first: _,
        summary,
    } = layer.pop().unwrap();
    Ok(Built {
        root,
        height,
        summary,
    })
}

/// Builds a tree of ascending pairs in an empty store.
///
/// While more than 64 pairs are left, a leaf takes 60 of them. An inner node takes as many children
/// as it has room for. Only the last two nodes of a layer share what is left, if the last would have
/// too few. It takes O(n) steps, moves each pair once and clones one key of each leaf. If an
/// allocation fails, the pairs and the store are dropped.
pub fn build<S: NodeStore>(store: S, pairs: Vec<(S::K, S::V)>) -> Result<Nodes<S>, AllocError>
    requires empty { IsEmpty (S.slots store) }
    requires ascending { IsAscending S.K.cmp pairs.items }
    requires some { 0 < length pairs.items }
    ensures contents { IfOk result (λ tree. tree.contents ≡ pairs.items) }
    ensures whole { IfOk result (IsWhole S.K.cmp S.Argument.is_summary S.slots) }
{
    let mut store = store;
    let len = pairs.len();
    let layer = build_leaves(&mut store, pairs)?;
    let built = raise_all(&mut store, layer)?;
    let Built {
        root,
        height,
        summary,
    } = built;
    let tree = Nodes {
        store,
        root,
        height,
        len,
        summary,
    };
    Ok(tree)
}
