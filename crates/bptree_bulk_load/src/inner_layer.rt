//! Building the inner nodes of a tree, one layer above another.
ghost use Rattle.std.specs.Prelude.{◌≡◌, ◌<◌, ◌≤◌, [], length, IfOk};
ghost use Rattle.std.specs.Vec.Iter.{into_iter_items, into_iter_len};
ghost use Rattle.bptree_bulk_load.specs.Steps.{RaisesLayer, RaisesNode, TakesTrees};

use crate::subtree::{Subtree, append};
use bptree_arguments::argument::Argument;
use bptree_keys::key::Key;
use bptree_keys::node_id::NodeId;
use bptree_load_plan::cuts::first_of_layer;
use bptree_nodes::inner_node::{CHILDREN_CAPACITY, INNER_MINIMUM, InnerNode};
use bptree_stores::node_stores::NodeStore;
use std::alloc::AllocError;
use std::vec::IntoIter;

// Moves the first `count` of the trees below an empty node, and returns the key that the first of
// them starts at.
fn take_trees<K: Key, A: Argument<K>>(
    node: &mut InnerNode<K, A>,
    trees: &mut IntoIter<Subtree<K, A>>,
    count: usize,
) -> K
    requires empty { node.old.children ≡ [] }
    requires count { (0 < count) × (count ≤ 65) }
    requires some { count ≤ length (into_iter_items trees.old) }
    requires counted { into_iter_len trees.old ≡ length (into_iter_items trees.old) }
    ensures above { TakesTrees trees.old count node.new result trees.new }
    ensures counted { into_iter_len trees.new ≡ length (into_iter_items trees.new) }
{
    let Subtree {
        root,
        first,
        summary,
    } = trees.next().unwrap();
    node.adopt(root, summary);
    'children: while node.len() + 1 < count {
        let Subtree {
            root: child,
            first: separator,
            summary: argument,
        } = trees.next().unwrap();
        node.push(separator, child, argument);
    }
    first
}

// Puts a new inner node above the first `count` of the trees.
fn build_layer_above<S: NodeStore>(
    store: &mut S,
    trees: &mut IntoIter<Subtree<S::K, S::Argument>>,
    count: usize,
) -> Result<Subtree<S::K, S::Argument>, AllocError>
    requires count { (0 < count) × (count ≤ 65) }
    requires some { count ≤ length (into_iter_items trees.old) }
    requires counted { into_iter_len trees.old ≡ length (into_iter_items trees.old) }
    ensures { IfOk result (RaisesNode S.K.cmp S.Argument.is_summary (S.slots store.old) (S.slots store.new) trees.old trees.new count) }
{
    let mut node = InnerNode::empty(store.allocator())?;
    let first = take_trees(node.as_mut(), trees, count);
    let summary = S::Argument::from_inner(node.keys(), node.arguments())?;
    let id = store.reserve_inner()?;
    store.put_back_inner(id, node);
    Ok(Subtree {
        root: NodeId::Inner(id),
        first,
        summary,
    })
}

/// Builds the layer above one of at least two trees. It has fewer trees.
pub(crate) fn raise_layer<S: NodeStore>(
    store: &mut S,
    layer: Vec<Subtree<S::K, S::Argument>>,
    height: usize,
) -> Result<Vec<Subtree<S::K, S::Argument>>, AllocError>
    requires { 1 < length layer.items }
    ensures { IfOk result (λ above. RaisesLayer S.K.cmp S.Argument.is_summary (S.slots store.old) (S.slots store.new) height layer.items above.items) }
{
    let mut above = Vec::new(store.allocator());
    let mut left = layer.len();
    let mut trees = layer.into_iter();
    'nodes: while left > CHILDREN_CAPACITY {
        let count = first_of_layer(left, CHILDREN_CAPACITY, INNER_MINIMUM + 1);
        let tree = build_layer_above(store, &mut trees, count)?;
        append(&mut above, tree)?;
        left -= count;
    }
    let tree = build_layer_above(store, &mut trees, left)?;
    append(&mut above, tree)?;
    Ok(above)
}
