//! The pairs of one group of keys.
ghost use Rattle.std.specs.Prelude.{IfOk};
ghost use Rattle.bptree_invariant.specs.Leaves.{IsStored};
ghost use Rattle.bptree_ranges.specs.InTree.{HasBorder, HasGroup, HasPartOfGroup};
ghost use Rattle.bptree_ranges.specs.Indexes.{BordersLeaf};

use crate::indexes::index_in_group;
use crate::ranges::{no_part, part_of_indexes, start_of_all};
use bptree_arguments::group::FromRef;
use bptree_arguments::group_order::keys_before;
use bptree_invariant::nodes::Nodes;
use bptree_iter::part::{Part, PartLen};
use bptree_keys::end::End;
use bptree_keys::key::Key;
use bptree_keys::node_id::{LeafNodeId, NodeId, Position};
use bptree_stores::node_stores::NodeStore;
use std::alloc::AllocError;

/// Returns the pairs whose key's group equals `group`.
///
/// It makes two descents, one to the start of the group and one to its end. They compute the groups
/// of at most 7 keys or separators of each node. It fails only if one of these computations fails.
pub fn part_of_group<S: NodeStore, G: FromRef<S::K> + Key>(
    tree: &Nodes<S>,
    group: &G,
) -> Result<Part, AllocError>
    ensures { IfOk result (HasGroup S.slots tree.now G.cmp G.group_of group.now) }
{
    let len = tree.len();
    let front = index_of_group(tree, group, End::Front)?;
    let back = index_of_group(tree, group, End::Back)?;
    Ok(part_of_indexes(tree, front, back, len, PartLen::Open))
}

/// Returns the first `n` pairs of a group after its first `i`, or all after these if there are
/// fewer.
///
/// It makes two descents, one to the first of these pairs and one to the end of the group. They
/// compute the groups of at most 7 keys or separators of each node. If the summaries determine how
/// many keys they cover, the pairs before the first one cost no step. Otherwise it walks over
/// them.
pub fn part_within_group<S: NodeStore, G: FromRef<S::K> + Key>(
    tree: &Nodes<S>,
    group: &G,
    i: usize,
    n: usize,
) -> Result<Part, AllocError>
    ensures { IfOk result (HasPartOfGroup S.slots tree.now G.cmp G.group_of group.now i n) }
{
    tree.recall();
    match index_in_group(tree, group, i)? {
        None => Ok(no_part(start_of_all(tree))),
        Some(front) => {
            let back = index_of_group(tree, group, End::Back)?;
            Ok(part_of_indexes(tree, front, back, n, PartLen::Cut))
        }
    }
}

// Returns the position at which a group begins or ends, as `end` says.
fn index_of_group<S: NodeStore, G: FromRef<S::K> + Key>(
    tree: &Nodes<S>,
    group: &G,
    end: End,
) -> Result<Position, AllocError>
    ensures { IfOk result (HasBorder S.slots tree.now G.cmp G.group_of group.now end) }
{
    let leaf = leaf_of_group(&tree.store, tree.root, tree.height, group, end)?;
    let slot = keys_before(tree.store.get_leaf(leaf).keys(), group, end)?;
    Ok(Position { leaf, slot })
}

// Returns the leaf in which a group begins or ends, as `end` says.
fn leaf_of_group<S: NodeStore, G: FromRef<S::K> + Key>(
    store: &S,
    id: NodeId,
    height: usize,
    group: &G,
    end: End,
) -> Result<LeafNodeId, AllocError>
    requires { IsStored S.K.cmp (S.slots store.now) height id }
    ensures { IfOk result (BordersLeaf G.cmp G.group_of group.now (S.slots store.now) height id end) }
{
    match id {
        NodeId::Leaf(leaf) => Ok(leaf),
        NodeId::Inner(inner) => {
            let node = store.get_inner(inner);
            let index = keys_before(node.keys(), group, end)?;
            let child = node.child_id(index);
            leaf_of_group(store, child, height - 1, group, end)
        }
    }
}
