//! Positions in a tree, found by the summaries that determine how many keys they cover.
ghost use Rattle.std.specs.Prelude.{◌≤◌, IfOk, IfSome};
ghost use Rattle.bptree_ranges.specs.InTree.{HasIndexOfGroup};
ghost use Rattle.bptree_ranges.specs.Indexes.{IsSkippedFrom, SkipsInto};
ghost use Rattle.bptree_search.specs.ByArgument.{IsSubtree};
ghost use Rattle.bptree_arguments.specs.Sums.{ReportsLength};

use bptree_arguments::argument::Argument;
use bptree_arguments::group::FromRef;
use bptree_arguments::group_order::keys_before;
use bptree_invariant::nodes::Nodes;
use bptree_keys::end::End;
use bptree_keys::key::Key;
use bptree_keys::node_id::{NodeId, Position};
use bptree_stores::node_stores::NodeStore;
use std::alloc::AllocError;

/// The result of a walk over a number of pairs.
#[derive(Clone, Copy, Drop)]
pub(crate) enum Skipped {
    /// The position of the pair after them.
    Found(Position),
    /// There are fewer pairs, and this many more are to be passed.
    Short(usize),
}

/// Returns the position of the pair after the first `i` of a group, or `None` if the group has no
/// more.
///
/// It makes one descent to the start of the group, and computes the groups of at most 7 keys or
/// separators of each node. On the way back up it passes children by their summaries, if these
/// determine how many keys they cover, and goes down into one that has more than are to be
/// passed. If the summaries do not determine that, it goes down into each child on the way.
pub(crate) fn index_in_group<S: NodeStore, G: FromRef<S::K> + Key>(
    tree: &Nodes<S>,
    group: &G,
    i: usize,
) -> Result<Option<Position>, AllocError>
    ensures { IfOk result (HasIndexOfGroup S.slots tree.now G.cmp G.group_of group.now i) }
{
    tree.recall();
    match skip_from_group(&tree.store, tree.root, tree.height, group, i)? {
        Skipped::Short(_) => Ok(None),
        Skipped::Found(at) => {
            let end = keys_before(tree.store.get_leaf(at.leaf).keys(), group, End::Back)?;
            if at.slot < end {
                Ok(Some(at))
            } else {
                Ok(None)
            }
        }
    }
}

// Returns the position after `i` pairs from the start of a group.
fn skip_from_group<S: NodeStore, G: FromRef<S::K> + Key>(
    store: &S,
    id: NodeId,
    height: usize,
    group: &G,
    i: usize,
) -> Result<Skipped, AllocError>
    requires { IsSubtree S.K.cmp S.Argument.is_summary (S.slots store.now) height id }
    ensures { IfOk result (SkipsInto G.cmp G.group_of group.now (S.slots store.now) height id i) }
{
    match id {
        NodeId::Leaf(leaf) => {
            let first = keys_before(store.get_leaf(leaf).keys(), group, End::Front)?;
            Ok(skip(store, id, height, first, i))
        }
        NodeId::Inner(inner) => {
            let node = store.get_inner(inner);
            let index = keys_before(node.keys(), group, End::Front)?;
            let child = node.child_id(index);
            match skip_from_group(store, child, height - 1, group, i)? {
                Skipped::Found(at) => Ok(Skipped::Found(at)),
                Skipped::Short(rest) => Ok(skip(store, id, height, index + 1, rest)),
            }
        }
    }
}

// Returns the position after `i` pairs from a slot of a leaf on, or else from a child on. A child
// is passed in one step if its summary determines that it has no more keys than are to be passed.
fn skip<S: NodeStore>(store: &S, id: NodeId, height: usize, first: usize, i: usize) -> Skipped
    requires { IsSubtree S.K.cmp S.Argument.is_summary (S.slots store.now) height id }
    ensures { IsSkippedFrom (S.slots store.now) height id first i result }
{
    match id {
        NodeId::Leaf(leaf) => {
            let len = store.get_leaf(leaf).len().saturating_sub(first);
            if i < len {
                Skipped::Found(Position {
                    leaf,
                    slot: first + i,
                })
            } else {
                Skipped::Short(i - len)
            }
        }
        NodeId::Inner(inner) => {
            let node = store.get_inner(inner);
            let arguments = node.arguments();
            let mut rest = i;
            for index in first..arguments.len() {
                match count_within(&arguments[index], rest) {
                    Some(count) => rest -= count,
                    None => match skip(store, node.child_id(index), height - 1, 0, rest) {
                        Skipped::Found(at) => return Skipped::Found(at),
                        Skipped::Short(more) => rest = more,
                    },
                }
            }
            Skipped::Short(rest)
        }
    }
}

// Returns how many keys a summary covers, if it determines that and they are at most `most`.
fn count_within<K: Key, A: Argument<K>>(argument: &A, most: usize) -> Option<usize>
    ensures within { IfSome result (λ n. n ≤ most) }
    ensures reported { ReportsLength (A.is_summary argument.now) result }
{
    match argument.key_count() {
        Some(count) if count <= most => Some(count),
        _ => None,
    }
}
