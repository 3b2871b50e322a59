//! Reads of a tree by the summaries of its keys.
ghost use Rattle.std.specs.Prelude.{◌≡◌, ◌+◌, ◌≤◌, length, IfOk, IsOk, is_ok};
ghost use Rattle.std.specs.Map.{keys_of};
ghost use Rattle.bptree_arguments.specs.Selection.{LeadsOver};
ghost use Rattle.bptree_keys.specs.Contents.{has};
ghost use Rattle.bptree_search.specs.ByArgument.{IsSubtree, IsSelectedAt, IsSelectedIn, IsWayTo, GoesOn, RanksAmong, RanksKey, FoundIfPresent};
ghost use Rattle.bptree_invariant.specs.Shape.{pairs_at};

use bptree_arguments::argument::{RankArgument, SearchArgument};
use bptree_invariant::nodes::Nodes;
use bptree_keys::entry_ref::VisitStack;
use bptree_keys::key::Key;
use bptree_keys::node_id::{NodeId, Position};
use bptree_nodes::inner_node::InnerNode;
use bptree_stores::node_stores::NodeStore;
use std::alloc::AllocError;

/// Returns the position of an index that is allowed for the query, or `None` if `None` is allowed.
///
/// O(height) steps. Each step evaluates the query once: on an inner node with its separators and
/// summaries, or on one leaf with its keys. It allocates only what the argument does, and fails
/// only if the argument does.
pub fn find_by_argument<S: NodeStore>(
    tree: &Nodes<S>,
    query: <S::Argument as SearchArgument<S::K>>::Query,
) -> Result<Option<Position>, AllocError>
where
    S::Argument: SearchArgument<S::K>,
    ensures selected { IfOk result (IsSelectedIn S.slots tree.now S.Argument.selects query) }
    ensures infallible { S.Argument.needs_no_memory → IsOk result }
{
    tree.recall();
    find_below(&tree.store, tree.root, tree.height, query)
}

// `find_by_argument` for the tree of a height at a node id.
fn find_below<S: NodeStore>(
    store: &S,
    id: NodeId,
    height: usize,
    query: <S::Argument as SearchArgument<S::K>>::Query,
) -> Result<Option<Position>, AllocError>
where
    S::Argument: SearchArgument<S::K>,
    requires { IsSubtree S.K.cmp S.Argument.is_summary (S.slots store.now) height id }
    ensures selected { IfOk result (IsSelectedAt S.Argument.selects query (S.slots store.now) height id) }
    ensures infallible { S.Argument.needs_no_memory → IsOk result }
{
    match id {
        NodeId::Leaf(leaf) => {
            let keys = store.get_leaf(leaf).keys();
            match <S::Argument as SearchArgument<S::K>>::locate_in_leaf(query, keys)? {
                None => Ok(None),
                Some(slot) => Ok(Some(Position { leaf, slot })),
            }
        }
        NodeId::Inner(inner) => {
            let node = store.get_inner(inner);
            match lead_on(node, query)? {
                None => Ok(None),
                Some((index, next)) => find_below(store, node.child_id(index), height - 1, next),
            }
        }
    }
}

// Returns the index of the child of an inner node that the query leads to, with the query for that
// child.
fn lead_on<K: Key, A: SearchArgument<K>>(
    node: &InnerNode<K, A>,
    query: A::Query,
) -> Result<Option<(usize, A::Query)>, AllocError>
    ensures leads { IfOk result (LeadsOver A.is_summary K.cmp node.now.arguments A.selects query) }
    ensures infallible { A.needs_no_memory → IsOk result }
{
    A::locate_in_inner(query, node.keys(), node.arguments())
}

/// Returns what `find_by_argument` does, and stores in `path` the inner nodes of the descent from
/// the root to the leaf of the position. If there is no position, the path may contain some other
/// nodes.
///
/// O(height) steps, each of which evaluates the query on one node. The path is cleared first. It
/// fails only if the argument does.
pub fn find_path_by_argument<S: NodeStore>(
    tree: &Nodes<S>,
    query: <S::Argument as SearchArgument<S::K>>::Query,
    path: &mut VisitStack,
) -> Result<Option<Position>, AllocError>
where
    S::Argument: SearchArgument<S::K>,
    ensures selected { IfOk result (IsSelectedIn S.slots tree.now S.Argument.selects query) }
    ensures way { IfOk result (IsWayTo S.slots tree.now S.K.cmp path.new) }
    ensures infallible { S.Argument.needs_no_memory → IsOk result }
{
    tree.recall();
    path.clear();
    find_path_below(&tree.store, tree.root, tree.height, query, path)
}

// `find_path_by_argument` for the tree of a height at a node id, from a path to that node on.
fn find_path_below<S: NodeStore>(
    store: &S,
    id: NodeId,
    height: usize,
    query: <S::Argument as SearchArgument<S::K>>::Query,
    path: &mut VisitStack,
) -> Result<Option<Position>, AllocError>
where
    S::Argument: SearchArgument<S::K>,
    requires subtree { IsSubtree S.K.cmp S.Argument.is_summary (S.slots store.now) height id }
    requires room { length path.old + height ≤ 15 }
    ensures selected { IfOk result (IsSelectedAt S.Argument.selects query (S.slots store.now) height id) }
    ensures way { IfOk result (GoesOn S.K.cmp (S.slots store.now) height id path.old path.new) }
    ensures infallible { S.Argument.needs_no_memory → IsOk result }
{
    match id {
        NodeId::Leaf(_) => find_below(store, id, height, query),
        NodeId::Inner(inner) => {
            let node = store.get_inner(inner);
            match lead_on(node, query)? {
                None => Ok(None),
                Some((offset, next)) => {
                    let child = node.child_id(offset);
                    path.push(inner, offset, child);
                    find_path_below(store, child, height - 1, next, path)
                }
            }
        }
    }
}

/// A rank: `Ok` if the key is present.
type RankResult<R> = Result<R, R>;

/// Returns the rank of a key: `Ok` if the key is present.
///
/// O(height) steps: one descent, which folds on each level the summaries of the children before the
/// one for the key, and then the leaf. It fails only if the argument does.
pub fn rank_by_argument<S: NodeStore>(
    tree: &Nodes<S>,
    k: &S::K,
) -> Result<RankResult<<S::Argument as RankArgument<S::K>>::Rank>, AllocError>
where
    S::Argument: RankArgument<S::K>,
    ensures ranked { IfOk result (RanksKey S.Argument.ranks k.now tree.now.contents) }
    ensures present { IfOk result (FoundIfPresent S.K.cmp tree.now.contents k.now) }
    ensures infallible { S.Argument.needs_no_memory → IsOk result }
{
    tree.recall();
    let rank = <S::Argument as RankArgument<S::K>>::initial_value();
    rank_below(&tree.store, tree.root, tree.height, k, rank)
}

// `rank_by_argument` for the tree below a node, carried on from the rank that represents the
// keys before it.
fn rank_below<S: NodeStore>(
    store: &S,
    id: NodeId,
    height: usize,
    k: &S::K,
    rank: <S::Argument as RankArgument<S::K>>::Rank,
) -> Result<RankResult<<S::Argument as RankArgument<S::K>>::Rank>, AllocError>
where
    S::Argument: RankArgument<S::K>,
    requires { IsSubtree S.K.cmp S.Argument.is_summary (S.slots store.now) height id }
    ensures ranked { IfOk result (RanksAmong S.K.cmp S.Argument.represents S.Argument.ranks k.now rank (keys_of (pairs_at (S.slots store.now) height id))) }
    ensures present { IfOk result (λ outcome. is_ok outcome ≡ has S.K.cmp (pairs_at (S.slots store.now) height id) k.now) }
    ensures infallible { S.Argument.needs_no_memory → IsOk result }
{
    match id {
        NodeId::Leaf(leaf) => {
            let node = store.get_leaf(leaf);
            let slot = node.locate_slot(k);
            <S::Argument as RankArgument<S::K>>::fold_leaf(k, rank, slot, node.keys())
        }
        NodeId::Inner(inner) => {
            let node = store.get_inner(inner);
            let (index, child) = node.locate_child(k);
            let before = &node.arguments()[..index];
            let next = <S::Argument as RankArgument<S::K>>::fold_inner(k, rank, before)?;
            rank_below(store, child, height - 1, k, next)
        }
    }
}
