//! Ranks of groups of a few keys, whose descents of a tree with counts proceed level by level.
ghost use Rattle.std.specs.Prelude.{◌≡◌, ◌-◌, ◌<◌, ◌≤◌, ℕ, List, Ok, length, map};
ghost use Rattle.std.specs.List.{AllZip};
ghost use Rattle.bptree_arguments.specs.CountLaws.{Counted, CountsAtSlot, CountsKeys};
ghost use Rattle.bptree_arguments.specs.Ranks.{Carries};
ghost use Rattle.bptree_batches.specs.Each.{ranked_each};
ghost use Rattle.bptree_batches.specs.RankWays.{IsRankWay, RanksBelow};
ghost use Rattle.bptree_batches.specs.Slots.{IsSlotOfLeaf};
ghost use Rattle.bptree_search.specs.ByArgument.{IsSubtree};
ghost use Rattle.bptree_invariant.specs.Shape.{pairs_at};

use crate::groups::GROUP;
use crate::leaves::locate_group;
use bptree_arguments::count::{Count, total_of};
use bptree_keys::key::Key;
use bptree_keys::node_id::NodeId;
use bptree_stores::node_stores::NodeStore;

// Returns the rank of a key, computed from the number of keys before the subtree and the counts of
// the children before the key's own.
fn passed<K: Key>(before: usize, counts: &[Count]) -> usize
    ensures { (k : K) → Carries CountsKeys K.cmp counts.now Counted before k result }
{
    total_of(before, counts)
}

// Returns the rank of a key, computed from the number of keys before the leaf and the key's slot
// there.
fn ranked<K: Key>(before: usize, slot: Result<usize, usize>) -> usize
    ensures { (k : K) (keys : List K) → CountsAtSlot K.cmp k before keys slot (Ok result) }
{
    match slot {
        Ok(i) => before.saturating_add(i),
        Err(i) => before.saturating_add(i),
    }
}

// Returns the child of an inner node that may hold a key, in the tree of a height below the node,
// and the number of keys before the child: those before the node, and those of the node's children
// before this one.
#[inline(always)]
fn rank_child_below<S: NodeStore<Argument = Count>>(
    store: &S,
    way: (NodeId, usize),
    height: usize,
    key: &S::K,
) -> (NodeId, usize)
    requires subtree { IsSubtree S.K.cmp CountsKeys (S.slots store.now) height way.0 }
    requires above { 0 < height }
    ensures { IsRankWay S.K.cmp (S.slots store.now) height way.0 way.1 (height - 1) key.now result }
{
    let (id, before) = way;
    let node = store.get_inner(id.inner_id_unchecked());
    let (child_index, child) = node.locate_child(key);
    (
        child,
        passed::<S::K>(before, &node.arguments()[..child_index]),
    )
}

// Does what `rank_child_below` does, in a function that is not inlined. `is_large` says why.
#[inline(never)]
fn rank_child_apart<S: NodeStore<Argument = Count>>(
    store: &S,
    way: (NodeId, usize),
    height: usize,
    key: &S::K,
) -> (NodeId, usize)
    requires subtree { IsSubtree S.K.cmp CountsKeys (S.slots store.now) height way.0 }
    requires above { 0 < height }
    ensures { IsRankWay S.K.cmp (S.slots store.now) height way.0 way.1 (height - 1) key.now result }
{
    rank_child_below(store, way, height, key)
}

// Does what `rank_child_below` does, in the form that suits the tree.
#[inline(always)]
fn rank_child<S: NodeStore<Argument = Count>>(
    store: &S,
    way: (NodeId, usize),
    height: usize,
    key: &S::K,
    large: bool,
) -> (NodeId, usize)
    requires subtree { IsSubtree S.K.cmp CountsKeys (S.slots store.now) height way.0 }
    requires above { 0 < height }
    ensures { IsRankWay S.K.cmp (S.slots store.now) height way.0 way.1 (height - 1) key.now result }
{
    if large {
        rank_child_below(store, way, height, key)
    } else {
        rank_child_apart(store, way, height, key)
    }
}

// Writes for each key the leaf that it belongs to, in the tree of a height below `root`, and the
// number of keys before that leaf. All keys descend one level, and then all of them the next.
fn descend_ranks<S: NodeStore<Argument = Count>>(
    store: &S,
    root: NodeId,
    height: usize,
    keys: &[S::K],
    ways: &mut [(NodeId, usize)],
    large: bool,
)
    requires subtree { IsSubtree S.K.cmp CountsKeys (S.slots store.now) height root }
    requires ways { length ways.old ≡ length keys.now }
    ensures { AllZip (IsRankWay S.K.cmp (S.slots store.now) height root 0 0) keys.now ways.new }
{
    let mut filled = 0;
    'starts: while filled < keys.len() {
        ways[filled] = (root, 0);
        filled += 1;
    }
    let mut level = height;
    'levels: while level > 0 {
        let mut at = 0;
        'keys: while at < keys.len() {
            ways[at] = rank_child(store, ways[at], level, &keys[at], large);
            at += 1;
        }
        level -= 1;
    }
}

// Writes the node that each descent has reached.
fn nodes_of(ways: &[(NodeId, usize)], nodes: &mut [NodeId])
    requires { length nodes.old ≡ length ways.now }
    ensures { nodes.new ≡ map (λ (way : NodeId × ℕ). way.0) ways.now }
{
    let mut at = 0;
    'ways: while at < ways.len() {
        nodes[at] = ways[at].0;
        at += 1;
    }
}

// Returns the rank of a key, computed from the result of its descent and its slot in the leaf.
#[inline(always)]
fn rank_in_leaf<S: NodeStore<Argument = Count>>(
    store: &S,
    way: (NodeId, usize),
    key: &S::K,
    slot: Result<usize, usize>,
) -> usize
    requires subtree { IsSubtree S.K.cmp CountsKeys (S.slots store.now) 0 way.0 }
    requires slot { IsSlotOfLeaf S.K.cmp (S.slots store.now) way.0 key.now slot }
    ensures { RanksBelow S.K.cmp (S.slots store.now) 0 way.0 key.now way.1 result }
{
    ranked::<S::K>(way.1, slot)
}

// Writes for each of at most 16 keys the number of keys of the tree that are smaller.
fn rank_group<S: NodeStore<Argument = Count>>(
    store: &S,
    root: NodeId,
    height: usize,
    keys: &[S::K],
    ranks: &mut [usize],
    large: bool,
)
    requires subtree { IsSubtree S.K.cmp CountsKeys (S.slots store.now) height root }
    requires few { length keys.now ≤ 16 }
    requires ranks { length ranks.old ≡ length keys.now }
    ensures { ranks.new ≡ ranked_each S.K.cmp (pairs_at (S.slots store.now) height root) keys.now }
{
    let mut room = [(root, 0); GROUP];
    let ways = &mut room[..keys.len()];
    descend_ranks(store, root, height, keys, ways, large);
    let mut nodes = [root; GROUP];
    let nodes = &mut nodes[..keys.len()];
    nodes_of(ways, nodes);
    let mut slots = [Err(0); GROUP];
    let slots = &mut slots[..keys.len()];
    locate_group(store, large, nodes, keys, slots);
    let mut at = 0;
    'keys: while at < keys.len() {
        ranks[at] = rank_in_leaf(store, ways[at], &keys[at], slots[at]);
        at += 1;
    }
}

/// Writes for each key the number of keys that are smaller, in the tree of a height below `root`.
/// `large` is what `is_large` returns for the tree.
///
/// O(k log n) for k keys, in groups of 16 whose descents are interleaved. It allocates nothing and
/// cannot fail.
pub(crate) fn rank_groups<S: NodeStore<Argument = Count>>(
    store: &S,
    root: NodeId,
    height: usize,
    keys: &[S::K],
    ranks: &mut [usize],
    large: bool,
)
    requires subtree { IsSubtree S.K.cmp CountsKeys (S.slots store.now) height root }
    requires ranks { length ranks.old ≡ length keys.now }
    ensures { ranks.new ≡ ranked_each S.K.cmp (pairs_at (S.slots store.now) height root) keys.now }
{
    let mut at = 0;
    'groups: while at < keys.len() {
        let end = at + GROUP.min(keys.len() - at);
        rank_group(
            store,
            root,
            height,
            &keys[at..end],
            &mut ranks[at..end],
            large,
        );
        at = end;
    }
}
