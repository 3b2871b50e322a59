//! Groups of a few keys, whose descents of a tree in a store proceed level by level.
ghost use Rattle.std.specs.Prelude.{◌≡◌, ◌-◌, ◌<◌, length};
ghost use Rattle.bptree_batches.specs.Ways.{AreLeavesFor, IsOnWay};
ghost use Rattle.bptree_invariant.specs.Leaves.{IsStored};

use bptree_keys::node_id::NodeId;
use bptree_stores::node_stores::NodeStore;

/// The greatest number of keys in a group.
pub(crate) const GROUP: usize = 16;

// Returns the child of an inner node that may hold a key, in the tree of a height below the node.
#[inline(always)]
fn child_below<S: NodeStore>(store: &S, id: NodeId, height: usize, key: &S::K) -> NodeId
    requires stored { IsStored S.K.cmp (S.slots store.now) height id }
    requires above { 0 < height }
    ensures { IsOnWay S.K.cmp (S.slots store.now) height id (height - 1) key.now result }
{
    let inner = id.inner_id_unchecked();
    let (_, child) = store.get_inner(inner).locate_child(key);
    child
}

// Does what `child_below` does, in a function that is not inlined.
#[inline(never)]
fn child_apart<S: NodeStore>(store: &S, id: NodeId, height: usize, key: &S::K) -> NodeId
    requires stored { IsStored S.K.cmp (S.slots store.now) height id }
    requires above { 0 < height }
    ensures { IsOnWay S.K.cmp (S.slots store.now) height id (height - 1) key.now result }
{
    child_below(store, id, height, key)
}

// Does what `child_below` does, in the form that suits the tree.
#[inline(always)]
fn child_for<S: NodeStore>(store: &S, id: NodeId, height: usize, key: &S::K, large: bool) -> NodeId
    requires stored { IsStored S.K.cmp (S.slots store.now) height id }
    requires above { 0 < height }
    ensures { IsOnWay S.K.cmp (S.slots store.now) height id (height - 1) key.now result }
{
    if large {
        child_below(store, id, height, key)
    } else {
        child_apart(store, id, height, key)
    }
}

/// Writes for each key the leaf that it belongs to, in the tree of a height below `root`. All keys
/// descend one level, and then all of them the next. `large` is what `is_large` returns for the
/// tree. It never changes what is found.
///
/// O(k log n) for k keys: at most 7 comparisons per key and level. It allocates nothing and cannot
/// fail.
pub(crate) fn descend_group<S: NodeStore>(
    store: &S,
    root: NodeId,
    height: usize,
    keys: &[S::K],
    nodes: &mut [NodeId],
    large: bool,
)
    requires stored { IsStored S.K.cmp (S.slots store.now) height root }
    requires nodes { length nodes.old ≡ length keys.now }
    ensures { AreLeavesFor S.K.cmp (S.slots store.now) height root keys.now nodes.new }
{
    let mut filled = 0;
    'starts: while filled < keys.len() {
        nodes[filled] = root;
        filled += 1;
    }
    let mut level = height;
    'levels: while level > 0 {
        let mut at = 0;
        'keys: while at < keys.len() {
            nodes[at] = child_for(store, nodes[at], level, &keys[at], large);
            at += 1;
        }
        level -= 1;
    }
}
