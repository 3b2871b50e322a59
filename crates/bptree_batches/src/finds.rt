//! Values of many keys, by reference.
ghost use Rattle.std.specs.Prelude.{◌≡◌, ◌≤◌, length, map};
ghost use Rattle.std.specs.Option.{option_copied};
ghost use Rattle.bptree_batches.specs.Each.{mark_each, values_each};
ghost use Rattle.bptree_batches.specs.Slots.{IsSlotWithin, ReadsSlot};
ghost use Rattle.bptree_batches.specs.Ways.{IsLeafThere};
ghost use Rattle.bptree_invariant.specs.Shape.{pairs_at, IsWellShaped};

use crate::groups::{GROUP, descend_group};
use crate::leaves::locate_group;
use bptree_keys::node_id::NodeId;
use bptree_stores::node_stores::NodeStore;

// Returns the value in a slot of the leaf at a node id, or `None` for a key that has no slot.
#[inline(always)]
fn value_at<'a, S: NodeStore>(
    store: &'a S,
    id: NodeId,
    slot: Result<usize, usize>,
) -> Option<&'a S::V>
    requires there { IsLeafThere (S.slots store.now) id }
    requires within { IsSlotWithin (S.slots store.now) id slot }
    ensures { ReadsSlot (S.slots store.now) id slot (option_copied result) }
{
    let Ok(slot) = slot else {
        return None;
    };
    let leaf = store.get_leaf(id.leaf_id_unchecked());
    Some(leaf.data_at(slot).1)
}

// Writes a reference to the value of each of at most 16 keys, or `None` if the key is absent.
pub(crate) fn find_group<'a, S: NodeStore>(
    store: &'a S,
    root: NodeId,
    height: usize,
    keys: &[S::K],
    found: &mut [Option<&'a S::V>],
    large: bool,
)
    requires shape { IsWellShaped S.K.cmp S.Argument.is_summary (S.slots store.now) height root }
    requires few { length keys.now ≤ 16 }
    requires found { length found.old ≡ length keys.now }
    ensures { map option_copied found.new ≡ values_each S.K.cmp (pairs_at (S.slots store.now) height root) keys.now }
{
    let mut nodes = [root; GROUP];
    let nodes = &mut nodes[..keys.len()];
    descend_group(store, root, height, keys, nodes, large);
    let mut slots = [Err(0); GROUP];
    let slots = &mut slots[..keys.len()];
    locate_group(store, large, nodes, keys, slots);
    let mut at = 0;
    'keys: while at < keys.len() {
        found[at] = value_at(store, nodes[at], slots[at]);
        at += 1;
    }
}

/// Writes a reference to the value of each key to `found`, at the key's index, or `None` if the key
/// is absent, in the tree of a height below `root`. `large` is what `is_large`
/// returns for the tree. The store's cache is not changed.
///
/// O(k log n) for k keys, in groups of 16 whose descents are interleaved. It allocates nothing and
/// cannot fail.
pub(crate) fn find_groups<'a, S: NodeStore>(
    store: &'a S,
    root: NodeId,
    height: usize,
    keys: &[S::K],
    found: &mut [Option<&'a S::V>],
    large: bool,
)
    requires shape { IsWellShaped S.K.cmp S.Argument.is_summary (S.slots store.now) height root }
    requires found { length found.old ≡ length keys.now }
    ensures { map option_copied found.new ≡ values_each S.K.cmp (pairs_at (S.slots store.now) height root) keys.now }
{
    let mut at = 0;
    'groups: while at < keys.len() {
        let end = at + GROUP.min(keys.len() - at);
        find_group(
            store,
            root,
            height,
            &keys[at..end],
            &mut found[at..end],
            large,
        );
        at = end;
    }
}

// Writes `hit` for each of at most 16 keys that is present, and `miss` for each that is absent.
fn mark_group<S: NodeStore, M: Copy>(
    store: &S,
    root: NodeId,
    height: usize,
    keys: &[S::K],
    marks: &mut [M],
    hit: M,
    miss: M,
    large: bool,
)
    requires shape { IsWellShaped S.K.cmp S.Argument.is_summary (S.slots store.now) height root }
    requires few { length keys.now ≤ 16 }
    requires marks { length marks.old ≡ length keys.now }
    ensures { marks.new ≡ mark_each S.K.cmp (pairs_at (S.slots store.now) height root) hit miss keys.now }
{
    let mut values = [None; GROUP];
    let values = &mut values[..keys.len()];
    find_group(store, root, height, keys, values, large);
    let mut at = 0;
    'keys: while at < keys.len() {
        marks[at] = if values[at].is_some() { hit } else { miss };
        at += 1;
    }
}

/// Writes `hit` to `marks` for each key that is present, and `miss` for each that is absent, at the
/// key's index, in the tree of a height below `root`. `large` is what `is_large` returns for the
/// tree.
///
/// The cost, allocation and failure are as for `find_groups`.
pub(crate) fn mark_groups<S: NodeStore, M: Copy>(
    store: &S,
    root: NodeId,
    height: usize,
    keys: &[S::K],
    marks: &mut [M],
    hit: M,
    miss: M,
    large: bool,
)
    requires shape { IsWellShaped S.K.cmp S.Argument.is_summary (S.slots store.now) height root }
    requires marks { length marks.old ≡ length keys.now }
    ensures { marks.new ≡ mark_each S.K.cmp (pairs_at (S.slots store.now) height root) hit miss keys.now }
{
    let mut at = 0;
    'groups: while at < keys.len() {
        let end = at + GROUP.min(keys.len() - at);
        mark_group(
            store,
            root,
            height,
            &keys[at..end],
            &mut marks[at..end],
            hit,
            miss,
            large,
        );
        at = end;
    }
}
