//! Searches of a few keys in their leaves. In a large tree, each step halves the searches of all
//! keys. In a smaller one, one key is searched after another.
ghost use Rattle.std.specs.Prelude.{◌≡◌, ◌+◌, ◌*◌, ◌<◌, ◌≤◌, ℕ, length};
ghost use Rattle.bptree_batches.specs.Slots.{AreLeavesThere, AreSlotsIn, AreSpans, IsSlotOfLeaf, IsSpanAt};
ghost use Rattle.bptree_batches.specs.Ways.{IsLeafThere};

use crate::groups::GROUP;
use bptree_keys::compares::{Compares, SearchHint};
use bptree_keys::node_id::NodeId;
use bptree_stores::node_stores::NodeStore;

// Returns the span of a search that has compared no key yet: it has all keys of the leaf at a node
// id. A span is the index of its first key, and its number of keys.
#[inline(always)]
fn span_of<S: NodeStore>(store: &S, id: NodeId) -> (usize, usize)
    requires { IsLeafThere (S.slots store.now) id }
    ensures { (key : S.K) → IsSpanAt S.K.cmp (S.slots store.now) 64 id key result }
{
    let leaf = store.get_leaf(id.leaf_id_unchecked());
    (0, leaf.len())
}

// Halves the span of the search for a key in the leaf at a node id, so that it has at most `most`
// keys. A span of one key stays as it is.
#[inline(always)]
fn halve_span<S: NodeStore>(
    store: &S,
    id: NodeId,
    key: &S::K,
    span: (usize, usize),
    most: usize,
    compares: &mut Compares,
) -> (usize, usize)
    requires there { IsLeafThere (S.slots store.now) id }
    requires some { 0 < most }
    requires span { IsSpanAt S.K.cmp (S.slots store.now) (most + most) id key.now span }
    ensures span { IsSpanAt S.K.cmp (S.slots store.now) most id key.now result }
    ensures counts_on { compares.old ≤ compares.new }
    ensures count { compares.new ≤ compares.old + 1 }
{
    let (first, width) = span;
    if width < 2 {
        return span;
    }
    let half = width / 2;
    let leaf = store.get_leaf(id.leaf_id_unchecked());
    let is_past = compares.compare(&leaf.keys()[first + half], key).is_le();
    (first + usize::from(is_past) * half, width - half)
}

// Returns the slot of a key in the leaf at a node id, by the one key that is left of the search:
// `Ok` with the slot, or `Err` with the number of keys of the leaf that are smaller.
#[inline(always)]
fn slot_in<S: NodeStore>(
    store: &S,
    id: NodeId,
    key: &S::K,
    span: (usize, usize),
    compares: &mut Compares,
) -> Result<usize, usize>
    requires there { IsLeafThere (S.slots store.now) id }
    requires span { IsSpanAt S.K.cmp (S.slots store.now) 1 id key.now span }
    ensures slot { IsSlotOfLeaf S.K.cmp (S.slots store.now) id key.now result }
    ensures counts_on { compares.old ≤ compares.new }
    ensures count { compares.new ≤ compares.old + 1 }
{
    let (first, width) = span;
    if width == 0 {
        return Err(0);
    }
    let leaf = store.get_leaf(id.leaf_id_unchecked());
    let ordering = compares.compare(&leaf.keys()[first], key);
    if ordering.is_eq() {
        Ok(first)
    } else {
        Err(first + usize::from(ordering.is_lt()))
    }
}

// Writes the span of each search before its first step.
fn begin_group<S: NodeStore>(
    store: &S,
    nodes: &[NodeId],
    keys: &[S::K],
    spans: &mut [(usize, usize)],
)
    requires there { AreLeavesThere (S.slots store.now) nodes.now }
    requires nodes { length nodes.now ≡ length keys.now }
    requires spans { length spans.old ≡ length keys.now }
    ensures { AreSpans S.K.cmp (S.slots store.now) 64 nodes.now keys.now spans.new }
{
    let mut at = 0;
    'keys: while at < keys.len() {
        spans[at] = span_of(store, nodes[at]);
        at += 1;
    }
}

// Halves the span of each search, so that it has at most `most` keys.
fn halve_group<S: NodeStore>(
    store: &S,
    nodes: &[NodeId],
    keys: &[S::K],
    spans: &mut [(usize, usize)],
    most: usize,
    compares: &mut Compares,
)
    requires there { AreLeavesThere (S.slots store.now) nodes.now }
    requires some { 0 < most }
    requires nodes { length nodes.now ≡ length keys.now }
    requires spans { AreSpans S.K.cmp (S.slots store.now) (most + most) nodes.now keys.now spans.old }
    ensures spans { AreSpans S.K.cmp (S.slots store.now) most nodes.now keys.now spans.new }
    ensures counts_on { compares.old ≤ compares.new }
    ensures count { compares.new ≤ compares.old + length keys.now }
{
    let mut at = 0;
    'keys: while at < keys.len() {
        spans[at] = halve_span(store, nodes[at], &keys[at], spans[at], most, compares);
        at += 1;
    }
}

// Writes the slot of each key, by the one key that is left of its search.
fn end_group<S: NodeStore>(
    store: &S,
    nodes: &[NodeId],
    keys: &[S::K],
    spans: &[(usize, usize)],
    slots: &mut [Result<usize, usize>],
    compares: &mut Compares,
)
    requires there { AreLeavesThere (S.slots store.now) nodes.now }
    requires nodes { length nodes.now ≡ length keys.now }
    requires spans { AreSpans S.K.cmp (S.slots store.now) 1 nodes.now keys.now spans.now }
    requires slots { length slots.old ≡ length keys.now }
    ensures slots { AreSlotsIn S.K.cmp (S.slots store.now) nodes.now keys.now slots.new }
    ensures counts_on { compares.old ≤ compares.new }
    ensures count { compares.new ≤ compares.old + length keys.now }
{
    let mut at = 0;
    'keys: while at < keys.len() {
        slots[at] = slot_in(store, nodes[at], &keys[at], spans[at], compares);
        at += 1;
    }
}

// Does what `locate_group` does, step by step, and counts its comparisons: at most seven per key.
fn locate_steps_counted<S: NodeStore>(
    store: &S,
    nodes: &[NodeId],
    keys: &[S::K],
    slots: &mut [Result<usize, usize>],
    compares: &mut Compares,
)
    requires few { length keys.now ≤ 16 }
    requires there { AreLeavesThere (S.slots store.now) nodes.now }
    requires nodes { length nodes.now ≡ length keys.now }
    requires slots { length slots.old ≡ length keys.now }
    ensures slots { AreSlotsIn S.K.cmp (S.slots store.now) nodes.now keys.now slots.new }
    ensures counts_on { compares.old ≤ compares.new }
    ensures count { compares.new ≤ compares.old + 7 * length keys.now }
{
    let mut spans = [(0, 0); GROUP];
    let spans = &mut spans[..keys.len()];
    begin_group(store, nodes, keys, spans);
    halve_group(store, nodes, keys, spans, 32, compares);
    halve_group(store, nodes, keys, spans, 16, compares);
    halve_group(store, nodes, keys, spans, 8, compares);
    halve_group(store, nodes, keys, spans, 4, compares);
    halve_group(store, nodes, keys, spans, 2, compares);
    halve_group(store, nodes, keys, spans, 1, compares);
    end_group(store, nodes, keys, spans, slots, compares);
}

// Returns the slot of a key in the leaf at a node id: `Ok` with the slot, or `Err` with the number
// of keys of the leaf that are smaller. `is_large` says why it is not inlined.
#[inline(never)]
fn locate_in<S: NodeStore>(
    store: &S,
    id: NodeId,
    key: &S::K,
    compares: &mut Compares,
) -> Result<usize, usize>
    requires { IsLeafThere (S.slots store.now) id }
    ensures slot { IsSlotOfLeaf S.K.cmp (S.slots store.now) id key.now result }
    ensures counts_on { compares.old ≤ compares.new }
    ensures count { compares.new ≤ compares.old + 7 }
{
    let leaf = store.get_leaf(id.leaf_id_unchecked());
    leaf.locate_slot_counted(key, SearchHint::Near, compares)
}

// Does what `locate_group` does, one key after another, and counts its comparisons: at most seven
// per key.
fn locate_each_counted<S: NodeStore>(
    store: &S,
    nodes: &[NodeId],
    keys: &[S::K],
    slots: &mut [Result<usize, usize>],
    compares: &mut Compares,
)
    requires there { AreLeavesThere (S.slots store.now) nodes.now }
    requires nodes { length nodes.now ≡ length keys.now }
    requires slots { length slots.old ≡ length keys.now }
    ensures slots { AreSlotsIn S.K.cmp (S.slots store.now) nodes.now keys.now slots.new }
    ensures counts_on { compares.old ≤ compares.new }
    ensures count { compares.new ≤ compares.old + 7 * length keys.now }
{
    let mut at = 0;
    'keys: while at < keys.len() {
        slots[at] = locate_in(store, nodes[at], &keys[at], compares);
        at += 1;
    }
}

/// Does what `locate_group` does, and counts its comparisons: at most seven per key.
pub(crate) fn locate_group_counted<S: NodeStore>(
    store: &S,
    large: bool,
    nodes: &[NodeId],
    keys: &[S::K],
    slots: &mut [Result<usize, usize>],
    compares: &mut Compares,
)
    requires few { length keys.now ≤ 16 }
    requires there { AreLeavesThere (S.slots store.now) nodes.now }
    requires nodes { length nodes.now ≡ length keys.now }
    requires slots { length slots.old ≡ length keys.now }
    ensures slots { AreSlotsIn S.K.cmp (S.slots store.now) nodes.now keys.now slots.new }
    ensures counts_on { compares.old ≤ compares.new }
    ensures count { compares.new ≤ compares.old + 7 * length keys.now }
{
    if large {
        locate_steps_counted(store, nodes, keys, slots, compares)
    } else {
        locate_each_counted(store, nodes, keys, slots, compares)
    }
}

/// Writes the slot of each key in the leaf at the key's index: `Ok` with the slot, or `Err` with
/// the number of keys of the leaf that are smaller. `large` is what `is_large` returns for the
/// tree. It never changes what is found.
///
/// O(k log n) comparisons for k keys. It allocates nothing and cannot fail.
pub(crate) fn locate_group<S: NodeStore>(
    store: &S,
    large: bool,
    nodes: &[NodeId],
    keys: &[S::K],
    slots: &mut [Result<usize, usize>],
)
    requires few { length keys.now ≤ 16 }
    requires there { AreLeavesThere (S.slots store.now) nodes.now }
    requires nodes { length nodes.now ≡ length keys.now }
    requires slots { length slots.old ≡ length keys.now }
    ensures { AreSlotsIn S.K.cmp (S.slots store.now) nodes.now keys.now slots.new }
{
    locate_group_counted(store, large, nodes, keys, slots, &mut Compares::new());
}
