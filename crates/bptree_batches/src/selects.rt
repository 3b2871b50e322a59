//! Pairs at many indexes of a tree with counts; the descents proceed level by level.
ghost use Rattle.std.specs.Prelude.{◌≡◌, ◌+◌, ◌-◌, ◌^◌, ◌<◌, ◌≤◌, length, take};
ghost use Rattle.std.specs.List.{AllZip};
ghost use Rattle.bptree_arguments.specs.CountLaws.{CountsKeys, sum_counts};
ghost use Rattle.bptree_batches.specs.SelectWays.{ArePairsAt, ArePassed, IsPairAt, IsChildIndexOf, IsSelectWay};
ghost use Rattle.bptree_search.specs.ByArgument.{IsSubtree};

use crate::groups::GROUP;
use bptree_arguments::count::Count;
use bptree_keys::node_id::NodeId;
use bptree_stores::node_stores::NodeStore;

// Returns the number of pairs below four children, from a child index on.
#[inline(always)]
fn sum_of_four(counts: &[Count], child_index: usize) -> usize
    requires within { child_index + 4 ≤ length counts.now }
    requires fits { sum_counts counts.now < 2 ^ 64 }
    ensures { result + sum_counts (take child_index counts.now) ≡ sum_counts (take (child_index + 4) counts.now) }
{
    let front = counts[child_index].count() + counts[child_index + 1].count();
    let back = counts[child_index + 2].count() + counts[child_index + 3].count();
    front + back
}

// Returns the number of children that are passed before an index, four at a time, and what is left
// of the index. One test for four children, and not one for each, lets the processor reach the
// nodes of the next indexes sooner.
#[inline(always)]
fn pass_fours(index: usize, counts: &[Count]) -> (usize, usize)
    requires some { 0 < length counts.now }
    requires fits { sum_counts counts.now < 2 ^ 64 }
    ensures { ArePassed counts.now index result }
{
    let last = counts.len() - 1;
    let mut rest = index;
    let mut child_index = 0;
    'fours: while last - child_index >= 4 {
        let four = sum_of_four(counts, child_index);
        if rest < four {
            return (child_index, rest);
        }
        rest -= four;
        child_index += 4;
    }
    (child_index, rest)
}

// Returns the index of the child that an index among the pairs below a node belongs to, and the
// index among the pairs below the child, computed from the counts of the children. An index past
// the last pair belongs to the last child.
#[inline(always)]
fn index_of(index: usize, counts: &[Count]) -> (usize, usize)
    requires some { 0 < length counts.now }
    requires fits { sum_counts counts.now < 2 ^ 64 }
    ensures { IsChildIndexOf counts.now index result }
{
    let last = counts.len() - 1;
    let (mut child_index, mut rest) = pass_fours(index, counts);
    'counts: while child_index < last {
        let count = counts[child_index].count();
        if rest < count {
            return (child_index, rest);
        }
        rest -= count;
        child_index += 1;
    }
    (child_index, rest)
}

// Returns the child of an inner node that an index belongs to, in the tree of a height below the
// node, and the index among the pairs below the child.
#[inline(always)]
fn select_child<S: NodeStore<Argument = Count>>(
    store: &S,
    way: (NodeId, usize),
    height: usize,
) -> (NodeId, usize)
    requires subtree { IsSubtree S.K.cmp CountsKeys (S.slots store.now) height way.0 }
    requires above { 0 < height }
    ensures { IsSelectWay S.K.cmp (S.slots store.now) height way.0 (height - 1) way.1 result }
{
    let (id, index) = way;
    let node = store.get_inner(id.inner_id_unchecked());
    let (child_index, rest) = index_of(index, node.arguments());
    (node.child_id(child_index), rest)
}

// Writes for each index the leaf that it belongs to, in the tree of a height below `root`, and the
// index among the pairs of that leaf. All indexes descend one level, and then all of them the next.
fn descend_selects<S: NodeStore<Argument = Count>>(
    store: &S,
    root: NodeId,
    height: usize,
    indexes: &[usize],
    ways: &mut [(NodeId, usize)],
)
    requires subtree { IsSubtree S.K.cmp CountsKeys (S.slots store.now) height root }
    requires ways { length ways.old ≡ length indexes.now }
    ensures { AllZip (IsSelectWay S.K.cmp (S.slots store.now) height root 0) indexes.now ways.new }
{
    let mut filled = 0;
    'starts: while filled < indexes.len() {
        ways[filled] = (root, indexes[filled]);
        filled += 1;
    }
    let mut level = height;
    'levels: while level > 0 {
        let mut at = 0;
        'indexes: while at < indexes.len() {
            ways[at] = select_child(store, ways[at], level);
            at += 1;
        }
        level -= 1;
    }
}

// Returns the pair at an index of a leaf, or `None` past its last pair.
#[inline(always)]
fn select_in_leaf<'a, S: NodeStore<Argument = Count>>(
    store: &'a S,
    way: (NodeId, usize),
) -> Option<(&'a S::K, &'a S::V)>
    requires { IsSubtree S.K.cmp CountsKeys (S.slots store.now) 0 way.0 }
    ensures { IsPairAt (S.slots store.now) 0 way.0 way.1 result }
{
    let (id, index) = way;
    let leaf = store.get_leaf(id.leaf_id_unchecked());
    leaf.try_data_at(index)
}

// Writes references to the pair at each of at most 16 indexes, or `None` past the last pair.
fn select_group<'a, S: NodeStore<Argument = Count>>(
    store: &'a S,
    root: NodeId,
    height: usize,
    indexes: &[usize],
    found: &mut [Option<(&'a S::K, &'a S::V)>],
)
    requires subtree { IsSubtree S.K.cmp CountsKeys (S.slots store.now) height root }
    requires few { length indexes.now ≤ 16 }
    requires found { length found.old ≡ length indexes.now }
    ensures { ArePairsAt (S.slots store.now) height root indexes.now found.new }
{
    let mut room = [(root, 0); GROUP];
    let ways = &mut room[..indexes.len()];
    descend_selects(store, root, height, indexes, ways);
    let mut at = 0;
    'indexes: while at < indexes.len() {
        found[at] = select_in_leaf(store, ways[at]);
        at += 1;
    }
}

/// Writes references to the pair at each index in the order of the keys, or `None` past the last
/// pair, in the tree of a height below `root`.
///
/// O(k log n) for k indexes, in groups of 16 whose descents are interleaved. It allocates nothing
/// and cannot fail.
pub(crate) fn select_groups<'a, S: NodeStore<Argument = Count>>(
    store: &'a S,
    root: NodeId,
    height: usize,
    indexes: &[usize],
    found: &mut [Option<(&'a S::K, &'a S::V)>],
)
    requires subtree { IsSubtree S.K.cmp CountsKeys (S.slots store.now) height root }
    requires found { length found.old ≡ length indexes.now }
    ensures { ArePairsAt (S.slots store.now) height root indexes.now found.new }
{
    let mut at = 0;
    'groups: while at < indexes.len() {
        let end = at + GROUP.min(indexes.len() - at);
        select_group(store, root, height, &indexes[at..end], &mut found[at..end]);
        at = end;
    }
}
