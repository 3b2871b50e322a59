//! Reads of many keys of a tree at once. The descents of 16 keys are interleaved. Each call leaves
//! the store's cache unchanged, allocates nothing and cannot fail.
ghost use Rattle.std.specs.Prelude.{◌≡◌, ◌<◌, ◌≤◌, ◌^◌, length, map};
ghost use Rattle.std.specs.Map.Iter.{deref_pair};
ghost use Rattle.std.specs.Option.{option_copied, option_map};
ghost use Rattle.bptree_batches.specs.Each.{keys_at_each, mark_at_each, mark_each, pairs_each, ranked_each, read_each, values_at_each, values_each};
ghost use Rattle.bptree_keys.specs.Contents.{IsAscending};

use crate::copies::copy_groups;
use crate::finds::{find_groups, mark_groups};
use crate::groups::GROUP;
use crate::ranks::rank_groups;
use crate::selected::copy_index_group;
use crate::selects::select_groups;
use bptree_arguments::count::Count;
use bptree_invariant::nodes::Nodes;
use bptree_keys::key::Key;
use bptree_stores::node_store_vec::NodeStoreVec;
use bptree_stores::node_stores::NodeStore;

// The number of pairs from which on most leaves are expected in no cache of the processor.
const LARGE: usize = 1 << 18;

// The number of keys that are read ahead at once.
const AHEAD: usize = 64;

/// Returns whether a tree of so many pairs is searched as a large one. In the innermost loop of a
/// function the compiler turns a search without branches into one with branches. While the nodes
/// are in no cache that is faster, since the next node is fetched before a comparison is done. In a
/// smaller tree each search is a call of a function, which has no loop and keeps its form.
///
/// O(1). It allocates nothing and cannot fail.
pub fn is_large(pairs: usize) -> bool {
    pairs >= LARGE
}

/// Before a change at the key at an index, looks up this key and those after it, at most 64, if
/// `at` has come to `ahead`. The processor then has the nodes cached that the changes read. Returns
/// the index of the next key to look up. It looks up no key of a tree that is not large.
///
/// O(k log n) for k keys. It allocates nothing and cannot fail.
#[inline(always)]
pub fn read_ahead<S: NodeStore>(tree: &Nodes<S>, keys: &[S::K], at: usize, ahead: usize) -> usize
    requires { at ≤ length keys.now }
{
    if at != ahead {
        return ahead;
    }
    if !is_large(tree.len) {
        return keys.len();
    }
    let count = AHEAD.min(keys.len() - at);
    let mut marks = [false; AHEAD];
    mark_many(
        tree,
        &keys[at..at + count],
        &mut marks[..count],
        true,
        false,
    );
    at + count
}

/// Writes a reference to the value of each key to `found`, at the key's index, or `None` if the key
/// is absent. `found` has the length of `keys`. The keys may be in any order, and a key may occur
/// more than once.
///
/// O(k log n) for k keys: at most 7 comparisons per key and node. It allocates nothing and cannot
/// fail.
pub fn get_many<'a, S: NodeStore>(tree: &'a Nodes<S>, keys: &[S::K], found: &mut [Option<&'a S::V>])
    requires { length found.old ≡ length keys.now }
    ensures { map option_copied found.new ≡ values_each S.K.cmp tree.now.contents keys.now }
{
    tree.recall();
    let large = is_large(tree.len);
    find_groups(&tree.store, tree.root, tree.height, keys, found, large);
}

/// Writes `hit` to `marks` for each key that is present, and `miss` for each that is absent, at the
/// key's index.
///
/// The cost, allocation and failure are as for `get_many`.
pub fn mark_many<S: NodeStore, M: Copy>(
    tree: &Nodes<S>,
    keys: &[S::K],
    marks: &mut [M],
    hit: M,
    miss: M,
)
    requires { length marks.old ≡ length keys.now }
    ensures { marks.new ≡ mark_each S.K.cmp tree.now.contents hit miss keys.now }
{
    tree.recall();
    mark_groups(
        &tree.store,
        tree.root,
        tree.height,
        keys,
        marks,
        hit,
        miss,
        is_large(tree.len),
    );
}

/// Writes a copy of the value of each key to `values`, at the key's index, and to `marks` what
/// `mark_many` writes. The value of an absent key is left unchanged.
///
/// The cost, allocation and failure are as for `get_many`.
pub fn copy_many<S: NodeStore, M: Copy>(
    tree: &Nodes<S>,
    keys: &[S::K],
    values: &mut [S::V],
    marks: &mut [M],
    hit: M,
    miss: M,
)
where
    S::V: Copy,
    requires values { length values.old ≡ length keys.now }
    requires marks { length marks.old ≡ length keys.now }
    ensures values { values.new ≡ read_each S.K.cmp tree.now.contents keys.now values.old }
    ensures marks { marks.new ≡ mark_each S.K.cmp tree.now.contents hit miss keys.now }
{
    tree.recall();
    copy_groups(
        &tree.store,
        tree.root,
        tree.height,
        keys,
        values,
        marks,
        hit,
        miss,
        is_large(tree.len),
    );
}

/// Writes the number of smaller keys for each given key to `ranks`, at the key's index. `ranks` has
/// the length of `keys`.
///
/// The cost, allocation and failure are as for `get_many`; the descents read the counts too.
pub fn rank_many<K: Key, V: Drop>(
    tree: &Nodes<NodeStoreVec<K, V, Count>>,
    keys: &[K],
    ranks: &mut [usize],
)
    requires { length ranks.old ≡ length keys.now }
    ensures ranks { ranks.new ≡ ranked_each K.cmp tree.now.contents keys.now }
    ensures ascending { IsAscending K.cmp tree.now.contents }
    ensures fits { length tree.now.contents < 2 ^ 64 }
{
    tree.recall();
    let large = is_large(tree.len);
    rank_groups(&tree.store, tree.root, tree.height, keys, ranks, large);
}

/// Writes references to the pair at each index in the order of the keys to `found`, or `None` past
/// the last pair. `found` has the length of `indexes`. The indexes may be in any order.
///
/// O(k log n) for k indexes. It allocates nothing and cannot fail.
pub fn get_index_many<'a, K: Key, V: Drop>(
    tree: &'a Nodes<NodeStoreVec<K, V, Count>>,
    indexes: &[usize],
    found: &mut [Option<(&'a K, &'a V)>],
)
    requires { length found.old ≡ length indexes.now }
    ensures { map (option_map deref_pair) found.new ≡ pairs_each tree.now.contents indexes.now }
{
    tree.recall();
    select_groups(&tree.store, tree.root, tree.height, indexes, found);
}

/// Writes copies of the key and the value at each index, and leaves both unchanged past the last
/// pair. Writes `hit` to `marks` if there is a pair at the index, and `miss` if there is no pair.
///
/// The cost, allocation and failure are as for `get_index_many`.
pub fn copy_index_many<K: Key + Copy, V: Copy + Drop, M: Copy>(
    tree: &Nodes<NodeStoreVec<K, V, Count>>,
    indexes: &[usize],
    keys: &mut [K],
    values: &mut [V],
    marks: &mut [M],
    hit: M,
    miss: M,
)
    requires keys { length keys.old ≡ length indexes.now }
    requires values { length values.old ≡ length indexes.now }
    requires marks { length marks.old ≡ length indexes.now }
    ensures keys { keys.new ≡ keys_at_each tree.now.contents indexes.now keys.old }
    ensures values { values.new ≡ values_at_each tree.now.contents indexes.now values.old }
    ensures marks { marks.new ≡ mark_at_each tree.now.contents hit miss indexes.now }
{
    let mut at = 0;
    'groups: while at < indexes.len() {
        let end = at + GROUP.min(indexes.len() - at);
        copy_index_group(
            tree,
            &indexes[at..end],
            &mut keys[at..end],
            &mut values[at..end],
            &mut marks[at..end],
            hit,
            miss,
        );
        at = end;
    }
}
