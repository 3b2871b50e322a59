//! Copies of the values of many keys.
ghost use Rattle.std.specs.Prelude.{◌≡◌, ◌≤◌, length};
ghost use Rattle.bptree_batches.specs.Each.{mark_each, read_each};
ghost use Rattle.bptree_invariant.specs.Shape.{pairs_at, IsWellShaped};

use crate::finds::find_group;
use crate::groups::GROUP;
use bptree_keys::node_id::NodeId;
use bptree_stores::node_stores::NodeStore;

// Writes the value of each of at most 16 keys to `values`, and leaves the value of an absent key
// unchanged. Writes `hit` to `marks` for each key that is present, and `miss` for each that is
// absent.
fn copy_group<S: NodeStore, M: Copy>(
    store: &S,
    root: NodeId,
    height: usize,
    keys: &[S::K],
    values: &mut [S::V],
    marks: &mut [M],
    hit: M,
    miss: M,
    large: bool,
)
where
    S::V: Copy,
    requires shape { IsWellShaped S.K.cmp S.Argument.is_summary (S.slots store.now) height root }
    requires few { length keys.now ≤ 16 }
    requires values { length values.old ≡ length keys.now }
    requires marks { length marks.old ≡ length keys.now }
    ensures values { values.new ≡ read_each S.K.cmp (pairs_at (S.slots store.now) height root) keys.now values.old }
    ensures marks { marks.new ≡ mark_each S.K.cmp (pairs_at (S.slots store.now) height root) hit miss keys.now }
{
    let mut room = [None; GROUP];
    let found = &mut room[..keys.len()];
    find_group(store, root, height, keys, found, large);
    let mut at = 0;
    'keys: while at < keys.len() {
        match found[at] {
            Some(value) => {
                values[at] = *value;
                marks[at] = hit;
            }
            None => marks[at] = miss,
        }
        at += 1;
    }
}

/// In the tree of a height below `root`, reads the value of each key into `values`, and leaves the
/// value of an absent key unchanged. Writes `hit` to `marks` for each key that is present, and
/// `miss` for each that is absent. `large` is what `is_large` returns for the tree. The store's
/// cache is not changed.
///
/// O(k log n) for k keys, in groups of 16 whose descents are interleaved. It allocates nothing and
/// cannot fail.
pub(crate) fn copy_groups<S: NodeStore, M: Copy>(
    store: &S,
    root: NodeId,
    height: usize,
    keys: &[S::K],
    values: &mut [S::V],
    marks: &mut [M],
    hit: M,
    miss: M,
    large: bool,
)
where
    S::V: Copy,
    requires shape { IsWellShaped S.K.cmp S.Argument.is_summary (S.slots store.now) height root }
    requires values { length values.old ≡ length keys.now }
    requires marks { length marks.old ≡ length keys.now }
    ensures values { values.new ≡ read_each S.K.cmp (pairs_at (S.slots store.now) height root) keys.now values.old }
    ensures marks { marks.new ≡ mark_each S.K.cmp (pairs_at (S.slots store.now) height root) hit miss keys.now }
{
    let mut at = 0;
    'groups: while at < keys.len() {
        let end = at + GROUP.min(keys.len() - at);
        copy_group(
            store,
            root,
            height,
            &keys[at..end],
            &mut values[at..end],
            &mut marks[at..end],
            hit,
            miss,
            large,
        );
        at = end;
    }
}
