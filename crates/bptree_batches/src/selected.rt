//! Copies of the pairs at many indexes of a tree with counts.
ghost use Rattle.std.specs.Prelude.{◌≡◌, ◌≤◌, length};
ghost use Rattle.bptree_batches.specs.Each.{keys_at_each, mark_at_each, values_at_each};

use crate::groups::GROUP;
use crate::many::get_index_many;
use bptree_arguments::count::Count;
use bptree_invariant::nodes::Nodes;
use bptree_keys::key::Key;
use bptree_stores::node_store_vec::NodeStoreVec;

// Writes the key and the value at each of at most 16 indexes, and leaves both unchanged past the
// last pair. Writes `hit` to `marks` if there is a pair at the index, and `miss` if there is no
// pair.
pub(crate) fn copy_index_group<K: Key + Copy, V: Copy + Drop, M: Copy>(
    tree: &Nodes<NodeStoreVec<K, V, Count>>,
    indexes: &[usize],
    keys: &mut [K],
    values: &mut [V],
    marks: &mut [M],
    hit: M,
    miss: M,
)
    requires few { length indexes.now ≤ 16 }
    requires keys { length keys.old ≡ length indexes.now }
    requires values { length values.old ≡ length indexes.now }
    requires marks { length marks.old ≡ length indexes.now }
    ensures keys { keys.new ≡ keys_at_each tree.now.contents indexes.now keys.old }
    ensures values { values.new ≡ values_at_each tree.now.contents indexes.now values.old }
    ensures marks { marks.new ≡ mark_at_each tree.now.contents hit miss indexes.now }
{
    let mut room = [None; GROUP];
    let found = &mut room[..indexes.len()];
    get_index_many(tree, indexes, found);
    let mut at = 0;
    'indexes: while at < indexes.len() {
        match found[at] {
            Some((key, value)) => {
                keys[at] = *key;
                values[at] = *value;
                marks[at] = hit;
            }
            None => marks[at] = miss,
        }
        at += 1;
    }
}
