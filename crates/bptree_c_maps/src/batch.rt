//! Calls of a map of numbers for many keys or indexes at once. The descents of 16 of them go side
//! by side, so that the processor waits for the nodes of all of them at once.
ghost use Rattle.std.specs.Prelude.{◌≡◌, [], true, false, length, if◌then◌else◌};
ghost use Rattle.std.specs.Ordering.{nat_cmp};
ghost use Rattle.bptree_batches.specs.Each.{keys_at_each, mark_at_each, mark_each, ranked_each, read_each, values_at_each};
ghost use Rattle.bptree_c_maps.specs.Batch.{gone_marks, put_columns};
ghost use Rattle.bptree_keys.specs.Contents.{del, has};
ghost use Rattle.bptree_map.specs.Many.{without_each};

use crate::handle::Map;
use crate::writing::del_in;
use bptree_arguments::count::Count;
use bptree_batches::many::{copy_index_many, copy_many, mark_many, read_ahead};
use bptree_invariant::nodes::Nodes;
use bptree_stores::node_store_vec::NodeStoreVec;

// The nodes of a map. One function returns them, since each that calls a function of the tree's
// store is expensive to prove.
fn nodes_of(map: &Map) -> &Nodes<NodeStoreVec<u64, u64, Count>>
    ensures { result.now.contents ≡ map.now }
{
    map.pairs.tree().nodes()
}

/// Stores each value at its key, all of them or none, and returns whether no allocation failed. Of
/// equal keys the last value stays. O(k log k) to sort k keys, then as `extend_from_columns` of
/// maps.
pub fn put_all(map: &mut Map, keys: &[u64], values: &[u64]) -> bool
    requires values { length values.now ≡ length keys.now }
    ensures put { result ≡ true → map.new ≡ put_columns map.old keys.now values.now }
    ensures no_memory { result ≡ false → map.new ≡ map.old }
    ensures infallible { keys.now ≡ [] → result ≡ true }
{
    map.pairs.extend_from_columns(keys, values).is_ok()
}

/// Removes the keys, and writes 1 to `found` for each that was present, and 0 for each other. O(k
/// log n) for k keys. It allocates nothing and cannot fail.
pub fn del_all(map: &mut Map, keys: &[u64], found: &mut [u8])
    requires found { length found.old ≡ length keys.now }
    ensures left { map.new ≡ without_each nat_cmp map.old keys.now }
    ensures found { found.new ≡ gone_marks map.old keys.now found.old }
{
    let mut at = 0;
    let mut ahead = 0;
    while at < keys.len() {
        ahead = read_ahead(nodes_of(map), keys, at, ahead);
        found[at] = del_mark(map, keys[at]);
        at += 1;
    }
}

// Removes a key. It returns 1 if the key was present, and 0 if not.
fn del_mark(map: &mut Map, key: u64) -> u8
    ensures left { map.new ≡ del nat_cmp map.old key }
    ensures mark { result ≡ (if has nat_cmp map.old key then 1 else 0) }
{
    match del_in(map, key) {
        Ok(Some(_)) => 1,
        Ok(None) => 0,
        Err(_) => unreachable!(),
    }
}

/// Writes the value at each key to `values`, and 1 to `found`. For an absent key `values` is
/// unchanged, and `found` gets 0. O(k log n) for k keys. It allocates nothing and cannot fail.
pub fn get_all(map: &Map, keys: &[u64], values: &mut [u64], found: &mut [u8])
    requires values { length values.old ≡ length keys.now }
    requires found { length found.old ≡ length keys.now }
    ensures values { values.new ≡ read_each nat_cmp map.now keys.now values.old }
    ensures found { found.new ≡ mark_each nat_cmp map.now 1 0 keys.now }
{
    copy_many(nodes_of(map), keys, values, found, 1, 0);
}

/// Writes 1 to `found` for each key that is present, and 0 for each other. O(k log n) for k keys.
/// It allocates nothing and cannot fail.
pub fn mark_all(map: &Map, keys: &[u64], found: &mut [u8])
    requires { length found.old ≡ length keys.now }
    ensures { found.new ≡ mark_each nat_cmp map.now 1 0 keys.now }
{
    mark_many(nodes_of(map), keys, found, 1, 0);
}

/// Writes the number of smaller keys for each key. O(k log n) for k keys. It allocates nothing and
/// cannot fail.
pub fn rank_all(map: &Map, keys: &[u64], ranks: &mut [usize])
    requires { length ranks.old ≡ length keys.now }
    ensures { ranks.new ≡ ranked_each nat_cmp map.now keys.now }
{
    map.pairs.rank_many(keys, ranks);
}

/// Writes the pair at each index to `keys` and `values`, and 1 to `found`. Past the last pair `keys`
/// and `values` are unchanged, and `found` gets 0. O(k log n) for k indexes. It allocates nothing
/// and cannot fail.
pub fn at_all(map: &Map, indexes: &[usize], keys: &mut [u64], values: &mut [u64], found: &mut [u8])
    requires keys { length keys.old ≡ length indexes.now }
    requires values { length values.old ≡ length indexes.now }
    requires found { length found.old ≡ length indexes.now }
    ensures keys { keys.new ≡ keys_at_each map.now indexes.now keys.old }
    ensures values { values.new ≡ values_at_each map.now indexes.now values.old }
    ensures found { found.new ≡ mark_at_each map.now 1 0 indexes.now }
{
    copy_index_many(nodes_of(map), indexes, keys, values, found, 1, 0);
}
