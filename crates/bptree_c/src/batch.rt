//! Calls of a map of numbers for many keys or indexes at once. The descents of 16 of them go side
//! by side, so that the processor waits for the nodes of all of them at once.
ghost use Rattle.std.specs.Prelude.{◌≡◌, ℕ, List, [], Some, true, false, length};
ghost use Rattle.std.specs.Ordering.{nat_cmp};
ghost use Rattle.bptree_batches.specs.Each.{keys_at_each, mark_at_each, mark_each, ranked_each, read_each, values_at_each};
ghost use Rattle.bptree_c_maps.specs.Batch.{gone_marks, put_columns};
ghost use Rattle.bptree_map.specs.Many.{without_each};

use bptree_c_maps::batch::{at_all, del_all, get_all, mark_all, put_all, rank_all};
use bptree_c_maps::handle::Handle;

/// Writes the value at each given key to `values` at the key's index, and 1 to `found` there. For
/// an absent key `values` is unchanged, and `found` gets 0. Each array has the length of `keys`.
///
/// O(k log n) for k keys, in groups of 16 whose descents go side by side. It allocates nothing and
/// cannot fail.
#[unsafe(no_mangle)]
pub extern "C" fn bptree_get_many(
    map: &mut Handle,
    keys: &[u64],
    values: &mut [u64],
    found: &mut [u8],
)
    ghost pairs: { List (ℕ × ℕ) }
    requires open { map.old.held ≡ Some pairs }
    requires values { length values.old ≡ length keys.now }
    requires found { length found.old ≡ length keys.now }
    ensures kept { map.new.held ≡ Some pairs }
    ensures values { values.new ≡ read_each nat_cmp pairs keys.now values.old }
    ensures found { found.new ≡ mark_each nat_cmp pairs 1 0 keys.now }
{
    get_all(map.peek(), keys, values, found);
}

/// Writes 1 to `found` for each given key that is present, at the key's index, and 0 for each other
/// key. `found` has the length of `keys`. It costs what `bptree_get_many` does.
#[unsafe(no_mangle)]
pub extern "C" fn bptree_contains_many(map: &mut Handle, keys: &[u64], found: &mut [u8])
    ghost pairs: { List (ℕ × ℕ) }
    requires open { map.old.held ≡ Some pairs }
    requires found { length found.old ≡ length keys.now }
    ensures kept { map.new.held ≡ Some pairs }
    ensures found { found.new ≡ mark_each nat_cmp pairs 1 0 keys.now }
{
    mark_all(map.peek(), keys, found);
}

/// Writes for each given key the number of smaller keys of the map to `ranks`, which has the length
/// of `keys`. It costs what `bptree_get_many` does.
#[unsafe(no_mangle)]
pub extern "C" fn bptree_rank_many(map: &mut Handle, keys: &[u64], ranks: &mut [usize])
    ghost pairs: { List (ℕ × ℕ) }
    requires open { map.old.held ≡ Some pairs }
    requires ranks { length ranks.old ≡ length keys.now }
    ensures kept { map.new.held ≡ Some pairs }
    ensures ranks { ranks.new ≡ ranked_each nat_cmp pairs keys.now }
{
    rank_all(map.peek(), keys, ranks);
}

/// Writes the key and the value at each index in the order of the keys to `keys` and `values`, and
/// 1 to `found`. Past the last pair `keys` and `values` are unchanged, and `found` gets 0. Each
/// array has the length of `indexes`.
///
/// O(k log n) for k indexes. It allocates nothing and cannot fail.
#[unsafe(no_mangle)]
pub extern "C" fn bptree_at_many(
    map: &mut Handle,
    indexes: &[usize],
    keys: &mut [u64],
    values: &mut [u64],
    found: &mut [u8],
)
    ghost pairs: { List (ℕ × ℕ) }
    requires open { map.old.held ≡ Some pairs }
    requires keys { length keys.old ≡ length indexes.now }
    requires values { length values.old ≡ length indexes.now }
    requires found { length found.old ≡ length indexes.now }
    ensures kept { map.new.held ≡ Some pairs }
    ensures keys { keys.new ≡ keys_at_each pairs indexes.now keys.old }
    ensures values { values.new ≡ values_at_each pairs indexes.now values.old }
    ensures found { found.new ≡ mark_at_each pairs 1 0 indexes.now }
{
    at_all(map.peek(), indexes, keys, values, found);
}

/// Stores each value at its key, all of them or none. It returns false if an allocation failed;
/// then the map is unchanged. Of equal keys the last value stays. `values` has the length of
/// `keys`. Storing no keys never fails.
///
/// O(k log k) to sort k keys. Then it stores them one after another in the order of the keys, if
/// they are less than a sixth of the map's, in O(k log n). Otherwise it merges both lists in
/// O(n + k).
#[unsafe(no_mangle)]
pub extern "C" fn bptree_put_many(map: &mut Handle, keys: &[u64], values: &[u64]) -> bool
    ghost pairs: { List (ℕ × ℕ) }
    requires open { map.old.held ≡ Some pairs }
    requires values { length values.now ≡ length keys.now }
    ensures put { result ≡ true → map.new.held ≡ Some (put_columns pairs keys.now values.now) }
    ensures no_memory { result ≡ false → map.new.held ≡ Some pairs }
    ensures infallible { keys.now ≡ [] → result ≡ true }
{
    put_all(map.peek(), keys, values)
}

/// Removes the keys, and writes 1 to `found` for each that was present, at the key's index, and 0
/// for each that was not. If a key comes twice, its second occurrence is not present. `found` has
/// the length of `keys`.
///
/// O(k log n) for k keys. It allocates nothing and cannot fail.
#[unsafe(no_mangle)]
pub extern "C" fn bptree_del_many(map: &mut Handle, keys: &[u64], found: &mut [u8])
    ghost pairs: { List (ℕ × ℕ) }
    requires open { map.old.held ≡ Some pairs }
    requires found { length found.old ≡ length keys.now }
    ensures left { map.new.held ≡ Some (without_each nat_cmp pairs keys.now) }
    ensures found { found.new ≡ gone_marks pairs keys.now found.old }
{
    del_all(map.peek(), keys, found);
}
