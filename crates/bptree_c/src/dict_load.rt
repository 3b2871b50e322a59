//! Loading of a map from byte strings, and removal of a pair by its index.
ghost use Rattle.std.specs.Prelude.{◌≡◌, ◌≢◌, ◌≤◌, Some, IsTrue, false, length};
ghost use Rattle.bptree_c_maps.specs.ByteKeys.{by_bytes};
ghost use Rattle.bptree_c_maps.specs.Dict.{Pairs, IsRemovedAt};
ghost use Rattle.bptree_c_maps.specs.DictPages.{dict_pairs_of};
ghost use Rattle.bptree_keys.specs.Contents.{gather};

use bptree_c_maps::dict_handle::DictHandle;
use bptree_c_maps::dict_load::{load_into, remove_in};
use bptree_c_maps::record::Record;
use bptree_c_maps::results::removed_value;
use std::alloc::Global;

/// Replaces the contents of the map by the given pairs: the keys' bytes one after another, and for
/// each pair a record of its key's length and its value. Of equal keys the last one stays. It
/// returns false if an allocation fails, or there are fewer bytes than the records say; then
/// nothing has changed.
#[unsafe(no_mangle)]
pub extern "C" fn bptree_dict_load(
    alloc: Global,
    dict: &mut DictHandle,
    bytes: &[u8],
    given: &[Record],
) -> bool
    ghost pairs: { Pairs }
    requires open { dict.old.held ≡ Some pairs }
    ensures all { IsTrue result → dict.new.held ≡ Some (gather by_bytes (dict_pairs_of bytes.now given.now)) }
    ensures unchanged { result ≡ false → dict.new.held ≡ Some pairs }
{
    load_into(alloc, dict.peek(), bytes, given).is_ok()
}

/// Removes the pair at an index in the order of the keys, from 0 on. It returns 1 if there was one,
/// whose value is then in `old`, and 0 past the end. It returns 2 if a copy of a key fails, which a
/// node may need; then the map is unchanged. The call never fails past the end. At 0 and 2 `old` is
/// unchanged.
#[unsafe(no_mangle)]
pub extern "C" fn bptree_dict_del_at(dict: &mut DictHandle, index: usize, old: &mut u64) -> u32
    ghost pairs: { Pairs }
    requires open { dict.old.held ≡ Some pairs }
    ensures codes { result ≤ 2 }
    ensures past { result ≡ 0 → (length pairs ≤ index) × (dict.new.held ≡ Some pairs) }
    ensures removed { result ≡ 1 → IsRemovedAt pairs index dict.new.held old.new }
    ensures no_memory { result ≡ 2 → dict.new.held ≡ Some pairs }
    ensures unchanged { result ≢ 1 → old.new ≡ old.old }
    ensures infallible { length pairs ≤ index → result ≡ 0 }
{
    removed_value(remove_in(dict.peek(), index), old)
}
