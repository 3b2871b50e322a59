//! The calls of a map from byte strings to numbers. A look-up compares the caller's bytes in place:
//! it allocates nothing and cannot fail.
ghost use Rattle.std.specs.Prelude.{◌≡◌, ◌≢◌, ◌≤◌, [], Some, None, IsTrue, false, length, slice_get};
ghost use Rattle.std.specs.Map.{keys_of};
ghost use Rattle.bptree_arguments.specs.CountLaws.{count_below};
ghost use Rattle.bptree_c_maps.specs.ByteKeys.{by_bytes};
ghost use Rattle.bptree_c_maps.specs.Dict.{Pairs, WritesPair, WritesOnlyIf, IsPutIn, IsRemovedKey};
ghost use Rattle.bptree_keys.specs.Contents.{has, last_member, next, previous, value};

use bptree_c_maps::dict::{
    at_in, clear_in, copy_of, del_in, empty_dict, first_in, has_in, last_in, len_in, next_in,
    prev_in, put_in, rank_in, value_in, write_pair,
};
use bptree_c_maps::dict_handle::DictHandle;
use bptree_c_maps::results::{removed_value, stored_value};
use std::alloc::Global;

/// Makes a map with no pairs. It returns false if an allocation fails; then the handle holds no
/// map.
#[unsafe(no_mangle)]
pub extern "C" fn bptree_dict_new(alloc: Global, dict: &mut DictHandle) -> bool
    requires closed { dict.old.held ≡ None }
    ensures made { IsTrue result → dict.new.held ≡ Some [] }
    ensures no_memory { result ≡ false → dict.new.held ≡ None }
{
    match empty_dict(alloc) {
        Ok(whole) => {
            dict.give(whole);
            true
        }
        Err(_) => false,
    }
}

/// Makes a copy of a map in a handle that holds no map. It returns false if an allocation fails;
/// then that handle holds no map. O(n).
#[unsafe(no_mangle)]
pub extern "C" fn bptree_dict_clone(
    alloc: Global,
    dict: &mut DictHandle,
    to: &mut DictHandle,
) -> bool
    ghost pairs: { Pairs }
    requires open { dict.old.held ≡ Some pairs }
    requires closed { to.old.held ≡ None }
    ensures kept { dict.new.held ≡ Some pairs }
    ensures made { IsTrue result → to.new.held ≡ Some pairs }
    ensures no_memory { result ≡ false → to.new.held ≡ None }
{
    match copy_of(alloc, dict.peek()) {
        Ok(whole) => {
            to.give(whole);
            true
        }
        Err(_) => false,
    }
}

/// Frees a map. The handle then holds no map. O(n).
#[unsafe(no_mangle)]
pub extern "C" fn bptree_dict_free(alloc: Global, dict: &mut DictHandle)
    ghost pairs: { Pairs }
    requires open { dict.old.held ≡ Some pairs }
    ensures closed { dict.new.held ≡ None }
{
    let _whole = dict.take(alloc);
}

/// Removes all pairs. It allocates one node first, and returns false if that fails; then the map is
/// unchanged.
#[unsafe(no_mangle)]
pub extern "C" fn bptree_dict_clear(dict: &mut DictHandle) -> bool
    ghost pairs: { Pairs }
    requires open { dict.old.held ≡ Some pairs }
    ensures cleared { IsTrue result → dict.new.held ≡ Some [] }
    ensures no_memory { result ≡ false → dict.new.held ≡ Some pairs }
{
    clear_in(dict.peek())
}

/// The number of pairs. O(1).
#[unsafe(no_mangle)]
pub extern "C" fn bptree_dict_len(dict: &mut DictHandle) -> usize
    ghost pairs: { Pairs }
    requires open { dict.old.held ≡ Some pairs }
    ensures kept { dict.new.held ≡ Some pairs }
    ensures len { result ≡ length pairs }
{
    len_in(dict.peek())
}

/// Whether a key is present. O(log n).
#[unsafe(no_mangle)]
pub extern "C" fn bptree_dict_contains(dict: &mut DictHandle, key: &[u8]) -> bool
    ghost pairs: { Pairs }
    requires open { dict.old.held ≡ Some pairs }
    ensures kept { dict.new.held ≡ Some pairs }
    ensures there { result ≡ has by_bytes pairs key.now }
{
    has_in(dict.peek(), key)
}

/// Writes the value at a key to `found`. It returns false if the key is absent; then `found` is
/// unchanged. O(log n).
#[unsafe(no_mangle)]
pub extern "C" fn bptree_dict_get(dict: &mut DictHandle, key: &[u8], found: &mut u64) -> bool
    ghost pairs: { Pairs }
    requires open { dict.old.held ≡ Some pairs }
    ensures kept { dict.new.held ≡ Some pairs }
    ensures found { IsTrue result → value by_bytes pairs key.now ≡ Some found.new }
    ensures absent { result ≡ false → value by_bytes pairs key.now ≡ None }
    ensures unchanged { result ≡ false → found.new ≡ found.old }
{
    match value_in(dict.peek(), key) {
        Some(it) => {
            *found = it;
            true
        }
        None => false,
    }
}

/// Writes the number of smaller keys to `rank`, and returns whether the key itself is present.
/// O(log n).
#[unsafe(no_mangle)]
pub extern "C" fn bptree_dict_rank(dict: &mut DictHandle, key: &[u8], rank: &mut usize) -> bool
    ghost pairs: { Pairs }
    requires open { dict.old.held ≡ Some pairs }
    ensures kept { dict.new.held ≡ Some pairs }
    ensures rank { rank.new ≡ count_below by_bytes key.now (keys_of pairs) }
    ensures there { result ≡ has by_bytes pairs key.now }
{
    let (is_there, smaller) = rank_in(dict.peek(), key);
    *rank = smaller;
    is_there
}

/// Stores a value at a key. It returns 3 if the key is new, and 4 if it had a value, which is then
/// in `old`. It returns 2 if an allocation fails; then the map is unchanged. At 2 and 3 `old` is
/// unchanged. A new key is copied in. The call never fails for a key that is present. O(log n).
#[unsafe(no_mangle)]
pub extern "C" fn bptree_dict_put(
    alloc: Global,
    dict: &mut DictHandle,
    key: &[u8],
    new: u64,
    old: &mut u64,
) -> u32
    ghost pairs: { Pairs }
    requires open { dict.old.held ≡ Some pairs }
    ensures codes { (2 ≤ result) × (result ≤ 4) }
    ensures added { result ≡ 3 → IsPutIn pairs key.now new None dict.new.held }
    ensures replaced { result ≡ 4 → IsPutIn pairs key.now new (Some old.new) dict.new.held }
    ensures no_memory { result ≡ 2 → dict.new.held ≡ Some pairs }
    ensures unchanged { result ≢ 4 → old.new ≡ old.old }
    ensures infallible { IsTrue (has by_bytes pairs key.now) → result ≢ 2 }
{
    stored_value(put_in(alloc, dict.peek(), key, new), old)
}

/// Removes the pair at a key. It returns 1 if there was one, whose value is then in `old`, and 0 if
/// not. It returns 2 if a copy of a key fails, which a node may need; then the map is unchanged.
/// The call never fails for an absent key. At 0 and 2 `old` is unchanged. O(log n).
#[unsafe(no_mangle)]
pub extern "C" fn bptree_dict_del(
    alloc: Global,
    dict: &mut DictHandle,
    key: &[u8],
    old: &mut u64,
) -> u32
    ghost pairs: { Pairs }
    requires open { dict.old.held ≡ Some pairs }
    ensures codes { result ≤ 2 }
    ensures absent { result ≡ 0 → IsRemovedKey pairs key.now None dict.new.held }
    ensures removed { result ≡ 1 → IsRemovedKey pairs key.now (Some old.new) dict.new.held }
    ensures no_memory { result ≡ 2 → dict.new.held ≡ Some pairs }
    ensures unchanged { result ≢ 1 → old.new ≡ old.old }
    ensures infallible { has by_bytes pairs key.now ≡ false → result ≡ 0 }
{
    removed_value(del_in(alloc, dict.peek(), key), old)
}

/// Writes the pair with the least key: `out` begins with as many of the key's bytes as it has room
/// for, the key's whole length is in `len`, and the value in `value`. It returns false if the map
/// is empty; then nothing is written.
#[unsafe(no_mangle)]
pub extern "C" fn bptree_dict_first(
    dict: &mut DictHandle,
    out: &mut [u8],
    len: &mut usize,
    value: &mut u64,
) -> bool
    ghost pairs: { Pairs }
    requires open { dict.old.held ≡ Some pairs }
    ensures kept { dict.new.held ≡ Some pairs }
    ensures written { WritesPair (slice_get pairs 0) result (out.old, len.old, value.old) (out.new, len.new, value.new) }
    ensures unchanged { WritesOnlyIf result out.old len.old value.old out.new len.new value.new }
{
    write_pair(first_in(dict.peek()), out, len, value)
}

/// Writes the pair with the greatest key as `bptree_dict_first` does.
#[unsafe(no_mangle)]
pub extern "C" fn bptree_dict_last(
    dict: &mut DictHandle,
    out: &mut [u8],
    len: &mut usize,
    value: &mut u64,
) -> bool
    ghost pairs: { Pairs }
    requires open { dict.old.held ≡ Some pairs }
    ensures kept { dict.new.held ≡ Some pairs }
    ensures written { WritesPair (last_member pairs) result (out.old, len.old, value.old) (out.new, len.new, value.new) }
    ensures unchanged { WritesOnlyIf result out.old len.old value.old out.new len.new value.new }
{
    write_pair(last_in(dict.peek()), out, len, value)
}

/// Writes the pair at an index in the order of the keys, from 0 on, as `bptree_dict_first` does. It
/// returns false past the end; then nothing is written.
#[unsafe(no_mangle)]
pub extern "C" fn bptree_dict_at(
    dict: &mut DictHandle,
    index: usize,
    out: &mut [u8],
    len: &mut usize,
    value: &mut u64,
) -> bool
    ghost pairs: { Pairs }
    requires open { dict.old.held ≡ Some pairs }
    ensures kept { dict.new.held ≡ Some pairs }
    ensures written { WritesPair (slice_get pairs index) result (out.old, len.old, value.old) (out.new, len.new, value.new) }
    ensures unchanged { WritesOnlyIf result out.old len.old value.old out.new len.new value.new }
{
    write_pair(at_in(dict.peek(), index), out, len, value)
}

/// Writes the pair with the least greater key as `bptree_dict_first` does. It returns false if
/// there is no such key; then nothing is written.
#[unsafe(no_mangle)]
pub extern "C" fn bptree_dict_next(
    dict: &mut DictHandle,
    key: &[u8],
    out: &mut [u8],
    len: &mut usize,
    value: &mut u64,
) -> bool
    ghost pairs: { Pairs }
    requires open { dict.old.held ≡ Some pairs }
    ensures kept { dict.new.held ≡ Some pairs }
    ensures written { WritesPair (next by_bytes pairs key.now) result (out.old, len.old, value.old) (out.new, len.new, value.new) }
    ensures unchanged { WritesOnlyIf result out.old len.old value.old out.new len.new value.new }
{
    write_pair(next_in(dict.peek(), key), out, len, value)
}

/// Writes the pair with the greatest smaller key as `bptree_dict_next` does.
#[unsafe(no_mangle)]
pub extern "C" fn bptree_dict_prev(
    dict: &mut DictHandle,
    key: &[u8],
    out: &mut [u8],
    len: &mut usize,
    value: &mut u64,
) -> bool
    ghost pairs: { Pairs }
    requires open { dict.old.held ≡ Some pairs }
    ensures kept { dict.new.held ≡ Some pairs }
    ensures written { WritesPair (previous by_bytes pairs key.now) result (out.old, len.old, value.old) (out.new, len.new, value.new) }
    ensures unchanged { WritesOnlyIf result out.old len.old value.old out.new len.new value.new }
{
    write_pair(prev_in(dict.peek(), key), out, len, value)
}
