//! Removals of the pair at an end of a map from byte strings.
ghost use Rattle.std.specs.Prelude.{◌≡◌, ◌≢◌, ◌≤◌, [], Some, slice_get};
ghost use Rattle.bptree_c_maps.specs.Dict.{Pairs};
ghost use Rattle.bptree_c_maps.specs.DictEnds.{IsTooLong, DictPopsFirst, DictPopsLast};
ghost use Rattle.bptree_keys.specs.Contents.{last_member};

use bptree_c_maps::dict_ends::{
    first_length, last_length, pop_first_in, pop_last_in, write_popped,
};
use bptree_c_maps::dict_handle::DictHandle;
use bptree_c_maps::results::NO_ROOM;

/// Removes the pair with the least key. It returns 1 if there was one: then `out` begins with its
/// key, whose length is in `len`, and its value is in `value`. It returns 0 if the map is empty. It
/// returns 5 if the key does not fit into `out`; then its length is in `len`. It returns 2 if a
/// copy of a key fails, which a node may need. Unless it returns 1 the map is unchanged, and
/// nothing else is written. O(log n).
#[unsafe(no_mangle)]
pub extern "C" fn bptree_dict_pop_first(
    dict: &mut DictHandle,
    out: &mut [u8],
    len: &mut usize,
    value: &mut u64,
) -> u32
    ghost pairs: { Pairs }
    requires open { dict.old.held ≡ Some pairs }
    ensures codes { result ≢ 5 → result ≤ 2 }
    ensures empty { result ≡ 0 → (pairs ≡ []) × (dict.new.held ≡ Some pairs) }
    ensures removed { result ≡ 1 → DictPopsFirst pairs dict.new.held out.old (out.new, len.new, value.new) }
    ensures no_memory { result ≡ 2 → dict.new.held ≡ Some pairs }
    ensures no_room { result ≡ 5 → IsTooLong (slice_get pairs 0) out.old len.new × (dict.new.held ≡ Some pairs) }
    ensures unchanged { result ≢ 1 → (out.new ≡ out.old) × (value.new ≡ value.old) }
    ensures len_unchanged { result ≢ 1 → result ≢ 5 → len.new ≡ len.old }
    ensures infallible { pairs ≡ [] → result ≡ 0 }
{
    match first_length(dict.peek()) {
        Some(length) if length > out.len() => {
            *len = length;
            NO_ROOM
        }
        _ => write_popped(pop_first_in(dict.peek()), out, len, value),
    }
}

/// Removes the pair with the greatest key. It returns and writes what `bptree_dict_pop_first` does.
#[unsafe(no_mangle)]
pub extern "C" fn bptree_dict_pop_last(
    dict: &mut DictHandle,
    out: &mut [u8],
    len: &mut usize,
    value: &mut u64,
) -> u32
    ghost pairs: { Pairs }
    requires open { dict.old.held ≡ Some pairs }
    ensures codes { result ≢ 5 → result ≤ 2 }
    ensures empty { result ≡ 0 → (pairs ≡ []) × (dict.new.held ≡ Some pairs) }
    ensures removed { result ≡ 1 → DictPopsLast pairs dict.new.held out.old (out.new, len.new, value.new) }
    ensures no_memory { result ≡ 2 → dict.new.held ≡ Some pairs }
    ensures no_room { result ≡ 5 → IsTooLong (last_member pairs) out.old len.new × (dict.new.held ≡ Some pairs) }
    ensures unchanged { result ≢ 1 → (out.new ≡ out.old) × (value.new ≡ value.old) }
    ensures len_unchanged { result ≢ 1 → result ≢ 5 → len.new ≡ len.old }
    ensures infallible { pairs ≡ [] → result ≡ 0 }
{
    match last_length(dict.peek()) {
        Some(length) if length > out.len() => {
            *len = length;
            NO_ROOM
        }
        _ => write_popped(pop_last_in(dict.peek()), out, len, value),
    }
}
