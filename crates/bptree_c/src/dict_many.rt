//! Calls of a map from byte strings that copy many pairs at once into a caller's arrays. These
//! calls cannot fail.
ghost use Rattle.std.specs.Prelude.{◌≡◌, ◌+◌, ◌-◌, ◌++◌, Some, length, drop};
ghost use Rattle.std.specs.Map.{keys_of, values_of};
ghost use Rattle.bptree_arguments.specs.CountLaws.{count_below};
ghost use Rattle.bptree_c_maps.specs.ByteKeys.{by_bytes};
ghost use Rattle.bptree_c_maps.specs.Dict.{Pairs};
ghost use Rattle.bptree_c_maps.specs.DictPages.{IsPage};
ghost use Rattle.bptree_c_maps.specs.Ends.{back_before};
ghost use Rattle.bptree_keys.specs.Ranges.{part};

use bptree_c_maps::dict_handle::DictHandle;
use bptree_c_maps::dict_many::{copy_pairs, copy_values, part_before, part_of, smaller_in};
use bptree_c_maps::record::Record;
use bptree_keys::end::End;

/// The number of keys that are at least `from` and less than `to`.
#[unsafe(no_mangle)]
pub extern "C" fn bptree_dict_range_len(dict: &mut DictHandle, from: &[u8], to: &[u8]) -> usize
    ghost pairs: { Pairs }
    requires open { dict.old.held ≡ Some pairs }
    ensures kept { dict.new.held ≡ Some pairs }
    ensures len { result ≡ count_below by_bytes to.now (keys_of pairs) - count_below by_bytes from.now (keys_of pairs) }
{
    let start = smaller_in(dict.peek(), from);
    let end = smaller_in(dict.peek(), to);
    end.saturating_sub(start)
}

/// Copies the values of the pairs from an index on, in the order of their keys, until the array is
/// full or no pairs are left. It returns the number of values.
#[unsafe(no_mangle)]
pub extern "C" fn bptree_dict_values(dict: &mut DictHandle, index: usize, out: &mut [u64]) -> usize
    ghost pairs: { Pairs }
    requires open { dict.old.held ≡ Some pairs }
    ensures kept { dict.new.held ≡ Some pairs }
    ensures count { result ≡ length (part pairs index (length out.old)) }
    ensures copied { out.new ≡ values_of (part pairs index (length out.old)) ++ drop result out.old }
{
    let pairs = part_of(dict.peek(), index, out.len());
    copy_values(pairs, out)
}

/// Copies pairs from an index on, in the order of their keys: the keys' bytes one after another,
/// and for each pair a record of its key's length and its value. It stops if the records are used
/// up, the next key does not fit into the rest of the bytes, or no pairs are left. It returns the
/// number of pairs.
#[unsafe(no_mangle)]
pub extern "C" fn bptree_dict_page(
    dict: &mut DictHandle,
    index: usize,
    bytes: &mut [u8],
    out: &mut [Record],
) -> usize
    ghost pairs: { Pairs }
    requires open { dict.old.held ≡ Some pairs }
    ensures kept { dict.new.held ≡ Some pairs }
    ensures copied { IsPage (part pairs index (length out.old)) bytes.old out.old bytes.new out.new result }
{
    let pairs = part_of(dict.peek(), index, out.len());
    copy_pairs(pairs, End::Front, bytes, out)
}

/// Copies the pairs before an index, from the one just before it down, as `bptree_dict_page` does
/// upward. An index past the end counts as the one behind the last pair.
#[unsafe(no_mangle)]
pub extern "C" fn bptree_dict_page_back(
    dict: &mut DictHandle,
    index: usize,
    bytes: &mut [u8],
    out: &mut [Record],
) -> usize
    ghost pairs: { Pairs }
    requires open { dict.old.held ≡ Some pairs }
    ensures kept { dict.new.held ≡ Some pairs }
    ensures copied { IsPage (back_before pairs index (length out.old)) bytes.old out.old bytes.new out.new result }
{
    let pairs = part_before(dict.peek(), index, out.len());
    copy_pairs(pairs, End::Back, bytes, out)
}
