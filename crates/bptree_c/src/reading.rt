//! Calls that read a map of numbers. These calls cannot fail, allocate nothing, and write neither
//! to the map nor to its handle.
ghost use Rattle.std.specs.Prelude.{◌≡◌, ℕ, List, Some, None, IsTrue, false, length, slice_get};
ghost use Rattle.std.specs.Map.{keys_of};
ghost use Rattle.std.specs.Ordering.{nat_cmp};
ghost use Rattle.bptree_arguments.specs.CountLaws.{count_below};
ghost use Rattle.bptree_c_maps.specs.Pairs.{as_tuple};
ghost use Rattle.bptree_keys.specs.Contents.{has, last_member, value, next, previous};
ghost use Rattle.bptree_keys.specs.Ranges.{between};

use bptree_c_maps::handle::Handle;
use bptree_c_maps::pair::Pair;
use bptree_c_maps::reading::{
    at_in, first_in, has_in, last_in, len_in, next_in, prev_in, range_len_in, rank_in, value_in,
    write_pair,
};

/// The number of pairs. O(1).
#[unsafe(no_mangle)]
pub extern "C" fn bptree_len(map: &mut Handle) -> usize
    ghost pairs: { List (ℕ × ℕ) }
    requires open { map.old.held ≡ Some pairs }
    ensures kept { map.new.held ≡ Some pairs }
    ensures len { result ≡ length pairs }
{
    len_in(map.peek())
}

/// Whether a key is present. O(log n).
#[unsafe(no_mangle)]
pub extern "C" fn bptree_contains(map: &mut Handle, key: u64) -> bool
    ghost pairs: { List (ℕ × ℕ) }
    requires open { map.old.held ≡ Some pairs }
    ensures kept { map.new.held ≡ Some pairs }
    ensures there { result ≡ has nat_cmp pairs key }
{
    has_in(map.peek(), key)
}

/// Writes the value at a key to `found`. It returns false if the key is absent; then `found` is
/// unchanged. O(log n).
#[unsafe(no_mangle)]
pub extern "C" fn bptree_get(map: &mut Handle, key: u64, found: &mut u64) -> bool
    ghost pairs: { List (ℕ × ℕ) }
    requires open { map.old.held ≡ Some pairs }
    ensures kept { map.new.held ≡ Some pairs }
    ensures found { IsTrue result → value nat_cmp pairs key ≡ Some found.new }
    ensures absent { result ≡ false → value nat_cmp pairs key ≡ None }
    ensures unchanged { result ≡ false → found.new ≡ found.old }
{
    match value_in(map.peek(), key) {
        Some(it) => {
            *found = it;
            true
        }
        None => false,
    }
}

/// Writes the pair with the least key to `pair`. It returns false if the map is empty; then `pair`
/// is unchanged. O(log n).
#[unsafe(no_mangle)]
pub extern "C" fn bptree_first(map: &mut Handle, pair: &mut Pair) -> bool
    ghost pairs: { List (ℕ × ℕ) }
    requires open { map.old.held ≡ Some pairs }
    ensures kept { map.new.held ≡ Some pairs }
    ensures found { IsTrue result → slice_get pairs 0 ≡ Some (as_tuple pair.new) }
    ensures empty { result ≡ false → slice_get pairs 0 ≡ None }
    ensures unchanged { result ≡ false → pair.new ≡ pair.old }
{
    write_pair(first_in(map.peek()), pair)
}

/// Writes the pair with the greatest key to `pair`. It returns false if the map is empty; then
/// `pair` is unchanged. O(log n).
#[unsafe(no_mangle)]
pub extern "C" fn bptree_last(map: &mut Handle, pair: &mut Pair) -> bool
    ghost pairs: { List (ℕ × ℕ) }
    requires open { map.old.held ≡ Some pairs }
    ensures kept { map.new.held ≡ Some pairs }
    ensures found { IsTrue result → last_member pairs ≡ Some (as_tuple pair.new) }
    ensures empty { result ≡ false → last_member pairs ≡ None }
    ensures unchanged { result ≡ false → pair.new ≡ pair.old }
{
    write_pair(last_in(map.peek()), pair)
}

/// Writes the pair with the least greater key to `pair`. It returns false if there is no such key;
/// then `pair` is unchanged. O(log n).
#[unsafe(no_mangle)]
pub extern "C" fn bptree_next(map: &mut Handle, key: u64, pair: &mut Pair) -> bool
    ghost pairs: { List (ℕ × ℕ) }
    requires open { map.old.held ≡ Some pairs }
    ensures kept { map.new.held ≡ Some pairs }
    ensures found { IsTrue result → next nat_cmp pairs key ≡ Some (as_tuple pair.new) }
    ensures none { result ≡ false → next nat_cmp pairs key ≡ None }
    ensures unchanged { result ≡ false → pair.new ≡ pair.old }
{
    write_pair(next_in(map.peek(), key), pair)
}

/// Writes the pair with the greatest smaller key to `pair`. It returns false if there is no such
/// key; then `pair` is unchanged. O(log n).
#[unsafe(no_mangle)]
pub extern "C" fn bptree_prev(map: &mut Handle, key: u64, pair: &mut Pair) -> bool
    ghost pairs: { List (ℕ × ℕ) }
    requires open { map.old.held ≡ Some pairs }
    ensures kept { map.new.held ≡ Some pairs }
    ensures found { IsTrue result → previous nat_cmp pairs key ≡ Some (as_tuple pair.new) }
    ensures none { result ≡ false → previous nat_cmp pairs key ≡ None }
    ensures unchanged { result ≡ false → pair.new ≡ pair.old }
{
    write_pair(prev_in(map.peek(), key), pair)
}

/// Writes the pair at an index in the order of the keys, from 0 on, to `pair`. It returns false
/// past the end; then `pair` is unchanged. O(log n).
#[unsafe(no_mangle)]
pub extern "C" fn bptree_at(map: &mut Handle, index: usize, pair: &mut Pair) -> bool
    ghost pairs: { List (ℕ × ℕ) }
    requires open { map.old.held ≡ Some pairs }
    ensures kept { map.new.held ≡ Some pairs }
    ensures found { IsTrue result → slice_get pairs index ≡ Some (as_tuple pair.new) }
    ensures past { result ≡ false → slice_get pairs index ≡ None }
    ensures unchanged { result ≡ false → pair.new ≡ pair.old }
{
    write_pair(at_in(map.peek(), index), pair)
}

/// Writes the number of smaller keys to `rank`, and returns whether the key itself is present.
/// O(log n).
#[unsafe(no_mangle)]
pub extern "C" fn bptree_rank(map: &mut Handle, key: u64, rank: &mut usize) -> bool
    ghost pairs: { List (ℕ × ℕ) }
    requires open { map.old.held ≡ Some pairs }
    ensures kept { map.new.held ≡ Some pairs }
    ensures rank { rank.new ≡ count_below nat_cmp key (keys_of pairs) }
    ensures there { result ≡ has nat_cmp pairs key }
{
    let (is_there, smaller) = rank_in(map.peek(), key);
    *rank = smaller;
    is_there
}

/// The number of keys that are at least `from` and less than `to`. O(log n).
#[unsafe(no_mangle)]
pub extern "C" fn bptree_range_len(map: &mut Handle, from: u64, to: u64) -> usize
    ghost pairs: { List (ℕ × ℕ) }
    requires open { map.old.held ≡ Some pairs }
    ensures kept { map.new.held ≡ Some pairs }
    ensures len { result ≡ length (between nat_cmp pairs (Some from) (Some to)) }
{
    range_len_in(map.peek(), from, to)
}
