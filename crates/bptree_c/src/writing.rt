//! Calls that change a map of numbers. A call that fails leaves the map unchanged.
ghost use Rattle.std.specs.Prelude.{◌≡◌, ◌≢◌, ◌≤◌, ℕ, List, [], Some, None, IsTrue, false, length};
ghost use Rattle.std.specs.Ordering.{nat_cmp};
ghost use Rattle.bptree_c_maps.specs.Results.{IsPutAt, IsRemovedFrom, RemovesAt, RemovesFirst, RemovesLast};
ghost use Rattle.bptree_keys.specs.Contents.{has};

use bptree_c_maps::handle::Handle;
use bptree_c_maps::pair::Pair;
use bptree_c_maps::results::{removed_pair, removed_value, stored_value};
use bptree_c_maps::writing::{del_in, pop_first_in, pop_last_in, put_in, remove_in};

/// Stores a value at a key. It returns 3 if the key is new, and 4 if it had a value, which is then
/// in `old`. It returns 2 if an allocation fails; then the map is unchanged. At 2 and 3 `old` is
/// unchanged. The call never fails for a key that is present. O(log n).
#[unsafe(no_mangle)]
pub extern "C" fn bptree_put(map: &mut Handle, key: u64, new: u64, old: &mut u64) -> u32
    ghost pairs: { List (ℕ × ℕ) }
    requires open { map.old.held ≡ Some pairs }
    ensures codes { (2 ≤ result) × (result ≤ 4) }
    ensures added { result ≡ 3 → IsPutAt pairs key new None map.new.held }
    ensures replaced { result ≡ 4 → IsPutAt pairs key new (Some old.new) map.new.held }
    ensures no_memory { result ≡ 2 → map.new.held ≡ Some pairs }
    ensures unchanged { result ≢ 4 → old.new ≡ old.old }
    ensures infallible { IsTrue (has nat_cmp pairs key) → result ≢ 2 }
{
    stored_value(put_in(map.peek(), key, new), old)
}

/// Removes the pair at a key. It returns 1 if there was one, whose value is then in `old`, and 0 if
/// not; then `old` is unchanged. It allocates nothing and cannot fail. O(log n).
#[unsafe(no_mangle)]
pub extern "C" fn bptree_del(map: &mut Handle, key: u64, old: &mut u64) -> u32
    ghost pairs: { List (ℕ × ℕ) }
    requires open { map.old.held ≡ Some pairs }
    ensures codes { result ≤ 1 }
    ensures absent { result ≡ 0 → IsRemovedFrom pairs key None map.new.held }
    ensures removed { result ≡ 1 → IsRemovedFrom pairs key (Some old.new) map.new.held }
    ensures unchanged { result ≢ 1 → old.new ≡ old.old }
    ensures infallible { has nat_cmp pairs key ≡ false → result ≡ 0 }
{
    removed_value(del_in(map.peek(), key), old)
}

/// Removes the pair at an index in the order of the keys, from 0 on. It returns 1 if there was one,
/// which is then in `pair`, and 0 past the end; then `pair` is unchanged. It allocates nothing and
/// cannot fail. O(log n).
#[unsafe(no_mangle)]
pub extern "C" fn bptree_del_at(map: &mut Handle, index: usize, pair: &mut Pair) -> u32
    ghost pairs: { List (ℕ × ℕ) }
    requires open { map.old.held ≡ Some pairs }
    ensures codes { result ≤ 1 }
    ensures past { result ≡ 0 → (length pairs ≤ index) × (map.new.held ≡ Some pairs) }
    ensures removed { result ≡ 1 → RemovesAt pairs index map.new.held pair.new }
    ensures unchanged { result ≢ 1 → pair.new ≡ pair.old }
    ensures infallible { length pairs ≤ index → result ≡ 0 }
{
    removed_pair(remove_in(map.peek(), index), pair)
}

/// Removes the pair with the least key. It returns 1 if there was one, which is then in `pair`, and
/// 0 if the map is empty; then `pair` is unchanged. It allocates nothing and cannot fail. O(log n).
#[unsafe(no_mangle)]
pub extern "C" fn bptree_pop_first(map: &mut Handle, pair: &mut Pair) -> u32
    ghost pairs: { List (ℕ × ℕ) }
    requires open { map.old.held ≡ Some pairs }
    ensures codes { result ≤ 1 }
    ensures empty { result ≡ 0 → (pairs ≡ []) × (map.new.held ≡ Some pairs) }
    ensures removed { result ≡ 1 → RemovesFirst pairs map.new.held pair.new }
    ensures unchanged { result ≢ 1 → pair.new ≡ pair.old }
    ensures infallible { pairs ≡ [] → result ≡ 0 }
{
    removed_pair(pop_first_in(map.peek()), pair)
}

/// Removes the pair with the greatest key. It returns and writes what `bptree_pop_first` does.
#[unsafe(no_mangle)]
pub extern "C" fn bptree_pop_last(map: &mut Handle, pair: &mut Pair) -> u32
    ghost pairs: { List (ℕ × ℕ) }
    requires open { map.old.held ≡ Some pairs }
    ensures codes { result ≤ 1 }
    ensures empty { result ≡ 0 → (pairs ≡ []) × (map.new.held ≡ Some pairs) }
    ensures removed { result ≡ 1 → RemovesLast pairs map.new.held pair.new }
    ensures unchanged { result ≢ 1 → pair.new ≡ pair.old }
    ensures infallible { pairs ≡ [] → result ≡ 0 }
{
    removed_pair(pop_last_in(map.peek()), pair)
}
