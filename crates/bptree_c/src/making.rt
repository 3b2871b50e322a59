//! Calls that make, copy, load, empty and free a map.
ghost use Rattle.std.specs.Prelude.{◌≡◌, ℕ, List, [], Some, None, IsTrue, false};
ghost use Rattle.bptree_c_maps.specs.Pairs.{pairs_gathered};

use bptree_c_maps::handle::Handle;
use bptree_c_maps::making::{clear_in, copy_of, empty_map, load_into};
use bptree_c_maps::pair::Pair;
use std::alloc::Global;

/// Makes a map with no pairs. It returns false if an allocation fails; then the handle holds no
/// map.
#[unsafe(no_mangle)]
pub extern "C" fn bptree_new(alloc: Global, map: &mut Handle) -> bool
    requires closed { map.old.held ≡ None }
    ensures made { IsTrue result → map.new.held ≡ Some [] }
    ensures no_memory { result ≡ false → map.new.held ≡ None }
{
    match empty_map(alloc) {
        Ok(whole) => {
            map.give(whole);
            true
        }
        Err(_) => false,
    }
}

/// Makes a copy of a map in a handle that holds no map. It returns false if an allocation fails;
/// then that handle holds no map. O(n).
#[unsafe(no_mangle)]
pub extern "C" fn bptree_clone(alloc: Global, map: &mut Handle, to: &mut Handle) -> bool
    ghost pairs: { List (ℕ × ℕ) }
    requires open { map.old.held ≡ Some pairs }
    requires closed { to.old.held ≡ None }
    ensures kept { map.new.held ≡ Some pairs }
    ensures made { IsTrue result → to.new.held ≡ Some pairs }
    ensures no_memory { result ≡ false → to.new.held ≡ None }
{
    match copy_of(alloc, map.peek()) {
        Ok(whole) => {
            to.give(whole);
            true
        }
        Err(_) => false,
    }
}

/// Frees a map. The handle then holds no map. O(n).
#[unsafe(no_mangle)]
pub extern "C" fn bptree_free(alloc: Global, map: &mut Handle)
    ghost pairs: { List (ℕ × ℕ) }
    requires open { map.old.held ≡ Some pairs }
    ensures closed { map.new.held ≡ None }
{
    let _whole = map.take(alloc);
}

/// Removes all pairs. It allocates one node first, and returns false if that fails; then the map is
/// unchanged. O(n).
#[unsafe(no_mangle)]
pub extern "C" fn bptree_clear(map: &mut Handle) -> bool
    ghost pairs: { List (ℕ × ℕ) }
    requires open { map.old.held ≡ Some pairs }
    ensures cleared { IsTrue result → map.new.held ≡ Some [] }
    ensures no_memory { result ≡ false → map.new.held ≡ Some pairs }
{
    clear_in(map.peek())
}

/// Replaces the contents of the map by the given pairs, in any order: of equal keys the last one
/// stays. It returns false if an allocation fails; then the map is unchanged. O(n log n), and O(n)
/// for sorted pairs.
#[unsafe(no_mangle)]
pub extern "C" fn bptree_load(alloc: Global, map: &mut Handle, given: &[Pair]) -> bool
    ghost pairs: { List (ℕ × ℕ) }
    requires open { map.old.held ≡ Some pairs }
    ensures all { IsTrue result → map.new.held ≡ Some (pairs_gathered given.now) }
    ensures no_memory { result ≡ false → map.new.held ≡ Some pairs }
{
    load_into(alloc, map.peek(), given).is_ok()
}
