//! Calls that change a map of numbers. A call that fails leaves the map unchanged.
ghost use Rattle.std.specs.Prelude.{◌≡◌, ◌≤◌, [], None, Ok, IfOk, OnErr, IsOk, IsTrue, false, length};
ghost use Rattle.std.specs.Map.Iter.{TakesFirst, TakesLast};
ghost use Rattle.std.specs.Ordering.{nat_cmp};
ghost use Rattle.bptree_c_maps.specs.Results.{ResultTakesAt};
ghost use Rattle.bptree_keys.specs.Contents.{has};
ghost use Rattle.bptree_tree.specs.Changes.{Puts, Removes};

use crate::handle::Map;
use std::alloc::AllocError;

/// Stores a value at a key, and returns the value that it replaces. O(log n). It fails only if an
/// allocation fails, and never for a key that is present.
pub fn put_in(map: &mut Map, key: u64, new: u64) -> Result<Option<u64>, AllocError>
    ensures ok { IfOk result (Puts nat_cmp key new map.old map.new) }
    ensures present { IsTrue (has nat_cmp map.old key) → IsOk result }
    ensures unchanged { OnErr result (map.new ≡ map.old) }
{
    match map.pairs.insert(key, new) {
        Ok(old) => Ok(old),
        Err(_) => Err(AllocError),
    }
}

/// Removes a key, and returns its value, or `None`. O(log n). It allocates nothing and cannot fail.
pub fn del_in(map: &mut Map, key: u64) -> Result<Option<u64>, AllocError>
    ensures ok { IfOk result (Removes nat_cmp key map.old map.new) }
    ensures absent { has nat_cmp map.old key ≡ false → result ≡ Ok None }
    ensures infallible { IsOk result }
{
    map.pairs.remove(&key)
}

/// Removes the pair at an index, and returns it, or `None` past the end. O(log n). It allocates
/// nothing and cannot fail.
pub fn remove_in(map: &mut Map, index: usize) -> Result<Option<(u64, u64)>, AllocError>
    ensures ok { IfOk result (ResultTakesAt map.old index map.new) }
    ensures past { length map.old ≤ index → (result ≡ Ok None) × (map.new ≡ map.old) }
    ensures infallible { IsOk result }
{
    map.pairs.remove_index(index)
}

/// Removes the pair with the least key, and returns it, or `None`. O(log n). It allocates nothing
/// and cannot fail.
pub fn pop_first_in(map: &mut Map) -> Result<Option<(u64, u64)>, AllocError>
    ensures ok { IfOk result (λ gone. TakesFirst (λ pair. pair) map.old gone map.new) }
    ensures empty { map.old ≡ [] → (result ≡ Ok None) × (map.new ≡ map.old) }
    ensures infallible { IsOk result }
{
    map.pairs.pop_first()
}

/// Removes the pair with the greatest key, and returns it, or `None`. O(log n). It allocates
/// nothing and cannot fail.
pub fn pop_last_in(map: &mut Map) -> Result<Option<(u64, u64)>, AllocError>
    ensures ok { IfOk result (λ gone. TakesLast (λ pair. pair) map.old gone map.new) }
    ensures empty { map.old ≡ [] → (result ≡ Ok None) × (map.new ≡ map.old) }
    ensures infallible { IsOk result }
{
    map.pairs.pop_last()
}
