//! Calls that make, copy, load, empty and free a map.
ghost use Rattle.std.specs.Prelude.{◌≡◌, [], IsTrue, false, IfOk, OnErr, map as each};
ghost use Rattle.bptree_c_maps.specs.Pairs.{as_tuple, pairs_gathered};

use crate::handle::Map;
use crate::pair::Pair;
use bptree_arguments::count::Count;
use bptree_map::map::BPlusTreeMap;
use std::alloc::{AllocError, Global};

/// Copies a map. O(n). It fails only if an allocation fails.
pub fn copy_of(alloc: Global, map: &Map) -> Result<Box<Map>, AllocError>
    ensures { IfOk result (λ copy. copy.value ≡ map.now) }
{
    let pairs = map.pairs.clone()?;
    match Box::new(alloc, Map { pairs }) {
        Ok(whole) => Ok(whole),
        Err(_) => Err(AllocError),
    }
}

/// Replaces the contents of a map by the given pairs: of equal keys the last one stays. O(n log n),
/// and O(n) for sorted pairs. It fails only if an allocation fails; then the map is unchanged.
pub fn load_into(alloc: Global, map: &mut Map, given: &[Pair]) -> Result<(), AllocError>
    ensures ok { IfOk result (λ _. map.new ≡ pairs_gathered given.now) }
    ensures unchanged { OnErr result (map.new ≡ map.old) }
{
    map.pairs = pairs_gathered(alloc, given)?;
    Ok(())
}

fn pairs_gathered(
    alloc: Global,
    given: &[Pair],
) -> Result<BPlusTreeMap<u64, u64, Count>, AllocError>
    ensures { IfOk result (λ pairs. pairs ≡ pairs_gathered given.now) }
{
    let copied = tuples(alloc, given)?;
    BPlusTreeMap::from_iter(alloc, copied)
}

fn tuples(alloc: Global, given: &[Pair]) -> Result<Vec<(u64, u64)>, AllocError>
    ensures { IfOk result (λ copied. copied.items ≡ each as_tuple given.now) }
{
    let mut copied = Vec::with_capacity(alloc, given.len())?;
    let mut rest = given;
    while let Some((pair, tail)) = rest.split_first() {
        copied.push((pair.key, pair.value))?;
        rest = tail;
    }
    Ok(copied)
}

/// Makes a map with no pairs. O(1). It fails only if an allocation fails.
pub fn empty_map(alloc: Global) -> Result<Box<Map>, AllocError>
    ensures { IfOk result (λ whole. whole.value ≡ []) }
{
    let pairs = BPlusTreeMap::new(alloc)?;
    match Box::new(alloc, Map { pairs }) {
        Ok(whole) => Ok(whole),
        Err(_) => Err(AllocError),
    }
}

/// Removes all pairs, and returns whether no allocation failed. It allocates one node first; if that
/// fails, the map is unchanged. O(n).
pub fn clear_in(map: &mut Map) -> bool
    ensures cleared { IsTrue result → map.new ≡ [] }
    ensures no_memory { result ≡ false → map.new ≡ map.old }
{
    map.pairs.clear().is_ok()
}
