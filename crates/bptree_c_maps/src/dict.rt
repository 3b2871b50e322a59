//! The calls of a map from byte strings to numbers. A look-up compares the caller's bytes in place:
//! it allocates nothing and cannot fail.
ghost use Rattle.std.specs.Prelude.{◌≡◌, ◌++◌, [], None, Ok, IfOk, OnErr, IsOk, IsTrue, false, length, slice_get, take, drop};
ghost use Rattle.std.specs.Map.{keys_of};
ghost use Rattle.std.specs.Map.Iter.{deref_pair};
ghost use Rattle.std.specs.Option.{option_map};
ghost use Rattle.bptree_arguments.specs.CountLaws.{count_below};
ghost use Rattle.bptree_c_maps.specs.ByteKeys.{by_bytes};
ghost use Rattle.bptree_c_maps.specs.Dict.{WritesPair};
ghost use Rattle.bptree_keys.specs.Contents.{has, last_member, next, previous, value};
ghost use Rattle.bptree_tree.specs.Changes.{Puts, Removes};

use crate::bytes::{Bytes, View};
use crate::dict_handle::Dict;
use bptree_map::map::BPlusTreeMap;
use bptree_probes::changing::{remove_by, replace_by};
use bptree_probes::reading::{get_by, has_by, next_by, previous_by, rank_by};
use std::alloc::{AllocError, Global};

/// Copies a map. O(n). It fails only if an allocation fails.
pub fn copy_of(alloc: Global, dict: &Dict) -> Result<Box<Dict>, AllocError>
    ensures { IfOk result (λ copy. copy.value ≡ dict.now) }
{
    let pairs = dict.pairs.clone()?;
    match Box::new(alloc, Dict { pairs }) {
        Ok(whole) => Ok(whole),
        Err(_) => Err(AllocError),
    }
}

/// Returns the value at a key, or `None`. O(log n). It allocates nothing and cannot fail.
pub fn value_in(dict: &Dict, key: &[u8]) -> Option<u64>
    ensures { result ≡ value by_bytes dict.now key.now }
{
    get_by(&dict.pairs, &View::of(key)).copied()
}

/// Returns whether a key is present, and the number of smaller keys. O(log n). It allocates nothing
/// and cannot fail.
pub fn rank_in(dict: &Dict, key: &[u8]) -> (bool, usize)
    ensures there { result.0 ≡ has by_bytes dict.now key.now }
    ensures rank { result.1 ≡ count_below by_bytes key.now (keys_of dict.now) }
{
    match rank_by(&dict.pairs, &View::of(key)) {
        Ok(rank) => (true, rank),
        Err(rank) => (false, rank),
    }
}

/// Stores a value at a key, and returns the value that it replaces. The key is copied first, so that
/// one descent serves a present key and an absent one. If the copy fails, the value of a present key
/// is replaced in place. O(log n). It fails only if an allocation fails, and never for a key that is
/// present; then the map is unchanged.
pub fn put_in(
    alloc: Global,
    dict: &mut Dict,
    key: &[u8],
    new: u64,
) -> Result<Option<u64>, AllocError>
    ensures ok { IfOk result (Puts by_bytes key.now new dict.old dict.new) }
    ensures present { IsTrue (has by_bytes dict.old key.now) → IsOk result }
    ensures unchanged { OnErr result (dict.new ≡ dict.old) }
{
    match Bytes::copy_of(alloc, key) {
        Ok(own) => insert_in(dict, own, new),
        Err(_) => replace_in(dict, key, new),
    }
}

fn insert_in(dict: &mut Dict, key: Bytes, new: u64) -> Result<Option<u64>, AllocError>
    ensures ok { IfOk result (Puts by_bytes key new dict.old dict.new) }
    ensures present { IsTrue (has by_bytes dict.old key) → IsOk result }
    ensures unchanged { OnErr result (dict.new ≡ dict.old) }
{
    match dict.pairs.insert(key, new) {
        Ok(old) => Ok(old),
        Err(_) => Err(AllocError),
    }
}

fn replace_in(dict: &mut Dict, key: &[u8], new: u64) -> Result<Option<u64>, AllocError>
    ensures ok { IfOk result (Puts by_bytes key.now new dict.old dict.new) }
    ensures present { IsTrue (has by_bytes dict.old key.now) → IsOk result }
    ensures unchanged { OnErr result (dict.new ≡ dict.old) }
{
    match replace_by(&mut dict.pairs, &View::of(key), new) {
        Ok(was) => Ok(Some(was)),
        Err(_) => Err(AllocError),
    }
}

/// Removes a key, and returns its value, or `None`. The key is copied first, so that one descent
/// finds and removes it. If the copy fails, the key is removed by its rank, with two descents.
/// O(log n). It fails only if a copy of a key fails, and never for an absent key; then the map is
/// unchanged.
pub fn del_in(alloc: Global, dict: &mut Dict, key: &[u8]) -> Result<Option<u64>, AllocError>
    ensures ok { IfOk result (Removes by_bytes key.now dict.old dict.new) }
    ensures absent { has by_bytes dict.old key.now ≡ false → result ≡ Ok None }
    ensures unchanged { OnErr result (dict.new ≡ dict.old) }
{
    match Bytes::copy_of(alloc, key) {
        Ok(own) => dict.pairs.remove(&own),
        Err(_) => remove_by(&mut dict.pairs, &View::of(key)),
    }
}

/// Returns whether there is a pair. If there is one, its key is copied and its value written. O(k)
/// for k bytes of the key. It allocates nothing and cannot fail.
pub fn write_pair(
    pair: Option<(&Bytes, &u64)>,
    out: &mut [u8],
    len: &mut usize,
    value: &mut u64,
) -> bool
    ensures { WritesPair (option_map deref_pair pair.entry) result (out.old, len.old, value.old) (out.new, len.new, value.new) }
{
    match pair {
        Some((key, it)) => {
            *len = copy(key.as_slice(), out);
            *value = *it;
            true
        }
        None => false,
    }
}

// Copies as many bytes as `out` has room for, and returns the number of bytes of the key.
pub(crate) fn copy(key: &[u8], out: &mut [u8]) -> usize
    ensures copied { out.new ≡ take (length out.old) key.now ++ drop (length key.now) out.old }
    ensures whole { result ≡ length key.now }
{
    let count = key.len().min(out.len());
    out[..count].copy_from_slice(&key[..count]);
    key.len()
}

/// Makes a map with no pairs. O(1). It fails only if an allocation fails.
pub fn empty_dict(alloc: Global) -> Result<Box<Dict>, AllocError>
    ensures { IfOk result (λ whole. whole.value ≡ []) }
{
    let pairs = BPlusTreeMap::new(alloc)?;
    match Box::new(alloc, Dict { pairs }) {
        Ok(whole) => Ok(whole),
        Err(_) => Err(AllocError),
    }
}

/// Removes all pairs, and returns whether no allocation failed. It allocates one node first; if that
/// fails, the map is unchanged. O(n).
pub fn clear_in(dict: &mut Dict) -> bool
    ensures cleared { IsTrue result → dict.new ≡ [] }
    ensures no_memory { result ≡ false → dict.new ≡ dict.old }
{
    dict.pairs.clear().is_ok()
}

/// Returns the number of pairs. O(1). It allocates nothing and cannot fail.
pub fn len_in(dict: &Dict) -> usize
    ensures { result ≡ length dict.now }
{
    dict.pairs.len()
}

/// Returns whether a key is present. O(log n). It allocates nothing and cannot fail.
pub fn has_in(dict: &Dict, key: &[u8]) -> bool
    ensures { result ≡ has by_bytes dict.now key.now }
{
    has_by(&dict.pairs, &View::of(key))
}

/// Returns the pair with the least key, or `None`. O(log n). It allocates nothing and cannot fail.
pub fn first_in(dict: &Dict) -> Option<(&Bytes, &u64)>
    ensures { option_map deref_pair result ≡ slice_get dict.now 0 }
{
    dict.pairs.first()
}

/// Returns the pair with the greatest key, or `None`. O(log n). It allocates nothing and cannot
/// fail.
pub fn last_in(dict: &Dict) -> Option<(&Bytes, &u64)>
    ensures { option_map deref_pair result ≡ last_member dict.now }
{
    dict.pairs.last()
}

/// Returns the pair at an index in the order of the keys, or `None`. O(log n). It allocates nothing
/// and cannot fail.
pub fn at_in(dict: &Dict, index: usize) -> Option<(&Bytes, &u64)>
    ensures { option_map deref_pair result ≡ slice_get dict.now index }
{
    dict.pairs.get_index(index)
}

/// Returns the pair with the least greater key, or `None`. O(log n). It allocates nothing and cannot
/// fail.
pub fn next_in<'a>(dict: &'a Dict, key: &[u8]) -> Option<(&'a Bytes, &'a u64)>
    ensures { option_map deref_pair result ≡ next by_bytes dict.now key.now }
{
    next_by(&dict.pairs, &View::of(key))
}

/// Returns the pair with the greatest smaller key, or `None`. O(log n). It allocates nothing and
/// cannot fail.
pub fn prev_in<'a>(dict: &'a Dict, key: &[u8]) -> Option<(&'a Bytes, &'a u64)>
    ensures { option_map deref_pair result ≡ previous by_bytes dict.now key.now }
{
    previous_by(&dict.pairs, &View::of(key))
}
