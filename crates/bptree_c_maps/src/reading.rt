//! Calls that read a map of numbers. These calls cannot fail, allocate nothing, and write neither
//! to the map nor to its handle.
ghost use Rattle.std.specs.Prelude.{◌≡◌, Some, length, slice_get};
ghost use Rattle.std.specs.Map.{keys_of};
ghost use Rattle.std.specs.Option.{option_map};
ghost use Rattle.std.specs.Ordering.{nat_cmp};
ghost use Rattle.bptree_arguments.specs.CountLaws.{count_below};
ghost use Rattle.bptree_c_maps.specs.Pairs.{IsWritten};
ghost use Rattle.bptree_keys.specs.Contents.{has, last_member, value, next, previous};
ghost use Rattle.bptree_keys.specs.Ranges.{between};
ghost use Rattle.std.specs.Map.Iter.{deref_pair};

use crate::handle::Map;
use crate::number::Number;
use crate::pair::Pair;
use bptree_probes::reading::{next_by, previous_by};
use bptree_probes::uncached::{get_uncached, has_uncached};

/// Returns the value at a key, or `None`. O(log n). It allocates nothing and cannot fail.
pub fn value_in(map: &Map, key: u64) -> Option<u64>
    ensures { result ≡ value nat_cmp map.now key }
{
    get_uncached(&map.pairs, &key).copied()
}

/// Returns the pair with the least key, or `None`. O(log n). It allocates nothing and cannot fail.
pub fn first_in(map: &Map) -> Option<(u64, u64)>
    ensures { result ≡ slice_get map.now 0 }
{
    owned(map.pairs.first())
}

// The pair that two references point to.
fn owned(pair: Option<(&u64, &u64)>) -> Option<(u64, u64)>
    ensures { result ≡ option_map deref_pair pair.entry }
{
    match pair {
        Some((key, value)) => Some((*key, *value)),
        None => None,
    }
}

/// Returns whether there is a pair. A pair is written if there is one; otherwise nothing is
/// written. O(1). It allocates nothing and cannot fail.
pub fn write_pair(found: Option<(u64, u64)>, pair: &mut Pair) -> bool
    ensures { IsWritten found result pair.old pair.new }
{
    match found {
        Some((key, value)) => {
            *pair = Pair { key, value };
            true
        }
        None => false,
    }
}

/// Returns the pair with the greatest key, or `None`. O(log n). It allocates nothing and cannot
/// fail.
pub fn last_in(map: &Map) -> Option<(u64, u64)>
    ensures { result ≡ last_member map.now }
{
    owned(map.pairs.last())
}

/// Returns the pair with the least greater key, or `None`. O(log n). It allocates nothing and
/// cannot fail.
pub fn next_in(map: &Map, key: u64) -> Option<(u64, u64)>
    ensures { result ≡ next nat_cmp map.now key }
{
    owned(next_by(&map.pairs, &Number { key }))
}

/// Returns the pair with the greatest smaller key, or `None`. O(log n). It allocates nothing and
/// cannot fail.
pub fn prev_in(map: &Map, key: u64) -> Option<(u64, u64)>
    ensures { result ≡ previous nat_cmp map.now key }
{
    owned(previous_by(&map.pairs, &Number { key }))
}

/// Returns the pair at an index in the order of the keys, or `None`. O(log n). It allocates nothing
/// and cannot fail.
pub fn at_in(map: &Map, index: usize) -> Option<(u64, u64)>
    ensures { result ≡ slice_get map.now index }
{
    owned(map.pairs.get_index(index))
}

/// Returns whether a key is present, and the number of smaller keys. O(log n). It allocates nothing
/// and cannot fail.
pub fn rank_in(map: &Map, key: u64) -> (bool, usize)
    ensures there { result.0 ≡ has nat_cmp map.now key }
    ensures rank { result.1 ≡ count_below nat_cmp key (keys_of map.now) }
{
    match map.pairs.rank_by_argument(&key) {
        Ok(Ok(rank)) => (true, rank),
        Ok(Err(rank)) => (false, rank),
        Err(_) => unreachable!(),
    }
}

/// Returns the number of pairs. O(1). It allocates nothing and cannot fail.
pub fn len_in(map: &Map) -> usize
    ensures { result ≡ length map.now }
{
    map.pairs.len()
}

/// Returns whether a key is present. O(log n). It allocates nothing and cannot fail.
pub fn has_in(map: &Map, key: u64) -> bool
    ensures { result ≡ has nat_cmp map.now key }
{
    has_uncached(&map.pairs, &key)
}

/// Returns the number of keys that are at least `from` and less than `to`. O(log n). It allocates
/// nothing and cannot fail.
pub fn range_len_in(map: &Map, from: u64, to: u64) -> usize
    ensures { result ≡ length (between nat_cmp map.now (Some from) (Some to)) }
{
    map.pairs.range_len(Some(&from), Some(&to))
}
