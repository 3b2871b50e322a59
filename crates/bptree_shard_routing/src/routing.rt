//! The shard that serves a call.
ghost use Rattle.std.specs.Prelude.{◌≡◌, ◌≤◌, length};
ghost use Rattle.std.specs.Option.{option_copied};
ghost use Rattle.bptree_shard_routing.specs.Shards.{shard_of, shard_below, bounds_before, first_shard, last_shard};

use bptree_keys::key::Key;
use std::cmp::Ordering;

// The number of bounds before the first one that is above a key. With `or_equals` a bound that
// equals the key ends the count too.
fn count_bounds<K: Key>(bounds: &[K], k: &K, or_equals: bool) -> usize
    ensures count { result ≡ bounds_before K.cmp or_equals bounds.now k.now }
    ensures in_range { result ≤ length bounds.now }
{
    let mut rest = bounds;
    let mut at = 0;
    while let Some((bound, tail)) = rest.split_first() {
        let ends = match k.cmp(bound) {
            Ordering::Less => true,
            Ordering::Equal => or_equals,
            Ordering::Greater => false,
        };
        if ends {
            return at;
        }
        at += 1;
        rest = tail;
    }
    at
}

/// The index of the shard that has a key, or would have it. A key that equals a bound belongs to
/// the shard behind the bound. O(s) for s shards: the key is compared with each bound up to the
/// first one above it. It allocates nothing.
pub fn route<K: Key>(bounds: &[K], k: &K) -> usize
    ensures shard { result ≡ shard_of K.cmp bounds.now k.now }
    ensures in_range { result ≤ length bounds.now }
{
    count_bounds(bounds, k, false)
}

/// The index of the last shard that may have a key below `k`. A shard that begins with `k` has no
/// such key. O(s) for s shards. It allocates nothing.
pub fn route_below<K: Key>(bounds: &[K], k: &K) -> usize
    ensures shard { result ≡ shard_below K.cmp bounds.now k.now }
    ensures in_range { result ≤ length bounds.now }
{
    count_bounds(bounds, k, true)
}

/// The indices of the first and of the last shard that may have pairs between two keys: from `lo`
/// on, and below `hi`, if they are given. If the first is behind the last, no shard has such a
/// pair. O(s) for s shards. It allocates nothing.
pub fn route_range<K: Key>(bounds: &[K], lo: Option<&K>, hi: Option<&K>) -> (usize, usize)
    ensures first { result.0 ≡ first_shard K.cmp bounds.now (option_copied lo.entry) }
    ensures last { result.1 ≡ last_shard K.cmp bounds.now (option_copied hi.entry) }
    ensures first_in_range { result.0 ≤ length bounds.now }
    ensures last_in_range { result.1 ≤ length bounds.now }
{
    let first = match lo {
        None => 0,
        Some(k) => route(bounds, k),
    };
    let last = match hi {
        None => bounds.len(),
        Some(k) => route_below(bounds, k),
    };
    (first, last)
}
