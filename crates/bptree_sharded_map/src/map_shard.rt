//! A map in memory that counts its keys, as a shard.
ghost use Rattle.std.specs.Prelude.{◌≡◌, ◌<◌, ◌^◌, [], length, take, IfOk};
ghost use Rattle.std.specs.Map.{keys_of};
ghost use Rattle.bptree_arguments.specs.CountLaws.{count_below};
ghost use Rattle.bptree_keys.specs.Contents.{IsAscending, has};
ghost use Rattle.bptree_keys.specs.Ends.{is_back};
ghost use Rattle.bptree_sharded_map.specs.Shown.{PushesAll, IsShownTaken, turned};
ghost use Rattle.bptree_sharded_map.specs.Whole.{contents};

use crate::shard::Shard;
use crate::whole::Shards;
use bptree_arguments::count::Count;
use bptree_keys::end::End;
use bptree_keys::key::Key;
use bptree_map::map::{BPlusTreeMap, Iter};
use bptree_shard_routing::laws::law_of_empty_shards;
use bptree_tree::{AppendError, InsertError};
use std::alloc::{AllocError, Global};
use std::ops::Bound;

// The number of smaller keys, and whether the key is present.
fn rank_in<K: Key, V: Drop>(map: &BPlusTreeMap<K, V, Count>, k: &K) -> (usize, bool)
    ensures rank { result.0 ≡ count_below K.cmp k.now (keys_of map.now) }
    ensures present { result.1 ≡ has K.cmp map.now k.now }
    ensures ascending { IsAscending K.cmp map.now }
    ensures small { length map.now < 2 ^ 64 }
{
    map.recall();
    match map.rank_by_argument(k) {
        Ok(Ok(rank)) => (rank, true),
        Ok(Err(rank)) => (rank, false),
        Err(_) => unreachable!(),
    }
}

// Takes the pair at an end of those that are left.
fn take_pair<'a, K: Key, V: Drop>(
    pairs: &mut Iter<'a, K, V, Count>,
    end: End,
) -> Option<(&'a K, &'a V)>
    ensures { IsShownTaken (turned (is_back end) pairs.old) result (turned (is_back end) pairs.new) }
{
    match end {
        End::Front => pairs.next(),
        End::Back => pairs.next_back(),
    }
}

// Pushes `n` of the pairs that are left to a vector, one after another from an end.
fn put_from<'a, K: Key, V: Drop>(
    pairs: Iter<'a, K, V, Count>,
    end: End,
    n: usize,
    found: &mut Vec<(&'a K, &'a V)>,
) -> Result<(), AllocError>
    ensures { PushesAll (take n (turned (is_back end) pairs.entry)) found.old found.new result }
{
    let mut pairs = pairs;
    for _ in 0..n {
        match take_pair(&mut pairs, end) {
            None => return Ok(()),
            Some(pair) => found.push(pair)?,
        }
    }
    Ok(())
}

/// A map with no pairs over empty maps, one more than there are bounds: their keys are cut at the
/// bounds.
///
/// O(s) for s shards. It fails only if an allocation fails.
pub fn empty_over<K: Key, V: Drop>(
    alloc: Global,
    bounds: Vec<K>,
) -> Result<Shards<BPlusTreeMap<K, V, Count>>, AllocError>
    ensures empty { IfOk result (λ whole. contents whole ≡ []) }
    ensures bounds { IfOk result (λ whole. whole.bounds ≡ bounds.items) }
{
    law_of_empty_shards::<K, V>();
    let mut maps = Vec::new(alloc);
    maps.push(BPlusTreeMap::new(alloc)?)?;
    for _ in 0..bounds.len() {
        maps.push(BPlusTreeMap::new(alloc)?)?;
    }
    Shards::new(alloc, bounds, maps)
}

impl<K: Key, V: Drop> Shard for BPlusTreeMap<K, V, Count> {
    type K = K;

    type V = V;

    ghost pairs = { λ map. map };

    fn len(&self) -> usize {
        BPlusTreeMap::len(self)
    }

    fn get(&self, k: &K) -> Option<&V> {
        BPlusTreeMap::get(self, k)
    }

    fn put(&mut self, k: K, v: V) -> Result<Option<V>, InsertError<K, V>> {
        self.insert(k, v)
    }

    fn del(&mut self, k: &K) -> Result<Option<V>, AllocError> {
        self.remove(k)
    }

    fn rank(&self, k: &K) -> usize {
        rank_in(self, k).0
    }

    fn at(&self, index: usize) -> Option<(&K, &V)> {
        self.get_index(index)
    }

    fn next(&self, k: &K) -> Option<(&K, &V)> {
        let (rank, present) = rank_in(self, k);
        if present {
            return self.get_index(rank + 1);
        }
        self.get_index(rank)
    }

    fn prev(&self, k: &K) -> Option<(&K, &V)> {
        let (rank, _) = rank_in(self, k);
        if rank == 0 {
            return None;
        }
        self.get_index(rank - 1)
    }

    fn page<'a>(
        &'a self,
        from: usize,
        count: usize,
        found: &mut Vec<(&'a K, &'a V)>,
    ) -> Result<(), AllocError> {
        let pairs = self.range_by_argument(from, count)?;
        put_from(pairs, End::Front, count, found)
    }

    fn range<'a, 'b>(
        &'a self,
        lo: Option<&'b K>,
        hi: Option<&'b K>,
        n: usize,
        found: &mut Vec<(&'a K, &'a V)>,
    ) -> Result<(), AllocError> {
        put_from(BPlusTreeMap::range(self, lo, hi), End::Front, n, found)
    }

    fn back<'a>(
        &'a self,
        k: &K,
        n: usize,
        found: &mut Vec<(&'a K, &'a V)>,
    ) -> Result<(), AllocError> {
        put_from(
            self.range_bounds(Bound::Unbounded, Bound::Included(k)),
            End::Back,
            n,
            found,
        )
    }

    fn split_off(&mut self, k: &K) -> Result<Self, AllocError> {
        BPlusTreeMap::split_off(self, k)
    }

    fn append(&mut self, other: &mut Self) -> Result<(), AppendError> {
        BPlusTreeMap::append(self, other)
    }
}
