//! One map over several shards.
ghost use Rattle.std.specs.Prelude.{◌≡◌, ◌+◌, ◌^◌, ◌<◌, ◌≤◌, List, length, vec_len, vec_capacity, map, take, insert, slice_get, true, false, Ok, None, if◌then◌else◌, IfOk, IfErr, OnOk, OnErr, IsOk, IsTrue};
ghost use Rattle.std.specs.List.{sum};
ghost use Rattle.std.specs.Option.{option_copied, option_map};
ghost use Rattle.bptree_keys.specs.Contents.{IsAscending, has, value, put, del, next, previous, pairs_below, last_member};
ghost use Rattle.bptree_keys.specs.Pieces.{flatten};
ghost use Rattle.bptree_keys.specs.Ranges.{between, part};
ghost use Rattle.bptree_shard_routing.specs.Lengths.{lengths_of};
ghost use Rattle.bptree_shard_routing.specs.Shards.{AreShards, back_from};
ghost use Rattle.bptree_sharded_map.specs.Shown.{Shows, ShowsBetween};
ghost use Rattle.bptree_sharded_map.specs.Failures.{ShardHasRoom, InOwnShard, NoMemoryOnlyIf};
ghost use Rattle.bptree_sharded_map.specs.Whole.{MergesBounds, bounds_with, contents, descends_at, last_pair_before};
ghost use Rattle.bptree_tree.specs.Changes.{FailsIfFull};
ghost use Rattle.bptree_tree.specs.Returning.{pair_of};
ghost use Rattle.std.specs.Map.Iter.{deref_pair};

use crate::shard::Shard;
use bptree_keys::key::Key;
use bptree_shard_routing::combining::{
    len_of_whole, locate, next_full, next_part, prev_full, rank_of_whole,
};
use bptree_shard_routing::routing::{route, route_below, route_range};
use bptree_tree::{AppendError, InsertError};
use std::alloc::{AllocError, Global};
use std::marker::Model;

// Inserts an element at an index, if there is room.
fn insert_reserved<T: Drop>(to: &mut Vec<T>, at: usize, element: T)
    requires within { at ≤ vec_len to.old }
    requires fits { vec_len to.old < vec_capacity to.old }
    ensures { to.new.items ≡ insert to.old.items at element }
{
    to.insert(at, element).unwrap();
}

// Whether a bound is above the next one.
fn descends<K: Key>(bounds: &[K], at: usize) -> bool
    requires { at < length bounds.now }
    ensures value { result ≡ descends_at K.cmp bounds.now at }
    ensures next { result ≡ true → at + 1 < length bounds.now }
{
    if at + 1 == bounds.len() {
        return false;
    }
    bounds[at].cmp(&bounds[at + 1]).is_gt()
}

// The index of the bound that is removed when a shard and the next one become one. It is the bound
// between them. If that is above the bound behind it, the next shard is empty, and the bound behind
// it is removed.
fn bound_to_go<K: Key>(bounds: &[K], shard: usize) -> usize
    requires { shard < length bounds.now }
    ensures bound { result ≡ (if descends_at K.cmp bounds.now shard then shard + 1 else shard) }
    ensures in_range { result < length bounds.now }
{
    if descends(bounds, shard) {
        return shard + 1;
    }
    shard
}

// The last pair of the shards before `end`.
#[tactic(auto, using(crate::proofs::Asked::last_none, crate::proofs::Asked::in_lengths))]
fn last_before<'a, S: Shard>(
    shards: &'a [S],
    lengths: &[usize],
    end: usize,
) -> Option<(&'a S::K, &'a S::V)>
    requires counted { lengths.now ≡ lengths_of (map (λ shard. S.pairs shard) shards.now) }
    requires in_range { end ≤ length shards.now }
    ensures { option_map deref_pair result ≡ last_pair_before S.pairs shards.now end }
{
    match prev_full(lengths, end) {
        None => None,
        Some(shard) => shards[shard].at(lengths[shard] - 1),
    }
}

// Whether a new key has no room: all shards together have the greatest length, and the shard of the
// key does not have the key.
fn lacks_room<S: Shard>(counts: &[usize], own: &S, k: &S::K) -> bool
    requires { sum counts.now < 2 ^ 64 }
    ensures full { result ≡ true → sum counts.now ≡ usize.MAX }
    ensures absent { result ≡ true → has S.K.cmp (S.pairs own.now) k.now ≡ false }
    ensures room { result ≡ false → ShardHasRoom (sum counts.now) (has S.K.cmp (S.pairs own.now) k.now) }
{
    if len_of_whole(counts) < usize::MAX {
        return false;
    }
    own.get(k).is_none()
}

/// Several shards that are one map. Their bounds and the numbers of their pairs determine which
/// shards a call uses, and each call uses as few of them as it can.
#[derive(Drop)]
pub struct Shards<S: Shard> {
    bounds: Vec<S::K>,
    shards: Vec<S>,
    lengths: Vec<usize>,
}

impl<S: Shard> Model for Shards<S> {
    ghost use Rattle.std.specs.Prelude.{map};
    ghost use Rattle.bptree_sharded_map.specs.Whole.{IsWholeOfShards, Partition};

    ghost Value = { Partition S.K S.V };

    ghost view = { λ it. record { bounds = it.bounds.items; shards = map (λ shard. S.pairs shard) it.shards.items } };

    ghost invariant = { λ it. IsWholeOfShards S.K.cmp it.bounds.items (map (λ shard. S.pairs shard) it.shards.items) it.lengths.items };
}

impl<S: Shard> Shards<S> {
    /// The whole over shards that are cut at bounds.
    ///
    /// O(s) for s shards: it calls `len` of each. It allocates the list of the lengths, and fails
    /// only if an allocation fails.
    pub fn new(alloc: Global, bounds: Vec<S::K>, shards: Vec<S>) -> Result<Self, AllocError>
        requires are { AreShards S.K.cmp bounds.items (map (λ shard. S.pairs shard) shards.items) }
        requires fits { length (flatten (map (λ shard. S.pairs shard) shards.items)) < 2 ^ 64 }
        ensures bounds { IfOk result (λ it. it.bounds ≡ bounds.items) }
        ensures shards { IfOk result (λ it. it.shards ≡ map (λ shard. S.pairs shard) shards.items) }
    {
        let mut lengths = Vec::new(alloc);
        for shard in &shards {
            lengths.push(shard.len())?;
        }
        Ok(Shards {
            bounds,
            shards,
            lengths,
        })
    }

    /// The number of pairs.
    ///
    /// O(s) for s shards. It calls no shard, allocates nothing and cannot fail.
    pub fn len(&self) -> usize
        ensures value { result ≡ length (contents self.now) }
        ensures ascending { IsAscending S.K.cmp (contents self.now) }
    {
        len_of_whole(&self.lengths)
    }

    /// Recalls what holds of every list over shards, for the proofs of callers: the keys ascend,
    /// and each shard has the keys between its bounds. It does nothing.
    ///
    /// O(s) for s shards at most. It calls no shard, allocates nothing and cannot fail.
    #[inline(always)]
    pub fn recall(&self)
        ensures ascending { IsAscending S.K.cmp (contents self.now) }
        ensures cut { AreShards S.K.cmp self.now.bounds self.now.shards }
    {
        let _bounds = self.bounds();
        let _len = self.len();
    }

    /// The number of pairs of each shard, in the order of the shards.
    ///
    /// O(1). It calls no shard, allocates nothing and cannot fail.
    pub fn lengths(&self) -> &[usize]
        ensures each { result.now ≡ lengths_of self.now.shards }
        ensures total { sum result.now ≡ length (contents self.now) }
    {
        &self.lengths
    }

    /// The keys at which the shards are cut: one fewer than there are shards.
    ///
    /// O(1). It calls no shard, allocates nothing and cannot fail.
    pub fn bounds(&self) -> &[S::K]
        ensures value { result.now ≡ self.now.bounds }
        ensures cut { AreShards S.K.cmp self.now.bounds self.now.shards }
    {
        &self.bounds
    }

    /// The value at a key, or `None`.
    ///
    /// O(s) for s shards, and what `get` of the key's shard costs. It cannot fail.
    #[tactic(auto, using(crate::proofs::Asked::routing))]
    pub fn get(&self, k: &S::K) -> Option<&S::V>
        ensures { option_copied result ≡ value S.K.cmp (contents self.now) k.now }
    {
        self.shards[route(&self.bounds, k)].get(k)
    }

    /// Puts a value at a key, and returns the value that was there.
    ///
    /// O(s) for s shards, and what `put` of the key's shard costs. If the key is present, its value
    /// is replaced, and the call never fails. A new key fails with `Full` exactly if the whole has
    /// `usize::MAX` pairs, and with `OutOfMemory` only if an allocation in its shard fails. On an
    /// error nothing changes, and the error contains the pair.
    #[tactic(auto, using(crate::proofs::Asked::routing))]
    pub fn put(&mut self, k: S::K, v: S::V) -> Result<Option<S::V>, InsertError<S::K, S::V>>
        ensures old { IfOk result (λ old. old ≡ value S.K.cmp (contents self.old) k) }
        ensures ok { IfOk result (λ _. contents self.new ≡ put S.K.cmp (contents self.old) k v) }
        ensures bounds { self.new.bounds ≡ self.old.bounds }
        ensures present { IsTrue (has S.K.cmp (contents self.old) k) → IsOk result }
        ensures full { FailsIfFull S.K.cmp usize.MAX (contents self.old) k v result }
        ensures memory { IfErr result (NoMemoryOnlyIf (InOwnShard S.K.cmp S.can_fail self.old k)) }
        ensures returned { IfErr result (λ error. pair_of error ≡ (k, v)) }
        ensures unchanged { OnErr result (self.new ≡ self.old) }
    {
        let at = route(&self.bounds, &k);
        if lacks_room(&self.lengths, &self.shards[at], &k) {
            return Err(InsertError::Full(k, v));
        }
        let old = match self.shards[at].put(k, v) {
            Ok(old) => old,
            Err(error) => return Err(error),
        };
        self.lengths[at] = self.shards[at].len();
        Ok(old)
    }

    /// Removes the pair at a key, and returns its value, or `None`.
    ///
    /// O(s) for s shards, and what `del` of the key's shard costs. If the key is absent, nothing
    /// changes, and the call never fails. If an allocation in the shard fails, nothing changes.
    #[tactic(auto, using(crate::proofs::Asked::routing))]
    pub fn del(&mut self, k: &S::K) -> Result<Option<S::V>, AllocError>
        ensures old { IfOk result (λ old. old ≡ value S.K.cmp (contents self.old) k.now) }
        ensures ok { IfOk result (λ _. contents self.new ≡ del S.K.cmp (contents self.old) k.now) }
        ensures bounds { self.new.bounds ≡ self.old.bounds }
        ensures absent { has S.K.cmp (contents self.old) k.now ≡ false → result ≡ Ok None }
        ensures memory { OnErr result (InOwnShard S.K.cmp S.can_fail self.old k.now) }
        ensures unchanged { OnErr result (self.new ≡ self.old) }
    {
        let at = route(&self.bounds, k);
        let old = self.shards[at].del(k)?;
        self.lengths[at] = self.shards[at].len();
        Ok(old)
    }

    /// The number of smaller keys.
    ///
    /// O(s) for s shards, and what `rank` of the key's shard costs. It cannot fail.
    #[tactic(auto, using(crate::proofs::Asked::routing))]
    pub fn rank(&self, k: &S::K) -> usize
        ensures { result ≡ length (pairs_below S.K.cmp (contents self.now) k.now) }
    {
        let at = route(&self.bounds, k);
        let own = self.shards[at].rank(k);
        rank_of_whole(&self.lengths, at, own)
    }

    /// The pair at an index, counted from 0, or `None`.
    ///
    /// O(s) for s shards, and what `at` of the shard that has the pair costs. It cannot fail.
    pub fn at(&self, index: usize) -> Option<(&S::K, &S::V)>
        ensures { option_map deref_pair result ≡ slice_get (contents self.now) index }
    {
        match locate(&self.lengths, index) {
            None => None,
            Some((shard, own)) => self.shards[shard].at(own),
        }
    }

    /// The pair with the least key, or `None`.
    ///
    /// O(s) for s shards, and what `at` of the first shard with a pair costs. It cannot fail.
    pub fn first(&self) -> Option<(&S::K, &S::V)>
        ensures { option_map deref_pair result ≡ slice_get (contents self.now) 0 }
    {
        self.at(0)
    }

    /// The pair with the greatest key, or `None`.
    ///
    /// O(s) for s shards, and what `at` of the last shard with a pair costs. It cannot fail.
    pub fn last(&self) -> Option<(&S::K, &S::V)>
        ensures { option_map deref_pair result ≡ last_member (contents self.now) }
    {
        last_before(&self.shards, &self.lengths, self.shards.len())
    }

    /// The pair with the least greater key, or `None`.
    ///
    /// O(s) for s shards, and what `next` of the key's shard costs. If that has no greater key, it
    /// also calls `at` of the first shard behind it that has a pair. It cannot fail.
    #[tactic(auto, using(crate::proofs::Asked::routing))]
    pub fn next(&self, k: &S::K) -> Option<(&S::K, &S::V)>
        ensures { option_map deref_pair result ≡ next S.K.cmp (contents self.now) k.now }
    {
        let at = route(&self.bounds, k);
        let own = self.shards[at].next(k);
        if own.is_some() {
            return own;
        }
        match next_full(&self.lengths, at) {
            None => None,
            Some(behind) => self.shards[behind].at(0),
        }
    }

    /// The pair with the greatest smaller key, or `None`.
    ///
    /// O(s) for s shards, and what `prev` of the last shard that may have such a key costs. If that
    /// has none of them, it also calls `at` of the last shard before it that has a pair. It cannot
    /// fail.
    #[tactic(auto, using(crate::proofs::Asked::below_routed_within))]
    pub fn prev(&self, k: &S::K) -> Option<(&S::K, &S::V)>
        ensures { option_map deref_pair result ≡ previous S.K.cmp (contents self.now) k.now }
    {
        let at = route_below(&self.bounds, k);
        match self.shards[at].prev(k) {
            Some(pair) => Some(pair),
            None => last_before(&self.shards, &self.lengths, at),
        }
    }

    /// At most `n` pairs from an index on.
    ///
    /// For each shard that has one of them it takes O(s), for s shards in all, and one `page` of
    /// that shard. It fails only if an allocation fails.
    pub fn page(
        &self,
        alloc: Global,
        index: usize,
        n: usize,
    ) -> Result<Vec<(&S::K, &S::V)>, AllocError>
        ensures { IfOk result (Shows (part (contents self.now) index n)) }
    {
        let mut found = Vec::new(alloc);
        let mut from = index;
        let mut left = n;
        while let Some(part) = next_part(&self.lengths, from, left) {
            self.shards[part.shard].page(part.from, part.count, &mut found)?;
            from += part.count;
            left -= part.count;
        }
        Ok(found)
    }

    /// At most `n` of the pairs whose keys are not below `lo` and are below `hi`, if they are
    /// given, the least first.
    ///
    /// O(s) for s shards, and what `range` of each shard that it calls costs. It calls the shards
    /// that may have one of the pairs, in their order, until it has `n` pairs, and skips those
    /// without pairs. It fails only if an allocation fails.
    pub fn range<'b>(
        &self,
        alloc: Global,
        lo: Option<&'b S::K>,
        hi: Option<&'b S::K>,
        n: usize,
    ) -> Result<Vec<(&S::K, &S::V)>, AllocError>
        ensures { IfOk result (ShowsBetween S.K.cmp (contents self.now) lo.entry hi.entry n) }
    {
        let mut found = Vec::new(alloc);
        let (first, last) = route_range(&self.bounds, lo, hi);
        for shard in first..last + 1 {
            if found.len() >= n {
                return Ok(found);
            }
            if self.lengths[shard] == 0 {
                continue;
            }
            self.shards[shard].range(lo, hi, n - found.len(), &mut found)?;
        }
        Ok(found)
    }

    /// At most `n` of the pairs whose keys are not above `k`, the greatest first.
    ///
    /// It costs what `back` of the key's shard costs, and then what `page` of the pairs before that
    /// shard costs: O(s) for each shard that has one of them, for s shards in all. It fails only if
    /// an allocation fails.
    #[tactic(auto, using(crate::proofs::Asked::routing))]
    pub fn back(&self, alloc: Global, k: &S::K, n: usize) -> Result<Vec<(&S::K, &S::V)>, AllocError>
        ensures { IfOk result (Shows (take n (back_from S.K.cmp (contents self.now) k.now))) }
    {
        let at = route(&self.bounds, k);
        let mut found = Vec::new(alloc);
        self.shards[at].back(k, n, &mut found)?;
        let end = rank_of_whole(&self.lengths, at, 0);
        let count = end.min(n - found.len());
        let mut rest = self.page(alloc, end - count, count)?;
        rest.reverse();
        found.append(&mut rest)?;
        Ok(found)
    }

    /// Cuts the shard of a key in two at that key, which becomes a bound. The list of pairs is
    /// unchanged.
    ///
    /// O(s) for s shards, and what `split_off` of the shard costs. It allocates room for one more
    /// shard, and fails only if this allocation or `split_off` fails; then nothing changes.
    #[tactic(auto, using(crate::proofs::Asked::routed_within))]
    pub fn split(&mut self, k: S::K) -> Result<(), AllocError>
        ensures ok { OnOk result (contents self.new ≡ contents self.old) }
        ensures cut { OnOk result (self.new.bounds ≡ bounds_with S.K.cmp self.old.bounds k) }
        ensures unchanged { OnErr result (self.new ≡ self.old) }
    {
        self.bounds.reserve(1)?;
        self.shards.reserve(1)?;
        self.lengths.reserve(1)?;
        let at = route(&self.bounds, &k);
        let there = self.shards[at].split_off(&k)?;
        self.lengths[at] = self.shards[at].len();
        insert_reserved(&mut self.lengths, at + 1, there.len());
        insert_reserved(&mut self.shards, at + 1, there);
        insert_reserved(&mut self.bounds, at, k);
        Ok(())
    }

    /// Makes one shard of a shard and the next one, by the index of the first of them. It removes
    /// the bound between them, or the one behind it if that is the lesser. The list of pairs is
    /// unchanged. If there is no next shard, nothing changes.
    ///
    /// O(s) for s shards, and what `append` of the shard costs. It fails only if `append` fails;
    /// then nothing changes.
    pub fn merge(&mut self, shard: usize) -> Result<(), AppendError>
        ensures ok { OnOk result (contents self.new ≡ contents self.old) }
        ensures merged { OnOk result (MergesBounds S.K.cmp shard self.old self.new) }
        ensures past { length self.old.bounds ≤ shard → IsOk result × (self.new ≡ self.old) }
        ensures unchanged { OnErr result (self.new ≡ self.old) }
    {
        if shard >= self.bounds.len() {
            return Ok(());
        }
        let mut next = self.shards.remove(shard + 1);
        match self.shards[shard].append(&mut next) {
            Ok(()) => {}
            Err(error) => {
                insert_reserved(&mut self.shards, shard + 1, next);
                return Err(error);
            }
        }
        let bound = bound_to_go(&self.bounds, shard);
        self.bounds.remove(bound);
        self.lengths.remove(shard + 1);
        self.lengths[shard] = self.shards[shard].len();
        Ok(())
    }
}
