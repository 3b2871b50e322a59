//! Callers of one map over shards. They use only the contracts of the map.
ghost use Rattle.std.specs.Prelude.{◌≡◌, ◌<◌, [], true, false, length, map, slice_get, IfOk, Ok, Some, None};
ghost use Rattle.std.specs.Map.Iter.{deref_pair};
ghost use Rattle.std.specs.Option.{option_copied, option_map};
ghost use Rattle.bptree_keys.specs.Contents.{has, value};
ghost use Rattle.bptree_keys.specs.Pieces.{flatten};
ghost use Rattle.bptree_shard_routing.specs.Shards.{AreShards};
ghost use Rattle.bptree_sharded_map.specs.Shown.{shown};
ghost use Rattle.bptree_sharded_map.specs.Whole.{bounds_merged, bounds_with, contents};
ghost use Rattle.bptree_tree.specs.Changes.{IsFull};
ghost use Rattle.sweep_bptree_contract_tests.specs.Sharded.{FindsAlike, GoBackFrom, ShardsNeverFail};

use bptree_keys::contents::{laws_of_del, laws_of_put};
use bptree_shard_routing::combining::len_of_whole;
use bptree_sharded_map::shard::Shard;
use bptree_sharded_map::whole::Shards;
use bptree_tree::InsertError;
use std::alloc::{AllocError, Global};

// A look-up finds what was put, whether or not the key was present.
fn finds_what_was_put<S: Shard>(whole: &mut Shards<S>, k: S::K, v: S::V) -> bool
    ensures { result ≡ true → value S.K.cmp (contents whole.new) k ≡ Some v }
{
    laws_of_put::<S::K, S::V>();
    whole.recall();
    whole.put(k, v).is_ok()
}

// A look-up does not find what was deleted.
fn finds_nothing_deleted<S: Shard>(whole: &mut Shards<S>, k: &S::K) -> bool
    ensures { result ≡ true → value S.K.cmp (contents whole.new) k.now ≡ None }
{
    laws_of_del::<S::K, S::V>();
    whole.recall();
    whole.del(k).is_ok()
}

// Shards without pairs are a whole without pairs, which has no first pair.
fn is_empty_over_empty_shards<S: Shard>(
    alloc: Global,
    bounds: Vec<S::K>,
    shards: Vec<S>,
) -> Result<(usize, bool), AllocError>
    requires are { AreShards S.K.cmp bounds.items (map (λ shard. S.pairs shard) shards.items) }
    requires empty { flatten (map (λ shard. S.pairs shard) shards.items) ≡ [] }
    ensures { IfOk result (λ outcome. outcome ≡ (0, true)) }
{
    let whole = Shards::new(alloc, bounds, shards)?;
    Ok((whole.len(), whole.first().is_none()))
}

// A page from index 0 on, with as many pairs as the whole has, is the whole.
fn page_of_all<S: Shard>(
    alloc: Global,
    whole: &Shards<S>,
) -> Result<Vec<(&S::K, &S::V)>, AllocError>
    ensures { IfOk result (λ found. shown found.items ≡ contents whole.now) }
{
    whole.page(alloc, 0, whole.len())
}

// The first `n` pairs, followed by those from index `n` on, are the whole.
fn two_pages<S: Shard>(
    alloc: Global,
    whole: &Shards<S>,
    n: usize,
) -> Result<Vec<(&S::K, &S::V)>, AllocError>
    ensures { IfOk result (λ found. shown found.items ≡ contents whole.now) }
{
    let mut found = whole.page(alloc, 0, n)?;
    let mut rest = whole.page(alloc, n, whole.len())?;
    found.append(&mut rest)?;
    Ok(found)
}

// A range without ends is the whole.
fn range_of_all<'a, S: Shard>(
    alloc: Global,
    whole: &'a Shards<S>,
) -> Result<Vec<(&'a S::K, &'a S::V)>, AllocError>
    ensures { IfOk result (λ found. shown found.items ≡ contents whole.now) }
{
    let open: Option<&'a S::K> = None;
    whole.range(alloc, open, open, whole.len())
}

// The pairs below a key, followed by those from the key on, are the whole.
fn two_ranges<'a, S: Shard>(
    alloc: Global,
    whole: &'a Shards<S>,
    k: &S::K,
) -> Result<Vec<(&'a S::K, &'a S::V)>, AllocError>
    ensures { IfOk result (λ found. shown found.items ≡ contents whole.now) }
{
    let mut found = whole.range(alloc, None, Some(k), whole.len())?;
    let mut rest = whole.range(alloc, Some(k), None, whole.len())?;
    found.append(&mut rest)?;
    Ok(found)
}

// The pairs back from a key in reverse order, followed by those above the key, are the whole.
fn back_of_all<'a, S: Shard>(
    alloc: Global,
    whole: &'a Shards<S>,
    k: &S::K,
) -> Result<Vec<(&'a S::K, &'a S::V)>, AllocError>
    ensures { IfOk result (GoBackFrom S.K.cmp k.now whole.now) }
{
    whole.back(alloc, k, whole.len())
}

// After a split each key has the value that it had.
fn finds_after_a_split<S: Shard>(whole: &mut Shards<S>, k: S::K, j: &S::K) -> bool
    ensures { result ≡ true → FindsAlike S.K.cmp j.now whole.old whole.new }
{
    whole.split(k).is_ok()
}

// After a merge each key has the value that it had.
fn finds_after_a_merge<S: Shard>(whole: &mut Shards<S>, shard: usize, j: &S::K) -> bool
    ensures { result ≡ true → FindsAlike S.K.cmp j.now whole.old whole.new }
{
    whole.merge(shard).is_ok()
}

// The results depend on the pairs alone: shards that are cut elsewhere have the same results.
fn replies_wherever_it_is_cut<'a, S: Shard>(
    whole: &'a Shards<S>,
    other: &'a Shards<S>,
    k: &S::K,
) -> (
    (usize, Option<&'a S::V>, Option<(&'a S::K, &'a S::V)>),
    (usize, Option<&'a S::V>, Option<(&'a S::K, &'a S::V)>),
)
    requires { contents whole.now ≡ contents other.now }
    ensures rank { result.0.0 ≡ result.1.0 }
    ensures value { option_copied result.0.1 ≡ option_copied result.1.1 }
    ensures next { option_map deref_pair result.0.2 ≡ option_map deref_pair result.1.2 }
{
    let outcomes = (whole.rank(k), whole.get(k), whole.next(k));
    (outcomes, (other.rank(k), other.get(k), other.next(k)))
}

// Replacing a present key never fails, however many pairs there are.
fn replaces<S: Shard>(whole: &mut Shards<S>, k: S::K, v: S::V) -> bool
    requires { has S.K.cmp (contents whole.old) k ≡ true }
    ensures { result ≡ true }
{
    whole.put(k, v).is_ok()
}

// If allocations never fail, inserting a new key succeeds unless there are too many pairs.
fn puts_with_ample_memory<S: Shard>(whole: &mut Shards<S>, k: S::K, v: S::V) -> bool
    requires memory { ShardsNeverFail S.can_fail }
    requires room { length (contents whole.old) < usize.MAX }
    ensures { result ≡ true }
{
    whole.put(k, v).is_ok()
}

// An insertion fails with `Full` if and only if the key is absent and the length is the greatest.
fn reports_full<S: Shard>(whole: &mut Shards<S>, k: S::K, v: S::V) -> bool
    ensures most { result ≡ true → length (contents whole.old) ≡ usize.MAX }
    ensures absent { result ≡ true → has S.K.cmp (contents whole.old) k ≡ false }
    ensures always { IsFull S.K.cmp usize.MAX (contents whole.old) k → result ≡ true }
{
    match whole.put(k, v) {
        Err(InsertError::Full(_, _)) => true,
        _ => false,
    }
}

// Removing an absent key never fails, and returns `None`.
fn removes_nothing<S: Shard>(whole: &mut Shards<S>, k: &S::K) -> Result<Option<S::V>, AllocError>
    requires { has S.K.cmp (contents whole.old) k.now ≡ false }
    ensures { result ≡ Ok None }
{
    whole.del(k)
}

// If allocations never fail, each removal succeeds.
fn removes_with_ample_memory<S: Shard>(whole: &mut Shards<S>, k: &S::K) -> bool
    requires { ShardsNeverFail S.can_fail }
    ensures { result ≡ true }
{
    whole.del(k).is_ok()
}

// Replacing a present key of one shard never fails, and neither does removing an absent key.
fn replaces_in_a_shard<S: Shard>(shard: &mut S, k: S::K, v: S::V) -> bool
    requires { has S.K.cmp (S.pairs shard.old) k ≡ true }
    ensures { result ≡ true }
{
    shard.put(k, v).is_ok()
}

fn removes_nothing_from_a_shard<S: Shard>(shard: &mut S, k: &S::K) -> bool
    requires { has S.K.cmp (S.pairs shard.old) k.now ≡ false }
    ensures { result ≡ true }
{
    shard.del(k).is_ok()
}

// The lengths of the shards add up to the length of the whole.
fn adds_up<S: Shard>(whole: &Shards<S>) -> bool
    ensures { result ≡ true }
{
    let len = whole.len();
    len_of_whole(whole.lengths()) == len
}

// The length at an index of the list of lengths is that of the shard with this index.
fn length_of_shard<S: Shard>(whole: &Shards<S>, shard: usize) -> Option<usize>
    ensures { result ≡ option_map length (slice_get whole.now.shards shard) }
{
    whole.lengths().get(shard).copied()
}

// The bounds stay if a pair is put or removed.
fn cuts_as_before<S: Shard>(whole: &mut Shards<S>, k: S::K, v: S::V, j: &S::K) -> bool
    ensures bounds { whole.new.bounds ≡ whole.old.bounds }
    ensures cut { AreShards S.K.cmp whole.new.bounds whole.new.shards }
{
    let is_put = whole.put(k, v).is_ok();
    let is_gone = whole.del(j).is_ok();
    whole.recall();
    is_put && is_gone
}

// A key at which a shard was split is a bound, and the other bounds stay.
fn splits_at<S: Shard>(whole: &mut Shards<S>, k: S::K) -> bool
    ensures cut { result ≡ true → whole.new.bounds ≡ bounds_with S.K.cmp whole.old.bounds k }
    ensures uncut { result ≡ false → whole.new.bounds ≡ whole.old.bounds }
{
    whole.split(k).is_ok()
}

// Merging two neighbours leaves one bound fewer. If the merge fails, nothing changes.
fn merges_at<S: Shard>(whole: &mut Shards<S>, shard: usize) -> bool
    requires { shard < length whole.old.bounds }
    ensures merged { result ≡ true → whole.new.bounds ≡ bounds_merged S.K.cmp whole.old.bounds shard }
    ensures unchanged { result ≡ false → whole.new ≡ whole.old }
{
    whole.merge(shard).is_ok()
}

// The last shard has no next one, so that merging it changes nothing and succeeds.
fn merges_nothing<S: Shard>(whole: &mut Shards<S>) -> bool
    ensures same { whole.new ≡ whole.old }
    ensures ok { result ≡ true }
{
    let last = whole.bounds().len();
    whole.merge(last).is_ok()
}
