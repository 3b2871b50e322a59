//! How the lengths of the shards determine an index, a rank, a length and a page of the whole.
//!
//! Each function takes the number of pairs of each shard, in the order of the shards, and reads no
//! pair. It names only shards that have a pair of the result, so that a caller asks no other shard.
ghost use Rattle.std.specs.Prelude.{◌≡◌, ◌+◌, ◌^◌, ◌<◌, ◌≤◌, length, take, IfOk};
ghost use Rattle.std.specs.List.{sum};
ghost use Rattle.bptree_shard_routing.specs.Lengths.{IsIndexFound, IsFirstFull, IsLastFull, IsNextPart, ArePartsOf};

use std::alloc::{AllocError, Global};

/// A run of pairs of one shard.
#[derive(Clone, Copy, Drop, PartialEq, Eq)]
pub struct Part {
    /// The index of the shard.
    pub shard: usize,
    /// The index in the shard of the first pair.
    pub from: usize,
    /// The number of pairs.
    pub count: usize,
}

/// The number of pairs of the whole. O(s) for s shards. It allocates nothing. The sum must fit a
/// `usize`.
pub fn len_of_whole(lengths: &[usize]) -> usize
    requires { sum lengths.now < 2 ^ 64 }
    ensures { result ≡ sum lengths.now }
{
    let mut before = 0;
    for length in lengths {
        before += *length;
    }
    before
}

/// The number of smaller keys in the whole: those of the shards before a key's shard, plus `own`,
/// the number of smaller keys in that shard. O(s) for s shards. It allocates nothing.
pub fn rank_of_whole(lengths: &[usize], shard: usize, own: usize) -> usize
    requires in_range { shard ≤ length lengths.now }
    requires fits { sum (take shard lengths.now) + own < 2 ^ 64 }
    ensures { result ≡ sum (take shard lengths.now) + own }
{
    len_of_whole(&lengths[..shard]) + own
}

/// The shard that has an index of the whole, and the index in that shard. `None` past the end. O(s)
/// for s shards. It allocates nothing.
pub fn locate(lengths: &[usize], index: usize) -> Option<(usize, usize)>
    ensures { IsIndexFound lengths.now index result }
{
    let mut own = index;
    for (shard, length) in lengths.iter().enumerate() {
        if own < *length {
            return Some((shard, own));
        }
        own -= *length;
    }
    None
}

// The first shard from `from` on that has a pair.
fn full_from(lengths: &[usize], from: usize) -> Option<usize>
    requires { from ≤ length lengths.now }
    ensures { IsFirstFull lengths.now from (length lengths.now) result }
{
    for shard in from..lengths.len() {
        if lengths[shard] > 0 {
            return Some(shard);
        }
    }
    None
}

/// The first shard that has a pair. `None` if all are empty. O(s) for s shards. It allocates
/// nothing.
pub fn first_full(lengths: &[usize]) -> Option<usize>
    ensures { IsFirstFull lengths.now 0 (length lengths.now) result }
{
    full_from(lengths, 0)
}

/// The first shard behind `after` that has a pair, or `None`. O(s) for s shards. It allocates
/// nothing.
pub fn next_full(lengths: &[usize], after: usize) -> Option<usize>
    requires { after < length lengths.now }
    ensures { IsFirstFull lengths.now (after + 1) (length lengths.now) result }
{
    full_from(lengths, after + 1)
}

/// The last shard before `before` that has a pair, or `None`. O(s) for s shards. It allocates
/// nothing.
pub fn prev_full(lengths: &[usize], before: usize) -> Option<usize>
    requires { before ≤ length lengths.now }
    ensures { IsLastFull lengths.now before result }
{
    let mut shard = before;
    while shard > 0 {
        shard -= 1;
        if lengths[shard] > 0 {
            return Some(shard);
        }
    }
    None
}

/// The last shard that has a pair. `None` if all are empty. O(s) for s shards. It allocates
/// nothing.
pub fn last_full(lengths: &[usize]) -> Option<usize>
    ensures { IsLastFull lengths.now (length lengths.now) result }
{
    prev_full(lengths, lengths.len())
}

/// The first part of a page: of at most `n` pairs of the whole, from an index on. The part has as
/// many pairs of the page as its shard has. The rest of the page begins `count` pairs later and has
/// `count` pairs fewer. `None` if the page has no pair. O(s) for s shards. It allocates nothing.
pub fn next_part(lengths: &[usize], index: usize, n: usize) -> Option<Part>
    ensures { IsNextPart lengths.now index n result }
{
    if n == 0 {
        return None;
    }
    match locate(lengths, index) {
        None => None,
        Some((shard, from)) => {
            let count = n.min(lengths[shard] - from);
            Some(Part { shard, from, count })
        }
    }
}

/// The parts of a page: of at most `n` pairs of the whole, from an index on. They are in the order
/// of the shards. Each shard that has a pair of the page has one part, and no other shard has any.
///
/// O(s) for each part, for s shards: the search for each part begins at the first shard. It
/// allocates the list of parts, and fails if an allocation fails. The number of all pairs must fit
/// a `usize`.
pub fn parts(
    alloc: Global,
    lengths: &[usize],
    index: usize,
    n: usize,
) -> Result<Vec<Part>, AllocError>
    requires { sum lengths.now < 2 ^ 64 }
    ensures { IfOk result (λ found. ArePartsOf lengths.now index n found.items) }
{
    let mut found = Vec::new(alloc);
    let mut from = index;
    let mut left = n;
    while let Some(part) = next_part(lengths, from, left) {
        found.push(part)?;
        from += part.count;
        left -= part.count;
    }
    Ok(found)
}
