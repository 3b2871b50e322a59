//! Callers that combine the lengths of shards.
ghost use Rattle.std.specs.Prelude.{◌≡◌, ◌+◌, ◌-◌, ◌^◌, ◌<◌, ◌≤◌, min, length, slice_index, true, false, Some, IfOk, IfSome, is_some};
ghost use Rattle.std.specs.List.{sum};

use bptree_shard_routing::combining::{
    first_full, last_full, len_of_whole, locate, next_full, next_part, parts, prev_full,
    rank_of_whole,
};
use std::alloc::{AllocError, Global};

// The whole has the pairs of each shard.
fn counts_two(a: usize, b: usize) -> usize
    requires { a + b < 2 ^ 64 }
    ensures { result ≡ a + b }
{
    len_of_whole(&[a, b])
}

// A rank in the first shard stays, and a rank in the second shard has the pairs of the first before
// it.
fn ranks_in_two(a: usize, b: usize, own: usize) -> (usize, usize)
    requires { a + own < 2 ^ 64 }
    ensures { result ≡ (own, a + own) }
{
    (
        rank_of_whole(&[a, b], 0, own),
        rank_of_whole(&[a, b], 1, own),
    )
}

// The rank of the pair at an index is the index.
fn ranks_an_index(lengths: &[usize], index: usize) -> Option<usize>
    ensures there { IfSome result (λ rank. rank ≡ index) }
    ensures none { is_some result ≡ false → sum lengths.now ≤ index }
{
    let (shard, own) = locate(lengths, index)?;
    Some(rank_of_whole(lengths, shard, own))
}

// The index behind the last pair of a shard is the first index of the next shard.
fn is_behind_the_first(a: usize) -> (Option<(usize, usize)>, Option<(usize, usize)>)
    requires { 0 < a }
    ensures { result ≡ (Some (0, a - 1), Some (1, 0)) }
{
    (locate(&[a, 1], a - 1), locate(&[a, 1], a))
}

// A shard has a pair if the whole has one, and no pair is before the first such shard.
fn finds_a_first_shard(lengths: &[usize]) -> Option<usize>
    ensures some { 0 < sum lengths.now → is_some result ≡ true }
    ensures none_before { IfSome result (λ before. before ≡ 0) }
{
    let shard = first_full(lengths)?;
    Some(rank_of_whole(lengths, shard, 0))
}

// The whole ends behind the last shard that has a pair.
fn ends_behind_the_last_shard(lengths: &[usize]) -> Option<usize>
    requires { sum lengths.now < 2 ^ 64 }
    ensures { IfSome result (λ end. end ≡ sum lengths.now) }
{
    let shard = last_full(lengths)?;
    Some(rank_of_whole(lengths, shard, lengths[shard]))
}

// Going from a shard that has a pair to the next such shard, and back, returns to the same shard.
fn goes_there_and_back(lengths: &[usize], shard: usize) -> Option<usize>
    requires in_range { shard < length lengths.now }
    requires some { 0 < slice_index lengths.now shard }
    ensures { IfSome result (λ back. back ≡ shard) }
{
    let there = next_full(lengths, shard)?;
    prev_full(lengths, there)
}

// The search for a neighbour skips empty shards.
fn passes_over_the_empty(a: usize, b: usize) -> (Option<usize>, Option<usize>)
    requires first { 0 < a }
    requires last { 0 < b }
    ensures { result ≡ (Some 3, Some 0) }
{
    (next_full(&[a, 0, 0, b], 0), prev_full(&[a, 0, 0, b], 3))
}

// A page has n pairs, or as many as there are from its index on.
fn counts_a_page(lengths: &[usize], index: usize, n: usize) -> usize
    requires { sum lengths.now < 2 ^ 64 }
    ensures { result ≡ min n (sum lengths.now - index) }
{
    let mut from = index;
    let mut left = n;
    while let Some(part) = next_part(lengths, from, left) {
        from += part.count;
        left -= part.count;
    }
    n - left
}

// The parts of a page have as many pairs as the page.
fn counts_its_parts(
    alloc: Global,
    lengths: &[usize],
    index: usize,
    n: usize,
) -> Result<usize, AllocError>
    requires { sum lengths.now < 2 ^ 64 }
    ensures { IfOk result (λ count. count ≡ min n (sum lengths.now - index)) }
{
    let found = parts(alloc, lengths, index, n)?;
    let mut count = 0;
    for part in &found {
        count += part.count;
    }
    Ok(count)
}
