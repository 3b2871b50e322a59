//! The rank of a key in its group.
ghost use Rattle.std.specs.Prelude.{◌≡◌, ◌≢◌, ◌-◌, ◌<◌, ◌≤◌, [], length, Ok, None, is_ok, IfOk};
ghost use Rattle.bptree_arguments.specs.GroupResults.{IsRankInGroup, RepresentsInGroup, carried, CarriesInGroup, CountsInGroup, IsCarriedOn, RanksInGroup, StaysCarried, CarriesOnly};
ghost use Rattle.bptree_arguments.specs.Ranks.{IsSlotIn};

use crate::argument::RankArgument;
use crate::group::{FromRef, GroupCount};
use crate::group_order::keys_before;
use bptree_keys::end::End;
use bptree_keys::key::Key;
use std::alloc::AllocError;
use std::cmp::Ordering;

/// Returns the number in a rank if the rank is of the group, and otherwise 0.
fn carried_for<G: Key>(rank: Option<(G, usize)>, group: &G) -> usize
    ensures { result ≡ carried G.cmp group.now rank }
{
    match rank {
        None => 0,
        Some((of_rank, count)) => { if of_rank.cmp(group).is_eq() { count } else { 0 } }
    }
}

/// Returns the group of a key, with the number of smaller keys in that group. These are keys of the
/// key's leaf and, if none of the smaller keys there is of a lesser group, those that the rank
/// carries too.
fn ranked_after<K: Key, G: FromRef<K> + Key>(
    k: &K,
    rank: Option<(G, usize)>,
    smaller: &[K],
) -> Result<(G, usize), AllocError>
    ensures group { IfOk result (λ r. G.cmp r.0 (G.group_of k.now) ≡ Ordering.Equal) }
    ensures counted { IfOk result (CountsInGroup G.cmp G.group_of k.now K.cmp rank smaller.now) }
    ensures empty { smaller.now ≡ [] → IfOk result (CarriesOnly G.cmp (G.group_of k.now) rank) }
{
    let group = G::from_ref(k)?;
    let start = keys_before(smaller, &group, End::Front)?;
    let count = smaller.len() - start;
    if start > 0 {
        return Ok((group, count));
    }
    let before = carried_for(rank, &group);
    Ok((group, count.saturating_add(before)))
}

/// The rank of a key is its group, with the number of smaller keys of that group. Before any key,
/// the rank is `None`.
impl<K: Key, G: FromRef<K> + Key> RankArgument<K> for GroupCount<G> {
    type Rank = Option<(G, usize)>;

    ghost represents = { λ rank k before. RepresentsInGroup G.cmp G.group_of k before rank };

    ghost ranks = { λ k keys rank. IsRankInGroup G.cmp G.group_of k K.cmp keys rank };

    fn initial_value() -> Option<(G, usize)>
        ensures stored { (k : K) → RepresentsInGroup G.cmp G.group_of k [] result }
        ensures none { result ≡ None }
    {
        None
    }

    /// Goes from the last child backwards, up to the first whose greatest group is below the key's,
    /// in at most one step per child. A sum stops at the greatest `usize`, and no list of keys is
    /// longer than that.
    fn fold_inner(
        k: &K,
        rank: Option<(G, usize)>,
        arguments: &[Self],
    ) -> Result<Option<(G, usize)>, AllocError>
        ensures carries { IfOk result (CarriesInGroup G.cmp G.group_of k.now K.cmp arguments.now rank) }
        ensures unchanged { arguments.now ≡ [] → result ≡ Ok rank }
        ensures capped { arguments.now ≢ [] → IfOk result (IsCarriedOn G.cmp (G.group_of k.now) rank arguments.now) }
    {
        if arguments.is_empty() {
            return Ok(rank);
        }
        let group = G::from_ref(k)?;
        let mut count = 0usize;
        for i in (0..arguments.len()).rev() {
            match arguments[i].max_group() {
                None => {}
                Some((greatest, size)) => match greatest.cmp(&group) {
                    Ordering::Equal => count = count.saturating_add(size),
                    _ => return Ok(Some((group, count))),
                },
            }
        }
        count = count.saturating_add(carried_for(rank, &group));
        Ok(Some((group, count)))
    }

    /// Makes the group of the key, and the groups of at most 7 of 64 keys.
    fn fold_leaf(
        k: &K,
        rank: Option<(G, usize)>,
        slot: Result<usize, usize>,
        keys: &[K],
    ) -> Result<Result<Option<(G, usize)>, Option<(G, usize)>>, AllocError>
        requires few { length keys.now ≤ 64 }
        requires slot { IsSlotIn keys.now slot }
        ensures variant { IfOk result (λ outcome. is_ok outcome ≡ is_ok slot) }
        ensures ranked { IfOk result (RanksInGroup G.cmp G.group_of k.now K.cmp rank keys.now slot) }
        ensures empty { keys.now ≡ [] → IfOk result (StaysCarried G.cmp (G.group_of k.now) rank) }
    {
        match slot {
            Ok(i) => Ok(Ok(Some(ranked_after(k, rank, &keys[..i])?))),
            Err(i) => Ok(Err(Some(ranked_after(k, rank, &keys[..i])?))),
        }
    }
}
