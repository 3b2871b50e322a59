//! A summary that shows how a query and a rank descend through a tree.
ghost use Rattle.std.specs.Prelude.{⊤};

use crate::record::Record;
use crate::walk::pairs_of;
use crate::words::{Report, Words};
use bptree_arguments::argument::{Argument, RankArgument, SearchArgument};
use bptree_map::map::BPlusTreeMap;
use std::alloc::{AllocError, Global};

/// A summary without information about the keys. Every value is allowed for every list of keys,
/// every slot for every query, and every rank for every key.
#[derive(Clone, Copy, Default, PartialEq, Debug)]
pub struct Levels;

impl Argument<u64> for Levels {
    ghost is_summary = { λ _ _. ⊤ };

    fn from_leaf(_keys: &[u64]) -> Result<Levels, AllocError> {
        Ok(Levels)
    }

    fn from_inner(_keys: &[u64], _arguments: &[Levels]) -> Result<Levels, AllocError> {
        Ok(Levels)
    }

    ghost default_is_summary = { λ _ _. tt };
}

// A query is a slot of a leaf. Each level above the leaf adds one to it.
impl SearchArgument<u64> for Levels {
    type Query = usize;

    ghost selects = { λ _ _ _. ⊤ };

    fn locate_in_leaf(query: usize, keys: &[u64]) -> Result<Option<usize>, AllocError> {
        Ok(if query < keys.len() {
            Some(query)
        } else {
            None
        })
    }

    fn locate_in_inner(
        query: usize,
        _keys: &[u64],
        arguments: &[Levels],
    ) -> Result<Option<(usize, usize)>, AllocError> {
        if arguments.len() == 0 {
            return Ok(None);
        }
        Ok(Some((0, query.saturating_add(1))))
    }
}

// A rank is the number of inner nodes that were folded.
impl RankArgument<u64> for Levels {
    type Rank = usize;

    ghost represents = { λ _ _ _. ⊤ };

    ghost ranks = { λ _ _ _. ⊤ };

    fn initial_value() -> usize {
        0
    }

    fn fold_inner(_k: &u64, rank: usize, _arguments: &[Levels]) -> Result<usize, AllocError> {
        Ok(rank.saturating_add(1))
    }

    fn fold_leaf(
        _k: &u64,
        rank: usize,
        slot: Result<usize, usize>,
        _keys: &[u64],
    ) -> Result<Result<usize, usize>, AllocError> {
        match slot {
            Ok(_) => Ok(Ok(rank)),
            Err(_) => Ok(Err(rank)),
        }
    }
}

// Reports the pair that a query finds, whether a key is present, and the key's rank.
fn report_found<A: SearchArgument<u64, Query = usize> + RankArgument<u64, Rank = usize>>(
    map: &BPlusTreeMap<u64, u64, A>,
    record: &Record,
    words: &mut Words,
) -> bool {
    match map.get_by_argument(record.b as usize) {
        Ok(found) => found.report(words),
        Err(_) => return false,
    }
    match map.rank_by_argument(&record.c) {
        Ok(Ok(rank)) => (1u64, rank).report(words),
        Ok(Err(rank)) => (0u64, rank).report(words),
        Err(_) => return false,
    }
    true
}

fn ask_map<A: SearchArgument<u64, Query = usize> + RankArgument<u64, Rank = usize>>(
    alloc: Global,
    record: &Record,
    words: &mut Words,
) -> bool {
    let Ok(pairs) = pairs_of::<u64>(alloc, 0, record.a, 0) else {
        return false;
    };
    match BPlusTreeMap::<u64, u64, A>::from_iter(alloc, pairs) {
        Ok(map) => report_found(&map, record, words),
        Err(_) => false,
    }
}

/// Runs a query and a rank on a map with these summaries.
pub fn query_map(alloc: Global, record: &Record, words: &mut Words) -> bool {
    ask_map::<Levels>(alloc, record, words)
}
