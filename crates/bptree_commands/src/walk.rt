//! Takes pairs from both ends of an iterator.
ghost use Rattle.std.specs.Prelude.{IfOk};
ghost use Rattle.std.specs.Map.Iter.{deref_pair};
ghost use Rattle.bptree_commands.specs.Ends.{TakesFrom, walked};
ghost use Rattle.bptree_commands.specs.Steps.{AreCopies, RepliesWalk, Reads};
ghost use Rattle.bptree_commands.specs.declared.commands.Command.TheVariants.{Range};

use crate::commands::{Command, Reply, ReplyOf, copy_of};
use bptree_arguments::argument::{RankArgument, SearchArgument};
pub use bptree_keys::end::End;
use bptree_stores::node_stores::NodeStore;
use bptree_tree::BPlusTree;
use bptree_tree::iterator::Iter;
use std::alloc::{AllocError, Global};

/// Takes the pair at an end, if one is left.
pub(crate) fn take_pair<'a, S: NodeStore>(
    pairs: &mut Iter<'a, S>,
    end: End,
) -> Option<(&'a S::K, &'a S::V)>
    ensures { TakesFrom (deref_pair {K = S.K} {X = S.V}) end pairs.old result pairs.new }
{
    match end {
        End::Front => pairs.next(),
        End::Back => pairs.next_back(),
    }
}

// Returns copies of the pairs that the ends of a word take. It allocates the room for all of them
// at once.
fn taken<S: NodeStore>(
    alloc: Global,
    pairs: Iter<'_, S>,
    word: &[End],
) -> Result<Vec<Option<(S::K, S::V)>>, AllocError>
where
    S::V: Copy,
    ensures { IfOk result (λ it. AreCopies S.K.cmp (walked word.now pairs.entry) it.items) }
{
    let mut outcomes = Vec::with_capacity(alloc, word.len())?;
    let mut pairs = pairs;
    let mut left = word;
    while let Some((end, rest)) = left.split_first() {
        let pair = take_pair(&mut pairs, *end);
        outcomes.push_reserved(copy_of(pair)?);
        left = rest;
    }
    Ok(outcomes)
}

/// Takes a pair from each of these ends of an iterator, and replies with copies.
pub(crate) fn walk<S: NodeStore, R>(
    alloc: Global,
    pairs: Iter<'_, S>,
    word: Vec<End>,
) -> Reply<S::K, S::V, R>
where
    S::V: Copy,
    ensures { RepliesWalk S.K.cmp (walked word.items pairs.entry) result }
{
    match taken(alloc, pairs, word.as_slice()) {
        Ok(outcomes) => Reply::Walked(outcomes),
        Err(_) => Reply::OutOfMemory,
    }
}

/// Takes a pair from each of these ends of a range between two keys, and replies with copies.
pub(crate) fn walk_range<S: NodeStore>(
    alloc: Global,
    tree: &BPlusTree<S>,
    lo: Option<S::K>,
    hi: Option<S::K>,
    word: Vec<End>,
) -> ReplyOf<S>
where
    S::V: Copy,
    S::Argument: SearchArgument<S::K> + RankArgument<S::K>,
    ensures { Reads S.K.cmp S.Argument.selects S.Argument.ranks tree.now (Range lo hi word) result }
{
    let pairs = tree.range(lo.as_ref(), hi.as_ref());
    walk(alloc, pairs, word)
}
