//! Callers of parts of a tree.
ghost use Rattle.std.specs.Prelude.{◌≡◌, ◌<◌, ◌≤◌, ◌-◌, length, min, IfOk};
ghost use Rattle.bptree_keys.specs.Ranges.{part};
ghost use Rattle.bptree_contract_tests.specs.Groups.{BorrowsOneOf, group_len};
ghost use Rattle.bptree_contract_tests.specs.Summaries.{SumsBelow, SumsFrom};
ghost use Rattle.bptree_contract_tests.specs.Words.{AllowsNone, BorrowsAt, OnZero, between_keys};

use bptree_arguments::argument::SearchArgument;
use bptree_arguments::count::Count;
use bptree_arguments::group::FromRef;
use bptree_keys::key::Key;
use bptree_stores::node_store_vec::NodeStoreVec;
use bptree_stores::node_stores::NodeStore;
use bptree_tree::BPlusTree;
use bptree_tree::iterator::Iter;
use std::alloc::AllocError;

// A range reports the number of pairs between two keys, and begins with the first of them.
fn gives_the_first_between<'a, S: NodeStore>(
    tree: &'a BPlusTree<S>,
    lo: &S::K,
    hi: &S::K,
) -> (usize, Option<(&'a S::K, &'a S::V)>)
    ensures len { result.0 ≡ length (between_keys S.K.cmp tree.now.contents lo.now hi.now) }
    ensures first { BorrowsAt result.1 (between_keys S.K.cmp tree.now.contents lo.now hi.now) 0 }
{
    let mut pairs = tree.range(Some(lo), Some(hi));
    let len = pairs.len();
    (len, pairs.next())
}

// A range from a selected index on has at most n pairs. If n is above 0, it is empty only if the
// query selects `None`.
fn gives_no_more_than_asked<S: NodeStore>(
    tree: &BPlusTree<S>,
    query: <S::Argument as SearchArgument<S::K>>::Query,
    n: usize,
) -> Result<usize, AllocError>
where
    S::Argument: SearchArgument<S::K>,
    ensures most { IfOk result (λ len. len ≤ n) }
    ensures none { 0 < n → OnZero result (AllowsNone S.Argument.selects query tree.now.contents) }
{
    Ok(tree.range_by_argument(query, n)?.len())
}

// With a count a range has the pairs from an index on. It is empty past the end.
fn gives_the_pairs_from_an_index<S: NodeStore<K = u64, V = u64, Argument = Count>>(
    tree: &BPlusTree<S>,
    index: usize,
    n: usize,
) -> Result<Iter<'_, S>, AllocError>
    ensures { IfOk result (λ pairs. pairs ≡ part tree.now.contents index n) }
{
    tree.range_by_argument(index, n)
}

// The range of a group has as many pairs as the group has keys. Its first pair is of the group.
fn gives_the_pairs_of_a_group<'a, S: NodeStore, G: FromRef<S::K> + Key>(
    tree: &'a BPlusTree<S>,
    g: &G,
) -> Result<(usize, Option<(&'a S::K, &'a S::V)>), AllocError>
    ensures len { IfOk result (λ it. it.0 ≡ group_len G.cmp G.group_of g.now tree.now.contents) }
    ensures first { IfOk result (λ it. BorrowsOneOf G.cmp G.group_of g.now it.1) }
{
    let mut pairs = tree.group_range(g)?;
    let len = pairs.len();
    Ok((len, pairs.next()))
}

// The summaries of a range below a key, and of a range from the key on.
fn sums_up_both_sides<S: NodeStore>(
    tree: &BPlusTree<S>,
    k: &S::K,
) -> Result<(S::Argument, S::Argument), AllocError>
    ensures below { IfOk result (SumsBelow S.K.cmp S.Argument.is_summary tree.now.contents k.now) }
    ensures from { IfOk result (SumsFrom S.K.cmp S.Argument.is_summary tree.now.contents k.now) }
{
    let below = tree.range_argument(None, Some(k))?;
    let from = tree.range_argument(Some(k), None)?;
    Ok((below, from))
}

// With a count the summary of a part is the number of pairs from one index up to another.
fn counts_the_pairs_of_a_part<S: NodeStore<K = u64, V = u64, Argument = Count>>(
    tree: &BPlusTree<S>,
    from: usize,
    to: usize,
) -> Result<usize, AllocError>
    ensures { IfOk result (λ n. n ≡ min to (length tree.now.contents) - from) }
{
    Ok(tree.part_argument(from, to)?.count())
}

// The length of a range is the number of pairs between two keys, and the call never fails.
fn reports_how_many_are_between<K: Key, V: Drop>(
    tree: &BPlusTree<NodeStoreVec<K, V, Count>>,
    lo: &K,
    hi: &K,
) -> usize
    ensures { result ≡ length (between_keys K.cmp tree.now.contents lo.now hi.now) }
{
    tree.range_len(Some(lo), Some(hi))
}
