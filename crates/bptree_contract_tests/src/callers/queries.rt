//! Callers that read, write and remove by summaries: of any argument, and of counts.
ghost use Rattle.std.specs.Prelude.{◌≡◌, ◌<◌, ◌≤◌, length, remove, IfErr, OnErr, OnOk, Some, None, IfSome, IsOkUnless, IsSome};
ghost use Rattle.std.specs.Map.{keys_of};
ghost use Rattle.bptree_tree.specs.Whole.{IsUntouched};
ghost use Rattle.bptree_tree.specs.Selected.{SelectsNone};
ghost use Rattle.bptree_contract_tests.specs.Words.{AllowsNone, AllowsSome, Loses, OnFalse, OnTrue, StaysWhole, WritesSomeIn};

use bptree_arguments::argument::{RankArgument, SearchArgument};
use bptree_arguments::count::Count;
use bptree_stores::node_stores::NodeStore;
use bptree_tree::{BPlusTree, SelectError};
use std::alloc::AllocError;

// The pair that is found is at an index that the query selects. If no pair is found, the query
// selects `None`.
fn finds_an_allowed_index<S: NodeStore>(
    tree: &BPlusTree<S>,
    query: <S::Argument as SearchArgument<S::K>>::Query,
) -> Result<bool, AllocError>
where
    S::Argument: SearchArgument<S::K>,
    ensures found { OnTrue result (AllowsSome S.Argument.selects query tree.now.contents) }
    ensures absent { OnFalse result (AllowsNone S.Argument.selects query tree.now.contents) }
{
    Ok(tree.get_by_argument(query)?.is_some())
}

// A rank is one that the argument allows for the key. The call never fails if the argument
// allocates nothing.
fn ranks_as_allowed<S: NodeStore>(
    tree: &BPlusTree<S>,
    k: &S::K,
) -> Option<<S::Argument as RankArgument<S::K>>::Rank>
where
    S::Argument: RankArgument<S::K>,
    ensures allowed { IfSome result (λ it. S.Argument.ranks k.now (keys_of tree.now.contents) it) }
    ensures infallible { S.Argument.needs_no_memory → IsSome result }
{
    match tree.rank_by_argument(k) {
        Ok(Ok(rank)) => Some(rank),
        Ok(Err(rank)) => Some(rank),
        Err(_) => None,
    }
}

// A removal removes the pair with the returned key. If it returns `None` or an allocation fails,
// nothing changes.
fn takes_a_pair<S: NodeStore>(
    tree: &mut BPlusTree<S>,
    query: <S::Argument as SearchArgument<S::K>>::Query,
) -> Option<S::K>
where
    S::Argument: SearchArgument<S::K>,
    ensures taken { (k : S.K) → result ≡ Some k → Loses S.K.cmp k tree.old tree.new }
    ensures stays { result ≡ None → StaysWhole S.slots tree.new tree.old }
{
    match tree.remove_by_argument(query) {
        Ok(Some((k, _))) => Some(k),
        Ok(None) => None,
        Err(_) => None,
    }
}

// With a count a removal past the end removes nothing.
fn takes_nothing_past_the_end<S: NodeStore<K = u64, V = u64, Argument = Count>>(
    tree: &mut BPlusTree<S>,
    index: usize,
) -> Result<(), AllocError>
    requires { length tree.old.contents ≤ index }
    ensures contents { tree.new.contents ≡ tree.old.contents }
    ensures slots { S.slots tree.new.store ≡ S.slots tree.old.store }
{
    match tree.remove_by_argument(index)? {
        Some(_) => unreachable!(),
        None => Ok(()),
    }
}

// A value is written at an index that the query selects, and no key changes. If the call fails,
// nothing changes: neither the nodes of the store nor the root, the height and the summary at the
// root. It fails only with `NotFound` if the argument allocates nothing.
fn writes_by_a_query<S: NodeStore>(
    tree: &mut BPlusTree<S>,
    query: <S::Argument as SearchArgument<S::K>>::Query,
    v: S::V,
) -> Result<(), SelectError>
where
    S::Argument: SearchArgument<S::K>,
    ensures written { OnOk result (WritesSomeIn S.Argument.selects query v tree.old tree.new) }
    ensures failed { OnErr result (tree.new ≡ tree.old) }
    ensures unchanged { OnErr result (IsUntouched S.slots tree.new tree.old) }
    ensures absent { IfErr result (SelectsNone S.Argument.selects query tree.old.contents) }
    ensures infallible { S.Argument.needs_no_memory → IsOkUnless result SelectError.NotFound }
{
    match tree.get_mut_by_argument(query) {
        Ok(there) => {
            *there = v;
            Ok(())
        }
        Err(error) => Err(error),
    }
}
