//! Callers of removals that allocate nothing, and therefore never fail. The other callers are about
//! the summary and the levels after a removal.
ghost use Rattle.std.specs.Prelude.{◌≡◌, remove, slice_get, IfOk, IsOk, OnOk};
ghost use Rattle.std.specs.Ordering.{nat_cmp};
ghost use Rattle.bptree_contract_tests.specs.Summaries.{RootSumsUpRest};
ghost use Rattle.bptree_contract_tests.specs.Words.{AllowsLevels};
ghost use Rattle.bptree_search.specs.ByArgument.{IsTaken};
ghost use Rattle.bptree_keys.specs.Contents.{del};
ghost use Rattle.bptree_keys.specs.Keys.{AllInfallible};
ghost use Rattle.bptree_map.specs.KeyChanges.{RemovesKey, TakesKey};

use bptree_arguments::argument::SearchArgument;
use bptree_arguments::count::Count;
use bptree_map::map::BPlusTreeMap;
use bptree_set::set::BPlusTreeSet;
use bptree_stores::node_stores::NodeStore;
use bptree_tree::BPlusTree;
use std::alloc::AllocError;

// Removes by a query.
fn removes_what_is_selected<S: NodeStore>(
    tree: &mut BPlusTree<S>,
    query: <S::Argument as SearchArgument<S::K>>::Query,
) -> Result<Option<(S::K, S::V)>, AllocError>
where
    S::Argument: SearchArgument<S::K>,
    ensures taken { IfOk result (IsTaken S.Argument.selects query tree.old.contents tree.new.contents) }
    ensures infallible { S.Argument.needs_no_memory → AllInfallible S.K.is_infallible → IsOk result }
{
    tree.remove_by_argument(query)
}

// Remove at an index and at both ends, from a map of numbers with counts.
fn removes_from_numbers(
    map: &mut BPlusTreeMap<u64, u64, Count>,
    i: usize,
) -> Result<Option<(u64, u64)>, AllocError>
    ensures infallible { IsOk result }
    ensures gone { IfOk result (λ gone. (gone ≡ slice_get map.old i) × (map.new ≡ remove map.old i)) }
{
    map.remove_index(i)
}

type Popped<X> = Result<Option<X>, AllocError>;

fn pops_numbers(map: &mut BPlusTreeMap<u64, u64, Count>) -> (Popped<(u64, u64)>, Popped<(u64, u64)>)
    ensures { IsOk result.0 × IsOk result.1 }
{
    (map.pop_first(), map.pop_last())
}

// Remove from a set of numbers.
fn takes_a_number(set: &mut BPlusTreeSet<u64>, k: u64) -> Result<Option<u64>, AllocError>
    ensures infallible { IsOk result }
    ensures taken { IfOk result (TakesKey nat_cmp k set.old set.new) }
{
    set.take(&k)
}

fn removes_a_number(set: &mut BPlusTreeSet<u64>, k: u64) -> Result<bool, AllocError>
    ensures infallible { IsOk result }
    ensures removed { IfOk result (RemovesKey nat_cmp k set.old set.new) }
{
    set.remove(&k)
}

fn pops_keys(set: &mut BPlusTreeSet<u64>) -> (Popped<u64>, Popped<u64>)
    ensures { IsOk result.0 × IsOk result.1 }
{
    (set.pop_first(), set.pop_last())
}

// The summary at the root is a summary of the keys that are left, also if the pair was in a leaf
// far below the root.
fn sums_up_what_is_left<S: NodeStore>(
    tree: &mut BPlusTree<S>,
    k: &S::K,
) -> Result<Option<S::V>, AllocError>
    ensures { OnOk result (RootSumsUpRest S.Argument.is_summary S.K.cmp k.now tree.old tree.new) }
{
    tree.remove(k)
}

// Each number of levels needs a number of pairs, also after a removal. A leaf that is left with few
// pairs borrows some from a sibling, or is merged with it.
fn stays_low<S: NodeStore>(tree: &mut BPlusTree<S>, k: &S::K) -> Result<usize, AllocError>
    ensures { IfOk result (AllowsLevels (del S.K.cmp tree.old.contents k.now)) }
{
    tree.remove(k)?;
    Ok(tree.height())
}
