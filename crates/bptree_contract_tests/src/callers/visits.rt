//! Callers of visits.
ghost use Rattle.std.specs.Prelude.{IfOk, Some};
ghost use Rattle.bptree_arguments.specs.Visits.{returned};
ghost use Rattle.bptree_contract_tests.specs.Groups.{group_len};
ghost use Rattle.bptree_propagation.specs.Failing.{OkIs};
ghost use Rattle.bptree_contract_tests.specs.Words.{IsOkOrFailed, NeverMisses};

use crate::firsts::First;
use bptree_arguments::group::{GroupCount, laws_of_groups};
use bptree_arguments::group_size::ExtractGroupSize;
use bptree_arguments::visit::{DescendError, DescendVisit};
use bptree_stores::node_stores::NodeStore;
use bptree_tree::BPlusTree;

// The result of a visit is one that the visitor allows on the pairs of the tree. If the visitor
// never allows another child, a visit fails only if an allocation fails.
fn visits<S: NodeStore, W: DescendVisit<S::K, S::V, S::Argument>>(
    tree: &BPlusTree<S>,
    visitor: W,
) -> Result<Option<W::Result>, DescendError>
    ensures allowed { IfOk result (λ it. W.outcomes visitor tree.now.contents (returned it)) }
    ensures children { NeverMisses W.outcomes visitor tree.now.contents → IsOkOrFailed result }
{
    tree.descend_visit(visitor)
}

// The keys of a group are counted, and the result is 0 if there is no key. The visit never misses a
// child.
fn sizes_a_group<S: NodeStore<K = (u64, u64), Argument = GroupCount<First>>>(
    tree: &BPlusTree<S>,
    g: First,
) -> Result<Option<usize>, DescendError>
    ensures counted { OkIs result (Some (group_len ⟦<First as Ord>⟧.cmp (λ pair. record { 0 = pair.0 }) g tree.now.contents)) }
    ensures failed { IsOkOrFailed result }
{
    laws_of_groups::<(u64, u64), First>();
    tree.recall();
    tree.descend_visit(ExtractGroupSize::new(g))
}
