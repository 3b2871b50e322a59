//! Removal of the pairs between two keys.
ghost use Rattle.std.specs.Prelude.{◌≡◌, ◌<◌, length, IfOk, OnErr, OnOk};
ghost use Rattle.bptree_propagation.specs.Failing.{NeverFails, OkIs};
ghost use Rattle.bptree_bulk.specs.Positions.{index_of_position, IsAtPair};
ghost use Rattle.bptree_keys.specs.Keys.{AllInfallible};
ghost use Rattle.bptree_keys.specs.Ranges.{between};
ghost use Rattle.bptree_tree.specs.Entries.{pairs_between};
ghost use Rattle.bptree_tree.specs.RangeRemoval.{DropsBetween, FindsNoneBetween, FirstBetweenLeaves, KeepsAllIfNone, KeepsOutside, PlansDrop};
ghost use Rattle.bptree_tree.specs.Whole.{IsWhole, IsUntouched};

use crate::tree::BPlusTree;
use crate::tree::ranges::pairs_from;
use bptree_arguments::argument::Argument;
use bptree_bulk::removing::{Removal, cut_out, plan_removal};
use bptree_bulk::splitting::{is_end, is_start};
use bptree_bulk::tail::removes_few;
use bptree_invariant::nodes::Nodes;
use bptree_keys::entry_ref::VisitStack;
use bptree_keys::key::Key;
use bptree_keys::node_id::Position;
use bptree_ranges::ranges::{indexes_between, part_between};
use bptree_rebalancing::statistics::Statistic;
use bptree_removal::removal;
use bptree_stores::node_stores::NodeStore;
use std::alloc::AllocError;
use std::mem;

// Removes the first pair between two ends from the nodes of a tree. It returns whether there was
// such a pair.
fn drop_first_of<'b, S: NodeStore>(
    tree: &mut Nodes<S>,
    lo: Option<&'b S::K>,
    hi: Option<&'b S::K>,
    statistic: &mut Statistic,
) -> Result<bool, AllocError>
    ensures whole { IsWhole S.K.cmp S.Argument.is_summary S.slots tree.new }
    ensures ok { IfOk result (FirstBetweenLeaves S.K.cmp lo.entry hi.entry tree.old.contents tree.new.contents) }
    ensures empty { FindsNoneBetween S.K.cmp lo.entry hi.entry tree.old.contents result }
    ensures unchanged { OnErr result (IsUntouched S.slots tree.new tree.old) }
    ensures infallible { NeverFails S.Argument.needs_no_memory S.K.is_infallible result }
{
    tree.recall();
    let Some((k, _)) = pairs_from(tree, part_between(tree, lo, hi)).next() else {
        return Ok(false);
    };
    let mut path = VisitStack::new();
    let Some(at) = removal::find_entry(tree, &mut path, k) else {
        return Ok(false);
    };
    removal::take_entry(tree, &mut path, at, statistic)?;
    Ok(true)
}

// Prepares all that is needed to drop the pairs from one position up to another. It returns `None`
// if these are all pairs.
fn plan_drop<S: NodeStore>(
    tree: &Nodes<S>,
    lo: Position,
    hi: Position,
) -> Result<Option<Removal<S>>, AllocError>
    requires lo { IsAtPair S.slots tree.now lo }
    requires hi { IsAtPair S.slots tree.now hi }
    requires order { index_of_position S.slots tree.now lo < index_of_position S.slots tree.now hi }
    ensures { IfOk result (PlansDrop S.K.cmp S.Argument.is_summary S.slots tree.now lo hi) }
{
    tree.recall();
    if is_start(tree, lo) && is_end(tree, hi) {
        return Ok(None);
    }
    let removal = plan_removal(tree, lo, hi)?;
    Ok(Some(removal))
}

impl<S: NodeStore> BPlusTree<S> {
    // Removes the pairs between two keys one by one, and returns their number.
    fn remove_each<'b>(&mut self, lo: Option<&'b S::K>, hi: Option<&'b S::K>) -> usize
        requires infallible { S.Argument.needs_no_memory × AllInfallible S.K.is_infallible }
        ensures whole { IsWhole S.K.cmp S.Argument.is_summary S.slots self.new }
        ensures rest { KeepsOutside S.K.cmp lo.entry hi.entry self.old.contents self.new.contents }
        ensures count { result ≡ length (pairs_between S.K.cmp self.old.contents lo.entry hi.entry) }
    {
        self.nodes.recall();
        let mut gone = 0;
        'pairs: while drop_first_of(&mut self.nodes, lo, hi, &mut self.statistic).unwrap() {
            gone += 1;
        }
        gone
    }

    // Drops the pairs from one position up to another. There is at least one.
    fn drop_between(&mut self, lo: Position, hi: Position) -> Result<(), AllocError>
        requires lo { IsAtPair S.slots self.old lo }
        requires hi { IsAtPair S.slots self.old hi }
        requires order { index_of_position S.slots self.old lo < index_of_position S.slots self.old hi }
        ensures whole { IsWhole S.K.cmp S.Argument.is_summary S.slots self.new }
        ensures ok { OnOk result (DropsBetween S.slots lo hi self.old self.new) }
        ensures unchanged { OnErr result (self.new ≡ self.old) }
    {
        let spare = BPlusTree::new(S::empty(self.nodes.store.allocator()))?;
        match plan_drop(&self.nodes, lo, hi)? {
            None => {
                let _all = mem::replace(self, spare);
                Ok(())
            }
            Some(removal) => {
                let BPlusTree {
                    nodes,
                    statistic,
                    path,
                } = mem::replace(self, spare);
                *self = BPlusTree {
                    nodes: cut_out(nodes, removal),
                    statistic,
                    path,
                };
                Ok(())
            }
        }
    }

    /// Removes the pairs whose key is not below `lo` and is below `hi`, if they are given, and
    /// returns their number. If it fails, nothing changes.
    ///
    /// O(log n) comparisons to find both ends, O(n / 32) for n pairs, and O(1) for each pair that
    /// is dropped: each leaf on either side stays as it is, except for a few at the gap. Before
    /// that it allocates the nodes above the leaves, clones the first key of each leaf and computes
    /// a summary of its keys, and it fails if one of these does. If no removal can fail, as
    /// `clones_never_fail` and `never_fails` say, it does not fail: it removes the pairs one by one
    /// if at most n / 32 are removed or if an allocation fails. If there is no such pair, it
    /// allocates nothing and cannot fail. If all pairs are removed, it allocates one leaf.
    pub fn remove_range<'b>(
        &mut self,
        lo: Option<&'b S::K>,
        hi: Option<&'b S::K>,
    ) -> Result<usize, AllocError>
        ensures whole { IsWhole S.K.cmp S.Argument.is_summary S.slots self.new }
        ensures rest { OnOk result (KeepsOutside S.K.cmp lo.entry hi.entry self.old.contents self.new.contents) }
        ensures count { OkIs result (length (pairs_between S.K.cmp self.old.contents lo.entry hi.entry)) }
        ensures empty { KeepsAllIfNone S.K.cmp lo.entry hi.entry self.old.contents self.new.contents result }
        ensures unchanged { OnErr result (self.new ≡ self.old) }
    {
        self.nodes.recall();
        let Some(_) = pairs_from(&self.nodes, part_between(&self.nodes, lo, hi)).next() else {
            return Ok(0);
        };
        let (from, to) = indexes_between(&self.nodes, lo, hi);
        if removes_few(&self.nodes, from, hi) {
            return Ok(self.remove_each(lo, hi));
        }
        let len = self.len();
        match self.drop_between(from, to) {
            Ok(()) => Ok(len - self.len()),
            Err(_) => {
                if S::K::clones_never_fail() && S::Argument::never_fails() {
                    return Ok(self.remove_each(lo, hi));
                }
                Err(AllocError)
            }
        }
    }

    /// Removes the pairs as `remove_range` does, and returns their number, for a tree that needs no
    /// memory to remove a pair: no clone of a key fails, and no summary allocates.
    ///
    /// As `remove_range`, and O(log n) for each pair that is removed if an allocation fails. It
    /// cannot fail.
    pub fn remove_range_infallible<'b>(
        &mut self,
        lo: Option<&'b S::K>,
        hi: Option<&'b S::K>,
    ) -> usize
        requires infallible { S.Argument.needs_no_memory × AllInfallible S.K.is_infallible }
        ensures whole { IsWhole S.K.cmp S.Argument.is_summary S.slots self.new }
        ensures rest { KeepsOutside S.K.cmp lo.entry hi.entry self.old.contents self.new.contents }
        ensures count { result ≡ length (pairs_between S.K.cmp self.old.contents lo.entry hi.entry) }
    {
        match self.remove_range(lo, hi) {
            Ok(gone) => gone,
            Err(_) => self.remove_each(lo, hi),
        }
    }
}
