//! Reads of a tree by the summaries of its keys.
ghost use Rattle.std.specs.Prelude.{◌≡◌, IfOk, IfErr, IsOk, is_ok, length};
ghost use Rattle.std.specs.Map.{keys_of};
ghost use Rattle.bptree_arguments.specs.Visits.{returned, IsAllowedError};
ghost use Rattle.bptree_keys.specs.Contents.{has};
ghost use Rattle.bptree_ranges.specs.Summaries.{IsPartSummary};
ghost use Rattle.bptree_tree.specs.Changes.{EitherWay};
ghost use Rattle.bptree_tree.specs.Entries.{pairs_between, EntriesSumUpBetween};
ghost use Rattle.bptree_tree.specs.Selected.{BorrowsSelected, SelectsNone, ShowsSelected};

use crate::SelectError;
use crate::tree::BPlusTree;
use crate::tree::lending::selected_mut;
use bptree_arguments::argument::{RankArgument, SearchArgument};
use bptree_arguments::count::Count;
use bptree_arguments::visit::{DescendError, DescendVisit};
use bptree_keys::key::Key;
use bptree_ranges::counting::len_between;
use bptree_ranges::summaries::summary_between;
use bptree_search::{by_argument, visiting};
use bptree_stores::node_store_vec::NodeStoreVec;
use bptree_stores::node_stores::NodeStore;
use std::alloc::AllocError;

impl<S: NodeStore> BPlusTree<S> {
    /// The pair at an index that is allowed for the query, or `None`.
    ///
    /// O(log n): one descent, which calls the argument once a level. It allocates only what the
    /// argument allocates, and fails only if the argument does.
    pub fn get_by_argument(
        &self,
        query: <S::Argument as SearchArgument<S::K>>::Query,
    ) -> Result<Option<(&S::K, &S::V)>, AllocError>
    where
        S::Argument: SearchArgument<S::K>,
        ensures selected { IfOk result (ShowsSelected S.Argument.selects query self.now.contents) }
        ensures infallible { S.Argument.needs_no_memory → IsOk result }
    {
        match self.index_by_argument(query)? {
            None => Ok(None),
            Some((_, pair)) => Ok(Some(pair)),
        }
    }

    /// The rank of a key: `Ok` if the key is present, and else `Err`, within a `Result`.
    ///
    /// O(log n): one descent, which calls the argument once a level. It allocates only what the
    /// argument allocates, and fails only if the argument does.
    pub fn rank_by_argument(
        &self,
        k: &S::K,
    ) -> Result<
        Result<
            <S::Argument as RankArgument<S::K>>::Rank,
            <S::Argument as RankArgument<S::K>>::Rank,
        >,
        AllocError,
    >
    where
        S::Argument: RankArgument<S::K>,
        ensures ranked { IfOk result (EitherWay (S.Argument.ranks k.now (keys_of self.now.contents))) }
        ensures present { IfOk result (λ a. is_ok a ≡ has S.K.cmp self.now.contents k.now) }
        ensures infallible { S.Argument.needs_no_memory → IsOk result }
    {
        by_argument::rank_by_argument(&self.nodes, k)
    }

    /// A summary of the keys that are at least `lo` and below `hi`, or `Default` if there are none.
    /// `None` means no bound.
    ///
    /// O(log n): one descent for each bound, whatever the number of pairs. The summaries of the
    /// children between both descents are combined. It fails only if the argument does, or if the
    /// allocation of room for two summaries fails.
    pub fn range_argument<'b>(
        &self,
        lo: Option<&'b S::K>,
        hi: Option<&'b S::K>,
    ) -> Result<S::Argument, AllocError>
        ensures { IfOk result (EntriesSumUpBetween S.Argument.is_summary S.K.cmp self.now.contents lo.entry hi.entry) }
    {
        summary_between(&self.nodes, lo, hi)
    }

    /// A summary of the keys from an index that is allowed for one query on, up to an index that is
    /// allowed for another. If no index is allowed for the second query, it is a summary of all
    /// keys from the first index on. If no index is allowed for the first query, it is a summary of
    /// no keys.
    ///
    /// O(log n). It fails only if the argument does, or if the allocation of room for two summaries
    /// fails.
    pub fn part_argument(
        &self,
        from: <S::Argument as SearchArgument<S::K>>::Query,
        to: <S::Argument as SearchArgument<S::K>>::Query,
    ) -> Result<S::Argument, AllocError>
    where
        S::Argument: SearchArgument<S::K>,
        ensures { IfOk result (IsPartSummary S.Argument.is_summary S.Argument.selects from to (keys_of self.now.contents)) }
    {
        self.recall();
        let Some((lo, _)) = self.get_by_argument(from)? else {
            return Ok(Default::default());
        };
        match self.get_by_argument(to)? {
            Some((hi, _)) => self.range_argument(Some(lo), Some(hi)),
            None => self.range_argument(Some(lo), None),
        }
    }

    /// The result of a visitor on one descent, or `None` if it ends without one.
    ///
    /// O(log n). It allocates only what the visitor allocates, and fails only if the visitor does,
    /// or names a child that does not exist.
    pub fn descend_visit<W: DescendVisit<S::K, S::V, S::Argument>>(
        &self,
        visitor: W,
    ) -> Result<Option<W::Result>, DescendError>
        ensures outcome { IfOk result (λ a. W.outcomes visitor self.now.contents (returned a)) }
        ensures error { IfErr result (IsAllowedError W.outcomes visitor self.now.contents) }
    {
        visiting::descend_visit(&self.nodes, visitor)
    }
}

impl<S: NodeStore> BPlusTree<S> {
    ghost use Rattle.std.specs.Prelude.{IsOkUnless};
    ghost use Rattle.std.specs.Borrow.{sem};
    ghost use Rattle.bptree_tree.specs.Rows.{borrows_selected};

    /// The value at an index that is allowed for the query, for writing.
    ///
    /// O(log n). It fails with `NotFound` if no index is allowed, and with `OutOfMemory` if the
    /// argument fails to allocate. Only that value is written: keys and summaries are unchanged.
    pub fn get_mut_by_argument(
        &mut self,
        query: <S::Argument as SearchArgument<S::K>>::Query,
    ) -> Result<&mut S::V, SelectError>
    where
        S::Argument: SearchArgument<S::K>,
        ensures* writes_back { sem 𝓛 (borrows_selected S.row S.K.row S.V.row S.Argument.row S.NodeStore S.K.Key S.Argument.Argument self.entry S.Argument.selects query result) }
        ensures value { IfOk result (BorrowsSelected S.Argument.selects query self.old.contents) }
        ensures absent { IfErr result (SelectsNone S.Argument.selects query self.old.contents) }
        ensures infallible { S.Argument.needs_no_memory → IsOkUnless result SelectError.NotFound }
    {
        selected_mut(&mut self.nodes, query)
    }
}

impl<K: Key, V: Drop> BPlusTree<NodeStoreVec<K, V, Count>> {
    /// The number of keys that are at least `lo` and below `hi`. `None` means no bound.
    ///
    /// O(log n): one descent for each bound, whatever the number of keys. It allocates nothing and
    /// cannot fail.
    pub fn range_len<'b>(&self, lo: Option<&'b K>, hi: Option<&'b K>) -> usize
        ensures { result ≡ length (pairs_between K.cmp self.now.contents lo.entry hi.entry) }
    {
        let nodes = &self.nodes;
        nodes.recall();
        len_between(nodes, lo, hi)
    }
}
