//! Cursors at indexes that a query selects.
ghost use Rattle.std.specs.Prelude.{IfOk, IsOk};
ghost use Rattle.std.specs.Option.{option_map};
ghost use Rattle.bptree_search.specs.ByArgument.{IsSelected};
ghost use Rattle.bptree_tree.specs.Selected.{PointsAtSelected};
ghost use Rattle.std.specs.Map.Iter.{deref_pair};

use crate::cursor::Cursor;
use crate::tree::BPlusTree;
use bptree_arguments::argument::SearchArgument;
use bptree_search::by_argument;
use bptree_search::neighbours::Found;
use bptree_stores::node_stores::NodeStore;
use std::alloc::AllocError;

impl<S: NodeStore> BPlusTree<S> {
    /// A cursor on the pair at an index that is allowed for the query, with its value, or `None`.
    ///
    /// O(log n). It clones that key. It fails only if the clone or the argument fails.
    pub fn cursor_by_argument(
        &self,
        query: <S::Argument as SearchArgument<S::K>>::Query,
    ) -> Result<Option<(Cursor<S::K>, &S::V)>, AllocError>
    where
        S::Argument: SearchArgument<S::K>,
        ensures selected { IfOk result (PointsAtSelected S.Argument.selects query self.now.contents S.K.cmp) }
        ensures infallible { S.Argument.needs_no_memory → ((key : S.K) → S.K.is_infallible key) → IsOk result }
    {
        Self::cursor_on(self.index_by_argument(query)?)
    }

    // The pair at an index that is allowed for the query, with its leaf and slot.
    pub(crate) fn index_by_argument(
        &self,
        query: <S::Argument as SearchArgument<S::K>>::Query,
    ) -> Result<Found<'_, S::K, S::V>, AllocError>
    where
        S::Argument: SearchArgument<S::K>,
        ensures selected { IfOk result (λ outcome. IsSelected S.Argument.selects query self.now.contents (option_map (λ found. deref_pair found.1) outcome)) }
        ensures infallible { S.Argument.needs_no_memory → IsOk result }
    {
        let nodes = &self.nodes;
        match by_argument::find_by_argument(nodes, query)? {
            None => Ok(None),
            Some(at) => Ok(Some((at, nodes.store.get_leaf(at.leaf).data_at(at.slot)))),
        }
    }
}
