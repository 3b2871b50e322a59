//! Values of a tree that are borrowed for writing.
ghost use Rattle.std.specs.Prelude.{◌≡◌, IfErr, IfOk};
ghost use Rattle.std.specs.Borrow.{sem};
ghost use Rattle.std.specs.Option.{option_copied_mut};
ghost use Rattle.bptree_keys.specs.Contents.{value};
ghost use Rattle.bptree_tree.specs.Selected.{BorrowsSelected, SelectsNone};
ghost use Rattle.bptree_tree.specs.NodeRows.{borrows_written_node, borrows_selected_node};
ghost use Rattle.std.specs.Prelude.{IsOkUnless};

use crate::SelectError;
use bptree_arguments::argument::SearchArgument;
use bptree_invariant::nodes::Nodes;
use bptree_search::by_argument::find_by_argument;
use bptree_search::neighbours::locate;
use bptree_stores::node_stores::NodeStore;

/// The value at a key equal to `k`, for writing.
pub(crate) fn value_mut<'a, S: NodeStore>(tree: &'a mut Nodes<S>, k: &S::K) -> Option<&'a mut S::V>
    ensures* writes_back { sem 𝓛 (borrows_written_node S.row S.K.row S.V.row S.Argument.row S.NodeStore S.K.Key S.Argument.Argument tree.entry k.now result) }
    ensures value { option_copied_mut result ≡ value S.K.cmp tree.old.contents k.now }
{
    match locate(tree, k) {
        Ok(at) => Some(tree.store.get_mut_leaf(at.leaf).value_at_mut(at.slot)),
        Err(_) => None,
    }
}

/// The value at an index that is allowed for the query, for writing.
pub(crate) fn selected_mut<S: NodeStore>(
    tree: &mut Nodes<S>,
    query: <S::Argument as SearchArgument<S::K>>::Query,
) -> Result<&mut S::V, SelectError>
where
    S::Argument: SearchArgument<S::K>,
    ensures* writes_back { sem 𝓛 (borrows_selected_node S.row S.K.row S.V.row S.Argument.row S.NodeStore S.K.Key S.Argument.Argument tree.entry S.Argument.selects query result) }
    ensures value { IfOk result (BorrowsSelected S.Argument.selects query tree.old.contents) }
    ensures absent { IfErr result (SelectsNone S.Argument.selects query tree.old.contents) }
    ensures infallible { S.Argument.needs_no_memory → IsOkUnless result SelectError.NotFound }
{
    match find_by_argument(tree, query) {
        Ok(Some(at)) => Ok(tree.store.get_mut_leaf(at.leaf).value_at_mut(at.slot)),
        Ok(None) => Err(SelectError::NotFound),
        Err(_) => Err(SelectError::OutOfMemory),
    }
}
