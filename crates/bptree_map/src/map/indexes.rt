//! Cursors on the pairs of a map at indexes: those that a query selects, and those in the order of
//! the keys.
ghost use Rattle.std.specs.Prelude.{◌≡◌, ◌≤◌, length, slice_get, IfOk, IsOk, Ok, None};
ghost use Rattle.bptree_tree.specs.Cursor.{PointsAt, ShowsValueOf};
ghost use Rattle.bptree_tree.specs.Selected.{PointsAtSelected};

use super::BPlusTreeMap;
use bptree_arguments::argument::{Argument, SearchArgument};
use bptree_arguments::count::Count;
use bptree_keys::key::Key;
use bptree_tree::Cursor;
use std::alloc::AllocError;

impl<K: Key, V: Drop, A: Argument<K>> BPlusTreeMap<K, V, A> {
    /// A cursor on the pair at an index that is allowed for the query, with its value, or `None`.
    ///
    /// O(log n). It clones that key. It fails only if the clone or the argument fails.
    pub fn cursor_by_argument(
        &self,
        query: <A as SearchArgument<K>>::Query,
    ) -> Result<Option<(Cursor<K>, &V)>, AllocError>
    where
        A: SearchArgument<K>,
        ensures selected { IfOk result (PointsAtSelected A.selects query self.now K.cmp) }
        ensures infallible { A.needs_no_memory → ((key : K) → K.is_infallible key) → IsOk result }
    {
        self.inner.cursor_by_argument(query)
    }
}

impl<K: Key, V: Drop> BPlusTreeMap<K, V, Count> {
    /// A cursor on the pair at an index in the order of the keys, counted from 0, with its value,
    /// or `None` past the last one.
    ///
    /// O(log n). It clones that key, and fails only if the clone fails. Past the last pair it
    /// cannot fail.
    pub fn cursor_at(&self, i: usize) -> Result<Option<(Cursor<K>, &V)>, AllocError>
        ensures cursor { IfOk result (PointsAt K.cmp (slice_get self.now i)) }
        ensures value { IfOk result (ShowsValueOf (slice_get self.now i)) }
        ensures past { length self.now ≤ i → result ≡ Ok None }
        ensures infallible { ((key : K) → K.is_infallible key) → IsOk result }
    {
        if i >= self.len() {
            return Ok(None);
        }
        let found = self.cursor_by_argument(i)?;
        Ok(found)
    }
}
