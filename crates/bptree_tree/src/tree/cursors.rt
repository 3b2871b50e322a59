//! The positions of pairs of a tree, for cursors.
ghost use Rattle.std.specs.Prelude.{◌≡◌, [], slice_get, IfOk, IsOk, IsSomeAnd, Ok, None};
ghost use Rattle.std.specs.Option.{option_copied};
ghost use Rattle.bptree_keys.specs.Contents.{next, previous, value, last_member};
ghost use Rattle.bptree_tree.specs.Cursor.{ReturnsCursor, ReturnsNext, ReturnsPrevious, IsCursorAt, PointsAt, PointsAtKey, ShowsValueOf, found_pair};
ghost use Rattle.bptree_search.specs.Neighbours.{at_least, pair_on};

use crate::cursor::Cursor;
use crate::tree::BPlusTree;
use bptree_keys::end::Side;
use bptree_keys::node_id::Position;
use bptree_search::neighbours::{self, Found};
use bptree_stores::node_stores::NodeStore;
use std::alloc::AllocError;

// A cursor and the value at its key, or `None` if there is no pair for it.
pub(crate) type Shown<'t, K, V> = Result<Option<(Cursor<K>, &'t V)>, AllocError>;

impl<S: NodeStore> BPlusTree<S> {
    /// A cursor on the least key, or `None` if the tree is empty.
    ///
    /// O(log n). It clones that key, and fails only if the clone fails.
    pub fn cursor_first(&self) -> Result<Option<Cursor<S::K>>, AllocError>
        ensures cursor { IfOk result (IsCursorAt S.K.cmp (slice_get self.now.contents 0)) }
        ensures empty { self.now.contents ≡ [] → result ≡ Ok None }
        ensures infallible { ((key : S.K) → S.K.is_infallible key) → IsOk result }
    {
        match Cursor::first(self)? {
            Some((cursor, _)) => Ok(Some(cursor)),
            None => Ok(None),
        }
    }

    /// A cursor on `k`, which need not be present, with its value if it is.
    ///
    /// O(log n). It clones `k`, and fails only if the clone fails.
    pub fn get_cursor(&self, k: &S::K) -> Result<Option<(Cursor<S::K>, Option<&S::V>)>, AllocError>
        ensures cursor { IfOk result (λ outcome. IsSomeAnd outcome (PointsAtKey S.K.cmp self.now.contents k.now)) }
        ensures infallible { S.K.is_infallible k.now → IsOk result }
    {
        let (at, value) = self.index_with_value(k);
        Ok(Some((Cursor::at(at, k)?, value)))
    }

    /// A cursor on the least key that is not below `k`, with its value, or `None`.
    ///
    /// O(log n). It clones that key, and fails only if the clone fails. If there is no such key, it
    /// cannot fail.
    pub fn lower_bound(&self, k: &S::K) -> Result<Option<(Cursor<S::K>, &S::V)>, AllocError>
        ensures cursor { IfOk result (PointsAt S.K.cmp (at_least S.K.cmp self.now.contents k.now)) }
        ensures value { IfOk result (ShowsValueOf (at_least S.K.cmp self.now.contents k.now)) }
        ensures end { at_least S.K.cmp self.now.contents k.now ≡ None → result ≡ Ok None }
        ensures infallible { ((key : S.K) → S.K.is_infallible key) → IsOk result }
    {
        Self::cursor_on(self.index_beside(k, Side::Before))
    }

    /// A cursor on the least key above `k`, with its value, or `None`.
    ///
    /// O(log n). It clones that key, and fails only if the clone fails. If there is no such key, it
    /// cannot fail.
    pub fn upper_bound(&self, k: &S::K) -> Result<Option<(Cursor<S::K>, &S::V)>, AllocError>
        ensures cursor { IfOk result (PointsAt S.K.cmp (next S.K.cmp self.now.contents k.now)) }
        ensures value { IfOk result (ShowsValueOf (next S.K.cmp self.now.contents k.now)) }
        ensures end { next S.K.cmp self.now.contents k.now ≡ None → result ≡ Ok None }
        ensures infallible { ((key : S.K) → S.K.is_infallible key) → IsOk result }
    {
        Self::cursor_on(self.index_beside(k, Side::After))
    }

    // The position of a key, or the one at which it would be inserted, and the value at the key if
    // the key is present.
    fn index_with_value(&self, k: &S::K) -> (Position, Option<&S::V>)
        ensures { option_copied result.1 ≡ value S.K.cmp self.now.contents k.now }
    {
        match self.find(k) {
            Ok((at, (_, value))) => (at, Some(value)),
            Err(at) => (at, None),
        }
    }

    // A cursor on a clone of the key of a pair that was found, and the value there.
    pub(crate) fn cursor_on(found: Found<'_, S::K, S::V>) -> Shown<'_, S::K, S::V>
        ensures { ReturnsCursor S.K.cmp S.K.is_infallible (found_pair found.entry) result }
    {
        let Some((index, (key, value))) = found else {
            return Ok(None);
        };
        let cursor = Cursor::at(index, key)?;
        Ok(Some((cursor, value)))
    }

    // Cursors at the ends and beside a key, with the values there.

    pub(crate) fn cursor_at_first(&self) -> Shown<'_, S::K, S::V>
        ensures { ReturnsCursor S.K.cmp S.K.is_infallible (slice_get self.now.contents 0) result }
    {
        Self::cursor_on(self.first_index())
    }

    pub(crate) fn cursor_at_last(&self) -> Shown<'_, S::K, S::V>
        ensures { ReturnsCursor S.K.cmp S.K.is_infallible (last_member self.now.contents) result }
    {
        Self::cursor_on(self.last_index())
    }

    pub(crate) fn cursor_after(&self, at: Position, key: &S::K) -> Shown<'_, S::K, S::V>
        ensures { ReturnsNext S.K.cmp S.K.is_infallible self.now.contents key.now result }
    {
        Self::cursor_on(self.index_after(at, key))
    }

    pub(crate) fn cursor_before(&self, at: Position, key: &S::K) -> Shown<'_, S::K, S::V>
        ensures { ReturnsPrevious S.K.cmp S.K.is_infallible self.now.contents key.now result }
    {
        Self::cursor_on(self.index_before(at, key))
    }

    // The pairs at the ends and beside a key, with their positions.

    fn first_index(&self) -> Found<'_, S::K, S::V>
        ensures { found_pair result ≡ slice_get self.now.contents 0 }
    {
        neighbours::first_pair(&self.nodes)
    }

    fn last_index(&self) -> Found<'_, S::K, S::V>
        ensures { found_pair result ≡ last_member self.now.contents }
    {
        neighbours::last_pair(&self.nodes)
    }

    fn index_after(&self, at: Position, key: &S::K) -> Found<'_, S::K, S::V>
        ensures { found_pair result ≡ next S.K.cmp self.now.contents key.now }
    {
        neighbours::pair_after(&self.nodes, at, key)
    }

    // The pair with the least key that is not below `k`; on the side `After`, that is above `k`.
    fn index_beside(&self, k: &S::K, side: Side) -> Found<'_, S::K, S::V>
        ensures { found_pair result ≡ pair_on S.K.cmp self.now.contents k.now side }
    {
        neighbours::bound(&self.nodes, k, side)
    }

    fn index_before(&self, at: Position, key: &S::K) -> Found<'_, S::K, S::V>
        ensures { found_pair result ≡ previous S.K.cmp self.now.contents key.now }
    {
        neighbours::pair_before(&self.nodes, at, key)
    }

    // The value at a key. The search tries a position first.
    pub(crate) fn value_near(&self, at: Position, key: &S::K) -> Option<&S::V>
        ensures { option_copied result ≡ value S.K.cmp self.now.contents key.now }
    {
        neighbours::value_at(&self.nodes, at, key)
    }
}
