//! A position among the pairs of a tree, by its key.
ghost use Rattle.std.specs.Prelude.{◌≡◌, [], slice_get, IfOk, IsOk, Ok, None};
ghost use Rattle.std.specs.declared.cmp.Ordering.TheVariants.{Equal};
ghost use Rattle.std.specs.Option.{option_copied};
ghost use Rattle.bptree_keys.specs.Contents.{has, next, value, last_member};
ghost use Rattle.bptree_tree.specs.Cursor.{cursor_key, IsAtNext, IsAtPrevious, PointsAt, PointsAfter, PointsBefore, ShowsValueOf, pair_after, pair_before};

use crate::tree::BPlusTree;
use bptree_keys::key::Key;
use bptree_keys::node_id::Position;
use bptree_stores::node_stores::NodeStore;
use std::alloc::AllocError;

/// A key, which need not be in any tree. Each call names the tree that it reads, and its result
/// depends on the key alone.
///
/// A cursor remembers the position that its key had. Each use tests this position, so that it may
/// be wrong: the tree may have changed since, or be another one. If the position is right, a step
/// takes no search. If only the leaf is right, a step searches that leaf. Otherwise it searches
/// from the root.
#[derive(Clone, Copy, Debug, Drop)]
pub struct Cursor<K> {
    key: K,
    index: Position,
}

impl<K: Key> Cursor<K> {
    // A cursor on a clone of a key, which remembers a position.
    pub(crate) fn at(index: Position, key: &K) -> Result<Self, AllocError>
        ensures cursor { IfOk result (λ cursor. K.cmp (cursor_key cursor) key.now ≡ Equal) }
        ensures infallible { K.is_infallible key.now → IsOk result }
    {
        Ok(Cursor {
            key: key.clone()?,
            index,
        })
    }

    /// The key of the cursor.
    ///
    /// O(1). It allocates nothing and cannot fail.
    pub fn key(&self) -> &K
        ensures { result.now ≡ cursor_key self.now }
    {
        &self.key
    }

    /// A cursor on the least key of a tree, and the value there, or `None` if the tree is empty.
    ///
    /// O(log n). It clones that key, and fails only if the clone fails. If the tree is empty, it
    /// cannot fail.
    pub fn first<'t, S: NodeStore<K = K>>(
        tree: &'t BPlusTree<S>,
    ) -> Result<Option<(Self, &'t S::V)>, AllocError>
        ensures cursor { IfOk result (PointsAt K.cmp (slice_get tree.now.contents 0)) }
        ensures value { IfOk result (ShowsValueOf (slice_get tree.now.contents 0)) }
        ensures empty { tree.now.contents ≡ [] → result ≡ Ok None }
        ensures infallible { ((key : K) → K.is_infallible key) → IsOk result }
    {
        tree.cursor_at_first()
    }

    /// A cursor on the greatest key of a tree, and the value there, or `None` if the tree is empty.
    ///
    /// O(log n). It clones that key, and fails only if the clone fails. If the tree is empty, it
    /// cannot fail.
    pub fn last<'t, S: NodeStore<K = K>>(
        tree: &'t BPlusTree<S>,
    ) -> Result<Option<(Self, &'t S::V)>, AllocError>
        ensures cursor { IfOk result (PointsAt K.cmp (last_member tree.now.contents)) }
        ensures value { IfOk result (ShowsValueOf (last_member tree.now.contents)) }
        ensures empty { tree.now.contents ≡ [] → result ≡ Ok None }
        ensures infallible { ((key : K) → K.is_infallible key) → IsOk result }
    {
        tree.cursor_at_last()
    }

    /// A cursor on the least greater key, or `None` if there is no such key.
    ///
    /// O(1) if the key's position is still in the leaf that the cursor remembers, else O(log n). It
    /// clones the greater key, and fails only if the clone fails. If there is no such key, it
    /// cannot fail.
    pub fn next<S: NodeStore<K = K>>(&self, tree: &BPlusTree<S>) -> Result<Option<Self>, AllocError>
        ensures cursor { IfOk result (IsAtNext K.cmp tree.now.contents self.now) }
        ensures end { pair_after K.cmp tree.now.contents self.now ≡ None → result ≡ Ok None }
        ensures infallible { ((key : K) → K.is_infallible key) → IsOk result }
    {
        match self.next_with_value(tree)? {
            Some((cursor, _)) => Ok(Some(cursor)),
            None => Ok(None),
        }
    }

    /// A cursor on the greatest smaller key, or `None` if there is no such key.
    ///
    /// O(1) if the key's position is still in the leaf that the cursor remembers, else O(log n). It
    /// clones the smaller key, and fails only if the clone fails. If there is no such key, it
    /// cannot fail.
    pub fn prev<S: NodeStore<K = K>>(&self, tree: &BPlusTree<S>) -> Result<Option<Self>, AllocError>
        ensures cursor { IfOk result (IsAtPrevious K.cmp tree.now.contents self.now) }
        ensures end { pair_before K.cmp tree.now.contents self.now ≡ None → result ≡ Ok None }
        ensures infallible { ((key : K) → K.is_infallible key) → IsOk result }
    {
        match self.prev_with_value(tree)? {
            Some((cursor, _)) => Ok(Some(cursor)),
            None => Ok(None),
        }
    }

    /// As `next`, with the value there.
    ///
    /// O(1) if the key's position is still in the leaf that the cursor remembers, else O(log n). It
    /// clones the greater key, and fails only if the clone fails.
    pub fn next_with_value<'t, S: NodeStore<K = K>>(
        &self,
        tree: &'t BPlusTree<S>,
    ) -> Result<Option<(Self, &'t S::V)>, AllocError>
        ensures cursor { IfOk result (PointsAfter K.cmp tree.now.contents self.now) }
        ensures value { IfOk result (ShowsValueOf (pair_after K.cmp tree.now.contents self.now)) }
        ensures end { pair_after K.cmp tree.now.contents self.now ≡ None → result ≡ Ok None }
        ensures infallible { ((key : K) → K.is_infallible key) → IsOk result }
    {
        tree.cursor_after(self.index, &self.key)
    }

    /// As `prev`, with the value there.
    ///
    /// O(1) if the key's position is still in the leaf that the cursor remembers, else O(log n). It
    /// clones the smaller key, and fails only if the clone fails.
    pub fn prev_with_value<'t, S: NodeStore<K = K>>(
        &self,
        tree: &'t BPlusTree<S>,
    ) -> Result<Option<(Self, &'t S::V)>, AllocError>
        ensures cursor { IfOk result (PointsBefore K.cmp tree.now.contents self.now) }
        ensures value { IfOk result (ShowsValueOf (pair_before K.cmp tree.now.contents self.now)) }
        ensures end { pair_before K.cmp tree.now.contents self.now ≡ None → result ≡ Ok None }
        ensures infallible { ((key : K) → K.is_infallible key) → IsOk result }
    {
        tree.cursor_before(self.index, &self.key)
    }

    /// Whether a key of the tree equals the cursor's.
    ///
    /// O(1) if the key's position is still in the leaf that the cursor remembers, else O(log n). It
    /// allocates nothing and cannot fail.
    pub fn exists<S: NodeStore<K = K>>(&self, tree: &BPlusTree<S>) -> bool
        ensures { result ≡ has K.cmp tree.now.contents (cursor_key self.now) }
    {
        self.value(tree).is_some()
    }

    /// The value at the key of the tree that equals the cursor's, or `None`.
    ///
    /// O(1) if the key's position is still in the leaf that the cursor remembers, else O(log n). It
    /// allocates nothing and cannot fail.
    pub fn value<'t, S: NodeStore<K = K>>(&self, tree: &'t BPlusTree<S>) -> Option<&'t S::V>
        ensures { option_copied result ≡ value K.cmp tree.now.contents (cursor_key self.now) }
    {
        tree.value_near(self.index, &self.key)
    }
}
