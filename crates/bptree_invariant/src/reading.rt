//! Reads of the nodes of a tree.
ghost use Rattle.std.specs.Prelude.{◌≡◌, ◌+◌, ◌*◌, ◌^◌, ◌<◌, ◌≤◌, length, slice_get};
ghost use Rattle.std.specs.Option.{option_copied, option_map};
ghost use Rattle.std.specs.Map.Iter.{deref_pair};
ghost use Rattle.bptree_keys.specs.Contents.{IsAscending, last_member, value};
ghost use Rattle.bptree_keys.specs.Searches.{CountsOne};
ghost use Rattle.bptree_invariant.specs.NodeTree.{BeginsWith, EndsWith, IsWhole, PathLeadsTo};

use crate::descent::{end_leaf, find_leaf};
use crate::nodes::Nodes;
use bptree_keys::compares::{Compares, SearchHint};
use bptree_keys::end::End;
use bptree_keys::node_id::LeafNodeId;
use bptree_stores::node_stores::NodeStore;

impl<S: NodeStore> Nodes<S> {
    /// Returns the number of pairs.
    ///
    /// O(1). It allocates nothing and cannot fail.
    pub fn len(&self) -> usize
        ensures value { result ≡ length self.now.contents }
        ensures ascending { IsAscending S.K.cmp self.now.contents }
        ensures whole { IsWhole S.K.cmp S.Argument.is_summary S.slots self.now }
    {
        self.len
    }

    /// States the invariants of every tree, for the proofs of callers. The body has no effect.
    #[inline(always)]
    pub fn recall(&self)
        ensures fits { length self.now.contents < 2 ^ 64 }
        ensures ascending { IsAscending S.K.cmp self.now.contents }
        ensures whole { IsWhole S.K.cmp S.Argument.is_summary S.slots self.now }
    {
        let _len = self.len();
    }

    /// Returns the leaf that a key belongs to, with a hint for a search of that leaf. Counts its
    /// comparisons.
    ///
    /// O(1) if the store has cached that leaf, and otherwise O(log n): one descent from the root,
    /// after which the store caches the leaf. It allocates nothing and cannot fail.
    #[inline(always)]
    pub fn leaf_for(&self, key: &S::K, compares: &mut Compares) -> (LeafNodeId, SearchHint)
        ensures leaf { PathLeadsTo S.slots self.now S.K.cmp key.now result.0 }
        ensures counts_on { compares.old ≤ compares.new }
        ensures count { compares.new ≤ compares.old + (7 * self.now.height + S.HINT_COMPARES) }
    {
        if let Some(leaf) = self.store.try_cache(key, compares) {
            return (leaf, SearchHint::Near);
        }
        let leaf = find_leaf(&self.store, self.root, self.height, key, compares);
        self.store.cache_leaf(leaf);
        (leaf, SearchHint::among(self.len, key))
    }

    /// Returns the value of a key, or `None` if the key is absent. Counts its comparisons.
    ///
    /// The cost is that of `leaf_for` and one search of the leaf. It allocates nothing and cannot
    /// fail.
    #[inline(always)]
    pub fn get<'a>(&'a self, key: &S::K, compares: &mut Compares) -> Option<&'a S::V>
        ensures value { option_copied result ≡ value S.K.cmp self.now.contents key.now }
        ensures counts_on { compares.old ≤ compares.new }
        ensures counts { 0 < length self.now.contents → CountsOne compares.old compares.new }
        ensures count { compares.new ≤ compares.old + (7 * (self.now.height + 1) + S.HINT_COMPARES) }
    {
        let (leaf, hint) = self.leaf_for(key, compares);
        let (_, value) = self
            .store
            .get_leaf(leaf)
            .locate_slot_with_value_counted(key, hint, compares);
        value
    }

    /// Returns the first leaf.
    ///
    /// O(log n). It allocates nothing and cannot fail.
    pub fn first_leaf(&self) -> LeafNodeId
        ensures { BeginsWith S.slots self.now result }
    {
        end_leaf(&self.store, self.root, self.height, End::Front)
    }

    /// Returns the last leaf.
    ///
    /// O(log n). It allocates nothing and cannot fail.
    pub fn last_leaf(&self) -> LeafNodeId
        ensures { EndsWith S.slots self.now result }
    {
        end_leaf(&self.store, self.root, self.height, End::Back)
    }

    /// Returns the pair with the least key, or `None` if the tree is empty.
    ///
    /// O(log n). It allocates nothing and cannot fail.
    pub fn first(&self) -> Option<(&S::K, &S::V)>
        ensures { option_map deref_pair result ≡ slice_get self.now.contents 0 }
    {
        let leaf = self.first_leaf();
        self.store.get_leaf(leaf).try_data_at(0)
    }

    /// Returns the pair with the greatest key, or `None` if the tree is empty.
    ///
    /// O(log n). It allocates nothing and cannot fail.
    pub fn last(&self) -> Option<(&S::K, &S::V)>
        ensures { option_map deref_pair result ≡ last_member self.now.contents }
    {
        let leaf = self.store.get_leaf(self.last_leaf());
        leaf.try_data_at(leaf.len().saturating_sub(1))
    }
}
