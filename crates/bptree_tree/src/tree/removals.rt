//! Removals of pairs: with their keys, at both ends, by the summaries of keys, and of all.
ghost use Rattle.std.specs.Prelude.{◌≡◌, [], false, None, Ok, IfOk, OnErr};
ghost use Rattle.bptree_keys.specs.Contents.{has};
ghost use Rattle.bptree_keys.specs.Ends.{is_back};
ghost use Rattle.bptree_propagation.specs.Failing.{NeverFails};
ghost use Rattle.bptree_search.specs.ByArgument.{IsTaken};
ghost use Rattle.bptree_tree.specs.Whole.{IsWhole, IsUntouched, HasSameNodes};
ghost use Rattle.bptree_tree.specs.Changes.{PopsEnd, PopsFirst, PopsLast, RemovesEntry, RemovesReported};

use crate::tree::BPlusTree;
use bptree_arguments::argument::SearchArgument;
use bptree_keys::end::End;
use bptree_removal::removal;
use bptree_stores::node_stores::NodeStore;
use std::alloc::AllocError;

impl<S: NodeStore> BPlusTree<S> {
    /// Removes the pair at an index that is allowed for the query, and returns it, or `None`.
    ///
    /// O(log n). It fails only if a clone of a key or the argument fails; then the tree is
    /// unchanged, node by node.
    pub fn remove_by_argument(
        &mut self,
        query: <S::Argument as SearchArgument<S::K>>::Query,
    ) -> Result<Option<(S::K, S::V)>, AllocError>
    where
        S::Argument: SearchArgument<S::K>,
        ensures whole { IsWhole S.K.cmp S.Argument.is_summary S.slots self.new }
        ensures ok { IfOk result (IsTaken S.Argument.selects query self.old.contents self.new.contents) }
        ensures by_key { IfOk result (RemovesReported S.K.cmp self.old.contents self.new.contents) }
        ensures untouched { result ≡ Ok None → HasSameNodes S.slots self.new self.old }
        ensures err { OnErr result (self.new.contents ≡ self.old.contents) }
        ensures unchanged { OnErr result (IsUntouched S.slots self.new self.old) }
        ensures infallible { NeverFails S.Argument.needs_no_memory S.K.is_infallible result }
    {
        self.nodes.recall();
        removal::remove_by_argument(&mut self.nodes, &mut self.path, query, &mut self.statistic)
    }

    /// Removes the pair whose key equals `k`, and returns it with the stored key, or `None` if
    /// there is no such key.
    ///
    /// O(log n). It fails only if a clone of a key or a summary fails; then the tree is unchanged,
    /// node by node. If there is no such key, it cannot fail.
    pub fn remove_entry(&mut self, k: &S::K) -> Result<Option<(S::K, S::V)>, AllocError>
        ensures ok { IfOk result (RemovesEntry S.K.cmp k.now self.old.contents self.new.contents) }
        ensures absent { has S.K.cmp self.old.contents k.now ≡ false → result ≡ Ok None }
        ensures whole { IsWhole S.K.cmp S.Argument.is_summary S.slots self.new }
        ensures untouched { has S.K.cmp self.old.contents k.now ≡ false → IsUntouched S.slots self.new self.old }
        ensures err { OnErr result (self.new.contents ≡ self.old.contents) }
        ensures unchanged { OnErr result (IsUntouched S.slots self.new self.old) }
        ensures infallible { NeverFails S.Argument.needs_no_memory S.K.is_infallible result }
    {
        self.nodes.recall();
        removal::remove_entry(&mut self.nodes, &mut self.path, k, &mut self.statistic)
    }

    // Removes the pair with the least key, or the one with the greatest, and returns it.
    fn pop_end(&mut self, end: End) -> Result<Option<(S::K, S::V)>, AllocError>
        ensures ok { IfOk result (PopsEnd (is_back end) self.old.contents self.new.contents) }
        ensures empty { self.old.contents ≡ [] → result ≡ Ok None }
        ensures whole { IsWhole S.K.cmp S.Argument.is_summary S.slots self.new }
        ensures untouched { self.old.contents ≡ [] → IsUntouched S.slots self.new self.old }
        ensures err { OnErr result (self.new.contents ≡ self.old.contents) }
        ensures unchanged { OnErr result (IsUntouched S.slots self.new self.old) }
        ensures infallible { NeverFails S.Argument.needs_no_memory S.K.is_infallible result }
    {
        removal::remove_end(&mut self.nodes, &mut self.path, end, &mut self.statistic)
    }

    /// Removes the pair with the least key, and returns it, or `None` if the tree is empty.
    ///
    /// O(log n): at most one descent, which compares no key. It fails only if a clone of a key or a
    /// summary fails; then the tree is unchanged, node by node. If the tree is empty, it cannot
    /// fail.
    pub fn pop_first(&mut self) -> Result<Option<(S::K, S::V)>, AllocError>
        ensures ok { IfOk result (PopsFirst self.old.contents self.new.contents) }
        ensures empty { self.old.contents ≡ [] → result ≡ Ok None }
        ensures whole { IsWhole S.K.cmp S.Argument.is_summary S.slots self.new }
        ensures untouched { self.old.contents ≡ [] → IsUntouched S.slots self.new self.old }
        ensures err { OnErr result (self.new.contents ≡ self.old.contents) }
        ensures unchanged { OnErr result (IsUntouched S.slots self.new self.old) }
        ensures infallible { NeverFails S.Argument.needs_no_memory S.K.is_infallible result }
    {
        self.pop_end(End::Front)
    }

    /// Removes the pair with the greatest key, and returns it, or `None` if the tree is empty.
    ///
    /// O(log n): at most one descent, which compares no key. It fails only if a clone of a key or a
    /// summary fails; then the tree is unchanged, node by node. If the tree is empty, it cannot
    /// fail.
    pub fn pop_last(&mut self) -> Result<Option<(S::K, S::V)>, AllocError>
        ensures ok { IfOk result (PopsLast self.old.contents self.new.contents) }
        ensures empty { self.old.contents ≡ [] → result ≡ Ok None }
        ensures whole { IsWhole S.K.cmp S.Argument.is_summary S.slots self.new }
        ensures untouched { self.old.contents ≡ [] → IsUntouched S.slots self.new self.old }
        ensures err { OnErr result (self.new.contents ≡ self.old.contents) }
        ensures unchanged { OnErr result (IsUntouched S.slots self.new self.old) }
        ensures infallible { NeverFails S.Argument.needs_no_memory S.K.is_infallible result }
    {
        self.pop_end(End::Back)
    }

    /// Removes all pairs.
    ///
    /// O(n) to drop them. It allocates one leaf, and fails only if that fails; then the tree is
    /// unchanged, node by node.
    pub fn clear(&mut self) -> Result<(), AllocError>
        ensures whole { IsWhole S.K.cmp S.Argument.is_summary S.slots self.new }
        ensures ok { IfOk result (λ _. self.new.contents ≡ []) }
        ensures err { OnErr result (self.new.contents ≡ self.old.contents) }
        ensures unchanged { OnErr result (IsUntouched S.slots self.new self.old) }
    {
        let nodes = &self.nodes;
        let fresh = BPlusTree::new(S::empty(nodes.store.allocator()))?;
        *self = fresh;
        Ok(())
    }
}
