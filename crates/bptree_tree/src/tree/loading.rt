//! Trees of many pairs, built at once.
ghost use Rattle.std.specs.Prelude.{◌≡◌, IfErr, IfOk};
ghost use Rattle.bptree_keys.specs.Contents.{load, IsAscending};
ghost use Rattle.bptree_load_plan.specs.Loading.{IsInLoadOrder};
ghost use Rattle.bptree_tree.specs.Whole.{IsWhole};

use crate::building::build_or_return;
use crate::tree::BPlusTree;
use bptree_bulk_load::building::build;
use bptree_load_plan::loading::keep_last_of_each_run;
use bptree_stores::node_stores::NodeStore;
use std::alloc::AllocError;

impl<S: NodeStore> BPlusTree<S> {
    /// A tree of pairs whose keys do not descend, in a store that allocates from the vector's
    /// allocator. Of each run of pairs with equal keys the last stays, and the others are dropped.
    ///
    /// It compares each key with the next, and no other keys. It moves each pair once into a leaf,
    /// and clones one key of each leaf. While more than 64 pairs are left, a leaf gets 60 of them, so
    /// that it has room for insertions. Inner nodes are full. The last two nodes of a layer share
    /// what is left if the last would have too little. A failure drops the pairs and what was built
    /// of them.
    ///
    /// O(n) for n pairs. It fails only if an allocation, a clone of a key or a summary fails.
    pub fn bulk_load(mut pairs: Vec<(S::K, S::V)>) -> Result<Self, AllocError>
        requires { IsInLoadOrder S.K.cmp pairs.items }
        ensures contents { IfOk result (λ tree. tree.contents ≡ load S.K.cmp pairs.items) }
        ensures whole { IfOk result (IsWhole S.K.cmp S.Argument.is_summary S.slots) }
    {
        keep_last_of_each_run(&mut pairs);
        let store = S::empty(*pairs.allocator());
        if pairs.len() == 0 {
            return BPlusTree::new(store);
        }
        Ok(BPlusTree::of_nodes(build(store, pairs)?))
    }

    /// A tree of pairs whose keys ascend, in a store that allocates from the vector's allocator, or
    /// these pairs if the tree cannot be made.
    ///
    /// It moves each pair once into a leaf, and clones one key of each leaf. Leaves get 64 pairs,
    /// except for the last two. It allocates the nodes, and as much room as the pairs take, which it
    /// uses only if it fails.
    ///
    /// O(n) for n pairs. It fails only if an allocation, a clone of a key or a summary fails.
    pub fn from_ascending(pairs: Vec<(S::K, S::V)>) -> Result<Self, Vec<(S::K, S::V)>>
        requires { IsAscending S.K.cmp pairs.items }
        ensures contents { IfOk result (λ tree. tree.contents ≡ pairs.items) }
        ensures whole { IfOk result (IsWhole S.K.cmp S.Argument.is_summary S.slots) }
        ensures returned { IfErr result (λ back. back.items ≡ pairs.items) }
    {
        if pairs.len() == 0 {
            return match BPlusTree::new(S::empty(*pairs.allocator())) {
                Ok(tree) => Ok(tree),
                Err(_) => Err(pairs),
            };
        }
        match build_or_return(pairs) {
            Ok(nodes) => Ok(BPlusTree::of_nodes(nodes)),
            Err(back) => Err(back),
        }
    }
}
