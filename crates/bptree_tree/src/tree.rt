//! A tree over the nodes of a store.
ghost use Rattle.std.specs.Prelude.{◌≡◌, ◌+◌, ◌*◌, ◌^◌, ◌<◌, ◌≤◌, ◌-◌, [], false, length, slice_get, IfOk, IfErr, OnErr, Ok, None, IsTrue, IsOk, ◌↔◌};
ghost use Rattle.std.specs.Map.{keys_of};
ghost use Rattle.std.specs.Map.Iter.{ShowsInOrder, deref_pair};
ghost use Rattle.std.specs.Option.{option_map, option_copied};
ghost use Rattle.bptree_propagation.specs.Failing.{NeverFails};
ghost use Rattle.bptree_keys.specs.Contents.{IsAscending, has, value, last_member};
ghost use Rattle.bptree_nodes.specs.Slot.{IsEmpty};
ghost use Rattle.bptree_tree.specs.Returning.{ReturnsPair};
ghost use Rattle.bptree_tree.specs.Whole.{IsWhole, IsUntouched, HasSameNodes, HasShape, pairs_of_nodes};
ghost use Rattle.bptree_tree.specs.Changes.{FailsIfFull, Puts, Removes};

mod bounds;
mod cloning;
mod cursors;
mod entries;
mod extending;
mod indexes;
mod lending;
mod loading;
mod merging;
mod owning;
mod queries;
mod range_removal;
mod ranges;
mod removals;
mod replacing;
mod retaining;
mod splitting;
mod updating;

use crate::InsertError;
use crate::tree::lending::value_mut;
use bptree_insertion::insertion::{is_full, upsert};
use bptree_invariant::nodes::Nodes;
use bptree_iter::iterator::Iter;
use bptree_iter::part::{Part, PartLen};
use bptree_keys::compares::Compares;
use bptree_keys::entry_ref::VisitStack;
use bptree_keys::node_id::{NodeId, Position};
use bptree_rebalancing::statistics::Statistic;
use bptree_stores::node_stores::{NodeStore, new_empty_leaf};
pub use owning::IntoIter;
use std::alloc::AllocError;
use std::marker::Model;

/// Pairs of a key and a value, in the strictly ascending order of their keys, in the nodes of a
/// store.
#[derive(Drop)]
pub struct BPlusTree<S: NodeStore> {
    nodes: Nodes<S>,
    statistic: Statistic,
    // Scratch space for each change, which overwrites its contents.
    path: VisitStack,
}

impl<S: NodeStore> Model for BPlusTree<S> {
    ghost use Rattle.bptree_propagation.specs.NodeTree.{NodeTree};

    ghost Value = { NodeTree S S.K S.V S.Argument };

    ghost view = { λ tree. tree.nodes };
}

impl<S: NodeStore> BPlusTree<S> {
    // The tree of these nodes, with empty statistics.
    pub(crate) fn of_nodes(nodes: Nodes<S>) -> Self
        ensures { result ≡ nodes }
    {
        BPlusTree {
            nodes,
            statistic: Statistic::default(),
            path: VisitStack::new(),
        }
    }

    /// A tree with no pairs.
    ///
    /// O(1), but for the growth of the store. It allocates one leaf, and fails only if an
    /// allocation fails.
    pub fn new(mut store: S) -> Result<Self, AllocError>
        requires { IsEmpty (S.slots store) }
        ensures empty { IfOk result (λ tree. tree.contents ≡ []) }
        ensures whole { IfOk result (IsWhole S.K.cmp S.Argument.is_summary S.slots) }
    {
        let leaf = new_empty_leaf(&mut store)?;
        let nodes = Nodes {
            store,
            root: NodeId::Leaf(leaf),
            height: 0,
            len: 0,
            summary: S::Argument::default(),
        };
        Ok(BPlusTree::of_nodes(nodes))
    }

    /// The number of pairs.
    ///
    /// O(1). It allocates nothing and cannot fail.
    pub fn len(&self) -> usize
        ensures value { result ≡ length self.now.contents }
        ensures ascending { IsAscending S.K.cmp self.now.contents }
    {
        self.nodes.len()
    }

    /// Recalls what holds of every tree, for the proofs of callers: the length fits in 64 bits, and
    /// the keys ascend. It does nothing, in constant time, and never fails.
    ///
    /// O(1).
    #[inline(always)]
    pub fn recall(&self)
        ensures fits { length self.now.contents < 2 ^ 64 }
        ensures ascending { IsAscending S.K.cmp self.now.contents }
    {
        self.nodes.recall();
    }

    /// Whether there are no pairs.
    ///
    /// O(1). It allocates nothing and cannot fail.
    pub fn is_empty(&self) -> bool
        ensures { IsTrue result ↔ (self.now.contents ≡ []) }
    {
        self.nodes.len() == 0
    }

    /// The value at the key that equals `k`, or `None`.
    ///
    /// O(log n). It allocates nothing and cannot fail.
    pub fn get(&self, k: &S::K) -> Option<&S::V>
        ensures { option_copied result ≡ value S.K.cmp self.now.contents k.now }
    {
        self.nodes.get(k, &mut Compares::new())
    }

    /// The value at a key equal to `k`, and the number of comparisons of keys: at least 1 unless
    /// the tree is empty. Tests check that the search makes no comparison that it does not count.
    ///
    /// O(log n), or O(1) if the store has cached the leaf of `k`. It allocates nothing and cannot
    /// fail.
    pub fn get_counted(&self, k: &S::K) -> (Option<&S::V>, usize)
        ensures value { option_copied result.0 ≡ value S.K.cmp self.now.contents k.now }
        ensures count { result.1 ≤ 7 * (self.now.height + 1) + S.HINT_COMPARES }
        ensures some { 0 < length self.now.contents → 0 < result.1 }
    {
        let mut compares = Compares::new();
        let value = self.nodes.get(k, &mut compares);
        (value, compares.count())
    }

    /// The pair with the least key.
    ///
    /// O(log n). It allocates nothing and cannot fail.
    pub fn first(&self) -> Option<(&S::K, &S::V)>
        ensures { option_map deref_pair result ≡ slice_get self.now.contents 0 }
    {
        self.nodes.first()
    }

    /// The pair with the greatest key.
    ///
    /// O(log n). It allocates nothing and cannot fail.
    pub fn last(&self) -> Option<(&S::K, &S::V)>
        ensures { option_map deref_pair result ≡ last_member self.now.contents }
    {
        self.nodes.last()
    }

    /// An iterator over the pairs in the order of their keys, from both ends.
    ///
    /// O(log n) to begin, and O(1) a step. Neither it nor a step allocates or fails.
    pub fn iter(&self) -> Iter<'_, S>
        ensures rest { result ≡ self.now.contents }
        ensures ascending { IsAscending S.K.cmp self.now.contents }
        ensures runs { ShowsInOrder (deref_pair {K = S.K} {X = S.V}) }
    {
        let nodes = &self.nodes;
        let first = nodes.first_leaf();
        let last = nodes.last_leaf();
        let end = nodes.store.get_leaf(last).len();
        let part = Part {
            front: Position {
                leaf: first,
                slot: 0,
            },
            back: Position {
                leaf: last,
                slot: end,
            },
            limit: nodes.len,
            extent: PartLen::Exact,
        };
        Iter::new(&nodes.store, part)
    }

    /// Inserts `v` at `k`, and returns the value that was at `k` before. If a key equals `k`, that
    /// key is kept and only its value is replaced.
    ///
    /// O(log n), amortized over the growth of the store. It allocates a node for each full node on
    /// the path, and a new root if the root is full. It fails with `OutOfMemory` if an allocation,
    /// a clone of a key or a summary fails, and with `Full` if the tree has `usize::MAX` pairs and
    /// `k` is new. Then the tree is unchanged, node by node, and the error returns `k` and `v`. If
    /// a key equals `k`, it allocates nothing and cannot fail.
    pub fn insert(&mut self, k: S::K, v: S::V) -> Result<Option<S::V>, InsertError<S::K, S::V>>
        ensures ok { IfOk result (Puts S.K.cmp k v self.old.contents self.new.contents) }
        ensures err { IfErr result (ReturnsPair (k, v) self.old.contents self.new.contents) }
        ensures unchanged { IfErr result (λ _. IsUntouched S.slots self.new self.old) }
        ensures present { IsTrue (has S.K.cmp self.old.contents k) → IsOk result }
        ensures whole { IsWhole S.K.cmp S.Argument.is_summary S.slots self.new }
        ensures full { FailsIfFull S.K.cmp usize.MAX self.old.contents k v result }
    {
        if is_full(self.nodes.len()) && self.get(&k).is_none() {
            return Err(InsertError::Full(k, v));
        }
        match upsert(&mut self.nodes, &mut self.path, k, v) {
            Ok(was) => Ok(was),
            Err((k, v)) => Err(InsertError::OutOfMemory(k, v)),
        }
    }

    /// Removes the pair whose key equals `k`, and returns its value, or `None` if there is no such
    /// key.
    ///
    /// O(log n). Each node on the path gets a new summary, and the clone of a key can become a
    /// separator. It fails only if one of these fails; then the tree is unchanged, node by node. If
    /// there is no such key, it cannot fail.
    pub fn remove(&mut self, k: &S::K) -> Result<Option<S::V>, AllocError>
        ensures ok { IfOk result (Removes S.K.cmp k.now self.old.contents self.new.contents) }
        ensures absent { has S.K.cmp self.old.contents k.now ≡ false → result ≡ Ok None }
        ensures whole { IsWhole S.K.cmp S.Argument.is_summary S.slots self.new }
        ensures untouched { has S.K.cmp self.old.contents k.now ≡ false → HasSameNodes S.slots self.new self.old }
        ensures err { OnErr result (self.new.contents ≡ self.old.contents) }
        ensures unchanged { OnErr result (IsUntouched S.slots self.new self.old) }
        ensures infallible { NeverFails S.Argument.needs_no_memory S.K.is_infallible result }
    {
        match self.remove_entry(k)? {
            None => Ok(None),
            Some(pair) => {
                let (_, value) = pair;
                Ok(Some(value))
            }
        }
    }

    /// A summary of all keys; the `Default` if there are no keys.
    ///
    /// O(1). It allocates nothing and cannot fail.
    pub fn root_argument(&self) -> &S::Argument
        ensures value { result.now ≡ self.now.root_argument }
        ensures summary { S.Argument.is_summary result.now (keys_of self.now.contents) }
    {
        let nodes = &self.nodes;
        &nodes.summary
    }

    /// How often nodes that underflowed were rebalanced. The counts of a tree that is new, or was
    /// just cleared, are 0.
    ///
    /// O(1). It allocates nothing and cannot fail.
    pub fn statistic(&self) -> &Statistic {
        &self.statistic
    }

    /// The store that holds the nodes of this tree, and no others.
    ///
    /// O(1). It allocates nothing and cannot fail.
    pub fn node_store(&self) -> &S
        ensures value { result.now ≡ self.now.store }
        ensures shape { HasShape S.slots S.K.cmp S.Argument.is_summary self.now }
        ensures contents { self.now.contents ≡ pairs_of_nodes S.slots self.now }
    {
        let nodes = &self.nodes;
        &nodes.store
    }

    /// The nodes, with the store that holds them, for reads of many keys at once.
    ///
    /// O(1). It allocates nothing and cannot fail.
    pub fn nodes(&self) -> &Nodes<S>
        ensures { result.now ≡ self.now }
    {
        &self.nodes
    }

    /// The node id of the root.
    ///
    /// O(1). It allocates nothing and cannot fail.
    pub fn root_id(&self) -> NodeId
        ensures { result ≡ self.now.root }
    {
        let nodes = &self.nodes;
        nodes.root
    }

    /// The number of levels of inner nodes.
    ///
    /// O(1). It allocates nothing and cannot fail.
    pub fn height(&self) -> usize
        ensures value { result ≡ self.now.height }
        ensures levels { result ≤ 15 }
        ensures enough { 0 < result → 32 * 17 ^ (result - 1) ≤ length self.now.contents }
    {
        let nodes = &self.nodes;
        nodes.recall();
        nodes.height
    }
}

impl<S: NodeStore> BPlusTree<S> {
    ghost use Rattle.std.specs.Borrow.{sem};
    ghost use Rattle.std.specs.Option.{option_copied_mut};
    ghost use Rattle.bptree_keys.specs.Contents.{value};
    ghost use Rattle.bptree_tree.specs.Rows.{borrows_written};

    /// The value at the key that equals `k`, for writing, or `None`.
    ///
    /// O(log n). It allocates nothing and cannot fail.
    pub fn get_mut(&mut self, k: &S::K) -> Option<&mut S::V>
        ensures* writes_back { sem 𝓛 (borrows_written S.row S.K.row S.V.row S.Argument.row S.NodeStore S.K.Key S.Argument.Argument self.entry k.now result) }
        ensures value { option_copied_mut result ≡ value S.K.cmp self.old.contents k.now }
    {
        value_mut(&mut self.nodes, k)
    }
}
