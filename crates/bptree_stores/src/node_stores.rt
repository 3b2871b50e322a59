//! The trait of the stores that a tree can use.
ghost use Rattle.std.specs.Prelude.{◌≡◌, ◌+◌, ◌≤◌, ℕ, IfOk, IfErr, OnErr, IfSome, IsTrue, ◌↔◌};
ghost use Rattle.std.specs.Borrow.{Lends, sem};
ghost use Rattle.bptree_nodes.specs.Inner.{Inner};
ghost use Rattle.bptree_nodes.specs.Leaf.{Leaf, empty_leaf};
ghost use Rattle.bptree_nodes.specs.Slot.{Slot, Slots, Free, Held, Present, IsPresent, IsEmpty, UpdatesInner, UpdatesLeaf, AddsInner, AddsLeaf, HoldsInner, HoldsLeaf, BorrowsPresent};
ghost use Rattle.bptree_nodes.specs.contracts.inner_node.InnerNode.{the_row as inner_row};
ghost use Rattle.bptree_nodes.specs.contracts.leaf_node.LeafNode.{the_row as leaf_row};
ghost use Rattle.bptree_stores.specs.Hint.{HoldsKey};

use bptree_arguments::argument::Argument;
use bptree_keys::compares::Compares;
use bptree_keys::key::Key;
use bptree_keys::node_id::{InnerNodeId, LeafNodeId};
use bptree_nodes::inner_node::InnerNode;
use bptree_nodes::leaf_node::LeafNode;
use std::alloc::{AllocError, Global};

/// A store of inner nodes and leaves, each with an id. An id is free, reserved, or present with its
/// node.
///
/// A call changes only the state of the one id that is its argument or its result. A call on
/// `&self` and a call that fails change nothing. Only the calls that return a new id can fail.
pub trait NodeStore: Drop {
    /// The keys of the nodes.
    type K: Key;

    /// The values of the leaves.
    type V: Drop;

    /// The summaries of the inner nodes.
    type Argument: Argument<Self::K>;

    /// The greatest number of comparisons of `try_cache`.
    const HINT_COMPARES: usize;

    ghost HINT_COMPARES: { ℕ };

    // The state of each id.
    ghost slots: { Self → Slots (Inner Self.K Self.Argument) (Leaf Self.K Self.V) };

    // The store with another inner node for an id.
    ghost with_inner: { Self → ℕ → Inner Self.K Self.Argument → Self };

    // The store with another leaf for an id.
    ghost with_leaf: { Self → ℕ → Leaf Self.K Self.V → Self };

    /// Creates a store with no node and no reserved id, without an allocation. The store allocates
    /// from `alloc` as it grows.
    ///
    /// O(1) in `NodeStoreVec`. It cannot fail.
    fn empty(alloc: Global) -> Self
        ensures { IsEmpty (slots result) };

    /// Returns the allocator that the store was created with, for the nodes that are put into the
    /// store.
    ///
    /// O(1) in `NodeStoreVec`. It cannot fail.
    fn allocator(&self) -> Global;

    /// Returns whether no node is present and no id is reserved.
    ///
    /// O(1) in `NodeStoreVec`. It cannot fail.
    fn is_empty(&self) -> bool
        ensures { IsTrue result ↔ IsEmpty (slots self.now) };

    /// Reserves a free id for an inner node, so that `put_back_inner` cannot fail.
    ///
    /// O(1) in `NodeStoreVec`, amortized over its growth. It fails only if an allocation fails.
    fn reserve_inner(&mut self) -> Result<InnerNodeId, AllocError>
        ensures was_free { IfOk result (λ id. (slots self.old).inner id.0 ≡ Free) }
        ensures updates { IfOk result (HoldsInner (slots self.old) (slots self.new)) }
        ensures unchanged { OnErr result (slots self.new ≡ slots self.old) };

    /// Reserves a free id for a leaf, so that `assign_leaf` cannot fail.
    ///
    /// O(1) in `NodeStoreVec`, amortized over its growth. It fails only if an allocation fails.
    fn reserve_leaf(&mut self) -> Result<LeafNodeId, AllocError>
        ensures was_free { IfOk result (λ id. (slots self.old).leaf id.0 ≡ Free) }
        ensures updates { IfOk result (HoldsLeaf (slots self.old) (slots self.new)) }
        ensures unchanged { OnErr result (slots self.new ≡ slots self.old) };

    /// Returns the inner node of an id.
    ///
    /// O(1) in `NodeStoreVec`. It cannot fail.
    fn get_inner(&self, id: InnerNodeId) -> &InnerNode<Self::K, Self::Argument>
        requires { IsPresent ((slots self.now).inner id.0) }
        ensures { (slots self.now).inner id.0 ≡ Present result.now };

    /// Returns a mutable borrow of the inner node of an id.
    ///
    /// O(1) in `NodeStoreVec`. It cannot fail.
    fn get_mut_inner(&mut self, id: InnerNodeId) -> &mut InnerNode<Self::K, Self::Argument>
        requires { IsPresent ((slots self.old).inner id.0) }
        ensures* writes_back { sem 𝓛 (Lends Self.row (inner_row Self.K.row Self.Argument.row) self.entry result (with_inner self.old id.0)) }
        ensures value { (slots self.old).inner id.0 ≡ Present result.now };

    /// Returns the leaf of an id.
    ///
    /// O(1) in `NodeStoreVec`. It cannot fail.
    fn get_leaf(&self, id: LeafNodeId) -> &LeafNode<Self::K, Self::V>
        requires { IsPresent ((slots self.now).leaf id.0) }
        ensures { (slots self.now).leaf id.0 ≡ Present result.now };

    /// Returns a mutable borrow of the leaf of an id.
    ///
    /// O(1) in `NodeStoreVec`. It cannot fail.
    fn get_mut_leaf(&mut self, id: LeafNodeId) -> &mut LeafNode<Self::K, Self::V>
        requires { IsPresent ((slots self.old).leaf id.0) }
        ensures* writes_back { sem 𝓛 (Lends Self.row (leaf_row Self.K.row Self.V.row) self.entry result (with_leaf self.old id.0)) }
        ensures value { (slots self.old).leaf id.0 ≡ Present result.now };

    /// Returns the inner node of an id, or `None` if no node is present.
    ///
    /// O(1) in `NodeStoreVec`. It cannot fail.
    fn try_get_inner(&self, id: InnerNodeId) -> Option<&InnerNode<Self::K, Self::Argument>>
        ensures { BorrowsPresent ((slots self.now).inner id.0) result };

    /// Returns the leaf of an id, or `None` if no leaf is present.
    ///
    /// O(1) in `NodeStoreVec`. It cannot fail.
    fn try_get_leaf(&self, id: LeafNodeId) -> Option<&LeafNode<Self::K, Self::V>>
        ensures { BorrowsPresent ((slots self.now).leaf id.0) result };

    /// Takes an inner node out of the store. Its id remains reserved until a node is put back or
    /// the id is released.
    ///
    /// O(1) in `NodeStoreVec`. It cannot fail.
    fn take_inner(&mut self, id: InnerNodeId) -> Box<InnerNode<Self::K, Self::Argument>>
        requires { IsPresent ((slots self.old).inner id.0) }
        ensures value { (slots self.old).inner id.0 ≡ Present result.value }
        ensures updates { UpdatesInner (slots self.old) (slots self.new) id.0 Held };

    /// Takes a leaf out of the store. Its id remains reserved until a leaf is assigned to it or the
    /// id is released.
    ///
    /// O(1) in `NodeStoreVec`. It cannot fail.
    fn take_leaf(&mut self, id: LeafNodeId) -> Box<LeafNode<Self::K, Self::V>>
        requires { IsPresent ((slots self.old).leaf id.0) }
        ensures value { (slots self.old).leaf id.0 ≡ Present result.value }
        ensures updates { UpdatesLeaf (slots self.old) (slots self.new) id.0 Held };

    /// Puts an inner node into the store with a reserved id.
    ///
    /// O(1) in `NodeStoreVec`. It cannot fail.
    fn put_back_inner(&mut self, id: InnerNodeId, node: Box<InnerNode<Self::K, Self::Argument>>)
        requires { (slots self.old).inner id.0 ≡ Held }
        ensures { UpdatesInner (slots self.old) (slots self.new) id.0 (Present node.value) };

    /// Puts a leaf into the store with a reserved id.
    ///
    /// O(1) in `NodeStoreVec`. It cannot fail.
    fn assign_leaf(&mut self, id: LeafNodeId, leaf: Box<LeafNode<Self::K, Self::V>>)
        requires { (slots self.old).leaf id.0 ≡ Held }
        ensures { UpdatesLeaf (slots self.old) (slots self.new) id.0 (Present leaf.value) };

    /// Frees a reserved id of an inner node. The store may or may not reuse the id.
    ///
    /// O(1) in `NodeStoreVec`. It cannot fail.
    fn release_inner(&mut self, id: InnerNodeId)
        requires { (slots self.old).inner id.0 ≡ Held }
        ensures { UpdatesInner (slots self.old) (slots self.new) id.0 Free };

    /// Frees a reserved id of a leaf. The store may or may not reuse the id.
    ///
    /// O(1) in `NodeStoreVec`. It cannot fail.
    fn release_leaf(&mut self, id: LeafNodeId)
        requires { (slots self.old).leaf id.0 ≡ Held }
        ensures { UpdatesLeaf (slots self.old) (slots self.new) id.0 Free };

    /// Sets the cached leaf, which is a hint. Every id is allowed, since `try_cache` checks the
    /// leaf of the id.
    ///
    /// O(1) in `NodeStoreVec`. It cannot fail.
    fn cache_leaf(&self, id: LeafNodeId);

    /// Returns the id of the cached leaf, if the leaf is present and no other leaf can contain the
    /// key. A store may discard the id at any time. The comparisons are counted: at most
    /// `HINT_COMPARES`.
    ///
    /// O(1) in `NodeStoreVec`. It cannot fail.
    fn try_cache(&self, k: &Self::K, compares: &mut Compares) -> Option<LeafNodeId>
        ensures value { IfSome result (λ id. HoldsKey Self.K.cmp ((slots self.now).leaf id.0) k.now) }
        ensures counts_on { compares.old ≤ compares.new }
        ensures count { compares.new ≤ compares.old + HINT_COMPARES };

    // `try_cache` needs few comparisons.
    ghost hint_is_cheap: { HINT_COMPARES ≤ 1000 };

    // A write to a present inner node changes only the state of its id.
    ghost with_inner_updates: { (s : Self) (id : ℕ) (node : Inner Self.K Self.Argument)
        → IsPresent ((slots s).inner id)
        → UpdatesInner (slots s) (slots (with_inner s id node)) id (Present node) };

    // A write to a present leaf changes only the state of its id.
    ghost with_leaf_updates: { (s : Self) (id : ℕ) (leaf : Leaf Self.K Self.V)
        → IsPresent ((slots s).leaf id)
        → UpdatesLeaf (slots s) (slots (with_leaf s id leaf)) id (Present leaf) };
}

/// Returns the greatest number of keys of an inner node.
///
/// O(1). It allocates nothing and cannot fail.
pub fn inner_n<S: NodeStore>() -> u16
    ensures { result ≡ 64 }
{
    InnerNode::<S::K, S::Argument>::max_capacity()
}

/// Returns the greatest number of pairs of a leaf.
///
/// O(1). It allocates nothing and cannot fail.
pub fn leaf_n<S: NodeStore>() -> u16
    ensures { result ≡ 64 }
{
    LeafNode::<S::K, S::V>::max_capacity()
}

/// Adds an inner node and returns its id, which was free. If an allocation fails, nothing is changed
/// and the box is returned.
///
/// O(1) with `NodeStoreVec`, amortized over its growth. It fails only if an allocation fails.
pub fn add_inner<S: NodeStore>(
    store: &mut S,
    node: Box<InnerNode<S::K, S::Argument>>,
) -> Result<InnerNodeId, Box<InnerNode<S::K, S::Argument>>>
    ensures was_free { IfOk result (λ id. (S.slots store.old).inner id.0 ≡ Free) }
    ensures updates { IfOk result (AddsInner (S.slots store.old) (S.slots store.new) node.value) }
    ensures unchanged { OnErr result (S.slots store.new ≡ S.slots store.old) }
    ensures returned { IfErr result (λ back. back ≡ node) }
{
    match store.reserve_inner() {
        Ok(id) => {
            store.put_back_inner(id, node);
            Ok(id)
        }
        Err(_) => Err(node),
    }
}

/// Adds a leaf with no pairs and no links, and returns its id, which was free. The call allocates
/// the leaf and, if necessary, more room in the store. If an allocation fails, nothing is changed.
///
/// O(1) with `NodeStoreVec`, amortized over its growth.
pub fn new_empty_leaf<S: NodeStore>(store: &mut S) -> Result<LeafNodeId, AllocError>
    ensures was_free { IfOk result (λ id. (S.slots store.old).leaf id.0 ≡ Free) }
    ensures updates { IfOk result (AddsLeaf (S.slots store.old) (S.slots store.new) empty_leaf) }
    ensures unchanged { OnErr result (S.slots store.new ≡ S.slots store.old) }
{
    let leaf = LeafNode::new(store.allocator())?;
    let id = store.reserve_leaf()?;
    store.assign_leaf(id, leaf);
    Ok(id)
}

/// A store that can be cloned.
///
/// A clone that succeeds has the same ids present and reserved, and for each present id a clone of
/// its node.
pub trait CloneStore: NodeStore + Clone
where
    Self::V: Clone,
{
    ghost use Rattle.bptree_nodes.specs.Clones.{IsInnerClone, IsLeafClone};
    ghost use Rattle.bptree_stores.specs.Clones.{IsSlotsClone};

    ghost clone_has_same_numbers: { (store copy : Self) → Self.is_clone store copy
        → IsSlotsClone (IsInnerClone Self.K.is_clone Self.Argument.is_clone) (IsLeafClone Self.K.is_clone Self.V.is_clone) (Self.slots store) (Self.slots copy) };
}
