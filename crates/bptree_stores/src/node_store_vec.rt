//! A store over two slabs.
ghost use Rattle.std.specs.Prelude.{◌↔◌, IsTrue, IfOk};
ghost use Rattle.bptree_nodes.specs.Slot.{IsEmpty};
ghost use Rattle.bptree_stores.specs.IdState.{IsVacant};

use crate::id_state::IdState;
use crate::inline_node::InlineNode;
use crate::node_stores::{CloneStore, NodeStore};
use bptree_arguments::argument::Argument;
use bptree_keys::compares::Compares;
use bptree_keys::key::Key;
use bptree_keys::node_id::{InnerNodeId, LeafNodeId};
use bptree_nodes::inner_node::InnerNode;
use bptree_nodes::leaf_node::LeafNode;
use slab::Slab;
use std::alloc::{AllocError, Global};
use std::cell::Cell;
use std::mem;

// Returns whether no id is present or reserved.
fn is_vacant<H>(indexes: &Slab<IdState<H>>) -> bool
    ensures { IsTrue result ↔ IsVacant indexes.now }
{
    indexes.is_empty()
}

/// A store of nodes in two slabs: inner nodes in boxes, and leaves by value beside the empty memory
/// of their boxes. Released ids are reused, the last released first. If no released id is left, the
/// next id is the least one that was never used. So each id is less than the greatest number of ids
/// in use at a time, and a cached id can be the id of another leaf than it was.
///
/// A new id takes amortized constant time and moves no key and no value. It allocates nothing if a
/// released id is left. A clone copies every node. `try_cache` compares the key with at most two
/// others. Each other call takes constant time. A drop of the store drops each node that is
/// present.
#[derive(Drop)]
pub struct NodeStoreVec<K: Key, V, A: Argument<K> = ()> {
    inner_nodes: Slab<IdState<Box<InnerNode<K, A>>>>,
    leaf_nodes: Slab<IdState<InlineNode<LeafNode<K, V>>>>,
    alloc: Global,
    cached_leaf: Cell<usize>,
    // The id of the last call of `cache_leaf`. An id is cached when two successive calls have it.
    last_leaf: Cell<usize>,
}

impl<K: Key, V: Drop, A: Argument<K>> NodeStoreVec<K, V, A> {
    ghost use Rattle.bptree_stores.specs.StoreSlabs.{slots};

    /// Creates a store with no node and no reserved id.
    ///
    /// O(1). It allocates nothing and cannot fail.
    pub fn new(alloc: Global) -> Self
        ensures { IsEmpty (slots result) }
    {
        NodeStoreVec::empty(alloc)
    }

    /// Creates a store with no node and no reserved id, with room for `capacity` ids of each kind
    /// before the store allocates again.
    ///
    /// O(1), and at most two allocations. It fails only if one of these fails.
    pub fn with_capacity(alloc: Global, capacity: usize) -> Result<Self, AllocError>
        ensures { IfOk result (λ store. IsEmpty (slots store)) }
    {
        Ok(NodeStoreVec {
            inner_nodes: Slab::with_capacity(alloc, capacity)?,
            leaf_nodes: Slab::with_capacity(alloc, capacity)?,
            alloc,
            cached_leaf: Cell::new(usize::MAX),
            last_leaf: Cell::new(usize::MAX),
        })
    }
}

impl<K: Key, V: Drop, A: Argument<K>> NodeStore for NodeStoreVec<K, V, A> {
    ghost use Rattle.std.proofs.Common.{arith};
    ghost use Rattle.std.specs.Prelude.{◌≡◌, ℕ};
    ghost use Rattle.bptree_nodes.specs.Slot.{Free, Held, Present, UpdatesInner, UpdatesLeaf};
    ghost use Rattle.bptree_stores.specs.StoreSlabs.{slots, store_with_leaf, store_with_leaf_updates, store_with_inner, store_with_inner_updates};

    type K = K;

    type V = V;

    type Argument = A;

    const HINT_COMPARES: usize = 2;

    ghost HINT_COMPARES = { 2 };

    ghost slots = { slots };

    ghost with_inner = { store_with_inner };

    ghost with_leaf = { store_with_leaf };

    fn empty(alloc: Global) -> Self {
        NodeStoreVec {
            inner_nodes: Slab::new(alloc),
            leaf_nodes: Slab::new(alloc),
            alloc,
            cached_leaf: Cell::new(usize::MAX),
            last_leaf: Cell::new(usize::MAX),
        }
    }

    fn allocator(&self) -> Global {
        self.alloc
    }

    fn is_empty(&self) -> bool {
        is_vacant(&self.inner_nodes) && is_vacant(&self.leaf_nodes)
    }

    fn reserve_inner(&mut self) -> Result<InnerNodeId, AllocError> {
        Ok(InnerNodeId::from_usize(self.inner_nodes.insert(IdState::Reserved)?))
    }

    fn reserve_leaf(&mut self) -> Result<LeafNodeId, AllocError> {
        Ok(LeafNodeId::from_usize(self.leaf_nodes.insert(IdState::Reserved)?))
    }

    fn get_inner(&self, id: InnerNodeId) -> &InnerNode<K, A> {
        self.inner_nodes[id.as_usize()].holder()
    }

    fn get_mut_inner(&mut self, id: InnerNodeId) -> &mut InnerNode<K, A> {
        self.inner_nodes[id.as_usize()].holder_mut().as_mut()
    }

    fn get_leaf(&self, id: LeafNodeId) -> &LeafNode<K, V> {
        &self.leaf_nodes[id.as_usize()].holder().node
    }

    fn get_mut_leaf(&mut self, id: LeafNodeId) -> &mut LeafNode<K, V> {
        &mut self.leaf_nodes[id.as_usize()].holder_mut().node
    }

    fn try_get_inner(&self, id: InnerNodeId) -> Option<&InnerNode<K, A>> {
        match self.inner_nodes.get(id.as_usize()) {
            Some(IdState::Occupied(node)) => Some(node),
            _ => None,
        }
    }

    fn try_get_leaf(&self, id: LeafNodeId) -> Option<&LeafNode<K, V>> {
        match self.leaf_nodes.get(id.as_usize()) {
            Some(IdState::Occupied(inline_node)) => Some(&inline_node.node),
            _ => None,
        }
    }

    fn take_inner(&mut self, id: InnerNodeId) -> Box<InnerNode<K, A>> {
        match mem::replace(&mut self.inner_nodes[id.as_usize()], IdState::Reserved) {
            IdState::Occupied(node) => node,
            IdState::Reserved => unreachable!(),
        }
    }

    fn take_leaf(&mut self, id: LeafNodeId) -> Box<LeafNode<K, V>> {
        match mem::replace(&mut self.leaf_nodes[id.as_usize()], IdState::Reserved) {
            IdState::Occupied(inline_node) => inline_node.into_box(),
            IdState::Reserved => unreachable!(),
        }
    }

    fn put_back_inner(&mut self, id: InnerNodeId, node: Box<InnerNode<K, A>>)
        requires { (slots self.old).inner id.0 ≡ Held }
        ensures { UpdatesInner (slots self.old) (slots self.new) id.0 (Present node.value) }
    {
        self.inner_nodes[id.as_usize()] = IdState::Occupied(node);
    }

    fn assign_leaf(&mut self, id: LeafNodeId, leaf: Box<LeafNode<K, V>>)
        requires { (slots self.old).leaf id.0 ≡ Held }
        ensures { UpdatesLeaf (slots self.old) (slots self.new) id.0 (Present leaf.value) }
    {
        self.leaf_nodes[id.as_usize()] = IdState::Occupied(InlineNode::of(leaf));
    }

    fn release_inner(&mut self, id: InnerNodeId) {
        self.inner_nodes.remove(id.as_usize());
    }

    fn release_leaf(&mut self, id: LeafNodeId) {
        self.leaf_nodes.remove(id.as_usize());
    }

    fn cache_leaf(&self, id: LeafNodeId) {
        let number = id.as_usize();
        if self.last_leaf.get() == number {
            self.cached_leaf.set(number);
        } else {
            self.cached_leaf.set(usize::MAX);
            self.last_leaf.set(number);
        }
    }

    #[inline(always)]
    fn try_cache(&self, k: &K, compares: &mut Compares) -> Option<LeafNodeId> {
        let id = LeafNodeId::from_usize(self.cached_leaf.get());
        if self.try_get_leaf(id)?.in_range_counted(k, compares) {
            Some(id)
        } else {
            None
        }
    }

    ghost hint_is_cheap = { Prim.omega arith };

    ghost with_inner_updates = { store_with_inner_updates };

    ghost with_leaf_updates = { store_with_leaf_updates };
}

impl<K: Key, V: Clone, A: Argument<K>> Clone for NodeStoreVec<K, V, A> {
    ghost use Rattle.bptree_stores.specs.IdStateClones.{IsStoreClone};

    ghost is_clone = { IsStoreClone K.is_clone V.is_clone A.is_clone };

    /// Clones every node. The clone has the same cached leaf and reuses released ids in the same
    /// order. If a clone of a node fails, the clones made so far are dropped.
    fn clone(&self) -> Result<Self, AllocError> {
        Ok(NodeStoreVec {
            inner_nodes: self.inner_nodes.clone()?,
            leaf_nodes: self.leaf_nodes.clone()?,
            alloc: self.alloc,
            cached_leaf: Cell::new(self.cached_leaf.get()),
            last_leaf: Cell::new(self.last_leaf.get()),
        })
    }
}

impl<K: Key, V: Clone, A: Argument<K>> CloneStore for NodeStoreVec<K, V, A> {
    ghost use Rattle.bptree_stores.specs.IdStateClones.{slots_of_clone};

    ghost clone_has_same_numbers = { slots_of_clone K.is_clone V.is_clone A.is_clone };
}
