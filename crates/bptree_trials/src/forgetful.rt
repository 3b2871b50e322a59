//! A store that caches no leaf.

use bptree_keys::compares::Compares;
use bptree_keys::node_id::{InnerNodeId, LeafNodeId};
use bptree_nodes::inner_node::InnerNode;
use bptree_nodes::leaf_node::LeafNode;
use bptree_stores::node_stores::{CloneStore, NodeStore};
use std::alloc::{AllocError, Global};

/// A wrapper of another store, but without its cached leaf.
#[derive(Drop)]
pub struct Forgetful<S: NodeStore> {
    inner: S,
}

impl<S: NodeStore> NodeStore for Forgetful<S> {
    ghost use Rattle.std.proofs.Common.{arith};
    ghost use Rattle.std.specs.Prelude.{◌≡◌};
    ghost use Rattle.bptree_nodes.specs.Slot.{Held, AddsInner, AddsLeaf};

    type K = S::K;

    type V = S::V;

    type Argument = S::Argument;

    const HINT_COMPARES: usize = 0;

    ghost HINT_COMPARES = { 0 };

    ghost slots = { λ store. S.slots store.inner };

    ghost with_inner = { λ store id node. record store { inner = S.with_inner store.inner id node } };

    ghost with_leaf = { λ store id leaf. record store { inner = S.with_leaf store.inner id leaf } };

    fn empty(alloc: Global) -> Self {
        Forgetful {
            inner: S::empty(alloc),
        }
    }

    fn allocator(&self) -> Global {
        self.inner.allocator()
    }

    fn is_empty(&self) -> bool {
        self.inner.is_empty()
    }

    fn reserve_inner(&mut self) -> Result<InnerNodeId, AllocError> {
        self.inner.reserve_inner()
    }

    fn reserve_leaf(&mut self) -> Result<LeafNodeId, AllocError> {
        self.inner.reserve_leaf()
    }

    fn get_inner(&self, id: InnerNodeId) -> &InnerNode<S::K, S::Argument> {
        self.inner.get_inner(id)
    }

    fn get_mut_inner(&mut self, id: InnerNodeId) -> &mut InnerNode<S::K, S::Argument> {
        self.inner.get_mut_inner(id)
    }

    fn get_leaf(&self, id: LeafNodeId) -> &LeafNode<S::K, S::V> {
        self.inner.get_leaf(id)
    }

    fn get_mut_leaf(&mut self, id: LeafNodeId) -> &mut LeafNode<S::K, S::V> {
        self.inner.get_mut_leaf(id)
    }

    fn try_get_inner(&self, id: InnerNodeId) -> Option<&InnerNode<S::K, S::Argument>> {
        self.inner.try_get_inner(id)
    }

    fn try_get_leaf(&self, id: LeafNodeId) -> Option<&LeafNode<S::K, S::V>> {
        self.inner.try_get_leaf(id)
    }

    fn take_inner(&mut self, id: InnerNodeId) -> Box<InnerNode<S::K, S::Argument>> {
        self.inner.take_inner(id)
    }

    fn take_leaf(&mut self, id: LeafNodeId) -> Box<LeafNode<S::K, S::V>> {
        self.inner.take_leaf(id)
    }

    fn put_back_inner(&mut self, id: InnerNodeId, node: Box<InnerNode<S::K, S::Argument>>)
        requires { (S.slots self.old.inner).inner id.0 ≡ Held }
        ensures { AddsInner (S.slots self.old.inner) (S.slots self.new.inner) node.value id }
    {
        self.inner.put_back_inner(id, node);
    }

    fn assign_leaf(&mut self, id: LeafNodeId, leaf: Box<LeafNode<S::K, S::V>>)
        requires { (S.slots self.old.inner).leaf id.0 ≡ Held }
        ensures { AddsLeaf (S.slots self.old.inner) (S.slots self.new.inner) leaf.value id }
    {
        self.inner.assign_leaf(id, leaf);
    }

    fn release_inner(&mut self, id: InnerNodeId) {
        self.inner.release_inner(id);
    }

    fn release_leaf(&mut self, id: LeafNodeId) {
        self.inner.release_leaf(id);
    }

    fn cache_leaf(&self, _id: LeafNodeId) {}

    fn try_cache(&self, _k: &S::K, _compares: &mut Compares) -> Option<LeafNodeId> {
        None
    }

    ghost hint_is_cheap = { Prim.omega arith };

    ghost with_inner_updates = { λ store. S.with_inner_updates store.inner };

    ghost with_leaf_updates = { λ store. S.with_leaf_updates store.inner };
}

impl<S: CloneStore> Clone for Forgetful<S>
where
    S::V: Clone,
{
    ghost is_clone = { λ store copy. S.is_clone store.inner copy.inner };

    fn clone(&self) -> Result<Self, AllocError> {
        match self.inner.clone() {
            Ok(inner) => Ok(Forgetful { inner }),
            Err(_) => Err(AllocError),
        }
    }
}

impl<S: CloneStore> CloneStore for Forgetful<S>
where
    S::V: Clone,
{
    ghost clone_has_same_numbers = { λ store copy. S.clone_has_same_numbers store.inner copy.inner };
}
