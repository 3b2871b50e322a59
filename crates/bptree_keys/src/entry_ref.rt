//! The path from the root to an entry of a leaf.
ghost use Rattle.std.specs.Prelude.{◌≡◌, ◌==◌, ◌<◌, ◌≤◌, ◌-◌, ◌∷◌, ◌++◌, [], length, take, slice_get, IsSome, IfSome, IfNone, ◌↔◌};

use crate::node_id::{InnerNodeId, LeafNodeId, NodeId};
use arrayvec::ArrayVec;
use std::marker::Model;

/// The greatest number of inner nodes on a path.
pub const PATH_CAPACITY: usize = 15;

/// The inner nodes on a path, each with the child index and the id of the next node on the path.
#[derive(Drop)]
pub struct VisitStack {
    entries: ArrayVec<(InnerNodeId, usize, NodeId), { PATH_CAPACITY }>,
}

impl Model for VisitStack {
    ghost use Rattle.std.specs.Prelude.{List, ℕ};
    ghost use Rattle.bptree_keys.specs.declared.node_id.InnerNodeId.{InnerNodeId};
    ghost use Rattle.bptree_keys.specs.declared.node_id.NodeId.{NodeId};

    ghost Value = { List (InnerNodeId × ℕ × NodeId) };

    ghost view = { λ s. s.entries.items };
}

impl VisitStack {
    /// Creates an empty path.
    pub fn new() -> Self
        ensures { result ≡ [] }
    {
        VisitStack {
            entries: ArrayVec::new(),
        }
    }

    /// Returns the number of inner nodes on the path.
    pub fn len(&self) -> usize
        ensures value { result ≡ length self.now }
        ensures fits { result ≤ 15 }
    {
        self.entries.len()
    }

    /// Returns whether the path is empty.
    pub fn is_empty(&self) -> bool
        ensures { result ≡ (length self.now == 0) }
    {
        self.entries.is_empty()
    }

    /// Appends an inner node to the path, which must have fewer than `PATH_CAPACITY` inner nodes.
    pub fn push(&mut self, id: InnerNodeId, offset: usize, child: NodeId)
        requires { length self.old < 15 }
        ensures { self.new ≡ self.old ++ (id, offset, child) ∷ [] }
    {
        self.entries.push((id, offset, child));
    }

    /// Removes all inner nodes from the path.
    pub fn clear(&mut self)
        ensures { self.new ≡ [] }
    {
        self.entries.clear();
    }

    /// Returns the last inner node of the path, or `None` if the path is empty.
    #[tactic(auto, using(crate::proofs::Paths::last_behind))]
    pub fn last(&self) -> Option<(InnerNodeId, usize, NodeId)>
        ensures value { result ≡ slice_get self.now (length self.now - 1) }
        ensures some { IfSome result (λ entry. self.now ≡ take (length self.now - 1) self.now ++ entry ∷ []) }
    {
        self.entries.last().copied()
    }

    /// Removes the last inner node from the path and returns it, or returns `None` if the path is
    /// empty.
    pub fn pop(&mut self) -> Option<(InnerNodeId, usize, NodeId)>
        ensures variant { IsSome result ↔ (0 < length self.old) }
        ensures some { IfSome result (λ entry. self.old ≡ self.new ++ entry ∷ []) }
        ensures none { IfNone result (self.new ≡ self.old) }
    {
        self.entries.pop()
    }
}

/// An entry of a leaf of a tree, with the path to it.
#[derive(Drop)]
pub struct EntryRef<TR> {
    /// The tree.
    pub tree: TR,
    /// The inner nodes on the path to the leaf.
    pub inner_stack: VisitStack,
    /// The leaf.
    pub leaf_id: LeafNodeId,
    /// The slot of the entry in the leaf.
    pub offset: usize,
}

/// An entry of a leaf, without its tree.
#[derive(Drop)]
pub struct EntryRefDetached {
    /// The inner nodes on the path to the leaf.
    pub inner_stack: VisitStack,
    /// The leaf.
    pub leaf_id: LeafNodeId,
    /// The slot of the entry in the leaf.
    pub offset: usize,
}

impl<TR> EntryRef<TR> {
    /// Creates an entry from its tree, the path to its leaf, the leaf, and its slot in the leaf.
    pub fn new(tree: TR, inner_stack: VisitStack, leaf_id: LeafNodeId, offset: usize) -> Self
        ensures { result ≡ record { tree = tree; inner_stack = inner_stack; leaf_id = leaf_id; offset = offset } }
    {
        EntryRef {
            tree,
            inner_stack,
            leaf_id,
            offset,
        }
    }
}

impl<TR: Drop> EntryRef<TR> {
    /// Returns the entry without its tree.
    pub fn to_detached(self) -> EntryRefDetached
        ensures { result ≡ record { inner_stack = self.inner_stack; leaf_id = self.leaf_id; offset = self.offset } }
    {
        let EntryRef {
            tree: _,
            inner_stack,
            leaf_id,
            offset,
        } = self;
        EntryRefDetached {
            inner_stack,
            leaf_id,
            offset,
        }
    }
}

impl EntryRefDetached {
    /// Returns the entry as one of `tree`.
    pub fn to_ref<TR>(self, tree: TR) -> EntryRef<TR>
        ensures { result ≡ record { tree = tree; inner_stack = self.inner_stack; leaf_id = self.leaf_id; offset = self.offset } }
    {
        let EntryRefDetached {
            inner_stack,
            leaf_id,
            offset,
        } = self;
        EntryRef::new(tree, inner_stack, leaf_id, offset)
    }
}
