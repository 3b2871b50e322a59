//! Ids of the nodes of a store.
ghost use Rattle.std.specs.Prelude.{◌≡◌, ◌-◌, ◌^◌, ◌↔◌, Some, IsSome, IsTrue};
ghost use Rattle.std.specs.Ordering.{nat_cmp};
ghost use Rattle.std.specs.declared.cmp.Ordering.TheVariants.{Equal};
ghost use Rattle.bptree_keys.specs.declared.node_id.InnerNodeId.{InnerNodeId};
ghost use Rattle.bptree_keys.specs.declared.node_id.LeafNodeId.{LeafNodeId};
ghost use Rattle.bptree_keys.specs.declared.node_id.NodeId.{NodeId};
ghost use Rattle.bptree_keys.specs.declared.node_id.NodeId.TheVariants.{Inner, Leaf};
ghost use Rattle.bptree_keys.specs.Numbers.{leaf_number, inner_number, node_order};

use std::cmp::Ordering;

/// The id of an inner node.
#[derive(Clone, Copy, PartialEq, Eq, PartialOrd, Ord, Debug)]
pub struct InnerNodeId(usize);

/// The id of a leaf.
#[derive(Clone, Copy, PartialEq, Eq, PartialOrd, Ord, Debug)]
pub struct LeafNodeId(usize);

/// The id of a node of either kind. The id of every inner node is less than the id of every leaf.
#[derive(Clone, Copy, PartialEq, Eq, PartialOrd, Ord, Debug)]
pub enum NodeId {
    Inner(InnerNodeId),
    Leaf(LeafNodeId),
}

/// A leaf and a slot in it: the slot of a pair, or the slot after the last pair.
#[derive(Clone, Copy, Debug, Drop)]
pub struct Position {
    /// The leaf.
    pub leaf: LeafNodeId,
    /// The slot in the leaf.
    pub slot: usize,
}

impl InnerNodeId {
    /// A placeholder, which is the id of no node.
    pub const INVALID: InnerNodeId = InnerNodeId(usize::MAX);

    /// Creates the id of an inner node from its `usize`.
    ///
    /// O(1). It allocates nothing and cannot fail.
    pub fn from_usize(number: usize) -> Self
        ensures { result ≡ record { 0 = number } }
    {
        InnerNodeId(number)
    }

    /// Returns the id as a `usize`.
    ///
    /// O(1). It allocates nothing and cannot fail.
    pub fn as_usize(self) -> usize
        ensures { result ≡ self.0 }
    {
        self.0
    }
}

impl LeafNodeId {
    /// Creates the id of a leaf from its `usize`.
    ///
    /// O(1). It allocates nothing and cannot fail.
    pub fn from_usize(number: usize) -> Self
        ensures { result ≡ record { 0 = number } }
    {
        LeafNodeId(number)
    }

    /// Returns the id as a `usize`.
    ///
    /// O(1). It allocates nothing and cannot fail.
    pub fn as_usize(self) -> usize
        ensures { result ≡ self.0 }
    {
        self.0
    }
}

impl NodeId {
    /// Returns the id of the leaf, or `None` if the node is an inner node.
    ///
    /// O(1). It allocates nothing and cannot fail.
    pub fn leaf_id(self) -> Option<LeafNodeId>
        ensures { result ≡ leaf_number self }
    {
        match self {
            NodeId::Leaf(id) => Some(id),
            NodeId::Inner(_) => None,
        }
    }

    /// Returns the id of the inner node, or `None` if the node is a leaf.
    ///
    /// O(1). It allocates nothing and cannot fail.
    pub fn inner_id(self) -> Option<InnerNodeId>
        ensures { result ≡ inner_number self }
    {
        match self {
            NodeId::Inner(id) => Some(id),
            NodeId::Leaf(_) => None,
        }
    }

    /// Returns the id of the leaf. The node must be a leaf.
    ///
    /// O(1). It allocates nothing and cannot fail.
    pub fn leaf_id_unchecked(self) -> LeafNodeId
        requires { IsSome (leaf_number self) }
        ensures { self ≡ Leaf result }
    {
        match self {
            NodeId::Leaf(id) => id,
            NodeId::Inner(_) => unreachable!(),
        }
    }

    /// Returns the id of the inner node. The node must be an inner node.
    ///
    /// O(1). It allocates nothing and cannot fail.
    pub fn inner_id_unchecked(self) -> InnerNodeId
        requires { IsSome (inner_number self) }
        ensures { self ≡ Inner result }
    {
        match self {
            NodeId::Inner(id) => id,
            NodeId::Leaf(_) => unreachable!(),
        }
    }
}

/// Compares two node ids. The clauses state the result of every comparison of ids, also of two ids
/// of one kind.
pub fn order_of(a: NodeId, b: NodeId) -> Ordering
    ensures value { result ≡ node_order a b }
    ensures equal { (result ≡ Equal) ↔ (a ≡ b) }
    ensures nodes { (x y : NodeId) → ⟦<NodeId as Ord>⟧.cmp x y ≡ node_order x y }
    ensures inner { (x y : InnerNodeId) → ⟦<InnerNodeId as Ord>⟧.cmp x y ≡ nat_cmp x.0 y.0 }
    ensures leaves { (x y : LeafNodeId) → ⟦<LeafNodeId as Ord>⟧.cmp x y ≡ nat_cmp x.0 y.0 }
    ensures same { (x y : NodeId) → IsTrue (⟦<NodeId as PartialEq>⟧.eq x y) ↔ (x ≡ y) }
{
    a.cmp(&b)
}

impl Default for InnerNodeId {
    ghost is_default = { λ id. id ≡ record { 0 = 2 ^ 64 - 1 } };

    fn default() -> Self {
        Self::INVALID
    }
}

impl Default for NodeId {
    ghost is_default = { λ id. id ≡ Inner (record { 0 = 2 ^ 64 - 1 }) };

    fn default() -> Self {
        NodeId::Inner(InnerNodeId::INVALID)
    }
}

impl From<InnerNodeId> for NodeId {
    ghost from_gives = { λ id node. node ≡ Inner id };

    fn from(id: InnerNodeId) -> Self {
        NodeId::Inner(id)
    }
}

impl From<LeafNodeId> for NodeId {
    ghost from_gives = { λ id node. node ≡ Leaf id };

    fn from(id: LeafNodeId) -> Self {
        NodeId::Leaf(id)
    }
}
