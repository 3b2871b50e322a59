//! A node that is stored by value.
ghost use Rattle.std.specs.Prelude.{◌≡◌};

use crate::vacant_box::VacantBox;
use std::alloc::{AllocError, Global};

/// A node that was moved out of its box, beside the memory of the box. So a read of the node needs
/// one load less, and the node moves back into the box without an allocation.
#[derive(Drop)]
pub struct InlineNode<N> {
    pub node: N,
    room: VacantBox<N, Global>,
    // The allocator of clones.
    alloc: Global,
}

impl<N: Drop> InlineNode<N> {
    /// Moves a node out of its box.
    pub fn of(full: Box<N>) -> InlineNode<N>
        ensures { result.node ≡ full.value }
    {
        let alloc = *Box::allocator(&full);
        let (node, room) = VacantBox::empty(full);
        InlineNode { node, room, alloc }
    }

    /// Moves the node back into its box.
    pub fn into_box(self) -> Box<N>
        ensures { result.value ≡ self.node }
    {
        let InlineNode {
            node,
            room,
            alloc: _,
        } = self;
        room.fill(node)
    }
}

impl<N: Clone> Clone for InlineNode<N> {
    ghost is_clone = { λ inline_node copy. N.is_clone inline_node.node copy.node };

    fn clone(&self) -> Result<Self, AllocError> {
        Ok(InlineNode::of(Box::new(self.alloc, self.node.clone()?)?))
    }
}
