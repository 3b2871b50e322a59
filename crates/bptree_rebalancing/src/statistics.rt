//! Counters of the rotations and merges of a tree.

use crate::rotate_merge::Sibling;
use crate::underflow::Level;

/// Counts how nodes that underflowed were rebalanced, since the tree was made or last cleared. A
/// counter stops at `u64::MAX`.
///
/// A rotation to the right takes a pair or a child from the sibling before the node, and a rotation
/// to the left takes one from the sibling behind it. A merge with the left is a merge with the
/// sibling before the node, and a merge with the right is one with the sibling behind it.
#[derive(Clone, Debug, Default, Drop)]
pub struct Statistic {
    /// Inner nodes that took a child from the sibling before them.
    pub rotate_right_inner: u64,
    /// Inner nodes that took a child from the sibling behind them.
    pub rotate_left_inner: u64,
    /// Inner nodes that merged with the sibling before them.
    pub merge_with_left_inner: u64,
    /// Inner nodes that merged with the sibling behind them.
    pub merge_with_right_inner: u64,
    /// Leaves that took a pair from the sibling before them.
    pub rotate_right_leaf: u64,
    /// Leaves that took a pair from the sibling behind them.
    pub rotate_left_leaf: u64,
    /// Leaves that merged with the sibling before them.
    pub merge_with_left_leaf: u64,
    /// Leaves that merged with the sibling behind them.
    pub merge_with_right_leaf: u64,
}

/// How a node that underflowed was rebalanced.
#[derive(Clone, Copy)]
pub(crate) enum Rebalanced {
    /// The node took a pair or a child from the sibling on this side.
    Rotated(Sibling),
    /// The node merged with the sibling on this side.
    Merged(Sibling),
}

impl Statistic {
    /// Adds one to the counter of this kind of rebalancing at a level.
    pub(crate) fn count(&mut self, level: Level, done: Rebalanced) {
        let counter = match (level, done) {
            (Level::Leaf, Rebalanced::Rotated(Sibling::Left)) => &mut self.rotate_right_leaf,
            (Level::Leaf, Rebalanced::Rotated(Sibling::Right)) => &mut self.rotate_left_leaf,
            (Level::Leaf, Rebalanced::Merged(Sibling::Left)) => &mut self.merge_with_left_leaf,
            (Level::Leaf, Rebalanced::Merged(Sibling::Right)) => &mut self.merge_with_right_leaf,
            (Level::Inner, Rebalanced::Rotated(Sibling::Left)) => &mut self.rotate_right_inner,
            (Level::Inner, Rebalanced::Rotated(Sibling::Right)) => &mut self.rotate_left_inner,
            (Level::Inner, Rebalanced::Merged(Sibling::Left)) => &mut self.merge_with_left_inner,
            (Level::Inner, Rebalanced::Merged(Sibling::Right)) => &mut self.merge_with_right_inner,
        };
        *counter = counter.saturating_add(1);
    }
}
