//! Visitors, which descend one path of a tree and compute a result from its summaries.
ghost use Rattle.std.specs.Prelude.{◌≡◌, ◌≤◌, List, length, IfOk};
ghost use Rattle.bptree_arguments.specs.Visits.{VisitResult, ReturnsLeaf, StepsOver};

use crate::argument::Argument;
use bptree_keys::key::Key;
use std::alloc::AllocError;

/// The step that a visitor takes after it has seen an inner node.
#[derive(Drop)]
pub enum DescendVisitResult<R> {
    /// Continue in the child of this index. The index of the last child is the number of keys.
    GoDown(usize),
    /// End without a result.
    Cancel,
    /// End with this result.
    Complete(R),
}

/// The reason why a visit failed.
#[derive(Clone, Copy, Debug, PartialEq)]
pub enum DescendError {
    /// An allocation failed.
    OutOfMemory = 1,
    /// The visitor returned the index of a child that its node does not have.
    InvalidChild = 2,
}

/// A visitor of a tree. It sees one node per level, from the root down, and chooses the child to
/// continue in.
pub trait DescendVisit<K: Key, V, A: Argument<K>>: Drop {
    /// The type of a result.
    type Result: Drop;

    /// The result is allowed for the visitor on the pairs.
    ghost outcomes: { Self → List (K × V) → VisitResult Self.Result → Type 0 };

    /// Sees an inner node: its separators, and one summary for each child.
    ///
    /// O(c) for c children, in `ExtractGroupSize`. It fails only if an allocation fails.
    fn visit_inner(
        &mut self,
        keys: &[K],
        arguments: &[A],
    ) -> Result<DescendVisitResult<Self::Result>, AllocError>
        ensures step { IfOk result (StepsOver K.cmp outcomes A.is_summary keys.now arguments.now self.old self.new) };

    /// Sees the pairs of a leaf, whose keys ascend, and returns the result, or `None` to end
    /// without one.
    ///
    /// O(log k) for k keys, in `ExtractGroupSize`. It fails only if an allocation fails.
    fn visit_leaf(&mut self, keys: &[K], values: &[V]) -> Result<Option<Self::Result>, AllocError>
        requires few { length keys.now ≤ 64 }
        requires paired { length keys.now ≡ length values.now }
        ensures outcome { IfOk result (ReturnsLeaf K.cmp outcomes self.old keys.now values.now) };
}
