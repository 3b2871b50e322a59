//! A visitor that has the same result at each inner node.
ghost use Rattle.std.specs.Prelude.{⊤};

use bptree_arguments::argument::Argument;
use bptree_arguments::visit::{DescendVisit, DescendVisitResult};
use bptree_keys::key::Key;
use std::alloc::AllocError;

/// The result of a visitor at an inner node.
#[derive(Clone, Copy, Drop)]
pub enum Say {
    Child(usize),
    Nothing,
    Number(usize),
}

/// A visitor that has the same result at each inner node, and counts these nodes. A visit returns
/// the number of the result, or at a leaf the number of its keys, and then the count. Every result
/// is allowed.
#[derive(Drop)]
pub struct Says {
    say: Say,
    inners: usize,
}

impl Says {
    /// Makes a visitor that has visited no node.
    pub fn new(say: Say) -> Says {
        Says { say, inners: 0 }
    }
}

impl<K: Key, V, A: Argument<K>> DescendVisit<K, V, A> for Says {
    type Result = (usize, usize);

    ghost outcomes = { λ _ _ _. ⊤ };

    fn visit_inner(
        &mut self,
        _keys: &[K],
        _arguments: &[A],
    ) -> Result<DescendVisitResult<(usize, usize)>, AllocError> {
        self.inners = self.inners.saturating_add(1);
        Ok(match self.say {
            Say::Child(index) => DescendVisitResult::GoDown(index),
            Say::Nothing => DescendVisitResult::Cancel,
            Say::Number(number) => DescendVisitResult::Complete((number, self.inners)),
        })
    }

    fn visit_leaf(
        &mut self,
        keys: &[K],
        _values: &[V],
    ) -> Result<Option<(usize, usize)>, AllocError> {
        Ok(Some((keys.len(), self.inners)))
    }
}
