//! Samples that the tests of nodes share: numbers with one inserted among them, and a value that
//! counts its drops.

use std::alloc::{AllocError, Global};
use std::cell::Cell;
use std::rc::Rc;

/// The numbers `first`, `first + step` and so on, with `another` inserted at an index.
#[derive(Clone, Copy)]
pub struct Sequence {
    pub first: usize,
    pub step: usize,
    pub slot: usize,
    pub another: usize,
}

impl Sequence {
    /// Returns the number at an index.
    pub fn at(self, index: usize) -> usize {
        if index == self.slot {
            return self.another;
        }
        let steps = if index < self.slot { index } else { index - 1 };
        steps.saturating_mul(self.step).saturating_add(self.first)
    }
}

/// A value that adds one to the count when it is dropped.
pub struct Counted(pub Rc<Cell<u64>>);

impl Drop for Counted {
    fn drop(self) {
        let Counted(count) = self;
        count.set(count.get().saturating_add(1));
    }
}

/// Makes values that share one count.
pub fn several(
    alloc: Global,
    count: &Rc<Cell<u64>>,
    len: usize,
) -> Result<Vec<Counted>, AllocError> {
    let mut values = Vec::new(alloc);
    for _ in 0..len {
        values.push(Counted(Rc::clone(count)?))?;
    }
    Ok(values)
}
