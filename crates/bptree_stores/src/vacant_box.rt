//! The memory of a box without its value.
ghost use Rattle.std.specs.Prelude.{◌≡◌};
ghost use Rattle.std.specs.Vacant.{vacant};

use std::alloc::Allocator;
use std::marker::Model;
use std::mem::{align_of, size_of};

/// The memory of a box whose value was moved out. A value can be moved in again without an
/// allocation. A drop returns the memory to the allocator.
pub struct VacantBox<T, A: Allocator> {
    at: *mut T,
    alloc: A,
}

impl<T, A: Allocator> Model for VacantBox<T, A> {
    ghost also_owns = { λ e. vacant (A.dealloc_token e.alloc) T.row e.at };
}

impl<T, A: Allocator> VacantBox<T, A> {
    /// Moves the value out of a box, and keeps the memory of the box.
    pub fn empty(full: Box<T, A>) -> (T, VacantBox<T, A>)
    where
        T: Drop,
        ensures { result.0 ≡ full.value }
    {
        let (at, alloc) = Box::into_raw_with_allocator(full);
        let value = unsafe { at.read() };
        (value, VacantBox { at, alloc })
    }

    /// Moves a value into the memory, and returns the box.
    pub fn fill(self, value: T) -> Box<T, A>
        ensures { result.value ≡ value }
    {
        let VacantBox { at, alloc } = self;
        unsafe {
            at.write(value);
            Box::from_raw(alloc, at)
        }
    }

    fn free(self) -> A
        ensures { result ≡ self.alloc }
    {
        unsafe {
            self.alloc
                .deallocate(self.at as *mut u8, size_of::<T>(), align_of::<T>());
        }
        let VacantBox { at: _, alloc } = self;
        alloc
    }
}

impl<T, A: Allocator> Drop for VacantBox<T, A> {
    fn drop(self) {
        drop(self.free());
    }
}
