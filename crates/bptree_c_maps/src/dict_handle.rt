//! A caller's handle in C for a map from byte strings: one pointer, as `Handle` is for a map of
//! numbers.
ghost use Rattle.std.specs.Prelude.{◌≡◌, ℕ, List, Option, Some, None, IsSome};

use crate::bytes::Bytes;
use crate::raw_box::RawBox;
use bptree_arguments::count::Count;
use bptree_map::map::BPlusTreeMap;
use std::alloc::Global;
use std::marker::Model;
use std::{mem, ptr};

/// A map from byte strings to numbers, with indices.
#[derive(Drop)]
pub struct Dict {
    pub pairs: BPlusTreeMap<Bytes, u64, Count>,
}

impl Model for Dict {
    ghost use Rattle.std.specs.Prelude.{List, ℕ};

    ghost Value = { List (List ℕ × ℕ) };

    ghost view = { λ dict. dict.pairs };
}

/// A map, or no map. The map is on the heap, and `at` points to it.
#[repr(C)]
#[derive(Drop)]
pub struct DictHandle {
    at: *mut u8,
    pub ghost held: { Option (List (List ℕ × ℕ)) },
}

impl Model for DictHandle {
    ghost use Rattle.bptree_c_maps.specs.Held.{held_owns};
    ghost use Rattle.bptree_c_maps.specs.contracts.dict_handle.Dict.{the_row};

    ghost also_owns = { λ h. held_owns the_row h.at h.held };
}

impl DictHandle {
    ghost use Rattle.std.specs.Borrow.{sem};
    ghost use Rattle.bptree_c_maps.specs.Borrowing.{BorrowsDict};

    fn empty() -> DictHandle
        ensures { result.held ≡ None }
    {
        DictHandle {
            at: ptr::null_mut(),
        }
    }

    fn from_raw(raw_box: RawBox<Dict, Global>) -> DictHandle
        ensures { result.held ≡ Some raw_box.value }
    {
        let RawBox { at, alloc: _ } = raw_box;
        DictHandle { at: at as *mut u8 }
    }

    fn into_raw(self, alloc: Global) -> RawBox<Dict, Global>
        requires { IsSome self.held }
        ensures { Some result.value ≡ self.held }
    {
        let DictHandle { at } = self;
        RawBox {
            at: at as *mut Dict,
            alloc,
        }
    }

    /// Borrows the map, which stays in its handle. The handle itself is not written. O(1). It
    /// allocates nothing and cannot fail.
    pub fn peek(&mut self) -> &mut Dict
        requires { IsSome self.old.held }
        ensures* writes_back { sem 𝓛 (BorrowsDict self.entry result) }
        ensures value { Some result.now ≡ self.old.held }
    {
        let at = self.at as *mut Dict;
        unsafe { &mut *at }
    }

    /// Takes the map out of its handle. O(1). It allocates nothing and cannot fail.
    pub fn take(&mut self, alloc: Global) -> Box<Dict>
        requires { IsSome self.old.held }
        ensures taken { Some result.value ≡ self.old.held }
        ensures left { self.new.held ≡ None }
    {
        mem::replace(self, DictHandle::empty())
            .into_raw(alloc)
            .into_box()
    }

    /// Puts a map into a handle that holds no map. O(1). It allocates nothing and cannot fail.
    pub fn give(&mut self, map: Box<Dict>)
        requires { self.old.held ≡ None }
        ensures { self.new.held ≡ Some map.value }
    {
        *self = DictHandle::from_raw(RawBox::of(map));
    }
}
