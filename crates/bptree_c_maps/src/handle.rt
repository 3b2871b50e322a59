//! A caller's handle in C for a map: one pointer, in memory of its own.
ghost use Rattle.std.specs.Prelude.{◌≡◌, ℕ, List, Option, Some, None, IsSome};

use crate::raw_box::RawBox;
use bptree_arguments::count::Count;
use bptree_map::map::BPlusTreeMap;
use std::alloc::{AllocError, Global};
use std::marker::Model;
use std::{mem, ptr};

/// A map from numbers to numbers, with indices.
#[derive(Drop)]
pub struct Map {
    pub pairs: BPlusTreeMap<u64, u64, Count>,
}

impl Model for Map {
    ghost use Rattle.std.specs.Prelude.{List, ℕ};

    ghost Value = { List (ℕ × ℕ) };

    ghost view = { λ map. map.pairs };
}

/// A map, or no map. The map is on the heap, and `at` points to it.
#[repr(C)]
#[derive(Drop)]
pub struct Handle {
    at: *mut u8,
    pub ghost held: { Option (List (ℕ × ℕ)) },
}

impl Model for Handle {
    ghost use Rattle.bptree_c_maps.specs.Held.{held_owns};
    ghost use Rattle.bptree_c_maps.specs.contracts.handle.Map.{the_row};

    ghost also_owns = { λ h. held_owns the_row h.at h.held };
}

impl Handle {
    ghost use Rattle.std.specs.Borrow.{sem};
    ghost use Rattle.bptree_c_maps.specs.Borrowing.{BorrowsMap};

    fn empty() -> Handle
        ensures { result.held ≡ None }
    {
        Handle {
            at: ptr::null_mut(),
        }
    }

    fn from_raw(raw_box: RawBox<Map, Global>) -> Handle
        ensures { result.held ≡ Some raw_box.value }
    {
        let RawBox { at, alloc: _ } = raw_box;
        Handle { at: at as *mut u8 }
    }

    fn into_raw(self, alloc: Global) -> RawBox<Map, Global>
        requires { IsSome self.held }
        ensures { Some result.value ≡ self.held }
    {
        let Handle { at } = self;
        RawBox {
            at: at as *mut Map,
            alloc,
        }
    }

    /// Borrows the map, which stays in its handle. The handle itself is not written. O(1). It
    /// allocates nothing and cannot fail.
    pub fn peek(&mut self) -> &mut Map
        requires { IsSome self.old.held }
        ensures* writes_back { sem 𝓛 (BorrowsMap self.entry result) }
        ensures value { Some result.now ≡ self.old.held }
    {
        let at = self.at as *mut Map;
        unsafe { &mut *at }
    }

    /// Takes the map out of its handle. O(1). It allocates nothing and cannot fail.
    pub fn take(&mut self, alloc: Global) -> Box<Map>
        requires { IsSome self.old.held }
        ensures taken { Some result.value ≡ self.old.held }
        ensures left { self.new.held ≡ None }
    {
        mem::replace(self, Handle::empty())
            .into_raw(alloc)
            .into_box()
    }

    /// Puts a map into a handle that holds no map. O(1). It allocates nothing and cannot fail.
    pub fn give(&mut self, map: Box<Map>)
        requires { self.old.held ≡ None }
        ensures { self.new.held ≡ Some map.value }
    {
        *self = Handle::from_raw(RawBox::of(map));
    }
}
