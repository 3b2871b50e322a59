//! The trait of a tree's keys, and its implementations for types of the standard library.

ghost use Rattle.std.specs.Prelude.{◌≡◌, string_bytes, IsTrue};
ghost use Rattle.std.specs.declared.cmp.Ordering.{Ordering};
ghost use Rattle.std.specs.declared.cmp.Ordering.TheVariants.{Equal};
ghost use Rattle.std.proofs.Common.{rules};
ghost use Rattle.std.proofs.lemmas.Cmp.{nat_list_cmp_total};
ghost use Rattle.bptree_keys.specs.Keys.{equal_if_same, then_equal, AllInfallible};

use crate::compares::LONG;
use std::mem::size_of_val;

/// A type whose values are ordered, and whose clones are equal to their originals.
pub trait Key: Clone + Ord {
    /// Returns `true` only if no clone of a key fails. The default, `false`, is always allowed.
    ///
    /// O(1). It allocates nothing and cannot fail.
    fn clones_never_fail() -> bool
        ensures { IsTrue result → AllInfallible Self.is_infallible }
    {
        false
    }

    /// Returns `true` if comparisons with the keys of a node, of which `self` is the first and
    /// `last` the last, are expected to read no memory beside the keys themselves. The result
    /// selects how an inner node is searched, and never changes what is found. The default is
    /// `true` for keys of at most 16 bytes.
    ///
    /// O(1). It allocates nothing and cannot fail.
    #[inline(always)]
    fn compares_in_place(&self, _last: &Self) -> bool {
        size_of_val(self) <= LONG
    }

    ghost clone_is_equal: { (x y : Self) → Self.is_clone x y → Self.cmp x y ≡ Equal };
}

impl Key for u8 {
    fn clones_never_fail() -> bool {
        true
    }

    ghost clone_is_equal = { Prim.search rules };
}

impl Key for u16 {
    fn clones_never_fail() -> bool {
        true
    }

    ghost clone_is_equal = { Prim.search rules };
}

impl Key for u32 {
    fn clones_never_fail() -> bool {
        true
    }

    ghost clone_is_equal = { Prim.search rules };
}

impl Key for u64 {
    fn clones_never_fail() -> bool {
        true
    }

    ghost clone_is_equal = { Prim.search rules };
}

impl Key for u128 {
    fn clones_never_fail() -> bool {
        true
    }

    ghost clone_is_equal = { Prim.search rules };
}

impl Key for usize {
    fn clones_never_fail() -> bool {
        true
    }

    ghost clone_is_equal = { Prim.search rules };
}

impl Key for i8 {
    fn clones_never_fail() -> bool {
        true
    }

    ghost clone_is_equal = { Prim.search rules };
}

impl Key for i16 {
    fn clones_never_fail() -> bool {
        true
    }

    ghost clone_is_equal = { Prim.search rules };
}

impl Key for i32 {
    fn clones_never_fail() -> bool {
        true
    }

    ghost clone_is_equal = { Prim.search rules };
}

impl Key for i64 {
    fn clones_never_fail() -> bool {
        true
    }

    ghost clone_is_equal = { Prim.search rules };
}

impl Key for i128 {
    fn clones_never_fail() -> bool {
        true
    }

    ghost clone_is_equal = { Prim.search rules };
}

impl Key for isize {
    fn clones_never_fail() -> bool {
        true
    }

    ghost clone_is_equal = { Prim.search rules };
}

impl Key for char {
    fn clones_never_fail() -> bool {
        true
    }

    ghost clone_is_equal = { Prim.search rules };
}

impl Key for bool {
    fn clones_never_fail() -> bool {
        true
    }

    ghost clone_is_equal = { Prim.search rules };
}

impl Key for String {
    ghost clone_is_equal = { λ x y same. equal_if_same nat_list_cmp_total (string_bytes x) (string_bytes y) same };
}

impl<A: Key, B: Key> Key for (A, B) {
    fn clones_never_fail() -> bool {
        A::clones_never_fail() && B::clones_never_fail()
    }

    ghost clone_is_equal = { λ x y is. then_equal (A.clone_is_equal x.0 y.0 is.0) (B.clone_is_equal x.1 y.1 is.1) };
}

/// A wrapper of one value: the first of a pair.
#[derive(Clone, PartialEq, Eq, PartialOrd, Ord, Debug, Drop)]
pub struct Tuple2<T>(pub T);

impl<T: Key> Key for Tuple2<T> {
    fn clones_never_fail() -> bool {
        T::clones_never_fail()
    }

    ghost clone_is_equal = { λ x y is. T.clone_is_equal x.0 y.0 is };
}
