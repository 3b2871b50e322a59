//! A type of groups for the tests.
ghost use Rattle.std.specs.Prelude.{◌≡◌};
ghost use Rattle.std.proofs.Common.{rules};

use bptree_arguments::group::FromRef;
use bptree_keys::key::Key;
use std::alloc::AllocError;

/// The first part of a pair, as the pair's group.
#[derive(PartialEq, Eq, PartialOrd, Ord, Debug, Drop)]
pub struct First(pub u64);

impl Clone for First {
    ghost is_clone = { λ x y. x ≡ y };

    fn clone(&self) -> Result<Self, AllocError> {
        Ok(First(self.0))
    }
}

impl Key for First {
    ghost clone_is_equal = { Prim.search rules };
}

impl FromRef<(u64, u64)> for First {
    ghost group_of = { λ pair. record { 0 = pair.0 } };

    fn from_ref(input: &(u64, u64)) -> Result<Self, AllocError> {
        Ok(First(input.0))
    }

    ghost keeps_order = { λ x y h. Prim.search rules };
}
