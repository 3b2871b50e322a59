//! A key of bytes.
ghost use Rattle.std.specs.Prelude.{◌≡◌, Some, IfOk, nat_eq};
ghost use Rattle.std.specs.Cmp.Lexicographic.{pointwise, slice_cmp, nat_list_eq_equiv, nat_list_cmp_total, texts_po, texts_ties};
ghost use Rattle.std.specs.Cmp.{partial_equiv_from_equiv};
ghost use Rattle.std.specs.Ordering.{nat_cmp};
ghost use Rattle.std.proofs.Common.{refl};
ghost use Rattle.bptree_keys.specs.Keys.{equal_if_same};
ghost use Rattle.bptree_heads.specs.Heads.{IsHeadOf};

use bptree_heads::head::{compare, head_of};
use bptree_keys::key::Key;
use bptree_probes::probe::Probe;
use std::alloc::{AllocError, Global};
use std::cmp::Ordering;
use std::marker::Model;

/// A string of bytes, which may be empty. The order is lexicographic.
#[derive(Drop)]
pub struct Bytes {
    head: u64,
    own: Vec<u8>,
}

impl Model for Bytes {
    ghost use Rattle.std.specs.Prelude.{List, ℕ};

    ghost Value = { List ℕ };

    ghost view = { λ bytes. bytes.own.items };

    ghost use Rattle.bptree_heads.specs.Heads.{IsHeadOf};

    ghost invariant = { λ bytes. IsHeadOf bytes.own.items bytes.head };
}

impl Bytes {
    /// Makes a copy of the given bytes. O(n). It fails only if the allocation for them fails.
    pub fn copy_of(alloc: Global, given: &[u8]) -> Result<Bytes, AllocError>
        ensures { IfOk result (λ bytes. bytes ≡ given.now) }
    {
        Ok(Bytes {
            head: head_of(given),
            own: Vec::from_slice(alloc, given)?,
        })
    }

    /// Returns the bytes. O(1). It allocates nothing and cannot fail.
    pub fn as_slice(&self) -> &[u8]
        ensures { result.now ≡ self.now }
    {
        self.own.as_slice()
    }
}

impl Clone for Bytes {
    ghost is_clone = { λ x y. y ≡ x };

    fn clone(&self) -> Result<Bytes, AllocError> {
        Bytes::copy_of(self.own.allocator().clone()?, self.as_slice())
    }
}

impl PartialEq for Bytes {
    ghost eq = { pointwise nat_eq };

    ghost laws = { partial_equiv_from_equiv nat_list_eq_equiv };

    fn eq(&self, other: &Bytes) -> bool {
        self.as_slice() == other.as_slice()
    }
}

impl Eq for Bytes {
    ghost laws = { nat_list_eq_equiv };
}

impl PartialOrd for Bytes {
    ghost partial_cmp = { λ x y. Some (slice_cmp nat_cmp x y) };

    ghost laws = { texts_po };

    fn partial_cmp(&self, other: &Bytes) -> Option<Ordering> {
        Some(self.cmp(other))
    }
}

impl Ord for Bytes {
    ghost cmp = { slice_cmp nat_cmp };

    ghost total = { nat_list_cmp_total };

    ghost matches_partial_cmp = { λ x y. refl };

    ghost matches_eq = { texts_ties };

    fn cmp(&self, other: &Bytes) -> Ordering {
        compare(
            self.head,
            self.own.as_slice(),
            other.head,
            other.own.as_slice(),
        )
    }
}

impl Key for Bytes {
    // The heads between two different heads are expected to differ from most others.
    #[inline(always)]
    fn compares_in_place(&self, last: &Self) -> bool {
        self.head != last.head
    }

    ghost clone_is_equal = { λ x y same. equal_if_same nat_list_cmp_total x y same };
}

/// A caller's bytes, which represent the key with the same bytes during a call.
#[derive(Drop)]
pub struct View<'a> {
    head: u64,
    bytes: &'a [u8],
}

impl<'a> Model for View<'a> {
    ghost use Rattle.std.specs.Prelude.{List, ℕ};

    ghost Value = { List ℕ };

    ghost view = { λ view. view.bytes.now };

    ghost use Rattle.bptree_heads.specs.Heads.{IsHeadOf};

    ghost invariant = { λ view. IsHeadOf view.bytes.now view.head };
}

impl<'a> View<'a> {
    /// Makes a view of the given bytes. O(1). It allocates nothing and cannot fail.
    pub fn of(bytes: &'a [u8]) -> Self
        ensures { result ≡ bytes.now }
    {
        View {
            head: head_of(bytes),
            bytes,
        }
    }
}

impl<'a> Probe<Bytes> for View<'a> {
    ghost meant = { λ view. view };

    fn order_of(&self, key: &Bytes) -> Ordering {
        compare(key.head, key.own.as_slice(), self.head, self.bytes)
    }
}
