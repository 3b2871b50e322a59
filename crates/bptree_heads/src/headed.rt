//! A key beside its head.
ghost use Rattle.std.specs.Prelude.{◌≡◌, IfOk, ⊤};

use crate::head::HasHead;
use bptree_keys::key::Key;
use std::alloc::AllocError;
use std::cmp::Ordering;
use std::fmt::{self, Debug, Formatter, Write};
use std::marker::Model;

/// A key together with its head. Its order is that of the key. A comparison reads the key itself only
/// if both heads are equal.
#[derive(Drop)]
pub struct Headed<K: HasHead> {
    head: u64,
    key: K,
}

impl<K: HasHead> Model for Headed<K> {
    ghost Value = { K };

    ghost view = { λ headed. headed.key };

    ghost invariant = { λ headed. K.is_head headed.key headed.head };
}

impl<K: HasHead> Headed<K> {
    /// The key with its head.
    ///
    /// O(1). It allocates nothing and cannot fail.
    pub fn new(key: K) -> Self
        ensures { result ≡ key }
    {
        Headed {
            head: key.head(),
            key,
        }
    }

    /// The key.
    ///
    /// O(1). It allocates nothing and cannot fail.
    pub fn key(&self) -> &K
        ensures { result.now ≡ self.now }
    {
        &self.key
    }

    /// The head of the key.
    ///
    /// O(1). It allocates nothing and cannot fail.
    pub fn head(&self) -> u64
        ensures { K.is_head self.now result }
    {
        self.head
    }

    /// Takes the key out.
    ///
    /// O(1). It allocates nothing and cannot fail.
    pub fn into_key(self) -> K
        ensures { result ≡ self }
    {
        self.key
    }
}

impl<K: HasHead> Clone for Headed<K> {
    ghost is_clone = { K.is_clone };

    ghost is_infallible = { K.is_infallible };

    fn clone(&self) -> Result<Self, AllocError> {
        Ok(Headed::new(self.key.clone()?))
    }
}

impl<K: HasHead> PartialEq for Headed<K> {
    ghost eq = { K.eq };

    ghost laws = { K.PartialEq.laws };

    fn eq(&self, other: &Self) -> bool {
        self.head == other.head && self.key == other.key
    }
}

impl<K: HasHead> Eq for Headed<K> {
    ghost laws = { K.Eq.laws };
}

impl<K: HasHead> PartialOrd for Headed<K> {
    ghost partial_cmp = { K.partial_cmp };

    ghost laws = { K.PartialOrd.laws };

    fn partial_cmp(&self, other: &Self) -> Option<Ordering> {
        Some(self.cmp(other))
    }
}

impl<K: HasHead> Ord for Headed<K> {
    ghost cmp = { K.cmp };

    ghost total = { K.total };

    ghost matches_partial_cmp = { K.matches_partial_cmp };

    ghost matches_eq = { K.matches_eq };

    #[inline(always)]
    fn cmp(&self, other: &Self) -> Ordering {
        if self.head < other.head {
            Ordering::Less
        } else if self.head > other.head {
            Ordering::Greater
        } else {
            self.key.cmp(&other.key)
        }
    }
}

impl<K: HasHead> Key for Headed<K> {
    fn clones_never_fail() -> bool {
        K::clones_never_fail()
    }

    // The heads between two different heads are expected to differ from most others.
    #[inline(always)]
    fn compares_in_place(&self, last: &Self) -> bool {
        self.head != last.head
    }

    ghost clone_is_equal = { K.clone_is_equal };
}

impl<K: HasHead + Debug> Debug for Headed<K> {
    fn fmt<W: Write>(&self, f: &mut Formatter<W>) -> fmt::Result {
        self.key.fmt(f)
    }
}
