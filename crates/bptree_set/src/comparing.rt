//! Sets that are compared, hashed and shown as the lists of their keys.
ghost use Rattle.std.specs.Prelude.{◌≡◌};
ghost use Rattle.std.specs.Hash as fed;
ghost use Rattle.std.specs.List.{flat_map, fold};
ghost use Rattle.std.specs.Cmp.Lexicographic.{pointwise, slice_cmp, slice_partial_cmp, lists_equiv, lists_agrees, lists_total, lists_ties, lists_per, lists_po};
ghost use Rattle.std.specs.Hash.{items_Alike};

use crate::set::BPlusTreeSet;
use bptree_keys::key::Key;
use std::cmp::Ordering;
use std::fmt;
use std::fmt::{Debug, Formatter, Write};
use std::hash::{Hash, Hasher};

/// Two sets are equal if they have equally many keys, with equal keys at each index.
///
/// O(1) if the lengths differ, else O(n): it stops at the first two keys that differ. It allocates
/// nothing and cannot fail.
impl<K: Key> PartialEq for BPlusTreeSet<K> {
    ghost eq = { pointwise K.eq };

    ghost laws = { lists_per K.PartialEq.laws };

    fn eq(&self, other: &Self) -> bool {
        self.map == other.map
    }
}

impl<K: Key> Eq for BPlusTreeSet<K> {
    ghost laws = { lists_equiv K.Eq.laws };
}

/// The first two keys that differ decide. If no keys differ, the lengths decide. It allocates
/// nothing.
impl<K: Key> PartialOrd for BPlusTreeSet<K> {
    ghost partial_cmp = { slice_partial_cmp K.partial_cmp };

    ghost laws = { lists_po K.PartialOrd.laws };

    fn partial_cmp(&self, other: &Self) -> Option<Ordering> {
        self.map.partial_cmp(&other.map)
    }
}

/// The first two keys that differ decide. If no keys differ, the lengths decide. It allocates
/// nothing.
impl<K: Key> Ord for BPlusTreeSet<K> {
    ghost cmp = { slice_cmp K.cmp };

    ghost total = { lists_total K.total };

    ghost matches_partial_cmp = { lists_agrees K.matches_partial_cmp };

    ghost matches_eq = { lists_ties K.cmp K.matches_eq };

    fn cmp(&self, other: &Self) -> Ordering {
        self.map.cmp(&other.map)
    }
}

/// Hashes the number of keys, and then each key. It allocates nothing.
impl<K: Key + Hash> Hash for BPlusTreeSet<K> {
    ghost hash_input = { fed.slice K.hash_input };

    ghost respects_eq = { (items_Alike (record { fed = K.respects_eq })).fed };

    fn hash<H: Hasher>(&self, state: &mut H) {
        self.len().hash(state);
        let mut left = self.iter();
        while let Some(k) = left.next() {
            k.hash(state);
        }
    }
}

/// The keys in their order, in the format of Rust's sets. The contract does not specify the output.
impl<K: Key + Debug> Debug for BPlusTreeSet<K> {
    fn fmt<W: Write>(&self, f: &mut Formatter<W>) -> fmt::Result {
        f.debug_set().entries(self.iter()).finish()
    }
}
