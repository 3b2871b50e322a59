//! Maps that are compared, hashed and shown as the lists of their pairs.
ghost use Rattle.std.specs.Prelude.{◌≡◌};
ghost use Rattle.std.specs.Hash as fed;
ghost use Rattle.std.specs.List.{flat_map, fold};
ghost use Rattle.std.specs.Cmp.Lexicographic.{lists_equiv, lists_agrees, lists_total, lists_ties, lists_per, lists_po};
ghost use Rattle.std.specs.Cmp.{on_equiv, and_equiv, then_agrees, on_total, then_total, both_tied, on_per, and_per, on_po, then_po};
ghost use Rattle.std.specs.Hash.{on_Alike, and-Alike, items_Alike};
ghost use Rattle.std.specs.Ordering.{ordering_then};
ghost use Rattle.bptree_map.specs.Comparing.{pairs_eq, pairs_cmp, pairs_partial_cmp, pair_hash_input, pairs_hash_input};

use crate::map::BPlusTreeMap;
use bptree_arguments::argument::Argument;
use bptree_keys::key::Key;
use std::cmp::Ordering;
use std::fmt;
use std::fmt::{Debug, Formatter, Write};
use std::hash::{Hash, Hasher};

/// Two maps are equal if they have equally many pairs, with equal keys and equal values at each
/// index.
///
/// O(1) if the lengths differ, else O(n): it stops at the first two pairs that differ. It allocates
/// nothing and cannot fail.
impl<K: Key, V: PartialEq + Drop, A: Argument<K>> PartialEq for BPlusTreeMap<K, V, A> {
    ghost eq = { pairs_eq K.eq V.eq };

    ghost laws = { lists_per (and_per (on_per (λ p. p.0) K.PartialEq.laws) (on_per (λ p. p.1) V.laws)) };

    fn eq(&self, other: &Self) -> bool {
        if self.len() != other.len() {
            return false;
        }
        let (mut left, mut right) = (self.iter(), other.iter());
        while let Some(pair) = left.next() {
            let Some(beside) = right.next() else {
                unreachable!();
            };
            if pair != beside {
                return false;
            }
        }
        true
    }
}

impl<K: Key, V: Eq + Drop, A: Argument<K>> Eq for BPlusTreeMap<K, V, A> {
    ghost laws = { lists_equiv (and_equiv (on_equiv (λ p. p.0) K.Eq.laws) (on_equiv (λ p. p.1) V.Eq.laws)) };
}

/// The first two pairs that differ decide, by their keys, or by their values if the keys are equal.
/// If no pairs differ, the lengths decide. If the two values have no order, neither have the maps.
///
/// O(n). It allocates nothing and cannot fail.
impl<K: Key, V: PartialOrd + Drop, A: Argument<K>> PartialOrd for BPlusTreeMap<K, V, A> {
    ghost partial_cmp = { pairs_partial_cmp K.partial_cmp V.partial_cmp };

    ghost laws = { lists_po (then_po (on_po (λ p. p.0) K.PartialOrd.laws) (on_po (λ p. p.1) V.PartialOrd.laws)) };

    fn partial_cmp(&self, other: &Self) -> Option<Ordering> {
        let (mut left, mut right) = (self.iter(), other.iter());
        while let Some(pair) = left.next() {
            let Some(beside) = right.next() else {
                return Some(Ordering::Greater);
            };
            match pair.partial_cmp(&beside) {
                Some(Ordering::Equal) => {}
                decided => return decided,
            }
        }
        match right.next() {
            Some(_) => Some(Ordering::Less),
            None => Some(Ordering::Equal),
        }
    }
}

/// The first two pairs that differ decide, by their keys, or by their values if the keys are equal.
/// If no pairs differ, the lengths decide.
///
/// O(n). It allocates nothing and cannot fail.
impl<K: Key, V: Ord + Drop, A: Argument<K>> Ord for BPlusTreeMap<K, V, A> {
    ghost cmp = { pairs_cmp K.cmp V.cmp };

    ghost total = { lists_total (then_total (on_total (λ p. p.0) K.total) (on_total (λ p. p.1) V.total)) };

    ghost matches_partial_cmp = { lists_agrees (then_agrees (λ p q. K.matches_partial_cmp p.0 q.0) (λ p q. V.matches_partial_cmp p.1 q.1)) };

    ghost matches_eq = { λ x y.
        let K' = K.cmp in
        let V' = V.cmp in
        lists_ties (λ p q. ordering_then (K' p.0 q.0) (V' p.1 q.1)) (λ p q. both_tied _ _ (K' p.0 q.0) (V' p.1 q.1) (K.matches_eq p.0 q.0) (V.matches_eq p.1 q.1)) x y };

    fn cmp(&self, other: &Self) -> Ordering {
        self.iter().cmp(other.iter())
    }
}

/// Hashes the number of pairs, and then each key with its value.
///
/// O(n). It allocates nothing and cannot fail.
impl<K: Key + Hash, V: Hash + Drop, A: Argument<K>> Hash for BPlusTreeMap<K, V, A> {
    ghost hash_input = { pairs_hash_input K.hash_input V.hash_input };

    ghost respects_eq = { (items_Alike (and-Alike (on_Alike (λ p. p.0) (record { fed = K.respects_eq })) (on_Alike (λ p. p.1) (record { fed = V.respects_eq })))).fed };

    fn hash<H: Hasher>(&self, state: &mut H) {
        self.len().hash(state);
        let mut left = self.iter();
        while let Some((k, v)) = left.next() {
            k.hash(state);
            v.hash(state);
        }
    }
}

/// The pairs in the order of their keys, in the format of Rust's maps. The contract does not
/// specify the output.
impl<K: Key + Debug, V: Debug + Drop, A: Argument<K>> Debug for BPlusTreeMap<K, V, A> {
    fn fmt<W: Write>(&self, f: &mut Formatter<W>) -> fmt::Result {
        let mut out = f.debug_map();
        for (k, v) in self.iter() {
            out.entry(k, v);
        }
        out.finish()
    }
}
