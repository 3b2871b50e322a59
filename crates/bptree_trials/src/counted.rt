//! Keys that count their own comparisons, and values that count their drops.
ghost use Rattle.std.specs.Prelude.{◌≡◌, ◌==◌, IfOk};
ghost use Rattle.std.proofs.Common.{rules};
ghost use Rattle.std.specs.Cmp.{partial_order_from_own_ties};
ghost use Rattle.std.specs.Cmp.Rules.{comparing};
ghost use Rattle.std.specs.Ordering.{nat_cmp, on, as_partial_cmp};

use crate::words::{Report, Words};
use bptree_keys::key::Key;
use std::alloc::{AllocError, Global};
use std::cell::Cell;
use std::cmp::Ordering;
use std::rc::Rc;

/// The number of comparisons of the keys that share these counts, and the number of values that
/// were dropped. Each live key and value holds one more pointer to the counts.
#[derive(Drop)]
pub struct Counts {
    pub compared: Cell<u64>,
    pub dropped: Cell<u64>,
}

/// Makes counts that are all 0.
pub fn no_counts(alloc: Global) -> Result<Rc<Counts>, AllocError> {
    let counts = Counts {
        compared: Cell::new(0),
        dropped: Cell::new(0),
    };
    Ok(Rc::new(alloc, counts)?)
}

/// Adds to a reply the number of values that were dropped, and the number of pointers to the
/// counts.
pub fn report_left(counts: &Rc<Counts>, words: &mut Words) {
    words.add(counts.dropped.get());
    words.add(Rc::strong_count(counts) as u64);
}

/// Adds all counts to a reply, and resets them.
pub fn report_counts(counts: &Rc<Counts>, words: &mut Words) {
    words.add(counts.compared.get());
    report_left(counts, words);
    counts.compared.set(0);
    counts.dropped.set(0);
}

/// A key or a value that is made from a number, and counts.
pub trait Counted: Report + Drop {
    fn counted(counts: &Rc<Counts>, number: u64) -> Result<Self, AllocError>;
}

/// Makes a key and a value.
pub fn counted_pair<K: Counted, V: Counted>(
    counts: &Rc<Counts>,
    number: u64,
    value: u64,
) -> Result<(K, V), AllocError> {
    Ok((K::counted(counts, number)?, V::counted(counts, value)?))
}

/// A number that counts its comparisons.
#[derive(Drop)]
pub struct CountedKey {
    number: u64,
    counts: Rc<Counts>,
}

impl CountedKey {
    fn count_one(&self) {
        let compared = &self.counts.compared;
        compared.set(compared.get().wrapping_add(1));
    }
}

fn key_of(counts: &Rc<Counts>, number: u64) -> Result<CountedKey, AllocError>
    ensures { IfOk result (λ key. key.number ≡ number) }
{
    Ok(CountedKey {
        number,
        counts: Rc::clone(counts)?,
    })
}

impl Report for CountedKey {
    fn report(&self, words: &mut Words) {
        words.add(self.number);
    }
}

impl Counted for CountedKey {
    fn counted(counts: &Rc<Counts>, number: u64) -> Result<Self, AllocError> {
        key_of(counts, number)
    }
}

impl Clone for CountedKey {
    ghost is_clone = { λ key copy. copy.number ≡ key.number };

    fn clone(&self) -> Result<Self, AllocError> {
        key_of(&self.counts, self.number)
    }
}

impl PartialEq for CountedKey {
    ghost eq = { on (λ c. c.number) ◌==◌ };

    ghost laws = { Prim.search (comparing, rules) };

    fn eq(&self, other: &Self) -> bool {
        self.count_one();
        self.number == other.number
    }
}

impl Eq for CountedKey {
    ghost laws = { Prim.search (comparing, rules) };
}

impl Ord for CountedKey {
    ghost cmp = { on (λ c. c.number) nat_cmp };

    ghost total = { Prim.search (comparing, rules) };

    ghost matches_partial_cmp = { Prim.search (comparing, rules) };

    ghost matches_eq = { Prim.search (comparing, rules) };

    fn cmp(&self, other: &Self) -> Ordering {
        self.count_one();
        self.number.cmp(&other.number)
    }
}

impl PartialOrd for CountedKey {
    ghost partial_cmp = { as_partial_cmp (on (λ c. c.number) nat_cmp) };

    ghost laws = { partial_order_from_own_ties (Prim.search (comparing, rules)) (Prim.search (comparing, rules)) };

    fn partial_cmp(&self, other: &Self) -> Option<Ordering> {
        Some(self.cmp(other))
    }
}

impl Key for CountedKey {
    ghost clone_is_equal = { Prim.search rules };
}

/// A number that counts its drops.
pub struct CountedValue {
    number: u64,
    counts: Rc<Counts>,
}

fn value_of(counts: &Rc<Counts>, number: u64) -> Result<CountedValue, AllocError> {
    Ok(CountedValue {
        number,
        counts: Rc::clone(counts)?,
    })
}

impl Report for CountedValue {
    fn report(&self, words: &mut Words) {
        words.add(self.number);
    }
}

impl Counted for CountedValue {
    fn counted(counts: &Rc<Counts>, number: u64) -> Result<Self, AllocError> {
        value_of(counts, number)
    }
}

impl Clone for CountedValue {
    fn clone(&self) -> Result<Self, AllocError> {
        value_of(&self.counts, self.number)
    }
}

impl Drop for CountedValue {
    fn drop(self) {
        let CountedValue {
            number: _number,
            counts,
        } = self;
        let dropped = &counts.dropped;
        dropped.set(dropped.get().wrapping_add(1));
    }
}
