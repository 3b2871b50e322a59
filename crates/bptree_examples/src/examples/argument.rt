//! A summary that counts the even keys.
ghost use Rattle.std.specs.Prelude.{◌≡◌, ◌%◌, length, nat_eq};
ghost use Rattle.std.specs.List.{filter};
ghost use Rattle.std.specs.Map.{keys_of};
ghost use Rattle.std.proofs.Common.{rules};

use crate::filling::{filled, removed};
use std::alloc::{AllocError, Global};
use sweep_bptree::{Argument, BPlusTreeMap};

/// The number of even keys below a node.
#[derive(Clone, Copy, Default)]
pub struct EvenCount(pub usize);

// Returns the number of even keys.
fn evens_in(keys: &[u64]) -> usize
    ensures { result ≡ length (filter (λ key. nat_eq (key % 2) 0) keys.now) }
{
    keys.iter().filter(|key| **key % 2 == 0).count()
}

/// Nothing allocates, so that no call fails. The sum saturates at the greatest `usize`, and no list
/// of keys is longer than that.
impl Argument<u64> for EvenCount {
    ghost is_summary = { λ count keys. count.0 ≡ length (filter (λ key. nat_eq (key % 2) 0) keys) };

    fn from_leaf(keys: &[u64]) -> Result<EvenCount, AllocError> {
        Ok(EvenCount(evens_in(keys)))
    }

    fn from_inner(_keys: &[u64], arguments: &[EvenCount]) -> Result<EvenCount, AllocError> {
        let mut total = 0usize;
        for argument in arguments {
            total = total.saturating_add(argument.0);
        }
        Ok(EvenCount(total))
    }

    ghost default_is_summary = { λ _ h. Prim.search rules };
}

/// Numbers, each with itself as its value.
pub type Numbers = BPlusTreeMap<u64, u64, EvenCount>;

/// Returns the numbers below `end`, inserted in ascending order.
pub fn numbers_below(alloc: Global, end: u64) -> Result<Numbers, AllocError> {
    let mut pairs = Vec::new(alloc);
    for number in 0..end {
        pairs.push((number, number))?;
    }
    filled(alloc, &pairs)
}

/// Removes every second number from `from` on and below `end`.
pub fn remove_each_second(numbers: &mut Numbers, from: u64, end: u64) -> Result<(), AllocError> {
    for number in from..end {
        if number % 2 == from % 2 {
            removed(numbers, &number)?;
        }
    }
    Ok(())
}

/// Returns how many numbers are even. O(1). It allocates nothing and cannot fail.
pub fn even_count(numbers: &Numbers) -> usize
    ensures { result ≡ length (filter (λ key. nat_eq (key % 2) 0) (keys_of numbers.now)) }
{
    numbers.root_argument().0
}

/// Counts the even numbers below 100,000: of all numbers, after the first hundred even ones are
/// removed, and after the first hundred odd ones are removed too.
pub fn run(alloc: Global) -> Result<(usize, usize, usize), AllocError> {
    let mut numbers = numbers_below(alloc, 100_000)?;
    counts(&mut numbers)
}

fn counts(numbers: &mut Numbers) -> Result<(usize, usize, usize), AllocError> {
    let all = even_count(numbers);
    remove_each_second(numbers, 0, 200)?;
    let fewer = even_count(numbers);
    remove_each_second(numbers, 1, 200)?;
    Ok((all, fewer, even_count(numbers)))
}
