//! Keys in several orders.

use std::alloc::{AllocError, Global};

/// The same keys in three orders, and all numbers below their number in two orders.
#[derive(Clone, Copy)]
pub struct Numbers<'a> {
    pub keys: &'a [u64],
    pub others: &'a [u64],
    pub sorted: &'a [u64],
    pub indexes: &'a [u64],
    pub again: &'a [u64],
}

/// Returns the number after another one, which is made of it by shifts.
pub fn next_number(state: u64) -> u64 {
    let mut next = state;
    next ^= next << 13;
    next ^= next >> 7;
    next ^= next << 17;
    next
}

/// Returns odd numbers in random order, of which few are equal.
pub fn odd_numbers(alloc: Global, many: usize) -> Result<Vec<u64>, AllocError> {
    let mut numbers = Vec::with_capacity(alloc, many)?;
    let mut state = 0x9e37_79b9_7f4a_7c15;
    for _ in 0..many {
        state = next_number(state);
        numbers.push(state | 1)?;
    }
    Ok(numbers)
}

/// Returns all numbers below `many`, in order.
pub fn numbers_below(alloc: Global, many: usize) -> Result<Vec<u64>, AllocError> {
    let mut numbers = Vec::with_capacity(alloc, many)?;
    for number in 0..many {
        numbers.push(number as u64)?;
    }
    Ok(numbers)
}

/// Shuffles numbers.
pub fn shuffle(numbers: &mut [u64]) {
    let mut state = 0x2545_f491_4f6c_dd1d;
    let many = numbers.len();
    for i in 1..many {
        state = next_number(state);
        let index = (state % (i as u64 + 1)) as usize;
        if index < numbers.len() && i < numbers.len() {
            numbers.swap(i, index);
        }
    }
}

/// Returns the numbers in another order.
pub fn shuffled(alloc: Global, numbers: &[u64]) -> Result<Vec<u64>, AllocError> {
    let mut others = numbers.to_vec(alloc)?;
    shuffle(&mut others);
    Ok(others)
}
