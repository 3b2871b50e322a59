//! Keys that are made from numbers, and are ordered as the numbers are.

use crate::words::{Report, Words};
use bptree_arguments::argument::{Argument, CloneArgument, RankArgument, SearchArgument};
use bptree_arguments::count::Count;
use bptree_arguments::group::{FromRef, GroupCount};
use bptree_keys::key::{Key, Tuple2};
use std::alloc::{AllocError, Global};

/// A key for each number.
pub trait Sample: Key + Report {
    fn sample(alloc: Global, number: u64) -> Result<Self, AllocError>;
}

impl Sample for u64 {
    fn sample(_alloc: Global, number: u64) -> Result<u64, AllocError> {
        Ok(number)
    }
}

impl Sample for usize {
    fn sample(_alloc: Global, number: u64) -> Result<usize, AllocError> {
        Ok(number as usize)
    }
}

impl Sample for String {
    fn sample(alloc: Global, number: u64) -> Result<String, AllocError> {
        format!(in alloc; "{number:020}")
    }
}

// The number that the digits write. A text that is no sample may have the same number as a sample.
impl Report for String {
    fn report(&self, words: &mut Words) {
        let mut number: u64 = 0;
        for byte in self.as_bytes() {
            let digit = u64::from(*byte).wrapping_sub(48);
            number = number.wrapping_mul(10).wrapping_add(digit);
        }
        words.add(number);
    }
}

impl Sample for (String, u64) {
    fn sample(alloc: Global, number: u64) -> Result<(String, u64), AllocError> {
        Ok((String::sample(alloc, group_of(number))?, number))
    }
}

/// A group of keys.
pub trait Group<K: Key>: FromRef<K> + Key + Report {
    /// The group of a number's key.
    fn group(alloc: Global, number: u64) -> Result<Self, AllocError>;
}

impl Group<(String, u64)> for Tuple2<String> {
    fn group(alloc: Global, number: u64) -> Result<Tuple2<String>, AllocError> {
        Ok(Tuple2(String::sample(alloc, group_of(number))?))
    }
}

// Returns the group of a number. Each group has 170 numbers, and the last group has all others.
fn group_of(number: u64) -> u64 {
    (number / 170).min(25)
}

impl<T: Report> Report for Tuple2<T> {
    fn report(&self, words: &mut Words) {
        self.0.report(words);
    }
}

impl Report for Count {
    fn report(&self, words: &mut Words) {
        words.add(self.count() as u64);
    }
}

impl<G: Report> Report for GroupCount<G> {
    fn report(&self, words: &mut Words) {
        match self {
            GroupCount::Zero => words.add(0),
            GroupCount::One(group, size) => {
                words.add(1);
                group.report(words);
                words.add(*size as u64);
            }
            GroupCount::Multiple {
                min_group,
                max_group,
                group_count,
            } => {
                words.add(2);
                min_group.0.report(words);
                words.add(min_group.1 as u64);
                max_group.0.report(words);
                words.add(max_group.1 as u64);
                words.add(*group_count as u64);
            }
        }
    }
}

/// A summary that finds and ranks the keys of numbers.
pub trait SampleSummary<K: Sample>: SearchArgument<K>
    + RankArgument<K>
    + CloneArgument<K>
    + Report {
    /// Returns the query for the key at an index in the group of a number. Without groups the
    /// number is not used.
    fn query(alloc: Global, number: u64, index: u64) -> Result<Self::Query, AllocError>;

    fn report_rank(rank: &Self::Rank, words: &mut Words);
}

impl<K: Sample> SampleSummary<K> for Count {
    fn query(_alloc: Global, _number: u64, index: u64) -> Result<usize, AllocError> {
        Ok(index as usize)
    }

    fn report_rank(rank: &usize, words: &mut Words) {
        rank.report(words);
    }
}

impl<K: Sample, G: Group<K>> SampleSummary<K> for GroupCount<G> {
    fn query(alloc: Global, number: u64, index: u64) -> Result<(G, usize), AllocError> {
        Ok((G::group(alloc, number)?, index as usize))
    }

    fn report_rank(rank: &Option<(G, usize)>, words: &mut Words) {
        rank.report(words);
    }
}
