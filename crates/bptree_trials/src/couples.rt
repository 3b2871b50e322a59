//! Keys of two numbers, the first of which is a group.

use crate::samples::{Group, Sample};
use bptree_keys::key::Tuple2;
use std::alloc::{AllocError, Global};

impl Sample for (u64, u64) {
    fn sample(_alloc: Global, number: u64) -> Result<(u64, u64), AllocError> {
        Ok((number >> 32, number & 0xffff_ffff))
    }
}

impl Group<(u64, u64)> for Tuple2<u64> {
    fn group(_alloc: Global, number: u64) -> Result<Tuple2<u64>, AllocError> {
        Ok(Tuple2(number >> 32))
    }
}
