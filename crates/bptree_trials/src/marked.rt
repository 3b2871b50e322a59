//! Keys with a letter, which shows which one of two equal keys is kept.
ghost use Rattle.std.proofs.Common.{rules};

use crate::samples::Sample;
use crate::words::{Report, Words};
use bptree_keys::key::Key;
use std::alloc::{AllocError, Global};

/// A key that is a number. Its letter does not affect the order.
#[derive(Debug, Drop)]
#[derive_where(Clone, PartialEq, Eq, PartialOrd, Ord)]
pub struct Marked {
    number: u64,
    #[derive_where(skip(EqHashOrd))]
    letter: char,
}

impl Key for Marked {
    ghost clone_is_equal = { Prim.search rules };
}

// The highest byte of the number is the letter.
impl Sample for Marked {
    fn sample(_alloc: Global, number: u64) -> Result<Marked, AllocError> {
        Ok(Marked {
            number: number & 0xff_ffff_ffff_ffff,
            letter: number.to_le_bytes()[7] as char,
        })
    }
}

impl Report for Marked {
    fn report(&self, words: &mut Words) {
        words.add(self.number);
        words.add(u64::from(self.letter as u32));
    }
}
