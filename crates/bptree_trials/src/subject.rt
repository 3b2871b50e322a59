//! The subjects of the calls of a caller.

use crate::record::Record;
use crate::words::Words;
use std::alloc::{AllocError, Global};

/// The subject of a caller's calls.
pub trait Subject: Drop + Sized {
    /// Makes a subject on which no call has been made.
    fn begin(alloc: Global) -> Result<Self, AllocError>;

    /// Makes the call of a record, and writes its reply to `words`. Returns false if an allocation
    /// failed. If the record names no call, the reply is `NONE`.
    fn call(&mut self, alloc: Global, record: &Record, words: &mut Words) -> bool;
}

/// The only word of the reply to a record that names no call.
pub const NONE: u64 = u64::MAX - 7;

/// Replies to a record that names no call.
pub fn no_call(words: &mut Words) -> bool {
    words.add(NONE);
    false
}
