//! Replies to the calls that trees, maps and sets have in common.

use crate::samples::{Sample, SampleSummary};
use crate::subject::NONE;
use crate::words::{Report, Words};
use bptree_tree::{InsertError, ReplaceError, SelectError};
use std::alloc::AllocError;

/// Reports the result of a call. Returns false if the result is an error.
pub fn report_if_ok<T: Report + Drop>(outcome: Result<T, AllocError>, words: &mut Words) -> bool {
    match outcome {
        Ok(it) => {
            it.report(words);
            true
        }
        Err(_) => false,
    }
}

/// Reports the key and the value that an insertion returned in its error.
pub fn report_back<K: Report + Drop, V: Report + Drop>(
    error: InsertError<K, V>,
    words: &mut Words,
) -> bool {
    match error {
        InsertError::OutOfMemory(key, value) => (key, value).report(words),
        InsertError::Full(_key, _value) => words.add(NONE),
    }
    false
}

/// Reports whether the ranked key is present, and the rank.
pub fn report_rank_of<K: Sample, A: SampleSummary<K>>(
    rank: Result<Result<A::Rank, A::Rank>, AllocError>,
    words: &mut Words,
) -> bool {
    let Ok(rank) = rank else {
        return false;
    };
    rank.is_ok().report(words);
    match &rank {
        Ok(rank) => A::report_rank(rank, words),
        Err(rank) => A::report_rank(rank, words),
    }
    true
}

/// Reports what an insertion returned, or the key and the value that its error returned.
pub fn report_inserted<T: Report + Drop, K: Report + Drop, V: Report + Drop>(
    outcome: Result<T, InsertError<K, V>>,
    words: &mut Words,
) -> bool {
    match outcome {
        Ok(it) => {
            it.report(words);
            true
        }
        Err(error) => report_back(error, words),
    }
}

/// Reports whether a key was replaced, and the key that the call returned. If an allocation failed,
/// it reports that key alone.
pub fn report_replaced<K: Report + Drop>(
    outcome: Result<K, ReplaceError<K>>,
    words: &mut Words,
) -> bool {
    match outcome {
        Ok(old) => Some(old).report(words),
        Err(ReplaceError::Absent(key)) => (0u64, key).report(words),
        Err(ReplaceError::OutOfMemory(key)) => {
            key.report(words);
            return false;
        }
    }
    true
}

/// Writes the value of a key that is present, and reports the old one.
pub fn write<V: Report + Drop>(at: Option<&mut V>, value: V, words: &mut Words) -> bool {
    match at {
        Some(at) => {
            words.add(1);
            at.report(words);
            *at = value;
        }
        None => words.add(0),
    }
    true
}

/// Writes a value that was found, and reports the old one.
pub fn write_found(found: Result<&mut u64, SelectError>, value: u64, words: &mut Words) -> bool {
    match found {
        Ok(at) => write(Some(at), value, words),
        Err(SelectError::NotFound) => write(None, value, words),
        Err(SelectError::OutOfMemory) => false,
    }
}
