//! The results of calls that change a map, as `bptree_result` in `sweep_bptree.h` has them, and
//! what such a call writes.
ghost use Rattle.bptree_c_maps.specs.Results.{HasCode, HasPairCode};

use crate::pair::Pair;
use std::alloc::AllocError;

/// No such key or pair was present.
pub const ABSENT: u32 = 0;
/// A pair was removed.
pub const REMOVED: u32 = 1;
/// An allocation failed, and nothing has changed.
pub const NO_MEMORY: u32 = 2;
/// A pair with a new key was added.
pub const ADDED: u32 = 3;
/// The value of a key that was present was replaced.
pub const REPLACED: u32 = 4;
/// The key of the pair does not fit into the caller's array, and the map is unchanged.
pub const NO_ROOM: u32 = 5;

/// Returns the result of a removal that returned a value. The value is written if there was one;
/// otherwise nothing is written. O(1). It allocates nothing and cannot fail.
pub fn removed_value(outcome: Result<Option<u64>, AllocError>, old: &mut u64) -> u32
    ensures { HasCode 0 1 (λ it. it) outcome result old.old old.new }
{
    match outcome {
        Ok(Some(was)) => {
            *old = was;
            REMOVED
        }
        Ok(None) => ABSENT,
        Err(_) => NO_MEMORY,
    }
}

/// Returns the result of a removal that returned a pair. The pair is written if there was one;
/// otherwise nothing is written. O(1). It allocates nothing and cannot fail.
pub fn removed_pair(outcome: Result<Option<(u64, u64)>, AllocError>, pair: &mut Pair) -> u32
    ensures { HasPairCode outcome result pair.old pair.new }
{
    match outcome {
        Ok(Some((key, value))) => {
            *pair = Pair { key, value };
            REMOVED
        }
        Ok(None) => ABSENT,
        Err(_) => NO_MEMORY,
    }
}

/// Returns the result of a value that was stored. The old value is written if there was one;
/// otherwise nothing is written. O(1). It allocates nothing and cannot fail.
pub fn stored_value(outcome: Result<Option<u64>, AllocError>, old: &mut u64) -> u32
    ensures { HasCode 3 4 (λ it. it) outcome result old.old old.new }
{
    match outcome {
        Ok(Some(was)) => {
            *old = was;
            REPLACED
        }
        Ok(None) => ADDED,
        Err(_) => NO_MEMORY,
    }
}
