//! Cursors of a map by a probe.
ghost use Rattle.bptree_keys.specs.Contents.{next};
ghost use Rattle.bptree_tree.specs.Cursor.{ReturnsCursor, ReturnsNext};
ghost use Rattle.bptree_tree.specs.Entries.{at_least};

use crate::probe::Probe;
use crate::reading::{rank_by, start_by};
use bptree_arguments::count::Count;
use bptree_keys::key::Key;
use bptree_map::map::BPlusTreeMap;
use bptree_tree::Cursor;
use std::alloc::AllocError;

/// A cursor on the least key that is not below the one that the probe represents, with its value,
/// or `None`.
///
/// O(log n): two descents. It clones that key, and fails only if the clone fails. If there is no
/// such key, it cannot fail.
pub fn lower_bound_by<'a, K: Key, V: Drop, P: Probe<K>>(
    map: &'a BPlusTreeMap<K, V, Count>,
    probe: &P,
) -> Result<Option<(Cursor<K>, &'a V)>, AllocError>
    ensures { ReturnsCursor K.cmp K.is_infallible (at_least K.cmp map.now (P.meant probe.now)) result }
{
    map.cursor_at(start_by(map, probe))
}

/// A cursor on the least key above the one that the probe represents, with its value, or `None`.
///
/// O(log n): two descents. It clones that key, and fails only if the clone fails. If there is no
/// such key, it cannot fail.
pub fn upper_bound_by<'a, K: Key, V: Drop, P: Probe<K>>(
    map: &'a BPlusTreeMap<K, V, Count>,
    probe: &P,
) -> Result<Option<(Cursor<K>, &'a V)>, AllocError>
    ensures { ReturnsNext K.cmp K.is_infallible map.now (P.meant probe.now) result }
{
    match rank_by(map, probe) {
        Ok(index) => map.cursor_at(index + 1),
        Err(index) => map.cursor_at(index),
    }
}
