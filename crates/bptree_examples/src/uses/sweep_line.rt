//! A sweep line: the segments that it cuts, by their heights.
ghost use Rattle.std.specs.Prelude.{◌≡◌, IfOk};
ghost use Rattle.std.specs.Ordering.{nat_cmp};
ghost use Rattle.std.specs.Option.{option_map};
ghost use Rattle.bptree_examples.specs.Beside.{values_beside};

use crate::filling::filled;
use std::alloc::{AllocError, Global};
use sweep_bptree::{BPlusTree, BPlusTreeMap, Cursor, NodeStore};

/// The number of a segment at each height.
pub type Line = BPlusTreeMap<u64, u32>;

/// Returns a line that cuts segments at these heights.
pub fn new_line(alloc: Global, segments: &[(u64, u32)]) -> Result<Line, AllocError> {
    filled(alloc, segments)
}

/// Returns the segments next below a height and next above it. The height itself may be present or
/// absent.
///
/// It uses cursors of the map's tree. `get_cursor` searches once from the root, O(log n). The
/// cursor's `prev_with_value` and `next_with_value` take O(1) if the cursor's leaf has the pair.
/// Each allocates what a clone of a key allocates, here nothing, so that no call fails.
pub fn beside(line: &Line, height: u64) -> Result<(Option<u32>, Option<u32>), AllocError>
    ensures { IfOk result (λ both. both ≡ values_beside nat_cmp line.now height) }
{
    beside_in(line.tree(), height)
}

// Returns the segments beside a height in a map's tree, for any store of its nodes.
fn beside_in<S: NodeStore<K = u64, V = u32>>(
    tree: &BPlusTree<S>,
    height: u64,
) -> Result<(Option<u32>, Option<u32>), AllocError>
    ensures { IfOk result (λ both. both ≡ values_beside nat_cmp tree.now.contents height) }
{
    match tree.get_cursor(&height)? {
        Some((cursor, _)) => Ok((
            segment_of(cursor.prev_with_value(tree)?),
            segment_of(cursor.next_with_value(tree)?),
        )),
        None => unreachable!(),
    }
}

fn segment_of(found: Option<(Cursor<u64>, &u32)>) -> Option<u32>
    ensures { result ≡ option_map (λ there. there.1.now) found.entry }
{
    match found {
        Some((_, segment)) => Some(*segment),
        None => None,
    }
}

/// Returns the segments beside three heights.
pub fn run(alloc: Global) -> Result<[(Option<u32>, Option<u32>); 3], AllocError> {
    let line = new_line(alloc, &[(10, 1), (20, 2), (30, 3)])?;
    outcomes(&line)
}

fn outcomes(line: &Line) -> Result<[(Option<u32>, Option<u32>); 3], AllocError> {
    Ok([beside(line, 25)?, beside(line, 20)?, beside(line, 35)?])
}
