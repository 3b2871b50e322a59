//! The indexes at which a group begins and ends among keys.
ghost use Rattle.std.specs.Prelude.{◌≡◌, ◌≤◌, length, IfOk};
ghost use Rattle.bptree_arguments.specs.GroupResults.{is_before, HasGroupBorder};
ghost use Rattle.bptree_keys.specs.Ends.{is_back};

use crate::group::FromRef;
use bptree_keys::end::End;
use bptree_keys::key::Key;
use std::alloc::AllocError;
use std::cmp::Ordering;

// Returns whether a key is before an end of a group, by how its own group compares to that group. A
// key of the group is before the back.
fn is_before(order: Ordering, end: End) -> bool
    ensures { result ≡ is_before (is_back end) order }
{
    match order {
        Ordering::Less => true,
        Ordering::Equal => end.is_back(),
        Ordering::Greater => false,
    }
}

/// Returns the number of ascending keys before an end of a group: `Front` counts the keys of
/// smaller groups, and `Back` those of the group too.
///
/// O(log k) for k keys: a binary search, which makes the groups of at most 7 of 64 keys. It
/// allocates what these groups do, and fails only if making one of them fails.
pub fn keys_before<K: Key, G: FromRef<K> + Key>(
    keys: &[K],
    group: &G,
    end: End,
) -> Result<usize, AllocError>
    ensures in_range { IfOk result (λ n. n ≤ length keys.now) }
    ensures border { IfOk result (HasGroupBorder K.cmp G.cmp G.group_of group.now end keys.now) }
{
    let mut low = 0;
    let mut high = keys.len();
    while low < high {
        let middle = low + (high - low) / 2;
        let of_key = G::from_ref(&keys[middle])?;
        if is_before(of_key.cmp(group), end) {
            low = middle + 1;
        } else {
            high = middle;
        }
    }
    Ok(low)
}
