//! Ranks of keys in their groups, at concrete keys.
ghost use Rattle.std.specs.Prelude.{◌≤◌, length};
ghost use Rattle.bptree_arguments.specs.Ranks.{IsSlotIn};

use bptree_arguments::argument::RankArgument;
use bptree_arguments::group::{GroupCount, Tuple2};

type Groups = GroupCount<Tuple2<u64>>;

// Whether a key with this slot in a leaf has this rank in this group: `Ok` if the slot is `Ok`.
fn has_rank(
    k: &(u64, u64),
    slot: Result<usize, usize>,
    keys: &[(u64, u64)],
    group: u64,
    rank: usize,
) -> bool
    requires few { length keys.now ≤ 64 }
    requires slot { IsSlotIn keys.now slot }
{
    let start = <Groups as RankArgument<(u64, u64)>>::initial_value();
    let Ok(found) = <Groups as RankArgument<(u64, u64)>>::fold_leaf(k, start, slot, keys) else {
        return false;
    };
    let expected = Some((Tuple2(group), rank));
    match found {
        Ok(found) => slot.is_ok() && found == expected,
        Err(found) => slot.is_err() && found == expected,
    }
}

fn has_ranks() -> bool {
    let keys = [(1, 1), (1, 2), (1, 3), (2, 4), (3, 5)];
    // Before all keys, the first key of a group, and the third.
    has_rank(&(1, 0), Err(0), &keys, 1, 0)
        && has_rank(&(1, 1), Ok(0), &keys, 1, 0)
        && has_rank(&(1, 3), Ok(2), &keys, 1, 2)
        // Past a group, before a group, and past all keys.
        && has_rank(&(1, 4), Err(3), &keys, 1, 3)
        && has_rank(&(2, 3), Err(3), &keys, 2, 0)
        && has_rank(&(5, 0), Err(5), &keys, 5, 0)
}

#[test]
fn ranks_keys_in_their_groups(rt: HostRuntime) {
    assert!(rt; has_ranks());
}
