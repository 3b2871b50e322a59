//! Groups of concrete keys.

use bptree_arguments::argument::{Argument, RankArgument};
use bptree_arguments::group::{GroupCount, Tuple2};

type Groups = GroupCount<Tuple2<u64>>;

// Whether the summary has this number of groups, and this greatest group with its size.
fn has(summary: &Groups, group_count: usize, greatest: Option<(u64, usize)>) -> bool {
    let found = match summary.max_group() {
        None => None,
        Some((group, size)) => Some((group.0, size)),
    };
    summary.group_count() == group_count
        && summary.is_zero() == (group_count == 0)
        && found == greatest
}

// Whether the summary of one leaf has these groups.
fn of_leaf_has(keys: &[(u64, u64)], group_count: usize, greatest: Option<(u64, usize)>) -> bool {
    let Ok(summary) = <Groups as Argument<(u64, u64)>>::from_leaf(keys) else {
        return false;
    };
    has(&summary, group_count, greatest)
}

fn sums_up_leaves() -> bool {
    of_leaf_has(&[(1, 0), (2, 0), (2, 1), (3, 0)], 3, Some((3, 1)))
        && of_leaf_has(&[(1, 0), (2, 0), (2, 1)], 2, Some((2, 2)))
        && of_leaf_has(&[(4, 0), (4, 5), (4, 9)], 1, Some((4, 3)))
        && of_leaf_has(&[], 0, None)
}

// Whether the summary of a node over these children has these groups.
fn of_inner_has(
    separators: &[(u64, u64)],
    arguments: &[Groups],
    group_count: usize,
    greatest: Option<(u64, usize)>,
) -> bool {
    let Ok(both) = <Groups as Argument<(u64, u64)>>::from_inner(separators, arguments) else {
        return false;
    };
    has(&both, group_count, greatest)
}

// Whether the summaries of one leaf, and of a second leaf with these keys, have these groups
// together.
fn of_two_has(second: &[(u64, u64)], group_count: usize, greatest: (u64, usize)) -> bool {
    let Ok(first) = <Groups as Argument<(u64, u64)>>::from_leaf(&[(1, 0), (2, 0), (2, 1)]) else {
        return false;
    };
    let Ok(second) = <Groups as Argument<(u64, u64)>>::from_leaf(second) else {
        return false;
    };
    of_inner_has(&[(2, 2)], &[first, second], group_count, Some(greatest))
}

fn sums_up_two_leaves() -> bool {
    of_two_has(&[(2, 2), (2, 3)], 2, (2, 4))
        && of_two_has(&[(2, 2), (3, 0)], 3, (3, 1))
        && of_two_has(&[(5, 0), (5, 1)], 3, (5, 2))
        && of_two_has(&[(5, 0), (6, 0)], 4, (6, 1))
}

// Whether a summary and its clone both report these groups.
fn is_reported_twice(summary: &Groups, group_count: usize, greatest: Option<(u64, usize)>) -> bool {
    let Ok(copy) = summary.clone() else {
        return false;
    };
    has(summary, group_count, greatest) && has(&copy, group_count, greatest)
}

// Each kind of summary reports its groups, also with the greatest sizes.
fn reports_each_kind() -> bool {
    let several = GroupCount::Multiple {
        min_group: (Tuple2(1), 2),
        max_group: (Tuple2(9), usize::MAX),
        group_count: 5,
    };
    is_reported_twice(&several, 5, Some((9, usize::MAX)))
        && is_reported_twice(&GroupCount::Zero, 0, None)
        && is_reported_twice(
            &GroupCount::One(Tuple2(4), usize::MAX),
            1,
            Some((4, usize::MAX)),
        )
}

// The sizes of one group in a child and in the next are added, saturating at the greatest number.
// So are the sizes that a rank in the group adds past both children.
fn adds_up(first: usize, second: usize, sum: usize) -> bool {
    let arguments = [
        GroupCount::One(Tuple2(4), first),
        GroupCount::One(Tuple2(4), second),
    ];
    let Ok(rank) = <Groups as RankArgument<(u64, u64)>>::fold_inner(&(4, 20), None, &arguments)
    else {
        return false;
    };
    rank == Some((Tuple2(4), sum)) && of_inner_has(&[(4, 9)], &arguments, 1, Some((4, sum)))
}

fn stops_at_the_greatest() -> bool {
    adds_up(3, 4, 7)
        && adds_up(usize::MAX, 1, usize::MAX)
        && adds_up(1, usize::MAX, usize::MAX)
        && adds_up(usize::MAX - 1, 1, usize::MAX)
}

#[test]
fn sums_up_groups(rt: HostRuntime) {
    assert!(rt; sums_up_leaves() && sums_up_two_leaves());
    assert!(rt; reports_each_kind() && stops_at_the_greatest());
}
