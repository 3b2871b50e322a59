//! Merges of short lists of numbers, step by step.

use bptree_merge_iter::merge_iter::MergeIterInner;

// The number of items left of each side before a step, and the item that the step returns of each.
type Row = ((usize, usize), (Option<u64>, Option<u64>));

const BOTH: [Row; 9] = [
    ((4, 5), (Some(1), None)),
    ((3, 5), (None, Some(2))),
    ((3, 4), (Some(3), Some(3))),
    ((2, 3), (Some(5), None)),
    ((1, 3), (Some(6), Some(6))),
    ((0, 2), (None, Some(7))),
    ((0, 1), (None, Some(8))),
    ((0, 0), (None, None)),
    ((0, 0), (None, None)),
];

const FIRST: [Row; 3] = [
    ((2, 0), (Some(1), None)),
    ((1, 0), (Some(3), None)),
    ((0, 0), (None, None)),
];

const SECOND: [Row; 3] = [
    ((0, 2), (None, Some(1))),
    ((0, 1), (None, Some(3))),
    ((0, 0), (None, None)),
];

const NONE: [u64; 0] = [];

// Whether the steps of a merge are those of the rows.
fn goes_as(a: &[u64], b: &[u64], rows: &[Row]) -> bool {
    let mut merge = MergeIterInner::new(a.iter(), b.iter());
    let mut well = true;
    for row in rows {
        well &= merge.lens() == row.0;
        let (first, second) = merge.nexts(|x, y| x.cmp(y));
        well &= (first.copied(), second.copied()) == row.1;
    }
    well
}

#[test]
fn merges_step_by_step(rt: HostRuntime) {
    assert!(rt;
        goes_as(&[1, 3, 5, 6], &[2, 3, 6, 7, 8], &BOTH)
            && goes_as(&[1, 3], &NONE, &FIRST)
            && goes_as(&NONE, &[1, 3], &SECOND)
    );
}
