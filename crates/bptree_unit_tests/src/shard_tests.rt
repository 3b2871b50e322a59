//! Indices, pages and ends at numbers that were computed by hand.

use bptree_shard_routing::combining::{Part, first_full, last_full, locate, parts};
use std::alloc::Global;

// Shards with 3, 0, 2 and 4 pairs.
const LENGTHS: [usize; 4] = [3, 0, 2, 4];

// For each index of the whole, and for the index past the end: the shard, and the index there.
const INDEXES: [Option<(usize, usize)>; 10] = [
    Some((0, 0)),
    Some((0, 1)),
    Some((0, 2)),
    Some((2, 0)),
    Some((2, 1)),
    Some((3, 0)),
    Some((3, 1)),
    Some((3, 2)),
    Some((3, 3)),
    None,
];

fn finds_indexes() -> bool {
    let mut well = true;
    for (index, found) in INDEXES.iter().enumerate() {
        well &= locate(&LENGTHS, index) == *found;
    }
    well
}

fn finds_ends() -> bool {
    let mut well = first_full(&[0, 0, 2, 4, 0]) == Some(2);
    well &= last_full(&[0, 0, 2, 4, 0]) == Some(3);
    well &= first_full(&[0, 0]).is_none();
    well &= last_full(&[]).is_none();
    well
}

// Five pairs from index 2 on: the last of the first shard, both of the third, and two of the
// fourth.
const PARTS: [Part; 3] = [
    Part {
        shard: 0,
        from: 2,
        count: 1,
    },
    Part {
        shard: 2,
        from: 0,
        count: 2,
    },
    Part {
        shard: 3,
        from: 0,
        count: 2,
    },
];

fn parts_a_page(alloc: Global) -> bool {
    let Ok(found) = parts(alloc, &LENGTHS, 2, 5) else {
        return false;
    };
    found.as_slice() == PARTS.as_slice()
}

#[test]
fn finds_indexes_ends_and_pages(rt: HostRuntime) {
    assert!(rt; finds_indexes());
    assert!(rt; finds_ends());
    assert!(rt; parts_a_page(rt.alloc()));
}
