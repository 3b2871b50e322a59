//! Searches among each number of keys that a node can have: near the root, far below it, and from
//! the end.
use bptree_keys::compares::{Compares, SearchHint, count_upto_counted, locate_hinted_counted};
use bptree_keys::key::Key;

// The slot of a number among the first `len` of 2, 4, 6 and so on, or the number of smaller ones.
fn index_among_evens(number: usize, len: usize) -> Result<usize, usize> {
    let half = number / 2;
    if number % 2 == 0 && half > 0 && half <= len {
        Ok(half - 1)
    } else {
        Err(half.min(len))
    }
}

// Whether a search finds the slot of each of these keys, which are 2, 4, 6 and so on, and of each
// number beside them, after at most seven comparisons. The leaf is below this many levels. With
// `None` the search expects all keys to be smaller. The child of each number must be found too.
fn finds_each(keys: &[usize], levels: Option<usize>) -> bool {
    let len = keys.len();
    let mut well = len <= 64;
    if well {
        for number in 0..131 {
            let hint = match levels {
                Some(levels) => SearchHint::below(levels),
                None => SearchHint::Last,
            };
            let mut compares = Compares::new();
            let index = locate_hinted_counted(keys, &number, hint, &mut compares);
            well &= index == index_among_evens(number, len) && compares.count() <= 7;
            let mut compares = Compares::new();
            let child = count_upto_counted(keys, &number, &mut compares);
            well &= child == (number / 2).min(len) && compares.count() <= 7;
        }
    }
    well
}

#[test]
fn finds_each_key_near_and_far_and_from_the_end(rt: HostRuntime) {
    let mut evens = [0usize; 64];
    for slot in 0..64 {
        evens[slot] = 2 * slot + 2;
    }
    let mut well = true;
    for len in 0..65 {
        for levels in [None, Some(0), Some(2), Some(3), Some(15)] {
            well &= finds_each(&evens[..len], levels);
        }
    }
    assert!(rt; well);
}

// The keys of 65,536 numbers take half a mebibyte, and so do those of 32,768 pairs of them.
#[test]
fn takes_the_leaves_of_a_large_tree_to_be_far(rt: HostRuntime) {
    let mut well = matches!(SearchHint::among(65_535, &0u64), SearchHint::Near);
    well &= matches!(SearchHint::among(65_536, &0u64), SearchHint::Far);
    well &= matches!(SearchHint::among(32_767, &(0u64, 0u64)), SearchHint::Near);
    well &= matches!(SearchHint::among(32_768, &(0u64, 0u64)), SearchHint::Far);
    well &= matches!(SearchHint::among(usize::MAX, &()), SearchHint::Far);
    assert!(rt; well);
}

#[test]
fn long_keys_are_not_compared_in_place(rt: HostRuntime) {
    let mut well = 0u64.compares_in_place(&1) && (0u64, 0u64).compares_in_place(&(0, 1));
    well &= !((0u64, 0u64), 0u64).compares_in_place(&((0, 1), 0));
    assert!(rt; well);
}
