//! Counts at concrete keys.

use bptree_arguments::argument::Argument;
use bptree_arguments::count::Count;

// Whether replacing the child's count gives the node this count.
fn is_replaced(node: &Count, old: &Count, new: &Count, count: Option<usize>) -> bool {
    match <Count as Argument<u64>>::from_replaced(node, old, new) {
        None => count == None,
        Some(found) => count == Some(found.count()),
    }
}

// A child of three keys is replaced by one of two. A child of more keys than the node has cannot
// have been in the node.
fn counts() -> bool {
    let Ok(two) = Count::from_leaf(&[1u64, 2]) else {
        return false;
    };
    let Ok(three) = Count::from_leaf(&[1u64, 2, 3]) else {
        return false;
    };
    let Ok(nine) = <Count as Argument<u64>>::from_inner(&[4, 7], &[three, three, three]) else {
        return false;
    };
    three.count() == 3
        && nine.count() == 9
        && is_replaced(&nine, &three, &two, Some(8))
        && is_replaced(&two, &three, &two, None)
        && Count::default().count() == 0
}

#[test]
fn counts_a_leaf_and_an_inner_node(rt: HostRuntime) {
    assert!(rt; counts());
}
