//! Worked splits, merges and searches of a leaf, and what dropping a leaf drops.
use crate::samples::{Counted, Sequence, several};
use bptree_keys::node_id::LeafNodeId;
use bptree_nodes::leaf_node::LeafNode;
use std::alloc::{AllocError, Global};
use std::cell::Cell;
use std::rc::Rc;

type Leaf = LeafNode<usize, u64>;

// A leaf of these pairs.
fn leaf_of(alloc: Global, pairs: &[(usize, u64)]) -> Result<Box<Leaf>, AllocError> {
    let mut leaf = LeafNode::new(alloc)?;
    leaf.set_data(&mut pairs.iter().copied());
    Ok(leaf)
}

// The leaf of 2, 4, .. 128, each with the value 0.
fn leaf_of_evens(alloc: Global) -> Result<Box<Leaf>, AllocError> {
    let mut leaf = LeafNode::new(alloc)?;
    leaf.set_data(&mut (1..65usize).map(|half| (half.saturating_mul(2), 0)));
    Ok(leaf)
}

fn id(number: usize) -> LeafNodeId {
    LeafNodeId::from_usize(number)
}

// Whether the leaf has these links.
fn is_linked(leaf: &Leaf, prev: Option<usize>, next: Option<usize>) -> bool {
    leaf.prev() == prev.map(id) && leaf.next() == next.map(id)
}

// Whether the leaf has this number of keys, which are those from an index on, each with the value
// 0.
fn has_keys(leaf: &Leaf, len: usize, from: usize, keys: Sequence) -> bool {
    let mut well = leaf.len() == len;
    for slot in 0..len {
        let key = keys.at(from.saturating_add(slot));
        well &= leaf.try_data_at(slot) == Some((&key, &0));
    }
    well
}

// Whether inserting a key at a slot into the leaf of 2, 4, .. 128 before the leaf 3 splits the
// leaf. The first part must have this number of pairs, the second the other pairs, and both their
// links.
fn splits_into(alloc: Global, slot: usize, key: usize, first_len: usize) -> bool {
    let Ok(mut leaf) = leaf_of_evens(alloc) else {
        return false;
    };
    let Ok(room) = LeafNode::new(alloc) else {
        return false;
    };
    leaf.set_next(Some(id(3)));
    if !leaf.is_full() || slot > 64 || first_len > 65 {
        return false;
    }
    let next = leaf.split_new_leaf(slot, (key, 0), id(2), id(1), room);
    let keys = Sequence {
        first: 2,
        step: 2,
        slot,
        another: key,
    };
    has_keys(&leaf, first_len, 0, keys)
        && has_keys(&next, 65 - first_len, first_len, keys)
        && is_linked(&leaf, None, Some(2))
        && is_linked(&next, Some(1), Some(3))
}

// Which of these keys are in the leaf's range.
fn ranges(leaf: &Leaf) -> [bool; 4] {
    [
        leaf.in_range(&0),
        leaf.in_range(&2),
        leaf.in_range(&128),
        leaf.in_range(&129),
    ]
}

// The ranges of a leaf of 2, 4, .. 128 without links, with a leaf before it, and with a leaf on
// each side.
fn is_in_range(alloc: Global) -> bool {
    let Ok(mut leaf) = leaf_of_evens(alloc) else {
        return false;
    };
    let alone = ranges(&leaf);
    leaf.set_prev(Some(id(1)));
    let last = ranges(&leaf);
    leaf.set_next(Some(id(2)));
    alone == [true, true, true, true]
        && last == [false, true, true, true]
        && ranges(&leaf) == [false, true, true, false]
}

// Whether the leaf has these keys and values, and this leaf behind it.
fn shows(leaf: &Leaf, keys: &[usize], values: &[u64], next: Option<usize>) -> bool {
    leaf.keys() == keys && leaf.values() == values && is_linked(leaf, None, next)
}

// Two leaves merged, with all pairs and without one pair of the later leaf.
fn merges(alloc: Global) -> bool {
    let Ok(mut leaf) = leaf_of(alloc, &[(10, 1), (11, 1)]) else {
        return false;
    };
    let Ok(mut right) = leaf_of(alloc, &[(39, 1), (40, 1)]) else {
        return false;
    };
    right.set_next(Some(id(7)));
    if leaf.len() != 2 || right.len() != 2 {
        return false;
    }
    let first = leaf.delete_at(0);
    leaf.merge_right(right);
    first == (10, 1)
        && shows(&leaf, &[11, 39, 40], &[1, 1, 1], Some(7))
        && merges_without_the_first(alloc, &mut leaf)
}

fn merges_without_the_first(alloc: Global, leaf: &mut Leaf) -> bool {
    let Ok(last) = leaf_of(alloc, &[(50, 1), (51, 1)]) else {
        return false;
    };
    if leaf.len() != 3 || last.len() != 2 {
        return false;
    }
    let removed = leaf.merge_right_delete_first(0, last);
    removed == (50, 1) && shows(leaf, &[11, 39, 40, 51], &[1, 1, 1, 1], None)
}

// Whether each of ten keys and values lives as long as its leaf.
fn keeps_all(alloc: Global, keys: &Rc<Cell<u64>>, values: &Rc<Cell<u64>>) -> bool {
    let Ok(ten_keys) = several(alloc, keys, 10) else {
        return false;
    };
    let Ok(ten_values) = several(alloc, values, 10) else {
        return false;
    };
    let Ok(mut leaf) = LeafNode::new(alloc) else {
        return false;
    };
    leaf.set_data(&mut ten_keys.into_iter().zip(ten_values));
    [keys.get(), values.get()] == [0, 0]
}

// Whether dropping the leaf drops all of them.
fn drops(alloc: Global) -> bool {
    let Ok(keys) = Rc::new(alloc, Cell::new(0)) else {
        return false;
    };
    let Ok(values) = Rc::new(alloc, Cell::new(0)) else {
        return false;
    };
    keeps_all(alloc, &keys, &values) && [keys.get(), values.get()] == [10, 10]
}

#[test]
fn splits_merges_and_drops_leaves(rt: HostRuntime) {
    assert!(rt; splits_into(rt.alloc(), 0, 0, 33));
    assert!(rt; splits_into(rt.alloc(), 32, 65, 32));
    assert!(rt; is_in_range(rt.alloc()));
    assert!(rt; merges(rt.alloc()));
    assert!(rt; drops(rt.alloc()));
}
