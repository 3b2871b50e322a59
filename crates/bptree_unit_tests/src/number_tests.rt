//! Node ids, and the path to an entry.
use bptree_keys::entry_ref::{EntryRef, VisitStack};
use bptree_keys::node_id::{InnerNodeId, LeafNodeId, NodeId, order_of};
use std::cmp::Ordering;

fn inner(number: usize) -> NodeId {
    NodeId::from(InnerNodeId::from_usize(number))
}

fn leaf(number: usize) -> NodeId {
    NodeId::from(LeafNodeId::from_usize(number))
}

// Whether these ids are in order: those of one kind by their numbers, and inner nodes before
// leaves.
fn ascend() -> bool {
    InnerNodeId::from_usize(2) < InnerNodeId::from_usize(10)
        && LeafNodeId::from_usize(2) < LeafNodeId::from_usize(10)
        && inner(2) < inner(10)
        && leaf(2) < leaf(10)
        && inner(10) < leaf(2)
        && InnerNodeId::from_usize(10) < InnerNodeId::INVALID
        && order_of(leaf(2), inner(10)) == Ordering::Greater
}

fn path_of_three() -> VisitStack {
    let mut stack = VisitStack::new();
    stack.push(InnerNodeId::from_usize(1), 1, inner(10));
    stack.push(InnerNodeId::from_usize(2), 2, inner(20));
    stack.push(InnerNodeId::from_usize(3), 3, inner(30));
    stack
}

// Whether the path is popped from its end until it is empty.
fn pops(mut stack: VisitStack) -> bool {
    for (id, offset, child) in [(3, 3, 30), (2, 2, 20), (1, 1, 10)] {
        let entry = Some((InnerNodeId::from_usize(id), offset, inner(child)));
        if stack.last() != entry || stack.pop() != entry {
            return false;
        }
    }
    stack.is_empty() && stack.last().is_none() && stack.pop().is_none()
}

// Whether an entry that moves to another tree keeps its leaf, its slot and its path.
fn keeps_its_path() -> bool {
    let entry = EntryRef::new(1u8, path_of_three(), LeafNodeId::from_usize(4), 5);
    let entry = entry.to_detached().to_ref("another tree");
    entry.leaf_id.as_usize() == 4 && entry.offset == 5 && pops(entry.inner_stack)
}

#[test]
fn orders_node_ids_and_keeps_paths(rt: HostRuntime) {
    assert!(rt; ascend());
    assert!(rt; pops(path_of_three()));
    assert!(rt; keeps_its_path());
}
