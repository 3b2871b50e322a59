//! Inner nodes: worked splits and merges, and what dropping a node drops.
ghost use Rattle.std.specs.Prelude.{◌<◌, length, IfOk};
ghost use Rattle.bptree_nodes.specs.Inner.{HasKeys};

use crate::samples::{Counted, Sequence, several};
use bptree_keys::node_id::{LeafNodeId, NodeId};
use bptree_nodes::inner_node::InnerNode;
use std::alloc::{AllocError, Global};
use std::cell::Cell;
use std::rc::Rc;

type Node = InnerNode<usize, usize>;

fn leaf(number: usize) -> NodeId {
    NodeId::Leaf(LeafNodeId::from_usize(number))
}

fn children_of(alloc: Global, leaves: &[usize]) -> Result<Vec<NodeId>, AllocError> {
    let mut children = Vec::new(alloc);
    for number in leaves {
        children.push(leaf(*number))?;
    }
    Ok(children)
}

// A node over leaves whose summaries are the numbers of their ids.
fn node_over(alloc: Global, keys: &[usize], leaves: &[usize]) -> Result<Box<Node>, AllocError>
    ensures { IfOk result (λ b. 0 < length b.value.children) }
{
    let children = children_of(alloc, leaves)?;
    let are_as_many = children.len() == leaves.len()
        && leaves.len() == keys.len().saturating_add(1);
    if keys.len() > 64 || !are_as_many {
        return Err(AllocError);
    }
    InnerNode::new(alloc, keys.to_vec(alloc)?, children, leaves.to_vec(alloc)?)
}

// Fills with the numbers `first`, `first + step` and so on.
fn fill(numbers: &mut [usize], first: usize, step: usize) {
    let mut next = first;
    for number in numbers {
        *number = next;
        next = next.saturating_add(step);
    }
}

// The node of the keys 10 to 640 over the leaves 0 to 64.
fn node_of_tens(alloc: Global) -> Result<Box<Node>, AllocError>
    ensures { IfOk result (λ b. 0 < length b.value.children) }
{
    let mut keys = [0; 64];
    fill(&mut keys, 10, 10);
    let mut leaves = [0; 65];
    fill(&mut leaves, 0, 1);
    node_over(alloc, &keys, &leaves)
}

// Whether the node has 32 of the keys, and 33 of the leaves as children and as summaries, all from
// an index on.
fn shows_part(node: &Node, from: usize, keys: Sequence, leaves: Sequence) -> bool {
    let mut well = node.keys().len() == 32 && node.arguments().len() == 33;
    for (index, found) in node.keys().iter().enumerate() {
        well &= *found == keys.at(from.saturating_add(index));
    }
    for (index, found) in node.arguments().iter().enumerate() {
        let number = leaves.at(from.saturating_add(index));
        well &= *found == number;
        well &= node.child_id(index) == leaf(number);
    }
    well
}

// Whether inserting another key with the leaf 100 into that node at a slot splits it around a key.
fn splits_into(alloc: Global, slot: usize, key: usize, between: usize) -> bool {
    let Ok(mut node) = node_of_tens(alloc) else {
        return false;
    };
    let Ok(room) = InnerNode::empty(alloc) else {
        return false;
    };
    if !node.is_full() || slot > 64 {
        return false;
    }
    let (promoted, next) = node.split(slot, key, leaf(100), 100, room);
    let keys = Sequence {
        first: 10,
        step: 10,
        slot,
        another: key,
    };
    let leaves = Sequence {
        first: 0,
        step: 1,
        slot: slot + 1,
        another: 100,
    };
    promoted == between && shows_part(&node, 0, keys, leaves) && shows_part(&next, 33, keys, leaves)
}

// Whether the node has these keys, and these leaves as children and as summaries.
fn shows(node: &Node, keys: &[usize], leaves: &[usize]) -> bool {
    let mut well = node.keys() == keys && node.arguments() == leaves;
    for (index, number) in node.arguments().iter().enumerate() {
        well &= node.child_id(index) == leaf(*number);
    }
    well
}

// A parent of three keys loses the second, which moves between the two children that it separated.
fn merges(alloc: Global) -> bool {
    let Ok(mut parent) = node_over(alloc, &[10, 30, 50], &[0, 1, 2, 3]) else {
        return false;
    };
    if parent.len() != 3 {
        return false;
    }
    let (separator, child, argument) = parent.remove_at(1);
    child == leaf(2)
        && argument == 2
        && shows(&parent, &[10, 50], &[0, 1, 3])
        && merges_around(alloc, separator)
}

fn merges_around(alloc: Global, separator: usize) -> bool {
    let Ok(mut left) = node_over(alloc, &[10, 11], &[1, 2, 3]) else {
        return false;
    };
    let Ok(right) = node_over(alloc, &[40], &[5, 6]) else {
        return false;
    };
    if left.len() != 2 || right.len() != 1 {
        return false;
    }
    left.merge_next(separator, right);
    shows(&left, &[10, 11, 30, 40], &[1, 2, 3, 5, 6])
}

fn counted_node(
    alloc: Global,
    count: &Rc<Cell<u64>>,
) -> Result<Box<InnerNode<Counted, Counted>>, AllocError>
    ensures { IfOk result (λ b. HasKeys 1 b.value) }
{
    let children = [leaf(1), leaf(2)].to_vec(alloc)?;
    let keys = several(alloc, count, 1)?;
    let arguments = several(alloc, count, 2)?;
    if keys.len() != 1 || arguments.len() != 2 {
        return Err(AllocError);
    }
    InnerNode::new(alloc, keys, children, arguments)
}

// Removes the second key with its child and summary, and drops the summary.
fn key_removed(node: &mut InnerNode<Counted, Counted>) -> Counted
    requires { 1 < length node.old.keys }
{
    let (key, _child, _argument) = node.remove_at(1);
    key
}

// Whether merging two nodes drops nothing, and removing an entry drops its summary.
fn drops_an_argument(alloc: Global, count: &Rc<Cell<u64>>) -> bool {
    let Ok(right) = counted_node(alloc, count) else {
        return false;
    };
    let Ok(mut node) = counted_node(alloc, count) else {
        return false;
    };
    let Ok(key) = Rc::clone(count) else {
        return false;
    };
    node.merge_next(Counted(key), right);
    let merged = count.get();
    let _removed = key_removed(&mut node);
    [merged, count.get()] == [0, 1]
}

// Whether dropping a node drops all of its keys and summaries.
fn drops(alloc: Global) -> bool {
    let Ok(count) = Rc::new(alloc, Cell::new(0)) else {
        return false;
    };
    drops_an_argument(alloc, &count) && count.get() == 7
}

#[test]
fn splits_merges_and_drops_inner_nodes(rt: HostRuntime) {
    // Before the middle, in the middle and behind it.
    assert!(rt; splits_into(rt.alloc(), 0, 5, 320));
    assert!(rt; splits_into(rt.alloc(), 32, 325, 325));
    assert!(rt; splits_into(rt.alloc(), 64, 645, 330));
    assert!(rt; merges(rt.alloc()));
    assert!(rt; drops(rt.alloc()));
}
