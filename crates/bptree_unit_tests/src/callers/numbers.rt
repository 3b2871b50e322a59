//! Callers of node ids.
ghost use Rattle.std.specs.Prelude.{◌≡◌, ◌<◌, Some, None, true};
ghost use Rattle.std.specs.declared.cmp.Ordering.TheVariants.{Less, Equal, Greater};

use bptree_keys::node_id::{InnerNodeId, LeafNodeId, NodeId, order_of};
use std::cmp::Ordering;

// The number that a node id is made of can be read back.
fn keeps_numbers(number: usize) -> (usize, usize)
    ensures { result ≡ (number, number) }
{
    (
        InnerNodeId::from_usize(number).as_usize(),
        LeafNodeId::from_usize(number).as_usize(),
    )
}

// The id of an inner node is an inner node's id and no leaf's. The id of a leaf is a leaf's id and
// no inner node's.
fn reports_the_kind(
    number: usize,
) -> (
    (Option<InnerNodeId>, Option<LeafNodeId>),
    (Option<InnerNodeId>, Option<LeafNodeId>),
)
    ensures inner { result.0 ≡ (Some (record { 0 = number }), None) }
    ensures leaf { result.1 ≡ (None, Some (record { 0 = number })) }
{
    let inner = NodeId::from(InnerNodeId::from_usize(number));
    let leaf = NodeId::from(LeafNodeId::from_usize(number));
    (
        (inner.inner_id(), inner.leaf_id()),
        (leaf.inner_id(), leaf.leaf_id()),
    )
}

// If the kind of the node is known, its id is read without a test.
fn knows_the_kind(number: usize) -> (usize, usize)
    ensures { result ≡ (number, number) }
{
    let inner = NodeId::Inner(InnerNodeId::from_usize(number));
    let leaf = NodeId::Leaf(LeafNodeId::from_usize(number));
    (
        inner.inner_id_unchecked().as_usize(),
        leaf.leaf_id_unchecked().as_usize(),
    )
}

// Ids of one kind are in the order of their numbers.
fn orders_one_kind(low: usize, high: usize) -> (Ordering, Ordering, Ordering)
    requires { low < high }
    ensures inner { result.0 ≡ Less }
    ensures leaves { result.1 ≡ Greater }
    ensures same { result.2 ≡ Equal }
{
    let low_inner = NodeId::Inner(InnerNodeId::from_usize(low));
    let high_inner = NodeId::Inner(InnerNodeId::from_usize(high));
    let low_leaf = NodeId::Leaf(LeafNodeId::from_usize(low));
    let high_leaf = NodeId::Leaf(LeafNodeId::from_usize(high));
    (
        order_of(low_inner, high_inner),
        order_of(high_leaf, low_leaf),
        order_of(low_leaf, low_leaf),
    )
}

// Every inner node is before every leaf, whatever their ids are.
fn orders_both_kinds(inner: InnerNodeId, leaf: LeafNodeId) -> (Ordering, Ordering)
    ensures before { result.0 ≡ Less }
    ensures behind { result.1 ≡ Greater }
{
    let (inner, leaf) = (NodeId::Inner(inner), NodeId::Leaf(leaf));
    (order_of(inner, leaf), order_of(leaf, inner))
}

// The operators agree with the order of ids.
fn compares_by_operators(low: usize, high: usize) -> (bool, bool, bool)
    requires { low < high }
    ensures { result ≡ (true, true, true) }
{
    (
        InnerNodeId::from_usize(low) < InnerNodeId::from_usize(high),
        LeafNodeId::from_usize(low) < LeafNodeId::from_usize(high),
        NodeId::Inner(InnerNodeId::from_usize(high)) < NodeId::Leaf(LeafNodeId::from_usize(low)),
    )
}

// The default id is the placeholder, which has the greatest number.
fn names_no_node() -> (InnerNodeId, usize, NodeId)
    ensures number { result.0 ≡ record { 0 = usize.MAX } }
    ensures placeholder { result.1 ≡ usize.MAX }
    ensures node { result.2 ≡ NodeId.Inner (record { 0 = usize.MAX }) }
{
    (
        InnerNodeId::default(),
        InnerNodeId::INVALID.as_usize(),
        NodeId::default(),
    )
}
