//! A tree as text for Graphviz, read from the nodes of its store.
ghost use Rattle.std.specs.Prelude.{◌≤◌};

use crate::drawing::text::Text;
use std::alloc::{AllocError, Global};
use sweep_bptree::tree::{InnerNode, InnerNodeId, LeafNodeId, NodeId};
use sweep_bptree::{BPlusTree, Count, NodeStore};

/// The number of the first keys or children of a long node that are drawn, and of the last.
const ENDS: usize = 2;

// Returns the part of a node that is left out: its first index, and the index behind it. Of a short
// node nothing is left out.
fn left_out(len: usize) -> (usize, usize)
    ensures order { result.0 ≤ result.1 }
    ensures within { result.1 ≤ len }
{
    if len <= ENDS + ENDS + 2 {
        return (len, len);
    }
    (ENDS, len - ENDS)
}

// Whether the child at an index is drawn.
fn is_drawn(index: usize, len: usize) -> bool {
    let (from, to) = left_out(len);
    index < from || to <= index
}

// Adds keys, with a space before each.
fn add_keys(text: &mut Text, keys: &[u64]) {
    for key in keys {
        text.add_number(" ", *key as usize, "");
    }
}

// Adds the first and the last of some keys, and their number.
fn add_ends(text: &mut Text, keys: &[u64]) {
    let (from, to) = left_out(keys.len());
    add_keys(text, &keys[..from]);
    if from < to {
        text.add(" …");
        add_keys(text, &keys[to..]);
        text.add_number(" (", keys.len(), ")");
    }
}

// Adds a leaf as a box with its keys.
fn add_leaf(text: &mut Text, id: LeafNodeId, keys: &[u64]) {
    text.add_number("  leaf", id.as_usize(), " [class=leaf shape=box label=\"");
    add_ends(text, keys);
    text.add("\"]\n");
}

// Adds the fields of the children from one index up to another. Behind each field is the separator
// before the next child.
fn add_fields(text: &mut Text, node: &InnerNode<u64, Count>, from: usize, to: usize) {
    for index in from..to {
        text.add_number("<c", index, "> ");
        if index < node.len() {
            text.add_number("| ", *node.key(index) as usize, " |");
        }
    }
}

// Adds an inner node as a row of separators, with a field for each child between them.
fn add_inner(text: &mut Text, id: InnerNodeId, node: &InnerNode<u64, Count>) {
    text.add_number(
        "  inner",
        id.as_usize(),
        " [class=inner shape=record label=\"",
    );
    let many = node.len() + 1;
    let (from, to) = left_out(many);
    add_fields(text, node, 0, from);
    if from < to {
        text.add_number(" … ", to - from, " children … |");
        add_fields(text, node, to, many);
    }
    text.add("\"]\n");
}

// Adds the line from a node to a child, with the child's count.
fn add_edge(text: &mut Text, id: InnerNodeId, index: usize, child: NodeId, count: usize) {
    text.add_number("  inner", id.as_usize(), ":c");
    text.add_number("", index, " -> ");
    match child {
        NodeId::Leaf(leaf) => text.add_number("leaf", leaf.as_usize(), " [label=\""),
        NodeId::Inner(inner) => text.add_number("inner", inner.as_usize(), " [label=\""),
    }
    text.add_number("", count, "\"]\n");
}

// The parts of a drawing: the nodes, the links between leaves, and the leaf that was drawn last,
// with the leaf behind it.
#[derive(Drop)]
struct Drawing {
    nodes: Text,
    links: Text,
    last: Option<(LeafNodeId, Option<LeafNodeId>)>,
}

impl Drawing {
    // Adds a leaf, and the link to it from the leaf that was drawn before. The link is dotted if
    // leaves between the two are left out.
    fn add_leaf(&mut self, id: LeafNodeId, next: Option<LeafNodeId>, keys: &[u64]) {
        add_leaf(&mut self.nodes, id, keys);
        if let Some((left, behind)) = self.last {
            let class = if behind == Some(id) {
                " [class=link]\n"
            } else {
                " [class=gap]\n"
            };
            self.links.add_number("  leaf", left.as_usize(), " -> leaf");
            self.links.add_number("", id.as_usize(), class);
        }
        self.last = Some((id, next));
    }
}

// Adds the tree of a height below a node id.
fn add_subtree<S: NodeStore<K = u64, Argument = Count>>(
    drawing: &mut Drawing,
    store: &S,
    id: NodeId,
    height: usize,
) {
    let inner = match id {
        NodeId::Leaf(leaf) => {
            if let Some(node) = store.try_get_leaf(leaf) {
                drawing.add_leaf(leaf, node.next(), node.keys());
            }
            return;
        }
        NodeId::Inner(inner) => inner,
    };
    let Some(node) = store.try_get_inner(inner) else {
        return;
    };
    // Never met in a tree: each inner node is above the leaves, and has a key.
    if height == 0 || node.len() == 0 {
        return;
    }
    add_inner(&mut drawing.nodes, inner, node);
    for index in 0..node.len() + 1 {
        if is_drawn(index, node.len() + 1) {
            let child = node.child_id(index);
            add_subtree(drawing, store, child, height - 1);
            if let Some(count) = node.arguments().get(index) {
                add_edge(&mut drawing.nodes, inner, index, child, count.count());
            }
        }
    }
}

/// Returns the text of a tree: a row of separators for each inner node, a box for each leaf, and
/// the count of each child beside the line to it. Of a long node the first and the last keys or
/// children are drawn, with the number of the others. Fails if an allocation fails.
pub fn text_of<S: NodeStore<K = u64, Argument = Count>>(
    alloc: Global,
    tree: &BPlusTree<S>,
) -> Result<String, AllocError> {
    let mut drawing = Drawing {
        nodes: Text::new(alloc),
        links: Text::new(alloc),
        last: None,
    };
    drawing.nodes.add("digraph tree {\n");
    add_subtree(
        &mut drawing,
        tree.node_store(),
        tree.root_id(),
        tree.height(),
    );
    drawing.nodes.add_all(&drawing.links);
    drawing.nodes.add("}");
    drawing.nodes.finish()
}
