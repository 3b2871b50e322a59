//! The leaves of an owned tree, taken out one by one from both ends.
ghost use Rattle.std.specs.Prelude.{◌≡◌, ◌≢◌, ◌<◌, ◌≤◌, ◌^◌, ℕ, length, MatchOption};
ghost use Rattle.bptree_nodes.specs.Slot.{Present, IsPresent};
ghost use Rattle.bptree_keys.specs.Contents.{IsAscending};
ghost use Rattle.bptree_tree.specs.Chain.{IsLeft, chain_pairs, AreEmpty, LeaveAt, end_of, inward_link, with_end};

use bptree_invariant::nodes::Nodes;
use bptree_keys::end::End;
use bptree_keys::node_id::LeafNodeId;
use bptree_nodes::leaf_node::LeafNode;
use bptree_stores::node_stores::NodeStore;
use std::marker::Model;

/// The leaves that are left; its model is their pairs. A leaf that is taken is moved out of the
/// store, and its node id is released. The other leaves are dropped with the store, as the inner
/// nodes are.
#[derive(Drop)]
pub(crate) struct Chain<S: NodeStore> {
    store: S,
    ends: Ends,
    // The number of pairs of the leaves that are left.
    len: usize,
}

impl<S: NodeStore> Model for Chain<S> {
    ghost use Rattle.std.specs.Prelude.{List};
    ghost use Rattle.bptree_tree.specs.Chain.{IsLeft, chain_pairs};

    ghost Value = { List (S.K × S.V) };

    ghost view = { λ chain. chain_pairs (S.slots chain.store) chain.ends.first chain.len };

    ghost invariant = { λ chain. IsLeft (S.slots chain.store) chain.ends.first chain.ends.last chain.len };
}

/// The leaves at both ends.
#[derive(Clone, Copy)]
pub(crate) struct Ends {
    first: LeafNodeId,
    last: LeafNodeId,
}

impl Ends {
    fn at(self, end: End) -> LeafNodeId
        ensures { result ≡ end_of end self }
    {
        match end {
            End::Front => self.first,
            End::Back => self.last,
        }
    }

    // The ends with another leaf at one of them.
    fn with(self, end: End, id: LeafNodeId) -> Ends
        ensures { result ≡ with_end end self id }
    {
        match end {
            End::Front => Ends { first: id, ..self },
            End::Back => Ends { last: id, ..self },
        }
    }
}

// The node id of the next leaf inwards from a leaf at an end.
fn link_inward<K: Drop, V: Drop>(leaf: &LeafNode<K, V>, end: End) -> Option<LeafNodeId>
    ensures { result ≡ inward_link end leaf.now }
{
    match end {
        End::Front => leaf.next(),
        End::Back => leaf.prev(),
    }
}

// Moves a leaf out of the store, and releases its node id.
fn take_out<S: NodeStore>(store: &mut S, id: LeafNodeId) -> Box<LeafNode<S::K, S::V>>
    requires { IsPresent ((S.slots store.old).leaf id.0) }
    ensures value { (S.slots store.old).leaf id.0 ≡ Present result.value }
    ensures others { (n : ℕ) → n ≢ id.0 → (S.slots store.new).leaf n ≡ (S.slots store.old).leaf n }
{
    let leaf = store.take_leaf(id);
    store.release_leaf(id);
    leaf
}

impl<S: NodeStore> Chain<S> {
    fn new(store: S, first: LeafNodeId, last: LeafNodeId, len: usize) -> Self
        requires { IsLeft (S.slots store) first last len }
        ensures { result ≡ chain_pairs (S.slots store) first len }
    {
        Chain {
            store,
            ends: Ends { first, last },
            len,
        }
    }

    /// All leaves of a tree.
    ///
    /// O(log n). It allocates nothing and cannot fail.
    pub(crate) fn of(nodes: Nodes<S>) -> Self
        ensures all { result ≡ nodes.contents }
        ensures ascending { IsAscending S.K.cmp nodes.contents }
        ensures fits { length nodes.contents < 2 ^ 64 }
    {
        nodes.recall();
        let first = nodes.first_leaf();
        let last = nodes.last_leaf();
        let Nodes {
            store,
            root: _,
            height: _,
            len,
            summary: _,
        } = nodes;
        Chain::new(store, first, last, len)
    }

    /// Returns the keys of the leaf that `take_end` takes from the front next. The slice is empty if
    /// no leaf is left.
    pub(crate) fn next_keys(&self) -> &[S::K]
        ensures { length result.now ≤ 64 }
    {
        match self.store.try_get_leaf(self.ends.first) {
            Some(leaf) => leaf.keys(),
            None => &[],
        }
    }

    /// Takes out the first leaf, or the last one, which has a pair; `None` if no leaf is left.
    pub(crate) fn take_end(&mut self, end: End) -> Option<Box<LeafNode<S::K, S::V>>>
        ensures { MatchOption result (AreEmpty self.old self.new) (λ leaf. LeaveAt end leaf.value.pairs self.old self.new) }
    {
        if self.len == 0 {
            return None;
        }
        let id = self.ends.at(end);
        let leaf = take_out(&mut self.store, id);
        let next = link_inward(&leaf, end).unwrap_or(id);
        self.ends = self.ends.with(end, next);
        self.len -= leaf.len();
        Some(leaf)
    }
}
