//! Changes of values in place by a closure.
ghost use Rattle.std.specs.Prelude.{◌≤◌, length};
ghost use Rattle.bptree_nodes.specs.Slot.{IsPresent};
ghost use Rattle.bptree_nodes.specs.Updating.{ChangesInTurn};
ghost use Rattle.bptree_invariant.specs.Shape.{leaf_pairs, IsWellShaped};
ghost use Rattle.bptree_tree.specs.Updating.{IsNotBehind, IsSettledAt, UpdatesBetween, UpdatesIndexes, UpdatesSlots};

use crate::tree::BPlusTree;
use bptree_invariant::nodes::Nodes;
use bptree_keys::node_id::{LeafNodeId, NodeId, Position};
use bptree_ranges::ranges::indexes_between;
use bptree_stores::node_stores::NodeStore;

// Changes the values of the slots of a leaf from one on and below another by a closure.
fn update_leaf<S: NodeStore, F: FnMut(&S::K, &mut S::V)>(
    store: &mut S,
    id: LeafNodeId,
    from: usize,
    to: usize,
    f: F,
) -> F
    requires callable { F.IsAlwaysCallable f }
    requires present { IsPresent ((S.slots store.old).leaf id.0) }
    requires within { (from ≤ to) × (to ≤ length (leaf_pairs ((S.slots store.old).leaf id.0))) }
    ensures changed { UpdatesSlots F.FnMut f (S.slots store.old) (S.slots store.new) id from to result }
    ensures callable { F.IsAlwaysCallable result }
{
    store.get_mut_leaf(id).update_between(from, to, f)
}

// Changes the values between two positions by a closure, in the order of their keys, leaf by leaf
// along the links.
fn update_leaves<S: NodeStore, F: FnMut(&S::K, &mut S::V)>(
    store: &mut S,
    root: NodeId,
    height: usize,
    front: Position,
    back: Position,
    mut f: F,
)
    requires callable { F.IsAlwaysCallable f }
    requires shape { IsWellShaped S.K.cmp S.Argument.is_summary (S.slots store.old) height root }
    requires front { IsSettledAt (S.slots store.old) height root front }
    requires back { IsSettledAt (S.slots store.old) height root back }
    requires rises { IsNotBehind (S.slots store.old) height root front back }
    ensures shape { IsWellShaped S.K.cmp S.Argument.is_summary (S.slots store.new) height root }
    ensures changed { UpdatesIndexes F.FnMut f (S.slots store.old) (S.slots store.new) height root front back }
{
    let mut at = front.leaf;
    let mut from = front.slot;
    'leaves: while at.as_usize() != back.leaf.as_usize() {
        let leaf = store.get_leaf(at);
        let len = leaf.len();
        let next = leaf.next().unwrap();
        f = update_leaf(store, at, from, len, f);
        at = next;
        from = 0;
    }
    update_leaf(store, at, from, back.slot, f);
}

// Changes the values between two ends, which have the lifetime of the tree's borrow.
fn update_within<'a, S: NodeStore, F: FnMut(&S::K, &mut S::V)>(
    tree: &'a mut Nodes<S>,
    lo: Option<&'a S::K>,
    hi: Option<&'a S::K>,
    f: F,
)
    requires { F.IsAlwaysCallable f }
    ensures { UpdatesBetween F.FnMut f S.K.cmp lo.entry hi.entry tree.old.contents tree.new.contents }
{
    let (front, back) = indexes_between(tree, lo, hi);
    update_leaves(&mut tree.store, tree.root, tree.height, front, back, f);
}

impl<S: NodeStore> BPlusTree<S> {
    /// Changes each value by a closure, in the order of the keys. Keys and summaries are unchanged.
    ///
    /// O(n). It allocates nothing and cannot fail.
    pub fn update_each<F: FnMut(&S::K, &mut S::V)>(&mut self, f: F)
        requires { F.IsAlwaysCallable f }
        ensures { (after : F) × ChangesInTurn F.FnMut f self.old.contents after self.new.contents }
    {
        update_within(&mut self.nodes, None, None, f);
    }

    /// Changes the value of each pair whose key is at least `lo` and below `hi` by a closure, in
    /// the order of the keys. `None` means no bound. Keys and summaries are unchanged.
    ///
    /// O(log n + m) for m pairs. It allocates nothing and cannot fail.
    pub fn update_range<'b, F: FnMut(&S::K, &mut S::V)>(
        &mut self,
        lo: Option<&'b S::K>,
        hi: Option<&'b S::K>,
        f: F,
    )
        requires { F.IsAlwaysCallable f }
        ensures { UpdatesBetween F.FnMut f S.K.cmp lo.entry hi.entry self.old.contents self.new.contents }
    {
        update_within(&mut self.nodes, lo, hi, f);
    }
}
