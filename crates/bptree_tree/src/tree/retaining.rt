//! The pairs of a tree that a closure keeps.
ghost use Rattle.std.specs.Prelude.{◌≡◌, true, IfErr, OnOk};
ghost use Rattle.bptree_keys.specs.Contents.{has};
ghost use Rattle.bptree_keys.specs.Keys.{AllInfallible};
ghost use Rattle.bptree_tree.specs.Keeping.{CallsFor, FailsToRetain, KeepsOrRemoves, Retains};
ghost use Rattle.bptree_tree.specs.Whole.{IsWhole};

use crate::building::plant_or_return;
use crate::keeping::{Keeping, kept_leaves};
use crate::tree::BPlusTree;
use bptree_invariant::nodes::Nodes;
use bptree_search::neighbours::locate;
use bptree_stores::node_stores::NodeStore;
use std::mem;

// Calls a closure for the pair whose key equals `k`, to change the value. Returns what the call
// returned, and the closure.
fn call_for<S: NodeStore, F: FnMut(&S::K, &mut S::V) -> bool>(
    tree: &mut Nodes<S>,
    k: &S::K,
    f: F,
) -> (bool, F)
    requires callable { F.IsAlwaysCallable f }
    requires there { has S.K.cmp tree.old.contents k.now ≡ true }
    ensures called { CallsFor F.FnMut S.K.cmp k.now f tree.old.contents tree.new.contents result }
    ensures callable { F.IsAlwaysCallable result.1 }
{
    let Ok(at) = locate(tree, k) else {
        unreachable!()
    };
    tree.store.get_mut_leaf(at.leaf).call_at(at.slot, f)
}

impl<S: NodeStore> BPlusTree<S> {
    /// Keeps the pairs for which a closure returns true, in the order of their keys, with the
    /// values that it leaves, and drops the others.
    ///
    /// O(n) for n pairs: a pair that stays moves only within its leaf, or to a neighbour, if both
    /// fit in one leaf or if one of them has fewer than 16 pairs. Before the first call of the
    /// closure it allocates two leaves, room for a list of leaves, and room for all pairs, which it
    /// uses only if it fails later. If one of these fails, the error is `None` and nothing changes.
    /// Then it calls the closure for every pair. It fails too if an allocation for the nodes above
    /// the leaves, a clone of a key or a summary fails: the error then has the pairs that stay, and
    /// the tree is empty.
    pub fn retain<F: FnMut(&S::K, &mut S::V) -> bool>(
        &mut self,
        f: F,
    ) -> Result<(), Option<Vec<(S::K, S::V)>>>
        requires { F.IsAlwaysCallable f }
        ensures ok { OnOk result (Retains F.FnMut f self.old self.new) }
        ensures err { IfErr result (FailsToRetain F.FnMut f self.old self.new) }
        ensures whole { IsWhole S.K.cmp S.Argument.is_summary S.slots self.new }
    {
        self.recall_whole();
        let alloc = self.nodes.store.allocator();
        let Ok(fresh) = BPlusTree::new(S::empty(alloc)) else {
            return Err(None);
        };
        let Ok(keeping) = Keeping::new(alloc, self.len()) else {
            return Err(None);
        };
        let Keeping {
            leaves,
            last,
            spare,
        } = keeping;
        let old = mem::replace(self, fresh);
        let kept = kept_leaves(old.nodes, leaves, last, f);
        if kept.len() == 0 {
            return Ok(());
        }
        match plant_or_return(kept, spare) {
            Ok(nodes) => {
                *self = BPlusTree::of_nodes(nodes);
                Ok(())
            }
            Err(back) => Err(Some(back)),
        }
    }

    // Calls a closure for the pair whose key equals `k`, and removes the pair if the closure
    // returns false. Returns the closure.
    fn keep_or_remove<F: FnMut(&S::K, &mut S::V) -> bool>(&mut self, k: &S::K, f: F) -> F
        requires infallible { S.Argument.needs_no_memory × AllInfallible S.K.is_infallible }
        requires callable { F.IsAlwaysCallable f }
        requires there { has S.K.cmp self.old.contents k.now ≡ true }
        ensures kept { KeepsOrRemoves F.FnMut S.K.cmp k.now f self.old.contents self.new.contents result }
        ensures callable { F.IsAlwaysCallable result }
    {
        let (stays, f) = call_for(&mut self.nodes, k, f);
        if !stays {
            self.remove_entry(k).unwrap();
        }
        f
    }

    /// Keeps the pairs as `retain` does, for a tree that needs no memory to remove a pair: no clone
    /// of a key fails, and no summary allocates.
    ///
    /// O(n log n) for n pairs: it looks up each pair, and removes those that do not stay one by
    /// one. It allocates nothing but what clones of keys and summaries allocate, and cannot fail.
    pub fn retain_infallible<F: FnMut(&S::K, &mut S::V) -> bool>(&mut self, f: F)
        requires infallible { S.Argument.needs_no_memory × AllInfallible S.K.is_infallible }
        requires callable { F.IsAlwaysCallable f }
        ensures retained { Retains F.FnMut f self.old self.new }
        ensures whole { IsWhole S.K.cmp S.Argument.is_summary S.slots self.new }
    {
        let mut f = f;
        let mut left = self.len();
        let mut at = self.cursor_first().unwrap();
        'pairs: while left > 0 {
            self.recall_whole();
            let here = at.unwrap();
            f = self.keep_or_remove(here.key(), f);
            at = here.next(self).unwrap();
            left -= 1;
        }
        self.recall_whole();
    }
}
