//! A tree that is cut in two at a key.
ghost use Rattle.std.specs.Prelude.{◌≡◌, ◌+◌, ◌≤◌, ◌++◌, length, reverse, vec_capacity, vec_len, IfOk, OnErr};
ghost use Rattle.bptree_propagation.specs.NodeTree.{IsWhole};
ghost use Rattle.bptree_keys.specs.Keys.{AllInfallible};
ghost use Rattle.bptree_tree.specs.Splitting.{but_last, last_pair_of, CutsAt};

use crate::tree::BPlusTree;
use bptree_bulk::splitting::{Cutting, cut_in_two, plan_at_key};
use bptree_bulk::tail::plant_tail;
use bptree_stores::node_stores::NodeStore;
use std::alloc::AllocError;
use std::mem;

impl<S: NodeStore> BPlusTree<S> {
    // Moves the last `count` pairs behind others, the greatest first.
    fn take_last(&mut self, count: usize, pairs: &mut Vec<(S::K, S::V)>)
        requires infallible { S.Argument.needs_no_memory × AllInfallible S.K.is_infallible }
        requires some { count ≤ length self.old.contents }
        requires room { vec_len pairs.old + count ≤ vec_capacity pairs.old }
        ensures whole { IsWhole S.K.cmp S.Argument.is_summary S.slots self.new }
        ensures kept { self.new.contents ≡ but_last count self.old.contents }
        ensures moved { pairs.new.items ≡ pairs.old.items ++ reverse (last_pair_of count self.old.contents) }
    {
        let mut left = count;
        'pairs: while left > 0 {
            match self.pop_last() {
                Ok(Some(pair)) => pairs.push_reserved(pair),
                _ => unreachable!(),
            }
            left -= 1;
        }
        self.nodes.recall();
    }

    /// Moves the pairs whose key is not below `k` to a tree of their own.
    ///
    /// O(log n) comparisons to find the cut, and O(n / 32) for n pairs: each leaf moves as it is,
    /// except for the three at the cut. Before that it allocates the nodes above the leaves, clones
    /// the first key of each leaf and computes a summary of its keys. If one of these fails,
    /// nothing changes. If fewer than n / 32 pairs move and no removal can fail, as
    /// `clones_never_fail` and `never_fails` say, it removes these one by one. If all pairs stay or
    /// all move, it allocates one leaf, and moves no leaf.
    pub fn split_off(&mut self, k: &S::K) -> Result<Self, AllocError>
        ensures ok { IfOk result (CutsAt S.K.cmp k.now self.old self.new) }
        ensures whole { IsWhole S.K.cmp S.Argument.is_summary S.slots self.new }
        ensures there { IfOk result (IsWhole S.K.cmp S.Argument.is_summary S.slots) }
        ensures unchanged { OnErr result (self.new ≡ self.old) }
    {
        let spare = BPlusTree::new(S::empty(self.nodes.store.allocator()))?;
        match plan_at_key(&self.nodes, k)? {
            Cutting::Stays => Ok(spare),
            Cutting::Moves => Ok(mem::replace(self, spare)),
            Cutting::Last(tail) => {
                let mut tail = tail;
                self.take_last(tail.count, &mut tail.pairs);
                Ok(BPlusTree::of_nodes(plant_tail(tail)))
            }
            Cutting::Parts(split) => {
                let BPlusTree {
                    nodes,
                    statistic,
                    path,
                } = mem::replace(self, spare);
                let (lower, upper) = cut_in_two(nodes, split);
                *self = BPlusTree {
                    nodes: lower,
                    statistic,
                    path,
                };
                Ok(BPlusTree::of_nodes(upper))
            }
        }
    }
}
