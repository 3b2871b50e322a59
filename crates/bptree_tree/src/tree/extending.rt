//! Pairs of a vector that are inserted one by one: all of them, or none.
ghost use Rattle.std.specs.Prelude.{◌≡◌, ◌+◌, ◌<◌, ◌≤◌, [], length, reverse, vec_capacity, vec_len, OnErr, OnOk};
ghost use Rattle.bptree_propagation.specs.NodeTree.{IsWhole};
ghost use Rattle.bptree_bulk.specs.Weave.{put_pair};
ghost use Rattle.bptree_keys.specs.Keys.{AllInfallible};
ghost use Rattle.bptree_tree.specs.Appending.{appended};
ghost use Rattle.bptree_tree.specs.Undoing.{NotesPut, StopsWithin};

use crate::tree::BPlusTree;
use crate::tree::merging::Undo;
use bptree_stores::node_stores::NodeStore;
use std::alloc::AllocError;

impl<S: NodeStore> BPlusTree<S> {
    // Inserts a pair, or replaces the value of an equal key, and records how to undo that.
    fn insert_noted(
        &mut self,
        k: S::K,
        v: S::V,
        undo: &mut Vec<Undo<S::K, S::V>>,
    ) -> Result<(), AllocError>
        requires infallible { AllInfallible S.K.is_infallible }
        requires room { vec_len undo.old < vec_capacity undo.old }
        ensures whole { IsWhole S.K.cmp S.Argument.is_summary S.slots self.new }
        ensures ok { OnOk result (self.new.contents ≡ put_pair S.K.cmp self.old.contents (k, v)) }
        ensures noted { OnOk result (NotesPut S.K.cmp self.old.contents self.new.contents undo.old undo.new) }
        ensures capacity { vec_capacity undo.new ≡ vec_capacity undo.old }
        ensures unchanged { OnErr result (self.new.contents ≡ self.old.contents) }
        ensures unnoted { OnErr result (undo.new.items ≡ undo.old.items) }
    {
        self.recall_whole();
        let Ok(copy) = k.clone() else { unreachable!() };
        match self.insert(k, v) {
            Ok(None) => undo.push_reserved(Undo::Inserted(copy)),
            Ok(Some(old)) => undo.push_reserved(Undo::Replaced(copy, old)),
            Err(_) => return Err(AllocError),
        }
        Ok(())
    }

    // Inserts the pairs of a vector one by one, the last one first, and records how to undo each
    // insertion. If one fails, it stops.
    fn insert_each(
        &mut self,
        pairs: &mut Vec<(S::K, S::V)>,
        undo: &mut Vec<Undo<S::K, S::V>>,
    ) -> Result<(), AllocError>
        requires infallible { AllInfallible S.K.is_infallible }
        requires none { undo.old.items ≡ [] }
        requires room { vec_len pairs.old ≤ vec_capacity undo.old }
        ensures whole { IsWhole S.K.cmp S.Argument.is_summary S.slots self.new }
        ensures ok { OnOk result (self.new.contents ≡ appended S.K.cmp self.old.contents (reverse pairs.old.items)) }
        ensures stops { OnErr result (StopsWithin S.K.cmp undo.new self.old self.new pairs.new) }
    {
        'pairs: while let Some((k, v)) = pairs.pop() {
            match self.insert_noted(k, v, undo) {
                Ok(()) => {}
                Err(refusal) => {
                    self.recall_whole();
                    return Err(refusal);
                }
            }
        }
        self.recall_whole();
        Ok(())
    }

    /// Inserts the pairs of a vector one by one, in their order: all of them, or none. If a key
    /// equals one that is present, the key stays and gets the new value.
    ///
    /// It requires that clones of the keys and summaries never fail, as `takes_few` says. O(k log n)
    /// for k pairs. It allocates room for a key and a value of each pair, and what the insertions
    /// allocate. If one of these fails, it removes again what it inserted, and drops the pairs.
    pub fn insert_all(&mut self, pairs: Vec<(S::K, S::V)>) -> Result<(), AllocError>
        requires infallible { S.Argument.needs_no_memory × AllInfallible S.K.is_infallible }
        ensures ok { OnOk result (self.new.contents ≡ appended S.K.cmp self.old.contents pairs.items) }
        ensures whole { IsWhole S.K.cmp S.Argument.is_summary S.slots self.new }
        ensures unchanged { OnErr result (self.new.contents ≡ self.old.contents) }
    {
        self.recall_whole();
        let mut undo = Vec::with_capacity(self.nodes.store.allocator(), pairs.len())?;
        let mut pairs = pairs;
        pairs.reverse();
        match self.insert_each(&mut pairs, &mut undo) {
            Ok(()) => Ok(()),
            Err(refusal) => {
                self.take_back(undo, &mut pairs);
                Err(refusal)
            }
        }
    }
}
