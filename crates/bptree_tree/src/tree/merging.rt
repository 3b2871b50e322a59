//! Two trees that become one.
ghost use Rattle.std.specs.Prelude.{◌≡◌, ◌↔◌, ◌+◌, ◌<◌, ◌≤◌, ◌++◌, ◌∷◌, ◌⊎◌, ◌^◌, [], true, Err, Some, length, reverse, vec_capacity, vec_len, IfErr, IsOk, IsTrue, OnErr, OnOk};
ghost use Rattle.bptree_propagation.specs.NodeTree.{IsWhole};
ghost use Rattle.bptree_bulk.specs.Weave.{put_pair, IsWeave};
ghost use Rattle.bptree_keys.specs.Contents.{IsAscending};
ghost use Rattle.bptree_keys.specs.Keys.{AllInfallible};
ghost use Rattle.bptree_tree.specs.Appending.{appended, Appends};
ghost use Rattle.bptree_tree.specs.Undoing.{Notes, Returns, StopsAt, Undoes, UndoesAll, WasPut, WerePut};
ghost use Rattle.bptree_tree.specs.declared.AppendError.TheVariants.{Full};

use crate::tree::{BPlusTree, IntoIter};
use crate::weaving::weave_all;
use crate::{AppendError, InsertError};
use bptree_arguments::argument::Argument;
use bptree_batches::many::{is_large, mark_many};
use bptree_bulk::joining::{join, plan_join};
use bptree_bulk::tail::{plan_all, plant_tail};
use bptree_bulk::weaving::{Weave, plan_weave};
use bptree_bulk_load::planting::plant;
use bptree_keys::key::Key;
use bptree_stores::node_stores::NodeStore;
use std::alloc::AllocError;
use std::cmp::Ordering;
use std::{mem, vec};

/// How to undo a put.
#[derive(Drop)]
pub(crate) enum Undo<K, V> {
    /// The put inserted a pair with a key that equals this one.
    Inserted(K),
    /// The put replaced the value of a present key: a key that equals that key, and the old value.
    Replaced(K, V),
}

// Moves the pairs that are left to the end of `pairs`, the greatest first.
fn move_back<S: NodeStore>(rest: IntoIter<S>, pairs: &mut Vec<(S::K, S::V)>)
    requires room { vec_len pairs.old + length rest ≤ vec_capacity pairs.old }
    ensures moved { pairs.new.items ≡ pairs.old.items ++ reverse rest }
    ensures len { vec_len pairs.new ≡ vec_len pairs.old + length rest }
    ensures capacity { vec_capacity pairs.new ≡ vec_capacity pairs.old }
{
    let mut rest = rest;
    'pairs: while let Some(pair) = rest.next_back() {
        pairs.push_reserved(pair);
    }
}

impl<S: NodeStore> BPlusTree<S> {
    // States for a proof what holds of every tree. O(1). It does nothing and cannot fail.
    #[inline(always)]
    pub(crate) fn recall_whole(&self)
        ensures fits { length self.now.contents < 2 ^ 64 }
        ensures ascending { IsAscending S.K.cmp self.now.contents }
        ensures whole { IsWhole S.K.cmp S.Argument.is_summary S.slots self.now }
    {
        self.nodes.recall();
    }

    // Moves the pairs of two trees to the leaves that were allocated for them.
    fn of_weave(first: Self, second: Self, weave: Weave<S>) -> Self
        requires { IsWeave S.slots first second S.K.cmp S.Argument.is_summary weave }
        ensures contents { result.contents ≡ appended S.K.cmp first.contents second.contents }
        ensures whole { IsWhole S.K.cmp S.Argument.is_summary S.slots result }
    {
        first.recall_whole();
        second.recall_whole();
        let Weave {
            steps,
            frame,
            mut leaves,
            rooms,
        } = weave;
        weave_all(first.nodes, second.nodes, &steps, rooms, &mut leaves);
        BPlusTree::of_nodes(plant(frame, leaves, steps.len()))
    }

    // Puts a pair, and records how to undo that. If it fails, it returns the pair.
    fn put_noted(
        &mut self,
        k: S::K,
        v: S::V,
        undo: &mut Vec<Undo<S::K, S::V>>,
    ) -> Result<(), (S::K, S::V)>
        requires infallible { AllInfallible S.K.is_infallible }
        requires room { vec_len undo.old < vec_capacity undo.old }
        ensures whole { IsWhole S.K.cmp S.Argument.is_summary S.slots self.new }
        ensures ok { OnOk result (self.new.contents ≡ put_pair S.K.cmp self.old.contents (k, v)) }
        ensures noted { OnOk result (Notes S.K.cmp (k, v) self.old.contents undo.old undo.new) }
        ensures capacity { vec_capacity undo.new ≡ vec_capacity undo.old }
        ensures returned { IfErr result (λ pair. pair ≡ (k, v)) }
        ensures unchanged { OnErr result (self.new.contents ≡ self.old.contents) }
        ensures unnoted { OnErr result (undo.new.items ≡ undo.old.items) }
    {
        self.nodes.recall();
        match self.get_mut(&k) {
            Some(value) => {
                let old = mem::replace(value, v);
                undo.push_reserved(Undo::Replaced(k, old));
                self.nodes.recall();
                return Ok(());
            }
            None => {}
        }
        let Ok(copy) = k.clone() else { unreachable!() };
        match self.insert(k, v) {
            Ok(_) => {
                undo.push_reserved(Undo::Inserted(copy));
                Ok(())
            }
            Err(InsertError::OutOfMemory(k, v)) => Err((k, v)),
            Err(InsertError::Full(k, v)) => Err((k, v)),
        }
    }

    // Undoes the last put, and returns its pair.
    fn undo_last(&mut self, entry: Undo<S::K, S::V>) -> (S::K, S::V)
        requires infallible { S.Argument.needs_no_memory × AllInfallible S.K.is_infallible }
        requires put { WasPut S.K.cmp entry self.old.contents }
        ensures whole { IsWhole S.K.cmp S.Argument.is_summary S.slots self.new }
        ensures pair { Returns S.K.cmp entry self.old.contents result }
        ensures undone { Undoes S.K.cmp entry self.old.contents self.new.contents }
    {
        match entry {
            Undo::Inserted(k) => {
                let removed = self.remove_entry(&k).unwrap();
                removed.unwrap()
            }
            Undo::Replaced(k, old) => {
                let v = mem::replace(self.get_mut(&k).unwrap(), old);
                self.nodes.recall();
                (k, v)
            }
        }
    }

    // Undoes all puts, the last one first, and moves their pairs to the end of `pairs`.
    pub(crate) fn take_back(&mut self, undo: Vec<Undo<S::K, S::V>>, pairs: &mut Vec<(S::K, S::V)>)
        requires infallible { S.Argument.needs_no_memory × AllInfallible S.K.is_infallible }
        requires put { WerePut S.K.cmp undo.items self.old.contents }
        requires room { vec_len pairs.old + length undo.items ≤ vec_capacity pairs.old }
        ensures whole { IsWhole S.K.cmp S.Argument.is_summary S.slots self.new }
        ensures undone { UndoesAll S.K.cmp undo self.old self.new pairs.old pairs.new }
    {
        let mut undo = undo;
        'undo: while let Some(entry) = undo.pop() {
            pairs.push_reserved(self.undo_last(entry));
        }
        self.nodes.recall();
    }

    // Looks up keys side by side. The processor then has the nodes cached that a put of these keys
    // reads. The tree does not change.
    fn read_ahead(&self, keys: &[S::K])
        requires { length keys.now ≤ 64 }
    {
        let mut marks = [false; 64];
        mark_many(&self.nodes, keys, &mut marks[..keys.len()], true, false);
    }

    // Counts down the pairs whose keys were read ahead. Once all of them are put, it reads the keys
    // of the next leaf ahead, and returns how many they are. If the tree is not large, it never
    // reads ahead.
    fn next_ahead(&self, ahead: usize, rest: &IntoIter<S>) -> usize {
        if ahead > 1 {
            return ahead - 1;
        }
        if !is_large(self.len()) {
            return usize::MAX;
        }
        let keys = rest.next_keys();
        self.read_ahead(keys);
        keys.len()
    }

    // Puts the pairs that are left one by one, and records how to undo each put. If a put fails, it
    // stops and returns the pair.
    fn put_each(
        &mut self,
        rest: &mut IntoIter<S>,
        undo: &mut Vec<Undo<S::K, S::V>>,
    ) -> Result<(), (S::K, S::V)>
        requires infallible { AllInfallible S.K.is_infallible }
        requires none { undo.old.items ≡ [] }
        requires room { length rest.old ≤ vec_capacity undo.old }
        ensures whole { IsWhole S.K.cmp S.Argument.is_summary S.slots self.new }
        ensures ok { OnOk result (self.new.contents ≡ appended S.K.cmp self.old.contents rest.old) }
        ensures err { IfErr result (StopsAt S.K.cmp undo.new self.old self.new rest.old rest.new) }
    {
        let mut ahead = self.next_ahead(0, rest);
        'pairs: while let Some((k, v)) = rest.next() {
            match self.put_noted(k, v, undo) {
                Ok(()) => ahead = self.next_ahead(ahead, rest),
                Err(pair) => {
                    self.recall_whole();
                    return Err(pair);
                }
            }
        }
        self.recall_whole();
        Ok(())
    }

    // Puts the pairs of a small tree one by one. If a put fails, it undoes all of them.
    fn append_few(&mut self, other: &mut Self) -> Result<(), AllocError>
        requires infallible { S.Argument.needs_no_memory × AllInfallible S.K.is_infallible }
        requires some { 0 < length other.old.contents }
        ensures ok { OnOk result (Appends S.K.cmp self.old other.old self.new) }
        ensures emptied { OnOk result (other.new.contents ≡ []) }
        ensures whole { IsWhole S.K.cmp S.Argument.is_summary S.slots self.new }
        ensures other_whole { IsWhole S.K.cmp S.Argument.is_summary S.slots other.new }
        ensures unchanged { OnErr result (self.new.contents ≡ self.old.contents) }
        ensures other_unchanged { OnErr result (other.new.contents ≡ other.old.contents) }
    {
        self.recall_whole();
        other.recall_whole();
        let alloc = other.nodes.store.allocator();
        let empty = BPlusTree::new(S::empty(alloc))?;
        let mut undo = Vec::with_capacity(alloc, other.len())?;
        let mut tail = plan_all(&other.nodes)?;
        let mut rest = mem::replace(other, empty).into_iter();
        match self.put_each(&mut rest, &mut undo) {
            Ok(()) => Ok(()),
            Err(pair) => {
                move_back(rest, &mut tail.pairs);
                tail.pairs.push_reserved(pair);
                self.take_back(undo, &mut tail.pairs);
                *other = BPlusTree::of_nodes(plant_tail(tail));
                Err(AllocError)
            }
        }
    }

    /// Returns `true` if so many pairs are inserted one by one: they are less than a sixth of the
    /// pairs of this tree, and no removal can fail.
    ///
    /// O(1). It allocates nothing and cannot fail.
    pub fn takes_few(&self, pairs: usize) -> bool
        ensures { result ≡ true → S.Argument.needs_no_memory × AllInfallible S.K.is_infallible }
    {
        S::K::clones_never_fail() && S::Argument::never_fails() && pairs < self.len() / 6
    }

    // Whether each key of this tree is below each key of another.
    fn is_below(&self, other: &Self) -> bool
        ensures { IsTrue result → IsAscending S.K.cmp (self.now.contents ++ other.now.contents) }
    {
        self.recall_whole();
        other.recall_whole();
        match (self.last(), other.first()) {
            (Some((last, _)), Some((first, _))) => matches!(last.cmp(first), Ordering::Less),
            _ => false,
        }
    }

    /// Moves all pairs of another tree here. Of two equal keys this tree's key stays, and it takes
    /// the other's value.
    ///
    /// O(n) comparisons for n pairs of both. Before a pair moves it allocates four leaves, the
    /// nodes above the leaves and a byte for each pair, clones a key of each leaf and computes
    /// summaries of the keys. If one of these fails, neither tree changes. If each key of one tree
    /// is less than each key of the other, and both have at least 16 pairs, each leaf moves as it
    /// is, in O(n / 32): it compares only the keys at the ends, and allocates the nodes above the
    /// leaves. If the other tree has less than a sixth of this one's pairs and no removal can fail,
    /// as `clones_never_fail` and `never_fails` say, it inserts these one by one instead; if one
    /// fails, it takes back those before it. If either tree is empty, it allocates nothing and
    /// cannot fail. It returns `Full` exactly if both together have more than `usize::MAX` pairs.
    pub fn append(&mut self, other: &mut Self) -> Result<(), AppendError>
        ensures ok { OnOk result (Appends S.K.cmp self.old other.old self.new) }
        ensures emptied { OnOk result (other.new.contents ≡ []) }
        ensures whole { IsWhole S.K.cmp S.Argument.is_summary S.slots self.new }
        ensures other_whole { IsWhole S.K.cmp S.Argument.is_summary S.slots other.new }
        ensures full { (result ≡ Err Full) ↔ (usize.MAX < length self.old.contents + length other.old.contents) }
        ensures infallible { (self.old.contents ≡ []) ⊎ (other.old.contents ≡ []) → IsOk result }
        ensures unchanged { OnErr result (self.new.contents ≡ self.old.contents) }
        ensures other_unchanged { OnErr result (other.new.contents ≡ other.old.contents) }
    {
        self.recall_whole();
        other.recall_whole();
        if other.is_empty() {
            return Ok(());
        }
        if self.is_empty() {
            mem::swap(self, other);
            return Ok(());
        }
        if self.len() > usize::MAX - other.len() {
            return Err(AppendError::Full);
        }
        let moved = if self.takes_few(other.len()) {
            self.append_few(other)
        } else {
            self.move_all(other)
        };
        match moved {
            Ok(()) => Ok(()),
            Err(_) => Err(AppendError::OutOfMemory),
        }
    }

    // Appends a tree that is not empty to this one, which is not empty either, if together they
    // have fewer than 2^64 pairs. If the keys allow it, whole leaves move.
    fn move_all(&mut self, other: &mut Self) -> Result<(), AllocError>
        requires some { 0 < length self.old.contents }
        requires few { length self.old.contents + length other.old.contents < 2 ^ 64 }
        ensures ok { OnOk result (Appends S.K.cmp self.old other.old self.new) }
        ensures emptied { OnOk result (other.new.contents ≡ []) }
        ensures whole { IsWhole S.K.cmp S.Argument.is_summary S.slots self.new }
        ensures other_whole { IsWhole S.K.cmp S.Argument.is_summary S.slots other.new }
        ensures unchanged { OnErr result ((self.new ≡ self.old) × (other.new ≡ other.old)) }
    {
        if self.len() < 16 || other.len() < 16 {
            return self.weave(other);
        }
        if self.is_below(other) {
            return self.join(other);
        }
        if other.is_below(self) {
            other.join(self)?;
            mem::swap(self, other);
            return Ok(());
        }
        self.weave(other)
    }

    // Moves all leaves of another tree, as they are, after the leaves of this one. Each key of this
    // tree is less than each key of the other, and both have at least 16 pairs.
    fn join(&mut self, other: &mut Self) -> Result<(), AllocError>
        requires below { IsAscending S.K.cmp (self.old.contents ++ other.old.contents) }
        requires first { 16 ≤ length self.old.contents }
        requires second { 16 ≤ length other.old.contents }
        requires few { length self.old.contents + length other.old.contents < 2 ^ 64 }
        ensures ok { OnOk result (self.new.contents ≡ self.old.contents ++ other.old.contents) }
        ensures emptied { OnOk result (other.new.contents ≡ []) }
        ensures whole { IsWhole S.K.cmp S.Argument.is_summary S.slots self.new }
        ensures other_whole { IsWhole S.K.cmp S.Argument.is_summary S.slots other.new }
        ensures unchanged { OnErr result ((self.new ≡ self.old) × (other.new ≡ other.old)) }
    {
        self.recall_whole();
        other.recall_whole();
        let spare = BPlusTree::new(S::empty(self.nodes.store.allocator()))?;
        let empty = BPlusTree::new(S::empty(other.nodes.store.allocator()))?;
        let joint = plan_join(&self.nodes, &other.nodes)?;
        let first = mem::replace(self, spare);
        let second = mem::replace(other, empty);
        *self = BPlusTree::of_nodes(join(first.nodes, second.nodes, joint));
        Ok(())
    }

    // Does what `move_all` does, and moves pair by pair.
    fn weave(&mut self, other: &mut Self) -> Result<(), AllocError>
        requires some { 0 < length self.old.contents }
        requires few { length self.old.contents + length other.old.contents < 2 ^ 64 }
        ensures ok { OnOk result (Appends S.K.cmp self.old other.old self.new) }
        ensures emptied { OnOk result (other.new.contents ≡ []) }
        ensures whole { IsWhole S.K.cmp S.Argument.is_summary S.slots self.new }
        ensures other_whole { IsWhole S.K.cmp S.Argument.is_summary S.slots other.new }
        ensures unchanged { OnErr result ((self.new ≡ self.old) × (other.new ≡ other.old)) }
    {
        self.recall_whole();
        other.recall_whole();
        let spare = BPlusTree::new(S::empty(self.nodes.store.allocator()))?;
        let empty = BPlusTree::new(S::empty(other.nodes.store.allocator()))?;
        let weave = plan_weave(&self.nodes, &other.nodes)?;
        let first = mem::replace(self, spare);
        let second = mem::replace(other, empty);
        *self = BPlusTree::of_weave(first, second, weave);
        Ok(())
    }
}
