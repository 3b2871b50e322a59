//! Callers that put and remove pairs, and write values.
ghost use Rattle.std.specs.Prelude.{◌≡◌, ◌<◌, ◌-◌, ◌^◌, [], length, true, false, IfOk, OnErr, IfSome, OnOk, IsTrue, Some, None, Ok};
ghost use Rattle.std.specs.declared.cmp.Ordering.TheVariants.{Equal};
ghost use Rattle.bptree_keys.specs.Contents.{has, value as value_of, put, del};
ghost use Rattle.bptree_propagation.specs.Borrowing.{written};
ghost use Rattle.bptree_propagation.specs.Failing.{NeverFails};
ghost use Rattle.bptree_tree.specs.Changes.{PopsFirst, PopsLast, RemovesEntry};
ghost use Rattle.bptree_tree.specs.Whole.{HasSameTop};
ghost use Rattle.bptree_contract_tests.specs.Words.{AddsBetween, HoldsTheSame, KeepsSlots, Lacks, Loses, PopsFirstOfTwo, PopsLastOfTwo, PutsTwoInTurn, WritesValue, reported_value, StaysWhole};

use bptree_stores::node_stores::NodeStore;
use bptree_tree::{BPlusTree, InsertError};
use std::alloc::AllocError;

// Inserting a present key never fails: the value is replaced, and the old one is returned.
fn replaces<S: NodeStore>(tree: &mut BPlusTree<S>, k: S::K, v: S::V) -> S::V
    requires { has S.K.cmp tree.old.contents k ≡ true }
    ensures old { value_of S.K.cmp tree.old.contents k ≡ Some result }
    ensures new { tree.new.contents ≡ written S.K.cmp k tree.old.contents v }
{
    match tree.insert(k, v) {
        Ok(Some(old)) => old,
        Ok(None) => unreachable!(),
        Err(_) => unreachable!(),
    }
}

// An absent key has no old value, and its pair is inserted between the smaller and the greater
// keys.
fn adds<S: NodeStore>(tree: &mut BPlusTree<S>, k: S::K, v: S::V) -> bool
    requires { has S.K.cmp tree.old.contents k ≡ false }
    ensures added { IsTrue result → AddsBetween S.K.cmp k v tree.old.contents tree.new.contents }
    ensures failed { result ≡ false → HoldsTheSame S.slots tree.new tree.old }
{
    match tree.insert(k, v) {
        Ok(None) => true,
        Ok(Some(_)) => unreachable!(),
        Err(_) => false,
    }
}

// A tree with the greatest number of pairs is full for a new key, and returns the pair.
fn is_full<S: NodeStore>(tree: &mut BPlusTree<S>, k: S::K, v: S::V) -> (S::K, S::V)
    requires full { length tree.old.contents ≡ 2 ^ 64 - 1 }
    requires new { has S.K.cmp tree.old.contents k ≡ false }
    ensures pair { result ≡ (k, v) }
    ensures contents { tree.new.contents ≡ tree.old.contents }
{
    match tree.insert(k, v) {
        Err(InsertError::Full(k, v)) => (k, v),
        _ => unreachable!(),
    }
}

// A tree with fewer pairs is never full, and returns the pair only if an allocation fails. The tree
// is then unchanged.
fn has_room<S: NodeStore>(tree: &mut BPlusTree<S>, k: S::K, v: S::V) -> Option<(S::K, S::V)>
    requires { length tree.old.contents < 2 ^ 64 - 1 }
    ensures { IfSome result (λ pair. (pair ≡ (k, v)) × StaysWhole S.slots tree.new tree.old) }
{
    match tree.insert(k, v) {
        Ok(_) => None,
        Err(InsertError::OutOfMemory(k, v)) => Some((k, v)),
        Err(InsertError::Full(_, _)) => unreachable!(),
    }
}

// Removing a present key returns its value, or fails and changes nothing. Removing an absent key
// changes nothing and never fails. No removal fails if neither summaries nor clones of keys
// allocate.
fn removes<S: NodeStore>(tree: &mut BPlusTree<S>, k: &S::K) -> Result<Option<S::V>, AllocError>
    ensures removed { IfOk result (λ gone. (gone ≡ value_of S.K.cmp tree.old.contents k.now) × (tree.new.contents ≡ del S.K.cmp tree.old.contents k.now)) }
    ensures absent { Lacks S.K.cmp k.now tree.old → result ≡ Ok None }
    ensures less { Lacks S.K.cmp k.now tree.old → Loses S.K.cmp k.now tree.old tree.new }
    ensures slots { Lacks S.K.cmp k.now tree.old → KeepsSlots S.slots tree.new tree.old }
    ensures failed { OnErr result (StaysWhole S.slots tree.new tree.old) }
    ensures infallible { NeverFails S.Argument.needs_no_memory S.K.is_infallible result }
{
    tree.remove(k)
}

// A tree that was cleared has no pairs. A failure changes nothing.
fn clears<S: NodeStore>(tree: &mut BPlusTree<S>) -> Result<(), AllocError>
    ensures empty { OnOk result (tree.new.contents ≡ []) }
    ensures failed { OnErr result (StaysWhole S.slots tree.new tree.old) }
{
    tree.clear()
}

// A value is written if and only if the key is present, and nothing else changes.
pub(crate) fn writes<S: NodeStore>(tree: &mut BPlusTree<S>, k: &S::K, v: S::V) -> bool
    ensures there { result ≡ has S.K.cmp tree.old.contents k.now }
    ensures put { IsTrue result → WritesValue S.K.cmp k.now v tree.old tree.new }
    ensures absent { result ≡ false → tree.new ≡ tree.old }
    ensures shape { HasSameTop tree.new tree.old }
{
    match tree.get_mut(k) {
        Some(there) => {
            *there = v;
            true
        }
        None => false,
    }
}

// Reading a value through a mutable borrow returns it.
fn reads_in_place<S: NodeStore>(tree: &mut BPlusTree<S>, k: &S::K) -> Option<S::V>
where
    S::V: Copy,
    ensures { result ≡ value_of S.K.cmp tree.old.contents k.now }
{
    match tree.get_mut(k) {
        Some(there) => Some(*there),
        None => None,
    }
}

// Removing a pair by its key returns the stored key, which equals the given one. A failure leaves
// the nodes unchanged. The removal never fails if nothing allocates.
fn takes_the_pair_of_a_key<S: NodeStore>(
    tree: &mut BPlusTree<S>,
    k: &S::K,
) -> Result<Option<(S::K, S::V)>, AllocError>
    ensures key { IfOk result (λ gone. IfSome gone (λ pair. S.K.cmp pair.0 k.now ≡ Equal)) }
    ensures value { IfOk result (λ g. reported_value g ≡ value_of S.K.cmp tree.old.contents k.now) }
    ensures stored { IfOk result (RemovesEntry S.K.cmp k.now tree.old.contents tree.new.contents) }
    ensures failed { OnErr result (S.slots tree.new.store ≡ S.slots tree.old.store) }
    ensures infallible { NeverFails S.Argument.needs_no_memory S.K.is_infallible result }
{
    tree.remove_entry(k)
}

// Of two pairs that are inserted at once the second is put last. If the call fails, neither is
// there. If the call does not serve for so many pairs, the tree is unchanged.
fn inserts_two<S: NodeStore>(
    tree: &mut BPlusTree<S>,
    pairs: Vec<(S::K, S::V)>,
) -> Result<(), AllocError>
    ensures two { OnOk result (PutsTwoInTurn S.K.cmp pairs.items tree.old.contents tree.new.contents) }
    ensures none { pairs.items ≡ [] → tree.new.contents ≡ tree.old.contents }
    ensures failed { OnErr result (tree.new.contents ≡ tree.old.contents) }
{
    if !tree.takes_few(pairs.len()) {
        return Err(AllocError);
    }
    tree.insert_all(pairs)
}

// The result of a removal: the pair, or `None`.
type Gone<S> = Result<Option<(<S as NodeStore>::K, <S as NodeStore>::V)>, AllocError>;

// The first of two pairs is returned as it was stored, and so is the last. Neither removal fails if
// nothing allocates.
fn pops_the_first_of_two<S: NodeStore>(tree: &mut BPlusTree<S>) -> Gone<S>
    ensures popped { IfOk result (PopsFirstOfTwo tree.old.contents tree.new.contents) }
    ensures ends { IfOk result (PopsFirst tree.old.contents tree.new.contents) }
    ensures failed { OnErr result (S.slots tree.new.store ≡ S.slots tree.old.store) }
    ensures infallible { NeverFails S.Argument.needs_no_memory S.K.is_infallible result }
{
    tree.pop_first()
}

fn pops_the_last_of_two<S: NodeStore>(tree: &mut BPlusTree<S>) -> Gone<S>
    ensures popped { IfOk result (PopsLastOfTwo tree.old.contents tree.new.contents) }
    ensures ends { IfOk result (PopsLast tree.old.contents tree.new.contents) }
    ensures failed { OnErr result (S.slots tree.new.store ≡ S.slots tree.old.store) }
    ensures infallible { NeverFails S.Argument.needs_no_memory S.K.is_infallible result }
{
    tree.pop_last()
}
