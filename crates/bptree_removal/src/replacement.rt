//! Replaces a key by one that equals it.
ghost use Rattle.std.specs.Prelude.{◌≡◌, ◌<◌, length, slice_get, IfOk, IfErr, IsOk, OnErr, Some};
ghost use Rattle.std.specs.Map.{keys_of};
ghost use Rattle.bptree_nodes.specs.Slot.{IsPresent};
ghost use Rattle.bptree_removal.specs.Removal.{IsEntryIn};
ghost use Rattle.bptree_removal.specs.Replacement.{set_key_at, HasKey, HasKeyAt, Rekeys, RekeysPairs, SetsKey};
ghost use Rattle.bptree_invariant.specs.NodeTree.{IsUntouched, IsWhole};
ghost use Rattle.bptree_invariant.specs.Shape.{leaf_pairs};

use crate::removal::sum_of;
use bptree_invariant::nodes::Nodes;
use bptree_keys::entry_ref::VisitStack;
use bptree_keys::key::Key;
use bptree_keys::node_id::Position;
use bptree_nodes::leaf_node::LeafNode;
use bptree_propagation::ascent::ascend;
use bptree_stores::node_stores::NodeStore;

// Replaces the key at a slot of a leaf, and returns the old one.
fn set_in_leaf<K: Key, V: Drop>(leaf: &mut LeafNode<K, V>, slot: usize, key: K) -> K
    requires { slot < length leaf.old.pairs }
    ensures leaf { leaf.new ≡ record leaf.old { pairs = set_key_at leaf.old.pairs slot key } }
    ensures old { slice_get (keys_of leaf.old.pairs) slot ≡ Some result }
{
    let (old, value) = leaf.delete_at(slot);
    leaf.insert_at(slot, key, value);
    old
}

// Replaces the key at a position, and returns the old one. No summary is changed.
fn set_key<S: NodeStore>(store: &mut S, at: Position, key: S::K) -> S::K
    requires present { IsPresent ((S.slots store.old).leaf at.leaf.0) }
    requires slot { at.slot < length (leaf_pairs ((S.slots store.old).leaf at.leaf.0)) }
    ensures sets { SetsKey (S.slots store.old) (S.slots store.new) at key }
    ensures old { HasKeyAt (S.slots store.old) at result }
{
    set_in_leaf(store.get_mut_leaf(at.leaf), at.slot, key)
}

// Replaces the key at a position at the end of a path. Returns the old key and a summary of all
// keys. If a summary fails, it returns the new key, and the store is unchanged.
fn replace_in_place<S: NodeStore>(
    store: &mut S,
    path: &mut VisitStack,
    whole: &S::Argument,
    at: Position,
    key: S::K,
) -> Result<(S::K, S::Argument), S::K>
    requires { HasKey S.K.cmp S.Argument.is_summary (S.slots store.old) path.old whole.now at key }
    ensures replaced { Rekeys S.K.cmp S.Argument.is_summary (S.slots store.old) (S.slots store.new) path.old whole.now at key result }
    ensures unchanged { OnErr result (S.slots store.new ≡ S.slots store.old) }
    ensures returned { IfErr result (λ back. back ≡ key) }
    ensures infallible { S.Argument.needs_no_memory → IsOk result }
{
    let old = set_key(store, at, key);
    let Ok(summary) = sum_of(store, at.leaf) else {
        return Err(set_key(store, at, old));
    };
    match ascend(store, path, whole, summary) {
        Ok(top) => Ok((old, top)),
        Err(_) => Err(set_key(store, at, old)),
    }
}

/// Replaces the key at a position of a tree by `key`, which equals it, and returns the old key.
///
/// `find_entry` returns the position, and leaves in `path` the inner nodes on the way there. The
/// value stays.
///
/// O(log n) steps. It recomputes the summaries above the leaf, and only these can allocate. If
/// one fails, it returns `key`, and the tree is unchanged.
pub fn replace_entry<S: NodeStore>(
    tree: &mut Nodes<S>,
    path: &mut VisitStack,
    at: Position,
    key: S::K,
) -> Result<S::K, S::K>
    requires { IsEntryIn S.slots S.K.cmp S.Argument.is_summary tree.old path.old key at }
    ensures replaced { IfOk result (RekeysPairs S.K.cmp key tree.old.contents tree.new.contents) }
    ensures whole { IsWhole S.K.cmp S.Argument.is_summary S.slots tree.new }
    ensures unchanged { OnErr result (IsUntouched S.slots tree.new tree.old) }
    ensures returned { IfErr result (λ back. back ≡ key) }
    ensures infallible { S.Argument.needs_no_memory → IsOk result }
{
    match replace_in_place(&mut tree.store, path, &tree.summary, at, key) {
        Ok((old, summary)) => {
            tree.summary = summary;
            Ok(old)
        }
        Err(key) => Err(key),
    }
}
