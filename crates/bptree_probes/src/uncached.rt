//! Look-ups that leave the store's cache alone: they neither read nor set the leaf that a store
//! caches, and so write nothing.
ghost use Rattle.std.specs.Prelude.{◌≡◌};
ghost use Rattle.std.specs.Option.{option_copied};
ghost use Rattle.bptree_keys.specs.Contents.{has, value};
ghost use Rattle.bptree_invariant.specs.Shape.{IsWellShaped, value_in};

use bptree_arguments::argument::Argument;
use bptree_invariant::descent::find_leaf;
use bptree_keys::compares::{Compares, SearchHint};
use bptree_keys::key::Key;
use bptree_keys::node_id::NodeId;
use bptree_map::map::BPlusTreeMap;
use bptree_stores::node_stores::NodeStore;

// The value at a key, in the tree of a store that has `pairs` pairs. O(log n): one descent.
fn value_at<'a, S: NodeStore>(
    store: &'a S,
    root: NodeId,
    height: usize,
    pairs: usize,
    key: &S::K,
) -> Option<&'a S::V>
    requires { IsWellShaped S.K.cmp S.Argument.is_summary (S.slots store.now) height root }
    ensures { option_copied result ≡ value_in S.K.cmp (S.slots store.now) height root key.now }
{
    let mut compares = Compares::new();
    let leaf = store.get_leaf(find_leaf(store, root, height, key, &mut compares));
    let hint = SearchHint::among(pairs, key);
    let (_, value) = leaf.locate_slot_with_value_counted(key, hint, &mut compares);
    value
}

/// The value at a key, or `None`.
///
/// O(log n): one descent, also for a key beside the last one. It allocates nothing and cannot fail.
pub fn get_uncached<'a, K: Key, V: Drop, A: Argument<K>>(
    map: &'a BPlusTreeMap<K, V, A>,
    key: &K,
) -> Option<&'a V>
    ensures { option_copied result ≡ value K.cmp map.now key.now }
{
    let tree = map.tree();
    value_at(
        tree.node_store(),
        tree.root_id(),
        tree.height(),
        tree.len(),
        key,
    )
}

/// Whether a key is present.
///
/// O(log n), as `get_uncached`. It allocates nothing and cannot fail.
pub fn has_uncached<K: Key, V: Drop, A: Argument<K>>(map: &BPlusTreeMap<K, V, A>, key: &K) -> bool
    ensures { result ≡ has K.cmp map.now key.now }
{
    get_uncached(map, key).is_some()
}
