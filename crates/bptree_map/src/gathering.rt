//! A tree of pairs in any order.
ghost use Rattle.std.specs.Prelude.{◌≡◌, IfOk, List};
ghost use Rattle.bptree_keys.specs.Contents.{IsAscending, gather};

use crate::map::BPlusTreeMap;
use bptree_arguments::argument::Argument;
use bptree_keys::key::Key;
use bptree_load_plan::loading::{laws_of_load, sort_for_load};
use bptree_stores::node_store_vec::NodeStoreVec;
use bptree_tree::BPlusTree;
use std::alloc::AllocError;

// Sorts the pairs by their keys, equal ones in the order that they came in, and loads them. Of each
// key the last pair stays.
pub(crate) fn gather_tree<K: Key, V: Drop, A: Argument<K>>(
    mut pairs: Vec<(K, V)>,
) -> Result<BPlusTree<NodeStoreVec<K, V, A>>, AllocError>
    ensures { IfOk result (λ tree. tree.contents ≡ gather K.cmp pairs.items) }
{
    sort_for_load(&mut pairs)?;
    BPlusTree::bulk_load(pairs)
}

/// A map of pairs in any order. Of each key the last pair stays. If an allocation fails, the pairs
/// are dropped.
pub fn gather_map<K: Key, V: Drop, A: Argument<K>>(
    pairs: Vec<(K, V)>,
) -> Result<BPlusTreeMap<K, V, A>, AllocError>
    ensures { IfOk result (λ map. map ≡ gather K.cmp pairs.items) }
{
    Ok(BPlusTreeMap::of_tree(gather_tree(pairs)?))
}

/// A map of pairs whose keys ascend. If an allocation fails, the pairs are dropped.
pub(crate) fn load_map<K: Key, V: Drop, A: Argument<K>>(
    pairs: Vec<(K, V)>,
) -> Result<BPlusTreeMap<K, V, A>, AllocError>
    requires { IsAscending K.cmp pairs.items }
    ensures { IfOk result (λ map. map ≡ pairs.items) }
{
    laws_of_load::<K, V>();
    Ok(BPlusTreeMap::of_tree(BPlusTree::bulk_load(pairs)?))
}

/// Gathering pairs whose keys ascend makes these pairs: so `from_iter` of the pairs of `into_iter`
/// is the same list. The function does nothing.
///
/// O(1). It cannot fail.
pub fn law_of_from_iter<K: Key, V>()
    ensures { (l : List (K × V)) → IsAscending K.cmp l → gather K.cmp l ≡ l }
{}
