//! Callers that replace a key by an equal key.
ghost use Rattle.std.specs.Prelude.{◌≡◌, true, false, Some, IsTrue};
ghost use Rattle.bptree_contract_tests.specs.Words.{HoldsTheSame, StoresKey};
ghost use Rattle.bptree_keys.specs.Contents.{has};

use bptree_arguments::argument::Argument;
use bptree_keys::key::Key;
use bptree_map::map::BPlusTreeMap;
use bptree_stores::node_stores::NodeStore;
use bptree_tree::{BPlusTree, ReplaceError};

// The new key is stored with the value of the equal one, or nothing has changed.
fn stores_a_key<S: NodeStore>(tree: &mut BPlusTree<S>, k: S::K) -> bool
    ensures stored { IsTrue result → StoresKey S.K.cmp k tree.old.contents tree.new.contents }
    ensures same { result ≡ false → HoldsTheSame S.slots tree.new tree.old }
{
    tree.recall();
    match tree.replace_key(k) {
        Ok(_) => true,
        Err(_) => false,
    }
}

// A key without an equal one is returned, and nothing has changed.
fn replaces_no_key<S: NodeStore>(tree: &mut BPlusTree<S>, k: S::K) -> S::K
    requires { has S.K.cmp tree.old.contents k ≡ false }
    ensures back { result ≡ k }
    ensures same { HoldsTheSame S.slots tree.new tree.old }
{
    match tree.replace_key(k) {
        Ok(_) => unreachable!(),
        Err(ReplaceError::Absent(k)) => k,
        Err(ReplaceError::OutOfMemory(_)) => unreachable!(),
    }
}

// The new key is stored in a map with the value of the equal one, or nothing has changed.
fn stores_a_key_of_a_map<K: Key, V: Drop, A: Argument<K>>(
    map: &mut BPlusTreeMap<K, V, A>,
    k: K,
) -> bool
    ensures stored { IsTrue result → StoresKey K.cmp k map.old map.new }
    ensures same { result ≡ false → map.new ≡ map.old }
{
    map.recall();
    match map.replace_key(k) {
        Ok(_) => true,
        Err(_) => false,
    }
}

// The reason why no key was replaced: no key equals it, or one does and an allocation failed.
fn says_why<K: Key, V: Drop, A: Argument<K>>(
    map: &mut BPlusTreeMap<K, V, A>,
    k: K,
) -> Option<(bool, K)>
    ensures absent { result ≡ Some (true, k) → has K.cmp map.old k ≡ false }
    ensures there { result ≡ Some (false, k) → has K.cmp map.old k ≡ true }
{
    match map.replace_key(k) {
        Ok(_) => None,
        Err(ReplaceError::Absent(k)) => Some((true, k)),
        Err(ReplaceError::OutOfMemory(k)) => Some((false, k)),
    }
}

// Without summaries replacing a present key never fails.
fn never_lacks_memory<K: Key, V: Drop>(map: &mut BPlusTreeMap<K, V>, k: K) -> bool
    requires { has K.cmp map.old k ≡ true }
    ensures { result ≡ true }
{
    map.replace_key(k).is_ok()
}
