//! A caller of a set and of a map.
ghost use Rattle.std.specs.Prelude.{◌≡◌, true, false, None};
ghost use Rattle.bptree_keys.specs.Contents.{value as value_of};
ghost use Rattle.bptree_map.specs.Keys.{holds};

use bptree_keys::key::Key;
use bptree_map::map::BPlusTreeMap;
use bptree_set::set::BPlusTreeSet;

// Returns the value at a key that a set allows, and `None` for other keys.
fn get_allowed<K: Key>(allowed: &BPlusTreeSet<K>, map: &BPlusTreeMap<K, u64>, k: &K) -> Option<u64>
    ensures allowed { holds K.cmp allowed.now k.now ≡ true → result ≡ value_of K.cmp map.now k.now }
    ensures others { holds K.cmp allowed.now k.now ≡ false → result ≡ None }
{
    if allowed.contains(k) {
        map.get(k).copied()
    } else {
        None
    }
}
