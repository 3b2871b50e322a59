//! Callers that read borrowed maps.
ghost use Rattle.std.specs.Prelude.{◌≡◌, Some, true};
ghost use Rattle.bptree_keys.specs.Contents.{has, value as value_of};

use bptree_arguments::argument::Argument;
use bptree_keys::key::Key;
use bptree_map::map::BPlusTreeMap;

// Indexing a map by a present key borrows the key's value.
fn reads_at_a_key<'a, K: Key, V: Drop, A: Argument<K>>(
    map: &'a BPlusTreeMap<K, V, A>,
    k: &K,
) -> &'a V
    requires { has K.cmp map.now k.now ≡ true }
    ensures { value_of K.cmp map.now k.now ≡ Some result.now }
{
    &map[k]
}
