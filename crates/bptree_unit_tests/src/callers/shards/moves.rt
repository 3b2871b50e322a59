//! Callers of the laws of bounds that move.
ghost use Rattle.bptree_unit_tests.specs.Shards.{CutsInTwo, JoinsTwo};

use bptree_keys::key::Key;
use bptree_shard_routing::moves::laws_of_moves;

// One list is two shards at any bound between its parts, and two shards are one list.
fn cuts_one_list_in_two<K: Key, V>()
    ensures cut { CutsInTwo K.cmp V }
    ensures join { JoinsTwo K.cmp V }
{
    laws_of_moves::<K, V>();
}
