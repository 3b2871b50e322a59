//! Callers of the laws of keys.
ghost use Rattle.bptree_unit_tests.specs.Shards.{EmptyShardHasNoKey, FindsNoneDeleted, FindsWhatWasPut, FirstShardRanks, LowerPreviousIsPrevious, OwnNextIsNext, OwnPageBackIsPageBack, OwnPageIsPage, RangeInOneShard};

use bptree_keys::contents::{laws_of_del, laws_of_put};
use bptree_keys::key::Key;
use bptree_shard_routing::laws::{laws_of_neighbours, laws_of_ranges, laws_of_routing};

// A look-up in the whole finds what was put into a key's shard, and does not find what was deleted
// there.
fn finds_in_the_whole_what_a_shard_was_given<K: Key, V>()
    ensures put { FindsWhatWasPut K.cmp V }
    ensures del { FindsNoneDeleted K.cmp V }
    ensures other { EmptyShardHasNoKey K.cmp V }
{
    laws_of_routing::<K, V>();
    laws_of_put::<K, V>();
    laws_of_del::<K, V>();
}

// If a key's shard has a greater key, or a smaller one, no other shard is read.
fn finds_a_neighbour_in_its_shard<K: Key, V>()
    ensures next { OwnNextIsNext K.cmp V }
    ensures prev { LowerPreviousIsPrevious K.cmp V }
    ensures rank { FirstShardRanks K.cmp V }
{
    laws_of_neighbours::<K, V>();
}

// If a key's shard has n pairs from the key on, or up to it, no other shard is read. If
// the same shard has the first and the last key of a range, it has the whole range.
fn shows_a_page_of_its_shard<K: Key, V>()
    ensures forward { OwnPageIsPage K.cmp V }
    ensures back { OwnPageBackIsPageBack K.cmp V }
    ensures between { RangeInOneShard K.cmp V }
{
    laws_of_ranges::<K, V>();
    laws_of_routing::<K, V>();
}
