//! The laws of shards. Each function does nothing: its contract is the law.
ghost use Rattle.bptree_shard_routing.specs.Laws.{OwnShardIsThere, LowerShardIsThere, OwnShardHasValue, OwnShardHasKey, OwnShardIsPut, OwnShardIsDeleted, RanksAddUp, NextIsOwnOrBehind, NextIsOwnOrFirstFull, PreviousIsLowerOrBefore, PreviousIsLowerOrLastFull, FromKeyIsOwnThenPage, BackFromKeyIsOwnThenPage, BetweenIsInTurn, InnerShardsAreWhole, EmptyShardsLieBetween};

use bptree_keys::key::Key;

/// The shard of a key, and the last shard that may have a smaller key, are among the shards. A key
/// is looked up, put and deleted in its own shard alone. After this the shards are still shards
/// with the same bounds.
pub fn laws_of_routing<K: Key, V>()
    ensures own_there { OwnShardIsThere K.cmp V }
    ensures lower_there { LowerShardIsThere K.cmp V }
    ensures value { OwnShardHasValue K.cmp V }
    ensures has { OwnShardHasKey K.cmp V }
    ensures put { OwnShardIsPut K.cmp V }
    ensures del { OwnShardIsDeleted K.cmp V }
{}

/// The keys that are smaller than a key are those of the shards before its own, and the smaller
/// ones of its own. The next pair is that of its own shard, or else the first one behind it. The
/// pair before a key is that of the last shard that may have a smaller key. If that shard has no
/// smaller key, it is the last pair before that shard.
pub fn laws_of_neighbours<K: Key, V>()
    ensures rank { RanksAddUp K.cmp V }
    ensures next { NextIsOwnOrBehind K.cmp V }
    ensures next_full { NextIsOwnOrFirstFull K.cmp V }
    ensures prev { PreviousIsLowerOrBefore K.cmp V }
    ensures prev_full { PreviousIsLowerOrLastFull K.cmp V }
{}

/// At most n pairs from a key on are those of its own shard, followed by a page of the whole that
/// begins with the next shard. Back from a key they are those of its own shard, followed by a page
/// backward that begins just before this shard. The pairs between two keys are those of consecutive
/// shards. Each of these except the first and the last has all its pairs between the keys.
pub fn laws_of_ranges<K: Key, V>()
    ensures forward { FromKeyIsOwnThenPage K.cmp V }
    ensures back { BackFromKeyIsOwnThenPage K.cmp V }
    ensures between { BetweenIsInTurn K.cmp V }
    ensures inner { InnerShardsAreWhole K.cmp V }
{}

/// Shards without pairs are shards at any bounds, if there is one more shard than there are bounds.
pub fn law_of_empty_shards<K: Key, V>()
    ensures { EmptyShardsLieBetween K.cmp V }
{}
