//! The laws of bounds that move. The function does nothing: its contract is the law.
ghost use Rattle.bptree_shard_routing.specs.Moves.{BoundGoesIn, BoundGoesOut, ShardSplits, ShardsMerge, LastPairsMove, FirstPairsMove};

use bptree_keys::key::Key;

/// The shards stay shards of the same whole if one is split at a key whose shard it is, and if two
/// neighbours are merged. They do so too if the last pairs of one move to the next, or the first
/// pairs of one to the one before. The bounds stay bounds.
#[tactic(auto, using(crate::proofs::MoveLemmas::laws))]
pub fn laws_of_moves<K: Key, V>()
    ensures goes_in { BoundGoesIn K.cmp }
    ensures goes_out { BoundGoesOut K.cmp }
    ensures split { ShardSplits K.cmp V }
    ensures merge { ShardsMerge K.cmp V }
    ensures last { LastPairsMove K.cmp V }
    ensures first { FirstPairsMove K.cmp V }
{}
