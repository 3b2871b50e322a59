//! The laws of the whole, by the lengths of its shards. Each function does nothing: its contract is
//! the law.
ghost use Rattle.std.specs.Prelude.{◌≡◌, List, length};
ghost use Rattle.std.specs.List.{sum};
ghost use Rattle.bptree_keys.specs.Pieces.{flatten};
ghost use Rattle.bptree_shard_routing.specs.Laws.{StartIsSum, IndexIsLocated, FirstIsInFirstFull, LastIsInLastFull, PageIsFirstPartThenRest, PageIsPartsInTurn, PageBackIsPartsBack};
ghost use Rattle.bptree_shard_routing.specs.Lengths.{lengths_of};

/// The whole has as many members as its pieces together. The number of members before a piece is
/// the sum of the lengths of the pieces before it. The member at an index is the one in the piece
/// that has the index. The first member is that of the first piece that has one, and the last
/// member that of the last such piece.
pub fn laws_of_indexes<T>()
    ensures len { (shards : List (List T)) → length (flatten shards) ≡ sum (lengths_of shards) }
    ensures start { StartIsSum T }
    ensures at { IndexIsLocated T }
    ensures first { FirstIsInFirstFull T }
    ensures last { LastIsInLastFull T }
{}

/// A page of the whole is its part in the first piece that has a member of it, followed by the rest
/// of the page. A page is therefore its parts, one after another. A page backward is the same
/// parts, each backward, from the last to the first.
pub fn laws_of_parts<T>()
    ensures first { PageIsFirstPartThenRest T }
    ensures all { PageIsPartsInTurn T }
    ensures back { PageBackIsPartsBack T }
{}
