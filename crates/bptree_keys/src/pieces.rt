//! The keys below the children of a node: one list for each child, together one ascending list.
ghost use Rattle.bptree_keys.specs.Pieces.{PiecesReplaced, PieceSplits, PiecesJoin, LastPartMoves, FirstPartMoves, PiecesPart};

/// The pieces of an ascending list remain pieces of one when a node changes: when some of them are
/// replaced, one is split, two are joined, a part of one moves to its neighbour, or the node itself
/// is split. The function does nothing when it runs.
#[tactic(auto, using(crate::proofs::PieceLemmas::laws))]
pub fn piece_laws<K: Ord>()
    ensures replaced { PiecesReplaced K.cmp }
    ensures splits { PieceSplits K.cmp }
    ensures join { PiecesJoin K.cmp }
    ensures last { LastPartMoves K.cmp }
    ensures first { FirstPartMoves K.cmp }
    ensures part { PiecesPart K.cmp }
{}
