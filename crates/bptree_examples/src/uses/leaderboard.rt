//! A leaderboard: ranks of players, and players by their ranks.
ghost use Rattle.std.specs.Prelude.{◌≡◌, slice_get};
ghost use Rattle.std.specs.Option.{option_map};
ghost use Rattle.std.proofs.Common.{rules};
ghost use Rattle.bptree_examples.specs.Ranks.{rank_in};

use crate::filling::filled;
use std::alloc::{AllocError, Global};
use std::cmp::Reverse;
use sweep_bptree::{BPlusTreeMap, Count, Key};

/// A score and its player. The greatest score comes first, and of equal scores the least player.
#[derive(Clone, Copy, PartialEq, Eq, PartialOrd, Ord)]
pub struct Standing {
    /// The score.
    pub score: Reverse<u32>,
    /// The player who has the score.
    pub player: u32,
}

impl Key for Standing {
    ghost clone_is_equal = { Prim.search rules };
}

/// Standings in their order, with indices and ranks.
pub type Board = BPlusTreeMap<Standing, (), Count>;

/// Returns a board of scores, each with its player.
pub fn new_board(alloc: Global, scores: &[(u32, u32)]) -> Result<Board, AllocError> {
    let mut standings = Vec::new(alloc);
    for (score, player) in scores {
        let standing = Standing {
            score: Reverse(*score),
            player: *player,
        };
        standings.push((standing, ()))?;
    }
    filled(alloc, &standings)
}

/// Returns the number of standings before one that is on the board, or `None` if it is absent.
///
/// The map keeps `Count`, and `rank_by_argument` computes the rank. O(log n): one root-to-leaf
/// descent, with one search on each level, and one addition for each child before the path. It
/// allocates nothing, and no call fails.
pub fn rank_of(board: &Board, standing: &Standing) -> Option<usize>
    ensures { result ≡ rank_in ⟦<Standing as Ord>⟧.cmp board.now standing.now }
{
    match board.rank_by_argument(standing) {
        Ok(Ok(rank)) => Some(rank),
        Ok(Err(_)) => None,
        // Never met: a count allocates nothing.
        Err(_) => unreachable!(),
    }
}

/// Returns the player at this rank, counted from 0, or `None` past the end.
///
/// The map keeps `Count`, and `get_by_argument` finds the player. O(log n): one root-to-leaf
/// descent, with at most one subtraction for each child. It allocates nothing, and no call fails.
pub fn player_at(board: &Board, rank: usize) -> Option<u32>
    ensures { result ≡ option_map (λ pair. pair.0.player) (slice_get board.now rank) }
{
    match board.get_by_argument(rank) {
        Ok(Some((standing, _))) => Some(standing.player),
        Ok(None) => None,
        // Never met: a count allocates nothing.
        Err(_) => unreachable!(),
    }
}

/// Returns the ranks of two standings of four, of which one is not on the board, and the players at
/// three ranks.
pub fn run(alloc: Global) -> Result<([Option<usize>; 2], [Option<u32>; 3]), AllocError> {
    let board = new_board(alloc, &[(50, 7), (90, 3), (70, 5), (70, 2)])?;
    Ok(outcomes(&board))
}

fn outcomes(board: &Board) -> ([Option<usize>; 2], [Option<u32>; 3]) {
    let there = Standing {
        score: Reverse(70),
        player: 5,
    };
    let absent = Standing {
        score: Reverse(60),
        player: 1,
    };
    let ranks = [rank_of(board, &there), rank_of(board, &absent)];
    let players = [
        player_at(board, 0),
        player_at(board, 3),
        player_at(board, 4),
    ];
    (ranks, players)
}
