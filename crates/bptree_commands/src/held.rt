//! Commands on the held cursors.
ghost use Rattle.std.specs.Prelude.{◌≡◌, ◌<◌, Option, None, Ok, IfOk, IsOk, vec_len};
ghost use Rattle.bptree_tree.specs.Cursor.{PointsAt, ShowsValueOf};
ghost use Rattle.bptree_commands.specs.Steps.{CursorJoins, ReadsWith, GoesTo, JoinsAt, PointsBeside, ShowsBeside, HasNoneBeside, pair_at_end, cursor_at_end, step_of, reading_of};

use crate::commands::{Command, Reply, ReplyOf};
use bptree_arguments::argument::{RankArgument, SearchArgument};
use bptree_keys::end::{End, Side};
use bptree_keys::key::Key;
use bptree_stores::node_stores::NodeStore;
use bptree_tree::BPlusTree;
use bptree_tree::cursor::Cursor;
use std::alloc::AllocError;

// Adds a cursor to the held ones, and replies with its number and the value at its key.
fn join<K: Key, V: Drop, R>(
    cursors: &mut Vec<Cursor<K>>,
    cursor: Cursor<K>,
    value: Option<V>,
) -> Reply<K, V, R>
    ensures { CursorJoins cursor value cursors.old.items result cursors.new.items }
{
    let number = cursors.len();
    match cursors.push(cursor) {
        Ok(()) => Reply::Held(number, value),
        Err(_) => Reply::OutOfMemory,
    }
}

/// Adds a cursor at a key to the held ones.
pub(crate) fn hold<S: NodeStore>(
    tree: &BPlusTree<S>,
    cursors: &mut Vec<Cursor<S::K>>,
    key: S::K,
) -> ReplyOf<S>
where
    S::V: Copy,
    S::Argument: SearchArgument<S::K> + RankArgument<S::K>,
    ensures { ReadsWith S.K.cmp S.Argument.selects S.Argument.ranks tree.now cursors.old.items (Command.Cursor key) result cursors.new.items }
{
    match tree.get_cursor(&key) {
        Ok(Some((cursor, value))) => join(cursors, cursor, value.copied()),
        _ => Reply::OutOfMemory,
    }
}

// Adds a cursor to the held ones, if one was found.
fn hold_found<K: Key, V: Copy, R>(
    cursors: &mut Vec<Cursor<K>>,
    found: Option<(Cursor<K>, &V)>,
) -> Reply<K, V, R>
    ensures { JoinsAt K.cmp found.entry cursors.old.items result cursors.new.items }
{
    match found {
        None => Reply::Pair(None),
        Some((cursor, value)) => join(cursors, cursor, Some(*value)),
    }
}

// Returns a cursor at the pair of an end, with the value there.
fn at_end<'t, S: NodeStore>(
    tree: &'t BPlusTree<S>,
    end: End,
) -> Result<Option<(Cursor<S::K>, &'t S::V)>, AllocError>
    ensures cursor { IfOk result (PointsAt S.K.cmp (pair_at_end end tree.now.contents)) }
    ensures value { IfOk result (ShowsValueOf (pair_at_end end tree.now.contents)) }
{
    match end {
        End::Front => Cursor::first(tree),
        End::Back => Cursor::last(tree),
    }
}

/// Adds a cursor at the pair of an end to the held ones.
pub(crate) fn hold_end<S: NodeStore>(
    tree: &BPlusTree<S>,
    cursors: &mut Vec<Cursor<S::K>>,
    end: End,
) -> ReplyOf<S>
where
    S::V: Copy,
    S::Argument: SearchArgument<S::K> + RankArgument<S::K>,
    ensures { ReadsWith S.K.cmp S.Argument.selects S.Argument.ranks tree.now cursors.old.items (cursor_at_end end) result cursors.new.items }
{
    match at_end(tree, end) {
        Ok(found) => hold_found(cursors, found),
        Err(_) => Reply::OutOfMemory,
    }
}

// Moves a held cursor to a pair, if there is one, and replies with a copy of the pair. If a clone
// fails, the cursor stays.
fn move_to<K: Key, V: Copy, R>(
    cursors: &mut Vec<Cursor<K>>,
    number: usize,
    moved: Option<(Cursor<K>, &V)>,
) -> Reply<K, V, R>
    requires { number < vec_len cursors.old }
    ensures { GoesTo K.cmp moved.entry cursors.old.items number result cursors.new.items }
{
    let Some((cursor, value)) = moved else {
        return Reply::Pair(None);
    };
    match cursor.key().clone() {
        Ok(key) => {
            cursors[number] = cursor;
            Reply::Pair(Some((key, *value)))
        }
        Err(_) => Reply::OutOfMemory,
    }
}

/// Returns a cursor at the pair beside a cursor's key on a side, with the value there. The pair is
/// the one with the least greater key, or the one with the greatest smaller key.
pub(crate) fn beside<'t, S: NodeStore>(
    tree: &'t BPlusTree<S>,
    cursor: &Cursor<S::K>,
    side: Side,
) -> Result<Option<(Cursor<S::K>, &'t S::V)>, AllocError>
    ensures cursor { IfOk result (PointsBeside S.K.cmp side tree.now cursor.now) }
    ensures value { IfOk result (ShowsBeside S.K.cmp side tree.now cursor.now) }
    ensures end { HasNoneBeside S.K.cmp side tree.now cursor.now → result ≡ Ok None }
    ensures infallible { ((key : S.K) → S.K.is_infallible key) → IsOk result }
{
    match side {
        Side::Before => cursor.prev_with_value(tree),
        Side::After => cursor.next_with_value(tree),
    }
}

/// Moves a held cursor to the pair beside its key.
pub(crate) fn step<S: NodeStore>(
    tree: &BPlusTree<S>,
    cursors: &mut Vec<Cursor<S::K>>,
    number: usize,
    side: Side,
) -> ReplyOf<S>
where
    S::V: Copy,
    S::Argument: SearchArgument<S::K> + RankArgument<S::K>,
    ensures { ReadsWith S.K.cmp S.Argument.selects S.Argument.ranks tree.now cursors.old.items (step_of side number) result cursors.new.items }
{
    let Some(cursor) = cursors.get(number) else {
        return Reply::NoCursor;
    };
    match beside(tree, cursor, side) {
        Ok(moved) => move_to(cursors, number, moved),
        Err(_) => Reply::OutOfMemory,
    }
}

/// Reads at the key of a held cursor: the value there, or whether the key is present.
pub(crate) fn read<S: NodeStore>(
    tree: &BPlusTree<S>,
    cursors: &[Cursor<S::K>],
    number: usize,
    is_value: bool,
) -> ReplyOf<S>
where
    S::V: Copy,
    S::Argument: SearchArgument<S::K> + RankArgument<S::K>,
    ensures { ReadsWith S.K.cmp S.Argument.selects S.Argument.ranks tree.now cursors.now (reading_of is_value number) result cursors.now }
{
    let Some(cursor) = cursors.get(number) else {
        return Reply::NoCursor;
    };
    if is_value {
        return Reply::Value(cursor.value(tree).copied());
    }
    Reply::Done(cursor.exists(tree))
}
