//! Commands on a tree, and their replies.
ghost use Rattle.std.specs.Prelude.{◌≡◌, ◌≤◌, ◌↔◌, [], IfOk, IsNone, IsSome, vec_capacity, vec_len};
ghost use Rattle.std.specs.Option.{option_map};
ghost use Rattle.bptree_commands.specs.Steps.{IsCopyOf, RepliesCopy, reply_to_failure, Changes, ChangesWith, Reads, RunsAll, RunsWith};
ghost use Rattle.bptree_commands.specs.declared.commands.Command.TheVariants.{Insert, Remove, RemoveAt, Clear, Get, Set, SetAt, At, Rank};
ghost use Rattle.std.specs.Map.Iter.{deref_pair};

use crate::held;
use crate::walk::{End, walk, walk_range};
use bptree_arguments::argument::{RankArgument, SearchArgument};
use bptree_keys::end::Side;
use bptree_keys::key::Key;
use bptree_stores::node_stores::NodeStore;
use bptree_tree::cursor::Cursor;
use bptree_tree::{BPlusTree, InsertError, SelectError};
use std::alloc::{AllocError, Global};

/// A command on a tree, or on a held cursor. Held cursors are numbered 0, 1, and so on, in the
/// order in which they were made.
#[derive(Debug, Drop)]
pub enum Command<K, V, Q> {
    /// Inserts the key with the value, or replaces the value at the key.
    Insert(K, V),
    /// Removes the pair with the key.
    Remove(K),
    /// Removes the pair at an index that the query selects, if it selects one.
    RemoveAt(Q),
    /// Removes all pairs.
    Clear,
    /// Looks the key up.
    Get(K),
    /// Replaces the value at the key. It inserts nothing if the key is absent.
    Set(K, V),
    /// Replaces the value at an index that the query selects. It changes nothing if the query
    /// selects no index.
    SetAt(Q, V),
    /// Asks for the first pair.
    First,
    /// Asks for the last pair.
    Last,
    /// Asks for the number of pairs.
    Len,
    /// Asks for the pair at an index that the query selects.
    At(Q),
    /// Asks for the rank of the key, which need not be present.
    Rank(K),
    /// Makes a held cursor at the key, which need not be present.
    Cursor(K),
    /// Makes a held cursor at the first pair.
    CursorFirst,
    /// Makes a held cursor at the last pair.
    CursorLast,
    /// Moves the cursor of this number to the pair with the least greater key.
    Next(usize),
    /// Moves the cursor of this number to the pair with the greatest smaller key.
    Prev(usize),
    /// Asks whether the key of the cursor of this number is present.
    Exists(usize),
    /// Asks for the value at the key of the cursor of this number.
    Value(usize),
    /// Takes a pair from each of these ends of an iterator over all pairs.
    Walk(Vec<End>),
    /// Takes a pair from each of these ends of an iterator over a range of keys. No key is below
    /// the first bound, if it is given, and each is below the second, if it is given.
    Range(Option<K>, Option<K>, Vec<End>),
    /// Takes a pair from each of these ends of an iterator over at most this many pairs, from an
    /// index on that the query selects.
    RangeAt(Q, usize, Vec<End>),
}

/// The reply to a command.
#[derive(Debug, Drop)]
pub enum Reply<K, V, R> {
    /// The value at the key, before the command.
    Value(Option<V>),
    /// A pair: the one that was removed, or a copy with a clone of its key. `None` if there is no
    /// pair: a cursor that was to move stays, and no new cursor is held.
    Pair(Option<(K, V)>),
    /// A number of pairs.
    Number(usize),
    /// Whether there was a value to replace, or whether the cursor's key is present. It is true
    /// after all pairs were removed.
    Done(bool),
    /// The rank of the key: `Ok` if the key is present, and `Err` if it is absent.
    Rank(Result<R, R>),
    /// The number of the new held cursor, and the value at its key.
    Held(usize, Option<V>),
    /// The result of each end of the word: a copy of a pair, or `None` if no pair was left.
    Walked(Vec<Option<(K, V)>>),
    /// No cursor of that number is held.
    NoCursor,
    /// An allocation failed, and nothing has changed.
    OutOfMemory,
    /// The tree has `usize::MAX` pairs and not this key, and nothing has changed.
    Full,
}

/// A command on the tree over a store.
pub type CommandOn<S> = Command<
    <S as NodeStore>::K,
    <S as NodeStore>::V,
    <<S as NodeStore>::Argument as SearchArgument<<S as NodeStore>::K>>::Query,
>;

/// A reply of the tree over a store.
pub type ReplyOf<S> = Reply<
    <S as NodeStore>::K,
    <S as NodeStore>::V,
    <<S as NodeStore>::Argument as RankArgument<<S as NodeStore>::K>>::Rank,
>;

fn unchanged<K: Drop, V: Drop, R>(error: InsertError<K, V>) -> Reply<K, V, R>
    ensures { result ≡ reply_to_failure error }
{
    match error {
        InsertError::OutOfMemory(..) => Reply::OutOfMemory,
        InsertError::Full(..) => Reply::Full,
    }
}

/// Returns a pair with a clone of its key, or `None` if there is no pair.
pub(crate) fn copy_of<K: Key, V: Copy>(pair: Option<(&K, &V)>) -> Result<Option<(K, V)>, AllocError>
    ensures { IfOk result (λ copy. IsCopyOf K.cmp (option_map deref_pair pair.entry) copy) }
{
    match pair {
        None => Ok(None),
        Some((key, value)) => Ok(Some((key.clone()?, *value))),
    }
}

fn copied<K: Key, V: Copy, R>(pair: Option<(&K, &V)>) -> Reply<K, V, R>
    ensures { RepliesCopy K.cmp (option_map deref_pair pair.entry) result }
{
    match copy_of(pair) {
        Ok(copy) => Reply::Pair(copy),
        Err(_) => Reply::OutOfMemory,
    }
}

fn insert<S: NodeStore>(tree: &mut BPlusTree<S>, key: S::K, value: S::V) -> ReplyOf<S>
where
    S::Argument: SearchArgument<S::K> + RankArgument<S::K>,
    ensures { Changes S.K.cmp S.Argument.selects S.Argument.ranks tree.old tree.new (Insert key value) result }
{
    match tree.insert(key, value) {
        Ok(before) => Reply::Value(before),
        Err(error) => unchanged(error),
    }
}

fn remove<S: NodeStore>(tree: &mut BPlusTree<S>, key: S::K) -> ReplyOf<S>
where
    S::Argument: SearchArgument<S::K> + RankArgument<S::K>,
    ensures { Changes S.K.cmp S.Argument.selects S.Argument.ranks tree.old tree.new (Remove key) result }
{
    match tree.remove(&key) {
        Ok(gone) => Reply::Value(gone),
        Err(_) => Reply::OutOfMemory,
    }
}

fn remove_at<S: NodeStore>(
    tree: &mut BPlusTree<S>,
    query: <S::Argument as SearchArgument<S::K>>::Query,
) -> ReplyOf<S>
where
    S::Argument: SearchArgument<S::K> + RankArgument<S::K>,
    ensures { Changes S.K.cmp S.Argument.selects S.Argument.ranks tree.old tree.new (RemoveAt query) result }
{
    match tree.remove_by_argument(query) {
        Ok(pair) => Reply::Pair(pair),
        Err(_) => Reply::OutOfMemory,
    }
}

fn clear<S: NodeStore>(tree: &mut BPlusTree<S>) -> ReplyOf<S>
where
    S::Argument: SearchArgument<S::K> + RankArgument<S::K>,
    ensures { Changes S.K.cmp S.Argument.selects S.Argument.ranks tree.old tree.new Clear result }
{
    match tree.clear() {
        Ok(()) => Reply::Done(true),
        Err(_) => Reply::OutOfMemory,
    }
}

fn get<S: NodeStore>(tree: &BPlusTree<S>, key: S::K) -> ReplyOf<S>
where
    S::V: Copy,
    S::Argument: SearchArgument<S::K> + RankArgument<S::K>,
    ensures { Reads S.K.cmp S.Argument.selects S.Argument.ranks tree.now (Get key) result }
{
    Reply::Value(tree.get(&key).copied())
}

fn set<S: NodeStore>(tree: &mut BPlusTree<S>, key: S::K, value: S::V) -> ReplyOf<S>
where
    S::V: Copy,
    S::Argument: SearchArgument<S::K> + RankArgument<S::K>,
    ensures { Changes S.K.cmp S.Argument.selects S.Argument.ranks tree.old tree.new (Set key value) result }
{
    let Some(held) = tree.get_mut(&key) else {
        return Reply::Done(false);
    };
    *held = value;
    Reply::Done(true)
}

fn set_at<S: NodeStore>(
    tree: &mut BPlusTree<S>,
    query: <S::Argument as SearchArgument<S::K>>::Query,
    value: S::V,
) -> ReplyOf<S>
where
    S::V: Copy,
    S::Argument: SearchArgument<S::K> + RankArgument<S::K>,
    ensures { Changes S.K.cmp S.Argument.selects S.Argument.ranks tree.old tree.new (SetAt query value) result }
{
    match tree.get_mut_by_argument(query) {
        Ok(found) => {
            *found = value;
            Reply::Done(true)
        }
        Err(SelectError::NotFound) => Reply::Done(false),
        Err(SelectError::OutOfMemory) => Reply::OutOfMemory,
    }
}

fn at<S: NodeStore>(
    tree: &BPlusTree<S>,
    query: <S::Argument as SearchArgument<S::K>>::Query,
) -> ReplyOf<S>
where
    S::V: Copy,
    S::Argument: SearchArgument<S::K> + RankArgument<S::K>,
    ensures { Reads S.K.cmp S.Argument.selects S.Argument.ranks tree.now (At query) result }
{
    match tree.get_by_argument(query) {
        Ok(pair) => copied(pair),
        Err(_) => Reply::OutOfMemory,
    }
}

fn rank<S: NodeStore>(tree: &BPlusTree<S>, key: S::K) -> ReplyOf<S>
where
    S::Argument: SearchArgument<S::K> + RankArgument<S::K>,
    ensures { Reads S.K.cmp S.Argument.selects S.Argument.ranks tree.now (Rank key) result }
{
    match tree.rank_by_argument(&key) {
        Ok(rank) => Reply::Rank(rank),
        Err(_) => Reply::OutOfMemory,
    }
}

// Carries out one command, with the held cursors.
fn carry_out<S: NodeStore>(
    alloc: Global,
    tree: &mut BPlusTree<S>,
    cursors: &mut Vec<Cursor<S::K>>,
    command: CommandOn<S>,
) -> ReplyOf<S>
where
    S::V: Copy,
    S::Argument: SearchArgument<S::K> + RankArgument<S::K>,
    ensures { ChangesWith S.K.cmp S.Argument.selects S.Argument.ranks tree.old cursors.old.items command result tree.new cursors.new.items }
{
    match command {
        Command::Insert(key, value) => insert(tree, key, value),
        Command::Remove(key) => remove(tree, key),
        Command::RemoveAt(query) => remove_at(tree, query),
        Command::Clear => clear(tree),
        Command::Get(key) => get(tree, key),
        Command::Set(key, value) => set(tree, key, value),
        Command::SetAt(query, value) => set_at(tree, query, value),
        Command::First => copied(tree.first()),
        Command::Last => copied(tree.last()),
        Command::Len => Reply::Number(tree.len()),
        Command::At(query) => at(tree, query),
        Command::Rank(key) => rank(tree, key),
        Command::Cursor(key) => held::hold(tree, cursors, key),
        Command::CursorFirst => held::hold_end(tree, cursors, End::Front),
        Command::CursorLast => held::hold_end(tree, cursors, End::Back),
        Command::Next(number) => held::step(tree, cursors, number, Side::After),
        Command::Prev(number) => held::step(tree, cursors, number, Side::Before),
        Command::Exists(number) => held::read(tree, cursors.as_slice(), number, false),
        Command::Value(number) => held::read(tree, cursors.as_slice(), number, true),
        Command::Walk(word) => walk(alloc, tree.iter(), word),
        Command::Range(lo, hi, word) => walk_range(alloc, tree, lo, hi, word),
        Command::RangeAt(query, n, word) => match tree.range_by_argument(query, n) {
            Ok(pairs) => walk(alloc, pairs, word),
            Err(_) => Reply::OutOfMemory,
        },
    }
}

// Carries out the commands in order, with the held cursors, and appends the reply to each.
fn carry_out_each<S: NodeStore>(
    alloc: Global,
    tree: &mut BPlusTree<S>,
    cursors: &mut Vec<Cursor<S::K>>,
    commands: Vec<CommandOn<S>>,
    replies: &mut Vec<ReplyOf<S>>,
)
where
    S::V: Copy,
    S::Argument: SearchArgument<S::K> + RankArgument<S::K>,
    requires none { replies.old.items ≡ [] }
    requires empty { vec_len replies.old ≡ 0 }
    requires room { vec_len commands ≤ vec_capacity replies.old }
    ensures run { RunsWith S.K.cmp S.Argument.selects S.Argument.ranks tree.old cursors.old.items commands.items replies.new.items tree.new cursors.new.items }
    ensures all { vec_len replies.new ≡ vec_len commands }
{
    for command in commands {
        replies.push_reserved(carry_out(alloc, tree, cursors, command));
    }
}

/// Carries out the commands in order, and returns the reply to each.
///
/// No cursor is held at first, and all held cursors are dropped at the end.
///
/// O(log n) a command, O(n) for `Clear`, and O(log n + m) for a word of m ends. The first `Back` of
/// `RangeAt` takes a step for each leaf of its part. `run` allocates the room for all replies
/// before the first command, and fails only if this allocation fails. It then carries out no
/// command, and returns the error without replies. Each reply says if its own command failed.
pub fn run<S: NodeStore>(
    alloc: Global,
    tree: &mut BPlusTree<S>,
    commands: Vec<CommandOn<S>>,
) -> (Vec<ReplyOf<S>>, Option<AllocError>)
where
    S::V: Copy,
    S::Argument: SearchArgument<S::K> + RankArgument<S::K>,
    ensures run { IsNone result.1 → RunsAll S.K.cmp S.Argument.selects S.Argument.ranks tree.old commands.items result.0.items tree.new }
    ensures unchanged { IsSome result.1 → (result.0.items ≡ []) × (tree.new ≡ tree.old) }
    ensures all { IsNone result.1 ↔ (vec_len result.0 ≡ vec_len commands) }
{
    let mut replies = Vec::new(alloc);
    if let Err(error) = replies.reserve(commands.len()) {
        return (replies, Some(error));
    }
    let mut cursors = Vec::new(alloc);
    carry_out_each(alloc, tree, &mut cursors, commands, &mut replies);
    (replies, None)
}
