//! Callers of the library's functions. They use only the contracts of these functions.
ghost use Rattle.std.specs.Prelude.{◌≡◌, ◌<◌, ◌==◌, ◌-◌, ◌+◌, ◌^◌, ◌↔◌, ◌⊎◌, ℕ, List, [], ◌++◌, ◌∷◌, Option, length, codes, Some, None, IsNone, IsTrue, IsSome, IsErr, IsErrOf, IfOk, OnOk, OnErr, IfSome, MatchResult, slice_get, string_bytes, vec_len};
ghost use Rattle.std.specs.Io.KnownBytes.{Appends};
ghost use Rattle.std.specs.List.{slice_split};
ghost use Rattle.std.specs.Ordering.{nat_cmp};
ghost use Rattle.bptree_commands.specs.ReplyLists.{text};
ghost use Rattle.sweep_bptree_contract_tests.specs.Replies.{RepliesToAt, RepliesToEnds, RepliesToGet, RepliesToInsert, RepliesToLen, RepliesToRank, RepliesToSet, RepliesToSetAt};
ghost use Rattle.sweep_bptree_contract_tests.specs.Serving.{StoppedByStream, beside_results, beside_lines, put_results, put_lines, rank_results, rank_lines};
ghost use Rattle.bptree_propagation.specs.Failing.{OkIs};
ghost use Rattle.sweep_bptree.specs.Contents.{has, value, put};
ghost use Rattle.bptree_keys.specs.Ranges.{between};
ghost use Rattle.bptree_commands.specs.Lines.{ended_lines};
ghost use Rattle.bptree_commands.specs.Sent.{AppendsBeginning};
ghost use Rattle.bptree_commands.specs.Steps.{Step};
ghost use Rattle.sweep_bptree_contract_tests.specs.Running.{EndsInNodes};
ghost use Rattle.bptree_propagation.specs.Borrowing.{written};

use std::alloc::{AllocError, Global};
use std::io::{Read, Write};
use sweep_bptree::script::{
    Command, CommandOn, End, Reply, ReplyOf, ServeError, exit_status, parts_are_lines, run, serve,
};
use sweep_bptree::{BPlusTree, Count, NodeStore, NodeStoreVec, RankArgument, SearchArgument};

// ---- how a program ends

/// Whether the exit status is that of a failure, which it is for each error.
pub fn has_failed(served: &Result<(), ServeError>) -> bool
    ensures { IsTrue result ↔ IsErr served.now }
{
    exit_status(served) != 0
}

/// Whether two results have the same exit status. Each of the three results has its own.
pub fn end_alike(one: &Result<(), ServeError>, other: &Result<(), ServeError>) -> bool
    ensures { IsTrue result ↔ (one.now ≡ other.now) }
{
    exit_status(one) == exit_status(other)
}

/// The status of an error, by each of three calls: they are equal.
pub fn status_thrice(error: ServeError) -> (u8, u8, u8)
    ensures exit { result.0 ≡ result.1 }
    ensures number { result.0 ≡ result.2 }
{
    (error.status(), exit_status(&Err(error)), error as u8)
}

/// The message of an I/O fault.
pub fn text_of_fault(alloc: Global) -> Result<String, AllocError>
    ensures { IfOk result (λ text. string_bytes text ≡ codes "i/o fault") }
{
    ServeError::Io.to_string(alloc)
}

/// The message of an allocation failure.
pub fn text_of_failure(alloc: Global) -> Result<String, AllocError>
    ensures { IfOk result (λ text. string_bytes text ≡ codes "out of memory") }
{
    ServeError::OutOfMemory.to_string(alloc)
}

// ---- lines

/// An input has one part more than it has line feeds.
pub fn parts_of_lines()
    ensures { (bytes : List ℕ) → length (slice_split (λ b. b == 10) bytes) ≡ length (ended_lines bytes) + 1 }
{
    parts_are_lines();
}

// ---- whole inputs

/// Pairs that are put are looked up, counted and shown. The last line has no line feed.
pub fn puts_and_gets<R: Read, W: Write>(
    alloc: Global,
    reader: &mut R,
    writer: &mut W,
) -> Result<(), ServeError>
    requires { R.remaining reader.old ≡ Some put_lines }
    ensures { OnOk result (Appends (W.contents writer.old) (W.contents writer.new) put_results) }
{
    serve(alloc, reader, writer)
}

/// Indices, ends and ranks, in a map without pairs and in a map with two.
pub fn indexes_and_ranks<R: Read, W: Write>(
    alloc: Global,
    reader: &mut R,
    writer: &mut W,
) -> Result<(), ServeError>
    requires { R.remaining reader.old ≡ Some rank_lines }
    ensures { OnOk result (Appends (W.contents writer.old) (W.contents writer.new) rank_results) }
{
    serve(alloc, reader, writer)
}

/// The pairs beside a key that is present or absent, all pairs from the last one, those between two
/// keys, and pages.
pub fn neighbours_and_back<R: Read, W: Write>(
    alloc: Global,
    reader: &mut R,
    writer: &mut W,
) -> Result<(), ServeError>
    requires { R.remaining reader.old ≡ Some beside_lines }
    ensures { OnOk result (Appends (W.contents writer.old) (W.contents writer.new) beside_results) }
{
    serve(alloc, reader, writer)
}

/// However serving ends early, what was written is a beginning of the text of the whole input.
pub fn writes_a_beginning<R: Read, W: Write>(
    alloc: Global,
    reader: &mut R,
    writer: &mut W,
) -> Result<(), ServeError>
    ensures { OnErr result (IfSome (R.remaining reader.old) (λ input.
        AppendsBeginning (W.contents writer.old) (W.contents writer.new) (text input))) }
{
    serve(alloc, reader, writer)
}

/// A known input is too short to have no end. `Io` thus reports that the reader or the writer
/// failed.
pub fn gives_up_by_a_fault_alone<R: Read, W: Write>(
    alloc: Global,
    reader: &mut R,
    writer: &mut W,
) -> Result<(), ServeError>
    requires short { IfSome (R.remaining reader.old) (λ input. length input < 2 ^ 64 - 1) }
    requires known { IsSome (R.remaining reader.old) }
    ensures { IsErrOf result ServeError.Io
        → StoppedByStream (R.remaining reader.old) (R.remaining reader.new) (W.contents writer.old) (W.contents writer.new) }
{
    serve(alloc, reader, writer)
}

// ---- commands

/// One command has one reply that the command allows, or it is not carried out.
pub fn reply_to<S: NodeStore>(
    alloc: Global,
    tree: &mut BPlusTree<S>,
    command: CommandOn<S>,
) -> Result<ReplyOf<S>, AllocError>
where
    S::V: Copy,
    S::Argument: SearchArgument<S::K> + RankArgument<S::K>,
    ensures { MatchResult result
        (λ reply. (held : List S.K) × Step S.K.cmp S.Argument.selects S.Argument.ranks tree.old.contents [] command reply tree.new.contents held)
        (λ _. tree.new ≡ tree.old) }
{
    let mut commands = Vec::new(alloc);
    commands.push(command)?;
    let (mut replies, _error) = run(alloc, tree, commands);
    match replies.pop() {
        Some(reply) => Ok(reply),
        None => Err(AllocError),
    }
}

/// A run of no commands never fails, and changes nothing.
pub fn runs_nothing<S: NodeStore>(alloc: Global, tree: &mut BPlusTree<S>) -> Option<AllocError>
where
    S::V: Copy,
    S::Argument: SearchArgument<S::K> + RankArgument<S::K>,
    ensures well { result ≡ None }
    ensures stays { tree.new.contents ≡ tree.old.contents }
{
    run(alloc, tree, Vec::new(alloc)).1
}

/// If not all commands were carried out, no command was.
pub fn runs_all_or_none<S: NodeStore>(
    alloc: Global,
    tree: &mut BPlusTree<S>,
    commands: Vec<CommandOn<S>>,
) -> usize
where
    S::V: Copy,
    S::Argument: SearchArgument<S::K> + RankArgument<S::K>,
    ensures number { (result ≡ 0) ⊎ (result ≡ vec_len commands) }
    ensures stays { result ≡ 0 → tree.new.contents ≡ tree.old.contents }
{
    run(alloc, tree, commands).0.len()
}

/// The nodes of the tree have the list that the run ends with.
pub fn leaves_its_list_in_the_nodes<S: NodeStore>(
    alloc: Global,
    tree: &mut BPlusTree<S>,
    commands: Vec<CommandOn<S>>,
) -> (Vec<ReplyOf<S>>, Option<AllocError>)
where
    S::V: Copy,
    S::Argument: SearchArgument<S::K> + RankArgument<S::K>,
    ensures { IsNone result.1 → EndsInNodes S.slots S.K.cmp S.Argument.selects S.Argument.ranks tree.old tree.new commands.items result.0.items }
{
    let returned = run(alloc, tree, commands);
    tree.node_store();
    returned
}

/// The reply is the value at a key, and nothing changes.
pub fn reply_to_get<S: NodeStore>(
    alloc: Global,
    tree: &mut BPlusTree<S>,
    key: S::K,
) -> Result<ReplyOf<S>, AllocError>
where
    S::V: Copy,
    S::Argument: SearchArgument<S::K> + RankArgument<S::K>,
    ensures { IfOk result (RepliesToGet S.K.cmp key tree.old.contents tree.new.contents) }
{
    reply_to(alloc, tree, Command::Get(key))
}

/// The reply is the length, and nothing changes.
pub fn reply_to_len<S: NodeStore>(
    alloc: Global,
    tree: &mut BPlusTree<S>,
) -> Result<ReplyOf<S>, AllocError>
where
    S::V: Copy,
    S::Argument: SearchArgument<S::K> + RankArgument<S::K>,
    ensures { IfOk result (RepliesToLen tree.old.contents tree.new.contents) }
{
    reply_to(alloc, tree, Command::Len)
}

/// A pair is put, or the reply is the reason why not, and nothing changes.
pub fn reply_to_insert<S: NodeStore>(
    alloc: Global,
    tree: &mut BPlusTree<S>,
    key: S::K,
    new: S::V,
) -> Result<ReplyOf<S>, AllocError>
where
    S::V: Copy,
    S::Argument: SearchArgument<S::K> + RankArgument<S::K>,
    ensures { IfOk result (RepliesToInsert S.K.cmp key new tree.old.contents tree.new.contents) }
{
    reply_to(alloc, tree, Command::Insert(key, new))
}

/// A value is written if the key is present, and nothing else changes. The reply is never an
/// allocation failure.
pub fn reply_to_set<S: NodeStore>(
    alloc: Global,
    tree: &mut BPlusTree<S>,
    key: S::K,
    new: S::V,
) -> Result<ReplyOf<S>, AllocError>
where
    S::V: Copy,
    S::Argument: SearchArgument<S::K> + RankArgument<S::K>,
    ensures { IfOk result (RepliesToSet S.K.cmp key new tree.old.contents tree.new.contents) }
{
    reply_to(alloc, tree, Command::Set(key, new))
}

/// A tree of numbers that counts its keys.
pub type NumberTree = BPlusTree<NodeStoreVec<u64, u64, Count>>;

/// The replies are the first and the last pair of numbers, and `None` for an empty tree.
pub fn replies_to_ends(
    alloc: Global,
    tree: &mut NumberTree,
) -> Result<(Reply<u64, u64, usize>, Reply<u64, u64, usize>), AllocError>
    ensures { IfOk result (RepliesToEnds tree.old.contents tree.new.contents) }
{
    let first = reply_to(alloc, tree, Command::First)?;
    let last = reply_to(alloc, tree, Command::Last)?;
    Ok((first, last))
}

/// The reply is the pair at an index, or an allocation failure.
pub fn reply_to_at(
    alloc: Global,
    tree: &mut NumberTree,
    index: usize,
) -> Result<Reply<u64, u64, usize>, AllocError>
    ensures { IfOk result (RepliesToAt index tree.old.contents tree.new.contents) }
{
    reply_to(alloc, tree, Command::At(index))
}

/// The reply is whether the key is present, with the number of smaller keys.
pub fn reply_to_rank(
    alloc: Global,
    tree: &mut NumberTree,
    key: u64,
) -> Result<Reply<u64, u64, usize>, AllocError>
    ensures { IfOk result (RepliesToRank key tree.old.contents tree.new.contents) }
{
    reply_to(alloc, tree, Command::Rank(key))
}

/// The value at an index is written. If the tree has no such index, nothing changes.
pub fn reply_to_set_at(
    alloc: Global,
    tree: &mut NumberTree,
    index: usize,
    new: u64,
) -> Result<Reply<u64, u64, usize>, AllocError>
    ensures { IfOk result (RepliesToSetAt index new tree.old.contents tree.new.contents) }
{
    reply_to(alloc, tree, Command::SetAt(index, new))
}

/// A range without an upper end begins with the first pair whose key is not below the lower end.
pub fn first_from(
    alloc: Global,
    tree: &mut NumberTree,
    lo: u64,
) -> Result<Option<(u64, u64)>, AllocError>
    ensures { OkIs result (slice_get (between nat_cmp tree.old.contents (Some lo) None) 0) }
{
    let mut word = Vec::new(alloc);
    word.push(End::Front)?;
    match reply_to(alloc, tree, Command::Range(Some(lo), None, word))? {
        Reply::Walked(outcomes) => one_of(outcomes),
        _ => Err(AllocError),
    }
}

fn one_of(outcomes: Vec<Option<(u64, u64)>>) -> Result<Option<(u64, u64)>, AllocError>
    ensures { IfOk result (λ outcome. (rest : List (Option (ℕ × ℕ))) × (outcomes.items ≡ rest ++ outcome ∷ [])) }
{
    let mut outcomes = outcomes;
    match outcomes.pop() {
        Some(outcome) => Ok(outcome),
        None => Err(AllocError),
    }
}
