//! Lists of commands on a tree.

use crate::record::Record;
use crate::samples::{Sample, SampleSummary};
use crate::subject::no_call;
use crate::walk::bound;
use crate::words::{Report, Words};
use bptree_arguments::argument::{RankArgument, SearchArgument};
use bptree_commands::commands::{Command, Reply, run};
use bptree_commands::walk::End;
use bptree_stores::node_stores::NodeStore;
use bptree_tree::BPlusTree;
use std::alloc::{AllocError, Global};
use std::mem;

/// A command over keys of a type and summaries of another.
type Asking<K, A> = Command<K, u64, <A as SearchArgument<K>>::Query>;

/// The commands that are to be run on the tree over a store.
pub type Held<S> = Vec<Asking<<S as NodeStore>::K, <S as NodeStore>::Argument>>;

// Returns the ends that a word of bits names, the lowest bit first. A bit of 1 is the back.
fn ends(alloc: Global, bits: u64) -> Result<Vec<End>, AllocError> {
    let mut ends = Vec::new(alloc);
    for step in 0..bits >> 56 {
        let is_back = step < 40 && (bits >> (step & 63)) & 1 == 1;
        ends.push(if is_back { End::Back } else { End::Front })?;
    }
    Ok(ends)
}

// Returns the command of a record that names neither a key nor a query.
fn simple<K: Sample, A: SampleSummary<K>>(
    alloc: Global,
    record: &Record,
) -> Result<Asking<K, A>, AllocError> {
    let number = record.b as usize;
    Ok(match record.a {
        3 => Command::Clear,
        7 => Command::First,
        8 => Command::Last,
        13 => Command::CursorFirst,
        14 => Command::CursorLast,
        15 => Command::Next(number),
        16 => Command::Prev(number),
        17 => Command::Exists(number),
        18 => Command::Value(number),
        19 => Command::Walk(ends(alloc, record.d)?),
        _ => Command::Len,
    })
}

// Returns the command of a record that names a key.
fn keyed<K: Sample, A: SampleSummary<K>>(
    alloc: Global,
    record: &Record,
) -> Result<Asking<K, A>, AllocError> {
    let key = K::sample(alloc, record.b)?;
    Ok(match record.a {
        0 => Command::Insert(key, record.c),
        1 => Command::Remove(key),
        4 => Command::Get(key),
        5 => Command::Set(key, record.c),
        11 => Command::Rank(key),
        _ => Command::Cursor(key),
    })
}

// Returns the command of a record that names a query.
fn queried<K: Sample, A: SampleSummary<K>>(
    alloc: Global,
    record: &Record,
) -> Result<Asking<K, A>, AllocError> {
    let query = A::query(alloc, record.b, record.c)?;
    Ok(match record.a {
        2 => Command::RemoveAt(query),
        6 => Command::SetAt(query, record.d),
        10 => Command::At(query),
        _ => {
            let many = (record.d >> 40) & 255;
            Command::RangeAt(query, many as usize, ends(alloc, record.d)?)
        }
    })
}

// Returns the command of a record for a range between two keys.
fn range<K: Sample, A: SampleSummary<K>>(
    alloc: Global,
    record: &Record,
) -> Result<Asking<K, A>, AllocError> {
    let lo = bound(alloc, (record.d >> 48) & 1 == 1, record.b)?;
    let hi = bound(alloc, (record.d >> 49) & 1 == 1, record.c)?;
    Ok(Command::Range(lo, hi, ends(alloc, record.d)?))
}

fn command<K: Sample, A: SampleSummary<K>>(
    alloc: Global,
    record: &Record,
) -> Result<Asking<K, A>, AllocError> {
    match record.a {
        0 | 1 | 4 | 5 | 11 | 12 => keyed::<K, A>(alloc, record),
        2 | 6 | 10 | 21 => queried::<K, A>(alloc, record),
        20 => range::<K, A>(alloc, record),
        _ => simple::<K, A>(alloc, record),
    }
}

// Reports a number for the kind of a reply, and the contents of the reply.
fn report_reply<K: Sample, A: SampleSummary<K>>(
    reply: &Reply<K, u64, <A as RankArgument<K>>::Rank>,
    words: &mut Words,
) -> bool {
    match reply {
        Reply::Value(value) => (1u64, value).report(words),
        Reply::Pair(pair) => (2u64, pair).report(words),
        Reply::Number(number) => (3u64, *number).report(words),
        Reply::Done(done) => (4u64, *done).report(words),
        Reply::Rank(Ok(rank)) => {
            words.add(5);
            A::report_rank(rank, words);
        }
        Reply::Rank(Err(rank)) => {
            words.add(6);
            A::report_rank(rank, words);
        }
        Reply::Held(number, value) => (7u64, (*number, value)).report(words),
        Reply::Walked(pairs) => {
            (8u64, pairs.len()).report(words);
            for pair in pairs {
                pair.report(words);
            }
        }
        Reply::NoCursor => words.add(9),
        Reply::Full => words.add(10),
        Reply::OutOfMemory => {
            words.add(11);
            return false;
        }
    }
    true
}

fn report_replies<K: Sample, A: SampleSummary<K>>(
    replies: &[Reply<K, u64, <A as RankArgument<K>>::Rank>],
    words: &mut Words,
) -> bool {
    let mut is_done = true;
    for reply in replies {
        is_done &= report_reply::<K, A>(reply, words);
    }
    is_done
}

fn run_all<S: NodeStore<V = u64>>(
    alloc: Global,
    tree: &mut BPlusTree<S>,
    commands: Held<S>,
    words: &mut Words,
) -> bool
where
    S::K: Sample,
    S::Argument: SampleSummary<S::K>,
{
    let (replies, error) = run(alloc, tree, commands);
    report_replies::<S::K, S::Argument>(&replies, words) && error.is_none()
}

/// Adds a command to the list of commands, or runs the list.
pub fn call<S: NodeStore<V = u64>>(
    alloc: Global,
    tree: &mut BPlusTree<S>,
    held: &mut Held<S>,
    record: &Record,
    words: &mut Words,
) -> bool
where
    S::K: Sample,
    S::Argument: SampleSummary<S::K>,
{
    match record.member() {
        0 => match command::<S::K, S::Argument>(alloc, record) {
            Ok(command) => held.push(command).is_ok(),
            Err(_) => false,
        },
        1 => {
            let commands = mem::replace(held, Vec::new(alloc));
            run_all(alloc, tree, commands, words)
        }
        _ => no_call(words),
    }
}
