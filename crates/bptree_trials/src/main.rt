//! Makes calls of the library for another process, and replies with what they return.
//!
//! Standard input has records of 40 bytes. The first selects the subject of the calls, and each
//! further one is a call. A reply has a word for its status, the number of its words, their digest,
//! and the first 1024 words. The status is 0 if the call was made, and 1 if an allocation failed in
//! it. A read must not end within a record.
#![tactic(auto)]

mod batches;
mod calls;
mod commands;
mod counted;
mod counting;
mod couples;
mod cursors;
mod forgetful;
mod levels;
mod maps;
mod marked;
mod moving;
mod nodes;
mod owned;
mod parts;
mod printed;
mod record;
mod samples;
mod says;
mod sets;
mod shards;
mod sides;
mod streams;
mod subject;
mod trees;
mod walk;
mod words;

use crate::counted::{CountedKey, CountedValue};
use crate::counting::Counting;
use crate::forgetful::Forgetful;
use crate::maps::{Maps, Special};
use crate::marked::Marked;
use crate::owned::Owned;
use crate::parts::{Made, Parts};
use crate::record::{RECORD, Record};
use crate::samples::{Sample, SampleSummary};
use crate::sets::Sets;
use crate::shards::{Map, Sharded};
use crate::streams::Input;
use crate::subject::Subject;
use crate::trees::{Plain, Trees};
use crate::words::Words;
use bptree_arguments::count::Count;
use bptree_arguments::group::GroupCount;
use bptree_commands::output::Output;
use bptree_keys::key::Tuple2;
use bptree_stores::node_store_vec::NodeStoreVec;
use bptree_stores::node_stores::CloneStore;
use std::alloc::Global;
use std::io::{Read, Write};
use std::process::ExitCode;

// The greatest number of records that one read returns.
const RECORDS: usize = 100;

const BYTES: usize = RECORD * RECORDS;

// Sends a word. Returns false if it could not be written.
fn send<W: Write>(output: &mut Output<'_, W>, word: u64) -> bool {
    output.send(&word.to_le_bytes()).is_ok()
}

// Sends the reply to a call.
fn send_reply<W: Write>(output: &mut Output<'_, W>, is_done: bool, words: &Words) -> bool {
    let mut is_sent = send(output, !is_done as u64);
    is_sent &= send(output, words.len() as u64);
    is_sent &= send(output, words.digest());
    for word in words.sent() {
        is_sent &= send(output, *word);
    }
    is_sent
}

// Makes the calls of the records, and sends the replies.
fn outcome<T: Subject, W: Write>(
    alloc: Global,
    subject: &mut T,
    words: &mut Words,
    records: &[u8],
    output: &mut Output<'_, W>,
) -> bool {
    let mut is_sent = true;
    for bytes in records.chunks_exact(RECORD) {
        let mut record = [0u8; RECORD];
        record.copy_from_slice(bytes);
        words.clear();
        let is_done = subject.call(alloc, &Record::read(&record), words);
        is_sent &= send_reply(output, is_done, words);
    }
    is_sent && output.drain().is_ok() && output.flush().is_ok()
}

// Makes calls until the input ends. Returns whether all reads and writes succeeded.
fn serve<T: Subject, R: Read, W: Write>(alloc: Global, reader: &mut R, writer: &mut W) -> bool {
    let Ok(mut subject) = T::begin(alloc) else {
        return false;
    };
    let mut words = Words::new();
    let mut output = Output::new(writer);
    let mut bytes = [0u8; BYTES];
    for _ in 0..u64::MAX {
        match reader.read(&mut bytes) {
            Ok(0) => return true,
            Ok(count) if count % RECORD == 0 => {
                if !outcome(
                    alloc,
                    &mut subject,
                    &mut words,
                    &bytes[..count],
                    &mut output,
                ) {
                    return false;
                }
            }
            _ => return false,
        }
    }
    false
}

// Makes calls on a tree, a map or a set over a store. One function names the store, since each
// function that does is expensive to prove.
fn on_store<S: CloneStore<V = u64> + Made, R: Read, W: Write>(
    alloc: Global,
    form: u64,
    reader: &mut R,
    writer: &mut W,
) -> bool
where
    S::K: Sample,
    S::Argument: SampleSummary<S::K>,
{
    if form == 6 {
        serve::<Parts<S>, R, W>(alloc, reader, writer)
    } else {
        serve::<Trees<S>, R, W>(alloc, reader, writer)
    }
}

fn on_trees<K: Sample, A: SampleSummary<K>, R: Read, W: Write>(
    alloc: Global,
    form: u64,
    reader: &mut R,
    writer: &mut W,
) -> bool {
    on_store::<NodeStoreVec<K, u64, A>, R, W>(alloc, form, reader, writer)
}

fn on_forgetful<S: CloneStore<V = u64>, R: Read, W: Write>(
    alloc: Global,
    reader: &mut R,
    writer: &mut W,
) -> bool
where
    S::K: Sample,
    S::Argument: SampleSummary<S::K>,
{
    serve::<Trees<Forgetful<S>>, R, W>(alloc, reader, writer)
}

fn on_plain<K: Sample, R: Read, W: Write>(alloc: Global, reader: &mut R, writer: &mut W) -> bool {
    serve::<Plain<NodeStoreVec<K, u64>>, R, W>(alloc, reader, writer)
}

fn on_maps<K: Sample, A: Special<K>, R: Read, W: Write>(
    alloc: Global,
    reader: &mut R,
    writer: &mut W,
) -> bool {
    serve::<Maps<K, A>, R, W>(alloc, reader, writer)
}

// Makes calls on the subject of a form, with keys of one type and summaries of another.
fn on_form<K: Sample, A: Special<K>, R: Read, W: Write>(
    alloc: Global,
    form: u64,
    reader: &mut R,
    writer: &mut W,
) -> bool {
    match form {
        0 | 6 => on_trees::<K, A, R, W>(alloc, form, reader, writer),
        2 => on_maps::<K, A, R, W>(alloc, reader, writer),
        3 => serve::<Sets<K>, R, W>(alloc, reader, writer),
        4 => on_plain::<K, R, W>(alloc, reader, writer),
        _ => serve::<Sharded<Map<K>>, R, W>(alloc, reader, writer),
    }
}

fn on_numbers<R: Read, W: Write>(alloc: Global, form: u64, reader: &mut R, writer: &mut W) -> bool {
    match form {
        1 => on_forgetful::<NodeStoreVec<u64, u64, Count>, R, W>(alloc, reader, writer),
        7 => serve::<Owned, R, W>(alloc, reader, writer),
        8 => serve::<Input, R, W>(alloc, reader, writer),
        _ => on_form::<u64, Count, R, W>(alloc, form, reader, writer),
    }
}

fn on_texts<R: Read, W: Write>(alloc: Global, form: u64, reader: &mut R, writer: &mut W) -> bool {
    on_form::<String, Count, R, W>(alloc, form, reader, writer)
}

fn on_pairs<R: Read, W: Write>(alloc: Global, form: u64, reader: &mut R, writer: &mut W) -> bool {
    on_form::<(String, u64), GroupCount<Tuple2<String>>, R, W>(alloc, form, reader, writer)
}

fn on_counted<R: Read, W: Write>(alloc: Global, reader: &mut R, writer: &mut W) -> bool {
    serve::<Counting<NodeStoreVec<CountedKey, CountedValue>>, R, W>(alloc, reader, writer)
}

fn on_couples<R: Read, W: Write>(alloc: Global, reader: &mut R, writer: &mut W) -> bool {
    on_maps::<(u64, u64), GroupCount<Tuple2<u64>>, R, W>(alloc, reader, writer)
}

fn on_marked<R: Read, W: Write>(alloc: Global, reader: &mut R, writer: &mut W) -> bool {
    on_trees::<Marked, Count, R, W>(alloc, 0, reader, writer)
}

// The form of each kind, and its keys: 0 for numbers, 1 for texts and 2 for pairs. Numbers that
// count (3), couples (4) and marked keys (5) have only one form.
const KINDS: [(u64, u64); 23] = [
    (0, 0),
    (0, 1),
    (0, 2),
    (1, 0),
    (2, 0),
    (2, 1),
    (2, 2),
    (3, 0),
    (3, 1),
    (4, 0),
    (4, 1),
    (5, 0),
    (5, 1),
    (6, 0),
    (6, 2),
    (7, 0),
    (3, 2),
    (4, 2),
    (5, 2),
    (0, 3),
    (2, 4),
    (0, 5),
    (8, 0),
];

// Makes calls on the subject of a kind.
fn on_kind<R: Read, W: Write>(alloc: Global, kind: u64, reader: &mut R, writer: &mut W) -> bool {
    let Some((form, keys)) = KINDS.get(kind as usize) else {
        return false;
    };
    match keys {
        0 => on_numbers(alloc, *form, reader, writer),
        1 => on_texts(alloc, *form, reader, writer),
        2 => on_pairs(alloc, *form, reader, writer),
        3 => on_counted(alloc, reader, writer),
        4 => on_couples(alloc, reader, writer),
        _ => on_marked(alloc, reader, writer),
    }
}

// Reads the kind and makes the calls. Returns whether all reads and writes succeeded.
fn run<R: Read, W: Write>(alloc: Global, reader: &mut R, writer: &mut W) -> bool {
    let mut first = [0u8; RECORD];
    match reader.read(&mut first) {
        Ok(0) => true,
        Ok(RECORD) => on_kind(alloc, Record::read(&first).call, reader, writer),
        _ => false,
    }
}

fn main(rt: HostRuntime) -> ExitCode {
    if run(rt.alloc(), &mut rt.stdin(), &mut rt.stdout()) {
        ExitCode::SUCCESS
    } else {
        ExitCode::FAILURE
    }
}
