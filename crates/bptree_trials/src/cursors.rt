//! One cursor that is held while a tree changes.

use crate::record::Record;
use crate::samples::{Sample, SampleSummary};
use crate::subject::no_call;
use crate::words::{Report, Words};
use bptree_stores::node_stores::NodeStore;
use bptree_tree::BPlusTree;
use bptree_tree::cursor::Cursor;
use std::alloc::{AllocError, Global};

// Holds the cursor that was found, and reports its key.
fn hold<K: Sample>(
    held: &mut Option<Cursor<K>>,
    found: Result<Option<Cursor<K>>, AllocError>,
    words: &mut Words,
) -> bool {
    let Ok(found) = found else {
        return false;
    };
    found.is_some().report(words);
    if let Some(cursor) = found {
        cursor.key().report(words);
        *held = Some(cursor);
    }
    true
}

// Returns a clone of the held cursor.
fn copied<K: Sample>(held: &Option<Cursor<K>>) -> Result<Option<Cursor<K>>, AllocError> {
    match held {
        Some(cursor) => match cursor.clone() {
            Ok(copy) => Ok(Some(copy)),
            Err(_) => Err(AllocError),
        },
        None => Ok(None),
    }
}

// Replaces the held cursor by a clone of it.
fn hold_copy<K: Sample>(held: &mut Option<Cursor<K>>, words: &mut Words) -> bool {
    let copy = copied(held);
    hold(held, copy, words)
}

/// Reports the key of a cursor that was found, and the value beside it.
pub fn report_found<K: Sample, V: Report + Drop>(
    found: Result<Option<(Cursor<K>, V)>, AllocError>,
    words: &mut Words,
) -> Option<Option<Cursor<K>>> {
    let Ok(found) = found else {
        return None;
    };
    found.is_some().report(words);
    let Some((cursor, value)) = found else {
        return Some(None);
    };
    cursor.key().report(words);
    value.report(words);
    Some(Some(cursor))
}

// Holds the cursor that was found, and reports its key and the value beside it.
fn hold_with<K: Sample, V: Report + Drop>(
    held: &mut Option<Cursor<K>>,
    found: Result<Option<(Cursor<K>, V)>, AllocError>,
    words: &mut Words,
) -> bool {
    match report_found(found, words) {
        Some(Some(cursor)) => {
            *held = Some(cursor);
            true
        }
        Some(None) => true,
        None => false,
    }
}

// Makes the calls for the cursors at a key.
fn at_key<S: NodeStore<V = u64>>(
    alloc: Global,
    tree: &BPlusTree<S>,
    held: &mut Option<Cursor<S::K>>,
    record: &Record,
    words: &mut Words,
) -> bool
where
    S::K: Sample,
{
    let Ok(key) = S::K::sample(alloc, record.a) else {
        return false;
    };
    match record.member() {
        2 => hold_with(held, tree.get_cursor(&key), words),
        3 => hold_with(held, tree.lower_bound(&key), words),
        _ => hold_with(held, tree.upper_bound(&key), words),
    }
}

// Returns the cursor at a neighbour of the held cursor's key.
fn neighbour<S: NodeStore<V = u64>>(
    tree: &BPlusTree<S>,
    held: &Option<Cursor<S::K>>,
    is_next: bool,
) -> Result<Option<Cursor<S::K>>, AllocError>
where
    S::K: Sample,
{
    match held {
        Some(cursor) if is_next => cursor.next(tree),
        Some(cursor) => cursor.prev(tree),
        None => Ok(None),
    }
}

// Returns the cursor at a neighbour of the held cursor's key, with the value there.
fn neighbour_with<'t, S: NodeStore<V = u64>>(
    tree: &'t BPlusTree<S>,
    held: &Option<Cursor<S::K>>,
    is_next: bool,
) -> Result<Option<(Cursor<S::K>, &'t u64)>, AllocError>
where
    S::K: Sample,
{
    match held {
        Some(cursor) if is_next => cursor.next_with_value(tree),
        Some(cursor) => cursor.prev_with_value(tree),
        None => Ok(None),
    }
}

fn steps<S: NodeStore<V = u64>>(
    tree: &BPlusTree<S>,
    held: &mut Option<Cursor<S::K>>,
    record: &Record,
    words: &mut Words,
) -> bool
where
    S::K: Sample,
{
    if record.member() < 10 {
        let found = neighbour(tree, held, record.member() == 5);
        hold(held, found, words)
    } else {
        let found = neighbour_with(tree, held, record.member() == 10);
        hold_with(held, found, words)
    }
}

// Reports what the tree has at the key of the held cursor.
fn queries<S: NodeStore<V = u64>>(
    tree: &BPlusTree<S>,
    held: &Option<Cursor<S::K>>,
    record: &Record,
    words: &mut Words,
) -> bool
where
    S::K: Sample,
{
    let Some(cursor) = held else {
        words.add(0);
        return true;
    };
    if record.member() == 7 {
        cursor.exists(tree).report(words);
    } else {
        cursor.value(tree).report(words);
    }
    true
}

/// Makes the calls of cursors that need no query.
pub fn call<S: NodeStore<V = u64>>(
    alloc: Global,
    tree: &BPlusTree<S>,
    held: &mut Option<Cursor<S::K>>,
    record: &Record,
    words: &mut Words,
) -> bool
where
    S::K: Sample,
{
    match record.member() {
        0 => hold(held, tree.cursor_first(), words),
        1 => hold_with(held, Cursor::last(tree), words),
        2..=4 => at_key(alloc, tree, held, record, words),
        5 | 6 | 10 | 11 => steps(tree, held, record, words),
        7 | 8 => queries(tree, held, record, words),
        12 => hold_with(held, Cursor::first(tree), words),
        13 => {
            *held = None;
            true
        }
        14 => hold_copy(held, words),
        _ => no_call(words),
    }
}

/// Makes all calls of cursors.
pub fn call_queried<S: NodeStore<V = u64>>(
    alloc: Global,
    tree: &BPlusTree<S>,
    held: &mut Option<Cursor<S::K>>,
    record: &Record,
    words: &mut Words,
) -> bool
where
    S::K: Sample,
    S::Argument: SampleSummary<S::K>,
{
    if record.member() != 9 {
        return call(alloc, tree, held, record, words);
    }
    let Ok(query) = S::Argument::query(alloc, record.a, record.b) else {
        return false;
    };
    hold_with(held, tree.cursor_by_argument(query), words)
}
