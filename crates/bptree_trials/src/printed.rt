//! The order of each type of key, and the text that each reply to a command prints.

use crate::maps::report_order;
use crate::marked::Marked;
use crate::record::Record;
use crate::samples::Sample;
use crate::words::{Report, Words};
use bptree_commands::commands::Reply;
use bptree_keys::key::{Key, Tuple2};
use std::alloc::{AllocError, Global};

// Compares two keys in both directions, and a clone with its key. Reports the three orders.
fn report_ordered<K: Key>(small: K, great: K, words: &mut Words) -> bool {
    report_order(small.cmp(&great), words);
    report_order(great.cmp(&small), words);
    match great.clone() {
        Ok(clone) => {
            report_order(clone.cmp(&great), words);
            true
        }
        Err(_) => false,
    }
}

// Compares two texts.
fn report_texts(alloc: Global, words: &mut Words) -> bool {
    let Ok(hello) = String::from_str(alloc, "hello") else {
        return false;
    };
    match String::from_str(alloc, "world") {
        Ok(world) => report_ordered(hello, world, words),
        Err(_) => false,
    }
}

/// Compares a smaller key with a greater one, of each type of key.
pub fn report_orders(alloc: Global, words: &mut Words) -> bool {
    let mut is_done = report_ordered(1u8, 2, words);
    is_done &= report_ordered(1u16, 2, words);
    is_done &= report_ordered(1u32, 2, words);
    is_done &= report_ordered(1u64, 2, words);
    is_done &= report_ordered(1u128, 2, words);
    is_done &= report_ordered(1usize, 2, words);
    is_done &= report_ordered(-2i8, -1, words);
    is_done &= report_ordered(-2i16, -1, words);
    is_done &= report_ordered(-2i32, -1, words);
    is_done &= report_ordered(-2i64, -1, words);
    is_done &= report_ordered(-2i128, -1, words);
    is_done &= report_ordered(-2isize, -1, words);
    is_done &= report_ordered(false, true, words);
    is_done &= report_ordered('a', 'b', words);
    is_done &= report_ordered((1u8, 'b'), (2, 'a'), words);
    is_done &= report_ordered(Tuple2(1u64), Tuple2(2), words);
    is_done && report_texts(alloc, words)
}

type Printed = Reply<Marked, u64, usize>;

// Returns the pair of a record, if it has one.
fn pair_of(alloc: Global, record: &Record) -> Result<Option<(Marked, u64)>, AllocError> {
    if record.b == 0 {
        return Ok(None);
    }
    Ok(Some((Marked::sample(alloc, record.c)?, record.d)))
}

// Returns the reply of a kind, with the value, the pair or the number of a record.
fn reply_of(alloc: Global, record: &Record) -> Result<Printed, AllocError> {
    let pair = pair_of(alloc, record)?;
    let value = if record.b == 0 { None } else { Some(record.d) };
    let number = record.c as usize;
    Ok(match record.a {
        1 => Reply::Value(value),
        2 => Reply::Pair(pair),
        3 => Reply::Number(number),
        4 => Reply::Done(record.b == 1),
        5 => Reply::Rank(Ok(number)),
        6 => Reply::Rank(Err(number)),
        7 => Reply::Held(number, value),
        8 => {
            let mut pairs = Vec::new(alloc);
            pairs.push(pair)?;
            pairs.push(None)?;
            Reply::Walked(pairs)
        }
        9 => Reply::NoCursor,
        10 => Reply::Full,
        _ => Reply::OutOfMemory,
    })
}

fn text_of(alloc: Global, record: &Record) -> Result<String, AllocError> {
    let reply = reply_of(alloc, record)?;
    format!(in alloc; "{reply:?}")
}

/// Reports the bytes that a reply prints.
pub fn report_text(alloc: Global, record: &Record, words: &mut Words) -> bool {
    match text_of(alloc, record) {
        Ok(text) => {
            for byte in text.as_bytes() {
                words.add(u64::from(*byte));
            }
            true
        }
        Err(_) => false,
    }
}
