//! Keys whose bytes are in memory of their own: strings, each with 1 as its value.

use crate::benchmark::numbers::Numbers;
use crate::benchmark::ordered::{Get, Mapped};
use crate::benchmark::timing::{Report, read_each};
use std::alloc::{AllocError, Global};
use sweep_bptree::{BPlusTree, Headed, Key, NodeStore};

const DIGITS: [char; 16] = [
    '0', '1', '2', '3', '4', '5', '6', '7', '8', '9', 'a', 'b', 'c', 'd', 'e', 'f',
];

/// A key that is made of a string.
pub trait Text: Key + Drop {
    fn of(text: String) -> Self;
}

impl Text for String {
    fn of(text: String) -> String {
        text
    }
}

impl Text for Headed<String> {
    fn of(text: String) -> Headed<String> {
        Headed::new(text)
    }
}

// The keys of a run: the text before the digits of each key, and the names of the two calls.
#[derive(Clone, Copy)]
struct Form<'a> {
    front: &'a str,
    insert: &'a str,
    get: &'a str,
}

// Strings whose first bytes differ, and strings whose first ten bytes are equal.
const FORMS: [Form<'static>; 2] = [
    Form {
        front: "",
        insert: "text-insert",
        get: "text-get",
    },
    Form {
        front: "alikealike",
        insert: "alike-insert",
        get: "alike-get",
    },
];

// Returns a text with the sixteen hexadecimal digits of a number behind a front.
fn text_of(alloc: Global, front: &str, number: u64) -> Result<String, AllocError> {
    let mut text = String::with_capacity(alloc, 32)?;
    text.push_str(front)?;
    let mut rest = number;
    for _ in 0..16 {
        text.push(DIGITS[(rest >> 60) as usize % 16])?;
        rest <<= 4;
    }
    Ok(text)
}

fn texts_of<K: Text>(alloc: Global, front: &str, numbers: &[u64]) -> Result<Vec<K>, AllocError> {
    let mut texts = Vec::with_capacity(alloc, numbers.len())?;
    for number in numbers {
        texts.push(K::of(text_of(alloc, front, *number)?))?;
    }
    Ok(texts)
}

// Inserts texts. Returns whether no allocation failed.
fn insert_texts<K: Text, T: Mapped<K>>(
    report: Report<'_>,
    name: &str,
    map: &mut T,
    texts: Vec<K>,
) -> bool {
    let many = texts.len();
    let clock = report.start(name);
    for text in texts {
        if map.put(text, 1).is_none() {
            return false;
        }
    }
    clock.stop(many, map.number_of_pairs() as u64);
    true
}

fn put_and_get<K: Text, T: Mapped<K>>(
    report: Report<'_>,
    form: Form<'_>,
    texts: Vec<K>,
    wanted: &[K],
) -> bool {
    match T::made(report.rt.alloc()) {
        Ok(mut map) => {
            insert_texts(report, form.insert, &mut map, texts)
                && read_each(report, form.get, &Get, &map, wanted)
        }
        Err(_) => false,
    }
}

fn take_wanted<K: Text, T: Mapped<K>>(
    report: Report<'_>,
    form: Form<'_>,
    keys: &[u64],
    wanted: &[K],
) -> bool {
    match texts_of(report.rt.alloc(), form.front, keys) {
        Ok(texts) => put_and_get::<K, T>(report, form, texts, wanted),
        Err(_) => false,
    }
}

fn take_form<K: Text, T: Mapped<K>>(
    report: Report<'_>,
    form: Form<'_>,
    numbers: Numbers<'_>,
) -> bool {
    match texts_of(report.rt.alloc(), form.front, numbers.others) {
        Ok(wanted) => take_wanted::<K, T>(report, form, numbers.keys, &wanted),
        Err(_) => false,
    }
}

/// Inserts the texts of the keys, and looks them up in another order, for strings of each form.
/// Returns whether no allocation failed.
pub fn take<K: Text, T: Mapped<K>>(report: Report<'_>, numbers: Numbers<'_>) -> bool {
    for form in FORMS {
        if !take_form::<K, T>(report, form, numbers) {
            return false;
        }
    }
    true
}

/// Does what `take` does, for a tree over a store. A caller names the store once here, and not for
/// each trait that `take` asks of a map.
pub fn take_tree<S: NodeStore<V = u64>>(report: Report<'_>, numbers: Numbers<'_>) -> bool
where
    S::K: Text,
{
    take::<S::K, BPlusTree<S>>(report, numbers)
}
