//! Heads that were computed by hand, and the order of strings whose heads agree or differ.

use bptree_heads::head::{HasHead, compare, head_of};
use bptree_heads::headed::Headed;
use bptree_keys::key::Key;
use std::alloc::{AllocError, Global};
use std::cmp::Ordering;

const HEADS: [(&str, u64); 8] = [
    ("", 0),
    ("a", 0x6100_0000_0000_0000),
    ("ab", 0x6162_0000_0000_0000),
    ("abcdefg", 0x6162_6364_6566_6700),
    ("abcdefgh", 0x6162_6364_6566_6768),
    ("abcdefghi", 0x6162_6364_6566_6768),
    ("b", 0x6200_0000_0000_0000),
    ("é", 0xc3a9_0000_0000_0000),
];

// Ascending strings. Neighbours have heads that differ, heads that agree, or one is a prefix of the
// other; zeros at the end of a string do not change its head.
const ASCENDING: [&str; 12] = [
    "",
    "\0",
    "\0\0",
    "a",
    "a\0",
    "a\0\0\0\0\0\0\0",
    "a\0\0\0\0\0\0\0\0",
    "abcdefgh",
    "abcdefgha",
    "abcdefghb",
    "abcdefgi",
    "é",
];

fn has_heads() -> bool {
    let mut well = true;
    for (text, head) in HEADS.iter() {
        well &= head_of(text.as_bytes()) == *head;
    }
    well
}

fn headed(alloc: Global, text: &str) -> Result<Headed<String>, AllocError> {
    Ok(Headed::new(String::from_str(alloc, text)?))
}

// Whether each comparison of two keys, and of the first with a clone of the second, gives the order.
fn compares_as<K: Key>(one: &K, other: &K, clone: &K, order: Ordering) -> bool {
    let mut well = one.cmp(other) == order && one.cmp(clone) == order;
    well &= (one == other) == order.is_eq();
    well && one.partial_cmp(clone) == Some(order)
}

// Whether two strings are in the order of their indices, as they are and as clones, and have the
// heads of their bytes.
fn is_in_order(
    alloc: Global,
    first: (usize, &str),
    second: (usize, &str),
) -> Result<bool, AllocError> {
    let one = headed(alloc, first.1)?;
    let other = headed(alloc, second.1)?;
    let clone = other.clone()?;
    let mut well = compares_as(&one, &other, &clone, first.0.cmp(&second.0));
    well &= clone.head() == head_of(second.1.as_bytes());
    well &= other.key().head() == clone.head();
    Ok(well && one.into_key().as_str() == first.1)
}

fn are_in_order(alloc: Global) -> bool {
    let mut well = true;
    for (first, one) in ASCENDING.iter().enumerate() {
        for (second, other) in ASCENDING.iter().enumerate() {
            well &= is_in_order(alloc, (first, one), (second, other)) == Ok(true);
        }
    }
    well
}

fn headed_pair(
    alloc: Global,
    text: &str,
    number: u64,
) -> Result<Headed<(String, u64)>, AllocError> {
    Ok(Headed::new((String::from_str(alloc, text)?, number)))
}

fn ascend<K: Key>(first: &K, second: &K, third: &K) -> bool {
    first < second && second < third && first != second
}

// A pair has the head of its first part, and the second part decides if the first parts are equal.
fn pairs_have_heads(alloc: Global) -> Result<bool, AllocError> {
    let one = headed_pair(alloc, "abcdefghi", 2)?;
    let other = headed_pair(alloc, "abcdefghi", 10)?;
    let later = headed_pair(alloc, "b", 1)?;
    Ok(one.head() == 0x6162_6364_6566_6768 && ascend(&one, &other, &later))
}

// Keys are compared in place unless the heads of the first and the last are equal.
fn are_compared_by_heads(alloc: Global) -> Result<bool, AllocError> {
    let first = headed(alloc, "abcdefgha")?;
    let same = headed(alloc, "abcdefghb")?;
    let other = headed(alloc, "abcdefgi")?;
    Ok(!first.compares_in_place(&same) && first.compares_in_place(&other))
}

// Strings of which each but the first differs from the first at one byte: in the head, at either end
// of the words behind it, and in the bytes that are too few for a word.
const WORDS: [&str; 9] = [
    "abcdefghijklmnopqrstuvwxyz",
    "Abcdefghijklmnopqrstuvwxyz",
    "abcdefg~ijklmnopqrstuvwxyz",
    "abcdefghIjklmnopqrstuvwxyz",
    "abcdefghijklmno~qrstuvwxyz",
    "abcdefghijklmnopQrstuvwxyz",
    "abcdefghijklmnopqrstuvw~yz",
    "abcdefghijklmnopqrstuvwxYz",
    "abcdefghijklmnopqrstuvwxy~",
];

// Whether two strings of bytes compare by their heads as they do byte by byte.
fn is_compared(one: &[u8], other: &[u8]) -> bool {
    let ordering = compare(head_of(one), one, head_of(other), other);
    ordering == one.cmp(other)
}

// Whether all prefixes of two strings compare by their heads as they do byte by byte.
fn prefixes_are_compared(one: &[u8], other: &[u8]) -> bool {
    let mut well = true;
    for len in 0..one.len() + 1 {
        for other_len in 0..other.len() + 1 {
            well &= is_compared(&one[..len], &other[..other_len]);
        }
    }
    well
}

fn words_are_compared() -> bool {
    let mut well = true;
    for word in WORDS.iter() {
        well &= prefixes_are_compared(WORDS[0].as_bytes(), word.as_bytes());
        well &= prefixes_are_compared(word.as_bytes(), WORDS[0].as_bytes());
    }
    well
}

#[test]
fn bytes_are_compared_by_words(rt: HostRuntime) {
    assert!(rt; words_are_compared());
}

#[test]
fn heads_are_as_computed(rt: HostRuntime) {
    assert!(rt; has_heads());
    assert!(rt; are_compared_by_heads(rt.alloc()) == Ok(true));
}

#[test]
fn strings_and_pairs_are_in_order(rt: HostRuntime) {
    assert!(rt; are_in_order(rt.alloc()));
    assert!(rt; pairs_have_heads(rt.alloc()) == Ok(true));
}
