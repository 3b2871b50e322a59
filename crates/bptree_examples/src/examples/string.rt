//! A set of words, each beside its first eight bytes as a number.
use std::alloc::{AllocError, Global};
use sweep_bptree::{BPlusTreeSet, Headed};

type Words = BPlusTreeSet<Headed<String>>;

fn headed(alloc: Global, word: &str) -> Result<Headed<String>, AllocError> {
    Ok(Headed::new(String::from_str(alloc, word)?))
}

fn put_all(alloc: Global, words: &mut Words, all: &[&str]) -> Result<(), AllocError> {
    for word in all {
        if words.insert(headed(alloc, word)?).is_err() {
            return Err(AllocError);
        }
    }
    Ok(())
}

fn is_there(alloc: Global, words: &Words, word: &str) -> Result<bool, AllocError> {
    Ok(words.contains(&headed(alloc, word)?))
}

fn outcomes(alloc: Global, words: &Words) -> Result<[bool; 3], AllocError> {
    let hello = is_there(alloc, words, "hello")?;
    let world = is_there(alloc, words, "world")?;
    let other = is_there(alloc, words, "other")?;
    Ok([hello, world, other])
}

/// Whether two words that were inserted are present, and one that was not.
pub fn run(alloc: Global) -> Result<[bool; 3], AllocError> {
    let mut words = Words::new(alloc)?;
    put_all(alloc, &mut words, &["hello", "world"])?;
    outcomes(alloc, &words)
}
