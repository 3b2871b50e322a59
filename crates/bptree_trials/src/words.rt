//! The reply to a call, as words.

/// The greatest number of words of a reply that are sent. Of a longer reply the first words are
/// sent.
pub const SENT: usize = 1024;

/// The words of a reply, and a digest of all of them. Another word, or another order, gives another
/// digest.
#[derive(Drop)]
pub struct Words {
    words: [u64; SENT],
    len: usize,
    digest: u64,
}

impl Words {
    /// Makes a reply without words. Its digest is 0.
    pub fn new() -> Words {
        Words {
            words: [0; SENT],
            len: 0,
            digest: 0,
        }
    }

    /// Removes all words.
    pub fn clear(&mut self) {
        self.len = 0;
        self.digest = 0;
    }

    /// Adds a word.
    pub fn add(&mut self, word: u64) {
        let mixed = (self.digest ^ word).wrapping_add(1);
        let mixed = mixed.wrapping_mul(0x9e37_79b9_7f4a_7c15);
        self.digest = mixed ^ (mixed >> 29);
        if self.len < SENT {
            self.words[self.len] = word;
        }
        self.len = self.len.saturating_add(1);
    }

    /// Returns the number of words that were added.
    pub fn len(&self) -> usize {
        self.len
    }

    /// Returns the digest of all words.
    pub fn digest(&self) -> u64 {
        self.digest
    }

    /// Returns the words that are sent.
    pub fn sent(&self) -> &[u64] {
        &self.words[..self.len.min(SENT)]
    }
}

/// A value that adds itself to a reply.
pub trait Report {
    fn report(&self, words: &mut Words);
}

impl Report for u64 {
    fn report(&self, words: &mut Words) {
        words.add(*self);
    }
}

impl Report for usize {
    fn report(&self, words: &mut Words) {
        words.add(*self as u64);
    }
}

impl Report for bool {
    fn report(&self, words: &mut Words) {
        words.add(*self as u64);
    }
}

impl Report for () {
    fn report(&self, _words: &mut Words) {}
}

/// An option reports a 1 and the value, or a 0.
impl<T: Report> Report for Option<T> {
    fn report(&self, words: &mut Words) {
        match self {
            Some(value) => {
                words.add(1);
                value.report(words);
            }
            None => words.add(0),
        }
    }
}

impl<T: Report> Report for &T {
    fn report(&self, words: &mut Words) {
        (**self).report(words);
    }
}

impl<A: Report, B: Report> Report for (A, B) {
    fn report(&self, words: &mut Words) {
        self.0.report(words);
        self.1.report(words);
    }
}
