//! A text that is built of parts.

use std::alloc::{AllocError, Global};

/// A text. If an allocation fails, the text records this, and is not whole from then on.
#[derive(Drop)]
pub struct Text {
    alloc: Global,
    text: String,
    is_whole: bool,
}

impl Text {
    /// Makes an empty text.
    pub fn new(alloc: Global) -> Text {
        Text {
            alloc,
            text: String::new(alloc),
            is_whole: true,
        }
    }

    /// Adds a part.
    pub fn add(&mut self, part: &str) {
        if self.text.push_str(part).is_err() {
            self.is_whole = false;
        }
    }

    /// Adds a number between two parts.
    pub fn add_number(&mut self, before: &str, number: usize, behind: &str) {
        match format!(in self.alloc; "{before}{number}{behind}") {
            Ok(part) => self.add(part.as_str()),
            Err(_) => self.is_whole = false,
        }
    }

    /// Adds another text.
    pub fn add_all(&mut self, other: &Text) {
        self.add(other.text.as_str());
        self.is_whole = self.is_whole && other.is_whole;
    }

    /// Returns the whole text. Fails if an allocation has failed.
    pub fn finish(self) -> Result<String, AllocError> {
        if self.is_whole {
            Ok(self.text)
        } else {
            Err(AllocError)
        }
    }
}
