//! The text that answers a line.

use std::alloc::{AllocError, Global};
use std::fmt;

/// A text. Nothing that is put can fail: want of memory is noted, and it then has no text.
#[derive(Drop)]
pub(crate) struct Page {
    text: String,
    lacks_memory: bool,
}

impl Page {
    pub(crate) fn new(alloc: Global) -> Page {
        Page {
            text: String::new(alloc),
            lacks_memory: false,
        }
    }

    pub(crate) fn as_str(&self) -> &str {
        self.text.as_str()
    }

    pub(crate) fn into_text(self) -> Result<String, AllocError> {
        if self.lacks_memory {
            Err(AllocError)
        } else {
            Ok(self.text)
        }
    }

    pub(crate) fn put(&mut self, text: &str) {
        if self.text.push_str(text).is_err() {
            self.lacks_memory = true;
        }
    }

    /// Puts a word if something is so.
    pub(crate) fn put_if(&mut self, is_so: bool, word: &str) {
        if is_so {
            self.put(word);
        }
    }

    /// The method that `write!` calls.
    pub(crate) fn write_fmt<D: fmt::Display + Drop>(&mut self, value: D) {
        if self.text.write_fmt(value).is_err() {
            self.lacks_memory = true;
        }
    }

    /// The value that a library made, unless memory was wanting.
    pub(crate) fn value_or_no_memory<T: Drop>(&mut self, made: Result<T, AllocError>) -> Option<T> {
        match made {
            Ok(value) => Some(value),
            Err(_) => {
                self.lacks_memory = true;
                None
            }
        }
    }
}
