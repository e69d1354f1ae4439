//! The answer of a line.

use std::alloc::{AllocError, Global};
use std::fmt;

/// The words of every library if memory is wanting.
const NO_MEMORY: &str = "no memory";

/// The answer of a call. No put fails: the answer notes want of memory, and then has no text.
#[derive(Drop)]
pub(crate) struct Answer {
    text: String,
    lacks_memory: bool,
}

impl Answer {
    pub(crate) fn new(alloc: Global) -> Answer {
        Answer {
            text: String::new(alloc),
            lacks_memory: false,
        }
    }

    /// Its text; none if memory was wanting.
    pub(crate) fn into_text(self) -> Option<String> {
        if self.lacks_memory {
            None
        } else {
            Some(self.text)
        }
    }

    pub(crate) fn put(&mut self, text: &str) {
        if self.text.push_str(text).is_err() {
            self.lacks_memory = true;
        }
    }

    /// The method that `write!` calls.
    pub(crate) fn write_fmt<D: fmt::Display + Drop>(&mut self, value: D) {
        if self.text.write_fmt(value).is_err() {
            self.lacks_memory = true;
        }
    }

    /// Puts a mark between two parts: nothing if the answer is empty.
    pub(crate) fn put_between(&mut self, mark: &str) {
        if !self.text.is_empty() {
            self.put(mark);
        }
    }

    /// Puts the word of an answer that is empty.
    pub(crate) fn put_if_empty(&mut self, word: &str) {
        if self.text.is_empty() {
            self.put(word);
        }
    }

    /// Says that a line is no call, or has not the arguments of one.
    pub(crate) fn bad_line(&mut self) {
        self.text.clear();
        self.put("bad line");
    }

    /// The part that a line has. If it has none, the line is a bad one.
    pub(crate) fn value_or_bad_line<T: Drop>(&mut self, found: Option<T>) -> Option<T> {
        if found.is_none() {
            self.bad_line();
        }
        found
    }

    /// Notes that memory is wanting.
    pub(crate) fn want_memory(&mut self) {
        self.lacks_memory = true;
    }

    /// The value that a library made, unless memory was wanting.
    pub(crate) fn value_or_no_memory<T: Drop>(&mut self, made: Result<T, AllocError>) -> Option<T> {
        match made {
            Ok(value) => Some(value),
            Err(_) => {
                self.lacks_memory = true;
                None
            }
        }
    }

    /// The value that a library gave. If it refused, its words are the answer.
    pub(crate) fn value_or_refusal<T: Drop, E: fmt::Display + Drop>(
        &mut self,
        given: Result<T, E>,
    ) -> Option<T> {
        match given {
            Ok(value) => Some(value),
            Err(fault) => {
                self.text.clear();
                write!(self, "{fault}");
                if self.text.as_str() == NO_MEMORY {
                    self.lacks_memory = true;
                }
                None
            }
        }
    }

    /// Puts `done` if a library did the call. If it refused, its words are the answer.
    pub(crate) fn put_done_or_refusal<E: fmt::Display + Drop>(&mut self, done: Result<(), E>) {
        if self.value_or_refusal(done).is_some() {
            self.put("done");
        }
    }
}
