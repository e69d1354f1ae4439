//! Words of lines, and the words of small answers.

use crate::answers::Answer;
use smf_fmri::{Items, Number, Text, read_count};
use std::alloc::{AllocError, Global};
use std::cmp::Ordering;

/// The text before the first space, and the text after it. A single word has nothing after it.
pub(crate) fn split_word(text: &str) -> (&str, &str) {
    match text.split_once(' ') {
        Some((word, rest)) => (word, rest),
        None => (text, ""),
    }
}

/// The first two words, and the text after them.
pub(crate) fn split_two(text: &str) -> (&str, &str, &str) {
    let (first, rest) = split_word(text);
    let (second, rest) = split_word(rest);
    (first, second, rest)
}

/// The text before the word `/`, and the text after it. Words have one space between.
pub(crate) fn split_halves(text: &str) -> (&str, &str) {
    match text.split_once(" / ") {
        Some((before, behind)) => (before, behind),
        None => (text, ""),
    }
}

/// The words of a text, which stand between spaces, with memory of their own.
pub(crate) fn texts_of(alloc: Global, text: &str) -> Result<Items<Text>, AllocError> {
    let mut texts = Items::new(alloc);
    for word in text.split(' ') {
        if !word.is_empty() {
            texts.push(Text::copy_of(alloc, word)?)?;
        }
    }
    Ok(texts)
}

/// The number that a word is in decimal, at most 2^63 - 1.
pub(crate) fn number_of(word: &str) -> Option<Number> {
    Number::new(read_count(word)?)
}

/// The byte that a word is in decimal.
pub(crate) fn byte_of(word: &str) -> Option<u8> {
    u8::try_from(read_count(word)?).ok()
}

/// The text of a truth.
pub(crate) fn truth(is_true: bool) -> &'static str {
    if is_true { "yes" } else { "no" }
}

pub(crate) fn ordering_text(ordering: Ordering) -> &'static str {
    match ordering {
        Ordering::Less => "less",
        Ordering::Equal => "equal",
        Ordering::Greater => "greater",
    }
}

/// A number, or `none`.
pub(crate) fn put_count(out: &mut Answer, number: Option<u64>) {
    match number {
        Some(number) => write!(out, "{number}"),
        None => out.put("none"),
    }
}

/// The same of a number that is at most 2^63 - 1.
pub(crate) fn put_number(out: &mut Answer, number: Option<Number>) {
    match number {
        Some(number) => put_count(out, Some(number.get())),
        None => out.put("none"),
    }
}

/// A text that a library made.
pub(crate) fn put_text(out: &mut Answer, text: Result<Text, AllocError>) {
    if let Some(text) = out.value_or_no_memory(text) {
        out.put(text.as_str());
    }
}
