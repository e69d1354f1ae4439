//! Values, names of properties, and the bytes of groups.

use crate::answers::Answer;
use crate::bytes::{bytes_of, put_bytes};
use crate::groups::{put_groups, word_of};
use crate::words::{put_text, split_word};
use smf_fmri::Ordered;
use smf_value::{Group, Kind, Value, decode, encode};
use std::alloc::Global;

/// Answers a call of values; whether it is one.
pub(crate) fn answer(alloc: Global, out: &mut Answer, call: &str, text: &str) -> bool {
    match call {
        "value" => answer_value_text(alloc, out, text),
        "name" => name(alloc, out, text),
        "body" | "groups" => read(alloc, out, call, text),
        _ => return false,
    }
    true
}

/// The kind of a word.
pub(crate) fn kind_of(word: &str) -> Option<Kind> {
    for code in 0..7 {
        if let Some(kind) = Kind::from_code(code)
            && kind.as_str() == word
        {
            return Some(kind);
        }
    }
    None
}

/// The text of the value of a kind that a text is.
fn answer_value_text(alloc: Global, out: &mut Answer, text: &str) {
    let (kind, text) = split_word(text);
    if let Some(kind) = out.value_or_bad_line(kind_of(kind))
        && let Some(value) = out.value_or_refusal(Value::read(alloc, kind, text))
    {
        put_text(out, value.print(alloc));
    }
}

fn name(alloc: Global, out: &mut Answer, text: &str) {
    if let Some(name) = word_of(alloc, out, text) {
        out.put(name.as_str());
    }
}

/// The groups that bytes are.
fn groups_in(alloc: Global, out: &mut Answer, text: &str) -> Option<Ordered<Group>> {
    let bytes = bytes_of(alloc, out, text)?;
    out.value_or_refusal(decode(alloc, &bytes))
}

/// The groups that bytes are, as bytes again or as texts.
fn read(alloc: Global, out: &mut Answer, call: &str, text: &str) {
    if let Some(groups) = groups_in(alloc, out, text) {
        if call == "body" {
            put_bytes(alloc, out, encode(alloc, &groups));
        } else {
            put_groups(alloc, out, groups.as_slice());
        }
    }
}
