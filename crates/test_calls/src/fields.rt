//! Fields of lines: the value that is read, and after a slash the rest of the line.

use crate::answers::Answer;
use crate::rows::{cause_text, state_text};
use crate::words::{put_count, put_text, split_word, truth};
use smf_fmri::InstanceFmri;
use smf_state::{
    FieldFault, Row, WrongField, asks_at, cause_at, duration_at, field_at, flag_at, ignore_at,
    left_of, name_at, number_at, optional_cause_at, optional_number_at, optional_state_at, row_at,
    state_at, step_at,
};
use std::alloc::Global;

/// Answers a call of fields.
pub(crate) fn answer(alloc: Global, out: &mut Answer, text: &str) {
    let (kind, _) = split_word(text);
    let line = line_of(text);
    match kind {
        "left" | "number" | "optional_number" | "asks" | "ignore" => {
            put_number(out, number_of(kind, line));
        }
        "any" => put_field(out, field_at(line)),
        "name" => put_name(out, name_at(alloc, line)),
        "row" => put_row(alloc, out, row_at(alloc, line)),
        "step" => put_step(alloc, out, line),
        "flag" | "state" | "optional_state" | "cause" | "optional_cause" | "duration" => {
            put_word(out, word_of(kind, line));
        }
        _ => out.bad_line(),
    }
}

/// The line after the kind of a field: none if the kind stands alone.
fn line_of(text: &str) -> Option<&str> {
    match text.split_once(' ') {
        Some((_, line)) => Some(line),
        None => None,
    }
}

fn put_rest(out: &mut Answer, rest: Option<&str>) {
    if let Some(rest) = rest {
        write!(out, " / {rest}");
    }
}

/// A number, and what is left.
fn number_of<'a>(
    kind: &str,
    line: Option<&'a str>,
) -> Result<(Option<u64>, Option<&'a str>), WrongField> {
    match kind {
        "left" => Ok((Some(left_of(line) as u64), None)),
        "number" => {
            let (number, rest) = number_at(line)?;
            Ok((Some(number), rest))
        }
        "optional_number" => optional_number_at(line),
        "asks" => {
            let (asks, rest) = asks_at(line)?;
            Ok((Some(u64::from(asks.number())), rest))
        }
        _ => {
            let (bits, rest) = ignore_at(line)?;
            Ok((Some(u64::from(bits)), rest))
        }
    }
}

fn put_number(out: &mut Answer, read: Result<(Option<u64>, Option<&str>), WrongField>) {
    if let Some((number, rest)) = out.value_or_refusal(read) {
        put_count(out, number);
        put_rest(out, rest);
    }
}

/// A word, and what is left.
fn word_of<'a>(
    kind: &str,
    line: Option<&'a str>,
) -> Result<(&'static str, Option<&'a str>), WrongField> {
    match kind {
        "flag" => {
            let (flag, rest) = flag_at(line)?;
            Ok((truth(flag), rest))
        }
        "state" => {
            let (state, rest) = state_at(line)?;
            Ok((state.text(), rest))
        }
        "optional_state" => {
            let (state, rest) = optional_state_at(line)?;
            Ok((state_text(state, "none"), rest))
        }
        "cause" => {
            let (cause, rest) = cause_at(line)?;
            Ok((cause.text(), rest))
        }
        "optional_cause" => {
            let (cause, rest) = optional_cause_at(line)?;
            Ok((cause_text(cause, "none"), rest))
        }
        _ => {
            let (duration, rest) = duration_at(line)?;
            Ok((duration.text(), rest))
        }
    }
}

fn put_word(out: &mut Answer, read: Result<(&'static str, Option<&str>), WrongField>) {
    if let Some((word, rest)) = out.value_or_refusal(read) {
        out.put(word);
        put_rest(out, rest);
    }
}

/// A field of any kind.
fn put_field(out: &mut Answer, field: Option<(&str, Option<&str>)>) {
    match field {
        None => out.put("none"),
        Some((word, rest)) => {
            out.put(word);
            put_rest(out, rest);
        }
    }
}

fn put_name(out: &mut Answer, read: Result<(InstanceFmri, Option<&str>), FieldFault>) {
    if let Some((name, rest)) = out.value_or_refusal(read) {
        out.put(name.print());
        put_rest(out, rest);
    }
}

fn put_row(alloc: Global, out: &mut Answer, read: Result<(Row, Option<&str>), FieldFault>) {
    if let Some((row, rest)) = out.value_or_refusal(read) {
        put_text(out, row.print(alloc));
        put_rest(out, rest);
    }
}

fn put_step(alloc: Global, out: &mut Answer, line: Option<&str>) {
    match step_at(line) {
        Ok((step, rest)) => {
            put_text(out, step.print(alloc));
            put_rest(out, rest);
        }
        Err(wrong) => out.put_done_or_refusal(Err(wrong)),
    }
}
