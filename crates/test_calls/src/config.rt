//! Words and lines of svccfg.

use crate::answers::Answer;
use smf_fmri::{Items, Text};
use smf_model::PropertyChange;
use smf_svccfg::{CfgCommand, Line, LineFault, parse_line, quoted_text, words};
use smf_value::{Kind, Name};
use std::alloc::{AllocError, Global};

/// Answers a call of lines; whether it is one.
pub(crate) fn answer(alloc: Global, out: &mut Answer, call: &str, text: &str) -> bool {
    match call {
        "words" => put_barred(out, words(alloc, text)),
        "cfg" => put_asked(alloc, out, parse_line(alloc, text)),
        _ => return false,
    }
    true
}

/// The words of a text, each after a bar.
fn put_barred(out: &mut Answer, words: Result<Items<Text>, AllocError>) {
    if let Some(words) = out.value_or_no_memory(words) {
        for word in words.as_slice() {
            write!(out, "|{word}");
        }
        out.put_if_empty("none");
    }
}

/// Puts the command of a line, or the fault of one that is none.
fn put_asked(alloc: Global, out: &mut Answer, line: Result<Line, LineFault>) {
    if let Some(line) = out.value_or_refusal(line) {
        put_line(alloc, out, &line);
    }
}

fn put_line(alloc: Global, out: &mut Answer, line: &Line) {
    match line {
        Line::Nothing => out.put("nothing"),
        Line::Select(word) => put_word(alloc, out, CfgCommand::Select, word),
        Line::Delete(word) => put_word(alloc, out, CfgCommand::Delete, word),
        Line::Unselect => out.put(CfgCommand::Unselect.as_str()),
        Line::List => out.put(CfgCommand::List.as_str()),
        Line::ListGroups => out.put(CfgCommand::ListGroups.as_str()),
        Line::ListProperties => out.put(CfgCommand::ListProperties.as_str()),
        Line::ListSnapshots => out.put(CfgCommand::ListSnapshots.as_str()),
        Line::Add(word) => put_word(alloc, out, CfgCommand::Add, word),
        Line::AddGroup {
            name,
            group_type,
            non_persistent,
        } => put_add_group(out, name, group_type, *non_persistent),
        Line::DeleteGroup(name) => put_delete_group(out, name),
        Line::Property { group, change } => put_change(alloc, out, group, change),
        Line::SelectSnapshot(word) => put_optional(alloc, out, CfgCommand::SelectSnapshot, word),
        Line::Revert(word) => put_optional(alloc, out, CfgCommand::Revert, word),
        Line::End => out.put(CfgCommand::End.as_str()),
    }
}

/// A text after a space, in quotes if it needs them.
fn put_quoted(alloc: Global, out: &mut Answer, word: &Text) {
    if let Some(word) = out.value_or_no_memory(quoted_text(alloc, word.as_str())) {
        write!(out, " {word}");
    }
}

fn put_word(alloc: Global, out: &mut Answer, command: CfgCommand, word: &Text) {
    out.put(command.as_str());
    put_quoted(alloc, out, word);
}

fn put_optional(alloc: Global, out: &mut Answer, command: CfgCommand, word: &Option<Text>) {
    out.put(command.as_str());
    if let Some(word) = word {
        put_quoted(alloc, out, word);
    }
}

fn put_add_group(out: &mut Answer, name: &Name, group_type: &Name, non_persistent: bool) {
    let command = CfgCommand::AddGroup;
    let flag = if non_persistent { " P" } else { "" };
    write!(out, "{command} {name} {group_type}{flag}");
}

fn put_delete_group(out: &mut Answer, name: &Name) {
    let command = CfgCommand::DeleteGroup;
    write!(out, "{command} {name}");
}

/// A command, a property, and the text of a kind, if there is one.
fn put_property(
    out: &mut Answer,
    command: CfgCommand,
    group: &Name,
    property: &Name,
    kind: Option<Kind>,
) {
    write!(out, "{command} {group}/{property}");
    if let Some(kind) = kind {
        write!(out, " {kind}");
    }
}

fn put_change(alloc: Global, out: &mut Answer, group: &Name, change: &PropertyChange) {
    match change {
        PropertyChange::Set { name, kind, values } => {
            put_property(out, CfgCommand::SetProperty, group, name, *kind);
            put_all_quoted(alloc, out, values.as_slice());
        }
        PropertyChange::AddValue { name, kind, value } => {
            put_property(out, CfgCommand::AddValue, group, name, *kind);
            put_quoted(alloc, out, value);
        }
        PropertyChange::DeleteValue { name, value } => {
            put_property(out, CfgCommand::DeleteValue, group, name, None);
            put_quoted(alloc, out, value);
        }
        PropertyChange::Delete { name } => {
            put_property(out, CfgCommand::DeleteProperty, group, name, None);
        }
    }
}

fn put_all_quoted(alloc: Global, out: &mut Answer, values: &[Text]) {
    for value in values {
        put_quoted(alloc, out, value);
    }
}
