//! The group that lines make and change, and how groups are written.

use crate::answers::Answer;
use crate::bytes::put_bytes;
use crate::values::kind_of;
use crate::words::{put_text, split_two, split_word, texts_of};
use smf_fmri::Ordered;
use smf_value::{Group, GroupFlags, Kind, Name, Property, Value, encode};
use std::alloc::{AllocError, Global};

/// Answers a call of the group; whether it is one.
pub(crate) fn answer(
    alloc: Global,
    group: &mut Option<Group>,
    out: &mut Answer,
    call: &str,
    text: &str,
) -> bool {
    match call {
        "group" => set_group(alloc, group, out, text),
        "encode" => answer_encode(alloc, group, out),
        "show" | "set" | "add" | "del_value" | "del" => match group {
            None => out.bad_line(),
            Some(group) => answer_of(alloc, group, out, call, text),
        },
        _ => return false,
    }
    true
}

fn answer_of(alloc: Global, group: &mut Group, out: &mut Answer, call: &str, text: &str) {
    match call {
        "show" => put_group(alloc, out, group),
        "del" => delete(alloc, group, out, text),
        _ => change(alloc, group, out, call, text),
    }
}

/// The name of a group, a type or a property.
pub(crate) fn word_of(alloc: Global, out: &mut Answer, text: &str) -> Option<Name> {
    out.value_or_refusal(Name::parse(alloc, text))
}

/// A group without properties.
pub(crate) fn empty_group(
    alloc: Global,
    out: &mut Answer,
    name: &str,
    group_type: &str,
    flags: GroupFlags,
) -> Option<Group> {
    let name = word_of(alloc, out, name)?;
    let group_type = word_of(alloc, out, group_type)?;
    Some(Group::new(alloc, name, group_type, flags))
}

/// The flags of a group: with `P` it is not persistent.
fn flags_of(word: &str) -> Option<GroupFlags> {
    match word {
        "" => Some(GroupFlags::NONE),
        "P" => Some(GroupFlags::NON_PERSISTENT),
        _ => None,
    }
}

/// `NAME TYPE` or `NAME TYPE P`: a group without properties.
fn new_group(alloc: Global, out: &mut Answer, text: &str) -> Option<Group> {
    let (name, group_type, flag) = split_two(text);
    let flags = out.value_or_bad_line(flags_of(flag))?;
    empty_group(alloc, out, name, group_type, flags)
}

fn set_group(alloc: Global, group: &mut Option<Group>, out: &mut Answer, text: &str) {
    if let Some(new) = new_group(alloc, out, text) {
        *group = Some(new);
        out.put("done");
    }
}

/// A kind, or `-` if none is given.
fn optional_kind(word: &str) -> Option<Option<Kind>> {
    if word == "-" {
        return Some(None);
    }
    Some(Some(kind_of(word)?))
}

/// `PROPERTY KIND TEXT..`, `PROPERTY KIND TEXT`, the text with its spaces, or `PROPERTY TEXT`.
fn change(alloc: Global, group: &mut Group, out: &mut Answer, call: &str, text: &str) {
    let (property, text) = split_word(text);
    if let Some(property) = word_of(alloc, out, property) {
        match call {
            "set" => set(alloc, group, out, &property, text),
            "add" => add(alloc, group, out, &property, text),
            _ => out.put_done_or_refusal(group.del_value(alloc, &property, text)),
        }
    }
}

fn set(alloc: Global, group: &mut Group, out: &mut Answer, property: &Name, text: &str) {
    let (kind, texts) = split_word(text);
    if let Some(kind) = out.value_or_bad_line(optional_kind(kind))
        && let Some(texts) = out.value_or_no_memory(texts_of(alloc, texts))
    {
        out.put_done_or_refusal(group.set(alloc, property, kind, texts.as_slice()));
    }
}

fn add(alloc: Global, group: &mut Group, out: &mut Answer, property: &Name, text: &str) {
    let (kind, text) = split_word(text);
    if let Some(kind) = out.value_or_bad_line(optional_kind(kind)) {
        out.put_done_or_refusal(group.add_value(alloc, property, kind, text));
    }
}

fn delete(alloc: Global, group: &mut Group, out: &mut Answer, text: &str) {
    if let Some(property) = word_of(alloc, out, text) {
        out.put_done_or_refusal(group.del(&property));
    }
}

/// The groups that an instance has, with the one that lines made alone.
pub(crate) fn alone(alloc: Global, group: &Option<Group>) -> Result<Ordered<Group>, AllocError> {
    let mut groups = Ordered::new(alloc);
    if let Some(group) = group {
        groups.put(group.clone()?)?;
    }
    Ok(groups)
}

/// The bytes of this group alone.
fn answer_encode(alloc: Global, group: &Option<Group>, out: &mut Answer) {
    if group.is_none() {
        out.bad_line();
    } else if let Some(groups) = out.value_or_no_memory(alone(alloc, group)) {
        put_bytes(alloc, out, encode(alloc, &groups));
    }
}

/// Values, each after a mark.
fn put_values(alloc: Global, out: &mut Answer, mark: &str, values: &[Value]) {
    for value in values {
        out.put(mark);
        put_text(out, value.print(alloc));
    }
}

fn put_property(alloc: Global, out: &mut Answer, property: &Property) {
    let (name, kind) = (property.name(), property.kind());
    write!(out, " {name} {kind}");
    put_values(alloc, out, " ", property.values());
    out.put(";");
}

/// The name and the type of a group, and its properties.
fn put_group(alloc: Global, out: &mut Answer, group: &Group) {
    let (name, group_type) = (group.name(), group.group_type());
    let flag = if group.is_non_persistent() { " P" } else { "" };
    write!(out, "{name} {group_type}{flag}:");
    for property in group.properties() {
        put_property(alloc, out, property);
    }
}

/// Groups with a bar between two.
pub(crate) fn put_groups(alloc: Global, out: &mut Answer, groups: &[Group]) {
    for group in groups {
        out.put_between(" | ");
        put_group(alloc, out, group);
    }
}

/// A group's name, and the values of its properties.
pub(crate) fn put_short(alloc: Global, out: &mut Answer, group: &Group, flag: &str) {
    out.put(group.name().as_str());
    out.put(flag);
    for property in group.properties() {
        put_values(alloc, out, "=", property.values());
    }
}
