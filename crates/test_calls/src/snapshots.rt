//! The groups that snapshots keep, the groups after a revert, and the bytes and names of snapshots.
//! A group stands as `NAME=TEXT`, or as `NAME!=TEXT` if it is not persistent: its one property has that text.

use crate::answers::Answer;
use crate::bytes::{bytes_of, put_bytes};
use crate::groups::{empty_group, put_short, word_of};
use crate::words::{split_halves, split_two, split_word, truth};
use smf_fmri::{Items, Ordered, read_count};
use smf_snap::{
    SnapshotBody, SnapshotName, composed_group, decode_snapshot, encode_snapshot, is_snapped,
    names, restore, take,
};
use smf_value::{Group, GroupFlags, Kind};
use std::alloc::{AllocError, Global};

/// Answers a call of snapshots; whether it is one.
pub(crate) fn answer(alloc: Global, out: &mut Answer, call: &str, text: &str) -> bool {
    match call {
        "take" => answer_take(alloc, out, text),
        "restore" => answer_restore(alloc, out, text),
        "composed" => answer_composed(alloc, out, text),
        "is_snapped" => answer_is_snapped(alloc, out, text),
        "snapshot" => bytes_again(alloc, out, text),
        "snapshot_names" => all_names(alloc, out, text),
        "snapshot_name" => put_name(out, SnapshotName::parse(text)),
        _ => return false,
    }
    true
}

/// A name without a last `!`, and the flags of its group: with that `!` the group is not persistent.
fn name_and_flags(word: &str) -> (&str, GroupFlags) {
    match word.strip_suffix('!') {
        Some(name) => (name, GroupFlags::NON_PERSISTENT),
        None => (word, GroupFlags::NONE),
    }
}

/// The group of a word, and whether it is persistent.
fn group_of(alloc: Global, out: &mut Answer, word: &str) -> Option<Group> {
    let (name, text) = out.value_or_bad_line(word.split_once('='))?;
    let (name, flags) = name_and_flags(name);
    let property = word_of(alloc, out, "p")?;
    let mut group = empty_group(alloc, out, name, "application", flags)?;
    out.value_or_refusal(group.add_value(alloc, &property, Some(Kind::Astring), text))?;
    Some(group)
}

/// The groups of words, in the order of their names.
fn groups_of(alloc: Global, out: &mut Answer, text: &str) -> Option<Ordered<Group>> {
    let mut groups = Ordered::new(alloc);
    for word in text.split(' ') {
        if !word.is_empty() {
            let group = group_of(alloc, out, word)?;
            out.value_or_no_memory(groups.put(group))?;
        }
    }
    Some(groups)
}

/// A group as the word that it is read from.
fn put_word(alloc: Global, out: &mut Answer, group: &Group) {
    let flag = if group.is_non_persistent() { "!" } else { "" };
    put_short(alloc, out, group, flag);
}

fn put_groups(alloc: Global, out: &mut Answer, groups: Result<Ordered<Group>, AllocError>) {
    if let Some(groups) = out.value_or_no_memory(groups) {
        for group in groups.as_slice() {
            out.put_between(" ");
            put_word(alloc, out, group);
        }
    }
}

fn answer_take(alloc: Global, out: &mut Answer, text: &str) {
    if let Some(groups) = groups_of(alloc, out, text) {
        put_groups(alloc, out, take(alloc, &groups));
    }
}

fn answer_is_snapped(alloc: Global, out: &mut Answer, text: &str) {
    if let Some(group) = group_of(alloc, out, text) {
        out.put(truth(is_snapped(&group)));
    }
}

/// `CURRENT.. / SNAPSHOT..`.
fn answer_restore(alloc: Global, out: &mut Answer, text: &str) {
    let (current, snapshot) = split_halves(text);
    if let Some(current) = groups_of(alloc, out, current)
        && let Some(snapshot) = groups_of(alloc, out, snapshot)
    {
        put_groups(alloc, out, restore(alloc, &current, &snapshot));
    }
}

/// `NAME INSTANCE.. / SERVICE..`.
fn answer_composed(alloc: Global, out: &mut Answer, text: &str) {
    let (name, text) = split_word(text);
    let (instance, service) = split_halves(text);
    if let Some(instance) = groups_of(alloc, out, instance)
        && let Some(service) = groups_of(alloc, out, service)
    {
        match composed_group(&instance, &service, name) {
            None => out.put("none"),
            Some(group) => put_word(alloc, out, group),
        }
    }
}

/// The snapshot that bytes are.
fn snapshot_of(alloc: Global, out: &mut Answer, text: &str) -> Option<SnapshotBody> {
    let bytes = bytes_of(alloc, out, text)?;
    out.value_or_refusal(decode_snapshot(alloc, &bytes))
}

/// The bytes of the snapshot that bytes are.
fn bytes_again(alloc: Global, out: &mut Answer, text: &str) {
    if let Some(snapshot) = snapshot_of(alloc, out, text) {
        put_bytes(alloc, out, encode_snapshot(alloc, &snapshot));
    }
}

/// Names with a space between two.
pub(crate) fn put_names(out: &mut Answer, names: Items<SnapshotName>) {
    for name in names.as_slice() {
        out.put_between(" ");
        out.put(name.as_str());
    }
}

/// A snapshot's number, or `-`.
fn optional_of(word: &str) -> Option<Option<u64>> {
    if word == "-" {
        return Some(None);
    }
    Some(Some(read_count(word)?))
}

/// `PREVIOUS RUNNING START`, each a snapshot's number or `-`.
fn numbers_of(text: &str) -> Option<(Option<u64>, Option<u64>, Option<u64>)> {
    let (previous, running, start) = split_two(text);
    Some((
        optional_of(previous)?,
        optional_of(running)?,
        optional_of(start)?,
    ))
}

/// The names that these have.
fn all_names(alloc: Global, out: &mut Answer, text: &str) {
    if let Some((previous, running, start)) = out.value_or_bad_line(numbers_of(text))
        && let Some(names) = out.value_or_no_memory(names(alloc, previous, running, start))
    {
        put_names(out, names);
    }
}

fn put_name(out: &mut Answer, name: Option<SnapshotName>) {
    match name {
        Some(name) => write!(out, "{name}"),
        None => out.put("none"),
    }
}
