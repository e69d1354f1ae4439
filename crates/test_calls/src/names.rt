//! Names of services and instances, patterns, numbers and the small types.

use crate::answers::Answer;
use crate::bytes::bytes_of;
use crate::words::{ordering_text, put_count, put_number, split_two, split_word, texts_of, truth};
use smf_fmri::{
    Bytes, Fmri, InstanceFmri, Items, Number, Pattern, PickFault, ServiceFmri, Text, is_decimal,
    pick, read_count, strip,
};
use std::alloc::{AllocError, Global};

/// Answers a call of names; whether it is one.
pub(crate) fn answer(alloc: Global, out: &mut Answer, call: &str, text: &str) -> bool {
    match call {
        "fmri" | "parts" | "instance" | "service" | "service_of" => {
            name_answer(alloc, out, call, text)
        }
        "short" => put_short(out, InstanceFmri::read_short(alloc, text)),
        "pattern" => answer_pattern(alloc, out, text),
        "pick" => answer_pick(alloc, out, text),
        "compare" => answer_compare(alloc, out, text),
        "items" => items(alloc, out, text),
        "count" => put_count(out, read_count(text)),
        "decimal" => out.put(truth(is_decimal(text.as_bytes()))),
        "strip" => answer_strip(out, text),
        "next" => next(out, text),
        _ => return false,
    }
    true
}

fn answer_strip(out: &mut Answer, text: &str) {
    let (prefix, text) = split_word(text);
    out.put(strip(prefix, text).unwrap_or("none"));
}

/// The number after a number of rows and revisions.
fn next(out: &mut Answer, text: &str) {
    match read_count(text) {
        None => out.bad_line(),
        Some(number) => match Number::new(number) {
            Some(number) => put_number(out, number.next()),
            None => out.put("no number"),
        },
    }
}

/// The name that a text is.
pub(crate) fn name_of(alloc: Global, out: &mut Answer, text: &str) -> Option<Fmri> {
    out.value_or_refusal(Fmri::parse(alloc, text))
}

/// The name of an instance.
pub(crate) fn instance_of(alloc: Global, out: &mut Answer, text: &str) -> Option<InstanceFmri> {
    let name = name_of(alloc, out, text)?;
    out.value_or_bad_line(InstanceFmri::of(name))
}

/// Answers a call of one name.
fn name_answer(alloc: Global, out: &mut Answer, call: &str, text: &str) {
    if let Some(name) = name_of(alloc, out, text) {
        put_name(alloc, out, call, name);
    }
}

fn put_name(alloc: Global, out: &mut Answer, call: &str, name: Fmri) {
    match call {
        "fmri" => write!(out, "{name}"),
        "parts" => {
            let (service, instance) = (name.service(), name.instance().unwrap_or("-"));
            write!(out, "{service} {instance}");
        }
        "instance" => put_instance(out, InstanceFmri::of(name)),
        "service" => put_service(out, ServiceFmri::of(name)),
        _ => put_service_of(out, name.service_fmri(alloc)),
    }
}

fn put_instance(out: &mut Answer, name: Option<InstanceFmri>) {
    match name {
        Some(name) => out.put(name.as_fmri().print()),
        None => out.put("none"),
    }
}

fn put_short(out: &mut Answer, name: Result<Option<InstanceFmri>, AllocError>) {
    if let Some(name) = out.value_or_no_memory(name) {
        put_instance(out, name);
    }
}

fn put_service(out: &mut Answer, name: Option<ServiceFmri>) {
    match name {
        Some(name) => out.put(name.into_fmri().print()),
        None => out.put("none"),
    }
}

fn put_service_of(out: &mut Answer, service: Result<ServiceFmri, AllocError>) {
    if let Some(service) = out.value_or_no_memory(service) {
        write!(out, "{service}");
    }
}

fn pattern_of(alloc: Global, out: &mut Answer, text: &str) -> Option<Pattern> {
    out.value_or_refusal(Pattern::parse(alloc, text))
}

fn answer_pattern(alloc: Global, out: &mut Answer, text: &str) {
    let (pattern, name) = split_word(text);
    if let Some(pattern) = pattern_of(alloc, out, pattern)
        && let Some(name) = name_of(alloc, out, name)
    {
        out.put(truth(pattern.matches(&name)));
    }
}

/// Names that stand between spaces.
pub(crate) fn names_of(alloc: Global, out: &mut Answer, text: &str) -> Option<Items<Fmri>> {
    let mut names = Items::new(alloc);
    for word in text.split(' ') {
        if !word.is_empty() {
            let name = name_of(alloc, out, word)?;
            out.value_or_no_memory(names.push(name))?;
        }
    }
    Some(names)
}

fn answer_pick(alloc: Global, out: &mut Answer, text: &str) {
    let (pattern, names) = split_word(text);
    if let Some(pattern) = pattern_of(alloc, out, pattern)
        && let Some(names) = names_of(alloc, out, names)
    {
        put_place(out, pick(&pattern, names.as_slice()));
    }
}

fn put_place(out: &mut Answer, place: Result<usize, PickFault>) {
    if let Some(place) = out.value_or_refusal(place) {
        write!(out, "at {place}");
    }
}

/// How a copy of the first of two words stands to the second.
fn answer_compare(alloc: Global, out: &mut Answer, text: &str) {
    let (kind, first, second) = split_two(text);
    match kind {
        "fmri" | "instance" | "service" => compared_names(alloc, out, kind, first, second),
        "text" => compared_texts(
            out,
            Text::copy_of(alloc, first),
            Text::copy_of(alloc, second),
        ),
        "bytes" => compared_bytes(alloc, out, first, second),
        _ => out.bad_line(),
    }
}

fn compared_names(alloc: Global, out: &mut Answer, kind: &str, first: &str, second: &str) {
    if let Some(first) = name_of(alloc, out, first)
        && let Some(second) = name_of(alloc, out, second)
    {
        match kind {
            "fmri" => put_ordering(out, ordering_of(&first, &second)),
            "instance" => {
                compared_instances(out, InstanceFmri::of(first), InstanceFmri::of(second));
            }
            _ => compared_services(out, first.service_fmri(alloc), second.service_fmri(alloc)),
        }
    }
}

fn compared_instances(out: &mut Answer, first: Option<InstanceFmri>, second: Option<InstanceFmri>) {
    match (first, second) {
        (Some(first), Some(second)) => put_ordering(out, ordering_of(&first, &second)),
        _ => out.bad_line(),
    }
}

fn compared_services(
    out: &mut Answer,
    first: Result<ServiceFmri, AllocError>,
    second: Result<ServiceFmri, AllocError>,
) {
    if let Some(first) = out.value_or_no_memory(first)
        && let Some(second) = out.value_or_no_memory(second)
    {
        put_ordering(out, ordering_of(&first, &second));
    }
}

fn compared_texts(
    out: &mut Answer,
    first: Result<Text, AllocError>,
    second: Result<Text, AllocError>,
) {
    if let Some(first) = out.value_or_no_memory(first)
        && let Some(second) = out.value_or_no_memory(second)
    {
        put_ordering(out, ordering_of(&first, &second));
    }
}

/// How a copy of a value stands to another.
fn ordering_of<T: Clone + Ord + Drop>(first: &T, second: &T) -> Result<&'static str, AllocError> {
    let first = first.clone()?;
    if first == *second {
        return Ok("equal");
    }
    Ok(ordering_text(first.cmp(second)))
}

fn put_ordering(out: &mut Answer, ordering: Result<&'static str, AllocError>) {
    if let Some(ordering) = out.value_or_no_memory(ordering) {
        out.put(ordering);
    }
}

/// Says if a copy of bytes is the same as a copy of others.
fn compared_bytes(alloc: Global, out: &mut Answer, first: &str, second: &str) {
    if let Some(first) = bytes_of(alloc, out, first)
        && let Some(second) = bytes_of(alloc, out, second)
    {
        let second = Bytes::copy_of(alloc, &second);
        if let Some(first) = out.value_or_no_memory(Bytes::from_vec(alloc, first)) {
            put_sameness(out, first.clone(), second);
        }
    }
}

fn put_sameness(
    out: &mut Answer,
    first: Result<Bytes, AllocError>,
    second: Result<Bytes, AllocError>,
) {
    if let Some(first) = out.value_or_no_memory(first)
        && let Some(second) = out.value_or_no_memory(second)
    {
        out.put(truth(first == second));
    }
}

/// The words of a text in a list: their count, and the words of a copy.
fn items(alloc: Global, out: &mut Answer, text: &str) {
    if let Some(items) = out.value_or_no_memory(texts_of(alloc, text)) {
        put_items(out, items.len(), items.clone());
    }
}

fn put_items(out: &mut Answer, count: usize, items: Result<Items<Text>, AllocError>) {
    if let Some(items) = out.value_or_no_memory(items) {
        write!(out, "{count}");
        for word in items.as_slice() {
            write!(out, " {word}");
        }
    }
}
