//! Sets of kinds of events, terms of contracts, and events, as words.

ghost use Rattle.std.specs.Prelude.{IfSome};
ghost use Rattle.smf_contract.specs.Stated.{AreEvents};

use crate::answers::Answer;
use crate::words::{split_two, split_word};
use bitflags::Flags;
use smf_contract::{ContractEvent, EventKind, EventSet, Exit, Terms};

/// The kinds of events, and their words.
const KINDS: [(&str, EventSet); 6] = [
    ("empty", EventSet::EMPTY),
    ("fork", EventSet::FORK),
    ("exit", EventSet::EXIT),
    ("core", EventSet::CORE),
    ("signal", EventSet::SIGNAL),
    ("hwerr", EventSet::HWERR),
];

fn kind_of(word: &str) -> Option<EventSet>
    ensures { IfSome result AreEvents }
{
    match word {
        "empty" => Some(EventSet::EMPTY),
        "fork" => Some(EventSet::FORK),
        "exit" => Some(EventSet::EXIT),
        "core" => Some(EventSet::CORE),
        "signal" => Some(EventSet::SIGNAL),
        "hwerr" => Some(EventSet::HWERR),
        _ => None,
    }
}

/// The kinds that stand between commas; `-` is none.
#[tactic(auto, using(crate::proofs::Sets::union_exists))]
fn set_of(text: &str) -> Option<EventSet>
    ensures { IfSome result AreEvents }
{
    let mut set = EventSet::NONE;
    if text == "-" {
        return Some(set);
    }
    for word in text.split(',') {
        set = set.union(kind_of(word)?);
    }
    Some(set)
}

/// The flags `inherit` and `noorphan` of contracts, in this order.
fn flags_of(text: &str) -> Option<(bool, bool)> {
    match text {
        "" => Some((false, false)),
        "inherit" => Some((true, false)),
        "noorphan" => Some((false, true)),
        "inherit noorphan" => Some((true, true)),
        _ => None,
    }
}

/// `INFORMATIVE CRITICAL FATAL`, and then perhaps `inherit`, `noorphan`.
pub(crate) fn terms_of(text: &str) -> Option<Terms> {
    let (informative, critical, rest) = split_two(text);
    let (fatal, flags) = split_word(rest);
    let (inherit, noorphan) = flags_of(flags)?;
    Some(Terms {
        informative: set_of(informative)?,
        critical: set_of(critical)?,
        fatal: set_of(fatal)?,
        inherit,
        noorphan,
    })
}

/// A set of kinds; `-` if it is empty.
fn put_set(out: &mut Answer, set: EventSet) {
    let mut is_empty = true;
    for (text, kind) in KINDS {
        if set.contains(kind) {
            out.put(if is_empty { "" } else { "," });
            out.put(text);
            is_empty = false;
        }
    }
    put_if(out, is_empty, "-");
}

/// Puts a word if something is so.
fn put_if(out: &mut Answer, is_so: bool, word: &str) {
    if is_so {
        out.put(word);
    }
}

pub(crate) fn put_terms(out: &mut Answer, terms: &Terms) {
    put_set(out, terms.informative);
    out.put(" ");
    put_set(out, terms.critical);
    out.put(" ");
    put_set(out, terms.fatal);
    put_if(out, terms.inherit, " inherit");
    put_if(out, terms.noorphan, " noorphan");
}

/// How a process ended.
fn put_exit(out: &mut Answer, kind: EventKind) {
    match kind {
        EventKind::Exit(_, Exit::Killed) => out.put(" killed"),
        EventKind::Exit(_, Exit::Code(code)) => write!(out, " {code}"),
        _ => {}
    }
}

/// `CONTRACT/NUMBER KIND`, and then the process that it happened to, how it ended, and `left` if a
/// member is left.
pub(crate) fn put_event(out: &mut Answer, event: &ContractEvent) {
    let (contract, number) = (event.contract.get(), event.number.get());
    write!(out, "{contract}/{number} ");
    put_set(out, event.kind.set());
    if let Some(process) = event.kind.process() {
        let process = process.get();
        write!(out, " {process}");
    }
    put_exit(out, event.kind);
    put_if(out, event.left, " left");
}

/// Events with commas between; `-` if there is none.
pub(crate) fn put_events(out: &mut Answer, events: &[ContractEvent]) {
    let mut is_empty = true;
    for event in events {
        out.put(if is_empty { "" } else { ", " });
        put_event(out, event);
        is_empty = false;
    }
    put_if(out, is_empty, "-");
}
