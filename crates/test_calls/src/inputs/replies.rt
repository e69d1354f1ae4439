//! Replies of a restarter, a line for each thing that it does.

use crate::inputs::page::Page;
use bitflags::Flags;
use smf_contract::{Cookie, EventSet, Terms};
use smf_method::method_text;
use smf_restarter::{Begun, Call, Reply};
use smf_wire::{Known, Message, encode};
use std::alloc::Global;

/// The kinds of events, and their words.
const KINDS: [(&str, EventSet); 6] = [
    ("empty", EventSet::EMPTY),
    ("fork", EventSet::FORK),
    ("exit", EventSet::EXIT),
    ("core", EventSet::CORE),
    ("signal", EventSet::SIGNAL),
    ("hwerr", EventSet::HWERR),
];

/// A name, and the kinds of a set; nothing if it is empty.
fn put_set(page: &mut Page, name: &str, set: EventSet) {
    let mut is_first = true;
    for (text, kind) in KINDS {
        if set.contains(kind) {
            page.put(if is_first { ", " } else { "," });
            page.put_if(is_first, name);
            page.put(text);
            is_first = false;
        }
    }
}

fn put_terms(page: &mut Page, terms: &Terms) {
    put_set(page, "informative ", terms.informative);
    put_set(page, "critical ", terms.critical);
    put_set(page, "fatal ", terms.fatal);
    page.put_if(terms.inherit, ", inherit");
    page.put_if(terms.noorphan, ", noorphan");
}

fn put_cookie(page: &mut Page, bits: u64) {
    match Cookie::unpack(bits) {
        None => write!(page, "{bits}"),
        Some(cookie) => {
            let (instance, run, method) = (cookie.instance, cookie.run, method_text(cookie.method));
            write!(page, "{instance} {run} {method}");
        }
    }
}

/// Puts the call that the restarter makes to the contracts.
fn put_call(page: &mut Page, call: Call) {
    match call {
        Call::Nothing => {}
        Call::List => page.put("    lists\n"),
        Call::Adopt(contract) => {
            let contract = contract.get();
            write!(page, "    adopts {contract}\n");
        }
        Call::Spawn { cookie, terms } => {
            page.put("    spawns ");
            put_cookie(page, cookie);
            put_terms(page, &terms);
            page.put("\n");
        }
        Call::Kill(contract) => {
            let contract = contract.get();
            write!(page, "    kills {contract}\n");
        }
    }
}

/// A row that is taken.
fn put_taken(page: &mut Page, known: &Known) {
    let (instance, number, state) = (known.instance, known.row.number, known.row.state);
    write!(page, "    held {instance} {number} {state}\n");
}

fn put_message(alloc: Global, page: &mut Page, message: &Message) {
    if let Some(line) = page.value_or_no_memory(encode(alloc, message)) {
        let line = line.as_str();
        write!(page, "    sends {line}\n");
    }
}

/// A method that is begun.
fn put_begun(page: &mut Page, begun: &Begun) {
    let (instance, run, method) = (begun.instance, begun.run, method_text(begun.method));
    let (revision, command) = (begun.revision, &begun.command);
    write!(page, "    begins {instance} {run} {method} {revision} ");
    write!(page, "{command}\n");
}

pub(crate) fn put_reply(alloc: Global, page: &mut Page, reply: &Reply) {
    for known in reply.taken.as_slice() {
        put_taken(page, known);
    }
    for message in reply.messages.as_slice() {
        put_message(alloc, page, message);
    }
    for begun in reply.begun.as_slice() {
        put_begun(page, begun);
    }
    put_call(page, reply.call);
    if let Some(instance) = reply.change.forget {
        write!(page, "    forgets {instance}\n");
    }
}
