//! Contracts and their events, as lines tell them.

use crate::cookies::method_of;
use crate::words::{number_of, split_two, split_word};
use smf_contract::{
    Contract, ContractEvent, Cookie, EventKind, EventSet, Exit, Holder, Method, Report, Status,
    Terms,
};
use smf_fmri::{Items, Number, read_count};
use std::alloc::{AllocError, Global};

/// How a process ended: a status, or `killed`.
fn exit_of(word: &str) -> Option<Exit> {
    if word == "killed" {
        return Some(Exit::Killed);
    }
    Some(Exit::Code(u8::try_from(read_count(word)?).ok()?))
}

/// `exit:PROCESS:HOW`, without its first word.
fn exit_kind(text: &str) -> Option<EventKind> {
    let (process, how) = text.split_once(':')?;
    Some(EventKind::Exit(number_of(process)?, exit_of(how)?))
}

/// `empty`, `exit:PROCESS:HOW` or `KIND:PROCESS`.
fn kind_of(word: &str) -> Option<EventKind> {
    if word == "empty" {
        return Some(EventKind::Empty);
    }
    let (kind, rest) = word.split_once(':')?;
    match kind {
        "exit" => exit_kind(rest),
        "fork" => Some(EventKind::Fork(number_of(rest)?)),
        "core" => Some(EventKind::Core(number_of(rest)?)),
        "signal" => Some(EventKind::Signal(number_of(rest)?)),
        "hwerr" => Some(EventKind::Hwerr(number_of(rest)?)),
        _ => None,
    }
}

/// The cookie of a run of a method; `other` is no method.
fn cookie_of(instance: &str, run: &str, word: &str) -> Option<u64> {
    let instance = read_count(instance)?;
    let run = read_count(run)?;
    if word == "other" {
        let method = Method::Start;
        let cookie = Cookie {
            instance,
            run,
            method,
        };
        return Some(cookie.pack().ok()? | 3);
    }
    let method = method_of(word)?;
    let cookie = Cookie {
        instance,
        run,
        method,
    };
    cookie.pack().ok()
}

/// A restarter does not read the terms of a contract.
const ANY_TERMS: Terms = Terms {
    informative: EventSet::NONE,
    critical: EventSet::NONE,
    fatal: EventSet::NONE,
    inherit: true,
    noorphan: false,
};

/// The contract that a text begins with: `ID INSTANCE RUN METHOD FIRST`. The actor holds it.
pub(crate) fn contract_of(actor: u64, text: &str) -> Option<Contract> {
    let (id, instance, rest) = split_two(text);
    let (run, method, rest) = split_two(rest);
    let (first, _) = split_word(rest);
    Some(Contract {
        id: number_of(id)?,
        cookie: cookie_of(instance, run, method)?,
        holder: Holder::Held(actor),
        terms: ANY_TERMS,
        first: number_of(first)?,
        acknowledged: Number::zero(),
    })
}

/// The text after a contract.
fn after_contract(text: &str) -> &str {
    let (_, _, rest) = split_two(text);
    let (_, _, rest) = split_two(rest);
    let (_, rest) = split_word(rest);
    rest
}

fn event_with(contract: Number, kind: EventKind, left: bool) -> ContractEvent {
    ContractEvent {
        contract,
        number: Number::zero(),
        kind,
        left,
    }
}

/// The kind of the event in `CONTRACT EVENT [left]`.
pub(crate) fn reported_kind(text: &str) -> Option<EventKind> {
    let (word, _) = split_word(after_contract(text));
    kind_of(word)
}

/// True if `CONTRACT EVENT [left]` says that members are left.
fn is_left(text: &str) -> bool {
    let (_, left) = split_word(after_contract(text));
    left == "left"
}

/// The report that `CONTRACT EVENT [left]` is, of this contract and event.
pub(crate) fn report_with(contract: Contract, kind: EventKind, text: &str) -> Report {
    Report {
        contract,
        event: event_with(contract.id, kind, is_left(text)),
    }
}

fn holder_of(actor: u64, word: &str) -> Option<Holder> {
    match word {
        "held" => Some(Holder::Held(actor)),
        "inherited" => Some(Holder::Inherited),
        "abandoned" => Some(Holder::Abandoned),
        _ => Some(Holder::Held(read_count(word)?)),
    }
}

/// Processes between commas; `-` is none.
fn members_of(alloc: Global, text: &str) -> Result<Option<Items<Number>>, AllocError> {
    let mut members = Items::new(alloc);
    if text == "-" {
        return Ok(Some(members));
    }
    for word in text.split(',') {
        match number_of(word) {
            None => return Ok(None),
            Some(process) => members.push(process)?,
        }
    }
    Ok(Some(members))
}

/// Puts an event after the others; whether the word is one.
fn push_event(
    events: &mut Items<ContractEvent>,
    contract: Number,
    word: &str,
) -> Result<bool, AllocError> {
    match kind_of(word) {
        None => Ok(false),
        Some(kind) => {
            events.push(event_with(contract, kind, false))?;
            Ok(true)
        }
    }
}

/// Events between commas; `-` is none.
fn events_of(
    alloc: Global,
    contract: Number,
    text: &str,
) -> Result<Option<Items<ContractEvent>>, AllocError> {
    let mut events = Items::new(alloc);
    if text == "-" {
        return Ok(Some(events));
    }
    for word in text.split(',') {
        if !push_event(&mut events, contract, word)? {
            return Ok(None);
        }
    }
    Ok(Some(events))
}

/// `CONTRACT HOLDER MEMBERS EVENTS`.
fn status_of(alloc: Global, actor: u64, text: &str) -> Result<Option<Status>, AllocError> {
    let Some(contract) = contract_of(actor, text) else {
        return Ok(None);
    };
    let (word, members, events) = split_two(after_contract(text));
    let Some(holder) = holder_of(actor, word) else {
        return Ok(None);
    };
    let Some(members) = members_of(alloc, members)? else {
        return Ok(None);
    };
    let Some(events) = events_of(alloc, contract.id, events)? else {
        return Ok(None);
    };
    let contract = Contract { holder, ..contract };
    Ok(Some(Status {
        contract,
        members,
        events,
    }))
}

/// Contracts with ` | ` between two; `-` is none.
pub(crate) fn statuses_of(
    alloc: Global,
    actor: u64,
    text: &str,
) -> Result<Option<Items<Status>>, AllocError> {
    let mut statuses = Items::new(alloc);
    if text == "-" {
        return Ok(Some(statuses));
    }
    for part in text.split('|') {
        match status_of(alloc, actor, part.trim())? {
            None => return Ok(None),
            Some(status) => statuses.push(status)?,
        }
    }
    Ok(Some(statuses))
}
