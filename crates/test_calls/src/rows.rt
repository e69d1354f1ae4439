//! States, rows, and the sets that rows hold.

use crate::answers::Answer;
use crate::names::instance_of;
use crate::words::{byte_of, put_text, split_word, truth};
use bitflags::Flags;
use smf_fmri::InstanceFmri;
use smf_state::{Cause, Failures, Ignore, Row, SharedRow, State, ViewItem, edge};
use std::alloc::{AllocError, Global};

/// Answers a call of rows; whether it is one.
pub(crate) fn answer(alloc: Global, out: &mut Answer, call: &str, text: &str) -> bool {
    match call {
        "row" => answer_row_text(alloc, out, text),
        "fresh" => fresh(alloc, out, text),
        "row_fields" => fields(alloc, out, text),
        "item" => copied_item(alloc, out, text),
        "edge" => edge_between(out, text),
        "runs" => runs(out, text),
        "ignore" => answer_ignore(out, text),
        _ => return false,
    }
    true
}

/// The row that a text is.
fn row_of(alloc: Global, out: &mut Answer, text: &str) -> Option<Row> {
    out.value_or_refusal(Row::read(alloc, text))
}

/// The text of the row that a text is.
fn answer_row_text(alloc: Global, out: &mut Answer, text: &str) {
    if let Some(row) = row_of(alloc, out, text) {
        put_text(out, row.print(alloc));
    }
}

/// The row of an instance that was just added, by its restarter.
fn fresh(alloc: Global, out: &mut Answer, text: &str) {
    if let Some(owner) = instance_of(alloc, out, text) {
        let row = Row::new(owner);
        put_text(out, row.print(alloc));
    }
}

/// The fields of a row after their names.
fn fields(alloc: Global, out: &mut Answer, text: &str) {
    if let Some(row) = row_of(alloc, out, text) {
        put_states(out, &row);
        put_counts(out, &row);
        put_revisions(out, &row);
    }
}

/// The text of a state, or another if there is none.
pub(crate) fn state_text(state: Option<State>, none: &'static str) -> &'static str {
    match state {
        Some(state) => state.text(),
        None => none,
    }
}

/// The same of a cause.
pub(crate) fn cause_text(cause: Option<Cause>, none: &'static str) -> &'static str {
    match cause {
        Some(cause) => cause.text(),
        None => none,
    }
}

fn put_states(out: &mut Answer, row: &Row) {
    let (owner, number, state) = (row.owner.print(), row.number, row.state);
    let (next, cause) = (state_text(row.next, "-"), cause_text(row.cause, "-"));
    let duration = row.duration;
    write!(
        out,
        "owner={owner} number={number} state={state} next={next} cause={cause} duration={duration}"
    );
}

fn put_counts(out: &mut Answer, row: &Row) {
    let (last, failed, asks) = (row.last, row.failed, row.asks.number());
    let ignore = row.ignore.bits();
    put_optional(out, "live", row.live);
    put_optional(out, "side", row.side);
    write!(
        out,
        " last={last} failed={failed} asks={asks} ignore={ignore}"
    );
    put_optional(out, "running", row.running);
    put_optional(out, "begun", row.begun);
}

fn put_revisions(out: &mut Answer, row: &Row) {
    let (base, err, stop) = (row.base, row.err, row.stop);
    let (refresh, start) = (row.refresh, row.start);
    let (launch, serial) = (row.launch, row.serial);
    write!(out, " base={base} err={err} stop={stop} refresh={refresh}");
    write!(out, " start={start} launch={launch} serial={serial}");
}

fn put_optional(out: &mut Answer, name: &str, number: Option<u64>) {
    match number {
        None => write!(out, " {name}=-"),
        Some(number) => write!(out, " {name}={number}"),
    }
}

/// A view's item of a name and a row.
fn item_of(name: InstanceFmri, row: SharedRow) -> ViewItem {
    ViewItem {
        instance: 1,
        name,
        enabled: true,
        readable: true,
        row,
        body: None,
    }
}

/// `NAME ROW`: the item of instance 1, which is enabled and has no snapshot.
pub(crate) fn item_by_row(alloc: Global, out: &mut Answer, text: &str) -> Option<ViewItem> {
    let (name, row) = split_word(text);
    let name = instance_of(alloc, out, name)?;
    let row = row_of(alloc, out, row)?;
    let row = out.value_or_no_memory(SharedRow::of(alloc, row))?;
    Some(item_of(name, row))
}

/// The name and the row of a copy of a view's item.
fn copied_item(alloc: Global, out: &mut Answer, text: &str) {
    if let Some(item) = item_by_row(alloc, out, text) {
        put_item(alloc, out, item.clone());
    }
}

fn put_item(alloc: Global, out: &mut Answer, item: Result<ViewItem, AllocError>) {
    if let Some(item) = out.value_or_no_memory(item) {
        let (instance, name) = (item.instance, item.name.print());
        write!(out, "{instance} {name} ");
        put_text(out, item.row.print(alloc));
    }
}

fn states_of(text: &str) -> Option<(State, State)> {
    let (from, to) = split_word(text);
    Some((State::read(from)?, State::read(to)?))
}

fn edge_between(out: &mut Answer, text: &str) {
    match states_of(text) {
        Some((from, to)) => out.put(truth(edge(from, to))),
        None => out.bad_line(),
    }
}

fn runs(out: &mut Answer, text: &str) {
    match State::read(text) {
        Some(state) => out.put(truth(state.runs())),
        None => out.bad_line(),
    }
}

/// The kinds of failure that bits leave out of account.
fn answer_ignore(out: &mut Answer, text: &str) {
    match byte_of(text) {
        None => out.bad_line(),
        Some(bits) => put_failures(out, Ignore::from_bits(bits)),
    }
}

fn put_failures(out: &mut Answer, ignore: Option<Ignore>) {
    match ignore {
        None => out.put("no set"),
        Some(ignore) => {
            let failures = ignore.failures();
            let core = truth(failures.contains(Failures::CORE));
            let signal = truth(failures.contains(Failures::SIGNAL));
            write!(out, "core {core} signal {signal}");
        }
    }
}
