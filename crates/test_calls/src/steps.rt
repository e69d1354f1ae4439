//! Steps, and what they make of rows.

use crate::answers::Answer;
use crate::names::instance_of;
use crate::words::{put_count, put_text};
use smf_state::{Proposal, Row, Step, Verb, WrongField, field_at, number_at, row_at};
use std::alloc::Global;

/// Who proposes steps, and whose rows are: svc.startd.
pub(crate) const STARTD: &str = "svc:/system/svc/restarter:default";

/// Answers a call of steps; whether it is one.
pub(crate) fn answer(alloc: Global, out: &mut Answer, call: &str, text: &str) -> bool {
    match call {
        "step_text" => answer_step_text(alloc, out, text),
        "run_of" => run(out, text),
        "verb" => out.put(verb_text(Verb::read(text))),
        "step" => answer_step(alloc, out, text),
        _ => return false,
    }
    true
}

/// The step that a text is.
pub(crate) fn step_of(out: &mut Answer, text: &str) -> Option<Step> {
    out.value_or_refusal(Step::read(text))
}

/// The text of the step that a text is.
fn answer_step_text(alloc: Global, out: &mut Answer, text: &str) {
    if let Some(step) = step_of(out, text) {
        put_text(out, step.print(alloc));
    }
}

/// The run that a step begins.
fn run(out: &mut Answer, text: &str) {
    if let Some(step) = step_of(out, text) {
        put_count(out, step.run());
    }
}

fn verb_text(verb: Option<Verb>) -> &'static str {
    match verb {
        Some(Verb::Move) => "move",
        Some(Verb::Start) => "start",
        Some(Verb::Stop) => "stop",
        Some(Verb::Refresh) => "refresh",
        Some(Verb::End) => "end",
        Some(Verb::Note) => "note",
        None => "none",
    }
}

/// A step of instance 1, as svc.startd proposes it.
pub(crate) fn proposal_of(
    alloc: Global,
    out: &mut Answer,
    launch: u64,
    serial: u64,
    number: u64,
    step: Step,
) -> Option<Proposal> {
    let proposer = instance_of(alloc, out, STARTD)?;
    Some(Proposal {
        proposer,
        launch,
        serial,
        instance: 1,
        number,
        step,
    })
}

/// `REVISION LAUNCH SERIAL`, and what is left.
fn numbers_of(text: &str) -> Result<(u64, u64, u64, Option<&str>), WrongField> {
    let (revision, rest) = number_at(Some(text))?;
    let (launch, rest) = number_at(rest)?;
    let (serial, rest) = number_at(rest)?;
    Ok((revision, launch, serial, rest))
}

/// The step after a slash.
fn step_behind(out: &mut Answer, rest: Option<&str>) -> Option<Step> {
    match field_at(rest) {
        Some(("/", Some(text))) => step_of(out, text),
        _ => out.value_or_bad_line(None),
    }
}

/// `REVISION LAUNCH SERIAL ROW / STEP`: the row after the step, which that launch proposes at that revision.
fn answer_step(alloc: Global, out: &mut Answer, text: &str) {
    if let Some((revision, launch, serial, rest)) = out.value_or_refusal(numbers_of(text))
        && let Some((row, rest)) = out.value_or_refusal(row_at(alloc, rest))
        && let Some(step) = step_behind(out, rest)
        && let Some(proposal) = proposal_of(alloc, out, launch, serial, 1, step)
    {
        put_row_after_step(alloc, out, row, &proposal, revision);
    }
}

fn put_row_after_step(
    alloc: Global,
    out: &mut Answer,
    mut row: Row,
    proposal: &Proposal,
    revision: u64,
) {
    if out
        .value_or_refusal(row.apply(proposal, revision))
        .is_some()
    {
        put_text(out, row.print(alloc));
    }
}
