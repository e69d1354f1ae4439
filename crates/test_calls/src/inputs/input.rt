//! Inputs of a restarter, as lines.

use crate::inputs::contracts::{contract_of, report_with, reported_kind, statuses_of};
use crate::words::{number_of, split_word};
use smf_fmri::{Items, read_count};
use smf_restarter::{Answer, Call, KnowledgeChange, Reply, Restarter};
use smf_wire::{WireFault, decode};
use std::alloc::{AllocError, Global};

/// An input that changes what is known, and asks for nothing.
fn reply_with_change(alloc: Global, change: KnowledgeChange) -> Reply {
    Reply {
        change,
        messages: Items::new(alloc),
        taken: Items::new(alloc),
        begun: Items::new(alloc),
        call: Call::Nothing,
    }
}

fn reply_to_message(
    alloc: Global,
    restarter: &Restarter,
    line: &str,
) -> Result<Option<Reply>, AllocError> {
    match decode(alloc, line) {
        Ok(message) => Ok(Some(restarter.reply_to_message(&message)?)),
        Err(WireFault::Memory) => Err(AllocError),
        Err(WireFault::NotInGrammar(_)) => Ok(None),
    }
}

/// A tick of an instance, or the restarter's own, which is that of 0.
fn reply_to_tick(restarter: &Restarter, text: &str) -> Result<Option<Reply>, AllocError> {
    match read_count(text) {
        None => Ok(None),
        Some(0) => Ok(Some(restarter.own_tick()?)),
        Some(instance) => Ok(Some(restarter.reply_to_tick(instance)?)),
    }
}

fn reply_to_statuses(
    alloc: Global,
    restarter: &Restarter,
    text: &str,
) -> Result<Option<Reply>, AllocError> {
    match statuses_of(alloc, restarter.actor(), text)? {
        None => Ok(None),
        Some(statuses) => {
            let change = restarter.change_on_list(statuses.as_slice())?;
            Ok(Some(reply_with_change(alloc, change)))
        }
    }
}

/// `spawned INSTANCE CONTRACT`, `adopted INSTANCE CONTRACT`, and without a contract `refused`, `notfollowed` and
/// `unanswered`.
fn answer_of(call: &str, contract: &str) -> Option<Answer> {
    match call {
        "spawned" => Some(Answer::Spawned(number_of(contract)?)),
        "adopted" => Some(Answer::Adopted(number_of(contract)?)),
        "refused" => Some(Answer::Refused),
        "notfollowed" => Some(Answer::NotFollowed),
        "unanswered" => Some(Answer::Nothing),
        _ => None,
    }
}

fn change_by_answer(restarter: &Restarter, call: &str, text: &str) -> Option<KnowledgeChange> {
    let (instance, contract) = split_word(text);
    let instance = read_count(instance)?;
    Some(restarter.change_on_answer(instance, answer_of(call, contract)?))
}

fn change_by_report(restarter: &Restarter, text: &str) -> Option<KnowledgeChange> {
    let contract = contract_of(restarter.actor(), text)?;
    let kind = reported_kind(text)?;
    Some(restarter.change_on_report(&report_with(contract, kind, text)))
}

fn timed_out(restarter: &Restarter, text: &str) -> Option<KnowledgeChange> {
    Some(restarter.timed_out(read_count(text)?))
}

/// The change of an input that asks for nothing; none if a line is no such input.
fn change_of(restarter: &Restarter, call: &str, text: &str) -> Option<KnowledgeChange> {
    match call {
        "report" => change_by_report(restarter, text),
        "timeout" => timed_out(restarter, text),
        _ => change_by_answer(restarter, call, text),
    }
}

/// The reply to the input that a line is; none if it is no input.
pub(crate) fn reply_to(
    alloc: Global,
    restarter: &mut Restarter,
    line: &str,
) -> Result<Option<Reply>, AllocError> {
    let (call, text) = split_word(line);
    match call {
        "message" => reply_to_message(alloc, restarter, text),
        "tick" => reply_to_tick(restarter, text),
        "listed" => reply_to_statuses(alloc, restarter, text),
        _ => match change_of(restarter, call, text) {
            None => Ok(None),
            Some(change) => Ok(Some(reply_with_change(alloc, change))),
        },
    }
}
