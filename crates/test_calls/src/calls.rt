//! Calls of a table of contracts, as words.

use crate::events::terms_of;
use crate::words::{byte_of, number_of, split_two, split_word};
use smf_contract::{ContractCall, Exit, Failure, Terms};
use smf_fmri::{Number, read_count};

/// How a process ended: a status, or `killed`.
pub(crate) fn exit_of(word: &str) -> Option<Exit> {
    if word == "killed" {
        return Some(Exit::Killed);
    }
    Some(Exit::Code(byte_of(word)?))
}

fn failure_of(word: &str) -> Option<Failure> {
    match word {
        "core" => Some(Failure::Core),
        "signal" => Some(Failure::Signal),
        "hwerr" => Some(Failure::Hwerr),
        _ => None,
    }
}

/// `ACTOR CONTRACT`.
pub(crate) fn actor_of(text: &str) -> Option<(u64, Number)> {
    let (actor, contract) = split_word(text);
    Some((read_count(actor)?, number_of(contract)?))
}

/// `PROCESS HOW`.
pub(crate) fn exit_call(text: &str) -> Option<(Number, Exit)> {
    let (process, exit) = split_word(text);
    Some((number_of(process)?, exit_of(exit)?))
}

/// `ACTOR COOKIE INFORMATIVE CRITICAL FATAL`, and then perhaps `inherit`, `noorphan`.
pub(crate) fn spawn_call(text: &str) -> Option<(u64, u64, Terms)> {
    let (actor, cookie, terms) = split_two(text);
    Some((read_count(actor)?, read_count(cookie)?, terms_of(terms)?))
}

/// `fork PROCESS`, `exit PROCESS HOW` or `fail PROCESS KIND`.
fn process_call(call: &str, text: &str) -> Option<ContractCall> {
    let (process, how) = split_word(text);
    let process = number_of(process)?;
    match call {
        "fork" if how.is_empty() => Some(ContractCall::Fork(process)),
        "exit" => Some(ContractCall::Exit(process, exit_of(how)?)),
        "fail" => Some(ContractCall::Fail(process, failure_of(how)?)),
        _ => None,
    }
}

/// `adopt ACTOR CONTRACT` or `kill ACTOR CONTRACT`.
fn held_call(call: &str, text: &str) -> Option<ContractCall> {
    let (actor, contract) = actor_of(text)?;
    if call == "adopt" {
        Some(ContractCall::Adopt { actor, contract })
    } else {
        Some(ContractCall::Kill { actor, contract })
    }
}

/// The call that words name.
pub(crate) fn call_of(text: &str) -> Option<ContractCall> {
    let (call, text) = split_word(text);
    match call {
        "nothing" if text.is_empty() => Some(ContractCall::Nothing),
        "reboot" if text.is_empty() => Some(ContractCall::Reboot),
        "spawn" => {
            let (actor, cookie, terms) = spawn_call(text)?;
            Some(ContractCall::Spawn {
                actor,
                cookie,
                terms,
            })
        }
        "adopt" | "kill" => held_call(call, text),
        "gone" => Some(ContractCall::Gone {
            actor: read_count(text)?,
        }),
        _ => process_call(call, text),
    }
}
