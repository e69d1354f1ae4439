//! The contract table that lines change.

use crate::answers::Answer;
use crate::calls::{actor_of, call_of, exit_call, spawn_call};
use crate::events::{put_event, put_events, put_terms};
use crate::words::{number_of, put_number, split_two, split_word, truth};
use smf_contract::{
    Contract, ContractEvent, ContractFault, ContractTable, Holder, Made, Report, Status, Terms,
};
use smf_fmri::{Items, Number, read_count};
use std::alloc::{AllocError, Global};

/// Answers a call of the table; whether it is one.
pub(crate) fn answer(
    alloc: Global,
    table: &mut ContractTable,
    out: &mut Answer,
    call: &str,
    text: &str,
) -> bool {
    match call {
        "call" => answer_call(table, out, text),
        "spawn" => answer_spawn(table, out, text),
        "fork" => answer_fork(table, out, text),
        "adopt" | "abandon" | "kill" => answer_holder_call(table, out, call, text),
        "ack" => answer_ack(table, out, text),
        "holder_gone" => answer_holder_gone(table, out, text),
        "exit" => answer_exit(table, out, text),
        "core" | "signal" | "hwerr" => answer_failure(table, out, call, text),
        "report" => report(table, out, text),
        "emptied_by" => answer_emptied_by(table, out, text),
        "contract" | "status" | "home" | "has_members" | "first_member" => {
            answer_question(table, out, call, text);
        }
        "events" if !text.is_empty() => events(table, out, text),
        _ => return text.is_empty() && whole(alloc, table, out, call),
    }
    true
}

/// A call of the whole table.
fn whole(alloc: Global, table: &mut ContractTable, out: &mut Answer, call: &str) -> bool {
    match call {
        "table" => {
            *table = ContractTable::new(alloc);
            out.put("done");
        }
        "reserve" => answer_reserve(table, out),
        "reboot" => {
            table.reboot();
            out.put("done");
        }
        "next_contract" => put_number(out, table.next_contract()),
        "counts" => put_counts(out, table),
        "events" => put_events(out, table.events()),
        "list" => put_list(out, table.list()),
        _ => return false,
    }
    true
}

fn answer_reserve(table: &mut ContractTable, out: &mut Answer) {
    if out.value_or_no_memory(table.reserve()).is_some() {
        out.put("done");
    }
}

/// A call for which room was made needs no memory.
fn answer_call(table: &mut ContractTable, out: &mut Answer, text: &str) {
    match call_of(text) {
        None => out.bad_line(),
        Some(call) => match table.reserve() {
            Ok(()) => {
                table.call(call);
                out.put("done");
            }
            Err(_) => out.want_memory(),
        },
    }
}

fn answer_spawn(table: &mut ContractTable, out: &mut Answer, text: &str) {
    match spawn_call(text) {
        None => out.bad_line(),
        Some((actor, cookie, terms)) => spawn(table, out, actor, cookie, terms),
    }
}

/// A spawn for which room was made needs no memory.
fn spawn(table: &mut ContractTable, out: &mut Answer, actor: u64, cookie: u64, terms: Terms) {
    match table.reserve() {
        Ok(()) => match table.spawn(actor, cookie, terms) {
            Ok(made) => put_made(out, made),
            Err(ContractFault::Memory) => unreachable!(),
            Err(fault) => out.put_done_or_refusal(Err(fault)),
        },
        Err(_) => out.want_memory(),
    }
}

fn put_made(out: &mut Answer, made: Made) {
    let (contract, process) = (made.contract.get(), made.process.get());
    write!(out, "contract {contract} process {process}");
}

fn answer_fork(table: &mut ContractTable, out: &mut Answer, text: &str) {
    match number_of(text) {
        None => out.bad_line(),
        Some(process) => {
            if let Some(child) = out.value_or_refusal(table.fork(process)) {
                let child = child.get();
                write!(out, "process {child}");
            }
        }
    }
}

/// `ACTOR CONTRACT`.
fn answer_holder_call(table: &mut ContractTable, out: &mut Answer, call: &str, text: &str) {
    match actor_of(text) {
        None => out.bad_line(),
        Some((actor, contract)) => out.put_done_or_refusal(match call {
            "adopt" => table.adopt(actor, contract),
            "abandon" => table.abandon(actor, contract),
            _ => table.kill(actor, contract),
        }),
    }
}

/// `ACTOR CONTRACT NUMBER`.
fn acknowledgement_of(text: &str) -> Option<(u64, Number, Number)> {
    let (actor, contract, number) = split_two(text);
    Some((read_count(actor)?, number_of(contract)?, number_of(number)?))
}

fn answer_ack(table: &mut ContractTable, out: &mut Answer, text: &str) {
    match acknowledgement_of(text) {
        None => out.bad_line(),
        Some((actor, contract, number)) => out.put_done_or_refusal(table.ack(
            actor, contract, number,
        )),
    }
}

fn answer_holder_gone(table: &mut ContractTable, out: &mut Answer, text: &str) {
    match read_count(text) {
        None => out.bad_line(),
        Some(actor) => {
            if out.value_or_no_memory(table.holder_gone(actor)).is_some() {
                out.put("done");
            }
        }
    }
}

fn answer_exit(table: &mut ContractTable, out: &mut Answer, text: &str) {
    match exit_call(text) {
        None => out.bad_line(),
        Some((process, exit)) => out.put_done_or_refusal(table.exit(process, exit)),
    }
}

fn answer_failure(table: &mut ContractTable, out: &mut Answer, call: &str, text: &str) {
    match number_of(text) {
        None => out.bad_line(),
        Some(process) => out.put_done_or_refusal(match call {
            "core" => table.core(process),
            "signal" => table.signal(process),
            _ => table.hwerr(process),
        }),
    }
}

/// Answers a question about a contract; `home` is about a process.
fn answer_question(table: &ContractTable, out: &mut Answer, call: &str, text: &str) {
    match number_of(text) {
        None => out.bad_line(),
        Some(number) => match call {
            "contract" => put_found(out, table.contract(number)),
            "status" => put_status_of(out, table.status(number)),
            "home" => put_number(out, table.home(number)),
            "has_members" => out.put(truth(table.has_members(number))),
            _ => put_number(out, table.first_member(number)),
        },
    }
}

/// `CONTRACT NUMBER`.
fn place_of(text: &str) -> Option<(Number, Number)> {
    let (contract, number) = split_word(text);
    Some((number_of(contract)?, number_of(number)?))
}

fn events(table: &ContractTable, out: &mut Answer, text: &str) {
    match place_of(text) {
        None => out.bad_line(),
        Some((contract, number)) => put_given(out, table.events_from(contract, number)),
    }
}

fn put_given(out: &mut Answer, events: Result<Items<ContractEvent>, AllocError>) {
    if let Some(events) = out.value_or_no_memory(events) {
        put_events(out, events.as_slice());
    }
}

fn put_holder(out: &mut Answer, holder: Holder) {
    match holder {
        Holder::Held(actor) => write!(out, "held {actor}"),
        Holder::Inherited => out.put("inherited"),
        Holder::Abandoned => out.put("abandoned"),
    }
}

fn put_contract(out: &mut Answer, contract: &Contract) {
    let (id, cookie) = (contract.id.get(), contract.cookie);
    let (first, acknowledged) = (contract.first.get(), contract.acknowledged.get());
    write!(out, "contract {id} cookie {cookie} ");
    put_holder(out, contract.holder);
    out.put(" terms ");
    put_terms(out, &contract.terms);
    write!(out, " first {first} acknowledged {acknowledged}");
}

/// Numbers, each after a space; `-` if there is none.
fn put_numbers(out: &mut Answer, numbers: &[Number]) {
    if numbers.is_empty() {
        out.put(" -");
    }
    for number in numbers {
        let number = number.get();
        write!(out, " {number}");
    }
}

fn put_status(out: &mut Answer, status: &Status) {
    put_contract(out, &status.contract);
    out.put(" members");
    put_numbers(out, status.members.as_slice());
    out.put(" events ");
    put_events(out, status.events.as_slice());
}

fn put_status_of(out: &mut Answer, status: Result<Option<Status>, AllocError>) {
    match out.value_or_no_memory(status) {
        Some(Some(status)) => put_status(out, &status),
        Some(None) => out.put("none"),
        None => {}
    }
}

/// The contract of an id, without its members and events.
fn put_found(out: &mut Answer, contract: Option<Contract>) {
    match contract {
        Some(contract) => put_contract(out, &contract),
        None => out.put("none"),
    }
}

fn counts_of(text: &str) -> Option<(u64, u64)> {
    let (contract, number) = split_word(text);
    Some((read_count(contract)?, read_count(number)?))
}

/// An event of a contract, after the contract.
fn report(table: &ContractTable, out: &mut Answer, text: &str) {
    match counts_of(text) {
        None => out.bad_line(),
        Some((contract, number)) => put_report(out, table.report(contract, number)),
    }
}

fn put_report(out: &mut Answer, report: Option<Report>) {
    match report {
        None => out.put("none"),
        Some(report) => {
            put_contract(out, &report.contract);
            out.put(" event ");
            put_event(out, &report.event);
        }
    }
}

/// The contracts that a call would empty.
fn answer_emptied_by(table: &ContractTable, out: &mut Answer, text: &str) {
    match call_of(text) {
        None => out.bad_line(),
        Some(call) => put_ids(out, table.emptied_by(call)),
    }
}

fn put_ids(out: &mut Answer, ids: Result<Items<Number>, AllocError>) {
    if let Some(ids) = out.value_or_no_memory(ids) {
        out.put("contracts");
        put_numbers(out, ids.as_slice());
    }
}

/// How many contracts, members and events there are, and the last numbers that were given.
fn put_counts(out: &mut Answer, table: &ContractTable) {
    let (contracts, members) = (table.contracts().len(), table.members().len());
    let events = table.events().len();
    let (contract, process) = (table.last_contract().get(), table.last_process().get());
    write!(
        out,
        "contracts {contracts} members {members} events {events} "
    );
    write!(out, "last contract {contract} process {process}");
}

/// All contracts with a bar between two; `-` if there is none.
fn put_list(out: &mut Answer, list: Result<Items<Status>, AllocError>) {
    if let Some(list) = out.value_or_no_memory(list) {
        for status in list.as_slice() {
            out.put_between(" | ");
            put_status(out, status);
        }
        out.put_if_empty("-");
    }
}
