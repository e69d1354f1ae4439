//! Lines of standard input are done to children in contracts that are followed. The command of a contract says what it
//! answers.
//!   `spawn ID COMMAND`    starts a command in the next contract, which a failure ends.
//!   `ignore ID COMMAND`   does the same, and no failure ends it.
//!   `poll`                prints all that is found.
//!   `kill ID`             ends a contract.
//!   `list`                prints the contracts with members.
//! Modules: `scripted` (contracts whose answers are written down), `texts` (the texts that are printed).

mod scripted;
mod texts;

use crate::asked::scripted::Scripted;
use crate::asked::texts::{fault_text, print_event};
use smf_contract::{EventSet, Method, Terms};
use smf_edge::{FollowedKids, Kids, Start};
use smf_fmri::{InstanceFmri, Number};
use smf_method::CommandText;
use smf_state::Duration;
use std::io;
use std::io::{BufRead, BufReader};

/// The terms of a contract. Failures are fatal to it, unless the service ignores failures.
fn terms(fatal: bool) -> Terms {
    Terms {
        informative: EventSet::NONE,
        critical: EventSet::NONE,
        fatal: if fatal {
            EventSet::FAILURES
        } else {
            EventSet::NONE
        },
        inherit: false,
        noorphan: false,
    }
}

/// Starts a command in a contract.
fn spawn<K: Kids>(
    rt: &HostRuntime,
    kids: &mut K,
    id: u64,
    text: &str,
    fatal: bool,
) -> io::Result<()> {
    let alloc = rt.alloc();
    let (Some(id), Ok(Some(command))) = (Number::new(id), CommandText::copy_of(alloc, text)) else {
        return println!(rt; "no command");
    };
    let Ok(Some(instance)) = InstanceFmri::read_short(alloc, "svc:/site/kept:default") else {
        return println!(rt; "no name");
    };
    let restarter = instance.clone()?;
    let start = Start {
        contract: id,
        cookie: 0,
        style: Duration::Contract,
        terms: terms(fatal),
        command,
        method: Method::Start,
        instance,
        restarter,
    };
    match kids.spawn(&start) {
        Ok(()) => println!(rt; "spawned"),
        Err(fault) => println!(rt; "{}", fault_text(fault)),
    }
}

/// Prints all that is found.
fn poll<K: Kids>(rt: &HostRuntime, kids: &mut K) -> io::Result<()> {
    for _ in 0..10_000u32 {
        match kids.poll() {
            Ok(Some(event)) => print_event(rt, &event)?,
            Ok(None) => break,
            Err(fault) => {
                println!(rt; "{}", fault_text(fault))?;
                break;
            }
        }
    }
    println!(rt; ".")
}

fn kill<K: Kids>(rt: &HostRuntime, kids: &mut K, id: u64) -> io::Result<()> {
    let Some(id) = Number::new(id) else {
        return println!(rt; "no contract");
    };
    match kids.kill(id) {
        Ok(()) => println!(rt; "killed"),
        Err(fault) => println!(rt; "{}", fault_text(fault)),
    }
}

fn list<K: Kids>(rt: &HostRuntime, kids: &mut K) -> io::Result<()> {
    match kids.list() {
        Ok(ids) => {
            for id in ids.as_slice() {
                println!(rt; "{}", id.get())?;
            }
            println!(rt; ".")
        }
        Err(fault) => println!(rt; "{}", fault_text(fault)),
    }
}

/// Does a line.
fn act<K: Kids>(rt: &HostRuntime, kids: &mut K, line: &str) -> io::Result<()> {
    let (word, rest) = line.split_once(' ').unwrap_or((line, ""));
    let (first, more) = rest.split_once(' ').unwrap_or((rest, ""));
    let number: u64 = first.parse().unwrap_or(0);
    match word {
        "spawn" => spawn(rt, kids, number, more, true),
        "ignore" => spawn(rt, kids, number, more, false),
        "poll" => poll(rt, kids),
        "kill" => kill(rt, kids, number),
        "list" => list(rt, kids),
        _ => println!(rt; "what"),
    }
}

/// Does each line of standard input to contracts whose answers are written down.
pub(crate) fn ask_contracts(rt: &HostRuntime) -> io::Result<()> {
    let alloc = rt.alloc();
    let mut kids = FollowedKids::new(alloc, Scripted::new(alloc));
    let reader = BufReader::new(alloc, rt.reader())?;
    for line in reader.lines(alloc) {
        act(rt, &mut kids, line?.as_str())?;
    }
    Ok(())
}
