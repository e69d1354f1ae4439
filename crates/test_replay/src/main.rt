//! `test_replay`: replays a text of events, one a line, on a node over a repository in memory, and prints what each
//! refuses or shows. With the word `trace` it prints at its end what it gave to the node, line by line. With the word
//! `script` it does a script in place of events, and one call fails. With the word `asked` it asks contracts. With the
//! word `served` a server is asked the same again and again. With the word `why` it reads configured services and states.
//! Modules: `event` (a line's event), `safety` (the safety of a trail), `replay` (what a line does), `traces` (what
//! the node is given), `fault`; `script` (a script of which a call fails), `failures` (children that fail), `streams` (a
//! reader and a writer that fail), `journal` (a journal that fails); `asked` (contracts whose answers are written down);
//! `serving` (a server); `whys` (why services do not run).
#![tactic(auto)]

mod asked;
mod event;
mod failures;
mod fault;
mod journal;
mod replay;
mod safety;
mod script;
mod serving;
mod streams;
mod traces;
mod whys;

use crate::asked::ask_contracts;
use crate::fault::ReplayFault;
use crate::replay::Replay;
use crate::script::do_script;
use crate::serving::serve;
use crate::whys::answer_whys;
use log::Log;
use log::sink::Memory;
use std::io::{BufRead, BufReader, Write};
use std::process::ExitCode;
use std::{env, io};

/// The status of a replay that a fault ended.
const FAULT: u8 = 3;

/// Does each line of standard input, and writes its text when it is done.
fn run_lines<L: Log>(rt: &HostRuntime, log: &L, replay: &mut Replay) -> Result<(), ReplayFault> {
    let alloc = rt.alloc();
    let mut reader = BufReader::new(alloc, rt.reader())?;
    let mut line = Vec::new(alloc);
    for _ in 0..u64::MAX {
        line.clear();
        if reader.read_until(b'\n', &mut line)? == 0 {
            break;
        }
        let text = replay.text_of(alloc, log, &line)?;
        io::writer(rt).write_all(text.as_bytes())?;
    }
    Ok(())
}

/// The system's words.
fn words(rt: &HostRuntime) -> io::Result<Vec<String>> {
    let words: Vec<String> = env::args(rt)?.collect(rt.alloc())?;
    Ok(words)
}

/// The word that says what is done; an empty one for a replay.
fn task_word(words: &[String]) -> &str {
    match words {
        [_, word, ..] => word.as_str(),
        _ => "",
    }
}

/// Writes the lines that were traced.
fn write_trace(rt: &HostRuntime, memory: Memory) -> io::Result<()> {
    let lines = memory.into_lines();
    for line in lines.as_slice() {
        println!(rt; "{line}")?;
    }
    Ok(())
}

fn replay_all(rt: &HostRuntime, traced: bool) -> Result<(), ReplayFault> {
    let alloc = rt.alloc();
    let memory = Memory::new(alloc);
    let mut replay = Replay::new(alloc)?;
    let end = run_lines(rt, &memory, &mut replay);
    replay.end();
    end?;
    if traced {
        write_trace(rt, memory)?;
    }
    Ok(())
}

fn run_replay(rt: &HostRuntime, traced: bool) -> u8 {
    match replay_all(rt, traced) {
        Ok(()) => 0,
        Err(fault) => {
            let words = fault.text();
            let _ = eprintln!(rt; "test_replay: {words}");
            FAULT
        }
    }
}

fn run(rt: &HostRuntime) -> io::Result<u8> {
    let words = words(rt)?;
    match task_word(&words) {
        "script" => do_script(rt, &words),
        "served" => serve(rt, &words),
        "why" => Ok(tell_whys(rt)),
        "asked" => {
            ask_contracts(rt)?;
            Ok(0)
        }
        task => Ok(run_replay(rt, task == "trace")),
    }
}

/// Says why configured services do not run.
fn tell_whys(rt: &HostRuntime) -> u8 {
    match answer_whys(rt, rt.alloc()) {
        Ok(()) => 0,
        Err(_) => FAULT,
    }
}

fn main(rt: HostRuntime) -> ExitCode {
    match run(&rt) {
        Ok(status) => ExitCode::from(status),
        Err(_) => ExitCode::from(FAULT),
    }
}
