//! `test_calls`: reads lines that each name a call of the pure crates with its arguments, and prints what it answers.
//! With the word `inputs` it reads inputs of a restarter.
//! Modules: `families` (the family of a line). The families are `names`, `rows`, `steps`, `fields`, `values`,
//! `groups`, `snapshots`, `contracts`, `cookies`, `methods`, `dependencies`, `config`, `views`, `refusals`,
//! `repository` and `lines` (messages). They share `calls`, `events`, `bytes`, `words` and `answers` (the text of an
//! answer). The other form is `inputs`.
#![tactic(auto)]

mod answers;
mod bytes;
mod calls;
mod config;
mod contracts;
mod cookies;
mod dependencies;
mod events;
mod families;
mod fields;
mod groups;
mod inputs;
mod lines;
mod methods;
mod names;
mod refusals;
mod repository;
mod rows;
mod snapshots;
mod steps;
mod values;
mod views;
mod words;

use crate::answers::Answer;
use crate::families::{Session, answer};
use crate::inputs::answer_inputs;
use std::alloc::Global;
use std::io::{BufRead, BufReader};
use std::process::ExitCode;
use std::{env, io};

/// The status of a run that was ended by a fault.
const FAULT: u8 = 3;

/// Why the program ends before its input does.
#[derive(Clone, Copy)]
enum RunFault {
    Memory,
    Input,
    Output,
}

fn fault_text(fault: RunFault) -> &'static str {
    match fault {
        RunFault::Memory => "no memory",
        RunFault::Input => "input failed",
        RunFault::Output => "output failed",
    }
}

fn print(rt: &HostRuntime, text: String) -> Result<(), RunFault> {
    match rt.println(text) {
        Ok(()) => Ok(()),
        Err(_) => Err(RunFault::Output),
    }
}

/// Prints the answer of a line: none of a blank one or a comment.
fn answer_line(rt: &HostRuntime, session: &mut Session, line: &str) -> Result<(), RunFault> {
    if line.is_empty() || line.starts_with('#') {
        return Ok(());
    }
    let mut out = Answer::new(rt.alloc());
    answer(rt.alloc(), session, &mut out, line);
    match out.into_text() {
        Some(text) => print(rt, text),
        None => Err(RunFault::Memory),
    }
}

fn answer_read(
    rt: &HostRuntime,
    session: &mut Session,
    line: io::Result<String>,
) -> Result<(), RunFault> {
    match line {
        Ok(line) => answer_line(rt, session, line.as_str()),
        Err(_) => Err(RunFault::Input),
    }
}

/// Answers every line of standard input.
fn answer_all(rt: &HostRuntime, alloc: Global, session: &mut Session) -> Result<(), RunFault> {
    match BufReader::new(alloc, rt.reader()) {
        Ok(reader) => {
            for line in reader.lines(alloc) {
                answer_read(rt, session, line)?;
            }
            Ok(())
        }
        Err(_) => Err(RunFault::Memory),
    }
}

/// The first word after the program's name; an empty one if there is none.
fn form_of(rt: &HostRuntime, alloc: Global) -> Result<String, RunFault> {
    let Ok(words) = env::args(rt) else {
        return Err(RunFault::Memory);
    };
    for (place, word) in words.enumerate() {
        if place == 1 {
            return Ok(word);
        }
    }
    Ok(String::new(alloc))
}

fn run(rt: &HostRuntime, alloc: Global) -> Result<(), RunFault> {
    let form = form_of(rt, alloc)?;
    match form.as_str() {
        "inputs" => answer_inputs(rt, alloc).map_err(|_| RunFault::Memory),
        _ => answer_all(rt, alloc, &mut Session::new(alloc)),
    }
}

fn main(rt: HostRuntime) -> ExitCode {
    match run(&rt, rt.alloc()) {
        Ok(()) => ExitCode::from(0),
        Err(fault) => {
            let fault = fault_text(fault);
            let _ = eprintln!(rt; "test_calls: {fault}");
            ExitCode::from(FAULT)
        }
    }
}
