//! A script on standard input over a repository in memory, with children that a contract table simulates. One call
//! fails. A number names a call of the children. After `read` it names a read of standard input, and after `write` a
//! write of a text. After `interrupted-read` and `interrupted-write` that call is interrupted. After `commit` it names a
//! write of the journal.

use crate::failures::FailingKids;
use crate::journal::FailingJournal;
use crate::streams::{Calls, FailingReader, FailingWriter};
use smf_edge::Kids;
use smf_lines::{LineReader, NotedReader, ReadFault, TextWriter};
use smf_model::Plain;
use smf_node::Node;
use smf_script::{ScriptFault, end_all, run_script};
use std::alloc::Global;
use std::io::{self, BufReader, ErrorKind};

/// The status if a fault ended the script.
const FAULT: u8 = 3;

/// Which call fails, by its number among those of its kind; 0 stands for none.
#[derive(Clone, Copy)]
struct Plan {
    children: u64,
    reads: u64,
    reads_fail: ErrorKind,
    writes: u64,
    writes_fail: ErrorKind,
    commits: u64,
}

/// No call fails.
fn quiet() -> Plan {
    Plan {
        children: 0,
        reads: 0,
        reads_fail: ErrorKind::BrokenPipe,
        writes: 0,
        writes_fail: ErrorKind::BrokenPipe,
        commits: 0,
    }
}

/// A call of the kind that a word names.
fn plan_of(word: &str, call: u64) -> Plan {
    match word {
        "read" => Plan {
            reads: call,
            ..quiet()
        },
        "interrupted-read" => Plan {
            reads: call,
            reads_fail: ErrorKind::Interrupted,
            ..quiet()
        },
        "write" => Plan {
            writes: call,
            ..quiet()
        },
        "interrupted-write" => Plan {
            writes: call,
            writes_fail: ErrorKind::Interrupted,
            ..quiet()
        },
        "commit" => Plan {
            commits: call,
            ..quiet()
        },
        _ => Plan {
            children: call,
            ..quiet()
        },
    }
}

/// Words that name no call let none fail.
fn read_plan(words: &[String]) -> Plan {
    match words {
        [_, _, call] => plan_of("children", call.parse().unwrap_or(0)),
        [_, _, word, call] => plan_of(word.as_str(), call.parse().unwrap_or(0)),
        _ => quiet(),
    }
}

/// How a script was ended.
fn end_reason(fault: &ScriptFault) -> &'static str {
    match fault {
        ScriptFault::Node(_) => "node failed",
        ScriptFault::Lines(ReadFault::Memory) => "no memory for a line",
        ScriptFault::Lines(ReadFault::Input(_)) => "input failed",
        ScriptFault::Lines(ReadFault::TooManyLines(_)) => "too many lines",
        ScriptFault::Output(_) => "output failed",
    }
}

/// Does the script, and gives back its status, or how it was ended.
fn run_over<R: LineReader, W: TextWriter, K: Kids>(
    alloc: Global,
    reader: &mut R,
    writer: &mut W,
    kids: &mut K,
    commits: u64,
) -> Result<u8, &'static str> {
    let journal = FailingJournal::new(commits);
    let Ok(mut node) = Node::new(alloc, Plain::new(alloc, journal)) else {
        return Err("no node");
    };
    let end = run_script(alloc, reader, writer, &mut node, kids);
    let _left = end_all(kids);
    match end {
        Ok(status) => Ok(status),
        Err(fault) => Err(end_reason(&fault)),
    }
}

/// Does the script with the call failing that the words name, and gives back its status.
pub(crate) fn do_script(rt: &HostRuntime, words: &[String]) -> io::Result<u8> {
    let alloc = rt.alloc();
    let plan = read_plan(words);
    let reads = Calls::new(plan.reads, plan.reads_fail);
    let writes = Calls::new(plan.writes, plan.writes_fail);
    let input = FailingReader::new(rt.reader(), reads);
    let mut reader = NotedReader::new(BufReader::new(alloc, input)?);
    let mut writer = FailingWriter::new(io::writer(rt), writes);
    let mut kids = FailingKids::new(alloc, plan.children);
    let end = run_over(alloc, &mut reader, &mut writer, &mut kids, plan.commits);
    if kids.waits() {
        let _ = eprintln!(rt; "test_replay: no call failed");
    }
    match end {
        Ok(status) => Ok(status),
        Err(why) => {
            let _ = eprintln!(rt; "test_replay: {why}");
            Ok(FAULT)
        }
    }
}
