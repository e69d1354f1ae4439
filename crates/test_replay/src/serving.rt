//! A server over a repository in memory and children that a contract table simulates. The lines of standard input are its
//! first request; each later one is the last line, as often as the second word says. After each request time passes a few
//! times, so that nothing is under way before the next. The last request shows the trail, of which the items are counted.

use smf_edge::TableKids;
use smf_model::{Journal, NoJournal, Plain};
use smf_script::{ScriptFault, fault_text};
use smf_server::{Life, Unborn, stay_over};
use smf_watch::{Desk, Ender, ItemCount, ServerInput, Term, Timer};
use std::alloc::Global;
use std::io::{self, BufReader, Read};
use std::time::Duration;

/// The status if a fault ended the server, or a request was not done.
const FAULT: u8 = 3;

/// How often time passes after a request.
const TICKS: u8 = 3;

/// Asks the same again and again.
#[derive(Drop)]
struct RepeatDesk<'a> {
    alloc: Global,
    /// The next request.
    next: &'a [u8],
    /// Each later one.
    again: &'a [u8],
    /// How many requests are left.
    left: u64,
    /// How often time passes before the next request.
    ticks: u8,
    /// How many requests were not done.
    failed: u64,
    /// How many lines the last reply had.
    shown: usize,
}

/// How many lines a text has.
fn line_count(text: &[u8]) -> usize {
    text.iter().filter(|byte| **byte == b'\n').count()
}

/// Bytes once more; the end if memory runs out.
fn request_of(alloc: Global, bytes: &[u8]) -> ServerInput {
    match Vec::from_slice(alloc, bytes) {
        Ok(request) => ServerInput::Request(request),
        Err(_) => ServerInput::End,
    }
}

impl Desk for RepeatDesk<'_> {
    ghost use Rattle.std.specs.Prelude.{None};

    ghost passed = { λ _. None };

    ghost leaves = { λ _ _ _. ⊥ };

    fn next(&mut self) -> ServerInput {
        if self.ticks > 0 {
            self.ticks -= 1;
            return ServerInput::Tick;
        }
        if self.left == 0 {
            return ServerInput::End;
        }
        self.left -= 1;
        self.ticks = TICKS;
        let request = request_of(self.alloc, self.next);
        self.next = if self.left == 1 {
            b"trail\n"
        } else {
            self.again
        };
        request
    }

    fn reply<J: Journal>(&mut self, _repository: &Plain<J>, text: &[u8], status: u8) -> bool {
        self.shown = line_count(text);
        if status != 0 {
            self.failed = self.failed.saturating_add(1);
        }
        true
    }

    fn tell(&mut self, _line: &str) {}

    fn pause(&mut self) {}
}

/// A clock that stands still, so no method takes too long.
#[derive(Drop)]
struct Stopped {}

impl Timer for Stopped {
    ghost says = { λ _ _. Unit {0} };

    fn now(&self) -> Duration {
        Duration::from_secs(0)
    }
}

/// Nobody ends contracts of the system.
#[derive(Drop)]
struct Nobody {}

impl Ender for Nobody {
    ghost use Rattle.std.specs.Prelude.{None};

    ghost told = { λ _. None };

    fn keep_by(&mut self, _terms: &[Term]) {}
}

/// The last line of a text, with its end.
fn last_line(text: &[u8]) -> &[u8] {
    for place in (1..text.len()).rev() {
        if text[place - 1] == b'\n' {
            let (_, last) = text.split_at(place);
            return last;
        }
    }
    text
}

/// Serves the requests, and tells what is left.
fn serve_all(rt: &HostRuntime, text: &[u8], count: u64) -> u8 {
    let alloc = rt.alloc();
    let mut desk = RepeatDesk {
        alloc,
        next: text,
        again: last_line(text),
        left: count.saturating_add(1),
        ticks: 0,
        failed: 0,
        shown: 0,
    };
    let mut told = ItemCount { items: 0 };
    let stayed = stay_over(
        alloc,
        &mut desk,
        &mut told,
        &Stopped {},
        &mut Nobody {},
        Plain::new(alloc, NoJournal {}),
        TableKids::new(alloc),
    );
    let (journal, kids) = match stayed {
        Ok(
            Life {
                how: _,
                left: _left,
                journal,
                kids,
            },
        ) => (journal, kids),
        Err(
            Unborn {
                fault,
                journal: _journal,
                kids: _kids,
            },
        ) => {
            let words = fault_text(&ScriptFault::Node(fault));
            let _ = eprintln!(rt; "{words}");
            return FAULT;
        }
    };
    let NoJournal {} = journal;
    let _kids: TableKids = kids;
    match desk.failed {
        0 => {
            let shown = desk.shown;
            let items = told.items;
            match println!(rt; "{shown} items are kept, {items} were told") {
                Ok(()) => 0,
                Err(_) => FAULT,
            }
        }
        failed => {
            let _ = eprintln!(rt; "test_replay: {failed} requests were not done");
            FAULT
        }
    }
}

/// Serves what standard input asks, so many times.
pub fn serve(rt: &HostRuntime, words: &[String]) -> io::Result<u8> {
    let mut reader = BufReader::new(rt.alloc(), rt.reader())?;
    let mut text: Vec<u8> = Vec::new(rt.alloc());
    let _count = reader.read_to_end(&mut text)?;
    let count = match words {
        [_, _, count] => count.parse().unwrap_or(1),
        _ => 1,
    };
    Ok(serve_all(rt, &text, count))
}
