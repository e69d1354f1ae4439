//! A program for tests: it does lines over a store on disks in memory. One disk stops at its first call, then at its
//! second, and so on, until none stops. Each time the disks crash, and the program opens the store again. The store has
//! to hold the value that the lines with a reply make, or that one line more makes. It says of the open and of each line
//! what it saw: no change, the values before it and after it, or one of both.
//! A line is one of svccfg, `svcadm` with its words, `launch NAME`, `boot`, or the message of a proposal.
//! Modules: `disks` (disks that stop, and what crashes leave of them), `picture` (what a database holds), `lines` (a
//! line done over a repository), `work` (what is done over a database); `session` (the same over disks), `stops` (all
//! stops in turn).
#![tactic(auto)]

mod disks;
mod lines;
mod picture;
mod session;
mod stops;
mod work;

use crate::disks::Image;
use crate::session::{Fault, image_of};
use crate::stops::{Seen, stop_all};
use std::alloc::{AllocError, Global};
use std::process::ExitCode;
use std::{env, fs, io};

/// The status if something else was found.
const FOUND: u8 = 1;

/// The status if a run that is not stopped does not end.
const FAULT: u8 = 3;

/// The lines and, before them, statements that make the store.
#[derive(Drop)]
struct Texts {
    lines: String,
    first: String,
}

fn texts_of(rt: &HostRuntime, words: &[String]) -> io::Result<Texts> {
    let empty = String::new(rt.alloc());
    match words {
        [_, lines] => Ok(Texts {
            lines: fs::read_to_string(rt, lines.as_str())?,
            first: empty,
        }),
        [_, lines, first] => Ok(Texts {
            lines: fs::read_to_string(rt, lines.as_str())?,
            first: fs::read_to_string(rt, first.as_str())?,
        }),
        _ => Ok(Texts {
            lines: io::read_to_string(rt.alloc(), rt.reader())?,
            first: empty,
        }),
    }
}

/// The lines of a text but for comments.
fn lines_of(alloc: Global, text: &str) -> Result<Vec<&str>, AllocError> {
    let mut lines = Vec::new(alloc);
    for line in text.lines() {
        if !line.starts_with('#') {
            lines.push(line)?;
        }
    }
    Ok(lines)
}

/// Stops these lines at each call.
fn stop_lines(rt: &HostRuntime, first: &str, lines: &[&str]) -> Result<Vec<Seen>, Fault> {
    let alloc = rt.alloc();
    let image: Image = image_of(alloc, first)?;
    stop_all(alloc, &image, lines)
}

/// Says what was seen of the open and of each line.
fn tell_seen(rt: &HostRuntime, seen: &[Seen], lines: &[&str]) -> io::Result<()> {
    let mut what = "open";
    let mut lines = lines.iter();
    for one in seen {
        let seen = one.as_str();
        println!(rt; "{seen}: {what}")?;
        what = lines.next().copied().unwrap_or("");
    }
    Ok(())
}

/// Says what was found, and gives the status.
fn tell(rt: &HostRuntime, found: Result<Vec<Seen>, Fault>, lines: &[&str]) -> io::Result<u8> {
    match found {
        Ok(seen) => {
            tell_seen(rt, &seen, lines)?;
            Ok(0)
        }
        Err(Fault::Found(stop)) => {
            println!(rt; "{stop}")?;
            Ok(FOUND)
        }
        Err(Fault::Undone) => {
            eprintln!(rt; "test_disks: a run that is not stopped does not end")?;
            Ok(FAULT)
        }
    }
}

fn run(rt: &HostRuntime) -> io::Result<u8> {
    let words: Vec<String> = env::args(rt)?.collect(rt.alloc())?;
    let texts = texts_of(rt, words.as_slice())?;
    let lines = lines_of(rt.alloc(), texts.lines.as_str())?;
    let found = stop_lines(rt, texts.first.as_str(), &lines);
    tell(rt, found, &lines)
}

fn main(rt: HostRuntime) -> ExitCode {
    match run(&rt) {
        Ok(status) => ExitCode::from(status),
        Err(_) => ExitCode::from(FAULT),
    }
}
