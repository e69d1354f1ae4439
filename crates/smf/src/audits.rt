// Whether trails in files are safe: that of one script, or the chronicle of all servers of a database.
use crate::exports::write_out;
use smf_chronicle::{Breach, Chronicle, Entry, ReadFault, audit, first_link, read_lines};
use smf_lines::TextWriter;
use smf_program::{tell_no_input, tell_no_memory};
use smf_world::Item;
use std::alloc::{AllocError, Global};
use std::fs;

/// The status if what a file shows is not safe.
const UNSAFE: u8 = 1;

/// The status if a file cannot be read.
const UNREAD: u8 = 3;

/// What a chronicle tells.
#[derive(Clone, Copy)]
struct Counts {
    items: u64,
    boots: u64,
    lives: u64,
}

fn counts_of(entries: &[Entry]) -> Counts {
    let mut counts = Counts {
        items: 0,
        boots: 0,
        lives: 0,
    };
    for entry in entries {
        match entry {
            Entry::Happened(Item::Boot) => {
                counts.items = counts.items.saturating_add(1);
                counts.boots = counts.boots.saturating_add(1);
            }
            Entry::Happened(_) => counts.items = counts.items.saturating_add(1),
            Entry::Life => counts.lives = counts.lives.saturating_add(1),
            Entry::Row { .. } | Entry::Living { .. } => {}
        }
    }
    counts
}

/// What is said of a file that is safe: what it tells, which rules hold, and by which link the next file begins.
fn safe_text(alloc: Global, chronicle: &Chronicle) -> Result<String, AllocError> {
    let counts = counts_of(&chronicle.entries);
    let mut text = format!(in alloc;
        "{} items, {} boots, {} lives: one live start of each instance; states along the diagram; ",
        counts.items, counts.boots, counts.lives
    )?;
    text.push_str("held rows were committed; numbers once\n")?;
    if let Some(link) = &chronicle.last {
        let links = format!(in alloc; "links: whole, the last is {}\n", link.as_str())?;
        text.push_str(links.as_str())?;
    }
    Ok(text)
}

/// What is said of a line that breaks a rule. In a chronicle its link and its time are left out.
fn breach_text(
    alloc: Global,
    text: &str,
    breach: &Breach,
    is_linked: bool,
) -> Result<String, AllocError> {
    let line = text.lines().nth(breach.place).unwrap_or("");
    let told = if is_linked {
        line.splitn(3, ' ').nth(2).unwrap_or("")
    } else {
        line
    };
    let place = breach.place.saturating_add(1);
    let rule = breach.rule.text();
    format!(in alloc; "line {place}: {rule}: {told}\n")
}

/// Says why a text is not read. Gives the status of such a run.
fn tell_unread(rt: &HostRuntime, fault: ReadFault) -> u8 {
    let alloc = rt.alloc();
    match fault {
        ReadFault::Memory => tell_no_memory(&mut rt.stderr()),
        ReadFault::Unreadable(line) => {
            match format!(in alloc; "smf: line {line} cannot be read\n") {
                Ok(text) => {
                    let _told = rt.stderr().write_text(text.as_bytes());
                    UNREAD
                }
                Err(_) => tell_no_memory(&mut rt.stderr()),
            }
        }
        ReadFault::Unlinked(line) => {
            match format!(in alloc; "line {line}: not the link of the line before\n") {
                Ok(text) => UNSAFE.max(write_out(rt, text.as_bytes())),
                Err(_) => tell_no_memory(&mut rt.stderr()),
            }
        }
    }
}

/// What is said of a text, and the status.
fn verdict(alloc: Global, text: &str) -> Result<(String, u8), ReadFault> {
    let link = match first_link(text) {
        Some(link) => Some(String::from_str(alloc, link)?),
        None => None,
    };
    let is_linked = link.is_some();
    let chronicle = read_lines(alloc, link, text)?;
    match audit(alloc, &chronicle.entries)? {
        None => Ok((safe_text(alloc, &chronicle)?, 0)),
        Some(breach) => Ok((breach_text(alloc, text, &breach, is_linked)?, UNSAFE)),
    }
}

/// Says whether what a file shows is safe, or which line is the first that is not. Gives the status.
pub(crate) fn audit_file(rt: &HostRuntime, path: &str) -> u8 {
    let Ok(text) = fs::read_to_string(rt, path) else {
        return tell_no_input(&mut rt.stderr());
    };
    match verdict(rt.alloc(), text.as_str()) {
        Ok((said, status)) => status.max(write_out(rt, said.as_bytes())),
        Err(fault) => tell_unread(rt, fault),
    }
}
