//! Lines that give a restarter its inputs. Each is printed again with what the restarter answers and knows.
//! `restarter NAME ACTOR LAUNCH` begins anew. A line of an input brings it further. `? INPUT` tries an input after
//! those, and is forgotten then. `show` prints what it knows.
//! Modules: `input` and `contracts` (what lines read as), `replies` and `knowledge` (what is printed), `page`.

mod contracts;
mod input;
mod knowledge;
mod page;
mod replies;

use crate::inputs::input::reply_to;
use crate::inputs::knowledge::{Kept, put_known, put_news};
use crate::inputs::page::Page;
use crate::inputs::replies::put_reply;
use crate::words::split_two;
use smf_fmri::{InstanceFmri, read_count};
use smf_restarter::{KnowledgeChange, Reply, Restarter};
use std::alloc::{AllocError, Global};
use std::io::{BufRead, BufReader};

/// A restarter that begins, and the lines of the inputs that bring it further.
#[derive(Drop)]
struct Begin {
    name: InstanceFmri,
    actor: u64,
    launch: u64,
    lines: Vec<String>,
}

/// `NAME ACTOR LAUNCH`.
fn read_begin(alloc: Global, text: &str) -> Result<Option<Begin>, AllocError> {
    let (name, actor, launch) = split_two(text);
    let Some(actor) = read_count(actor) else {
        return Ok(None);
    };
    let Some(launch) = read_count(launch) else {
        return Ok(None);
    };
    let Some(name) = InstanceFmri::read_short(alloc, name)? else {
        return Ok(None);
    };
    Ok(Some(Begin {
        name,
        actor,
        launch,
        lines: Vec::new(alloc),
    }))
}

fn change_in(reply: Reply) -> KnowledgeChange {
    reply.change
}

/// Gives a restarter an input, and puts what it answers if it is asked for; whether the line is an input.
fn give(
    alloc: Global,
    page: &mut Page,
    kept: &mut Kept,
    line: &str,
    is_shown: bool,
) -> Result<bool, AllocError> {
    match reply_to(alloc, &mut kept.restarter, line)? {
        None => Ok(false),
        Some(reply) => {
            if is_shown {
                put_reply(alloc, page, &reply);
            }
            kept.change(change_in(reply))?;
            Ok(true)
        }
    }
}

/// The restarter as the lines bring it. A line that is no input is told.
fn bring(alloc: Global, page: &mut Page, begin: &Begin) -> Result<Kept, AllocError> {
    let name = begin.name.clone()?;
    let restarter = Restarter::new(alloc, name, begin.actor, begin.launch);
    let mut kept = Kept::new(alloc, restarter);
    for line in begin.lines.as_slice() {
        let line = line.as_str();
        if !give(alloc, page, &mut kept, line, false)? {
            write!(page, "    bad line: {line}\n");
        }
    }
    Ok(kept)
}

/// Puts what is answered to an input, and what is known otherwise by it.
fn put_tried(alloc: Global, page: &mut Page, begin: &Begin, line: &str) -> Result<(), AllocError> {
    let mut kept = bring(alloc, page, begin)?;
    let mut answer = Page::new(alloc);
    let mut before = Page::new(alloc);
    let mut now = Page::new(alloc);
    put_known(alloc, &mut before, &kept);
    if !give(alloc, &mut answer, &mut kept, line, true)? {
        answer.put("    bad line\n");
    }
    put_known(alloc, &mut now, &kept);
    put_news(&mut answer, before.as_str(), now.as_str());
    let answer = answer.into_text()?;
    page.put(answer.as_str());
    page.put_if(answer.is_empty(), "    nothing\n");
    Ok(())
}

/// Puts the answer to a line, and keeps what it says.
fn put_line(
    alloc: Global,
    page: &mut Page,
    begin: &mut Option<Begin>,
    line: &str,
) -> Result<(), AllocError> {
    if line.is_empty() || line.starts_with('#') {
        return Ok(());
    }
    if let Some(text) = line.strip_prefix("restarter ") {
        *begin = read_begin(alloc, text)?;
        page.put_if(begin.is_none(), "    bad line\n");
        return Ok(());
    }
    let Some(begin) = begin else {
        page.put("    bad line\n");
        return Ok(());
    };
    if line == "show" {
        let kept = bring(alloc, page, begin)?;
        put_known(alloc, page, &kept);
        Ok(())
    } else if let Some(input) = line.strip_prefix("? ") {
        put_tried(alloc, page, begin, input)
    } else {
        begin.lines.push(String::from_str(alloc, line)?)?;
        Ok(())
    }
}

fn answer(
    rt: &HostRuntime,
    alloc: Global,
    begin: &mut Option<Begin>,
    line: &str,
) -> Result<(), AllocError> {
    let mut page = Page::new(alloc);
    write!(page, "{line}\n");
    put_line(alloc, &mut page, begin, line)?;
    let text = page.into_text()?;
    let text = text.as_str();
    let _ = print!(rt; "{text}");
    Ok(())
}

/// Answers every line of standard input.
pub(crate) fn answer_inputs(rt: &HostRuntime, alloc: Global) -> Result<(), AllocError> {
    let mut begin = None;
    let Ok(reader) = BufReader::new(alloc, rt.reader()) else {
        return Err(AllocError);
    };
    for line in reader.lines(alloc) {
        let Ok(line) = line else {
            return Err(AllocError);
        };
        answer(rt, alloc, &mut begin, line.as_str())?;
    }
    Ok(())
}
