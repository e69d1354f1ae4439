//! The knowledge of a restarter, a line for each part.

use crate::inputs::page::Page;
use smf_contract::Method;
use smf_fmri::Ordered;
use smf_method::{Timeout, method_text};
use smf_restarter::{
    After, Drain, Ending, KnowledgeChange, KnownInstance, KnownRun, Owed, Phase, Restarter, Stage,
};
use smf_state::Row;
use std::alloc::{AllocError, Global};

/// A restarter, with its last serial and its runs as its changes tell them.
#[derive(Drop)]
pub(crate) struct Kept {
    pub(crate) restarter: Restarter,
    serial: u64,
    runs: Ordered<KnownRun>,
}

impl Kept {
    pub(crate) fn new(alloc: Global, restarter: Restarter) -> Kept {
        Kept {
            restarter,
            serial: 0,
            runs: Ordered::new(alloc),
        }
    }

    /// Notes a change beside the restarter.
    fn note(&mut self, change: &KnowledgeChange) -> Result<(), AllocError> {
        if let Some(serial) = change.serial {
            self.serial = serial.get();
        }
        for run in change.listed.as_slice() {
            self.runs.put(*run)?;
        }
        if let Some(run) = change.run {
            self.runs.put(run)?;
        }
        Ok(())
    }

    pub(crate) fn change(&mut self, change: KnowledgeChange) -> Result<(), AllocError> {
        self.note(&change)?;
        let listed = change.listed.as_slice();
        self.restarter.reserve(change.put.len(), listed.len() + 1)?;
        self.restarter.change(change);
        Ok(())
    }
}

fn stage_text(stage: Stage) -> &'static str {
    match stage {
        Stage::Joining => "joining",
        Stage::Listing => "listing",
        Stage::Up => "up",
    }
}

fn drain_text(drain: Drain) -> &'static str {
    match drain {
        Drain::Nothing => "none",
        Drain::Live => "live",
        Drain::Side => "side",
        Drain::Both => "both",
    }
}

fn put_timeout(page: &mut Page, timeout: Option<Timeout>) {
    if let Some(timeout) = timeout {
        let seconds = timeout.seconds();
        write!(page, ", timeout {seconds}");
    }
}

fn put_owed(page: &mut Page, owed: &Owed) {
    let (method, run, revision) = (method_text(owed.method), owed.run, owed.revision);
    let command = &owed.call.command;
    write!(page, "owes {method} {run} of {revision} {command}");
    put_timeout(page, owed.call.timeout);
}

fn put_running(page: &mut Page, method: Method, run: u64, timeout: Option<Timeout>) {
    let method = method_text(method);
    write!(page, "runs {method} {run}");
    put_timeout(page, timeout);
}

fn put_ending(page: &mut Page, ending: &Ending) {
    let (to, failed, cause) = (ending.to, ending.failed, ending.cause);
    let drain = drain_text(ending.drain);
    write!(page, "ends {to} failed {failed} {cause} drains {drain}");
}

fn put_after(page: &mut Page, after: &After) {
    match after {
        After::Idle => page.put("idle"),
        After::Owes(owed) => put_owed(page, owed),
        After::Ending(ending) => put_ending(page, ending),
    }
}

fn put_phase(page: &mut Page, phase: &Phase) {
    match phase {
        Phase::Idle => page.put("idle"),
        Phase::Waiting { proposal, after } => {
            let serial = proposal.serial;
            write!(page, "awaits {serial}, then ");
            put_after(page, after);
        }
        Phase::Owes(owed) => put_owed(page, owed),
        Phase::Running(running) => {
            put_running(page, running.method, running.run, running.timeout);
        }
        Phase::Ending(ending) => put_ending(page, ending),
    }
}

fn put_row(alloc: Global, page: &mut Page, row: &Row) {
    if let Some(text) = page.value_or_no_memory(row.print(alloc)) {
        page.put(text.as_str());
    }
}

fn put_instance(alloc: Global, page: &mut Page, known: &KnownInstance) {
    let (instance, name) = (known.instance, known.name.print());
    write!(page, "    instance {instance} {name}\n");
    write!(page, "    row {instance} ");
    put_row(alloc, page, &known.row);
    write!(page, "\n    phase {instance} ");
    put_phase(page, &known.phase);
    page.put("\n");
}

fn put_run(page: &mut Page, known: &KnownRun) {
    let (instance, run, contract) = (known.key.instance, known.key.run, known.contract.get());
    write!(page, "    run {instance} {run} contract {contract}");
    page.put_if(known.held, " held");
    page.put_if(known.empty, " empty");
    page.put_if(known.failed, " failed");
    page.put_if(known.ended, " ended");
    page.put("\n");
}

/// Puts what is known.
pub(crate) fn put_known(alloc: Global, page: &mut Page, kept: &Kept) {
    let (stage, serial) = (stage_text(kept.restarter.stage()), kept.serial);
    let rest = if kept.restarter.is_at_rest() {
        "at rest"
    } else {
        "not at rest"
    };
    write!(page, "    stage {stage}\n    serial {serial}\n    {rest}\n");
    for known in kept.restarter.instances() {
        put_instance(alloc, page, known);
    }
    for run in kept.runs.as_slice() {
        put_run(page, run);
    }
}

fn has_line(text: &str, line: &str) -> bool {
    for other in text.split('\n') {
        if other == line {
            return true;
        }
    }
    false
}

/// Puts the lines of what is known now that were no part of what was known before.
pub(crate) fn put_news(page: &mut Page, before: &str, now: &str) {
    for line in now.split('\n') {
        if !has_line(before, line) {
            page.put(line);
            page.put("\n");
        }
    }
}
