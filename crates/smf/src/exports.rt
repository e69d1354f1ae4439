// What databases hold, as lines of svccfg.
ghost use Rattle.smf_model.specs.Laws.{IsNumbered};
ghost use Rattle.std.specs.Prelude.{IfOk};

use crate::files::is_site;
use crate::sites::lines_of_site;
use smf_admin::patterns_of;
use smf_export::{
    Choice, ExportFault, Undo, asked_by, difference_from, export, script_of, undo_from,
};
use smf_fmri::{Items, Text};
use smf_host::read_files;
use smf_lines::{NotedReader, TextWriter, tell};
use smf_model::Tables;
use smf_program::{Lead, tell_no_database, tell_no_input, tell_no_memory};
use smf_runs::{held_copy, missed_text, texts_of};
use std::alloc::{AllocError, Global};
use std::fs::File;
use std::io::BufReader;
use std::{io, slice};

/// The status if a line was refused, or a word means nothing.
pub(crate) const REFUSED: u8 = 1;

/// The status of a run that was ended by a fault.
pub(crate) const FAULT: u8 = 3;

/// What the database in a file holds. If that can't be said, it was told, and this is the status. No file is written.
pub(crate) fn held_in(rt: &HostRuntime, database: &str) -> Result<Tables, u8>
    ensures numbered { IfOk result IsNumbered }
{
    let mut errors = rt.stderr();
    let found = match read_files(rt, database) {
        Ok(found) => found,
        Err(fault) => return Err(tell_no_database(&mut errors, &fault)),
    };
    match held_copy(rt.alloc(), &found, &mut errors) {
        Ok(Some(held)) => Ok(held),
        Ok(None) => Err(FAULT),
        Err(fault) => Err(tell_no_database(&mut errors, &fault)),
    }
}

/// What a file of lines or of tables makes out of nothing. If a line is refused, that was told, and this is the status.
fn asked_in(rt: &HostRuntime, path: &str) -> io::Result<Result<Tables, u8>>
    ensures numbered { IfOk result (λ asked. IfOk asked IsNumbered) }
{
    let alloc = rt.alloc();
    let mut errors = rt.stderr();
    if is_site(path) {
        return Ok(match lines_of_site(rt, path) {
            Ok(lines) => asked_by(alloc, &mut lines.as_slice(), &mut errors),
            Err(status) => Err(status),
        });
    }
    let Ok(file) = File::open(rt, path) else {
        return Ok(Err(tell_no_input(&mut errors)));
    };
    let mut reader = NotedReader::new(BufReader::new(alloc, file)?);
    Ok(asked_by(alloc, &mut reader, &mut errors))
}

/// Tells why there are no lines. Gives the status of such a run.
fn tell_fault(rt: &HostRuntime, fault: &ExportFault) -> u8 {
    let mut errors = rt.stderr();
    match fault {
        ExportFault::Memory => tell_no_memory(&mut errors),
        ExportFault::Refused(why) => {
            let _told = errors.write_text(why.as_str().as_bytes());
            REFUSED
        }
        ExportFault::Unwritable => tell(&mut errors, "smf: no lines lead there"),
    }
}

/// Prints what was asked for.
pub(crate) fn write_out(rt: &HostRuntime, text: &[u8]) -> u8 {
    match io::writer(rt).write_text(text) {
        Ok(()) => 0,
        Err(_) => tell(&mut rt.stderr(), "smf: output failed"),
    }
}

/// Prints lines, or tells why there are none.
fn show_lines(rt: &HostRuntime, lines: Result<Text, ExportFault>) -> u8 {
    match lines {
        Ok(lines) => write_out(rt, lines.as_str().as_bytes()),
        Err(fault) => tell_fault(rt, &fault),
    }
}

/// The words that mean no service.
fn missed_of(alloc: Global, held: &Tables, words: &[Text]) -> Result<Items<Text>, AllocError> {
    let mut missed = Items::new(alloc);
    for word in words {
        let patterns = patterns_of(alloc, slice::from_ref(word))?;
        if Choice::matching(alloc, held, patterns.as_slice())?.is_none() {
            missed.push(word.clone()?)?;
        }
    }
    Ok(missed)
}

/// The services that words mean, all without words; or the lines about words that mean none.
fn choice_of(
    alloc: Global,
    held: &Tables,
    words: &[&str],
) -> Result<Result<Choice, Text>, AllocError> {
    if words.is_empty() {
        return Ok(Ok(Choice::All));
    }
    let words = texts_of(alloc, words)?;
    let missed = missed_of(alloc, held, words.as_slice())?;
    if !missed.as_slice().is_empty() {
        return Ok(Err(missed_text(alloc, missed.as_slice())?));
    }
    let patterns = patterns_of(alloc, words.as_slice())?;
    Ok(Ok(Choice::matching(alloc, held, patterns.as_slice())?))
}

/// Prints the lines that make what the database in a file holds: at the services that words mean, or at all without words.
/// If a word means none, that is told, and there are no lines.
pub(crate) fn export_over(rt: &HostRuntime, database: &str, words: &[&str]) -> u8 {
    let held = match held_in(rt, database) {
        Ok(held) => held,
        Err(status) => return status,
    };
    match choice_of(rt.alloc(), &held, words) {
        Ok(Ok(choice)) => show_lines(rt, export(rt.alloc(), &held, &choice)),
        Ok(Err(missed)) => {
            let _told = rt.stderr().write_text(missed.as_str().as_bytes());
            REFUSED
        }
        Err(_) => tell_no_memory(&mut rt.stderr()),
    }
}

/// The lines that lead from what is held to what is asked for, or those that take them back, as they are or as a script.
fn led(alloc: Global, held: &Tables, asked: &Tables, lead: Lead) -> Result<Vec<u8>, ExportFault>
    requires held { IsNumbered held.now }
    requires asked { IsNumbered asked.now }
{
    if lead.undo {
        let Undo { after, lines } = undo_from(alloc, held, asked, lead.exact)?;
        return form_of(alloc, &after, &lines, lead.script);
    }
    let lines = difference_from(alloc, held, asked, lead.exact)?;
    form_of(alloc, held, &lines, lead.script)
}

/// Lines as they are, or as a script.
fn form_of(
    alloc: Global,
    before: &Tables,
    lines: &Text,
    script: bool,
) -> Result<Vec<u8>, ExportFault>
    requires { IsNumbered before.now }
{
    if script {
        return script_of(alloc, before, lines.as_str());
    }
    Ok(Vec::from_slice(alloc, lines.as_str().as_bytes())?)
}

/// Prints the lines that lead from what the database in a file holds to what a file of lines makes: at the services that it
/// names, or at all.
pub(crate) fn diff_over(
    rt: &HostRuntime,
    database: &str,
    lines: &str,
    lead: Lead,
) -> io::Result<u8> {
    let asked = match asked_in(rt, lines)? {
        Ok(asked) => asked,
        Err(status) => return Ok(status),
    };
    let held = match held_in(rt, database) {
        Ok(held) => held,
        Err(status) => return Ok(status),
    };
    Ok(match led(rt.alloc(), &held, &asked, lead) {
        Ok(text) => write_out(rt, text.as_slice()),
        Err(fault) => tell_fault(rt, &fault),
    })
}
