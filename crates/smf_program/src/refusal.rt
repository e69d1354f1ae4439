ghost use Rattle.std.specs.Prelude.{◌≡◌, ◌++◌, IfErr, OnOk, option_map};
ghost use Rattle.std.specs.Io.KnownBytes.{Appends};
ghost use Rattle.std.specs.IoError.{error_kind};
ghost use Rattle.clap.specs.Words.{kind_of};
ghost use Rattle.smf_program.specs.Refusals.{IsHelped, IsOfKind, IsRefused, IsUsageTold, heading, refusal_of_words, unknown_version, version_text};

use clap::Error;
use clap::error::ErrorKind;
use smf_lines::{TextWriter, tell};
use std::alloc::Global;
use std::io;

/// The status of help that was shown.
const DONE: u8 = 0;

/// The status for words that ask for no task.
const BAD_USAGE: u8 = 2;

/// Why words ask for no task.
#[derive(Drop)]
pub enum Refusal {
    /// They ask for help, which has this text.
    Help(String),
    /// They ask for the version of the program.
    Version,
    /// They are not taken, as this text says.
    BadUsage(String),
    /// One is no UTF-8.
    NoText,
    Memory,
}

/// Why the system's words could not be had.
pub fn refusal_of_words(fault: &io::Error) -> Refusal
    ensures { result ≡ refusal_of_words (error_kind fault.now) }
{
    match fault.kind() {
        io::ErrorKind::OutOfMemory => Refusal::Memory,
        _ => Refusal::NoText,
    }
}

/// Why clap read no task. No contract of clap says which text it gives.
pub(crate) fn refusal_of(alloc: Global, e: &Error) -> Refusal
    ensures { IsOfKind (kind_of e.now) result }
{
    if e.kind() == ErrorKind::OutOfMemory {
        return Refusal::Memory;
    }
    if e.kind() == ErrorKind::DisplayVersion {
        return Refusal::Version;
    }
    let Ok(text) = format!(in alloc; "{e}") else {
        return Refusal::Memory;
    };
    match e.kind() {
        ErrorKind::DisplayHelp => Refusal::Help(text),
        _ => Refusal::BadUsage(text),
    }
}

fn say_usage<E: TextWriter>(errors: &mut E, why: &str) -> io::Result<()>
    ensures ok { OnOk result (Appends (E.contents errors.old) (E.contents errors.new) (heading ++ why.now)) }
    ensures fault { IfErr result (λ e. E.write_fails e) }
{
    errors.write_text(b"smf: bad usage\n")?;
    errors.write_text(why.as_bytes())
}

fn tell_usage<E: TextWriter>(errors: &mut E, why: &str) -> u8
    ensures status { result ≡ 2 }
    ensures told { IsUsageTold E.write_fails (E.contents errors.old) (E.contents errors.new) why.now }
{
    match say_usage(errors, why) {
        Ok(()) => BAD_USAGE,
        Err(_) => BAD_USAGE,
    }
}

fn show_help<W: TextWriter, E: TextWriter>(writer: &mut W, errors: &mut E, text: &str) -> u8
    ensures { IsHelped W.write_fails E.write_fails
        (W.contents writer.old) (W.contents writer.new) (E.contents errors.old) (E.contents errors.new) text.now result }
{
    match writer.write_text(text.as_bytes()) {
        Ok(()) => DONE,
        Err(_) => tell(errors, "smf: output failed"),
    }
}

/// What is known of the version of no program.
fn unknown_version() -> &'static str
    ensures { result.now ≡ unknown_version }
{
    "smf: version unknown\n"
}

/// What a file says of the program, if it ends with the line of the program's own sum.
fn version_text<'a>(facts: &'a str, sum: Option<&str>) -> &'a str
    ensures { result.now ≡ version_text facts.now (option_map (λ s. s.now) sum.entry) }
{
    let Some(sum) = sum else {
        return unknown_version();
    };
    if facts.as_bytes().ends_with(sum.as_bytes()) {
        facts
    } else {
        unknown_version()
    }
}

/// Shows what a file says of the program, if it ends with the line of the program's own sum, and that the version is unknown
/// if not. The status is 0, or 3 for a fault.
pub fn show_version<W: TextWriter, E: TextWriter>(
    writer: &mut W,
    errors: &mut E,
    facts: &str,
    sum: Option<&str>,
) -> u8
    ensures { IsHelped W.write_fails E.write_fails
        (W.contents writer.old) (W.contents writer.new) (E.contents errors.old) (E.contents errors.new)
        (version_text facts.now (option_map (λ s. s.now) sum.entry)) result }
{
    show_help(writer, errors, version_text(facts, sum))
}

/// Shows help that was asked for, or says why there is no task. The status is 0 for help, 2 for bad usage, or 3 for a
/// fault. Of a version that is asked for it knows nothing.
pub fn refuse<W: TextWriter, E: TextWriter>(writer: &mut W, errors: &mut E, refusal: &Refusal) -> u8
    ensures { IsRefused W.write_fails E.write_fails
        (W.contents writer.old) (W.contents writer.new) (E.contents errors.old) (E.contents errors.new) refusal.now result }
{
    match refusal {
        Refusal::Help(text) => show_help(writer, errors, text.as_str()),
        Refusal::Version => show_help(writer, errors, unknown_version()),
        Refusal::BadUsage(why) => tell_usage(errors, why.as_str()),
        Refusal::NoText => tell_usage(errors, "error: a word is no UTF-8\n"),
        Refusal::Memory => tell(errors, "smf: no memory"),
    }
}
