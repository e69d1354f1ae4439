ghost use Rattle.std.specs.Prelude.{◌≡◌, IfOk, IsTrue, false, map};
ghost use Rattle.clap.specs.Words.{app_of, is_simple, is_simple_and_free, rule_of};
ghost use Rattle.smf_admin.specs.Words.{flag, is_set, no_flags, operands, operands_of, clap_matches, rows_if, rows_in, svcadm_app, svcs_app};

use clap::error::ErrorKind;
use clap::{Arg, ArgAction, ArgMatches, Command, Error};
use smf_fmri::{Items, Text};
use std::alloc::{AllocError, Global};

/// A flag of one letter.
fn flag<'a>(alloc: Global, id: &'a str, letter: char) -> Arg<'a>
    ensures rule { rule_of result ≡ flag id.entry.now letter }
    ensures local { result.global ≡ false }
{
    Arg::new(alloc, id).short(letter).action(ArgAction::SetTrue)
}

/// The words that are no flags.
fn operands<'a>(alloc: Global) -> Arg<'a>
    ensures rule { rule_of result ≡ operands }
    ensures local { result.global ≡ false }
{
    Arg::new(alloc, "operand").action(ArgAction::Append)
}

/// A command of which the first word is none of its own.
fn no_flags<'a>(alloc: Global, name: &'a str) -> Command<'a>
    ensures { app_of result ≡ no_flags name.entry.now }
{
    Command::new(alloc, name).no_binary_name(true)
}

fn svcadm_command<'a>(alloc: Global) -> Result<Command<'a>, AllocError>
    ensures { IfOk result (λ c. app_of c ≡ svcadm_app) }
{
    let command = no_flags(alloc, "svcadm")
        .arg(flag(alloc, "I", 'I'))?
        .arg(flag(alloc, "t", 't'))?
        .arg(operands(alloc))?;
    Ok(command)
}

fn svcs_command<'a>(alloc: Global) -> Result<Command<'a>, AllocError>
    ensures { IfOk result (λ c. app_of c ≡ svcs_app) }
{
    let command = no_flags(alloc, "svcs")
        .arg(flag(alloc, "H", 'H'))?
        .arg(flag(alloc, "a", 'a'))?
        .arg(flag(alloc, "d", 'd'))?
        .arg(flag(alloc, "D", 'D'))?
        .arg(operands(alloc))?;
    Ok(command)
}

/// The matches that clap reads, or none if the command doesn't take the words. It takes none that ask for help.
fn clap_matches<'a>(
    command: Command<'a>,
    words: &'a [&'a str],
) -> Result<Option<ArgMatches<'a>>, AllocError>
    requires simple { IsTrue (is_simple (app_of command)) }
    requires free { IsTrue (is_simple_and_free (app_of command)) }
    ensures { IfOk result (λ m. rows_if m ≡ clap_matches (app_of command.entry) (map (λ w. w.now) words.entry.now)) }
{
    match command.try_get_matches_from(words) {
        Ok(matches) => Ok(Some(matches)),
        Err(error) if error.kind() == ErrorKind::OutOfMemory => Err(AllocError),
        Err(_) => Ok(None),
    }
}

/// Reads the words after a command of svcadm.
pub(crate) fn svcadm_matches<'a>(
    alloc: Global,
    words: &'a [&'a str],
) -> Result<Option<ArgMatches<'a>>, AllocError>
    ensures { IfOk result (λ m. rows_if m ≡ clap_matches svcadm_app (map (λ w. w.now) words.entry.now)) }
{
    let command = svcadm_command(alloc)?;
    clap_matches(command, words)
}

/// Reads the words after svcs.
pub(crate) fn svcs_matches<'a>(
    alloc: Global,
    words: &'a [&'a str],
) -> Result<Option<ArgMatches<'a>>, AllocError>
    ensures { IfOk result (λ m. rows_if m ≡ clap_matches svcs_app (map (λ w. w.now) words.entry.now)) }
{
    let command = svcs_command(alloc)?;
    clap_matches(command, words)
}

/// True if a flag stands among the words.
pub(crate) fn is_set(matches: &ArgMatches<'_>, id: &str) -> bool
    ensures { result ≡ is_set id.now (rows_in matches.now) }
{
    match matches.get_str(id) {
        Some(text) => text == "true",
        None => false,
    }
}

/// The words as clap takes them.
pub(crate) fn words_as_str<'a>(alloc: Global, words: &'a [Text]) -> Result<Vec<&'a str>, AllocError>
    ensures { IfOk result (λ all. map (λ w. w.now) all.items ≡ words.entry.now) }
{
    let mut all = Vec::new(alloc);
    for word in words {
        all.push(word.as_str())?;
    }
    Ok(all)
}

/// The words with memory of their own.
fn word_copies(alloc: Global, words: &[&str]) -> Result<Items<Text>, AllocError>
    ensures { IfOk result (λ all. all ≡ map (λ w. w.now) words.now) }
{
    let mut all = Items::new(alloc);
    for word in words {
        all.push(Text::copy_of(alloc, word)?)?;
    }
    Ok(all)
}

/// The words that are no flags, in their order.
pub(crate) fn operands_of(
    alloc: Global,
    matches: &ArgMatches<'_>,
) -> Result<Items<Text>, AllocError>
    ensures { IfOk result (λ all. all ≡ operands_of (rows_in matches.now)) }
{
    match matches.get_strs("operand") {
        None => Ok(Items::new(alloc)),
        Some(words) => word_copies(alloc, words),
    }
}
