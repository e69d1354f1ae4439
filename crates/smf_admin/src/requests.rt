ghost use Rattle.std.specs.Prelude.{◌≡◌, IfOk, Some, map};
ghost use Rattle.smf_admin.specs.Words.{rows_in};
ghost use Rattle.smf_admin.specs.Requests.{admin_words, asked_all, asked_by, asked_of, command_of, commands_of, edit_of, flags_of, is_taken, mark_of, names_in, read_behind, read_rows, read_words, verb_of};

use crate::instances::{Found, found_of};
use crate::words::{is_set, operands_of, svcadm_matches, words_as_str};
use clap::ArgMatches;
use smf_fmri::{Items, Table, Text};
use smf_model::{Edit, InstanceName, Mark};
use std::alloc::{AllocError, Global};

/// The command that svcadm carries out on each instance that it is given.
#[derive(Clone, Copy, PartialEq, Eq)]
pub enum AdminCommand {
    /// A temporary one lasts until the next boot.
    Enable { temporary: bool },
    Disable { temporary: bool },
    Restart,
    Refresh,
    Clear,
    Mark(Mark),
}

/// A command of svcadm, with the words that stand for instances, one or more.
#[derive(Drop)]
pub struct AdminWords {
    pub command: AdminCommand,
    pub names: Items<Text>,
}

/// The answer to one word that stands for an instance.
#[derive(Drop)]
pub enum Asked {
    Edit(Edit),
    /// The word matches no instance.
    NoMatch(Text),
    /// It matches so many, two or more.
    Several(Text, usize),
}

/// The first word of svcadm.
#[derive(Clone, Copy)]
pub(crate) enum Verb {
    Enable,
    Disable,
    Restart,
    Refresh,
    Clear,
    Mark,
}

/// The flags after it: `-I` and `-t`.
#[derive(Clone, Copy)]
pub(crate) struct AdminFlags {
    pub(crate) at_once: bool,
    pub(crate) temporary: bool,
}

fn verb_of(word: &str) -> Option<Verb>
    ensures { result ≡ verb_of word.now }
{
    match word {
        "enable" => Some(Verb::Enable),
        "disable" => Some(Verb::Disable),
        "restart" => Some(Verb::Restart),
        "refresh" => Some(Verb::Refresh),
        "clear" => Some(Verb::Clear),
        "mark" => Some(Verb::Mark),
        _ => None,
    }
}

/// True if a command takes these flags.
fn is_taken(verb: Verb, flags: AdminFlags) -> bool
    ensures { result ≡ is_taken verb flags }
{
    match verb {
        Verb::Mark => true,
        Verb::Enable | Verb::Disable => !flags.at_once,
        Verb::Restart | Verb::Refresh | Verb::Clear => !flags.at_once && !flags.temporary,
    }
}

/// The mark of a state's name. Degraded is never at once.
fn mark_of(state: &str, at_once: bool) -> Option<Mark>
    ensures { result ≡ mark_of state.now at_once }
{
    match state {
        "degraded" => Some(Mark::Degraded),
        "maintenance" if at_once => Some(Mark::MaintenanceNow),
        "maintenance" => Some(Mark::Maintenance),
        _ => None,
    }
}

/// The command with its flags, or none if `mark` has no first operand that names a state.
fn command_of(verb: Verb, flags: AdminFlags, operands: &[Text]) -> Option<AdminCommand>
    ensures { result ≡ command_of verb flags operands.now }
{
    let temporary = flags.temporary;
    match verb {
        Verb::Enable => Some(AdminCommand::Enable { temporary }),
        Verb::Disable => Some(AdminCommand::Disable { temporary }),
        Verb::Restart => Some(AdminCommand::Restart),
        Verb::Refresh => Some(AdminCommand::Refresh),
        Verb::Clear => Some(AdminCommand::Clear),
        Verb::Mark => {
            let state = operands.first()?;
            let mark = mark_of(state.as_str(), flags.at_once)?;
            Some(AdminCommand::Mark(mark))
        }
    }
}

/// The operands that stand for instances: all of them, or, for `mark`, those after the first.
fn names_in(verb: Verb, operands: &[Text]) -> &[Text]
    ensures { result.now ≡ names_in verb operands.entry.now }
{
    match (verb, operands) {
        (Verb::Mark, [_, names @ ..]) => names,
        _ => operands,
    }
}

/// Copies of words.
pub fn copies(alloc: Global, words: &[Text]) -> Result<Items<Text>, AllocError>
    ensures { IfOk result (λ all. all ≡ words.now) }
{
    let mut all = Items::new(alloc);
    for word in words {
        all.push(word.clone()?)?;
    }
    Ok(all)
}

fn admin_words(
    alloc: Global,
    verb: Verb,
    flags: AdminFlags,
    operands: &[Text],
) -> Result<Option<AdminWords>, AllocError>
    ensures { IfOk result (λ read. read ≡ admin_words verb flags operands.now) }
{
    let Some(command) = command_of(verb, flags, operands) else {
        return Ok(None);
    };
    let names = names_in(verb, operands);
    if names.is_empty() || !is_taken(verb, flags) {
        return Ok(None);
    }
    let names = copies(alloc, names)?;
    Ok(Some(AdminWords { command, names }))
}

fn flags_of(matches: &ArgMatches<'_>) -> AdminFlags
    ensures { result ≡ flags_of (rows_in matches.now) }
{
    AdminFlags {
        at_once: is_set(matches, "I"),
        temporary: is_set(matches, "t"),
    }
}

fn read_matches(
    alloc: Global,
    verb: Verb,
    matches: &ArgMatches<'_>,
) -> Result<Option<AdminWords>, AllocError>
    ensures { IfOk result (λ read. read ≡ read_rows verb (Some (rows_in matches.now))) }
{
    let operands = operands_of(alloc, matches)?;
    admin_words(alloc, verb, flags_of(matches), operands.as_slice())
}

/// Reads the words after a command.
fn read_behind(alloc: Global, verb: Verb, words: &[Text]) -> Result<Option<AdminWords>, AllocError>
    ensures { IfOk result (λ read. read ≡ read_behind verb words.now) }
{
    let words = words_as_str(alloc, words)?;
    match svcadm_matches(alloc, words.as_slice())? {
        None => Ok(None),
        Some(matches) => read_matches(alloc, verb, &matches),
    }
}

/// Reads the words after svcadm, as svcadm(1M) has them. `None` is bad usage.
#[tactic(auto, unfolding(crate::specs::Requests::read_words))]
pub fn read_words(alloc: Global, words: &[Text]) -> Result<Option<AdminWords>, AllocError>
    ensures { IfOk result (λ read. read ≡ read_words words.now) }
{
    let [word, behind @ ..] = words else {
        return Ok(None);
    };
    match verb_of(word.as_str()) {
        None => Ok(None),
        Some(verb) => read_behind(alloc, verb, behind),
    }
}

/// The edit that a command asks of an instance.
fn edit_of(command: AdminCommand, instance: u64) -> Edit
    ensures { result ≡ edit_of command instance }
{
    match command {
        AdminCommand::Enable { temporary } => Edit::Enable {
            instance,
            enabled: true,
            temporary,
        },
        AdminCommand::Disable { temporary } => Edit::Enable {
            instance,
            enabled: false,
            temporary,
        },
        AdminCommand::Restart => Edit::Restart(instance),
        AdminCommand::Refresh => Edit::Refresh(instance),
        AdminCommand::Clear => Edit::Clear(instance),
        AdminCommand::Mark(mark) => Edit::Mark { instance, mark },
    }
}

fn asked_by(command: AdminCommand, found: Found) -> Asked
    ensures { result ≡ asked_by command found }
{
    match found {
        Found::One(instance) => Asked::Edit(edit_of(command, instance)),
        Found::NoMatch(word) => Asked::NoMatch(word),
        Found::Several(word, count) => Asked::Several(word, count),
    }
}

fn asked_each(
    alloc: Global,
    command: AdminCommand,
    words: &[Text],
    view: &Table<InstanceName>,
) -> Result<Items<Asked>, AllocError>
    ensures { IfOk result (λ all. all ≡ map (asked_of view.now.items command) words.now) }
{
    let mut all = Items::new(alloc);
    for word in words {
        all.push(asked_by(command, found_of(alloc, view, word)?))?;
    }
    Ok(all)
}

fn asked_all(
    alloc: Global,
    read: &AdminWords,
    view: &Table<InstanceName>,
) -> Result<Items<Asked>, AllocError>
    ensures { IfOk result (λ all. all ≡ asked_all view.now.items read.now) }
{
    asked_each(alloc, read.command, read.names.as_slice(), view)
}

/// The answers to the words after svcadm that stand for instances, in their order. `None` is bad usage.
#[tactic(auto, unfolding(crate::specs::Requests::commands_of))]
pub fn commands_of(
    alloc: Global,
    words: &[Text],
    view: &Table<InstanceName>,
) -> Result<Option<Items<Asked>>, AllocError>
    ensures { IfOk result (λ all. all ≡ commands_of view.now.items words.now) }
{
    match read_words(alloc, words)? {
        None => Ok(None),
        Some(read) => Ok(Some(asked_all(alloc, &read, view)?)),
    }
}
