ghost use Rattle.std.specs.Prelude.{◌≡◌, IfOk, Some};
ghost use Rattle.smf_admin.specs.Words.{rows_in};
ghost use Rattle.smf_admin.specs.ListOptions.{chosen_of, flags_of, needs_bodies, options_of, options_with, plain_of, read_rows, when_named};

use crate::words::{is_set, operands_of, svcs_matches, words_as_str};
use clap::ArgMatches;
use smf_fmri::{Items, Text};
use std::alloc::{AllocError, Global};

/// How instances stand to those that are named.
#[derive(Clone, Copy, PartialEq, Eq)]
pub enum Relation {
    /// The named depend on them.
    Dependencies,
    /// They depend on the named.
    Dependents,
}

/// Which instances svcs shows.
#[derive(Clone, Copy, PartialEq, Eq)]
pub enum Chosen {
    /// Those that are enabled or run.
    Listed,
    All,
    /// Those that a pattern matches.
    Named,
    Related(Relation),
}

/// The instances and the header that the words of svcs ask for.
#[derive(Drop)]
pub struct Options {
    pub header: bool,
    pub chosen: Chosen,
    /// The words that stand for instances.
    pub patterns: Items<Text>,
}

/// The flags of svcs.
#[derive(Clone, Copy)]
pub(crate) struct ListFlags {
    pub(crate) no_header: bool,
    pub(crate) all: bool,
    pub(crate) dependencies: bool,
    pub(crate) dependents: bool,
}

impl Options {
    /// True if svcs looks at the bodies of running snapshots, so that a view has to have them.
    pub fn needs_bodies(&self) -> bool
        ensures { result ≡ needs_bodies self.now.chosen }
    {
        matches!(self.chosen, Chosen::Related(_))
    }
}

fn when_named(has_names: bool, relation: Relation) -> Option<Chosen>
    ensures { result ≡ when_named has_names relation }
{
    if has_names {
        Some(Chosen::Related(relation))
    } else {
        None
    }
}

fn plain_of(all: bool, has_names: bool) -> Chosen
    ensures { result ≡ plain_of all has_names }
{
    if has_names {
        Chosen::Named
    } else if all {
        Chosen::All
    } else {
        Chosen::Listed
    }
}

fn chosen_of(flags: ListFlags, has_names: bool) -> Option<Chosen>
    ensures { result ≡ chosen_of flags has_names }
{
    match (flags.dependencies, flags.dependents) {
        (true, true) => None,
        (true, false) => when_named(has_names, Relation::Dependencies),
        (false, true) => when_named(has_names, Relation::Dependents),
        (false, false) => Some(plain_of(flags.all, has_names)),
    }
}

fn options_with(flags: ListFlags, operands: Items<Text>) -> Option<Options>
    ensures { result ≡ options_with flags operands }
{
    let has_names = !operands.as_slice().is_empty();
    let chosen = chosen_of(flags, has_names)?;
    Some(Options {
        header: !flags.no_header,
        chosen,
        patterns: operands,
    })
}

fn flags_of(matches: &ArgMatches<'_>) -> ListFlags
    ensures { result ≡ flags_of (rows_in matches.now) }
{
    ListFlags {
        no_header: is_set(matches, "H"),
        all: is_set(matches, "a"),
        dependencies: is_set(matches, "d"),
        dependents: is_set(matches, "D"),
    }
}

fn read_matches(alloc: Global, matches: &ArgMatches<'_>) -> Result<Option<Options>, AllocError>
    ensures { IfOk result (λ read. read ≡ read_rows (Some (rows_in matches.now))) }
{
    let operands = operands_of(alloc, matches)?;
    Ok(options_with(flags_of(matches), operands))
}

/// Reads the words after svcs, as svcs(1) has them. `None` is bad usage.
#[tactic(auto, unfolding(crate::specs::ListOptions::options_of))]
pub fn options_of(alloc: Global, words: &[Text]) -> Result<Option<Options>, AllocError>
    ensures { IfOk result (λ read. read ≡ options_of words.now) }
{
    let words = words_as_str(alloc, words)?;
    match svcs_matches(alloc, words.as_slice())? {
        None => Ok(None),
        Some(matches) => read_matches(alloc, &matches),
    }
}
