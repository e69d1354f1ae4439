ghost use Rattle.std.specs.Option.{option_copied, option_to_list};
ghost use Rattle.std.specs.Prelude.{◌≡◌, ◌∷◌, [], List, None, IfOk, IfSome, Ok, length};
ghost use Rattle.smf_fmri.specs.Name.{read_pattern};
ghost use Rattle.smf_admin.specs.Instances.{first_or, found_among, found_at, found_of, instances_by_pattern};
ghost use Rattle.smf_model.specs.declared.held.InstanceName.{InstanceName as AnyName};

use smf_fmri::{Fmri, FmriFault, InstanceFmri, Pattern, Table, Text};
use smf_model::InstanceName;
use std::alloc::{AllocError, Global};

/// Which instance a word stands for.
#[derive(Drop)]
pub enum Found {
    /// The only one that it matches, by its number.
    One(u64),
    NoMatch(Text),
    /// It matches so many, two or more.
    Several(Text, usize),
}

/// The instances that a pattern matches: the first of them, and how many there are.
#[derive(Clone, Copy)]
struct Matches {
    /// The number of the first instance that it matches.
    first: Option<u64>,
    count: usize,
}

fn first_or(first: Option<u64>, item: &InstanceName) -> Option<u64>
    ensures { result ≡ first_or first (item.now ∷ []) }
{
    match first {
        Some(number) => Some(number),
        None => Some(item.number.get()),
    }
}

/// Looks once at each name for those that a pattern matches.
fn matches_of(pattern: &Pattern, view: &[InstanceName]) -> Matches
    ensures first { result.first ≡ first_or None (instances_by_pattern pattern.now view.now) }
    ensures count { result.count ≡ length (instances_by_pattern pattern.now view.now) }
{
    let mut first = None;
    let mut count = 0;
    for item in view {
        if pattern.matches(item.name.as_fmri()) {
            first = first_or(first, item);
            count += 1;
        }
    }
    Matches { first, count }
}

fn found_at(word: &Text, item: Option<&InstanceName>) -> Result<Found, AllocError>
    ensures { IfOk result (λ one. one ≡ found_at word.now (option_copied item.entry)) }
{
    match item {
        Some(item) => Ok(Found::One(item.number.get())),
        None => Ok(Found::NoMatch(word.clone()?)),
    }
}

/// Which instance a word stands for, by what it matches.
#[tactic(auto, using(crate::proofs::Among::none_among, crate::proofs::Among::one_among, crate::proofs::Among::several_among))]
fn found_among(word: &Text, matches: Matches) -> Result<Found, AllocError>
    ensures { (is : List AnyName) → matches.first ≡ first_or None is → matches.count ≡ length is
        → IfOk result (λ one. one ≡ found_among word.now is) }
{
    match matches.first {
        None => Ok(Found::NoMatch(word.clone()?)),
        Some(number) => {
            if matches.count == 1 {
                Ok(Found::One(number))
            } else {
                Ok(Found::Several(word.clone()?, matches.count))
            }
        }
    }
}

/// Which instance a word stands for, by a look at all names.
#[tactic(auto, unfolding(crate::specs::Instances::found_of), using(crate::proofs::Among::picked_among))]
fn found_of_all(alloc: Global, view: &[InstanceName], word: &Text) -> Result<Found, AllocError>
    ensures { IfOk result (λ one. one ≡ found_of view.now word.now) }
{
    let pattern = match Pattern::parse(alloc, word.as_str()) {
        Ok(pattern) => pattern,
        Err(FmriFault::Memory) => return Err(AllocError),
        Err(_) => return Ok(Found::NoMatch(word.clone()?)),
    };
    let found = found_among(word, matches_of(&pattern, view))?;
    Ok(found)
}

/// The instance that a word names in full.
fn full_name(alloc: Global, word: &Text) -> Result<Option<InstanceFmri>, AllocError>
    ensures { IfOk result (λ found. IfSome found (λ name. read_pattern word.now ≡ Ok name)) }
{
    match Fmri::parse(alloc, word.as_str()) {
        Ok(name) => Ok(InstanceFmri::of(name)),
        Err(FmriFault::Memory) => Err(AllocError),
        Err(_) => Ok(None),
    }
}

/// The instance of a full name, the only one that the name matches.
fn match_of<'a>(view: &'a Table<InstanceName>, name: &InstanceFmri) -> Option<&'a InstanceName>
    ensures { instances_by_pattern name.now view.now.items ≡ option_to_list (option_copied result) }
{
    let names = view.as_slice();
    let first = names.first()?;
    let last = names.last()?;
    // All names stand between the first and the last, so they begin as these do.
    let _low = first.name.print();
    let _high = last.name.print();
    let _own = name.print();
    view.get(name)
}

/// Which instance a word stands for, over the names of all. A full name is looked up.
pub fn found_of(alloc: Global, view: &Table<InstanceName>, word: &Text) -> Result<Found, AllocError>
    ensures { IfOk result (λ one. one ≡ found_of view.now.items word.now) }
{
    match full_name(alloc, word)? {
        Some(name) => found_at(word, match_of(view, &name)),
        None => found_of_all(alloc, view.as_slice(), word),
    }
}
