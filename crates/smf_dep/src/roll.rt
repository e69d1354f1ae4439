//! The numbers of the instances of a graph, and of those that went.

ghost use Rattle.std.specs.List.{position};
ghost use Rattle.std.specs.Ordering.{nat_cmp};
ghost use Rattle.std.specs.Prelude.{◌≡◌, [], IfOk, IfSome, OnOk, map, true};
ghost use Rattle.smf_fmri.specs.ByKey.{IsPlaced, Rises, has_key};
ghost use Rattle.smf_dep.specs.Departures.{AllStayAway, AreThere, IsRollAfter, IsThere, StaysAway, all_gone, by_itself, has_number, shown, with_gone, with_number, with_numbers};
ghost use Rattle.smf_dep.specs.Members.{by_member};
ghost use Rattle.smf_dep.specs.Updates.{number};

use crate::change::MOST_CHANGES;
use crate::member::ReadMember;
use smf_fmri::Ordered;
use smf_state::{ChangedItem, ViewItem};
use std::alloc::{AllocError, Global};
use std::cmp::Ordering;

/// So many instances that went may keep their places. If there are more, the graph is made anew.
const MOST_GONE: usize = 1024;

/// The numbers of the instances that are there, and of those that went and kept their places.
#[derive(Drop)]
pub(crate) struct Roll {
    pub numbers: Ordered<u64>,
    pub gone: Ordered<u64>,
}

fn compare(number: &u64, instance: u64) -> Ordering
    ensures { result ≡ nat_cmp number.now instance }
{
    number.cmp(&instance)
}

fn search(numbers: &[u64], instance: u64) -> Result<usize, usize>
    requires { Rises by_itself numbers.now }
    ensures { IsPlaced by_itself instance numbers.now result }
{
    numbers.binary_search_by(|number| compare(number, instance))
}

/// The place of a number.
pub(crate) fn place_of_number(numbers: &Ordered<u64>, instance: u64) -> Option<usize>
    ensures { result ≡ position (has_key by_itself instance) numbers.now }
{
    match search(numbers.as_slice(), instance) {
        Ok(place) => Some(place),
        Err(_) => None,
    }
}

/// True if a number is among others.
pub(crate) fn has_number(numbers: &Ordered<u64>, instance: u64) -> bool
    ensures { result ≡ has_number numbers.now instance }
{
    numbers.get(&instance).is_some()
}

/// True if an item is of an instance that is there.
fn is_there(roll: &Roll, item: &Option<ViewItem>) -> bool
    ensures { result ≡ true → IsThere item.now roll.now.numbers roll.now.gone }
{
    match item {
        None => false,
        Some(item) => {
            has_number(&roll.numbers, item.instance) && !has_number(&roll.gone, item.instance)
        }
    }
}

/// True if no instance comes or goes by changes.
pub(crate) fn are_there(roll: &Roll, changes: &[ChangedItem]) -> bool
    ensures { result ≡ true → AreThere changes.now roll.now.numbers roll.now.gone }
{
    for change in changes {
        if !is_there(roll, &change.item) {
            return false;
        }
    }
    true
}

/// Puts the number of a change, or takes it out.
fn note(roll: &mut Roll, change: &ChangedItem) -> Result<(), AllocError>
    ensures numbers { OnOk result
        (roll.new.numbers ≡ with_number change.now.instance change.now.item roll.old.numbers) }
    ensures gone { OnOk result (roll.new.gone ≡ with_gone change.now.instance change.now.item roll.old.gone) }
{
    match &change.item {
        None => {
            roll.numbers.remove(&change.instance);
            roll.gone.put(change.instance)
        }
        Some(item) => roll.numbers.put(item.instance),
    }
}

/// True if an item is not of an instance that went.
fn stays_away(gone: &Ordered<u64>, item: &Option<ViewItem>) -> bool
    ensures { result ≡ true → StaysAway item.now gone.now }
{
    match item {
        None => true,
        Some(item) => !has_number(gone, item.instance),
    }
}

/// True if none of those that went comes again.
fn all_stay_away(gone: &Ordered<u64>, changes: &[ChangedItem]) -> bool
    ensures { result ≡ true → AllStayAway changes.now gone.now }
{
    for change in changes {
        if !stays_away(gone, &change.item) {
            return false;
        }
    }
    true
}

/// The numbers after changes.
fn roll_with(alloc: Global, roll: &Roll, changes: &[ChangedItem]) -> Result<Roll, AllocError>
    ensures numbers { IfOk result (λ r. r.numbers ≡ with_numbers changes.now roll.now.numbers) }
    ensures gone { IfOk result (λ r. r.gone ≡ all_gone changes.now roll.now.gone) }
{
    let numbers = roll.numbers.clone()?;
    let gone = roll.gone.clone()?;
    let mut after = Roll { numbers, gone };
    for change in changes {
        note(&mut after, change)?;
    }
    Ok(after)
}

/// The numbers after changes. None if one that went comes again, or if many have gone.
pub(crate) fn roll_after(
    alloc: Global,
    roll: &Roll,
    changes: &[ChangedItem],
) -> Result<Option<Roll>, AllocError>
    ensures { IfOk result
        (λ o. IfSome o
        (λ r. IsRollAfter changes.now roll.now.numbers roll.now.gone r.numbers r.gone)) }
{
    if changes.len() > MOST_CHANGES {
        return Ok(None);
    }
    let after = roll_with(alloc, roll, changes)?;
    if after.gone.len() > MOST_GONE || !all_stay_away(&after.gone, changes) {
        return Ok(None);
    }
    Ok(Some(after))
}

/// The numbers of members, of whom none went.
pub(crate) fn roll_of(alloc: Global, members: &[ReadMember]) -> Result<Roll, AllocError>
    requires { Rises by_member members.now }
    ensures numbers { IfOk result (λ r. r.numbers ≡ map number members.now) }
    ensures gone { IfOk result (λ r. r.gone ≡ []) }
{
    let mut numbers = Vec::with_capacity(alloc, members.len())?;
    for member in members {
        numbers.push(member.member().instance)?;
    }
    Ok(Roll {
        numbers: Ordered::from_vec(numbers),
        gone: Ordered::new(alloc),
    })
}

/// The members that are there.
pub(crate) fn shown_members(
    alloc: Global,
    members: &[ReadMember],
    gone: &Ordered<u64>,
) -> Result<Vec<ReadMember>, AllocError>
    ensures { IfOk result (λ all. all.items ≡ shown gone.now members.now) }
{
    let mut all = Vec::with_capacity(alloc, members.len())?;
    for member in members {
        if !has_number(gone, member.member().instance) {
            all.push(member.clone()?)?;
        }
    }
    Ok(all)
}
