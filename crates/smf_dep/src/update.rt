//! How instances and what is kept of them are brought up to date by items that changed.

ghost use Rattle.std.specs.Ordering.{nat_cmp};
ghost use Rattle.std.specs.Prelude.{◌≡◌, ◌<◌, ◌≤◌, ◌+◌, ◌++◌, ◌∷◌, ℕ, [], Some, IfOk, IfSome, OnOk, length, map, slice_get, slice_set, vec_capacity};
ghost use Rattle.smf_fmri.specs.ByKey.{IsPlaced, Rises, list_with_item, put_all};
ghost use Rattle.smf_links.specs.Blockage.{IsOut};
ghost use Rattle.smf_dep.specs.declared.member.GraphMember.{GraphMember as AnyMember};
ghost use Rattle.smf_dep.specs.Members.{by_member, member_of};
ghost use Rattle.smf_dep.specs.Places.{nodes_of};
ghost use Rattle.smf_dep.specs.Updates.{AllFit, AreSuccessors, Fits, FitsAt, IsSuccessor, Stays, number, number_at, with_member, with_members};

use crate::link::flags_of;
use crate::member::ReadMember;
use smf_fmri::{Items, Ordered};
use smf_links::{KeptVerdicts, with_room};
use smf_state::{ChangedItem, ViewItem};
use std::alloc::{AllocError, Global};
use std::cmp::Ordering;

// ---- the place of an instance

fn compare(member: &ReadMember, instance: u64) -> Ordering
    ensures { result ≡ nat_cmp member.now.instance instance }
{
    member.member().instance.cmp(&instance)
}

pub(crate) fn search(members: &[ReadMember], instance: u64) -> Result<usize, usize>
    requires { Rises by_member members.now }
    ensures { IsPlaced by_member instance members.now result }
{
    members.binary_search_by(|member| compare(member, instance))
}

// ---- items by which nothing comes, goes or depends on other things

/// The member of an item, if its instance is there, with that name and these dependencies.
fn successor_in(
    alloc: Global,
    members: &[ReadMember],
    item: &ViewItem,
) -> Result<Option<ReadMember>, AllocError>
    requires { Rises by_member members.now }
    ensures { IfOk result (λ o. IfSome o (λ m. (m ≡ member_of item.now) × Fits m members.now)) }
{
    match search(members, item.instance) {
        Ok(place) => members[place].successor(alloc, item),
        Err(_) => Ok(None),
    }
}

fn successor_by(
    alloc: Global,
    members: &[ReadMember],
    change: &ChangedItem,
) -> Result<Option<ReadMember>, AllocError>
    requires { Rises by_member members.now }
    ensures { IfOk result (λ o. IfSome o (λ m. IsSuccessor change.now.item m × Fits m members.now)) }
{
    match &change.item {
        None => Ok(None),
        Some(item) => successor_in(alloc, members, item),
    }
}

/// The members of items that changed. None if an instance comes, goes or depends on other things.
pub(crate) fn successors(
    alloc: Global,
    members: &[ReadMember],
    changes: &[ChangedItem],
) -> Result<Option<Vec<ReadMember>>, AllocError>
    requires { Rises by_member members.now }
    ensures { IfOk result (λ o. IfSome o (λ all. AreSuccessors changes.now all.items members.now)) }
{
    let mut all = Vec::with_capacity(alloc, changes.len())?;
    for change in changes {
        let Some(member) = successor_by(alloc, members, change)? else {
            return Ok(None);
        };
        all.push(member)?;
    }
    Ok(Some(all))
}

fn place_of(members: &[ReadMember], member: &ReadMember) -> usize
    requires fits { Fits member.now members.now }
    requires rises { Rises by_member members.now }
    ensures { FitsAt member.now members.now result }
{
    match search(members, member.member().instance) {
        Ok(place) => place,
        Err(_) => unreachable!(),
    }
}

/// Puts a member in the place of another.
fn put_member(members: &mut Vec<ReadMember>, place: usize, member: ReadMember)
    requires { place < length members.old.items }
    ensures { members.new.items ≡ slice_set members.old.items place member }
{
    members[place] = member;
}

/// Puts a member in the place of that with its number.
fn take_member(
    members: &mut Vec<ReadMember>,
    kept: &mut KeptVerdicts,
    member: ReadMember,
    touched: &mut Vec<usize>,
)
    requires fits { Fits member members.old.items }
    requires rises { Rises by_member members.old.items }
    requires linked { kept.old ≡ nodes_of members.old.items }
    requires room { length members.old.items ≤ vec_capacity touched.old }
    ensures put { members.new.items ≡ list_with_item by_member member members.old.items }
    ensures linked { kept.new ≡ nodes_of members.new.items }
    ensures stays { Stays members.old.items members.new.items touched.old.items touched.new.items }
    ensures room { vec_capacity touched.old ≤ vec_capacity touched.new }
{
    let place = place_of(members.as_slice(), &member);
    let flags = flags_of(member.member());
    put_member(members, place, member);
    kept.set(place, flags, touched);
}

/// Puts members in the places of those with their numbers. Puts the places of all instances whose finding may have
/// changed among those that are touched.
pub(crate) fn take_members(
    members: &mut Vec<ReadMember>,
    kept: &mut KeptVerdicts,
    successors: Vec<ReadMember>,
    touched: &mut Vec<usize>,
)
    requires fit { AllFit successors.items members.old.items }
    requires rises { Rises by_member members.old.items }
    requires linked { kept.old ≡ nodes_of members.old.items }
    requires room { length members.old.items ≤ vec_capacity touched.old }
    ensures with { members.new.items ≡ put_all by_member successors.items members.old.items }
    ensures linked { kept.new ≡ nodes_of members.new.items }
    ensures stays { Stays members.old.items members.new.items touched.old.items touched.new.items }
{
    for member in successors {
        take_member(members, kept, member, touched);
    }
}

// ---- numbers of places

fn number_at(members: &[ReadMember], place: usize) -> u64
    ensures { result ≡ number_at members.now place }
{
    match members.get(place) {
        Some(member) => member.member().instance,
        None => 0,
    }
}

fn push_number(numbers: &mut Vec<u64>, number: u64)
    requires { length numbers.old.items < vec_capacity numbers.old }
    ensures pushed { numbers.new.items ≡ numbers.old.items ++ number ∷ [] }
    ensures room { vec_capacity numbers.old ≤ vec_capacity numbers.new }
{
    let _ = numbers.push(number);
}

fn put_numbers(numbers: &mut Vec<u64>, members: &[ReadMember], places: &[usize])
    requires { length numbers.old.items + length places.now ≤ vec_capacity numbers.old }
    ensures { numbers.new.items ≡ numbers.old.items ++ map (number_at members.now) places.now }
{
    for place in places {
        push_number(numbers, number_at(members, *place));
    }
}

fn put_all_numbers(numbers: &mut Vec<u64>, members: &[ReadMember])
    requires { length numbers.old.items + length members.now ≤ vec_capacity numbers.old }
    ensures { numbers.new.items ≡ numbers.old.items ++ map number members.now }
{
    for member in members {
        push_number(numbers, member.member().instance);
    }
}

/// Puts the numbers of the instances at these places after others, or of all instances if there is room for no more.
pub(crate) fn put_touched(numbers: &mut Vec<u64>, members: &[ReadMember], places: &[usize])
    requires { length numbers.old.items + length members.now ≤ vec_capacity numbers.old }
    ensures touched { (a : ℕ) (m : AnyMember) → slice_get members.now a ≡ Some m → IsOut m.instance numbers.new.items
        → IsOut a places.now }
    ensures grown { (n : ℕ) → IsOut n numbers.new.items → IsOut n numbers.old.items }
{
    if places.len() > numbers.capacity() - numbers.len() {
        put_all_numbers(numbers, members);
        return;
    }
    put_numbers(numbers, members, places);
}

// ---- instances that come or go, or depend on other things

fn member_anew(
    alloc: Global,
    kept: Option<&ReadMember>,
    item: &ViewItem,
) -> Result<ReadMember, AllocError>
    ensures { IfOk result (λ m. m ≡ member_of item.now) }
{
    match kept {
        Some(kept) if kept.is_read_from(item) => Ok(kept.clone()?.again(item)),
        _ => ReadMember::read(alloc, item),
    }
}

fn change_member(
    alloc: Global,
    members: &mut Ordered<ReadMember>,
    change: &ChangedItem,
) -> Result<(), AllocError>
    ensures { OnOk result (members.new ≡ with_member change.now.instance change.now.item members.old) }
{
    match &change.item {
        None => members.remove(&change.instance),
        Some(item) => {
            let member = member_anew(alloc, members.get(&item.instance), item)?;
            members.put(member)?;
        }
    }
    Ok(())
}

/// The members with changes. The others share what was read.
pub(crate) fn changed_members(
    alloc: Global,
    members: Vec<ReadMember>,
    changes: &[ChangedItem],
) -> Result<Vec<ReadMember>, AllocError>
    requires { Rises by_member members.items }
    ensures all { IfOk result (λ all. all.items ≡ with_members changes.now members.items) }
    ensures rises { IfOk result (λ all. Rises by_member all.items) }
{
    let mut all = Ordered::from_vec(members);
    for change in changes {
        change_member(alloc, &mut all, change)?;
    }
    Ok(all.into_vec())
}

/// The numbers of all that are there, and of all that were.
pub(crate) fn numbers_of(
    alloc: Global,
    before: &[u64],
    after: &[ReadMember],
) -> Result<Items<u64>, AllocError>
    ensures { IfOk result (λ ns. ns ≡ map number after.now ++ before.now) }
{
    let mut numbers = with_room(alloc, after.len())?;
    'there: for member in after {
        numbers.push(member.member().instance)?;
    }
    'gone: for number in before {
        numbers.push(*number)?;
    }
    Ok(numbers)
}
