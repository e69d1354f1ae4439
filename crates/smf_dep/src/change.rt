//! Changes by which instances come after all others, go, or depend on other things.

ghost use Rattle.std.specs.Prelude.{◌≡◌, ◌++◌, ◌∷◌, [], None, true, IfOk, IfSome};
ghost use Rattle.smf_fmri.specs.ByKey.{IsAbove, Rises, list_with_item, lookup};
ghost use Rattle.smf_dep.specs.Departures.{AreChanges, IsDeparture, leaver, with_departure};
ghost use Rattle.smf_dep.specs.Members.{by_member, member_of};
ghost use Rattle.smf_dep.specs.Updates.{AreReady, IsNamedAt, with_placed};

use crate::member::{ReadMember, has_same_dependencies};
use crate::relink::PlacedMember;
use crate::update::search;
use smf_state::{ChangedItem, ViewItem};
use std::alloc::{AllocError, Global};

/// So many instances may come or get other links in place. One that goes loses its links. If there are more, the graph is
/// made anew.
const MOST_RELINKS: usize = 16;

/// So many changes may be taken in place, if an instance comes, goes or depends on other things by one of them.
pub(crate) const MOST_CHANGES: usize = 1024;

/// Members in the places of those with their numbers, members that come after all others, and the numbers of those that
/// go.
#[derive(Drop)]
pub(crate) struct MemberChanges {
    pub placed: Vec<PlacedMember>,
    pub arrivals: Vec<ReadMember>,
    pub leavers: Vec<u64>,
}

/// The member of an item for a place. What did not change is not read again.
fn member_at(alloc: Global, before: &ReadMember, item: &ViewItem) -> Result<ReadMember, AllocError>
    ensures { IfOk result (λ m. m ≡ member_of item.now) }
{
    match before.successor(alloc, item)? {
        Some(member) => Ok(member),
        None => ReadMember::read(alloc, item),
    }
}

/// The member of an item, if the instance is there with its name.
fn member_for(
    alloc: Global,
    members: &[ReadMember],
    item: &ViewItem,
) -> Result<Option<PlacedMember>, AllocError>
    requires { Rises by_member members.now }
    ensures { IfOk result
        (λ o. IfSome o (λ p. (p.member ≡ member_of item.now) × IsNamedAt p.member members.now p.place)) }
{
    let Ok(place) = search(members, item.instance) else {
        return Ok(None);
    };
    let before = &members[place];
    if !before.has_name_of(item) {
        return Ok(None);
    }
    let member = member_at(alloc, before, item)?;
    Ok(Some(PlacedMember { member, place }))
}

/// The member that stays at the place of the instance that has the number, once it went. None if it is not there.
fn departure_for(
    alloc: Global,
    members: &[ReadMember],
    instance: u64,
) -> Result<Option<PlacedMember>, AllocError>
    requires { Rises by_member members.now }
    ensures some { IfOk result (λ o. IfSome o (λ p. IsDeparture instance p.member members.now p.place)) }
    ensures none { IfOk result (λ o. o ≡ None → lookup by_member members.now instance ≡ None) }
{
    match search(members, instance) {
        Err(_) => Ok(None),
        Ok(place) => {
            let member = members[place].departure(alloc)?;
            Ok(Some(PlacedMember { member, place }))
        }
    }
}

/// True if a number is above those of all members.
fn is_above(members: &[ReadMember], instance: u64) -> bool
    ensures { result ≡ true → IsAbove by_member instance members.now }
{
    for member in members {
        if member.member().instance >= instance {
            return false;
        }
    }
    true
}

/// True if a number is above those of members whose numbers rise.
fn is_above_last(members: &[ReadMember], instance: u64) -> bool
    requires { Rises by_member members.now }
    ensures { result ≡ true → IsAbove by_member instance members.now }
{
    match search(members, instance) {
        Ok(_) => false,
        Err(place) => place >= members.len(),
    }
}

/// The member of an item, if its number is above those of all members and of those that come.
fn arrival_of(
    alloc: Global,
    members: &[ReadMember],
    arrivals: &[ReadMember],
    item: &ViewItem,
) -> Result<Option<ReadMember>, AllocError>
    requires { Rises by_member members.now }
    ensures { IfOk result (λ o. IfSome o (λ m. (m ≡ member_of item.now)
        × IsAbove by_member m.instance members.now × IsAbove by_member m.instance arrivals.now)) }
{
    if arrivals.len() >= MOST_RELINKS
        || !is_above_last(members, item.instance)
        || !is_above(arrivals, item.instance)
    {
        return Ok(None);
    }
    let member = ReadMember::read(alloc, item)?;
    Ok(Some(member))
}

impl MemberChanges {
    /// Takes an instance that goes, if none has come yet.
    fn take_departure(
        &mut self,
        alloc: Global,
        members: &[ReadMember],
        instance: u64,
    ) -> Result<bool, AllocError>
        requires rises { Rises by_member members.now }
        requires ready { AreReady self.old.placed.items self.old.arrivals.items members.now }
        ensures ready { IfOk result (λ b. b ≡ true
            → AreReady self.new.placed.items self.new.arrivals.items members.now) }
        ensures put { IfOk result (λ b. b ≡ true
            → with_placed self.new.placed.items members.now ++ self.new.arrivals.items
            ≡ with_departure instance None
            (with_placed self.old.placed.items members.now ++ self.old.arrivals.items)) }
        ensures left { IfOk result (λ b. b ≡ true → self.new.leavers.items ≡ self.old.leavers.items ++ instance ∷ []) }
    {
        if !self.arrivals.is_empty() {
            return Ok(false);
        }
        match departure_for(alloc, members, instance)? {
            None => {
                self.leavers.push(instance)?;
                Ok(true)
            }
            Some(placed) => {
                self.placed.push(placed)?;
                self.leavers.push(instance)?;
                Ok(true)
            }
        }
    }

    /// Takes the member of an item, if its instance is there with its name and none has come yet, or if it comes after
    /// all others.
    fn take_item(
        &mut self,
        alloc: Global,
        members: &[ReadMember],
        item: &ViewItem,
    ) -> Result<bool, AllocError>
        requires rises { Rises by_member members.now }
        requires ready { AreReady self.old.placed.items self.old.arrivals.items members.now }
        ensures ready { IfOk result (λ b. b ≡ true
            → AreReady self.new.placed.items self.new.arrivals.items members.now) }
        ensures put { IfOk result (λ b. b ≡ true
            → with_placed self.new.placed.items members.now ++ self.new.arrivals.items
            ≡ list_with_item by_member (member_of item.now)
            (with_placed self.old.placed.items members.now ++ self.old.arrivals.items)) }
        ensures left { IfOk result (λ b. b ≡ true → self.new.leavers.items ≡ self.old.leavers.items) }
    {
        if self.arrivals.is_empty() {
            if let Some(placed) = member_for(alloc, members, item)? {
                self.placed.push(placed)?;
                return Ok(true);
            }
        }
        match arrival_of(alloc, members, self.arrivals.as_slice(), item)? {
            None => Ok(false),
            Some(member) => {
                self.arrivals.push(member)?;
                Ok(true)
            }
        }
    }

    /// Takes one more change. False if it cannot be taken at the places of the instances.
    fn take(
        &mut self,
        alloc: Global,
        members: &[ReadMember],
        change: &ChangedItem,
    ) -> Result<bool, AllocError>
        requires rises { Rises by_member members.now }
        requires ready { AreReady self.old.placed.items self.old.arrivals.items members.now }
        ensures ready { IfOk result (λ b. b ≡ true
            → AreReady self.new.placed.items self.new.arrivals.items members.now) }
        ensures put { IfOk result (λ b. b ≡ true
            → with_placed self.new.placed.items members.now ++ self.new.arrivals.items
            ≡ with_departure change.now.instance change.now.item
            (with_placed self.old.placed.items members.now ++ self.old.arrivals.items)) }
        ensures left { IfOk result (λ b. b ≡ true → self.new.leavers.items
            ≡ self.old.leavers.items ++ leaver change.now.instance change.now.item []) }
    {
        match &change.item {
            None => self.take_departure(alloc, members, change.instance),
            Some(item) => self.take_item(alloc, members, item),
        }
    }

    /// True if many instances come or get other links, with those that name one that comes.
    pub(crate) fn are_many(&self, members: &[ReadMember], naming: usize) -> bool {
        let others = count_others(members, self.placed.as_slice());
        let came = others.saturating_add(self.arrivals.len());
        came.saturating_add(naming) > MOST_RELINKS
    }
}

/// How many members get other dependencies.
fn count_others(members: &[ReadMember], placed: &[PlacedMember]) -> usize {
    let mut count: usize = 0;
    for one in placed {
        if let Some(before) = members.get(one.place) {
            if !has_same_dependencies(
                &before.member().dependencies,
                &one.member.member().dependencies,
            ) {
                count = count.saturating_add(1);
            }
        }
    }
    count
}

/// The members of changes, each of which is for a place or comes after all others. None if an instance has another name
/// or comes between others, or if there are many changes.
pub(crate) fn changes_in(
    alloc: Global,
    members: &[ReadMember],
    changes: &[ChangedItem],
) -> Result<Option<MemberChanges>, AllocError>
    requires { Rises by_member members.now }
    ensures { IfOk result
        (λ o. IfSome o (λ all. AreChanges changes.now all.placed.items all.arrivals.items all.leavers.items
        members.now)) }
{
    if changes.len() > MOST_CHANGES {
        return Ok(None);
    }
    let mut all = MemberChanges {
        placed: Vec::new(alloc),
        arrivals: Vec::new(alloc),
        leavers: Vec::new(alloc),
    };
    for change in changes {
        if !all.take(alloc, members, change)? {
            return Ok(None);
        }
    }
    Ok(Some(all))
}
