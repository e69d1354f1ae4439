//! Instances by their names, and members by what they name. So those that name an instance that comes are found without
//! a look at each member.

ghost use Rattle.std.specs.Prelude.{◌≡◌, ◌++◌, IfOk, List, OnOk, [], length, true};
ghost use Rattle.smf_links.specs.Blockage.{IsOut};
ghost use Rattle.smf_dep.specs.declared.member.GraphMember.{GraphMember as AnyMember};
ghost use Rattle.smf_dep.specs.Index.{AreCiters, AreMissed, Finds, IsIndex, IsKeptIndex, IsMissed, Notes, NotesAt, any_for, group_names, is_for, is_naming_at, member_names, naming_from};
ghost use Rattle.smf_dep.specs.Names.{AreIndexed};
ghost use Rattle.smf_dep.specs.Updates.{AreNamed, with_placed};

use crate::arrival::is_naming;
use crate::dependency::Dependency;
use crate::member::{GraphMember, ReadMember};
use crate::names::{NameIndex, no_places, note, places_at};
use crate::relink::PlacedMember;
use smf_fmri::{Fmri, Ordered};
use std::alloc::{AllocError, Global};
use std::collections::HashMap;

/// After so many members in the places of others the index is made again, since it keeps what those before them named.
const MOST_PLACED: usize = 65_536;

/// The places of members at what they name: at names of instances, and at services. A place may stand there though its
/// member names that no more.
#[derive(Drop)]
pub(crate) struct Citers {
    instances: HashMap<String, Vec<usize>>,
    services: HashMap<String, Vec<usize>>,
}

/// Instances by their names and services, and the members that name them.
#[derive(Drop)]
pub(crate) struct GraphIndex {
    names: NameIndex,
    citers: Citers,
    /// So many members have got the places of others since the index was made.
    placed_count: usize,
}

// ---- places of members at names

fn has_place(places: &[usize], place: usize) -> bool
    ensures { result ≡ true → IsOut place places.now → ⊥ }
{
    for other in places {
        if *other == place {
            return true;
        }
    }
    false
}

/// Puts a place at a name. If it is to look, it puts none that stands there.
fn note_at(
    alloc: Global,
    found: &mut HashMap<String, Vec<usize>>,
    name: &str,
    place: usize,
    looks: bool,
) -> Result<(), AllocError>
    ensures { OnOk result (NotesAt name.now place found.old found.new) }
{
    if looks && has_place(places_at(found, name), place) {
        return Ok(());
    }
    note(alloc, found, name, place)?;
    Ok(())
}

impl Citers {
    fn new(alloc: Global) -> Citers
        ensures { AreCiters result [] }
    {
        Citers {
            instances: no_places(alloc),
            services: no_places(alloc),
        }
    }

    fn note_entity(
        &mut self,
        alloc: Global,
        entity: &Fmri,
        place: usize,
        looks: bool,
    ) -> Result<(), AllocError>
        ensures { OnOk result (Notes (is_for entity.now) place self.old self.new) }
    {
        if entity.instance().is_some() {
            note_at(alloc, &mut self.instances, entity.print(), place, looks)?;
        } else {
            note_at(alloc, &mut self.services, entity.service(), place, looks)?;
        }
        Ok(())
    }

    fn note_entities(
        &mut self,
        alloc: Global,
        entities: &[Fmri],
        place: usize,
        looks: bool,
    ) -> Result<(), AllocError>
        ensures { OnOk result (Notes (any_for is_for entities.now) place self.old self.new) }
    {
        for entity in entities {
            self.note_entity(alloc, entity, place, looks)?;
        }
        Ok(())
    }

    fn note_groups(
        &mut self,
        alloc: Global,
        dependencies: &[Dependency],
        place: usize,
        looks: bool,
    ) -> Result<(), AllocError>
        ensures { OnOk result (Notes (any_for group_names dependencies.now) place self.old self.new) }
    {
        for dependency in dependencies {
            self.note_entities(alloc, dependency.entities.as_slice(), place, looks)?;
        }
        Ok(())
    }

    /// Puts a place at all that its member names. If it is to look, it puts none that stands there.
    fn note_member(
        &mut self,
        alloc: Global,
        member: &GraphMember,
        place: usize,
        looks: bool,
    ) -> Result<(), AllocError>
        ensures { OnOk result (Notes (member_names member.now) place self.old self.new) }
    {
        match &member.dependencies {
            None => Ok(()),
            Some(dependencies) => self.note_groups(alloc, dependencies.as_slice(), place, looks),
        }
    }

    /// Enters members that come after so many others.
    fn join(
        &mut self,
        alloc: Global,
        count: usize,
        arrivals: &[ReadMember],
        looks: bool,
    ) -> Result<(), AllocError>
        ensures { OnOk result ((ms : List AnyMember) → length ms ≡ count → AreCiters self.old ms
            → AreCiters self.new (ms ++ arrivals.now)) }
    {
        let mut place = count;
        for member in arrivals {
            self.note_member(alloc, member.member(), place, looks)?;
            place = place.checked_add(1).ok_or(AllocError)?;
        }
        Ok(())
    }

    /// Enters members in the places of others.
    fn place(&mut self, alloc: Global, placed: &[PlacedMember]) -> Result<(), AllocError>
        ensures { OnOk result ((ms : List AnyMember) → AreCiters self.old ms
            → AreCiters self.new (with_placed placed.now ms)) }
    {
        for one in placed {
            self.note_member(alloc, one.member.member(), one.place, true)?;
        }
        Ok(())
    }
}

// ---- members that name those that come

fn is_naming_at(members: &[ReadMember], arrivals: &[ReadMember], place: usize) -> bool
    ensures { result ≡ is_naming_at arrivals.now members.now place }
{
    match members.get(place) {
        None => false,
        Some(member) => is_naming(arrivals, member.member()),
    }
}

fn put_if_naming(
    members: &[ReadMember],
    arrivals: &[ReadMember],
    place: usize,
    found: &mut Ordered<u64>,
) -> Result<(), AllocError>
    ensures { OnOk result
        (Finds (λ a. place ≡ a → ⊥) (is_naming_at arrivals.now members.now) found.old found.new) }
{
    if is_naming_at(members, arrivals, place) {
        found.put(place as u64)?;
    }
    Ok(())
}

/// Puts those of some places whose members name one of these instances.
fn put_naming(
    members: &[ReadMember],
    arrivals: &[ReadMember],
    places: &[usize],
    found: &mut Ordered<u64>,
) -> Result<(), AllocError>
    ensures { OnOk result
        (Finds (λ a. IsOut a places.now) (is_naming_at arrivals.now members.now) found.old found.new) }
{
    for place in places {
        put_if_naming(members, arrivals, *place, found)?;
    }
    Ok(())
}

impl Citers {
    /// Looks among those that cite one instance.
    fn put_naming_of(
        &self,
        members: &[ReadMember],
        arrivals: &[ReadMember],
        one: &GraphMember,
        found: &mut Ordered<u64>,
    ) -> Result<(), AllocError>
        ensures { OnOk result (Finds (λ a. IsMissed self.now a one.now) (is_naming_at arrivals.now members.now)
            found.old found.new) }
    {
        let by_name = places_at(&self.instances, one.name.print());
        put_naming(members, arrivals, by_name, found)?;
        let by_service = places_at(&self.services, one.name.as_fmri().service());
        put_naming(members, arrivals, by_service, found)?;
        Ok(())
    }

    /// Looks among those that cite one of several.
    fn put_naming_all(
        &self,
        members: &[ReadMember],
        arrivals: &[ReadMember],
        found: &mut Ordered<u64>,
    ) -> Result<(), AllocError>
        ensures { OnOk result (Finds (λ a. AreMissed self.now a arrivals.now) (is_naming_at arrivals.now members.now)
            found.old found.new) }
    {
        for one in arrivals {
            self.put_naming_of(members, arrivals, one.member(), found)?;
        }
        Ok(())
    }
}

// ---- the index of a graph

impl GraphIndex {
    /// The index of members, of which the first has place 0.
    pub(crate) fn of(alloc: Global, members: &[ReadMember]) -> Result<GraphIndex, AllocError>
        ensures { IfOk result (λ i. IsIndex i members.now) }
    {
        let names = NameIndex::of(alloc, members)?;
        let mut citers = Citers::new(alloc);
        citers.join(alloc, 0, members, false)?;
        Ok(GraphIndex {
            names,
            citers,
            placed_count: 0,
        })
    }

    /// Enters members that come after so many others.
    pub(crate) fn join(
        &mut self,
        alloc: Global,
        count: usize,
        arrivals: &[ReadMember],
    ) -> Result<(), AllocError>
        ensures { OnOk result ((ms : List AnyMember) → length ms ≡ count → IsIndex self.old ms
            → IsIndex self.new (ms ++ arrivals.now)) }
    {
        self.names.join(alloc, count, arrivals)?;
        self.citers.join(alloc, count, arrivals, true)?;
        Ok(())
    }

    /// Enters what members name that get the places of others with their names.
    pub(crate) fn place(&mut self, alloc: Global, placed: &[PlacedMember]) -> Result<(), AllocError>
        ensures { OnOk result ((ms : List AnyMember) → AreNamed placed.now ms → IsIndex self.old ms
            → IsIndex self.new (with_placed placed.now ms)) }
    {
        self.citers.place(alloc, placed)?;
        self.placed_count = self.placed_count.saturating_add(placed.len());
        Ok(())
    }

    /// The names alone.
    pub(crate) fn names(&self) -> &NameIndex
        ensures { (ms : List AnyMember) → IsIndex self.now ms → AreIndexed result.now ms }
    {
        &self.names
    }

    /// The places of the members that name one of those that come, in order.
    pub(crate) fn naming(
        &self,
        alloc: Global,
        members: &[ReadMember],
        arrivals: &[ReadMember],
    ) -> Result<Ordered<u64>, AllocError>
        requires { IsIndex self.now members.now }
        ensures { IfOk result (λ ps. ps ≡ naming_from arrivals.now 0 members.now) }
    {
        let mut found = Ordered::new(alloc);
        self.citers.put_naming_all(members, arrivals, &mut found)?;
        let _rises = found.as_slice();
        Ok(found)
    }
}

/// The index with what members name that get the places of others. None if memory runs out, or if much of it may be out of
/// date.
pub(crate) fn index_with(
    alloc: Global,
    index: GraphIndex,
    placed: &[PlacedMember],
) -> Option<GraphIndex>
    ensures { (ms : List AnyMember) → AreNamed placed.now ms → IsIndex index ms
        → IsKeptIndex result (with_placed placed.now ms) }
{
    let mut index = index;
    match index.place(alloc, placed) {
        Ok(()) if index.placed_count <= MOST_PLACED => Some(index),
        _ => None,
    }
}
