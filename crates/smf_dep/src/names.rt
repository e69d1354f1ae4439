//! Instances by their names, and by the names of their services. So the instances that an entity stands for are found
//! without a look at each instance.

ghost use Rattle.std.specs.Prelude.{◌≡◌, ◌∷◌, ◌++◌, IfOk, List, OnOk, ℕ, [], if◌then◌else◌, length};
ghost use Rattle.std.specs.Str.{bytes_eq};
ghost use Rattle.smf_dep.specs.declared.member.GraphMember.{GraphMember as AnyMember};
ghost use Rattle.smf_dep.specs.Names.{AreIndexed, found_at, instance_name, named_from, service_name};
ghost use Rattle.smf_dep.specs.Places.{places};

use crate::member::ReadMember;
use smf_fmri::{Fmri, Items};
use std::alloc::{AllocError, Global};
use std::collections::HashMap;
use std::marker::Model;

/// The places of instances by their names, and by those of their services.
#[derive(Drop)]
pub(crate) struct NameIndex {
    instances: HashMap<String, Vec<usize>>,
    services: HashMap<String, Vec<usize>>,
}

/// Instances that are looked for by their names.
#[derive(Drop)]
pub(crate) struct Names<'a> {
    members: &'a [ReadMember],
    index: &'a NameIndex,
}

impl<'a> Model for Names<'a> {
    ghost use Rattle.smf_dep.specs.declared.member.GraphMember.{GraphMember};
    ghost use Rattle.smf_dep.specs.Names.{AreIndexed};
    ghost use Rattle.std.specs.Prelude.{List};

    ghost Value = { List GraphMember };

    ghost view = { λ n. n.members.now };

    ghost invariant = { λ n. AreIndexed n.index.now n.members.now };
}

/// A map in which no name has a place.
pub(crate) fn no_places(alloc: Global) -> HashMap<String, Vec<usize>>
    ensures { (q : List ℕ) → found_at result q ≡ [] }
{
    HashMap::new(alloc)
}

/// The places that stand at a name.
pub(crate) fn places_at<'a>(found: &'a HashMap<String, Vec<usize>>, name: &str) -> &'a [usize]
    ensures { result.now ≡ found_at found.entry.now name.now }
{
    match found.get(name) {
        Some(places) => places.as_slice(),
        None => &[],
    }
}

/// Puts a place after those of a name.
pub(crate) fn note(
    alloc: Global,
    found: &mut HashMap<String, Vec<usize>>,
    name: &str,
    place: usize,
) -> Result<(), AllocError>
    ensures { OnOk result
        ((q : List ℕ) → found_at found.new q
        ≡ (if bytes_eq q name.now then found_at found.old q ++ place ∷ [] else found_at found.old q)) }
{
    let key = String::from_str(alloc, name)?;
    found.entry(key)?.or_insert(Vec::new(alloc)).push(place)?;
    Ok(())
}

/// Puts the place of each instance after those of its name. The instances come after so many others.
fn note_instances(
    alloc: Global,
    found: &mut HashMap<String, Vec<usize>>,
    count: usize,
    members: &[ReadMember],
) -> Result<(), AllocError>
    ensures { OnOk result ((q : List ℕ) → found_at found.new q
        ≡ found_at found.old q ++ named_from instance_name count q members.now) }
{
    let mut place = count;
    for member in members {
        note(alloc, found, member.member().name.print(), place)?;
        place = place.checked_add(1).ok_or(AllocError)?;
    }
    Ok(())
}

/// Puts the place of each instance after those of its service. The instances come after so many others.
fn note_services(
    alloc: Global,
    found: &mut HashMap<String, Vec<usize>>,
    count: usize,
    members: &[ReadMember],
) -> Result<(), AllocError>
    ensures { OnOk result ((q : List ℕ) → found_at found.new q
        ≡ found_at found.old q ++ named_from service_name count q members.now) }
{
    let mut place = count;
    for member in members {
        note(
            alloc,
            found,
            member.member().name.as_fmri().service(),
            place,
        )?;
        place = place.checked_add(1).ok_or(AllocError)?;
    }
    Ok(())
}

impl NameIndex {
    /// The index of instances, of which the first has place 0.
    pub(crate) fn of(alloc: Global, members: &[ReadMember]) -> Result<NameIndex, AllocError>
        ensures { IfOk result (λ i. AreIndexed i members.now) }
    {
        let mut index = NameIndex {
            instances: no_places(alloc),
            services: no_places(alloc),
        };
        index.join(alloc, 0, members)?;
        Ok(index)
    }

    /// Enters instances that come after so many others.
    pub(crate) fn join(
        &mut self,
        alloc: Global,
        count: usize,
        arrivals: &[ReadMember],
    ) -> Result<(), AllocError>
        ensures { OnOk result ((ms : List AnyMember) → length ms ≡ count → AreIndexed self.old ms
            → AreIndexed self.new (ms ++ arrivals.now)) }
    {
        note_instances(alloc, &mut self.instances, count, arrivals)?;
        note_services(alloc, &mut self.services, count, arrivals)?;
        Ok(())
    }
}

fn copy_of(alloc: Global, places: &[usize]) -> Result<Items<usize>, AllocError>
    ensures { IfOk result (λ ps. ps ≡ places.now) }
{
    let copy = places.to_vec(alloc)?;
    Ok(Items::from_vec(copy))
}

/// The places of the instances that an entity stands for, by an index.
#[tactic(auto, using(crate::proofs::PlacesByName::of_instance, crate::proofs::PlacesByName::of_service))]
fn places_by(
    alloc: Global,
    index: &NameIndex,
    members: &[ReadMember],
    entity: &Fmri,
) -> Result<Items<usize>, AllocError>
    requires { AreIndexed index.now members.now }
    ensures { IfOk result (λ ps. ps ≡ places members.now entity.now) }
{
    if entity.instance().is_some() {
        copy_of(alloc, places_at(&index.instances, entity.print()))
    } else {
        copy_of(alloc, places_at(&index.services, entity.service()))
    }
}

impl<'a> Names<'a> {
    pub(crate) fn by(members: &'a [ReadMember], index: &'a NameIndex) -> Names<'a>
        requires { AreIndexed index.now members.now }
        ensures { result ≡ members.entry.now }
    {
        Names { members, index }
    }

    /// The places of the instances that an entity stands for.
    pub(crate) fn places(&self, alloc: Global, entity: &Fmri) -> Result<Items<usize>, AllocError>
        ensures { IfOk result (λ ps. ps ≡ places self.now entity.now) }
    {
        places_by(alloc, self.index, self.members, entity)
    }
}
