ghost use Rattle.std.specs.List.{list_any};
ghost use Rattle.std.specs.Prelude.{◌≡◌, ◌++◌, ◌∷◌, [], IfOk, None, OnOk, Some, if◌then◌else◌};
ghost use Rattle.smf_dep.specs.Cycles.{asks_for, cites, on_cycle};
ghost use Rattle.smf_dep.specs.Verdicts.{is_cited};
ghost use Rattle.smf_reasons.specs.Reasons.{NamesCycle};
ghost use Rattle.smf_reasons.specs.Ways.{IfWay, WayOrNone};

use crate::search::places_of_cycle;
use smf_dep::{Dependency, GraphMember, Grouping};
use smf_fmri::{Fmri, InstanceFmri, Items};
use std::alloc::{AllocError, Global};

pub(crate) fn is_among(member: &GraphMember, entities: &[Fmri]) -> bool
    ensures { result ≡ list_any (λ e. is_cited e member.now) entities.now }
{
    entities.iter().any(|entity| member.is_cited(entity))
}

/// True if a dependency cites an instance, and does not exclude it.
fn asks_for(member: &GraphMember, dependency: &Dependency) -> bool
    ensures { result ≡ asks_for member.now dependency.now }
{
    dependency.grouping != Grouping::ExcludeAll && is_among(member, dependency.entities.as_slice())
}

fn any_asks_for(member: &GraphMember, dependencies: &[Dependency]) -> bool
    ensures { result ≡ list_any (asks_for member.now) dependencies.now }
{
    dependencies
        .iter()
        .any(|dependency| asks_for(member, dependency))
}

/// True if an instance cites another.
pub(crate) fn cites(from: &GraphMember, to: &GraphMember) -> bool
    ensures { result ≡ cites from.now to.now }
{
    match &from.dependencies {
        None => false,
        Some(dependencies) => any_asks_for(to, dependencies.as_slice()),
    }
}

/// A name before others.
fn with_first(
    alloc: Global,
    name: &InstanceFmri,
    others: Items<InstanceFmri>,
) -> Result<Items<InstanceFmri>, AllocError>
    ensures { IfOk result (λ all. all ≡ name.now ∷ others) }
{
    let mut all = Items::new(alloc);
    all.push(name.clone()?)?;
    append(&mut all, others)?;
    Ok(all)
}

fn append(all: &mut Items<InstanceFmri>, more: Items<InstanceFmri>) -> Result<(), AllocError>
    ensures { OnOk result (all.new ≡ all.old ++ more) }
{
    for name in more.into_vec() {
        all.push(name)?;
    }
    Ok(())
}

/// No name, if an instance cites another.
fn straight(alloc: Global, from: &GraphMember, to: &GraphMember) -> Option<Items<InstanceFmri>>
    ensures { result ≡ (if cites from.now to.now then Some [] else None) }
{
    if cites(from, to) {
        Some(Items::new(alloc))
    } else {
        None
    }
}

/// The names of the instances at these places, if they are a way. Then `from` cites the first, each cites the next, and
/// the last cites `to`.
#[tactic(auto, using(crate::proofs::Ways::hinted, crate::proofs::Ways::longer))]
fn names_if_path(
    alloc: Global,
    members: &[GraphMember],
    from: &GraphMember,
    places: &[usize],
    to: &GraphMember,
) -> Result<Option<Items<InstanceFmri>>, AllocError>
    ensures { IfOk result (λ names. IfWay members.now from.now to.now names) }
{
    let [place, rest @ ..] = places else {
        return Ok(straight(alloc, from, to));
    };
    let Some(next) = members.get(*place) else {
        return Ok(None);
    };
    if !cites(from, next) {
        return Ok(None);
    }
    let Some(names) = names_if_path(alloc, members, next, rest, to)? else {
        return Ok(None);
    };
    let names = with_first(alloc, &next.name, names)?;
    Ok(Some(names))
}

/// The names of instances of which each cites the next, from the one to the other; none if there are none.
#[tactic(auto, using(crate::proofs::Ways::known_in, crate::proofs::Ways::wider_in, crate::proofs::Ways::met_in, crate::proofs::Ways::none_to_in, crate::proofs::Ways::none_from_in))]
fn way(
    alloc: Global,
    members: &[GraphMember],
    from: &GraphMember,
    to: &GraphMember,
) -> Result<Option<Items<InstanceFmri>>, AllocError>
    ensures { IfOk result (λ names. WayOrNone members.now from.now to.now names) }
{
    let [first, rest @ ..] = members else {
        return Ok(straight(alloc, from, to));
    };
    if let Some(names) = way(alloc, rest, from, to)? {
        return Ok(Some(names));
    }
    let Some(names) = way(alloc, rest, from, first)? else {
        return Ok(None);
    };
    let Some(after) = way(alloc, rest, first, to)? else {
        return Ok(None);
    };
    let after = with_first(alloc, &first.name, after)?;
    let mut names = names;
    append(&mut names, after)?;
    Ok(Some(names))
}

/// The names of the instances between an instance and itself on a cycle. A search finds them. If what it found were
/// wrong, this would try all ways.
fn between(
    alloc: Global,
    members: &[GraphMember],
    member: &GraphMember,
) -> Result<Option<Items<InstanceFmri>>, AllocError>
    ensures { IfOk result (λ names. WayOrNone members.now member.now member.now names) }
{
    let places = places_of_cycle(alloc, members, member)?;
    if let Some(names) = names_if_path(alloc, members, member, places.as_slice(), member)? {
        return Ok(Some(names));
    }
    way(alloc, members, member, member)
}

/// The names of a cycle that an instance is on, its own first; none if it is on none.
#[tactic(auto, using(crate::proofs::Ways::turned, crate::proofs::Ways::unturned, crate::proofs::Ways::off_cycle))]
pub(crate) fn cycle_of(
    alloc: Global,
    members: &[GraphMember],
    member: &GraphMember,
    is_on_cycle: bool,
) -> Result<Items<InstanceFmri>, AllocError>
    requires { is_on_cycle ≡ on_cycle members.now member.now }
    ensures { IfOk result (λ names. NamesCycle members.now member.now names) }
{
    if !is_on_cycle {
        return Ok(Items::new(alloc));
    }
    let Some(names) = between(alloc, members, member)? else {
        return Ok(Items::new(alloc));
    };
    let names = with_first(alloc, &member.name, names)?;
    Ok(names)
}
