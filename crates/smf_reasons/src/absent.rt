//! Entities that a dependency wants, and that stand for no instance.

ghost use Rattle.std.specs.Prelude.{◌≡◌, ◌++◌, ◌∷◌, [], IfOk, OnOk, flat_map};
ghost use Rattle.smf_reasons.specs.Flaws.{absent, absent_of, group_checked, group_flaws, is_there, owner_checked, restarter_flaws, wants};

use crate::dependencies::{implicit, put_unreadable, read_alone};
use crate::reason::{Reason, Standing};
use smf_dep::{Dependency, DependencyFault, GraphMember, Grouping};
use smf_fmri::{Fmri, InstanceFmri, Items};
use smf_value::{Group, Name};
use std::alloc::{AllocError, Global};

/// True if an absent instance stands in the way of a group. An entity that is optional or excluded may be absent.
fn wants(grouping: Grouping) -> bool
    ensures { result ≡ wants grouping }
{
    match grouping {
        Grouping::RequireAll => true,
        Grouping::RequireAny => true,
        Grouping::OptionalAll => false,
        Grouping::ExcludeAll => false,
    }
}

/// True if an entity stands for an instance.
fn is_there(members: &[GraphMember], entity: &Fmri) -> bool
    ensures { result ≡ is_there members.now entity.now }
{
    members.iter().any(|member| member.is_cited(entity))
}

/// Puts an entity, if it stands for no instance.
fn put_absent(
    members: &[GraphMember],
    entity: &Fmri,
    all: &mut Items<Standing>,
) -> Result<(), AllocError>
    ensures { OnOk result (all.new ≡ all.old ++ absent members.now entity.now) }
{
    if is_there(members, entity) {
        return Ok(());
    }
    let name = entity.clone()?;
    all.push(Standing { name, state: None })
}

fn put_all_absent(
    members: &[GraphMember],
    entities: &[Fmri],
    all: &mut Items<Standing>,
) -> Result<(), AllocError>
    ensures { OnOk result (all.new ≡ all.old ++ flat_map (absent members.now) entities.now) }
{
    for entity in entities {
        put_absent(members, entity, all)?;
    }
    Ok(())
}

/// The entities that a dependency wants, and that stand for no instance.
#[tactic(auto, unfolding(crate::specs::Flaws::absent_of))]
fn absent_of(
    alloc: Global,
    members: &[GraphMember],
    dependency: &Dependency,
) -> Result<Items<Standing>, AllocError>
    ensures { IfOk result (λ all. all ≡ absent_of members.now dependency.now) }
{
    let mut all = Items::new(alloc);
    if !wants(dependency.grouping) {
        return Ok(all);
    }
    put_all_absent(members, dependency.entities.as_slice(), &mut all)?;
    Ok(all)
}

fn put_standings(
    group: &Name,
    grouping: Grouping,
    standings: Items<Standing>,
    all: &mut Items<Reason>,
) -> Result<(), AllocError>
    ensures { OnOk result (all.new ≡ all.old ++ Reason.NamesNothing group.now grouping standings ∷ []) }
{
    let group = group.clone()?;
    all.push(Reason::NamesNothing {
        group,
        grouping,
        standings,
    })
}

/// Puts a reason if entities of a group name nothing.
#[tactic(auto, using(crate::proofs::Flawed::none_lost, crate::proofs::Flawed::some_lost))]
fn put_lost(
    alloc: Global,
    members: &[GraphMember],
    group: &Name,
    dependency: &Dependency,
    all: &mut Items<Reason>,
) -> Result<(), AllocError>
    ensures { OnOk result (all.new ≡ all.old ++ group_checked members.now group.now dependency.now) }
{
    let standings = absent_of(alloc, members, dependency)?;
    match standings.as_slice() {
        [] => Ok(()),
        [_, ..] => put_standings(group, dependency.grouping, standings, all),
    }
}

fn put_all_lost(
    alloc: Global,
    members: &[GraphMember],
    group: &Name,
    dependencies: &[Dependency],
    all: &mut Items<Reason>,
) -> Result<(), AllocError>
    ensures { OnOk result (all.new ≡ all.old ++ flat_map (group_checked members.now group.now) dependencies.now) }
{
    for dependency in dependencies {
        put_lost(alloc, members, group, dependency, all)?;
    }
    Ok(())
}

/// Puts the reasons of a group: it can't be read, or entities of it name nothing.
#[tactic(auto, using(crate::proofs::Flawed::group_asked, crate::proofs::Flawed::group_unread))]
fn put_group_flaws(
    alloc: Global,
    members: &[GraphMember],
    group: &Group,
    all: &mut Items<Reason>,
) -> Result<(), AllocError>
    ensures { OnOk result (all.new ≡ all.old ++ group_flaws members.now group.now) }
{
    match read_alone(alloc, group) {
        Ok(dependencies) => {
            put_all_lost(alloc, members, group.name(), dependencies.as_slice(), all)
        }
        Err(DependencyFault::Memory) => Err(AllocError),
        Err(DependencyFault::BadGrouping) => {
            put_unreadable(group.name(), DependencyFault::BadGrouping, all)
        }
        Err(DependencyFault::BadRestartOn) => {
            put_unreadable(group.name(), DependencyFault::BadRestartOn, all)
        }
        Err(DependencyFault::PathType) => {
            put_unreadable(group.name(), DependencyFault::PathType, all)
        }
        Err(DependencyFault::BadEntity) => {
            put_unreadable(group.name(), DependencyFault::BadEntity, all)
        }
    }
}

/// Puts the reasons of each group: it can't be read, or entities of it name nothing.
pub(crate) fn put_groups_flaws(
    alloc: Global,
    members: &[GraphMember],
    groups: &[Group],
    all: &mut Items<Reason>,
) -> Result<(), AllocError>
    ensures { OnOk result (all.new ≡ all.old ++ flat_map (group_flaws members.now) groups.now) }
{
    for group in groups {
        put_group_flaws(alloc, members, group, all)?;
    }
    Ok(())
}

#[tactic(auto, using(crate::proofs::Flawed::owner_there, crate::proofs::Flawed::owner_lost))]
fn put_owner(
    alloc: Global,
    members: &[GraphMember],
    dependency: &Dependency,
    all: &mut Items<Reason>,
) -> Result<(), AllocError>
    ensures { OnOk result (all.new ≡ all.old ++ owner_checked members.now dependency.now) }
{
    let standings = absent_of(alloc, members, dependency)?;
    match standings.as_slice() {
        [] => Ok(()),
        [_, ..] => all.push(Reason::RestarterIsOff(standings)),
    }
}

/// Puts a reason if the restarter's instance is absent.
#[tactic(auto, using(crate::proofs::Flawed::unwanted, crate::proofs::Flawed::wanted))]
pub(crate) fn put_restarter_flaws(
    alloc: Global,
    members: &[GraphMember],
    owner: &InstanceFmri,
    all: &mut Items<Reason>,
) -> Result<(), AllocError>
    ensures { OnOk result (all.new ≡ all.old ++ restarter_flaws members.now owner.now) }
{
    match implicit(alloc, owner)? {
        None => Ok(()),
        Some(dependency) => put_owner(alloc, members, &dependency, all),
    }
}
