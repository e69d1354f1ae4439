ghost use Rattle.std.specs.Prelude.{◌≡◌, ◌++◌, ◌∷◌, [], IfOk, None, OnOk, Some, flat_map, map};
ghost use Rattle.smf_dep.specs.Members.{implicit, members, when_there};
ghost use Rattle.smf_dep.specs.Requirements.{Gives, read_groups};
ghost use Rattle.smf_provenance.specs.Groups.{all_groups, group_told, of_group, of_restarter};

use crate::evidence::GroupEvidence;
use crate::scene::Scene;
use smf_dep::{Dependency, DependencyFault, Grouping, RestartOn, read_groups};
use smf_fmri::{InstanceFmri, Items, Ordered};
use smf_state::is_startd;
use smf_value::{Group, Name};
use std::alloc::{AllocError, Global};

/// The dependency that a group of type `dependency` asks for alone.
pub(crate) fn read_alone(alloc: Global, group: &Group) -> Result<Items<Dependency>, DependencyFault>
    ensures { Gives (λ x. x) result (read_groups (group.now ∷ [])) }
{
    let mut groups = Ordered::new(alloc);
    groups.put(group.clone()?)?;
    read_groups(alloc, &groups)
}

/// The dependency of an instance on its restarter, if that is not svc.startd.
fn implicit(alloc: Global, owner: &InstanceFmri) -> Result<Option<Dependency>, AllocError>
    ensures { IfOk result (λ d. when_there d ≡ implicit owner.now) }
{
    if is_startd(owner) {
        return Ok(None);
    }
    let mut entities = Items::new(alloc);
    entities.push(owner.as_fmri().clone()?)?;
    Ok(Some(Dependency {
        grouping: Grouping::RequireAll,
        restart_on: RestartOn::Nothing,
        entities,
    }))
}

#[tactic(auto, unfolding(crate::specs::Groups::group_told))]
fn group_told(
    alloc: Global,
    scene: &Scene,
    group: Option<Name>,
    dependency: &Dependency,
) -> Result<GroupEvidence, AllocError>
    ensures { IfOk result (λ told. told ≡ group_told (members scene.now.items) group dependency.now) }
{
    let is_met = scene.is_met(alloc, dependency)?;
    let cited = scene.cited_by(alloc, dependency)?;
    Ok(GroupEvidence {
        group,
        grouping: dependency.grouping,
        restart_on: dependency.restart_on,
        is_met,
        cited,
    })
}

fn put_asked(
    alloc: Global,
    scene: &Scene,
    group: &Name,
    dependencies: &[Dependency],
    all: &mut Items<GroupEvidence>,
) -> Result<(), AllocError>
    ensures { OnOk result
        (all.new ≡ all.old ++ map (group_told (members scene.now.items) (Some group.now)) dependencies.now) }
{
    for dependency in dependencies {
        let name = group.clone()?;
        all.push(group_told(alloc, scene, Some(name), dependency)?)?;
    }
    Ok(())
}

/// Puts what a group asks for, if it can be read.
#[tactic(auto, using(crate::proofs::Told::group_asked, crate::proofs::Told::group_unread))]
fn put_group(
    alloc: Global,
    scene: &Scene,
    group: &Group,
    all: &mut Items<GroupEvidence>,
) -> Result<(), AllocError>
    ensures { OnOk result (all.new ≡ all.old ++ of_group (members scene.now.items) group.now) }
{
    match read_alone(alloc, group) {
        Ok(dependencies) => put_asked(alloc, scene, group.name(), dependencies.as_slice(), all),
        Err(DependencyFault::Memory) => Err(AllocError),
        Err(DependencyFault::BadGrouping) => Ok(()),
        Err(DependencyFault::BadRestartOn) => Ok(()),
        Err(DependencyFault::PathType) => Ok(()),
        Err(DependencyFault::BadEntity) => Ok(()),
    }
}

fn put_groups(
    alloc: Global,
    scene: &Scene,
    groups: &[Group],
    all: &mut Items<GroupEvidence>,
) -> Result<(), AllocError>
    ensures { OnOk result (all.new ≡ all.old ++ flat_map (of_group (members scene.now.items)) groups.now) }
{
    for group in groups {
        put_group(alloc, scene, group, all)?;
    }
    Ok(())
}

/// Puts the dependency on its restarter.
#[tactic(auto, using(crate::proofs::Told::unwanted, crate::proofs::Told::wanted))]
fn put_restarter(
    alloc: Global,
    scene: &Scene,
    owner: &InstanceFmri,
    all: &mut Items<GroupEvidence>,
) -> Result<(), AllocError>
    ensures { OnOk result (all.new ≡ all.old ++ of_restarter (members scene.now.items) owner.now) }
{
    match implicit(alloc, owner)? {
        None => Ok(()),
        Some(dependency) => all.push(group_told(alloc, scene, None, &dependency)?),
    }
}

/// The dependencies of an instance with these groups and this restarter.
pub(crate) fn all_groups(
    alloc: Global,
    scene: &Scene,
    groups: &[Group],
    owner: &InstanceFmri,
) -> Result<Items<GroupEvidence>, AllocError>
    ensures { IfOk result (λ all. all ≡ all_groups (members scene.now.items) groups.now owner.now) }
{
    let mut all = Items::new(alloc);
    put_groups(alloc, scene, groups, &mut all)?;
    put_restarter(alloc, scene, owner, &mut all)?;
    Ok(all)
}
