ghost use Rattle.std.specs.Prelude.{◌≡◌, ◌++◌, ◌∷◌, [], IfOk, OnOk, flat_map};
ghost use Rattle.smf_dep.specs.Members.{implicit, when_there};
ghost use Rattle.smf_dep.specs.Requirements.{Gives, read_groups};
ghost use Rattle.smf_reasons.specs.Reasons.{group_met, of_group, of_restarter, restarter_met};

use crate::entity_states::{is_met, standings};
use crate::reason::Reason;
use smf_dep::{Dependency, DependencyFault, Graph, GraphMember, Grouping, RestartOn, read_groups};
use smf_fmri::{InstanceFmri, Items, Ordered};
use smf_state::is_startd;
use smf_value::{Group, Name};
use std::alloc::{AllocError, Global};

/// The dependency that a group of type `dependency` asks for alone.
pub(crate) fn read_alone(alloc: Global, group: &Group) -> Result<Items<Dependency>, DependencyFault>
    ensures { Gives (λ x. x) result (read_groups (group.now ∷ [])) }
{
    let mut groups = Ordered::new(alloc);
    groups.put(group.clone()?)?;
    read_groups(alloc, &groups)
}

/// Puts a reason if a dependency of a group is not met.
fn put_unmet(
    alloc: Global,
    members: &[GraphMember],
    graph: &Graph,
    group: &Name,
    dependency: &Dependency,
    all: &mut Items<Reason>,
) -> Result<(), AllocError>
    requires { graph.now ≡ members.now }
    ensures { OnOk result (all.new ≡ all.old ++ group_met members.now group.now dependency.now) }
{
    if is_met(alloc, graph, dependency)? {
        return Ok(());
    }
    let standings = standings(alloc, members, graph, dependency)?;
    let group = group.clone()?;
    all.push(Reason::NotMet {
        group,
        grouping: dependency.grouping,
        standings,
    })
}

fn put_all_unmet(
    alloc: Global,
    members: &[GraphMember],
    graph: &Graph,
    group: &Name,
    dependencies: &[Dependency],
    all: &mut Items<Reason>,
) -> Result<(), AllocError>
    requires { graph.now ≡ members.now }
    ensures { OnOk result (all.new ≡ all.old ++ flat_map (group_met members.now group.now) dependencies.now) }
{
    for dependency in dependencies {
        put_unmet(alloc, members, graph, group, dependency, all)?;
    }
    Ok(())
}

pub(crate) fn put_unreadable(
    group: &Name,
    fault: DependencyFault,
    all: &mut Items<Reason>,
) -> Result<(), AllocError>
    ensures { OnOk result (all.new ≡ all.old ++ Reason.UnreadableGroup group.now fault ∷ []) }
{
    let group = group.clone()?;
    all.push(Reason::UnreadableGroup { group, fault })
}

/// Puts the reasons of a group: it can't be read, or is not met.
#[tactic(auto, using(crate::proofs::Reasoned::group_asked, crate::proofs::Reasoned::group_unread))]
fn put_group(
    alloc: Global,
    members: &[GraphMember],
    graph: &Graph,
    group: &Group,
    all: &mut Items<Reason>,
) -> Result<(), AllocError>
    requires { graph.now ≡ members.now }
    ensures { OnOk result (all.new ≡ all.old ++ of_group members.now group.now) }
{
    match read_alone(alloc, group) {
        Ok(dependencies) => put_all_unmet(
            alloc,
            members,
            graph,
            group.name(),
            dependencies.as_slice(),
            all,
        ),
        Err(DependencyFault::Memory) => Err(AllocError),
        Err(DependencyFault::BadGrouping) => {
            put_unreadable(group.name(), DependencyFault::BadGrouping, all)
        }
        Err(DependencyFault::BadRestartOn) => {
            put_unreadable(group.name(), DependencyFault::BadRestartOn, all)
        }
        Err(DependencyFault::PathType) => {
            put_unreadable(group.name(), DependencyFault::PathType, all)
        }
        Err(DependencyFault::BadEntity) => {
            put_unreadable(group.name(), DependencyFault::BadEntity, all)
        }
    }
}

/// Puts the reasons of each group: it can't be read, or is not met.
pub(crate) fn put_groups(
    alloc: Global,
    members: &[GraphMember],
    graph: &Graph,
    groups: &[Group],
    all: &mut Items<Reason>,
) -> Result<(), AllocError>
    requires { graph.now ≡ members.now }
    ensures { OnOk result (all.new ≡ all.old ++ flat_map (of_group members.now) groups.now) }
{
    for group in groups {
        put_group(alloc, members, graph, group, all)?;
    }
    Ok(())
}

/// The dependency of an instance on its restarter, if that is not svc.startd.
pub(crate) fn implicit(
    alloc: Global,
    owner: &InstanceFmri,
) -> Result<Option<Dependency>, AllocError>
    ensures { IfOk result (λ d. when_there d ≡ implicit owner.now) }
{
    if is_startd(owner) {
        return Ok(None);
    }
    let mut entities = Items::new(alloc);
    entities.push(owner.as_fmri().clone()?)?;
    Ok(Some(Dependency {
        grouping: Grouping::RequireAll,
        restart_on: RestartOn::Nothing,
        entities,
    }))
}

fn put_off(
    alloc: Global,
    members: &[GraphMember],
    graph: &Graph,
    dependency: &Dependency,
    all: &mut Items<Reason>,
) -> Result<(), AllocError>
    requires { graph.now ≡ members.now }
    ensures { OnOk result (all.new ≡ all.old ++ restarter_met members.now dependency.now) }
{
    if is_met(alloc, graph, dependency)? {
        return Ok(());
    }
    let standings = standings(alloc, members, graph, dependency)?;
    all.push(Reason::RestarterIsOff(standings))
}

/// Puts a reason if the restarter's instance is absent or does not run.
#[tactic(auto, using(crate::proofs::Reasoned::unwanted, crate::proofs::Reasoned::wanted))]
pub(crate) fn put_restarter(
    alloc: Global,
    members: &[GraphMember],
    graph: &Graph,
    owner: &InstanceFmri,
    all: &mut Items<Reason>,
) -> Result<(), AllocError>
    requires { graph.now ≡ members.now }
    ensures { OnOk result (all.new ≡ all.old ++ of_restarter members.now owner.now) }
{
    match implicit(alloc, owner)? {
        None => Ok(()),
        Some(dependency) => put_off(alloc, members, graph, &dependency, all),
    }
}
