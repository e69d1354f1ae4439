ghost use Rattle.std.specs.Prelude.{◌≡◌, ◌++◌, IfOk, OnOk, map};
ghost use Rattle.smf_dep.specs.Verdicts.{members_of_entity, is_met};
ghost use Rattle.smf_reasons.specs.Reasons.{alone, or_absent, says_met, standings_if_unmet, standings, standing_of_member};

use crate::reason::Standing;
use smf_dep::{Dependency, Graph, GraphMember, Verdict};
use smf_fmri::{Fmri, Items};
use std::alloc::{AllocError, Global};

fn says_met(verdict: Verdict) -> bool
    ensures { result ≡ says_met verdict }
{
    match verdict {
        Verdict::Met => true,
        Verdict::Waiting => false,
        Verdict::Blocked => false,
    }
}

/// True if a dependency is met.
#[tactic(auto, using(crate::proofs::Verdicts::met_is))]
pub(crate) fn is_met(
    alloc: Global,
    graph: &Graph,
    dependency: &Dependency,
) -> Result<bool, AllocError>
    ensures { IfOk result (λ b. b ≡ is_met graph.now dependency.now) }
{
    let verdict = graph.verdict(alloc, dependency)?;
    Ok(says_met(verdict))
}

/// A dependency on one of its entities alone.
fn alone(alloc: Global, dependency: &Dependency, entity: &Fmri) -> Result<Dependency, AllocError>
    ensures { IfOk result (λ d. d ≡ alone dependency.now entity.now) }
{
    let mut entities = Items::new(alloc);
    entities.push(entity.clone()?)?;
    Ok(Dependency {
        grouping: dependency.grouping,
        restart_on: dependency.restart_on,
        entities,
    })
}

/// The entity itself if it stands for no instance.
#[tactic(auto, using(crate::proofs::Reasoned::absent, crate::proofs::Reasoned::there))]
fn or_absent(entity: &Fmri, all: Items<Standing>) -> Result<Items<Standing>, AllocError>
    ensures { IfOk result (λ or. or ≡ or_absent entity.now all) }
{
    if let [_, ..] = all.as_slice() {
        return Ok(all);
    }
    let name = entity.clone()?;
    let mut all = all;
    all.push(Standing { name, state: None })?;
    Ok(all)
}

/// The instances that an entity stands for.
fn standings_of_entity(
    alloc: Global,
    members: &[GraphMember],
    entity: &Fmri,
) -> Result<Items<Standing>, AllocError>
    ensures { IfOk result (λ all. all ≡ map standing_of_member (members_of_entity members.now entity.now)) }
{
    let mut all = Items::new(alloc);
    for member in members {
        if member.is_cited(entity) {
            all.push(Standing {
                name: member.name.as_fmri().clone()?,
                state: Some(member.state),
            })?;
        }
    }
    Ok(all)
}

/// Puts standings after others.
fn append(all: &mut Items<Standing>, more: Items<Standing>) -> Result<(), AllocError>
    ensures { OnOk result (all.new ≡ all.old ++ more) }
{
    for standing in more.into_vec() {
        all.push(standing)?;
    }
    Ok(())
}

/// Puts the standings of an entity, if a dependency on it alone would not be met.
fn put_standing(
    alloc: Global,
    members: &[GraphMember],
    graph: &Graph,
    dependency: &Dependency,
    entity: &Fmri,
    all: &mut Items<Standing>,
) -> Result<(), AllocError>
    requires { graph.now ≡ members.now }
    ensures { OnOk result (all.new ≡ all.old ++ standings_if_unmet members.now dependency.now entity.now) }
{
    let alone = alone(alloc, dependency, entity)?;
    if is_met(alloc, graph, &alone)? {
        return Ok(());
    }
    let cited = standings_of_entity(alloc, members, entity)?;
    let more = or_absent(entity, cited)?;
    append(all, more)
}

/// The entities on which alone a dependency would not be met, with their states.
#[tactic(auto, unfolding(crate::specs::Reasons::standings))]
pub(crate) fn standings(
    alloc: Global,
    members: &[GraphMember],
    graph: &Graph,
    dependency: &Dependency,
) -> Result<Items<Standing>, AllocError>
    requires { graph.now ≡ members.now }
    ensures { IfOk result (λ all. all ≡ standings members.now dependency.now) }
{
    let mut all = Items::new(alloc);
    for entity in dependency.entities.as_slice() {
        put_standing(alloc, members, graph, dependency, entity, &mut all)?;
    }
    Ok(all)
}
