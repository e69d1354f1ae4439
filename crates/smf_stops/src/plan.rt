//! The plan of a stop.

ghost use Rattle.std.specs.Option.{option_copied};
ghost use Rattle.std.specs.Prelude.{◌≡◌, IfOk, map};
ghost use Rattle.smf_fmri.specs.ByKey.{lookup};
ghost use Rattle.smf_state.specs.Patched.{by_item};
ghost use Rattle.smf_stops.specs.Plan.{added, all_seconds, batch_of, longer, most_seconds, plan_of, seconds_in, stop_of};

use crate::batches::batches;
use crate::seconds::{StopLimits, plus, stop_seconds};
use smf_dep::{GraphMember, members};
use smf_fmri::{InstanceFmri, Items};
use smf_state::{View, ViewItem};
use std::alloc::{AllocError, Global};

/// An instance that stops, and for how many seconds its stop may take.
#[derive(Drop)]
pub struct Stop {
    pub name: InstanceFmri,
    pub seconds: Option<u64>,
}

/// Instances that stop at once, in number order, and for how many seconds all of them may take.
#[derive(Drop)]
pub struct StopBatch {
    pub stops: Items<Stop>,
    pub seconds: Option<u64>,
}

/// Batches that stop one after the other, and for how many seconds all of them may take.
#[derive(Drop)]
pub struct StopPlan {
    pub batches: Items<StopBatch>,
    pub seconds: Option<u64>,
}

fn seconds_in(
    alloc: Global,
    limits: &StopLimits,
    member: &GraphMember,
    item: Option<&ViewItem>,
) -> Result<Option<u64>, AllocError>
    ensures { IfOk result (λ seconds. seconds ≡ seconds_in limits.now member.now (option_copied item.entry)) }
{
    match item {
        None => Ok(None),
        Some(item) => stop_seconds(alloc, limits, &item.row.owner, member),
    }
}

fn stop_of(
    alloc: Global,
    limits: &StopLimits,
    view: &View,
    member: &GraphMember,
) -> Result<Stop, AllocError>
    ensures { IfOk result (λ stop. stop ≡ stop_of limits.now view.now member.now) }
{
    let name = member.name.clone()?;
    let seconds = seconds_in(alloc, limits, member, view.items.get(&member.instance))?;
    Ok(Stop { name, seconds })
}

fn stops_of(
    alloc: Global,
    limits: &StopLimits,
    view: &View,
    members: &[GraphMember],
) -> Result<Items<Stop>, AllocError>
    ensures { IfOk result (λ stops. stops ≡ map (stop_of limits.now view.now) members.now) }
{
    let mut stops = Items::new(alloc);
    for member in members {
        stops.push(stop_of(alloc, limits, view, member)?)?;
    }
    Ok(stops)
}

fn longer(seconds: Option<u64>, other: Option<u64>) -> Option<u64>
    ensures { result ≡ longer seconds other }
{
    match seconds {
        None => None,
        Some(seconds) => match other {
            None => None,
            Some(other) => Some(seconds.max(other)),
        },
    }
}

fn most_seconds(stops: &[Stop]) -> Option<u64>
    ensures { result ≡ most_seconds stops.now }
{
    let mut seconds = Some(0);
    for stop in stops {
        seconds = longer(seconds, stop.seconds);
    }
    seconds
}

fn batch_of(
    alloc: Global,
    limits: &StopLimits,
    view: &View,
    members: &[GraphMember],
) -> Result<StopBatch, AllocError>
    ensures { IfOk result (λ batch. batch ≡ batch_of limits.now view.now members.now) }
{
    let stops = stops_of(alloc, limits, view, members)?;
    let seconds = most_seconds(stops.as_slice());
    Ok(StopBatch { stops, seconds })
}

fn batches_of(
    alloc: Global,
    limits: &StopLimits,
    view: &View,
    members: &[Items<GraphMember>],
) -> Result<Items<StopBatch>, AllocError>
    ensures { IfOk result (λ all. all ≡ map (batch_of limits.now view.now) members.now) }
{
    let mut all = Items::new(alloc);
    for batch in members {
        all.push(batch_of(alloc, limits, view, batch.as_slice())?)?;
    }
    Ok(all)
}

fn added(seconds: Option<u64>, more: Option<u64>) -> Option<u64>
    ensures { result ≡ added seconds more }
{
    match more {
        None => None,
        Some(more) => plus(seconds, more),
    }
}

fn all_seconds(batches: &[StopBatch]) -> Option<u64>
    ensures { result ≡ all_seconds batches.now }
{
    let mut seconds = Some(0);
    for batch in batches {
        seconds = added(seconds, batch.seconds);
    }
    seconds
}

/// In which batches the instances of a view stop, if they are asked to from now on.
#[tactic(auto, unfolding(crate::specs::Plan::plan_of))]
pub fn stop_plan(alloc: Global, view: &View, limits: &StopLimits) -> Result<StopPlan, AllocError>
    ensures { IfOk result (λ plan. plan ≡ plan_of limits.now view.now) }
{
    let members = members(alloc, view.items.as_slice())?;
    let members = batches(alloc, members)?;
    let batches = batches_of(alloc, limits, view, members.as_slice())?;
    let seconds = all_seconds(batches.as_slice());
    Ok(StopPlan { batches, seconds })
}
