//! Changes of what is configured that no refresh has taken up.

ghost use Rattle.std.specs.List.{AllZip};
ghost use Rattle.std.specs.Option.{option_copied};
ghost use Rattle.std.specs.Prelude.{◌≡◌, IfOk, List, OnOk, Some, false};
ghost use Rattle.smf_runs.specs.Unrefreshed.{are_others, groups_after_refresh, groups_in, has_change, is_changed_since, is_unrefreshed, noted, noted_all, with_change};
ghost use Rattle.smf_model.specs.declared.held.Instance.{Instance as AnyInstance};
ghost use Rattle.smf_model.specs.Contents.{Holdings};
ghost use Rattle.smf_model.specs.Look.{instance};
ghost use Rattle.smf_model.specs.Next.{current_instance, named_snapshot, snapshot_of as taken_snapshot};
ghost use Rattle.smf_reasons.specs.Reasons.{IsTold};
ghost use Rattle.smf_snap.specs.Composed.{composition};
ghost use Rattle.smf_value.specs.Body.{AreGroups};
ghost use Rattle.smf_value.specs.Groups.{GroupRecord};

use crate::configured::taken_of;
use smf_fmri::{Items, Ordered};
use smf_model::{Instance, Journal, Owner, Plain, Snapshot};
use smf_reasons::{Reason, Told};
use smf_state::{View, ViewItem};
use smf_value::{Group, encode};
use std::alloc::{AllocError, Global};

/// The snapshot of a number, if there is a number.
fn snapshot_of<J: Journal>(repository: &Plain<J>, number: Option<u64>) -> Option<&Snapshot>
    ensures { option_copied result ≡ named_snapshot repository.now.held number }
{
    match number {
        None => None,
        Some(number) => repository.snapshot(number),
    }
}

/// An instance's own groups over those of its service.
fn composed(service: Ordered<Group>, own: Ordered<Group>) -> Result<Ordered<Group>, AllocError>
    ensures { IfOk result (λ groups. groups ≡ composition own service) }
{
    let mut groups = service;
    for group in own.into_vec() {
        groups.put(group)?;
    }
    Ok(groups)
}

fn groups_in(snapshot: &Snapshot) -> Result<Ordered<Group>, AllocError>
    ensures { IfOk result (λ groups. groups ≡ groups_in snapshot.now) }
{
    let service = snapshot.service_groups.clone()?;
    let own = snapshot.instance_groups.clone()?;
    composed(service, own)
}

/// The groups that an instance would have after a refresh.
fn groups_after_refresh<J: Journal>(
    alloc: Global,
    repository: &Plain<J>,
    instance: &Instance,
) -> Result<Ordered<Group>, AllocError>
    ensures { IfOk result (λ groups. groups ≡ groups_after_refresh repository.now.held instance.now) }
{
    let service = instance.name.as_fmri().service_fmri(alloc)?;
    let service = taken_of(alloc, repository, &Owner::Service(service))?;
    let own = taken_of(alloc, repository, &Owner::Instance(instance.number))?;
    composed(service, own)
}

/// True if a snapshot keeps these groups by other bytes.
#[tactic(auto, unfolding(crate::specs::Unrefreshed::are_others))]
fn are_others(
    alloc: Global,
    one: &Ordered<Group>,
    other: &Ordered<Group>,
) -> Result<bool, AllocError>
    ensures { IfOk result (λ b. b ≡ are_others one.now other.now) }
{
    let one = encode(alloc, one)?;
    let other = encode(alloc, other)?;
    Ok(!(one == other))
}

fn is_changed_since<J: Journal>(
    alloc: Global,
    repository: &Plain<J>,
    instance: &Instance,
    snapshot: &Snapshot,
) -> Result<bool, AllocError>
    ensures { IfOk result (λ b. b ≡ is_changed_since repository.now.held instance.now (Some snapshot.now)) }
{
    let running = groups_in(snapshot)?;
    let configured = groups_after_refresh(alloc, repository, instance)?;
    are_others(alloc, &running, &configured)
}

/// True if an instance has other groups by its snapshot `running` than it would have after a refresh.
fn is_instance_unrefreshed<J: Journal>(
    alloc: Global,
    repository: &Plain<J>,
    instance: &Instance,
) -> Result<bool, AllocError>
    ensures { IfOk result (λ b. b ≡ is_unrefreshed repository.now.held (Some instance.now)) }
{
    match snapshot_of(repository, instance.row.running) {
        None => Ok(false),
        Some(snapshot) => is_changed_since(alloc, repository, instance, snapshot),
    }
}

/// The same of the instance of a number.
fn is_unrefreshed<J: Journal>(
    alloc: Global,
    repository: &Plain<J>,
    number: u64,
) -> Result<bool, AllocError>
    ensures { IfOk result (λ b. b ≡ is_unrefreshed repository.now.held (current_instance repository.now.held number)) }
{
    match repository.instance(number)? {
        None => Ok(false),
        Some(instance) => {
            let b = is_instance_unrefreshed(alloc, repository, &instance)?;
            Ok(b)
        }
    }
}

/// The same, if the instance has reasons.
fn has_change<J: Journal>(
    alloc: Global,
    repository: &Plain<J>,
    number: u64,
    reasons: &[Reason],
) -> Result<bool, AllocError>
    ensures { IfOk result (λ b. b ≡ has_change repository.now.held number reasons.now) }
{
    match reasons {
        [] => Ok(false),
        [_, ..] => is_unrefreshed(alloc, repository, number),
    }
}

fn add_change(told: &mut Told, changed: bool) -> Result<(), AllocError>
    ensures { OnOk result (told.new ≡ with_change changed told.old) }
{
    if changed {
        told.reasons.push(Reason::Unrefreshed)
    } else {
        Ok(())
    }
}

/// What is told of an instance, with one more reason if it has some and is unrefreshed.
fn noted<J: Journal>(
    alloc: Global,
    repository: &Plain<J>,
    item: &ViewItem,
    told: Told,
) -> Result<Told, AllocError>
    ensures { IfOk result (λ t. t ≡ noted repository.now.held item.now told) }
{
    let changed = has_change(alloc, repository, item.instance, told.reasons.as_slice())?;
    let mut told = told;
    add_change(&mut told, changed)?;
    Ok(told)
}

/// The same of all that is told of a view.
pub(crate) fn noted_all<J: Journal>(
    alloc: Global,
    repository: &Plain<J>,
    view: &View,
    all: Items<Told>,
) -> Result<Items<Told>, AllocError>
    requires { AllZip (IsTold view.now) view.now.items all }
    ensures { IfOk result (λ with. with ≡ noted_all repository.now.held view.now.items all) }
{
    let mut rest = all.into_vec().into_iter();
    let mut with = Items::new(alloc);
    let items = view.items.as_slice();
    for item in items {
        let Some(told) = rest.next() else {
            unreachable!()
        };
        with.push(noted(alloc, repository, item, told)?)?;
    }
    Ok(with)
}

/// What is told exactly if groups differ, and no more after a refresh: its snapshot holds the groups that are compared.
pub fn a_change_is_told_until_a_refresh()
    ensures differs { (gs hs : List GroupRecord) → AreGroups gs → AreGroups hs → are_others gs hs ≡ false → gs ≡ hs }
    ensures same { (gs : List GroupRecord) → are_others gs gs ≡ false }
    ensures taken { (h : Holdings) (i : AnyInstance) → instance h i.number ≡ Some i
        → groups_after_refresh h i ≡ groups_in (taken_snapshot h i) }
{}
