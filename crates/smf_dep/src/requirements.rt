ghost use Rattle.std.specs.Option.{option_copied};
ghost use Rattle.std.specs.Prelude.{◌≡◌, codes};
ghost use Rattle.smf_dep.specs.Requirements.{Gives, dependency_of, entities_in, entities_of, entity_of, value_or_fault, grouping_in, is_dependency, is_of_names, is_of_services, read_groups, restart_in};
ghost use Rattle.smf_dep.specs.declared.fault.DependencyFault.TheVariants.{BadGrouping, BadRestartOn};
ghost use Rattle.smf_value.specs.Groups.{property_of, text_in};

use crate::dependency::Dependency;
use crate::fault::DependencyFault;
use smf_fmri::{Fmri, FmriFault, Items, Ordered};
use smf_links::{Grouping, RestartOn};
use smf_value::{Group, Kind, Property, Value};
use std::alloc::Global;

fn grouping_of(group: &Group) -> Result<Grouping, DependencyFault>
    ensures { result ≡ value_or_fault BadGrouping (grouping_in (text_in (property_of (codes "grouping") group.now))) }
{
    let Some(text) = group.text("grouping") else {
        return Err(DependencyFault::BadGrouping);
    };
    match Grouping::parse(text.as_str()) {
        Some(grouping) => Ok(grouping),
        None => Err(DependencyFault::BadGrouping),
    }
}

fn restart_of(group: &Group) -> Result<RestartOn, DependencyFault>
    ensures { result ≡ value_or_fault BadRestartOn (restart_in (text_in (property_of (codes "restart_on") group.now))) }
{
    let Some(text) = group.text("restart_on") else {
        return Err(DependencyFault::BadRestartOn);
    };
    match RestartOn::parse(text.as_str()) {
        Some(restart_on) => Ok(restart_on),
        None => Err(DependencyFault::BadRestartOn),
    }
}

/// True if `type` is `service`, or is missing.
fn is_of_services(property: Option<&Property>) -> bool
    ensures { result ≡ is_of_services (option_copied property.entry) }
{
    match property {
        None => true,
        Some(property) => match property.text() {
            None => false,
            Some(text) => text.as_str() == "service",
        },
    }
}

/// The name that a value gives.
fn entity_of(alloc: Global, value: &Value) -> Result<Fmri, DependencyFault>
    ensures { Gives (λ x. x) result (entity_of value.now) }
{
    match value {
        Value::Fmri(name) => Ok(name.clone()?),
        Value::Astring(text) => match Fmri::parse(alloc, text.as_str()) {
            Ok(name) => Ok(name),
            Err(FmriFault::Memory) => Err(DependencyFault::Memory),
            Err(_) => Err(DependencyFault::BadEntity),
        },
        _ => Err(DependencyFault::BadEntity),
    }
}

fn entities_of(alloc: Global, values: &[Value]) -> Result<Items<Fmri>, DependencyFault>
    ensures { Gives (λ x. x) result (entities_of values.now) }
{
    let mut entities = Items::new(alloc);
    for value in values {
        let entity = entity_of(alloc, value)?;
        entities.push(entity)?;
    }
    Ok(entities)
}

fn is_of_names(kind: Kind) -> bool
    ensures { result ≡ is_of_names kind }
{
    matches!(kind, Kind::Fmri | Kind::Astring)
}

fn entities_in(alloc: Global, property: Option<&Property>) -> Result<Items<Fmri>, DependencyFault>
    ensures { Gives (λ x. x) result (entities_in (option_copied property.entry)) }
{
    let Some(property) = property else {
        return Ok(Items::new(alloc));
    };
    if !is_of_names(property.kind()) {
        return Err(DependencyFault::BadEntity);
    }
    entities_of(alloc, property.values())
}

#[tactic(auto, unfolding(crate::specs::Requirements::dependency_of))]
fn dependency_of(alloc: Global, group: &Group) -> Result<Dependency, DependencyFault>
    ensures { Gives (λ x. x) result (dependency_of group.now) }
{
    let grouping = grouping_of(group)?;
    let restart_on = restart_of(group)?;
    if !is_of_services(group.find("type")) {
        return Err(DependencyFault::PathType);
    }
    let entities = entities_in(alloc, group.find("entities"))?;
    Ok(Dependency {
        grouping,
        restart_on,
        entities,
    })
}

fn is_dependency(group: &Group) -> bool
    ensures { result ≡ is_dependency group.now }
{
    group.group_type().as_str() == "dependency"
}

/// The dependencies that groups of type `dependency` ask for.
fn dependencies_of(alloc: Global, groups: &[Group]) -> Result<Items<Dependency>, DependencyFault>
    ensures { Gives (λ x. x) result (read_groups groups.now) }
{
    let mut all = Items::new(alloc);
    for group in groups {
        if !is_dependency(group) {
            continue;
        }
        let dependency = dependency_of(alloc, group)?;
        all.push(dependency)?;
    }
    Ok(all)
}

/// The dependencies that groups of type `dependency` ask for, in the order of the groups. The fault is that of the
/// first group that can't be read. If several of its properties are bad, `grouping` goes before `restart_on`, then
/// `type`, then `entities`.
pub fn read_groups(
    alloc: Global,
    groups: &Ordered<Group>,
) -> Result<Items<Dependency>, DependencyFault>
    ensures { Gives (λ x. x) result (read_groups groups.now) }
{
    dependencies_of(alloc, groups.as_slice())
}
