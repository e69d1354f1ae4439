//! Instances as JSON.

ghost use Rattle.std.specs.Option.{option_copied};
ghost use Rattle.std.specs.Prelude.{◌≡◌, ◌≤◌, Some, IfOk, OnOk, filter, map};
ghost use Rattle.serde_json.specs.Data.{depth, no_members, put, string};
ghost use Rattle.serde_json.specs.Read.{max_depth, read};
ghost use Rattle.serde_json.specs.View.{members_view, view};
ghost use Rattle.smf_show.specs.Json.{all_data, configured_members, dependencies_data, dependency_data, group_data, group_member, instance_data, is_dependency, next_data, property_data, property_member, standing_members, text_or_null, value_data, values_data, values_or_none, with_members};

use crate::shown::{Configured, Shown};
use serde_json::{Map, Value as Json};
use smf_fmri::Text;
use smf_state::State;
use smf_value::{Astring, Group, Property, Value};
use std::alloc::{AllocError, Global};

/// A text as a value of JSON.
fn text_data(alloc: Global, text: &str) -> Result<Json, AllocError>
    ensures { IfOk result (λ json. view json ≡ string text.now) }
{
    let text = String::from_str(alloc, text)?;
    Ok(Json::String(text))
}

/// Puts a member whose value is a text.
fn put_text(
    alloc: Global,
    members: &mut Map<String, Json>,
    key: &str,
    text: &str,
) -> Result<(), AllocError>
    ensures { OnOk result
        (members_view members.new.entries ≡ put key.now (string text.now) (members_view members.old.entries)) }
{
    let data = text_data(alloc, text)?;
    serde_json::put(members, alloc, key, data)
}

// ---- properties and groups

/// The texts of values.
fn value_texts(alloc: Global, values: &[Value]) -> Result<Vec<Json>, AllocError>
    ensures { IfOk result (λ all. map view all.items ≡ map value_data values.now) }
{
    let mut all = Vec::new(alloc);
    for value in values {
        let text = value.print(alloc)?;
        all.push(text_data(alloc, text.as_str())?)?;
    }
    Ok(all)
}

fn values_data(alloc: Global, values: &[Value]) -> Result<Json, AllocError>
    ensures { IfOk result (λ json. view json ≡ values_data values.now) }
{
    let all = value_texts(alloc, values)?;
    Ok(Json::Array(all))
}

#[tactic(auto, unfolding(crate::specs::Json::property_data))]
fn property_data(alloc: Global, property: &Property) -> Result<Json, AllocError>
    ensures { IfOk result (λ json. view json ≡ property_data property.now) }
{
    let values = values_data(alloc, property.values())?;
    let mut members = Map::new(alloc);
    put_text(alloc, &mut members, "type", property.kind().as_str())?;
    serde_json::put(&mut members, alloc, "values", values)?;
    Ok(Json::Object(members))
}

fn properties_members(
    alloc: Global,
    properties: &[Property],
) -> Result<Map<String, Json>, AllocError>
    ensures { IfOk result
        (λ ms. members_view ms.entries ≡ with_members (map property_member properties.now) no_members) }
{
    let mut members = Map::new(alloc);
    for property in properties {
        let data = property_data(alloc, property)?;
        serde_json::put(&mut members, alloc, property.name().as_str(), data)?;
    }
    Ok(members)
}

#[tactic(auto, unfolding(crate::specs::Json::group_data))]
fn group_data(alloc: Global, group: &Group) -> Result<Json, AllocError>
    ensures { IfOk result (λ json. view json ≡ group_data group.now) }
{
    let properties = properties_members(alloc, group.properties())?;
    let mut members = Map::new(alloc);
    put_text(alloc, &mut members, "type", group.group_type().as_str())?;
    serde_json::put(
        &mut members,
        alloc,
        "persistent",
        Json::Bool(!group.is_non_persistent()),
    )?;
    serde_json::put(&mut members, alloc, "values", Json::Object(properties))?;
    Ok(Json::Object(members))
}

fn groups_members(alloc: Global, groups: &[Group]) -> Result<Map<String, Json>, AllocError>
    ensures { IfOk result
        (λ ms. members_view ms.entries ≡ with_members (map group_member groups.now) no_members) }
{
    let mut members = Map::new(alloc);
    for group in groups {
        let data = group_data(alloc, group)?;
        serde_json::put(&mut members, alloc, group.name().as_str(), data)?;
    }
    Ok(members)
}

// ---- dependencies

pub(crate) fn is_dependency(group: &Group) -> bool
    ensures { result ≡ is_dependency group.now }
{
    group.group_type().as_str() == "dependency"
}

fn text_or_null(alloc: Global, text: Option<&Astring>) -> Result<Json, AllocError>
    ensures { IfOk result (λ json. view json ≡ text_or_null (option_copied text.entry)) }
{
    match text {
        None => Ok(Json::Null),
        Some(text) => text_data(alloc, text.as_str()),
    }
}

fn values_or_none(alloc: Global, property: Option<&Property>) -> Result<Json, AllocError>
    ensures { IfOk result (λ json. view json ≡ values_data (values_or_none (option_copied property.entry))) }
{
    match property {
        None => values_data(alloc, &[]),
        Some(property) => values_data(alloc, property.values()),
    }
}

#[tactic(auto, unfolding(crate::specs::Json::dependency_data))]
fn dependency_data(alloc: Global, group: &Group) -> Result<Json, AllocError>
    ensures { IfOk result (λ json. view json ≡ dependency_data group.now) }
{
    let grouping = text_or_null(alloc, group.text("grouping"))?;
    let restart_on = text_or_null(alloc, group.text("restart_on"))?;
    let fmris = values_or_none(alloc, group.find("entities"))?;
    let mut members = Map::new(alloc);
    put_text(alloc, &mut members, "group", group.name().as_str())?;
    serde_json::put(&mut members, alloc, "grouping", grouping)?;
    serde_json::put(&mut members, alloc, "restart_on", restart_on)?;
    serde_json::put(&mut members, alloc, "fmris", fmris)?;
    Ok(Json::Object(members))
}

fn dependencies(alloc: Global, groups: &[Group]) -> Result<Vec<Json>, AllocError>
    ensures { IfOk result
        (λ all. map view all.items ≡ map dependency_data (filter is_dependency groups.now)) }
{
    let mut all = Vec::new(alloc);
    for group in groups {
        if is_dependency(group) {
            all.push(dependency_data(alloc, group)?)?;
        }
    }
    Ok(all)
}

fn dependencies_data(alloc: Global, groups: &[Group]) -> Result<Json, AllocError>
    ensures { IfOk result (λ json. view json ≡ dependencies_data groups.now) }
{
    let all = dependencies(alloc, groups)?;
    Ok(Json::Array(all))
}

// ---- instances

fn next_data(alloc: Global, next: Option<State>) -> Result<Json, AllocError>
    ensures { IfOk result (λ json. view json ≡ next_data next) }
{
    match next {
        None => Ok(Json::Null),
        Some(state) => text_data(alloc, state.text()),
    }
}

/// The members that tell how an instance stands.
fn standing_members(alloc: Global, shown: &Shown) -> Result<Map<String, Json>, AllocError>
    ensures { IfOk result
        (λ ms. members_view ms.entries ≡ with_members (standing_members shown.now) no_members) }
{
    let next = next_data(alloc, shown.next)?;
    let mut members = Map::new(alloc);
    put_text(alloc, &mut members, "fmri", shown.name.print())?;
    serde_json::put(&mut members, alloc, "enabled", Json::Bool(shown.enabled))?;
    put_text(alloc, &mut members, "state", shown.state.text())?;
    serde_json::put(&mut members, alloc, "next", next)?;
    put_text(alloc, &mut members, "restarter", shown.restarter.print())?;
    Ok(members)
}

/// Puts the members that tell what an instance has configured.
fn put_configured(
    alloc: Global,
    members: Map<String, Json>,
    groups: &[Group],
) -> Result<Map<String, Json>, AllocError>
    ensures { IfOk result
        (λ ms. members_view ms.entries ≡ with_members (configured_members groups.now) (members_view members.entries)) }
{
    let mut all = members;
    let dependencies = dependencies_data(alloc, groups)?;
    let properties = groups_members(alloc, groups)?;
    serde_json::put(&mut all, alloc, "dependencies", dependencies)?;
    serde_json::put(&mut all, alloc, "properties", Json::Object(properties))?;
    Ok(all)
}

#[tactic(auto, unfolding(crate::specs::Json::instance_data))]
fn instance_data(alloc: Global, instance: &Configured) -> Result<Json, AllocError>
    ensures { IfOk result (λ json. view json ≡ instance_data instance.now) }
{
    let members = standing_members(alloc, &instance.shown)?;
    let members = put_configured(alloc, members, instance.groups.as_slice())?;
    Ok(Json::Object(members))
}

fn instances_of(alloc: Global, instances: &[Configured]) -> Result<Vec<Json>, AllocError>
    ensures { IfOk result (λ all. map view all.items ≡ map instance_data instances.now) }
{
    let mut all = Vec::new(alloc);
    for instance in instances {
        all.push(instance_data(alloc, instance)?)?;
    }
    Ok(all)
}

fn all_data(alloc: Global, instances: &[Configured]) -> Result<Json, AllocError>
    ensures { IfOk result (λ json. view json ≡ all_data instances.now) }
{
    let all = instances_of(alloc, instances)?;
    Ok(Json::Array(all))
}

fn text_of(alloc: Global, json: &Json) -> Result<Text, AllocError>
    ensures { IfOk result (λ text. depth (view json.now) ≤ max_depth → read text ≡ Some (view json.now)) }
{
    let text = json.to_string(alloc)?;
    Ok(Text::from_string(text))
}

/// Instances as one JSON text: an array with an object for each.
pub fn json_text(alloc: Global, instances: &[Configured]) -> Result<Text, AllocError>
    ensures { IfOk result (λ text. read text ≡ Some (all_data instances.now)) }
{
    let data = all_data(alloc, instances)?;
    text_of(alloc, &data)
}
