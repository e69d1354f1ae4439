//! The output of the lines that list.

ghost use Rattle.std.specs.Option.{option_copied};
ghost use Rattle.std.specs.Prelude.{◌≡◌, ◌≤◌, ◌++◌, drop, length, IfOk, OnOk, string_bytes};
ghost use Rattle.smf_fmri.specs.ByKey.{IsPlaced, Rises, put_all};
ghost use Rattle.smf_model.specs.Look.{by_name};
ghost use Rattle.std.specs.Cmp.Lexicographic.{slice_cmp};
ghost use Rattle.std.specs.Ordering.{nat_cmp};
ghost use Rattle.smf_value.specs.Groups.{by_group};
ghost use Rattle.smf_svccfg.specs.Listed.{before_instances, children_text, composed_in, flag_text, group_line, group_lines, groups_in, groups_text, head_lines, instances_text, line_for, lines_behind, properties_text, property_line, property_lines, service_line, services_text, snapshot_by_name, snapshot_line, snapshots_in, snapshots_text, target_text, value_text, values_text};

use crate::quotes::quoted_text;
use crate::selection::Selection;
use smf_fmri::{Items, Number, Ordered, ServiceFmri, Table, Text, strip};
use smf_model::{Client, InstanceName, Owner, Service, Snapshot};
use smf_snap::SnapshotName;
use smf_value::{Group, Property, Value};
use std::alloc::{AllocError, Global};
use std::cmp::Ordering;

// ---- children

fn put_service(out: &mut String, service: &Service) -> Result<(), AllocError>
    ensures { OnOk result (string_bytes out.new ≡ string_bytes out.old ++ service_line service.now) }
{
    out.push_str(service.name.as_fmri().service())?;
    out.push('\n')
}

fn services_text(alloc: Global, services: &[Service]) -> Result<Text, AllocError>
    ensures { IfOk result (λ text. text ≡ services_text services.now) }
{
    let mut out = String::new(alloc);
    for service in services {
        put_service(&mut out, service)?;
    }
    Ok(Text::from_string(out))
}

fn compare(entry: &InstanceName, text: &str) -> Ordering
    ensures { result ≡ slice_cmp nat_cmp entry.now.name text.now }
{
    entry.name.print().cmp(text)
}

/// The place of the instance that has this name, or else the place at which it belongs.
fn place_of(names: &[InstanceName], text: &str) -> Result<usize, usize>
    requires { Rises by_name names.now }
    ensures { IsPlaced by_name text.now names.now result }
{
    names.binary_search_by(|entry| compare(entry, text))
}

/// The first place at which a name may begin with a prefix.
fn first_behind(names: &[InstanceName], prefix: &str) -> usize
    requires { Rises by_name names.now }
    ensures lines { head_lines prefix.now (drop result names.now) ≡ lines_behind prefix.now names.now }
    ensures within { result ≤ length names.now }
{
    match place_of(names, prefix) {
        Ok(at) => at,
        Err(at) => at,
    }
}

fn names_from(names: &[InstanceName], at: usize) -> &[InstanceName]
    requires { at ≤ length names.now }
    ensures { result.now ≡ drop at names.now }
{
    &names[at..]
}

/// Puts the lines of the names at the head of a list that begin with a prefix.
fn put_head(out: &mut String, prefix: &str, names: &[InstanceName]) -> Result<(), AllocError>
    ensures { OnOk result (string_bytes out.new ≡ string_bytes out.old ++ head_lines prefix.now names.now) }
{
    for entry in names {
        let Some(name) = strip(prefix, entry.name.print()) else {
            return Ok(());
        };
        put_line(out, name)?;
    }
    Ok(())
}

fn put_line(out: &mut String, text: &str) -> Result<(), AllocError>
    ensures { OnOk result (string_bytes out.new ≡ string_bytes out.old ++ line_for text.now) }
{
    out.push_str(text)?;
    out.push('\n')
}

fn before_instances(alloc: Global, service: &ServiceFmri) -> Result<String, AllocError>
    ensures { IfOk result (λ text. string_bytes text ≡ before_instances service.now) }
{
    let mut text = String::from_str(alloc, service.print())?;
    text.push(':')?;
    Ok(text)
}

/// The instances of a service, by name. Their names stand together.
fn instances_text(
    alloc: Global,
    service: &ServiceFmri,
    names: &Table<InstanceName>,
) -> Result<Text, AllocError>
    ensures { IfOk result (λ text. text ≡ instances_text service.now names.now.items) }
{
    let prefix = before_instances(alloc, service)?;
    let names = names.as_slice();
    let own = names_from(names, first_behind(names, prefix.as_str()));
    let mut out = String::new(alloc);
    put_head(&mut out, prefix.as_str(), own)?;
    Ok(Text::from_string(out))
}

/// The names of the services, or of the instances of the selected service, a line each.
pub(crate) fn children_text<C: Client>(
    alloc: Global,
    repository: &C,
    selection: &Selection,
) -> Result<Text, AllocError>
    ensures { IfOk result (λ text. text ≡ children_text (C.held repository.now) selection.now) }
{
    match selection {
        Selection::Nothing => services_text(alloc, repository.services()),
        Selection::Service(service) => { instances_text(alloc, service, repository.names()) }
        Selection::Instance(_) => Text::copy_of(alloc, ""),
        Selection::Snapshot { .. } => Text::copy_of(alloc, ""),
    }
}

// ---- groups

fn put_value(alloc: Global, out: &mut String, value: &Value) -> Result<(), AllocError>
    ensures { OnOk result (string_bytes out.new ≡ string_bytes out.old ++ value_text value.now) }
{
    match value {
        Value::Astring(text) => out.push_str(quoted_text(alloc, text.as_str())?.as_str()),
        Value::Ustring(text) => out.push_str(quoted_text(alloc, text.as_str())?.as_str()),
        Value::Boolean(_) => out.push_str(value.print(alloc)?.as_str()),
        Value::Count(_) => out.push_str(value.print(alloc)?.as_str()),
        Value::Integer(_) => out.push_str(value.print(alloc)?.as_str()),
        Value::Time(_) => out.push_str(value.print(alloc)?.as_str()),
        Value::Fmri(_) => out.push_str(value.print(alloc)?.as_str()),
    }
}

/// Puts each value after a space.
fn put_values(alloc: Global, out: &mut String, values: &[Value]) -> Result<(), AllocError>
    ensures { OnOk result (string_bytes out.new ≡ string_bytes out.old ++ values_text values.now) }
{
    for value in values {
        out.push(' ')?;
        put_value(alloc, out, value)?;
    }
    Ok(())
}

fn put_target(out: &mut String, group: &str, property: &str) -> Result<(), AllocError>
    ensures { OnOk result (string_bytes out.new ≡ string_bytes out.old ++ target_text group.now property.now) }
{
    out.push_str(group)?;
    out.push('/')?;
    out.push_str(property)
}

fn put_property(
    alloc: Global,
    out: &mut String,
    group: &str,
    property: &Property,
) -> Result<(), AllocError>
    ensures { OnOk result (string_bytes out.new ≡ string_bytes out.old ++ property_line group.now property.now) }
{
    put_target(out, group, property.name().as_str())?;
    out.push(' ')?;
    out.push_str(property.kind().as_str())?;
    put_values(alloc, out, property.values())?;
    out.push('\n')
}

fn put_properties(
    alloc: Global,
    out: &mut String,
    group: &str,
    properties: &[Property],
) -> Result<(), AllocError>
    ensures { OnOk result (string_bytes out.new ≡ string_bytes out.old ++ property_lines group.now properties.now) }
{
    for property in properties {
        put_property(alloc, out, group, property)?;
    }
    Ok(())
}

fn flag_text(is_non_persistent: bool) -> &'static str
    ensures { result.now ≡ flag_text is_non_persistent }
{
    if is_non_persistent { " P" } else { "" }
}

fn put_group(out: &mut String, group: &Group) -> Result<(), AllocError>
    ensures { OnOk result (string_bytes out.new ≡ string_bytes out.old ++ group_line group.now) }
{
    out.push_str(group.name().as_str())?;
    out.push(' ')?;
    out.push_str(group.group_type().as_str())?;
    out.push_str(flag_text(group.is_non_persistent()))?;
    out.push('\n')
}

fn put_group_lines(alloc: Global, out: &mut String, group: &Group) -> Result<(), AllocError>
    ensures { OnOk result (string_bytes out.new ≡ string_bytes out.old ++ group_lines group.now) }
{
    put_group(out, group)?;
    put_properties(alloc, out, group.name().as_str(), group.properties())
}

pub(crate) fn groups_text(alloc: Global, groups: &[Group]) -> Result<Text, AllocError>
    ensures { IfOk result (λ text. text ≡ groups_text groups.now) }
{
    let mut out = String::new(alloc);
    for group in groups {
        put_group(&mut out, group)?;
    }
    Ok(Text::from_string(out))
}

pub(crate) fn properties_text(alloc: Global, groups: &[Group]) -> Result<Text, AllocError>
    ensures { IfOk result (λ text. text ≡ properties_text groups.now) }
{
    let mut out = String::new(alloc);
    for group in groups {
        put_group_lines(alloc, &mut out, group)?;
    }
    Ok(Text::from_string(out))
}

/// Puts copies of groups among others, each over the one that has its name.
fn put_copies(groups: Ordered<Group>, copied: &[Group]) -> Result<Ordered<Group>, AllocError>
    ensures { IfOk result (λ gs. gs ≡ put_all by_group copied.now groups) }
{
    let mut groups = groups;
    for group in copied {
        groups.put(group.clone()?)?;
    }
    Ok(groups)
}

/// The groups that an instance had: its own, else those of its service.
fn composed_in(alloc: Global, snapshot: Option<&Snapshot>) -> Result<Ordered<Group>, AllocError>
    ensures { IfOk result (λ gs. gs ≡ composed_in (option_copied snapshot.entry)) }
{
    match snapshot {
        None => Ok(Ordered::new(alloc)),
        Some(snapshot) => {
            let groups = snapshot.service_groups.clone()?;
            put_copies(groups, snapshot.instance_groups.as_slice())
        }
    }
}

fn snapshot_of<C: Client>(repository: &C, instance: Number, name: SnapshotName) -> Option<&Snapshot>
    ensures { option_copied result ≡ snapshot_by_name (C.held repository.now) instance name }
{
    match repository.snapshot_number(instance.get(), name) {
        None => None,
        Some(number) => repository.snapshot(number),
    }
}

/// The groups of what is selected, by name; none if nothing is.
pub(crate) fn groups_in<C: Client>(
    alloc: Global,
    repository: &C,
    selection: &Selection,
) -> Result<Option<Ordered<Group>>, AllocError>
    ensures { IfOk result (λ gs. gs ≡ groups_in (C.held repository.now) selection.now) }
{
    match selection {
        Selection::Nothing => Ok(None),
        Selection::Service(service) => {
            let owner = Owner::Service(service.clone()?);
            Ok(Some(repository.groups(&owner)?))
        }
        Selection::Instance(number) => Ok(Some(repository.groups(&Owner::Instance(*number))?)),
        Selection::Snapshot { instance, name } => {
            let snapshot = snapshot_of(repository, *instance, *name);
            Ok(Some(composed_in(alloc, snapshot)?))
        }
    }
}

// ---- snapshots

fn put_snapshot(out: &mut String, name: SnapshotName) -> Result<(), AllocError>
    ensures { OnOk result (string_bytes out.new ≡ string_bytes out.old ++ snapshot_line name) }
{
    out.push_str(name.as_str())?;
    out.push('\n')
}

pub(crate) fn snapshots_text(alloc: Global, names: &[SnapshotName]) -> Result<Text, AllocError>
    ensures { IfOk result (λ text. text ≡ snapshots_text names.now) }
{
    let mut out = String::new(alloc);
    for name in names {
        put_snapshot(&mut out, *name)?;
    }
    Ok(Text::from_string(out))
}

/// The names of the snapshots of an instance, if one is selected.
pub(crate) fn snapshots_in<C: Client>(
    repository: &C,
    instance: Option<Number>,
) -> Result<Option<Items<SnapshotName>>, AllocError>
    ensures { IfOk result (λ names. names ≡ snapshots_in (C.held repository.now) instance) }
{
    match instance {
        None => Ok(None),
        Some(instance) => repository.snapshots(instance.get()),
    }
}
