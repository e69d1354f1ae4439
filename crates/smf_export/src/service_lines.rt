//! Lines for services and their instances. What they lead to is seen by trying them.

use crate::choice::Choice;
use crate::comparison::groups_of_instance;
use crate::group_lines::{put_groups, put_line};
use smf_fmri::{InstanceFmri, Ordered, ServiceFmri, Text};
use smf_model::{InstanceName, Service, Tables};
use smf_svccfg::CfgCommand;
use smf_value::Group;
use std::alloc::{AllocError, Global};

/// The part of the names that begins with a prefix. Names in order that do so stand together.
fn names_behind<'a>(names: &'a [InstanceName], prefix: &str) -> &'a [InstanceName] {
    let first = match names.binary_search_by(|entry| entry.name.print().cmp(prefix)) {
        Ok(at) => at,
        Err(at) => at,
    };
    let rest = &names[first..];
    let mut count = 0;
    for entry in rest {
        if !entry.name.print().starts_with(prefix) {
            return &rest[..count];
        }
        count += 1;
    }
    rest
}

/// The names of the instances of a service.
fn instances_of<'a>(
    alloc: Global,
    tables: &'a Tables,
    service: &ServiceFmri,
) -> Result<&'a [InstanceName], AllocError> {
    let mut prefix = String::from_str(alloc, service.print())?;
    prefix.push(':')?;
    Ok(names_behind(tables.names().as_slice(), prefix.as_str()))
}

/// The last part of the name of an instance.
fn own_name(name: &InstanceFmri) -> &str {
    match name.as_fmri().instance() {
        Some(own) => own,
        None => "",
    }
}

/// A command for what is above the selection stands alone on its line.
fn put_unselect(out: &mut String) -> Result<(), AllocError> {
    out.push_str(CfgCommand::Unselect.as_str())?;
    out.push('\n')
}

/// Puts the lines within a service or an instance between its selection and the line that ends it, if there are any.
fn put_within(out: &mut String, word: &str, lines: &str) -> Result<(), AllocError> {
    if lines.is_empty() {
        return Ok(());
    }
    put_line(out, CfgCommand::Select, word)?;
    out.push_str(lines)?;
    put_unselect(out)
}

/// Puts the lines for the groups of one owner, in both of which it may be missing.
fn put_owner(
    alloc: Global,
    out: &mut String,
    before: Option<&Ordered<Group>>,
    asked: Option<&Ordered<Group>>,
) -> Result<(), AllocError> {
    let nothing = Ordered::new(alloc);
    let before = before.unwrap_or(&nothing);
    let asked = asked.unwrap_or(&nothing);
    put_groups(alloc, out, before, asked)
}

/// Puts the lines for an instance that is asked for, within its service.
fn put_instance(
    alloc: Global,
    out: &mut String,
    before: &Tables,
    asked: &Tables,
    name: &InstanceFmri,
) -> Result<(), AllocError> {
    let own = own_name(name);
    let old = groups_of_instance(before, name);
    if old.is_none() {
        put_line(out, CfgCommand::Add, own)?;
    }
    let mut lines = String::new(alloc);
    put_owner(alloc, &mut lines, old, groups_of_instance(asked, name))?;
    put_within(out, own, lines.as_str())
}

/// Puts the lines for the instances of a service that is asked for.
fn put_instances(
    alloc: Global,
    out: &mut String,
    before: &Tables,
    asked: &Tables,
    service: &ServiceFmri,
) -> Result<(), AllocError> {
    for entry in instances_of(alloc, before, service)? {
        if asked.instance_by_name(&entry.name).is_none() {
            put_line(out, CfgCommand::Delete, own_name(&entry.name))?;
        }
    }
    for entry in instances_of(alloc, asked, service)? {
        put_instance(alloc, out, before, asked, &entry.name)?;
    }
    Ok(())
}

/// The groups of a service, if it is there.
fn groups_of<'a>(tables: &'a Tables, name: &ServiceFmri) -> Option<&'a Ordered<Group>> {
    match tables.service(name) {
        None => None,
        Some(service) => Some(&service.groups),
    }
}

/// Puts the lines for a service that is asked for.
fn put_service(
    alloc: Global,
    out: &mut String,
    before: &Tables,
    asked: &Tables,
    service: &Service,
) -> Result<(), AllocError> {
    let word = service.name.as_fmri().service();
    let old = groups_of(before, &service.name);
    if old.is_none() {
        put_line(out, CfgCommand::Add, word)?;
    }
    let mut lines = String::new(alloc);
    put_owner(alloc, &mut lines, old, Some(&service.groups))?;
    put_instances(alloc, &mut lines, before, asked, &service.name)?;
    put_within(out, word, lines.as_str())
}

/// Puts the lines that delete a service, after its instances.
fn put_deletion(
    alloc: Global,
    out: &mut String,
    before: &Tables,
    service: &Service,
) -> Result<(), AllocError> {
    for entry in instances_of(alloc, before, &service.name)? {
        put_line(out, CfgCommand::Delete, entry.name.print())?;
    }
    put_line(out, CfgCommand::Delete, service.name.as_fmri().service())
}

/// The lines that lead from what is held to what is asked for, at the services that are chosen: first what goes, then
/// the services by name, each with its groups by name, and then with its instances by name.
pub(crate) fn lines_between(
    alloc: Global,
    choice: &Choice,
    before: &Tables,
    asked: &Tables,
) -> Result<Text, AllocError> {
    let mut out = String::new(alloc);
    for service in before.services() {
        if choice.has(&service.name) && asked.service(&service.name).is_none() {
            put_deletion(alloc, &mut out, before, service)?;
        }
    }
    for service in asked.services() {
        if choice.has(&service.name) {
            put_service(alloc, &mut out, before, asked, service)?;
        }
    }
    Ok(Text::from_string(out))
}
