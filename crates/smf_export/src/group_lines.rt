//! Lines for groups and their properties. What they lead to is seen by trying them.

use smf_fmri::Ordered;
use smf_lines::limits::MAX_LINE;
use smf_svccfg::{CfgCommand, quoted_text};
use smf_value::{Group, Name, Property, Value};
use std::alloc::{AllocError, Global};

/// Puts a command and a word.
pub(crate) fn put_line(
    out: &mut String,
    command: CfgCommand,
    word: &str,
) -> Result<(), AllocError> {
    out.push_str(command.as_str())?;
    out.push(' ')?;
    out.push_str(word)?;
    out.push('\n')
}

/// Puts a command and the words GROUP/PROPERTY.
fn put_target(
    out: &mut String,
    command: CfgCommand,
    group: &Name,
    property: &Property,
) -> Result<(), AllocError> {
    out.push_str(command.as_str())?;
    out.push(' ')?;
    out.push_str(group.as_str())?;
    out.push('/')?;
    out.push_str(property.name().as_str())
}

/// Puts the word that names a kind.
fn put_kind(out: &mut String, property: &Property) -> Result<(), AllocError> {
    out.push_str(property.kind().as_str())?;
    out.push(':')
}

fn put_value(alloc: Global, out: &mut String, value: &Value) -> Result<(), AllocError> {
    match value {
        Value::Astring(text) => out.push_str(quoted_text(alloc, text.as_str())?.as_str()),
        Value::Ustring(text) => out.push_str(quoted_text(alloc, text.as_str())?.as_str()),
        other => out.push_str(other.print(alloc)?.as_str()),
    }
}

/// Puts one value, or values in parentheses.
fn put_values(alloc: Global, out: &mut String, values: &[Value]) -> Result<(), AllocError> {
    if let [value] = values {
        return put_value(alloc, out, value);
    }
    out.push('(')?;
    let mut is_first = true;
    for value in values {
        if !is_first {
            out.push(' ')?;
        }
        put_value(alloc, out, value)?;
        is_first = false;
    }
    out.push(')')
}

/// Puts a line that sets a property to these values.
fn put_set(
    alloc: Global,
    out: &mut String,
    group: &Name,
    property: &Property,
    values: &[Value],
) -> Result<(), AllocError> {
    put_target(out, CfgCommand::SetProperty, group, property)?;
    out.push_str(" = ")?;
    put_kind(out, property)?;
    out.push(' ')?;
    put_values(alloc, out, values)?;
    out.push('\n')
}

/// Puts a line for each value of a property.
fn put_each(
    alloc: Global,
    out: &mut String,
    group: &Name,
    property: &Property,
) -> Result<(), AllocError> {
    put_set(alloc, out, group, property, &[])?;
    for value in property.values() {
        put_target(out, CfgCommand::AddValue, group, property)?;
        out.push(' ')?;
        put_kind(out, property)?;
        out.push(' ')?;
        put_value(alloc, out, value)?;
        out.push('\n')?;
    }
    Ok(())
}

/// Puts one line for a property, or one for each of its values if that line would be too long.
fn put_property(
    alloc: Global,
    out: &mut String,
    group: &Name,
    property: &Property,
) -> Result<(), AllocError> {
    let mut line = String::new(alloc);
    put_set(alloc, &mut line, group, property, property.values())?;
    if line.len() > MAX_LINE {
        put_each(alloc, out, group, property)
    } else {
        out.push_str(line.as_str())
    }
}

fn are_same_values(one: &[Value], other: &[Value]) -> bool {
    one.len() == other.len() && one.iter().zip(other).all(|(a, b)| a.is_value(b))
}

fn is_same_property(one: &Property, other: &Property) -> bool {
    one.kind() == other.kind() && are_same_values(one.values(), other.values())
}

/// The property of a name, if the group is there.
fn property_in<'a>(group: Option<&'a Group>, name: &Name) -> Option<&'a Property> {
    match group {
        None => None,
        Some(group) => group.find(name.as_str()),
    }
}

/// True if a property has to go, since none of its name is asked for, or one of another kind.
fn goes(property: &Property, asked: &Group) -> bool {
    match asked.find(property.name().as_str()) {
        None => true,
        Some(asked) => asked.kind() != property.kind(),
    }
}

/// Puts the lines that lead from the properties of a group, if it is there, to those that are asked for.
fn put_properties(
    alloc: Global,
    out: &mut String,
    before: Option<&Group>,
    asked: &Group,
) -> Result<(), AllocError> {
    if let Some(before) = before {
        for property in before.properties() {
            if goes(property, asked) {
                put_target(out, CfgCommand::DeleteProperty, asked.name(), property)?;
                out.push('\n')?;
            }
        }
    }
    for property in asked.properties() {
        match property_in(before, property.name()) {
            Some(old) if is_same_property(old, property) => {}
            _ => put_property(alloc, out, asked.name(), property)?,
        }
    }
    Ok(())
}

/// The group of a name that stays, with its type and as one that outlasts a boot.
fn staying<'a>(groups: &'a Ordered<Group>, asked: &Group) -> Option<&'a Group> {
    let group = groups.get(asked.name())?;
    if group.is_non_persistent() || *group.group_type() != *asked.group_type() {
        None
    } else {
        Some(group)
    }
}

/// The group of a name that is asked for.
fn asked_of<'a>(asked: &'a Ordered<Group>, name: &Name) -> Option<&'a Group> {
    let group = asked.get(name)?;
    if group.is_non_persistent() {
        None
    } else {
        Some(group)
    }
}

/// True if a group has to go: none of its name is asked for, or one of another type, or it stands in the way of one.
fn is_dropped(group: &Group, asked: &Ordered<Group>) -> bool {
    match asked_of(asked, group.name()) {
        None => !group.is_non_persistent(),
        Some(asked) => { group.is_non_persistent() || *group.group_type() != *asked.group_type() }
    }
}

/// Puts a line that adds a group without properties.
fn put_group(out: &mut String, group: &Group) -> Result<(), AllocError> {
    out.push_str(CfgCommand::AddGroup.as_str())?;
    out.push(' ')?;
    out.push_str(group.name().as_str())?;
    out.push(' ')?;
    out.push_str(group.group_type().as_str())?;
    out.push('\n')
}

/// Puts the lines that lead from the groups of an owner to those that are asked for. Of groups that a boot drops, those
/// before go only where they stand in the way, and none is asked for.
pub(crate) fn put_groups(
    alloc: Global,
    out: &mut String,
    before: &Ordered<Group>,
    asked: &Ordered<Group>,
) -> Result<(), AllocError> {
    for group in before.as_slice() {
        if is_dropped(group, asked) {
            put_line(out, CfgCommand::DeleteGroup, group.name().as_str())?;
        }
    }
    for group in asked.as_slice() {
        if group.is_non_persistent() {
            continue;
        }
        let old = staying(before, group);
        if old.is_none() {
            put_group(out, group)?;
        }
        put_properties(alloc, out, old, group)?;
    }
    Ok(())
}
