//! Properties as svcprop prints them.

ghost use Rattle.std.specs.List.{flat_map};
ghost use Rattle.std.specs.Option.{option_copied};
ghost use Rattle.std.specs.Prelude.{◌≡◌, ◌++◌, IfOk, OnOk, string_bytes};
ghost use Rattle.smf_value.specs.ValueTexts.{text_of_value};
ghost use Rattle.smf_show.specs.Properties.{escaped_byte, escaped_text, group_lines, is_meta, later_value, lines_of_group, properties_text, property_in, property_line, values_at, values_line, values_of_property, word_text};

use smf_fmri::{Ordered, Text};
use smf_value::{Group, Property, Value};
use std::alloc::{AllocError, Global};
use std::str;

/// The properties that are asked for.
#[derive(Drop)]
pub enum Selection {
    All,
    Group(Text),
    /// The values of one property alone.
    Property { group: Text, name: Text },
}

// ---- words for a shell

fn is_meta(b: u8) -> bool
    ensures { result ≡ is_meta b }
{
    b == b';'
        || b == b'&'
        || b == b'('
        || b == b')'
        || b == b'|'
        || b == b'^'
        || b == b'<'
        || b == b'>'
        || b == b'\\'
        || b == b'"'
        || b == b'\''
        || b == b'`'
        || b == b' '
        || b == b'\t'
        || b == b'\n'
}

/// Puts a byte, after a backslash if a shell reads it as more than itself.
fn put_escaped(all: &mut Vec<u8>, b: u8) -> Result<(), AllocError>
    ensures { OnOk result (all.new.items ≡ all.old.items ++ escaped_byte b) }
{
    if is_meta(b) {
        all.push(b'\\')?;
        all.push(b)?;
        Ok(())
    } else {
        all.push(b)?;
        Ok(())
    }
}

fn escaped_text(alloc: Global, bytes: &[u8]) -> Result<Vec<u8>, AllocError>
    ensures { IfOk result (λ all. all.items ≡ escaped_text bytes.now) }
{
    let mut all = Vec::new(alloc);
    for b in bytes {
        put_escaped(&mut all, *b)?;
    }
    Ok(all)
}

fn put_escaped_text(alloc: Global, out: &mut String, text: &str) -> Result<(), AllocError>
    ensures { OnOk result (string_bytes out.new ≡ string_bytes out.old ++ escaped_text text.now) }
{
    let bytes = escaped_text(alloc, text.as_bytes())?;
    let Ok(word) = str::from_utf8(bytes.as_slice()) else {
        unreachable!()
    };
    out.push_str(word)
}

#[tactic(auto, unfolding(crate::specs::Properties::word_text))]
fn put_word(alloc: Global, out: &mut String, text: &str) -> Result<(), AllocError>
    ensures { OnOk result (string_bytes out.new ≡ string_bytes out.old ++ word_text text.now) }
{
    if text.is_empty() {
        return out.push_str("\"\"");
    }
    put_escaped_text(alloc, out, text)
}

// ---- lines

fn put_value(alloc: Global, out: &mut String, value: &Value) -> Result<(), AllocError>
    ensures { OnOk result (string_bytes out.new ≡ string_bytes out.old ++ word_text (text_of_value value.now)) }
{
    let text = value.print(alloc)?;
    put_word(alloc, out, text.as_str())
}

fn put_later_values(alloc: Global, out: &mut String, values: &[Value]) -> Result<(), AllocError>
    ensures { OnOk result (string_bytes out.new ≡ string_bytes out.old ++ flat_map later_value values.now) }
{
    for value in values {
        out.push(' ')?;
        put_value(alloc, out, value)?;
    }
    Ok(())
}

fn put_values_line(alloc: Global, out: &mut String, values: &[Value]) -> Result<(), AllocError>
    ensures { OnOk result (string_bytes out.new ≡ string_bytes out.old ++ values_line values.now) }
{
    let [first, later @ ..] = values else {
        return out.push('\n');
    };
    put_value(alloc, out, first)?;
    put_later_values(alloc, out, later)?;
    out.push('\n')
}

fn put_property_line(
    alloc: Global,
    out: &mut String,
    group: &str,
    property: &Property,
) -> Result<(), AllocError>
    ensures { OnOk result (string_bytes out.new ≡ string_bytes out.old ++ property_line group.now property.now) }
{
    out.push_str(group)?;
    out.push('/')?;
    out.push_str(property.name().as_str())?;
    out.push(' ')?;
    out.push_str(property.kind().as_str())?;
    put_later_values(alloc, out, property.values())?;
    out.push('\n')
}

fn put_property_lines(
    alloc: Global,
    out: &mut String,
    group: &str,
    properties: &[Property],
) -> Result<(), AllocError>
    ensures { OnOk result
        (string_bytes out.new ≡ string_bytes out.old ++ flat_map (property_line group.now) properties.now) }
{
    for property in properties {
        put_property_line(alloc, out, group, property)?;
    }
    Ok(())
}

fn put_group_lines(alloc: Global, out: &mut String, group: &Group) -> Result<(), AllocError>
    ensures { OnOk result (string_bytes out.new ≡ string_bytes out.old ++ group_lines group.now) }
{
    put_property_lines(alloc, out, group.name().as_str(), group.properties())
}

fn put_all_lines(alloc: Global, out: &mut String, groups: &[Group]) -> Result<(), AllocError>
    ensures { OnOk result (string_bytes out.new ≡ string_bytes out.old ++ flat_map group_lines groups.now) }
{
    for group in groups {
        put_group_lines(alloc, out, group)?;
    }
    Ok(())
}

// ---- what is asked for

fn all_text(alloc: Global, groups: &[Group]) -> Result<Text, AllocError>
    ensures { IfOk result (λ text. text ≡ flat_map group_lines groups.now) }
{
    let mut out = String::new(alloc);
    put_all_lines(alloc, &mut out, groups)?;
    Ok(Text::from_string(out))
}

fn group_text(alloc: Global, group: Option<&Group>) -> Result<Option<Text>, AllocError>
    ensures { IfOk result (λ text. text ≡ lines_of_group (option_copied group.entry)) }
{
    match group {
        None => Ok(None),
        Some(group) => {
            let mut out = String::new(alloc);
            put_group_lines(alloc, &mut out, group)?;
            Ok(Some(Text::from_string(out)))
        }
    }
}

fn property_in<'a>(group: Option<&'a Group>, name: &str) -> Option<&'a Property>
    ensures { option_copied result ≡ property_in name.now (option_copied group.entry) }
{
    match group {
        None => None,
        Some(group) => group.find(name),
    }
}

fn values_text(alloc: Global, property: Option<&Property>) -> Result<Option<Text>, AllocError>
    ensures { IfOk result (λ text. text ≡ values_of_property (option_copied property.entry)) }
{
    match property {
        None => Ok(None),
        Some(property) => {
            let mut out = String::new(alloc);
            put_values_line(alloc, &mut out, property.values())?;
            Ok(Some(Text::from_string(out)))
        }
    }
}

/// The values of the property of a name in the group of a name.
#[tactic(auto, unfolding(crate::specs::Properties::values_at))]
fn values_at(
    alloc: Global,
    groups: &Ordered<Group>,
    group: &str,
    name: &str,
) -> Result<Option<Text>, AllocError>
    ensures { IfOk result (λ text. text ≡ values_at group.now name.now groups.now) }
{
    let found = groups.get_text(group);
    let property = property_in(found, name);
    values_text(alloc, property)
}

/// The lines of the properties that are asked for, or the values of one; none if there is no such group or property.
#[tactic(auto, unfolding(crate::specs::Properties::properties_text))]
pub fn properties_text(
    alloc: Global,
    selection: &Selection,
    groups: &Ordered<Group>,
) -> Result<Option<Text>, AllocError>
    ensures { IfOk result (λ text. text ≡ properties_text selection.now groups.now) }
{
    match selection {
        Selection::All => {
            let text = all_text(alloc, groups.as_slice())?;
            Ok(Some(text))
        }
        Selection::Group(name) => group_text(alloc, groups.get_text(name.as_str())),
        Selection::Property { group, name } => {
            values_at(alloc, groups, group.as_str(), name.as_str())
        }
    }
}
