//! Instances at length.

ghost use Rattle.std.specs.List.{flat_map};
ghost use Rattle.std.specs.Option.{option_copied};
ghost use Rattle.std.specs.Prelude.{◌≡◌, ◌++◌, IfOk, OnOk, string_bytes};
ghost use Rattle.smf_show.specs.Long.{block, configured_lines, dependency_label, dependency_line, enabled_label, entities_text, entity_text, fmri_label, is_meant, kinds_text, later_block, line, long_text, next_or_none, next_state_label, restarter_label, standing_lines, state_label, state_of_those, states_of, text_or_dash};

use crate::columns::truth_text;
use crate::json::is_dependency;
use crate::shown::{Configured, Shown};
use smf_fmri::Text;
use smf_state::State;
use smf_value::{Astring, Group, Value};
use std::alloc::{AllocError, Global};

// ---- labels, each padded to 13 places

#[tactic(auto, unfolding(crate::specs::Long::fmri_label))]
fn fmri_label() -> &'static str
    ensures { result.now ≡ fmri_label }
{
    "fmri         "
}

#[tactic(auto, unfolding(crate::specs::Long::enabled_label))]
fn enabled_label() -> &'static str
    ensures { result.now ≡ enabled_label }
{
    "enabled      "
}

#[tactic(auto, unfolding(crate::specs::Long::state_label))]
fn state_label() -> &'static str
    ensures { result.now ≡ state_label }
{
    "state        "
}

#[tactic(auto, unfolding(crate::specs::Long::next_state_label))]
fn next_state_label() -> &'static str
    ensures { result.now ≡ next_state_label }
{
    "next_state   "
}

#[tactic(auto, unfolding(crate::specs::Long::restarter_label))]
fn restarter_label() -> &'static str
    ensures { result.now ≡ restarter_label }
{
    "restarter    "
}

#[tactic(auto, unfolding(crate::specs::Long::dependency_label))]
fn dependency_label() -> &'static str
    ensures { result.now ≡ dependency_label }
{
    "dependency   "
}

// ---- states of those that a dependency names

/// True if a text names an instance or its service.
fn is_meant(text: &str, shown: &Shown) -> bool
    ensures { result ≡ is_meant text.now shown.now }
{
    shown.name.print() == text || shown.name.as_fmri().service_text() == text
}

/// The states of the instances that a text names.
fn states_of(alloc: Global, all: &[Shown], text: &str) -> Result<Vec<State>, AllocError>
    ensures { IfOk result (λ states. states.items ≡ states_of all.now text.now) }
{
    let mut states = Vec::new(alloc);
    for shown in all {
        if is_meant(text, shown) {
            states.push(shown.state)?;
        }
    }
    Ok(states)
}

fn state_of_those(states: &[State]) -> &'static str
    ensures { result.now ≡ state_of_those states.now }
{
    match states {
        [] => "absent",
        [state] => state.text(),
        [_, _, ..] => "multiple",
    }
}

fn put_entity(
    alloc: Global,
    out: &mut String,
    all: &[Shown],
    value: &Value,
) -> Result<(), AllocError>
    ensures { OnOk result (string_bytes out.new ≡ string_bytes out.old ++ entity_text all.now value.now) }
{
    let text = value.print(alloc)?;
    let states = states_of(alloc, all, text.as_str())?;
    out.push(' ')?;
    out.push_str(text.as_str())?;
    out.push_str(" (")?;
    out.push_str(state_of_those(states.as_slice()))?;
    out.push(')')
}

fn put_values(
    alloc: Global,
    out: &mut String,
    all: &[Shown],
    values: &[Value],
) -> Result<(), AllocError>
    ensures { OnOk result
        (string_bytes out.new ≡ string_bytes out.old ++ flat_map (entity_text all.now) values.now) }
{
    for value in values {
        put_entity(alloc, out, all, value)?;
    }
    Ok(())
}

#[tactic(auto, unfolding(crate::specs::Long::entities_text))]
fn put_entities(
    alloc: Global,
    out: &mut String,
    all: &[Shown],
    group: &Group,
) -> Result<(), AllocError>
    ensures { OnOk result (string_bytes out.new ≡ string_bytes out.old ++ entities_text all.now group.now) }
{
    match group.find("entities") {
        None => Ok(()),
        Some(property) => put_values(alloc, out, all, property.values()),
    }
}

fn put_text(out: &mut String, text: Option<&Astring>) -> Result<(), AllocError>
    ensures { OnOk result
        (string_bytes out.new ≡ string_bytes out.old ++ text_or_dash (option_copied text.entry)) }
{
    match text {
        None => out.push('-'),
        Some(text) => out.push_str(text.as_str()),
    }
}

#[tactic(auto, unfolding(crate::specs::Long::kinds_text))]
fn put_kinds(out: &mut String, group: &Group) -> Result<(), AllocError>
    ensures { OnOk result (string_bytes out.new ≡ string_bytes out.old ++ kinds_text group.now) }
{
    put_text(out, group.text("grouping"))?;
    out.push('/')?;
    put_text(out, group.text("restart_on"))
}

#[tactic(auto, unfolding(crate::specs::Long::dependency_line, crate::specs::Long::line))]
fn put_dependency(
    alloc: Global,
    out: &mut String,
    all: &[Shown],
    group: &Group,
) -> Result<(), AllocError>
    ensures { OnOk result (string_bytes out.new ≡ string_bytes out.old ++ dependency_line all.now group.now) }
{
    out.push_str(dependency_label())?;
    put_kinds(out, group)?;
    put_entities(alloc, out, all, group)?;
    out.push('\n')
}

// ---- an instance

fn put_dependencies(
    alloc: Global,
    out: &mut String,
    all: &[Shown],
    groups: &[Group],
) -> Result<(), AllocError>
    ensures { OnOk result (string_bytes out.new ≡ string_bytes out.old ++ configured_lines all.now groups.now) }
{
    for group in groups {
        if is_dependency(group) {
            put_dependency(alloc, out, all, group)?;
        }
    }
    Ok(())
}

fn next_or_none(next: Option<State>) -> &'static str
    ensures { result.now ≡ next_or_none next }
{
    match next {
        None => "none",
        Some(state) => state.text(),
    }
}

/// Puts a line of a label and a text.
#[tactic(auto, unfolding(crate::specs::Long::line))]
fn put_line(out: &mut String, label: &str, text: &str) -> Result<(), AllocError>
    ensures { OnOk result (string_bytes out.new ≡ string_bytes out.old ++ line label.now text.now) }
{
    out.push_str(label)?;
    out.push_str(text)?;
    out.push('\n')
}

#[tactic(auto, unfolding(crate::specs::Long::standing_lines))]
fn put_standing(out: &mut String, shown: &Shown) -> Result<(), AllocError>
    ensures { OnOk result (string_bytes out.new ≡ string_bytes out.old ++ standing_lines shown.now) }
{
    put_line(out, fmri_label(), shown.name.print())?;
    put_line(out, enabled_label(), truth_text(shown.enabled))?;
    put_line(out, state_label(), shown.state.text())?;
    put_line(out, next_state_label(), next_or_none(shown.next))?;
    put_line(out, restarter_label(), shown.restarter.print())
}

#[tactic(auto, unfolding(crate::specs::Long::block))]
fn put_block(
    alloc: Global,
    out: &mut String,
    all: &[Shown],
    instance: &Configured,
) -> Result<(), AllocError>
    ensures { OnOk result (string_bytes out.new ≡ string_bytes out.old ++ block all.now instance.now) }
{
    put_standing(out, &instance.shown)?;
    put_dependencies(alloc, out, all, instance.groups.as_slice())
}

fn put_later_blocks(
    alloc: Global,
    out: &mut String,
    all: &[Shown],
    instances: &[Configured],
) -> Result<(), AllocError>
    ensures { OnOk result
        (string_bytes out.new ≡ string_bytes out.old ++ flat_map (later_block all.now) instances.now) }
{
    for instance in instances {
        out.push('\n')?;
        put_block(alloc, out, all, instance)?;
    }
    Ok(())
}

fn put_blocks(
    alloc: Global,
    out: &mut String,
    all: &[Shown],
    instances: &[Configured],
) -> Result<(), AllocError>
    ensures { OnOk result (string_bytes out.new ≡ string_bytes out.old ++ long_text all.now instances.now) }
{
    let [first, later @ ..] = instances else {
        return Ok(());
    };
    put_block(alloc, out, all, first)?;
    put_later_blocks(alloc, out, all, later)
}

/// A block of lines for each instance. Of `all` instances, dependencies tell the states.
pub fn long_text(alloc: Global, all: &[Shown], instances: &[Configured]) -> Result<Text, AllocError>
    ensures { IfOk result (λ text. text ≡ long_text all.now instances.now) }
{
    let mut out = String::new(alloc);
    put_blocks(alloc, &mut out, all, instances)?;
    Ok(Text::from_string(out))
}
