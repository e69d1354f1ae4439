// The lines of svccfg that make the instances of tables.
ghost use Rattle.smf_toml.specs.Lines.{begin_lines, boolean_line, boolean_line_if, bound_lines, dependencies_of, dependency_head, dependency_lines, entities_of, entity_of, full_name, general_lines, group_line, in_group, in_instance, instance_lines, kind_lines, lines_after, lines_of, method_lines, methods_of, number_line, number_line_if, own_group, own_lines, prefixed, property_of, refresh_lines, restarter_lines, restarts, retry_lines, service_begins, setting_lines, start_lines, startd_lines, stop_command, stop_lines, text_line, text_line_if, value_line, word_of};
ghost use Rattle.smf_toml.specs.Pieces.{texts_in};
ghost use Rattle.smf_svccfg.specs.Tokens.{escaped_text};
ghost use Rattle.smf_fmri.specs.Name.{strip};
ghost use Rattle.std.specs.Option.{option_copied};
ghost use Rattle.std.specs.Prelude.{◌≡◌, ◌++◌, IfOk, OnOk, codes};

use crate::command::start_command;
use crate::pieces::{put, put_number, put_signed};
use crate::site::{Entry, InstanceTable, PropertyGroup, PropertyValue, Setting, Words};
use smf_fmri::strip;
use smf_svccfg::escaped_text;
use std::alloc::{AllocError, Global};

// ---- lines

fn put_group(out: &mut Vec<u8>, group: &str, group_type: &str) -> Result<(), AllocError>
    ensures { OnOk result (out.new.items ≡ out.old.items ++ group_line group.now group_type.now) }
{
    put(out, "addpg ")?;
    put(out, group)?;
    put(out, " ")?;
    put(out, group_type)?;
    put(out, "\n")
}

/// The begin of a line that sets a property.
fn put_property(out: &mut Vec<u8>, group: &str, name: &str, kind: &str) -> Result<(), AllocError>
    ensures { OnOk result (out.new.items ≡ out.old.items ++ property_of group.now name.now kind.now) }
{
    put(out, "setprop ")?;
    put(out, group)?;
    put(out, "/")?;
    put(out, name)?;
    put(out, " = ")?;
    put(out, kind)?;
    put(out, ": ")
}

fn put_escaped(alloc: Global, out: &mut Vec<u8>, text: &[u8]) -> Result<(), AllocError>
    ensures { OnOk result (out.new.items ≡ out.old.items ++ escaped_text text.now) }
{
    let escaped = escaped_text(alloc, text)?;
    out.extend_from_slice(escaped.as_slice())
}

fn put_bytes_line(
    alloc: Global,
    out: &mut Vec<u8>,
    group: &str,
    name: &str,
    text: &[u8],
) -> Result<(), AllocError>
    ensures { OnOk result (out.new.items ≡ out.old.items ++ text_line group.now name.now text.now) }
{
    put_property(out, group, name, "astring")?;
    put(out, "\"")?;
    put_escaped(alloc, out, text)?;
    put(out, "\"\n")
}

fn put_text_line(
    alloc: Global,
    out: &mut Vec<u8>,
    group: &str,
    name: &str,
    text: &str,
) -> Result<(), AllocError>
    ensures { OnOk result (out.new.items ≡ out.old.items ++ text_line group.now name.now text.now) }
{
    put_bytes_line(alloc, out, group, name, text.as_bytes())
}

fn put_number_line(
    alloc: Global,
    out: &mut Vec<u8>,
    group: &str,
    name: &str,
    number: u64,
) -> Result<(), AllocError>
    ensures { OnOk result (out.new.items ≡ out.old.items ++ number_line group.now name.now number) }
{
    put_property(out, group, name, "count")?;
    put_number(alloc, out, number)?;
    put(out, "\n")
}

fn word_of(value: bool) -> &'static str
    ensures { result.now ≡ word_of value }
{
    if value { "true" } else { "false" }
}

fn put_boolean_line(
    out: &mut Vec<u8>,
    group: &str,
    name: &str,
    value: bool,
) -> Result<(), AllocError>
    ensures { OnOk result (out.new.items ≡ out.old.items ++ boolean_line group.now name.now value) }
{
    put_property(out, group, name, "boolean")?;
    put(out, word_of(value))?;
    put(out, "\n")
}

fn put_text_if(
    alloc: Global,
    out: &mut Vec<u8>,
    group: &str,
    name: &str,
    text: &Option<Words>,
) -> Result<(), AllocError>
    ensures { OnOk result (out.new.items ≡ out.old.items ++ text_line_if group.now name.now text.now) }
{
    match text {
        None => Ok(()),
        Some(text) => put_text_line(alloc, out, group, name, text.text.as_str()),
    }
}

fn put_number_if(
    alloc: Global,
    out: &mut Vec<u8>,
    group: &str,
    name: &str,
    number: Option<u64>,
) -> Result<(), AllocError>
    ensures { OnOk result (out.new.items ≡ out.old.items ++ number_line_if group.now name.now number) }
{
    match number {
        None => Ok(()),
        Some(number) => put_number_line(alloc, out, group, name, number),
    }
}

fn put_boolean_if(
    out: &mut Vec<u8>,
    group: &str,
    name: &str,
    value: Option<bool>,
) -> Result<(), AllocError>
    ensures { OnOk result (out.new.items ≡ out.old.items ++ boolean_line_if group.now name.now value) }
{
    match value {
        None => Ok(()),
        Some(value) => put_boolean_line(out, group, name, value),
    }
}

// ---- methods

fn put_method(
    alloc: Global,
    out: &mut Vec<u8>,
    method: &str,
    command: &[u8],
    timeout: Option<u64>,
) -> Result<(), AllocError>
    ensures { OnOk result
        (out.new.items ≡ out.old.items ++ method_lines method.now command.now timeout) }
{
    put_group(out, method, "method")?;
    put_bytes_line(alloc, out, method, "exec", command)?;
    put_number_if(alloc, out, method, "timeout_seconds", timeout)
}

fn stop_command(stop: &Option<Words>) -> &str
    ensures { result.now ≡ stop_command stop.now }
{
    match stop {
        None => ":kill",
        Some(stop) => stop.text.as_str(),
    }
}

fn put_refresh(
    alloc: Global,
    out: &mut Vec<u8>,
    command: &Option<Words>,
    timeout: Option<u64>,
) -> Result<(), AllocError>
    ensures { OnOk result (out.new.items ≡ out.old.items ++ refresh_lines command.now timeout) }
{
    match command {
        None => Ok(()),
        Some(command) => put_method(alloc, out, "refresh", command.text.as_bytes(), timeout),
    }
}

fn put_start(alloc: Global, out: &mut Vec<u8>, table: &InstanceTable) -> Result<(), AllocError>
    ensures { OnOk result (out.new.items ≡ out.old.items ++ start_lines table.now) }
{
    let start = start_command(alloc, table)?;
    put_method(alloc, out, "start", start.as_slice(), table.start_timeout)
}

fn put_stop(
    alloc: Global,
    out: &mut Vec<u8>,
    stop: &Option<Words>,
    timeout: Option<u64>,
) -> Result<(), AllocError>
    ensures { OnOk result (out.new.items ≡ out.old.items ++ stop_lines stop.now timeout) }
{
    let command = stop_command(stop);
    put_method(alloc, out, "stop", command.as_bytes(), timeout)
}

#[tactic(auto, unfolding(crate::specs::Lines::methods_of))]
fn put_methods(alloc: Global, out: &mut Vec<u8>, table: &InstanceTable) -> Result<(), AllocError>
    ensures { OnOk result (out.new.items ≡ out.old.items ++ methods_of table.now) }
{
    put_start(alloc, out, table)?;
    put_stop(alloc, out, &table.stop, table.stop_timeout)?;
    put_refresh(alloc, out, &table.refresh, table.refresh_timeout)
}

// ---- dependencies

fn prefixed(alloc: Global, rest: Option<&str>, name: &str) -> Result<Vec<u8>, AllocError>
    ensures { IfOk result (λ full. full.items ≡ prefixed (option_copied rest.entry) name.now) }
{
    let mut full = Vec::new(alloc);
    match rest {
        Some(_) => put(&mut full, name)?,
        None => {
            put(&mut full, "svc:/")?;
            put(&mut full, name)?;
        }
    }
    Ok(full)
}

/// The name of a service or an instance, with `svc:/`.
fn full_name(alloc: Global, name: &str) -> Result<Vec<u8>, AllocError>
    ensures { IfOk result (λ full. full.items ≡ full_name name.now) }
{
    prefixed(alloc, strip("svc:/", name), name)
}

fn put_entity(alloc: Global, out: &mut Vec<u8>, name: &str) -> Result<(), AllocError>
    ensures { OnOk result (out.new.items ≡ out.old.items ++ entity_of name.now) }
{
    let full = full_name(alloc, name)?;
    put(out, " \"")?;
    put_escaped(alloc, out, full.as_slice())?;
    put(out, "\"")
}

fn put_entities(alloc: Global, out: &mut Vec<u8>, names: &[Words]) -> Result<(), AllocError>
    ensures { OnOk result (out.new.items ≡ out.old.items ++ entities_of names.now) }
{
    for name in names {
        put_entity(alloc, out, name.text.as_str())?;
    }
    Ok(())
}

fn restarts(restart_on: &Option<Words>) -> &str
    ensures { result.now ≡ restarts restart_on.now }
{
    match restart_on {
        None => "none",
        Some(word) => word.text.as_str(),
    }
}

/// What a dependency is, before its entities.
fn put_dependency_head(
    alloc: Global,
    out: &mut Vec<u8>,
    group: &str,
    grouping: &str,
    restart_on: &Option<Words>,
) -> Result<(), AllocError>
    ensures { OnOk result
        (out.new.items ≡ out.old.items ++ dependency_head group.now grouping.now restart_on.now) }
{
    put_group(out, group, "dependency")?;
    put_text_line(alloc, out, group, "grouping", grouping)?;
    put_text_line(alloc, out, group, "restart_on", restarts(restart_on))?;
    put_text_line(alloc, out, group, "type", "service")
}

fn put_dependency_on(
    alloc: Global,
    out: &mut Vec<u8>,
    group: &str,
    grouping: &str,
    restart_on: &Option<Words>,
    names: &[Words],
) -> Result<(), AllocError>
    ensures { OnOk result (out.new.items ≡ out.old.items
        ++ dependency_lines group.now grouping.now restart_on.now names.now) }
{
    match names {
        [] => Ok(()),
        _ => {
            put_dependency_head(alloc, out, group, grouping, restart_on)?;
            put_property(out, group, "entities", "fmri")?;
            put(out, "(")?;
            put_entities(alloc, out, names)?;
            put(out, " )\n")
        }
    }
}

fn put_dependency(
    alloc: Global,
    out: &mut Vec<u8>,
    group: &str,
    grouping: &str,
    restart_on: &Option<Words>,
    names: &Option<Vec<Words>>,
) -> Result<(), AllocError>
    ensures { OnOk result (out.new.items ≡ out.old.items
        ++ dependency_lines group.now grouping.now restart_on.now (texts_in names.now)) }
{
    match names {
        None => Ok(()),
        Some(names) => put_dependency_on(alloc, out, group, grouping, restart_on, names.as_slice()),
    }
}

#[tactic(auto, unfolding(crate::specs::Lines::dependencies_of))]
fn put_dependencies(
    alloc: Global,
    out: &mut Vec<u8>,
    table: &InstanceTable,
) -> Result<(), AllocError>
    ensures { OnOk result (out.new.items ≡ out.old.items ++ dependencies_of table.now) }
{
    let on = &table.restart_on;
    put_dependency(alloc, out, "needs", "require_all", on, &table.needs)?;
    put_dependency(alloc, out, "needs_any", "require_any", on, &table.needs_any)?;
    put_dependency(alloc, out, "wants", "optional_all", on, &table.wants)?;
    put_dependency(alloc, out, "conflicts", "exclude_all", on, &table.conflicts)
}

// ---- the groups startd and general

fn put_kind(alloc: Global, out: &mut Vec<u8>, table: &InstanceTable) -> Result<(), AllocError>
    ensures { OnOk result (out.new.items ≡ out.old.items ++ kind_lines table.now) }
{
    put_text_if(alloc, out, "startd", "duration", &table.duration)?;
    put_text_if(alloc, out, "startd", "ignore_error", &table.ignore_error)
}

fn put_startd_number(
    alloc: Global,
    out: &mut Vec<u8>,
    name: &str,
    number: Option<u64>,
) -> Result<(), AllocError>
    ensures { OnOk result
        (out.new.items ≡ out.old.items ++ number_line_if (codes "startd") name.now number) }
{
    put_number_if(alloc, out, "startd", name, number)
}

fn put_bounds(alloc: Global, out: &mut Vec<u8>, table: &InstanceTable) -> Result<(), AllocError>
    ensures { OnOk result (out.new.items ≡ out.old.items ++ bound_lines table.now) }
{
    put_startd_number(
        alloc,
        out,
        "critical_failure_count",
        table.critical_failure_count,
    )?;
    put_startd_number(
        alloc,
        out,
        "critical_failure_period",
        table.critical_failure_period,
    )?;
    put_startd_number(alloc, out, "log_keep", table.log_keep)?;
    put_startd_number(alloc, out, "log_max", table.log_max)
}

fn put_retries(alloc: Global, out: &mut Vec<u8>, table: &InstanceTable) -> Result<(), AllocError>
    ensures { OnOk result (out.new.items ≡ out.old.items ++ retry_lines table.now) }
{
    put_startd_number(alloc, out, "retry_count", table.retry_count)?;
    put_startd_number(alloc, out, "retry_most", table.retry_most)?;
    put_startd_number(alloc, out, "retry_seconds", table.retry_seconds)
}

/// Puts lines of properties behind the one of their group, if there are any.
fn put_in_group(out: &mut Vec<u8>, group: &str, lines: &[u8]) -> Result<(), AllocError>
    ensures { OnOk result (out.new.items ≡ out.old.items ++ in_group group.now lines.now) }
{
    match lines {
        [] => Ok(()),
        _ => {
            put_group(out, group, "framework")?;
            out.extend_from_slice(lines)
        }
    }
}

#[tactic(auto, unfolding(crate::specs::Lines::startd_lines))]
fn put_startd(alloc: Global, out: &mut Vec<u8>, table: &InstanceTable) -> Result<(), AllocError>
    ensures { OnOk result (out.new.items ≡ out.old.items ++ startd_lines table.now) }
{
    let mut lines = Vec::new(alloc);
    put_kind(alloc, &mut lines, table)?;
    put_bounds(alloc, &mut lines, table)?;
    put_retries(alloc, &mut lines, table)?;
    put_in_group(out, "startd", lines.as_slice())
}

fn put_restarter(alloc: Global, out: &mut Vec<u8>, name: &Option<Words>) -> Result<(), AllocError>
    ensures { OnOk result (out.new.items ≡ out.old.items ++ restarter_lines name.now) }
{
    match name {
        None => Ok(()),
        Some(name) => {
            let full = full_name(alloc, name.text.as_str())?;
            put_bytes_line(alloc, out, "general", "restarter", full.as_slice())
        }
    }
}

#[tactic(auto, unfolding(crate::specs::Lines::general_lines))]
fn put_general(alloc: Global, out: &mut Vec<u8>, table: &InstanceTable) -> Result<(), AllocError>
    ensures { OnOk result (out.new.items ≡ out.old.items ++ general_lines table.now) }
{
    let mut lines = Vec::new(alloc);
    put_boolean_if(&mut lines, "general", "enabled", table.enabled)?;
    put_restarter(alloc, &mut lines, &table.restarter)?;
    put_in_group(out, "general", lines.as_slice())
}

// ---- groups that are the application's own

fn put_value(
    alloc: Global,
    out: &mut Vec<u8>,
    group: &str,
    name: &str,
    value: &PropertyValue,
) -> Result<(), AllocError>
    ensures { OnOk result (out.new.items ≡ out.old.items ++ value_line group.now name.now value.now) }
{
    match value {
        PropertyValue::Boolean(value) => put_boolean_line(out, group, name, *value),
        PropertyValue::Count(number) => put_number_line(alloc, out, group, name, *number),
        PropertyValue::Integer(number) => {
            put_property(out, group, name, "integer")?;
            put_signed(alloc, out, *number)?;
            put(out, "\n")
        }
        PropertyValue::Text(text) => put_text_line(alloc, out, group, name, text.text.as_str()),
    }
}

fn put_settings(
    alloc: Global,
    out: &mut Vec<u8>,
    group: &str,
    settings: &[Setting],
) -> Result<(), AllocError>
    ensures { OnOk result (out.new.items ≡ out.old.items ++ setting_lines group.now settings.now) }
{
    for setting in settings {
        put_value(alloc, out, group, setting.name.as_str(), &setting.value)?;
    }
    Ok(())
}

fn put_own_group(
    alloc: Global,
    out: &mut Vec<u8>,
    name: &str,
    settings: &[Setting],
) -> Result<(), AllocError>
    ensures { OnOk result (out.new.items ≡ out.old.items ++ own_group name.now settings.now) }
{
    put_group(out, name, "application")?;
    put_settings(alloc, out, name, settings)
}

fn put_own(alloc: Global, out: &mut Vec<u8>, groups: &[PropertyGroup]) -> Result<(), AllocError>
    ensures { OnOk result (out.new.items ≡ out.old.items ++ own_lines groups.now) }
{
    for group in groups {
        put_own_group(alloc, out, group.name.as_str(), group.settings.as_slice())?;
    }
    Ok(())
}

// ---- instances

#[tactic(auto, unfolding(crate::specs::Lines::instance_lines))]
fn put_instance(alloc: Global, out: &mut Vec<u8>, entry: &Entry) -> Result<(), AllocError>
    ensures { OnOk result (out.new.items ≡ out.old.items ++ instance_lines entry.now) }
{
    put_methods(alloc, out, &entry.table)?;
    put_dependencies(alloc, out, &entry.table)?;
    put_startd(alloc, out, &entry.table)?;
    put_own(alloc, out, entry.groups.as_slice())?;
    put_general(alloc, out, &entry.table)
}

/// Puts the lines that add something, and select it.
fn put_begin(out: &mut Vec<u8>, name: &str) -> Result<(), AllocError>
    ensures { OnOk result (out.new.items ≡ out.old.items ++ begin_lines name.now) }
{
    put(out, "add ")?;
    put(out, name)?;
    put(out, "\nselect ")?;
    put(out, name)?;
    put(out, "\n")
}

fn put_in_instance(alloc: Global, out: &mut Vec<u8>, entry: &Entry) -> Result<(), AllocError>
    ensures { OnOk result (out.new.items ≡ out.old.items ++ in_instance entry.now) }
{
    put_begin(out, entry.instance.as_str())?;
    put_instance(alloc, out, entry)?;
    put(out, "unselect\n")
}

fn put_service(out: &mut Vec<u8>, before: Option<&str>, name: &str) -> Result<(), AllocError>
    ensures { OnOk result
        (out.new.items ≡ out.old.items ++ service_begins (option_copied before.entry) name.now) }
{
    match before {
        None => put_begin(out, name),
        Some(before) => {
            if before == name {
                return Ok(());
            }
            put(out, "unselect\n")?;
            put_begin(out, name)
        }
    }
}

/// The lines that make instances. Those of one service have to stand one after another.
#[tactic(auto, unfolding(crate::specs::Lines::lines_of))]
pub fn lines_of(alloc: Global, entries: &[Entry]) -> Result<Vec<u8>, AllocError>
    ensures { IfOk result (λ lines. lines.items ≡ lines_of entries.now) }
{
    let mut lines = Vec::new(alloc);
    let mut before: Option<&str> = None;
    for entry in entries {
        put_service(&mut lines, before, entry.service.as_str())?;
        put_in_instance(alloc, &mut lines, entry)?;
        before = Some(entry.service.as_str());
    }
    put(&mut lines, "end\n")?;
    Ok(lines)
}
