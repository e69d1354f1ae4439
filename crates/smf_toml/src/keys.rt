// The keys of a table, and their values.
use crate::fault::{Wrong, bad_key};
use crate::site::{InstanceTable, ReadyTable, Words};
use std::alloc::Global;
use toml::Value;

fn is_plain(bytes: &[u8]) -> bool {
    bytes.iter().all(|b| matches!(*b, b' '..=b'~'))
}

/// The text of a key.
pub(crate) fn text_of(alloc: Global, key: &str, value: Value) -> Result<Words, Wrong> {
    match value {
        Value::String(text) => {
            if is_plain(text.as_bytes()) {
                return Ok(Words { text });
            }
            Err(bad_key(
                alloc,
                key,
                "a text of one line of printable ASCII is wanted",
            ))
        }
        _ => Err(bad_key(alloc, key, "a text is wanted")),
    }
}

fn texts_of(alloc: Global, key: &str, value: Value) -> Result<Vec<Words>, Wrong> {
    match value {
        Value::Array(values) => {
            let mut texts = Vec::new(alloc);
            for value in values {
                let text = text_of(alloc, key, value)?;
                texts.push(text)?;
            }
            Ok(texts)
        }
        _ => Err(bad_key(alloc, key, "a list of texts is wanted")),
    }
}

fn signed_of(alloc: Global, key: &str, value: &Value) -> Result<i64, Wrong> {
    match value {
        Value::Integer(number) => Ok(*number),
        _ => Err(bad_key(alloc, key, "a whole number is wanted")),
    }
}

fn number_of(alloc: Global, key: &str, value: &Value) -> Result<u64, Wrong> {
    let number = signed_of(alloc, key, value)?;
    match u64::try_from(number) {
        Ok(number) => Ok(number),
        Err(_) => Err(bad_key(alloc, key, "a number from 0 on is wanted")),
    }
}

fn flag_of(alloc: Global, key: &str, value: &Value) -> Result<bool, Wrong> {
    match value {
        Value::Boolean(flag) => Ok(*flag),
        _ => Err(bad_key(alloc, key, "true or false is wanted")),
    }
}

// ---- the table ready

fn ready_text<'a>(ready: &'a mut ReadyTable, key: &str) -> Option<&'a mut Option<Words>> {
    match key {
        "http" => Some(&mut ready.http),
        "file" => Some(&mut ready.file),
        _ => None,
    }
}

fn ready_number<'a>(ready: &'a mut ReadyTable, key: &str) -> Option<&'a mut Option<u64>> {
    match key {
        "port" => Some(&mut ready.port),
        "alive" => Some(&mut ready.alive),
        "timeout" => Some(&mut ready.timeout),
        "watchdog" => Some(&mut ready.watchdog),
        _ => None,
    }
}

fn take_ready_key(
    alloc: Global,
    ready: &mut ReadyTable,
    key: &str,
    value: Value,
) -> Result<(), Wrong> {
    if let Some(slot) = ready_text(ready, key) {
        *slot = Some(text_of(alloc, key, value)?);
        return Ok(());
    }
    if let Some(slot) = ready_number(ready, key) {
        *slot = Some(number_of(alloc, key, &value)?);
        return Ok(());
    }
    if key == "notify" {
        ready.notify = Some(flag_of(alloc, key, &value)?);
        return Ok(());
    }
    Err(bad_key(alloc, key, "no key of a table ready"))
}

fn ready_of(alloc: Global, value: Value) -> Result<ReadyTable, Wrong> {
    let Value::Table(keys) = value else {
        return Err(bad_key(alloc, "ready", "a table is wanted"));
    };
    let mut ready = ReadyTable::new();
    for (key, value) in keys {
        take_ready_key(alloc, &mut ready, key.as_str(), value)?;
    }
    Ok(ready)
}

// ---- the table of an instance

fn text_slot<'a>(table: &'a mut InstanceTable, key: &str) -> Option<&'a mut Option<Words>> {
    match key {
        "stop" => Some(&mut table.stop),
        "refresh" => Some(&mut table.refresh),
        "restarter" => Some(&mut table.restarter),
        "duration" => Some(&mut table.duration),
        "ignore_error" => Some(&mut table.ignore_error),
        "restart_on" => Some(&mut table.restart_on),
        "user" => Some(&mut table.user),
        "directory" => Some(&mut table.directory),
        "environment_file" => Some(&mut table.environment_file),
        "umask" => Some(&mut table.umask),
        "memory" => Some(&mut table.memory),
        "cpu" => Some(&mut table.cpu),
        _ => None,
    }
}

fn list_slot<'a>(table: &'a mut InstanceTable, key: &str) -> Option<&'a mut Option<Vec<Words>>> {
    match key {
        "needs" => Some(&mut table.needs),
        "needs_any" => Some(&mut table.needs_any),
        "wants" => Some(&mut table.wants),
        "conflicts" => Some(&mut table.conflicts),
        "environment" => Some(&mut table.environment),
        "limits" => Some(&mut table.limits),
        _ => None,
    }
}

fn number_slot<'a>(table: &'a mut InstanceTable, key: &str) -> Option<&'a mut Option<u64>> {
    match key {
        "start_timeout" => Some(&mut table.start_timeout),
        "stop_timeout" => Some(&mut table.stop_timeout),
        "refresh_timeout" => Some(&mut table.refresh_timeout),
        "tasks" => Some(&mut table.tasks),
        "retry_seconds" => Some(&mut table.retry_seconds),
        "retry_most" => Some(&mut table.retry_most),
        "retry_count" => Some(&mut table.retry_count),
        "critical_failure_count" => Some(&mut table.critical_failure_count),
        "critical_failure_period" => Some(&mut table.critical_failure_period),
        "log_max" => Some(&mut table.log_max),
        "log_keep" => Some(&mut table.log_keep),
        _ => None,
    }
}

fn flag_slot<'a>(table: &'a mut InstanceTable, key: &str) -> Option<&'a mut Option<bool>> {
    match key {
        "enabled" => Some(&mut table.enabled),
        "no_new_privs" => Some(&mut table.no_new_privs),
        _ => None,
    }
}

fn take_other(
    alloc: Global,
    table: &mut InstanceTable,
    key: &str,
    value: Value,
) -> Result<(), Wrong> {
    match key {
        "start" => table.start = text_of(alloc, key, value)?,
        "nice" => table.nice = Some(signed_of(alloc, key, &value)?),
        "ready" => table.ready = Some(ready_of(alloc, value)?),
        _ => return Err(bad_key(alloc, key, "no such key")),
    }
    Ok(())
}

/// Takes the value of a key into the table of an instance.
pub(crate) fn take_key(
    alloc: Global,
    table: &mut InstanceTable,
    key: &str,
    value: Value,
) -> Result<(), Wrong> {
    if let Some(slot) = text_slot(table, key) {
        *slot = Some(text_of(alloc, key, value)?);
        return Ok(());
    }
    if let Some(slot) = list_slot(table, key) {
        *slot = Some(texts_of(alloc, key, value)?);
        return Ok(());
    }
    if let Some(slot) = number_slot(table, key) {
        *slot = Some(number_of(alloc, key, &value)?);
        return Ok(());
    }
    if let Some(slot) = flag_slot(table, key) {
        *slot = Some(flag_of(alloc, key, &value)?);
        return Ok(());
    }
    take_other(alloc, table, key, value)
}
