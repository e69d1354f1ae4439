// What a file says.
use crate::fault::{SiteFault, Wrong, bad_key, bad_name};
use crate::keys::{take_key, text_of};
use crate::site::{Entry, InstanceTable, PropertyGroup, PropertyValue, Setting, Words};
use smf_fmri::Fmri;
use smf_value::{Name, NameFault};
use std::alloc::Global;
use toml::{Table, Value};

/// The groups that other keys make, or that smf makes by itself.
const TAKEN: [&str; 11] = [
    "start",
    "stop",
    "refresh",
    "startd",
    "general",
    "general_ovr",
    "restarter",
    "needs",
    "needs_any",
    "wants",
    "conflicts",
];

/// What the library says of a text that is no TOML, in one line, without the place.
fn wrong_of(alloc: Global, fault: &toml::de::Error) -> Wrong {
    let Some(span) = fault.span() else {
        return Wrong::Memory;
    };
    match String::from_str(alloc, fault.message()) {
        Ok(why) => Wrong::Syntax {
            at: span.start,
            why,
        },
        Err(_) => Wrong::Memory,
    }
}

/// Refuses what names no service and no instance.
fn check_name(alloc: Global, name: &str) -> Result<(), Wrong> {
    match Fmri::parse(alloc, name) {
        Ok(_fmri) => Ok(()),
        Err(fault) => Err(bad_name(alloc, name, fault)),
    }
}

/// Refuses an entity that has no name.
fn check_entity(alloc: Global, name: &str) -> Result<(), Wrong> {
    if name.starts_with("svc:/") {
        return check_name(alloc, name);
    }
    let full = format!(in alloc; "svc:/{name}")?;
    check_name(alloc, full.as_str())
}

fn check_entities(alloc: Global, names: &Option<Vec<Words>>) -> Result<(), Wrong> {
    if let Some(names) = names {
        for name in names {
            check_entity(alloc, name.text.as_str())?;
        }
    }
    Ok(())
}

/// Refuses names in a table that name nothing.
fn check_table(alloc: Global, table: &InstanceTable) -> Result<(), Wrong> {
    check_entities(alloc, &table.needs)?;
    check_entities(alloc, &table.needs_any)?;
    check_entities(alloc, &table.wants)?;
    check_entities(alloc, &table.conflicts)?;
    match &table.restarter {
        None => Ok(()),
        Some(name) => check_entity(alloc, name.text.as_str()),
    }
}

/// Refuses what is no name of a group or a property.
fn check_part(alloc: Global, name: &str) -> Result<(), Wrong> {
    match Name::parse(alloc, name) {
        Ok(_name) => Ok(()),
        Err(NameFault::Memory) => Err(Wrong::Memory),
        Err(fault) => {
            let why = format!(in alloc; "{name}: {fault}")?;
            Err(Wrong::Meaning(why))
        }
    }
}

/// Refuses a group that other keys make.
fn check_group(alloc: Global, name: &str) -> Result<(), Wrong> {
    if TAKEN.iter().any(|taken| *taken == name) {
        let why = format!(in alloc; "{name}: other keys make this group")?;
        return Err(Wrong::Meaning(why));
    }
    check_part(alloc, name)
}

/// The tables of a table, or what is wrong with it.
fn table_of(alloc: Global, key: &str, value: Value) -> Result<Table, Wrong> {
    match value {
        Value::Table(table) => Ok(table),
        _ => Err(bad_key(alloc, key, "a table is wanted")),
    }
}

/// The value of a property.
fn property_of(alloc: Global, name: &str, value: Value) -> Result<PropertyValue, Wrong> {
    match value {
        Value::Boolean(flag) => Ok(PropertyValue::Boolean(flag)),
        Value::Integer(number) => match u64::try_from(number) {
            Ok(number) => Ok(PropertyValue::Count(number)),
            Err(_) => Ok(PropertyValue::Integer(number)),
        },
        _ => Ok(PropertyValue::Text(text_of(alloc, name, value)?)),
    }
}

fn settings_of(alloc: Global, properties: Table) -> Result<Vec<Setting>, Wrong> {
    let mut settings = Vec::new(alloc);
    for (name, value) in properties {
        check_part(alloc, name.as_str())?;
        let value = property_of(alloc, name.as_str(), value)?;
        settings.push(Setting { name, value })?;
    }
    Ok(settings)
}

fn groups_of(alloc: Global, groups: Table) -> Result<Vec<PropertyGroup>, Wrong> {
    let mut found = Vec::new(alloc);
    for (name, value) in groups {
        check_group(alloc, name.as_str())?;
        let properties = table_of(alloc, name.as_str(), value)?;
        let settings = settings_of(alloc, properties)?;
        found.push(PropertyGroup { name, settings })?;
    }
    Ok(found)
}

/// The instance of a table.
fn entry_of(alloc: Global, service: &str, instance: String, keys: Table) -> Result<Entry, Wrong> {
    let name = format!(in alloc; "svc:/{service}:{instance}")?;
    check_name(alloc, name.as_str())?;
    let mut table = InstanceTable::new(alloc);
    let mut groups = Vec::new(alloc);
    for (key, value) in keys {
        if key.as_str() == "properties" {
            groups = groups_of(alloc, table_of(alloc, "properties", value)?)?;
        } else {
            take_key(alloc, &mut table, key.as_str(), value)?;
        }
    }
    if table.start.text.is_empty() {
        return Err(bad_key(alloc, name.as_str(), "a start method is wanted"));
    }
    check_table(alloc, &table)?;
    Ok(Entry {
        service: String::from_str(alloc, service)?,
        instance,
        table,
        groups,
    })
}

/// Adds the instances of a service.
fn add_service(
    alloc: Global,
    entries: &mut Vec<Entry>,
    service: &str,
    instances: Table,
) -> Result<(), Wrong> {
    for (instance, value) in instances {
        let keys = table_of(alloc, instance.as_str(), value)?;
        let entry = entry_of(alloc, service, instance, keys)?;
        entries.push(entry)?;
    }
    Ok(())
}

/// The instances of a text.
fn entries_in(alloc: Global, text: &str) -> Result<Vec<Entry>, Wrong> {
    let site = match toml::table_from_str(alloc, text) {
        Ok(site) => site,
        Err(fault) => return Err(wrong_of(alloc, &fault)),
    };
    let mut entries = Vec::new(alloc);
    for (key, value) in site {
        if key.as_str() != "service" {
            return Err(bad_key(
                alloc,
                key.as_str(),
                "no such table: a table service is wanted",
            ));
        }
        for (service, value) in table_of(alloc, "service", value)? {
            let instances = table_of(alloc, service.as_str(), value)?;
            add_service(alloc, &mut entries, service.as_str(), instances)?;
        }
    }
    Ok(entries)
}

/// The line of a byte.
fn line_of(text: &str, at: usize) -> usize {
    let ends = text.bytes().take(at).filter(|b| *b == b'\n').count();
    ends.saturating_add(1)
}

/// True if a text means no services for this reason.
fn is_wrong(alloc: Global, text: &str, why: &str) -> bool {
    match entries_in(alloc, text) {
        Err(Wrong::Meaning(other)) => other.as_str() == why,
        _ => false,
    }
}

/// The first line with which a text begins to mean no services for a reason.
fn first_line(alloc: Global, text: &str, why: &str) -> usize {
    let mut line = 0usize;
    for (at, b) in text.as_bytes().iter().enumerate() {
        if *b == b'\n' {
            line = line.saturating_add(1);
            if let Some(begin) = text.get(..at) {
                if is_wrong(alloc, begin, why) {
                    return line;
                }
            }
        }
    }
    line.saturating_add(1)
}

/// The instances that a file of TOML says, those of one service one after another, in the order of their names.
pub fn entries_of(alloc: Global, text: &str) -> Result<Vec<Entry>, SiteFault> {
    match entries_in(alloc, text) {
        Ok(entries) => Ok(entries),
        Err(Wrong::Memory) => Err(SiteFault::Memory),
        Err(Wrong::Syntax { at, why }) => Err(SiteFault::At {
            line: line_of(text, at),
            why,
        }),
        Err(Wrong::Meaning(why)) => Err(SiteFault::At {
            line: first_line(alloc, text, why.as_str()),
            why,
        }),
    }
}
