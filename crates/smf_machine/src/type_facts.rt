ghost use Rattle.smf_fmri.specs.ByKey.{Rises};
ghost use Rattle.smf_model.specs.Laws.{IsNumbered};
ghost use Rattle.smf_value.specs.Body.{AreGroups, IsWholeGroup, IsWholeProperty};
ghost use Rattle.smf_value.specs.Groups.{by_group};
ghost use Rattle.smf_value.specs.Moments.{IsMoment};
ghost use Rattle.smf_value.specs.Names.{IsName};
ghost use Rattle.smf_value.specs.Texts.{IsShort};
ghost use Rattle.smf_value.specs.Values.{IsValue};
ghost use Rattle.smf_world.specs.Formed.{IsFormed, IsFormedChange, IsFormedEdit, IsFormedEntry, IsFormedService, IsFormedSnapshot};
ghost use Rattle.smf_world.specs.Spelled.{IsFormedEvent};
ghost use Rattle.std.specs.List.{AllByRecursion};
ghost use Rattle.std.specs.Prelude.{◌≡◌, IfOk, OnOk};

use smf_fmri::{Fmri, Ordered};
use smf_model::{
    Edit, InstanceEntry, Journal, Plain, PropertyChange, Service, StoredSnapshot, Tables,
};
use smf_value::{Group, Name, Property, Time, Value};
use smf_world::Event;
use std::alloc::AllocError;

// Looking into a value lets the proof know what its type says of it. It changes and allocates nothing.

// ---- what clients ask

fn see_name(name: &Name)
    ensures { IsName name.now }
{
    let _text = name.as_str();
}

fn see_change(change: &PropertyChange)
    ensures { IsFormedChange change.now }
{
    match change {
        PropertyChange::Set { name, .. } => see_name(name),
        PropertyChange::AddValue { name, .. } => see_name(name),
        PropertyChange::DeleteValue { .. } => {}
        PropertyChange::Delete { .. } => {}
    }
}

fn see_edit(edit: &Edit)
    ensures { IsFormedEdit edit.now }
{
    match edit {
        Edit::AddGroup {
            name,
            group_type,
            ..
        } => {
            see_name(name);
            see_name(group_type);
        }
        Edit::Property { change, .. } => see_change(change),
        _ => {}
    }
}

/// A client asks only what the types let be asked.
pub(crate) fn see_event(event: &Event)
    ensures { IsFormedEvent event.now }
{
    match event {
        Event::Client(edit) => see_edit(edit),
        _ => {}
    }
}

// ---- groups

fn see_time(time: Time)
    ensures { IsMoment time }
{
    let _seconds = time.seconds();
    let _nanoseconds = time.nanoseconds();
}

fn see_fmri(name: &Fmri)
    ensures { IsShort name.now }
{
    let _text = name.print();
}

fn see_value(value: &Value)
    ensures { IsValue value.now }
{
    match value {
        Value::Boolean(_) => {}
        Value::Count(number) => {
            let _number = *number;
        }
        Value::Integer(number) => {
            let _number = *number;
        }
        Value::Time(time) => see_time(*time),
        Value::Astring(text) => {
            let _text = text.as_str();
        }
        Value::Ustring(text) => {
            let _text = text.as_str();
        }
        Value::Fmri(name) => see_fmri(name),
    }
}

fn see_property(property: &Property)
    ensures { IsWholeProperty property.now }
{
    see_name(property.name());
    for value in property.values() {
        see_value(value);
    }
}

fn see_group(group: &Group)
    ensures { IsWholeGroup group.now }
{
    see_name(group.name());
    see_name(group.group_type());
    for property in group.properties() {
        see_property(property);
    }
}

fn see_all(groups: &[Group]) -> Result<(), AllocError>
    requires { Rises by_group groups.now }
    ensures { OnOk result (AreGroups groups.now) }
{
    let Ok(_count) = u32::try_from(groups.len()) else {
        return Err(AllocError);
    };
    for group in groups {
        see_group(group);
    }
    Ok(())
}

/// Groups that a body may hold. An error: there are 2^32 or more.
fn see_groups(groups: &Ordered<Group>) -> Result<(), AllocError>
    ensures { OnOk result (AreGroups groups.now) }
{
    see_all(groups.as_slice())
}

// ---- what is held

fn see_services(services: &[Service]) -> Result<(), AllocError>
    ensures { OnOk result (AllByRecursion IsFormedService services.now) }
{
    for service in services {
        see_groups(&service.groups)?;
    }
    Ok(())
}

fn see_entries(entries: &[InstanceEntry]) -> Result<(), AllocError>
    ensures { OnOk result (AllByRecursion IsFormedEntry entries.now) }
{
    for entry in entries {
        see_groups(&entry.groups)?;
    }
    Ok(())
}

fn see_snapshot(snapshot: &StoredSnapshot)
    ensures { IsFormedSnapshot snapshot.now }
{
    let _body = snapshot.body();
}

fn see_snapshots(snapshots: &[StoredSnapshot])
    ensures { AllByRecursion IsFormedSnapshot snapshots.now }
{
    for snapshot in snapshots {
        see_snapshot(snapshot);
    }
}

fn see_tables(tables: &Tables) -> Result<(), AllocError>
    ensures { OnOk result (IsFormed tables.now) }
{
    see_services(tables.services())?;
    see_entries(tables.entries())?;
    see_snapshots(tables.snapshots());
    Ok(())
}

/// All that a repository holds as it is stored, which is what the types let be held.
pub(crate) fn stored_in<J: Journal>(repository: &Plain<J>) -> Result<Tables, AllocError>
    ensures exact { IfOk result (λ t. t ≡ repository.now.held) }
    ensures numbered { IsNumbered repository.now.held }
    ensures formed { OnOk result (IsFormed repository.now.held) }
{
    let first = repository.tables_as_stored()?;
    see_tables(&first)?;
    Ok(first)
}
