ghost use Rattle.std.specs.Prelude.{◌≡◌, ◌<◌, OnOk};
ghost use Rattle.smf_tables.specs.Calls.{CommitsNone, Does, IsInside, LeavesAsBefore};
ghost use Rattle.smf_store.specs.Ends.{MakesInstanceGroups, MakesServiceGroups};
ghost use Rattle.smf_store.specs.Steps.{Makes};

use crate::fault::WriteFault;
use crate::fields::{are_same, integer_of, key_of, split};
use crate::rows::{insert_groups, insert_instance, insert_snapshot};
use smf_fmri::{InstanceFmri, Number, Ordered, ServiceFmri};
use smf_model::{
    Change, Instance, InstanceEntry, InstanceName, Launch, Owner, Service, StoredSnapshot,
};
use smf_tables::{
    add_launch, add_meta, add_service, drop_groups, drop_instance, drop_launch, drop_meta,
    drop_service, drop_service_groups, drop_snapshots, has_service, name_of,
};
use smf_value::Group;
use sqlite::{Alter, Transaction};
use std::alloc::Global;

/// Puts a service in the place of the one of its name, which has no instances.
fn put_service<S: Alter>(
    alloc: Global,
    tx: &mut Transaction<'_, S>,
    service: &Service,
) -> Result<(), WriteFault>
    requires { IsInside S.Store tx.old.conn.now }
    ensures same_reference { tx.new.conn.ghost_name ≡ tx.old.conn.ghost_name }
    ensures ok { Does (Makes (Change.AddService service.now)) S.Store tx.old.conn.now tx.new.conn.now result }
    ensures err { CommitsNone S.Store tx.old.conn.now tx.new.conn.now result }
    ensures crash { LeavesAsBefore S.Store tx.old.conn.now tx.new.conn.now }
{
    let name = service.name.print();
    let groups = service.groups.as_slice();
    drop_service_groups(tx, name)?;
    drop_service(tx, name)?;
    add_service(tx, name)?;
    insert_groups(alloc, tx, name, Number::zero(), groups)?;
    Ok(())
}

/// Takes out a service with its groups.
fn take_service<S: Alter>(tx: &mut Transaction<'_, S>, name: &ServiceFmri) -> Result<(), WriteFault>
    requires { IsInside S.Store tx.old.conn.now }
    ensures same_reference { tx.new.conn.ghost_name ≡ tx.old.conn.ghost_name }
    ensures ok { Does (Makes (Change.DropService name.now)) S.Store tx.old.conn.now tx.new.conn.now result }
    ensures err { CommitsNone S.Store tx.old.conn.now tx.new.conn.now result }
    ensures crash { LeavesAsBefore S.Store tx.old.conn.now tx.new.conn.now }
{
    let name = name.print();
    drop_service_groups(tx, name)?;
    drop_service(tx, name)?;
    Ok(())
}

/// Puts an instance with its groups in the place of the one of its number.
fn put_entry<S: Alter>(
    alloc: Global,
    tx: &mut Transaction<'_, S>,
    entry: &InstanceEntry,
) -> Result<(), WriteFault>
    requires { IsInside S.Store tx.old.conn.now }
    ensures same_reference { tx.new.conn.ghost_name ≡ tx.old.conn.ghost_name }
    ensures ok { Does (Makes (Change.AddInstance entry.now)) S.Store tx.old.conn.now tx.new.conn.now result }
    ensures err { CommitsNone S.Store tx.old.conn.now tx.new.conn.now result }
    ensures crash { LeavesAsBefore S.Store tx.old.conn.now tx.new.conn.now }
{
    let number = entry.instance.number;
    let columns = split(alloc, &entry.instance.name)?;
    let groups = entry.groups.as_slice();
    take_instance(tx, number)?;
    insert_instance(alloc, tx, &entry.instance)?;
    insert_groups(alloc, tx, columns.service.print(), number, groups)?;
    Ok(())
}

/// Puts an instance in the place of the one that has its number and its name.
fn put_instance<S: Alter>(
    alloc: Global,
    tx: &mut Transaction<'_, S>,
    instance: &Instance,
) -> Result<(), WriteFault>
    requires { IsInside S.Store tx.old.conn.now }
    ensures same_reference { tx.new.conn.ghost_name ≡ tx.old.conn.ghost_name }
    ensures ok { Does (Makes (Change.PutInstance instance.now)) S.Store tx.old.conn.now tx.new.conn.now result }
    ensures err { CommitsNone S.Store tx.old.conn.now tx.new.conn.now result }
    ensures crash { LeavesAsBefore S.Store tx.old.conn.now tx.new.conn.now }
{
    let id = key_of(instance.number)?;
    let columns = split(alloc, &instance.name)?;
    let Some(read) = name_of(tx, id)? else {
        return Err(WriteFault::Database);
    };
    if !are_same(&columns, &read) {
        return Err(WriteFault::Database);
    }
    drop_instance(tx, id)?;
    insert_instance(alloc, tx, instance)?;
    Ok(())
}

/// Takes out an instance with its groups.
fn take_instance<S: Alter>(tx: &mut Transaction<'_, S>, number: Number) -> Result<(), WriteFault>
    requires { IsInside S.Store tx.old.conn.now }
    ensures same_reference { tx.new.conn.ghost_name ≡ tx.old.conn.ghost_name }
    ensures ok { Does (Makes (Change.DropInstance number)) S.Store tx.old.conn.now tx.new.conn.now result }
    ensures some { OnOk result (0 < number) }
    ensures err { CommitsNone S.Store tx.old.conn.now tx.new.conn.now result }
    ensures crash { LeavesAsBefore S.Store tx.old.conn.now tx.new.conn.now }
{
    let id = key_of(number)?;
    let Some(read) = name_of(tx, id)? else {
        return Ok(());
    };
    drop_groups(tx, read.service.as_str(), id)?;
    drop_instance(tx, id)?;
    Ok(())
}

/// Puts the groups of a service that is there in the place of those that it has.
fn put_service_groups<S: Alter>(
    alloc: Global,
    tx: &mut Transaction<'_, S>,
    name: &ServiceFmri,
    groups: &Ordered<Group>,
) -> Result<(), WriteFault>
    requires { IsInside S.Store tx.old.conn.now }
    ensures same_reference { tx.new.conn.ghost_name ≡ tx.old.conn.ghost_name }
    ensures ok { Does (MakesServiceGroups name.now groups.now) S.Store tx.old.conn.now tx.new.conn.now result }
    ensures err { CommitsNone S.Store tx.old.conn.now tx.new.conn.now result }
    ensures crash { LeavesAsBefore S.Store tx.old.conn.now tx.new.conn.now }
{
    let name = name.print();
    let groups = groups.as_slice();
    if !has_service(tx, name)? {
        return Err(WriteFault::Database);
    }
    drop_service_groups(tx, name)?;
    insert_groups(alloc, tx, name, Number::zero(), groups)?;
    Ok(())
}

/// The same for an instance.
fn put_instance_groups<S: Alter>(
    alloc: Global,
    tx: &mut Transaction<'_, S>,
    number: Number,
    groups: &Ordered<Group>,
) -> Result<(), WriteFault>
    requires { IsInside S.Store tx.old.conn.now }
    ensures same_reference { tx.new.conn.ghost_name ≡ tx.old.conn.ghost_name }
    ensures ok { Does (MakesInstanceGroups number groups.now) S.Store tx.old.conn.now tx.new.conn.now result }
    ensures err { CommitsNone S.Store tx.old.conn.now tx.new.conn.now result }
    ensures crash { LeavesAsBefore S.Store tx.old.conn.now tx.new.conn.now }
{
    let id = key_of(number)?;
    let groups = groups.as_slice();
    let Some(read) = name_of(tx, id)? else {
        return Err(WriteFault::Database);
    };
    drop_groups(tx, read.service.as_str(), id)?;
    insert_groups(alloc, tx, read.service.as_str(), number, groups)?;
    Ok(())
}

/// Puts in a snapshot, whose number no other has.
fn put_snapshot<S: Alter>(
    tx: &mut Transaction<'_, S>,
    snapshot: &StoredSnapshot,
) -> Result<(), WriteFault>
    requires { IsInside S.Store tx.old.conn.now }
    ensures same_reference { tx.new.conn.ghost_name ≡ tx.old.conn.ghost_name }
    ensures ok { Does (Makes (Change.AddSnapshot snapshot.now)) S.Store tx.old.conn.now tx.new.conn.now result }
    ensures err { CommitsNone S.Store tx.old.conn.now tx.new.conn.now result }
    ensures crash { LeavesAsBefore S.Store tx.old.conn.now tx.new.conn.now }
{
    insert_snapshot(tx, snapshot)?;
    Ok(())
}

/// Takes out the snapshots of an instance.
fn take_snapshots<S: Alter>(tx: &mut Transaction<'_, S>, number: Number) -> Result<(), WriteFault>
    requires { IsInside S.Store tx.old.conn.now }
    ensures same_reference { tx.new.conn.ghost_name ≡ tx.old.conn.ghost_name }
    ensures ok { Does (Makes (Change.DropSnapshots number)) S.Store tx.old.conn.now tx.new.conn.now result }
    ensures err { CommitsNone S.Store tx.old.conn.now tx.new.conn.now result }
    ensures crash { LeavesAsBefore S.Store tx.old.conn.now tx.new.conn.now }
{
    let id = integer_of(number);
    drop_snapshots(tx, id)?;
    Ok(())
}

/// Puts in how often a restarter was launched.
fn put_launch<S: Alter>(tx: &mut Transaction<'_, S>, launch: &Launch) -> Result<(), WriteFault>
    requires { IsInside S.Store tx.old.conn.now }
    ensures same_reference { tx.new.conn.ghost_name ≡ tx.old.conn.ghost_name }
    ensures ok { Does (Makes (Change.PutLaunch launch.now)) S.Store tx.old.conn.now tx.new.conn.now result }
    ensures err { CommitsNone S.Store tx.old.conn.now tx.new.conn.now result }
    ensures crash { LeavesAsBefore S.Store tx.old.conn.now tx.new.conn.now }
{
    let name = launch.restarter.print();
    drop_launch(tx, name)?;
    add_launch(tx, name, integer_of(launch.count))?;
    Ok(())
}

/// Sets the number of the next instance.
fn set_next_instance<S: Alter>(
    tx: &mut Transaction<'_, S>,
    number: Number,
) -> Result<(), WriteFault>
    requires { IsInside S.Store tx.old.conn.now }
    ensures same_reference { tx.new.conn.ghost_name ≡ tx.old.conn.ghost_name }
    ensures ok { Does (Makes (Change.NextInstance number)) S.Store tx.old.conn.now tx.new.conn.now result }
    ensures err { CommitsNone S.Store tx.old.conn.now tx.new.conn.now result }
    ensures crash { LeavesAsBefore S.Store tx.old.conn.now tx.new.conn.now }
{
    drop_meta(tx, "next_instance")?;
    add_meta(tx, "next_instance", integer_of(number))?;
    Ok(())
}

/// Sets the number of the next snapshot.
fn set_next_snapshot<S: Alter>(
    tx: &mut Transaction<'_, S>,
    number: Number,
) -> Result<(), WriteFault>
    requires { IsInside S.Store tx.old.conn.now }
    ensures same_reference { tx.new.conn.ghost_name ≡ tx.old.conn.ghost_name }
    ensures ok { Does (Makes (Change.NextSnapshot number)) S.Store tx.old.conn.now tx.new.conn.now result }
    ensures err { CommitsNone S.Store tx.old.conn.now tx.new.conn.now result }
    ensures crash { LeavesAsBefore S.Store tx.old.conn.now tx.new.conn.now }
{
    drop_meta(tx, "next_snapshot")?;
    add_meta(tx, "next_snapshot", integer_of(number))?;
    Ok(())
}

/// Sets the number of the revision.
fn set_revision<S: Alter>(tx: &mut Transaction<'_, S>, number: Number) -> Result<(), WriteFault>
    requires { IsInside S.Store tx.old.conn.now }
    ensures same_reference { tx.new.conn.ghost_name ≡ tx.old.conn.ghost_name }
    ensures ok { Does (Makes (Change.SetRevision number)) S.Store tx.old.conn.now tx.new.conn.now result }
    ensures err { CommitsNone S.Store tx.old.conn.now tx.new.conn.now result }
    ensures crash { LeavesAsBefore S.Store tx.old.conn.now tx.new.conn.now }
{
    drop_meta(tx, "revision")?;
    add_meta(tx, "revision", integer_of(number))?;
    Ok(())
}

/// Looks at the tables: names stand in those of instances alone.
fn put_name<S: Alter>(tx: &mut Transaction<'_, S>, name: &InstanceName) -> Result<(), WriteFault>
    requires { IsInside S.Store tx.old.conn.now }
    ensures same_reference { tx.new.conn.ghost_name ≡ tx.old.conn.ghost_name }
    ensures ok { Does (Makes (Change.PutName name.now)) S.Store tx.old.conn.now tx.new.conn.now result }
    ensures err { CommitsNone S.Store tx.old.conn.now tx.new.conn.now result }
    ensures crash { LeavesAsBefore S.Store tx.old.conn.now tx.new.conn.now }
{
    let _ = has_service(tx, "")?;
    Ok(())
}

/// The same.
fn take_name<S: Alter>(tx: &mut Transaction<'_, S>, name: &InstanceFmri) -> Result<(), WriteFault>
    requires { IsInside S.Store tx.old.conn.now }
    ensures same_reference { tx.new.conn.ghost_name ≡ tx.old.conn.ghost_name }
    ensures ok { Does (Makes (Change.DropName name.now)) S.Store tx.old.conn.now tx.new.conn.now result }
    ensures err { CommitsNone S.Store tx.old.conn.now tx.new.conn.now result }
    ensures crash { LeavesAsBefore S.Store tx.old.conn.now tx.new.conn.now }
{
    let _ = has_service(tx, "")?;
    Ok(())
}

/// Replaces the groups of an owner.
fn put_groups<S: Alter>(
    alloc: Global,
    tx: &mut Transaction<'_, S>,
    owner: &Owner,
    groups: &Ordered<Group>,
) -> Result<(), WriteFault>
    requires { IsInside S.Store tx.old.conn.now }
    ensures same_reference { tx.new.conn.ghost_name ≡ tx.old.conn.ghost_name }
    ensures ok { Does (Makes (Change.PutGroups owner.now groups.now)) S.Store tx.old.conn.now tx.new.conn.now result }
    ensures err { CommitsNone S.Store tx.old.conn.now tx.new.conn.now result }
    ensures crash { LeavesAsBefore S.Store tx.old.conn.now tx.new.conn.now }
{
    match owner {
        Owner::Service(name) => put_service_groups(alloc, tx, name, groups),
        Owner::Instance(number) => put_instance_groups(alloc, tx, *number, groups),
    }
}

/// Makes one change.
pub(crate) fn write_change<S: Alter>(
    alloc: Global,
    tx: &mut Transaction<'_, S>,
    change: &Change,
) -> Result<(), WriteFault>
    requires { IsInside S.Store tx.old.conn.now }
    ensures same_reference { tx.new.conn.ghost_name ≡ tx.old.conn.ghost_name }
    ensures ok { Does (Makes (change.now)) S.Store tx.old.conn.now tx.new.conn.now result }
    ensures err { CommitsNone S.Store tx.old.conn.now tx.new.conn.now result }
    ensures crash { LeavesAsBefore S.Store tx.old.conn.now tx.new.conn.now }
{
    match change {
        Change::AddService(service) => put_service(alloc, tx, service),
        Change::DropService(name) => take_service(tx, name),
        Change::AddInstance(entry) => put_entry(alloc, tx, entry),
        Change::PutInstance(instance) => put_instance(alloc, tx, instance),
        Change::DropInstance(number) => take_instance(tx, *number),
        Change::PutName(name) => put_name(tx, name),
        Change::DropName(name) => take_name(tx, name),
        Change::PutGroups(owner, groups) => put_groups(alloc, tx, owner, groups),
        Change::AddSnapshot(snapshot) => put_snapshot(tx, snapshot),
        Change::DropSnapshots(number) => take_snapshots(tx, *number),
        Change::PutLaunch(launch) => put_launch(tx, launch),
        Change::NextInstance(number) => set_next_instance(tx, *number),
        Change::NextSnapshot(number) => set_next_snapshot(tx, *number),
        Change::SetRevision(number) => set_revision(tx, *number),
    }
}
