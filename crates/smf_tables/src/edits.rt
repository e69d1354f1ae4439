ghost use Rattle.std.specs.Prelude.{◌≡◌};
ghost use Rattle.smf_tables.specs.Calls.{CommitsNone, Does, IsInside, LeavesAsBefore};
ghost use Rattle.smf_tables.specs.Statements.{AddsGroup, AddsInstance, AddsLaunch, AddsMeta, AddsService, AddsSnapshot, DropsGroups, DropsInstance, DropsLaunch, DropsMeta, DropsService, DropsServiceGroups, DropsSnapshots};

use sqlite::{Alter, Error, Transaction, params};

/// Takes out a counter.
pub fn drop_meta<S: Alter>(tx: &mut Transaction<'_, S>, key: &str) -> Result<(), Error>
    requires { IsInside S.Store tx.old.conn.now }
    ensures same_reference { tx.new.conn.ghost_name ≡ tx.old.conn.ghost_name }
    ensures ok { Does (DropsMeta key.now) S.Store tx.old.conn.now tx.new.conn.now result }
    ensures err { CommitsNone S.Store tx.old.conn.now tx.new.conn.now result }
    ensures crash { LeavesAsBefore S.Store tx.old.conn.now tx.new.conn.now }
{
    tx.execute("DELETE FROM meta WHERE k = ?1", params![key])?;
    Ok(())
}

/// Puts in a counter.
pub fn add_meta<S: Alter>(tx: &mut Transaction<'_, S>, key: &str, value: i64) -> Result<(), Error>
    requires { IsInside S.Store tx.old.conn.now }
    ensures same_reference { tx.new.conn.ghost_name ≡ tx.old.conn.ghost_name }
    ensures ok { Does (AddsMeta key.now value) S.Store tx.old.conn.now tx.new.conn.now result }
    ensures err { CommitsNone S.Store tx.old.conn.now tx.new.conn.now result }
    ensures crash { LeavesAsBefore S.Store tx.old.conn.now tx.new.conn.now }
{
    tx.execute(
        "INSERT INTO meta (k, v) VALUES (?1, ?2)",
        params![key, value],
    )?;
    Ok(())
}

/// Takes out a service. It fails if the service has instances.
pub fn drop_service<S: Alter>(tx: &mut Transaction<'_, S>, name: &str) -> Result<(), Error>
    requires { IsInside S.Store tx.old.conn.now }
    ensures same_reference { tx.new.conn.ghost_name ≡ tx.old.conn.ghost_name }
    ensures ok { Does (DropsService name.now) S.Store tx.old.conn.now tx.new.conn.now result }
    ensures err { CommitsNone S.Store tx.old.conn.now tx.new.conn.now result }
    ensures crash { LeavesAsBefore S.Store tx.old.conn.now tx.new.conn.now }
{
    tx.execute("DELETE FROM service WHERE name = ?1", params![name])?;
    Ok(())
}

/// Puts in a service.
pub fn add_service<S: Alter>(tx: &mut Transaction<'_, S>, name: &str) -> Result<(), Error>
    requires { IsInside S.Store tx.old.conn.now }
    ensures same_reference { tx.new.conn.ghost_name ≡ tx.old.conn.ghost_name }
    ensures ok { Does (AddsService name.now) S.Store tx.old.conn.now tx.new.conn.now result }
    ensures err { CommitsNone S.Store tx.old.conn.now tx.new.conn.now result }
    ensures crash { LeavesAsBefore S.Store tx.old.conn.now tx.new.conn.now }
{
    tx.execute("INSERT INTO service (name) VALUES (?1)", params![name])?;
    Ok(())
}

/// Takes out an instance.
pub fn drop_instance<S: Alter>(tx: &mut Transaction<'_, S>, id: i64) -> Result<(), Error>
    requires { IsInside S.Store tx.old.conn.now }
    ensures same_reference { tx.new.conn.ghost_name ≡ tx.old.conn.ghost_name }
    ensures ok { Does (DropsInstance id) S.Store tx.old.conn.now tx.new.conn.now result }
    ensures err { CommitsNone S.Store tx.old.conn.now tx.new.conn.now result }
    ensures crash { LeavesAsBefore S.Store tx.old.conn.now tx.new.conn.now }
{
    tx.execute("DELETE FROM instance WHERE id = ?1", params![id])?;
    Ok(())
}

/// A row of the table of instances.
#[derive(Drop)]
pub struct InstanceRow<'a> {
    pub id: i64,
    /// The name of its service, which is there.
    pub service: &'a str,
    /// The part of its name after the service and a colon.
    pub name: &'a str,
    /// The text of its row.
    pub row: &'a str,
    pub start: Option<i64>,
    pub previous: Option<i64>,
}

/// Puts in an instance. It fails if its number or its name is taken, or its service is not there.
pub fn add_instance<S: Alter>(tx: &mut Transaction<'_, S>, i: &InstanceRow<'_>) -> Result<(), Error>
    requires { IsInside S.Store tx.old.conn.now }
    ensures same_reference { tx.new.conn.ghost_name ≡ tx.old.conn.ghost_name }
    ensures ok { Does (AddsInstance i.now) S.Store tx.old.conn.now tx.new.conn.now result }
    ensures err { CommitsNone S.Store tx.old.conn.now tx.new.conn.now result }
    ensures crash { LeavesAsBefore S.Store tx.old.conn.now tx.new.conn.now }
{
    tx.execute(
        "INSERT INTO instance (id, service, name, rowtext, start_snap, previous_snap) VALUES (?1, ?2, ?3, ?4, ?5, ?6)",
        params![i.id, i.service, i.name, i.row, i.start, i.previous],
    )?;
    Ok(())
}

/// Takes out the groups of an owner: those of an instance by its service and its number, those of a service by 0. Found
/// so they cost a search of the table's key; by the number alone every group would be looked at.
pub fn drop_groups<S: Alter>(
    tx: &mut Transaction<'_, S>,
    service: &str,
    id: i64,
) -> Result<(), Error>
    requires { IsInside S.Store tx.old.conn.now }
    ensures same_reference { tx.new.conn.ghost_name ≡ tx.old.conn.ghost_name }
    ensures ok { Does (DropsGroups service.now id) S.Store tx.old.conn.now tx.new.conn.now result }
    ensures err { CommitsNone S.Store tx.old.conn.now tx.new.conn.now result }
    ensures crash { LeavesAsBefore S.Store tx.old.conn.now tx.new.conn.now }
{
    tx.execute(
        "DELETE FROM grp WHERE service = ?1 AND instance = ?2",
        params![service, id],
    )?;
    Ok(())
}

/// Takes out the groups of a service, and none of its instances.
pub fn drop_service_groups<S: Alter>(tx: &mut Transaction<'_, S>, name: &str) -> Result<(), Error>
    requires { IsInside S.Store tx.old.conn.now }
    ensures same_reference { tx.new.conn.ghost_name ≡ tx.old.conn.ghost_name }
    ensures ok { Does (DropsServiceGroups name.now) S.Store tx.old.conn.now tx.new.conn.now result }
    ensures err { CommitsNone S.Store tx.old.conn.now tx.new.conn.now result }
    ensures crash { LeavesAsBefore S.Store tx.old.conn.now tx.new.conn.now }
{
    drop_groups(tx, name, 0)
}

/// Puts in a group of a service, with instance 0, or of an instance of the service.
pub fn add_group<S: Alter>(
    tx: &mut Transaction<'_, S>,
    service: &str,
    id: i64,
    name: &str,
    body: &[u8],
) -> Result<(), Error>
    requires { IsInside S.Store tx.old.conn.now }
    ensures same_reference { tx.new.conn.ghost_name ≡ tx.old.conn.ghost_name }
    ensures ok { Does (AddsGroup service.now id name.now body.now) S.Store tx.old.conn.now tx.new.conn.now result }
    ensures err { CommitsNone S.Store tx.old.conn.now tx.new.conn.now result }
    ensures crash { LeavesAsBefore S.Store tx.old.conn.now tx.new.conn.now }
{
    tx.execute(
        "INSERT INTO grp (service, instance, name, body) VALUES (?1, ?2, ?3, ?4)",
        params![service, id, name, body],
    )?;
    Ok(())
}

/// Takes out the snapshots of an instance.
pub fn drop_snapshots<S: Alter>(tx: &mut Transaction<'_, S>, id: i64) -> Result<(), Error>
    requires { IsInside S.Store tx.old.conn.now }
    ensures same_reference { tx.new.conn.ghost_name ≡ tx.old.conn.ghost_name }
    ensures ok { Does (DropsSnapshots id) S.Store tx.old.conn.now tx.new.conn.now result }
    ensures err { CommitsNone S.Store tx.old.conn.now tx.new.conn.now result }
    ensures crash { LeavesAsBefore S.Store tx.old.conn.now tx.new.conn.now }
{
    tx.execute("DELETE FROM snap WHERE instance = ?1", params![id])?;
    Ok(())
}

/// Puts in a snapshot of an instance. It fails if its number is taken.
pub fn add_snapshot<S: Alter>(
    tx: &mut Transaction<'_, S>,
    id: i64,
    instance: i64,
    body: &[u8],
) -> Result<(), Error>
    requires { IsInside S.Store tx.old.conn.now }
    ensures same_reference { tx.new.conn.ghost_name ≡ tx.old.conn.ghost_name }
    ensures ok { Does (AddsSnapshot id instance body.now) S.Store tx.old.conn.now tx.new.conn.now result }
    ensures err { CommitsNone S.Store tx.old.conn.now tx.new.conn.now result }
    ensures crash { LeavesAsBefore S.Store tx.old.conn.now tx.new.conn.now }
{
    tx.execute(
        "INSERT INTO snap (id, instance, body) VALUES (?1, ?2, ?3)",
        params![id, instance, body],
    )?;
    Ok(())
}

/// Takes out how often a restarter was launched.
pub fn drop_launch<S: Alter>(tx: &mut Transaction<'_, S>, name: &str) -> Result<(), Error>
    requires { IsInside S.Store tx.old.conn.now }
    ensures same_reference { tx.new.conn.ghost_name ≡ tx.old.conn.ghost_name }
    ensures ok { Does (DropsLaunch name.now) S.Store tx.old.conn.now tx.new.conn.now result }
    ensures err { CommitsNone S.Store tx.old.conn.now tx.new.conn.now result }
    ensures crash { LeavesAsBefore S.Store tx.old.conn.now tx.new.conn.now }
{
    tx.execute("DELETE FROM restarter WHERE name = ?1", params![name])?;
    Ok(())
}

/// Puts in how often a restarter was launched.
pub fn add_launch<S: Alter>(
    tx: &mut Transaction<'_, S>,
    name: &str,
    count: i64,
) -> Result<(), Error>
    requires { IsInside S.Store tx.old.conn.now }
    ensures same_reference { tx.new.conn.ghost_name ≡ tx.old.conn.ghost_name }
    ensures ok { Does (AddsLaunch name.now count) S.Store tx.old.conn.now tx.new.conn.now result }
    ensures err { CommitsNone S.Store tx.old.conn.now tx.new.conn.now result }
    ensures crash { LeavesAsBefore S.Store tx.old.conn.now tx.new.conn.now }
{
    tx.execute(
        "INSERT INTO restarter (name, launch) VALUES (?1, ?2)",
        params![name, count],
    )?;
    Ok(())
}
