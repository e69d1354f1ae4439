ghost use Rattle.std.specs.Prelude.{◌≡◌, ◌↔◌, IfErr, IfOk, IsTrue, Some};
ghost use Rattle.sqlite.specs.Held.{state};
ghost use Rattle.sqlite.specs.State.{HasCleanDisk, IsLive, KeepsCommit};
ghost use Rattle.smf_tables.specs.Calls.{CommitsNone, IsInside, LeavesAsBefore};
ghost use Rattle.smf_tables.specs.Calls.{Finds as Reads};
ghost use Rattle.smf_tables.specs.Layout.{StandsSomewhere};
ghost use Rattle.smf_tables.specs.Scans.{LooksAtGroups, LooksAtInstances, LooksAtMeta, LooksAtServices, LooksAtSnapshots};
ghost use Rattle.smf_tables.specs.Schema.{snap_at};
ghost use Rattle.smf_store.specs.FirstOther.{IsFirstOther, is_before, reads_snapshots};
ghost use Rattle.smf_store.specs.Stages.{AreAllKeyed, AreListedBefore, IsFailure, Lists, LooksIf};

use crate::judgements::StoreRows;
use crate::places::{is_before, reads_snapshots};
use crate::refusal::{OpenFault, StoreTable};
use smf_tables::{
    all_groups, all_instances, all_launches, all_meta, all_services, all_snapshots, are_keyed,
};
use sqlite::{Alter, Row, Transaction};
use std::alloc::Global;

/// True if each table shows each rowid once.
fn are_all_keyed(rows: &StoreRows) -> bool
    ensures { IsTrue result → AreAllKeyed rows.now }
{
    if !are_keyed(&rows.counts) || !are_keyed(&rows.services) || !are_keyed(&rows.instances) {
        return false;
    }
    are_keyed(&rows.groups) && are_keyed(&rows.snapshots) && are_keyed(&rows.launches)
}

/// All rows of the six tables.
pub(crate) fn read_rows<S: Alter>(tx: &mut Transaction<'_, S>) -> Result<StoreRows, OpenFault>
    requires { IsInside S.Store tx.old.conn.now }
    ensures same_reference { tx.new.conn.ghost_name ≡ tx.old.conn.ghost_name }
    ensures ok { Reads Lists S.Store tx.old.conn.now tx.new.conn.now result }
    ensures err { CommitsNone S.Store tx.old.conn.now tx.new.conn.now result }
    ensures crash { LeavesAsBefore S.Store tx.old.conn.now tx.new.conn.now }
    ensures fault { IfErr result IsFailure }
{
    let counts = all_meta(tx)?;
    let services = all_services(tx)?;
    let instances = all_instances(tx)?;
    let groups = all_groups(tx)?;
    let snapshots = all_snapshots(tx)?;
    let launches = all_launches(tx)?;
    let rows = StoreRows {
        counts,
        services,
        instances,
        groups,
        snapshots,
        launches,
    };
    if !are_all_keyed(&rows) {
        return Err(OpenFault::Database);
    }
    Ok(rows)
}

/// All rows of the table of counters, if it is to be looked at.
fn counts_if<S: Alter>(
    alloc: Global,
    tx: &mut Transaction<'_, S>,
    looks: bool,
) -> Result<Vec<Row>, OpenFault>
    requires { IsInside S.Store tx.old.conn.now }
    ensures same_reference { tx.new.conn.ghost_name ≡ tx.old.conn.ghost_name }
    ensures ok { Reads (λ old new rows. LooksIf looks LooksAtMeta old new rows.items) S.Store tx.old.conn.now
        tx.new.conn.now result }
    ensures kept { HasCleanDisk (state S.Store tx.new.conn.now)
        → KeepsCommit (state S.Store tx.old.conn.now) (state S.Store tx.new.conn.now) }
    ensures inside { IfOk result (λ _. IsInside S.Store tx.new.conn.now) }
    ensures crash { LeavesAsBefore S.Store tx.old.conn.now tx.new.conn.now }
    ensures fault { IfErr result IsFailure }
{
    match looks {
        true => Ok(all_meta(tx)?),
        false => Ok(Vec::new(alloc)),
    }
}

/// All rows of the table of services, if it is to be looked at.
fn services_if<S: Alter>(
    alloc: Global,
    tx: &mut Transaction<'_, S>,
    looks: bool,
) -> Result<Vec<Row>, OpenFault>
    requires { IsInside S.Store tx.old.conn.now }
    ensures same_reference { tx.new.conn.ghost_name ≡ tx.old.conn.ghost_name }
    ensures ok { Reads (λ old new rows. LooksIf looks LooksAtServices old new rows.items) S.Store tx.old.conn.now
        tx.new.conn.now result }
    ensures kept { HasCleanDisk (state S.Store tx.new.conn.now)
        → KeepsCommit (state S.Store tx.old.conn.now) (state S.Store tx.new.conn.now) }
    ensures inside { IfOk result (λ _. IsInside S.Store tx.new.conn.now) }
    ensures crash { LeavesAsBefore S.Store tx.old.conn.now tx.new.conn.now }
    ensures fault { IfErr result IsFailure }
{
    match looks {
        true => Ok(all_services(tx)?),
        false => Ok(Vec::new(alloc)),
    }
}

/// All rows of the table of instances, if it is to be looked at.
fn instances_if<S: Alter>(
    alloc: Global,
    tx: &mut Transaction<'_, S>,
    looks: bool,
) -> Result<Vec<Row>, OpenFault>
    requires { IsInside S.Store tx.old.conn.now }
    ensures same_reference { tx.new.conn.ghost_name ≡ tx.old.conn.ghost_name }
    ensures ok { Reads (λ old new rows. LooksIf looks LooksAtInstances old new rows.items) S.Store tx.old.conn.now
        tx.new.conn.now result }
    ensures kept { HasCleanDisk (state S.Store tx.new.conn.now)
        → KeepsCommit (state S.Store tx.old.conn.now) (state S.Store tx.new.conn.now) }
    ensures inside { IfOk result (λ _. IsInside S.Store tx.new.conn.now) }
    ensures crash { LeavesAsBefore S.Store tx.old.conn.now tx.new.conn.now }
    ensures fault { IfErr result IsFailure }
{
    match looks {
        true => Ok(all_instances(tx)?),
        false => Ok(Vec::new(alloc)),
    }
}

/// All rows of the table of groups, if it is to be looked at.
fn groups_if<S: Alter>(
    alloc: Global,
    tx: &mut Transaction<'_, S>,
    looks: bool,
) -> Result<Vec<Row>, OpenFault>
    requires { IsInside S.Store tx.old.conn.now }
    ensures same_reference { tx.new.conn.ghost_name ≡ tx.old.conn.ghost_name }
    ensures ok { Reads (λ old new rows. LooksIf looks LooksAtGroups old new rows.items) S.Store tx.old.conn.now
        tx.new.conn.now result }
    ensures kept { HasCleanDisk (state S.Store tx.new.conn.now)
        → KeepsCommit (state S.Store tx.old.conn.now) (state S.Store tx.new.conn.now) }
    ensures inside { IfOk result (λ _. IsInside S.Store tx.new.conn.now) }
    ensures crash { LeavesAsBefore S.Store tx.old.conn.now tx.new.conn.now }
    ensures fault { IfErr result IsFailure }
{
    match looks {
        true => Ok(all_groups(tx)?),
        false => Ok(Vec::new(alloc)),
    }
}

/// All rows of the table of snapshots, if it is to be looked at.
fn snapshots_if<S: Alter>(
    alloc: Global,
    tx: &mut Transaction<'_, S>,
    looks: bool,
) -> Result<Vec<Row>, OpenFault>
    requires { IsInside S.Store tx.old.conn.now }
    ensures same_reference { tx.new.conn.ghost_name ≡ tx.old.conn.ghost_name }
    ensures ok { Reads (λ old new rows. LooksIf looks LooksAtSnapshots old new rows.items) S.Store tx.old.conn.now
        tx.new.conn.now result }
    ensures kept { HasCleanDisk (state S.Store tx.new.conn.now)
        → KeepsCommit (state S.Store tx.old.conn.now) (state S.Store tx.new.conn.now) }
    ensures inside { IfOk result (λ _. IsInside S.Store tx.new.conn.now) }
    ensures crash { LeavesAsBefore S.Store tx.old.conn.now tx.new.conn.now }
    ensures fault { IfErr result IsFailure }
{
    match looks {
        true => Ok(all_snapshots(tx)?),
        false => Ok(Vec::new(alloc)),
    }
}

/// All rows of the tables before the first that is absent or another, which are none of the last table. If that is the
/// table of groups, the snapshots after it are read too, if they are there. They show which an instance may name.
pub(crate) fn read_before<S: Alter>(
    alloc: Global,
    tx: &mut Transaction<'_, S>,
    other: StoreTable,
    are_there: bool,
) -> Result<StoreRows, OpenFault>
    requires { IsInside S.Store tx.old.conn.now }
    ensures same_reference { tx.new.conn.ghost_name ≡ tx.old.conn.ghost_name }
    ensures kept { HasCleanDisk (state S.Store tx.new.conn.now)
        → KeepsCommit (state S.Store tx.old.conn.now) (state S.Store tx.new.conn.now) }
    ensures crash { LeavesAsBefore S.Store tx.old.conn.now tx.new.conn.now }
    ensures fault { IfErr result IsFailure }
    ensures listed { HasCleanDisk (state S.Store tx.new.conn.now)
        → IfOk result (λ rows. IsFirstOther (state S.Store tx.old.conn.now).now.schema (Some other)
        → (IsTrue are_there ↔ StandsSomewhere (state S.Store tx.old.conn.now).now.schema snap_at)
        → IsLive (state S.Store tx.old.conn.now) → AreListedBefore other rows (state S.Store tx.old.conn.now).now) }
{
    let counts = counts_if(alloc, tx, is_before(StoreTable::Meta, other))?;
    let services = services_if(alloc, tx, is_before(StoreTable::Service, other))?;
    let instances = instances_if(alloc, tx, is_before(StoreTable::Instance, other))?;
    let groups = groups_if(alloc, tx, is_before(StoreTable::Group, other))?;
    let snapshots = snapshots_if(alloc, tx, reads_snapshots(other, are_there))?;
    let launches = Vec::new(alloc);
    let rows = StoreRows {
        counts,
        services,
        instances,
        groups,
        snapshots,
        launches,
    };
    if !are_all_keyed(&rows) {
        return Err(OpenFault::Database);
    }
    Ok(rows)
}
