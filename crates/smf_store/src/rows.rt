ghost use Rattle.std.specs.Prelude.{◌≡◌};
ghost use Rattle.smf_tables.specs.Calls.{CommitsNone, Does, IsInside, LeavesAsBefore};
ghost use Rattle.smf_tables.specs.Schema.{instance, snap};
ghost use Rattle.smf_store.specs.Ends.{AddsGroupRow};
ghost use Rattle.smf_store.specs.Shown.{ShowsInstance, ShowsSnapshot};
ghost use Rattle.smf_store.specs.Steps.{AddsRow, GrowsBy};

use crate::fault::WriteFault;
use crate::fields::{body_of, integer_of, key_of, optional_of, split};
use smf_fmri::Number;
use smf_model::{Instance, StoredSnapshot};
use smf_tables::{InstanceRow, add_group, add_instance, add_snapshot};
use smf_value::Group;
use sqlite::{Alter, Transaction};
use std::alloc::Global;

/// Puts in the row of an instance.
pub(crate) fn insert_instance<S: Alter>(
    alloc: Global,
    tx: &mut Transaction<'_, S>,
    i: &Instance,
) -> Result<(), WriteFault>
    requires { IsInside S.Store tx.old.conn.now }
    ensures same_reference { tx.new.conn.ghost_name ≡ tx.old.conn.ghost_name }
    ensures ok { Does (AddsRow (ShowsInstance i.now) instance) S.Store tx.old.conn.now tx.new.conn.now result }
    ensures err { CommitsNone S.Store tx.old.conn.now tx.new.conn.now result }
    ensures crash { LeavesAsBefore S.Store tx.old.conn.now tx.new.conn.now }
{
    let id = key_of(i.number)?;
    let start = optional_of(i.start);
    let previous = optional_of(i.previous);
    let columns = split(alloc, &i.name)?;
    let row = i.row.print(alloc)?;
    let row = InstanceRow {
        id,
        service: columns.service.print(),
        name: columns.name.as_str(),
        row: row.as_str(),
        start,
        previous,
    };
    add_instance(tx, &row)?;
    Ok(())
}

/// Puts in the row of a snapshot.
pub(crate) fn insert_snapshot<S: Alter>(
    tx: &mut Transaction<'_, S>,
    s: &StoredSnapshot,
) -> Result<(), WriteFault>
    requires { IsInside S.Store tx.old.conn.now }
    ensures same_reference { tx.new.conn.ghost_name ≡ tx.old.conn.ghost_name }
    ensures ok { Does (AddsRow (ShowsSnapshot s.now) snap) S.Store tx.old.conn.now tx.new.conn.now result }
    ensures err { CommitsNone S.Store tx.old.conn.now tx.new.conn.now result }
    ensures crash { LeavesAsBefore S.Store tx.old.conn.now tx.new.conn.now }
{
    let snapshot = s.snapshot();
    let id = integer_of(snapshot.number);
    let instance = integer_of(snapshot.instance);
    add_snapshot(tx, id, instance, s.body().as_slice())?;
    Ok(())
}

/// Puts in the row of a group.
fn insert_group<S: Alter>(
    alloc: Global,
    tx: &mut Transaction<'_, S>,
    service: &str,
    number: Number,
    group: &Group,
) -> Result<(), WriteFault>
    requires { IsInside S.Store tx.old.conn.now }
    ensures same_reference { tx.new.conn.ghost_name ≡ tx.old.conn.ghost_name }
    ensures ok { Does (AddsGroupRow service.now number group.now) S.Store tx.old.conn.now tx.new.conn.now result }
    ensures err { CommitsNone S.Store tx.old.conn.now tx.new.conn.now result }
    ensures crash { LeavesAsBefore S.Store tx.old.conn.now tx.new.conn.now }
{
    let id = integer_of(number);
    let body = body_of(alloc, group)?;
    add_group(tx, service, id, group.name().as_str(), body.as_slice())?;
    Ok(())
}

/// Puts in a row for each of these groups.
pub(crate) fn insert_groups<S: Alter>(
    alloc: Global,
    tx: &mut Transaction<'_, S>,
    service: &str,
    number: Number,
    groups: &[Group],
) -> Result<(), WriteFault>
    requires { IsInside S.Store tx.old.conn.now }
    ensures same_reference { tx.new.conn.ghost_name ≡ tx.old.conn.ghost_name }
    ensures ok { Does (GrowsBy service.now number groups.now) S.Store tx.old.conn.now tx.new.conn.now result }
    ensures err { CommitsNone S.Store tx.old.conn.now tx.new.conn.now result }
    ensures crash { LeavesAsBefore S.Store tx.old.conn.now tx.new.conn.now }
{
    for group in groups {
        insert_group(alloc, tx, service, number, group)?;
    }
    Ok(())
}
