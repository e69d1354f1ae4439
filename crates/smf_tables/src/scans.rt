ghost use Rattle.std.specs.Prelude.{◌≡◌, ◌<ℤ◌, IfSome, IsTrue};
ghost use Rattle.smf_tables.specs.Calls.{CommitsNone, Finds, IsInside, LeavesAsBefore};
ghost use Rattle.smf_tables.specs.Scans.{LooksAtGroups, LooksAtInstances, LooksAtLaunches, LooksAtMeta, LooksAtServices, LooksAtSnapshots};
ghost use Rattle.smf_tables.specs.Rows.{AreKeyed};

use sqlite::{Alter, Error, Row, Transaction};

/// All rows, in the order of rowids, of the table of counters.
pub fn all_meta<S: Alter>(tx: &mut Transaction<'_, S>) -> Result<Vec<Row>, Error>
    requires { IsInside S.Store tx.old.conn.now }
    ensures same_reference { tx.new.conn.ghost_name ≡ tx.old.conn.ghost_name }
    ensures ok { Finds (λ old new rows. LooksAtMeta old new rows.items) S.Store tx.old.conn.now tx.new.conn.now result }
    ensures err { CommitsNone S.Store tx.old.conn.now tx.new.conn.now result }
    ensures crash { LeavesAsBefore S.Store tx.old.conn.now tx.new.conn.now }
{
    match tx.query_all("SELECT rowid, k, v FROM meta ORDER BY rowid", &[]) {
        Ok(rows) => Ok(rows),
        Err(fault) => Err(fault),
    }
}

/// All rows, in the order of rowids, of the table of services.
pub fn all_services<S: Alter>(tx: &mut Transaction<'_, S>) -> Result<Vec<Row>, Error>
    requires { IsInside S.Store tx.old.conn.now }
    ensures same_reference { tx.new.conn.ghost_name ≡ tx.old.conn.ghost_name }
    ensures ok { Finds (λ old new rows. LooksAtServices old new rows.items) S.Store tx.old.conn.now tx.new.conn.now
        result }
    ensures err { CommitsNone S.Store tx.old.conn.now tx.new.conn.now result }
    ensures crash { LeavesAsBefore S.Store tx.old.conn.now tx.new.conn.now }
{
    match tx.query_all("SELECT rowid, name FROM service ORDER BY rowid", &[]) {
        Ok(rows) => Ok(rows),
        Err(fault) => Err(fault),
    }
}

/// All rows, in the order of rowids, of the table of instances.
pub fn all_instances<S: Alter>(tx: &mut Transaction<'_, S>) -> Result<Vec<Row>, Error>
    requires { IsInside S.Store tx.old.conn.now }
    ensures same_reference { tx.new.conn.ghost_name ≡ tx.old.conn.ghost_name }
    ensures ok { Finds (λ old new rows. LooksAtInstances old new rows.items) S.Store tx.old.conn.now tx.new.conn.now
        result }
    ensures err { CommitsNone S.Store tx.old.conn.now tx.new.conn.now result }
    ensures crash { LeavesAsBefore S.Store tx.old.conn.now tx.new.conn.now }
{
    match tx.query_all(
        "SELECT id, id, service, name, rowtext, start_snap, previous_snap FROM instance ORDER BY id",
        &[],
    ) {
        Ok(rows) => Ok(rows),
        Err(fault) => Err(fault),
    }
}

/// All rows, in the order of rowids, of the table of groups.
pub fn all_groups<S: Alter>(tx: &mut Transaction<'_, S>) -> Result<Vec<Row>, Error>
    requires { IsInside S.Store tx.old.conn.now }
    ensures same_reference { tx.new.conn.ghost_name ≡ tx.old.conn.ghost_name }
    ensures ok { Finds (λ old new rows. LooksAtGroups old new rows.items) S.Store tx.old.conn.now tx.new.conn.now
        result }
    ensures err { CommitsNone S.Store tx.old.conn.now tx.new.conn.now result }
    ensures crash { LeavesAsBefore S.Store tx.old.conn.now tx.new.conn.now }
{
    match tx.query_all(
        "SELECT rowid, service, instance, name, body FROM grp ORDER BY rowid",
        &[],
    ) {
        Ok(rows) => Ok(rows),
        Err(fault) => Err(fault),
    }
}

/// All rows, in the order of rowids, of the table of snapshots.
pub fn all_snapshots<S: Alter>(tx: &mut Transaction<'_, S>) -> Result<Vec<Row>, Error>
    requires { IsInside S.Store tx.old.conn.now }
    ensures same_reference { tx.new.conn.ghost_name ≡ tx.old.conn.ghost_name }
    ensures ok { Finds (λ old new rows. LooksAtSnapshots old new rows.items) S.Store tx.old.conn.now tx.new.conn.now
        result }
    ensures err { CommitsNone S.Store tx.old.conn.now tx.new.conn.now result }
    ensures crash { LeavesAsBefore S.Store tx.old.conn.now tx.new.conn.now }
{
    match tx.query_all("SELECT id, id, instance, body FROM snap ORDER BY id", &[]) {
        Ok(rows) => Ok(rows),
        Err(fault) => Err(fault),
    }
}

/// All rows, in the order of rowids, of the table of launches.
pub fn all_launches<S: Alter>(tx: &mut Transaction<'_, S>) -> Result<Vec<Row>, Error>
    requires { IsInside S.Store tx.old.conn.now }
    ensures same_reference { tx.new.conn.ghost_name ≡ tx.old.conn.ghost_name }
    ensures ok { Finds (λ old new rows. LooksAtLaunches old new rows.items) S.Store tx.old.conn.now tx.new.conn.now
        result }
    ensures err { CommitsNone S.Store tx.old.conn.now tx.new.conn.now result }
    ensures crash { LeavesAsBefore S.Store tx.old.conn.now tx.new.conn.now }
{
    match tx.query_all(
        "SELECT rowid, name, launch FROM restarter ORDER BY rowid",
        &[],
    ) {
        Ok(rows) => Ok(rows),
        Err(fault) => Err(fault),
    }
}

/// True if a rowid comes after the last.
fn is_past(last: Option<i64>, id: i64) -> bool
    ensures { IsTrue result → IfSome last (λ before. before <ℤ id) }
{
    match last {
        None => true,
        Some(before) => before < id,
    }
}

/// True if the rows show rowids that rise, so that none comes twice.
pub fn are_keyed(rows: &[Row]) -> bool
    ensures { IsTrue result → AreKeyed rows.now }
{
    let mut last: Option<i64> = None;
    for row in rows {
        let id: i64 = match row.get(0) {
            Ok(id) => id,
            Err(_) => return false,
        };
        if !is_past(last, id) {
            return false;
        }
        last = Some(id);
    }
    true
}
