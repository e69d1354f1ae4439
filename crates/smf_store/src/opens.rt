ghost use Rattle.std.specs.Prelude.{◌≡◌, ◌↔◌, false, IfErr, IfOk, IsTrue, OnOk, Some};
ghost use Rattle.sqlite.specs.Held.{state};
ghost use Rattle.sqlite.specs.State.{HasCleanDisk, IsLive, KeepsCommit};
ghost use Rattle.smf_model.specs.Laws.{IsNumbered};
ghost use Rattle.smf_tables.specs.Calls.{CommitsNone, Does, IsInside, LeavesAsBefore};
ghost use Rattle.smf_tables.specs.Calls.{Finds as Gives};
ghost use Rattle.smf_tables.specs.Layout.{IsStore, StandsSomewhere, rows_in};
ghost use Rattle.smf_tables.specs.Schema.{snap_at};
ghost use Rattle.smf_store.specs.Agreement.{AreLaunched, NameOwn};
ghost use Rattle.smf_store.specs.Ends.{Fails, LeavesOr};
ghost use Rattle.smf_store.specs.FirstOther.{IsFirstOther};
ghost use Rattle.smf_store.specs.Stages.{IsRefused, IsSaid, IsSaidBefore, MayFailToRead, MayRead, Opened, Raises, Reads};
ghost use Rattle.smf_store.specs.Steps.{Kept};

use crate::counter_rows::StoreVersion;
use crate::fault::WriteFault;
use crate::judgements::{Judgement, find_broken, judge};
use crate::queries::{read_before, read_rows};
use crate::refusal::{OpenFault, StoreTable};
use smf_model::Tables;
use smf_tables::{
    add_meta, drop_meta, has_grp_table, has_instance_table, has_meta_table, has_restarter_table,
    has_service_table, has_snap_table,
};
use sqlite::{Alter, Connection, Transaction};
use sqlite_schema::schema::Schema;
use std::alloc::Global;

/// Makes a store of the first version one of the second.
fn raise_first<S: Alter>(tx: &mut Transaction<'_, S>) -> Result<(), WriteFault>
    requires { IsInside S.Store tx.old.conn.now }
    ensures same_reference { tx.new.conn.ghost_name ≡ tx.old.conn.ghost_name }
    ensures ok { Does (Raises StoreVersion.First) S.Store tx.old.conn.now tx.new.conn.now result }
    ensures err { CommitsNone S.Store tx.old.conn.now tx.new.conn.now result }
    ensures crash { LeavesAsBefore S.Store tx.old.conn.now tx.new.conn.now }
{
    drop_meta(tx, "version")?;
    add_meta(tx, "version", 2)?;
    add_meta(tx, "layout", 2)?;
    Ok(())
}

/// Makes a store one of the second version.
fn raise<S: Alter>(tx: &mut Transaction<'_, S>, version: StoreVersion) -> Result<(), WriteFault>
    requires { IsInside S.Store tx.old.conn.now }
    ensures same_reference { tx.new.conn.ghost_name ≡ tx.old.conn.ghost_name }
    ensures ok { Does (Raises version) S.Store tx.old.conn.now tx.new.conn.now result }
    ensures err { CommitsNone S.Store tx.old.conn.now tx.new.conn.now result }
    ensures crash { LeavesAsBefore S.Store tx.old.conn.now tx.new.conn.now }
{
    match version {
        StoreVersion::First => {
            raise_first(tx)?;
            Ok(())
        }
        StoreVersion::Second => Ok(()),
    }
}

/// Reads what the tables hold, and makes the store one of the second version.
fn read_raised<S: Alter>(alloc: Global, tx: &mut Transaction<'_, S>) -> Result<Tables, OpenFault>
    requires { IsInside S.Store tx.old.conn.now }
    ensures same_reference { tx.new.conn.ghost_name ≡ tx.old.conn.ghost_name }
    ensures ok { Gives Reads S.Store tx.old.conn.now tx.new.conn.now result }
    ensures err { CommitsNone S.Store tx.old.conn.now tx.new.conn.now result }
    ensures crash { LeavesAsBefore S.Store tx.old.conn.now tx.new.conn.now }
    ensures said { HasCleanDisk (state S.Store tx.new.conn.now)
        → IsStore (state S.Store tx.old.conn.now).now.schema → IsLive (state S.Store tx.old.conn.now)
        → IfErr result (IsSaid (rows_in (state S.Store tx.old.conn.now).now)) }
    ensures numbered { IfOk result (λ h. IsNumbered h) }
    ensures named { IfOk result (λ h. NameOwn h) }
    ensures launched { IfOk result (λ h. AreLaunched h) }
{
    let rows = match read_rows(tx) {
        Ok(rows) => rows,
        Err(fault) => return Err(fault),
    };
    let judgement = match judge(alloc, &rows) {
        Ok(judgement) => judgement,
        Err(fault) => return Err(fault),
    };
    let Judgement { version, tables } = judgement;
    raise(tx, version)?;
    Ok(tables)
}

/// The first of the six tables that is absent or another, if one is.
fn first_other(schema: &Schema) -> Option<StoreTable>
    ensures { IsFirstOther schema.now result }
{
    if !has_meta_table(schema) {
        return Some(StoreTable::Meta);
    }
    if !has_service_table(schema) {
        return Some(StoreTable::Service);
    }
    if !has_instance_table(schema) {
        return Some(StoreTable::Instance);
    }
    if !has_grp_table(schema) {
        return Some(StoreTable::Group);
    }
    if !has_snap_table(schema) {
        return Some(StoreTable::Snapshot);
    }
    if !has_restarter_table(schema) {
        return Some(StoreTable::Restarter);
    }
    None
}

/// The fault of tables that are not those of a store. It names the first that is absent, or another, or has a row that
/// breaks a rule.
fn find_fault<S: Alter>(
    alloc: Global,
    tx: &mut Transaction<'_, S>,
    other: StoreTable,
    are_there: bool,
) -> OpenFault
    requires { IsInside S.Store tx.old.conn.now }
    ensures same_reference { tx.new.conn.ghost_name ≡ tx.old.conn.ghost_name }
    ensures kept { HasCleanDisk (state S.Store tx.new.conn.now)
        → KeepsCommit (state S.Store tx.old.conn.now) (state S.Store tx.new.conn.now) }
    ensures crash { LeavesAsBefore S.Store tx.old.conn.now tx.new.conn.now }
    ensures said { HasCleanDisk (state S.Store tx.new.conn.now)
        → IsFirstOther (state S.Store tx.old.conn.now).now.schema (Some other)
        → (IsTrue are_there ↔ StandsSomewhere (state S.Store tx.old.conn.now).now.schema snap_at)
        → IsLive (state S.Store tx.old.conn.now) → IsSaidBefore other (state S.Store tx.old.conn.now).now result }
{
    let rows = match read_before(alloc, tx, other, are_there) {
        Ok(rows) => rows,
        Err(fault) => return fault,
    };
    find_broken(alloc, &rows, other)
}

/// The same, of a database that stays as it is.
#[tactic(auto, using(crate::proofs::Before::refused_before))]
fn refuse<S: Alter>(alloc: Global, conn: &mut Connection<S>, other: StoreTable) -> OpenFault
    requires autocommits { conn.old.in_transaction ≡ false }
    requires first { IsFirstOther (state S.Store conn.old).now.schema (Some other) }
    ensures kept { HasCleanDisk (state S.Store conn.new) → Kept (state S.Store conn.old) (state S.Store conn.new) }
    ensures refused { HasCleanDisk (state S.Store conn.new) → IsRefused (state S.Store conn.old).now result }
    ensures crash { LeavesAsBefore S.Store conn.old conn.new }
{
    let are_there = has_snap_table(conn.schema());
    let mut tx = conn.transaction();
    find_fault(alloc, &mut tx, other, are_there)
}

/// The value that the tables of a store hold. The database stays as it is, but for one of the first version.
pub(crate) fn read_store<S: Alter>(
    alloc: Global,
    conn: &mut Connection<S>,
) -> Result<Tables, OpenFault>
    ensures ok { HasCleanDisk (state S.Store conn.new)
        → IfOk result (Opened (state S.Store conn.old) (state S.Store conn.new)) }
    ensures err { Fails Kept S.Store conn.old conn.new result }
    ensures refused { HasCleanDisk (state S.Store conn.new) → IfErr result (IsRefused (state S.Store conn.old).now) }
    ensures crash { OnOk result (LeavesOr MayRead S.Store conn.old conn.new) }
    ensures crash_err { IfErr result (λ e. LeavesOr (MayFailToRead e) S.Store conn.old conn.new) }
    ensures numbered { IfOk result (λ h. IsNumbered h) }
    ensures named { IfOk result (λ h. NameOwn h) }
    ensures launched { IfOk result (λ h. AreLaunched h) }
{
    if !conn.is_autocommit() {
        return Err(OpenFault::Database);
    }
    match first_other(conn.schema()) {
        Some(other) => return Err(refuse(alloc, conn, other)),
        None => {}
    }
    let mut tx = conn.transaction();
    let tables = read_raised(alloc, &mut tx)?;
    tx.commit()?;
    Ok(tables)
}
