ghost use Rattle.std.specs.Prelude.{◌≡◌};
ghost use Rattle.sqlite.specs.Held.{state};
ghost use Rattle.smf_tables.specs.Calls.{CommitsNone, Does, IsInside, LeavesAsBefore};
ghost use Rattle.smf_tables.specs.Schema.{five_tables, four_tables, no_schema, one_table};
ghost use Rattle.smf_tables.specs.Schema.{store_schema, three_tables, two_tables};
ghost use Rattle.smf_store.specs.Creation.{Counts, Creates, Made, MayMake};
ghost use Rattle.smf_store.specs.Ends.{Fails, LeavesOr};
ghost use Rattle.smf_store.specs.Steps.{Kept};

use crate::fault::WriteFault;
use smf_tables::add_meta;
use sqlite::{Alter, Connection, Transaction};

/// Makes the table of counters.
fn create_meta<S: Alter>(tx: &mut Transaction<'_, S>) -> Result<(), WriteFault>
    requires { IsInside S.Store tx.old.conn.now }
    ensures same_reference { tx.new.conn.ghost_name ≡ tx.old.conn.ghost_name }
    ensures ok { Does (Creates no_schema one_table) S.Store tx.old.conn.now tx.new.conn.now result }
    ensures err { CommitsNone S.Store tx.old.conn.now tx.new.conn.now result }
    ensures crash { LeavesAsBefore S.Store tx.old.conn.now tx.new.conn.now }
{
    tx.execute(
        "CREATE TABLE meta (k TEXT PRIMARY KEY, v INTEGER NOT NULL) STRICT",
        &[],
    )?;
    Ok(())
}

/// Makes the table of services.
fn create_service<S: Alter>(tx: &mut Transaction<'_, S>) -> Result<(), WriteFault>
    requires { IsInside S.Store tx.old.conn.now }
    ensures same_reference { tx.new.conn.ghost_name ≡ tx.old.conn.ghost_name }
    ensures ok { Does (Creates one_table two_tables) S.Store tx.old.conn.now tx.new.conn.now result }
    ensures err { CommitsNone S.Store tx.old.conn.now tx.new.conn.now result }
    ensures crash { LeavesAsBefore S.Store tx.old.conn.now tx.new.conn.now }
{
    tx.execute("CREATE TABLE service (name TEXT PRIMARY KEY) STRICT", &[])?;
    Ok(())
}

/// Makes the table of instances.
fn create_instance<S: Alter>(tx: &mut Transaction<'_, S>) -> Result<(), WriteFault>
    requires { IsInside S.Store tx.old.conn.now }
    ensures same_reference { tx.new.conn.ghost_name ≡ tx.old.conn.ghost_name }
    ensures ok { Does (Creates two_tables three_tables) S.Store tx.old.conn.now tx.new.conn.now result }
    ensures err { CommitsNone S.Store tx.old.conn.now tx.new.conn.now result }
    ensures crash { LeavesAsBefore S.Store tx.old.conn.now tx.new.conn.now }
{
    tx.execute(
        "CREATE TABLE instance (id INTEGER PRIMARY KEY, service TEXT NOT NULL REFERENCES service(name), name TEXT NOT NULL, rowtext TEXT NOT NULL, start_snap INTEGER, previous_snap INTEGER, UNIQUE(service, name)) STRICT",
        &[],
    )?;
    Ok(())
}

/// Makes the table of groups.
fn create_grp<S: Alter>(tx: &mut Transaction<'_, S>) -> Result<(), WriteFault>
    requires { IsInside S.Store tx.old.conn.now }
    ensures same_reference { tx.new.conn.ghost_name ≡ tx.old.conn.ghost_name }
    ensures ok { Does (Creates three_tables four_tables) S.Store tx.old.conn.now tx.new.conn.now result }
    ensures err { CommitsNone S.Store tx.old.conn.now tx.new.conn.now result }
    ensures crash { LeavesAsBefore S.Store tx.old.conn.now tx.new.conn.now }
{
    tx.execute(
        "CREATE TABLE grp (service TEXT NOT NULL, instance INTEGER NOT NULL, name TEXT NOT NULL, body BLOB NOT NULL, PRIMARY KEY(service, instance, name)) STRICT",
        &[],
    )?;
    Ok(())
}

/// Makes the table of snapshots.
fn create_snap<S: Alter>(tx: &mut Transaction<'_, S>) -> Result<(), WriteFault>
    requires { IsInside S.Store tx.old.conn.now }
    ensures same_reference { tx.new.conn.ghost_name ≡ tx.old.conn.ghost_name }
    ensures ok { Does (Creates four_tables five_tables) S.Store tx.old.conn.now tx.new.conn.now result }
    ensures err { CommitsNone S.Store tx.old.conn.now tx.new.conn.now result }
    ensures crash { LeavesAsBefore S.Store tx.old.conn.now tx.new.conn.now }
{
    tx.execute(
        "CREATE TABLE snap (id INTEGER PRIMARY KEY, instance INTEGER NOT NULL, body BLOB NOT NULL) STRICT",
        &[],
    )?;
    Ok(())
}

/// Makes the table of restarters.
fn create_restarter<S: Alter>(tx: &mut Transaction<'_, S>) -> Result<(), WriteFault>
    requires { IsInside S.Store tx.old.conn.now }
    ensures same_reference { tx.new.conn.ghost_name ≡ tx.old.conn.ghost_name }
    ensures ok { Does (Creates five_tables store_schema) S.Store tx.old.conn.now tx.new.conn.now result }
    ensures err { CommitsNone S.Store tx.old.conn.now tx.new.conn.now result }
    ensures crash { LeavesAsBefore S.Store tx.old.conn.now tx.new.conn.now }
{
    tx.execute(
        "CREATE TABLE restarter (name TEXT PRIMARY KEY, launch INTEGER NOT NULL) STRICT",
        &[],
    )?;
    Ok(())
}

/// Makes the six tables.
fn create_tables<S: Alter>(tx: &mut Transaction<'_, S>) -> Result<(), WriteFault>
    requires { IsInside S.Store tx.old.conn.now }
    ensures same_reference { tx.new.conn.ghost_name ≡ tx.old.conn.ghost_name }
    ensures ok { Does (Creates no_schema store_schema) S.Store tx.old.conn.now tx.new.conn.now result }
    ensures err { CommitsNone S.Store tx.old.conn.now tx.new.conn.now result }
    ensures crash { LeavesAsBefore S.Store tx.old.conn.now tx.new.conn.now }
{
    create_meta(tx)?;
    create_service(tx)?;
    create_instance(tx)?;
    create_grp(tx)?;
    create_snap(tx)?;
    create_restarter(tx)?;
    Ok(())
}

/// Puts in the counters of a store in which nothing is held.
fn add_counters<S: Alter>(tx: &mut Transaction<'_, S>) -> Result<(), WriteFault>
    requires { IsInside S.Store tx.old.conn.now }
    ensures same_reference { tx.new.conn.ghost_name ≡ tx.old.conn.ghost_name }
    ensures ok { Does (Counts) S.Store tx.old.conn.now tx.new.conn.now result }
    ensures err { CommitsNone S.Store tx.old.conn.now tx.new.conn.now result }
    ensures crash { LeavesAsBefore S.Store tx.old.conn.now tx.new.conn.now }
{
    add_meta(tx, "version", 2)?;
    add_meta(tx, "layout", 2)?;
    add_meta(tx, "revision", 0)?;
    add_meta(tx, "next_instance", 1)?;
    add_meta(tx, "next_snapshot", 1)?;
    Ok(())
}

/// Makes an empty database a store in which nothing is held, in one transaction.
pub(crate) fn make_store<S: Alter>(conn: &mut Connection<S>) -> Result<(), WriteFault>
    requires empty { (state S.Store conn.old).now.schema ≡ no_schema }
    ensures ok { Does Made S.Store conn.old conn.new result }
    ensures err { Fails Kept S.Store conn.old conn.new result }
    ensures crash { LeavesOr MayMake S.Store conn.old conn.new }
{
    if !conn.is_autocommit() {
        return Err(WriteFault::Database);
    }
    let mut tx = conn.transaction();
    create_tables(&mut tx)?;
    add_counters(&mut tx)?;
    tx.commit()?;
    Ok(())
}
