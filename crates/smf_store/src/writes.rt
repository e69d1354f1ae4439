ghost use Rattle.std.specs.Prelude.{◌≡◌, ◌<◌, [], length};
ghost use Rattle.smf_tables.specs.Calls.{CommitsNone, Does, IsInside, LeavesAsBefore};
ghost use Rattle.smf_store.specs.Ends.{Fails, LeavesOr};
ghost use Rattle.smf_store.specs.Steps.{Kept, MayCommit, Reached, Wrote};

use crate::changes::write_change;
use crate::fault::WriteFault;
use smf_model::Change;
use sqlite::{Alter, Connection, Transaction};
use std::alloc::Global;

/// Makes the changes in turn.
fn write_each<S: Alter>(
    alloc: Global,
    tx: &mut Transaction<'_, S>,
    changes: &[Change],
) -> Result<(), WriteFault>
    requires { IsInside S.Store tx.old.conn.now }
    ensures same_reference { tx.new.conn.ghost_name ≡ tx.old.conn.ghost_name }
    ensures ok { Does (Reached [] changes.now) S.Store tx.old.conn.now tx.new.conn.now result }
    ensures err { CommitsNone S.Store tx.old.conn.now tx.new.conn.now result }
    ensures crash { LeavesAsBefore S.Store tx.old.conn.now tx.new.conn.now }
{
    for change in changes {
        write_change(alloc, tx, change)?;
    }
    Ok(())
}

/// Makes all the changes or none, in one transaction.
pub(crate) fn write_all<S: Alter>(
    alloc: Global,
    conn: &mut Connection<S>,
    changes: &[Change],
) -> Result<(), WriteFault>
    requires { 0 < length changes.now }
    ensures ok { Does (Wrote changes.now) S.Store conn.old conn.new result }
    ensures err { Fails Kept S.Store conn.old conn.new result }
    ensures crash { LeavesOr (MayCommit changes.now) S.Store conn.old conn.new }
{
    if !conn.is_autocommit() {
        return Err(WriteFault::Database);
    }
    let mut tx = conn.transaction();
    write_each(alloc, &mut tx, changes)?;
    tx.commit()?;
    Ok(())
}
