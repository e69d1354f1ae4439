ghost use Rattle.std.specs.Prelude.{IfErr, IfOk};
ghost use Rattle.sqlite.specs.Held.{state};
ghost use Rattle.sqlite.specs.State.{HasCleanDisk};
ghost use Rattle.smf_laws.specs.Consistent.{IsConsistent};
ghost use Rattle.smf_model.specs.Contents.{Holdings};
ghost use Rattle.smf_model.specs.Laws.{IsNumbered};
ghost use Rattle.smf_store.specs.Agreement.{AreLaunched, AreUnlaunched, NameOwn};
ghost use Rattle.smf_store.specs.Ends.{LeavesOr};
ghost use Rattle.smf_store.specs.Holds.{IsSound, Keeps};
ghost use Rattle.smf_store.specs.Opens.{IsFoundIn, IsOpenedAs, IsStoreOf, MayFailToOpen, MayOpen};
ghost use Rattle.smf_store.specs.Stages.{IsFailure, IsRefused};
ghost use Rattle.smf_store.specs.Steps.{Kept};

use crate::refusal::OpenFault;
use crate::store::Store;
use smf_model::Plain;
use sqlite::{Alter, Connection};
use std::alloc::Global;

/// The repository over the store of a database, with the value that stands in it. An empty database is made new, and a
/// store of the first version one of the second. A database that is not opened is handed back.
pub fn open_repository<S: Alter>(
    alloc: Global,
    conn: Connection<S>,
) -> Result<Plain<Store<S>>, (OpenFault, Connection<S>)>
    ensures stands { IfOk result (λ r. IsSound (state S.Store r.journal.conn)
        → Keeps (state S.Store r.journal.conn) r.held) }
    ensures sound { IfOk result (λ r. HasCleanDisk (state S.Store r.journal.conn)
        → IsSound (state S.Store r.journal.conn)) }
    ensures found { IfOk result (λ r. HasCleanDisk (state S.Store r.journal.conn)
        → IsFoundIn (state S.Store conn) (state S.Store r.journal.conn) r.held) }
    // Also if the disk is not clean.
    ensures numbered { IfOk result (λ r. IsNumbered r.held) }
    ensures named { IfOk result (λ r. NameOwn r.held) }
    ensures launched { IfOk result (λ r. AreLaunched r.held) }
    // The value keeps the rules that commands keep, if no row with the number 0 keeps a launch.
    // No open judges this one.
    ensures consistent { IfOk result (λ r. HasCleanDisk (state S.Store r.journal.conn) → AreUnlaunched r.held
        → IsConsistent r.held) }
    // Callers that see no store need these.
    ensures opened { IfOk result (λ r. IsOpenedAs S.Store conn r.held) }
    ensures crash { IfOk result (λ r. LeavesOr MayOpen S.Store conn r.journal.conn) }
    // A fault that names a version or a table says what the rows of the tables say.
    ensures refused { IfErr result (λ e. HasCleanDisk (state S.Store e.1) → IsRefused (state S.Store conn).now e.0) }
    // No verdict refuses a store of a value that commands make: it is opened, or the opening fails.
    ensures opens_again { IfErr result (λ e. HasCleanDisk (state S.Store e.1) → (h : Holdings)
        → IsStoreOf (state S.Store conn).now h
        → IsConsistent h → IsFailure e.0) }
    ensures crash_err { IfErr result (λ e. LeavesOr (MayFailToOpen e.0) S.Store conn e.1) }
    ensures kept { IfErr result (λ e. HasCleanDisk (state S.Store e.1)
        → Kept (state S.Store conn) (state S.Store e.1)) }
{
    match Store::open(alloc, conn) {
        Ok((store, tables)) => Ok(Plain::over(alloc, tables, store)),
        Err(refused) => Err(refused),
    }
}
