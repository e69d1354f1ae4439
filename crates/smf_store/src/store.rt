ghost use Rattle.std.specs.Prelude.{◌≡◌, ◌↔◌, IfErr, IfOk, IsTrue};
ghost use Rattle.sqlite.specs.Held.{state};
ghost use Rattle.sqlite.specs.State.{HasCleanDisk};
ghost use Rattle.smf_laws.specs.Consistent.{IsConsistent};
ghost use Rattle.smf_model.specs.Contents.{Holdings};
ghost use Rattle.smf_model.specs.Laws.{IsNumbered};
ghost use Rattle.smf_model.specs.Look.{empty};
ghost use Rattle.smf_tables.specs.Schema.{no_schema, store_schema};
ghost use Rattle.smf_store.specs.Agreement.{AreLaunched, AreUnlaunched, NameOwn};
ghost use Rattle.smf_store.specs.Creation.{MayMake};
ghost use Rattle.smf_store.specs.Ends.{LeavesOr};
ghost use Rattle.smf_store.specs.Opens.{IsFoundIn, IsStoreOf, MayFailToOpen, MayOpen};
ghost use Rattle.smf_store.specs.Stages.{IsFailure, IsRefused};
ghost use Rattle.smf_store.specs.Steps.{Kept};
ghost use Rattle.smf_store.specs.Holds.{Could, IsSound, Keeps};
ghost use Rattle.smf_store.specs.Unique.{stays_settled};

use crate::creation::make_store;
use crate::fault::repo_fault;
use crate::opens::read_store;
use crate::refusal::OpenFault;
use crate::writes::write_all;
use smf_model::{Change, Journal, RepoFault, Tables};
use sqlite::{Alter, Connection};
use sqlite_schema::schema::Schema;
use std::alloc::Global;

/// The journal of a repository, in six tables of a database.
#[derive(Drop)]
pub struct Store<S: Alter> {
    alloc: Global,
    conn: Connection<S>,
}

impl<S: Alter> Store<S> {
    /// The journal over a database that is open. The value that its tables show stands in it.
    pub fn over(alloc: Global, conn: Connection<S>) -> Store<S>
        ensures { result.conn ≡ conn }
    {
        Store { alloc, conn }
    }

    /// Makes the tables of an empty database, which show that nothing is held: all of them or none. If it is not empty
    /// or a statement fails, the caller gets the database back.
    pub fn create(
        alloc: Global,
        mut conn: Connection<S>,
    ) -> Result<Store<S>, (RepoFault, Connection<S>)>
        ensures stands { IfOk result (λ s. IsSound (state S.Store s.conn) → Keeps (state S.Store s.conn) empty) }
        ensures sound { IfOk result (λ s. HasCleanDisk (state S.Store s.conn) → IsSound (state S.Store s.conn)) }
        // Nothing stands beside the six tables.
        ensures schema { IfOk result (λ s. HasCleanDisk (state S.Store s.conn)
            → (state S.Store s.conn).now.schema ≡ store_schema) }
        ensures crash { IfOk result (λ s. LeavesOr MayMake S.Store conn s.conn) }
        ensures crash_err { IfErr result (λ e. LeavesOr MayMake S.Store conn e.1) }
    {
        if !is_bare(conn.schema()) {
            return Err((RepoFault::Database, conn));
        }
        match make_store(&mut conn) {
            Ok(()) => Ok(Store { alloc, conn }),
            Err(fault) => Err((repo_fault(fault), conn)),
        }
    }

    /// The journal over a database, and the value that its tables hold, which is the only one that stands in them. An
    /// empty database is made new, and a store of the first version one of the second. A database that is not opened is
    /// handed back.
    pub fn open(
        alloc: Global,
        mut conn: Connection<S>,
    ) -> Result<(Store<S>, Tables), (OpenFault, Connection<S>)>
        ensures stands { IfOk result (λ p. IsSound (state S.Store p.0.conn) → Keeps (state S.Store p.0.conn) p.1) }
        ensures sound { IfOk result (λ p. HasCleanDisk (state S.Store p.0.conn) → IsSound (state S.Store p.0.conn)) }
        ensures found { IfOk result (λ p. HasCleanDisk (state S.Store p.0.conn)
            → IsFoundIn (state S.Store conn) (state S.Store p.0.conn) p.1) }
        // Also if the disk is not clean.
        ensures numbered { IfOk result (λ p. IsNumbered p.1) }
        // Each snapshot that an instance names is there, and is its own.
        ensures named { IfOk result (λ p. NameOwn p.1) }
        ensures launched { IfOk result (λ p. AreLaunched p.1) }
        // The value keeps the rules that commands keep, if no row with the number 0 keeps a launch.
        // No open judges this one.
        ensures consistent { IfOk result (λ p. HasCleanDisk (state S.Store p.0.conn) → AreUnlaunched p.1
            → IsConsistent p.1) }
        ensures crash { IfOk result (λ p. LeavesOr MayOpen S.Store conn p.0.conn) }
        // A fault that names a version or a table says what the rows of the tables say.
        ensures refused { IfErr result (λ e. HasCleanDisk (state S.Store e.1)
            → IsRefused (state S.Store conn).now e.0) }
        // No verdict refuses a store of a value that commands make: it is opened, or the opening fails.
        ensures opens_again { IfErr result (λ e. HasCleanDisk (state S.Store e.1) → (h : Holdings)
            → IsStoreOf (state S.Store conn).now h → IsConsistent h → IsFailure e.0) }
        ensures crash_err { IfErr result (λ e. LeavesOr (MayFailToOpen e.0) S.Store conn e.1) }
        ensures kept { IfErr result (λ e. HasCleanDisk (state S.Store e.1)
            → Kept (state S.Store conn) (state S.Store e.1)) }
    {
        if is_bare(conn.schema()) {
            match make_store(&mut conn) {
                Ok(()) => return Ok((Store { alloc, conn }, Tables::new(alloc))),
                Err(fault) => return Err((OpenFault::from(fault), conn)),
            }
        }
        match read_store(alloc, &mut conn) {
            Ok(tables) => Ok((Store { alloc, conn }, tables)),
            Err(fault) => Err((fault, conn)),
        }
    }

    /// The database.
    pub fn release(self) -> Connection<S>
        ensures { result ≡ self.conn }
    {
        let Store { alloc: _, conn } = self;
        conn
    }
}

/// True if a database has no tables, indexes and views.
fn is_bare(schema: &Schema) -> bool
    ensures { IsTrue result ↔ (schema.now ≡ no_schema) }
{
    if !schema.tables.is_empty() || !schema.indexes.is_empty() {
        return false;
    }
    schema.views.is_empty()
}

impl<S: Alter> Journal for Store<S> {
    ghost is_clean = { λ j. HasCleanDisk (state S.Store j.conn) };

    ghost is_sound = { λ j. IsSound (state S.Store j.conn) };

    ghost stands = { λ j h. IsSound (state S.Store j.conn) → Keeps (state S.Store j.conn) h };

    ghost could = { λ j found. Could (state S.Store j.conn) found };

    ghost write_fails = { λ _. Unit {0} };

    fn write(&mut self, changes: &[Change]) -> Result<(), RepoFault> {
        match write_all(self.alloc, &mut self.conn, changes) {
            Ok(()) => Ok(()),
            Err(fault) => Err(repo_fault(fault)),
        }
    }

    ghost settled = { λ j h sound stands found may. stays_settled _ h (λ db live left. S.Store.settled j.conn.store db live left) sound stands found may };
}
