ghost use Rattle.std.specs.Prelude.{◌≡◌, ◌≢◌, ℕ, List, Option};
ghost use Rattle.sqlite.specs.Files.{over_files};
ghost use Rattle.smf_runs.specs.Cfgs.{IsDone, IsEnded};
ghost use Rattle.smf_runs.specs.Closed.{IsClosedAfter, IsEndedAfter};

use crate::database_close::close;
use crate::fault_texts::tell_open;
use crate::served::{Closed, Served};
use smf_lines::{LineReader, TextWriter};
use smf_store::open_repository;
use sqlite::{Alter, Connection};
use sqlite_disk::Disk;
use sqlite_store::FileStore;
use std::alloc::Global;

/// Does lines of svccfg over a database, without a boot. The status of the run is 0, 1 if a line failed, or 3 for a
/// fault. The change of an edit stands in the database before the next line is read. The database is handed back.
pub fn serve_cfg<S: Alter + Drop, R: LineReader, W: TextWriter, E: TextWriter>(
    alloc: Global,
    conn: Connection<S>,
    reader: &mut R,
    out: &mut W,
    errors: &mut E,
) -> Served<S>
    ensures ok { result.status ≢ 3 → IsDone S.Store conn result.conn
        (R.remaining reader.old) (W.contents out.old) (W.contents out.new) (E.contents errors.old) (E.contents errors.new) result.status }
    ensures fault { result.status ≡ 3
        → IsEnded S.Store conn result.conn R.read_fails (λ _. Unit {0}) W.write_fails E.write_fails
        (R.remaining reader.old) (W.contents out.old) (W.contents out.new) (E.contents errors.old) (E.contents errors.new) }
{
    match open_repository(alloc, conn) {
        Ok(mut repository) => {
            let status = smf_script::serve_cfg(alloc, reader, out, errors, &mut repository);
            let conn = repository.into_journal().release();
            Served { status, conn }
        }
        Err((fault, conn)) => {
            let status = tell_open(alloc, errors, &fault);
            Served { status, conn }
        }
    }
}

/// Does lines of svccfg over the database in two files, without a boot, and closes the database. The status of the run
/// is 0, 1 if a line failed, or 3 for a fault, also one of the close.
pub fn serve_cfg_file<D: Disk + Drop, R: LineReader, W: TextWriter, E: TextWriter>(
    alloc: Global,
    conn: Connection<FileStore<D>>,
    reader: &mut R,
    out: &mut W,
    errors: &mut E,
) -> Closed<D>
    ensures ok { result.status ≢ 3 → IsClosedAfter (λ after. IsDone over_files conn after
        (R.remaining reader.old) (W.contents out.old) (W.contents out.new) (E.contents errors.old) (E.contents errors.new) result.status) result.files }
    ensures fault { result.status ≡ 3 → IsEndedAfter
        (λ after status. (told : Option (List ℕ)) × IsDone over_files conn after
        (R.remaining reader.old) (W.contents out.old) (W.contents out.new) (E.contents errors.old) told status)
        (λ after told. IsEnded over_files conn after R.read_fails (λ _. Unit {0}) W.write_fails E.write_fails
        (R.remaining reader.old) (W.contents out.old) (W.contents out.new) (E.contents errors.old) told)
        E.write_fails result.files (E.contents errors.new) }
{
    let served = serve_cfg(alloc, conn, reader, out, errors);
    close(served, errors)
}
