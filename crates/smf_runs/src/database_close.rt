ghost use Rattle.std.specs.Prelude.{◌≡◌, ◌≢◌, ◌⊎◌};
ghost use Rattle.sqlite.specs.Held.{Held};
ghost use Rattle.sqlite_disk.specs.declared.Files.{Files as AnyFiles};
ghost use Rattle.sqlite_store.specs.declared.store.FileStore.{FileStore as AnyStore};
ghost use Rattle.smf_model.specs.Contents.{Holdings};
ghost use Rattle.sqlite.specs.Closing.{IsCopied};
ghost use Rattle.sqlite.specs.Files.{over_files};
ghost use Rattle.smf_lines.specs.Told.{IsTold};
ghost use Rattle.smf_runs.specs.Cfgs.{IsLeft};
ghost use Rattle.smf_runs.specs.Closed.{HoldLeft, IsCopiedOut, IsUncopied, not_closed};

use crate::served::{Closed, Served};
use smf_lines::{TextWriter, tell};
use sqlite_disk::Disk;
use sqlite_store::FileStore;

/// The status of a run that was ended by a fault.
const FAULT: u8 = 3;

/// Closes the database of a run, so that its file alone holds everything. If that fails, it is told, unless a fault
/// was.
pub fn close<D: Disk + Drop, E: TextWriter>(
    served: Served<FileStore<D>>,
    errors: &mut E,
) -> Closed<D>
    ensures ok { result.status ≢ 3 → (served.status ≡ result.status) }
    ensures copied { result.status ≢ 3 → IsCopiedOut served.conn result.files }
    ensures fault { result.status ≡ 3 →
        ((served.status ≡ 3) × (E.contents errors.new ≡ E.contents errors.old) × (IsCopiedOut served.conn result.files ⊎ IsUncopied served.conn result.files))
        ⊎ ((served.status ≢ 3) × IsUncopied served.conn result.files × IsTold E.write_fails (E.contents errors.old) (E.contents errors.new) not_closed) }
    ensures silent { result.status ≢ 3 → (E.contents errors.new ≡ E.contents errors.old) }
{
    let Served { status, conn } = served;
    match conn.close_files() {
        Ok(files) => Closed { status, files },
        Err((_, store)) => {
            let files = store.close();
            if status != FAULT {
                tell(errors, "smf: store: database failed");
            }
            Closed {
                status: FAULT,
                files,
            }
        }
    }
}

/// In a database that was closed well stands the value that the run left.
pub fn a_closed_file_holds_what_was_left<D: Disk>()
    ensures { (after : Held (AnyStore D D.Disk)) (files : AnyFiles D) (left : Holdings)
        → IsLeft over_files after left → IsCopied after files → HoldLeft D.Disk files left }
{}
