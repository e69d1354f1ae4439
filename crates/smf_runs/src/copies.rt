ghost use Rattle.std.specs.Prelude.{◌≡◌, ◌≢◌, IfErr, IfNone, IfOk, IfSome, IsTrue, OnErr, OnSome, map};
ghost use Rattle.sqlite.specs.Files.{IsOpened, file_state, image_of, over_files};
ghost use Rattle.sqlite.specs.Held.{IsNew};
ghost use Rattle.sqlite.specs.Start.{FindsIn};
ghost use Rattle.sqlite.specs.State.{HasCleanDisk};
ghost use Rattle.sqlite_disk.specs.Memory.{memory_bytes, memory_is_usable};
ghost use Rattle.smf_model.specs.Laws.{IsNumbered};
ghost use Rattle.smf_store.specs.Opens.{IsOpenedAs};
ghost use Rattle.smf_runs.specs.Copies.{IsOverCopy, IsUncopied, IsUnopened, image_in};
ghost use Rattle.smf_runs.specs.Reasons.{ArePrograms, IsAnswered, IsExcused, IsInspected};

use crate::questions::{check, held, programs, why};
use smf_fmri::{Items, Text};
use smf_lines::TextWriter;
use smf_model::Tables;
use smf_store::FileBytes;
use sqlite::{Connection, Error, ErrorCode, Options};
use sqlite_disk::{Disk, Files, Memory};
use sqlite_store::FileStore;
use std::alloc::Global;
use std::io;

/// The log of a copy has so many pages before they go into the database. They are few, since each sync of a disk in
/// memory copies the disk.
const LOG_FRAMES: usize = 64;

/// A disk in memory that holds these bytes.
fn disk_of(alloc: Global, bytes: &[u8]) -> io::Result<Memory>
    ensures holds { IfOk result (λ disk. memory_bytes disk ≡ bytes.now) }
    ensures usable { IfOk result (λ disk. IsTrue (memory_is_usable disk)) }
{
    let mut disk = Memory::new(alloc);
    disk.write_at(0, bytes)?;
    disk.sync()?;
    Ok(disk)
}

/// Disks in memory that hold what a database file and its log do.
fn files_of(alloc: Global, found: &FileBytes) -> io::Result<Files<Memory>>
    ensures holds { IfOk result (λ files. image_of ⟦<Memory as Disk>⟧ files ≡ image_in found.now) }
    ensures log { IfOk result (λ files. IsTrue (memory_is_usable files.log)) }
    ensures db { IfOk result (λ files. IsTrue (memory_is_usable files.db)) }
{
    let log = disk_of(alloc, found.log.as_slice())?;
    let db = disk_of(alloc, found.db.as_slice())?;
    Ok(Files { log, db })
}

/// Opens the database that two disks hold.
fn open_files<D: Disk + Drop>(
    alloc: Global,
    files: Files<D>,
) -> Result<Connection<FileStore<D>>, Error>
    requires log { IsTrue (D.Disk.is_usable files.log) }
    requires db { IsTrue (D.Disk.is_usable files.db) }
    ensures found { IfOk result (λ conn. HasCleanDisk (file_state conn)
        → FindsIn (image_of D.Disk files) (file_state conn)) }
    ensures opened { IfOk result (λ conn. HasCleanDisk (file_state conn) → IsOpened conn) }
    ensures fresh { IfOk result IsNew }
    ensures err { IfErr result (λ fault. IsUnopened D.Disk files fault) }
{
    let mut options = Options::new(1);
    options.checkpoint_frames = LOG_FRAMES;
    match Connection::open_files(alloc, files, options) {
        Ok(conn) => Ok(conn),
        Err((fault, _)) => Err(fault),
    }
}

/// Opens a copy in memory of the database that these bytes hold.
pub fn open_copy(alloc: Global, found: &FileBytes) -> Result<Connection<FileStore<Memory>>, Error>
    ensures found { IfOk result (λ conn. FindsIn (image_in found.now) (file_state conn)) }
    ensures opened { IfOk result IsOpened }
    ensures fresh { IfOk result IsNew }
    ensures err { IfErr result (λ fault. IsUncopied ⟦<Memory as Disk>⟧ (image_in found.now) fault) }
{
    match files_of(alloc, found) {
        Ok(files) => open_files(alloc, files),
        Err(_) => Err(Error::SqliteFailure(ErrorCode::OutOfMemory)),
    }
}

/// Opens a copy in memory of the database that these bytes hold. Writes why its instances do not run though they are
/// enabled: those that words mean, as svcs takes them, or all without words. The status is 0, 1 if a word matches no
/// instance, which is told, or 3 for a fault.
pub fn why_copy<W: TextWriter, E: TextWriter>(
    alloc: Global,
    found: &FileBytes,
    words: &[&str],
    writer: &mut W,
    errors: &mut E,
) -> Result<u8, Error>
    ensures ok { IfOk result (λ status. status ≢ 3
        → IsOverCopy ⟦<Memory as Disk>⟧ (image_in found.now)
        (λ conn after. IsAnswered over_files conn E.write_fails (map (λ w. w.now) words.now) (W.contents writer.old)
        (W.contents writer.new) (E.contents errors.old) (E.contents errors.new) status)) }
    ensures fault { IfOk result (λ status. status ≡ 3
        → IsExcused E.write_fails (E.contents errors.old) (E.contents errors.new)) }
    ensures err { IfErr result (λ fault. IsUncopied ⟦<Memory as Disk>⟧ (image_in found.now) fault) }
    ensures silent { OnErr result ((W.contents writer.new ≡ W.contents writer.old)
        × (E.contents errors.new ≡ E.contents errors.old)) }
{
    match open_copy(alloc, found) {
        Ok(conn) => Ok(why(alloc, conn, words, writer, errors)),
        Err(fault) => Err(fault),
    }
}

/// Opens a copy in memory of the database that these bytes hold. Gives the programs of the methods of its instances, for
/// whoever looks which of them are there. It gives none for a fault, which is told.
pub fn programs_copy<E: TextWriter>(
    alloc: Global,
    found: &FileBytes,
    errors: &mut E,
) -> Result<Option<Items<Text>>, Error>
    ensures found { IfOk result (λ found_or_none. IfSome found_or_none
        (λ programs. IsOverCopy ⟦<Memory as Disk>⟧ (image_in found.now)
        (λ conn after. ArePrograms over_files conn programs))) }
    ensures quiet { IfOk result (λ found_or_none. OnSome found_or_none
        (E.contents errors.new ≡ E.contents errors.old)) }
    ensures fault { IfOk result (λ found_or_none. IfNone found_or_none
        (IsExcused E.write_fails (E.contents errors.old) (E.contents errors.new))) }
    ensures err { IfErr result (λ fault. IsUncopied ⟦<Memory as Disk>⟧ (image_in found.now) fault) }
    ensures silent { OnErr result (E.contents errors.new ≡ E.contents errors.old) }
{
    match open_copy(alloc, found) {
        Ok(conn) => Ok(programs(alloc, conn, errors)),
        Err(fault) => Err(fault),
    }
}

/// Opens a copy in memory of the database that these bytes hold. Writes what is wrong of each of its instances, enabled
/// or not, before it is started, and then what is likely a mistake; `missing` has the programs of methods that are not
/// there. The status is 0, 1 if an instance has a flaw, or 3 for a fault.
pub fn check_copy<W: TextWriter, E: TextWriter>(
    alloc: Global,
    found: &FileBytes,
    missing: &[Text],
    writer: &mut W,
    errors: &mut E,
) -> Result<u8, Error>
    ensures ok { IfOk result (λ status. status ≢ 3
        → IsOverCopy ⟦<Memory as Disk>⟧ (image_in found.now)
        (λ conn after. IsInspected over_files conn missing.now (W.contents writer.old) (W.contents writer.new) status)) }
    ensures fault { IfOk result (λ status. status ≡ 3
        → IsExcused E.write_fails (E.contents errors.old) (E.contents errors.new)) }
    ensures quiet { IfOk result (λ status. status ≢ 3 → (E.contents errors.new ≡ E.contents errors.old)) }
    ensures err { IfErr result (λ fault. IsUncopied ⟦<Memory as Disk>⟧ (image_in found.now) fault) }
    ensures silent { OnErr result ((W.contents writer.new ≡ W.contents writer.old)
        × (E.contents errors.new ≡ E.contents errors.old)) }
{
    match open_copy(alloc, found) {
        Ok(conn) => Ok(check(alloc, conn, missing, writer, errors)),
        Err(fault) => Err(fault),
    }
}

/// Opens a copy in memory of the database that these bytes hold. Gives what is held, for whoever asks several things of it.
/// It gives nothing for a fault, which is told.
pub fn held_copy<E: TextWriter>(
    alloc: Global,
    found: &FileBytes,
    errors: &mut E,
) -> Result<Option<Tables>, Error>
    ensures found { IfOk result (λ found_or_none. IfSome found_or_none
        (λ held. IsOverCopy ⟦<Memory as Disk>⟧ (image_in found.now)
        (λ conn after. IsOpenedAs over_files conn held))) }
    ensures numbered { IfOk result (λ found_or_none. IfSome found_or_none IsNumbered) }
    ensures quiet { IfOk result (λ found_or_none. OnSome found_or_none
        (E.contents errors.new ≡ E.contents errors.old)) }
    ensures fault { IfOk result (λ found_or_none. IfNone found_or_none
        (IsExcused E.write_fails (E.contents errors.old) (E.contents errors.new))) }
    ensures err { IfErr result (λ fault. IsUncopied ⟦<Memory as Disk>⟧ (image_in found.now) fault) }
    ensures silent { OnErr result (E.contents errors.new ≡ E.contents errors.old) }
{
    match open_copy(alloc, found) {
        Ok(conn) => Ok(held(alloc, conn, errors)),
        Err(fault) => Err(fault),
    }
}
