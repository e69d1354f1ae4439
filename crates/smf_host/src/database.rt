// The file of a database, and the log and the journal beside it.
use smf_store::FileBytes;
use sqlite::{Connection, Error, ErrorCode};
use sqlite_std_file::File as DatabaseFile;
use sqlite_store::FileStore;
use std::fs::File;
use std::rt::HostRuntime;
use std::time::Duration;
use std::{fs, io, thread};

/// So often the files are read while another program writes to them.
const READINGS: u32 = 40;

/// A log with no page in it, which a close leaves, has fewer bytes.
const PAGE_IN_LOG: u64 = 64;

/// True if a fault of a file is want of memory, which says nothing of the file.
pub fn is_memory(fault: &io::Error) -> bool {
    fault.kind() == io::ErrorKind::OutOfMemory
}

/// True if the log beside a database has a page.
fn has_log(rt: &HostRuntime, database: &str) -> io::Result<bool> {
    let name = format!(in rt.alloc(); "{database}-wal")?;
    match fs::metadata(rt, name.as_str()) {
        Ok(log) => Ok(log.len() >= PAGE_IN_LOG),
        Err(fault) if is_memory(&fault) => Err(fault),
        Err(_) => Ok(false),
    }
}

/// A database in a file that is open.
pub struct Database {
    conn: Connection<FileStore<DatabaseFile>>,
}

impl Drop for Database {
    fn drop(self) {
        let Database { conn } = self;
        let _store = conn.into_store();
    }
}

impl Database {
    /// Opens the database in a file. The log of a run that was cut off is copied into the file first, by a close.
    pub fn open(rt: &HostRuntime, path: &str) -> Result<Database, Error> {
        let had_log = has_log(rt, path).map_err(|fault| read_fault(&fault))?;
        let conn = Connection::open(rt, path)?;
        if !had_log {
            return Ok(Database { conn });
        }
        conn.close()?;
        let conn = Connection::open(rt, path)?;
        Ok(Database { conn })
    }

    /// The connection to this database.
    pub fn into_connection(self) -> Connection<FileStore<DatabaseFile>> {
        let Database { conn } = self;
        conn
    }
}

/// Why a file is not read, as the library says why it is not opened.
fn read_fault(fault: &io::Error) -> Error {
    Error::SqliteFailure(if is_memory(fault) {
        ErrorCode::OutOfMemory
    } else {
        ErrorCode::CannotOpen
    })
}

/// The bytes of a regular file.
fn bytes_of(rt: &HostRuntime, path: &str) -> io::Result<Vec<u8>> {
    if !fs::metadata(rt, path)?.is_file() {
        return Err(io::ErrorKind::Unsupported.into());
    }
    fs::read(rt, path)
}

/// The bytes of a file beside a database; none if it is not there.
fn bytes_beside(rt: &HostRuntime, path: &str) -> io::Result<Vec<u8>> {
    match bytes_of(rt, path) {
        Err(fault) if fault.kind() == io::ErrorKind::NotFound => Ok(Vec::new(rt.alloc())),
        found => found,
    }
}

/// True if a journal is left beside a database. SQLite alone can play it back.
fn has_journal(rt: &HostRuntime, path: &str) -> io::Result<bool> {
    let bytes = bytes_beside(rt, path)?;
    Ok(match bytes.first() {
        Some(byte) => *byte != 0,
        None => false,
    })
}

/// The bytes of a database file and of its log. If the database is a link, they are those of the file that the link
/// names. A journal that is left is an error.
fn read_once(rt: &HostRuntime, database: &str) -> io::Result<FileBytes> {
    let alloc = rt.alloc();
    let real = fs::canonicalize(rt, database)?;
    let journal = format!(in alloc; "{}-journal", real.as_str())?;
    if has_journal(rt, journal.as_str())? {
        return Err(io::ErrorKind::Unsupported.into());
    }
    let log = format!(in alloc; "{}-wal", real.as_str())?;
    Ok(FileBytes {
        db: bytes_of(rt, real.as_str())?,
        log: bytes_beside(rt, log.as_str())?,
    })
}

/// The bytes of two readings of a database file and of its log, one right after the other. None if another program wrote
/// between them, so that they differ.
fn read_twice(rt: &HostRuntime, database: &str) -> io::Result<Option<FileBytes>> {
    let first = read_once(rt, database)?;
    let second = read_once(rt, database)?;
    let is_same = first.db.as_slice() == second.db.as_slice()
        && first.log.as_slice() == second.log.as_slice();
    Ok(if is_same { Some(first) } else { None })
}

/// The bytes of a database file and of its log at one moment. While another program, as a server, writes to them they are
/// read again, for two seconds at most. Then the database is in use.
pub fn read_files(rt: &HostRuntime, database: &str) -> Result<FileBytes, Error> {
    for _ in 0..READINGS {
        if let Some(found) = read_twice(rt, database).map_err(|fault| read_fault(&fault))? {
            return Ok(found);
        }
        thread::sleep(rt, Duration::from_millis(2000 / u64::from(READINGS)));
    }
    Err(Error::SqliteFailure(ErrorCode::DatabaseBusy))
}
