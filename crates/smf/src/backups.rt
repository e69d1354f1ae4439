// Whole copies of databases.
use smf_host::read_files;
use smf_lines::TextWriter;
use smf_program::{tell_no_database, tell_no_memory};
use smf_runs::{Closed, open_copy, serve_cfg_file};
use std::fs::File;
use std::io::Write;
use std::os::unix::fs::OpenOptionsExt;
use std::path::Path;
use std::{fs, io};

/// The mode of a copy that others may read, as far as they may read files of this user.
pub(crate) const SHARED: u32 = 0o666;

/// The mode of a copy for its owner alone.
pub(crate) const OWN: u32 = 0o600;

/// The status if no copy was written.
const REFUSED: u8 = 1;

/// The bytes of a file that alone has what a database holds, though the database may be in use: a copy of it was opened as a
/// store, and closed. If there are none, that was told, and this is the status.
fn whole_copy(rt: &HostRuntime, database: &str) -> Result<Vec<u8>, u8> {
    let alloc = rt.alloc();
    let mut errors = rt.stderr();
    let found = match read_files(rt, database) {
        Ok(found) => found,
        Err(fault) => return Err(tell_no_database(&mut errors, &fault)),
    };
    let conn = match open_copy(alloc, &found) {
        Ok(conn) => conn,
        Err(fault) => return Err(tell_no_database(&mut errors, &fault)),
    };
    let mut no_lines: &[u8] = b"";
    let mut out: Vec<u8> = Vec::new(alloc);
    let Closed { status, files } = serve_cfg_file(
        alloc,
        conn,
        &mut no_lines,
        &mut out,
        &mut errors,
    );
    if status != 0 {
        return Err(status);
    }
    match Vec::from_slice(alloc, files.db.bytes()) {
        Ok(bytes) => Ok(bytes),
        Err(_) => Err(tell_no_memory(&mut errors)),
    }
}

/// Writes bytes into a file that nobody sees before it is whole and on the disk. A file of that name is replaced.
fn write_whole(rt: &HostRuntime, path: &str, mode: u32, bytes: &[u8]) -> io::Result<()> {
    let part = format!(in rt.alloc(); "{path}.part")?;
    let mut file = File::options()
        .write(true)
        .create(true)
        .truncate(true)
        .mode(mode)
        .open(rt, part.as_str())?;
    file.write_all(bytes)?;
    file.sync_all()?;
    fs::rename(rt, part.as_str(), path)?;
    let folder = match Path::new(path).parent() {
        Some(folder) if !folder.as_str().is_empty() => folder.as_str(),
        _ => ".",
    };
    File::open(rt, folder)?.sync_all()
}

/// Writes a whole copy of the database in a file into another file, which gets this mode if it is new.
pub(crate) fn copy_database(rt: &HostRuntime, database: &str, copy: &str, mode: u32) -> u8 {
    let bytes = match whole_copy(rt, database) {
        Ok(bytes) => bytes,
        Err(status) => return status,
    };
    let mut errors = rt.stderr();
    match write_whole(rt, copy, mode, bytes.as_slice()) {
        Ok(()) => 0,
        Err(why) => match format!(in rt.alloc(); "smf: {copy}: {why}\n") {
            Ok(text) => {
                let _told = errors.write_text(text.as_bytes());
                REFUSED
            }
            Err(_) => tell_no_memory(&mut errors),
        },
    }
}
