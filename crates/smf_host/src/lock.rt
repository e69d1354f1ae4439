// The lock beside a database, by which one program alone has it.
use crate::database::is_memory;
use smf_lines::tell;
use std::fs::File;
use std::io::Write;
use std::os::unix::fs::OpenOptionsExt;
use std::rt::HostRuntime;
use std::{fs, io};

/// A hold on a database for this program alone. It lasts until the program drops the lock.
pub enum Hold {
    Ours(Option<File>),
    /// The program did not get it, and told so with this status.
    Refused(u8),
}

/// The number of this process.
pub fn process_number(rt: &HostRuntime) -> io::Result<String> {
    let alloc = rt.alloc();
    let stat = fs::read_to_string(rt, "/proc/self/stat")?;
    let number = match stat.as_str().find(' ') {
        Some(end) => &stat.as_str()[..end],
        None => "",
    };
    format!(in alloc; "{number}").map_err(io::Error::from)
}

/// The path of a file beside a database. If the database is a link, the file is beside the one that the link names.
pub fn path_beside(rt: &HostRuntime, database: &str, what: &str) -> io::Result<String> {
    let alloc = rt.alloc();
    let path = match fs::canonicalize(rt, database) {
        Ok(real) => format!(in alloc; "{}-{what}", real.as_str())?,
        Err(fault) if is_memory(&fault) => return Err(fault),
        Err(_) => format!(in alloc; "{database}-{what}")?,
    };
    Ok(path)
}

fn open_lock(rt: &HostRuntime, path: &str) -> io::Result<File> {
    File::options()
        .read(true)
        .write(true)
        .create(true)
        .mode(0o600)
        .open(rt, path)
}

/// Leaves the number of this process in a lock that it holds.
fn leave_number(rt: &HostRuntime, lock: &mut File) -> io::Result<()> {
    let mut line = process_number(rt)?;
    line.push_str("\n")?;
    // An older number goes only then, so that there is room for this one on a full disk.
    lock.write_all(line.as_str().as_bytes())?;
    lock.set_len(line.as_str().len() as u64)
}

/// Says which process has a database.
fn tell_taken(rt: &HostRuntime, lock: &str) -> io::Result<u8> {
    let alloc = rt.alloc();
    let left = fs::read_to_string(rt, lock)?;
    let number = left.as_str().trim();
    let text = format!(in alloc; "smf: database: process {number} has it")?;
    Ok(tell(&mut rt.stderr(), text.as_str()))
}

/// Says that a database that is there can have no lock beside it. One that cannot be opened is refused when it is
/// opened.
fn without_lock(rt: &HostRuntime, database: &str) -> Hold {
    match File::options().read(true).write(true).open(rt, database) {
        Ok(_file) => Hold::Refused(tell(
            &mut rt.stderr(),
            "smf: database: no lock can be taken beside it",
        )),
        Err(_) => Hold::Ours(None),
    }
}

/// Takes a database for this program alone, and leaves its number for others. A method begins only if the lock holds
/// it.
pub fn take_alone(rt: &HostRuntime, database: &str) -> io::Result<Hold> {
    let path = path_beside(rt, database, "lock")?;
    let mut lock = match open_lock(rt, path.as_str()) {
        Ok(lock) => lock,
        Err(fault) if is_memory(&fault) => return Err(fault),
        Err(_) => return Ok(without_lock(rt, database)),
    };
    if lock.try_lock().is_err() {
        return Ok(Hold::Refused(tell_taken(rt, path.as_str())?));
    }
    match leave_number(rt, &mut lock) {
        Ok(()) => Ok(Hold::Ours(Some(lock))),
        Err(fault) if is_memory(&fault) => Err(fault),
        Err(_) => Ok(Hold::Refused(tell(
            &mut rt.stderr(),
            "smf: database: its lock cannot be written",
        ))),
    }
}
