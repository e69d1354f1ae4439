// Which boot of the system a room is of.
use crate::contracts::{remove_from, write_whole};
use std::rt::HostRuntime;
use std::{fs, io};

/// The fields of a process's line of /proc from the name on, and among them the time at which it was started
/// (proc_pid_stat(5)).
const STARTED: usize = 20;

/// When the first process of this namespace was started, by its line of /proc. The name, in brackets, may have blanks.
fn started_in(stat: &str) -> Option<&str> {
    let (_, fields) = stat.rsplit_once(')')?;
    fields.split(' ').nth(STARTED)
}

/// The text that no two boots of the system share, nor two starts of a process namespace.
fn boot_text(rt: &HostRuntime) -> io::Result<String> {
    let alloc = rt.alloc();
    let boot = fs::read_to_string(rt, "/proc/sys/kernel/random/boot_id")?;
    let stat = fs::read_to_string(rt, "/proc/1/stat")?;
    let started = started_in(stat.as_str()).unwrap_or("");
    Ok(format!(in alloc; "{} {started}\n", boot.as_str().trim())?)
}

/// Whether a server has booted what is in this room since the system was booted.
pub fn has_booted(rt: &HostRuntime, room: &str) -> io::Result<bool> {
    let path = format!(in rt.alloc(); "{room}/boot")?;
    match fs::read_to_string(rt, path.as_str()) {
        Ok(text) => {
            let now = boot_text(rt)?;
            Ok(text.as_str() == now.as_str())
        }
        Err(fault) if fault.kind() == io::ErrorKind::NotFound => Ok(false),
        Err(fault) => Err(fault),
    }
}

/// Notes that a server has booted what is in this room.
pub fn note_boot(rt: &HostRuntime, room: &str) -> io::Result<()> {
    let path = format!(in rt.alloc(); "{room}/boot")?;
    let text = boot_text(rt)?;
    write_whole(rt, path.as_str(), text.as_str())
}

/// The next server boots.
pub fn forget_boot(rt: &HostRuntime, room: &str) -> io::Result<()> {
    remove_from(rt, room, "boot")
}
