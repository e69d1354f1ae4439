// The room of the contracts of a database.
use crate::database::is_memory;
use crate::groups::groups_of;
use smf_room::{Folder, Room};
use std::fs::{DirBuilder, File};
use std::io::Write;
use std::os::unix::fs::DirBuilderExt;
use std::path::PathBuf;
use std::rt::HostRuntime;
use std::time::Duration;
use std::{env, fs, io, thread};

/// How often a second the lock of a room is tried.
const TRIES: u32 = 50;

/// Why the room of contracts cannot be had.
#[derive(Drop)]
pub enum RoomFault {
    /// Another server has it.
    Taken,
    /// The program that holds contracts is not there.
    NoHolder,
    /// The system failed.
    Io(io::Error),
}

impl From<io::Error> for RoomFault {
    fn from(e: io::Error) -> RoomFault {
        RoomFault::Io(e)
    }
}

/// The room of a database that this server has, and where it is.
pub struct RoomHold<'a> {
    pub folder: Folder<&'a HostRuntime>,
    pub path: String,
    /// The folder of the control groups; without one each contract has a keeper.
    pub groups: Option<String>,
}

/// The folder of the programs that hold contracts: what SMF_LIBEXEC names, or one above the folder of this program.
fn libexec(rt: &HostRuntime) -> io::Result<String> {
    let alloc = rt.alloc();
    match env::var(rt, "SMF_LIBEXEC") {
        Ok(named) => Ok(named),
        Err(_) => {
            let program: PathBuf = env::current_exe(rt)?;
            let program = program.as_str();
            let folder = match program.rfind('/') {
                Some(end) => &program[..end],
                None => ".",
            };
            format!(in alloc; "{folder}/../libexec").map_err(io::Error::from)
        }
    }
}

/// Makes a folder for its owner alone, if it is not there.
fn make_folder(rt: &HostRuntime, path: &str) -> io::Result<()> {
    match DirBuilder::new().mode(0o700).create(rt, path) {
        Err(fault) if fault.kind() == io::ErrorKind::AlreadyExists => Ok(()),
        made => made,
    }
}

fn copy_of(rt: &HostRuntime, text: &Option<String>) -> io::Result<Option<String>> {
    match text {
        Some(text) => Ok(Some(format!(in rt.alloc(); "{}", text.as_str())?)),
        None => Ok(None),
    }
}

/// Takes a room within a second: the holder looks now and then whether a server has it, and has its lock for that moment.
fn take_folder<'a>(
    rt: &'a HostRuntime,
    path: &str,
    groups: &Option<String>,
    holder: &str,
) -> io::Result<Option<Folder<&'a HostRuntime>>> {
    for _ in 0..TRIES {
        let same = copy_of(rt, groups)?;
        let taken = Folder::take(rt.alloc(), rt, path, same, holder, rt.stderr())?;
        if taken.is_some() {
            return Ok(taken);
        }
        thread::sleep(rt, Duration::from_millis(1000 / u64::from(TRIES)));
    }
    Ok(None)
}

/// Takes the room of the contracts of a database for this server alone.
pub fn take_room<'a>(rt: &'a HostRuntime, database: &str) -> Result<RoomHold<'a>, RoomFault> {
    let alloc = rt.alloc();
    let real = fs::canonicalize(rt, database)?;
    let path = format!(in alloc; "{}-contracts", real.as_str()).map_err(io::Error::from)?;
    let libexec = libexec(rt)?;
    let holder = format!(in alloc; "{}/smf_hold", libexec.as_str()).map_err(io::Error::from)?;
    if !fs::exists(rt, holder.as_str())? {
        return Err(RoomFault::NoHolder);
    }
    make_folder(rt, path.as_str())?;
    let groups = groups_of(rt, path.as_str())?;
    let Some(mut folder) = take_folder(rt, path.as_str(), &groups, holder.as_str())? else {
        return Err(RoomFault::Taken);
    };
    // It is there when the first contract is to start. If it does not begin now, it is begun then.
    let _is_there = folder.holder();
    Ok(RoomHold {
        folder,
        path,
        groups,
    })
}

/// The text that tells why the room of contracts cannot be had.
pub fn room_text(fault: &RoomFault) -> &'static str {
    match fault {
        RoomFault::Taken => "smf: contracts: another server follows them",
        RoomFault::NoHolder => "smf: contracts: no smf_hold in libexec",
        RoomFault::Io(_) => "smf: contracts: they cannot be followed",
    }
}

/// The line that tells in which form contracts are kept.
pub fn form_text(groups: &Option<String>) -> &'static str {
    match groups {
        Some(_) => "smf: contracts: each is a control group",
        None => "smf: contracts: each has a keeper",
    }
}

/// Lets whoever holds the contracts of a room end, if there are none, and removes the folder of groups, if it is empty.
pub fn close_room(rt: &HostRuntime, room: &str, groups: &Option<String>) {
    let _told = tell_holder(rt, room, "quit\n");
    if let Some(groups) = groups {
        let _removed = fs::remove_dir(rt, groups.as_str());
    }
}

/// Writes a line for the holder of a room. Its pipe is opened both ways, so that nothing waits.
fn tell_holder(rt: &HostRuntime, room: &str, line: &str) -> io::Result<()> {
    let path = format!(in rt.alloc(); "{room}/asks")?;
    let mut pipe = File::options()
        .read(true)
        .write(true)
        .open(rt, path.as_str())?;
    pipe.write_all(line.as_bytes())
}

/// The folder of logs, if the folder of this server has one; else an empty text.
fn logs_of(rt: &HostRuntime, folder: &str) -> io::Result<String> {
    let alloc = rt.alloc();
    let named = format!(in alloc; "{folder}/log")?;
    match fs::canonicalize(rt, named.as_str()) {
        Ok(real) => Ok(format!(in alloc; "{}", real.as_str())?),
        Err(fault) if is_memory(&fault) => Err(fault),
        Err(_) => Ok(String::new(alloc)),
    }
}

/// Another file takes the place of one in a room, so that no half of it is ever read.
pub(crate) fn write_whole(rt: &HostRuntime, path: &str, text: &str) -> io::Result<()> {
    let part = format!(in rt.alloc(); "{path}.part")?;
    fs::write(rt, part.as_str(), text)?;
    fs::rename(rt, part.as_str(), path)
}

/// Removes a file of a room, if it is there.
pub(crate) fn remove_from(rt: &HostRuntime, room: &str, name: &str) -> io::Result<()> {
    let path = format!(in rt.alloc(); "{room}/{name}")?;
    match fs::remove_file(rt, path.as_str()) {
        Err(fault) if fault.kind() == io::ErrorKind::NotFound => Ok(()),
        removed => removed,
    }
}

/// Tells whoever holds the contracts of a room that a server stays: where methods write their logs, and by which pipe it
/// is called.
pub fn note_stay(rt: &HostRuntime, room: &str, folder: &str) -> io::Result<()> {
    let alloc = rt.alloc();
    let logs = logs_of(rt, folder)?;
    let ring = format!(in alloc; "{folder}/wake")?;
    let ring = fs::canonicalize(rt, ring.as_str())?;
    let log = format!(in alloc; "{room}/log")?;
    write_whole(rt, log.as_str(), logs.as_str())?;
    let path = format!(in alloc; "{room}/ring")?;
    write_whole(rt, path.as_str(), ring.as_str())
}

/// Tells whoever holds the contracts of a room that no server stays: what methods write goes where this program writes.
pub fn note_run(rt: &HostRuntime, room: &str) -> io::Result<()> {
    for name in ["log", "ring", "terms", "boot"] {
        remove_from(rt, room, name)?;
    }
    Ok(())
}
