// The folder of the control groups of a room.
use std::fs::File;
use std::io::Read;
use std::os::unix::fs::MetadataExt;
use std::rt::HostRuntime;
use std::{env, fs, io};

/// True if control groups are wanted, which is so unless SMF_CONTRACTS is `keepers`.
fn wants_groups(rt: &HostRuntime) -> bool {
    match env::var(rt, "SMF_CONTRACTS") {
        Ok(form) => form.as_str() != "keepers",
        Err(_) => true,
    }
}

/// The place at which control groups of version 2 are mounted, by the table of mounts.
fn mount_in(mounts: &str) -> Option<&str> {
    for line in mounts.lines() {
        let mut words = line.split(' ');
        let (_device, place, kind) = (words.next(), words.next(), words.next());
        if kind == Some("cgroup2") {
            return place;
        }
    }
    None
}

/// The group of version 2 that a process is in.
fn own_group_in(groups: &str) -> Option<&str> {
    for line in groups.lines() {
        if let Some(group) = line.strip_prefix("0::") {
            return Some(group);
        }
    }
    None
}

fn text_of(rt: &HostRuntime, path: &str) -> io::Result<String> {
    let mut text = String::new(rt.alloc());
    File::open(rt, path)?.read_to_string(&mut text)?;
    Ok(text)
}

/// The group that this program is in, as a folder. None if there are no groups of version 2.
fn own_group(rt: &HostRuntime) -> io::Result<Option<String>> {
    let alloc = rt.alloc();
    let mounts = text_of(rt, "/proc/self/mounts")?;
    let own = text_of(rt, "/proc/self/cgroup")?;
    match (mount_in(mounts.as_str()), own_group_in(own.as_str())) {
        (Some(mount), Some("/")) => Ok(Some(format!(in alloc; "{mount}")?)),
        (Some(mount), Some(group)) => Ok(Some(format!(in alloc; "{mount}{group}")?)),
        _ => Ok(None),
    }
}

/// Makes a group, if it is not there. None if that cannot be done, or if the system does not end a group as a whole.
fn made_group(rt: &HostRuntime, group: String) -> io::Result<Option<String>> {
    match fs::create_dir(rt, group.as_str()) {
        Ok(()) => {}
        Err(fault) if fault.kind() == io::ErrorKind::AlreadyExists => {}
        Err(_) => return Ok(None),
    }
    let kill = format!(in rt.alloc(); "{}/cgroup.kill", group.as_str())?;
    if fs::exists(rt, kill.as_str())? {
        Ok(Some(group))
    } else {
        Ok(None)
    }
}

/// The group, as a folder, below which each contract of a room gets one of its own. It is below the group of this program,
/// and its name is that of the room's inode, so that a later server finds the same. None if no groups are wanted, or
/// none can be made.
pub fn groups_of(rt: &HostRuntime, room: &str) -> io::Result<Option<String>> {
    if !wants_groups(rt) {
        return Ok(None);
    }
    let Some(own) = own_group(rt)? else {
        return Ok(None);
    };
    let inode = fs::metadata(rt, room)?.ino();
    made_group(rt, format!(in rt.alloc(); "{}/smf-{inode}", own.as_str())?)
}
