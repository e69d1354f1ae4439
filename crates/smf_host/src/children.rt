// The list of children beside a database.
use crate::lock::{path_beside, process_number};
use smf_lines::tell;
use smf_program::tell_no_memory;
use smf_sweep::{ListPlace, Lister, SweepFault};
use std::io;
use std::rt::HostRuntime;

/// The list of children beside a database, which is there.
pub fn list_of(rt: &HostRuntime, database: &str) -> io::Result<String> {
    path_beside(rt, database, "children")
}

/// The place of the list of a run's children. The path of the lock is the one by which the lock was taken; the database
/// may not have been there then.
pub fn place_of(rt: &HostRuntime, database: &str, lock: String) -> io::Result<ListPlace> {
    Ok(ListPlace {
        list: list_of(rt, database)?,
        lock,
        number: process_number(rt)?,
    })
}

/// The text of a fault of the list of children. It follows the path of the list.
fn fault_text(fault: SweepFault) -> &'static str {
    match fault {
        SweepFault::Unread => "it cannot be read",
        SweepFault::Unwritten => "it cannot be written",
        SweepFault::Unanswered => "the system does not say which of its processes are left",
        SweepFault::Left => "what an older run left does not end",
        SweepFault::Memory => "no memory",
    }
}

/// Says why a run does not begin, and gives the status of such a run.
pub fn tell_sweep(rt: &HostRuntime, list: &str, fault: SweepFault) -> io::Result<u8> {
    let mut errors = rt.stderr();
    if fault == SweepFault::Memory {
        return Ok(tell_no_memory(&mut errors));
    }
    let text = format!(in rt.alloc(); "smf: children: {list}: {}", fault_text(fault))?;
    Ok(tell(&mut errors, text.as_str()))
}

/// Ends what an older run left whose children were listed, for a run that follows its children. The status of this run,
/// if that cannot be done.
pub fn end_listed(rt: &HostRuntime, database: &str) -> io::Result<Option<u8>> {
    let lock = path_beside(rt, database, "lock")?;
    let list = list_of(rt, database)?;
    let place = place_of(rt, database, lock)?;
    match Lister::take(rt.alloc(), rt, place) {
        Ok(mut lister) => {
            let _closed = lister.close();
            Ok(None)
        }
        Err(fault) => Ok(Some(tell_sweep(rt, list.as_str(), fault)?)),
    }
}
