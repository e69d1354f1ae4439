//! The server that has a folder.

use crate::fault::{AskFault, if_given, told};
use crate::way::is_own;
use std::fs::File;
use std::rt::HostRuntime;
use std::time::Duration;
use std::{fs, thread};

/// The times that a client looks for a server if none starts.
const BEGINNING: u32 = 40;

/// The times that it looks in all.
const PATIENCE: u32 = 200;

/// The milliseconds between two looks.
const BETWEEN: u64 = 50;

/// A server: the folder of its requests, whose name stays the same as long as it lives, and the lock that it holds then.
#[derive(Drop)]
pub(crate) struct Place {
    pub(crate) run: String,
    lock: File,
}

impl Place {
    /// True if the server has ended.
    pub(crate) fn has_ended(&self) -> bool {
        is_free(&self.lock)
    }
}

/// True if nobody holds a lock.
pub(crate) fn is_free(lock: &File) -> bool {
    match lock.try_lock_shared() {
        Ok(()) => {
            let _let_go = lock.unlock();
            true
        }
        Err(_) => false,
    }
}

/// Refuses a folder with an end of line in its name: what is known of the folders above it may stand in lines, one for each.
fn refuse_lines(rt: &HostRuntime, folder: &str) -> Result<(), AskFault> {
    if folder.contains('\n') {
        return told(format!(in rt.alloc(); "an end of line in the name of the folder"));
    }
    Ok(())
}

/// The server that a folder's link `now` leads to, if one is there.
fn served(rt: &HostRuntime, folder: &str) -> Result<Option<Place>, AskFault> {
    let alloc = rt.alloc();
    let link = format!(in alloc; "{folder}/now")?;
    let Some(run) = if_given(fs::canonicalize(rt, link.as_str()))? else {
        return Ok(None);
    };
    refuse_lines(rt, run.as_str())?;
    let run = format!(in alloc; "{}", run.as_str())?;
    if !is_own(rt, folder, run.as_str())? {
        return Ok(None);
    }
    let path = format!(in alloc; "{}/lock", run.as_str())?;
    match if_given(File::open(rt, path.as_str()))? {
        Some(lock) if !is_free(&lock) => Ok(Some(Place { run, lock })),
        _ => Ok(None),
    }
}

/// The server of a folder, if both are there.
fn place_in(rt: &HostRuntime, folder: &str) -> Result<Option<Place>, AskFault> {
    let Some(real) = if_given(fs::canonicalize(rt, folder))? else {
        return Ok(None);
    };
    refuse_lines(rt, real.as_str())?;
    if is_own(rt, folder, real.as_str())? {
        served(rt, folder)
    } else {
        Ok(None)
    }
}

/// True if an smfd has a folder.
fn is_starting(rt: &HostRuntime, folder: &str) -> Result<bool, AskFault> {
    let path = format!(in rt.alloc(); "{folder}/starting")?;
    match if_given(File::open(rt, path.as_str()))? {
        Some(lock) => Ok(!is_free(&lock)),
        None => Ok(false),
    }
}

/// Finds the server of a folder. If one starts, this waits for it, ten seconds at most. An smfd that was started a moment ago
/// may not have its folder yet, so this waits two seconds for that.
pub(crate) fn find(rt: &HostRuntime, folder: &str) -> Result<Place, AskFault> {
    refuse_lines(rt, folder)?;
    for tries in 0..PATIENCE {
        if let Some(place) = place_in(rt, folder)? {
            return Ok(place);
        }
        if tries + 1 >= BEGINNING && !is_starting(rt, folder)? {
            return told(format!(in rt.alloc(); "no server at {folder}"));
        }
        thread::sleep(rt, Duration::from_millis(BETWEEN));
    }
    told(format!(in rt.alloc(); "the server at {folder} does not answer yet"))
}
