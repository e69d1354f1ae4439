// The questions that the system is asked for an older run.
ghost use Rattle.std.specs.Prelude.{IfOk, OnErr, OnOk, option_map, string_bytes};
ghost use Rattle.smf_sweep.specs.Replies.{Telling, Booted, Listed, Looked, Ended, Emptied, Removed, NoAnswer};

use crate::child::Child;
use crate::process::Process;
use crate::sight::if_seen;
use crate::stat::{is_method, read_stat};
use crate::words::ender;
use std::alloc::{AllocGlobal, Global};
use std::fs::File;
use std::io::Read;
use std::os::unix::fs::OpenOptionsExt;
use std::process::Processes;
use std::rt::{Clock, Files};
use std::time::Duration;
use std::{fs, io, thread};

/// A system that is asked for its processes and for a list of children: each answer leads from one state to the next. A
/// caller knows an answer only from the call that asks for it.
pub trait Survey {
    ghost tells: { Self → Telling → Self → Type 0 };

    /// The name of the system's boot.
    fn boot(&mut self, alloc: Global) -> io::Result<String>
        ensures told { IfOk result (λ boot. tells self.old (Booted (string_bytes boot)) self.new) }
        ensures lost { OnErr result (tells self.old NoAnswer self.new) };

    /// The text of a list. None if it is not there.
    fn list(&mut self, alloc: Global, path: &str) -> io::Result<Option<String>>
        ensures told { IfOk result (λ text. tells self.old (Listed path.now (option_map string_bytes text)) self.new) }
        ensures lost { OnErr result (tells self.old NoAnswer self.new) };

    /// The processes that have the number or the session of one of these children.
    fn look(&mut self, alloc: Global, children: &[Child]) -> io::Result<Vec<Process>>
        ensures told { IfOk result (λ found. tells self.old (Looked children.now found.items) self.new) }
        ensures lost { OnErr result (tells self.old NoAnswer self.new) };

    /// Ends the groups of these processes. They may be gone.
    fn end(&mut self, alloc: Global, left: &[Process]) -> io::Result<()>
        ensures told { OnOk result (tells self.old (Ended left.now) self.new) }
        ensures lost { OnErr result (tells self.old NoAnswer self.new) };

    /// Makes a list that is empty.
    fn empty(&mut self, path: &str) -> io::Result<()>
        ensures told { OnOk result (tells self.old (Emptied path.now) self.new) }
        ensures lost { OnErr result (tells self.old NoAnswer self.new) };

    fn remove(&mut self, path: &str) -> io::Result<()>
        ensures told { OnOk result (tells self.old (Removed path.now) self.new) }
        ensures lost { OnErr result (tells self.old NoAnswer self.new) };

    /// Waits ten milliseconds.
    fn pause(&self);
}

fn bytes_of<R: Files<File = File>>(alloc: Global, rt: &R, path: &str) -> io::Result<Vec<u8>> {
    let mut bytes = Vec::new(alloc);
    File::open(rt, path)?.read_to_end(&mut bytes)?;
    Ok(bytes)
}

fn text_of<R: Files<File = File>>(alloc: Global, rt: &R, path: &str) -> io::Result<String> {
    let mut text = String::new(alloc);
    File::open(rt, path)?.read_to_string(&mut text)?;
    Ok(text)
}

/// Says whether a process is in the session of a child's number, or has that number.
fn is_near(process: &Process, children: &[Child]) -> bool {
    children.iter().any(|child| child.number == process.number || child.number == process.session)
}

/// Asks whether a process has the variables of a method. Those of another user's process cannot be read, and count as
/// none. So do those of a process that has ended.
fn has_method<R: Files<File = File>>(alloc: Global, rt: &R, folder: &str) -> io::Result<bool> {
    let path = format!(in alloc; "{folder}/environ")?;
    match if_seen(bytes_of(alloc, rt, path.as_str()))? {
        Some(variables) => Ok(is_method(&variables)),
        None => Ok(false),
    }
}

/// The process with this folder, as the system tells of it. None if it ended meanwhile, if nobody but its user may see
/// it, or if it is not near the children.
fn process_in<R: Files<File = File>>(
    alloc: Global,
    rt: &R,
    folder: &str,
    children: &[Child],
) -> io::Result<Option<Process>> {
    let path = format!(in alloc; "{folder}/stat")?;
    let Some(stat) = if_seen(bytes_of(alloc, rt, path.as_str()))? else {
        return Ok(None);
    };
    let Some(mut process) = read_stat(&stat) else {
        return Err(io::Error::from(io::ErrorKind::InvalidData));
    };
    if !is_near(&process, children) {
        return Ok(None);
    }
    process.is_method = has_method(alloc, rt, folder)?;
    Ok(Some(process))
}

fn is_number(name: &str) -> bool {
    name.bytes().all(|byte| byte.is_ascii_digit())
}

/// The kit says nothing of files, nor of programs. So these bodies are trusted: each asks the system once, for what its
/// name says, and tells what that answered.
impl<R: Processes + Files<File = File> + Clock + AllocGlobal + Clone + Drop> Survey for R {
    ghost tells = { λ _ _ _. Unit {0} };

    fn boot(&mut self, alloc: Global) -> io::Result<String> {
        match text_of(alloc, &*self, "/proc/sys/kernel/random/boot_id") {
            Ok(text) => Ok(format!(in alloc; "{}", text.as_str().trim())?),
            Err(e) if e.kind() == io::ErrorKind::NotFound => Ok(format!(in alloc; "-")?),
            Err(e) => Err(e),
        }
    }

    fn list(&mut self, alloc: Global, path: &str) -> io::Result<Option<String>> {
        match text_of(alloc, &*self, path) {
            Ok(text) => Ok(Some(text)),
            Err(e) if e.kind() == io::ErrorKind::NotFound => Ok(None),
            Err(e) => Err(e),
        }
    }

    fn look(&mut self, alloc: Global, children: &[Child]) -> io::Result<Vec<Process>> {
        let mut found = Vec::new(alloc);
        for entry in fs::read_dir(&*self, "/proc")? {
            let entry = entry?;
            if is_number(entry.file_name()) {
                if let Some(process) = process_in(alloc, &*self, entry.path().as_str(), children)? {
                    found.push(process)?;
                }
            }
        }
        Ok(found)
    }

    fn end(&mut self, alloc: Global, left: &[Process]) -> io::Result<()> {
        let mut program = ender(alloc, left)?;
        let _status = program.status(&*self)?;
        Ok(())
    }

    fn empty(&mut self, path: &str) -> io::Result<()> {
        let _file = File::options()
            .write(true)
            .create(true)
            .truncate(true)
            .mode(0o600)
            .open(&*self, path)?;
        Ok(())
    }

    fn remove(&mut self, path: &str) -> io::Result<()> {
        fs::remove_file(&*self, path)
    }

    fn pause(&self) {
        thread::sleep(self, Duration::from_millis(10));
    }
}
