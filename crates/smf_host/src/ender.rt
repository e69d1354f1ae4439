// How contracts are ended and logs are renamed, as a file in their folder has it.
use crate::room_file::RoomFile;
use smf_watch::{Ender, LogLimit, Stop, Term, UntimedMethods};
use std::alloc::{AllocError, Global};
use std::rt::HostRuntime;

/// A file in the folder of contracts, by which `smf_hold` knows how they are ended, when logs are renamed, and which methods
/// name no time-out.
#[derive(Drop)]
pub struct FileEnder<'a> {
    rt: &'a HostRuntime,
    file: RoomFile<'a>,
}

/// The instance, the signal, and the seconds, which are 0 if there is no time-out. A last word says that the first process
/// stays.
fn stop_line(alloc: Global, stop: &Stop) -> Result<String, AllocError> {
    let seconds = match stop.timeout {
        Some(timeout) => timeout.seconds(),
        None => 0,
    };
    let child = if stop.child { " child" } else { "" };
    format!(in alloc; "{} {} {seconds}{child}\n", stop.instance, stop.signal)
}

/// A number, or a minus if there is none.
fn push_number(alloc: Global, text: &mut String, number: Option<u64>) -> Result<(), AllocError> {
    match number {
        Some(number) => text.push_str(format!(in alloc; " {number}")?.as_str()),
        None => text.push_str(" -"),
    }
}

/// The instance, `log`, the most bytes of its log, and how many are kept; nothing, if the instance names neither.
fn log_line(alloc: Global, limit: &LogLimit) -> Result<String, AllocError> {
    if limit.most.is_none() && limit.kept.is_none() {
        return Ok(String::new(alloc));
    }
    let mut line = format!(in alloc; "{} log", limit.instance)?;
    push_number(alloc, &mut line, limit.most)?;
    push_number(alloc, &mut line, limit.kept)?;
    line.push_str("\n")?;
    Ok(line)
}

/// The instance, `untimed`, and the methods that name no time-out; nothing, if each names one.
fn untimed_line(alloc: Global, methods: &UntimedMethods) -> Result<String, AllocError> {
    if !methods.start && !methods.stop && !methods.refresh {
        return Ok(String::new(alloc));
    }
    let mut line = format!(in alloc; "{} untimed", methods.instance)?;
    if methods.start {
        line.push_str(" start")?;
    }
    if methods.stop {
        line.push_str(" stop")?;
    }
    if methods.refresh {
        line.push_str(" refresh")?;
    }
    line.push_str("\n")?;
    Ok(line)
}

/// A line for each.
fn lines_of(alloc: Global, terms: &[Term]) -> Result<String, AllocError> {
    let mut text = String::new(alloc);
    for term in terms {
        let line = match term {
            Term::Stops(stop) => stop_line(alloc, stop)?,
            Term::Logs(limit) => log_line(alloc, limit)?,
            Term::Untimed(methods) => untimed_line(alloc, methods)?,
        };
        text.push_str(line.as_str())?;
    }
    Ok(text)
}

impl<'a> Ender for FileEnder<'a> {
    ghost use Rattle.std.specs.Prelude.{None};

    ghost told = { λ _. None };

    /// Writes the terms, unless they are the same as before. If they cannot be written, contracts are kept as before.
    fn keep_by(&mut self, terms: &[Term]) {
        if let Ok(text) = lines_of(self.rt.alloc(), terms) {
            let _written = self.file.write(text);
        }
    }
}

/// The file in the folder of contracts, of which nothing is written yet.
pub fn ender_in<'a>(rt: &'a HostRuntime, room: &'a str) -> FileEnder<'a> {
    FileEnder {
        rt,
        file: RoomFile::new(rt, room, "terms"),
    }
}
