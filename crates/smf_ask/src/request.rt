//! A request in the folder of a server, and its answer.

use crate::fault::{AskFault, if_given, told};
use crate::place::Place;
use libc::net::poll;
use libc::types::pollfd;
use std::fs::File;
use std::io::{ErrorKind, Write};
use std::os::fd::AsRawFd;
use std::os::unix::fs::{FileExt, OpenOptionsExt};
use std::rt::{Clock, HostRuntime};
use std::time::Duration;
use std::{fs, io, thread};

/// The event of poll that there is room to write.
const POLLOUT: i16 = 4;

/// The status if the server cannot write its answer.
const UNWRITTEN: u8 = 4;

/// The first pause between two looks for an answer, in microseconds. Each is a quarter longer than the one before.
const FIRST: u64 = 100;

/// The longest pause, in microseconds.
const LONGEST: u64 = 10_000;

/// After so many milliseconds it is looked whether the server has ended, and after as many again.
const LOOK: u64 = 50;

/// After so many milliseconds without an answer a client says so, and waits on.
const SILENCE: u64 = 5_000;

/// The most bytes of the line of an answer.
const LINE: usize = 8;

/// The most names that are tried for a request.
const NAMES: u64 = 100;

/// What a server answered.
#[derive(Drop)]
pub(crate) struct Reply {
    pub(crate) text: Vec<u8>,
    pub(crate) status: u8,
}

/// A request that was asked, and the files of its answer.
#[derive(Drop)]
struct Request<'a> {
    rt: &'a HostRuntime,
    place: &'a Place,
    /// The folder of the server, by the name that the client was given.
    folder: &'a str,
    /// The file with the script, as long as the server has not taken it.
    script: String,
    /// The file into which the server writes the status. As long as this client lives it holds the file's lock: without it
    /// the server does not do the request.
    answer: File,
    answer_path: String,
    text_path: String,
    name: String,
}

/// Milliseconds since some moment.
fn now(rt: &HostRuntime) -> u64 {
    let now = rt.monotonic().unwrap_or(Duration::from_secs(0));
    u64::try_from(now.as_millis()).unwrap_or(u64::MAX)
}

/// Nanoseconds since some moment.
fn mark(rt: &HostRuntime) -> u64 {
    let now = rt.monotonic().unwrap_or(Duration::from_secs(0));
    u64::try_from(now.as_nanos()).unwrap_or(u64::MAX)
}

/// The number of this process, by which whoever started it knows the request.
fn process_number(rt: &HostRuntime) -> Result<String, AskFault> {
    let alloc = rt.alloc();
    let stat = if_given(fs::read_to_string(rt, "/proc/self/stat"))?;
    let number = match &stat {
        Some(stat) => stat.as_str().split(' ').next().unwrap_or(""),
        None => "",
    };
    Ok(format!(in alloc; "{number}")?)
}

/// A new file for this user alone, with a lock.
fn new_file(rt: &HostRuntime, path: &str) -> io::Result<File> {
    let file = File::options()
        .read(true)
        .write(true)
        .create_new(true)
        .mode(0o600)
        .open(rt, path)?;
    match file.try_lock() {
        Ok(()) => Ok(file),
        Err(_) => Err(io::Error::from(ErrorKind::WouldBlock)),
    }
}

/// The server has ended.
fn lost<T>(rt: &HostRuntime, folder: &str) -> Result<T, AskFault> {
    told(format!(in rt.alloc(); "the server at {folder} has ended"))
}

/// A request cannot be written: the disk is full, or the folder is gone with its server.
fn unwritten<T>(rt: &HostRuntime, folder: &str, place: &Place) -> Result<T, AskFault> {
    let alloc = rt.alloc();
    let path = format!(in alloc; "{}/requests", place.run.as_str())?;
    match if_given(fs::metadata(rt, path.as_str()))? {
        Some(_) => told(format!(in alloc; "no request can be written in {}", place.run.as_str())),
        None => lost(rt, folder),
    }
}

/// The status that a line says, if it has come to its end.
fn status_in(line: &[u8]) -> Option<u8> {
    let mut status: u8 = 0;
    for byte in line {
        match *byte {
            b'\n' => return Some(status),
            b'0'..=b'9' => status = status.saturating_mul(10).saturating_add(*byte - b'0'),
            _ => return Some(u8::MAX),
        }
    }
    None
}

/// A pause that is a quarter longer, up to the longest.
fn longer(pause: u64) -> u64 {
    pause.saturating_add(pause / 4).min(LONGEST)
}

/// Makes the file of an answer, and then the one of the request. No two requests have one name.
fn open<'a>(
    rt: &'a HostRuntime,
    folder: &'a str,
    place: &'a Place,
    script: &[u8],
) -> Result<Request<'a>, AskFault> {
    let alloc = rt.alloc();
    let run = place.run.as_str();
    let (process, first) = (process_number(rt)?, mark(rt));
    for more in 0..NAMES {
        let name = format!(in alloc; "c{}-{}", process.as_str(), first.wrapping_add(more))?;
        let path = format!(in alloc; "{run}/replies/{}", name.as_str())?;
        match new_file(rt, path.as_str()) {
            Ok(answer) => {
                let request = Request {
                    rt,
                    place,
                    folder,
                    script: format!(in alloc; "{run}/requests/{}", name.as_str())?,
                    answer,
                    text_path: format!(in alloc; "{}.text", path.as_str())?,
                    answer_path: path,
                    name,
                };
                return request.with_script(script);
            }
            Err(fault) if fault.kind() == ErrorKind::AlreadyExists => {}
            Err(fault) if fault.kind() == ErrorKind::OutOfMemory => return Err(AskFault::Memory),
            Err(_) => return unwritten(rt, folder, place),
        }
    }
    unwritten(rt, folder, place)
}

impl<'a> Request<'a> {
    /// Removes what is left of the request and its answer.
    fn remove(&self) {
        let _script = fs::remove_file(self.rt, self.script.as_str());
        let _answer = fs::remove_file(self.rt, self.answer_path.as_str());
        let _text = fs::remove_file(self.rt, self.text_path.as_str());
    }

    /// Writes the script. If that fails, nothing of the request is left.
    fn with_script(self, script: &[u8]) -> Result<Request<'a>, AskFault> {
        let made = File::options()
            .write(true)
            .create_new(true)
            .mode(0o600)
            .open(self.rt, self.script.as_str());
        let written = match made {
            Ok(mut file) => file.write_all(script),
            Err(fault) => Err(fault),
        };
        if written.is_ok() {
            return Ok(self);
        }
        self.remove();
        unwritten(self.rt, self.folder, self.place)
    }

    /// Tells the server that there is a request. The first end of a line ends what another client may have left half written. Both
    /// go in one write. False if the pipe is full, so that a write would wait.
    fn ring(&self, pipe: &mut File, line: &str) -> io::Result<bool> {
        let mut asked = [pollfd {
            fd: pipe.as_raw_fd(),
            events: POLLOUT,
            revents: 0,
        }];
        if poll(&mut asked, 0) != 1 || asked[0].revents & POLLOUT == 0 {
            return Ok(false);
        }
        pipe.write_all(line.as_bytes())?;
        Ok(true)
    }

    /// Tells the server that there is a request, once its pipe has room. False if it has ended.
    fn call(&self) -> Result<bool, AskFault> {
        let alloc = self.rt.alloc();
        let path = format!(in alloc; "{}/wake", self.place.run.as_str())?;
        let line = format!(in alloc; "\n{}\n", self.name.as_str())?;
        let opened = File::options()
            .read(true)
            .write(true)
            .open(self.rt, path.as_str());
        let Some(mut pipe) = if_given(opened)? else {
            return Ok(false);
        };
        for _ in 0..u64::MAX {
            match if_given(self.ring(&mut pipe, line.as_str()))? {
                Some(true) => return Ok(true),
                Some(false) if !self.place.has_ended() => {
                    thread::sleep(self.rt, Duration::from_millis(LOOK));
                }
                _ => return Ok(false),
            }
        }
        Ok(false)
    }

    /// The status, if it has come.
    fn status(&self) -> Result<Option<u8>, AskFault> {
        let mut line = [0; LINE];
        let count = if_given(self.answer.read_at(&mut line, 0))?.unwrap_or(0);
        Ok(status_in(&line[..count.min(LINE)]))
    }

    /// Tells that no answer has come for a while.
    fn say_late(&self, program: &str) {
        let taken = match fs::metadata(self.rt, self.script.as_str()) {
            Ok(_) => "it has not taken the request",
            Err(_) => "it has taken the request",
        };
        let _told = eprintln!(self.rt;
            "{program}: the server at {} does not answer: {taken}",
            self.folder
        );
    }

    /// The status, once it has come. None if the server has ended without one.
    fn await_status(&self, program: &str) -> Result<Option<u8>, AskFault> {
        let began = now(self.rt);
        let mut pause = FIRST;
        let mut look = LOOK;
        let mut is_late = false;
        for _ in 0..u64::MAX {
            if let Some(status) = self.status()? {
                return Ok(Some(status));
            }
            let waited = now(self.rt).saturating_sub(began);
            if waited >= look {
                look = waited.saturating_add(LOOK);
                if self.place.has_ended() {
                    return self.status();
                }
            }
            if waited >= SILENCE && !is_late {
                is_late = true;
                self.say_late(program);
            }
            thread::sleep(self.rt, Duration::from_micros(pause));
            pause = longer(pause);
        }
        Ok(None)
    }

    /// The text of the answer. None if there is no file with it.
    fn text(&self) -> Result<Option<Vec<u8>>, AskFault> {
        if_given(fs::read(self.rt, self.text_path.as_str()))
    }

    /// Waits for the answer.
    fn reply(&self, program: &str) -> Result<Reply, AskFault> {
        if !self.call()? {
            return lost(self.rt, self.folder);
        }
        match self.await_status(program)? {
            Some(UNWRITTEN) => told(format!(in self.rt.alloc();
                "the server at {} cannot write its answer",
                self.folder
            )),
            Some(status) => match self.text()? {
                Some(text) => Ok(Reply { text, status }),
                None => lost(self.rt, self.folder),
            },
            None => lost(self.rt, self.folder),
        }
    }
}

/// Asks a server by a script, and waits for its answer. Nothing of both is left. `program` is who says that it takes long.
pub(crate) fn ask(
    rt: &HostRuntime,
    folder: &str,
    place: &Place,
    program: &str,
    script: &[u8],
) -> Result<Reply, AskFault> {
    let request = open(rt, folder, place, script)?;
    let reply = request.reply(program);
    request.remove();
    reply
}
