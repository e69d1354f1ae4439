// The desk of a server: requests in a folder, and replies to them.
use crate::pace::Pace;
use crate::pipe::{Call, Pipe};
use crate::stop::OrderedStop;
use smf_lines::tell;
use smf_model::{Journal, Plain};
use smf_watch::{Desk, ServerInput};
use std::fs::File;
use std::io::{ErrorKind, Read, Write};
use std::os::unix::fs::OpenOptionsExt;
use std::rt::{Clock, HostRuntime};
use std::time::Duration;
use std::{fs, io};

/// The status of a request that is not done.
const REFUSED: u8 = 1;

/// The status of a request for which there is no memory.
const LACKING: u8 = 3;

/// The status of a request whose text cannot be written.
const UNWRITTEN: u8 = 4;

/// The most bytes of a path in the folder after that of the folder.
const MOST_MORE: usize = 96;

/// What is told of a store that failed.
const STORE_FAILED: &str = "smf: store: database failed";

/// A disk that takes so many bytes more is not full.
const ROOM: usize = 16_384;

/// The most bytes of a request.
const MAX_REQUEST: u64 = 4_194_304;

/// Requests in a folder, and replies to them. A line of a pipe says that one has come. A reply takes no memory of the program.
#[derive(Drop)]
pub struct FileDesk<'a> {
    rt: &'a HostRuntime,
    folder: &'a str,
    /// What is asked; its name is that of the request that was given last.
    wake: Pipe,
    pace: Pace,
    /// The path of a file, for which there has been room since this was opened.
    path: String,
    /// True if a read of the pipe failed.
    failed: bool,
    /// The name of a file on the disk of the store, if that is known.
    probe: Option<String>,
    /// True if the last fault that was told is one of the store.
    store_failed: bool,
    /// True if another server should take over.
    leaves: bool,
    /// The stop of all services, once it was asked for.
    stop: Option<OrderedStop<'a>>,
}

/// The path of a file in a folder of a folder, by its name and what stands after that.
fn path_in<'p>(
    path: &'p mut String,
    folder: &str,
    inner: &str,
    name: &str,
    after: &str,
) -> io::Result<&'p str> {
    path.clear();
    for part in [folder, inner, name, after] {
        path.push_str(part)?;
    }
    Ok(path.as_str())
}

/// Writes a status as a line, in one write.
fn write_status(told: &mut File, status: u8) -> io::Result<()> {
    let line = [
        b'0' + status / 100,
        b'0' + status / 10 % 10,
        b'0' + status % 10,
        b'\n',
    ];
    let first = if status >= 100 {
        0
    } else if status >= 10 {
        1
    } else {
        2
    };
    told.write_all(&line[first..])
}

/// Writes a file, and removes it. False if the disk is full.
fn has_room(rt: &HostRuntime, path: &str) -> bool {
    let zeros = [0; ROOM];
    let written = fs::write(rt, path, zeros);
    let _removed = fs::remove_file(rt, path);
    written.is_ok()
}

/// The time of the clock, if it can be read.
fn time_of(rt: &HostRuntime) -> Option<Duration> {
    rt.monotonic().ok()
}

impl<'a> FileDesk<'a> {
    /// Opens the pipe `wake` of a folder.
    pub fn open(rt: &'a HostRuntime, folder: &'a str) -> io::Result<FileDesk<'a>> {
        let alloc = rt.alloc();
        let path = format!(in alloc; "{folder}/wake")?;
        Ok(FileDesk {
            rt,
            folder,
            wake: Pipe::open(rt, path.as_str())?,
            pace: Pace::new(rt, time_of(rt)),
            path: String::with_capacity(alloc, folder.len() + MOST_MORE)?,
            failed: false,
            probe: None,
            store_failed: false,
            leaves: false,
            stop: None,
        })
    }

    /// Names a file on the disk of the store, which tells whether that is full.
    pub fn set_probe(&mut self, path: String) {
        self.probe = Some(path);
    }

    /// True if the store has failed, and not for want of room: it may be closed for good, and another server opens it anew.
    fn is_hopeless(&self) -> bool {
        match &self.probe {
            Some(path) => self.store_failed && has_room(self.rt, path.as_str()),
            None => false,
        }
    }

    /// The folder of the requests.
    pub fn folder(&self) -> &'a str {
        self.folder
    }

    /// Replies to the request that was given last, also if nothing is held. False if the text could not be written.
    pub fn refuse(&mut self, text: &[u8], status: u8) -> bool {
        self.write(text, status).unwrap_or(false)
    }

    /// Whether a read of the pipe has failed.
    pub fn has_failed(&self) -> bool {
        self.failed
    }

    /// Waits for a call. None if a tick is due before one comes.
    fn call(&mut self) -> Option<Call> {
        let now = time_of(self.rt);
        let left = self.pace.left(now);
        if left.is_zero() || !self.wake.wait(self.rt, left) {
            return None;
        }
        match self.wake.read() {
            Ok(call) => Some(call),
            Err(_) => {
                // Nothing can be read from this pipe: the next server opens another.
                self.failed = true;
                Some(Call::Leave)
            }
        }
    }

    /// True if a client waits for the answer. It then holds the lock of the file into which the status goes, or that is a pipe.
    /// Without such a file nobody hears the answer, and the request is done all the same.
    fn is_awaited(&mut self) -> io::Result<bool> {
        let path = path_in(
            &mut self.path,
            self.folder,
            "/replies/",
            self.wake.name(),
            "",
        )?;
        if !fs::metadata(self.rt, path)?.is_file() {
            return Ok(true);
        }
        let answer = File::open(self.rt, path)?;
        Ok(answer.try_lock_shared().is_err())
    }

    /// Removes the request and the answer of a client that has ended since it asked.
    fn forget(&mut self) -> io::Result<()> {
        for inner in ["/requests/", "/replies/"] {
            let path = path_in(&mut self.path, self.folder, inner, self.wake.name(), "")?;
            let _removed = fs::remove_file(self.rt, path);
        }
        Ok(())
    }

    /// The script of a request, which is gone then, also if it cannot be read. One that is too long is read a little past
    /// the most.
    fn script(&mut self) -> io::Result<Vec<u8>> {
        let path = path_in(
            &mut self.path,
            self.folder,
            "/requests/",
            self.wake.name(),
            "",
        )?;
        let file = File::open(self.rt, path)?;
        fs::remove_file(self.rt, path)?;
        let mut script: Vec<u8> = Vec::new(self.rt.alloc());
        let _count = file.take(MAX_REQUEST + 1).read_to_end(&mut script)?;
        Ok(script)
    }

    /// A request. One that cannot be read, or is too long, is refused. None if its client has ended.
    fn ask(&mut self) -> Option<ServerInput> {
        if !self.is_awaited().unwrap_or(true) {
            let _forgotten = self.forget();
            return None;
        }
        let (words, status) = match self.script() {
            Ok(script) if script.len() as u64 > MAX_REQUEST => ("smf: request too long\n", REFUSED),
            Ok(script) => return Some(ServerInput::Request(script)),
            Err(fault) if fault.kind() == ErrorKind::OutOfMemory => ("smf: no memory\n", LACKING),
            Err(_) => ("smf: request cannot be read\n", REFUSED),
        };
        let _is_written = self.refuse(words.as_bytes(), status);
        None
    }

    /// The script that a stop of all services asks for now. One for which there is no memory comes later.
    fn stop_script(&mut self) -> Option<Vec<u8>> {
        match &mut self.stop {
            Some(stop) => stop.script().unwrap_or(None),
            None => None,
        }
    }

    /// A stop of all services begins, unless one is under way.
    fn begin_stop(&mut self) -> Option<ServerInput> {
        if self.stop.is_none() {
            self.stop = Some(OrderedStop::new(self.rt, self.folder));
        }
        self.pace.ask(time_of(self.rt));
        self.stop_script().map(ServerInput::Request)
    }

    /// Time has passed.
    fn tick(&mut self) -> ServerInput {
        self.pace.tick();
        if let Some(stop) = &mut self.stop {
            stop.tick();
            self.pace.ask(time_of(self.rt));
        }
        ServerInput::Tick
    }

    /// What comes next, if a call asks for anything or a tick is due.
    fn input(&mut self) -> Option<ServerInput> {
        match self.call() {
            None => Some(self.tick()),
            Some(Call::Ring) => {
                self.pace.ring(time_of(self.rt));
                None
            }
            Some(Call::Named) => {
                self.pace.ask(time_of(self.rt));
                self.ask()
            }
            Some(Call::End) => Some(ServerInput::End),
            Some(Call::Leave) => Some(ServerInput::Leave),
            Some(Call::Stop) => self.begin_stop(),
            Some(Call::Other) => None,
        }
    }

    /// The text goes into a file.
    fn write_text(&mut self, text: &[u8]) -> io::Result<()> {
        let path = path_in(
            &mut self.path,
            self.folder,
            "/replies/",
            self.wake.name(),
            ".text",
        )?;
        let mut file = File::options()
            .write(true)
            .create_new(true)
            .mode(0o600)
            .open(self.rt, path)?;
        match file.write_all(text) {
            Ok(()) => Ok(()),
            Err(fault) => {
                // A part of the text is no answer.
                let _removed = fs::remove_file(self.rt, path);
                Err(fault)
            }
        }
    }

    /// The text goes into a file, and its status into the pipe of the client. If the file cannot be written, the status
    /// says that, and this is false. For a client that is gone no file is made.
    fn write(&mut self, text: &[u8], status: u8) -> io::Result<bool> {
        // The client has its pipe open, so that a write never waits.
        let pipe = path_in(
            &mut self.path,
            self.folder,
            "/replies/",
            self.wake.name(),
            "",
        )?;
        let mut told = File::options().read(true).write(true).open(self.rt, pipe)?;
        let is_written = self.write_text(text).is_ok();
        let status = if is_written { status } else { UNWRITTEN };
        write_status(&mut told, status)?;
        Ok(is_written)
    }
}

impl<'a> Desk for FileDesk<'a> {
    ghost use Rattle.std.specs.Prelude.{None};

    ghost passed = { λ _. None };

    ghost leaves = { λ _ _ _. ⊥ };

    fn next(&mut self) -> ServerInput {
        self.pace.end_turn();
        if self.leaves {
            return ServerInput::Leave;
        }
        if let Some(script) = self.stop_script() {
            return ServerInput::Request(script);
        }
        for _ in 0..u64::MAX {
            if let Some(input) = self.input() {
                return input;
            }
        }
        ServerInput::End
    }

    fn reply<J: Journal>(&mut self, repository: &Plain<J>, text: &[u8], status: u8) -> bool {
        match &mut self.stop {
            Some(stop) if stop.is_asking() => {
                stop.hear(repository);
                true
            }
            _ => self.refuse(text, status),
        }
    }

    fn tell(&mut self, line: &str) {
        self.store_failed = line == STORE_FAILED;
        let _status = tell(&mut self.rt.stderr(), line);
    }

    fn pause(&mut self) {
        self.pace.fail();
        self.leaves = self.is_hopeless();
    }
}
