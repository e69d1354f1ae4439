// The room at the kit: folders, files, locks and pipes.
ghost use Rattle.smf_room.specs.Tellings.{Call};
ghost use Rattle.std.specs.Prelude.{None};

use crate::note::{Note, field_in, note_text, read_note};
use crate::process::Process;
use crate::room::{Marks, Room};
use crate::token::{Token, name_of, read_token};
use libc::net::poll;
use libc::types::pollfd;
use smf_fmri::read_count;
use std::alloc::{AllocError, AllocGlobal, Global};
use std::env::VarError;
use std::fs::{DirBuilder, File, TryLockError};
use std::io::{Read, Stderr, Write};
use std::os::fd::AsRawFd;
use std::os::unix::fs::{DirBuilderExt, OpenOptionsExt};
use std::process::{Child, Command, Processes, Stdio};
use std::rt::{Clock, Env, Files};
use std::time::Duration;
use std::{env, fs, io, str, thread};

/// The event of poll that there is something to read.
const POLLIN: i16 = 1;

/// The event of poll that something may be written.
const POLLOUT: i16 = 4;

/// So many bytes of news are read at once. If there are as many, there may be more.
const MOST_NEWS: usize = 1024;

/// So many names of a control group are tried.
const NAMES: u32 = 100;

/// The bytes of the secret in a contract's mark.
const SECRET: usize = 16;

/// ESRCH: there is no such process.
const NO_PROCESS: i32 = 3;

/// The folder of a room. A contract is a folder in it that is called as its number.
#[derive(Drop)]
pub struct Folder<R: Processes> {
    alloc: Global,
    rt: R,
    path: String,
    /// The folder of all control groups of this room, if each contract has one.
    groups: Option<String>,
    /// The path of the program smf_hold.
    holder: String,
    /// The holder's output goes there.
    output: Stderr,
    /// The room is this server's as long as this is open.
    _server: File,
    /// A holder that this server began and has not waited for.
    child: Option<Child<R::Started>>,
    lock: Option<File>,
}

fn unclear() -> io::Error {
    io::Error::from(io::ErrorKind::InvalidData)
}

/// None in place of a file that is not there.
fn if_there<T: Drop>(answer: io::Result<T>) -> io::Result<Option<T>> {
    match answer {
        Ok(value) => Ok(Some(value)),
        Err(e) if e.kind() == io::ErrorKind::NotFound => Ok(None),
        Err(e) => Err(e),
    }
}

fn read_all(alloc: Global, mut file: File) -> io::Result<String> {
    let mut text = String::new(alloc);
    file.read_to_string(&mut text)?;
    Ok(text)
}

/// The text of a file. None if it is not there.
fn text_of<R: Files<File = File>>(alloc: Global, rt: &R, path: &str) -> io::Result<Option<String>> {
    match if_there(File::open(rt, path))? {
        Some(file) => Ok(Some(read_all(alloc, file)?)),
        None => Ok(None),
    }
}

fn bytes_of<R: Files<File = File>>(alloc: Global, rt: &R, path: &str) -> io::Result<Vec<u8>> {
    let mut bytes = Vec::new(alloc);
    File::open(rt, path)?.read_to_end(&mut bytes)?;
    Ok(bytes)
}

/// None in place of what is not to be seen of a process: it ended, or its user alone may see it.
fn if_seen<T: Drop>(answer: io::Result<T>) -> io::Result<Option<T>> {
    match answer {
        Ok(value) => Ok(Some(value)),
        Err(e) if e.kind() == io::ErrorKind::NotFound => Ok(None),
        Err(e) if e.kind() == io::ErrorKind::PermissionDenied => Ok(None),
        Err(e) if e.raw_os_error() == Some(NO_PROCESS) => Ok(None),
        Err(e) => Err(e),
    }
}

fn has_variable(variables: &[u8], wanted: &str) -> bool {
    variables
        .split(|byte| *byte == 0)
        .any(|variable| variable == wanted.as_bytes())
}

/// Makes a file that was not there, with this text.
fn make_file<R: Files<File = File>>(rt: &R, path: &str, text: &str) -> io::Result<()> {
    let mut file = File::options()
        .write(true)
        .create_new(true)
        .mode(0o600)
        .open(rt, path)?;
    file.write_all(text.as_bytes())
}

/// Makes a folder for its owner alone, if it is not there.
fn make_folder<R: Files>(rt: &R, path: &str) -> io::Result<()> {
    match DirBuilder::new().mode(0o700).create(rt, path) {
        Err(e) if e.kind() == io::ErrorKind::AlreadyExists => Ok(()),
        made => made,
    }
}

/// Opens a file, which is made if it is not there.
fn touch<R: Files<File = File>>(rt: &R, path: &str) -> io::Result<File> {
    File::options()
        .write(true)
        .create(true)
        .mode(0o600)
        .open(rt, path)
}

/// Gives a program a variable that this process has.
fn pass_variable<R: Env + AllocGlobal>(
    rt: &R,
    program: &mut Command,
    name: &str,
) -> Result<(), AllocError> {
    match env::var(rt, name) {
        Ok(value) => {
            program.env(name, value.as_str())?;
            Ok(())
        }
        Err(VarError::OutOfMemory) => Err(AllocError),
        Err(_) => Ok(()),
    }
}

/// True if a pipe can be read or written without waiting, as the event says.
fn is_ready(pipe: &File, event: i16) -> bool {
    let mut asked = [pollfd {
        fd: pipe.as_raw_fd(),
        events: event,
        revents: 0,
    }];
    poll(&mut asked, 0) == 1
}

/// Adds the numbers that stand in lines.
fn add_numbers(lines: &[u8], numbers: &mut Vec<u64>) -> Result<(), AllocError> {
    for line in lines.split(|byte| *byte == b'\n') {
        let text = str::from_utf8(line).unwrap_or("");
        if let Some(number) = read_count(text) {
            numbers.push(number)?;
        }
    }
    Ok(())
}

/// Writes a line into a pipe that is there, if it takes one at once. The pipe is opened both ways, so that nothing waits.
fn write_line<R: Files<File = File>>(rt: &R, path: &str, line: &str) -> io::Result<bool> {
    let Some(mut pipe) = if_there(File::options().read(true).write(true).open(rt, path))? else {
        return Ok(false);
    };
    if !is_ready(&pipe, POLLOUT) {
        return Ok(false);
    }
    pipe.write_all(line.as_bytes())?;
    Ok(true)
}

/// True if the lock was taken, false if somebody else has it.
fn is_taken(answer: Result<(), TryLockError>) -> io::Result<bool> {
    match answer {
        Ok(()) => Ok(true),
        Err(TryLockError::WouldBlock) => Ok(false),
        Err(TryLockError::Error(e)) => Err(e),
    }
}

/// What a group's events say of its processes.
fn has_process(events: &str) -> io::Result<bool> {
    if events.starts_with("populated 1\n") {
        Ok(true)
    } else if events.starts_with("populated 0\n") {
        Ok(false)
    } else {
        Err(unclear())
    }
}

impl<R: Processes + Env + Files<File = File> + Clock + AllocGlobal + Clone + Drop> Folder<R> {
    /// Takes the room of a folder, which is made if it is not there. None if another server has it. Each contract that is
    /// made gets a control group in `groups`, the folder of all groups of this room, if there is one. `holder` is the path
    /// of the program smf_hold.
    pub fn take(
        alloc: Global,
        rt: R,
        path: &str,
        groups: Option<String>,
        holder: &str,
        output: Stderr,
    ) -> io::Result<Option<Folder<R>>> {
        make_folder(&rt, path)?;
        let server = format!(in alloc; "{path}/server")?;
        let server = touch(&rt, server.as_str())?;
        if !is_taken(server.try_lock())? {
            return Ok(None);
        }
        Ok(Some(Folder {
            alloc,
            rt,
            path: format!(in alloc; "{path}")?,
            groups,
            holder: format!(in alloc; "{holder}")?,
            output,
            _server: server,
            child: None,
            lock: None,
        }))
    }

    /// True if a holder that this server began has not ended. One that has is waited for.
    fn has_child(&mut self) -> io::Result<bool> {
        let Some(child) = &mut self.child else {
            return Ok(false);
        };
        let ended = child.try_wait()?.is_some();
        if ended {
            self.child = None;
        }
        Ok(!ended)
    }

    /// True if somebody has the lock of the holder.
    fn has_holder(&self) -> io::Result<bool> {
        let path = self.in_room("hold")?;
        match if_there(File::open(&self.rt, path.as_str()))? {
            Some(lock) => Ok(!is_taken(lock.try_lock_shared())?),
            None => Ok(false),
        }
    }

    /// Adds the numbers of contracts that the holder and the keepers told of since. True if some may be lacking: there is
    /// no holder, which keeps what is told, or a look took less than what waits.
    fn read_news(&self, ids: &mut Vec<u64>) -> io::Result<bool> {
        if !self.has_holder()? {
            return Ok(true);
        }
        let path = self.in_room("news")?;
        let mut pipe = File::options()
            .read(true)
            .write(true)
            .open(&self.rt, path.as_str())?;
        if !is_ready(&pipe, POLLIN) {
            return Ok(false);
        }
        let mut lines = [0; MOST_NEWS];
        let count = pipe.read(&mut lines)?;
        add_numbers(&lines[..count], ids)?;
        Ok(count == MOST_NEWS)
    }

    /// Begins a holder, with few variables.
    fn begin_holder(&self) -> io::Result<Child<R::Started>> {
        let mut program = Command::new(self.alloc, "/usr/bin/perl")?;
        program.arg(self.holder.as_str())?;
        program.arg(self.path.as_str())?;
        program.env_clear();
        program.env("PATH", "/usr/sbin:/usr/bin:/sbin:/bin")?;
        pass_variable(&self.rt, &mut program, "SMF_PATIENCE")?;
        pass_variable(&self.rt, &mut program, "SMF_LOG_MAX")?;
        pass_variable(&self.rt, &mut program, "SMF_LOG_KEEP")?;
        pass_variable(&self.rt, &mut program, "SMF_METHOD_TIMEOUT")?;
        program.stdin(Stdio::null());
        program.stdout(self.output);
        program.stderr(self.output);
        program.spawn(&self.rt)
    }

    fn in_room(&self, name: &str) -> io::Result<String> {
        let path = self.path.as_str();
        Ok(format!(in self.alloc; "{path}/{name}")?)
    }

    fn folder_of(&self, id: u64) -> io::Result<String> {
        let path = self.path.as_str();
        Ok(format!(in self.alloc; "{path}/{id}")?)
    }

    fn in_contract(&self, id: u64, name: &str) -> io::Result<String> {
        let path = self.path.as_str();
        Ok(format!(in self.alloc; "{path}/{id}/{name}")?)
    }

    fn token_path(&self, id: u64, token: Token) -> io::Result<String> {
        let name = name_of(self.alloc, token)?;
        self.in_contract(id, name.as_str())
    }

    fn text_of_note(&self, id: u64) -> io::Result<Option<String>> {
        let path = self.in_contract(id, "note")?;
        text_of(self.alloc, &self.rt, path.as_str())
    }

    /// The control group that a contract's note names.
    fn group_of(&self, id: u64) -> io::Result<Option<String>> {
        let Some(text) = self.text_of_note(id)? else {
            return Ok(None);
        };
        match field_in(text.as_str(), "group=") {
            Some(group) => Ok(Some(format!(in self.alloc; "{group}")?)),
            None => Ok(None),
        }
    }

    /// The name of a control group: the number of its contract, and one more after others were taken.
    fn group_named(&self, groups: &str, id: u64, taken: u32) -> io::Result<String> {
        if taken == 0 {
            return Ok(format!(in self.alloc; "{groups}/{id}")?);
        }
        Ok(format!(in self.alloc; "{groups}/{id}.{taken}")?)
    }

    /// Makes the control group of a new contract, if there is a folder for it. A room on another disk may have the same folder,
    /// since that is called as an inode: then the number may be taken, or the folder was removed.
    fn make_group(&self, id: u64) -> io::Result<Option<String>> {
        let Some(groups) = &self.groups else {
            return Ok(None);
        };
        for taken in 0..NAMES {
            let group = self.group_named(groups.as_str(), id, taken)?;
            match fs::create_dir(&self.rt, group.as_str()) {
                Ok(()) => return Ok(Some(group)),
                Err(e) if e.kind() == io::ErrorKind::AlreadyExists => {}
                Err(e) if e.kind() == io::ErrorKind::NotFound => {
                    let _made = fs::create_dir(&self.rt, groups.as_str());
                }
                Err(e) => return Err(e),
            }
        }
        Err(unclear())
    }

    fn sync(&self, path: &str) -> io::Result<()> {
        File::open(&self.rt, path)?.sync_all()
    }

    /// A text that nobody can guess.
    fn secret(&self) -> io::Result<String> {
        let mut bytes = [0; SECRET];
        File::open(&self.rt, "/dev/urandom")?.read_exact(&mut bytes)?;
        let mut text = String::new(self.alloc);
        for byte in &bytes {
            write!(text, "{byte:02x}")?;
        }
        Ok(text)
    }

    /// Removes the groups that stand in a group. One that has a process or a group stays.
    fn remove_below(&self, group: &str) -> io::Result<()> {
        let Some(entries) = if_there(fs::read_dir(&self.rt, group))? else {
            return Ok(());
        };
        for entry in entries {
            let entry = entry?;
            let path = entry.path();
            if fs::metadata(&self.rt, path.as_str())?.is_dir() {
                let _removed = fs::remove_dir(&self.rt, path.as_str());
            }
        }
        Ok(())
    }

    /// Makes what stands in a contract's folder, the token last. Its mark ends with a secret, by which its processes are known,
    /// whatever user they become; and no other user's process has it.
    fn fill(&self, id: u64, note: &Note, group: Option<&str>) -> io::Result<()> {
        let folder = self.folder_of(id)?;
        let secret = self.secret()?;
        let mark = format!(in self.alloc; "{}/{}", folder.as_str(), secret.as_str())?;
        let text = note_text(self.alloc, note, mark.as_str(), group)?;
        let file = self.in_contract(id, "note")?;
        let lock = self.in_contract(id, "lock")?;
        let go = self.token_path(id, Token::Go)?;
        make_file(&self.rt, file.as_str(), text.as_str())?;
        make_file(&self.rt, lock.as_str(), "")?;
        make_file(&self.rt, go.as_str(), "")
    }

    /// The variable that marks the processes of a contract, as its note has it.
    fn mark_of(&self, id: u64) -> io::Result<String> {
        let Some(text) = self.text_of_note(id)? else {
            return Err(unclear());
        };
        match field_in(text.as_str(), "env=SMF_CONTRACT=") {
            Some(mark) => Ok(format!(in self.alloc; "SMF_CONTRACT={mark}")?),
            None => Err(unclear()),
        }
    }

    /// The number of this process.
    fn own_number(&self) -> io::Result<u64> {
        let Some(stat) = text_of(self.alloc, &self.rt, "/proc/self/stat")? else {
            return Err(unclear());
        };
        let number = match stat.as_str().split_once(' ') {
            Some((number, _)) => read_count(number),
            None => None,
        };
        match number {
            Some(number) => Ok(number),
            None => Err(unclear()),
        }
    }

    /// True if a process has the variable that marks a contract. Those of a process that ended, and of another user's,
    /// cannot be read. If they cannot be read for another reason, nothing is known.
    fn has_mark(&self, process: &str, mark: &str) -> io::Result<bool> {
        let path = format!(in self.alloc; "{process}/environ")?;
        match if_seen(bytes_of(self.alloc, &self.rt, path.as_str()))? {
            Some(bytes) => Ok(has_variable(&bytes, mark)),
            None => Ok(false),
        }
    }
}

/// The kit says nothing of files and locks. So these bodies are trusted: each asks the system once, for what its name
/// says, and tells what that answered.
impl<R: Processes + Env + Files<File = File> + Clock + AllocGlobal + Clone + Drop> Room
    for Folder<R> {
    ghost tells = { λ _ _ _. Unit {0} };

    ghost did = { λ _. None };

    fn next(&mut self) -> io::Result<u64> {
        let path = self.in_room("next")?;
        match text_of(self.alloc, &self.rt, path.as_str())? {
            Some(text) => match read_count(text.as_str()) {
                Some(next) => Ok(next),
                None => Err(unclear()),
            },
            None => Ok(1),
        }
    }

    fn reserve(&mut self, _low: u64, high: u64) -> io::Result<()> {
        let text = format!(in self.alloc; "{high}")?;
        let part = self.in_room("next.part")?;
        let path = self.in_room("next")?;
        let _ = if_there(fs::remove_file(&self.rt, part.as_str()))?;
        make_file(&self.rt, part.as_str(), text.as_str())?;
        self.sync(part.as_str())?;
        fs::rename(&self.rt, part.as_str(), path.as_str())?;
        self.sync(self.path.as_str())
    }

    fn list(&mut self) -> io::Result<Vec<u64>> {
        let mut ids = Vec::new(self.alloc);
        for entry in fs::read_dir(&self.rt, self.path.as_str())? {
            let entry = entry?;
            if let Some(id) = read_count(entry.file_name()) {
                ids.push(id)?;
            }
        }
        Ok(ids)
    }

    fn token(&mut self, id: u64) -> io::Result<Option<Token>> {
        let path = self.folder_of(id)?;
        let Some(entries) = if_there(fs::read_dir(&self.rt, path.as_str()))? else {
            return Ok(None);
        };
        for entry in entries {
            let entry = entry?;
            if let Some(token) = read_token(entry.file_name()) {
                return Ok(Some(token));
            }
        }
        Ok(None)
    }

    fn rename(&mut self, id: u64, from: Token, to: Token) -> io::Result<bool> {
        let from = self.token_path(id, from)?;
        let to = self.token_path(id, to)?;
        let done = if_there(fs::rename(&self.rt, from.as_str(), to.as_str()))?;
        Ok(done.is_some())
    }

    fn is_free(&mut self, id: u64) -> io::Result<bool> {
        let path = self.in_contract(id, "lock")?;
        match if_there(File::open(&self.rt, path.as_str()))? {
            Some(lock) => is_taken(lock.try_lock_shared()),
            None => Ok(true),
        }
    }

    fn note(&mut self, id: u64) -> io::Result<Option<Note>> {
        match self.text_of_note(id)? {
            Some(text) => Ok(read_note(self.alloc, text.as_str())?),
            None => Ok(None),
        }
    }

    fn make(&mut self, id: u64, note: &Note) -> io::Result<()> {
        let path = self.folder_of(id)?;
        fs::create_dir(&self.rt, path.as_str())?;
        match self.make_group(id)? {
            Some(group) => self.fill(id, note, Some(group.as_str())),
            None => self.fill(id, note, None),
        }
    }

    fn ask_start(&mut self, id: u64) -> io::Result<bool> {
        // The pipe is opened both ways, so whether somebody reads is known by the holder's lock.
        if !self.holder()? {
            return Ok(false);
        }
        let path = self.in_room("asks")?;
        let line = format!(in self.alloc; "start {id}\n")?;
        write_line(&self.rt, path.as_str(), line.as_str())
    }

    fn holder(&mut self) -> io::Result<bool> {
        if self.has_holder()? {
            return Ok(true);
        }
        if !self.has_child()? {
            self.child = Some(self.begin_holder()?);
        }
        Ok(false)
    }

    fn ask_end(&mut self, id: u64, signal: &str, seconds: u64) -> io::Result<bool> {
        // As in `ask_start`: who reads has the contract's lock.
        if self.is_free(id)? {
            return Ok(false);
        }
        let path = self.in_contract(id, "ctl")?;
        let line = format!(in self.alloc; "end {signal} {seconds}\n")?;
        write_line(&self.rt, path.as_str(), line.as_str())
    }

    fn lock(&mut self, id: u64) -> io::Result<bool> {
        self.lock = None;
        let path = self.in_contract(id, "lock")?;
        let lock = File::options()
            .read(true)
            .write(true)
            .open(&self.rt, path.as_str())?;
        let taken = is_taken(lock.try_lock())?;
        if taken {
            self.lock = Some(lock);
        }
        Ok(taken)
    }

    fn unlock(&mut self) {
        self.lock = None;
    }

    fn populated(&mut self, id: u64) -> io::Result<Option<bool>> {
        let Some(group) = self.group_of(id)? else {
            return Ok(None);
        };
        let group = group.as_str();
        let events = format!(in self.alloc; "{group}/cgroup.events")?;
        if let Some(text) = text_of(self.alloc, &self.rt, events.as_str())? {
            return Ok(Some(has_process(text.as_str())?));
        }
        // A group that is not there has no process, if the folder of groups is to be seen. A room without groups looks for
        // marks.
        let Some(groups) = &self.groups else {
            return Ok(None);
        };
        let groups = groups.as_str();
        let all = format!(in self.alloc; "{groups}/cgroup.events")?;
        match fs::metadata(&self.rt, all.as_str()) {
            Ok(_) => Ok(Some(false)),
            Err(e) => Err(e),
        }
    }

    fn marks(&mut self, id: u64) -> io::Result<Marks> {
        let mark = self.mark_of(id)?;
        let number = self.own_number()?;
        let mut marks = Marks {
            own: false,
            found: Vec::new(self.alloc),
        };
        for entry in fs::read_dir(&self.rt, "/proc")? {
            let entry = entry?;
            let Some(found) = read_count(entry.file_name()) else {
                continue;
            };
            if found == number {
                marks.own = true;
            } else if self.has_mark(entry.path().as_str(), mark.as_str())? {
                // Nobody else knows the mark, so it is of this room, also if it became another user's.
                marks.found.push(Process {
                    number: found,
                    ours: true,
                })?;
            }
        }
        Ok(marks)
    }

    fn kill(&mut self, _id: u64, found: &[u64]) -> io::Result<()> {
        let mut program = Command::new(self.alloc, "/bin/kill")?;
        program.arg("-KILL")?;
        for number in found {
            let number = format!(in self.alloc; "{number}")?;
            program.arg(number.as_str())?;
        }
        let _status = program.status(&self.rt)?;
        Ok(())
    }

    fn kill_group(&mut self, id: u64) -> io::Result<()> {
        let Some(group) = self.group_of(id)? else {
            return Err(unclear());
        };
        let group = group.as_str();
        let path = format!(in self.alloc; "{group}/cgroup.kill")?;
        fs::write(&self.rt, path.as_str(), "1")
    }

    fn unlink(&mut self, id: u64, token: Token) -> io::Result<()> {
        let path = self.token_path(id, token)?;
        fs::remove_file(&self.rt, path.as_str())
    }

    fn remove_group(&mut self, id: u64) -> io::Result<bool> {
        let Some(group) = self.group_of(id)? else {
            return Ok(true);
        };
        self.remove_below(group.as_str())?;
        match if_there(fs::remove_dir(&self.rt, group.as_str())) {
            Ok(_) => Ok(true),
            Err(e) if e.kind() == io::ErrorKind::ResourceBusy => Ok(false),
            Err(e) => Err(e),
        }
    }

    fn remove(&mut self, id: u64) -> io::Result<()> {
        let path = self.folder_of(id)?;
        fs::remove_dir_all(&self.rt, path.as_str())
    }

    fn news(&self, ids: &mut Vec<u64>) -> bool {
        self.read_news(ids).unwrap_or(true)
    }

    fn pause(&self) {
        thread::sleep(&self.rt, Duration::from_millis(2));
    }
}
