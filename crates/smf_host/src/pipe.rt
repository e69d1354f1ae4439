// The pipe by which a server is called.
use libc::net::poll;
use libc::types::pollfd;
use std::alloc::AllocError;
use std::fs::File;
use std::io::{BufRead, BufReader, ErrorKind, Write};
use std::os::fd::AsRawFd;
use std::rt::HostRuntime;
use std::time::Duration;
use std::{io, str, thread};

/// The event of poll that there is something to read.
const POLLIN: i16 = 1;

/// The milliseconds of the sleep if poll fails.
const SLEEP: u64 = 100;

/// The most bytes of the name of a request.
const MAX_NAME: usize = 64;

/// The most bytes that are kept of a line: one that is longer than a name shows itself.
const KEPT: usize = MAX_NAME + 1;

/// What a read of the pipe brings.
#[derive(Drop)]
pub(crate) enum Call {
    /// An empty line.
    Ring,
    /// The name of a request, by `name`.
    Named,
    /// A line `.`, or the end of the pipe.
    End,
    /// A line `!`.
    Leave,
    /// A line `/`.
    Stop,
    /// A line that says nothing, or one that has not come to its end.
    Other,
}

/// A pipe, what has come of its next line, and the name of a request that came last.
#[derive(Drop)]
pub(crate) struct Pipe {
    reader: BufReader<File>,
    line: Vec<u8>,
    name: String,
}

/// Letters, digits, `_` and `-` name a request.
fn is_name(text: &str) -> bool {
    !text.is_empty()
        && text.len() <= MAX_NAME
        && text.bytes().all(|byte| byte.is_ascii_alphanumeric() || byte == b'_' || byte == b'-')
}

/// The call of a line. A name that it brings is kept: there has been room for it since the pipe was opened.
fn call_of(line: &[u8], kept: &mut String) -> Call {
    match str::from_utf8(line) {
        Ok("") => Call::Ring,
        Ok(".") => Call::End,
        Ok("!") => Call::Leave,
        Ok("/") => Call::Stop,
        Ok(name) if is_name(name) => {
            kept.clear();
            let _kept = kept.push_str(name);
            Call::Named
        }
        _ => Call::Other,
    }
}

/// The place of the first end of a line, or the length.
fn end_at(bytes: &[u8]) -> usize {
    bytes
        .iter()
        .position(|byte| *byte == b'\n')
        .unwrap_or(bytes.len())
}

/// Keeps bytes of a line after those that were kept before, as far as it has room.
fn keep(line: &mut Vec<u8>, bytes: &[u8]) -> Result<(), AllocError> {
    let count = bytes.len().min(KEPT.saturating_sub(line.len()));
    line.extend_from_slice(&bytes[..count])?;
    Ok(())
}

/// A time for poll, in whole milliseconds.
fn milliseconds(time: Duration) -> i32 {
    i32::try_from(time.as_millis()).unwrap_or(i32::MAX)
}

impl Pipe {
    /// Opens a pipe. It is open to write too, so that it has no end.
    pub(crate) fn open(rt: &HostRuntime, path: &str) -> io::Result<Pipe> {
        let alloc = rt.alloc();
        let file = File::options().read(true).write(true).open(rt, path)?;
        Ok(Pipe {
            reader: BufReader::new(alloc, file)?,
            line: Vec::with_capacity(alloc, KEPT)?,
            name: String::with_capacity(alloc, MAX_NAME)?,
        })
    }

    /// The name of the request that came last.
    pub(crate) fn name(&self) -> &str {
        self.name.as_str()
    }

    /// Asks the system whether there is something to read, and waits for that for so long at most. None if it does not
    /// say.
    fn has_more(&self, most: Duration) -> Option<bool> {
        let mut asked = [pollfd {
            fd: self.reader.get_ref().as_raw_fd(),
            events: POLLIN,
            revents: 0,
        }];
        match poll(&mut asked, milliseconds(most)) {
            0 => Some(false),
            1 if asked[0].revents & POLLIN != 0 => Some(true),
            _ => None,
        }
    }

    /// Waits until a read does not wait, for so long at most. Says whether that is so. If the system does not say, this
    /// sleeps a moment, so that nothing is busy, and rings itself, so that the read has a line in any case.
    pub(crate) fn wait(&mut self, rt: &HostRuntime, most: Duration) -> bool {
        if !self.reader.buffer().is_empty() {
            return true;
        }
        match self.has_more(most) {
            Some(more) => more,
            None => {
                thread::sleep(rt, Duration::from_millis(SLEEP));
                self.reader.get_mut().write_all(b"\n").is_ok()
            }
        }
    }

    /// Reads at most once, and gives what that brings. It waits if there is nothing to read.
    pub(crate) fn read(&mut self) -> io::Result<Call> {
        let shown = match self.reader.fill_buf() {
            Ok(shown) => shown,
            Err(fault) if fault.kind() == ErrorKind::Interrupted => return Ok(Call::Other),
            Err(fault) => return Err(fault),
        };
        if shown.is_empty() {
            return Ok(Call::End);
        }
        let end = end_at(shown).min(shown.len());
        // There has been room for that since the pipe was opened.
        let _kept = keep(&mut self.line, &shown[..end]);
        if end == shown.len() {
            self.reader.consume(end);
            return Ok(Call::Other);
        }
        self.reader.consume(end + 1);
        let call = call_of(&self.line, &mut self.name);
        self.line.clear();
        Ok(call)
    }
}
