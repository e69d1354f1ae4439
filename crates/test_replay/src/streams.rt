ghost use Rattle.std.specs.Prelude.{◌≡◌, ◌≢◌, ◌-◌, OnErr, OnOk};

use std::io;
use std::io::{ErrorKind, Read, Write};

/// Calls of which one fails.
#[derive(Drop)]
pub struct Calls {
    /// The number of the call that fails among those to come; 0 if none does.
    next: u64,
    kind: ErrorKind,
}

impl Calls {
    pub fn new(call: u64, kind: ErrorKind) -> Calls {
        Calls { next: call, kind }
    }

    /// Counts a call, and gives back how it fails, if it does.
    fn count(&mut self) -> io::Result<()>
        ensures counted { self.new.next ≡ self.old.next - 1 }
        ensures failed { OnErr result (self.old.next ≡ 1) }
        ensures passed { OnOk result (self.old.next ≢ 1) }
    {
        let call = self.next;
        self.next = call.saturating_sub(1);
        if call == 1 {
            return Err(io::Error::from(self.kind));
        }
        Ok(())
    }
}

/// The most bytes that a `FailingReader` gives at a time: fewer than a line has.
const MOST: usize = 7;

/// Gives a few bytes at a time. One of its reads fails, and those after it do not.
#[derive(Drop)]
pub struct FailingReader<R: Read> {
    from: R,
    calls: Calls,
}

impl<R: Read> FailingReader<R> {
    pub fn new(from: R, calls: Calls) -> FailingReader<R> {
        FailingReader { from, calls }
    }
}

impl<R: Read> Read for FailingReader<R> {
    fn read(&mut self, buf: &mut [u8]) -> io::Result<usize> {
        self.calls.count()?;
        let most = buf.len().min(MOST);
        self.from.read(&mut buf[..most])
    }
}

/// One of its writes fails, and those after it do not.
#[derive(Drop)]
pub struct FailingWriter<W: Write> {
    to: W,
    calls: Calls,
}

impl<W: Write> FailingWriter<W> {
    pub fn new(to: W, calls: Calls) -> FailingWriter<W> {
        FailingWriter { to, calls }
    }
}

impl<W: Write> Write for FailingWriter<W> {
    fn write(&mut self, buf: &[u8]) -> io::Result<usize> {
        self.calls.count()?;
        self.to.write(buf)
    }

    fn flush(&mut self) -> io::Result<()> {
        self.to.flush()
    }
}
