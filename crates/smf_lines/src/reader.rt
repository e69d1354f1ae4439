ghost use Rattle.std.specs.Prelude.{◌≡◌, ℕ, List, Option, Some, Bool, false, ◌≤◌, drop, length, IfErr, IfOk};
ghost use Rattle.std_io.specs.declared.io.error.Error.{Error};
ghost use Rattle.smf_lines.specs.Faults.{IsOther, IsUnread, count_after, failed_in, interrupted_in};
ghost use Rattle.smf_lines.specs.Lines.{IsTaken, held_by};

use crate::fault::ReadFault;
use crate::lines::{Part, keep, part_of};
use std::io::{BufRead, ErrorKind};

/// A source of lines, and the known facts of its reads.
pub trait LineReader {
    /// The bytes that reads will give from here on, if they are known.
    ghost remaining: { Self → Option (List ℕ) };

    /// How many reads were interrupted.
    ghost interrupted: { Self → ℕ };

    /// True if a read has failed.
    ghost has_failed: { Self → Bool };

    /// With which errors a read may fail.
    ghost read_fails: { Error → Type 0 };

    /// Takes bytes of a line that has room for so many, and keeps them after those that were kept of it before. It
    /// keeps no more than 65,537 bytes of a line. An interrupted read takes none, and is no fault.
    fn take_part(&mut self, room: usize, line: &mut Vec<u8>) -> Result<Part, ReadFault>
        requires { length line.old.items ≤ 65537 }
        ensures short { length line.new.items ≤ 65537 }
        ensures within { IfOk result (λ part. held_by part ≤ room) }
        ensures exact { IfOk result
            (λ part. IsTaken part room (remaining self.old) (remaining self.new) line.old.items line.new.items) }
        ensures interrupted { interrupted self.new ≡ count_after (interrupted self.old) (interrupted_in result) }
        ensures failed { has_failed self.new ≡ failed_in result (has_failed self.old) }
        ensures err { IfErr result (λ e. IsOther e) }
        ensures fault { IfErr result (λ e. IsUnread read_fails e) };
}

/// The bytes after the first `count`.
fn behind(bytes: &[u8], count: usize) -> &[u8]
    requires { count ≤ length bytes.now }
    ensures { result.now ≡ drop count bytes.now }
{
    &bytes[count..]
}

/// Bytes in memory: no read of them fails.
impl LineReader for &[u8] {
    ghost remaining = { λ s. Some s.now };

    ghost interrupted = { λ _. 0 };

    ghost has_failed = { λ _. false };

    ghost read_fails = { λ _. ⊥ };

    fn take_part(&mut self, room: usize, line: &mut Vec<u8>) -> Result<Part, ReadFault> {
        let shown: &[u8] = *self;
        let part = part_of(shown, room);
        keep(line, &shown[..part.bytes_of_line()])?;
        *self = behind(shown, part.bytes_with_end());
        Ok(part)
    }
}

/// Takes bytes of any reader, as `take_part` does.
fn take_from<R: BufRead>(reader: &mut R, room: usize, line: &mut Vec<u8>) -> Result<Part, ReadFault>
    requires { length line.old.items ≤ 65537 }
    ensures short { length line.new.items ≤ 65537 }
    ensures within { IfOk result (λ part. held_by part ≤ room) }
    ensures exact { IfOk result
        (λ part. IsTaken part room (R.remaining reader.old) (R.remaining reader.new) line.old.items line.new.items) }
    ensures err { IfErr result (λ e. IsOther e) }
    ensures fault { IfErr result (λ e. IsUnread (λ _. Unit {0}) e) }
{
    let shown = match reader.fill_buf() {
        Ok(shown) => shown,
        Err(e) => {
            return if e.kind() == ErrorKind::Interrupted {
                Ok(Part::Interrupted)
            } else {
                Err(ReadFault::Input(e))
            };
        }
    };
    let part = part_of(shown, room);
    keep(line, &shown[..part.bytes_of_line()])?;
    reader.consume(part.bytes_with_end());
    Ok(part)
}

/// A reader of any kind, and how its reads ended. Its reads may fail at any time.
#[derive(Drop)]
pub struct NotedReader<R: BufRead> {
    reader: R,
    /// It stays at its greatest.
    interrupted: u64,
    has_failed: bool,
}

impl<R: BufRead> NotedReader<R> {
    /// No read was interrupted yet, and none has failed.
    pub fn new(reader: R) -> NotedReader<R>
        ensures remaining { ⟦<NotedReader<R> as LineReader>⟧.remaining result ≡ R.remaining reader }
        ensures interrupted { ⟦<NotedReader<R> as LineReader>⟧.interrupted result ≡ 0 }
        ensures has_failed { ⟦<NotedReader<R> as LineReader>⟧.has_failed result ≡ false }
    {
        NotedReader {
            reader,
            interrupted: 0,
            has_failed: false,
        }
    }
}

impl<R: BufRead> LineReader for NotedReader<R> {
    ghost remaining = { λ s. R.remaining s.reader };

    ghost interrupted = { λ s. s.interrupted };

    ghost has_failed = { λ s. s.has_failed };

    ghost read_fails = { λ _. Unit {0} };

    fn take_part(&mut self, room: usize, line: &mut Vec<u8>) -> Result<Part, ReadFault> {
        let taken = take_from(&mut self.reader, room, line);
        match taken {
            Ok(part) => {
                self.interrupted = self.interrupted.saturating_add(part.interrupted());
                Ok(part)
            }
            Err(ReadFault::Input(e)) => {
                self.has_failed = true;
                Err(ReadFault::Input(e))
            }
            Err(e) => Err(e),
        }
    }
}
