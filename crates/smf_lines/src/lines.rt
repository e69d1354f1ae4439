ghost use Rattle.std.specs.Prelude.{◌≡◌, ◌≤◌, ◌<◌, ◌+◌, ◌^◌, ◌++◌, ℕ, length, take, option_map, IfErr, IfOk, IfSome, IsSome, OnOk};
ghost use Rattle.std.specs.List.{position_or_len};
ghost use Rattle.smf_lines.specs.Lines.{IsLine, counts_of, held_by, is_end, front_of_line, lines_of, part_of, taken_by};
ghost use Rattle.smf_lines.specs.Faults.{IsPast, IsUnread, Tells, count_after, failed_in, interrupted_by};

use crate::fault::ReadFault;
use crate::limits::MAX_LINE;
use crate::reader::LineReader;
use crate::turns::Turns;
use std::alloc::{AllocError, Global};

/// The part that a look at a reader took.
#[derive(Clone, Copy)]
pub enum Part {
    /// Nothing, since the read was interrupted.
    Interrupted,
    /// Nothing, since nothing is left.
    End,
    /// So many bytes and the end of their line.
    Line(usize),
    /// So many bytes of a line that goes on. It is none only if the line has no room for more.
    Bytes(usize),
}

fn is_end(b: u8) -> bool
    ensures { result ≡ is_end b }
{
    b == b'\n'
}

/// The place of the first end of a line, or the length.
fn end_at(bytes: &[u8]) -> usize
    ensures { result ≡ position_or_len is_end bytes.now }
{
    let mut at = 0;
    for b in bytes {
        if is_end(*b) {
            return at;
        }
        at += 1;
    }
    at
}

pub(crate) fn part_of(shown: &[u8], room: usize) -> Part
    ensures exact { result ≡ part_of room shown.now }
    ensures small { taken_by result < 2 ^ 64 }
{
    let at = end_at(shown);
    if shown.is_empty() {
        return Part::End;
    }
    if at < shown.len() && at <= room {
        Part::Line(at)
    } else {
        Part::Bytes(at.min(room))
    }
}

impl Part {
    /// How many reads were interrupted.
    pub(crate) fn interrupted(self) -> u64
        ensures { result ≡ interrupted_by self }
    {
        match self {
            Part::Interrupted => 1,
            Part::End | Part::Line(_) | Part::Bytes(_) => 0,
        }
    }

    /// How many bytes of its line.
    pub(crate) fn bytes_of_line(self) -> usize
        ensures { result ≡ held_by self }
    {
        match self {
            Part::Interrupted | Part::End => 0,
            Part::Line(n) | Part::Bytes(n) => n,
        }
    }

    /// How many bytes, with the end of the line.
    pub(crate) fn bytes_with_end(self) -> usize
        requires { taken_by self < 2 ^ 64 }
        ensures { result ≡ taken_by self }
    {
        match self {
            Part::Interrupted | Part::End => 0,
            Part::Line(n) => n + 1,
            Part::Bytes(n) => n,
        }
    }
}

/// The most bytes that are kept of a line: one that is too long shows itself.
const KEPT: usize = MAX_LINE + 1;

/// Keeps bytes after those that were kept of their line before.
pub(crate) fn keep(line: &mut Vec<u8>, bytes: &[u8]) -> Result<(), AllocError>
    requires { length line.old.items ≤ 65537 }
    ensures ok { OnOk result (line.new.items ≡ front_of_line (line.old.items ++ bytes.now)) }
    ensures short { length line.new.items ≤ 65537 }
{
    let len = bytes.len().min(KEPT - line.len());
    line.extend_from_slice(&bytes[..len])?;
    Ok(())
}

/// Reads a line; none is the end. Each 65,536 bytes that it begins, and each interrupted read, take one of the lines that may
/// still be read.
pub fn read_line<R: LineReader>(
    alloc: Global,
    reader: &mut R,
    turns: &mut Turns,
) -> Result<Option<Vec<u8>>, ReadFault>
    ensures fewer { IfOk result (λ line. IsSome line → turns.new.left < turns.old.left) }
    ensures exact { IfOk result (λ line. IfSome (R.remaining reader.old) (λ left.
        IsLine (option_map (λ v. v.items) line) left (R.remaining reader.new) (turns.old.left + turns.old.interrupted) (turns.new.left + turns.new.interrupted))) }
    ensures err { IfErr result (λ e. IfSome (R.remaining reader.old) (λ left.
        IsPast e (turns.old.left + turns.old.interrupted) (counts_of (take 1 (lines_of left))))) }
    ensures interrupted { IfOk result (λ _. (base : ℕ)
        → R.interrupted reader.old ≡ count_after base turns.old.interrupted
        → R.interrupted reader.new ≡ count_after base turns.new.interrupted) }
    ensures told { IfErr result (λ e. (base : ℕ) → R.interrupted reader.old ≡ count_after base turns.old.interrupted
        → Tells e base (R.interrupted reader.new)) }
    ensures failed { R.has_failed reader.new ≡ failed_in result (R.has_failed reader.old) }
    ensures fault { IfErr result (λ e. IsUnread R.read_fails e) }
{
    let mut line = Vec::new(alloc);
    let mut len = 0;
    loop {
        match reader.take_part(turns.room() - len, &mut line)? {
            Part::Interrupted => turns.interrupt(len)?,
            Part::End => {
                if len == 0 {
                    return Ok(None);
                }
                turns.count(len)?;
                return Ok(Some(line));
            }
            Part::Line(n) => {
                turns.count(len + n)?;
                return Ok(Some(line));
            }
            Part::Bytes(0) => return Err(ReadFault::TooManyLines(turns.interrupted)),
            Part::Bytes(n) => len += n,
        }
    }
}
