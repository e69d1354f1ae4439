ghost use Rattle.std.specs.Prelude.{◌≡◌, ◌+◌, ◌*◌, ◌≤◌, IfErr, OnOk};
ghost use Rattle.smf_lines.specs.declared.fault.ReadFault.TheVariants.{TooManyLines};
ghost use Rattle.smf_lines.specs.Lines.{count_if_begun, count_of_length};
ghost use Rattle.smf_lines.specs.Faults.{IsPast};

use crate::fault::ReadFault;
use crate::limits::{MAX_LINE, MAX_LINES};

/// How many lines may still be read, and how many reads were interrupted.
#[derive(Drop)]
pub struct Turns {
    pub left: u32,
    pub interrupted: u32,
    ghost few: { left + interrupted ≤ 1000000 },
}

/// How many lines a line of so many bytes counts.
fn count_of_length(len: usize) -> usize
    ensures { result ≡ count_of_length len }
{
    1 + len.saturating_sub(1) / MAX_LINE
}

impl Turns {
    pub fn new() -> Turns
        ensures left { result.left ≡ 1000000 }
        ensures interrupted { result.interrupted ≡ 0 }
    {
        Turns {
            left: MAX_LINES,
            interrupted: 0,
        }
    }

    /// How many bytes a line may have.
    pub(crate) fn room(&self) -> usize
        ensures { result ≡ 65536 * self.now.left }
    {
        MAX_LINE * self.left as usize
    }

    /// A read was interrupted in a line of which so many bytes were read.
    pub(crate) fn interrupt(&mut self, len: usize) -> Result<(), ReadFault>
        ensures left { OnOk result (self.new.left + 1 ≡ self.old.left) }
        ensures interrupted { OnOk result (self.new.interrupted ≡ self.old.interrupted + 1) }
        ensures room { OnOk result (len ≤ 65536 * self.new.left) }
        ensures err { IfErr result (λ e. IsPast e (self.old.left + self.old.interrupted) (count_if_begun len)) }
        ensures told { IfErr result (λ e. e ≡ TooManyLines (self.old.interrupted + 1)) }
    {
        if self.left == 0 {
            return Err(ReadFault::TooManyLines(self.interrupted + 1));
        }
        self.left -= 1;
        self.interrupted += 1;
        if len > self.room() {
            return Err(ReadFault::TooManyLines(self.interrupted));
        }
        Ok(())
    }

    /// A line of so many bytes was read.
    pub(crate) fn count(&mut self, len: usize) -> Result<(), ReadFault>
        ensures left { OnOk result (self.new.left + count_of_length len ≡ self.old.left) }
        ensures interrupted { OnOk result (self.new.interrupted ≡ self.old.interrupted) }
        ensures err { IfErr result (λ e. IsPast e (self.old.left + self.old.interrupted) (count_of_length len)) }
        ensures told { IfErr result (λ e. e ≡ TooManyLines self.old.interrupted) }
    {
        let count = count_of_length(len);
        if count > self.left as usize {
            return Err(ReadFault::TooManyLines(self.interrupted));
        }
        self.left -= count as u32;
        Ok(())
    }
}
