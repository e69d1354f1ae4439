ghost use Rattle.std.specs.Prelude.{◌≡◌, ◌++◌, ◌∷◌, [], IfErr, OnOk};
ghost use Rattle.std.specs.Io.KnownBytes.{Appends};
ghost use Rattle.smf_lines.specs.Told.{IsTold, read_text};

use crate::fault::ReadFault;
use crate::writer::TextWriter;
use std::io;

/// The status of a run that was ended by a fault.
const FAULT: u8 = 3;

/// The message if lines could not be read.
pub fn read_text(fault: &ReadFault) -> &'static str
    ensures { result.now ≡ read_text fault.now }
{
    match fault {
        ReadFault::Memory => "smf: no memory",
        ReadFault::Input(_) => "smf: input failed",
        ReadFault::TooManyLines(_) => "smf: too many lines",
    }
}

/// Writes a line.
fn say<E: TextWriter>(errors: &mut E, text: &str) -> io::Result<()>
    ensures ok { OnOk result (Appends (E.contents errors.old) (E.contents errors.new) (text.now ++ 10 ∷ [])) }
    ensures fault { IfErr result (λ e. E.write_fails e) }
{
    errors.write_text(text.as_bytes())?;
    errors.write_text(b"\n")
}

/// Says why a run was ended, as far as that can be written, and gives the status of such a run.
pub fn tell<E: TextWriter>(errors: &mut E, text: &str) -> u8
    ensures status { result ≡ 3 }
    ensures told { IsTold E.write_fails (E.contents errors.old) (E.contents errors.new) text.now }
{
    match say(errors, text) {
        Ok(()) => FAULT,
        Err(_) => FAULT,
    }
}
