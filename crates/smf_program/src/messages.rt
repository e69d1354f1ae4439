ghost use Rattle.std.specs.Prelude.{◌≡◌, codes};
ghost use Rattle.smf_lines.specs.Told.{IsTold};
ghost use Rattle.smf_program.specs.Messages.{database_text, failed_because};

use smf_lines::{TextWriter, tell};
use sqlite::{Error, ErrorCode};

/// The library failed, and on a second line why, if the error's code gives a reason.
fn failed_because(code: ErrorCode) -> &'static str
    ensures { result.now ≡ failed_because code }
{
    match code {
        ErrorCode::DatabaseBusy => {
            "smf: store: database failed\nsmf: store: in use by another program"
        }
        ErrorCode::CannotOpen => {
            "smf: store: database failed\nsmf: store: not there, or no right to open it"
        }
        ErrorCode::NotADatabase => {
            "smf: store: database failed\nsmf: store: no database that can be read"
        }
        ErrorCode::DatabaseCorrupt => {
            "smf: store: database failed\nsmf: store: a page is damaged"
        }
        ErrorCode::DiskFull => "smf: store: database failed\nsmf: store: disk full",
        ErrorCode::SystemIoFailure => {
            "smf: store: database failed\nsmf: store: a read or a write failed"
        }
        _ => "smf: store: database failed",
    }
}

/// The message about a database that the library does not open.
fn database_text(fault: &Error) -> &'static str
    ensures { result.now ≡ database_text fault.now }
{
    match fault {
        Error::SqliteFailure(ErrorCode::OutOfMemory) => "smf: no memory",
        Error::SqliteFailure(code) => failed_because(*code),
        _ => "smf: store: database failed",
    }
}

/// Says why the library did not open a database, as far as that can be written, and gives the status of such a run.
pub fn tell_no_database<E: TextWriter>(errors: &mut E, fault: &Error) -> u8
    ensures status { result ≡ 3 }
    ensures told { IsTold E.write_fails (E.contents errors.old) (E.contents errors.new) (database_text fault.now) }
{
    tell(errors, database_text(fault))
}

/// Says that a file of lines does not open, as far as that can be written, and gives the status of such a run.
pub fn tell_no_input<E: TextWriter>(errors: &mut E) -> u8
    ensures status { result ≡ 3 }
    ensures told { IsTold E.write_fails (E.contents errors.old) (E.contents errors.new) (codes "smf: input failed") }
{
    tell(errors, "smf: input failed")
}

/// Says that there was no memory to begin a task, as far as that can be written. Gives the status of such a run.
pub fn tell_no_memory<E: TextWriter>(errors: &mut E) -> u8
    ensures status { result ≡ 3 }
    ensures told { IsTold E.write_fails (E.contents errors.old) (E.contents errors.new) (codes "smf: no memory") }
{
    tell(errors, "smf: no memory")
}
