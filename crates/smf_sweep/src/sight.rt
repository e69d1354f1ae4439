// What can be seen of a process.
ghost use Rattle.std.specs.Prelude.{◌≡◌, Err, IfErr, IfOk, MatchBool, None, Ok, Some};
ghost use Rattle.smf_sweep.specs.Sights.{is_hidden, is_hidden_kind, is_no_process};

use std::io;

/// Linux's number of the error that there is no such process.
const NO_PROCESS: i32 = 3;

fn is_hidden_kind(kind: io::ErrorKind) -> bool
    ensures { result ≡ is_hidden_kind kind }
{
    match kind {
        io::ErrorKind::NotFound => true,
        io::ErrorKind::PermissionDenied => true,
        _ => false,
    }
}

fn is_no_process(number: Option<i32>) -> bool
    ensures { result ≡ is_no_process number }
{
    match number {
        Some(number) => number == NO_PROCESS,
        None => false,
    }
}

/// Says whether an error means that a process has ended, or that its user alone may see this.
fn is_hidden(error: &io::Error) -> bool
    ensures { result ≡ is_hidden error.now }
{
    is_hidden_kind(error.kind()) || is_no_process(error.raw_os_error())
}

/// What a file of a process holds. None if the process has ended, or if its user alone may see this. Any other error
/// leaves open whether the process is there.
pub(crate) fn if_seen(read: io::Result<Vec<u8>>) -> io::Result<Option<Vec<u8>>>
    ensures seen { IfOk read (λ bytes. result ≡ Ok (Some bytes)) }
    ensures unseen { IfErr read (λ e. MatchBool (is_hidden e) (result ≡ Ok None) (result ≡ Err e)) }
{
    match read {
        Ok(bytes) => Ok(Some(bytes)),
        Err(e) if is_hidden(&e) => Ok(None),
        Err(e) => Err(e),
    }
}
