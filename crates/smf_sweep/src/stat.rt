// A process, as the system tells of it.
use crate::process::Process;
use smf_fmri::read_count;

/// The places of fields in what the system tells of a process after its name.
const STATE: usize = 0;

const GROUP: usize = 2;

const SESSION: usize = 3;

const THREADS: usize = 17;

const START: usize = 19;

/// The bytes after the last such byte.
fn after_last(bytes: &[u8], wanted: u8) -> Option<&[u8]> {
    let place = bytes.iter().rposition(|byte| *byte == wanted)?;
    bytes.get(place + 1..)
}

/// The fields after the name, which may have any bytes.
fn fields_in(stat: &[u8]) -> Option<&str> {
    let fields = std::str::from_utf8(after_last(stat, b')')?).ok()?;
    fields.strip_prefix(' ')
}

/// The number before the name.
fn number_in(stat: &[u8]) -> Option<u64> {
    let end = stat.iter().position(|byte| *byte == b' ')?;
    read_count(std::str::from_utf8(stat.get(..end)?).ok()?)
}

fn field_at(fields: &str, place: usize) -> Option<&str> {
    fields.split(' ').nth(place)
}

fn count_at(fields: &str, place: usize) -> Option<u64> {
    read_count(field_at(fields, place)?)
}

/// Says whether a process has ended. If its first thread has ended alone, the others go on.
fn has_ended(fields: &str) -> Option<bool> {
    let state = field_at(fields, STATE)?;
    Some((state == "Z" || state == "X") && count_at(fields, THREADS)? < 2)
}

/// The process that the system tells of, as one with no variables.
pub(crate) fn read_stat(stat: &[u8]) -> Option<Process> {
    let fields = fields_in(stat)?;
    Some(Process {
        number: number_in(stat)?,
        group: count_at(fields, GROUP)?,
        session: count_at(fields, SESSION)?,
        start: count_at(fields, START)?,
        has_ended: has_ended(fields)?,
        is_method: false,
    })
}

/// Says whether variables of a process are a method's.
pub(crate) fn is_method(variables: &[u8]) -> bool {
    variables
        .split(|byte| *byte == 0)
        .any(|variable| variable.starts_with(b"SMF_METHOD="))
}
