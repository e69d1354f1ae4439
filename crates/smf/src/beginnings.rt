// How the life of a server begins, as the first lines of its record have it.
ghost use Rattle.smf_contract.specs.Stated.{AreEvents};
ghost use Rattle.std.specs.Prelude.{IfSome};

use bitflags::Flags;
use smf_contract::{EventSet, Exit, Found, Terms};
use smf_fmri::{Number, read_count};
use smf_host::{stage_in, stage_text};
use smf_watch::Retry;
use std::alloc::{AllocError, Global};
use std::str::Split;
use std::time::Duration;

/// The bits of all kinds of events.
const ALL_EVENTS: u8 = 63;

/// How a life begins: what is held boots, or it goes on with the contracts of an older life, of which the last had this id,
/// and with its retries.
#[derive(Drop)]
pub(crate) enum Beginning {
    Boots,
    GoesOn(Number, Vec<Found>, Vec<Retry>),
}

fn end_text(alloc: Global, end: Option<Exit>) -> Result<String, AllocError> {
    match end {
        None => String::from_str(alloc, "-"),
        Some(Exit::Killed) => String::from_str(alloc, "killed"),
        Some(Exit::Code(code)) => format!(in alloc; "{code}"),
    }
}

/// 1 or 0.
fn bit(flag: bool) -> u8 {
    if flag { 1 } else { 0 }
}

/// A contract: its id, its cookie, its terms, and how its first process ended.
fn found_line(alloc: Global, found: &Found) -> Result<String, AllocError> {
    let id = found.id.get();
    let cookie = found.cookie;
    let mut line = format!(in alloc; "found {id} {cookie}")?;
    let informative = found.terms.informative.bits();
    let critical = found.terms.critical.bits();
    let fatal = found.terms.fatal.bits();
    let kinds = format!(in alloc; " {informative} {critical} {fatal}")?;
    line.push_str(kinds.as_str())?;
    let inherit = bit(found.terms.inherit);
    let noorphan = bit(found.terms.noorphan);
    let end = end_text(alloc, found.end)?;
    let flags = format!(in alloc; " {inherit} {noorphan} {end}\n")?;
    line.push_str(flags.as_str())?;
    Ok(line)
}

fn retry_line(alloc: Global, retry: &Retry) -> Result<String, AllocError> {
    let instance = retry.instance;
    let tries = retry.tries;
    let stage = stage_text(retry.stage);
    let row = retry.row;
    let mut line = format!(in alloc; "retry {instance} {tries} {stage} {row}")?;
    let seconds = retry.since.as_secs();
    let nanoseconds = retry.since.subsec_nanos();
    let since = format!(in alloc; " {seconds} {nanoseconds}\n")?;
    line.push_str(since.as_str())?;
    Ok(line)
}

/// The first lines of the record of a life.
pub(crate) fn beginning_text(alloc: Global, beginning: &Beginning) -> Result<String, AllocError> {
    let mut text = String::from_str(alloc, "smf record 1\n")?;
    match beginning {
        Beginning::Boots => text.push_str("boots\n")?,
        Beginning::GoesOn(_last, found, retries) => {
            text.push_str("goes on\n")?;
            for one in found {
                let line = found_line(alloc, one)?;
                text.push_str(line.as_str())?;
            }
            for retry in retries {
                let line = retry_line(alloc, retry)?;
                text.push_str(line.as_str())?;
            }
        }
    }
    Ok(text)
}

// ---- read again

fn number_in(words: &mut Split<'_, char>) -> Option<u64> {
    read_count(words.next()?)
}

fn events_in(words: &mut Split<'_, char>) -> Option<EventSet>
    ensures { IfSome result AreEvents }
{
    let bits = u8::try_from(number_in(words)?).ok()?;
    if bits > ALL_EVENTS {
        return None;
    }
    let events = EventSet::from_bits(bits)?;
    Some(events)
}

fn flag_in(words: &mut Split<'_, char>) -> Option<bool> {
    match number_in(words)? {
        0 => Some(false),
        1 => Some(true),
        _ => None,
    }
}

fn end_in(word: &str) -> Option<Option<Exit>> {
    match word {
        "-" => Some(None),
        "killed" => Some(Some(Exit::Killed)),
        _ => Some(Some(Exit::Code(u8::try_from(read_count(word)?).ok()?))),
    }
}

/// The contract of a line, without its word.
pub(crate) fn found_in(rest: &str) -> Option<Found> {
    let mut words = rest.split(' ');
    let id = Number::new(number_in(&mut words)?)?;
    let cookie = number_in(&mut words)?;
    let terms = Terms {
        informative: events_in(&mut words)?,
        critical: events_in(&mut words)?,
        fatal: events_in(&mut words)?,
        inherit: flag_in(&mut words)?,
        noorphan: flag_in(&mut words)?,
    };
    let end = end_in(words.next()?)?;
    Some(Found {
        id,
        cookie,
        terms,
        end,
    })
}

/// The retry of a line, without its word.
pub(crate) fn retry_in(rest: &str) -> Option<Retry> {
    let mut words = rest.split(' ');
    let instance = number_in(&mut words)?;
    let tries = number_in(&mut words)?;
    let stage = stage_in(words.next()?)?;
    let row = number_in(&mut words)?;
    let seconds = number_in(&mut words)?;
    let nanoseconds = number_in(&mut words)?;
    let since = Duration::from_secs(seconds).saturating_add(Duration::from_nanos(nanoseconds));
    Some(Retry {
        instance,
        tries,
        stage,
        row,
        since,
    })
}
