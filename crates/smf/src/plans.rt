// In which order the services of databases would stop.
use crate::exports::{held_in, write_out};
use crate::shows::{BAD_USAGE, over};
use smf_fmri::{Text, read_count};
use smf_lines::TextWriter;
use smf_model::{NoJournal, Plain};
use smf_program::tell_no_memory;
use smf_stops::{StopLimits, plan_text, stop_plan};
use std::alloc::{AllocError, Global};

/// The seconds between a signal and KILL, as `smf_hold` has them.
const PATIENCE: u64 = 10;

/// Tells that a word is no number. Gives the status of such a run.
fn tell_no_number(rt: &HostRuntime, word: &str) -> u8 {
    match format!(in rt.alloc(); "smf: no number {word}\n") {
        Ok(text) => {
            let _told = rt.stderr().write_text(text.as_bytes());
            BAD_USAGE
        }
        Err(_) => tell_no_memory(&mut rt.stderr()),
    }
}

/// The number that an option has, or another one if it was not given.
fn number_or(rt: &HostRuntime, word: Option<&str>, other: u64) -> Result<u64, u8> {
    match word {
        None => Ok(other),
        Some(word) => match read_count(word) {
            Some(number) => Ok(number),
            None => Err(tell_no_number(rt, word)),
        },
    }
}

/// The seconds that the options name. A method that names no time-out has none if the option is 0.
fn limits_of(
    rt: &HostRuntime,
    patience: Option<&str>,
    timeout: Option<&str>,
) -> Result<StopLimits, u8> {
    let patience = number_or(rt, patience, PATIENCE)?;
    let timeout = number_or(rt, timeout, 0)?;
    let untimed = if timeout == 0 { None } else { Some(timeout) };
    Ok(StopLimits { patience, untimed })
}

fn planned(
    alloc: Global,
    repository: &Plain<NoJournal>,
    limits: &StopLimits,
) -> Result<Text, AllocError> {
    let view = repository.view()?;
    let plan = stop_plan(alloc, &view, limits)?;
    plan_text(alloc, &plan)
}

/// Prints in which order the instances that the database in a file has would stop.
pub(crate) fn plan_stop_over(
    rt: &HostRuntime,
    database: &str,
    patience: Option<&str>,
    timeout: Option<&str>,
) -> u8 {
    let limits = match limits_of(rt, patience, timeout) {
        Ok(limits) => limits,
        Err(status) => return status,
    };
    let held = match held_in(rt, database) {
        Ok(held) => held,
        Err(status) => return status,
    };
    let repository = over(rt.alloc(), held);
    match planned(rt.alloc(), &repository, &limits) {
        Ok(text) => write_out(rt, text.as_str().as_bytes()),
        Err(_) => tell_no_memory(&mut rt.stderr()),
    }
}
