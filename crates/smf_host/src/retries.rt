// The instances that are tried again, as a file in the folder of contracts has them.
use crate::room_file::RoomFile;
use smf_watch::{Plan, Retry, RetryStage};
use std::alloc::{AllocError, Global};
use std::rt::HostRuntime;
use std::time::Duration;
use std::{fs, io};

/// Its name.
const RETRIES: &str = "retries";

/// A file in the folder of contracts, by which the next server goes on with retries, and `svcs -x` tells them.
#[derive(Drop)]
pub struct RetryFile<'a> {
    rt: &'a HostRuntime,
    file: RoomFile<'a>,
}

/// The word of a stage.
pub fn stage_text(stage: RetryStage) -> &'static str {
    match stage {
        RetryStage::Marked => "marked",
        RetryStage::Waits => "waits",
        RetryStage::Tries => "tries",
        RetryStage::Runs => "runs",
    }
}

/// The stage that a word means.
pub fn stage_in(text: &str) -> Option<RetryStage> {
    match text {
        "marked" => Some(RetryStage::Marked),
        "waits" => Some(RetryStage::Waits),
        "tries" => Some(RetryStage::Tries),
        "runs" => Some(RetryStage::Runs),
        _ => None,
    }
}

/// A line of an instance: its number and that of its row, its stage, how often it was tried, since when it is so, in seconds
/// of the clock, and when it is tried again, or `-`.
fn put_line(text: &mut String, alloc: Global, plan: &Plan) -> Result<(), AllocError> {
    let retry = &plan.retry;
    let stage = stage_text(retry.stage);
    let since = retry.since.as_secs();
    let line = format!(in alloc;
        "{} {} {stage} {} {since} ",
        retry.instance, retry.row, retry.tries
    )?;
    text.push_str(line.as_str())?;
    match plan.due {
        Some(due) => {
            let due = format!(in alloc; "{due}\n")?;
            text.push_str(due.as_str())
        }
        None => text.push_str("-\n"),
    }
}

fn lines_of(alloc: Global, plans: &[Plan]) -> Result<String, AllocError> {
    let mut text = String::new(alloc);
    for plan in plans {
        put_line(&mut text, alloc, plan)?;
    }
    Ok(text)
}

fn retry_in(line: &str) -> Option<Retry> {
    let mut words = line.split(' ');
    let instance = words.next()?.parse::<u64>().ok()?;
    let row = words.next()?.parse::<u64>().ok()?;
    let stage = stage_in(words.next()?)?;
    let tries = words.next()?.parse::<u64>().ok()?;
    let since = Duration::from_secs(words.next()?.parse::<u64>().ok()?);
    Some(Retry {
        instance,
        tries,
        stage,
        row,
        since,
    })
}

impl<'a> RetryFile<'a> {
    pub(crate) fn new(rt: &'a HostRuntime, room: &'a str) -> RetryFile<'a> {
        RetryFile {
            rt,
            file: RoomFile::new(rt, room, RETRIES),
        }
    }

    /// Writes the instances that are tried again, unless they are the same as before.
    pub(crate) fn write(&mut self, plans: &[Plan]) -> io::Result<()> {
        self.file.write(lines_of(self.rt.alloc(), plans)?)
    }
}

fn path_in(rt: &HostRuntime, room: &str) -> io::Result<String> {
    Ok(format!(in rt.alloc(); "{room}/{RETRIES}")?)
}

/// The instances that an older server was to try again. A line that is not whole tells nothing.
pub fn older_retries(rt: &HostRuntime, room: &str) -> io::Result<Vec<Retry>> {
    let alloc = rt.alloc();
    let mut retries: Vec<Retry> = Vec::new(alloc);
    let path = path_in(rt, room)?;
    match fs::read_to_string(rt, path.as_str()) {
        Ok(text) => {
            for line in text.lines() {
                if let Some(retry) = retry_in(line) {
                    retries.push(retry)?;
                }
            }
            Ok(retries)
        }
        Err(fault) if fault.kind() == io::ErrorKind::NotFound => Ok(retries),
        Err(fault) => Err(fault),
    }
}
