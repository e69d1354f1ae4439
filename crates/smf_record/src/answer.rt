ghost use Rattle.std.specs.Prelude.{◌≡◌, ◌≢◌};
ghost use Rattle.std.specs.IoError.{error_kind};
ghost use Rattle.std_io.specs.declared.io.kind.ErrorKind.TheVariants.{OutOfMemory};
ghost use Rattle.smf_record.specs.Answers.{IsStartEnd, asked_answer, end_answer, seen_now, stand_answer};
ghost use Rattle.smf_record.specs.declared.answer.StartEnd.TheVariants.{NoMemory, Refused};

use smf_edge::{FirstEnd, Stand};
use smf_watch::ServerInput;
use std::io;
use std::io::ErrorKind;

/// How a start ended.
#[derive(Clone, Copy, PartialEq, Eq)]
pub enum StartEnd {
    /// It made a contract.
    Made,
    Refused,
    /// The system had no memory for it.
    NoMemory,
}

/// Whether anything is left of a contract that was asked to end.
#[derive(Clone, Copy, PartialEq, Eq)]
pub enum EndAnswer {
    /// Nothing is left.
    Ended,
    Lives,
    /// The system failed.
    Failed,
}

/// A start that was asked for, by its contract and the cookie of that, and how it ended.
#[derive(Clone, Copy)]
pub struct StartAnswer {
    pub contract: u64,
    pub cookie: u64,
    pub end: StartEnd,
}

/// How a contract stood, if the system answered.
#[derive(Clone, Copy)]
pub enum StandAnswer {
    Runs,
    Left(FirstEnd),
    Gone(FirstEnd),
    Lost,
}

/// What a clock said. There are fewer than a billion nanoseconds.
#[derive(Clone, Copy)]
pub struct Moment {
    pub seconds: u64,
    pub nanoseconds: u32,
}

/// What was given to a server. It borrows the lines of a request while it is recorded, and has them once it is read.
#[derive(Drop)]
pub enum Answer<B> {
    /// The desk: time has passed.
    Tick,
    /// The desk: these lines are to be done.
    Request(B),
    End,
    Leave,
    /// The desk: whether the text of a reply was written.
    Replied(bool),
    /// The clock.
    Time(Moment),
    /// The contracts.
    Start(StartAnswer),
    /// Contracts were asked how they stand, so often, and the first process of each runs.
    Runs(u64),
    Left(FirstEnd),
    Gone(FirstEnd),
    Lost,
    Ends(EndAnswer),
}

/// The answer of a desk that is asked what comes next.
pub(crate) fn asked_answer(input: &ServerInput) -> Answer<&[u8]>
    ensures { seen_now result ≡ asked_answer input.now }
{
    match input {
        ServerInput::Tick => Answer::Tick,
        ServerInput::Request(lines) => Answer::Request(lines.as_slice()),
        ServerInput::End => Answer::End,
        ServerInput::Leave => Answer::Leave,
    }
}

/// Why a start failed.
fn failed_start(error: &io::Error) -> StartEnd
    ensures memory { error_kind error.now ≡ OutOfMemory → result ≡ NoMemory }
    ensures refused { error_kind error.now ≢ OutOfMemory → result ≡ Refused }
{
    if error.kind() == ErrorKind::OutOfMemory {
        return StartEnd::NoMemory;
    }
    StartEnd::Refused
}

/// How a start ended.
pub(crate) fn start_end<H>(started: &io::Result<H>) -> StartEnd
    ensures { IsStartEnd started.now result }
{
    match started {
        Ok(_) => StartEnd::Made,
        Err(error) => failed_start(error),
    }
}

/// The answer of contracts that are asked how one stands.
pub(crate) fn stand_answer<'a>(stood: &io::Result<Stand>) -> Answer<&'a [u8]>
    ensures { seen_now result ≡ stand_answer stood.now }
{
    match stood {
        Ok(Stand::Runs) => Answer::Runs(1),
        Ok(Stand::Left(end)) => Answer::Left(*end),
        Ok(Stand::Gone(end)) => Answer::Gone(*end),
        Err(_) => Answer::Lost,
    }
}

/// The answer of contracts that are asked to end one.
pub(crate) fn end_answer<'a>(ended: &io::Result<bool>) -> Answer<&'a [u8]>
    ensures { seen_now result ≡ end_answer ended.now }
{
    match ended {
        Ok(true) => Answer::Ends(EndAnswer::Ended),
        Ok(false) => Answer::Ends(EndAnswer::Lives),
        Err(_) => Answer::Ends(EndAnswer::Failed),
    }
}
