//! The words of answers.

ghost use Rattle.std.specs.Prelude.{◌≡◌};
ghost use Rattle.smf_record.specs.Words.{end_of_count, end_answer_text, read_end, read_end_answer, read_nanoseconds, read_start_end, read_word, start_end_text};

use crate::answer::{EndAnswer, StartEnd};
use smf_edge::FirstEnd;
use smf_fmri::read_count;

/// The word that an answer begins with.
#[derive(Clone, Copy, PartialEq, Eq)]
pub(crate) enum Word {
    Tick,
    Request,
    End,
    Leave,
    Replied,
    Time,
    Start,
    Runs,
    Left,
    Gone,
    Lost,
    Ends,
}

pub(crate) fn read_word(text: &str) -> Option<Word>
    ensures { result ≡ read_word text.now }
{
    if text == "tick" {
        Some(Word::Tick)
    } else if text == "request" {
        Some(Word::Request)
    } else if text == "end" {
        Some(Word::End)
    } else if text == "leave" {
        Some(Word::Leave)
    } else if text == "replied" {
        Some(Word::Replied)
    } else if text == "time" {
        Some(Word::Time)
    } else if text == "start" {
        Some(Word::Start)
    } else if text == "runs" {
        Some(Word::Runs)
    } else if text == "left" {
        Some(Word::Left)
    } else if text == "gone" {
        Some(Word::Gone)
    } else if text == "lost" {
        Some(Word::Lost)
    } else if text == "ends" {
        Some(Word::Ends)
    } else {
        None
    }
}

pub(crate) fn start_end_text(value: StartEnd) -> &'static str
    ensures { result.now ≡ start_end_text value }
{
    match value {
        StartEnd::Made => "made",
        StartEnd::Refused => "refused",
        StartEnd::NoMemory => "memory",
    }
}

pub(crate) fn read_start_end(text: &str) -> Option<StartEnd>
    ensures { result ≡ read_start_end text.now }
{
    if text == "made" {
        Some(StartEnd::Made)
    } else if text == "refused" {
        Some(StartEnd::Refused)
    } else if text == "memory" {
        Some(StartEnd::NoMemory)
    } else {
        None
    }
}

pub(crate) fn end_answer_text(value: EndAnswer) -> &'static str
    ensures { result.now ≡ end_answer_text value }
{
    match value {
        EndAnswer::Ended => "ended",
        EndAnswer::Lives => "lives",
        EndAnswer::Failed => "failed",
    }
}

pub(crate) fn read_end_answer(text: &str) -> Option<EndAnswer>
    ensures { result ≡ read_end_answer text.now }
{
    if text == "ended" {
        Some(EndAnswer::Ended)
    } else if text == "lives" {
        Some(EndAnswer::Lives)
    } else if text == "failed" {
        Some(EndAnswer::Failed)
    } else {
        None
    }
}

fn end_of_count(count: Option<u64>) -> Option<FirstEnd>
    ensures { result ≡ end_of_count count }
{
    match count {
        Some(code) if code < 256 => Some(FirstEnd::Code(code as u8)),
        _ => None,
    }
}

/// How a first process ended: its code, or a word.
pub(crate) fn read_end(text: &str) -> Option<FirstEnd>
    ensures { result ≡ read_end text.now }
{
    if text == "signal" {
        Some(FirstEnd::Signal)
    } else if text == "core" {
        Some(FirstEnd::Core)
    } else {
        end_of_count(read_count(text))
    }
}

/// Fewer nanoseconds than a second has.
pub(crate) fn read_nanoseconds(text: &str) -> Option<u32>
    ensures { result ≡ read_nanoseconds text.now }
{
    match read_count(text) {
        Some(count) if count < 1_000_000_000 => Some(count as u32),
        _ => None,
    }
}
