ghost use Rattle.std.specs.Prelude.{◌≡◌, ◌++◌, OnOk, string_bytes};
ghost use Rattle.smf_record.specs.Answers.{seen_now};
ghost use Rattle.smf_record.specs.Texts.{answer_text};
ghost use Rattle.smf_record.specs.Words.{end_text};
ghost use Rattle.smf_record.specs.declared.answer.Answer.TheVariants as answers;

use crate::answer::{Answer, StartAnswer};
use crate::digits::hex_text;
use crate::word::{end_answer_text, start_end_text};
use smf_edge::FirstEnd;
use std::alloc::{AllocError, Global};
use std::fmt::Write;

fn put_end(out: &mut String, end: FirstEnd) -> Result<(), AllocError>
    ensures { OnOk result (string_bytes out.new ≡ string_bytes out.old ++ end_text end) }
{
    match end {
        FirstEnd::Code(code) => write!(out, "{code}"),
        FirstEnd::Signal => out.push_str("signal"),
        FirstEnd::Core => out.push_str("core"),
    }
}

fn put_start(out: &mut String, start: StartAnswer) -> Result<(), AllocError>
    ensures { OnOk result (string_bytes out.new ≡ string_bytes out.old ++ answer_text (answers.Start start)) }
{
    let contract = start.contract;
    let cookie = start.cookie;
    let end = start_end_text(start.end);
    write!(out, "start {contract} {cookie} {end}")
}

fn put_request(out: &mut String, alloc: Global, lines: &[u8]) -> Result<(), AllocError>
    ensures { OnOk result (string_bytes out.new ≡ string_bytes out.old ++ answer_text (answers.Request lines.now)) }
{
    let digits = hex_text(alloc, lines)?;
    out.push_str("request ")?;
    out.push_str(digits.as_str())
}

fn put_left(out: &mut String, end: FirstEnd) -> Result<(), AllocError>
    ensures { OnOk result (string_bytes out.new ≡ string_bytes out.old ++ answer_text (answers.Left end)) }
{
    out.push_str("left ")?;
    put_end(out, end)
}

fn put_gone(out: &mut String, end: FirstEnd) -> Result<(), AllocError>
    ensures { OnOk result (string_bytes out.new ≡ string_bytes out.old ++ answer_text (answers.Gone end)) }
{
    out.push_str("gone ")?;
    put_end(out, end)
}

/// Puts the text of an answer, without the end of its line.
pub(crate) fn put_answer(
    out: &mut String,
    alloc: Global,
    answer: Answer<&[u8]>,
) -> Result<(), AllocError>
    ensures { OnOk result (string_bytes out.new ≡ string_bytes out.old ++ answer_text (seen_now answer.entry)) }
{
    match answer {
        Answer::Tick => out.push_str("tick"),
        Answer::Request(lines) => put_request(out, alloc, lines),
        Answer::End => out.push_str("end"),
        Answer::Leave => out.push_str("leave"),
        Answer::Replied(true) => out.push_str("replied 1"),
        Answer::Replied(false) => out.push_str("replied 0"),
        Answer::Time(moment) => {
            let seconds = moment.seconds;
            let nanoseconds = moment.nanoseconds;
            write!(out, "time {seconds} {nanoseconds}")
        }
        Answer::Start(start) => put_start(out, start),
        Answer::Runs(count) => write!(out, "runs {count}"),
        Answer::Left(end) => put_left(out, end),
        Answer::Gone(end) => put_gone(out, end),
        Answer::Lost => out.push_str("lost"),
        Answer::Ends(end) => {
            let end = end_answer_text(end);
            write!(out, "ends {end}")
        }
    }
}
