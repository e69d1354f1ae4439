ghost use Rattle.std.specs.Prelude.{◌≡◌, ◌≤◌, IfErr, IfOk, IfSome, OnOk, string_bytes};
ghost use Rattle.std.specs.Io.KnownBytes.{Appends};
ghost use Rattle.smf_script.specs.CfgRuns.{HasRun, IsCut, IsUnprinted, IsUnsaid, IsWhy, IsWithin, IsWritten, Stops, Tells, start_place, failure_text, effect, effect_of_text, failure_end, failed_in, line_of, end_after_output, status_of};
ghost use Rattle.smf_script.specs.CfgLines.{at};
ghost use Rattle.smf_script.specs.declared.cfg_fault.SessionFault.TheVariants as line_faults;
ghost use Rattle.smf_lines.specs.Lines.{lines_of};
ghost use Rattle.smf_model.specs.Clients.{IsEditedAlone};

use crate::cfg_fault::{RunFault, SessionFault};
use crate::cfg_line::do_cfg_line;
use crate::cfg_output::{LineEnd, Output};
use smf_lines::{LineReader, TextWriter, Turns, read_line, text_in};
use smf_model::{Client, CommandReply, refusal_text};
use smf_svccfg::{CfgFault, Selection, fault_text};
use std::alloc::{AllocError, Global};

/// How a line ends that failed.
fn failure_end() -> LineEnd
    ensures { result ≡ failure_end }
{
    LineEnd {
        is_fine: false,
        has_ended: false,
    }
}

/// Writes what a line gave.
fn print<W: TextWriter>(out: &mut W, output: &Output) -> Result<LineEnd, RunFault>
    ensures ok { OnOk result (Appends (W.contents out.old) (W.contents out.new) output.now.text) }
    ensures end { IfOk result (λ end. end ≡ end_after_output output.now) }
    ensures fault { IfErr result (λ e. IsUnprinted W.write_fails e) }
{
    match out.write_text(output.text.as_str().as_bytes()) {
        Ok(()) => Ok(LineEnd {
            is_fine: true,
            has_ended: output.has_ended,
        }),
        Err(e) => Err(RunFault::Output(e)),
    }
}

/// A line of the name of a program and words.
fn line_of(alloc: Global, program: &str, words: &str) -> Result<String, AllocError>
    ensures { IfOk result (λ line. string_bytes line ≡ line_of program.now words.now) }
{
    let mut line = String::from_str(alloc, program)?;
    line.push_str(words)?;
    line.push('\n')?;
    Ok(line)
}

/// Says why a line failed.
fn complain<E: TextWriter>(
    alloc: Global,
    errors: &mut E,
    program: &str,
    words: &str,
) -> Result<LineEnd, RunFault>
    ensures ok { OnOk result (Appends (E.contents errors.old) (E.contents errors.new) (line_of program.now words.now)) }
    ensures end { IfOk result (λ end. end ≡ failure_end) }
    ensures err { IfErr result (λ e. IsUnsaid E.write_fails e (E.contents errors.old) (E.contents errors.new)) }
{
    let line = line_of(alloc, program, words)?;
    match errors.write_text(line.as_bytes()) {
        Ok(()) => Ok(failure_end()),
        Err(e) => Err(RunFault::Errors(e)),
    }
}

/// Says why a line could not be judged.
fn blame_line<E: TextWriter>(
    alloc: Global,
    errors: &mut E,
    fault: CfgFault,
) -> Result<LineEnd, RunFault>
    ensures ok { OnOk result
        (Appends (E.contents errors.old) (E.contents errors.new) (failure_text (line_faults.Line fault))) }
    ensures end { IfOk result (λ end. end ≡ failure_end) }
    ensures err { IfErr result (λ e. IsUnsaid E.write_fails e (E.contents errors.old) (E.contents errors.new)) }
{
    let words = fault_text(alloc, fault)?;
    complain(alloc, errors, "svccfg: ", words.as_str())
}

/// Says why an edit was refused.
fn blame_refusal<E: TextWriter>(
    alloc: Global,
    errors: &mut E,
    reply: &CommandReply,
) -> Result<LineEnd, RunFault>
    ensures ok { OnOk result
        (Appends (E.contents errors.old) (E.contents errors.new) (failure_text (line_faults.Refused reply.now))) }
    ensures end { IfOk result (λ end. end ≡ failure_end) }
    ensures err { IfErr result (λ e. IsUnsaid E.write_fails e (E.contents errors.old) (E.contents errors.new)) }
{
    match refusal_text(alloc, reply)? {
        Some(words) => complain(alloc, errors, "svccfg: ", words.as_str()),
        None => Ok(failure_end()),
    }
}

/// Does a line that is a text, and writes what it gives.
#[tactic(auto, unfolding(crate::specs::CfgRuns::effect))]
fn do_text<C: Client, W: TextWriter, E: TextWriter>(
    alloc: Global,
    client: &mut C,
    selection: &mut Selection,
    out: &mut W,
    errors: &mut E,
    text: &str,
) -> Result<LineEnd, RunFault>
    ensures ok { IfOk result
        (λ end. IsWritten (effect_of_text (at (C.held client.old) selection.old) text.now)
        (C.held client.new) selection.new (W.contents out.old) (W.contents out.new) (E.contents errors.old)
        (E.contents errors.new) end) }
    ensures err { IfErr result
        (λ e. IsCut e (effect_of_text (at (C.held client.old) selection.old) text.now) (C.held client.old)
        (C.held client.new) (W.contents out.old) (W.contents out.new) (E.contents errors.old) (E.contents errors.new)) }
    ensures edits { IsEditedAlone C.held C.follows client.old client.new }
    ensures fault { IfErr result (λ e. IsWhy (λ _. ⊥) C.edit_fails W.write_fails E.write_fails e) }
{
    match do_cfg_line(alloc, client, selection, text) {
        Ok(output) => print(out, &output),
        Err(SessionFault::Line(fault)) => blame_line(alloc, errors, fault),
        Err(SessionFault::Refused(reply)) => blame_refusal(alloc, errors, &reply),
        Err(SessionFault::Repo(fault)) => Err(RunFault::Repo(fault)),
    }
}

/// Does a line, and writes what it gives.
#[tactic(auto, unfolding(crate::specs::CfgRuns::effect))]
fn do_line<C: Client, W: TextWriter, E: TextWriter>(
    alloc: Global,
    client: &mut C,
    selection: &mut Selection,
    out: &mut W,
    errors: &mut E,
    line: &[u8],
) -> Result<LineEnd, RunFault>
    ensures ok { IfOk result
        (λ end. IsWritten (effect (at (C.held client.old) selection.old) line.now) (C.held client.new) selection.new
        (W.contents out.old) (W.contents out.new) (E.contents errors.old) (E.contents errors.new) end) }
    ensures err { IfErr result
        (λ e. IsCut e (effect (at (C.held client.old) selection.old) line.now) (C.held client.old) (C.held client.new)
        (W.contents out.old) (W.contents out.new) (E.contents errors.old) (E.contents errors.new)) }
    ensures edits { IsEditedAlone C.held C.follows client.old client.new }
    ensures fault { IfErr result (λ e. IsWhy (λ _. ⊥) C.edit_fails W.write_fails E.write_fails e) }
{
    match text_in(line) {
        Some(text) => do_text(alloc, client, selection, out, errors, text),
        None => complain(alloc, errors, "smf: ", "bad line"),
    }
}

fn status_of(is_fine: bool) -> u8
    ensures { result ≡ status_of is_fine }
{
    if is_fine { 0 } else { 1 }
}

/// Reads lines of svccfg up to their end, or to the end of the session. After it has done a line, it writes the line's
/// output, or why the line failed.
pub fn run_cfg<R: LineReader, W: TextWriter, E: TextWriter, C: Client>(
    alloc: Global,
    reader: &mut R,
    out: &mut W,
    errors: &mut E,
    client: &mut C,
) -> Result<u8, RunFault>
    // The lines were done one after another. The holdings, the written texts and the status are what these lines give.
    // If the bytes are known, these are all lines of them, up to the end of the session.
    ensures ok { IfOk result (λ status.
        HasRun (start_place (C.held client.old)) (R.remaining reader.old) (C.held client.new) (W.contents out.old) (W.contents out.new) (E.contents errors.old) (E.contents errors.new) status) }
    ensures exit { IfOk result (λ status. status ≤ 1) }
    ensures few { IfOk result (λ status. IfSome (R.remaining reader.old) (λ input.
        IsWithin (start_place (C.held client.old)) (lines_of input) (R.interrupted reader.old) (R.interrupted reader.new))) }
    // Some lines were done, and their texts were written. If the bytes are known, these are the first lines of them.
    ensures err { IfErr result (λ fault.
        Stops fault (start_place (C.held client.old)) (R.remaining reader.old) (C.held client.new) (W.contents out.old) (W.contents out.new) (E.contents errors.old) (E.contents errors.new)) }
    // Edits were given to the client, and nothing else was done to it.
    ensures edits { IsEditedAlone C.held C.follows client.old client.new }
    ensures fault { IfErr result (λ e. IsWhy R.read_fails C.edit_fails W.write_fails E.write_fails e) }
    // A read that failed ends it, and no other read does; an interrupted one counts as a line.
    ensures failed { R.has_failed reader.new ≡ failed_in result (R.has_failed reader.old) }
    ensures told { IfErr result (λ e. Tells e (R.interrupted reader.old) (R.interrupted reader.new)) }
{
    let mut is_fine = true;
    let mut selection = Selection::Nothing;
    let mut turns = Turns::new();
    loop {
        match read_line(alloc, reader, &mut turns)? {
            None => return Ok(status_of(is_fine)),
            Some(line) => {
                let end = do_line(alloc, client, &mut selection, out, errors, &line)?;
                is_fine &= end.is_fine;
                if end.has_ended {
                    return Ok(status_of(is_fine));
                }
            }
        }
    }
}
