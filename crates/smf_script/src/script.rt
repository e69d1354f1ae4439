ghost use Rattle.std.specs.Prelude.{◌≡◌, ◌≤◌, IfErr, IfOk, IfSome, OnErr, OnOk};
ghost use Rattle.smf_script.specs.Agrees.{AgreesSince, Before};
ghost use Rattle.smf_lines.specs.Lines.{lines_of};
ghost use Rattle.smf_script.specs.Agreed.{AgreesOrDroppedSince};
ghost use Rattle.smf_edge.specs.Answers.{children_state};
ghost use Rattle.smf_script.specs.ScriptRuns.{HasRun, HasWritten, IsCut, Stops};
ghost use Rattle.smf_script.specs.Faults.{IsWhy, Tells, failed_in};
ghost use Rattle.smf_script.specs.Script.{IsWithin, first_session, status_of};
ghost use Rattle.smf_world.specs.Reached.{IsLater};
ghost use Rattle.smf_past.specs.Begun.{IsSafeSince};

use crate::fault::ScriptFault;
use crate::lines::run_line;
use smf_edge::Kids;
use smf_lines::{LineReader, TextWriter, Turns, read_line};
use smf_model::Journal;
use smf_node::Node;
use smf_svccfg::Selection;
use std::alloc::Global;

/// Does a line, and writes its text.
fn do_line<W: TextWriter, J: Journal, K: Kids>(
    alloc: Global,
    writer: &mut W,
    node: &mut Node<J>,
    kids: &mut K,
    selection: &mut Selection,
    line: &[u8],
) -> Result<bool, ScriptFault>
    ensures exact { IfOk result
        (λ fine. HasWritten K.skills line.now (record { progress = node.old; selection = selection.old })
        (record { progress = node.new; selection = selection.new })
        (children_state (K.ledger kids.old) (K.failures kids.old))
        (children_state (K.ledger kids.new) (K.failures kids.new)) (W.contents writer.old)
        (W.contents writer.new) fine) }
    ensures err { IfErr result
        (λ e. IsCut K.skills J.write_fails e line.now (record { progress = node.old; selection = selection.old })
        (children_state (K.ledger kids.old) (K.failures kids.old))
        (children_state (K.ledger kids.new) (K.failures kids.new)) node.new (W.contents writer.old)
        (W.contents writer.new)) }
    ensures later { IsLater node.old.world node.new.world }
    ensures fault { IfErr result (λ e. IsWhy J.write_fails (λ _. ⊥) W.write_fails e) }
{
    let mut text = String::new(alloc);
    let fine = run_line(alloc, node, kids, selection, line, &mut text)?;
    match writer.write_text(text.as_bytes()) {
        Ok(()) => Ok(fine),
        Err(e) => Err(ScriptFault::Output(e)),
    }
}

fn status_of(fine: bool) -> u8
    ensures value { result ≡ status_of fine }
    ensures small { result ≤ 1 }
{
    if fine { 0 } else { 1 }
}

/// Does lines to the end of a reader.
fn do_lines<R: LineReader, W: TextWriter, J: Journal, K: Kids>(
    alloc: Global,
    reader: &mut R,
    writer: &mut W,
    node: &mut Node<J>,
    kids: &mut K,
) -> Result<u8, ScriptFault>
    ensures ran { IfOk result (λ status.
        HasRun K.skills (first_session node.old) (R.remaining reader.old) (children_state (K.ledger kids.old) (K.failures kids.old)) (children_state (K.ledger kids.new) (K.failures kids.new)) node.new (W.contents writer.old) (W.contents writer.new) status) }
    ensures exit { IfOk result (λ status. status ≤ 1) }
    ensures few { IfOk result
        (λ status. IfSome (R.remaining reader.old)
        (λ input. IsWithin (lines_of input) (R.interrupted reader.old) (R.interrupted reader.new))) }
    ensures err { IfErr result (λ fault.
        Stops K.skills J.write_fails fault (first_session node.old) (R.remaining reader.old) (children_state (K.ledger kids.old) (K.failures kids.old)) (children_state (K.ledger kids.new) (K.failures kids.new)) node.new (W.contents writer.old) (W.contents writer.new)) }
    ensures later { IsLater node.old.world node.new.world }
    ensures fault { IfErr result (λ e. IsWhy J.write_fails R.read_fails W.write_fails e) }
    ensures failed { R.has_failed reader.new ≡ failed_in result (R.has_failed reader.old) }
    ensures told { IfErr result (λ e. Tells e (R.interrupted reader.old) (R.interrupted reader.new)) }
{
    let mut fine = true;
    let mut selection = Selection::Nothing;
    let mut turns = Turns::new();
    loop {
        match read_line(alloc, reader, &mut turns)? {
            None => return Ok(status_of(fine)),
            Some(line) => {
                let did = do_line(alloc, writer, node, kids, &mut selection, &line)?;
                fine &= did;
            }
        }
    }
}

/// Reads lines to the end, does each over a node and its children, and writes its text when it is done. The status is 1
/// if a line failed.
pub fn run_script<R: LineReader, W: TextWriter, J: Journal, K: Kids>(
    alloc: Global,
    reader: &mut R,
    writer: &mut W,
    node: &mut Node<J>,
    kids: &mut K,
) -> Result<u8, ScriptFault>
    // The lines were done one after another, and what they gave was written in this order; the status is 0 if none
    // failed. If the bytes are known, they are all lines of these.
    ensures ran { IfOk result (λ status.
        HasRun K.skills (first_session node.old) (R.remaining reader.old) (children_state (K.ledger kids.old) (K.failures kids.old)) (children_state (K.ledger kids.new) (K.failures kids.new)) node.new (W.contents writer.old) (W.contents writer.new) status) }
    ensures exit { IfOk result (λ status. status ≤ 1) }
    ensures few { IfOk result
        (λ status. IfSome (R.remaining reader.old)
        (λ input. IsWithin (lines_of input) (R.interrupted reader.old) (R.interrupted reader.new))) }
    // Some of the lines were done, and their texts were written.
    ensures err { IfErr result (λ fault.
        Stops K.skills J.write_fails fault (first_session node.old) (R.remaining reader.old) (children_state (K.ledger kids.old) (K.failures kids.old)) (children_state (K.ledger kids.new) (K.failures kids.new)) node.new (W.contents writer.old) (W.contents writer.new)) }
    // If children and the node agreed, they agree; only a fault in a boot may leave children that have dropped all.
    ensures agrees { (b : Before) → OnOk result (AgreesSince b node.old.world (K.ledger kids.old)
        → AgreesSince b node.new.world (K.ledger kids.new)) }
    ensures dropped { (b : Before) → OnErr result (AgreesSince b node.old.world (K.ledger kids.old)
        → AgreesOrDroppedSince b node.new.world (K.ledger kids.new)) }
    // Whatever the lines and the children: what the trail shows is what happened.
    ensures safe { IsSafeSince node.new.world }
    ensures later { IsLater node.old.world node.new.world }
    ensures fault { IfErr result (λ e. IsWhy J.write_fails R.read_fails W.write_fails e) }
    // A read that failed ends it, and no other read does; an interrupted one counts as a line.
    ensures failed { R.has_failed reader.new ≡ failed_in result (R.has_failed reader.old) }
    ensures told { IfErr result (λ e. Tells e (R.interrupted reader.old) (R.interrupted reader.new)) }
{
    let _begun = node.trail();
    let end = do_lines(alloc, reader, writer, node, kids);
    let _shown = node.trail();
    end
}
