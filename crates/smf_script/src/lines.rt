ghost use Rattle.std.specs.Prelude.{IfErr, IfOk, string_bytes};
ghost use Rattle.smf_script.specs.Moves.{Moves};
ghost use Rattle.smf_edge.specs.Answers.{children_state};
ghost use Rattle.smf_script.specs.LineFailures.{IsCutShort, LeavesWith, LineFails};
ghost use Rattle.smf_script.specs.Lines.{DoesWith, HasDone, HasPut, HasSettled, deed, effect};
ghost use Rattle.smf_script.specs.Faults.{MayStop};
ghost use Rattle.smf_script.specs.Requests.{request_of};
ghost use Rattle.smf_world.specs.Reached.{IsLater};

use crate::actions::{boot, join, process};
use crate::request::{ChildRequest, Request, request_of};
use crate::rounds::drive;
use crate::session::{run_request, settled_text};
use smf_edge::Kids;
use smf_model::Journal;
use smf_node::{Node, NodeFault};
use smf_svccfg::Selection;
use std::alloc::Global;

/// Rounds happen with the answers of children.
fn settle<J: Journal, K: Kids>(
    node: &mut Node<J>,
    kids: &mut K,
    rounds: u64,
    out: &mut String,
) -> Result<bool, NodeFault>
    ensures exact { IfOk result (λ fine. HasPut (λ text.
        HasSettled K.skills rounds node.old (children_state (K.ledger kids.old) (K.failures kids.old)) (children_state (K.ledger kids.new) (K.failures kids.new)) (deed node.new fine text))
        (string_bytes out.old) (string_bytes out.new)) }
    ensures moves { Moves node.old.world node.new.world (K.ledger kids.old) (K.ledger kids.new) }
    ensures err { IfErr result (λ e.
        IsCutShort K.skills J.write_fails rounds node.old (children_state (K.ledger kids.old) (K.failures kids.old)) node.new (children_state (K.ledger kids.new) (K.failures kids.new)) e) }
    ensures later { IsLater node.old.world node.new.world }
    ensures fault { IfErr result (λ e. MayStop J.write_fails e) }
{
    let how = drive(node, kids, rounds)?;
    out.push_str(settled_text(how))?;
    Ok(true)
}

/// Does what a line asks of children.
fn ask_children<J: Journal, K: Kids>(
    alloc: Global,
    node: &mut Node<J>,
    kids: &mut K,
    request: &ChildRequest,
    out: &mut String,
) -> Result<bool, NodeFault>
    ensures exact { IfOk result (λ fine. HasPut (λ text.
        DoesWith K.skills request.now node.old (children_state (K.ledger kids.old) (K.failures kids.old)) (children_state (K.ledger kids.new) (K.failures kids.new)) (deed node.new fine text))
        (string_bytes out.old) (string_bytes out.new)) }
    ensures err { IfErr result (λ e.
        LeavesWith K.skills J.write_fails request.now node.old (children_state (K.ledger kids.old) (K.failures kids.old)) node.new (children_state (K.ledger kids.new) (K.failures kids.new)) e) }
    ensures later { IsLater node.old.world node.new.world }
    ensures fault { IfErr result (λ e. MayStop J.write_fails e) }
{
    match request {
        ChildRequest::Settle(rounds) => settle(node, kids, *rounds, out),
        ChildRequest::Process { word, what } => process(alloc, node, kids, word, *what, out),
        ChildRequest::Join(word) => join(alloc, node, kids, word, out),
        ChildRequest::Boot => boot(node, kids, out),
    }
}

fn do_request<J: Journal, K: Kids>(
    alloc: Global,
    node: &mut Node<J>,
    kids: &mut K,
    selection: &mut Selection,
    request: &Request,
    out: &mut String,
) -> Result<bool, NodeFault>
    ensures exact { IfOk result (λ fine. HasPut (λ text.
        HasDone K.skills request.now (record { progress = node.old; selection = selection.old }) (children_state (K.ledger kids.old) (K.failures kids.old)) (children_state (K.ledger kids.new) (K.failures kids.new)) (effect (record { progress = node.new; selection = selection.new }) fine text))
        (string_bytes out.old) (string_bytes out.new)) }
    ensures err { IfErr result
        (λ e. LineFails K.skills J.write_fails request.now (record { progress = node.old; selection = selection.old })
        (children_state (K.ledger kids.old) (K.failures kids.old))
        (children_state (K.ledger kids.new) (K.failures kids.new)) node.new e) }
    ensures later { IsLater node.old.world node.new.world }
    ensures fault { IfErr result (λ e. MayStop J.write_fails e) }
{
    match request {
        Request::Node(request) => run_request(alloc, node, selection, request, out),
        Request::Children(request) => ask_children(alloc, node, kids, request, out),
    }
}

/// Does a line, which stands without its end, puts its text, and gives back whether it did not fail.
pub(crate) fn run_line<J: Journal, K: Kids>(
    alloc: Global,
    node: &mut Node<J>,
    kids: &mut K,
    selection: &mut Selection,
    line: &[u8],
    out: &mut String,
) -> Result<bool, NodeFault>
    ensures exact { IfOk result (λ fine. HasPut (λ text.
        HasDone K.skills (request_of line.now) (record { progress = node.old; selection = selection.old }) (children_state (K.ledger kids.old) (K.failures kids.old)) (children_state (K.ledger kids.new) (K.failures kids.new)) (effect (record { progress = node.new; selection = selection.new }) fine text))
        (string_bytes out.old) (string_bytes out.new)) }
    ensures err { IfErr result
        (λ e. LineFails K.skills J.write_fails (request_of line.now)
        (record { progress = node.old; selection = selection.old })
        (children_state (K.ledger kids.old) (K.failures kids.old))
        (children_state (K.ledger kids.new) (K.failures kids.new)) node.new e) }
    ensures later { IsLater node.old.world node.new.world }
    ensures fault { IfErr result (λ e. MayStop J.write_fails e) }
{
    let request = request_of(alloc, line)?;
    do_request(alloc, node, kids, selection, &request, out)
}
