ghost use Rattle.std.specs.Prelude.{◌≡◌, ◌⊎◌, [], ◌++◌, ◌∷◌, false, IfErr, IfOk, OnOk, is_none, reverse, string_bytes, true};
ghost use Rattle.std.specs.List.{list_any};
ghost use Rattle.smf_admin.specs.Requests.{commands_of};
ghost use Rattle.smf_model.specs.Refusals.{refusal};
ghost use Rattle.smf_script.specs.declared.request.NodeRequest.TheVariants as requests;
ghost use Rattle.smf_script.specs.Session.{IsDeed, IsEffect, deed_of_command, asked_all, success_deed, effect_of, deed_of_edit, listing_of, settled_text, svcadm, svccfg, svcs, told_text};
ghost use Rattle.smf_script.specs.Failures.{AreDone, DeedFails, MayEnd, RequestFails, SvcadmLeaves, give_edits, gives_edit};
ghost use Rattle.smf_world.specs.TrailText.{trail_text};
ghost use Rattle.smf_world.specs.Reached.{IsLater};

use crate::cfg_fault::SessionFault;
use crate::cfg_line::do_cfg_line;
use crate::processes::{crash, refuse, time_out};
use crate::request::NodeRequest;
use smf_admin::{
    Asked, Listing, Options, commands_of, no_match_text, options_of, several_text, svcadm_usage,
    svcs_text, svcs_usage,
};
use smf_fmri::{Items, Text};
use smf_model::{CommandReply, Edit, Journal, refusal_text};
use smf_node::{Node, NodeFault};
use smf_svccfg::{Selection, fault_text};
use smf_world::{Settled, trail_text};
use std::alloc::{AllocError, Global};

/// Puts the name of a program, words, and the end of a line.
fn put_line(out: &mut String, program: &str, words: &str) -> Result<(), AllocError>
    ensures { OnOk result (string_bytes out.new ≡ string_bytes out.old ++ (program.now ++ words.now ++ 10 ∷ [])) }
{
    out.push_str(program)?;
    out.push_str(words)?;
    out.push('\n')
}

/// Puts why an edit was refused, if it was, and gives back whether it was not.
fn report(
    alloc: Global,
    reply: &CommandReply,
    program: &str,
    out: &mut String,
) -> Result<bool, AllocError>
    ensures texts { OnOk result
        (string_bytes out.new ≡ string_bytes out.old ++ told_text program.now (refusal reply.now)) }
    ensures flag { IfOk result (λ fine. fine ≡ is_none (refusal reply.now)) }
{
    let Some(words) = refusal_text(alloc, reply)? else {
        return Ok(true);
    };
    put_line(out, program, words.as_str())?;
    Ok(false)
}

/// Gives an edit, and puts why it was refused, if it was; gives back whether it was not.
#[tactic(auto, unfolding(crate::specs::Session::deed_of_edit))]
fn give<J: Journal>(
    alloc: Global,
    node: &mut Node<J>,
    edit: Edit,
    program: &str,
    out: &mut String,
) -> Result<bool, NodeFault>
    ensures exact { IfOk result
        (λ fine. IsDeed (deed_of_edit program.now node.old edit) node.new (string_bytes out.old)
        (string_bytes out.new) fine) }
    ensures later { IsLater node.old.world node.new.world }
    ensures err { IfErr result
        (λ e. DeedFails J.write_fails true node.old (deed_of_edit program.now node.old edit) node.new e) }
{
    let reply = node.apply(edit)?;
    let fine = report(alloc, &reply, program, out)?;
    Ok(fine)
}

#[tactic(auto, unfolding(crate::specs::Session::svccfg))]
fn svccfg<J: Journal>(
    alloc: Global,
    node: &mut Node<J>,
    selection: &mut Selection,
    line: &str,
    out: &mut String,
) -> Result<bool, NodeFault>
    ensures exact { IfOk result
        (λ fine. IsEffect (svccfg (record { progress = node.old; selection = selection.old }) line.now) node.new
        selection.new (string_bytes out.old) (string_bytes out.new) fine) }
    ensures later { IsLater node.old.world node.new.world }
    ensures err { IfErr result
        (λ e. RequestFails J.write_fails (record { progress = node.old; selection = selection.old })
        (requests.Svccfg line.now) node.new e) }
{
    match do_cfg_line(alloc, node, selection, line) {
        Ok(output) => {
            out.push_str(output.text.as_str())?;
            Ok(true)
        }
        Err(SessionFault::Line(fault)) => {
            let words = fault_text(alloc, fault)?;
            put_line(out, "svccfg: ", words.as_str())?;
            Ok(false)
        }
        Err(SessionFault::Refused(reply)) => {
            report(alloc, &reply, "svccfg: ", out)?;
            Ok(false)
        }
        Err(SessionFault::Repo(fault)) => Err(NodeFault::from(fault)),
    }
}

#[tactic(auto, unfolding(crate::specs::Session::deed_of_command))]
fn do_command<J: Journal>(
    alloc: Global,
    node: &mut Node<J>,
    one: Asked,
    out: &mut String,
) -> Result<bool, NodeFault>
    ensures exact { IfOk result
        (λ fine. IsDeed (deed_of_command node.old one) node.new (string_bytes out.old) (string_bytes out.new) fine) }
    ensures later { IsLater node.old.world node.new.world }
    ensures err { IfErr result
        (λ e. DeedFails J.write_fails (gives_edit one) node.old (deed_of_command node.old one) node.new e) }
{
    match one {
        Asked::Edit(edit) => give(alloc, node, edit, "svcadm: ", out),
        Asked::NoMatch(word) => {
            out.push_str(no_match_text(alloc, "svcadm", word.as_str())?.as_str())?;
            Ok(false)
        }
        Asked::Several(word, count) => {
            out.push_str(several_text(alloc, "svcadm", word.as_str(), count)?.as_str())?;
            Ok(false)
        }
    }
}

/// Does all of them in turn, also if one is refused.
fn asked_all<J: Journal>(
    alloc: Global,
    node: &mut Node<J>,
    all: Items<Asked>,
    out: &mut String,
) -> Result<bool, NodeFault>
    ensures exact { IfOk result
        (λ fine. IsDeed (asked_all (success_deed node.old []) all) node.new (string_bytes out.old)
        (string_bytes out.new) fine) }
    ensures later { IsLater node.old.world node.new.world }
    ensures err { IfErr result (λ e. MayEnd J.write_fails (list_any gives_edit all) e × AreDone node.old all node.new) }
{
    let mut fine = true;
    for one in all.into_vec() {
        let did = do_command(alloc, node, one, out)?;
        fine &= did;
    }
    Ok(fine)
}

/// The commands that the words after svcadm ask for, over what the node holds; none is bad usage.
fn commands_on<J: Journal>(
    alloc: Global,
    node: &Node<J>,
    words: &[Text],
) -> Result<Option<Items<Asked>>, AllocError>
    ensures { IfOk result (λ all. all ≡ commands_of node.now.world.now.names words.now) }
{
    commands_of(alloc, words, node.repository().names())
}

#[tactic(auto, unfolding(crate::specs::Session::svcadm))]
fn svcadm<J: Journal>(
    alloc: Global,
    node: &mut Node<J>,
    words: &[Text],
    out: &mut String,
) -> Result<bool, NodeFault>
    ensures exact { IfOk result
        (λ fine. IsDeed (svcadm node.old words.now) node.new (string_bytes out.old) (string_bytes out.new) fine) }
    ensures later { IsLater node.old.world node.new.world }
    ensures err { IfErr result
        (λ e. MayEnd J.write_fails (give_edits (commands_of node.old.world.now.names words.now)) e
        × ((node.new ≡ node.old) ⊎ (node.new ≡ (svcadm node.old words.now).progress)
        ⊎ SvcadmLeaves node.old words.now node.new)) }
{
    match commands_on(alloc, node, words)? {
        Some(all) => asked_all(alloc, node, all, out),
        None => {
            out.push_str(svcadm_usage())?;
            Ok(false)
        }
    }
}

/// The output of svcs over what the node holds. The bodies of snapshots are read only if dependencies are asked for.
fn svcs_output<J: Journal>(
    alloc: Global,
    node: &Node<J>,
    options: &Options,
) -> Result<Listing, AllocError>
    ensures { IfOk result (λ listing. listing ≡ listing_of node.now.world.now options.now) }
{
    if options.needs_bodies() {
        let view = node.repository().view()?;
        svcs_text(alloc, view.items.as_slice(), options)
    } else {
        let rows = node.repository().rows()?;
        svcs_text(alloc, rows.as_slice(), options)
    }
}

#[tactic(auto, unfolding(crate::specs::Session::svcs))]
fn svcs<J: Journal>(
    alloc: Global,
    node: &Node<J>,
    words: &[Text],
    out: &mut String,
) -> Result<bool, AllocError>
    ensures { IfOk result
        (λ fine. IsDeed (svcs node.now words.now) node.now (string_bytes out.old) (string_bytes out.new) fine) }
{
    let Some(options) = options_of(alloc, words)? else {
        out.push_str(svcs_usage())?;
        return Ok(false);
    };
    let listing = svcs_output(alloc, node, &options)?;
    out.push_str(listing.text.as_str())?;
    Ok(listing.all_matched)
}

/// The text that `settle` prints.
pub fn settled_text(how: Settled) -> &'static str
    ensures { result.now ≡ settled_text how }
{
    match how {
        Settled::Quiet => "quiet\n",
        Settled::Busy => "busy\n",
    }
}

/// Puts the trail of a node.
fn put_trail<J: Journal>(alloc: Global, node: &Node<J>, out: &mut String) -> Result<(), AllocError>
    ensures { OnOk result (string_bytes out.new ≡ string_bytes out.old ++ trail_text (reverse node.now.world.trail)) }
{
    let text = trail_text(alloc, node.trail())?;
    out.push_str(text.as_str())
}

/// Does what a line asks of the node alone, puts its text, and gives back whether it did not fail.
#[tactic(auto, unfolding(crate::specs::Session::effect_of, crate::specs::Session::progress_after_repeat))]
pub fn run_request<J: Journal>(
    alloc: Global,
    node: &mut Node<J>,
    selection: &mut Selection,
    request: &NodeRequest,
    out: &mut String,
) -> Result<bool, NodeFault>
    ensures exact { IfOk result
        (λ fine. IsEffect (effect_of (record { progress = node.old; selection = selection.old }) request.now) node.new
        selection.new (string_bytes out.old) (string_bytes out.new) fine) }
    ensures later { IsLater node.old.world node.new.world }
    ensures err { IfErr result
        (λ e. RequestFails J.write_fails (record { progress = node.old; selection = selection.old }) request.now
        node.new e) }
{
    match request {
        NodeRequest::Nothing => Ok(true),
        NodeRequest::Svccfg(line) => svccfg(alloc, node, selection, line.as_str(), out),
        NodeRequest::Svcadm(words) => svcadm(alloc, node, words.as_slice(), out),
        NodeRequest::Svcs(words) => {
            let fine = svcs(alloc, node, words.as_slice(), out)?;
            Ok(fine)
        }
        NodeRequest::Refuse(count) => {
            node.refuse(*count);
            Ok(true)
        }
        NodeRequest::Lose(count) => {
            node.lose(*count)?;
            Ok(true)
        }
        NodeRequest::Again(count) => {
            node.again(*count)?;
            Ok(true)
        }
        NodeRequest::Timeout(word) => time_out(alloc, node, word, out),
        NodeRequest::Crash(word) => crash(alloc, node, word, out),
        NodeRequest::Trail => {
            put_trail(alloc, node, out)?;
            Ok(true)
        }
        NodeRequest::Bad => refuse(out, "smf: bad line\n"),
    }
}
