ghost use Rattle.std.specs.Prelude.{◌≡◌, ◌⊎◌, [], IfErr, IfOk, OnErr, Ok};
ghost use Rattle.smf_script.specs.CfgLines.{IsDone, HasFollowed, IsFault, IsGivenOr, IsGivenTo, IsUndone, at, result_of_judgement, result_of_edit, output_at_end, ran, output_of_text};
ghost use Rattle.smf_model.specs.declared.command.Command.TheVariants as commands;
ghost use Rattle.smf_model.specs.declared.journal.RepoFault.TheVariants.{Memory};
ghost use Rattle.smf_model.specs.Laws.{is_refusal};
ghost use Rattle.smf_model.specs.Next.{next};
ghost use Rattle.smf_model.specs.Clients.{IsEditedAlone};
ghost use Rattle.smf_svccfg.specs.Judged.{judgement_of};

use crate::cfg_fault::SessionFault;
use crate::cfg_output::Output;
use smf_fmri::Text;
use smf_model::{Client, CommandReply, Edit, RepoFault};
use smf_svccfg::{CfgFault, Judged, Selection, judge};
use std::alloc::Global;

fn is_refusal(reply: &CommandReply) -> bool
    ensures { result ≡ is_refusal reply.now }
{
    match reply {
        CommandReply::Made(_) => false,
        CommandReply::Granted(_) => false,
        CommandReply::Done => false,
        _ => true,
    }
}

/// A line that printed this, and after which the session goes on.
fn output_of_text(text: Text) -> Output
    ensures { result ≡ output_of_text text }
{
    Output {
        text,
        has_ended: false,
    }
}

/// The end of the session.
fn output_at_end(text: Text) -> Output
    requires { text ≡ [] }
    ensures { result ≡ output_at_end }
{
    Output {
        text,
        has_ended: true,
    }
}

/// Gives an edit to the client.
fn apply<C: Client>(client: &mut C, edit: Edit) -> Result<CommandReply, RepoFault>
    ensures exact { IfOk result (λ reply. next (C.held client.old) (commands.Edit edit) ≡ (C.held client.new, reply)) }
    ensures err { OnErr result (C.held client.new ≡ C.held client.old) }
    ensures follows { C.follows client.old edit result client.new }
    ensures edits { IsEditedAlone C.held C.follows client.old client.new }
    ensures fault { IfErr result (λ e. (e ≡ Memory) ⊎ C.edit_fails e) }
{
    client.apply(edit)
}

/// Gives an edit to the client. If the edit is accepted, `after` becomes the selection.
#[tactic(auto, unfolding(crate::specs::CfgLines::result_of_edit))]
fn give<C: Client>(
    alloc: Global,
    client: &mut C,
    selection: &mut Selection,
    edit: Edit,
    after: Selection,
) -> Result<Output, SessionFault>
    ensures ok { IfOk result
        (λ output. IsDone (result_of_edit (at (C.held client.old) selection.old) edit after)
        (C.held client.new) selection.new (Ok output)) }
    ensures err { IfErr result
        (λ e. IsUndone (result_of_edit (at (C.held client.old) selection.old) edit after)
        (C.held client.new) selection.new e) }
    ensures kept { OnErr result (C.held client.new ≡ C.held client.old) }
    ensures unselected { OnErr result (selection.new ≡ selection.old) }
    ensures given { HasFollowed C.follows client.old edit client.new result }
    ensures edits { IsEditedAlone C.held C.follows client.old client.new }
    ensures fault { IfErr result (λ e. IsFault C.edit_fails e) }
{
    let reply = apply(client, edit)?;
    if is_refusal(&reply) {
        return Err(SessionFault::Refused(reply));
    }
    *selection = after;
    Ok(output_of_text(Text::from_string(String::new(alloc))))
}

/// Carries out what a line was judged to be.
#[tactic(auto, unfolding(crate::specs::CfgLines::result_of_judgement))]
fn carry_out<C: Client>(
    alloc: Global,
    client: &mut C,
    selection: &mut Selection,
    judged: Judged,
) -> Result<Output, SessionFault>
    ensures ok { IfOk result
        (λ output. IsDone (result_of_judgement (at (C.held client.old) selection.old) (Ok judged))
        (C.held client.new) selection.new (Ok output)) }
    ensures err { IfErr result
        (λ e. IsUndone (result_of_judgement (at (C.held client.old) selection.old) (Ok judged))
        (C.held client.new) selection.new e) }
    ensures kept { OnErr result (C.held client.new ≡ C.held client.old) }
    ensures unselected { OnErr result (selection.new ≡ selection.old) }
    ensures given { IsGivenTo C.follows (Ok judged) client.old client.new result }
    ensures edits { IsEditedAlone C.held C.follows client.old client.new }
    ensures fault { IfErr result (λ e. IsFault C.edit_fails e) }
{
    match judged {
        Judged::Nothing => Ok(output_of_text(Text::from_string(String::new(alloc)))),
        Judged::Select(found) => {
            *selection = found;
            Ok(output_of_text(Text::from_string(String::new(alloc))))
        }
        Judged::Edit(edit, after) => give(alloc, client, selection, edit, after),
        Judged::Print(text) => Ok(output_of_text(text)),
        Judged::End => {
            *selection = Selection::Nothing;
            Ok(output_at_end(Text::from_string(String::new(alloc))))
        }
    }
}

/// Does a line, which stands without its end, with what is selected.
#[tactic(auto, unfolding(crate::specs::CfgLines::ran, crate::specs::CfgLines::result_of_judgement))]
pub fn do_cfg_line<C: Client>(
    alloc: Global,
    client: &mut C,
    selection: &mut Selection,
    line: &str,
) -> Result<Output, SessionFault>
    // The holdings and the selection after the line, and its output.
    ensures ok { IfOk result
        (λ output. IsDone (ran (at (C.held client.old) selection.old) line.now) (C.held client.new) selection.new
        (Ok output)) }
    // A line that failed did so for its reason, unless it had no reply, and changed nothing.
    ensures err { IfErr result
        (λ e. IsUndone (ran (at (C.held client.old) selection.old) line.now) (C.held client.new) selection.new e) }
    ensures kept { OnErr result (C.held client.new ≡ C.held client.old) }
    ensures unselected { OnErr result (selection.new ≡ selection.old) }
    // The client was given the edit that the line is judged to be, unless memory ran out, and nothing else.
    ensures given { IsGivenOr C.follows (judgement_of (C.held client.old) selection.old line.now) client.old client.new
        result }
    ensures edits { IsEditedAlone C.held C.follows client.old client.new }
    ensures fault { IfErr result (λ e. IsFault C.edit_fails e) }
{
    match judge(alloc, client, selection, line) {
        Ok(judged) => carry_out(alloc, client, selection, judged),
        Err(CfgFault::Memory) => Err(SessionFault::Repo(RepoFault::Memory)),
        Err(fault) => Err(SessionFault::Line(fault)),
    }
}
