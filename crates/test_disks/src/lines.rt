use smf_admin::{Asked, commands_of};
use smf_fmri::{InstanceFmri, Items, strip};
use smf_model::{Command, Journal, Plain};
use smf_script::{SessionFault, do_cfg_line};
use smf_svccfg::{Selection, words};
use smf_wire::{Message, decode};
use std::alloc::Global;

/// Gives a command; whether there was a reply.
fn give<J: Journal>(repository: &mut Plain<J>, command: &Command) -> bool {
    repository.apply(command).is_ok()
}

/// All that the words after svcadm ask for.
fn asked_by<J: Journal>(alloc: Global, repository: &Plain<J>, text: &str) -> Option<Items<Asked>> {
    let words = words(alloc, text).ok()?;
    commands_of(alloc, words.as_slice(), repository.names()).ok()?
}

fn give_asked<J: Journal>(repository: &mut Plain<J>, one: Asked) -> bool {
    match one {
        Asked::Edit(edit) => give(repository, &Command::Edit(edit)),
        _ => false,
    }
}

/// Does what svcadm is asked for. It has a reply if each of its edits has one.
fn do_svcadm<J: Journal>(alloc: Global, repository: &mut Plain<J>, text: &str) -> bool {
    let Some(all) = asked_by(alloc, repository, text) else {
        return false;
    };
    for one in all.into_vec() {
        if !give_asked(repository, one) {
            return false;
        }
    }
    true
}

/// The command that a restarter or the machine gives by a line: `boot`, `launch NAME`, or the message of a proposal.
fn command_of(alloc: Global, line: &str) -> Option<Command> {
    if line == "boot" {
        return Some(Command::Boot);
    }
    if let Some(name) = strip("launch ", line) {
        let name = InstanceFmri::read_short(alloc, name).ok()?;
        return Some(Command::Launch(name?));
    }
    match decode(alloc, line) {
        Ok(Message::Propose(proposal)) => Some(Command::Propose(proposal)),
        _ => None,
    }
}

/// Does a line: one of svcadm, a command of a restarter or of the machine, or one of svccfg. True if it has a reply.
pub(crate) fn do_line<J: Journal>(
    alloc: Global,
    selection: &mut Selection,
    repository: &mut Plain<J>,
    line: &str,
) -> bool {
    if let Some(text) = strip("svcadm ", line) {
        return do_svcadm(alloc, repository, text);
    }
    if let Some(command) = command_of(alloc, line) {
        return give(repository, &command);
    }
    match do_cfg_line(alloc, repository, selection, line) {
        Err(SessionFault::Repo(_)) => false,
        _ => true,
    }
}
