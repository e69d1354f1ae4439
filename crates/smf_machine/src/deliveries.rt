ghost use Rattle.std.specs.Prelude.{◌≡◌, ◌==◌, ◌∷◌, [], map, IfOk};
ghost use Rattle.smf_model.specs.declared.command.Command.TheVariants as commands;
ghost use Rattle.smf_model.specs.Look.{launch_of};
ghost use Rattle.smf_model.specs.Shown.{view};
ghost use Rattle.smf_wire.specs.declared.message.Message.TheVariants as messages;
ghost use Rattle.smf_world.specs.Worked.{answer_since, answer_to, answers_to, work_of_command, work_of_delivery, work_of_join, known_of, no_work, work_with_answers, work_of_messages};

use crate::command_work::{no_work, one, work_of_messages};
use crate::parts::System;
use crate::received::Received;
use smf_fmri::{InstanceFmri, Items};
use smf_model::{Command, CommandReply, Instance, Journal};
use smf_state::{Proposal, SharedRow, View};
use smf_wire::{Known, Message, ViewChanges};
use smf_world::Work;
use std::alloc::{AllocError, Global};

fn known_of(instance: &Instance) -> Result<Known, AllocError>
    ensures { IfOk result (λ x. x ≡ known_of instance.now) }
{
    let name = instance.name.clone()?;
    let row = instance.row.clone()?;
    Ok(Known {
        instance: instance.number.get(),
        name,
        row,
    })
}

fn all_known(alloc: Global, instances: &[Instance]) -> Result<Items<Known>, AllocError>
    ensures { IfOk result (λ all. all ≡ map known_of instances.now) }
{
    let mut all = Items::new(alloc);
    for instance in instances {
        all.push(known_of(instance)?)?;
    }
    Ok(all)
}

fn copy_of_row(row: &Option<SharedRow>) -> Result<Option<SharedRow>, AllocError>
    ensures { IfOk result (λ copy. copy ≡ row.now) }
{
    match row {
        None => Ok(None),
        Some(row) => Ok(Some(row.clone()?)),
    }
}

/// The answer to a proposal. A number at its limit has no answer.
fn answer_to(
    alloc: Global,
    proposal: &Proposal,
    reply: &CommandReply,
) -> Result<Items<Message>, AllocError>
    ensures { IfOk result (λ all. all ≡ answer_to proposal.now reply.now) }
{
    match reply {
        CommandReply::Granted(row) => {
            let name = proposal.proposer.clone()?;
            let row = row.clone()?;
            one(
                alloc,
                Message::Ack {
                    name,
                    launch: proposal.launch,
                    serial: proposal.serial,
                    instance: proposal.instance,
                    row,
                },
            )
        }
        CommandReply::Stale(why, row) => {
            let name = proposal.proposer.clone()?;
            let row = copy_of_row(row)?;
            one(
                alloc,
                Message::Nack {
                    name,
                    launch: proposal.launch,
                    serial: proposal.serial,
                    instance: proposal.instance,
                    why: *why,
                    row,
                },
            )
        }
        _ => Ok(Items::new(alloc)),
    }
}

fn answers_to(
    alloc: Global,
    proposal: &Proposal,
    replies: &[CommandReply],
) -> Result<Items<Message>, AllocError>
    ensures { IfOk result (λ all. all ≡ answers_to proposal.now replies.now) }
{
    match replies.first() {
        None => Ok(Items::new(alloc)),
        Some(reply) => answer_to(alloc, proposal, reply),
    }
}

/// The work of a proposal, with the answer to it.
fn work_with_answers(alloc: Global, proposal: &Proposal, mut work: Work) -> Result<Work, AllocError>
    ensures { IfOk result (λ k. k ≡ work_with_answers proposal.now work) }
{
    work.messages = answers_to(alloc, proposal, work.reply.as_slice())?;
    Ok(work)
}

/// The graph is shown a view.
fn shown_to_graph(alloc: Global, view: &View) -> Result<Work, AllocError>
    ensures { IfOk result (λ k. k ≡ record no_work { seen = view.now ∷ [] }) }
{
    let mut work = no_work(alloc);
    let view = view.clone()?;
    work.seen = one(alloc, view)?;
    Ok(work)
}

/// The graph is given the changes of its view.
fn work_with_changes(alloc: Global, changes: &ViewChanges) -> Result<Work, AllocError>
    ensures { IfOk result (λ k. k ≡ record no_work { patches = changes.now ∷ [] }) }
{
    let mut work = no_work(alloc);
    let changes = changes.clone()?;
    work.patches = one(alloc, changes)?;
    Ok(work)
}

impl<J: Journal> System<J> {
    /// The rows of a restarter, if the launch is its last one.
    fn work_of_join(&self, name: &InstanceFmri, launch: u64) -> Result<Work, AllocError>
        ensures { IfOk result
            (λ k. k ≡ work_of_join self.now name.now launch (launch == launch_of self.now.now name.now)) }
    {
        if launch != self.launch_of(name) {
            return Ok(no_work(self.alloc));
        }
        let instances = self.rows_of(name)?;
        let rows = all_known(self.alloc, instances.as_slice())?;
        let name = name.clone()?;
        let messages = one(self.alloc, Message::Rows { name, launch, rows })?;
        Ok(work_of_messages(self.alloc, messages))
    }

    fn work_of_proposal(&self, proposal: &Proposal) -> Result<Work, AllocError>
        ensures { IfOk result
            (λ k. k ≡ work_with_answers proposal.now (work_of_command self.now (commands.Propose proposal.now))) }
    {
        let work = self.commanded_once(Command::Propose(proposal.clone()?))?;
        work_with_answers(self.alloc, proposal, work)
    }

    /// The repository shows what it holds.
    fn work_of_view(&self) -> Result<Work, AllocError>
        ensures { IfOk result (λ k. k ≡ work_of_messages (messages.View (view self.now.now) ∷ [])) }
    {
        let view = self.view()?;
        let messages = one(self.alloc, Message::View(view))?;
        Ok(work_of_messages(self.alloc, messages))
    }

    /// The repository answers with what changed since a revision, or else with the view.
    fn answer_since(&self, from: u64) -> Result<Message, AllocError>
        ensures { IfOk result (λ m. m ≡ answer_since self.now from) }
    {
        match self.changes_since(from)? {
            None => Ok(Message::View(self.view()?)),
            Some((to, items)) => Ok(Message::Changes(ViewChanges { from, to, items })),
        }
    }

    fn work_of_changes(&self, from: u64) -> Result<Work, AllocError>
        ensures { IfOk result (λ k. k ≡ work_of_messages (answer_since self.now from ∷ [])) }
    {
        let answer = self.answer_since(from)?;
        let messages = one(self.alloc, answer)?;
        Ok(work_of_messages(self.alloc, messages))
    }

    #[tactic(auto, unfolding(smf_world::specs::Worked::work_of_delivery))]
    fn delivered_as(&self, message: &Message) -> Result<Work, AllocError>
        ensures { IfOk result (λ k. k ≡ work_of_delivery self.now message.now) }
    {
        match message {
            Message::Join { name, launch } => self.work_of_join(name, *launch),
            Message::Rows { name, .. } => self.work_on_message(name, message),
            Message::Propose(proposal) => self.work_of_proposal(proposal),
            Message::Ack { name, .. } => self.work_on_message(name, message),
            Message::Nack { name, .. } => self.work_on_message(name, message),
            Message::AskView => self.work_of_view(),
            Message::View(view) => shown_to_graph(self.alloc, view),
            Message::AskChange(from) => self.work_of_changes(*from),
            Message::Changes(changes) => work_with_changes(self.alloc, changes),
            Message::Order(order) => self.work_on_message(&order.restarter, message),
        }
    }

    /// A message is delivered, as it was received.
    pub(crate) fn work_of_delivery(&self, received: &Received) -> Result<Work, AllocError>
        ensures { IfOk result (λ k. k ≡ work_of_delivery self.now received.now.message) }
    {
        self.delivered_as(received.message())
    }
}
