ghost use Rattle.smf_machine.specs.Done.{IsDone};
ghost use Rattle.smf_model.specs.declared.command.Command.TheVariants as commands;
ghost use Rattle.smf_node.specs.declared.fault.NodeFault.TheVariants.{NoSuchActor, NoSuchMessage};
ghost use Rattle.smf_node.specs.Faults.{IsFault, IsLack, is_against_launch, is_past_limit, is_unsent, lacks_number, event_refusal};
ghost use Rattle.smf_node.specs.Marks.{progress_of};
ghost use Rattle.smf_node.specs.Runs.{IsStep, RunsAll, RunsUntilFault, reply_of};
ghost use Rattle.smf_world.specs.declared.event.Event.TheVariants as events;
ghost use Rattle.smf_past.specs.Begun.{IsSafeSince};
ghost use Rattle.smf_world.specs.Schedule.{is_heard, is_heard_in, on};
ghost use Rattle.smf_world.specs.Worked.{work_of_event};
ghost use Rattle.std.specs.Prelude.{◌≡◌, ◌∷◌, ◌<◌, ◌^◌, [], length, slice_get, None, IfErr, IfOk, OnErr, OnOk};

use crate::fault::NodeFault;
use crate::node::{Node, is_past_boot, is_past_limit};
use smf_contract::Holder;
use smf_fmri::{InstanceFmri, Items, Number};
use smf_machine::Machine;
use smf_model::{Command, CommandReply, Edit, Journal};
use smf_world::Event;
use std::alloc::AllocError;

/// The reply to a client's command; nobody asks for another.
fn reply_of(event: &Event, replies: Items<CommandReply>) -> Option<CommandReply>
    ensures { result ≡ reply_of event.now replies }
{
    match event {
        Event::Client(_) => first(replies),
        _ => None,
    }
}

fn first(replies: Items<CommandReply>) -> Option<CommandReply>
    ensures { result ≡ slice_get replies 0 }
{
    let mut all = replies.into_vec().into_iter();
    all.next()
}

/// Drops an event.
fn let_go(_event: Event) {}

fn revision<J: Journal>(machine: &Machine<J>) -> u64
    ensures { result ≡ machine.now.now.revision }
{
    machine.repository().revision().get()
}

/// An event happens to the machine.
fn happen_in<J: Journal>(
    machine: &mut Machine<J>,
    event: &Event,
) -> Result<Items<CommandReply>, NodeFault>
    ensures ok { IfOk result (λ r. IsDone machine.old event.now machine.new r) }
    ensures err { OnErr result (machine.new ≡ machine.old) }
    ensures fault { IfErr result (λ e. IsLack J.write_fails machine.old event.now e) }
{
    match machine.happen(event) {
        Ok(replies) => Ok(replies),
        Err(fault) => Err(NodeFault::from(fault)),
    }
}

impl<J: Journal> Node<J> {
    /// How many messages were ever sent.
    #[tactic(auto, unfolding(crate::specs::Marks::progress_of))]
    pub(crate) fn sent_count(&self) -> u64
        ensures count { result ≡ length self.now.world.sent }
        ensures bound { result < 2 ^ 63 }
    {
        self.machine.messages().len() as u64
    }

    fn is_unsent(&self, event: &Event) -> bool
        ensures { result ≡ is_unsent self.now.world event.now }
    {
        match event {
            Event::Deliver(place) => {
                let is_sent = *place < self.sent_count();
                !is_sent
            }
            _ => false,
        }
    }

    fn is_against_launch(&self, event: &Event) -> bool
        ensures { result ≡ is_against_launch self.now.world event.now }
    {
        match event {
            Event::Launch(name) => self.is_launched(name),
            Event::OwnTick(name) => !self.is_launched(name),
            Event::Tick { restarter, .. } => !self.is_launched(restarter),
            Event::Timeout { restarter, .. } => !self.is_launched(restarter),
            Event::Crash(name) => !self.is_launched(name),
            _ => false,
        }
    }

    /// True if the repository refuses a command, since a number that it needs has no next one.
    fn is_past_limit(&self, command: &Command) -> Result<bool, AllocError>
        ensures { IfOk result (λ b. b ≡ is_past_limit self.now.world.now command.now) }
    {
        is_past_limit(self.repository(), command)
    }

    /// True if a restarter cannot be launched, since a number has no next one.
    pub(crate) fn may_not_launch(&self, name: &InstanceFmri) -> Result<bool, AllocError>
        ensures { IfOk result (λ b. b ≡ is_past_limit self.now.world.now (commands.Launch name.now)) }
    {
        let command = Command::Launch(name.clone()?);
        self.is_past_limit(&command)
    }

    fn lacks_number(&self, event: &Event) -> Result<bool, AllocError>
        ensures { IfOk result (λ b. b ≡ lacks_number self.now.world event.now) }
    {
        match event {
            Event::Launch(name) => self.may_not_launch(name),
            Event::Boot => Ok(is_past_boot(self.repository())),
            _ => Ok(false),
        }
    }

    /// An event can happen, or else the fault says why not.
    fn expect(&self, event: &Event) -> Result<(), NodeFault>
        ensures ok { OnOk result (event_refusal self.now.world event.now ≡ None) }
        ensures err { IfErr result (λ e. IsFault J.write_fails self.now.world event.now e) }
    {
        if self.is_unsent(event) {
            return Err(NodeFault::NoSuchMessage);
        }
        if self.is_against_launch(event) {
            return Err(NodeFault::NoSuchActor);
        }
        if self.lacks_number(event)? {
            return Err(NodeFault::Limit);
        }
        Ok(())
    }

    /// True if an event of a contract is there, and the contract's holder is launched.
    #[tactic(auto, unfolding(smf_world::specs::Schedule::is_heard))]
    pub(crate) fn is_heard(&self, contract: Number, number: Number) -> bool
        ensures { result ≡ is_heard self.now.world contract number }
    {
        let Some(report) = self.table().report(contract.get(), number.get()) else {
            return false;
        };
        match report.contract.holder {
            Holder::Held(actor) => self.is_actor(actor),
            Holder::Inherited => false,
            Holder::Abandoned => false,
        }
    }

    /// True if an event is a report that a holder is about to hear.
    fn is_heard_in(&self, event: &Event) -> bool
        ensures { result ≡ is_heard_in self.now.world event.now }
    {
        match event {
            Event::Report { contract, number } => self.is_heard(*contract, *number),
            _ => false,
        }
    }

    /// An event happens, and is marked.
    pub(crate) fn happen(&mut self, event: &Event) -> Result<Items<CommandReply>, NodeFault>
        ensures ok { OnOk result (self.new ≡ on self.old event.now) }
        ensures reply { IfOk result (λ rs. rs ≡ (work_of_event self.old.world event.now).reply) }
        ensures err { OnErr result (self.new ≡ self.old) }
        ensures fault { IfErr result (λ e. IsLack J.write_fails self.old.world event.now e) }
    {
        let is_heard = self.is_heard_in(event);
        self.marks.reserve()?;
        let before = revision(&self.machine);
        let replies = happen_in(&mut self.machine, event)?;
        let after = revision(&self.machine);
        self.marks.mark(event, is_heard, before < after);
        Ok(replies)
    }

    /// An event happens, whose reply nobody asks for.
    pub(crate) fn goes(&mut self, event: Event) -> Result<(), NodeFault>
        ensures ok { OnOk result (self.new ≡ on self.old event) }
        ensures err { OnErr result (self.new ≡ self.old) }
        ensures fault { IfErr result (λ e. IsLack J.write_fails self.old.world event e) }
    {
        let replies = self.happen(&event);
        let_go(event);
        replies?;
        Ok(())
    }

    fn admit(&mut self, event: &Event) -> Result<Option<CommandReply>, NodeFault>
        ensures ok { IfOk result (λ reply. IsStep self.old event.now self.new reply) }
        ensures err { OnErr result (self.new ≡ self.old) }
        ensures fault { IfErr result (λ e. IsFault J.write_fails self.old.world event.now e) }
    {
        self.expect(event)?;
        let replies = self.happen(event)?;
        Ok(reply_of(event, replies))
    }

    /// An event happens, and gives the reply to a client's command. `NoSuchMessage` if no message was sent with that
    /// number. `NoSuchActor` for an actor to be launched that is, or to act or to crash that is not. `Limit` if a
    /// launch or a boot needs a number that has no next one.
    pub fn step(&mut self, event: Event) -> Result<Option<CommandReply>, NodeFault>
        ensures ok { IfOk result (λ reply. IsStep self.old event self.new reply) }
        ensures safe { IsSafeSince self.new.world }
        ensures err { OnErr result (self.new ≡ self.old) }
        ensures fault { IfErr result (λ e. IsFault J.write_fails self.old.world event e) }
    {
        let reply = self.admit(&event);
        let_go(event);
        let _shown = self.trail();
        reply
    }

    fn edit(&mut self, edit: Edit) -> Result<CommandReply, NodeFault>
        ensures ok { OnOk result (self.new ≡ on self.old (events.Client edit)) }
        ensures reply { IfOk result (λ r. (work_of_event self.old.world (events.Client edit)).reply ≡ r ∷ []) }
        ensures err { OnErr result (self.new ≡ self.old) }
        ensures fault { IfErr result (λ e. IsLack J.write_fails self.old.world (events.Client edit) e) }
    {
        let event = Event::Client(edit);
        let replies = self.happen(&event);
        let_go(event);
        match first(replies?) {
            Some(reply) => Ok(reply),
            None => unreachable!(),
        }
    }

    /// A client gives a command.
    pub fn apply(&mut self, edit: Edit) -> Result<CommandReply, NodeFault>
        ensures ok { OnOk result (self.new ≡ on self.old (events.Client edit)) }
        ensures reply { IfOk result (λ r. (work_of_event self.old.world (events.Client edit)).reply ≡ r ∷ []) }
        ensures safe { IsSafeSince self.new.world }
        ensures err { OnErr result (self.new ≡ self.old) }
        ensures fault { IfErr result (λ e. IsLack J.write_fails self.old.world (events.Client edit) e) }
    {
        let reply = self.edit(edit);
        let _shown = self.trail();
        reply
    }

    fn take(&mut self, event: Event) -> Result<(), NodeFault>
        ensures taken { OnOk result (event_refusal self.old.world event ≡ None) }
        ensures ok { OnOk result (self.new ≡ on self.old event) }
        ensures err { OnErr result (self.new ≡ self.old) }
        ensures fault { IfErr result (λ e. IsFault J.write_fails self.old.world event e) }
    {
        let reply = self.admit(&event);
        let_go(event);
        reply?;
        Ok(())
    }

    fn take_all(&mut self, events: Vec<Event>) -> Result<(), NodeFault>
        ensures ok { OnOk result (RunsAll self.old events.items self.new) }
        ensures err { IfErr result (λ e. RunsUntilFault J.write_fails self.old events.items self.new e) }
    {
        for event in events {
            self.take(event)?;
        }
        Ok(())
    }

    /// Events happen in turn. A fault ends it: those before the event that cannot happen have happened.
    pub fn run(&mut self, events: Vec<Event>) -> Result<(), NodeFault>
        ensures ok { OnOk result (RunsAll self.old events.items self.new) }
        ensures safe { IsSafeSince self.new.world }
        ensures err { IfErr result (λ e. RunsUntilFault J.write_fails self.old events.items self.new e) }
    {
        let result = self.take_all(events);
        let _shown = self.trail();
        result
    }
}
