ghost use Rattle.std.specs.Prelude.{◌≡◌, ◌∷◌, [], map, option_map, IfOk};
ghost use Rattle.std.specs.Option.{option_copied};
ghost use Rattle.smf_engine.specs.Orders.{orders_seen, question};
ghost use Rattle.smf_contract.specs.Entries.{report_of_event as report_at};
ghost use Rattle.smf_machine.specs.Parts.{knowledge};
ghost use Rattle.smf_model.specs.declared.command.Command.TheVariants as commands;
ghost use Rattle.smf_wire.specs.declared.message.Message.TheVariants as messages;
ghost use Rattle.smf_world.specs.declared.event.Event.TheVariants as events;
ghost use Rattle.smf_world.specs.Spelled.{AreSpelled};
ghost use Rattle.smf_world.specs.Worked.{work_of_call, work_of_command, work_of_crash, delivered_if, holder, is_launched, work_with_launch, launched_if, process_call, reported_by, reported_to, restarter, work_of_messages, sent_at, work_of_timeout, work_of_event};

use crate::command_work::{no_work, one, work_of_messages, work_with_boot};
use crate::parts::System;
use crate::received::{LineReader, receive};
use crate::reply_work::{work_of_call, work_of_knowledge};
use smf_contract::{ContractCall, Holder, Report};
use smf_fmri::{InstanceFmri, Items, Number};
use smf_model::{Command, Edit, Journal};
use smf_restarter::Restarter;
use smf_wire::{Message, Order};
use smf_world::{Becomes, Event, ProcessEvent, Work};
use std::alloc::{AllocError, Global};

fn order_messages(alloc: Global, orders: Items<Order>) -> Result<Items<Message>, AllocError>
    ensures { IfOk result (λ all. all ≡ map (λ o. messages.Order o) orders) }
{
    let mut all = Items::new(alloc);
    for order in orders.into_vec() {
        all.push(Message::Order(order))?;
    }
    Ok(all)
}

/// The call that something that happens to a process is.
pub(crate) fn process_call(process: Number, what: ProcessEvent) -> ContractCall
    ensures { result ≡ process_call process what }
{
    match what {
        ProcessEvent::Fork => ContractCall::Fork(process),
        ProcessEvent::Exit(exit) => ContractCall::Exit(process, exit),
        ProcessEvent::Fail(failure) => ContractCall::Fail(process, failure),
    }
}

fn reported_by(
    alloc: Global,
    report: &Report,
    restarter: Option<&Restarter>,
) -> Result<Work, AllocError>
    ensures { IfOk result (λ k. k ≡ reported_by report.now (option_map knowledge (option_copied restarter.entry))) }
{
    match restarter {
        None => Ok(no_work(alloc)),
        Some(restarter) => work_of_knowledge(alloc, restarter, restarter.change_on_report(report)),
    }
}

impl<J: Journal> System<J> {
    /// The message at a place is delivered, if there is one. Its actor gets what its line reads as.
    fn delivered_at(&self, place: u64) -> Result<Work, AllocError>
        requires { AreSpelled self.now }
        ensures { IfOk result (λ k. k ≡ delivered_if self.now (sent_at self.now place)) }
    {
        match self.message_at(place) {
            None => Ok(no_work(self.alloc)),
            Some(message) => {
                let received = receive(self.alloc, &LineReader {}, message)?;
                self.work_of_delivery(&received)
            }
        }
    }

    fn client(&self, edit: &Edit) -> Result<Work, AllocError>
        ensures { IfOk result (λ k. k ≡ work_of_command self.now (commands.Edit edit.now)) }
    {
        self.commanded_once(Command::Edit(edit.clone()?))
    }

    /// The graph sends the orders of the view that it holds.
    fn work_of_orders(&self) -> Result<Work, AllocError>
        ensures { IfOk result (λ k. k ≡ work_of_messages (map (λ o. messages.Order o) (orders_seen self.now.seen))) }
    {
        let orders = self.orders()?;
        let messages = order_messages(self.alloc, orders)?;
        Ok(work_of_messages(self.alloc, messages))
    }

    /// The graph asks the repository.
    fn work_of_question(&self) -> Result<Work, AllocError>
        ensures { IfOk result (λ k. k ≡ work_of_messages (question self.now.seen ∷ [])) }
    {
        let messages = one(self.alloc, self.question())?;
        Ok(work_of_messages(self.alloc, messages))
    }

    fn work_of_process(&self, process: Number, what: ProcessEvent) -> Result<Work, AllocError>
        ensures { IfOk result (λ k. k ≡ work_of_call self.now.table (process_call process what)) }
    {
        let call = process_call(process, what);
        work_of_call(self.alloc, self.table(), &call)
    }

    /// The launched restarter that holds a contract.
    fn holder(&self, who: Holder) -> Option<&Restarter>
        ensures { option_map knowledge (option_copied result) ≡ holder self.now who }
    {
        match who {
            Holder::Held(actor) => self.actor(actor),
            Holder::Inherited => None,
            Holder::Abandoned => None,
        }
    }

    /// An event of a contract is reported to its holder.
    fn work_of_report(&self, contract: Number, number: Number) -> Result<Work, AllocError>
        ensures { IfOk result (λ k. k ≡ reported_to self.now (report_at self.now.table contract number)) }
    {
        let Some(report) = self.table().report(contract.get(), number.get()) else {
            return Ok(no_work(self.alloc));
        };
        reported_by(self.alloc, &report, self.holder(report.contract.holder))
    }

    fn work_of_timeout(&self, name: &InstanceFmri, instance: u64) -> Result<Work, AllocError>
        ensures { IfOk result (λ k. k ≡ work_of_timeout instance (restarter self.now name.now)) }
    {
        let Some(restarter) = self.restarter(name) else {
            return Ok(no_work(self.alloc));
        };
        work_of_knowledge(self.alloc, restarter, restarter.timed_out(instance))
    }

    /// A restarter is gone, and with it the holder of its contracts.
    fn work_of_crash(&self, name: &InstanceFmri) -> Result<Work, AllocError>
        ensures { IfOk result (λ k. k ≡ work_of_crash self.now (restarter self.now name.now)) }
    {
        let Some(restarter) = self.restarter(name) else {
            return Ok(no_work(self.alloc));
        };
        let call = ContractCall::Gone {
            actor: restarter.actor(),
        };
        let mut work = work_of_call(self.alloc, self.table(), &call)?;
        let gone = Becomes::Gone(restarter.name().clone()?);
        work.becomes = one(self.alloc, gone)?;
        Ok(work)
    }

    fn is_launched(&self, name: &InstanceFmri) -> bool
        ensures { result ≡ is_launched self.now name.now }
    {
        match self.restarter(name) {
            None => false,
            Some(_) => true,
        }
    }

    /// A restarter is launched, unless it is.
    fn work_of_launch(&self, name: &InstanceFmri) -> Result<Work, AllocError>
        ensures { IfOk result (λ k. k ≡ launched_if self.now name.now (is_launched self.now name.now)) }
    {
        if self.is_launched(name) {
            return Ok(no_work(self.alloc));
        }
        let work = self.commanded_once(Command::Launch(name.clone()?))?;
        self.work_with_launch(name, work)
    }

    #[tactic(auto, unfolding(smf_world::specs::Worked::work_of_event))]
    pub(crate) fn work_of_boot(&self) -> Result<Work, AllocError>
        ensures { IfOk result (λ k. k ≡ work_of_event self.now events.Boot) }
    {
        let work = self.commanded_once(Command::Boot)?;
        work_with_boot(self.alloc, work)
    }

    /// The work of an event, worked out before anything changes.
    #[tactic(auto, unfolding(smf_world::specs::Worked::work_of_event))]
    pub(crate) fn work_of_event(&self, event: &Event) -> Result<Work, AllocError>
        requires { AreSpelled self.now }
        ensures { IfOk result (λ k. k ≡ work_of_event self.now event.now) }
    {
        match event {
            Event::Deliver(place) => self.delivered_at(*place),
            Event::Client(edit) => self.client(edit),
            Event::Ask => self.work_of_question(),
            Event::Orders => self.work_of_orders(),
            Event::OwnTick(name) => self.own_ticked(name),
            Event::Tick {
                restarter,
                instance,
                spawn,
            } => self.work_of_tick(restarter, *instance, *spawn),
            Event::Process { process, what } => self.work_of_process(*process, *what),
            Event::Report { contract, number } => self.work_of_report(*contract, *number),
            Event::Timeout {
                restarter,
                instance,
            } => self.work_of_timeout(restarter, *instance),
            Event::Crash(name) => self.work_of_crash(name),
            Event::Launch(name) => self.work_of_launch(name),
            Event::Boot => self.work_of_boot(),
        }
    }
}
