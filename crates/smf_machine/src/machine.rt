ghost use Rattle.std.specs.Prelude.{◌≡◌, [], false, map, option_map, reverse, true, IfErr, IfOk, IfSome, None, OnErr, OnOk};
ghost use Rattle.std.specs.Option.{option_copied};
ghost use Rattle.smf_changes.specs.Owned.{HasOwnersAmong};
ghost use Rattle.smf_engine.specs.Orders.{has_no_orders};
ghost use Rattle.smf_model.specs.Shown.{view};
ghost use Rattle.smf_machine.specs.Children.{world_after_poll};
ghost use Rattle.smf_machine.specs.declared.fault.MachineFault.TheVariants.{Memory};
ghost use Rattle.smf_machine.specs.Faults.{IsUnbooted, IsUndone};
ghost use Rattle.smf_machine.specs.Done.{IsDone, changes_of, is_beginning};
ghost use Rattle.smf_machine.specs.Lists.{NoTwins};
ghost use Rattle.smf_machine.specs.Parts.{knowledge};
ghost use Rattle.smf_machine.specs.Runners.{HasTicked};
ghost use Rattle.smf_model.specs.declared.command.Command.TheVariants as commands;
ghost use Rattle.smf_model.specs.declared.command.CommandReply.TheVariants.{Done};
ghost use Rattle.smf_model.specs.Laws.{IsNumbered};
ghost use Rattle.smf_model.specs.Next.{next};
ghost use Rattle.smf_world.specs.declared.event.Event.TheVariants as events;
ghost use Rattle.smf_world.specs.Happens.{happens};
ghost use Rattle.smf_world.specs.Reached.{IsReached};
ghost use Rattle.smf_past.specs.Begun.{IsBegun, IsSafeSince};
ghost use Rattle.smf_past.specs.Forgotten.{IsCaughtUp};
ghost use Rattle.smf_past.specs.Lived.{continued};
ghost use Rattle.smf_past.specs.Remains.{remains};
ghost use Rattle.smf_machine.specs.Remains.{AreRemainsOf};
ghost use Rattle.smf_contract.specs.Laws.{IsOrdered};
ghost use Rattle.std.specs.List.{AllByRecursion};
ghost use Rattle.smf_world.specs.Safe.{IsSafe};
ghost use Rattle.smf_world.specs.Spelled.{AreSpelled};
ghost use Rattle.smf_world.specs.Worked.{restarter, work_of_event};
ghost use Rattle.smf_world.specs.World.{initial_world};

use crate::command_work::is_done;
use crate::fault::MachineFault;
use crate::parts::{Remains, System, continued_parts, parts_of};
use crate::patches::{delivered_place, take_changes_at};
use crate::runner::Runner;
use crate::type_facts::{see_event, stored_in};
use smf_changes::Repository;
use smf_contract::{ContractEvent, ContractTable};
use smf_fmri::{InstanceFmri, Items};
use smf_model::{CommandReply, Journal, Plain, Tables};
use smf_restarter::{Restarter, Stage};
use smf_wire::Message;
use smf_world::{Event, Item};
use std::alloc::{AllocError, Global};
use std::marker::Model;

/// The repository, svc.startd's graph, the restarters, their messages, the contracts and the trail. Contracts see the
/// world. A machine's world is always one that events make of a beginning, which may have forgotten its past. The groups
/// that it holds are such as a body may hold. Each message that was sent is read again from its line.
#[derive(Drop)]
pub struct Machine<J: Journal> {
    system: System<J>,
}

impl<J: Journal> Model for Machine<J> {
    ghost use Rattle.smf_machine.specs.Sound.{IsSound};
    ghost use Rattle.smf_world.specs.World.{World};

    ghost Value = { World };

    ghost view = { λ m. m.system };

    ghost invariant = { λ m. IsSound m.system };
}

impl<J: Journal> System<J> {
    /// Boots what was found. `Limit` if a row or a launch has no next number.
    fn boot(&mut self) -> Result<(), MachineFault>
        requires numbered { IsNumbered self.old.now }
        requires apart { NoTwins self.old.restarters }
        ensures ok { OnOk result (self.new ≡ happens self.old events.Boot) }
        ensures accepted { OnOk result ((next self.old.now commands.Boot).1 ≡ Done) }
        ensures err { OnErr result (self.new ≡ self.old) }
        ensures fault { IfErr result (λ e. IsUnbooted J.write_fails self.old.now e) }
    {
        let work = self.work_of_boot()?;
        if !is_done(work.reply.as_slice()) {
            return Err(MachineFault::Limit);
        }
        self.take(work)?;
        Ok(())
    }

    /// True if the restarter of a name is launched, and does not take orders yet.
    fn is_beginning(&self, name: &InstanceFmri) -> bool
        ensures { result ≡ is_beginning (restarter self.now name.now) }
    {
        match self.restarter(name) {
            None => false,
            Some(restarter) => !matches!(restarter.stage(), Stage::Up),
        }
    }

    /// True if an event delivers an order that its restarter drops, since it does not take orders yet.
    fn is_let_go(&self, event: &Event) -> bool
        ensures { result ≡ true → IsDone self.now event.now self.now [] }
    {
        let Event::Deliver(place) = event else {
            return false;
        };
        match self.message_at(*place) {
            Some(Message::Order(order)) => self.is_beginning(&order.restarter),
            _ => false,
        }
    }

    /// The graph takes changes, if the event delivers some to it. If memory runs out, all is as it was.
    #[tactic(auto, unfolding(crate::specs::Parts::world_of))]
    fn take_changes(&mut self, event: &Event) -> Result<bool, AllocError>
        requires { AreSpelled self.old }
        ensures took { IfOk result (λ b. b ≡ true → IsDone self.old event.now self.new []) }
        ensures left { IfOk result (λ b. b ≡ false → self.new ≡ self.old) }
        ensures none { IfOk result (λ b. b ≡ false → changes_of self.old event.now ≡ None) }
        ensures err { OnErr result (self.new ≡ self.old) }
    {
        match delivered_place(event) {
            None => Ok(false),
            Some(place) => take_changes_at(self.alloc, &mut self.parts, place),
        }
    }

    /// Before the orders are made, the graph looks at what changed in the view that it holds.
    fn look_before(&mut self, event: &Event) -> Result<(), AllocError>
        ensures { self.new ≡ self.old }
    {
        match event {
            Event::Orders => self.look(),
            _ => Ok(()),
        }
    }

    /// Makes what an event makes, which delivers no changes.
    #[tactic(auto, unfolding(smf_world::specs::Happens::happens))]
    fn make(&mut self, event: &Event) -> Result<Items<CommandReply>, MachineFault>
        requires reached { IsBegun self.old }
        requires spelled { AreSpelled self.old }
        requires none { changes_of self.old event.now ≡ None }
        ensures ok { IfOk result (λ r. IsDone self.old event.now self.new r) }
        ensures err { OnErr result (self.new ≡ self.old) }
        ensures fault { IfErr result (λ e. IsUndone J.write_fails (work_of_event self.old event.now).changes e) }
    {
        let work = self.work_of_event(event)?;
        self.take(work)
    }

    /// An event happens.
    #[tactic(auto, unfolding(smf_world::specs::Happens::happens))]
    pub(crate) fn happen(&mut self, event: &Event) -> Result<Items<CommandReply>, MachineFault>
        requires reached { IsBegun self.old }
        requires spelled { AreSpelled self.old }
        ensures ok { IfOk result (λ r. IsDone self.old event.now self.new r) }
        ensures err { OnErr result (self.new ≡ self.old) }
        ensures fault { IfErr result (λ e. IsUndone J.write_fails (work_of_event self.old event.now).changes e) }
    {
        if self.is_let_go(event) {
            return Ok(Items::new(self.alloc));
        }
        if self.take_changes(event)? {
            return Ok(Items::new(self.alloc));
        }
        self.look_before(event)?;
        self.make(event)
    }
}

impl<J: Journal> System<J> {
    /// Forgets the past, and what is over.
    #[tactic(auto, unfolding(crate::specs::Parts::world_of))]
    fn forget(&mut self, rest: Remains)
        requires { AreRemainsOf self.old rest }
        ensures { self.new ≡ remains self.old }
    {
        self.repository.forget_changes();
        self.parts.forget(rest);
    }
}

impl<J: Journal> Machine<J> {
    /// Boots what was found. A fault hands the repository back, as it was. `Limit` if a row or a launch has no next
    /// number. `Memory` also if an owner has 2^32 groups, which no body may hold.
    pub fn new(alloc: Global, repository: Plain<J>) -> Result<Machine<J>, (MachineFault, Plain<J>)>
        ensures ok { IfOk result (λ m. m ≡ happens (initial_world repository.held) events.Boot) }
        ensures safe { IfOk result (λ m. IsSafe m) }
        ensures reached { IfOk result (λ m. IsReached m) }
        ensures err { IfErr result (λ e. e.1.held ≡ repository.held) }
        ensures fault { IfErr result (λ e. IsUnbooted J.write_fails repository.held e.0) }
    {
        let first = match stored_in(&repository) {
            Ok(first) => first,
            Err(_) => return Err((MachineFault::Memory, repository)),
        };
        let mut system = System {
            alloc,
            repository: Repository::over(alloc, repository),
            parts: parts_of(alloc, first),
        };
        match system.boot() {
            Ok(()) => Ok(Machine { system }),
            Err(fault) => Err((fault, system.repository.into_plain())),
        }
    }

    /// Goes on with what is held and with the contracts that are there, as they were left by a process that was killed.
    /// `Memory` also if an owner has 2^32 groups, which no body may hold.
    pub fn continued(
        alloc: Global,
        repository: Plain<J>,
        table: ContractTable,
    ) -> Result<Machine<J>, (MachineFault, Plain<J>)>
        requires ordered { IsOrdered table.table }
        requires inherit { AllByRecursion (λ c. c.terms.inherit ≡ true) table.table.contracts }
        ensures ok { IfOk result (λ m. m ≡ continued repository.held table.table) }
        ensures err { IfErr result (λ e. e.1.held ≡ repository.held) }
        ensures fault { IfErr result (λ e. e.0 ≡ Memory) }
    {
        let first = match stored_in(&repository) {
            Ok(first) => first,
            Err(_) => return Err((MachineFault::Memory, repository)),
        };
        Ok(Machine {
            system: System {
                alloc,
                repository: Repository::over(alloc, repository),
                parts: continued_parts(alloc, first, table),
            },
        })
    }

    /// What remains if the past goes. None if the graph has fallen behind what is held. `AllocError` also if an owner has
    /// 2^32 groups, which no body may hold.
    pub fn remains(&self) -> Result<Option<Remains>, AllocError>
        ensures { IfOk result (λ some. IfSome some (λ rest. IsCaughtUp self.now × AreRemainsOf self.now rest)) }
    {
        let system = &self.system;
        if !system.is_caught_up() {
            return Ok(None);
        }
        let first = stored_in(system.repository.plain())?;
        let table = system.table().thinned()?;
        Ok(Some(Remains { first, table }))
    }

    /// Forgets its past: the history, the messages and the trail; and what is over: contracts that have no members, and
    /// the runs that nobody asks for any more. This takes no memory.
    pub fn forget(&mut self, rest: Remains)
        requires caught_up { IsCaughtUp self.old }
        requires rest { AreRemainsOf self.old rest }
        ensures { self.new ≡ remains self.old }
    {
        self.system.forget(rest);
    }

    /// An event happens: all that it makes is made, or nothing. If the event is a command, its reply is given back.
    pub fn happen(&mut self, event: &Event) -> Result<Items<CommandReply>, MachineFault>
        ensures ok { IfOk result (λ r. IsDone self.old event.now self.new r) }
        ensures err { OnErr result (self.new ≡ self.old) }
        ensures safe { IsSafeSince self.new }
        ensures fault { IfErr result (λ e. IsUndone J.write_fails (work_of_event self.old event.now).changes e) }
    {
        see_event(event);
        self.system.happen(event)
    }

    /// A restarter has its turn for an instance, with the answer to what it asks for. The machine makes room for what
    /// comes of each answer before it asks. So a fault leaves both as they were. A kill that is not done is owed again.
    pub fn tick<R: Runner>(
        &mut self,
        runner: &mut R,
        name: &InstanceFmri,
        instance: u64,
    ) -> Result<(), MachineFault>
        ensures ok { OnOk result
            (HasTicked R.rules name.now instance self.old (R.seen runner.old) self.new (R.seen runner.new)) }
        ensures err { OnErr result (self.new ≡ self.old) }
        ensures kept { OnErr result ((R.seen runner.new).ledger ≡ (R.seen runner.old).ledger) }
        ensures fault { IfErr result (λ e. e ≡ Memory) }
    {
        self.system.tick(runner, name, instance)
    }

    /// The next event is asked for once there is room for it; it happens, and is given back. A fault leaves both as they
    /// were.
    pub fn hear<R: Runner>(&mut self, runner: &mut R) -> Result<Option<ContractEvent>, MachineFault>
        ensures heard { IfOk result (λ event. self.new ≡ world_after_poll event self.old) }
        ensures answered { IfOk result (λ event. R.rules.polls event (R.seen runner.old) (R.seen runner.new)) }
        ensures err { OnErr result (self.new ≡ self.old) }
        ensures kept { OnErr result ((R.seen runner.new).ledger ≡ (R.seen runner.old).ledger) }
        ensures fault { IfErr result (λ e. e ≡ Memory) }
    {
        self.system.hear(runner)
    }

    /// The repository.
    #[tactic(auto, unfolding(crate::specs::Parts::world_of))]
    pub fn repository(&self) -> &Plain<J>
        ensures { result.now.held ≡ self.now.now }
    {
        self.system.repository.plain()
    }

    /// The owners of all instances, and maybe others, if they are known and each row has a number. A hint: after an event
    /// there may be none until the view is kept.
    #[tactic(auto, unfolding(crate::specs::Parts::world_of))]
    pub fn owners(&self) -> Option<&[InstanceFmri]>
        ensures { IfSome (option_copied result) (λ names. HasOwnersAmong names self.now.now) }
    {
        self.system.repository.owners()
    }

    /// Keeps what the graph sees of what is held, and brings it up to date by what changed.
    pub fn keep_view(&mut self) -> Result<(), AllocError>
        ensures { self.new ≡ self.old }
    {
        self.system.keep_view()
    }

    /// True if svc.startd's graph would order nothing of what is held. It looks at what changed since the view that it
    /// holds.
    pub fn has_no_orders(&mut self) -> Result<bool, AllocError>
        ensures same { self.new ≡ self.old }
        ensures nothing { IfOk result (λ b. b ≡ has_no_orders (view self.old.now)) }
    {
        self.system.has_no_orders()
    }

    /// The launched restarter of a name.
    pub fn restarter(&self, name: &InstanceFmri) -> Option<&Restarter>
        ensures { option_map knowledge (option_copied result) ≡ restarter self.now name.now }
    {
        self.system.restarter(name)
    }

    /// The launched restarters, in the order of their launches.
    #[tactic(auto, unfolding(crate::specs::Parts::world_of))]
    pub fn restarters(&self) -> &[Restarter]
        ensures { map knowledge result.now ≡ self.now.restarters }
    {
        &self.system.parts.restarters
    }

    /// The contracts.
    pub fn table(&self) -> &ContractTable
        ensures { result.now.table ≡ self.now.table }
    {
        self.system.table()
    }

    /// All messages ever sent, the oldest first.
    #[tactic(auto, unfolding(crate::specs::Parts::world_of))]
    pub fn messages(&self) -> &[Message]
        ensures { result.now ≡ reverse self.now.sent }
    {
        &self.system.parts.messages
    }

    /// The trail, the oldest first.
    #[tactic(auto, unfolding(crate::specs::Parts::world_of))]
    pub fn trail(&self) -> &[Item]
        ensures shown { result.now ≡ reverse self.now.trail }
        ensures reached { IsBegun self.now }
        ensures safe { IsSafeSince self.now }
        // Each message that was sent is read again from its line.
        ensures spelled { AreSpelled self.now }
    {
        &self.system.parts.trail
    }

    /// The repository alone.
    #[tactic(auto, unfolding(crate::specs::Parts::world_of))]
    pub fn into_repository(self) -> Plain<J>
        ensures { result.held ≡ self.now }
    {
        self.system.repository.into_plain()
    }
}
