ghost use Rattle.smf_node.specs.Faults.{IsDeedFault, IsLack};
ghost use Rattle.smf_node.specs.Marks.{progress_of};
ghost use Rattle.smf_node.specs.Partly.{DeedFails};
ghost use Rattle.smf_node.specs.Rests.{RestsOn};
ghost use Rattle.smf_node.specs.Rounds.{HasGone, course, refusing_tick};
ghost use Rattle.smf_restarter.specs.Ticks.{reply_to_tick};
ghost use Rattle.smf_world.specs.declared.event.Event.TheVariants as events;
ghost use Rattle.smf_world.specs.declared.schedule.Deed.TheVariants as deeds;
ghost use Rattle.smf_world.specs.declared.event.SpawnAnswer.TheVariants as spawns;
ghost use Rattle.smf_world.specs.Schedule.{asks_spawn, deliver_next, has_other_key, is_known_contract, is_next, is_skipped, is_spawn, key_of, on, past_next, refuses, progress_with_refusals, report_one};
ghost use Rattle.smf_world.specs.Worked.{is_actor, restarter, sent_at};
ghost use Rattle.std.specs.List.{list_any};
ghost use Rattle.std.specs.Prelude.{◌≡◌, ◌<◌, ◌^◌, ◌==◌, filter, find, is_some, true, IfErr, IfOk, OnErr, OnOk};

use crate::fault::NodeFault;
use crate::marks::take_out;
use crate::node::Node;
use smf_contract::ContractEvent;
use smf_fmri::{InstanceFmri, Number};
use smf_machine::Runner;
use smf_model::Journal;
use smf_restarter::{Call, Restarter};
use smf_world::{Deed, Event, EventKey, SpawnAnswer};
use std::alloc::AllocError;

fn is_spawn(call: &Call) -> bool
    ensures { result ≡ is_spawn call.now }
{
    matches!(call, Call::Spawn { .. })
}

/// True if the turn of a restarter for an instance asks for a spawn.
fn spawns(restarter: &Restarter, instance: u64) -> Result<bool, AllocError>
    ensures { IfOk result (λ b. b ≡ is_spawn (reply_to_tick restarter.now.known instance).call) }
{
    let reply = restarter.reply_to_tick(instance)?;
    Ok(is_spawn(&reply.call))
}

fn has_actor(restarters: &[Restarter], actor: u64) -> bool
    ensures { result ≡ list_any (λ k. k.known.actor == actor) restarters.now }
{
    restarters
        .iter()
        .any(|restarter| restarter.actor() == actor)
}

impl<J: Journal> Node<J> {
    /// The next so many spawns are refused, in place of what was asked before.
    #[tactic(auto, unfolding(crate::specs::Marks::progress_of, smf_world::specs::Schedule::progress_with_refusals))]
    pub fn refuse(&mut self, spawns: u64)
        ensures { self.new ≡ progress_with_refusals spawns self.old }
    {
        self.marks.refuse = spawns;
    }

    #[tactic(auto, unfolding(crate::specs::Marks::progress_of))]
    fn set_next(&mut self, next: u64)
        ensures { self.new ≡ record self.old { next = next } }
    {
        self.marks.next = next;
    }

    /// True if the next message in the order of sending is there.
    fn is_due(&self) -> bool
        ensures sent { result ≡ is_some (sent_at self.now.world self.now.next) }
        ensures bound { result ≡ true → self.now.next < 2 ^ 63 }
    {
        self.next() < self.sent_count()
    }

    /// True if the next message in the order of sending is lost.
    #[tactic(auto, unfolding(crate::specs::Marks::progress_of))]
    fn is_lost(&self) -> bool
        ensures { result ≡ list_any (is_next self.now) self.now.lost }
    {
        let next = self.marks.next;
        self.marks.lost.iter().any(|place| *place == next)
    }

    #[tactic(auto, unfolding(crate::specs::Marks::progress_of))]
    pub(crate) fn next(&self) -> u64
        ensures { result ≡ self.now.next }
    {
        self.marks.next
    }

    /// True if the next message in the order of sending was delivered before its turn.
    #[tactic(auto, unfolding(crate::specs::Marks::progress_of))]
    fn is_early(&self) -> bool
        ensures { result ≡ list_any (is_next self.now) self.now.early }
    {
        let next = self.marks.next;
        self.marks.early.iter().any(|place| *place == next)
    }

    fn is_skipped(&self) -> bool
        ensures { result ≡ is_skipped self.now }
    {
        if self.is_lost() {
            return true;
        }
        self.is_early()
    }

    /// The next message in the order of sending is delivered.
    fn deliver_at(&mut self, next: u64) -> Result<(), NodeFault>
        requires at { next ≡ self.old.next }
        requires bound { next < 2 ^ 63 }
        ensures ok { OnOk result (self.new ≡ on (past_next self.old) (events.Deliver self.old.next)) }
        ensures err { OnErr result (self.new ≡ self.old) }
        ensures fault { IfErr result (λ e. IsLack J.write_fails self.old.world (events.Deliver self.old.next) e) }
    {
        self.set_next(next + 1);
        match self.goes(Event::Deliver(next)) {
            Ok(()) => Ok(()),
            Err(fault) => {
                self.set_next(next);
                Err(fault)
            }
        }
    }

    #[tactic(auto, unfolding(smf_world::specs::Schedule::deliver_next))]
    fn deliver_next(&mut self) -> Result<(), NodeFault>
        ensures ok { OnOk result (self.new ≡ deliver_next self.old) }
        ensures err { OnErr result (self.new ≡ self.old) }
        ensures fault { IfErr result (λ e. IsDeedFault J.write_fails self.old deeds.DeliverNext e) }
    {
        if !self.is_due() {
            return Ok(());
        }
        let next = self.next();
        if self.is_skipped() {
            self.set_next(next + 1);
            return Ok(());
        }
        self.deliver_at(next)
    }

    fn launch(&mut self, name: &InstanceFmri) -> Result<(), NodeFault>
        ensures ok { OnOk result (self.new ≡ on self.old (events.Launch name.now)) }
        ensures err { OnErr result (self.new ≡ self.old) }
        ensures fault { IfErr result (λ e. IsDeedFault J.write_fails self.old (deeds.Launch name.now) e) }
    {
        if self.may_not_launch(name)? {
            return Err(NodeFault::Limit);
        }
        self.goes(Event::Launch(name.clone()?))
    }

    /// True if an actor is launched.
    #[tactic(auto, unfolding(crate::specs::Marks::progress_of), using(crate::proofs::Found::any_found))]
    pub(crate) fn is_actor(&self, actor: u64) -> bool
        ensures { result ≡ is_some (find (is_actor actor) self.now.world.restarters) }
    {
        has_actor(self.machine.restarters(), actor)
    }

    fn is_known_contract(&self, id: Number) -> bool
        ensures { result ≡ is_known_contract self.now.world id }
    {
        self.table().contract(id).is_some()
    }

    /// An event of a contract that is gone is not reported any more.
    #[tactic(auto, unfolding(crate::specs::Marks::progress_of))]
    fn drop_event(&mut self, event: &ContractEvent)
        ensures { self.new ≡ record self.old { unheard = filter (has_other_key (key_of event.now)) self.old.unheard } }
    {
        let key = EventKey {
            contract: event.contract,
            number: event.number,
        };
        take_out(&key, &mut self.marks.unheard);
    }

    #[tactic(auto, unfolding(smf_world::specs::Schedule::report_one))]
    fn report_one(&mut self, event: &ContractEvent) -> Result<(), NodeFault>
        ensures ok { OnOk result (self.new ≡ report_one event.now self.old) }
        ensures err { OnErr result (self.new ≡ self.old) }
        ensures fault { IfErr result (λ e. IsDeedFault J.write_fails self.old (deeds.Report event.now) e) }
    {
        if self.is_heard(event.contract, event.number) {
            return self.goes(Event::Report {
                contract: event.contract,
                number: event.number,
            });
        }
        if self.is_known_contract(event.contract) {
            return Ok(());
        }
        self.drop_event(event);
        Ok(())
    }

    /// True if the turn of a restarter for an instance asks for a spawn.
    #[tactic(auto, unfolding(crate::specs::Marks::progress_of))]
    fn asks_spawn(&self, name: &InstanceFmri, instance: u64) -> Result<bool, AllocError>
        ensures { IfOk result (λ b. b ≡ asks_spawn (restarter self.now.world name.now) instance) }
    {
        match self.machine.restarter(name) {
            None => Ok(false),
            Some(restarter) => spawns(restarter, instance),
        }
    }

    /// How many spawns are still to be refused.
    #[tactic(auto, unfolding(crate::specs::Marks::progress_of))]
    fn refused_count(&self) -> u64
        ensures { result ≡ self.now.refuse }
    {
        self.marks.refuse
    }

    /// True if the restarter finds at once that its turn for an instance changes nothing.
    fn rests_on(&self, name: &InstanceFmri, instance: u64) -> bool
        ensures { result ≡ true → RestsOn self.now.world name.now instance }
    {
        match self.restarter(name) {
            None => true,
            Some(restarter) => restarter.rests_on(instance),
        }
    }

    /// True if the turn of a restarter for an instance asks for a spawn that is to be refused.
    fn refuses(&self, name: &InstanceFmri, instance: u64) -> Result<bool, AllocError>
        ensures { IfOk result (λ b. b ≡ refuses self.now name.now instance) }
    {
        if self.refused_count() == 0 {
            return Ok(false);
        }
        self.asks_spawn(name, instance)
    }

    /// The turn of a restarter for an instance, whose spawn is refused.
    #[tactic(auto, unfolding(smf_world::specs::Schedule::progress_with_refusals))]
    fn refuse_tick(&mut self, name: &InstanceFmri, instance: u64) -> Result<(), NodeFault>
        ensures ok { OnOk result (self.new ≡ refusing_tick name.now instance self.old) }
        ensures err { OnErr result (self.new ≡ self.old) }
        ensures fault { IfErr result
            (λ e. IsLack J.write_fails self.old.world (events.Tick name.now instance spawns.Refused) e) }
    {
        let left = self.refused_count().saturating_sub(1);
        self.goes(Event::Tick {
            restarter: name.clone()?,
            instance,
            spawn: SpawnAnswer::Refused,
        })?;
        self.refuse(left);
        Ok(())
    }

    /// The turn of a restarter for an instance. A spawn that the schedule refuses is asked of nobody.
    fn tick_one<R: Runner>(
        &mut self,
        runner: &mut R,
        name: &InstanceFmri,
        instance: u64,
    ) -> Result<(), NodeFault>
        ensures ok { OnOk result
            (HasGone R.rules (deeds.Tick name.now instance) (course self.old (R.seen runner.old))
            (course self.new (R.seen runner.new))) }
        ensures err { IfErr result
            (λ e. DeedFails J.write_fails (deeds.Tick name.now instance) (course self.old (R.seen runner.old))
            (course self.new (R.seen runner.new)) e) }
    {
        if self.rests_on(name, instance) {
            return Ok(());
        }
        if self.refuses(name, instance)? {
            self.refuse_tick(name, instance)
        } else {
            self.tick(runner, name, instance)
        }
    }

    /// A deed is done. `Limit` if a restarter cannot be launched, since a number has no next one.
    pub(crate) fn go<R: Runner>(&mut self, runner: &mut R, deed: &Deed) -> Result<(), NodeFault>
        ensures ok { OnOk result
            (HasGone R.rules deed.now (course self.old (R.seen runner.old)) (course self.new (R.seen runner.new))) }
        ensures err { IfErr result
            (λ e. DeedFails J.write_fails deed.now (course self.old (R.seen runner.old))
            (course self.new (R.seen runner.new)) e) }
    {
        match deed {
            Deed::Launch(name) => self.launch(name),
            Deed::DeliverNext => self.deliver_next(),
            Deed::Ask => self.goes(Event::Ask),
            Deed::Orders => self.goes(Event::Orders),
            Deed::Report(event) => self.report_one(event),
            Deed::OwnTick(name) => self.goes(Event::OwnTick(name.clone()?)),
            Deed::Tick {
                restarter,
                instance,
            } => self.tick_one(runner, restarter, *instance),
        }
    }
}
