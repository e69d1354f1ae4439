ghost use Rattle.smf_machine.specs.Children.{world_after_poll};
ghost use Rattle.smf_machine.specs.Runners.{HasTicked};
ghost use Rattle.smf_node.specs.declared.fault.NodeFault.TheVariants.{Memory};
ghost use Rattle.smf_node.specs.Marks.{progress_of};
ghost use Rattle.smf_node.specs.Partly.{EntryFails};
ghost use Rattle.smf_node.specs.Rounds.{HasLearned, IsEntered, course, with_world};
ghost use Rattle.smf_world.specs.declared.schedule.Turn.TheVariants as turns;
ghost use Rattle.smf_world.specs.Schedule.{progress_at_turn};
ghost use Rattle.std.specs.Prelude.{◌≡◌, IfErr, IfOk, OnErr, OnOk};

use crate::fault::NodeFault;
use crate::node::Node;
use smf_contract::ContractEvent;
use smf_fmri::InstanceFmri;
use smf_machine::{Machine, Runner};
use smf_model::Journal;
use smf_world::Turn;
use std::alloc::AllocError;

/// The most events that children are asked for in a round.
pub const MAX_POLLS: u64 = 65_536;

fn tick_in<J: Journal, R: Runner>(
    machine: &mut Machine<J>,
    runner: &mut R,
    name: &InstanceFmri,
    instance: u64,
) -> Result<(), NodeFault>
    ensures ok { OnOk result
        (HasTicked R.rules name.now instance machine.old (R.seen runner.old) machine.new (R.seen runner.new)) }
    ensures err { OnErr result (machine.new ≡ machine.old) }
    ensures kept { OnErr result ((R.seen runner.new).ledger ≡ (R.seen runner.old).ledger) }
    ensures fault { IfErr result (λ e. e ≡ Memory) }
{
    match machine.tick(runner, name, instance) {
        Ok(()) => Ok(()),
        Err(_) => Err(NodeFault::Memory),
    }
}

fn hear_in<J: Journal, R: Runner>(
    machine: &mut Machine<J>,
    runner: &mut R,
) -> Result<Option<ContractEvent>, NodeFault>
    ensures heard { IfOk result (λ event. machine.new ≡ world_after_poll event machine.old) }
    ensures answered { IfOk result (λ event. R.rules.polls event (R.seen runner.old) (R.seen runner.new)) }
    ensures err { OnErr result (machine.new ≡ machine.old) }
    ensures kept { OnErr result ((R.seen runner.new).ledger ≡ (R.seen runner.old).ledger) }
    ensures fault { IfErr result (λ e. e ≡ Memory) }
{
    match machine.hear(runner) {
        Ok(event) => Ok(event),
        Err(_) => Err(NodeFault::Memory),
    }
}

impl<J: Journal> Node<J> {
    /// A restarter has its turn for an instance, with the answer to what it asks for.
    #[tactic(auto, unfolding(crate::specs::Marks::progress_of))]
    pub(crate) fn tick<R: Runner>(
        &mut self,
        runner: &mut R,
        name: &InstanceFmri,
        instance: u64,
    ) -> Result<(), NodeFault>
        ensures ok { OnOk result
            (HasTicked R.rules name.now instance self.old.world (R.seen runner.old) self.new.world
            (R.seen runner.new)) }
        ensures marks { OnOk result (self.new ≡ with_world self.old self.new.world) }
        ensures err { OnErr result (self.new ≡ self.old) }
        ensures kept { OnErr result ((R.seen runner.new).ledger ≡ (R.seen runner.old).ledger) }
        ensures fault { IfErr result (λ e. e ≡ Memory) }
    {
        tick_in(&mut self.machine, runner, name, instance)?;
        Ok(())
    }

    /// The next event is asked for; it happens, and is given back.
    #[tactic(auto, unfolding(crate::specs::Marks::progress_of))]
    pub fn hear<R: Runner>(&mut self, runner: &mut R) -> Result<Option<ContractEvent>, NodeFault>
        ensures heard { IfOk result (λ event. self.new ≡ with_world self.old (world_after_poll event self.old.world)) }
        ensures answered { IfOk result (λ event. R.rules.polls event (R.seen runner.old) (R.seen runner.new)) }
        ensures err { OnErr result (self.new ≡ self.old) }
        ensures kept { OnErr result ((R.seen runner.new).ledger ≡ (R.seen runner.old).ledger) }
        ensures fault { IfErr result (λ e. e ≡ Memory) }
    {
        let event = hear_in(&mut self.machine, runner)?;
        Ok(event)
    }

    /// Children are asked for events until they give none or a device fails; each happens.
    fn learn<R: Runner>(&mut self, runner: &mut R) -> Result<(), NodeFault>
        ensures ok { OnOk result
            (HasLearned R.rules (course self.old (R.seen runner.old)) (course self.new (R.seen runner.new))) }
        ensures err { IfErr result
            (λ e. EntryFails R.rules turns.Reports (course self.old (R.seen runner.old))
            (course self.new (R.seen runner.new)) e) }
    {
        for _ in 0..MAX_POLLS {
            let event = self.hear(runner)?;
            if event.is_none() {
                return Ok(());
            }
        }
        Ok(())
    }

    /// All that happened to contracts is looked at.
    #[tactic(auto, unfolding(crate::specs::Marks::progress_of))]
    fn look(&mut self) -> Result<(), AllocError>
        ensures ok { OnOk result (self.new ≡ progress_at_turn turns.Reports self.old) }
        ensures err { OnErr result (self.new ≡ self.old) }
    {
        let news = self.new_events()?;
        let looked = self.machine.table().events().len();
        self.marks.look(looked, news)
    }

    /// Before contracts are reported, children tell what happened.
    fn enter_reports<R: Runner>(&mut self, runner: &mut R) -> Result<(), NodeFault>
        ensures ok { OnOk result
            (IsEntered R.rules turns.Reports (course self.old (R.seen runner.old))
            (course self.new (R.seen runner.new))) }
        ensures err { IfErr result
            (λ e. EntryFails R.rules turns.Reports (course self.old (R.seen runner.old))
            (course self.new (R.seen runner.new)) e) }
    {
        self.learn(runner)?;
        self.look()?;
        Ok(())
    }

    /// A turn is entered.
    pub(crate) fn enter<R: Runner>(&mut self, runner: &mut R, turn: &Turn) -> Result<(), NodeFault>
        ensures ok { OnOk result
            (IsEntered R.rules turn.now (course self.old (R.seen runner.old)) (course self.new (R.seen runner.new))) }
        ensures err { IfErr result
            (λ e. EntryFails R.rules turn.now (course self.old (R.seen runner.old))
            (course self.new (R.seen runner.new)) e) }
    {
        match turn {
            Turn::Reports => self.enter_reports(runner),
            Turn::Launches => Ok(()),
            Turn::Messages => Ok(()),
            Turn::Ask => Ok(()),
            Turn::Orders => Ok(()),
            Turn::OwnTick(_) => Ok(()),
            Turn::Ticks(_) => Ok(()),
        }
    }
}
