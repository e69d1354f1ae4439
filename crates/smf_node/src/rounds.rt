ghost use Rattle.smf_engine.specs.Orders.{has_no_orders};
ghost use Rattle.smf_machine.specs.Runners.{table_rules, seen_of_nobody};
ghost use Rattle.smf_model.specs.Shown.{view};
ghost use Rattle.smf_node.specs.Marks.{progress_of};
ghost use Rattle.smf_node.specs.Partly.{DeedsFail, RestartersFail, RoundFails, SettleFails, TurnFails, TurnsFail};
ghost use Rattle.smf_node.specs.Rounds.{AreDone, AreTaken, HasSettled, IsRound, IsTaken, course};
ghost use Rattle.smf_restarter.specs.Ticks.{at_rest};
ghost use Rattle.smf_past.specs.Begun.{IsSafeSince};
ghost use Rattle.smf_world.specs.Schedule.{deliveries, first_turns, is_quiet, launched_names, turns_of, turns_of_all};
ghost use Rattle.std.specs.List.{list_all};
ghost use Rattle.std.specs.Prelude.{◌≡◌, ◌++◌, IfErr, IfOk, OnOk};

use crate::fault::NodeFault;
use crate::node::Node;
use smf_fmri::InstanceFmri;
use smf_machine::{NoChildren, Runner};
use smf_model::Journal;
use smf_restarter::Restarter;
use smf_world::{Deed, Settled, Turn};
use std::alloc::{AllocError, Global};

/// Three turns of messages: those that wait, those that are sent on these, and those that are sent on those.
fn push_deliveries(all: &mut Vec<Turn>) -> Result<(), AllocError>
    ensures { OnOk result (all.new.items ≡ all.old.items ++ deliveries) }
{
    all.push(Turn::Messages)?;
    all.push(Turn::Messages)?;
    all.push(Turn::Messages)?;
    Ok(())
}

fn first_turns(alloc: Global) -> Result<Vec<Turn>, AllocError>
    ensures { IfOk result (λ ts. ts.items ≡ first_turns) }
{
    let mut all = Vec::new(alloc);
    all.push(Turn::Launches)?;
    push_deliveries(&mut all)?;
    all.push(Turn::Ask)?;
    push_deliveries(&mut all)?;
    all.push(Turn::Orders)?;
    push_deliveries(&mut all)?;
    all.push(Turn::Reports)?;
    Ok(all)
}

/// The turns of a restarter, after others.
fn push_turns_of(all: &mut Vec<Turn>, name: &InstanceFmri) -> Result<(), AllocError>
    ensures { OnOk result (all.new.items ≡ all.old.items ++ turns_of name.now) }
{
    all.push(Turn::OwnTick(name.clone()?))?;
    push_deliveries(all)?;
    all.push(Turn::Ticks(name.clone()?))?;
    push_deliveries(all)
}

fn turns_of_all(alloc: Global, names: &[InstanceFmri]) -> Result<Vec<Turn>, AllocError>
    ensures { IfOk result (λ ts. ts.items ≡ turns_of_all names.now) }
{
    let mut all = Vec::new(alloc);
    for name in names {
        push_turns_of(&mut all, name)?;
    }
    Ok(all)
}

fn all_rest(restarters: &[Restarter]) -> bool
    ensures { result ≡ list_all (λ k. at_rest k.known) restarters.now }
{
    restarters.iter().all(|restarter| restarter.is_at_rest())
}

impl<J: Journal> Node<J> {
    /// Deeds are done, up to the first that fails.
    fn go_all<R: Runner>(&mut self, runner: &mut R, deeds: &[Deed]) -> Result<(), NodeFault>
        ensures ok { OnOk result
            (AreDone R.rules deeds.now (course self.old (R.seen runner.old)) (course self.new (R.seen runner.new))) }
        ensures err { IfErr result
            (λ e. DeedsFail R.rules J.write_fails deeds.now (course self.old (R.seen runner.old))
            (course self.new (R.seen runner.new)) e) }
    {
        for deed in deeds {
            self.go(runner, deed)?;
        }
        Ok(())
    }

    /// A turn is taken. A fault leaves what was done before the deed that failed.
    #[tactic(auto, unfolding(crate::specs::Rounds::IsTaken, crate::specs::Partly::TurnFails))]
    fn turn<R: Runner>(&mut self, runner: &mut R, turn: &Turn) -> Result<(), NodeFault>
        ensures ok { OnOk result
            (IsTaken R.rules turn.now (course self.old (R.seen runner.old)) (course self.new (R.seen runner.new))) }
        ensures err { IfErr result
            (λ e. TurnFails R.rules J.write_fails turn.now (course self.old (R.seen runner.old))
            (course self.new (R.seen runner.new)) e) }
    {
        self.enter(runner, turn)?;
        let deeds = self.deeds_of(turn)?;
        self.go_all(runner, &deeds)
    }

    /// Turns are taken, up to the first that fails.
    fn turn_all<R: Runner>(&mut self, runner: &mut R, turns: &[Turn]) -> Result<(), NodeFault>
        ensures ok { OnOk result
            (AreTaken R.rules turns.now (course self.old (R.seen runner.old)) (course self.new (R.seen runner.new))) }
        ensures err { IfErr result
            (λ e. TurnsFail R.rules J.write_fails turns.now (course self.old (R.seen runner.old))
            (course self.new (R.seen runner.new)) e) }
    {
        for turn in turns {
            self.turn(runner, turn)?;
        }
        Ok(())
    }

    /// The first turns of a round: launches, messages, what the graph asks for and orders, what children tell, and reports.
    fn begin_round<R: Runner>(&mut self, runner: &mut R) -> Result<(), NodeFault>
        ensures ok { OnOk result
            (AreTaken R.rules first_turns (course self.old (R.seen runner.old)) (course self.new (R.seen runner.new))) }
        ensures err { IfErr result
            (λ e. TurnsFail R.rules J.write_fails first_turns (course self.old (R.seen runner.old))
            (course self.new (R.seen runner.new)) e) }
    {
        let turns = first_turns(self.alloc)?;
        self.turn_all(runner, &turns)
    }

    fn restarter_turns(&self) -> Result<Vec<Turn>, AllocError>
        ensures { IfOk result (λ ts. ts.items ≡ turns_of_all (launched_names self.now.world)) }
    {
        let names = self.launched_names()?;
        turns_of_all(self.alloc, &names)
    }

    /// The turns of the launched restarters.
    #[tactic(auto, unfolding(crate::specs::Partly::RestartersFail))]
    fn take_restarter_turns<R: Runner>(&mut self, runner: &mut R) -> Result<(), NodeFault>
        ensures ok { OnOk result
            (AreTaken R.rules (turns_of_all (launched_names self.old.world)) (course self.old (R.seen runner.old))
            (course self.new (R.seen runner.new))) }
        ensures err { IfErr result
            (λ e. RestartersFail R.rules J.write_fails (course self.old (R.seen runner.old))
            (course self.new (R.seen runner.new)) e) }
    {
        let turns = self.restarter_turns()?;
        self.turn_all(runner, &turns)
    }

    fn round<R: Runner>(&mut self, runner: &mut R) -> Result<(), NodeFault>
        ensures ok { OnOk result
            (IsRound R.rules (course self.old (R.seen runner.old)) (course self.new (R.seen runner.new))) }
        ensures err { IfErr result
            (λ e. RoundFails R.rules J.write_fails (course self.old (R.seen runner.old))
            (course self.new (R.seen runner.new)) e) }
    {
        self.begin_round(runner)?;
        self.take_restarter_turns(runner)
    }

    /// True if nothing is ordered of what is held.
    #[tactic(auto, unfolding(crate::specs::Marks::progress_of))]
    fn has_no_orders(&mut self) -> Result<bool, AllocError>
        ensures same { self.new ≡ self.old }
        ensures nothing { IfOk result (λ b. b ≡ has_no_orders (view self.old.world.now)) }
    {
        self.machine.has_no_orders()
    }

    #[tactic(auto, unfolding(crate::specs::Marks::progress_of), using(crate::proofs::Found::all_known))]
    fn all_rest(&self) -> bool
        ensures { result ≡ list_all at_rest self.now.world.restarters }
    {
        all_rest(self.machine.restarters())
    }

    /// True if nothing is left to do. The node looks at the orders only if all restarters are at rest.
    #[tactic(auto, unfolding(smf_world::specs::Schedule::is_quiet))]
    fn is_quiet(&mut self) -> Result<bool, AllocError>
        ensures same { self.new ≡ self.old }
        ensures quiet { IfOk result (λ b. b ≡ is_quiet self.old.world) }
    {
        if !self.all_rest() {
            return Ok(false);
        }
        let none = self.has_no_orders()?;
        Ok(none)
    }

    /// Keeps what the graph sees of what is held until something changes, for `is_quiet` and the next round.
    #[tactic(auto, unfolding(crate::specs::Marks::progress_of))]
    fn keep_view(&mut self) -> Result<(), AllocError>
        ensures { self.new ≡ self.old }
    {
        self.machine.keep_view()
    }

    /// Keeps what the graph sees of what is held, and finds out whether nothing is left to do.
    fn is_settled(&mut self) -> Result<bool, AllocError>
        ensures same { self.new ≡ self.old }
        ensures quiet { IfOk result (λ b. b ≡ is_quiet self.new.world) }
    {
        self.keep_view()?;
        self.is_quiet()
    }

    fn drive_rounds<R: Runner>(&mut self, runner: &mut R, rounds: u64) -> Result<Settled, NodeFault>
        ensures ok { IfOk result
            (λ how. HasSettled R.rules rounds (course self.old (R.seen runner.old))
            (course self.new (R.seen runner.new)) how) }
        ensures err { IfErr result
            (λ e. SettleFails R.rules J.write_fails rounds (course self.old (R.seen runner.old))
            (course self.new (R.seen runner.new)) e) }
    {
        for _ in 0..rounds {
            self.round(runner)?;
            if self.is_settled()? {
                return Ok(Settled::Quiet);
            }
        }
        Ok(Settled::Busy)
    }

    /// Lets at most so many rounds happen with the answers of who runs methods, up to the first that leaves nothing to do.
    /// `Limit` if a restarter has to be launched and cannot be. A fault leaves what was done before the deed that failed.
    pub fn drive<R: Runner>(&mut self, runner: &mut R, rounds: u64) -> Result<Settled, NodeFault>
        ensures ok { IfOk result
            (λ how. HasSettled R.rules rounds (course self.old (R.seen runner.old))
            (course self.new (R.seen runner.new)) how) }
        ensures safe { IsSafeSince self.new.world }
        ensures err { IfErr result
            (λ e. SettleFails R.rules J.write_fails rounds (course self.old (R.seen runner.old))
            (course self.new (R.seen runner.new)) e) }
    {
        let how = self.drive_rounds(runner, rounds);
        let _shown = self.trail();
        how
    }

    /// The same if nobody runs methods. Each spawn and each kill is made, and nothing is told of processes.
    pub fn settle(&mut self, rounds: u64) -> Result<Settled, NodeFault>
        ensures ok { IfOk result
            (λ how. HasSettled table_rules rounds (course self.old seen_of_nobody)
            (course self.new seen_of_nobody) how) }
        ensures safe { IsSafeSince self.new.world }
        ensures err { IfErr result
            (λ e. SettleFails table_rules J.write_fails rounds (course self.old seen_of_nobody)
            (course self.new seen_of_nobody) e) }
    {
        self.drive(&mut NoChildren {}, rounds)
    }
}
