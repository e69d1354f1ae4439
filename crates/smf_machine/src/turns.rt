ghost use Rattle.std.specs.Prelude.{◌≡◌, [], map, IfErr, IfOk, OnErr, OnOk};
ghost use Rattle.smf_machine.specs.Children.{done_if, world_after_poll};
ghost use Rattle.smf_machine.specs.declared.fault.MachineFault.TheVariants.{Memory};
ghost use Rattle.smf_machine.specs.declared.requests.MethodRequest.TheVariants as requests;
ghost use Rattle.smf_machine.specs.Install.{AreCovered, CanInstall, HasRoomLeft, IsInstalled, IsSame, IsSingle, rest_of, rest_with, work_with};
ghost use Rattle.smf_machine.specs.Parts.{knowledge, world_of};
ghost use Rattle.smf_machine.specs.Requests.{request_of_turn};
ghost use Rattle.smf_machine.specs.Runners.{HasTicked, TickedBy};
ghost use Rattle.smf_model.specs.Contents.{Holdings as AnyHoldings};
ghost use Rattle.smf_world.specs.declared.event.Event.TheVariants as events;
ghost use Rattle.smf_world.specs.declared.event.SpawnAnswer.{SpawnAnswer as AnyAnswer};
ghost use Rattle.smf_world.specs.Happens.{world_after, happens};
ghost use Rattle.smf_past.specs.Begun.{IsBegun};
ghost use Rattle.smf_world.specs.Worked.{work_of_event};

use crate::fault::MachineFault;
use crate::installation::{Rest, install, install_if, into_rest, prepare};
use crate::parts::{Parts, System};
use crate::polls;
use crate::requests::MethodRequest;
use crate::room::make_room;
use crate::runner::Runner;
use smf_contract::ContractEvent;
use smf_edge::Start;
use smf_fmri::{InstanceFmri, Number};
use smf_model::Journal;
use smf_world::{SpawnAnswer, Work};
use std::alloc::{AllocError, Global};

/// The works of a turn, one for each answer to the spawn that it asks for.
#[derive(Drop)]
pub(crate) struct SpawnWorks {
    made: Work,
    refused: Work,
    not_followed: Work,
}

/// The same, the repository aside.
#[derive(Drop)]
pub(crate) struct SpawnRests {
    made: Rest,
    refused: Rest,
    not_followed: Rest,
}

fn let_go(_works: SpawnWorks) {}

fn let_rests_go(_rests: SpawnRests) {}

/// The rest of each work.
fn into_rests(works: SpawnWorks) -> SpawnRests
    ensures { (answer : AnyAnswer) → rest_with result answer ≡ rest_of (work_with works answer) }
{
    let SpawnWorks {
        made,
        refused,
        not_followed,
    } = works;
    SpawnRests {
        made: into_rest(made),
        refused: into_rest(refused),
        not_followed: into_rest(not_followed),
    }
}

/// Makes room for what comes of each answer, whichever is given.
fn prepare_all(parts: &mut Parts, works: SpawnWorks) -> Result<SpawnRests, AllocError>
    requires { AreCovered works }
    ensures same { IsSame parts.old parts.new }
    ensures rests { IfOk result (λ rests. (answer : AnyAnswer)
        → rest_with rests answer ≡ rest_of (work_with works answer)) }
    ensures room { IfOk result (λ rests. (answer : AnyAnswer) → HasRoomLeft parts.new (rest_with rests answer)) }
{
    match make_room(parts, &works.made) {
        Ok(()) => Ok(into_rests(works)),
        Err(fault) => {
            let_go(works);
            Err(fault)
        }
    }
}

/// Makes what comes of an answer, for which there is room.
fn install_answer(alloc: Global, parts: &mut Parts, rests: SpawnRests, answer: SpawnAnswer)
    requires room { (any : AnyAnswer) → HasRoomLeft parts.old (rest_with rests any) }
    requires single { (any : AnyAnswer) → IsSingle (map knowledge parts.old.restarters.items) (rest_with rests any) }
    ensures { IsInstalled parts.old parts.new (rest_with rests answer) }
{
    let SpawnRests {
        made,
        refused,
        not_followed,
    } = rests;
    match answer {
        SpawnAnswer::Made => install(alloc, parts, made),
        SpawnAnswer::Refused => install(alloc, parts, refused),
        SpawnAnswer::NotFollowed => install(alloc, parts, not_followed),
    }
}

/// A process is asked for once there is room for what comes of each answer, which is then made.
fn spawn_with<R: Runner>(
    alloc: Global,
    parts: &mut Parts,
    runner: &mut R,
    start: &Start,
    works: SpawnWorks,
) -> Result<SpawnAnswer, MachineFault>
    requires plain { (any : AnyAnswer) → (work_with works any).changes ≡ [] }
    requires command { (any : AnyAnswer) → (work_with works any).command ≡ [] }
    requires patches { (any : AnyAnswer) → (work_with works any).patches ≡ [] }
    requires single { (any : AnyAnswer)
        → IsSingle (map knowledge parts.old.restarters.items) (rest_of (work_with works any)) }
    requires covered { AreCovered works }
    ensures made { (h : AnyHoldings)
        → IfOk result (λ answer. world_of h parts.new ≡ world_after (world_of h parts.old) (work_with works answer)) }
    ensures answered { IfOk result
        (λ answer. R.rules.spawns start.now answer (R.seen runner.old) (R.seen runner.new)) }
    ensures err { (h : AnyHoldings) → OnErr result (world_of h parts.new ≡ world_of h parts.old) }
    ensures kept { OnErr result ((R.seen runner.new).ledger ≡ (R.seen runner.old).ledger) }
    ensures fault { IfErr result (λ e. e ≡ Memory) }
{
    let rests = prepare_all(parts, works)?;
    match runner.run_method(start) {
        Ok(answer) => {
            install_answer(alloc, parts, rests, answer);
            Ok(answer)
        }
        Err(_) => {
            let_rests_go(rests);
            Err(MachineFault::Memory)
        }
    }
}

/// The end of a contract's members is asked for once there is room for a work, which is made if that was done.
fn kill_with<R: Runner>(
    alloc: Global,
    parts: &mut Parts,
    runner: &mut R,
    id: Number,
    work: Work,
) -> Result<bool, MachineFault>
    requires plain { work.changes ≡ [] }
    requires command { work.command ≡ [] }
    requires patches { work.patches ≡ [] }
    requires single { IsSingle (map knowledge parts.old.restarters.items) (rest_of work) }
    ensures made { (h : AnyHoldings)
        → IfOk result (λ did. world_of h parts.new ≡ done_if did (world_of h parts.old) work) }
    ensures answered { IfOk result (λ did. R.rules.kills id did (R.seen runner.old) (R.seen runner.new)) }
    ensures err { (h : AnyHoldings) → OnErr result (world_of h parts.new ≡ world_of h parts.old) }
    ensures kept { OnErr result ((R.seen runner.new).ledger ≡ (R.seen runner.old).ledger) }
    ensures fault { IfErr result (λ e. e ≡ Memory) }
{
    let rest = prepare(parts, work)?;
    let did = runner.end_contract(id)?;
    install_if(alloc, parts, rest, did);
    Ok(did)
}

impl<J: Journal> System<J> {
    /// The work of a restarter's turn for an instance, with this answer to its spawn.
    #[tactic(auto, unfolding(smf_world::specs::Worked::work_of_event))]
    fn turn_work(
        &self,
        name: &InstanceFmri,
        instance: u64,
        spawn: SpawnAnswer,
    ) -> Result<Work, AllocError>
        ensures { IfOk result (λ k. k ≡ work_of_event self.now (events.Tick name.now instance spawn)) }
    {
        self.work_of_tick(name, instance, spawn)
    }

    /// The same with each answer.
    fn spawn_works(&self, name: &InstanceFmri, instance: u64) -> Result<SpawnWorks, AllocError>
        ensures { IfOk result (λ works. (any : AnyAnswer)
            → work_with works any ≡ work_of_event self.now (events.Tick name.now instance any)) }
    {
        let made = self.turn_work(name, instance, SpawnAnswer::Made)?;
        let refused = self.turn_work(name, instance, SpawnAnswer::Refused)?;
        let not_followed = self.turn_work(name, instance, SpawnAnswer::NotFollowed)?;
        Ok(SpawnWorks {
            made,
            refused,
            not_followed,
        })
    }

    #[tactic(auto, unfolding(crate::specs::Parts::world_of))]
    fn spawn_with<R: Runner>(
        &mut self,
        runner: &mut R,
        start: &Start,
        works: SpawnWorks,
    ) -> Result<SpawnAnswer, MachineFault>
        requires plain { (any : AnyAnswer) → (work_with works any).changes ≡ [] }
        requires command { (any : AnyAnswer) → (work_with works any).command ≡ [] }
        requires can { (any : AnyAnswer) → CanInstall self.old.now self.old.restarters (work_with works any) }
        requires covered { AreCovered works }
        ensures made { IfOk result (λ answer. self.new ≡ world_after self.old (work_with works answer)) }
        ensures answered { IfOk result
            (λ answer. R.rules.spawns start.now answer (R.seen runner.old) (R.seen runner.new)) }
        ensures err { OnErr result (self.new ≡ self.old) }
        ensures kept { OnErr result ((R.seen runner.new).ledger ≡ (R.seen runner.old).ledger) }
        ensures fault { IfErr result (λ e. e ≡ Memory) }
    {
        spawn_with(self.alloc, &mut self.parts, runner, start, works)
    }

    #[tactic(auto, unfolding(crate::specs::Parts::world_of))]
    fn kill_with<R: Runner>(
        &mut self,
        runner: &mut R,
        id: Number,
        work: Work,
    ) -> Result<bool, MachineFault>
        requires plain { work.changes ≡ [] }
        requires command { work.command ≡ [] }
        requires can { CanInstall self.old.now self.old.restarters work }
        ensures made { IfOk result (λ did. self.new ≡ done_if did self.old work) }
        ensures answered { IfOk result (λ did. R.rules.kills id did (R.seen runner.old) (R.seen runner.new)) }
        ensures err { OnErr result (self.new ≡ self.old) }
        ensures kept { OnErr result ((R.seen runner.new).ledger ≡ (R.seen runner.old).ledger) }
        ensures fault { IfErr result (λ e. e ≡ Memory) }
    {
        kill_with(self.alloc, &mut self.parts, runner, id, work)
    }

    /// A restarter has its turn for an instance, which asks for a process.
    fn tick_spawn<R: Runner>(
        &mut self,
        runner: &mut R,
        name: &InstanceFmri,
        instance: u64,
        start: &Start,
    ) -> Result<(), MachineFault>
        requires reached { IsBegun self.old }
        requires asks { request_of_turn self.old name.now instance ≡ requests.Spawn start.now }
        ensures ok { OnOk result
            (TickedBy R.rules (requests.Spawn start.now) name.now instance self.old (R.seen runner.old) self.new
            (R.seen runner.new)) }
        ensures err { OnErr result (self.new ≡ self.old) }
        ensures kept { OnErr result ((R.seen runner.new).ledger ≡ (R.seen runner.old).ledger) }
        ensures fault { IfErr result (λ e. e ≡ Memory) }
    {
        let works = self.spawn_works(name, instance)?;
        self.spawn_with(runner, start, works)?;
        Ok(())
    }

    /// A restarter has its turn for an instance, which asks for a kill.
    fn tick_kill<R: Runner>(
        &mut self,
        runner: &mut R,
        name: &InstanceFmri,
        instance: u64,
        id: Number,
    ) -> Result<(), MachineFault>
        requires { IsBegun self.old }
        ensures ok { OnOk result
            (TickedBy R.rules (requests.Kill id) name.now instance self.old (R.seen runner.old) self.new
            (R.seen runner.new)) }
        ensures err { OnErr result (self.new ≡ self.old) }
        ensures kept { OnErr result ((R.seen runner.new).ledger ≡ (R.seen runner.old).ledger) }
        ensures fault { IfErr result (λ e. e ≡ Memory) }
    {
        let work = self.turn_work(name, instance, SpawnAnswer::Made)?;
        self.kill_with(runner, id, work)?;
        Ok(())
    }

    /// The turn of a restarter for an instance, with this answer to its spawn.
    fn answer(
        &mut self,
        name: &InstanceFmri,
        instance: u64,
        spawn: SpawnAnswer,
    ) -> Result<(), MachineFault>
        requires { IsBegun self.old }
        ensures ok { OnOk result (self.new ≡ happens self.old (events.Tick name.now instance spawn)) }
        ensures err { OnErr result (self.new ≡ self.old) }
        ensures fault { IfErr result (λ e. e ≡ Memory) }
    {
        let work = self.turn_work(name, instance, spawn)?;
        self.take(work)?;
        Ok(())
    }

    /// A restarter has its turn for an instance, with the answer to what it asks for. A kill that is not done is owed
    /// again.
    pub(crate) fn tick<R: Runner>(
        &mut self,
        runner: &mut R,
        name: &InstanceFmri,
        instance: u64,
    ) -> Result<(), MachineFault>
        requires { IsBegun self.old }
        ensures ok { OnOk result
            (HasTicked R.rules name.now instance self.old (R.seen runner.old) self.new (R.seen runner.new)) }
        ensures err { OnErr result (self.new ≡ self.old) }
        ensures kept { OnErr result ((R.seen runner.new).ledger ≡ (R.seen runner.old).ledger) }
        ensures fault { IfErr result (λ e. e ≡ Memory) }
    {
        match self.ask_of(name, instance)? {
            MethodRequest::Nothing => self.answer(name, instance, SpawnAnswer::Made),
            MethodRequest::Unnumbered => self.answer(name, instance, SpawnAnswer::Refused),
            MethodRequest::Spawn(start) => self.tick_spawn(runner, name, instance, &start),
            MethodRequest::Kill(id) => self.tick_kill(runner, name, instance, id),
        }
    }

    /// The next event is asked for, and happens.
    #[tactic(auto, unfolding(crate::specs::Parts::world_of))]
    pub(crate) fn hear<R: Runner>(
        &mut self,
        runner: &mut R,
    ) -> Result<Option<ContractEvent>, MachineFault>
        requires { IsBegun self.old }
        ensures heard { IfOk result (λ event. self.new ≡ world_after_poll event self.old) }
        ensures answered { IfOk result (λ event. R.rules.polls event (R.seen runner.old) (R.seen runner.new)) }
        ensures err { OnErr result (self.new ≡ self.old) }
        ensures kept { OnErr result ((R.seen runner.new).ledger ≡ (R.seen runner.old).ledger) }
        ensures fault { IfErr result (λ e. e ≡ Memory) }
    {
        polls::hear(&mut self.parts, runner)
    }
}
