ghost use Rattle.std.specs.Option.{option_copied};
ghost use Rattle.std.specs.Prelude.{◌≡◌, ◌+◌, ◌<◌, ◌≤◌, ◌⊎◌, length, option_to_list, true, IfOk, OnErr, OnOk};
ghost use Rattle.smf_fmri.specs.ByKey.{list_with_item, put_all};
ghost use Rattle.smf_restarter.specs.Answers.{change_on_answer, change_on_list, change_on_report, timed_out};
ghost use Rattle.smf_restarter.specs.Changes.{knowledge_after, instances_without, nothing, phase_on, instances_after_turn, no_change};
ghost use Rattle.smf_restarter.specs.Forgotten.{without_past_runs};
ghost use Rattle.smf_restarter.specs.Knowledge.{at_first, by_instance, by_run, known_instance};
ghost use Rattle.smf_restarter.specs.Replies.{reply_to_message};
ghost use Rattle.smf_restarter.specs.Room.{HasPlace, IsSpawn, needs_memory};
ghost use Rattle.smf_restarter.specs.Ticks.{at_rest, own_tick, reply_to_tick};
ghost use Rattle.smf_restarter.specs.Watched.{IsOrdered, IsWatched, restless};

use crate::answers::{change_on_answer, change_on_list, change_on_report, timed_out};
use crate::forgotten::keep_needed;
use crate::known::{KnownInstance, KnownRun, Phase, Stage};
use crate::replies::reply_to_message;
use crate::reply::{Answer, Course, CourseChange, KnowledgeChange, Reply};
use crate::restless_list::{has_none, is_noted, is_up, judge, reserve_touched};
use crate::ticks::{own_tick, reply_to_tick};
use smf_contract::{Report, Status};
use smf_fmri::{InstanceFmri, Items, Number, Table};
use smf_wire::Message;
use std::alloc::{AllocError, Global};
use std::marker::Model;

/// A restarter from one launch on, svc.startd's own or a delegated one. Contracts see what it knows, and how much room it
/// has for more.
pub struct Restarter {
    alloc: Global,
    pub(crate) name: InstanceFmri,
    actor: u64,
    pub(crate) launch: u64,
    pub(crate) serial: Number,
    pub(crate) stage: Stage,
    instances: Table<KnownInstance>,
    pub(crate) runs: Table<KnownRun>,
    /// The numbers of the instances that are not at rest.
    restless: Table<u64>,
    /// For so many more instances and runs there is room in all lists.
    instances_room: usize,
    runs_room: usize,
}

/// Crates above call this, and prove nothing of the parts that go.
impl Drop for Restarter {
    fn drop(self) {
        let Restarter {
            alloc: _alloc,
            name: _name,
            actor: _actor,
            launch: _launch,
            serial: _serial,
            stage: _stage,
            instances: _instances,
            runs: _runs,
            restless: _restless,
            instances_room: _instances_room,
            runs_room: _runs_room,
        } = self;
    }
}

impl Model for Restarter {
    ghost use Rattle.smf_restarter.specs.Knowledge.{Kept, kept_knowledge};
    ghost use Rattle.smf_restarter.specs.Watched.{IsRestarter};

    ghost Value = { Kept };

    ghost view = { λ r.
        kept_knowledge (record {
          name = r.name;
          actor = r.actor;
          launch = r.launch;
          serial = r.serial;
          stage = r.stage;
          instances = r.instances.items;
          runs = r.runs.items;
        }) r.instances_room r.runs_room };

    ghost invariant = { λ r.
        IsRestarter (record {
          name = r.name;
          actor = r.actor;
          launch = r.launch;
          serial = r.serial;
          stage = r.stage;
          instances = r.instances.items;
          runs = r.runs.items;
        }) r.restless r.instances r.runs r.instances_room r.runs_room };
}

impl Restarter {
    /// A restarter that begins with a launch: it knows nothing. It holds contracts as the actor of that number.
    pub fn new(alloc: Global, name: InstanceFmri, actor: u64, launch: u64) -> Restarter
        ensures { result.known ≡ at_first name actor launch }
    {
        Restarter {
            alloc,
            name,
            actor,
            launch,
            serial: Number::zero(),
            stage: Stage::Joining,
            instances: Table::new(alloc),
            runs: Table::new(alloc),
            restless: Table::new(alloc),
            instances_room: 0,
            runs_room: 0,
        }
    }

    pub fn name(&self) -> &InstanceFmri
        ensures { result.now ≡ self.now.known.name }
    {
        &self.name
    }

    pub fn actor(&self) -> u64
        ensures { result ≡ self.now.known.actor }
    {
        self.actor
    }

    pub fn launch(&self) -> u64
        ensures { result ≡ self.now.known.launch }
    {
        self.launch
    }

    pub fn stage(&self) -> Stage
        ensures { result ≡ self.now.known.stage }
    {
        self.stage
    }

    /// The instances that it knows, in number order.
    pub fn instances(&self) -> &[KnownInstance]
        ensures { result.now ≡ self.now.known.instances }
    {
        self.instances.as_slice()
    }

    pub(crate) fn runs(&self) -> &[KnownRun]
        ensures { result.now ≡ self.now.known.runs }
    {
        self.runs.as_slice()
    }

    /// The instance of a number.
    pub(crate) fn known_instance(&self, instance: u64) -> Option<&KnownInstance>
        ensures { option_copied result ≡ known_instance self.now.known instance }
    {
        self.instances.get(&instance)
    }

    /// Its reply to a message that names it.
    pub fn reply_to_message(&self, message: &Message) -> Result<Reply, AllocError>
        ensures { IfOk result (λ r. r ≡ reply_to_message self.now.known message.now) }
    {
        reply_to_message(self.alloc, self, message)
    }

    /// Its reply to a tick of its own. It needs memory only for a message.
    pub fn own_tick(&self) -> Result<Reply, AllocError>
        ensures exact { IfOk result (λ r. r ≡ own_tick self.now.known self.now.known.stage) }
        ensures memory { OnErr result (needs_memory (own_tick self.now.known self.now.known.stage) ≡ true) }
    {
        own_tick(self.alloc, self)
    }

    /// Its reply to a tick of an instance. It needs memory only to send a message, or to begin a method, whose command
    /// it copies. The change needs room for one instance and one run at most. A spawn changes nothing before its
    /// answer.
    pub fn reply_to_tick(&self, instance: u64) -> Result<Reply, AllocError>
        ensures exact { IfOk result (λ r. r ≡ reply_to_tick self.now.known instance) }
        ensures memory { OnErr result (needs_memory (reply_to_tick self.now.known instance) ≡ true) }
        ensures room { IfOk result (λ r. HasPlace r.change 1 1) }
        ensures still { IfOk result (λ r. IsSpawn r.call → r.change ≡ no_change) }
    {
        reply_to_tick(self.alloc, self, instance)
    }

    /// True if it finds at once that a tick of an instance does nothing.
    #[tactic(auto, unfolding(crate::specs::Ticks::reply_to_tick))]
    pub fn rests_on(&self, instance: u64) -> bool
        ensures { result ≡ true → reply_to_tick self.now.known instance ≡ nothing }
    {
        if self.stage != Stage::Up {
            return true;
        }
        !is_noted(&self.restless, instance)
    }

    /// The numbers of the instances that are not at rest, in order.
    pub fn restless(&self) -> &[u64]
        ensures numbers { result.now ≡ restless self.now.known }
        ensures ordered { IsOrdered self.now.known }
    {
        let _instances = self.instances.as_slice();
        let _runs = self.runs.as_slice();
        self.restless.as_slice()
    }

    /// The change that the list of all contracts makes to it.
    pub fn change_on_list(&self, statuses: &[Status]) -> Result<KnowledgeChange, AllocError>
        ensures { IfOk result (λ c. c ≡ change_on_list self.now.known statuses.now) }
    {
        change_on_list(self.alloc, self, statuses)
    }

    /// The change that the answer to the call of an instance's tick makes to it. The change needs room for one run.
    pub fn change_on_answer(&self, instance: u64, answer: Answer) -> KnowledgeChange
        ensures exact { result ≡ change_on_answer self.now.known instance answer }
        ensures room { HasPlace result 0 1 }
    {
        change_on_answer(self.alloc, self, instance, &answer)
    }

    /// The change that the report of a contract's event makes to it. The change needs room for one run.
    pub fn change_on_report(&self, report: &Report) -> KnowledgeChange
        ensures exact { result ≡ change_on_report self.now.known report.now }
        ensures room { HasPlace result 0 1 }
    {
        change_on_report(self.alloc, self, report)
    }

    /// The change that it makes when the method that runs for an instance has taken too long. The change needs room for
    /// one run.
    pub fn timed_out(&self, instance: u64) -> KnowledgeChange
        ensures exact { result ≡ timed_out self.now.known instance }
        ensures room { HasPlace result 0 1 }
    {
        timed_out(self.alloc, self, instance)
    }

    /// Makes room for so many more instances and runs, if it is not there. Room for one of each is enough for the
    /// change of the next tick or the next report. It is enough for the change of an answer too, but not of a list. If
    /// memory runs out it knows what it knew.
    #[tactic(auto, using(crate::proofs::Rooms::lacks_instances, crate::proofs::Rooms::lacks_runs))]
    pub fn reserve(&mut self, instances: usize, runs: usize) -> Result<(), AllocError>
        ensures known { self.new.known ≡ self.old.known }
        ensures instances_room { OnOk result (instances ≤ self.new.instances_room) }
        ensures runs_room { OnOk result (runs ≤ self.new.runs_room) }
        ensures missing { OnErr result ((self.old.instances_room < instances) ⊎ (self.old.runs_room < runs)) }
    {
        if self.instances_room < instances {
            return self.make_room(instances, runs);
        }
        if self.runs_room < runs {
            return self.make_room(instances, runs);
        }
        Ok(())
    }

    fn make_room(&mut self, instances: usize, runs: usize) -> Result<(), AllocError>
        ensures known { self.new.known ≡ self.old.known }
        ensures instances_room { OnOk result (instances ≤ self.new.instances_room) }
        ensures runs_room { OnOk result (runs ≤ self.new.runs_room) }
    {
        self.instances_room = 0;
        self.runs_room = 0;
        self.instances.reserve(instances)?;
        self.runs.reserve(runs)?;
        reserve_touched(&mut self.restless, instances, runs)?;
        self.instances_room = instances;
        self.runs_room = runs;
        Ok(())
    }

    /// Makes a change, for which there is room. The next change needs room of its own.
    #[tactic(auto, unfolding(crate::specs::Changes::knowledge_after))]
    pub fn change(&mut self, change: KnowledgeChange)
        requires instances_room { length change.put ≤ self.old.instances_room }
        requires runs_room { length change.listed + 1 ≤ self.old.runs_room }
        ensures { self.new.known ≡ knowledge_after self.old.known change }
    {
        let KnowledgeChange {
            stage,
            serial,
            put,
            turn,
            forget,
            listed,
            run,
        } = change;
        self.stage = stage.unwrap_or(self.stage);
        self.serial = serial.unwrap_or(self.serial);
        put_listed(&mut self.runs, &mut self.restless, &self.instances, listed);
        put_if(&mut self.runs, &mut self.restless, &self.instances, run);
        put_all(&mut self.instances, &mut self.restless, &self.runs, put);
        turn_in(&mut self.instances, &mut self.restless, &self.runs, turn);
        forget_in(&mut self.instances, &mut self.restless, &self.runs, forget);
        self.instances_room = 0;
        self.runs_room = 0;
    }

    /// Forgets the runs that are over: their contracts have no members, and neither a row nor a method asks for them.
    pub fn forget_runs(&mut self)
        ensures { self.new.known ≡ without_past_runs self.old.known }
    {
        keep_needed(&mut self.runs, &self.instances);
    }

    /// True if it is up, and awaits and owes nothing.
    pub fn is_at_rest(&self) -> bool
        ensures { result ≡ at_rest self.now.known }
    {
        let none = has_none(self.restless());
        is_up(self.stage) && none
    }
}

/// Puts an instance in its place, for which there is room.
fn put_known(
    instances: &mut Table<KnownInstance>,
    restless: &mut Table<u64>,
    runs: &Table<KnownRun>,
    known: KnownInstance,
)
    requires watched { IsWatched restless.old.items instances.old.items runs.now.items }
    requires room { 0 < instances.old.room }
    requires touched { 0 < restless.old.room }
    ensures items { instances.new.items ≡ list_with_item by_instance known instances.old.items }
    ensures room { instances.old.room ≤ instances.new.room + 1 }
    ensures touched { restless.old.room ≤ restless.new.room + 1 }
    ensures watched { IsWatched restless.new.items instances.new.items runs.now.items }
{
    let number = known.instance;
    instances.put(known);
    judge(restless, instances, runs, number);
}

/// Puts instances in their places, one after another. There is room for all.
fn put_all(
    instances: &mut Table<KnownInstance>,
    restless: &mut Table<u64>,
    runs: &Table<KnownRun>,
    all: Items<KnownInstance>,
)
    requires watched { IsWatched restless.old.items instances.old.items runs.now.items }
    requires room { length all ≤ instances.old.room }
    requires touched { length all ≤ restless.old.room }
    ensures items { instances.new.items ≡ put_all by_instance all instances.old.items }
    ensures touched { restless.old.room ≤ restless.new.room + length all }
    ensures watched { IsWatched restless.new.items instances.new.items runs.now.items }
{
    for known in all.into_vec() {
        put_known(instances, restless, runs, known);
    }
}

fn phase_on(course: Course) -> Phase
    ensures { result ≡ phase_on course }
{
    match course {
        Course::Running(method) => Phase::Running(method),
        Course::Ending(end) => Phase::Ending(end),
    }
}

/// Lets an instance take another course. There is room to note that it does not rest.
fn turn_in(
    instances: &mut Table<KnownInstance>,
    restless: &mut Table<u64>,
    runs: &Table<KnownRun>,
    turn: Option<CourseChange>,
)
    requires watched { IsWatched restless.old.items instances.old.items runs.now.items }
    requires touched { 0 < restless.old.room }
    ensures items { instances.new.items ≡ instances_after_turn turn instances.old.items }
    ensures touched { restless.old.room ≤ restless.new.room + 1 }
    ensures watched { IsWatched restless.new.items instances.new.items runs.now.items }
{
    if let Some(turn) = turn {
        instances.amend(&turn.instance, phase_on(turn.course));
        judge(restless, instances, runs, turn.instance);
    }
}

fn forget_in(
    instances: &mut Table<KnownInstance>,
    restless: &mut Table<u64>,
    runs: &Table<KnownRun>,
    forget: Option<u64>,
)
    requires { IsWatched restless.old.items instances.old.items runs.now.items }
    ensures items { instances.new.items ≡ instances_without forget instances.old.items }
    ensures watched { IsWatched restless.new.items instances.new.items runs.now.items }
{
    if let Some(instance) = forget {
        instances.remove(&instance);
        restless.remove(&instance);
    }
}

/// Puts a run in its place, for which there is room, and judges its instance again.
fn put_run(
    runs: &mut Table<KnownRun>,
    restless: &mut Table<u64>,
    instances: &Table<KnownInstance>,
    run: KnownRun,
)
    requires watched { IsWatched restless.old.items instances.now.items runs.old.items }
    requires room { 0 < runs.old.room }
    requires touched { 0 < restless.old.room }
    ensures items { runs.new.items ≡ list_with_item by_run run runs.old.items }
    ensures room { runs.old.room ≤ runs.new.room + 1 }
    ensures touched { restless.old.room ≤ restless.new.room + 1 }
    ensures watched { IsWatched restless.new.items instances.now.items runs.new.items }
{
    let number = run.key.instance;
    runs.put(run);
    judge(restless, instances, runs, number);
}

/// Puts runs in their places, one after another. There is room for all.
fn put_listed(
    runs: &mut Table<KnownRun>,
    restless: &mut Table<u64>,
    instances: &Table<KnownInstance>,
    all: Items<KnownRun>,
)
    requires watched { IsWatched restless.old.items instances.now.items runs.old.items }
    requires room { length all ≤ runs.old.room }
    requires touched { length all ≤ restless.old.room }
    ensures items { runs.new.items ≡ put_all by_run all runs.old.items }
    ensures room { runs.old.room ≤ runs.new.room + length all }
    ensures touched { restless.old.room ≤ restless.new.room + length all }
    ensures watched { IsWatched restless.new.items instances.now.items runs.new.items }
{
    for run in all.into_vec() {
        put_run(runs, restless, instances, run);
    }
}

fn put_if(
    runs: &mut Table<KnownRun>,
    restless: &mut Table<u64>,
    instances: &Table<KnownInstance>,
    run: Option<KnownRun>,
)
    requires watched { IsWatched restless.old.items instances.now.items runs.old.items }
    requires room { 0 < runs.old.room }
    requires touched { 0 < restless.old.room }
    ensures items { runs.new.items ≡ put_all by_run (option_to_list run) runs.old.items }
    ensures touched { restless.old.room ≤ restless.new.room + 1 }
    ensures watched { IsWatched restless.new.items instances.now.items runs.new.items }
{
    if let Some(run) = run {
        put_run(runs, restless, instances, run);
    }
}
