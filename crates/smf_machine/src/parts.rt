ghost use Rattle.std.specs.Option.{option_copied};
ghost use Rattle.std.specs.Prelude.{◌≡◌, ◌+◌, ◌<◌, find, map, option_map, true, IfOk};
ghost use Rattle.smf_contract.specs.Entries.{statuses};
ghost use Rattle.smf_engine.specs.Orders.{has_no_orders, orders_seen, question};
ghost use Rattle.smf_machine.specs.Given.{is_actor_kept, is_named_kept};
ghost use Rattle.smf_machine.specs.Parts.{knowledge, world_of};
ghost use Rattle.smf_model.specs.Look.{instance, launch_of};
ghost use Rattle.smf_model.specs.Next.{outcome_of_command};
ghost use Rattle.smf_model.specs.Shown.{rows_of, view};
ghost use Rattle.smf_world.specs.Worked.{is_actor, is_named, restarter, sent_at};
ghost use Rattle.smf_past.specs.Begun.{IsBegun};
ghost use Rattle.smf_past.specs.Forgotten.{IsCaughtUp};
ghost use Rattle.smf_past.specs.Lived.{continued};
ghost use Rattle.smf_past.specs.Remains.{remains};
ghost use Rattle.smf_restarter.specs.Forgotten.{without_past_runs};
ghost use Rattle.smf_contract.specs.Thinned.{thinned};
ghost use Rattle.smf_world.specs.World.{initial_world};
ghost use Rattle.smf_model.specs.Contents.{Holdings as AnyHoldings};
ghost use Rattle.smf_changes.specs.Changes.{changes_since, recent};

use smf_changes::Repository;
use smf_contract::{ContractTable, Status};
use smf_engine::Engine;
use smf_fmri::{InstanceFmri, Items};
use smf_model::{Command, Instance, Journal, Outcome, Tables};
use smf_restarter::Restarter;
use smf_state::{ChangedItem, HeldView, View};
use smf_wire::{Message, Order};
use smf_world::Item;
use std::alloc::{AllocError, Global};
use std::marker::Model;

/// What remains of a machine that forgets its past: what is held, and the contracts that have members.
#[derive(Drop)]
pub struct Remains {
    pub(crate) first: Tables,
    pub(crate) table: ContractTable,
}

/// All actors but the repository, and what was seen of them.
pub struct Parts {
    /// The tables of the repository when it was found.
    pub(crate) first: Tables,
    /// The accepted commands since.
    pub(crate) commands: Vec<Command>,
    pub(crate) restarters: Vec<Restarter>,
    pub(crate) engine: Engine,
    /// All that were ever sent.
    pub(crate) messages: Vec<Message>,
    pub(crate) trail: Vec<Item>,
    pub(crate) table: ContractTable,
}

/// Crates above call this, and prove nothing of the parts that go.
impl Drop for Parts {
    fn drop(self) {
        let Parts {
            first: _first,
            commands: _commands,
            restarters: _restarters,
            engine: _engine,
            messages: _messages,
            trail: _trail,
            table: _table,
        } = self;
    }
}

/// Nothing was said or seen yet.
#[tactic(auto, unfolding(crate::specs::Parts::world_of))]
pub(crate) fn parts_of(alloc: Global, first: Tables) -> Parts
    ensures { (h : AnyHoldings) → first ≡ h → world_of h result ≡ initial_world h }
{
    Parts {
        first,
        commands: Vec::new(alloc),
        restarters: Vec::new(alloc),
        engine: Engine::new(),
        messages: Vec::new(alloc),
        trail: Vec::new(alloc),
        table: ContractTable::new(alloc),
    }
}

/// The restarters forget the runs that are over.
fn forget_runs(restarters: &mut [Restarter])
    ensures { map knowledge restarters.new ≡ map without_past_runs (map knowledge restarters.old) }
{
    for restarter in restarters.iter_mut() {
        restarter.forget_runs();
    }
}

impl Parts {
    /// The same actors, as if nothing was said or seen before, without what is over.
    #[tactic(auto, unfolding(crate::specs::Parts::world_of))]
    pub(crate) fn forget(&mut self, rest: Remains)
        ensures { (h : AnyHoldings) → rest.first ≡ h → rest.table.table ≡ thinned self.old.table.table
            → world_of h self.new ≡ remains (world_of h self.old) }
    {
        let Remains { first, table } = rest;
        self.first = first;
        self.table = table;
        self.commands.clear();
        self.messages.clear();
        self.trail.clear();
        forget_runs(&mut self.restarters);
    }
}

/// Nothing was said or seen yet, with these contracts.
#[tactic(auto, unfolding(crate::specs::Parts::world_of))]
pub(crate) fn continued_parts(alloc: Global, first: Tables, table: ContractTable) -> Parts
    ensures { (h : AnyHoldings) → first ≡ h → world_of h result ≡ continued h table.table }
{
    Parts {
        first,
        commands: Vec::new(alloc),
        restarters: Vec::new(alloc),
        engine: Engine::new(),
        messages: Vec::new(alloc),
        trail: Vec::new(alloc),
        table,
    }
}

/// The repository and the other actors, which contracts see as the world. The repository's record of changes is of the
/// commands that were accepted.
#[derive(Drop)]
pub(crate) struct System<J: Journal> {
    pub(crate) alloc: Global,
    pub(crate) repository: Repository<J>,
    pub(crate) parts: Parts,
}

impl<J: Journal> Model for System<J> {
    ghost use Rattle.smf_machine.specs.Parts.{world_of};
    ghost use Rattle.smf_world.specs.World.{World};

    ghost Value = { World };

    ghost view = { λ s. world_of s.repository.held s.parts };

    ghost use Rattle.smf_machine.specs.Parts.{IsLinked, history_of};

    ghost invariant = { λ s. IsLinked s.repository.held s.repository.recent (history_of s.parts) };
}

fn named_in<'a>(restarters: &'a [Restarter], name: &InstanceFmri) -> Option<&'a Restarter>
    ensures { option_copied result ≡ find (is_named_kept name.now) restarters.now }
{
    restarters.iter().find(|r| *r.name() == *name)
}

/// The restarter of a name.
#[tactic(auto, using(crate::proofs::Find::find_named))]
fn restarter_in<'a>(restarters: &'a [Restarter], name: &InstanceFmri) -> Option<&'a Restarter>
    ensures { option_map knowledge (option_copied result) ≡ find (is_named name.now) (map knowledge restarters.now) }
{
    named_in(restarters, name)
}

fn holding_in(restarters: &[Restarter], actor: u64) -> Option<&Restarter>
    ensures { option_copied result ≡ find (is_actor_kept actor) restarters.now }
{
    restarters.iter().find(|r| r.actor() == actor)
}

/// The restarter that holds contracts as this actor.
#[tactic(auto, using(crate::proofs::Find::find_actor))]
fn actor_in(restarters: &[Restarter], actor: u64) -> Option<&Restarter>
    ensures { option_map knowledge (option_copied result) ≡ find (is_actor actor) (map knowledge restarters.now) }
{
    holding_in(restarters, actor)
}

#[tactic(auto, unfolding(crate::specs::Parts::world_of))]
impl<J: Journal> System<J> {
    /// The changes that a command asks for, and its reply.
    pub(crate) fn command_outcome(&self, command: &Command) -> Result<Outcome, AllocError>
        ensures { IfOk result (λ r. r ≡ outcome_of_command self.now.now command.now) }
    {
        self.repository.plain().outcome_of_command(command)
    }

    /// The number of the row of an instance, if it is there.
    pub(crate) fn row_number(&self, number: u64) -> Option<u64>
        ensures { result ≡ option_map (λ i. i.row.number) (instance self.now.now number) }
    {
        self.repository.plain().row_number(number)
    }

    /// The revision of the next command that is accepted.
    pub(crate) fn next_revision(&self) -> u64
        ensures { result ≡ self.now.now.revision + 1 }
    {
        self.repository.plain().revision().get() + 1
    }

    pub(crate) fn launch_of(&self, name: &InstanceFmri) -> u64
        ensures { result ≡ launch_of self.now.now name.now }
    {
        self.repository.plain().launch_of(name)
    }

    pub(crate) fn rows_of(&self, name: &InstanceFmri) -> Result<Items<Instance>, AllocError>
        ensures { IfOk result (λ all. all ≡ rows_of self.now.now name.now) }
    {
        self.repository.plain().rows_of(name)
    }

    pub(crate) fn view(&self) -> Result<View, AllocError>
        ensures { IfOk result (λ v. v ≡ view self.now.now) }
    {
        self.repository.plain().view()
    }

    /// The repository's revision and what changed since another, if that is known.
    pub(crate) fn changes_since(
        &self,
        from: u64,
    ) -> Result<Option<(u64, Items<ChangedItem>)>, AllocError>
        ensures { IfOk result
            (λ c. c ≡ changes_since (recent self.now.history.first self.now.history.past) self.now.now from) }
    {
        self.repository.changes_since(from)
    }

    /// Keeps the view, and brings it up to date.
    pub(crate) fn keep_view(&mut self) -> Result<(), AllocError>
        ensures { self.new ≡ self.old }
    {
        self.repository.keep_view()
    }

    /// True if the graph has not fallen behind what is held.
    pub(crate) fn is_caught_up(&self) -> bool
        ensures { result ≡ true → IsCaughtUp self.now }
    {
        match self.parts.engine.revision() {
            None => true,
            Some(seen) => self.repository.plain().revision().get() <= seen,
        }
    }

    /// The orders of the view that the graph holds.
    pub(crate) fn orders(&self) -> Result<Items<Order>, AllocError>
        ensures { IfOk result (λ all. all ≡ orders_seen self.now.seen) }
    {
        self.parts.engine.decide_all(self.alloc)
    }

    /// The graph's question to the repository.
    pub(crate) fn question(&self) -> Message
        ensures { result ≡ question self.now.seen }
    {
        self.parts.engine.question()
    }

    /// The graph looks at what changed in the view that it holds.
    pub(crate) fn look(&mut self) -> Result<(), AllocError>
        ensures { self.new ≡ self.old }
    {
        self.parts.engine.look(self.alloc)
    }

    /// True if nothing is ordered of what is held. The graph looks at all of it.
    fn shows_no_orders(&mut self) -> Result<bool, AllocError>
        ensures same { self.new ≡ self.old }
        ensures nothing { IfOk result (λ b. b ≡ has_no_orders (view self.old.now)) }
    {
        match self.repository.current_view() {
            Some(shown) => self.parts.engine.orders_nothing(self.alloc, shown),
            None => {
                let view = HeldView::of(self.alloc, self.view()?);
                self.parts.engine.orders_nothing(self.alloc, &view)
            }
        }
    }

    /// True if nothing is ordered of what is held. The graph looks at what changed since the view that it holds.
    pub(crate) fn has_no_orders(&mut self) -> Result<bool, AllocError>
        requires { IsBegun self.old }
        ensures same { self.new ≡ self.old }
        ensures nothing { IfOk result (λ b. b ≡ has_no_orders (view self.old.now)) }
    {
        let Some(from) = self.parts.engine.revision() else {
            return self.shows_no_orders();
        };
        let Some((to, items)) = self.changes_since(from)? else {
            return self.shows_no_orders();
        };
        self.parts
            .engine
            .would_order_nothing(self.alloc, to, items.as_slice())
    }

    /// The launched restarter of a name.
    pub(crate) fn restarter(&self, name: &InstanceFmri) -> Option<&Restarter>
        ensures { option_map knowledge (option_copied result) ≡ restarter self.now name.now }
    {
        restarter_in(&self.parts.restarters, name)
    }

    /// The launched restarter that holds contracts as this actor.
    pub(crate) fn actor(&self, actor: u64) -> Option<&Restarter>
        ensures { option_map knowledge (option_copied result) ≡ find (is_actor actor) self.now.restarters }
    {
        actor_in(&self.parts.restarters, actor)
    }

    /// The message at a place, counted from the oldest.
    pub(crate) fn message_at(&self, place: u64) -> Option<&Message>
        ensures { option_copied result ≡ sent_at self.now place }
    {
        self.parts.messages.get(place as usize)
    }

    pub(crate) fn table(&self) -> &ContractTable
        ensures { result.now.table ≡ self.now.table }
    {
        &self.parts.table
    }

    /// All contracts, in the order of their ids.
    pub(crate) fn statuses(&self) -> Result<Items<Status>, AllocError>
        ensures { IfOk result (λ all. all ≡ statuses self.now.table) }
    {
        self.parts.table.list()
    }
}
