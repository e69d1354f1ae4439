ghost use Rattle.std.specs.List.{position};
ghost use Rattle.std.specs.Option.{option_copied};
ghost use Rattle.std.specs.Prelude.{◌≡◌, IfOk, IfSome, List, OnErr, OnOk, None, option_map, slice_get};
ghost use Rattle.smf_fmri.specs.ByKey.{Rises, has_key};
ghost use Rattle.smf_state.specs.Patched.{by_item, with_items};
ghost use Rattle.smf_state.specs.declared.view.ViewItem.{ViewItem as AnyItem};
ghost use Rattle.smf_dep.specs.Departures.{AreThere, HasTaken, IsRollAfter, IsRolled, IsSame, IsTaken};
ghost use Rattle.smf_dep.specs.Members.{by_member, members};
ghost use Rattle.smf_dep.specs.Places.{finding_of};
ghost use Rattle.smf_dep.specs.Verdicts.{must_stop, verdict};
ghost use Rattle.smf_dep.specs.Updates.{OthersStay, with_members};

use crate::dependency::Dependency;
use crate::member::ReadMember;
use crate::placed::PlacedGraph;
use crate::roll::{Roll, are_there, place_of_number, roll_after, roll_of, shown_members};
use crate::update::{changed_members, numbers_of};
use smf_fmri::Items;
use smf_state::{ChangedItem, ViewItem};
use std::alloc::{AllocError, Global};
use std::marker::Model;

/// How a dependency group stands.
#[derive(Clone, Copy, PartialEq, Eq)]
pub enum Verdict {
    Met,
    Waiting,
    /// Not met, and waiting alone won't change that.
    Blocked,
}

/// How the dependencies of an instance stand.
#[derive(Clone, Copy, PartialEq, Eq)]
pub struct Finding {
    /// Each of its dependency groups can be read.
    pub readable: bool,
    /// Each of them is met.
    pub all_met: bool,
    /// One of them stops it, by what happened since its last start was decided.
    pub must_stop: bool,
    /// It depends on itself.
    pub on_cycle: bool,
}

/// Instances and what is found of each. One that goes keeps its place for a while, and nothing hangs on it.
pub struct Graph {
    placed: PlacedGraph,
    roll: Roll,
}

/// Crates above call this, and do not prove again how each part is dropped.
impl Drop for Graph {
    fn drop(self) {
        let Graph {
            placed: _placed,
            roll: _roll,
        } = self;
    }
}

impl Model for Graph {
    ghost use Rattle.smf_dep.specs.Departures.{IsRolled, shown};
    ghost use Rattle.smf_dep.specs.declared.member.GraphMember.{GraphMember};
    ghost use Rattle.std.specs.Prelude.{List};

    ghost Value = { List GraphMember };

    ghost view = { λ g. shown g.roll.gone g.placed };

    ghost invariant = { λ g. IsRolled g.placed g.roll.numbers g.roll.gone };
}

/// Takes changes by which no instance comes or goes, at the places of the instances.
fn take_there(
    alloc: Global,
    placed: &mut PlacedGraph,
    roll: &Roll,
    changes: &[ChangedItem],
) -> Result<Option<Items<u64>>, AllocError>
    requires { AreThere changes.now roll.now.numbers roll.now.gone }
    ensures taken { IfOk result (λ o. IfSome o (λ touched. IsTaken changes.now placed.old placed.new touched)) }
    ensures none { IfOk result (λ o. o ≡ None → placed.new ≡ placed.old) }
    ensures err { OnErr result (placed.new ≡ placed.old) }
{
    if let Some(touched) = placed.take_states(alloc, changes)? {
        return Ok(Some(touched));
    }
    placed.take_changes(alloc, changes)
}

/// Takes changes by which instances come or go, with the numbers after them.
fn take_others(
    alloc: Global,
    placed: &mut PlacedGraph,
    roll: &mut Roll,
    changes: &[ChangedItem],
    after: Roll,
) -> Result<Option<Items<u64>>, AllocError>
    requires rolled { IsRolled placed.old roll.old.numbers roll.old.gone }
    requires after { IsRollAfter changes.now roll.old.numbers roll.old.gone after.numbers after.gone }
    ensures taken { IfOk result (λ o. IfSome o (λ touched.
        HasTaken changes.now placed.old roll.old.gone placed.new roll.new.numbers roll.new.gone touched)) }
    ensures none { IfOk result (λ o. o ≡ None → IsSame placed.old roll.old placed.new roll.new) }
    ensures err { OnErr result (IsSame placed.old roll.old placed.new roll.new) }
{
    match placed.take_changes(alloc, changes)? {
        None => Ok(None),
        Some(touched) => {
            *roll = after;
            Ok(Some(touched))
        }
    }
}

/// Takes changes at the places of the instances, if that can be done.
fn take_in_place(
    alloc: Global,
    placed: &mut PlacedGraph,
    roll: &mut Roll,
    changes: &[ChangedItem],
) -> Result<Option<Items<u64>>, AllocError>
    requires { IsRolled placed.old roll.old.numbers roll.old.gone }
    ensures taken { IfOk result (λ o. IfSome o (λ touched.
        HasTaken changes.now placed.old roll.old.gone placed.new roll.new.numbers roll.new.gone touched)) }
    ensures none { IfOk result (λ o. o ≡ None → IsSame placed.old roll.old placed.new roll.new) }
    ensures err { OnErr result (IsSame placed.old roll.old placed.new roll.new) }
{
    if are_there(roll, changes) {
        return take_there(alloc, placed, roll, changes);
    }
    match roll_after(alloc, roll, changes)? {
        None => Ok(None),
        Some(after) => take_others(alloc, placed, roll, changes, after),
    }
}

impl Graph {
    /// The graph of the items of a view.
    pub fn of(alloc: Global, items: &[ViewItem]) -> Result<Graph, AllocError>
        requires { Rises by_item items.now }
        ensures { IfOk result (λ g. g ≡ members items.now) }
    {
        let placed = PlacedGraph::of(alloc, items)?;
        Graph::of_placed(alloc, placed)
    }

    /// The graph of the items of another view. It does not read again what this one read. If no instance went, it does
    /// not look for again what this one found either.
    pub fn successor(self, alloc: Global, items: &[ViewItem]) -> Result<Graph, AllocError>
        requires { Rises by_item items.now }
        ensures { IfOk result (λ g. g ≡ members items.now) }
    {
        let Graph { placed, roll } = self;
        let placed = placed.successor(alloc, items, &roll.gone)?;
        Graph::of_placed(alloc, placed)
    }

    /// The graph of instances of which none went.
    fn of_placed(alloc: Global, placed: PlacedGraph) -> Result<Graph, AllocError>
        ensures { IfOk result (λ g. g ≡ placed) }
    {
        let roll = roll_of(alloc, placed.members())?;
        Ok(Graph { placed, roll })
    }

    /// Brings the graph up to date by items that changed. Gives the numbers of all instances that may have changed, or
    /// whose finding may have, in no order; one may come twice. If memory runs out, the graph is as it was.
    pub fn update(
        &mut self,
        alloc: Global,
        changes: &[ChangedItem],
    ) -> Result<Items<u64>, AllocError>
        ensures shown { OnOk result ((items : List AnyItem) → self.old ≡ members items
            → self.new ≡ members (with_items changes.now items)) }
        ensures others { IfOk result (λ touched. OthersStay self.old self.new touched) }
        ensures err { OnErr result (self.new ≡ self.old) }
    {
        match take_in_place(alloc, &mut self.placed, &mut self.roll, changes)? {
            Some(touched) => Ok(touched),
            None => self.update_all(alloc, changes),
        }
    }

    /// Takes changes by which many instances come or go, or depend on other things. It does not read again what did not
    /// change.
    fn update_all(
        &mut self,
        alloc: Global,
        changes: &[ChangedItem],
    ) -> Result<Items<u64>, AllocError>
        ensures with { OnOk result (self.new ≡ with_members changes.now self.old) }
        ensures others { IfOk result (λ touched. OthersStay self.old self.new touched) }
        ensures err { OnErr result (self.new ≡ self.old) }
    {
        let there = shown_members(alloc, self.placed.members(), &self.roll.gone)?;
        let numbers = self.roll.numbers.as_slice();
        let members = changed_members(alloc, there, changes)?;
        let touched = numbers_of(alloc, numbers, members.as_slice())?;
        let placed = PlacedGraph::of_members(alloc, members)?;
        *self = Graph::of_placed(alloc, placed)?;
        Ok(touched)
    }

    /// The place of the instance that has the number.
    pub fn place_of(&self, instance: u64) -> Option<usize>
        ensures { result ≡ position (has_key by_member instance) self.now }
    {
        place_of_number(&self.roll.numbers, instance)
    }

    /// The instance at a place in the order of the items.
    pub fn member(&self, place: usize) -> Option<&ReadMember>
        ensures { option_copied result ≡ slice_get self.now place }
    {
        match self.roll.numbers.as_slice().get(place) {
            None => None,
            Some(number) => self.placed.member(*number),
        }
    }

    /// The finding of the instance at a place.
    pub fn finding(&self, place: usize) -> Option<Finding>
        ensures { result ≡ option_map (finding_of self.now) (slice_get self.now place) }
    {
        match self.roll.numbers.as_slice().get(place) {
            None => None,
            Some(number) => self.placed.finding(*number),
        }
    }

    /// How a dependency group stands.
    pub fn verdict(&self, alloc: Global, dependency: &Dependency) -> Result<Verdict, AllocError>
        ensures { IfOk result (λ v. v ≡ verdict self.now dependency.now) }
    {
        self.placed.verdict(alloc, dependency)
    }

    /// True if a dependency stops an instance whose last start was decided on the base revision.
    pub fn must_stop(
        &self,
        alloc: Global,
        dependency: &Dependency,
        base: u64,
    ) -> Result<bool, AllocError>
        ensures { IfOk result (λ b. b ≡ must_stop self.now dependency.now base) }
    {
        self.placed.must_stop(alloc, dependency, base)
    }
}
