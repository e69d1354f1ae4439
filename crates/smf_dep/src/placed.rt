ghost use Rattle.std.specs.List.{AllZip, list_any};
ghost use Rattle.std.specs.Option.{option_copied};
ghost use Rattle.std.specs.Prelude.{◌≡◌, ◌++◌, IfOk, IfSome, OnErr, OnOk, None, ℕ, option_map, slice_get};
ghost use Rattle.smf_fmri.specs.ByKey.{Rises, lookup, put_all};
ghost use Rattle.smf_state.specs.Patched.{by_item};
ghost use Rattle.smf_links.specs.Blockage.{IsOut};
ghost use Rattle.smf_dep.specs.Departures.{IsTaken};
ghost use Rattle.smf_dep.specs.Index.{IsIndex, naming_from};
ghost use Rattle.smf_dep.specs.Members.{IsOfItem, by_member, members};
ghost use Rattle.smf_dep.specs.Places.{AreCyclesOf, edges_of, event_at, finding_at, finding_of, flag_at, link_stops, node_stops, nodes_of};
ghost use Rattle.smf_dep.specs.Verdicts.{must_stop, stops_by, verdict, verdict_by};
ghost use Rattle.smf_dep.specs.Updates.{AllFit, AreReady, OthersStay, with_members, with_placed};

use crate::arrival::{join_all, leave_all};
use crate::change::{MemberChanges, changes_in};
use crate::cycle::{Cycles, cycles_of, flag_at};
use crate::dependency::Dependency;
use crate::graph::{Finding, Verdict};
use crate::index::{GraphIndex, index_with};
use crate::link::{link_of, nodes_of};
use crate::member::{
    GraphMember, ReadMember, Standing, members_again, renewed_members, standing_of,
};
use crate::names::{NameIndex, Names};
use crate::relink::{link_all, set_members};
use crate::roll::has_number;
use crate::update::{put_touched, search, successors, take_members};
use smf_fmri::{Items, Ordered};
use smf_links::{GraphNode, Grouping, KeptVerdicts, Link, RestartOn};
use smf_state::{ChangedItem, ViewItem};
use std::alloc::{AllocError, Global};
use std::marker::Model;

/// Instances at places, and what is found of each.
#[derive(Drop)]
pub(crate) struct PlacedGraph {
    members: Vec<ReadMember>,
    kept: KeptVerdicts,
    cycles: Cycles,
    /// It is made when an instance comes, goes or depends on other things.
    index: Option<GraphIndex>,
}

impl Model for PlacedGraph {
    ghost use Rattle.smf_dep.specs.Index.{IsKeptIndex};
    ghost use Rattle.smf_dep.specs.Places.{IsGraph};
    ghost use Rattle.smf_dep.specs.declared.member.GraphMember.{GraphMember};
    ghost use Rattle.std.specs.Prelude.{List};

    ghost Value = { List GraphMember };

    ghost view = { λ g. g.members.items };

    ghost invariant = { λ g. IsGraph g.members.items g.kept g.cycles.edges.items g.cycles.flags.items
        × IsKeptIndex g.index g.members.items };
}

/// True if the events of a cited instance after a revision stop the one that cites it.
fn is_event(member: &GraphMember, link: &Link, base: u64) -> bool
    ensures { result ≡ stops_by link.now.grouping link.now.restart_on base member.now }
{
    if link.grouping == Grouping::ExcludeAll {
        return link.restart_on != RestartOn::Nothing && member.start > base;
    }
    match link.restart_on {
        RestartOn::Nothing => false,
        RestartOn::Error => member.err > base,
        RestartOn::Restart => member.err > base || member.stop > base,
        RestartOn::Refresh => member.err > base || member.stop > base || member.refresh > base,
    }
}

fn event_at(members: &[ReadMember], link: &Link, base: u64, place: usize) -> bool
    ensures { result ≡ event_at (stops_by link.now.grouping link.now.restart_on base) members.now place }
{
    match members.get(place) {
        Some(member) => is_event(member.member(), link, base),
        None => false,
    }
}

fn any_event(members: &[ReadMember], link: &Link, base: u64, places: &[usize]) -> bool
    ensures { result ≡ list_any (event_at (stops_by link.now.grouping link.now.restart_on base) members.now)
        places.now }
{
    places
        .iter()
        .any(|place| event_at(members, link, base, *place))
}

fn link_stops(members: &[ReadMember], link: &Link, base: u64) -> bool
    ensures { result ≡ link_stops members.now base link.now }
{
    link.cited
        .as_slice()
        .iter()
        .any(|places| any_event(members, link, base, places.as_slice()))
}

fn any_stops(members: &[ReadMember], links: &[Link], base: u64) -> bool
    ensures { result ≡ list_any (link_stops members.now base) links.now }
{
    links.iter().any(|link| link_stops(members, link, base))
}

fn node_stops(members: &[ReadMember], node: Option<&GraphNode>, base: u64) -> bool
    ensures { result ≡ node_stops members.now base (option_copied node.entry) }
{
    match node {
        Some(node) => any_stops(members, node.links.as_slice(), base),
        None => false,
    }
}

fn finding_at(
    members: &[ReadMember],
    kept: &KeptVerdicts,
    cycles: &[bool],
    member: &GraphMember,
    place: usize,
) -> Finding
    ensures { result ≡ finding_at members.now kept.now cycles.now member.now place }
{
    Finding {
        readable: member.dependencies.is_some(),
        all_met: member.dependencies.is_some() && kept.all_met(place),
        must_stop: node_stops(members, kept.node(place), member.base),
        on_cycle: flag_at(cycles, place),
    }
}

fn verdict_by(met: bool, blocked: bool) -> Verdict
    ensures { result ≡ verdict_by met blocked }
{
    if met {
        Verdict::Met
    } else if blocked {
        Verdict::Blocked
    } else {
        Verdict::Waiting
    }
}

/// The members that are there. They are taken again, if they were read from the same.
fn left_of(members: Vec<ReadMember>, gone: &Ordered<u64>) -> Items<ReadMember> {
    let mut members = members;
    if !gone.is_empty() {
        members.retain(|member| !has_number(gone, member.member().instance));
    }
    Items::from_vec(members)
}

impl PlacedGraph {
    /// The graph of the items of a view.
    pub(crate) fn of(alloc: Global, items: &[ViewItem]) -> Result<PlacedGraph, AllocError>
        requires { Rises by_item items.now }
        ensures { IfOk result (λ g. g ≡ members items.now) }
    {
        let all = renewed_members(alloc, Items::new(alloc), items)?;
        PlacedGraph::of_members(alloc, all.into_vec())
    }

    /// The graph of the items of another view. It does not read again what this one read.
    pub(crate) fn successor(
        self,
        alloc: Global,
        items: &[ViewItem],
        gone: &Ordered<u64>,
    ) -> Result<PlacedGraph, AllocError>
        requires { Rises by_item items.now }
        ensures { IfOk result (λ g. g ≡ members items.now) }
    {
        match standing_of(self.members.as_slice(), items) {
            Standing::Same => Ok(self),
            Standing::Alike => self.again(alloc, items),
            Standing::Other => {
                let kept = left_of(self.members, gone);
                let all = renewed_members(alloc, kept, items)?;
                PlacedGraph::of_members(alloc, all.into_vec())
            }
        }
    }

    /// The graph of the same instances in another view, whose dependencies are what they were.
    fn again(self, alloc: Global, items: &[ViewItem]) -> Result<PlacedGraph, AllocError>
        requires alike { AllZip IsOfItem items.now self }
        requires rises { Rises by_item items.now }
        ensures { IfOk result (λ g. g ≡ members items.now) }
    {
        let PlacedGraph {
            members,
            kept,
            cycles,
            ..
        } = self;
        let all = members_again(alloc, Items::from_vec(members), items)?;
        let nodes = nodes_of(alloc, all.as_slice(), Items::from_vec(kept.into_nodes()))?;
        PlacedGraph::of_nodes(alloc, all.into_vec(), nodes, cycles)
    }

    /// The graph of instances whose dependencies have to be looked for.
    pub(crate) fn of_members(
        alloc: Global,
        members: Vec<ReadMember>,
    ) -> Result<PlacedGraph, AllocError>
        requires { Rises by_member members.items }
        ensures { IfOk result (λ g. g ≡ members.items) }
    {
        let nodes = nodes_of(alloc, members.as_slice(), Items::new(alloc))?;
        let cycles = cycles_of(alloc, nodes.as_slice())?;
        PlacedGraph::of_nodes(alloc, members, nodes, cycles)
    }

    /// The graph of instances whose dependencies by places are known, and which of them depend on themselves.
    fn of_nodes(
        alloc: Global,
        members: Vec<ReadMember>,
        nodes: Items<GraphNode>,
        cycles: Cycles,
    ) -> Result<PlacedGraph, AllocError>
        requires nodes { nodes ≡ nodes_of members.items }
        requires edges { cycles.edges.items ≡ edges_of nodes }
        requires cycles { AreCyclesOf cycles.edges.items cycles.flags.items }
        requires rises { Rises by_member members.items }
        ensures { IfOk result (λ g. g ≡ members.items) }
    {
        let kept = KeptVerdicts::of(alloc, nodes.into_vec())?;
        Ok(PlacedGraph {
            members,
            kept,
            cycles,
            index: None,
        })
    }

    /// Takes changes by which no instance comes, goes or depends on other things. Gives the numbers of all instances
    /// that may have changed, or whose finding may have. None if one is another change.
    pub(crate) fn take_states(
        &mut self,
        alloc: Global,
        changes: &[ChangedItem],
    ) -> Result<Option<Items<u64>>, AllocError>
        ensures with { IfOk result (λ o. IfSome o (λ touched. self.new ≡ with_members changes.now self.old)) }
        ensures others { IfOk result (λ o. IfSome o (λ touched. OthersStay self.old self.new touched)) }
        ensures none { IfOk result (λ o. o ≡ None → self.new ≡ self.old) }
        ensures err { OnErr result (self.new ≡ self.old) }
    {
        let Some(successors) = successors(alloc, self.members.as_slice(), changes)? else {
            return Ok(None);
        };
        let touched = self.put_successors(alloc, successors)?;
        Ok(Some(touched))
    }

    /// Puts members in the places of those with their numbers. All that may fail goes first.
    fn put_successors(
        &mut self,
        alloc: Global,
        successors: Vec<ReadMember>,
    ) -> Result<Items<u64>, AllocError>
        requires { AllFit successors.items self.old }
        ensures with { OnOk result (self.new ≡ put_all by_member successors.items self.old) }
        ensures others { IfOk result (λ touched. OthersStay self.old self.new touched) }
        ensures err { OnErr result (self.new ≡ self.old) }
    {
        let mut touched = Vec::with_capacity(alloc, self.members.len())?;
        let mut numbers = Vec::with_capacity(alloc, self.members.len())?;
        take_members(&mut self.members, &mut self.kept, successors, &mut touched);
        put_touched(&mut numbers, self.members.as_slice(), touched.as_slice());
        Ok(Items::from_vec(numbers))
    }

    /// Takes changes by which few instances come or depend on other things, the same way. One that goes stays at its
    /// place as one that went. None if they can't be taken so.
    pub(crate) fn take_changes(
        &mut self,
        alloc: Global,
        changes: &[ChangedItem],
    ) -> Result<Option<Items<u64>>, AllocError>
        ensures taken { IfOk result (λ o. IfSome o (λ touched. IsTaken changes.now self.old self.new touched)) }
        ensures none { IfOk result (λ o. o ≡ None → self.new ≡ self.old) }
        ensures err { OnErr result (self.new ≡ self.old) }
    {
        let Some(all) = changes_in(alloc, self.members.as_slice(), changes)? else {
            return Ok(None);
        };
        if all.are_many(self.members.as_slice(), 0) {
            return Ok(None);
        }
        let index = self.take_index(alloc)?;
        let naming = index.naming(alloc, self.members.as_slice(), all.arrivals.as_slice())?;
        if all.are_many(self.members.as_slice(), naming.len()) {
            self.index = Some(index);
            return Ok(None);
        }
        let touched = self.change(alloc, all, index, naming)?;
        Ok(Some(touched))
    }

    /// The index, which the graph does not keep then. It is made if it was not kept.
    fn take_index(&mut self, alloc: Global) -> Result<GraphIndex, AllocError>
        ensures index { IfOk result (λ i. IsIndex i self.new) }
        ensures same { self.new ≡ self.old }
    {
        match self.index.take() {
            Some(index) => Ok(index),
            None => GraphIndex::of(alloc, self.members.as_slice()),
        }
    }

    /// Puts instances after the others, and members that depend on other things in the places of others. If memory runs
    /// out, those that came are taken out again.
    fn change(
        &mut self,
        alloc: Global,
        changes: MemberChanges,
        index: GraphIndex,
        naming: Ordered<u64>,
    ) -> Result<Items<u64>, AllocError>
        requires ready { AreReady changes.placed.items changes.arrivals.items self.old }
        requires index { IsIndex index self.old }
        requires naming { naming ≡ naming_from changes.arrivals.items 0 self.old }
        ensures with { OnOk result (self.new ≡ with_placed changes.placed.items self.old ++ changes.arrivals.items) }
        ensures others { IfOk result (λ touched. OthersStay self.old self.new touched) }
        ensures left { IfOk result (λ touched. (n : ℕ) → IsOut n touched → IsOut n changes.leavers.items) }
        ensures err { OnErr result (self.new ≡ self.old) }
    {
        let MemberChanges {
            placed,
            arrivals,
            leavers,
        } = changes;
        let mut index = index;
        let count = self.members.len();
        let room = count.checked_add(arrivals.len()).ok_or(AllocError)?;
        let mut touched = Vec::with_capacity(alloc, room)?;
        let mut numbers = leavers;
        numbers.reserve(room)?;
        index.join(alloc, count, arrivals.as_slice())?;
        join_all(
            alloc,
            &mut self.members,
            &mut self.kept,
            &mut self.cycles,
            arrivals,
        )?;
        match link_all(
            alloc,
            index.names(),
            self.members.as_slice(),
            naming.as_slice(),
            count,
            placed.as_slice(),
            &mut self.kept,
            &mut self.cycles,
            &mut touched,
        ) {
            Ok(()) => {
                self.index = index_with(alloc, index, placed.as_slice());
                set_members(&mut self.members, placed);
                put_touched(&mut numbers, self.members.as_slice(), touched.as_slice());
                Ok(Items::from_vec(numbers))
            }
            Err(fault) => {
                leave_all(&mut self.members, &mut self.kept, &mut self.cycles, count);
                Err(fault)
            }
        }
    }

    /// All instances, and those that went.
    pub(crate) fn members(&self) -> &[ReadMember]
        ensures all { result.now ≡ self.now }
        ensures rises { Rises by_member self.now }
    {
        self.members.as_slice()
    }

    /// The instance that has the number.
    pub(crate) fn member(&self, instance: u64) -> Option<&ReadMember>
        ensures { option_copied result ≡ lookup by_member self.now instance }
    {
        match search(self.members.as_slice(), instance) {
            Err(_) => None,
            Ok(place) => self.member_at(place),
        }
    }

    fn member_at(&self, place: usize) -> Option<&ReadMember>
        ensures { option_copied result ≡ slice_get self.now place }
    {
        self.members.as_slice().get(place)
    }

    /// The finding of the instance that has the number.
    pub(crate) fn finding(&self, instance: u64) -> Option<Finding>
        ensures { result ≡ option_map (finding_of self.now) (lookup by_member self.now instance) }
    {
        match search(self.members.as_slice(), instance) {
            Err(_) => None,
            Ok(place) => self.finding_at(place),
        }
    }

    /// The finding of the instance at a place.
    fn finding_at(&self, place: usize) -> Option<Finding>
        ensures { result ≡ option_map (finding_of self.now) (slice_get self.now place) }
    {
        match self.members.as_slice().get(place) {
            None => None,
            Some(member) => Some(finding_at(
                self.members.as_slice(),
                &self.kept,
                self.cycles.flags.as_slice(),
                member.member(),
                place,
            )),
        }
    }

    /// How a dependency group stands.
    pub(crate) fn verdict(
        &self,
        alloc: Global,
        dependency: &Dependency,
    ) -> Result<Verdict, AllocError>
        ensures { IfOk result (λ v. v ≡ verdict self.now dependency.now) }
    {
        let index = NameIndex::of(alloc, self.members.as_slice())?;
        let names = Names::by(self.members.as_slice(), &index);
        let link = link_of(alloc, &names, dependency)?;
        let met = self.kept.is_met(&link);
        let blocked = self.kept.is_blocked(&link);
        Ok(verdict_by(met, blocked))
    }

    /// True if a dependency stops an instance whose last start was decided on the base revision.
    pub(crate) fn must_stop(
        &self,
        alloc: Global,
        dependency: &Dependency,
        base: u64,
    ) -> Result<bool, AllocError>
        ensures { IfOk result (λ b. b ≡ must_stop self.now dependency.now base) }
    {
        let index = NameIndex::of(alloc, self.members.as_slice())?;
        let names = Names::by(self.members.as_slice(), &index);
        let link = link_of(alloc, &names, dependency)?;
        Ok(link_stops(self.members.as_slice(), &link, base))
    }
}
