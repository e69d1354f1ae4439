ghost use Rattle.std.specs.List.{list_all};
ghost use Rattle.std.specs.Option.{option_copied};
ghost use Rattle.std.specs.Prelude.{◌≡◌, ◌<◌, ◌≤◌, ◌+◌, ◌^◌, ◌++◌, IfOk, List, OnErr, OnOk, [], ◌∷◌, length, slice_get, slice_index, slice_set, vec_capacity, ℕ};
ghost use Rattle.smf_links.specs.declared.link.GraphNode.{GraphNode};
ghost use Rattle.smf_links.specs.Blockage.{IsOut, met_at, blocked_by, is_parked, met_by, node_is, off_at, runs_at, with_flags};
ghost use Rattle.smf_links.specs.Relinks.{ArePrepared, AreWithin, IsPrepared, ReachesAll, relinks_of, with_relinks};
ghost use Rattle.smf_links.specs.Stamps.{AreFree, Begins, IsKept, IsLast, IsLoosening, IsTouched, Reaches, Touches, before, citing_at};
ghost use Rattle.smf_links.specs.Wires.{IsTallied};

use crate::arrival::{add_node, prepare_arrival, remove_node};
use crate::blockage::{each_met, is_blocked, is_met, stamp_at};
use crate::index::{citing_of, index_of, total_of};
use crate::link::{Flags, GraphNode, Link, Relink};
use crate::rewire::{PlacedNode, prepare_all, put_placed, room_for};
use crate::stamps::{add, add_one, settle};
use crate::tallies::{all_tallies, put_stamp, retally, tallies_at};
use crate::tally::NodeTallies;
use crate::wires::{Spot, enter_all};
use smf_fmri::Items;
use std::alloc::{AllocError, Global};
use std::marker::Model;

/// Above this number all stamps are given anew.
const LAST: usize = 1 << 62;

/// Instances, and which of them are parked.
#[derive(Drop)]
pub struct KeptVerdicts {
    nodes: Vec<GraphNode>,
    stamps: Vec<usize>,
    citing: Vec<Items<usize>>,
    /// At least as many as the entries of `citing`.
    note_count: usize,
    next: usize,
    work: Vec<usize>,
    /// For each place, its index in the work. This is a hint.
    slots: Vec<usize>,
    /// For each place, the entities that stand for it.
    entries: Vec<Items<Spot>>,
    tallies: Vec<NodeTallies>,
}

impl Model for KeptVerdicts {
    ghost use Rattle.std.specs.Prelude.{List, vec_capacity, ◌≡◌, ◌<◌, ◌≤◌};
    ghost use Rattle.smf_links.specs.declared.link.GraphNode.{GraphNode};
    ghost use Rattle.smf_links.specs.Stamps.{IsKept, total};
    ghost use Rattle.smf_links.specs.Wires.{IsTallied};

    ghost Value = { List GraphNode };

    ghost view = { λ k. k.nodes.items };

    ghost invariant = { λ k. IsKept k.nodes.items k.stamps.items k.citing.items k.next (vec_capacity k.work)
        × (0 < k.next) × IsTallied k.nodes.items k.stamps.items k.entries.items k.tallies.items
        × (total k.citing.items ≤ k.note_count) };
}

fn set_flags(nodes: &mut Vec<GraphNode>, place: usize, flags: Flags)
    ensures { nodes.new.items ≡ with_flags nodes.old.items place flags }
{
    if place < nodes.len() {
        nodes[place].flags = flags;
    }
}

/// Gives an instance other flags.
fn change_flags(
    nodes: &mut Vec<GraphNode>,
    stamps: &[usize],
    entries: &[Items<Spot>],
    tallies: &mut [NodeTallies],
    place: usize,
    flags: Flags,
)
    requires within { place < length nodes.old.items }
    requires tallied { IsTallied nodes.old.items stamps.now entries.now tallies.old }
    ensures nodes { nodes.new.items ≡ with_flags nodes.old.items place flags }
    ensures tallied { IsTallied nodes.new.items stamps.now entries.now tallies.new }
{
    set_flags(nodes, place, flags);
    retally(nodes.as_slice(), stamps, entries, tallies, place);
}

/// Takes all stamps away.
fn clear(
    nodes: &[GraphNode],
    entries: &[Items<Spot>],
    tallies: &mut [NodeTallies],
    stamps: &mut [usize],
)
    requires { IsTallied nodes.now stamps.old entries.now tallies.old }
    ensures size { length stamps.new ≡ length stamps.old }
    ensures none { (a : ℕ) → slice_index stamps.new a ≡ 0 }
    ensures tallied { IsTallied nodes.now stamps.new entries.now tallies.new }
{
    for place in 0..stamps.len() {
        put_stamp(nodes, stamps, entries, tallies, place, 0);
    }
}

/// No stamps.
fn zeros(alloc: Global, count: usize) -> Result<Vec<usize>, AllocError>
    ensures size { IfOk result (λ s. length s.items ≡ count) }
    ensures none { IfOk result (λ s. (a : ℕ) → slice_index s.items a ≡ 0) }
{
    let stamps = vec![in alloc; 0; count]?;
    Ok(stamps)
}

/// Puts each place below the count into an empty list.
fn add_all(work: &mut Vec<usize>, count: usize)
    requires empty { work.old.items ≡ [] }
    requires room { count ≤ vec_capacity work.old }
    ensures each { (a : ℕ) → IsOut a work.new.items → count ≤ a }
    ensures size { length work.new.items ≡ count }
    ensures capacity { vec_capacity work.old ≤ vec_capacity work.new }
{
    for place in 0..count {
        add_one(work, place);
    }
}

/// Puts places after those that are touched. If there is no room for them, it puts all instances.
fn note(touched: &mut Vec<usize>, work: &[usize], count: usize)
    requires { count ≤ vec_capacity touched.old }
    ensures noted { (a : ℕ) → IsOut a touched.new.items → a < count → IsOut a touched.old.items × IsOut a work.now }
    ensures room { vec_capacity touched.old ≤ vec_capacity touched.new }
{
    if touched.len() + work.len() > touched.capacity() {
        touched.clear();
        add_all(touched, count);
        return;
    }
    add(touched, work);
}

/// Puts a place and all that cites it into the work.
fn add_touched(work: &mut Vec<usize>, citing: &[Items<usize>], place: usize)
    requires empty { work.old.items ≡ [] }
    requires room { 1 + length (citing_at citing.now place) ≤ vec_capacity work.old }
    ensures items { work.new.items ≡ place ∷ citing_at citing.now place }
    ensures capacity { vec_capacity work.old ≤ vec_capacity work.new }
{
    add_one(work, place);
    add(work, citing_of(citing, place));
}

/// Puts what may be wrong into the work: what the change of a place touches, or all if the numbers run out. Gives
/// the number from which on stamps are free.
fn begin(
    nodes: &[GraphNode],
    citing: &[Items<usize>],
    entries: &[Items<Spot>],
    tallies: &mut [NodeTallies],
    stamps: &mut [usize],
    work: &mut Vec<usize>,
    next: usize,
    place: usize,
) -> usize
    requires next { 0 < next }
    requires tallied { IsTallied nodes.now stamps.old entries.now tallies.old }
    requires touched { IsTouched nodes.now stamps.old citing.now next (vec_capacity work.old) place }
    ensures begun { IsLoosening nodes.now citing.now result (vec_capacity work.new) stamps.new work.new.items 0 }
    ensures base { (0 < result) × (result ≤ 2 ^ 62) }
    ensures tallied { IsTallied nodes.now stamps.new entries.now tallies.new }
    ensures work { Begins nodes.now citing.now stamps.old stamps.new work.new.items place }
    ensures capacity { vec_capacity work.old ≤ vec_capacity work.new }
{
    work.clear();
    if next > LAST {
        clear(nodes, entries, tallies, stamps);
        add_all(work, nodes.len());
        return 1;
    }
    add_touched(work, citing, place);
    next
}

/// Makes the stamps right after the flags of one place changed. Gives the number from which on stamps are free.
fn settle_touched(
    nodes: &[GraphNode],
    citing: &[Items<usize>],
    entries: &[Items<Spot>],
    tallies: &mut [NodeTallies],
    stamps: &mut [usize],
    work: &mut Vec<usize>,
    slots: &mut [usize],
    next: usize,
    place: usize,
) -> usize
    requires next { 0 < next }
    requires tallied { IsTallied nodes.now stamps.old entries.now tallies.old }
    requires touched { IsTouched nodes.now stamps.old citing.now next (vec_capacity work.old) place }
    ensures kept { IsKept nodes.now stamps.new citing.now result (vec_capacity work.new) }
    ensures next { 0 < result }
    ensures tallied { IsTallied nodes.now stamps.new entries.now tallies.new }
    ensures touches { Touches nodes.now citing.now stamps.old stamps.new work.new.items place }
{
    let base = begin(nodes, citing, entries, tallies, stamps, work, next, place);
    settle(nodes, citing, entries, tallies, stamps, work, slots, base);
    base + work.len()
}

/// Puts a prepared instance at its place, and makes the rest right. Gives the number from which on stamps are free.
fn relink_one(
    nodes: &mut Vec<GraphNode>,
    citing: &[Items<usize>],
    entries: &[Items<Spot>],
    tallies: &mut [NodeTallies],
    stamps: &mut [usize],
    work: &mut Vec<usize>,
    slots: &mut [usize],
    next: usize,
    placed: PlacedNode,
    touched: &mut Vec<usize>,
) -> usize
    requires next { 0 < next }
    requires within { placed.place < length nodes.old.items }
    requires room { length nodes.old.items ≤ vec_capacity touched.old }
    requires kept { IsKept nodes.old.items stamps.old citing.now next (vec_capacity work.old) }
    requires tallied { IsTallied nodes.old.items stamps.old entries.now tallies.old }
    requires prepared { IsPrepared citing.now entries.now placed }
    ensures next { 0 < result }
    ensures nodes { nodes.new.items ≡ slice_set nodes.old.items placed.place placed.node }
    ensures kept { IsKept nodes.new.items stamps.new citing.now result (vec_capacity work.new) }
    ensures tallied { IsTallied nodes.new.items stamps.new entries.now tallies.new }
    ensures reaches { Reaches nodes.old.items nodes.new.items placed.place touched.old.items touched.new.items }
    ensures room { vec_capacity touched.old ≤ vec_capacity touched.new }
{
    let place = placed.place;
    put_placed(nodes, stamps, entries, tallies, placed);
    let free = settle_touched(
        nodes.as_slice(),
        citing,
        entries,
        tallies,
        stamps,
        work,
        slots,
        next,
        place,
    );
    note(touched, work.as_slice(), nodes.len());
    free
}

/// Puts prepared instances at their places, one after another. Gives the number from which on stamps are free.
fn relink_all(
    nodes: &mut Vec<GraphNode>,
    citing: &[Items<usize>],
    entries: &[Items<Spot>],
    tallies: &mut [NodeTallies],
    stamps: &mut [usize],
    work: &mut Vec<usize>,
    slots: &mut [usize],
    next: usize,
    all: Vec<PlacedNode>,
    touched: &mut Vec<usize>,
) -> usize
    requires next { 0 < next }
    requires within { AreWithin (length nodes.old.items) (relinks_of all.items) }
    requires room { length nodes.old.items ≤ vec_capacity touched.old }
    requires kept { IsKept nodes.old.items stamps.old citing.now next (vec_capacity work.old) }
    requires tallied { IsTallied nodes.old.items stamps.old entries.now tallies.old }
    requires prepared { ArePrepared citing.now entries.now all.items }
    ensures next { 0 < result }
    ensures nodes { nodes.new.items ≡ with_relinks nodes.old.items (relinks_of all.items) }
    ensures kept { IsKept nodes.new.items stamps.new citing.now result (vec_capacity work.new) }
    ensures tallied { IsTallied nodes.new.items stamps.new entries.now tallies.new }
    ensures reaches { ReachesAll nodes.old.items nodes.new.items (relinks_of all.items) touched.old.items
        touched.new.items }
    ensures room { vec_capacity touched.old ≤ vec_capacity touched.new }
{
    let mut free = next;
    for placed in all {
        free = relink_one(
            nodes, citing, entries, tallies, stamps, work, slots, free, placed, touched,
        );
    }
    free
}

fn all_met_at(
    nodes: &[GraphNode],
    stamps: &[usize],
    entries: &[Items<Spot>],
    tallies: &[NodeTallies],
    limit: usize,
    place: usize,
) -> bool
    requires tallied { IsTallied nodes.now stamps.now entries.now tallies.now }
    requires low { (a : ℕ) → slice_index stamps.now a < limit }
    ensures { result
        ≡ node_is (λ (n : GraphNode). list_all
        (met_by (runs_at nodes.now) (off_at nodes.now) (before stamps.now limit)) n.links) nodes.now place }
{
    let own = tallies_at(tallies, place);
    match nodes.get(place) {
        Some(node) => each_met(nodes, stamps, limit, own, node.links.as_slice()),
        None => false,
    }
}

impl KeptVerdicts {
    /// Works out which of the instances are parked.
    pub fn of(alloc: Global, nodes: Vec<GraphNode>) -> Result<KeptVerdicts, AllocError>
        ensures { IfOk result (λ k. k ≡ nodes.items) }
    {
        let citing = index_of(alloc, nodes.as_slice())?;
        let total = total_of(citing.as_slice())?;
        let room = room_for(nodes.len(), total)?;
        let mut work = Vec::with_capacity(alloc, room)?;
        let mut stamps = zeros(alloc, nodes.len())?;
        let mut slots = zeros(alloc, nodes.len())?;
        let entries = enter_all(alloc, nodes.as_slice())?;
        let mut tallies = all_tallies(
            alloc,
            nodes.as_slice(),
            stamps.as_slice(),
            entries.as_slice(),
        )?;
        add_all(&mut work, nodes.len());
        settle(
            nodes.as_slice(),
            citing.as_slice(),
            entries.as_slice(),
            tallies.as_mut_slice(),
            stamps.as_mut_slice(),
            &mut work,
            slots.as_mut_slice(),
            1,
        );
        let next = 1 + work.len();
        Ok(KeptVerdicts {
            nodes,
            stamps,
            citing,
            note_count: total,
            next,
            work,
            slots,
            entries,
            tallies,
        })
    }

    /// Gives other flags to the instance at a place. Adds the places of all instances whose finding may have changed to
    /// those that are touched.
    pub fn set(&mut self, place: usize, flags: Flags, touched: &mut Vec<usize>)
        requires within { place < length self.old }
        requires room { length self.old ≤ vec_capacity touched.old }
        ensures set { self.new ≡ with_flags self.old place flags }
        ensures reaches { Reaches self.old self.new place touched.old.items touched.new.items }
        ensures room { vec_capacity touched.old ≤ vec_capacity touched.new }
    {
        change_flags(
            &mut self.nodes,
            self.stamps.as_slice(),
            self.entries.as_slice(),
            self.tallies.as_mut_slice(),
            place,
            flags,
        );
        self.next = settle_touched(
            self.nodes.as_slice(),
            self.citing.as_slice(),
            self.entries.as_slice(),
            self.tallies.as_mut_slice(),
            self.stamps.as_mut_slice(),
            &mut self.work,
            self.slots.as_mut_slice(),
            self.next,
            place,
        );
        note(touched, self.work.as_slice(), self.nodes.len());
    }

    /// Gives other flags and other links to the instances at some places, one after another. Adds the places of all
    /// instances whose finding may have changed to those that are touched. If memory runs out, nothing changes.
    pub fn relink(
        &mut self,
        alloc: Global,
        relinks: Vec<Relink>,
        touched: &mut Vec<usize>,
    ) -> Result<(), AllocError>
        requires within { AreWithin (length self.old) relinks.items }
        requires room { length self.old ≤ vec_capacity touched.old }
        ensures set { OnOk result (self.new ≡ with_relinks self.old relinks.items) }
        ensures reaches { OnOk result
            (ReachesAll self.old self.new relinks.items touched.old.items touched.new.items) }
        ensures room { vec_capacity touched.old ≤ vec_capacity touched.new }
        ensures err { OnErr result (self.new ≡ self.old) }
        ensures untouched { OnErr result (touched.new.items ≡ touched.old.items) }
    {
        let all = prepare_all(
            alloc,
            self.nodes.as_slice(),
            self.stamps.as_slice(),
            &mut self.citing,
            &mut self.entries,
            &mut self.note_count,
            &mut self.work,
            relinks,
        )?;
        self.next = relink_all(
            &mut self.nodes,
            self.citing.as_slice(),
            self.entries.as_slice(),
            self.tallies.as_mut_slice(),
            self.stamps.as_mut_slice(),
            &mut self.work,
            self.slots.as_mut_slice(),
            self.next,
            all,
            touched,
        );
        Ok(())
    }

    /// Puts one more instance after the others. No link may cite its place, its own neither. If memory runs out,
    /// nothing changes.
    pub fn push(&mut self, alloc: Global, node: GraphNode) -> Result<(), AllocError>
        requires free { AreFree self.old node }
        ensures set { OnOk result (self.new ≡ self.old ++ node ∷ []) }
        ensures met { OnOk result ((a : ℕ) → a < length self.old → met_at self.new a ≡ met_at self.old a) }
        ensures err { OnErr result (self.new ≡ self.old) }
    {
        let place = self.nodes.len();
        let own = prepare_arrival(
            alloc,
            &mut self.nodes,
            &mut self.stamps,
            &mut self.citing,
            &mut self.slots,
            &mut self.entries,
            &mut self.tallies,
            &mut self.note_count,
            &mut self.work,
            node.links.as_slice(),
        )?;
        add_node(
            alloc,
            &mut self.nodes,
            &mut self.stamps,
            &mut self.citing,
            &mut self.slots,
            &mut self.entries,
            &mut self.tallies,
            node,
            own,
        );
        self.next = settle_touched(
            self.nodes.as_slice(),
            self.citing.as_slice(),
            self.entries.as_slice(),
            self.tallies.as_mut_slice(),
            self.stamps.as_mut_slice(),
            &mut self.work,
            self.slots.as_mut_slice(),
            self.next,
            place,
        );
        Ok(())
    }

    /// Takes the last instance out again. No link of the others may cite its place.
    pub fn pop(&mut self)
        requires { IsLast self.old }
        ensures { (others : List GraphNode) (last : GraphNode) → self.old ≡ others ++ last ∷ []
            → self.new ≡ others }
    {
        remove_node(
            &mut self.nodes,
            &mut self.stamps,
            &mut self.citing,
            &mut self.slots,
            &mut self.entries,
            &mut self.tallies,
        );
    }

    /// The instances alone.
    pub fn into_nodes(self) -> Vec<GraphNode>
        ensures { result.items ≡ self }
    {
        self.nodes
    }

    /// The instance at a place.
    pub fn node(&self, place: usize) -> Option<&GraphNode>
        ensures { option_copied result ≡ slice_get self.now place }
    {
        self.nodes.as_slice().get(place)
    }

    /// True if a link is blocked.
    pub fn is_blocked(&self, link: &Link) -> bool
        ensures { result ≡ blocked_by (runs_at self.now) (off_at self.now) (is_parked self.now) link.now }
    {
        is_blocked(
            self.nodes.as_slice(),
            self.stamps.as_slice(),
            self.next,
            link,
        )
    }

    /// True if a link is met.
    pub fn is_met(&self, link: &Link) -> bool
        ensures { result ≡ met_by (runs_at self.now) (off_at self.now) (is_parked self.now) link.now }
    {
        is_met(
            self.nodes.as_slice(),
            self.stamps.as_slice(),
            self.next,
            link,
        )
    }

    /// True if each link of an instance is met.
    pub fn all_met(&self, place: usize) -> bool
        ensures { result ≡ met_at self.now place }
    {
        all_met_at(
            self.nodes.as_slice(),
            self.stamps.as_slice(),
            self.entries.as_slice(),
            self.tallies.as_slice(),
            self.next,
            place,
        )
    }
}
