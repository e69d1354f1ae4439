//! The tallies of links, and how the change of one instance changes them.

ghost use Rattle.std.specs.List.{list_all};
ghost use Rattle.std.specs.Prelude.{◌≡◌, ◌<◌, ◌||◌, IfOk, [], length, map, slice_set};
ghost use Rattle.smf_links.specs.Blockage.{off_at, runs_at};
ghost use Rattle.smf_links.specs.Relinks.{IsShaped};
ghost use Rattle.smf_links.specs.Stamps.{has_stamp};
ghost use Rattle.smf_links.specs.Tallies.{entity_of};
ghost use Rattle.smf_links.specs.Wires.{AreEntered, IsTallied, IsTalliedBut, links_at, node_tallies, put_at, put_spot, spots_at, tallies_at, tallies_of, tally_in, tally_of};

use crate::blockage::{all_off, any_runs, runs_at, stamp_at};
use crate::link::{GraphNode, Link};
use crate::tally::{Entity, NodeTallies, Tally};
use crate::wires::{Spot, places_at, spots_of};
use smf_fmri::Items;
use std::alloc::{AllocError, Global};

fn is_stamped(stamps: &[usize], place: usize) -> bool
    ensures { result ≡ has_stamp stamps.now place }
{
    0 < stamp_at(stamps, place)
}

fn runs_or_stamped(nodes: &[GraphNode], stamps: &[usize], place: usize) -> bool
    ensures { result ≡ (runs_at nodes.now place || has_stamp stamps.now place) }
{
    runs_at(nodes, place) || is_stamped(stamps, place)
}

fn all_stamped(stamps: &[usize], places: &[usize]) -> bool
    ensures { result ≡ list_all (has_stamp stamps.now) places.now }
{
    places.iter().all(|place| is_stamped(stamps, *place))
}

fn all_settled(nodes: &[GraphNode], stamps: &[usize], places: &[usize]) -> bool
    ensures { result ≡ list_all (λ p. runs_at nodes.now p || has_stamp stamps.now p) places.now }
{
    places
        .iter()
        .all(|place| runs_or_stamped(nodes, stamps, *place))
}

fn entity_of(nodes: &[GraphNode], stamps: &[usize], places: &[usize]) -> Entity
    ensures { result ≡ entity_of (runs_at nodes.now) (off_at nodes.now) (has_stamp stamps.now) places.now }
{
    Entity {
        runs: any_runs(nodes, places),
        parked: all_stamped(stamps, places),
        off: all_off(nodes, places),
        settled: all_settled(nodes, stamps, places),
    }
}

fn entities_of(
    alloc: Global,
    nodes: &[GraphNode],
    stamps: &[usize],
    cited: &[Items<usize>],
) -> Result<Vec<Entity>, AllocError>
    ensures { IfOk result
        (λ es. es.items ≡ map (entity_of (runs_at nodes.now) (off_at nodes.now) (has_stamp stamps.now)) cited.now) }
{
    let mut entities = Vec::new(alloc);
    for places in cited {
        entities.push(entity_of(nodes, stamps, places.as_slice()))?;
    }
    Ok(entities)
}

fn tally_of(
    alloc: Global,
    nodes: &[GraphNode],
    stamps: &[usize],
    link: &Link,
) -> Result<Tally, AllocError>
    ensures { IfOk result (λ t. t ≡ tally_of (runs_at nodes.now) (off_at nodes.now) (has_stamp stamps.now) link.now) }
{
    let entities = entities_of(alloc, nodes, stamps, link.cited.as_slice())?;
    Ok(Tally::of(entities))
}

/// A tally for each link of an instance.
pub(crate) fn tallies_of(
    alloc: Global,
    nodes: &[GraphNode],
    stamps: &[usize],
    links: &[Link],
) -> Result<NodeTallies, AllocError>
    ensures { IfOk result
        (λ ts. ts ≡ tallies_of (runs_at nodes.now) (off_at nodes.now) (has_stamp stamps.now) links.now) }
{
    let mut tallies = Vec::new(alloc);
    for link in links {
        tallies.push(tally_of(alloc, nodes, stamps, link)?)?;
    }
    Ok(NodeTallies::of(tallies))
}

/// Counts the entities of one link anew, in its tally.
fn recount_link(
    nodes: &[GraphNode],
    stamps: &[usize],
    cited: &[Items<usize>],
    at: usize,
    own: &mut NodeTallies,
)
    requires within { at < length own.old }
    requires size { length (tally_in own.old at) ≡ length cited.now }
    ensures { own.new ≡ slice_set own.old at
        (map (entity_of (runs_at nodes.now) (off_at nodes.now) (has_stamp stamps.now)) cited.now) }
{
    for (number, places) in cited.iter().enumerate() {
        let entity = entity_of(nodes, stamps, places.as_slice());
        own.set(at, number, entity);
    }
}

/// Counts the entities of an instance's links anew, in its tallies.
pub(crate) fn recount(nodes: &[GraphNode], stamps: &[usize], links: &[Link], own: &mut NodeTallies)
    requires { IsShaped own.old links.now }
    ensures { own.new ≡ tallies_of (runs_at nodes.now) (off_at nodes.now) (has_stamp stamps.now) links.now }
{
    for (at, link) in links.iter().enumerate() {
        recount_link(nodes, stamps, link.cited.as_slice(), at, own);
    }
}

fn node_tallies(
    alloc: Global,
    nodes: &[GraphNode],
    stamps: &[usize],
    node: &GraphNode,
) -> Result<NodeTallies, AllocError>
    ensures { IfOk result
        (λ ts. ts ≡ node_tallies (runs_at nodes.now) (off_at nodes.now) (has_stamp stamps.now) node.now) }
{
    let tallies = tallies_of(alloc, nodes, stamps, node.links.as_slice())?;
    Ok(tallies)
}

fn each_tallies(
    alloc: Global,
    nodes: &[GraphNode],
    stamps: &[usize],
) -> Result<Vec<NodeTallies>, AllocError>
    ensures { IfOk result
        (λ tss. tss.items
        ≡ map (node_tallies (runs_at nodes.now) (off_at nodes.now) (has_stamp stamps.now)) nodes.now) }
{
    let mut tallies = Vec::new(alloc);
    for node in nodes {
        tallies.push(node_tallies(alloc, nodes, stamps, node)?)?;
    }
    Ok(tallies)
}

/// A tally for each link of each instance.
pub(crate) fn all_tallies(
    alloc: Global,
    nodes: &[GraphNode],
    stamps: &[usize],
    entries: &[Items<Spot>],
) -> Result<Vec<NodeTallies>, AllocError>
    requires wired { AreEntered (links_at nodes.now) (length nodes.now) entries.now }
    requires size { length stamps.now ≡ length nodes.now }
    ensures { IfOk result (λ tss. IsTallied nodes.now stamps.now entries.now tss.items) }
{
    let tallies = each_tallies(alloc, nodes, stamps)?;
    Ok(tallies)
}

/// The tallies of an instance's links.
pub(crate) fn tallies_at(tallies: &[NodeTallies], place: usize) -> &[Tally]
    ensures { result.now ≡ tallies_at tallies.now place }
{
    match tallies.get(place) {
        Some(own) => own.as_slice(),
        None => &[],
    }
}

fn put(tallies: &mut [NodeTallies], spot: &Spot, is: Entity)
    ensures { tallies.new ≡ put_at tallies.old spot.now is }
{
    if spot.node < tallies.len() {
        tallies[spot.node].set(spot.link, spot.entity, is);
    }
}

fn put_spot(nodes: &[GraphNode], stamps: &[usize], tallies: &mut [NodeTallies], spot: &Spot)
    ensures { tallies.new ≡ put_spot (links_at nodes.now) (runs_at nodes.now) (off_at nodes.now)
        (has_stamp stamps.now) tallies.old spot.now }
{
    if let Some(places) = places_at(nodes, spot) {
        let entity = entity_of(nodes, stamps, places.as_slice());
        put(tallies, spot, entity);
    }
}

/// Makes the tallies right after the instance at one place changed: its flags, or its stamp.
pub(crate) fn retally(
    nodes: &[GraphNode],
    stamps: &[usize],
    entries: &[Items<Spot>],
    tallies: &mut [NodeTallies],
    place: usize,
)
    requires { IsTalliedBut nodes.now stamps.now (spots_at entries.now place) tallies.old }
    ensures { IsTalliedBut nodes.now stamps.now [] tallies.new }
{
    let spots = spots_of(entries, place);
    for spot in spots {
        put_spot(nodes, stamps, tallies, spot);
    }
}

/// Gives a place another stamp.
pub(crate) fn put_stamp(
    nodes: &[GraphNode],
    stamps: &mut [usize],
    entries: &[Items<Spot>],
    tallies: &mut [NodeTallies],
    place: usize,
    stamp: usize,
)
    requires { IsTallied nodes.now stamps.old entries.now tallies.old }
    ensures stamps { stamps.new ≡ slice_set stamps.old place stamp }
    ensures tallied { IsTallied nodes.now stamps.new entries.now tallies.new }
{
    if place < stamps.len() {
        stamps[place] = stamp;
        retally(nodes, stamps, entries, tallies, place);
    }
}
