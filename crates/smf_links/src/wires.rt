//! Which entities of links stand for each place.

ghost use Rattle.std.specs.Option.{option_copied};
ghost use Rattle.std.specs.Prelude.{◌≡◌, IfOk, OnErr, OnOk, length, true};
ghost use Rattle.smf_links.specs.Wires.{AreEntered, EntersCited, EntersLinks, EntersPlaces, HasSpot, IsAbsent, KeepsSpots, cited_in, links_at, places_at, spots_at, with_spot};

use crate::link::{GraphNode, Link};
use smf_fmri::Items;
use std::alloc::{AllocError, Global};

/// An entity of a link of an instance.
#[derive(Clone, Copy)]
pub struct Spot {
    pub node: usize,
    pub link: usize,
    pub entity: usize,
}

pub(crate) fn links_of(nodes: &[GraphNode], node: usize) -> &[Link]
    ensures { result.now ≡ links_at nodes.now node }
{
    match nodes.get(node) {
        Some(node) => node.links.as_slice(),
        None => &[],
    }
}

fn cited_in(links: &[Link], link: usize) -> &[Items<usize>]
    ensures { result.now ≡ cited_in links.now link }
{
    match links.get(link) {
        Some(link) => link.cited.as_slice(),
        None => &[],
    }
}

/// The places that an entity stands for.
pub(crate) fn places_at<'a>(nodes: &'a [GraphNode], spot: &Spot) -> Option<&'a Items<usize>>
    ensures { option_copied result ≡ places_at (links_at nodes.now) spot.now }
{
    let links = links_of(nodes, spot.node);
    cited_in(links, spot.link).get(spot.entity)
}

/// The entities that stand for a place.
pub(crate) fn spots_of(entries: &[Items<Spot>], place: usize) -> &[Spot]
    ensures { result.now ≡ spots_at entries.now place }
{
    match entries.get(place) {
        Some(spots) => spots.as_slice(),
        None => &[],
    }
}

fn is_same(one: &Spot, other: &Spot) -> bool
    ensures { result ≡ true → one.now ≡ other.now }
{
    one.node == other.node && one.link == other.link && one.entity == other.entity
}

fn has_spot(spots: &[Spot], spot: &Spot) -> bool
    ensures { result ≡ true → IsAbsent spot.now spots.now → ⊥ }
{
    for other in spots {
        if is_same(other, spot) {
            return true;
        }
    }
    false
}

fn push_spot(entries: &mut Vec<Items<Spot>>, spot: &Spot, place: usize) -> Result<(), AllocError>
    ensures ok { OnOk result (entries.new.items ≡ with_spot entries.old.items spot.now place) }
    ensures err { OnErr result (entries.new.items ≡ entries.old.items) }
{
    if place < entries.len() {
        let spots = &mut entries[place];
        spots.push(*spot)?;
    }
    Ok(())
}

/// Enters an entity at a place. If it is to look, it enters none that is there.
fn enter(
    entries: &mut Vec<Items<Spot>>,
    spot: &Spot,
    looks: bool,
    place: usize,
) -> Result<(), AllocError>
    ensures keeps { KeepsSpots entries.old.items entries.new.items }
    ensures enters { OnOk result (HasSpot entries.new.items spot.now place) }
{
    if looks && has_spot(spots_of(entries.as_slice(), place), spot) {
        return Ok(());
    }
    push_spot(entries, spot, place)?;
    Ok(())
}

fn enter_places(
    entries: &mut Vec<Items<Spot>>,
    spot: &Spot,
    looks: bool,
    places: &[usize],
) -> Result<(), AllocError>
    ensures keeps { KeepsSpots entries.old.items entries.new.items }
    ensures enters { OnOk result (EntersPlaces entries.new.items spot.now places.now) }
{
    for place in places {
        enter(entries, spot, looks, *place)?;
    }
    Ok(())
}

fn enter_cited(
    entries: &mut Vec<Items<Spot>>,
    node: usize,
    link: usize,
    looks: bool,
    cited: &[Items<usize>],
) -> Result<(), AllocError>
    ensures keeps { KeepsSpots entries.old.items entries.new.items }
    ensures enters { OnOk result (EntersCited entries.new.items node link cited.now) }
{
    for (entity, places) in cited.iter().enumerate() {
        let spot = Spot { node, link, entity };
        enter_places(entries, &spot, looks, places.as_slice())?;
    }
    Ok(())
}

/// Enters the entities of the links of an instance. If it is to look, it enters none that is there.
pub(crate) fn enter_links(
    entries: &mut Vec<Items<Spot>>,
    node: usize,
    looks: bool,
    links: &[Link],
) -> Result<(), AllocError>
    ensures keeps { KeepsSpots entries.old.items entries.new.items }
    ensures enters { OnOk result (EntersLinks entries.new.items node links.now) }
{
    for (at, link) in links.iter().enumerate() {
        enter_cited(entries, node, at, looks, link.cited.as_slice())?;
    }
    Ok(())
}

fn no_spots(alloc: Global, count: usize) -> Result<Vec<Items<Spot>>, AllocError>
    ensures { IfOk result (λ ws. length ws.items ≡ count) }
{
    let mut entries = Vec::with_capacity(alloc, count)?;
    for _ in 0..count {
        entries.push(Items::new(alloc))?;
    }
    Ok(entries)
}

/// For each place the entities that stand for it.
pub(crate) fn enter_all(alloc: Global, nodes: &[GraphNode]) -> Result<Vec<Items<Spot>>, AllocError>
    ensures { IfOk result (λ ws. AreEntered (links_at nodes.now) (length nodes.now) ws.items) }
{
    let mut entries = no_spots(alloc, nodes.len())?;
    for (at, node) in nodes.iter().enumerate() {
        enter_links(&mut entries, at, false, node.links.as_slice())?;
    }
    Ok(entries)
}
