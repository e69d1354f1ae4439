//! Which instances cite each place.

ghost use Rattle.std.specs.Prelude.{◌≡◌, ◌+◌, ◌≤◌, IfOk, OnErr, OnOk, length, true};
ghost use Rattle.smf_links.specs.Blockage.{IsOut};
ghost use Rattle.smf_links.specs.Stamps.{AreOut, Avoid, IsIndex, KeepsPlaces, Notes, citations, citing_at, with_citation, total};

use crate::link::{GraphNode, Link};
use smf_fmri::Items;
use std::alloc::{AllocError, Global};

pub(crate) fn citing_of(citing: &[Items<usize>], place: usize) -> &[usize]
    ensures { result.now ≡ citing_at citing.now place }
{
    match citing.get(place) {
        Some(places) => places.as_slice(),
        None => &[],
    }
}

fn has_place(places: &[usize], place: usize) -> bool
    ensures { result ≡ true → IsOut place places.now → ⊥ }
{
    for other in places {
        if *other == place {
            return true;
        }
    }
    false
}

fn push_place(citing: &mut Vec<Items<usize>>, at: usize, place: usize) -> Result<(), AllocError>
    ensures ok { OnOk result (citing.new.items ≡ with_citation citing.old.items at place) }
    ensures err { OnErr result (citing.new.items ≡ citing.old.items) }
{
    if place < citing.len() {
        let places = &mut citing[place];
        places.push(at)?;
    }
    Ok(())
}

/// Notes at a place that an instance cites it. If it is to look, it notes none that is there.
fn note(
    citing: &mut Vec<Items<usize>>,
    at: usize,
    looks: bool,
    place: usize,
) -> Result<(), AllocError>
    ensures keeps { KeepsPlaces citing.old.items citing.new.items }
    ensures space { total citing.new.items ≤ total citing.old.items + 1 }
    ensures notes { OnOk result (Notes (λ p. place ≡ p → ⊥) at citing.old.items citing.new.items) }
{
    if looks && has_place(citing_of(citing.as_slice(), place), at) {
        return Ok(());
    }
    push_place(citing, at, place)?;
    Ok(())
}

fn note_places(
    citing: &mut Vec<Items<usize>>,
    at: usize,
    looks: bool,
    places: &[usize],
) -> Result<(), AllocError>
    ensures keeps { KeepsPlaces citing.old.items citing.new.items }
    ensures space { total citing.new.items ≤ total citing.old.items + length places.now }
    ensures notes { OnOk result (Notes (λ p. IsOut p places.now) at citing.old.items citing.new.items) }
{
    for place in places {
        note(citing, at, looks, *place)?;
    }
    Ok(())
}

fn note_cited(
    citing: &mut Vec<Items<usize>>,
    at: usize,
    looks: bool,
    cited: &[Items<usize>],
) -> Result<(), AllocError>
    ensures keeps { KeepsPlaces citing.old.items citing.new.items }
    ensures space { total citing.new.items ≤ total citing.old.items + total cited.now }
    ensures notes { OnOk result (Notes (λ p. AreOut p cited.now) at citing.old.items citing.new.items) }
{
    for places in cited {
        note_places(citing, at, looks, places.as_slice())?;
    }
    Ok(())
}

/// Notes an instance at each place that its links cite. If it is to look, it notes none that is there.
pub(crate) fn note_links(
    citing: &mut Vec<Items<usize>>,
    at: usize,
    looks: bool,
    links: &[Link],
) -> Result<(), AllocError>
    ensures keeps { KeepsPlaces citing.old.items citing.new.items }
    ensures space { total citing.new.items ≤ total citing.old.items + citations links.now }
    ensures notes { OnOk result (Notes (λ p. Avoid p links.now) at citing.old.items citing.new.items) }
{
    for link in links {
        note_cited(citing, at, looks, link.cited.as_slice())?;
    }
    Ok(())
}

fn empty(alloc: Global, count: usize) -> Result<Vec<Items<usize>>, AllocError>
    ensures { IfOk result (λ cs. length cs.items ≡ count) }
{
    let mut citing = Vec::with_capacity(alloc, count)?;
    for _ in 0..count {
        citing.push(Items::new(alloc))?;
    }
    Ok(citing)
}

pub(crate) fn index_of(alloc: Global, nodes: &[GraphNode]) -> Result<Vec<Items<usize>>, AllocError>
    ensures { IfOk result (λ cs. IsIndex nodes.now cs.items) }
{
    let mut citing = empty(alloc, nodes.len())?;
    for (at, node) in nodes.iter().enumerate() {
        note_links(&mut citing, at, false, node.links.as_slice())?;
    }
    Ok(citing)
}

pub(crate) fn total_of(citing: &[Items<usize>]) -> Result<usize, AllocError>
    ensures { IfOk result (λ n. n ≡ total citing.now) }
{
    let mut total: usize = 0;
    for places in citing {
        total = total.checked_add(places.len()).ok_or(AllocError)?;
    }
    Ok(total)
}

/// How many places links cite.
pub(crate) fn citations_of(links: &[Link]) -> Result<usize, AllocError>
    ensures { IfOk result (λ n. n ≡ citations links.now) }
{
    let mut total: usize = 0;
    for link in links {
        let own = total_of(link.cited.as_slice())?;
        total = total.checked_add(own).ok_or(AllocError)?;
    }
    Ok(total)
}
