//! Finds if one place is on a cycle, by a search for all places that can be reached from it.

ghost use Rattle.std.specs.Prelude.{◌∷◌, ◌↔◌, [], IfOk, IsTrue, OnOk};
ghost use Rattle.smf_cycles.specs.Paths.{IsOnCycle};
ghost use Rattle.smf_cycles.specs.Searches.{IsGrown, IsSearch};
ghost use Rattle.smf_cycles.specs.Turns.{with_edges};

use crate::change::{PlacedEdges, edges_after};
use crate::graph::is_flagged;
use crate::places::Places;
use std::alloc::{AllocError, Global};

/// Marks a place that was not seen yet, and puts it to the work.
fn note(seen: &mut Vec<bool>, work: &mut Vec<usize>, place: usize) -> Result<(), AllocError>
    ensures { OnOk result (IsGrown (place ∷ []) seen.old.items work.old.items seen.new.items work.new.items) }
{
    if place >= seen.len() {
        return Ok(());
    }
    if is_flagged(seen.as_slice(), place) {
        return Ok(());
    }
    work.push(place)?;
    seen[place] = true;
    Ok(())
}

fn note_all(seen: &mut Vec<bool>, work: &mut Vec<usize>, places: &[usize]) -> Result<(), AllocError>
    ensures { OnOk result (IsGrown places.now seen.old.items work.old.items seen.new.items work.new.items) }
{
    for place in places {
        note(seen, work, *place)?;
    }
    Ok(())
}

/// Flags of the places that can be reached from a place by one edge or more.
fn reached_from(
    alloc: Global,
    edges: &[Places],
    turns: &[PlacedEdges],
    from: usize,
) -> Result<Vec<bool>, AllocError>
    ensures { IfOk result (λ seen. IsSearch (with_edges edges.now turns.now) from seen.items []) }
{
    let mut seen = vec![in alloc; false; edges.len()]?;
    let mut work = Vec::new(alloc);
    note_all(&mut seen, &mut work, edges_after(edges, turns, from))?;
    while let Some(place) = work.pop() {
        note_all(&mut seen, &mut work, edges_after(edges, turns, place))?;
    }
    Ok(seen)
}

/// True if a place is on a cycle once some places got other edges, one after another. It looks at what can be reached
/// from that place alone.
pub fn is_on_cycle_after(
    alloc: Global,
    edges: &[Places],
    turns: &[PlacedEdges],
    place: usize,
) -> Result<bool, AllocError>
    ensures { IfOk result (λ answer. IsTrue answer ↔ IsOnCycle (with_edges edges.now turns.now) place) }
{
    let seen = reached_from(alloc, edges, turns, place)?;
    Ok(is_flagged(seen.as_slice(), place))
}

pub(crate) fn is_on_cycle(alloc: Global, edges: &[Places], place: usize) -> Result<bool, AllocError>
    ensures { IfOk result (λ answer. IsTrue answer ↔ IsOnCycle edges.now place) }
{
    is_on_cycle_after(alloc, edges, &[], place)
}
