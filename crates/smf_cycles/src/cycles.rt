ghost use Rattle.std.specs.List.{list_all};
ghost use Rattle.std.specs.Prelude.{◌≡◌, ◌<◌, ◌↔◌, ℕ, IfOk, IsTrue, false, length, replicate};
ghost use Rattle.smf_cycles.specs.Components.{FlagsSay};
ghost use Rattle.smf_cycles.specs.Paths.{IsOnCycle, flag_at, leads_nowhere};
ghost use Rattle.smf_cycles.specs.Ranks.{NeverRises};

use crate::graph::{edges_of, is_flagged, number_at};
use crate::members::members_of;
use crate::places::Places;
use crate::ranks::{all_below, ranks_or_none};
use crate::search::is_on_cycle;
use crate::walk::Walk;
use std::alloc::{AllocError, Global};

fn leads_nowhere(places: &Places) -> bool
    ensures { result ≡ leads_nowhere places.now }
{
    places.as_slice().is_empty()
}

/// True if no place has an edge.
fn all_lead_nowhere(edges: &[Places]) -> bool
    ensures { result ≡ list_all leads_nowhere edges.now }
{
    edges.iter().all(|places| leads_nowhere(places))
}

/// Flags of which none is set.
fn no_flags(alloc: Global, count: usize) -> Result<Vec<bool>, AllocError>
    ensures { IfOk result (λ flags. flags.items ≡ replicate count false) }
{
    let flags = vec![in alloc; false; count]?;
    Ok(flags)
}

/// True if a place is on a cycle. Its flag or its rank may settle it, else a search does.
fn settle(
    alloc: Global,
    edges: &[Places],
    ranks: &[usize],
    members: &[bool],
    place: usize,
) -> Result<bool, AllocError>
    requires ranks { NeverRises edges.now ranks.now }
    requires members { FlagsSay (IsOnCycle edges.now) members.now }
    ensures { IfOk result (λ answer. IsTrue answer ↔ IsOnCycle edges.now place) }
{
    if is_flagged(members, place) {
        return Ok(true);
    }
    if all_below(ranks, number_at(ranks, place), edges_of(edges, place)) {
        return Ok(false);
    }
    is_on_cycle(alloc, edges, place)
}

/// A flag for each place: it is set if the place is on a cycle. An edge may lead to a place that is not there, which
/// has no edges.
pub fn places_on_cycles(alloc: Global, edges: &[Places]) -> Result<Vec<bool>, AllocError>
    ensures length { IfOk result (λ flags. length flags.items ≡ length edges.now) }
    ensures exact { IfOk result (λ flags. (a : ℕ) → a < length edges.now
        → IsTrue (flag_at flags.items a) ↔ IsOnCycle edges.now a) }
{
    if all_lead_nowhere(edges) {
        let none = no_flags(alloc, edges.len())?;
        return Ok(none);
    }
    let mut walk = Walk::new(alloc, edges.len())?;
    walk.run(edges)?;
    let known = members_of(alloc, edges, &walk)?;
    let ranks = ranks_or_none(alloc, edges, walk.into_ranks());
    let mut flags = Vec::new(alloc);
    for place in 0..edges.len() {
        let flag = settle(alloc, edges, ranks.as_slice(), known.as_slice(), place)?;
        flags.push(flag)?;
    }
    Ok(flags)
}
