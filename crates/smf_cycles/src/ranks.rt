//! Numbers of places that never rise along an edge. A place from which each edge falls is on no cycle.

ghost use Rattle.std.specs.List.{list_all};
ghost use Rattle.std.specs.Prelude.{◌≡◌, IsTrue, nat_le, nat_lt, slice_index};
ghost use Rattle.smf_cycles.specs.Ranks.{NeverRises};

use crate::graph::{edges_of, number_at};
use crate::places::Places;
use std::alloc::Global;

fn is_below(ranks: &[usize], rank: usize, place: usize) -> bool
    ensures { result ≡ nat_lt (slice_index ranks.now place) rank }
{
    number_at(ranks, place) < rank
}

fn is_at_most(ranks: &[usize], rank: usize, place: usize) -> bool
    ensures { result ≡ nat_le (slice_index ranks.now place) rank }
{
    number_at(ranks, place) <= rank
}

pub(crate) fn all_below(ranks: &[usize], rank: usize, places: &[usize]) -> bool
    ensures { result ≡ list_all (λ q. nat_lt (slice_index ranks.now q) rank) places.now }
{
    places.iter().all(|place| is_below(ranks, rank, *place))
}

fn all_at_most(ranks: &[usize], rank: usize, places: &[usize]) -> bool
    ensures { result ≡ list_all (λ q. nat_le (slice_index ranks.now q) rank) places.now }
{
    places.iter().all(|place| is_at_most(ranks, rank, *place))
}

fn never_rises(edges: &[Places], ranks: &[usize]) -> bool
    ensures { IsTrue result → NeverRises edges.now ranks.now }
{
    for place in 0..edges.len() {
        if !all_at_most(ranks, number_at(ranks, place), edges_of(edges, place)) {
            return false;
        }
    }
    true
}

/// The ranks, or none at all if they rise along some edge.
pub(crate) fn ranks_or_none(alloc: Global, edges: &[Places], ranks: Vec<usize>) -> Vec<usize>
    ensures { NeverRises edges.now result.items }
{
    if never_rises(edges, ranks.as_slice()) {
        return ranks;
    }
    Vec::new(alloc)
}
