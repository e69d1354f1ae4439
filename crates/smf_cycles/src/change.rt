//! A graph in which some places have other edges.

ghost use Rattle.std.specs.Prelude.{◌≡◌};
ghost use Rattle.smf_cycles.specs.Paths.{edges_at};
ghost use Rattle.smf_cycles.specs.Turns.{with_edges};

use crate::graph::edges_of;
use crate::places::Places;

/// The edges that a place gets.
#[derive(Drop)]
pub struct PlacedEdges {
    pub place: usize,
    pub edges: Places,
}

/// The places that the edges of a place lead to, once some places got other edges, one after another. A place that is
/// not there stays without edges. It copies nothing.
#[tactic(auto, using(crate::proofs::Turns::after_past, crate::proofs::Turns::after_here, crate::proofs::Turns::after_elsewhere))]
pub fn edges_after<'a>(edges: &'a [Places], turns: &'a [PlacedEdges], place: usize) -> &'a [usize]
    ensures { result.now ≡ edges_at (with_edges edges.now turns.now) place }
{
    if place >= edges.len() {
        return &[];
    }
    let mut newest = edges_of(edges, place);
    for turn in turns {
        if turn.place == place {
            newest = turn.edges.as_slice();
        }
    }
    newest
}
