//! Which places of a graph lie on a cycle.
//! Modules: `places` is a list of places, `graph` has lookups, `change` gives places other edges. `walk` is a search
//! whose answers are only hints. `ranks` has hints by which a place is on no cycle, `members` hints by which it is on
//! one. `search` finds without a hint if one place is on a cycle, also once some have other edges. `cycles` answers
//! for all places, and `law` has laws of the definitions.
#![tactic(auto)]

mod change;
mod cycles;
mod graph;
mod law;
mod members;
mod places;
mod ranks;
mod search;
mod walk;

pub use change::{PlacedEdges, edges_after};
pub use cycles::places_on_cycles;
pub use law::{cycles_stay_before, cycles_stay_elsewhere};
pub use places::Places;
pub use search::is_on_cycle_after;
