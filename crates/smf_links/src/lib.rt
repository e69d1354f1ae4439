//! Dependencies by the places of instances in a list, as links. `KeptVerdicts` keeps which instances won't run, from
//! change to change of their flags and links. So it tells at once which links are met or blocked.
//! Modules: `grouping` has the words of dependency groups. `link` is a dependency by places, and `index` has which
//! instances cite a place. `blockage` finds if a link is met or blocked, by the instances that won't run. `wires` has
//! the entities that stand for a place. `tally` counts how many entities of a link run, are off and are parked.
//! `tallies` has one for each link. `stamps` has the instances that won't run, and why. `rewire` gives instances
//! other links. `arrival` puts one more after the others, and takes the last one out. `kept` has all of these, from
//! change to change. `room` has lists whose room is made beforehand.
#![tactic(auto)]

mod arrival;
mod blockage;
mod grouping;
mod index;
mod kept;
mod link;
mod rewire;
mod room;
mod stamps;
mod tallies;
mod tally;
mod wires;

pub use grouping::{Grouping, RestartOn};
pub use kept::KeptVerdicts;
pub use link::{Flags, GraphNode, Link, Relink};
pub use room::with_room;
