//! Dependencies of instances, as smf(5) has them. A graph finds if each group is met, what stops a running instance,
//! and which instances depend on themselves.
//! Modules: `dependency` has dependencies, and `requirements` reads groups as such, with a `fault` if one can't be read.
//! `member` is an instance as a verdict looks at it, and `methods` finds if its methods let it be run. `names` has
//! places by names, and `link` finds dependencies by places. `cycle` finds which instances depend on themselves. `graph`
//! is a graph of instances, `placed` has these at places, and `roll` has the numbers of those that are there and of those
//! that went. `update` brings a graph up to date by items that changed. `change` reads those by which instances come, go
//! or depend on other things: `arrival` puts the ones after all others, `relink` gives all of them links. `index` finds the
//! members that name an instance. `law` has laws of the definitions, `shared` has values that copies share. `smf_links`
//! has what is found by places alone.
#![tactic(auto)]

mod arrival;
mod change;
mod cycle;
mod dependency;
mod fault;
mod graph;
mod index;
mod law;
mod link;
mod member;
mod methods;
mod names;
mod placed;
mod relink;
mod requirements;
mod roll;
mod shared;
mod update;

pub use dependency::Dependency;
pub use fault::DependencyFault;
pub use graph::{Finding, Graph, Verdict};
pub use law::cycles_are_lists;
pub use member::{GraphMember, ReadMember, members};
pub use requirements::read_groups;
pub use shared::Shared;
pub use smf_links::{Grouping, RestartOn};
