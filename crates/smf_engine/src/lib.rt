//! svc.startd's graph: the newest view that it was given, and the orders that it makes of it.
//! Modules: `decisions` has the decision on an instance, and `view_orders` the orders of a view. `looked` is a view that
//! was looked at, and `engine` is the graph.
#![tactic(auto)]

mod decisions;
mod engine;
mod looked;
mod view_orders;

pub use engine::Engine;
pub use view_orders::orders;
