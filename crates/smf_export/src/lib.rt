//! What a repository holds, as lines of svccfg: the lines that make it out of nothing, and the lines that lead from one
//! repository to another.
//! Modules: `choice` (the services that are meant), `group_lines` and `service_lines` (lines for groups, and for
//! services with their instances), `rehearsal` (what lines make), `comparison` (whether two repositories
//! hold the same), `difference` (the lines, once it is seen that they lead there), `script` (lines as a script that refreshes what they touch), `fault`.
#![tactic(auto)]

mod choice;
mod comparison;
mod difference;
mod fault;
mod group_lines;
mod rehearsal;
mod script;
mod service_lines;

pub use choice::{Choice, ChosenService};
pub use comparison::Extent;
pub use difference::{Undo, difference_from, export, undo_from};
pub use fault::ExportFault;
pub use rehearsal::asked_by;
pub use script::script_of;
