//! On what evidence instances were started and stopped.
//! Modules: `evidence` has evidence as values. `scene` is a view with its graph, and follows the messages of the repository.
//! `groups` has the dependencies of an instance with those that they cite. `start` has the evidence of a start, and `stop`
//! that of an order to stop. `enabled` finds which property says whether an instance is enabled. `law` says that each start
//! of a safe trail and each order to stop has evidence, which holds, and that messages show values of the history.
#![tactic(auto)]

mod enabled;
mod evidence;
mod groups;
mod law;
mod scene;
mod start;
mod stop;

pub use enabled::enabled_by;
pub use evidence::{
    Ask, Cited, EnabledBy, EventKind, GroupEvidence, GroupStop, StartEvidence, StopEvent,
    StopEvidence, StopReason,
};
pub use law::{
    every_start_has_evidence, every_stop_has_evidence, messages_show_values,
    the_named_property_decides,
};
pub use scene::Scene;
pub use start::start_evidence;
pub use stop::stop_evidence;
