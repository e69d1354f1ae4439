//! The desk and the clock of a server, and all that it watches: the events of its children, methods that may take too
//! long, and instances that end again and again. It tells how contracts are kept, and what happened. Nothing here knows
//! scripts.
//! Modules: `ask` (the next ask), `desk` (requests and replies), `timer` (the clock), `chronicle` (what is told of what
//! happened); `child_events` (the events of children), `watch` (methods that may take too long); `bounds` (how often
//! instances may end), `ends` (ends of instances that nobody asked for), `causes` (why instances are in maintenance, by what
//! a trail shows), `last_start` (how starts ended), `retries` (instances that are tried again), `troubles` (looks at all of
//! this), `remedies` (instances that are marked or cleared), `maintenance` (why instances are in maintenance, by all that is
//! known); `size` (how much has happened), `terms` (how contracts are kept).
#![tactic(auto)]

mod ask;
mod bounds;
mod causes;
mod child_events;
mod chronicle;
mod desk;
mod ends;
mod last_start;
mod maintenance;
mod remedies;
mod retries;
mod size;
mod terms;
mod timer;
mod troubles;
mod watch;

pub use ask::{Onward, ServerInput};
pub use bounds::{Bounds, MOST_ENDS, PERIOD, RETRY_MOST};
pub use causes::{Causes, KnownRow, MaintenanceCause, ShownRow, causes_are_told_so};
pub use child_events::hear_all;
pub use chronicle::{Chronicle, ItemCount};
pub use desk::Desk;
pub use ends::End;
pub use maintenance::{MaintenanceReason, push_reason, reason_of};
pub use remedies::{Remedy, lines_of, remedy_all};
pub use retries::{Plan, Retry, RetryStage, plans_of};
pub use size::{Size, is_same, size_of};
pub use terms::{Ender, LogLimit, Noted, Stop, Term, UntimedMethods};
pub use timer::Timer;
pub use troubles::{Found, Troubles};
pub use watch::{Due, Timed, Watch};
