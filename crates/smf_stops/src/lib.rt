//! In which order services stop: none before those that require it, but in a circle. And the plan of a stop, with the
//! seconds that it may take.
//! Modules: `requirement` has what an instance requires, `order` which instances may stop at once, and `stops` which are
//! asked to stop next, and `step` what a server does then. `batches` has all that go in batches, `seconds` how long a stop may take, `plan` both of them, and
//! `text` has a plan as lines. `law` has the laws of the order.
#![tactic(auto)]

mod batches;
mod law;
mod order;
mod plan;
mod requirement;
mod seconds;
mod step;
mod stops;
mod text;

pub use law::{plan_is_ordered, stops_are_asked_once, stops_are_ordered, stops_end};
pub use plan::{Stop, StopBatch, StopPlan, stop_plan};
pub use seconds::{MOST_SECONDS, StopLimits};
pub use step::{StopStep, stop_step};
pub use text::plan_text;
