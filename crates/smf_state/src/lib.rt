//! States of instances, their rows, the steps that change them, and the texts of both.
//! Modules: `state`, `flags` (asks, ignored failures), `step`, `refusal` (why a step is not granted), `row`,
//! `shared_row` (a row that its copies share); `fields` (readers of a line), `text`, `view` (the repository as
//! svc.startd's graph sees it); `held_view` (a view that is brought up to date in place), `own_name` (that of
//! svc.startd's restarter), `fault`.
#![tactic(auto)]

mod fault;
mod fields;
mod flags;
mod held_view;
mod own_name;
mod refusal;
mod row;
mod shared_row;
mod state;
mod step;
mod text;
mod view;

pub use fault::{FieldFault, RowFault, StepFault, StepTextFault, WrongField};
pub use fields::{
    asks_at, cause_at, duration_at, field_at, flag_at, ignore_at, left_of, name_at, number_at,
    optional_cause_at, optional_number_at, optional_state_at, state_at,
};
pub use flags::{Asks, Failures, Ignore};
pub use held_view::HeldView;
pub use own_name::{is_startd, startd};
pub use refusal::Why;
pub use row::{Row, steps_go_along_the_diagram};
pub use shared_row::SharedRow;
pub use state::{Cause, Duration, State, edge};
pub use step::{Proposal, Step, Verb};
pub use text::{row_at, step_at};
pub use view::{ChangedItem, View, ViewItem};
