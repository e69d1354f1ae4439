//! Numbered changes of the repository, above the definitions of `smf_model`. The crate finds the view items that
//! changes touch, and brings a view up to date.
//! Modules: `changes` (the laws: each is a function whose contract is the law); `repository` (the repository with the
//! record of its newest changes); `change_record` (that record); `candidates` (the instances that changes may touch);
//! `lists` (numbers and their items); `row_owners` (the owners of all rows, as far as they are known);
//! `snapshot_bounds` (the greatest snapshot that a row names as `running`); `same` (the test of two items).
#![tactic(auto)]

mod candidates;
mod change_record;
mod changes;
mod lists;
mod repository;
mod row_owners;
mod same;
mod snapshot_bounds;

pub use changes::{
    a_view_is_patched, changes_are_exact, refusals_leave_no_list, touched_are_candidates,
};
pub use repository::Repository;
