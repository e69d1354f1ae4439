//! Laws of the repository, above the definitions of `smf_model`, that no function of it needs. Each is a function whose
//! contract is the law.
//! Modules: `values` (each value that commands make keeps the rules of a store); `effects` (what each command changes,
//! what it leaves, and why it is refused, as an administrator sees it).
#![tactic(auto)]

mod effects;
mod values;

pub use effects::{
    asks_are_noted, booting_begins_anew, edits_are_answered_in_order, enabling_is_exact,
    groups_are_edited_alone, launches_are_counted, owners_are_written,
    proposals_are_judged_in_order, refreshing_moves_what_is_idle, reverting_brings_back,
    rows_count_or_begin_anew, what_is_added_is_found, what_is_deleted_is_gone,
};
pub use values::values_stay_consistent;
