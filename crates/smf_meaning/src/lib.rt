//! Laws above definitions that are the code again. Each is a function whose contract is the law, in the words of the
//! manual and apart from how anything is read or worked out. A definition and a body that are wrong alike are refused
//! here.
//! Modules: `places`, `lines` and `bodies` (the places at which texts and bytes are wrong), `waits` (parked instances),
//! `quiet` (what runs if nothing is left to do); `dependencies` (dependency groups), `groups` (edits of a group), `composition` and `reverts` (the groups of an instance, by
//! name), `methods` (commands), `steps` (runs); `examples` (how lines of svccfg and of scripts are read).
#![tactic(auto)]

mod bodies;
mod composition;
mod dependencies;
mod examples;
mod groups;
mod lines;
mod methods;
mod places;
mod quiet;
mod reverts;
mod steps;
mod waits;

pub use bodies::{bodies_are_wrong_at_a_field, snapshots_are_wrong_at_a_field};
pub use composition::groups_are_composed_alike;
pub use dependencies::groups_ask_what_they_say;
pub use examples::{lines_of_scripts_ask_so, lines_of_svccfg_are_read_so};
pub use groups::edits_make_the_stated_property;
pub use lines::{rows_are_wrong_at_a_field, steps_are_wrong_at_a_field};
pub use methods::{
    commands_are_their_texts, ignored_failures_are_words, tokens_are_wrong_at_a_percent,
};
pub use places::names_are_wrong_at_a_byte;
pub use quiet::{
    quiet_graphs_run_what_is_not_parked, quiet_views_are_quiet_graphs,
    waiting_for_each_other_parks_neither,
};
pub use reverts::reverts_bring_back;
pub use steps::steps_take_the_next_run;
pub use waits::parked_stays;
