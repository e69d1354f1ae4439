//! svcadm(1M) and svcs(1): what their words ask for, and what is printed.
//! Modules: `words` (what clap reads), `instances` (which instance a word stands for), `requests` (the words of svcadm).
//! For svcs: `list_options` (its words), `relations` (who depends on whom) and `output` (its output).
//! The other modules are `messages` (messages) and `law` (laws of the definitions).
#![tactic(auto)]

mod instances;
mod law;
mod list_options;
mod messages;
mod output;
mod relations;
mod requests;
mod words;

pub use instances::{Found, found_of};
pub use law::{answers_are_of_what_matches, listings_are_in_order, words_are_read_so};
pub use list_options::{Chosen, Options, Relation, options_of};
pub use messages::{no_match_text, several_text, svcadm_usage, svcs_usage};
pub use output::{Listing, is_named, patterns_of, put_blanks, svcs_text, unmatched_words};
pub use requests::{AdminCommand, AdminWords, Asked, commands_of, copies, read_words};
