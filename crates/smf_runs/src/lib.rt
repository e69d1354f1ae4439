//! Runs of the program: all that `smf` does after it has read its words, with the status and the texts. A run is over
//! any reader and writers, and over any open database or a copy of one if it takes one.
//! Without a script: `cfg` (lines of svccfg over a database), `questions` (why instances do not run, and what is wrong of
//! them), `patterns` (the instances that words mean), `configured` (the graph's view after a refresh), `unrefreshed` (changes
//! that no refresh has taken up). With a script: `sim` (in memory), `script` (over a database and children),
//! `script_copies` (over a copy of a database).
//! Databases: `copies` (a copy, what it holds, and a question over it), `database_close` (the close of one in files),
//! `fault_texts` (why one was not opened), `served` (the end of a run).
#![tactic(auto)]

mod cfg;
mod configured;
mod copies;
mod database_close;
mod fault_texts;
mod patterns;
mod questions;
mod script;
mod script_copies;
mod served;
mod sim;
mod unrefreshed;

pub use cfg::{serve_cfg, serve_cfg_file};
pub use configured::a_check_sees_what_a_refresh_takes;
pub use copies::{check_copy, held_copy, open_copy, programs_copy, why_copy};
pub use database_close::{a_closed_file_holds_what_was_left, close};
pub use fault_texts::tell_open;
pub use patterns::{missed_text, texts_of};
pub use script::{serve, serve_file};
pub use script_copies::serve_copy;
pub use served::{Closed, Served};
pub use sim::serve_sim;
pub use unrefreshed::a_change_is_told_until_a_refresh;
