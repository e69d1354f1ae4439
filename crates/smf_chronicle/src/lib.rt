//! Chronicles: what a manager told in all its lives, as texts and as entries.
//! Texts: `word` (the words of entries), `printing` and `reading` (the text of an entry), `lines` (texts of many lines, and the
//! links between them), `fault`, `law` (what is written is read, and nothing else is).
//! A checker of chronicles: the first entry that breaks a rule of what is safe, over all lives. It takes a time that grows with
//! the chronicle alone. `entry` (what a chronicle tells), `rule` (the rules), `tables` (what was told so far, by instances, rows
//! and contracts), `check` (the pass over the entries), `audit_law` (what a breach means).
#![tactic(auto)]

mod audit_law;
mod check;
mod entry;
mod fault;
mod law;
mod lines;
mod printing;
mod reading;
mod rule;
mod tables;
mod word;

pub use audit_law::{a_life_is_a_trail, an_audit_is_exact, an_audit_of_lives_is_exact};
pub use check::audit;
pub use entry::Entry;
pub use fault::ReadFault;
pub use law::{entries_are_read_again, times_are_clocks};
pub use lines::{Chronicle, first_link, link_to, read_lines};
pub use printing::{entry_line, item_line};
pub use rule::{Breach, Rule};
