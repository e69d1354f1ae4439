//! The repository as a plain value: its contents, the result of each command, and the body that keeps it in lists.
//! Records: `held` (what is held), `command` (commands and replies), `change` (record changes), `tables` (the lists and
//! their changes).
//! Plans of commands: `planner` (the value under a plan, and the possible outcomes), `dispatch` (the kind of a
//! command), `general_group` (restarters).
//! Edits: `instance_edits` (services, instances and notes of asks), `group_edits` (edits of groups), `refreshes` (refresh),
//! `reverts` (revert), `owner_changes` (owners that an edit leaves to write).
//! Other commands: `proposals` (proposals), `boot_changes` (boot).
//! The repository: `journal` (the promises of a journal), `plain` (the repository over a journal), `reads` (reads),
//! `views` (the graph's view, and snapshots by name).
//! What its clients see: `client` (edits and reads), `refusal` (the words of refusals).
//! Laws: `law` (the laws that no list of commands breaks), `client_law` (what a crash leaves after edits).
#![tactic(auto)]

mod boot_changes;
mod change;
mod client;
mod client_law;
mod command;
mod dispatch;
mod general_group;
mod group_edits;
mod held;
mod instance_edits;
mod journal;
mod law;
mod owner_changes;
mod plain;
mod planner;
mod proposals;
mod reads;
mod refreshes;
mod refusal;
mod reverts;
mod tables;
mod views;

pub use change::{Change, Outcome};
pub use client::Client;
pub use client_law::{a_crash_leaves_the_first_edits, an_accepted_edit_outlasts_a_crash};
pub use command::{Command, CommandReply, Edit, Mark, PropertyChange};
pub use general_group::Setting;
pub use held::{
    EntryPart, Instance, InstanceEntry, InstanceName, Launch, Owner, Service, Snapshot,
    StoredSnapshot,
};
pub use journal::{Journal, NoJournal, RepoFault};
pub use law::{
    accepted_makes_one_revision, changes_follow_the_diagram, histories_are_made_in_turn,
    names_find_instances, numbers_are_given_once, refusals_change_nothing, revisions_tell_events,
    rows_never_fall_back, snapshots_stay,
};
pub use plain::Plain;
pub use refusal::refusal_text;
pub use tables::Tables;
