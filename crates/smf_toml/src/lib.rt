//! Services as tables of TOML, and the lines of svccfg that make them.
//! Modules: `site` (the tables), `pieces` (pieces of lines and of commands), `command` (the command that starts an instance),
//! `lines` (the lines), `keys` (their keys), `read` (what a file says), `fault` (why it says nothing).
#![tactic(auto)]

mod command;
mod fault;
mod keys;
mod lines;
mod pieces;
mod read;
mod site;

pub use fault::SiteFault;
pub use lines::lines_of;
pub use read::entries_of;
pub use site::{Entry, InstanceTable, PropertyGroup, PropertyValue, ReadyTable, Setting, Words};
