//! The children of services: processes in contracts, simulated by a contract table, or real, or followed through forks.
//! Modules: `kids` (what is asked of them), `start` and `environment` (a method to be started, and its variables), `deed`
//! (what happens to a process), `book` and `note` (what is kept), `table_kids` (simulated), `os_kids` and `system` (real ones
//! and what starts them), `fault`. Followed ones: `contracts` (what is asked of the system), `stand` (what it answers), `sights`
//! (what was seen), `followed` (the children). `law` and `followed_law`: what a beginning keeps.
#![tactic(auto)]

mod book;
mod child;
mod contracts;
mod counts;
mod deed;
mod edits;
mod environment;
mod fault;
mod followed;
mod followed_law;
mod kid;
mod kids;
mod law;
mod note;
mod os_kids;
mod shell;
mod sights;
mod stand;
mod start;
mod system;
mod table_kids;

pub use book::Book;
pub use contracts::Contracts;
pub use deed::{Happening, MemberEvent};
pub use environment::Variable;
pub use fault::KidsFault;
pub use followed::FollowedKids;
pub use followed_law::found_contracts_are_followed;
pub use kid::Kid;
pub use kids::Kids;
pub use law::a_table_may_be_held;
pub use note::{Kill, Note, Run};
pub use os_kids::OsKids;
pub use stand::{FirstEnd, Stand};
pub use start::Start;
pub use system::System;
pub use table_kids::TableKids;
