//! Contracts of processes that the system runs, in a room that outlives the server which made them. One body serves both
//! forms: control groups, and keepers, which are programs of their own.
//! Modules: `note` (what a contract's note says), `ends` (how its first process ended), `held` and `rooms` (contracts that
//! are started, asked and ended), `news` (what is heard of them), `begin` (contracts of an older life are found, or ended).
#![tactic(auto)]

mod begin;
mod ends;
mod held;
mod news;
mod note;
mod rooms;

pub use begin::{Adopted, BeginFault, boot, go_on};
pub use held::HeldContract;
pub use note::{found_in, note_of};
pub use rooms::{Manner, RoomContracts};
