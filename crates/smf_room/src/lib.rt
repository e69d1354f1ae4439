//! Contracts that outlive the server which made them. A contract is a folder of a room. The name of one file in it, the
//! token, is the contract's state, and who renames the token first takes the next step.
//! Modules: `token` (the states and their names), `note` (what a contract is for), `process` and `sight` (looks at what is
//! left); `room` (questions to the system), `folder` (its answers at the kit); `look` (what is known of a contract),
//! `sweep` (what is left of it is ended, and it is forgotten), `life` (a server begins), `start` (contracts are made and
//! ended), `unsettled` (those that may run), `live_room` (a room in which a server lives); `law` (no instance runs twice).
#![tactic(auto)]

mod folder;
mod law;
mod life;
mod live_room;
mod look;
mod note;
mod process;
mod room;
mod sight;
mod start;
mod sweep;
mod token;
mod unsettled;

pub use folder::Folder;
pub use law::{
    a_beginning_is_careful, a_careful_life_is_one_of_those, a_number_is_given_once,
    no_instance_runs_twice, whatever_is_asked_is_careful,
};
pub use life::{Found, Stand, begin_life};
pub use live_room::{Begun, LiveRoom};
pub use look::{Look, cancel, look_at};
pub use note::{Note, field_in};
pub use process::Process;
pub use room::{Marks, Room};
pub use sight::Sight;
pub use start::{Numbers, end_contract};
pub use sweep::{Swept, forget, sweep_contract};
pub use token::{Token, name_of, read_token};
pub use unsettled::Unsettled;
