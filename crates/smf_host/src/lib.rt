//! The system's side of the program: files, locks, pipes and programs by their names. It decides nothing of services.
//! Modules: `database` (a database file, its log and its journal), `lock` (who has a database alone), `contracts` (the
//! room of contracts), `groups` (its control groups), `children` (the list of children beside a database).
//! A server has `folder` (who has a folder alone), `desk` (requests in a folder), `pipe` (by which it is called), `pace`
//! (when it ticks), `stop` (how all services stop), `ender` (how contracts are ended), `boots` (whether it boots or goes on),
//! `timer` (the clock), `record` (what was given to it), and `chronicles` (what it keeps of what happened): `causes` (why instances are in maintenance),
//! `retries` (which are tried again), `why_file` (on what evidence instances were started and stopped: `why`, in `blocks`, with the `chain` of causes), `trail` (what all servers
//! of a database told). `room_file` is a file of these that is written whole.
#![tactic(auto)]

mod blocks;
mod boots;
mod causes;
mod chain;
mod children;
mod chronicles;
mod contracts;
mod database;
mod desk;
mod ender;
mod folder;
mod groups;
mod lock;
mod pace;
mod pipe;
mod record;
mod retries;
mod room_file;
mod stop;
mod timer;
mod trail;
mod why;
mod why_file;

pub use boots::{forget_boot, has_booted};
pub use causes::{CauseFile, new_causes, older_causes};
pub use children::{end_listed, list_of, place_of, tell_sweep};
pub use chronicles::FileChronicle;
pub use contracts::{
    RoomFault, RoomHold, close_room, form_text, note_run, note_stay, room_text, take_room,
};
pub use database::{Database, read_files};
pub use desk::FileDesk;
pub use ender::{FileEnder, ender_in};
pub use folder::{folder_lock, take_lock};
pub use lock::{Hold, path_beside, take_alone};
pub use record::{
    LentDesk, RecordFile, RecordedChronicle, Recorder, put_record_aside, record_database,
};
pub use retries::{older_retries, stage_in, stage_text};
pub use timer::SystemTimer;
pub use trail::{TrailFile, milliseconds};
pub use why::Provenance;
