//! A restarter knows its instances and their runs. It acts on messages, ticks, answers and reports.
//! Modules: `known` (what it knows); `reply` (what a step is, and what it changes); `changes` (changes and replies by
//! what they do); `runs` (runs and their contracts); `ends` (ends that follow on methods); `orders` (proposals);
//! `replies` (messages); `ticks` (ticks); `answers` (answers and reports); `restless_list` (which instances rest);
//! `forgotten` (runs that are needed no more); `restarter`.
#![tactic(auto)]

mod answers;
mod changes;
mod ends;
mod forgotten;
mod known;
mod orders;
mod replies;
mod reply;
mod restarter;
mod restless_list;
mod runs;
mod ticks;

pub use known::{
    After, Drain, Ending, KnownInstance, KnownRun, Owed, Phase, RunKey, RunningMethod, Stage,
};
pub use reply::{Answer, Begun, Call, Course, CourseChange, KnowledgeChange, Reply};
pub use restarter::Restarter;
