//! The machine works out first what an event makes, and then installs it. It makes room before anything changes, the
//! repository commits, and what is left to do cannot fail. So children are called once there is room for what comes of
//! it.
//! Modules: `parts` (the actors, seen as the world); `command_work` (what a command makes); `reply_work` (what the reply of
//! a restarter makes); `received` (messages as their lines read); `deliveries`; `event_work` (events); `room`;
//! `installation`; `requests` (what a turn asks for); `runner` (who runs
//! methods); `polls` (what children tell); `turns` (turns with their answers); `type_facts` (what the types let be held
//! and asked); `patches` (changes that the graph takes); `machine`; `fault`.
#![tactic(auto)]

mod command_work;
mod deliveries;
mod event_work;
mod fault;
mod installation;
mod machine;
mod parts;
mod patches;
mod polls;
mod received;
mod reply_work;
mod requests;
mod room;
mod runner;
mod turns;
mod type_facts;

pub use fault::MachineFault;
pub use machine::Machine;
pub use parts::Remains;
pub use polls::News;
pub use requests::MethodRequest;
pub use runner::{NoChildren, Runner};
