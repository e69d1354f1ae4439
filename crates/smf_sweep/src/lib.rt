//! Ends what an older run over a database left, and has the children of this run listed beside it.
//! Modules: `child` (a line of the list), `process` (which processes are left), `survey` (questions to the system),
//! `stat` (its answer on a process), `sight` (which processes it does not show); `rounds` (the older run ends), `words`
//! (what a method's shell does first), `starter` (what starts programs), `lister` (what starts methods).
#![tactic(auto)]

mod child;
mod fault;
mod lister;
mod process;
mod rounds;
mod sight;
mod starter;
mod stat;
mod survey;
mod words;

pub use child::Child;
pub use fault::SweepFault;
pub use lister::{ListPlace, Lister};
pub use process::Process;
pub use starter::Starter;
pub use survey::Survey;
