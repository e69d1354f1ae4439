//! The language of scripts, and what each of its lines does. A line of a script is read as one request. A request that needs
//! the node alone, and one that needs the children of services too, are done on what the lines before left, and their text is
//! put. A line of svccfg is done over any client of a repository: a node is one, and a repository without children another.
//! Reading: `request` (what a line asks for).
//! Lines of svccfg: `cfg_line` (one line), `cfg_output` (what it gives), `cfg_fault`, `cfg_run` (lines of a reader), `cfg_end` (how
//! such a run ends).
//! The node alone: `session` (what a line does), `processes` (what happens to processes and restarters).
//! With children: `lines` (what a line does), `actions` (what is asked of children), `rounds` (rounds of the node's schedule with the
//! answers of children), `forgetting` (what was told and what is over goes, on both sides), `ends` (when no more is asked).
//! Scripts: `script` (each line is read and done, and its text is written), `fault` and `fault_texts` (why one ends), `law`.
#![tactic(auto)]

mod actions;
mod cfg_end;
mod cfg_fault;
mod cfg_line;
mod cfg_output;
mod cfg_run;
mod ends;
mod fault;
mod fault_texts;
mod forgetting;
mod law;
mod lines;
mod processes;
mod request;
mod rounds;
mod script;
mod session;

pub use cfg_end::serve_cfg;
pub use cfg_fault::{RunFault, SessionFault};
pub use cfg_line::do_cfg_line;
pub use cfg_output::Output;
pub use cfg_run::run_cfg;
pub use ends::{Leftover, end_all};
pub use fault::ScriptFault;
pub use fault_texts::fault_text;
pub use forgetting::forget;
pub use law::a_beginning_agrees;
pub use request::{ChildRequest, NodeRequest, Request, request_of};
pub use rounds::drive;
pub use script::run_script;
pub use session::{run_request, settled_text};
