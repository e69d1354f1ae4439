//! The methods of an instance: the commands by which its groups start, stop and refresh it, and the meaning of a
//! method's end.
//! Modules: `command` (a command, and which are built in); `timeout`; `texts` (texts of methods and names); `tokens`
//! (what is replaced in a command); `properties` (properties); `definition`; `call` (with the tokens replaced);
//! `outcome`; `fault`.
#![tactic(auto)]

mod call;
mod command;
mod definition;
mod fault;
mod outcome;
mod properties;
mod texts;
mod timeout;
mod tokens;

pub use call::{MethodCall, ReadMethod};
pub use command::{Builtin, CommandText};
pub use definition::MethodDefinition;
pub use fault::MethodFault;
pub use outcome::{MethodOutcome, judge};
pub use texts::method_text;
pub use timeout::Timeout;
