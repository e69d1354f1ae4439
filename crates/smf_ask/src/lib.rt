//! A client of a server: it finds the server, asks it, and prints the answer. Where files are concerned the prover shows only
//! that it is safe and returns.
//! Modules: `client` (asks by a line, a script or lines of svccfg), `place` (the server that has a folder), `way` (who else may
//! write there), `request` (a request and its answer), `script` (lines of svccfg as a script), `words` (the first word of such a
//! line), `talk` (lines that are typed), `selection` (what they have selected), `answer` (what is printed where), `fault` (why there
//! is no answer).
#![tactic(auto)]

mod answer;
mod client;
mod fault;
mod place;
mod request;
mod script;
mod selection;
mod talk;
mod way;
mod words;

pub use answer::lines_if;
pub use client::Client;
pub use script::script_of;
