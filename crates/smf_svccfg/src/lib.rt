//! Lines of svccfg(1M): what they ask for, and how they are judged by a repository and by the selection.
//! Modules: `line_words` (words between blanks), `token` (words, quoted words, parentheses), `quotes` (quoted texts).
//! Lines are in `command` (command words), `arguments` (the tokens after each command) and `line`.
//! Judgements are in `selection` (what is selected), `entities` (what a word names), `output` (what is listed) and
//! `judgement`. The faults of both are in `fault`.
#![tactic(auto)]

mod arguments;
mod command;
mod entities;
mod fault;
mod judgement;
mod line;
mod line_words;
mod output;
mod quotes;
mod selection;
mod token;

pub use command::CfgCommand;
pub use fault::{CfgFault, LineFault, fault_text};
pub use judgement::judge;
pub use line::{Line, parse_line};
pub use line_words::words;
pub use quotes::{escaped_text, quoted_text};
pub use selection::{Judged, Selection};
pub use token::{Token, tokens};
