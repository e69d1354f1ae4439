//! The decisions of the program smf, over any writers. They are the task that its words ask for, or the message and the
//! status if it begins none.
//! Modules: `task` (the task that words ask for), `words` (what clap reads), `refusal` (why there is no task).
//! The other modules are `messages` (messages about files that do not open) and `law` (laws of the definitions).
#![tactic(auto)]

mod law;
mod messages;
mod refusal;
mod task;
mod words;

pub use law::words_are_read_so;
pub use messages::{tell_no_database, tell_no_input, tell_no_memory};
pub use refusal::{Refusal, refusal_of_words, refuse, show_version};
pub use task::{AskForm, Lead, Listing, Task, read_task};
