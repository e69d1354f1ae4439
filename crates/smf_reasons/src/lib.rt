//! Why instances that are enabled do not run: what can't be read, what is not met, cycles, what is under way. And the
//! flaws and likely mistakes of instances, whatever their states are.
//! Modules: `reason` has reasons as values, `entity_states` entities with their states. `dependencies` has the reasons of
//! groups and restarters, `methods` those of methods. `cycles` has a cycle by its names, and `search` looks for one.
//! `reasons` has all reasons of a view, `absent` entities that name nothing, `flaws` the flaws of a view.
//! `text` has reasons as lines, and `law` the laws of reasons. `hints` has the likely mistakes in groups as lines,
//! `exclusions` the instances that exclude each other, `view_hints` those of a view, and `hint_law` an example for each kind.
#![tactic(auto)]

mod absent;
mod cycles;
mod dependencies;
mod entity_states;
mod exclusions;
mod flaws;
mod hint_law;
mod hints;
mod law;
mod methods;
mod reason;
mod reasons;
mod search;
mod text;
mod view_hints;

pub use flaws::check;
pub use hint_law::hints_are_told_so;
pub use law::{flaws_are_exact, reasons_are_exact};
pub use reason::{Reason, Standing, Told};
pub use reasons::tell;
pub use text::{check_text_of, grouping_text, text_of};
pub use view_hints::{hint_text, programs_of};
