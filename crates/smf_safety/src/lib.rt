//! Why the trail is safe: of the conditions of `IsSafe`, the two that rest on what each restarter knows, and all of them
//! together. Nothing here runs.
#![tactic(auto)]

mod law;

pub use law::{at_most_one_start_lives, starts_are_well_decided, whatever_happens_is_safe};
