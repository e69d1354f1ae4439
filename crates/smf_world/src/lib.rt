//! The written machine: the world, what each event makes of it, and the schedule. `smf_safety` has why the trail is safe.
//! Modules: `item` (the trail), `trail` (its text), `event`, `work` (what an event makes), `schedule`, `law` (what no list
//! of events breaks). Nothing here runs but the types and the text.
#![tactic(auto)]

mod event;
mod item;
mod law;
mod schedule;
mod trail;
mod work;

pub use event::{Event, ProcessEvent, SpawnAnswer};
pub use item::{Item, is_start};
pub use law::{
    a_schedule_is_a_run, changes_keep_numbers, commits_follow_history, held_groups_are_formed,
    held_rows_were_committed, messages_are_spelled, no_message_waits_after_deliveries,
    quiet_leaves_nothing_to_do, rows_tell_what_stops, states_go_along_the_diagram,
};
pub use schedule::{Deed, EventKey, Settled, Turn};
pub use trail::{put_item, trail_text};
pub use work::{Becomes, Work};
