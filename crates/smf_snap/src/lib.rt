//! Snapshots: what they keep of groups, what a revert makes of groups, and which group an instance has in the end.
//! Modules: `compositions`, `snapshots` (taking and restoring), `name` (the names of snapshots), `body` (a snapshot's bytes).
#![tactic(auto)]

mod body;
mod compositions;
mod name;
mod snapshots;

pub use body::{SnapshotBody, decode_snapshot, encode_both, encode_snapshot};
pub use compositions::composed_group;
pub use name::{SnapshotName, names};
pub use snapshots::{is_snapped, restore, take};
