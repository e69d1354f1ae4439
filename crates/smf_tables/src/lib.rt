//! The six tables of a store, statement by statement. It knows nothing of what they hold.
//! Modules: `layout` (tests that the tables are those of a store), `edits` (rows put in and taken out, inside a
//! transaction); `lookups` (rows looked up there), `scans` (whole tables).
#![tactic(auto)]

mod edits;
mod layout;
mod lookups;
mod scans;

pub use edits::{
    InstanceRow, add_group, add_instance, add_launch, add_meta, add_service, add_snapshot,
    drop_groups, drop_instance, drop_launch, drop_meta, drop_service, drop_service_groups,
    drop_snapshots,
};
pub use layout::{
    has_grp_table, has_instance_table, has_meta_table, has_restarter_table, has_service_table,
    has_snap_table,
};
pub use lookups::{NameColumns, has_service, name_of};
pub use scans::{
    all_groups, all_instances, all_launches, all_meta, all_services, all_snapshots, are_keyed,
};
