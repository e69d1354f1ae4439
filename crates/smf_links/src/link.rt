use crate::grouping::{Grouping, RestartOn};
use smf_fmri::Items;

/// A dependency, with the places of the instances that each of its entities stands for.
#[derive(Drop)]
pub struct Link {
    pub grouping: Grouping,
    pub restart_on: RestartOn,
    pub cited: Items<Items<usize>>,
}

/// The flags of an instance, by its state.
#[derive(Clone, Copy)]
pub struct Flags {
    pub running: bool,
    /// Disabled, or in maintenance.
    pub off: bool,
    /// Not enabled, or in maintenance.
    pub idle: bool,
    /// Enabled and offline, with nothing under way.
    pub waiting: bool,
}

/// An instance, with what it depends on: nothing if a group can't be read.
#[derive(Drop)]
pub struct GraphNode {
    pub flags: Flags,
    pub links: Items<Link>,
}

/// An instance that is to stand at a place.
#[derive(Drop)]
pub struct Relink {
    pub place: usize,
    pub node: GraphNode,
}
