use smf_dep::{Grouping, RestartOn};
use smf_fmri::{InstanceFmri, Items};
use smf_method::CommandText;
use smf_state::{Cause, State};
use smf_value::Name;

/// An instance that an entity of a group stands for.
#[derive(Drop)]
pub struct Cited {
    pub name: InstanceFmri,
    pub state: State,
    /// The revision of its last start if it runs, else that of its last stop; 0 if there was none.
    pub since: u64,
}

/// How a dependency of an instance stood.
#[derive(Drop)]
pub struct GroupEvidence {
    /// The dependency group. None for the dependency on its restarter.
    pub group: Option<Name>,
    pub grouping: Grouping,
    pub restart_on: RestartOn,
    pub is_met: bool,
    /// The instances that its entities stand for, in the order of the entities.
    pub cited: Items<Cited>,
}

/// On what a start was decided.
#[derive(Drop)]
pub struct StartEvidence {
    pub instance: u64,
    pub name: InstanceFmri,
    /// The revision that it was decided on.
    pub revision: u64,
    pub is_enabled: bool,
    /// Those of its dependency groups in the order of their names, and then that on its restarter.
    pub groups: Items<GroupEvidence>,
    /// The start method of the snapshot `running`.
    pub command: CommandText,
    /// The snapshot `running`.
    pub snapshot: Option<u64>,
}

/// A request of svcadm(1M), or a note of its restarter, that stops an instance.
#[derive(Clone, Copy, PartialEq, Eq)]
pub enum Ask {
    MaintenanceNow,
    Maintenance,
    /// Its contract ended by an error.
    Failed,
    /// Its contract ended without an error.
    Exited,
    Restart,
}

/// The kind of an event that stops a dependent.
#[derive(Clone, Copy, PartialEq, Eq)]
pub enum EventKind {
    ErrorStop,
    OtherStop,
    Refreshed,
    Started,
}

/// An event of an instance that a group cites.
#[derive(Drop)]
pub struct StopEvent {
    pub name: InstanceFmri,
    pub kind: EventKind,
    /// The revision of the event.
    pub revision: u64,
}

/// A dependency group by which an instance is stopped.
#[derive(Drop)]
pub struct GroupStop {
    pub group: Name,
    pub grouping: Grouping,
    pub restart_on: RestartOn,
    /// All that count since the last start was decided, in the order of the entities.
    pub events: Items<StopEvent>,
}

/// Why an instance was told to stop.
#[derive(Drop)]
pub enum StopReason {
    Asked(Ask),
    NotEnabled,
    /// Its restarter, a dependency group or a method can't be read, it has no start method, or it depends on itself.
    Faulty,
    Groups(Items<GroupStop>),
}

/// On what a stop was decided.
#[derive(Drop)]
pub struct StopEvidence {
    pub instance: u64,
    pub name: InstanceFmri,
    /// The revision that it was decided on.
    pub revision: u64,
    /// The state that it leads to.
    pub to: State,
    pub cause: Cause,
    pub reason: StopReason,
}

/// The group whose property `enabled` says whether an instance is enabled.
#[derive(Clone, Copy, PartialEq, Eq)]
pub enum EnabledBy {
    /// `general_ovr` of the instance.
    Override,
    /// `general` of the instance.
    Own,
    /// `general` of its service.
    OfService,
}
