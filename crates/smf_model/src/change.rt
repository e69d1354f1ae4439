use crate::command::CommandReply;
use crate::held::{Instance, InstanceEntry, InstanceName, Launch, Owner, Service, StoredSnapshot};
use smf_fmri::{InstanceFmri, Items, Number, Ordered, ServiceFmri};
use smf_value::Group;

/// One change of a record. A list of them is what a command makes.
#[derive(Drop)]
pub enum Change {
    AddService(Service),
    /// A service with its groups.
    DropService(ServiceFmri),
    AddInstance(InstanceEntry),
    /// In place of the instance of this number, which keeps its groups.
    PutInstance(Instance),
    /// An instance with its groups.
    DropInstance(Number),
    PutName(InstanceName),
    DropName(InstanceFmri),
    /// In place of all groups of an owner.
    PutGroups(Owner, Ordered<Group>),
    AddSnapshot(StoredSnapshot),
    /// All snapshots of an instance.
    DropSnapshots(Number),
    /// In place of the launch of this restarter.
    PutLaunch(Launch),
    NextInstance(Number),
    NextSnapshot(Number),
    SetRevision(Number),
}

/// The outcome of a command: its changes, in the order in which they are made, and its reply.
#[derive(Drop)]
pub struct Outcome {
    pub changes: Items<Change>,
    pub reply: CommandReply,
}
