ghost use Rattle.smf_model.specs.declared.command.Edit.TheVariants.{AddGroup, AddInstance, DeleteGroup, Enable, Mark as MarkEdit, Property};
ghost use Rattle.std.specs.Prelude.{◌≡◌, IfOk};

use crate::held::Owner;
use smf_fmri::{InstanceFmri, Items, ServiceFmri, Text};
use smf_snap::SnapshotName;
use smf_state::{Proposal, SharedRow, Why};
use smf_value::{GroupFault, Kind, Name};
use std::alloc::AllocError;

/// A request to the repository.
#[derive(Drop)]
pub enum Command {
    /// A request that a client may make.
    Edit(Edit),
    Propose(Proposal),
    /// A restarter of this name begins.
    Launch(InstanceFmri),
    Boot,
}

/// A change of the configuration, or something asked of an instance, as svccfg(1M) and svcadm(1M) give them.
#[derive(Drop)]
pub enum Edit {
    AddService(ServiceFmri),
    /// An instance of a present service.
    AddInstance {
        service: ServiceFmri,
        name: Name,
    },
    DeleteService(ServiceFmri),
    DeleteInstance(u64),
    AddGroup {
        owner: Owner,
        name: Name,
        group_type: Name,
        non_persistent: bool,
    },
    DeleteGroup {
        owner: Owner,
        name: Name,
    },
    Property {
        owner: Owner,
        group: Name,
        change: PropertyChange,
    },
    /// Enables or disables an instance. A temporary request lasts until the next boot.
    Enable {
        instance: u64,
        enabled: bool,
        temporary: bool,
    },
    Restart(u64),
    /// Takes the snapshot `running`, and moves the instance if its restarter is another now.
    Refresh(u64),
    Clear(u64),
    Mark {
        instance: u64,
        mark: Mark,
    },
    Revert {
        instance: u64,
        snapshot: SnapshotName,
    },
}

/// A change of one property of a group.
#[derive(Drop)]
pub enum PropertyChange {
    Set {
        name: Name,
        kind: Option<Kind>,
        values: Items<Text>,
    },
    AddValue {
        name: Name,
        kind: Option<Kind>,
        value: Text,
    },
    DeleteValue {
        name: Name,
        value: Text,
    },
    Delete {
        name: Name,
    },
}

/// The mark that svcadm(1M) mark asks for.
#[derive(Clone, Copy, PartialEq, Eq)]
pub enum Mark {
    Degraded,
    Maintenance,
    /// Maintenance at once, without the stop method.
    MaintenanceNow,
}

/// The answer to a command. All but the first three are refusals, which change nothing.
#[derive(Drop)]
pub enum CommandReply {
    /// The number of an instance that was added, or of a launch.
    Made(u64),
    /// The row that a proposal led to.
    Granted(SharedRow),
    Done,
    NoSuch,
    InUse,
    NotInState,
    Exists,
    Denied(GroupFault),
    Limit,
    Stale(Why, Option<SharedRow>),
}

#[tactic(auto, using(smf_state::proofs::Copies::same_items))]
fn copy_of(values: &Items<Text>) -> Result<Items<Text>, AllocError>
    ensures { IfOk result (λ copy. copy ≡ values.now) }
{
    values.clone()
}

impl Clone for PropertyChange {
    ghost is_clone = { λ s copy. copy ≡ s };

    fn clone(&self) -> Result<PropertyChange, AllocError> {
        match self {
            PropertyChange::Set { name, kind, values } => {
                let name = name.clone()?;
                let values = copy_of(values)?;
                Ok(PropertyChange::Set {
                    name,
                    kind: *kind,
                    values,
                })
            }
            PropertyChange::AddValue { name, kind, value } => {
                let name = name.clone()?;
                let value = value.clone()?;
                Ok(PropertyChange::AddValue {
                    name,
                    kind: *kind,
                    value,
                })
            }
            PropertyChange::DeleteValue { name, value } => {
                let name = name.clone()?;
                let value = value.clone()?;
                Ok(PropertyChange::DeleteValue { name, value })
            }
            PropertyChange::Delete { name } => {
                let name = name.clone()?;
                Ok(PropertyChange::Delete { name })
            }
        }
    }
}

fn copy_of_add_instance(service: &ServiceFmri, name: &Name) -> Result<Edit, AllocError>
    ensures { IfOk result (λ copy. copy ≡ AddInstance service.now name.now) }
{
    let service = service.clone()?;
    let name = name.clone()?;
    Ok(Edit::AddInstance { service, name })
}

fn copy_of_delete_group(owner: &Owner, name: &Name) -> Result<Edit, AllocError>
    ensures { IfOk result (λ copy. copy ≡ DeleteGroup owner.now name.now) }
{
    let owner = owner.clone()?;
    let name = name.clone()?;
    Ok(Edit::DeleteGroup { owner, name })
}

fn enable_edit(instance: u64, enabled: bool, temporary: bool) -> Edit
    ensures { result ≡ Enable instance enabled temporary }
{
    Edit::Enable {
        instance,
        enabled,
        temporary,
    }
}

fn mark_edit(instance: u64, mark: Mark) -> Edit
    ensures { result ≡ MarkEdit instance mark }
{
    Edit::Mark { instance, mark }
}

fn copy_of_add_group(
    owner: &Owner,
    name: &Name,
    group_type: &Name,
    non_persistent: bool,
) -> Result<Edit, AllocError>
    ensures { IfOk result (λ copy. copy ≡ AddGroup owner.now name.now group_type.now non_persistent) }
{
    let name = name.clone()?;
    let group_type = group_type.clone()?;
    let owner = owner.clone()?;
    Ok(Edit::AddGroup {
        owner,
        name,
        group_type,
        non_persistent,
    })
}

fn copy_of_property(
    owner: &Owner,
    group: &Name,
    change: &PropertyChange,
) -> Result<Edit, AllocError>
    ensures { IfOk result (λ copy. copy ≡ Property owner.now group.now change.now) }
{
    let group = group.clone()?;
    let owner = owner.clone()?;
    let change = change.clone()?;
    Ok(Edit::Property {
        owner,
        group,
        change,
    })
}

impl Clone for Edit {
    ghost is_clone = { λ s copy. copy ≡ s };

    fn clone(&self) -> Result<Edit, AllocError> {
        match self {
            Edit::AddService(name) => Ok(Edit::AddService(name.clone()?)),
            Edit::AddInstance { service, name } => copy_of_add_instance(service, name),
            Edit::DeleteService(name) => Ok(Edit::DeleteService(name.clone()?)),
            Edit::DeleteInstance(instance) => Ok(Edit::DeleteInstance(*instance)),
            Edit::AddGroup {
                owner,
                name,
                group_type,
                non_persistent,
            } => copy_of_add_group(owner, name, group_type, *non_persistent),
            Edit::DeleteGroup { owner, name } => copy_of_delete_group(owner, name),
            Edit::Property {
                owner,
                group,
                change,
            } => copy_of_property(owner, group, change),
            Edit::Enable {
                instance,
                enabled,
                temporary,
            } => Ok(enable_edit(*instance, *enabled, *temporary)),
            Edit::Restart(instance) => Ok(Edit::Restart(*instance)),
            Edit::Refresh(instance) => Ok(Edit::Refresh(*instance)),
            Edit::Clear(instance) => Ok(Edit::Clear(*instance)),
            Edit::Mark { instance, mark } => Ok(mark_edit(*instance, *mark)),
            Edit::Revert { instance, snapshot } => Ok(Edit::Revert {
                instance: *instance,
                snapshot: *snapshot,
            }),
        }
    }
}

impl Clone for Command {
    ghost is_clone = { λ s copy. copy ≡ s };

    fn clone(&self) -> Result<Command, AllocError> {
        match self {
            Command::Edit(edit) => Ok(Command::Edit(edit.clone()?)),
            Command::Propose(proposal) => Ok(Command::Propose(proposal.clone()?)),
            Command::Launch(name) => Ok(Command::Launch(name.clone()?)),
            Command::Boot => Ok(Command::Boot),
        }
    }
}
