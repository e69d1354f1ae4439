ghost use Rattle.std.specs.Prelude.{◌≡◌, ◌⊎◌, IfErr, IfOk, OnErr};
ghost use Rattle.smf_model.specs.declared.command.Command.TheVariants as commands;
ghost use Rattle.smf_model.specs.declared.journal.RepoFault.TheVariants.{Memory};
ghost use Rattle.smf_model.specs.Next.{next};
ghost use Rattle.smf_node.specs.Clients.{IsEditOf, fault_by, held_by};
ghost use Rattle.smf_node.specs.declared.fault.NodeFault.TheVariants as faults;
ghost use Rattle.smf_model.specs.Clients.{IsEditedAlone};
ghost use Rattle.smf_world.specs.Reached.{IsLater};
ghost use Rattle.smf_world.specs.Schedule.{Progress as AnyProgress};

use crate::fault::NodeFault;
use crate::node::Node;
use smf_fmri::{InstanceFmri, Items, Number, Ordered, ServiceFmri, Table};
use smf_model::{
    Client, CommandReply, Edit, Instance, InstanceName, Journal, Owner, RepoFault, Service,
    Snapshot,
};
use smf_snap::SnapshotName;
use smf_value::Group;
use std::alloc::AllocError;

/// The fault of the repository that a node's is.
fn repo_fault(fault: NodeFault) -> RepoFault
    requires { (fault ≡ faults.Memory) ⊎ (fault ≡ faults.Database) }
    ensures { fault_by result ≡ fault }
{
    match fault {
        NodeFault::Memory => RepoFault::Memory,
        NodeFault::Database => RepoFault::Database,
        NodeFault::Limit => unreachable!(),
        NodeFault::NoSuchMessage => unreachable!(),
        NodeFault::NoSuchActor => unreachable!(),
    }
}

impl From<RepoFault> for NodeFault {
    ghost from_gives = { λ e f. f ≡ fault_by e };

    fn from(e: RepoFault) -> NodeFault {
        match e {
            RepoFault::Memory => NodeFault::Memory,
            RepoFault::Database => NodeFault::Database,
        }
    }
}

impl<J: Journal> Node<J> {
    /// A client gives an edit, and learns no more of a fault than of the repository's own.
    fn give(&mut self, edit: Edit) -> Result<CommandReply, RepoFault>
        ensures exact { IfOk result
            (λ reply. next (held_by self.old) (commands.Edit edit) ≡ (held_by self.new, reply)) }
        ensures err { OnErr result (held_by self.new ≡ held_by self.old) }
        ensures follows { IsEditOf J.write_fails self.old edit result self.new }
        ensures fault { IfErr result (λ e. (e ≡ Memory) ⊎ J.write_fails e) }
    {
        match self.apply(edit) {
            Ok(reply) => Ok(reply),
            Err(fault) => Err(repo_fault(fault)),
        }
    }
}

/// A node is edited and read as the repository that it holds. An edit is an event of it.
impl<J: Journal> Client for Node<J> {
    ghost held = { λ p. held_by p };

    ghost follows = { λ before edit end after. IsEditOf J.write_fails before edit end after };

    ghost edit_fails = { J.write_fails };

    fn apply(&mut self, edit: Edit) -> Result<CommandReply, RepoFault> {
        self.give(edit)
    }

    fn instance(&self, number: u64) -> Result<Option<Instance>, AllocError> {
        self.repository().instance(number)
    }

    fn has_service(&self, name: &ServiceFmri) -> bool {
        self.repository().has_service(name)
    }

    fn number_of(&self, name: &InstanceFmri) -> Option<Number> {
        self.repository().number_of(name)
    }

    fn services(&self) -> &[Service] {
        self.repository().services()
    }

    fn names(&self) -> &Table<InstanceName> {
        self.repository().names()
    }

    fn groups(&self, owner: &Owner) -> Result<Ordered<Group>, AllocError> {
        self.repository().groups(owner)
    }

    fn snapshot(&self, number: u64) -> Option<&Snapshot> {
        self.repository().snapshot(number)
    }

    fn snapshots(&self, instance: u64) -> Result<Option<Items<SnapshotName>>, AllocError> {
        self.repository().snapshots(instance)
    }

    fn snapshot_number(&self, instance: u64, name: SnapshotName) -> Option<u64> {
        self.repository().snapshot_number(instance, name)
    }
}

/// Edits alone make of a node's world one that events make of it.
pub fn edits_are_events<J: Journal>()
    ensures { (before after : AnyProgress)
        → IsEditedAlone held_by (λ old edit end new. IsEditOf J.write_fails old edit end new) before after
        → IsLater before.world after.world }
{}
