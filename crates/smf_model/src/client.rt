ghost use Rattle.std.specs.Option.{option_copied};
ghost use Rattle.std.specs.Prelude.{◌≡◌, ◌⊎◌, IfErr, IfOk, OnErr, Option, Result, is_some, option_map};
ghost use Rattle.smf_model.specs.declared.command.Command.TheVariants as commands;
ghost use Rattle.smf_model.specs.declared.command.Edit.{Edit as AnyEdit};
ghost use Rattle.smf_model.specs.declared.command.CommandReply.{CommandReply as AnyReply};
ghost use Rattle.smf_model.specs.declared.journal.RepoFault.{RepoFault as AnyFault};
ghost use Rattle.smf_model.specs.declared.journal.RepoFault.TheVariants.{Memory};
ghost use Rattle.smf_model.specs.Contents.{Holdings};
ghost use Rattle.smf_model.specs.Look.{instance_by_name, service, snapshot};
ghost use Rattle.smf_model.specs.Next.{current_instance, next};
ghost use Rattle.smf_model.specs.Shown.{shown_groups, snapshot_number, snapshots_of};
ghost use Rattle.smf_model.specs.Clients.{IsEdited};

use crate::command::{Command, CommandReply, Edit};
use crate::held::{Instance, InstanceName, Owner, Service, Snapshot};
use crate::journal::{Journal, RepoFault};
use crate::plain::Plain;
use smf_fmri::{InstanceFmri, Items, Number, Ordered, ServiceFmri, Table};
use smf_snap::SnapshotName;
use smf_value::Group;
use std::alloc::AllocError;

/// Takes edits to a repository, and reads what it holds.
pub trait Client {
    /// The value that the repository holds.
    ghost held: { Self → Holdings };

    /// The other promises of an edit that ended so.
    ghost follows: { Self → AnyEdit → Result AnyReply AnyFault → Self → Type 0 };

    /// With which faults an edit may end, beside want of memory.
    ghost edit_fails: { AnyFault → Type 0 };

    /// Gives an edit to the repository. A fault leaves what is held.
    fn apply(&mut self, edit: Edit) -> Result<CommandReply, RepoFault>
        ensures exact { IfOk result (λ reply. next (held self.old) (commands.Edit edit) ≡ (held self.new, reply)) }
        ensures err { OnErr result (held self.new ≡ held self.old) }
        ensures follows { follows self.old edit result self.new }
        ensures fault { IfErr result (λ e. (e ≡ Memory) ⊎ edit_fails e) };

    /// The instance of a number, its owner as it is read now.
    fn instance(&self, number: u64) -> Result<Option<Instance>, AllocError>
        ensures { IfOk result (λ i. i ≡ current_instance (held self.now) number) };

    fn has_service(&self, name: &ServiceFmri) -> bool
        ensures { result ≡ is_some (service (held self.now) name.now) };

    /// The number of the instance of a name.
    fn number_of(&self, name: &InstanceFmri) -> Option<Number>
        ensures { result ≡ option_map (λ i. i.number) (instance_by_name (held self.now) name.now) };

    /// The services with their groups, by name.
    fn services(&self) -> &[Service]
        ensures { result.now ≡ (held self.now).services };

    /// The names of instances with their numbers, by name.
    fn names(&self) -> &Table<InstanceName>
        ensures { result.now.items ≡ (held self.now).names };

    /// The groups of an owner in the order of their names; an instance's `restarter` is made from its row.
    fn groups(&self, owner: &Owner) -> Result<Ordered<Group>, AllocError>
        ensures { IfOk result (λ gs. gs ≡ shown_groups (held self.now) owner.now) };

    fn snapshot(&self, number: u64) -> Option<&Snapshot>
        ensures { option_copied result ≡ snapshot (held self.now) number };

    /// The names of the snapshots that an instance has, in byte order; none if there is no such instance.
    fn snapshots(&self, instance: u64) -> Result<Option<Items<SnapshotName>>, AllocError>
        ensures { IfOk result (λ all. all ≡ snapshots_of (held self.now) instance) };

    /// Which snapshot a name means of an instance.
    fn snapshot_number(&self, instance: u64, name: SnapshotName) -> Option<u64>
        ensures { result ≡ snapshot_number (held self.now) instance name };
}

/// The repository itself. After an edit the held value stands in the journal. A crash leaves what it could leave
/// before, or what the edit makes.
impl<J: Journal> Client for Plain<J> {
    ghost held = { λ r. r.held };

    ghost follows = { λ before edit end after. IsEdited J.is_clean J.is_sound J.stands J.could before edit after };

    ghost edit_fails = { J.write_fails };

    fn apply(&mut self, edit: Edit) -> Result<CommandReply, RepoFault> {
        Plain::apply(self, &Command::Edit(edit))
    }

    fn instance(&self, number: u64) -> Result<Option<Instance>, AllocError> {
        Plain::instance(self, number)
    }

    fn has_service(&self, name: &ServiceFmri) -> bool {
        Plain::has_service(self, name)
    }

    fn number_of(&self, name: &InstanceFmri) -> Option<Number> {
        Plain::number_of(self, name)
    }

    fn services(&self) -> &[Service] {
        Plain::services(self)
    }

    fn names(&self) -> &Table<InstanceName> {
        Plain::names(self)
    }

    fn groups(&self, owner: &Owner) -> Result<Ordered<Group>, AllocError> {
        Plain::groups(self, owner)
    }

    fn snapshot(&self, number: u64) -> Option<&Snapshot> {
        Plain::snapshot(self, number)
    }

    fn snapshots(&self, instance: u64) -> Result<Option<Items<SnapshotName>>, AllocError> {
        Plain::snapshots(self, instance)
    }

    fn snapshot_number(&self, instance: u64, name: SnapshotName) -> Option<u64> {
        Plain::snapshot_number(self, instance, name)
    }
}
