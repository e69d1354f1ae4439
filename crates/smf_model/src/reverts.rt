ghost use Rattle.std.specs.Prelude.{◌≡◌, ◌||◌, ◌∷◌, [], Some, option_map, IfOk};
ghost use Rattle.std.specs.Option.{option_copied};
ghost use Rattle.smf_model.specs.Look.{groups_of, instance};
ghost use Rattle.smf_model.specs.Next.{asked_revert, current_instance, named_snapshot};
ghost use Rattle.smf_model.specs.Next.{number_of, outcome_of_revert, reverted_to, changes_for_revert, with_owners};
ghost use Rattle.smf_model.specs.Next.{is_past_most, with_snapshot};
ghost use Rattle.smf_model.specs.OwnerChanges.{IsHeldAs, instance_with_previous};
ghost use Rattle.smf_model.specs.GeneralGroup.{service_owner as owner_of_service};
ghost use Rattle.smf_snap.specs.Snapshots.{groups_of_revert};

use crate::change::Change;
use crate::command::CommandReply;
use crate::general_group::service_owner;
use crate::held::{Instance, Owner, StoredSnapshot};
use crate::owner_changes::and_changes;
use crate::planner::{Asked, Planner, with_change};
use smf_fmri::limits::MAX_GROUPS;
use smf_fmri::{Items, Number, Ordered};
use smf_snap::{SnapshotName, restore};
use smf_value::Group;
use std::alloc::AllocError;

fn value_of(number: Option<Number>) -> Option<u64>
    ensures { result ≡ number }
{
    match number {
        None => None,
        Some(number) => Some(number.get()),
    }
}

/// Which snapshot a name means.
pub(crate) fn number_of(instance: &Instance, name: SnapshotName) -> Option<u64>
    ensures { result ≡ number_of instance.now name }
{
    match name {
        SnapshotName::Previous => value_of(instance.previous),
        SnapshotName::Running => instance.row.running,
        SnapshotName::Start => value_of(instance.start),
    }
}

/// True if an owner would have more groups than it may have.
fn are_past_most(first: &Ordered<Group>, second: &Ordered<Group>) -> bool
    ensures { result ≡ (is_past_most first.now || is_past_most second.now) }
{
    first.len() > MAX_GROUPS || second.len() > MAX_GROUPS
}

impl Planner<'_> {
    pub(crate) fn named_snapshot(&self, number: Option<u64>) -> Option<&StoredSnapshot>
        ensures { option_copied result ≡ named_snapshot self.now number }
    {
        match number {
            None => None,
            Some(number) => self.tables.snapshot(number),
        }
    }

    /// The instance, with the snapshot of a revert noted.
    pub(crate) fn instance_with_previous(&self, instance: &Instance) -> Result<Instance, AllocError>
        ensures { IfOk result (λ i. i ≡ instance_with_previous self.now instance.now) }
    {
        let mut instance = instance.clone()?;
        instance.previous = Some(self.tables.next_snapshot());
        Ok(instance)
    }

    /// The change that notes the snapshot of a revert.
    fn with_previous(&self, instance: &Instance) -> Result<Items<Change>, AllocError>
        ensures { IfOk result (λ all. all ≡ Change.PutInstance (instance_with_previous self.now instance.now) ∷ []) }
    {
        let noted = self.instance_with_previous(instance)?;
        with_change(Items::new(self.alloc), Change::PutInstance(noted))
    }

    /// The changes of a revert: what is noted of the instance, and the groups of both owners.
    fn changes_for_revert(
        &self,
        instance: &Instance,
        service_groups: Ordered<Group>,
        instance_groups: Ordered<Group>,
    ) -> Result<Items<Change>, AllocError>
        ensures { IfOk result (λ all. all ≡ changes_for_revert self.now instance.now service_groups instance_groups) }
    {
        let changes = self.with_previous(instance)?;
        let service = service_owner(self.alloc, &instance.name)?;
        let mut changes = with_change(changes, Change::PutGroups(service, service_groups))?;
        let own = Owner::Instance(instance.number);
        changes.push(Change::PutGroups(own, instance_groups))?;
        Ok(changes)
    }

    /// The snapshot is taken, the groups are put, and the owners that these name are written.
    fn revert_within(
        &self,
        instance: &Instance,
        service_groups: Ordered<Group>,
        instance_groups: Ordered<Group>,
    ) -> Asked
        requires { IsHeldAs self.now instance.now }
        ensures { IfOk result (λ r. r ≡ with_owners self.now (Some (owner_of_service instance.now))
            (with_snapshot self.now instance.now
            (changes_for_revert self.now instance.now service_groups instance_groups) CommandReply.Done)) }
    {
        let _entries = self.tables.entries();
        let written = self.owners_reverted(instance, &service_groups, &instance_groups)?;
        let changes = self.changes_for_revert(instance, service_groups, instance_groups)?;
        let outcome = self.with_snapshot(instance, changes, CommandReply::Done)?;
        and_changes(outcome, written)
    }

    fn revert_to(
        &self,
        instance: &Instance,
        service_groups: Ordered<Group>,
        instance_groups: Ordered<Group>,
    ) -> Asked
        requires { IsHeldAs self.now instance.now }
        ensures { IfOk result (λ r. r ≡ with_owners self.now (Some (owner_of_service instance.now))
            (reverted_to self.now instance.now service_groups instance_groups)) }
    {
        if are_past_most(&service_groups, &instance_groups) {
            return self.refusal_with(CommandReply::Limit);
        }
        self.revert_within(instance, service_groups, instance_groups)
    }

    /// The groups of an owner after a revert.
    #[tactic(auto, unfolding(crate::specs::Look::groups_of))]
    fn restored_of_owner(
        &self,
        owner: &Owner,
        groups: &Ordered<Group>,
    ) -> Result<Ordered<Group>, AllocError>
        ensures { IfOk result (λ gs. gs ≡ groups_of_revert (groups_of self.now owner.now) groups.now) }
    {
        match self.tables.groups_if_there(owner) {
            None => restore(self.alloc, &Ordered::new(self.alloc), groups),
            Some(current) => restore(self.alloc, current, groups),
        }
    }

    /// The groups of an instance's service after a revert.
    fn restored_of_service(
        &self,
        instance: &Instance,
        groups: &Ordered<Group>,
    ) -> Result<Ordered<Group>, AllocError>
        ensures { IfOk result
            (λ gs. gs ≡ groups_of_revert (groups_of self.now (owner_of_service instance.now)) groups.now) }
    {
        let service = service_owner(self.alloc, &instance.name)?;
        self.restored_of_owner(&service, groups)
    }

    /// The groups of an instance after a revert.
    fn restored_of_instance(
        &self,
        instance: &Instance,
        groups: &Ordered<Group>,
    ) -> Result<Ordered<Group>, AllocError>
        ensures { IfOk result (λ gs. gs ≡
            groups_of_revert (groups_of self.now (Owner.Instance instance.now.number)) groups.now) }
    {
        self.restored_of_owner(&Owner::Instance(instance.number), groups)
    }

    fn outcome_of_revert(&self, instance: &Instance, to: Option<&StoredSnapshot>) -> Asked
        requires { IsHeldAs self.now instance.now }
        ensures { IfOk result (λ r. r ≡ with_owners self.now (Some (owner_of_service instance.now))
            (outcome_of_revert self.now instance.now (option_copied to.entry))) }
    {
        let Some(stored) = to else {
            return self.refusal_with(CommandReply::NoSuch);
        };
        let snapshot = stored.snapshot();
        let service_groups = self.restored_of_service(instance, &snapshot.service_groups)?;
        let instance_groups = self.restored_of_instance(instance, &snapshot.instance_groups)?;
        self.revert_to(instance, service_groups, instance_groups)
    }

    /// Puts the groups of a snapshot in place of the current ones of an instance and its service.
    pub(crate) fn revert(&self, number: u64, name: SnapshotName) -> Asked
        ensures { IfOk result (λ r. r ≡ with_owners self.now (option_map owner_of_service (instance self.now number))
            (asked_revert self.now name (current_instance self.now number))) }
    {
        let Some(instance) = self.current_instance(number)? else {
            return self.refusal_with(CommandReply::NoSuch);
        };
        let to = self.named_snapshot(number_of(&instance, name));
        self.outcome_of_revert(&instance, to)
    }
}
