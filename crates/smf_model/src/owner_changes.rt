ghost use Rattle.std.specs.Option.{option_copied};
ghost use Rattle.std.specs.Prelude.{◌≡◌, ◌==◌, ◌&&◌, ◌∷◌, ◌++◌, [], not, nat_eq, true, IfOk, Some, None};
ghost use Rattle.std.specs.Cmp.Lexicographic.{pointwise};
ghost use Rattle.smf_model.specs.Look.{instance};
ghost use Rattle.smf_model.specs.Next.{acceptance_with, is_there, with_owners};
ghost use Rattle.smf_model.specs.OwnerChanges.{and_others, owner_beside, owner_of_instance, owner_put, owner_put_in};
ghost use Rattle.smf_model.specs.OwnerChanges.{owners_behind, owners_beside, owners_of_service, owners_reverted};
ghost use Rattle.smf_model.specs.OwnerChanges.{general_after, with_owner};
ghost use Rattle.smf_model.specs.GeneralGroup.{setting_by};

use crate::boot_changes::is_instance_of;
use crate::change::{Change, Outcome};
use crate::command::CommandReply;
use crate::general_group::{owned_by, owner_by, service_of, setting_by};
use crate::held::{Instance, InstanceEntry, Owner};
use crate::planner::{Asked, Planner, let_go, with_change};
use crate::refreshes::append;
use smf_fmri::{InstanceFmri, Items, Ordered, ServiceFmri};
use smf_state::Row;
use smf_value::Group;
use std::alloc::{AllocError, Global};

/// True if a row has number 0, and another owner than this.
fn is_unwritten(row: &Row, owner: &InstanceFmri) -> bool
    ensures { result ≡ ((row.now.number == 0) && not (pointwise nat_eq row.now.owner owner.now)) }
{
    row.number == 0 && row.owner != *owner
}

/// A copy of an instance, with another owner in its row.
fn with_owner(
    alloc: Global,
    instance: &Instance,
    owner: InstanceFmri,
) -> Result<Instance, AllocError>
    ensures { IfOk result (λ i. i ≡ with_owner instance.now owner) }
{
    let row = owned_by(alloc, &instance.row, owner)?;
    let mut after = instance.clone()?;
    after.row = row;
    Ok(after)
}

/// Changes, and after them the owner that two groups `general` name for an instance, if its row is to show it.
fn put_owner(
    alloc: Global,
    changes: Items<Change>,
    instance: &Instance,
    own: Option<&Group>,
    services_own: Option<&Group>,
) -> Result<Items<Change>, AllocError>
    ensures { IfOk result (λ all. all ≡
        changes ++ owner_put (setting_by (option_copied own.entry) (option_copied services_own.entry)) instance.now) }
{
    let owner = owner_by(alloc, setting_by(alloc, own, services_own)?)?;
    if !is_unwritten(&instance.row, &owner) {
        return Ok(changes);
    }
    let after = with_owner(alloc, instance, owner)?;
    with_change(changes, Change::PutInstance(after))
}

/// The same, if the instance is one of a service.
fn put_owner_in(
    alloc: Global,
    changes: Items<Change>,
    service: &ServiceFmri,
    instance: &Instance,
    own: Option<&Group>,
    services_own: Option<&Group>,
) -> Result<Items<Change>, AllocError>
    ensures { IfOk result (λ all. all ≡
        changes ++ owner_put_in service.now (setting_by (option_copied own.entry) (option_copied services_own.entry)) instance.now) }
{
    if is_instance_of(alloc, service, instance)? {
        put_owner(alloc, changes, instance, own, services_own)
    } else {
        Ok(changes)
    }
}

/// The owners of the instances of a service that has this group `general` from now on.
fn owners_of_service(
    alloc: Global,
    service: &ServiceFmri,
    services_own: Option<&Group>,
    entries: &[InstanceEntry],
) -> Result<Items<Change>, AllocError>
    ensures { IfOk result (λ all. all ≡ owners_of_service service.now (option_copied services_own.entry) entries.now) }
{
    let mut changes = Items::new(alloc);
    for entry in entries {
        let own = entry.groups.get_text("general");
        changes = put_owner_in(alloc, changes, service, &entry.instance, own, services_own)?;
    }
    Ok(changes)
}

/// Changes, and after them the owner of an entry, if another instance has this group `general` of its own from now on.
fn put_owner_beside(
    alloc: Global,
    changes: Items<Change>,
    service: &ServiceFmri,
    services_own: Option<&Group>,
    other: &Instance,
    own: Option<&Group>,
    entry: &InstanceEntry,
) -> Result<Items<Change>, AllocError>
    ensures { IfOk result (λ all. all ≡ changes
        ++ owner_beside service.now (option_copied services_own.entry) other.now (option_copied own.entry) entry.now) }
{
    if entry.instance.number == other.number {
        put_owner_in(alloc, changes, service, other, own, services_own)
    } else {
        let general = entry.groups.get_text("general");
        put_owner_in(
            alloc,
            changes,
            service,
            &entry.instance,
            general,
            services_own,
        )
    }
}

/// The owners of the instances of a service after a revert of one of them.
fn owners_beside(
    alloc: Global,
    service: &ServiceFmri,
    services_own: Option<&Group>,
    other: &Instance,
    own: Option<&Group>,
    entries: &[InstanceEntry],
) -> Result<Items<Change>, AllocError>
    ensures { IfOk result (λ all. all ≡
        owners_beside service.now (option_copied services_own.entry) other.now (option_copied own.entry) entries.now) }
{
    let mut changes = Items::new(alloc);
    for entry in entries {
        changes = put_owner_beside(alloc, changes, service, services_own, other, own, entry)?;
    }
    Ok(changes)
}

/// An outcome that is done, with more changes after its own; a refusal stays as it is.
pub(crate) fn and_changes(outcome: Outcome, others: Items<Change>) -> Asked
    ensures { IfOk result (λ r. r ≡ (record outcome { changes = and_others outcome.changes others outcome.reply })) }
{
    let Outcome { changes, reply } = outcome;
    if matches!(reply, CommandReply::Done) {
        match append(changes, others) {
            Ok(changes) => Ok(Outcome { changes, reply }),
            Err(fault) => {
                let_go(reply);
                Err(fault)
            }
        }
    } else {
        Ok(Outcome { changes, reply })
    }
}

impl Planner<'_> {
    /// The owners of the instances of an owner of groups that has these groups from now on.
    #[tactic(auto, unfolding(crate::specs::OwnerChanges::owners_behind))]
    fn owners_behind(
        &self,
        owner: &Owner,
        groups: &Ordered<Group>,
    ) -> Result<Items<Change>, AllocError>
        ensures { IfOk result (λ all. all ≡ owners_behind self.now owner.now groups.now) }
    {
        let general = groups.get_text("general");
        match owner {
            Owner::Service(name) => owners_of_service(
                self.alloc,
                name,
                general,
                self.tables.entries(),
            ),
            Owner::Instance(number) => self.owner_of_instance(number.get(), general),
        }
    }

    fn owner_of_instance(
        &self,
        number: u64,
        own: Option<&Group>,
    ) -> Result<Items<Change>, AllocError>
        ensures { IfOk result
            (λ all. all ≡ owner_of_instance self.now (option_copied own.entry) (instance self.now number)) }
    {
        let changes = Items::new(self.alloc);
        match self.tables.instance(number) {
            None => Ok(changes),
            Some(instance) => {
                let services_own = self.services_group(&instance.name, "general");
                put_owner(self.alloc, changes, instance, own, services_own)
            }
        }
    }

    /// Puts groups in place of those of an owner, by which its instances may have another restarter.
    pub(crate) fn put_naming(&self, owner: &Owner, groups: Ordered<Group>) -> Asked
        requires { is_there self.now owner.now ≡ true }
        ensures { IfOk result (λ r. r ≡
            with_owners self.now (Some owner.now) (acceptance_with self.now (Change.PutGroups owner.now groups ∷ []) CommandReply.Done)) }
    {
        let _entries = self.tables.entries();
        let written = self.owners_behind(owner, &groups)?;
        let change = Change::PutGroups(owner.clone()?, groups);
        let outcome = self.one(change, CommandReply::Done)?;
        and_changes(outcome, written)
    }

    /// The group `general` that a service has from now on, if the service is there.
    fn general_after<'b>(
        &self,
        service: &ServiceFmri,
        groups: &'b Ordered<Group>,
    ) -> Option<&'b Group>
        ensures { option_copied result ≡ general_after self.now service.now groups.now }
    {
        if self.tables.service(service).is_none() {
            return None;
        }
        groups.get_text("general")
    }

    /// The owners of the instances of a service once one of them was reverted.
    #[tactic(auto, unfolding(crate::specs::OwnerChanges::owners_reverted))]
    pub(crate) fn owners_reverted(
        &self,
        instance: &Instance,
        service_groups: &Ordered<Group>,
        instance_groups: &Ordered<Group>,
    ) -> Result<Items<Change>, AllocError>
        ensures { IfOk result
            (λ all. all ≡ owners_reverted self.now instance.now service_groups.now instance_groups.now) }
    {
        let after = self.instance_with_previous(instance)?;
        let service = service_of(self.alloc, &instance.name)?;
        let services_own = self.general_after(&service, service_groups);
        let own = instance_groups.get_text("general");
        owners_beside(
            self.alloc,
            &service,
            services_own,
            &after,
            own,
            self.tables.entries(),
        )
    }
}
