ghost use Rattle.std.specs.Prelude.{◌≡◌, ◌<◌, ◌++◌, false, true, IfOk, map};
ghost use Rattle.std.specs.List.{list_any};
ghost use Rattle.std.specs.Option.{option_copied};
ghost use Rattle.smf_model.specs.Look.{bare, group_in, groups_of, instances, no_service_has, service};
ghost use Rattle.smf_model.specs.Next.{all_booted, asked_boot, asked_delete_service, instance_after_boot, booted_row, changes_for_boot};
ghost use Rattle.smf_model.specs.Next.{has_dropped, instance_kept, is_instance_of, is_last_launch, is_last_number, kept_groups};
ghost use Rattle.smf_model.specs.Next.{kept_of_instances, kept_of_services, may_not_boot, persistent, change_of_relaunch, service_kept};
ghost use Rattle.smf_model.specs.GeneralGroup.{general, service_fmri, setting};
ghost use Rattle.smf_state.specs.Rows.{greatest_number};

use crate::change::Change;
use crate::command::CommandReply;
use crate::general_group::{Setting, owner_by, setting_by};
use crate::held::{Instance, InstanceEntry, Launch, Owner, Service};
use crate::planner::{Asked, Planner};
use bitflags::Flags;
use smf_fmri::limits::MAX_COUNT;
use smf_fmri::{InstanceFmri, Items, Ordered, ServiceFmri};
use smf_state::{Asks, Row, SharedRow, State};
use smf_value::Group;
use std::alloc::{AllocError, Global};

fn is_last_launch(launch: &Launch) -> bool
    ensures { result ≡ is_last_launch launch.now }
{
    !(launch.count.get() < MAX_COUNT)
}

fn is_last_number(instance: &Instance) -> bool
    ensures { result ≡ is_last_number instance.now }
{
    !(instance.row.number < MAX_COUNT)
}

fn any_last_launch(launches: &[Launch]) -> bool
    ensures { result ≡ list_any is_last_launch launches.now }
{
    launches.iter().any(|launch| is_last_launch(launch))
}

fn any_last_number(entries: &[InstanceEntry]) -> bool
    ensures { result ≡ list_any is_last_number (bare entries.now) }
{
    for entry in entries {
        if is_last_number(&entry.instance) {
            return true;
        }
    }
    false
}

/// Every restarter's count is one more.
fn relaunch(mut changes: Items<Change>, launches: &[Launch]) -> Result<Items<Change>, AllocError>
    requires { list_any is_last_launch launches.now ≡ false }
    ensures { IfOk result (λ all. all ≡ changes ++ map change_of_relaunch launches.now) }
{
    for launch in launches {
        let next = Launch {
            restarter: launch.restarter.clone()?,
            count: launch.count.next().unwrap(),
        };
        changes.push(Change::PutLaunch(next))?;
    }
    Ok(changes)
}

/// The groups that outlast a boot.
fn kept_groups(alloc: Global, groups: &Ordered<Group>) -> Result<Ordered<Group>, AllocError>
    ensures { IfOk result (λ gs. gs ≡ kept_groups groups.now) }
{
    let mut kept = groups.clone()?;
    kept.retain(|group| !group.is_non_persistent());
    Ok(kept)
}

fn has_dropped(groups: &Ordered<Group>) -> bool
    ensures { result ≡ has_dropped groups.now }
{
    groups
        .as_slice()
        .iter()
        .any(|group| group.is_non_persistent())
}

/// The change by which the groups of a service that are not persistent go.
fn service_kept(alloc: Global, service: &Service) -> Result<Change, AllocError>
    ensures { IfOk result (λ c. c ≡ service_kept service.now) }
{
    let kept = kept_groups(alloc, &service.groups)?;
    let name = service.name.clone()?;
    Ok(Change::PutGroups(Owner::Service(name), kept))
}

/// The change by which the groups of an instance that are not persistent go.
fn instance_kept(alloc: Global, entry: &InstanceEntry) -> Result<Change, AllocError>
    ensures { IfOk result (λ c. c ≡ instance_kept entry.now) }
{
    let kept = kept_groups(alloc, &entry.groups)?;
    Ok(Change::PutGroups(Owner::Instance(entry.instance.number), kept))
}

/// The groups of services that are not persistent go.
fn keep_of_services(
    alloc: Global,
    mut changes: Items<Change>,
    services: &[Service],
) -> Result<Items<Change>, AllocError>
    ensures { IfOk result (λ all. all ≡ changes ++ kept_of_services services.now) }
{
    for service in services {
        if has_dropped(&service.groups) {
            changes.push(service_kept(alloc, service)?)?;
        }
    }
    Ok(changes)
}

/// The groups of instances that are not persistent go.
fn keep_of_instances(
    alloc: Global,
    mut changes: Items<Change>,
    entries: &[InstanceEntry],
) -> Result<Items<Change>, AllocError>
    ensures { IfOk result (λ all. all ≡ changes ++ kept_of_instances entries.now) }
{
    for entry in entries {
        if has_dropped(&entry.groups) {
            changes.push(instance_kept(alloc, entry)?)?;
        }
    }
    Ok(changes)
}

/// A row at a boot: what was under way is gone.
fn booted_row(mut row: Row, owner: InstanceFmri) -> Row
    requires { row.number < greatest_number }
    ensures { result ≡ booted_row row owner }
{
    row.owner = owner;
    row.number += 1;
    row.state = State::Uninitialized;
    row.next = None;
    row.live = None;
    row.side = None;
    row.failed = 0;
    row.asks = Asks::empty();
    row.launch = 0;
    row.serial = 0;
    row
}

/// The group of a name, if it outlasts a boot.
#[tactic(auto, using(crate::proofs::Kept::kept_none, crate::proofs::Kept::kept_some))]
fn kept_of_name<'a>(groups: &'a Ordered<Group>, name: &str) -> Option<&'a Group>
    ensures { option_copied result ≡ group_in (kept_groups groups.now) name.now }
{
    let _ordered = groups.as_slice();
    match groups.get_text(name) {
        None => None,
        Some(group) => {
            if group.is_non_persistent() {
                None
            } else {
                Some(group)
            }
        }
    }
}

pub(crate) fn is_instance_of(
    alloc: Global,
    service: &ServiceFmri,
    instance: &Instance,
) -> Result<bool, AllocError>
    ensures { IfOk result (λ b. b ≡ is_instance_of service.now instance.now) }
{
    let of = instance.name.as_fmri().service_fmri(alloc)?;
    Ok(of == *service)
}

/// True if a service has an instance.
fn has_instance(
    alloc: Global,
    service: &ServiceFmri,
    entries: &[InstanceEntry],
) -> Result<bool, AllocError>
    ensures { IfOk result (λ b. b ≡ list_any (is_instance_of service.now) (bare entries.now)) }
{
    for entry in entries {
        let is_one = is_instance_of(alloc, service, &entry.instance)?;
        if is_one {
            return Ok(true);
        }
    }
    Ok(false)
}

impl Planner<'_> {
    /// The group `general` of the service of an instance, if it outlasts a boot. It is not looked for if no service has
    /// one.
    #[tactic(auto, unfolding(crate::specs::Look::groups_of), using(crate::proofs::Kept::none_at_boot))]
    fn services_general_at_boot(&self, instance: &InstanceFmri, none_has: bool) -> Option<&Group>
        requires { none_has ≡ true → no_service_has self.now.services general ≡ true }
        ensures { option_copied result ≡
            group_in (persistent (groups_of self.now) (Owner.Service (service_fmri instance.now))) general }
    {
        if none_has {
            return None;
        }
        match self.tables.service_named(instance.as_fmri().service_text()) {
            None => None,
            Some(service) => kept_of_name(&service.groups, "general"),
        }
    }

    /// The setting that `general/restarter` gives an instance after a boot has dropped groups.
    #[tactic(auto, unfolding(crate::specs::GeneralGroup::setting))]
    fn setting_at_boot(&self, entry: &InstanceEntry, none_has: bool) -> Result<Setting, AllocError>
        requires known { none_has ≡ true → no_service_has self.now.services general ≡ true }
        requires own { entry.now.groups ≡ groups_of self.now (Owner.Instance entry.now.instance.number) }
        ensures { IfOk result (λ s. s ≡ setting (persistent (groups_of self.now)) entry.now.instance) }
    {
        let own = kept_of_name(&entry.groups, "general");
        let services_own = self.services_general_at_boot(&entry.instance.name, none_has);
        setting_by(self.alloc, own, services_own)
    }

    fn instance_after_boot(
        &self,
        entry: &InstanceEntry,
        none_has: bool,
    ) -> Result<Instance, AllocError>
        requires number { entry.now.instance.row.number < greatest_number }
        requires known { none_has ≡ true → no_service_has self.now.services general ≡ true }
        requires own { entry.now.groups ≡ groups_of self.now (Owner.Instance entry.now.instance.number) }
        ensures { IfOk result (λ i. i ≡ instance_after_boot (persistent (groups_of self.now)) entry.now.instance) }
    {
        let owner = owner_by(self.alloc, self.setting_at_boot(entry, none_has)?)?;
        let mut instance = entry.instance.clone()?;
        let row = booted_row(instance.row.to_row()?, owner);
        instance.row = SharedRow::of(self.alloc, row)?;
        Ok(instance)
    }

    /// Every instance begins anew.
    fn boot_all(&self, mut changes: Items<Change>) -> Result<Items<Change>, AllocError>
        requires { list_any is_last_number (instances self.now) ≡ false }
        ensures { IfOk result (λ all. all ≡
            changes ++ all_booted (persistent (groups_of self.now)) (instances self.now)) }
    {
        let entries = self.tables.entries();
        let none_has = self.tables.no_service_has("general");
        for entry in entries {
            let next = self.instance_after_boot(entry, none_has)?;
            changes.push(Change::PutInstance(next))?;
        }
        Ok(changes)
    }

    /// The changes of a boot: every restarter is launched again, groups go, every instance begins anew.
    fn changes_for_boot(&self) -> Result<Items<Change>, AllocError>
        requires { may_not_boot self.now ≡ false }
        ensures { IfOk result (λ all. all ≡ changes_for_boot self.now) }
    {
        let changes = relaunch(Items::new(self.alloc), self.tables.launches())?;
        let changes = keep_of_services(self.alloc, changes, self.tables.services())?;
        let changes = keep_of_instances(self.alloc, changes, self.tables.entries())?;
        self.boot_all(changes)
    }

    pub(crate) fn may_not_boot(&self) -> bool
        ensures { result ≡ may_not_boot self.now }
    {
        any_last_launch(self.tables.launches()) || any_last_number(self.tables.entries())
    }

    /// Plans a boot of the machine. It is refused if a launch or a row has no next number.
    #[tactic(auto, unfolding(crate::specs::Next::asked_boot))]
    pub(crate) fn boot(&self) -> Asked
        ensures { IfOk result (λ r. r ≡ asked_boot self.now) }
    {
        if self.may_not_boot() {
            return self.refusal_with(CommandReply::Limit);
        }
        let changes = self.changes_for_boot()?;
        self.acceptance_with(changes, CommandReply::Done)
    }

    pub(crate) fn delete_service(&self, name: &ServiceFmri) -> Asked
        ensures { IfOk result (λ r. r ≡ asked_delete_service self.now (service self.now name.now)) }
    {
        let Some(service) = self.tables.service(name) else {
            return self.refusal_with(CommandReply::NoSuch);
        };
        if has_instance(self.alloc, &service.name, self.tables.entries())? {
            return self.refusal_with(CommandReply::InUse);
        }
        let change = Change::DropService(service.name.clone()?);
        self.one(change, CommandReply::Done)
    }
}
