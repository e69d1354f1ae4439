ghost use Rattle.std.specs.Prelude.{◌≡◌, ◌||◌, ◌<◌, ◌++◌, [], IfOk};
ghost use Rattle.smf_model.specs.Look.{groups_of};
ghost use Rattle.smf_model.specs.Next.{asked_refresh, behind_snapshot, current_instance, may_be_moved};
ghost use Rattle.smf_model.specs.Next.{outcome_of_move, moved_row, outcome_of_refresh, refreshed_row, snapshot_of};
ghost use Rattle.smf_model.specs.Next.{target_by, with_row_and_snapshot, with_snapshot};
ghost use Rattle.smf_model.specs.GeneralGroup.{service_owner as owner_of_service};
ghost use Rattle.smf_state.specs.Rows.{same_state};
ghost use Rattle.smf_snap.specs.Snapshots.{snapshot_groups};

use crate::change::Change;
use crate::command::CommandReply;
use crate::general_group::{Setting, owner_by, service_owner};
use crate::held::{Instance, Owner, Snapshot, StoredSnapshot};
use crate::planner::{Asked, Planner, let_go, with_change};
use bitflags::Flags;
use smf_fmri::limits::{MAX_COUNT, MAX_SNAPSHOT};
use smf_fmri::{InstanceFmri, Items, Number, Ordered};
use smf_snap::take;
use smf_state::{Asks, Row, SharedRow, State};
use smf_value::Group;
use std::alloc::{AllocError, Global};

fn is_one_of(state: State, first: State, second: State) -> bool
    ensures { result ≡ (same_state state first || same_state state second) }
{
    state == first || state == second
}

fn may_be_moved(row: &Row) -> bool
    ensures { result ≡ may_be_moved row.now }
{
    is_one_of(row.state, State::Uninitialized, State::Disabled)
        && row.next.is_none()
        && row.live.is_none()
        && row.side.is_none()
}

/// The restarter that an instance moves to, if it is another one.
fn target_by(
    alloc: Global,
    setting: Setting,
    owner: &InstanceFmri,
) -> Result<Option<InstanceFmri>, AllocError>
    ensures { IfOk result (λ t. t ≡ target_by setting owner.now) }
{
    let named = match setting {
        Setting::Unreadable => return Ok(None),
        Setting::Unset => owner_by(alloc, Setting::Unset)?,
        Setting::Restarter(name) => name,
    };
    if named == *owner {
        Ok(None)
    } else {
        Ok(Some(named))
    }
}

fn refreshed_row(mut row: Row, running: u64, revision: u64, runs: bool) -> Row
    ensures { result ≡ refreshed_row row running revision runs }
{
    row.running = Some(running);
    if runs {
        row.asks.insert(Asks::REFRESH);
        row.refresh = revision;
    }
    row
}

fn moved_row(mut row: Row, running: u64, owner: InstanceFmri) -> Row
    requires { row.number < 0x7fff_ffff_ffff_ffff }
    ensures { result ≡ moved_row row running owner }
{
    row.running = Some(running);
    row.owner = owner;
    row.number += 1;
    row.state = State::Uninitialized;
    row.asks = Asks::NONE;
    row.failed = 0;
    row.cause = None;
    row.launch = 0;
    row.serial = 0;
    row
}

/// Changes, and others after them.
pub(crate) fn append(
    mut changes: Items<Change>,
    others: Items<Change>,
) -> Result<Items<Change>, AllocError>
    ensures { IfOk result (λ all. all ≡ changes ++ others) }
{
    for change in others.into_vec() {
        changes.push(change)?;
    }
    Ok(changes)
}

impl Planner<'_> {
    /// The groups of an owner, as a snapshot keeps them now.
    #[tactic(auto, unfolding(crate::specs::Look::groups_of))]
    fn groups_for_snapshot(&self, owner: &Owner) -> Result<Ordered<Group>, AllocError>
        ensures { IfOk result (λ gs. gs ≡ snapshot_groups (groups_of self.now owner.now)) }
    {
        match self.tables.groups_if_there(owner) {
            None => take(self.alloc, &Ordered::new(self.alloc)),
            Some(groups) => take(self.alloc, groups),
        }
    }

    /// The groups of an instance's service, as a snapshot keeps them now.
    fn taken_of_service(&self, instance: &Instance) -> Result<Ordered<Group>, AllocError>
        ensures { IfOk result (λ gs. gs ≡ snapshot_groups (groups_of self.now (owner_of_service instance.now))) }
    {
        let service = service_owner(self.alloc, &instance.name)?;
        self.groups_for_snapshot(&service)
    }

    /// A snapshot of an instance as it is now, with its bytes.
    fn snapshot_of(&self, instance: &Instance) -> Result<StoredSnapshot, AllocError>
        ensures { IfOk result (λ s. s ≡ snapshot_of self.now instance.now) }
    {
        let service_groups = self.taken_of_service(instance)?;
        let instance_groups = self.groups_for_snapshot(&Owner::Instance(instance.number))?;
        let snapshot = Snapshot {
            number: self.tables.next_snapshot(),
            instance: instance.number,
            service_groups,
            instance_groups,
        };
        let stored = StoredSnapshot::new(self.alloc, snapshot)?;
        Ok(stored)
    }

    /// Takes a snapshot of an instance, if a number is left for it.
    pub(crate) fn with_snapshot(
        &self,
        instance: &Instance,
        changes: Items<Change>,
        reply: CommandReply,
    ) -> Asked
        ensures { IfOk result (λ r. r ≡ with_snapshot self.now instance.now changes reply) }
    {
        let number = self.tables.next_snapshot().get();
        if number > MAX_SNAPSHOT {
            let_go(reply);
            return self.refusal_with(CommandReply::Limit);
        }
        let next = Number::new(number + 1).unwrap();
        match self.behind_snapshot(instance, changes, next) {
            Ok(changes) => self.acceptance_with(changes, reply),
            Err(fault) => {
                let_go(reply);
                Err(fault)
            }
        }
    }

    /// The changes that take a snapshot.
    fn snapshot_changes(
        &self,
        instance: &Instance,
        next: Number,
    ) -> Result<Items<Change>, AllocError>
        ensures { IfOk result (λ all. all ≡ behind_snapshot self.now instance.now next []) }
    {
        let first = Change::AddSnapshot(self.snapshot_of(instance)?);
        let changes = with_change(Items::new(self.alloc), first)?;
        with_change(changes, Change::NextSnapshot(next))
    }

    /// The changes that take a snapshot, and others after them.
    fn behind_snapshot(
        &self,
        instance: &Instance,
        changes: Items<Change>,
        next: Number,
    ) -> Result<Items<Change>, AllocError>
        ensures { IfOk result (λ all. all ≡ behind_snapshot self.now instance.now next changes) }
    {
        let all = self.snapshot_changes(instance, next)?;
        append(all, changes)
    }

    /// Takes a snapshot of an instance, and then puts a new row of it.
    fn with_row_and_snapshot(&self, instance: &Instance, row: Row) -> Asked
        ensures { IfOk result (λ r. r ≡ with_row_and_snapshot self.now instance.now row) }
    {
        let mut after = instance.clone()?;
        after.row = SharedRow::of(self.alloc, row)?;
        let changes = with_change(Items::new(self.alloc), Change::PutInstance(after))?;
        self.with_snapshot(instance, changes, CommandReply::Done)
    }

    fn outcome_of_move(&self, instance: &Instance, owner: InstanceFmri) -> Asked
        ensures { IfOk result (λ r. r ≡ outcome_of_move self.now instance.now owner) }
    {
        if !may_be_moved(&instance.row) {
            return self.refusal_with(CommandReply::InUse);
        }
        let number = instance.row.number;
        if number >= MAX_COUNT {
            return self.refusal_with(CommandReply::Limit);
        }
        let running = self.tables.next_snapshot().get();
        let row = moved_row(instance.row.to_row()?, running, owner);
        self.with_row_and_snapshot(instance, row)
    }

    fn outcome_of_refresh(&self, instance: &Instance, target: Option<InstanceFmri>) -> Asked
        ensures { IfOk result (λ r. r ≡ outcome_of_refresh self.now instance.now target) }
    {
        match target {
            Some(owner) => self.outcome_of_move(instance, owner),
            None => {
                let runs = instance.row.state.runs();
                let revision = self.tables.revision().get() + 1;
                let row = refreshed_row(
                    instance.row.to_row()?,
                    self.tables.next_snapshot().get(),
                    revision,
                    runs,
                );
                self.with_row_and_snapshot(instance, row)
            }
        }
    }

    /// Takes the snapshot `running`, and moves the instance if its restarter is another now.
    pub(crate) fn refresh(&self, number: u64) -> Asked
        ensures { IfOk result (λ r. r ≡ asked_refresh self.now (current_instance self.now number)) }
    {
        let Some(instance) = self.current_instance(number)? else {
            return self.refusal_with(CommandReply::NoSuch);
        };
        let setting = self.setting_for(&instance)?;
        let target = target_by(self.alloc, setting, &instance.row.owner)?;
        self.outcome_of_refresh(&instance, target)
    }
}
