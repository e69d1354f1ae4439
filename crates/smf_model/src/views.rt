ghost use Rattle.std.specs.Option.{option_copied};
ghost use Rattle.std.specs.Prelude.{◌≡◌, map, option_map, true, IfOk};
ghost use Rattle.smf_model.specs.Look.{group, groups_of, instance, instances, no_service_has};
ghost use Rattle.smf_model.specs.Next.{named_snapshot};
ghost use Rattle.smf_model.specs.GeneralGroup.{general, service_fmri};
ghost use Rattle.smf_model.specs.Shown.{body_of, row_item, rows, snapshot_names};
ghost use Rattle.smf_model.specs.Shown.{snapshot_number, snapshots_of, view, view_item};

use crate::general_group::{enabled_property, is_readable, is_true, row_by, setting_by};
use crate::held::{Instance, InstanceEntry, Owner};
use crate::planner::Planner;
use crate::reverts::number_of;
use smf_fmri::{Bytes, InstanceFmri, Items, Ordered, SharedOrdered};
use smf_snap::{SnapshotName, names};
use smf_state::{View, ViewItem};
use smf_value::Group;
use std::alloc::{AllocError, Global};

fn snapshot_names(alloc: Global, instance: &Instance) -> Result<Items<SnapshotName>, AllocError>
    ensures { IfOk result (λ all. all ≡ snapshot_names instance.now) }
{
    let previous = number_of(instance, SnapshotName::Previous);
    let running = number_of(instance, SnapshotName::Running);
    let start = number_of(instance, SnapshotName::Start);
    names(alloc, previous, running, start)
}

impl Planner<'_> {
    /// The names of the snapshots that an instance has.
    #[tactic(auto, unfolding(crate::specs::Shown::snapshots_of))]
    pub(crate) fn snapshots_of(
        &self,
        number: u64,
    ) -> Result<Option<Items<SnapshotName>>, AllocError>
        ensures { IfOk result (λ all. all ≡ snapshots_of self.now number) }
    {
        match self.tables.instance(number) {
            None => Ok(None),
            Some(instance) => {
                let all = snapshot_names(self.alloc, instance)?;
                Ok(Some(all))
            }
        }
    }

    /// Which snapshot a name means.
    #[tactic(auto, unfolding(crate::specs::Shown::snapshot_number))]
    pub(crate) fn snapshot_number(&self, number: u64, name: SnapshotName) -> Option<u64>
        ensures { result ≡ snapshot_number self.now number name }
    {
        match self.tables.instance(number) {
            None => None,
            Some(instance) => number_of(instance, name),
        }
    }

    /// The bytes of a snapshot, if there is one.
    fn body_at(&self, number: Option<u64>) -> Result<Option<Bytes>, AllocError>
        ensures { IfOk result (λ body. body ≡ option_map body_of (named_snapshot self.now number)) }
    {
        match self.named_snapshot(number) {
            None => Ok(None),
            Some(snapshot) => {
                let body = snapshot.body().clone()?;
                Ok(Some(body))
            }
        }
    }

    /// The group `general` of the service of an instance, which is not looked for if no service has one.
    #[tactic(auto, using(crate::proofs::Services::none_of_it))]
    fn services_general(&self, instance: &InstanceFmri, none_has: bool) -> Option<&Group>
        requires { none_has ≡ true → no_service_has self.now.services general ≡ true }
        ensures { option_copied result ≡
            group self.now (Owner.Service (service_fmri instance.now)) general }
    {
        if none_has {
            None
        } else {
            self.services_group(instance, "general")
        }
    }

    /// An instance as it is read, without the bytes of a snapshot. The groups `general` are looked for once.
    #[tactic(auto, unfolding(crate::specs::GeneralGroup::is_instance_enabled, crate::specs::GeneralGroup::setting, crate::specs::GeneralGroup::current))]
    fn row_item(&self, entry: &InstanceEntry, none_has: bool) -> Result<ViewItem, AllocError>
        requires known { none_has ≡ true → no_service_has self.now.services general ≡ true }
        requires own { entry.now.groups ≡ groups_of self.now (Owner.Instance entry.now.instance.number) }
        ensures { IfOk result (λ item. item ≡ row_item self.now entry.now.instance) }
    {
        let instance = &entry.instance;
        let ovr = entry.groups.get_text("general_ovr");
        let own = entry.groups.get_text("general");
        let services_own = self.services_general(&instance.name, none_has);
        let is_enabled = is_true(enabled_property(ovr, own, services_own));
        let setting = setting_by(self.alloc, own, services_own)?;
        let can_be_read = is_readable(&setting);
        let row = row_by(self.alloc, instance, setting)?;
        let name = instance.name.clone()?;
        Ok(ViewItem {
            instance: instance.number.get(),
            name,
            enabled: is_enabled,
            readable: can_be_read,
            row,
            body: None,
        })
    }

    fn row_items(&self) -> Result<Vec<ViewItem>, AllocError>
        ensures { IfOk result (λ all. all.items ≡ map (row_item self.now) (instances self.now)) }
    {
        let entries = self.tables.entries();
        let none_has = self.tables.no_service_has("general");
        let mut all = Vec::with_capacity(self.alloc, entries.len())?;
        for entry in entries {
            all.push(self.row_item(entry, none_has)?)?;
        }
        Ok(all)
    }

    /// The instances as the graph sees them, but for the bytes of snapshots.
    #[tactic(auto, unfolding(crate::specs::Shown::rows))]
    pub(crate) fn rows(&self) -> Result<Items<ViewItem>, AllocError>
        ensures { IfOk result (λ all. all ≡ rows self.now) }
    {
        let items = self.row_items()?;
        Ok(Items::from_vec(items))
    }

    fn view_item(&self, entry: &InstanceEntry, none_has: bool) -> Result<ViewItem, AllocError>
        requires known { none_has ≡ true → no_service_has self.now.services general ≡ true }
        requires own { entry.now.groups ≡ groups_of self.now (Owner.Instance entry.now.instance.number) }
        ensures { IfOk result (λ item. item ≡ view_item self.now entry.now.instance) }
    {
        let instance = &entry.instance;
        let mut item = self.row_item(entry, none_has)?;
        item.body = self.body_at(instance.row.running)?;
        Ok(item)
    }

    /// The item of the instance of a number. The other services are not looked at.
    pub(crate) fn item_of(&self, number: u64) -> Result<Option<ViewItem>, AllocError>
        ensures { IfOk result (λ i. i ≡ option_map (view_item self.now) (instance self.now number)) }
    {
        match self.tables.entry(number) {
            None => Ok(None),
            Some(entry) => {
                let item = self.view_item(entry, false)?;
                Ok(Some(item))
            }
        }
    }

    fn view_items(&self) -> Result<Ordered<ViewItem>, AllocError>
        ensures { IfOk result (λ all. all ≡ map (view_item self.now) (instances self.now)) }
    {
        let entries = self.tables.entries();
        let none_has = self.tables.no_service_has("general");
        let mut all = Vec::with_capacity(self.alloc, entries.len())?;
        for entry in entries {
            all.push(self.view_item(entry, none_has)?)?;
        }
        Ok(Ordered::from_vec(all))
    }

    /// The repository as svc.startd's graph sees it.
    #[tactic(auto, unfolding(crate::specs::Shown::view))]
    pub(crate) fn view(&self) -> Result<View, AllocError>
        ensures { IfOk result (λ v. v ≡ view self.now) }
    {
        let items = self.view_items()?;
        Ok(View {
            revision: self.tables.revision().get(),
            items: SharedOrdered::of(self.alloc, items)?,
        })
    }
}
