ghost use Rattle.smf_node.specs.Marks.{progress_of};
ghost use Rattle.smf_model.specs.Look.{groups_of};
ghost use Rattle.smf_model.specs.GeneralGroup.{owner_by, setting};
ghost use Rattle.smf_node.specs.Owners.{has_all_owners, has_launched_owner};
ghost use Rattle.smf_node.specs.Rests.{IsInOrder, IsTurnInOrder, numbers_restless, restless_deeds};
ghost use Rattle.smf_world.specs.declared.schedule.Deed.TheVariants as deeds;
ghost use Rattle.smf_world.specs.Schedule.{in_order, launch_deeds, launched_names, owners, new_events, waiting_count, was_heard};
ghost use Rattle.smf_world.specs.Worked.{is_launched, restarter};
ghost use Rattle.std.specs.List.{list_all};
ghost use Rattle.std.specs.Prelude.{◌≡◌, ◌∷◌, ◌++◌, [], drop, filter, map, not, replicate, true, IfOk, OnOk};

use crate::marks::has_key;
use crate::name_order::{names_in_order, owners_in_order};
use crate::node::Node;
use smf_contract::ContractEvent;
use smf_fmri::InstanceFmri;
use smf_model::{Instance, InstanceEntry, Journal};
use smf_state::startd;
use smf_world::{Deed, EventKey, Turn};
use std::alloc::{AllocError, Global};

fn one(alloc: Global, deed: Deed) -> Result<Vec<Deed>, AllocError>
    ensures { IfOk result (λ ds. ds.items ≡ deed ∷ []) }
{
    let mut all = Vec::new(alloc);
    all.push(deed)?;
    Ok(all)
}

fn deliveries(alloc: Global, count: usize) -> Result<Vec<Deed>, AllocError>
    ensures { IfOk result (λ ds. ds.items ≡ replicate count deeds.DeliverNext) }
{
    let mut all = Vec::with_capacity(alloc, count)?;
    for _ in 0..count {
        all.push(Deed::DeliverNext)?;
    }
    Ok(all)
}

fn launches(alloc: Global, names: &[InstanceFmri]) -> Result<Vec<Deed>, AllocError>
    ensures { IfOk result (λ ds. ds.items ≡ map (λ name. deeds.Launch name) names.now) }
{
    let mut all = Vec::new(alloc);
    for name in names {
        all.push(Deed::Launch(name.clone()?))?;
    }
    Ok(all)
}

fn push_report(all: &mut Vec<Deed>, event: &ContractEvent) -> Result<(), AllocError>
    ensures { OnOk result (all.new.items ≡ all.old.items ++ deeds.Report event.now ∷ []) }
{
    all.push(Deed::Report(*event))?;
    Ok(())
}

/// Reports after other deeds.
fn push_reports(all: &mut Vec<Deed>, events: &[ContractEvent]) -> Result<(), AllocError>
    ensures { OnOk result (all.new.items ≡ all.old.items ++ map (λ e. deeds.Report e) events.now) }
{
    for event in events {
        push_report(all, event)?;
    }
    Ok(())
}

/// The events after the first so many.
fn after(events: &[ContractEvent], looked: usize) -> &[ContractEvent]
    ensures { result.now ≡ drop looked events.now }
{
    if looked <= events.len() {
        &events[looked..]
    } else {
        &[]
    }
}

/// True if an event was heard before it was looked at.
fn was_heard(keys: &[EventKey], event: &ContractEvent) -> bool
    ensures { result ≡ was_heard keys.now event.now }
{
    keys.iter().any(|key| has_key(key, event))
}

/// Those of the events that were not.
fn not_heard(
    alloc: Global,
    keys: &[EventKey],
    events: &[ContractEvent],
) -> Result<Vec<ContractEvent>, AllocError>
    ensures { IfOk result (λ all. all.items ≡ filter (λ e. not (was_heard keys.now e)) events.now) }
{
    let mut all = Vec::new(alloc);
    for event in events {
        if !was_heard(keys, event) {
            all.push(*event)?;
        }
    }
    Ok(all)
}

fn ticks(alloc: Global, name: &InstanceFmri, numbers: &[u64]) -> Result<Vec<Deed>, AllocError>
    ensures { IfOk result (λ ds. ds.items ≡ map (λ n. deeds.Tick name.now n) numbers.now) }
{
    let mut all = Vec::new(alloc);
    for number in numbers {
        all.push(Deed::Tick {
            restarter: name.clone()?,
            instance: *number,
        })?;
    }
    Ok(all)
}

impl<J: Journal> Node<J> {
    /// Those of the names whose restarters are launched.
    fn names_of_launched(&self, names: &[InstanceFmri]) -> Result<Vec<InstanceFmri>, AllocError>
        ensures { IfOk result (λ all. all.items ≡ filter (is_launched self.now.world) names.now) }
    {
        let mut all = Vec::new(self.alloc);
        for name in names {
            if self.is_launched(name) {
                all.push(name.clone()?)?;
            }
        }
        Ok(all)
    }

    /// Those of the names whose restarters are not.
    fn not_launched(&self, names: &[InstanceFmri]) -> Result<Vec<InstanceFmri>, AllocError>
        ensures { IfOk result (λ all. all.items ≡ filter (λ name. not (is_launched self.now.world name)) names.now) }
    {
        let mut all = Vec::new(self.alloc);
        for name in names {
            if !self.is_launched(name) {
                all.push(name.clone()?)?;
            }
        }
        Ok(all)
    }

    /// The owners of rows: svc.startd's own first, and then the others in byte order.
    #[tactic(auto, unfolding(crate::specs::Marks::progress_of))]
    fn owners(&self) -> Result<Vec<InstanceFmri>, AllocError>
        ensures { IfOk result (λ all. all.items ≡ in_order (owners self.now.world)) }
    {
        let instances = self.machine.repository().instances()?;
        owners_in_order(self.alloc, instances.as_slice())
    }

    /// The launched restarters: svc.startd's own first, and then the others in byte order.
    pub fn launched_names(&self) -> Result<Vec<InstanceFmri>, AllocError>
        ensures { IfOk result (λ all. all.items ≡ launched_names self.now.world) }
    {
        let names = self.names()?;
        self.names_of_launched(&names)
    }

    #[tactic(auto, unfolding(crate::specs::Marks::progress_of))]
    fn names(&self) -> Result<Vec<InstanceFmri>, AllocError>
        ensures { IfOk result (λ all. all.items ≡ in_order (map (λ k. k.name) self.now.world.restarters)) }
    {
        names_in_order(self.alloc, self.machine.restarters())
    }

    #[tactic(auto, unfolding(crate::specs::Marks::progress_of))]
    fn owner_set(&self, instance: &Instance) -> Result<InstanceFmri, AllocError>
        ensures { IfOk result (λ name. name ≡ owner_by (setting (groups_of self.now.world.now) instance.now)) }
    {
        self.machine.repository().owner_set(instance)
    }

    /// True if the owner of an instance, as it is read, is launched.
    #[tactic(auto, unfolding(smf_model::specs::GeneralGroup::current))]
    fn has_launched_owner(&self, entry: &InstanceEntry) -> Result<bool, AllocError>
        ensures { IfOk result (λ b. b ≡ has_launched_owner self.now.world entry.now) }
    {
        let row = &entry.instance.row;
        if row.number == 0 {
            let owner = self.owner_set(&entry.instance)?;
            return Ok(self.is_launched(&owner));
        }
        Ok(self.is_launched(&row.owner))
    }

    #[tactic(auto, unfolding(crate::specs::Marks::progress_of))]
    fn entries(&self) -> &[InstanceEntry]
        ensures { result.now ≡ self.now.world.now.instances }
    {
        self.machine.repository().entries()
    }

    fn have_launched_owners(&self, entries: &[InstanceEntry]) -> Result<bool, AllocError>
        ensures { IfOk result (λ b. b ≡ list_all (has_launched_owner self.now.world) entries.now) }
    {
        for entry in entries {
            if !self.has_launched_owner(entry)? {
                return Ok(false);
            }
        }
        Ok(true)
    }

    fn are_launched(&self, names: &[InstanceFmri]) -> bool
        ensures { result ≡ list_all (is_launched self.now.world) names.now }
    {
        for name in names {
            if !self.is_launched(name) {
                return false;
            }
        }
        true
    }

    /// True if the owners of all instances are known to be launched, with no look at the instances.
    fn knows_owners(&self) -> bool
        ensures { result ≡ true → list_all (has_launched_owner self.now.world) self.now.world.now.instances ≡ true }
    {
        match self.machine.owners() {
            None => false,
            Some(names) => self.are_launched(names),
        }
    }

    /// True if the owners of all instances are launched, and svc.startd's own restarter. The instances are looked at
    /// only if this is not known without them.
    #[tactic(auto, unfolding(crate::specs::Owners::has_all_owners))]
    pub fn has_all_owners(&self) -> Result<bool, AllocError>
        ensures { IfOk result (λ b. b ≡ has_all_owners self.now.world) }
    {
        let first = startd(self.alloc)?;
        if !self.is_launched(&first) {
            return Ok(false);
        }
        if self.knows_owners() {
            return Ok(true);
        }
        let all = self.have_launched_owners(self.entries())?;
        Ok(all)
    }

    fn owners_to_launch(&self) -> Result<Vec<Deed>, AllocError>
        ensures { IfOk result (λ ds. ds.items ≡ launch_deeds self.now.world (in_order (owners self.now.world))) }
    {
        let owners = self.owners()?;
        let names = self.not_launched(&owners)?;
        launches(self.alloc, &names)
    }

    /// The node puts the owners in order only if one may have to be launched.
    #[tactic(auto, using(crate::proofs::Owners::none_to_launch))]
    fn launch_deeds(&self) -> Result<Vec<Deed>, AllocError>
        ensures { IfOk result (λ ds. ds.items ≡ launch_deeds self.now.world (in_order (owners self.now.world))) }
    {
        if self.has_all_owners()? {
            Ok(Vec::new(self.alloc))
        } else {
            self.owners_to_launch()
        }
    }

    /// How many messages wait.
    fn waiting_count(&self) -> usize
        ensures { result ≡ waiting_count self.now }
    {
        self.sent_count().saturating_sub(self.next()) as usize
    }

    /// The events since the last look, but for those that were heard early.
    #[tactic(auto, unfolding(crate::specs::Marks::progress_of))]
    pub(crate) fn new_events(&self) -> Result<Vec<ContractEvent>, AllocError>
        ensures { IfOk result (λ all. all.items ≡ new_events self.now) }
    {
        let events = self.machine.table().events();
        not_heard(
            self.alloc,
            &self.marks.heard,
            after(events, self.marks.looked),
        )
    }

    #[tactic(auto, unfolding(crate::specs::Marks::progress_of))]
    fn report_deeds(&self) -> Result<Vec<Deed>, AllocError>
        ensures { IfOk result (λ ds. ds.items ≡ map (λ e. deeds.Report e) self.now.unheard) }
    {
        let mut all = Vec::new(self.alloc);
        push_reports(&mut all, &self.marks.unheard)?;
        Ok(all)
    }

    /// The turns of a restarter for those of its instances that are not at rest.
    fn tick_deeds(&self, name: &InstanceFmri) -> Result<Vec<Deed>, AllocError>
        ensures deeds { IfOk result
            (λ ds. ds.items ≡ map (λ n. deeds.Tick name.now n) (numbers_restless (restarter self.now.world name.now))) }
        ensures ordered { IsInOrder (restarter self.now.world name.now) }
    {
        match self.restarter(name) {
            None => Ok(Vec::new(self.alloc)),
            Some(restarter) => ticks(self.alloc, name, restarter.restless()),
        }
    }

    /// The deeds of a turn that was entered, but for the turns of a restarter for instances that are at rest.
    #[tactic(auto, unfolding(crate::specs::Rests::restless_deeds, smf_world::specs::Schedule::deeds_of))]
    pub(crate) fn deeds_of(&self, turn: &Turn) -> Result<Vec<Deed>, AllocError>
        ensures deeds { IfOk result (λ ds. ds.items ≡ restless_deeds self.now turn.now) }
        ensures ordered { IsTurnInOrder self.now.world turn.now }
    {
        match turn {
            Turn::Launches => self.launch_deeds(),
            Turn::Messages => deliveries(self.alloc, self.waiting_count()),
            Turn::Ask => one(self.alloc, Deed::Ask),
            Turn::Orders => one(self.alloc, Deed::Orders),
            Turn::Reports => self.report_deeds(),
            Turn::OwnTick(name) => one(self.alloc, Deed::OwnTick(name.clone()?)),
            Turn::Ticks(name) => self.tick_deeds(name),
        }
    }
}
