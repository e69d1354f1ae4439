ghost use Rattle.std.specs.Prelude.{◌≡◌, true, codes, filter, map, IfOk};
ghost use Rattle.smf_fmri.specs.ByKey.{put_all};
ghost use Rattle.smf_value.specs.Groups.{by_group};
ghost use Rattle.smf_model.specs.Copied.{holdings_as_read, reads_written};
ghost use Rattle.smf_model.specs.Look.{bare, groups_of};
ghost use Rattle.smf_model.specs.Shown.{all_read, children, composed_groups, composed_of, is_run_by};
ghost use Rattle.smf_model.specs.Shown.{made_group, next_text, rows_of, shown_groups, text_property};
ghost use Rattle.smf_model.specs.Next.{is_instance_of, new_group};
ghost use Rattle.smf_model.specs.GeneralGroup.{current, framework, restarter_name, service_owner as owner_of_service};
ghost use Rattle.smf_state.specs.States.{state_text};
ghost use Rattle.smf_value.specs.Texts.{is_astring};

use crate::boot_changes::is_instance_of;
use crate::change::Change;
use crate::general_group::service_owner;
use crate::group_edits::new_group;
use crate::held::{Instance, InstanceEntry, Owner};
use crate::planner::Planner;
use crate::tables::Tables;
use smf_fmri::{InstanceFmri, Items, Ordered, ServiceFmri};
use smf_state::{Row, State};
use smf_value::{Astring, Group, Name, Property, Value};
use std::alloc::{AllocError, Global};

/// Those that a restarter runs.
fn run_by(
    alloc: Global,
    instances: Vec<Instance>,
    restarter: &InstanceFmri,
) -> Result<Vec<Instance>, AllocError>
    ensures { IfOk result (λ all. all.items ≡ filter (is_run_by restarter.now) instances.items) }
{
    let mut rows = Vec::new(alloc);
    for instance in instances {
        if instance.row.owner == *restarter {
            rows.push(instance)?;
        }
    }
    Ok(rows)
}

/// Those of a service.
fn of_service(
    alloc: Global,
    instances: Vec<Instance>,
    service: &ServiceFmri,
) -> Result<Vec<Instance>, AllocError>
    ensures { IfOk result (λ all. all.items ≡ filter (is_instance_of service.now) instances.items) }
{
    let mut rows = Vec::new(alloc);
    for instance in instances {
        if is_instance_of(alloc, service, &instance)? {
            rows.push(instance)?;
        }
    }
    Ok(rows)
}

fn text_property(alloc: Global, name: Name, text: &str) -> Result<Property, AllocError>
    requires { is_astring text.now ≡ true }
    ensures { IfOk result (λ p. p ≡ text_property name text.now) }
{
    Property::single(alloc, name, Value::Astring(Astring::new(alloc, text)?))
}

#[tactic(auto, using(crate::proofs::States::state_is_text))]
fn state_property(alloc: Global, state: State) -> Result<Property, AllocError>
    ensures { IfOk result (λ p. p ≡ text_property (codes "state") (state_text state)) }
{
    text_property(alloc, Name::new(alloc, "state")?, state.text())
}

#[tactic(auto, using(crate::proofs::States::state_is_text))]
fn next_property(alloc: Global, next: Option<State>) -> Result<Property, AllocError>
    ensures { IfOk result (λ p. p ≡ text_property (codes "next_state") (next_text next)) }
{
    let name = Name::new(alloc, "next_state")?;
    match next {
        None => text_property(alloc, name, "none"),
        Some(state) => text_property(alloc, name, state.text()),
    }
}

/// The group `restarter`, before its properties are put.
fn no_properties(alloc: Global) -> Result<Group, AllocError>
    ensures { IfOk result (λ g. g ≡ new_group restarter_name framework true) }
{
    let name = Name::new(alloc, "restarter")?;
    let group_type = Name::new(alloc, "framework")?;
    Ok(new_group(alloc, name, group_type, true))
}

/// The group `restarter` of an instance, made from its row.
fn made_group(alloc: Global, row: &Row) -> Result<Group, AllocError>
    ensures { IfOk result (λ g. g ≡ made_group row.now) }
{
    let next = next_property(alloc, row.next)?;
    let state = state_property(alloc, row.state)?;
    let mut group = no_properties(alloc)?;
    match group.put(next) {
        Ok(()) => {}
        Err(_) => return Err(AllocError),
    }
    match group.put(state) {
        Ok(()) => Ok(group),
        Err(_) => Err(AllocError),
    }
}

/// Puts copies of groups among others, each over the one that has its name.
fn put_copies(into: Ordered<Group>, groups: &[Group]) -> Result<Ordered<Group>, AllocError>
    ensures { IfOk result (λ gs. gs ≡ put_all by_group groups.now into) }
{
    let mut all = into;
    for group in groups {
        all.put(group.clone()?)?;
    }
    Ok(all)
}

impl Planner<'_> {
    /// All instances as they are read.
    pub(crate) fn all_read(&self) -> Result<Vec<Instance>, AllocError>
        ensures { IfOk result (λ all. all.items ≡ all_read self.now) }
    {
        self.read_each(self.tables.entries())
    }

    fn read_each(&self, entries: &[InstanceEntry]) -> Result<Vec<Instance>, AllocError>
        ensures { IfOk result (λ all. all.items ≡ map (current (groups_of self.now)) (bare entries.now)) }
    {
        let mut all = Vec::new(self.alloc);
        for entry in entries {
            all.push(self.read(&entry.instance)?)?;
        }
        Ok(all)
    }

    /// The changes that write each instance as it is read.
    fn reads_written(&self, entries: &[InstanceEntry]) -> Result<Items<Change>, AllocError>
        ensures { IfOk result (λ all. all ≡ reads_written (groups_of self.now) entries.now) }
    {
        let mut all = Items::new(self.alloc);
        for entry in entries {
            let shown = self.read(&entry.instance)?;
            all.push(Change::PutInstance(shown))?;
        }
        Ok(all)
    }

    /// All that is held, each instance as it is read.
    pub(crate) fn holdings_as_read(&self) -> Result<Tables, AllocError>
        ensures { IfOk result (λ copy. copy ≡ holdings_as_read self.now) }
    {
        let changes = self.reads_written(self.tables.entries())?;
        let mut copy = self.tables.clone()?;
        copy.make(changes)?;
        Ok(copy)
    }

    /// The instances that a restarter runs.
    #[tactic(auto, unfolding(crate::specs::Shown::rows_of))]
    pub(crate) fn rows_of(&self, restarter: &InstanceFmri) -> Result<Items<Instance>, AllocError>
        ensures { IfOk result (λ all. all ≡ rows_of self.now restarter.now) }
    {
        let rows = run_by(self.alloc, self.all_read()?, restarter)?;
        Ok(Items::from_vec(rows))
    }

    /// The instances of a service.
    #[tactic(auto, unfolding(crate::specs::Shown::children))]
    pub(crate) fn children(&self, service: &ServiceFmri) -> Result<Items<Instance>, AllocError>
        ensures { IfOk result (λ all. all ≡ children self.now service.now) }
    {
        let rows = of_service(self.alloc, self.all_read()?, service)?;
        Ok(Items::from_vec(rows))
    }

    /// The groups of an owner, an instance's made one among them.
    #[tactic(auto, unfolding(crate::specs::Shown::shown_groups))]
    pub(crate) fn shown_groups(&self, owner: &Owner) -> Result<Ordered<Group>, AllocError>
        ensures { IfOk result (λ gs. gs ≡ shown_groups self.now owner.now) }
    {
        let mut groups = self.groups_of(owner)?;
        let Owner::Instance(number) = owner else {
            return Ok(groups);
        };
        match self.tables.instance(number.get()) {
            None => Ok(groups),
            Some(instance) => {
                groups.put(made_group(self.alloc, &instance.row)?)?;
                Ok(groups)
            }
        }
    }

    /// A copy of the groups of an instance's service.
    fn services_groups(&self, instance: &Instance) -> Result<Ordered<Group>, AllocError>
        ensures { IfOk result (λ gs. gs ≡ groups_of self.now (owner_of_service instance.now)) }
    {
        let service = service_owner(self.alloc, &instance.name)?;
        self.groups_of(&service)
    }

    /// The groups that an instance has: its own, else those of its service.
    fn composed_of(&self, instance: &Instance) -> Result<Ordered<Group>, AllocError>
        ensures { IfOk result (λ gs. gs ≡ composed_of self.now instance.now) }
    {
        let own = self.groups_of(&Owner::Instance(instance.number))?;
        let services_own = self.services_groups(instance)?;
        put_copies(services_own, own.as_slice())
    }

    /// The groups that the instance of a number has, or none if there is no such instance.
    #[tactic(auto, unfolding(crate::specs::Shown::composed_groups))]
    pub(crate) fn composed_groups(&self, number: u64) -> Result<Option<Ordered<Group>>, AllocError>
        ensures { IfOk result (λ gs. gs ≡ composed_groups self.now number) }
    {
        match self.tables.instance(number) {
            None => Ok(None),
            Some(instance) => {
                let all = self.composed_of(instance)?;
                Ok(Some(all))
            }
        }
    }
}
