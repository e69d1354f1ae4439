ghost use Rattle.std.specs.Option.{option_copied};
ghost use Rattle.std.specs.Prelude.{◌≡◌, ◌==◌, if◌then◌else◌, length, IfOk, Ok};
ghost use Rattle.smf_fmri.specs.Name.{name_of_text};
ghost use Rattle.smf_model.specs.Look.{group, groups_of};
ghost use Rattle.smf_model.specs.GeneralGroup.{current, is_instance_enabled, enabled_property, is_readable, is_true};
ghost use Rattle.smf_model.specs.GeneralGroup.{named_restarter, owned_by_setting, owner_by, property_in, property_of_either};
ghost use Rattle.smf_state.specs.OwnName.{startd};
ghost use Rattle.smf_model.specs.GeneralGroup.{service_fmri, set_by, setting, setting_by, setting_of, truth_of};

use crate::held::{Instance, Owner};
use crate::planner::Planner;
use smf_fmri::{Fmri, FmriFault, InstanceFmri, Number, ServiceFmri};
use smf_state::{SharedRow, startd};
use smf_value::{Group, Property, Value};
use std::alloc::{AllocError, Global};

/// The setting that `general/restarter` gives.
#[derive(Drop)]
pub enum Setting {
    /// Nothing, so svc.startd runs the instance.
    Unset,
    Restarter(InstanceFmri),
    /// Something that is no instance: a fault of the instance, which svc.startd runs.
    Unreadable,
}

/// A property of a group, if it is there.
fn property_in<'a>(group: Option<&'a Group>, name: &str) -> Option<&'a Property>
    ensures { option_copied result ≡ property_in (option_copied group.entry) name.now }
{
    match group {
        None => None,
        Some(group) => group.find(name),
    }
}

/// A property of the group of an instance, else of that of its service.
fn property_of_either<'a>(
    own: Option<&'a Group>,
    services_own: Option<&'a Group>,
    name: &str,
) -> Option<&'a Property>
    ensures { option_copied result ≡
        property_of_either (option_copied own.entry) (option_copied services_own.entry) name.now }
{
    match property_in(own, name) {
        Some(property) => Some(property),
        None => property_in(services_own, name),
    }
}

/// The service of an instance of this name.
pub(crate) fn service_of(alloc: Global, name: &InstanceFmri) -> Result<ServiceFmri, AllocError>
    ensures { IfOk result (λ service. service ≡ service_fmri name.now) }
{
    name.as_fmri().service_fmri(alloc)
}

/// The service of an instance, as the owner of groups.
pub(crate) fn service_owner(alloc: Global, name: &InstanceFmri) -> Result<Owner, AllocError>
    ensures { IfOk result (λ owner. owner ≡ Owner.Service (service_fmri name.now)) }
{
    let service = service_of(alloc, name)?;
    Ok(Owner::Service(service))
}

/// The property that says whether an instance is enabled.
pub(crate) fn enabled_property<'a>(
    ovr: Option<&'a Group>,
    own: Option<&'a Group>,
    services_own: Option<&'a Group>,
) -> Option<&'a Property>
    ensures { option_copied result ≡
        enabled_property (option_copied ovr.entry) (option_copied own.entry) (option_copied services_own.entry) }
{
    match property_in(ovr, "enabled") {
        Some(property) => Some(property),
        None => property_of_either(own, services_own, "enabled"),
    }
}

/// One boolean says so; anything else is false.
pub(crate) fn is_true(property: Option<&Property>) -> bool
    ensures { result ≡ is_true (option_copied property.entry) }
{
    match property {
        Some(property) => truth_of(property.values()),
        None => false,
    }
}

fn truth_of(values: &[Value]) -> bool
    ensures { result ≡ truth_of values.now }
{
    match values {
        [Value::Boolean(b)] => *b,
        _ => false,
    }
}

fn setting_of(alloc: Global, values: &[Value]) -> Result<Setting, AllocError>
    ensures { IfOk result (λ s. s ≡ setting_of values.now) }
{
    match values {
        [] => Ok(Setting::Unset),
        [Value::Fmri(name)] => Ok(setting_of_fmri(name.clone()?)),
        [Value::Astring(text)] => setting_of_text(alloc, text.as_str()),
        _ => Ok(Setting::Unreadable),
    }
}

fn setting_of_text(alloc: Global, text: &str) -> Result<Setting, AllocError>
    ensures { IfOk result
        (λ s. s ≡ (if length text.now == 0 then Setting.Unset else named_restarter (name_of_text text.now))) }
{
    if text.is_empty() {
        return Ok(Setting::Unset);
    }
    match Fmri::parse(alloc, text) {
        Ok(name) => Ok(setting_of_fmri(name)),
        Err(FmriFault::Memory) => Err(AllocError),
        Err(_) => Ok(Setting::Unreadable),
    }
}

fn setting_of_fmri(name: Fmri) -> Setting
    ensures { result ≡ named_restarter (Ok name) }
{
    match InstanceFmri::of(name) {
        Some(name) => Setting::Restarter(name),
        None => Setting::Unreadable,
    }
}

/// The setting that the groups `general` of an instance and of its service give.
pub(crate) fn setting_by(
    alloc: Global,
    own: Option<&Group>,
    services_own: Option<&Group>,
) -> Result<Setting, AllocError>
    ensures { IfOk result (λ s. s ≡ setting_by (option_copied own.entry) (option_copied services_own.entry)) }
{
    set_by(alloc, property_of_either(own, services_own, "restarter"))
}

fn set_by(alloc: Global, property: Option<&Property>) -> Result<Setting, AllocError>
    ensures { IfOk result (λ s. s ≡ set_by (option_copied property.entry)) }
{
    match property {
        Some(property) => setting_of(alloc, property.values()),
        None => Ok(Setting::Unset),
    }
}

pub(crate) fn is_readable(setting: &Setting) -> bool
    ensures { result ≡ is_readable setting.now }
{
    !matches!(setting, Setting::Unreadable)
}

/// The restarter that a setting names, or svc.startd if it names none.
pub(crate) fn owner_by(alloc: Global, setting: Setting) -> Result<InstanceFmri, AllocError>
    ensures { IfOk result (λ name. name ≡ owner_by setting) }
{
    match setting {
        Setting::Restarter(name) => Ok(name),
        _ => startd(alloc),
    }
}

/// A row with another owner.
pub(crate) fn owned_by(
    alloc: Global,
    row: &SharedRow,
    owner: InstanceFmri,
) -> Result<SharedRow, AllocError>
    ensures { IfOk result (λ r. r ≡ record row.now { owner = owner }) }
{
    let mut row = row.to_row()?;
    row.owner = owner;
    SharedRow::of(alloc, row)
}

/// The row of an instance as it is read: while its number is 0 its owner is what a setting says.
pub(crate) fn row_by(
    alloc: Global,
    instance: &Instance,
    setting: Setting,
) -> Result<SharedRow, AllocError>
    ensures { IfOk result (λ row.
        row ≡ (owned_by_setting (instance.now.row.number == 0) setting instance.now).row) }
{
    if instance.row.number != 0 {
        return instance.row.clone();
    }
    let owner = owner_by(alloc, setting)?;
    owned_by(alloc, &instance.row, owner)
}

impl Planner<'_> {
    /// The group of a name of an owner.
    #[tactic(auto, unfolding(crate::specs::Look::groups_of))]
    pub(crate) fn group_of(&self, owner: &Owner, name: &str) -> Option<&Group>
        ensures { option_copied result ≡ group self.now owner.now name.now }
    {
        match self.tables.groups_if_there(owner) {
            None => None,
            Some(groups) => groups.get_text(name),
        }
    }

    /// The group of a name of the service of an instance.
    #[tactic(auto, unfolding(crate::specs::Look::groups_of))]
    pub(crate) fn services_group(&self, instance: &InstanceFmri, name: &str) -> Option<&Group>
        ensures { option_copied result ≡
            group self.now (Owner.Service (service_fmri instance.now)) name.now }
    {
        match self.tables.service_named(instance.as_fmri().service_text()) {
            None => None,
            Some(service) => service.groups.get_text(name),
        }
    }

    /// The group of a name of an instance.
    pub(crate) fn own_group(&self, number: Number, name: &str) -> Option<&Group>
        ensures { option_copied result ≡ group self.now (Owner.Instance number) name.now }
    {
        self.group_of(&Owner::Instance(number), name)
    }

    /// True if an instance is enabled, by `general_ovr/enabled`, else by `general/enabled`.
    #[tactic(auto, unfolding(crate::specs::GeneralGroup::is_instance_enabled))]
    pub(crate) fn is_instance_enabled(&self, instance: &Instance) -> Result<bool, AllocError>
        ensures { IfOk result (λ b. b ≡ is_instance_enabled (groups_of self.now) instance.now) }
    {
        let ovr = self.own_group(instance.number, "general_ovr");
        let general = self.own_group(instance.number, "general");
        let services_own = self.services_group(&instance.name, "general");
        Ok(is_true(enabled_property(ovr, general, services_own)))
    }

    /// The setting that `general/restarter` gives an instance.
    #[tactic(auto, unfolding(crate::specs::GeneralGroup::setting))]
    pub(crate) fn setting_for(&self, instance: &Instance) -> Result<Setting, AllocError>
        ensures { IfOk result (λ s. s ≡ setting (groups_of self.now) instance.now) }
    {
        let general = self.own_group(instance.number, "general");
        let services_own = self.services_group(&instance.name, "general");
        setting_by(self.alloc, general, services_own)
    }

    /// The restarter that `general/restarter` of an instance names.
    pub(crate) fn owner_set(&self, instance: &Instance) -> Result<InstanceFmri, AllocError>
        ensures { IfOk result (λ name. name ≡ owner_by (setting (groups_of self.now) instance.now)) }
    {
        let setting = self.setting_for(instance)?;
        owner_by(self.alloc, setting)
    }

    /// The instance as it is read: while its row number is 0 its owner is what `general/restarter` says.
    #[tactic(auto, unfolding(crate::specs::GeneralGroup::current))]
    fn current(&self, mut instance: Instance) -> Result<Instance, AllocError>
        ensures { IfOk result (λ i. i ≡ current (groups_of self.now) instance) }
    {
        if instance.row.number != 0 {
            return Ok(instance);
        }
        let owner = self.owner_set(&instance)?;
        instance.row = owned_by(self.alloc, &instance.row, owner)?;
        Ok(instance)
    }

    /// A copy of an instance that is held, as it is read.
    pub(crate) fn read(&self, instance: &Instance) -> Result<Instance, AllocError>
        ensures { IfOk result (λ i. i ≡ current (groups_of self.now) instance.now) }
    {
        self.current(instance.clone()?)
    }
}
