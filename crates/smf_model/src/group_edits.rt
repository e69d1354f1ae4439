ghost use Rattle.std.specs.Prelude.{◌≡◌, ◌∷◌, [], true, nat_eq, IfOk, None, count_by, Ok};
ghost use Rattle.smf_fmri.specs.ByKey.{without};
ghost use Rattle.smf_model.specs.GeneralGroup.{general, general_ovr};
ghost use Rattle.std.specs.Cmp.Lexicographic.{pointwise};
ghost use Rattle.smf_value.specs.Groups.{by_group};
ghost use Rattle.smf_value.specs.Edits.{Answers, Leaves};
ghost use Rattle.smf_model.specs.OwnerChanges.{IsVerdict};
ghost use Rattle.smf_model.specs.Look.{group, groups_of};
ghost use Rattle.smf_model.specs.Next.{acceptance_with, added_group, asked_add_group, asked_delete_group};
ghost use Rattle.smf_model.specs.Next.{asked_for_good, asked_for_now, asked_property, asked_enable};
ghost use Rattle.smf_model.specs.Next.{enabled_for_good, enabled_for_now, enabled_property, enabling_of, current_instance};
ghost use Rattle.smf_model.specs.Next.{group_dropped, group_enabled, group_or_new, group_put};
ghost use Rattle.smf_model.specs.Next.{has_room, if_general, is_other_group, is_there, new_group, property_changed};
ghost use Rattle.smf_model.specs.Next.{with_owners};

use crate::change::Change;
use crate::command::{CommandReply, PropertyChange};
use crate::held::Owner;
use crate::instance_edits::is_made;
use crate::planner::{Asked, Planner};
use smf_fmri::limits::MAX_GROUPS;
use smf_fmri::{Number, Ordered};
use smf_value::{Group, GroupFault, GroupFlags, Name, Property, Value};
use std::alloc::{AllocError, Global};

fn is_other_group(first: &str, second: &str, group: &Group) -> bool
    ensures { result ≡ is_other_group first.now second.now group.now }
{
    group.name().as_str() != first && group.name().as_str() != second
}

fn other_count(groups: &[Group], first: &str, second: &str) -> usize
    ensures { result ≡ count_by (is_other_group first.now second.now) groups.now }
{
    groups
        .iter()
        .filter(|group| is_other_group(first, second, group))
        .count()
}

fn make_change(alloc: Global, of: &mut Group, change: &PropertyChange) -> Result<(), GroupFault>
    ensures { Leaves result (property_changed change.now of.old) of.old of.new }
{
    match change {
        PropertyChange::Set { name, kind, values } => of.set(alloc, name, *kind, values.as_slice()),
        PropertyChange::AddValue { name, kind, value } => {
            of.add_value(alloc, name, *kind, value.as_str())
        }
        PropertyChange::DeleteValue { name, value } => of.del_value(alloc, name, value.as_str()),
        PropertyChange::Delete { name } => of.del(name),
    }
}

fn property_changed(
    alloc: Global,
    mut of: Group,
    change: &PropertyChange,
) -> Result<Group, GroupFault>
    ensures { Answers (λ g. g) result (property_changed change.now of) }
{
    make_change(alloc, &mut of, change)?;
    Ok(of)
}

fn enabled_property(alloc: Global, enabled: bool) -> Result<Property, AllocError>
    ensures { IfOk result (λ p. p ≡ enabled_property enabled) }
{
    let name = Name::new(alloc, "enabled")?;
    Property::single(alloc, name, Value::Boolean(enabled))
}

/// The property `enabled`, put into a group.
fn with_enabled(alloc: Global, mut into: Group, enabled: bool) -> Result<Group, GroupFault>
    ensures { Answers (λ g. g) result (group_enabled enabled into) }
{
    let property = enabled_property(alloc, enabled)?;
    into.put(property)?;
    Ok(into)
}

/// Why an edit is refused, unless memory ran out.
fn verdict_of(fault: GroupFault) -> Result<GroupFault, AllocError>
    ensures { IfOk result (λ f. IsVerdict f fault) }
{
    match fault {
        GroupFault::Memory => Err(AllocError),
        GroupFault::NoSuch => Ok(GroupFault::NoSuch),
        GroupFault::NeedsKind => Ok(GroupFault::NeedsKind),
        GroupFault::KindDiffers => Ok(GroupFault::KindDiffers),
        GroupFault::TooLong => Ok(GroupFault::TooLong),
        GroupFault::NotA(kind) => Ok(GroupFault::NotA(kind)),
        GroupFault::Range => Ok(GroupFault::Range),
        GroupFault::Full => Ok(GroupFault::Full),
    }
}

/// True if a group of this name says which restarter an instance has.
fn is_general(name: &Name) -> bool
    ensures { result ≡ pointwise nat_eq name.now general }
{
    name.as_str() == "general"
}

/// A group without properties.
pub(crate) fn new_group(alloc: Global, name: Name, group_type: Name, non_persistent: bool) -> Group
    ensures { result ≡ new_group name group_type non_persistent }
{
    if non_persistent {
        Group::new(alloc, name, group_type, GroupFlags::NON_PERSISTENT)
    } else {
        Group::new(alloc, name, group_type, GroupFlags::NONE)
    }
}

impl Planner<'_> {
    /// True if an owner has room for a group of one of two names.
    #[tactic(auto, unfolding(crate::specs::Look::groups_of))]
    fn has_room(&self, owner: &Owner, first: &str, second: &str) -> bool
        ensures { result ≡ has_room self.now owner.now first.now second.now }
    {
        match self.tables.groups_if_there(owner) {
            None => true,
            Some(groups) => other_count(groups.as_slice(), first, second) < MAX_GROUPS,
        }
    }

    /// True if an owner has room for a group of a name.
    fn has_room_for(&self, owner: &Owner, name: &str) -> bool
        ensures { result ≡ has_room self.now owner.now name.now name.now }
    {
        self.has_room(owner, name, name)
    }

    /// True if an instance has room for a group of one of two names.
    fn has_own_room(&self, number: Number, first: &str, second: &str) -> bool
        ensures { result ≡ has_room self.now (Owner.Instance number) first.now second.now }
    {
        self.has_room(&Owner::Instance(number), first, second)
    }

    /// A copy of the groups of an owner.
    #[tactic(auto, unfolding(crate::specs::Look::groups_of))]
    pub(crate) fn groups_of(&self, owner: &Owner) -> Result<Ordered<Group>, AllocError>
        ensures { IfOk result (λ gs. gs ≡ groups_of self.now owner.now) }
    {
        match self.tables.groups_if_there(owner) {
            None => Ok(Ordered::new(self.alloc)),
            Some(groups) => groups.clone(),
        }
    }

    /// Adds a group without properties.
    pub(crate) fn add_new_group(
        &self,
        owner: &Owner,
        name: &Name,
        group_type: &Name,
        non_persistent: bool,
    ) -> Asked
        ensures { IfOk result (λ r. r ≡
            asked_add_group self.now owner.now (new_group name.now group_type.now non_persistent)) }
    {
        let name = name.clone()?;
        let group_type = group_type.clone()?;
        self.add_group(
            owner,
            new_group(self.alloc, name, group_type, non_persistent),
        )
    }

    fn add_group(&self, owner: &Owner, new: Group) -> Asked
        ensures { IfOk result (λ r. r ≡ asked_add_group self.now owner.now new) }
    {
        if !self.is_there(owner) {
            return self.refusal_with(CommandReply::NoSuch);
        }
        if is_made(owner, new.name()) {
            return self.refusal_with(CommandReply::InUse);
        }
        match self.group_of(owner, new.name().as_str()) {
            Some(_) => self.refusal_with(CommandReply::Exists),
            None => self.put_where_room(owner, new),
        }
    }

    fn put_where_room(&self, owner: &Owner, new: Group) -> Asked
        ensures { IfOk result (λ r. r ≡ added_group self.now owner.now new None) }
    {
        if self.has_room_for(owner, new.name().as_str()) {
            self.put(owner, new)
        } else {
            self.refusal_with(CommandReply::Limit)
        }
    }

    /// Puts a group in its place.
    fn put(&self, owner: &Owner, new: Group) -> Asked
        ensures { IfOk result (λ r. r ≡ acceptance_with self.now (group_put self.now owner.now new ∷ []) CommandReply.Done) }
    {
        let mut groups = self.groups_of(owner)?;
        groups.put(new)?;
        let change = Change::PutGroups(owner.clone()?, groups);
        self.one(change, CommandReply::Done)
    }

    /// Puts groups in place of those of an owner, after an edit of its group of this name.
    fn put_edited(&self, owner: &Owner, name: &Name, groups: Ordered<Group>) -> Asked
        requires { is_there self.now owner.now ≡ true }
        ensures { IfOk result (λ r. r ≡ with_owners self.now (if_general owner.now name.now)
            (acceptance_with self.now (Change.PutGroups owner.now groups ∷ []) CommandReply.Done)) }
    {
        if is_general(name) {
            self.put_naming(owner, groups)
        } else {
            let change = Change::PutGroups(owner.clone()?, groups);
            self.one(change, CommandReply::Done)
        }
    }

    /// Puts an edited group in its place.
    fn put_changed(&self, owner: &Owner, name: &Name, new: Group) -> Asked
        requires { is_there self.now owner.now ≡ true }
        ensures { IfOk result (λ r. r ≡ with_owners self.now (if_general owner.now name.now)
            (acceptance_with self.now (group_put self.now owner.now new ∷ []) CommandReply.Done)) }
    {
        let mut groups = self.groups_of(owner)?;
        groups.put(new)?;
        self.put_edited(owner, name, groups)
    }

    /// Takes a group out.
    fn drop_group(&self, owner: &Owner, name: &Name) -> Asked
        requires { is_there self.now owner.now ≡ true }
        ensures { IfOk result (λ r. r ≡ with_owners self.now (if_general owner.now name.now)
            (acceptance_with self.now (group_dropped self.now owner.now name.now ∷ []) CommandReply.Done)) }
    {
        let mut groups = self.groups_of(owner)?;
        groups.remove(name);
        self.put_edited(owner, name, groups)
    }

    pub(crate) fn delete_group(&self, owner: &Owner, name: &Name) -> Asked
        ensures { IfOk result (λ r. r ≡ with_owners self.now (if_general owner.now name.now)
            (asked_delete_group self.now owner.now name.now)) }
    {
        if !self.is_there(owner) {
            return self.refusal_with(CommandReply::NoSuch);
        }
        if is_made(owner, name) {
            return self.refusal_with(CommandReply::InUse);
        }
        let Some(_group) = self.group_of(owner, name.as_str()) else {
            return self.refusal_with(CommandReply::NoSuch);
        };
        self.drop_group(owner, name)
    }

    pub(crate) fn change_property(
        &self,
        owner: &Owner,
        name: &Name,
        change: &PropertyChange,
    ) -> Asked
        ensures { IfOk result (λ r. r ≡ with_owners self.now (if_general owner.now name.now)
            (asked_property self.now owner.now name.now change.now)) }
    {
        if !self.is_there(owner) {
            return self.refusal_with(CommandReply::NoSuch);
        }
        if is_made(owner, name) {
            return self.refusal_with(CommandReply::InUse);
        }
        let Some(group) = self.group_of(owner, name.as_str()) else {
            return self.refusal_with(CommandReply::NoSuch);
        };
        match property_changed(self.alloc, group.clone()?, change) {
            Ok(changed) => self.put_changed(owner, name, changed),
            Err(fault) => {
                let fault = verdict_of(fault)?;
                self.refusal_with(CommandReply::Denied(fault))
            }
        }
    }

    /// The group of a name of an instance, or a new one of type framework.
    fn group_or_new(
        &self,
        number: Number,
        name: Name,
        non_persistent: bool,
    ) -> Result<Group, AllocError>
        ensures { IfOk result (λ g. g ≡ group_or_new self.now number name non_persistent) }
    {
        match self.own_group(number, name.as_str()) {
            Some(group) => group.clone(),
            None => {
                let framework = Name::new(self.alloc, "framework")?;
                Ok(new_group(self.alloc, name, framework, non_persistent))
            }
        }
    }

    /// Enables or disables an instance for good: `general/enabled`, and no `general_ovr`.
    fn enable_for_good(&self, number: Number, enabled: bool) -> Asked
        ensures { IfOk result (λ r. r ≡ asked_for_good self.now number enabled) }
    {
        let name = Name::new(self.alloc, "general")?;
        let general = self.group_or_new(number, name, false)?;
        match with_enabled(self.alloc, general, enabled) {
            Err(GroupFault::Memory) => Err(AllocError),
            Err(fault) => self.refusal_with(CommandReply::Denied(fault)),
            Ok(general) => self.put_for_good(number, general),
        }
    }

    fn put_for_good(&self, number: Number, general: Group) -> Asked
        ensures { IfOk result (λ r. r ≡ enabled_for_good self.now number (Ok general)) }
    {
        if !self.has_own_room(number, "general", "general_ovr") {
            return self.refusal_with(CommandReply::Limit);
        }
        let change = self.change_of_enable(number, general)?;
        self.one(change, CommandReply::Done)
    }

    /// A copy of the groups of an instance but for `general_ovr`.
    fn lasting_groups(&self, number: Number) -> Result<Ordered<Group>, AllocError>
        ensures { IfOk result (λ gs. gs ≡
            without by_group general_ovr (groups_of self.now (Owner.Instance number))) }
    {
        let name = Name::new(self.alloc, "general_ovr")?;
        let mut groups = self.groups_of(&Owner::Instance(number))?;
        groups.remove(&name);
        Ok(groups)
    }

    /// A group put in its place, and `general_ovr` gone.
    fn change_of_enable(&self, number: Number, group: Group) -> Result<Change, AllocError>
        ensures { IfOk result (λ c. c ≡ enabling_of self.now (Owner.Instance number) group) }
    {
        let mut groups = self.lasting_groups(number)?;
        groups.put(group)?;
        Ok(Change::PutGroups(Owner::Instance(number), groups))
    }

    /// Enables or disables an instance until the next boot: `general_ovr/enabled`.
    fn enable_for_now(&self, number: Number, enabled: bool) -> Asked
        ensures { IfOk result (λ r. r ≡ asked_for_now self.now number enabled) }
    {
        let name = Name::new(self.alloc, "general_ovr")?;
        let present = self.group_or_new(number, name, true)?;
        self.write_for_now(number, present, enabled)
    }

    fn write_for_now(&self, number: Number, present: Group, enabled: bool) -> Asked
        ensures { IfOk result (λ r. r ≡ enabled_for_now self.now number (group_enabled enabled present)) }
    {
        match with_enabled(self.alloc, present, enabled) {
            Err(GroupFault::Memory) => Err(AllocError),
            Err(fault) => self.refusal_with(CommandReply::Denied(fault)),
            Ok(general_ovr) => self.put_for_now(number, general_ovr),
        }
    }

    fn put_for_now(&self, number: Number, ovr: Group) -> Asked
        ensures { IfOk result (λ r. r ≡ enabled_for_now self.now number (Ok ovr)) }
    {
        if !self.has_own_room(number, "general_ovr", "general_ovr") {
            return self.refusal_with(CommandReply::Limit);
        }
        self.put(&Owner::Instance(number), ovr)
    }

    pub(crate) fn enable(&self, number: u64, enabled: bool, temporary: bool) -> Asked
        ensures { IfOk result (λ r. r ≡ asked_enable self.now enabled temporary (current_instance self.now number)) }
    {
        match self.current_instance(number)? {
            None => self.refusal_with(CommandReply::NoSuch),
            Some(instance) if temporary => self.enable_for_now(instance.number, enabled),
            Some(instance) => self.enable_for_good(instance.number, enabled),
        }
    }
}
