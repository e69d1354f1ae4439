//! Whether two repositories have the same configured.

ghost use Rattle.std.specs.List.{AllByRecursion};
ghost use Rattle.std.specs.Option.{option_copied};
ghost use Rattle.std.specs.Prelude.{◌≡◌, ◌↔◌, IfOk, IsTrue, List, ℕ};
ghost use Rattle.smf_model.specs.Next.{kept_groups};
ghost use Rattle.smf_export.specs.Configured.{AreSame, HoldSame, SameInstance, SameService, groups_counted, groups_of_instance, meant};

use crate::choice::Choice;
use smf_fmri::{InstanceFmri, Ordered, ServiceFmri};
use smf_model::{InstanceName, Owner, Service, Tables};
use smf_value::{Group, encode};
use std::alloc::{AllocError, Global};
use std::marker::Model;

/// Which groups count.
#[derive(Clone, Copy, PartialEq, Eq)]
pub enum Extent {
    /// Those that outlast a boot.
    Persistent,
    Every,
}

/// What is compared: two repositories, at the services that are chosen, or at the others.
#[derive(Drop)]
pub(crate) struct Comparison<'a> {
    pub(crate) extent: Extent,
    pub(crate) choice: &'a Choice,
    /// True if the services that are chosen are compared.
    pub(crate) of_chosen: bool,
    pub(crate) one: &'a Tables,
    pub(crate) other: &'a Tables,
}

impl<'a> Model for Comparison<'a> {
    ghost use Rattle.smf_export.specs.Configured.{Compared};

    ghost Value = { Compared };

    ghost view = { λ c. record {
      extent = c.extent;
      choice = c.choice.now;
      of_chosen = c.of_chosen;
      one = c.one.now;
      other = c.other.now;
    } };
}

/// The groups that outlast a boot.
fn kept_groups(groups: &Ordered<Group>) -> Result<Ordered<Group>, AllocError>
    ensures { IfOk result (λ kept. kept ≡ kept_groups groups.now) }
{
    let mut kept = groups.clone()?;
    drop_transient(&mut kept);
    Ok(kept)
}

fn drop_transient(groups: &mut Ordered<Group>)
    ensures { groups.new ≡ kept_groups groups.old }
{
    groups.retain(|group| !group.is_non_persistent());
}

/// The groups that count.
fn groups_counted(extent: Extent, groups: &Ordered<Group>) -> Result<Ordered<Group>, AllocError>
    ensures { IfOk result (λ counted. counted ≡ groups_counted extent groups.now) }
{
    match extent {
        Extent::Persistent => kept_groups(groups),
        Extent::Every => groups.clone(),
    }
}

/// True if two lists of groups are the same. Their bytes tell.
fn are_equal(
    alloc: Global,
    one: &Ordered<Group>,
    other: &Ordered<Group>,
) -> Result<bool, AllocError>
    ensures { IfOk result (λ b. IsTrue b ↔ (one.now ≡ other.now)) }
{
    let one = encode(alloc, one)?;
    let other = encode(alloc, other)?;
    Ok(one == other)
}

fn are_same_groups(
    alloc: Global,
    extent: Extent,
    one: &Ordered<Group>,
    other: &Ordered<Group>,
) -> Result<bool, AllocError>
    ensures { IfOk result (λ b. IsTrue b ↔ (groups_counted extent one.now ≡ groups_counted extent other.now)) }
{
    let one = groups_counted(extent, one)?;
    let other = groups_counted(extent, other)?;
    are_equal(alloc, &one, &other)
}

/// True if an owner is there in neither of two repositories, or in both with the same groups.
fn are_same(
    alloc: Global,
    extent: Extent,
    one: Option<&Ordered<Group>>,
    other: Option<&Ordered<Group>>,
) -> Result<bool, AllocError>
    ensures { IfOk result (λ b. IsTrue b ↔ AreSame extent (option_copied one.entry) (option_copied other.entry)) }
{
    match one {
        None => match other {
            None => Ok(true),
            Some(_) => Ok(false),
        },
        Some(one) => match other {
            None => Ok(false),
            Some(other) => are_same_groups(alloc, extent, one, other),
        },
    }
}

/// The groups of an instance, if it is there.
pub(crate) fn groups_of_instance<'a>(
    tables: &'a Tables,
    name: &InstanceFmri,
) -> Option<&'a Ordered<Group>>
    ensures { option_copied result ≡ groups_of_instance tables.now name.now }
{
    match tables.instance_by_name(name) {
        None => None,
        Some(instance) => tables.groups_if_there(&Owner::Instance(instance.number)),
    }
}

impl<'a> Comparison<'a> {
    fn is_meant(&self, name: &ServiceFmri) -> bool
        ensures { result ≡ meant self.now name.now }
    {
        if self.of_chosen {
            self.choice.has(name)
        } else {
            !self.choice.has(name)
        }
    }

    fn is_same_service(&self, alloc: Global, name: &ServiceFmri) -> Result<bool, AllocError>
        ensures { IfOk result (λ b. IsTrue b ↔ SameService self.now name.now) }
    {
        if !self.is_meant(name) {
            return Ok(true);
        }
        let owner = Owner::Service(name.clone()?);
        let one = self.one.groups_if_there(&owner);
        let other = self.other.groups_if_there(&owner);
        are_same(alloc, self.extent, one, other)
    }

    fn is_same_instance(&self, alloc: Global, name: &InstanceFmri) -> Result<bool, AllocError>
        ensures { IfOk result (λ b. IsTrue b ↔ SameInstance self.now name.now) }
    {
        let service = name.as_fmri().service_fmri(alloc)?;
        if !self.is_meant(&service) {
            return Ok(true);
        }
        let one = groups_of_instance(self.one, name);
        let other = groups_of_instance(self.other, name);
        are_same(alloc, self.extent, one, other)
    }

    fn are_same_services(&self, alloc: Global, services: &[Service]) -> Result<bool, AllocError>
        ensures { IfOk result (λ b. IsTrue b ↔ AllByRecursion (λ s. SameService self.now s.name) services.now) }
    {
        for service in services {
            if !self.is_same_service(alloc, &service.name)? {
                return Ok(false);
            }
        }
        Ok(true)
    }

    fn are_same_instances(&self, alloc: Global, names: &[InstanceName]) -> Result<bool, AllocError>
        ensures { IfOk result (λ b. IsTrue b ↔ AllByRecursion (λ e. SameInstance self.now e.name) names.now) }
    {
        for entry in names {
            if !self.is_same_instance(alloc, &entry.name)? {
                return Ok(false);
            }
        }
        Ok(true)
    }

    fn has_same_services(&self, alloc: Global) -> Result<bool, AllocError>
        ensures { IfOk result (λ b. IsTrue b ↔ ((name : List ℕ) → SameService self.now name)) }
    {
        if !self.are_same_services(alloc, self.one.services())? {
            return Ok(false);
        }
        self.are_same_services(alloc, self.other.services())
    }

    fn has_same_instances(&self, alloc: Global) -> Result<bool, AllocError>
        ensures { IfOk result (λ b. IsTrue b ↔ ((name : List ℕ) → SameInstance self.now name)) }
    {
        if !self.are_same_instances(alloc, self.one.names().as_slice())? {
            return Ok(false);
        }
        self.are_same_instances(alloc, self.other.names().as_slice())
    }

    /// True if both have the same configured. A service or an instance that neither has is the same in both.
    pub(crate) fn finds_same(&self, alloc: Global) -> Result<bool, AllocError>
        ensures { IfOk result (λ b. IsTrue b ↔ HoldSame self.now.extent (meant self.now) self.now.one self.now.other) }
    {
        if !self.has_same_services(alloc)? {
            return Ok(false);
        }
        self.has_same_instances(alloc)
    }
}
