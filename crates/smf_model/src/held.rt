ghost use Rattle.smf_fmri.specs.ByKey.{by_number, by_text};
ghost use Rattle.smf_snap.specs.Body.{spelled_both};
ghost use Rattle.smf_value.specs.Body.{AreGroups};
ghost use Rattle.std.specs.Prelude.{◌≡◌, IfOk, refl};

use smf_fmri::{
    Bytes, ExactClone, HasPart, InstanceFmri, Keyed, Number, Ordered, ServiceFmri, TextKeyed,
};
use smf_snap::encode_both;
use smf_state::SharedRow;
use smf_value::Group;
use std::alloc::{AllocError, Global};
use std::marker::Model;

/// The owner of groups.
#[derive(Drop)]
pub enum Owner {
    Service(ServiceFmri),
    /// An instance, by its number.
    Instance(Number),
}

/// A service, with its groups by name.
#[derive(Drop)]
pub struct Service {
    pub name: ServiceFmri,
    pub groups: Ordered<Group>,
}

/// An instance, its groups aside. The snapshot `running` stands in its row.
#[derive(Drop)]
pub struct Instance {
    /// From 1 to 2^24 - 1, never given again.
    pub number: Number,
    pub name: InstanceFmri,
    pub row: SharedRow,
    /// The snapshot by which it last came online.
    pub start: Option<Number>,
    /// The snapshot that the last revert took.
    pub previous: Option<Number>,
}

/// An instance, with its groups by name.
#[derive(Drop)]
pub struct InstanceEntry {
    pub instance: Instance,
    pub groups: Ordered<Group>,
}

/// Which instance has a name.
#[derive(Drop)]
pub struct InstanceName {
    pub name: InstanceFmri,
    pub number: Number,
}

/// The configuration of an instance at one time: the groups of its service and its own.
#[derive(Drop)]
pub struct Snapshot {
    /// From 1, never given again.
    pub number: Number,
    pub instance: Number,
    pub service_groups: Ordered<Group>,
    pub instance_groups: Ordered<Group>,
}

/// A snapshot with its bytes, which are written once. Contracts see the snapshot.
#[derive(Drop)]
pub struct StoredSnapshot {
    snapshot: Snapshot,
    body: Bytes,
}

/// How often a restarter was launched.
#[derive(Drop)]
pub struct Launch {
    pub restarter: InstanceFmri,
    pub count: Number,
}

/// A new part of an entry, which takes the place of the old one.
#[derive(Drop)]
pub enum EntryPart {
    /// The instance, which keeps its number.
    Instance(Instance),
    Groups(Ordered<Group>),
}

impl Model for StoredSnapshot {
    ghost use Rattle.smf_model.specs.declared.held.Snapshot.{Snapshot};
    ghost use Rattle.smf_snap.specs.Body.{spelled_both};
    ghost use Rattle.smf_value.specs.Body.{AreGroups};
    ghost use Rattle.std.specs.Prelude.{◌≡◌};

    ghost Value = { Snapshot };

    ghost view = { λ s. s.snapshot };

    ghost invariant = { λ s.
        (s.body ≡ spelled_both s.snapshot.service_groups s.snapshot.instance_groups)
        × AreGroups s.snapshot.service_groups
        × AreGroups s.snapshot.instance_groups };
}

impl StoredSnapshot {
    /// A snapshot, and the bytes that are written of it.
    pub fn new(alloc: Global, snapshot: Snapshot) -> Result<StoredSnapshot, AllocError>
        ensures { IfOk result (λ s. s ≡ snapshot) }
    {
        let body = encode_both(alloc, &snapshot.service_groups, &snapshot.instance_groups)?;
        Ok(StoredSnapshot { snapshot, body })
    }

    pub fn snapshot(&self) -> &Snapshot
        ensures { result.now ≡ self.now }
    {
        &self.snapshot
    }

    /// The bytes of the snapshot.
    pub fn body(&self) -> &Bytes
        ensures spelled { result.now ≡ spelled_both self.now.service_groups self.now.instance_groups }
        ensures formed { AreGroups self.now.service_groups × AreGroups self.now.instance_groups }
    {
        &self.body
    }
}

impl Keyed for Service {
    type Key = ServiceFmri;

    ghost by = { by_text (λ s. s.name) };

    fn key(&self) -> &ServiceFmri {
        &self.name
    }

    ghost same = { refl };
}

impl TextKeyed for Service {
    ghost text = { λ s. s.name };

    fn key_text(&self) -> &str {
        self.name.print()
    }

    ghost same_order = { λ ss rises. rises };
}

impl HasPart for Service {
    type Part = Ordered<Group>;

    ghost with_part = { λ s gs. record s { groups = gs } };

    fn set_part(&mut self, part: Ordered<Group>) {
        self.groups = part;
    }

    ghost keeps_key = { λ s gs. refl };
}

impl Keyed for InstanceEntry {
    type Key = u64;

    ghost by = { by_number (λ e. e.instance.number) };

    fn key(&self) -> &u64 {
        self.instance.number.as_u64()
    }

    ghost same = { refl };
}

impl HasPart for InstanceEntry {
    ghost use Rattle.smf_model.specs.Entry.{with_part, with_part_keeps_key};

    type Part = EntryPart;

    ghost with_part = { λ e part. with_part part e };

    fn set_part(&mut self, part: EntryPart) {
        match part {
            EntryPart::Instance(instance) => {
                let number = self.instance.number;
                self.instance = instance;
                self.instance.number = number;
            }
            EntryPart::Groups(groups) => self.groups = groups,
        }
    }

    ghost keeps_key = { λ e part. with_part_keeps_key part e };
}

impl Keyed for InstanceName {
    type Key = InstanceFmri;

    ghost by = { by_text (λ n. n.name) };

    fn key(&self) -> &InstanceFmri {
        &self.name
    }

    ghost same = { refl };
}

impl Keyed for StoredSnapshot {
    type Key = u64;

    ghost by = { by_number (λ s. s.number) };

    fn key(&self) -> &u64 {
        self.snapshot.number.as_u64()
    }

    ghost same = { refl };
}

impl Keyed for Launch {
    type Key = InstanceFmri;

    ghost by = { by_text (λ l. l.restarter) };

    fn key(&self) -> &InstanceFmri {
        &self.restarter
    }

    ghost same = { refl };
}

impl Clone for Service {
    ghost is_clone = { λ s copy. copy ≡ s };

    fn clone(&self) -> Result<Service, AllocError> {
        let name = self.name.clone()?;
        let groups = self.groups.clone()?;
        Ok(Service { name, groups })
    }
}

impl ExactClone for Service {
    ghost exact = { λ s copy same. same };
}

impl Clone for InstanceEntry {
    ghost is_clone = { λ s copy. copy ≡ s };

    fn clone(&self) -> Result<InstanceEntry, AllocError> {
        let instance = self.instance.clone()?;
        let groups = self.groups.clone()?;
        Ok(InstanceEntry { instance, groups })
    }
}

impl ExactClone for InstanceEntry {
    ghost exact = { λ s copy same. same };
}

impl Clone for InstanceName {
    ghost is_clone = { λ s copy. copy ≡ s };

    fn clone(&self) -> Result<InstanceName, AllocError> {
        let name = self.name.clone()?;
        Ok(InstanceName {
            name,
            number: self.number,
        })
    }
}

impl ExactClone for InstanceName {
    ghost exact = { λ s copy same. same };
}

impl Clone for Owner {
    ghost is_clone = { λ s copy. copy ≡ s };

    fn clone(&self) -> Result<Owner, AllocError> {
        match self {
            Owner::Service(name) => Ok(Owner::Service(name.clone()?)),
            Owner::Instance(number) => Ok(Owner::Instance(*number)),
        }
    }
}

impl Clone for Instance {
    ghost is_clone = { λ s copy. copy ≡ s };

    fn clone(&self) -> Result<Instance, AllocError> {
        let name = self.name.clone()?;
        let row = self.row.clone()?;
        Ok(Instance {
            number: self.number,
            name,
            row,
            start: self.start,
            previous: self.previous,
        })
    }
}

impl Clone for Launch {
    ghost is_clone = { λ s copy. copy ≡ s };

    fn clone(&self) -> Result<Launch, AllocError> {
        let restarter = self.restarter.clone()?;
        Ok(Launch {
            restarter,
            count: self.count,
        })
    }
}

impl Clone for Snapshot {
    ghost is_clone = { λ s copy. copy ≡ s };

    fn clone(&self) -> Result<Snapshot, AllocError> {
        let service_groups = self.service_groups.clone()?;
        let instance_groups = self.instance_groups.clone()?;
        Ok(Snapshot {
            number: self.number,
            instance: self.instance,
            service_groups,
            instance_groups,
        })
    }
}

impl Clone for StoredSnapshot {
    ghost is_clone = { λ s copy. copy ≡ s };

    fn clone(&self) -> Result<StoredSnapshot, AllocError> {
        let snapshot = self.snapshot.clone()?;
        let body = self.body.clone()?;
        Ok(StoredSnapshot { snapshot, body })
    }
}

impl ExactClone for StoredSnapshot {
    ghost exact = { λ s copy same. same };
}

impl ExactClone for Launch {
    ghost exact = { λ s copy same. same };
}
