ghost use Rattle.std.specs.Option.{option_copied};
ghost use Rattle.std.specs.Prelude.{◌≡◌, ◌+◌, ◌<◌, ◌≤◌, length, ℕ, IfOk, OnErr, OnOk};
ghost use Rattle.smf_fmri.specs.ByKey.{Rises, lookup};
ghost use Rattle.smf_model.specs.Look.{by_entry, by_name, by_snapshot, holdings_after_change, empty, holdings_after_changes, instance};
ghost use Rattle.smf_model.specs.Look.{lacks, launch_of, instance_by_name, no_service_has, others_of, groups_if_there, put_new, service, snapshot, with_groups};
ghost use Rattle.smf_model.specs.Tables.{HasRoom, held_in};

use crate::change::Change;
use crate::held::{
    EntryPart, Instance, InstanceEntry, InstanceName, Launch, Owner, Service, StoredSnapshot,
};
use smf_fmri::{InstanceFmri, Items, Number, Ordered, ServiceFmri, Table};
use smf_value::Group;
use std::alloc::{AllocError, Global};
use std::marker::Model;

/// The contents of a repository, in lists in key order.
pub struct Tables {
    pub(crate) lists: Lists,
}

/// Crates above call this, and prove nothing of the lists that go.
impl Drop for Tables {
    fn drop(self) {
        let Tables { lists: _lists } = self;
    }
}

/// The lists, with the room that is left in them.
#[derive(Drop)]
pub(crate) struct Lists {
    pub(crate) services: Table<Service>,
    pub(crate) instances: Table<InstanceEntry>,
    pub(crate) names: Table<InstanceName>,
    pub(crate) snapshots: Table<StoredSnapshot>,
    pub(crate) launches: Table<Launch>,
    pub(crate) next_instance: Number,
    pub(crate) next_snapshot: Number,
    pub(crate) revision: Number,
}

impl Model for Tables {
    ghost use Rattle.smf_model.specs.Contents.{Holdings};
    ghost use Rattle.smf_model.specs.Tables.{held_in};

    ghost Value = { Holdings };

    ghost view = { λ t. held_in t.lists };
}

fn lacks(service: &Service, name: &str) -> bool
    ensures { result ≡ lacks name.now service.now }
{
    service.groups.get_text(name).is_none()
}

impl Tables {
    /// Nothing held, at revision 0.
    pub fn new(alloc: Global) -> Tables
        ensures { result ≡ empty }
    {
        let one = Number::new(1).unwrap();
        Tables {
            lists: Lists {
                services: Table::new(alloc),
                instances: Table::new(alloc),
                names: Table::new(alloc),
                snapshots: Table::new(alloc),
                launches: Table::new(alloc),
                next_instance: one,
                next_snapshot: one,
                revision: Number::zero(),
            },
        }
    }

    /// The services by name.
    pub fn services(&self) -> &[Service]
        ensures { result.now ≡ self.now.services }
    {
        self.lists.services.as_slice()
    }

    /// The instances by number.
    pub fn entries(&self) -> &[InstanceEntry]
        ensures all { result.now ≡ self.now.instances }
        ensures rises { Rises by_entry self.now.instances }
    {
        self.lists.instances.as_slice()
    }

    /// Names with numbers, by name.
    pub fn names(&self) -> &Table<InstanceName>
        ensures { result.now.items ≡ self.now.names }
    {
        &self.lists.names
    }

    /// The snapshots with their bytes, by number.
    pub fn snapshots(&self) -> &[StoredSnapshot]
        ensures { result.now ≡ self.now.snapshots }
    {
        self.lists.snapshots.as_slice()
    }

    pub fn launches(&self) -> &[Launch]
        ensures { result.now ≡ self.now.launches }
    {
        self.lists.launches.as_slice()
    }

    pub fn next_instance(&self) -> Number
        ensures { result ≡ self.now.next_instance }
    {
        self.lists.next_instance
    }

    pub fn next_snapshot(&self) -> Number
        ensures { result ≡ self.now.next_snapshot }
    {
        self.lists.next_snapshot
    }

    /// How many commands were accepted.
    pub fn revision(&self) -> Number
        ensures { result ≡ self.now.revision }
    {
        self.lists.revision
    }

    pub fn service(&self, name: &ServiceFmri) -> Option<&Service>
        ensures { option_copied result ≡ service self.now name.now }
    {
        self.lists.services.get(name)
    }

    /// The service that has a text as its name.
    pub(crate) fn service_named(&self, text: &str) -> Option<&Service>
        ensures { option_copied result ≡ service self.now text.now }
    {
        self.lists.services.get_text(text)
    }

    /// True if no service has a group of a name.
    pub(crate) fn no_service_has(&self, name: &str) -> bool
        ensures { result ≡ no_service_has self.now.services name.now }
    {
        let services = self.services();
        services.iter().all(|service| lacks(service, name))
    }

    /// An instance with its groups.
    pub(crate) fn entry(&self, number: u64) -> Option<&InstanceEntry>
        ensures { option_copied result ≡ lookup by_entry self.now.instances number }
    {
        self.lists.instances.get(&number)
    }

    /// The instance of a number, its row as it is stored.
    #[tactic(auto, using(crate::proofs::Entries::lookup_bare))]
    pub fn instance(&self, number: u64) -> Option<&Instance>
        ensures { option_copied result ≡ instance self.now number }
    {
        self.entry(number).map(|entry| &entry.instance)
    }

    fn number_named(&self, name: &InstanceFmri) -> Option<&InstanceName>
        ensures { option_copied result ≡ lookup by_name self.now.names name.now }
    {
        self.lists.names.get(name)
    }

    /// The instance of a name.
    pub fn instance_by_name(&self, name: &InstanceFmri) -> Option<&Instance>
        ensures { option_copied result ≡ instance_by_name self.now name.now }
    {
        match self.number_named(name) {
            None => None,
            Some(entry) => self.instance(entry.number.get()),
        }
    }

    pub fn snapshot(&self, number: u64) -> Option<&StoredSnapshot>
        ensures { option_copied result ≡ snapshot self.now number }
    {
        self.lists.snapshots.get(&number)
    }

    /// How often a restarter was launched.
    pub fn launch_of(&self, restarter: &InstanceFmri) -> u64
        ensures { result ≡ launch_of self.now restarter.now }
    {
        match self.lists.launches.get(restarter) {
            None => 0,
            Some(launch) => launch.count.get(),
        }
    }

    /// The groups of an owner, or none if there is no such owner.
    pub fn groups_if_there(&self, owner: &Owner) -> Option<&Ordered<Group>>
        ensures { option_copied result ≡ groups_if_there self.now owner.now }
    {
        match owner {
            Owner::Service(name) => self.service(name).map(|service| &service.groups),
            Owner::Instance(number) => self.entry(number.get()).map(|entry| &entry.groups),
        }
    }
}

impl Tables {
    /// Makes changes, as a store does with what it reads. If memory runs out, what is held is as it was.
    pub fn make(&mut self, changes: Items<Change>) -> Result<(), AllocError>
        ensures ok { OnOk result (self.new ≡ holdings_after_changes self.old changes) }
        ensures err { OnErr result (self.new ≡ self.old) }
    {
        reserve(&mut self.lists, changes.len())?;
        install(&mut self.lists, changes.into_vec());
        Ok(())
    }
}

fn drop_snapshots(snapshots: &mut Table<StoredSnapshot>, instance: Number)
    ensures dropped { snapshots.new.items ≡ others_of instance snapshots.old.items }
    ensures room { snapshots.old.room ≤ snapshots.new.room }
{
    snapshots.retain(|s| s.snapshot().instance != instance);
}

/// Puts a snapshot in its place, if none has its number.
fn add_snapshot(snapshots: &mut Table<StoredSnapshot>, snapshot: StoredSnapshot)
    requires { 0 < snapshots.old.room }
    ensures put { snapshots.new.items ≡ put_new by_snapshot snapshot snapshots.old.items }
    ensures room { snapshots.old.room ≤ snapshots.new.room + 1 }
{
    let number = snapshot.snapshot().number;
    if snapshots.get(number.as_u64()).is_none() {
        snapshots.put(snapshot);
    }
}

fn put_groups(lists: &mut Lists, owner: Owner, groups: Ordered<Group>)
    ensures made { held_in lists.new ≡ with_groups (held_in lists.old) groups owner }
    ensures room { (n : ℕ) → HasRoom lists.old (n + 1) → HasRoom lists.new n }
{
    match owner {
        Owner::Service(name) => lists.services.amend(&name, groups),
        Owner::Instance(number) => lists
            .instances
            .amend(number.as_u64(), EntryPart::Groups(groups)),
    }
}

fn put_instance(lists: &mut Lists, instance: Instance)
    ensures made { held_in lists.new ≡ holdings_after_change (held_in lists.old) (Change.PutInstance instance) }
    ensures room { (n : ℕ) → HasRoom lists.old (n + 1) → HasRoom lists.new n }
{
    let number = instance.number;
    lists
        .instances
        .amend(number.as_u64(), EntryPart::Instance(instance));
}

/// Makes one change, for which there is room.
fn install_one(lists: &mut Lists, change: Change)
    requires { HasRoom lists.old 1 }
    ensures made { held_in lists.new ≡ holdings_after_change (held_in lists.old) change }
    ensures room { (n : ℕ) → HasRoom lists.old (n + 1) → HasRoom lists.new n }
{
    match change {
        Change::AddService(service) => lists.services.put(service),
        Change::DropService(name) => lists.services.remove(&name),
        Change::AddInstance(entry) => lists.instances.put(entry),
        Change::PutInstance(instance) => put_instance(lists, instance),
        Change::DropInstance(number) => lists.instances.remove(number.as_u64()),
        Change::PutName(name) => lists.names.put(name),
        Change::DropName(name) => lists.names.remove(&name),
        Change::PutGroups(owner, groups) => put_groups(lists, owner, groups),
        Change::AddSnapshot(snapshot) => add_snapshot(&mut lists.snapshots, snapshot),
        Change::DropSnapshots(instance) => drop_snapshots(&mut lists.snapshots, instance),
        Change::PutLaunch(launch) => lists.launches.put(launch),
        Change::NextInstance(number) => lists.next_instance = number,
        Change::NextSnapshot(number) => lists.next_snapshot = number,
        Change::SetRevision(number) => lists.revision = number,
    }
}

/// Makes the changes, for which there is room.
pub(crate) fn install(lists: &mut Lists, changes: Vec<Change>)
    requires { HasRoom lists.old (length changes.items) }
    ensures { held_in lists.new ≡ holdings_after_changes (held_in lists.old) changes.items }
{
    for change in changes {
        install_one(lists, change);
    }
}

/// Makes room for so many changes. If memory runs out, the lists hold what they held.
pub(crate) fn reserve(lists: &mut Lists, changes: usize) -> Result<(), AllocError>
    ensures room { OnOk result (HasRoom lists.new changes) }
    ensures same { held_in lists.new ≡ held_in lists.old }
{
    lists.services.reserve(changes)?;
    lists.instances.reserve(changes)?;
    lists.names.reserve(changes)?;
    lists.snapshots.reserve(changes)?;
    lists.launches.reserve(changes)?;
    Ok(())
}

impl Clone for Tables {
    ghost is_clone = { λ s copy. copy ≡ s };

    fn clone(&self) -> Result<Tables, AllocError> {
        let lists = copy_of(&self.lists)?;
        Ok(Tables { lists })
    }
}

fn copy_of(lists: &Lists) -> Result<Lists, AllocError>
    ensures { IfOk result (λ copy. held_in copy ≡ held_in lists.now) }
{
    let services = lists.services.clone()?;
    let instances = lists.instances.clone()?;
    let names = lists.names.clone()?;
    let snapshots = lists.snapshots.clone()?;
    let launches = lists.launches.clone()?;
    Ok(Lists {
        services,
        instances,
        names,
        snapshots,
        launches,
        next_instance: lists.next_instance,
        next_snapshot: lists.next_snapshot,
        revision: lists.revision,
    })
}
