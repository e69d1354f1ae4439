ghost use Rattle.std.specs.Prelude.{◌≡◌, ◌≤◌, ◌+◌, ◌∷◌, [], IfOk};
ghost use Rattle.smf_model.specs.Next.{added_at, asked_add_instance, asked_add_service, asked_clear};
ghost use Rattle.smf_model.specs.Next.{asked_delete_instance, asked_if, asked_launch, asked_mark};
ghost use Rattle.smf_model.specs.Next.{asked_restart, asked_where, instance_with_ask, current_instance, greatest_instance};
ghost use Rattle.smf_model.specs.Next.{is_in_use, is_made, is_there, changes_for_addition, changes_for_deletion, outcome_of_mark, new_entry, new_instance, new_owner};
ghost use Rattle.smf_model.specs.Look.{instance_by_name, service};

use crate::change::Change;
use crate::command::{CommandReply, Mark};
use crate::general_group::{owner_by, setting_by};
use crate::held::{Instance, InstanceEntry, InstanceName, Launch, Owner, Service};
use crate::planner::{Asked, Planner, with_change};
use bitflags::Flags;
use smf_fmri::limits::{MAX_COUNT, MAX_INSTANCE};
use smf_fmri::{InstanceFmri, Items, Number, Ordered, ServiceFmri};
use smf_state::{Asks, Row, SharedRow, State};
use smf_value::Name;
use std::alloc::{AllocError, Global};

/// An instance that runs, or whose transition is under way, or that has a run.
fn is_in_use(row: &Row) -> bool
    ensures { result ≡ is_in_use row.now }
{
    row.state.runs() || row.next.is_some() || row.live.is_some() || row.side.is_some()
}

/// The changes that drop an instance.
fn changes_for_deletion(alloc: Global, instance: Instance) -> Result<Items<Change>, AllocError>
    ensures { IfOk result (λ all. all ≡ changes_for_deletion instance) }
{
    let changes = with_change(Items::new(alloc), Change::DropSnapshots(instance.number))?;
    let changes = with_change(changes, Change::DropName(instance.name))?;
    with_change(changes, Change::DropInstance(instance.number))
}

/// The group `restarter` of an instance is made from its row.
pub(crate) fn is_made(owner: &Owner, name: &Name) -> bool
    ensures { result ≡ is_made owner.now name.now }
{
    match owner {
        Owner::Service(_) => false,
        Owner::Instance(_) => name.as_str() == "restarter",
    }
}

/// Asks for something of an instance, by one bit.
fn instance_with_ask(
    alloc: Global,
    mut instance: Instance,
    ask: Asks,
) -> Result<Instance, AllocError>
    ensures { IfOk result (λ i. i ≡ instance_with_ask instance ask.0) }
{
    let mut row = instance.row.to_row()?;
    row.asks.insert(ask);
    instance.row = SharedRow::of(alloc, row)?;
    Ok(instance)
}

impl Planner<'_> {
    /// The instance of a number, as it is read.
    pub(crate) fn current_instance(&self, number: u64) -> Result<Option<Instance>, AllocError>
        ensures { IfOk result (λ i. i ≡ current_instance self.now number) }
    {
        match self.tables.instance(number) {
            None => Ok(None),
            Some(instance) => {
                let instance = self.read(instance)?;
                Ok(Some(instance))
            }
        }
    }

    pub(crate) fn add_service(&self, name: &ServiceFmri) -> Asked
        ensures { IfOk result (λ r. r ≡ asked_add_service self.now name.now (service self.now name.now)) }
    {
        match self.tables.service(name) {
            Some(_) => self.refusal_with(CommandReply::Exists),
            None => {
                let service = Service {
                    name: name.clone()?,
                    groups: Ordered::new(self.alloc),
                };
                self.one(Change::AddService(service), CommandReply::Done)
            }
        }
    }

    pub(crate) fn add_instance(&self, parent: &ServiceFmri, name: &Name) -> Asked
        ensures { IfOk result (λ r. r ≡ asked_add_instance self.now name.now (service self.now parent.now)) }
    {
        let Some(service) = self.tables.service(parent) else {
            return self.refusal_with(CommandReply::NoSuch);
        };
        let mut text = String::from_str(self.alloc, service.name.print())?;
        text.push_str(":")?;
        text.push_str(name.as_str())?;
        match InstanceFmri::read_short(self.alloc, &text)? {
            None => self.refusal_with(CommandReply::Limit),
            Some(name) => self.add_at(&name),
        }
    }

    fn add_at(&self, name: &InstanceFmri) -> Asked
        ensures { IfOk result (λ r. r ≡ added_at self.now name.now (instance_by_name self.now name.now)) }
    {
        if self.tables.instance_by_name(name).is_some() {
            return self.refusal_with(CommandReply::Exists);
        }
        let number = self.tables.next_instance().get();
        if number > MAX_INSTANCE {
            return self.refusal_with(CommandReply::Limit);
        }
        let changes = self.changes_for_addition(name)?;
        self.acceptance_with(changes, CommandReply::Made(number))
    }

    /// The restarter that the service of a new instance names.
    fn new_owner(&self, name: &InstanceFmri) -> Result<InstanceFmri, AllocError>
        ensures { IfOk result (λ owner. owner ≡ new_owner self.now name.now) }
    {
        let services_own = self.services_group(name, "general");
        owner_by(self.alloc, setting_by(self.alloc, None, services_own)?)
    }

    /// The instance of the number that comes next.
    fn new_instance(&self, name: &InstanceFmri) -> Result<Instance, AllocError>
        ensures { IfOk result (λ i. i ≡ new_instance self.now name.now) }
    {
        let owner = self.new_owner(name)?;
        let row = SharedRow::of(self.alloc, Row::new(owner))?;
        let name = name.clone()?;
        Ok(Instance {
            number: self.tables.next_instance(),
            name,
            row,
            start: None,
            previous: None,
        })
    }

    /// The change that adds it.
    fn new_entry(&self, name: &InstanceFmri) -> Result<Items<Change>, AllocError>
        ensures { IfOk result (λ all. all ≡ Change.AddInstance (new_entry self.now name.now) ∷ []) }
    {
        let instance = self.new_instance(name)?;
        let groups = Ordered::new(self.alloc);
        let entry = InstanceEntry { instance, groups };
        with_change(Items::new(self.alloc), Change::AddInstance(entry))
    }

    /// The changes that add an instance of the number that comes next.
    fn changes_for_addition(&self, name: &InstanceFmri) -> Result<Items<Change>, AllocError>
        requires { self.now.next_instance ≤ greatest_instance }
        ensures { IfOk result (λ all. all ≡ changes_for_addition self.now name.now) }
    {
        let number = self.tables.next_instance();
        let next = Number::new(number.get() + 1).unwrap();
        let changes = self.new_entry(name)?;
        let name = name.clone()?;
        let changes = with_change(changes, Change::PutName(InstanceName { name, number }))?;
        with_change(changes, Change::NextInstance(next))
    }

    pub(crate) fn delete_instance(&self, number: u64) -> Asked
        ensures { IfOk result (λ r. r ≡ asked_delete_instance self.now (current_instance self.now number)) }
    {
        let Some(instance) = self.current_instance(number)? else {
            return self.refusal_with(CommandReply::NoSuch);
        };
        if is_in_use(&instance.row) {
            return self.refusal_with(CommandReply::InUse);
        }
        let changes = changes_for_deletion(self.alloc, instance)?;
        self.acceptance_with(changes, CommandReply::Done)
    }

    pub(crate) fn is_there(&self, owner: &Owner) -> bool
        ensures { result ≡ is_there self.now owner.now }
    {
        match owner {
            Owner::Service(name) => self.tables.service(name).is_some(),
            Owner::Instance(number) => self.tables.instance(number.get()).is_some(),
        }
    }

    fn asked_if(&self, applies: bool, instance: Instance, ask: Asks) -> Asked
        ensures { IfOk result (λ r. r ≡ asked_if self.now applies instance ask.0) }
    {
        if applies {
            let after = instance_with_ask(self.alloc, instance, ask)?;
            self.one(Change::PutInstance(after), CommandReply::Done)
        } else {
            self.acceptance_with(Items::new(self.alloc), CommandReply::Done)
        }
    }

    fn asked_where(&self, applies: bool, instance: Instance, ask: Asks) -> Asked
        ensures { IfOk result (λ r. r ≡ asked_where self.now applies instance ask.0) }
    {
        if applies {
            let after = instance_with_ask(self.alloc, instance, ask)?;
            self.one(Change::PutInstance(after), CommandReply::Done)
        } else {
            self.refusal_with(CommandReply::NotInState)
        }
    }

    pub(crate) fn restart(&self, number: u64) -> Asked
        ensures { IfOk result (λ r. r ≡ asked_restart self.now (current_instance self.now number)) }
    {
        match self.current_instance(number)? {
            None => self.refusal_with(CommandReply::NoSuch),
            Some(instance) => {
                let runs = instance.row.state.runs();
                self.asked_if(runs, instance, Asks::RESTART)
            }
        }
    }

    pub(crate) fn clear(&self, number: u64) -> Asked
        ensures { IfOk result (λ r. r ≡ asked_clear self.now (current_instance self.now number)) }
    {
        match self.current_instance(number)? {
            None => self.refusal_with(CommandReply::NoSuch),
            Some(instance) => {
                let state = instance.row.state;
                let applies = state == State::Maintenance || state == State::Degraded;
                self.asked_where(applies, instance, Asks::CLEAR)
            }
        }
    }

    pub(crate) fn mark(&self, number: u64, mark: Mark) -> Asked
        ensures { IfOk result (λ r. r ≡ asked_mark self.now mark (current_instance self.now number)) }
    {
        match self.current_instance(number)? {
            None => self.refusal_with(CommandReply::NoSuch),
            Some(instance) => self.outcome_of_mark(mark, instance),
        }
    }

    fn outcome_of_mark(&self, mark: Mark, instance: Instance) -> Asked
        ensures { IfOk result (λ r. r ≡ outcome_of_mark self.now mark instance) }
    {
        let state = instance.row.state;
        match mark {
            Mark::Degraded => self.asked_where(state == State::Online, instance, Asks::DEGRADED),
            Mark::Maintenance => self.asked_if(
                state != State::Maintenance,
                instance,
                Asks::MAINTENANCE,
            ),
            Mark::MaintenanceNow => self.asked_if(
                state != State::Maintenance,
                instance,
                Asks::MAINTENANCE_NOW,
            ),
        }
    }

    /// A restarter of a name begins.
    #[tactic(auto, unfolding(crate::specs::Next::asked_launch))]
    pub(crate) fn launch(&self, restarter: &InstanceFmri) -> Asked
        ensures { IfOk result (λ r. r ≡ asked_launch self.now restarter.now) }
    {
        let count = self.tables.launch_of(restarter);
        if count >= MAX_COUNT {
            return self.refusal_with(CommandReply::Limit);
        }
        let next = Number::new(count + 1).unwrap();
        let launch = Launch {
            restarter: restarter.clone()?,
            count: next,
        };
        self.one(Change::PutLaunch(launch), CommandReply::Made(count + 1))
    }
}
