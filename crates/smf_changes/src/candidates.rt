ghost use Rattle.std.specs.Option.{option_copied};
ghost use Rattle.std.specs.Prelude.{◌≡◌, [], ◌∷◌, ◌++◌, flat_map, if◌then◌else◌, IfOk, OnOk};
ghost use Rattle.smf_fmri.specs.ByKey.{put_all};
ghost use Rattle.smf_model.specs.Next.{is_instance_of};
ghost use Rattle.smf_model.specs.Look.{groups_of};
ghost use Rattle.smf_changes.specs.Candidates.{candidates, has_general, is_number, is_of, lacks_general, named_by, numbers_where};
ghost use Rattle.smf_changes.specs.Candidates.{of_general, of_owner, of_service};
ghost use Rattle.smf_changes.specs.Candidates.{running_by, runs_of, waits_for};
ghost use Rattle.smf_changes.specs.Changes.{by_itself};
ghost use Rattle.smf_changes.specs.ChangeRecord.{AreUpTo};

use crate::lists::put_numbers;
use smf_fmri::{Number, Ordered, ServiceFmri};
use smf_model::{Change, Instance, Journal, Owner, Plain, Snapshot};
use smf_value::Group;
use std::alloc::{AllocError, Global};

fn is_instance_of(
    alloc: Global,
    service: &ServiceFmri,
    instance: &Instance,
) -> Result<bool, AllocError>
    ensures { IfOk result (λ b. b ≡ is_instance_of service.now instance.now) }
{
    let of = instance.name.as_fmri().service_fmri(alloc)?;
    Ok(of == *service)
}

/// Puts a number after the others, if it is one of those that are looked for.
fn push_if(all: &mut Vec<u64>, is_one: bool, number: Number) -> Result<(), AllocError>
    ensures { OnOk result (all.new.items ≡ (if is_one then all.old.items ++ number ∷ [] else all.old.items)) }
{
    if is_one {
        all.push(number.get())?;
    }
    Ok(())
}

/// The instances of a service.
fn of_service<J: Journal>(
    alloc: Global,
    plain: &Plain<J>,
    service: &ServiceFmri,
) -> Result<Vec<u64>, AllocError>
    ensures { IfOk result (λ all. all.items ≡ of_service plain.now.held service.now) }
{
    let entries = plain.entries();
    let mut all = Vec::new(alloc);
    for entry in entries {
        let is_one = is_instance_of(alloc, service, &entry.instance)?;
        push_if(&mut all, is_one, entry.instance.number)?;
    }
    Ok(all)
}

fn is_number(number: u64, running: Option<u64>) -> bool
    ensures { result ≡ is_number number running }
{
    match running {
        None => false,
        Some(running) => running == number,
    }
}

/// An instance waits for a snapshot that is not there.
fn waits_for<J: Journal>(plain: &Plain<J>, snapshot: u64, instance: &Instance) -> bool
    ensures { result ≡ waits_for plain.now.held snapshot instance.now }
{
    is_number(snapshot, instance.row.running) && plain.snapshot(snapshot).is_none()
}

/// The instances that wait for a snapshot.
fn waiting_for<J: Journal>(
    alloc: Global,
    plain: &Plain<J>,
    snapshot: u64,
) -> Result<Vec<u64>, AllocError>
    ensures { IfOk result (λ all. all.items ≡ numbers_where (waits_for plain.now.held snapshot) plain.now.held) }
{
    let entries = plain.entries();
    let mut all = Vec::new(alloc);
    for entry in entries {
        let is_one = waits_for(plain, snapshot, &entry.instance);
        push_if(&mut all, is_one, entry.instance.number)?;
    }
    Ok(all)
}

/// The instances that wait for a snapshot which comes: none if it is above all that rows name.
fn waiting_above<J: Journal>(
    alloc: Global,
    plain: &Plain<J>,
    top: u64,
    snapshot: u64,
) -> Result<Vec<u64>, AllocError>
    requires { AreUpTo top plain.now.held.instances }
    ensures { IfOk result (λ all. all.items ≡ numbers_where (waits_for plain.now.held snapshot) plain.now.held) }
{
    if top < snapshot {
        return Ok(Vec::new(alloc));
    }
    waiting_for(alloc, plain, snapshot)
}

fn is_of(number: Number, snapshot: Option<&Snapshot>) -> bool
    ensures { result ≡ is_of number (option_copied snapshot.entry) }
{
    match snapshot {
        None => false,
        Some(snapshot) => snapshot.instance == number,
    }
}

/// The snapshot `running` of an instance is one of the instance with this number.
fn runs_of<J: Journal>(plain: &Plain<J>, number: Number, instance: &Instance) -> bool
    ensures { result ≡ runs_of plain.now.held number instance.now }
{
    match instance.row.running {
        None => false,
        Some(running) => is_of(number, plain.snapshot(running)),
    }
}

/// The instances whose snapshot `running` is one of an instance.
fn running_of<J: Journal>(
    alloc: Global,
    plain: &Plain<J>,
    number: Number,
) -> Result<Vec<u64>, AllocError>
    ensures { IfOk result (λ all. all.items ≡ numbers_where (runs_of plain.now.held number) plain.now.held) }
{
    let entries = plain.entries();
    let mut all = Vec::new(alloc);
    for entry in entries {
        let is_one = runs_of(plain, number, &entry.instance);
        push_if(&mut all, is_one, entry.instance.number)?;
    }
    Ok(all)
}

fn one(alloc: Global, number: Number) -> Result<Vec<u64>, AllocError>
    ensures { IfOk result (λ all. all.items ≡ number ∷ []) }
{
    let mut all = Vec::new(alloc);
    all.push(number.get())?;
    Ok(all)
}

fn has_general(groups: &Ordered<Group>) -> bool
    ensures { result ≡ has_general groups.now }
{
    match groups.get_text("general") {
        None => false,
        Some(_) => true,
    }
}

/// True if the service has a group `general`.
#[tactic(auto, unfolding(smf_model::specs::Shown::shown_groups))]
fn shows_general<J: Journal>(plain: &Plain<J>, service: &ServiceFmri) -> Result<bool, AllocError>
    ensures { IfOk result (λ b. b ≡ has_general (groups_of plain.now.held (Owner.Service service.now))) }
{
    let owner = Owner::Service(service.clone()?);
    let groups = plain.groups(&owner)?;
    Ok(has_general(&groups))
}

/// Neither groups nor those of a service have a group `general` among them.
fn lacks_general<J: Journal>(
    plain: &Plain<J>,
    service: &ServiceFmri,
    groups: &Ordered<Group>,
) -> Result<bool, AllocError>
    ensures { IfOk result (λ b. b ≡ lacks_general plain.now.held service.now groups.now) }
{
    if has_general(groups) {
        return Ok(false);
    }
    let shows = shows_general(plain, service)?;
    Ok(!shows)
}

/// The instances of a service, if they see its groups change.
fn of_general<J: Journal>(
    alloc: Global,
    plain: &Plain<J>,
    service: &ServiceFmri,
    groups: &Ordered<Group>,
) -> Result<Vec<u64>, AllocError>
    ensures { IfOk result
        (λ all. all.items
        ≡ of_general (lacks_general plain.now.held service.now groups.now) plain.now.held service.now) }
{
    if lacks_general(plain, service, groups)? {
        return Ok(Vec::new(alloc));
    }
    of_service(alloc, plain, service)
}

fn of_owner<J: Journal>(
    alloc: Global,
    plain: &Plain<J>,
    owner: &Owner,
    groups: &Ordered<Group>,
) -> Result<Vec<u64>, AllocError>
    ensures { IfOk result (λ all. all.items ≡ of_owner plain.now.held owner.now groups.now) }
{
    match owner {
        Owner::Service(name) => of_general(alloc, plain, name, groups),
        Owner::Instance(number) => one(alloc, *number),
    }
}

/// The instances of a service that is dropped, if they see its groups.
fn of_dropped<J: Journal>(
    alloc: Global,
    plain: &Plain<J>,
    service: &ServiceFmri,
) -> Result<Vec<u64>, AllocError>
    ensures { IfOk result
        (λ all. all.items ≡ of_general (lacks_general plain.now.held service.now []) plain.now.held service.now) }
{
    let none = Ordered::new(alloc);
    of_general(alloc, plain, service, &none)
}

/// The instance that a change names, or those of the service whose group `general` it may put or drop.
fn named_by<J: Journal>(
    alloc: Global,
    plain: &Plain<J>,
    change: &Change,
) -> Result<Vec<u64>, AllocError>
    ensures { IfOk result (λ all. all.items ≡ named_by plain.now.held change.now) }
{
    match change {
        Change::AddService(service) => of_general(alloc, plain, &service.name, &service.groups),
        Change::DropService(name) => of_dropped(alloc, plain, name),
        Change::AddInstance(entry) => one(alloc, entry.instance.number),
        Change::PutInstance(instance) => one(alloc, instance.number),
        Change::DropInstance(number) => one(alloc, *number),
        Change::PutName(_) => Ok(Vec::new(alloc)),
        Change::DropName(_) => Ok(Vec::new(alloc)),
        Change::PutGroups(owner, groups) => of_owner(alloc, plain, owner, groups),
        Change::AddSnapshot(_) => Ok(Vec::new(alloc)),
        Change::DropSnapshots(number) => one(alloc, *number),
        Change::PutLaunch(_) => Ok(Vec::new(alloc)),
        Change::NextInstance(_) => Ok(Vec::new(alloc)),
        Change::NextSnapshot(_) => Ok(Vec::new(alloc)),
        Change::SetRevision(_) => Ok(Vec::new(alloc)),
    }
}

/// The instances whose snapshot `running` a change adds or drops.
fn running_by<J: Journal>(
    alloc: Global,
    plain: &Plain<J>,
    top: u64,
    change: &Change,
) -> Result<Vec<u64>, AllocError>
    requires { AreUpTo top plain.now.held.instances }
    ensures { IfOk result (λ all. all.items ≡ running_by plain.now.held change.now) }
{
    match change {
        Change::AddService(_) => Ok(Vec::new(alloc)),
        Change::DropService(_) => Ok(Vec::new(alloc)),
        Change::AddInstance(_) => Ok(Vec::new(alloc)),
        Change::PutInstance(_) => Ok(Vec::new(alloc)),
        Change::DropInstance(_) => Ok(Vec::new(alloc)),
        Change::PutName(_) => Ok(Vec::new(alloc)),
        Change::DropName(_) => Ok(Vec::new(alloc)),
        Change::PutGroups(_, _) => Ok(Vec::new(alloc)),
        Change::AddSnapshot(stored) => {
            waiting_above(alloc, plain, top, stored.snapshot().number.get())
        }
        Change::DropSnapshots(number) => running_of(alloc, plain, *number),
        Change::PutLaunch(_) => Ok(Vec::new(alloc)),
        Change::NextInstance(_) => Ok(Vec::new(alloc)),
        Change::NextSnapshot(_) => Ok(Vec::new(alloc)),
        Change::SetRevision(_) => Ok(Vec::new(alloc)),
    }
}

fn put_named<J: Journal>(
    alloc: Global,
    plain: &Plain<J>,
    changes: &[Change],
    all: &mut Ordered<u64>,
) -> Result<(), AllocError>
    ensures { OnOk result (all.new ≡ put_all by_itself (flat_map (named_by plain.now.held) changes.now) all.old) }
{
    for change in changes {
        let named = named_by(alloc, plain, change)?;
        put_numbers(all, &named)?;
    }
    Ok(())
}

fn put_running<J: Journal>(
    alloc: Global,
    plain: &Plain<J>,
    top: u64,
    changes: &[Change],
    all: &mut Ordered<u64>,
) -> Result<(), AllocError>
    requires { AreUpTo top plain.now.held.instances }
    ensures { OnOk result (all.new ≡ put_all by_itself (flat_map (running_by plain.now.held) changes.now) all.old) }
{
    for change in changes {
        let running = running_by(alloc, plain, top, change)?;
        put_numbers(all, &running)?;
    }
    Ok(())
}

/// The instances whose view items changes may touch, in number order. No row names a snapshot `running` above the top.
pub(crate) fn all_candidates<J: Journal>(
    alloc: Global,
    plain: &Plain<J>,
    top: u64,
    changes: &[Change],
) -> Result<Ordered<u64>, AllocError>
    requires { AreUpTo top plain.now.held.instances }
    ensures { IfOk result (λ all. all ≡ put_all by_itself (candidates plain.now.held changes.now) []) }
{
    let mut all = Ordered::new(alloc);
    put_named(alloc, plain, changes, &mut all)?;
    put_running(alloc, plain, top, changes, &mut all)?;
    Ok(all)
}
